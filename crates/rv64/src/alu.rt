// What the arithmetic instructions and the branches compute.
ghost use Rattle.std.specs.Prelude.{◌≡◌};
ghost use Rattle.rv64.specs.Alu as N;

#[derive(Drop)]
pub enum Alu {
    Add,
    Sub,
    Sll,
    Slt,
    Sltu,
    Xor,
    Srl,
    Sra,
    Or,
    And,
    Mul,
    Mulh,
    Mulhsu,
    Mulhu,
    Div,
    Divu,
    Rem,
    Remu,
    Addw,
    Subw,
    Sllw,
    Srlw,
    Sraw,
    Mulw,
    Divw,
    Divuw,
    Remw,
    Remuw,
}

// When a branch is taken.
#[derive(Drop)]
pub enum Cond {
    Eq,
    Ne,
    Lt,
    Ge,
    Ltu,
    Geu,
}

pub fn sextw(x: u64) -> u64
    ensures { result ≡ N.sextw x }
{
    word::sext(x, 32)
}

// Whether a signed quotient overflows; least is the least number of the width.
fn overflows(least: u64, x: u64, y: u64) -> bool
    ensures { result ≡ N.overflows least x y }
{
    x == least && y == u64::MAX
}

// The signed quotient.
#[tactic(auto, unfolding(crate::specs::Alu::quotient))]
pub fn quotient(least: u64, x: u64, y: u64) -> u64
    ensures { result ≡ N.quotient least x y }
{
    if y == 0 {
        return u64::MAX;
    }
    if overflows(least, x, y) {
        return x;
    }
    word::sdiv(x, y)
}

#[tactic(auto, unfolding(crate::specs::Alu::remainder))]
pub fn remainder(least: u64, x: u64, y: u64) -> u64
    ensures { result ≡ N.remainder least x y }
{
    if y == 0 {
        return x;
    }
    if overflows(least, x, y) {
        return 0;
    }
    word::srem(x, y)
}

// The unsigned quotient; most is the greatest number of the width.
#[tactic(auto, unfolding(crate::specs::Alu::quotient_u))]
pub fn quotient_u(most: u64, x: u64, y: u64) -> u64
    ensures { result ≡ N.quotient_u most x y }
{
    x.checked_div(y).unwrap_or(most)
}

#[tactic(auto, unfolding(crate::specs::Alu::remainder_u))]
pub fn remainder_u(x: u64, y: u64) -> u64
    ensures { result ≡ N.remainder_u x y }
{
    x.checked_rem(y).unwrap_or(x)
}
