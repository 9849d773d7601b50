// What the forms compute from registers and flags.
#![tactic(auto)]

ghost use Rattle.std.specs.Prelude.{◌≡◌, ◌/◌, ◌<◌, ◌≤◌, length, if◌then◌else◌, slice_index};
ghost use Rattle.a64_alu.specs.Alu.{op_value, op1_value, compared, holds_even, holds, insert};
ghost use Rattle.a64_alu.specs.Nzcv.{flags_of, nzcv_of};

use a64::{Op, Op1};

// PSTATE.{N, Z, C, V}.
#[derive(Clone, Copy, PartialEq, Eq, Debug)]
pub struct Flags {
    pub n: bool,
    pub z: bool,
    pub c: bool,
    pub v: bool,
}

// The flags in the low four bits of a number.
impl From<u64> for Flags {
    ghost from_gives = { λ nzcv flags. flags ≡ flags_of nzcv };

    fn from(nzcv: u64) -> Flags {
        Flags {
            n: nzcv / 8 % 2 == 1,
            z: nzcv / 4 % 2 == 1,
            c: nzcv / 2 % 2 == 1,
            v: nzcv % 2 == 1,
        }
    }
}

// The number whose low four bits are the flags.
impl From<Flags> for u64 {
    ghost from_gives = { λ flags nzcv. nzcv ≡ nzcv_of flags };

    fn from(flags: Flags) -> u64 {
        let high = u64::from(flags.n) * 8 + u64::from(flags.z) * 4;
        high + u64::from(flags.c) * 2 + u64::from(flags.v)
    }
}

// Register n as an operand: 31 is zero.
pub fn get(x: &[u64; 31], n: u32) -> u64
    ensures { result ≡ slice_index x.now n }
{
    x.get(n as usize).copied().unwrap_or(0)
}

// Division by 0 gives 0.
fn udiv(x: u64, y: u64) -> u64
    ensures { result ≡ x / y }
{
    x.checked_div(y).unwrap_or(0)
}

// The result of a three-register form on registers n and m. Each arm reads them, so that the decoder's test of the
// operation is the only one.
#[tactic(auto, using(crate::proofs::Results::op_results), unfolding(crate::specs::Alu::op_value))]
pub fn op_value(op: Op, x: &[u64; 31], n: u32, m: u32) -> u64
    ensures { result ≡ op_value op (slice_index x.now n) (slice_index x.now m) }
{
    match op {
        Op::Add => get(x, n).wrapping_add(get(x, m)),
        Op::Sub => get(x, n).wrapping_sub(get(x, m)),
        Op::And => get(x, n) & get(x, m),
        Op::Orr => get(x, n) | get(x, m),
        Op::Eor => get(x, n) ^ get(x, m),
        Op::Lslv => get(x, n) << (get(x, m) % 64),
        Op::Lsrv => get(x, n) >> (get(x, m) % 64),
        Op::Asrv => word::asr(get(x, n), (get(x, m) % 64) as u32),
        Op::Mul => get(x, n).wrapping_mul(get(x, m)),
        Op::Smulh => word::mulh(get(x, n), get(x, m)),
        Op::Umulh => word::mulhu(get(x, n), get(x, m)),
        Op::Udiv => udiv(get(x, n), get(x, m)),
        Op::Sdiv => word::sdiv(get(x, n), get(x, m)),
        Op::Bic => get(x, n) & !get(x, m),
        Op::Orn => get(x, n) | !get(x, m),
        Op::Eon => get(x, n) ^ !get(x, m),
        Op::Rorv => word::bytes::ror(get(x, n), (get(x, m) % 64) as u32),
    }
}

// The result of a form with one source.
#[tactic(auto, unfolding(crate::specs::Alu::op1_value))]
pub fn op1_value(op: Op1, x: u64) -> u64
    ensures { result ≡ op1_value op x }
{
    match op {
        Op1::Rev => word::bytes::reversed(x),
        Op1::Clz => word::counts::clz(x),
    }
}

// The flags of x - y.
pub fn compare(x: u64, y: u64) -> Flags
    ensures { result ≡ compared x y }
{
    let n = 0x8000_0000_0000_0000 <= x.wrapping_sub(y);
    Flags {
        n,
        z: x == y,
        c: y <= x,
        v: word::slt(x, y) != n,
    }
}

fn holds_even(k: u32, f: Flags) -> bool
    ensures { result ≡ holds_even k f }
{
    let less = f.n != f.v;
    let z = f.z;
    let c = f.c;
    match k {
        0 => z,
        1 => c,
        2 => f.n,
        3 => f.v,
        4 => c & !z,
        5 => !less,
        6 => !less & !z,
        _ => true,
    }
}

// Whether condition k holds.
#[tactic(auto, unfolding(crate::specs::Alu::holds))]
pub fn holds(k: u32, f: Flags) -> bool
    ensures { result ≡ holds k f }
{
    let even = holds_even(k / 2, f);
    if (k % 2 == 1) & (k != 15) {
        !even
    } else {
        even
    }
}

// x with its halfword hw replaced.
#[tactic(auto, unfolding(crate::specs::Alu::insert))]
pub fn insert(x: u64, hw: u32, v: u64) -> u64
    requires { (hw < 4) × (v < 65536) }
    ensures { result ≡ insert x hw v }
{
    match hw {
        0 => v + x / 65536 * 65536,
        1 => x % 65536 + v * 65536 + x / 0x1_0000_0000 * 0x1_0000_0000,
        2 => x % 0x1_0000_0000 + v * 0x1_0000_0000 + x / 0x1_0000_0000_0000 * 0x1_0000_0000_0000,
        _ => x % 0x1_0000_0000_0000 + v * 0x1_0000_0000_0000,
    }
}
