// Counts of a register's bits, by the language's own counts.
ghost use Rattle.std.specs.Prelude.{◌≡◌};
ghost use Rattle.word.specs.Counts as C;

// The zeros above the highest bit that is set.
#[tactic(auto, using(crate::proofs::Counting::leading_is))]
pub fn clz(x: u64) -> u64
    ensures { result ≡ C.clz 64 x }
{
    u64::from(x.leading_zeros())
}

// The zeros below the lowest bit that is set.
#[tactic(auto, using(crate::proofs::Counting::trailing_is))]
pub fn ctz(x: u64) -> u64
    ensures { result ≡ C.ctz 64 x }
{
    u64::from(x.trailing_zeros())
}

// The bits that are set.
#[tactic(auto, using(crate::proofs::Counting::ones_is))]
pub fn cpop(x: u64) -> u64
    ensures { result ≡ C.cpop 64 x }
{
    u64::from(x.count_ones())
}

// The same of the low word.
// Kept: no plainer: a function for each width is one line, and one over both widths needs a trait of its own.
#[tactic(auto, using(crate::proofs::Counting::leading_low))]
pub fn clzw(x: u64) -> u64
    ensures { result ≡ C.clz 32 x }
{
    u64::from(((x % 0x1_0000_0000) as u32).leading_zeros())
}

pub fn ctzw(x: u64) -> u64
    ensures { result ≡ C.ctz 32 x }
{
    u64::from(((x % 0x1_0000_0000) as u32).trailing_zeros())
}

pub fn cpopw(x: u64) -> u64
    ensures { result ≡ C.cpop 32 x }
{
    u64::from(((x % 0x1_0000_0000) as u32).count_ones())
}
