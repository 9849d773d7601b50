// FNV-1a of 32 bits.
#![tactic(auto)]

ghost use Rattle.std.specs.Prelude.{◌≡◌, ◌*◌, ◌%◌, ◌^◌};
ghost use Rattle.std.specs.List.{fold};
ghost use Rattle.le.specs.Le.{bytes};
ghost use Rattle.fnv1a.specs.Fnv1a as F;

pub const BASIS: u32 = 0x811C_9DC5;

const PRIME: u32 = 0x0100_0193;

// The product modulo 2^32.
fn wrapping_mul(a: u32, b: u32) -> u32
    ensures { result ≡ a * b % 2 ^ 32 }
{
    a.wrapping_mul(b)
}

#[tactic(auto, unfolding(crate::specs::Fnv1a::step))]
fn step(h: u32, b: u8) -> u32
    ensures { result ≡ F.step h b }
{
    wrapping_mul(h ^ u32::from(b), PRIME)
}

// The hash with the bytes more.
fn more(h: u32, s: &[u8]) -> u32
    ensures { result ≡ fold F.step h s.now }
{
    s.iter().fold(h, |h, b| step(h, *b))
}

// The hash with the eight bytes of v more, the lowest first.
// Kept: tried, misses the bar of speed: by a fold over to_le_bytes a lookup in the index takes 1.05 times the time.
pub fn more64(h: u32, v: u64) -> u32
    ensures { result ≡ F.more h (bytes 8 v) }
{
    let mut h = h;
    let mut rest = v;
    for _ in 0..8u32 {
        h = step(h, (rest % 256) as u8);
        rest /= 256;
    }
    h
}

#[tactic(auto, using(crate::proofs::Laws::more_folded))]
pub fn fnv1a(s: &[u8]) -> u32
    ensures { result ≡ F.fnv1a s.now }
{
    more(BASIS, s)
}
