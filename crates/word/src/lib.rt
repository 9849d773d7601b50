// Arithmetic of 64-bit registers, by the language's own numbers. Each function equals the definition of its name; sums,
// differences and products modulo 2^64 are the numbers' own `wrapping_add`, `wrapping_sub` and `wrapping_mul`.
#![tactic(auto)]

ghost use Rattle.std.specs.Prelude.{◌≡◌, ◌*◌, ◌^◌, ◌<◌, ◌≤◌};
ghost use Rattle.word.specs.Word as W;

pub mod bytes;
pub mod counts;

// The product of two numbers of 32 bits.
fn product32(x: u64, y: u64) -> u64
    requires { (x < 2 ^ 32) × (y < 2 ^ 32) }
    ensures { (result ≡ x * y) × (result ≤ 0xFFFF_FFFE_0000_0001) }
{
    x * y
}

// Bits 127 to 64 of the unsigned product.
#[tactic(auto, using(crate::proofs::Products::whole, crate::proofs::Products::high_of))]
pub fn mulhu(x: u64, y: u64) -> u64
    ensures { result ≡ W.mulhu x y }
{
    let x0 = x % 0x1_0000_0000;
    let x1 = x / 0x1_0000_0000;
    let y0 = y % 0x1_0000_0000;
    let y1 = y / 0x1_0000_0000;
    let t = product32(x1, y0) + product32(x0, y0) / 0x1_0000_0000;
    let u = t % 0x1_0000_0000 + product32(x0, y1);
    product32(x1, y1) + t / 0x1_0000_0000 + u / 0x1_0000_0000
}

// Bits 127 to 64 of the product of a signed and an unsigned number.
// Kept: this and `mulh`, no plainer as one: each is the one before with a correction of its own.
#[tactic(auto, using(crate::proofs::Laws::mulhsu_positive, crate::proofs::Laws::mulhsu_negative))]
pub fn mulhsu(x: u64, y: u64) -> u64
    ensures { result ≡ W.mulhsu x y }
{
    let h = mulhu(x, y);
    if x < 0x8000_0000_0000_0000 {
        h
    } else {
        h.wrapping_sub(y)
    }
}

// Bits 127 to 64 of the signed product.
#[tactic(auto, using(crate::proofs::Laws::mulh_positive, crate::proofs::Laws::mulh_negative))]
pub fn mulh(x: u64, y: u64) -> u64
    ensures { result ≡ W.mulh x y }
{
    let h = mulhsu(x, y);
    if y < 0x8000_0000_0000_0000 {
        h
    } else {
        h.wrapping_sub(x)
    }
}

// Whether x is below y as signed numbers.
pub fn slt(x: u64, y: u64) -> bool
    ensures { result ≡ W.slt x y }
{
    x.cast_signed() < y.cast_signed()
}

// x shifted right by s places with copies of its sign bit.
// Kept: s < 64 here and in two rotations: no plainer as a type, which each caller would make of a remainder.
pub fn asr(x: u64, s: u32) -> u64
    requires { s < 64 }
    ensures { result ≡ W.asr x s }
{
    (x.cast_signed() >> s).cast_unsigned()
}

// The low k bits of x, extended by their sign.
#[tactic(auto, using(crate::proofs::Extend::by_shifts))]
pub fn sext(x: u64, k: u32) -> u64
    requires { (1 ≤ k) × (k ≤ 64) }
    ensures { result ≡ W.sext k x }
{
    let s = 64 - k;
    asr(x << s, s)
}

// The signed quotient, rounded toward zero; 0 for the divisor 0.
pub fn sdiv(x: u64, y: u64) -> u64
    ensures { result ≡ W.sdiv x y }
{
    if y == 0 {
        return 0;
    }
    let quotient = x.cast_signed().wrapping_div(y.cast_signed());
    quotient.cast_unsigned()
}

// The remainder of the signed division, with the dividend's sign; x for the divisor 0.
#[tactic(auto, using(crate::proofs::Casts::nonzero), unfolding(crate::specs::Word::srem, crate::specs::Word::magnitude))]
pub fn srem(x: u64, y: u64) -> u64
    ensures { result ≡ W.srem x y }
{
    if y == 0 {
        return x;
    }
    let remainder = x.cast_signed().wrapping_rem(y.cast_signed());
    remainder.cast_unsigned()
}
