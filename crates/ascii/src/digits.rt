// Digits as bytes.
ghost use Rattle.std.specs.Prelude.{◌≡◌, ◌<◌};
ghost use Rattle.le.specs.Le.{bytes};
ghost use Rattle.ascii.specs.Ascii.{digit, hex};

pub fn digit(d: u32) -> u8
    requires { d < 16 }
    ensures { result ≡ digit d }
{
    let first = if d < 10 { 48 } else { 87 };
    (first + d) as u8
}

// The eight digits of v as the bytes of a number, the first the lowest.
#[tactic(auto, using(crate::proofs::Lanes::hex8))]
pub fn hex_digits(v: u32) -> u64
    ensures { bytes 8 result ≡ hex 8 v }
{
    let v = u64::from(v);
    // Each byte in a lane of 16 bits, each half of it in one of 8, and 39 more for a letter.
    let low = v % 0x100 * 0x1_0000 + v / 0x100 % 0x100;
    let b = (low * 0x1_0000 + v / 0x1_0000 % 0x100) * 0x1_0000 + v / 0x100_0000;
    let c = (b / 16 & 0x000F_000F_000F_000F) + (b & 0x000F_000F_000F_000F) * 0x100;
    c + 0x3030_3030_3030_3030 + ((c + 0x0606_0606_0606_0606) / 16 & 0x0101_0101_0101_0101) * 39
}
