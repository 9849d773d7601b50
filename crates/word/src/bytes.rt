// The bytes of a register, and its rotations.
ghost use Rattle.std.specs.Prelude.{◌≡◌, ◌<◌};
ghost use Rattle.word.specs.Bytes as B;

// The bytes in the opposite order.
#[tactic(auto, unfolding(crate::specs::Bytes::reversed))]
pub fn reversed(x: u64) -> u64
    ensures { result ≡ B.reversed 8 x }
{
    x.swap_bytes()
}

// Each byte all ones where it is not 0.
#[tactic(auto, using(crate::proofs::Orc::picked_8))]
pub fn combined(x: u64) -> u64
    ensures { result ≡ B.combined 8 x }
{
    let seven = 0x7F7F_7F7F_7F7F_7F7F;
    let t = ((x & seven) + seven) | x;
    ((t >> 7) & 0x0101_0101_0101_0101) * 255
}

// A rotation to the right by s places.
#[tactic(auto, using(crate::proofs::Rotations::right_by))]
pub fn ror(x: u64, s: u32) -> u64
    requires { s < 64 }
    ensures { result ≡ B.ror x s }
{
    x.rotate_right(s)
}

// A rotation to the left by s places.
#[tactic(auto, using(crate::proofs::Rotations::left_by))]
pub fn rol(x: u64, s: u32) -> u64
    requires { s < 64 }
    ensures { result ≡ B.rol x s }
{
    x.rotate_left(s)
}
