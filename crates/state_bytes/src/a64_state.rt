// The A64 state as bytes: X0 to X30, SP and NZCV, eight bytes each.
ghost use Rattle.std.specs.Prelude.{◌≡◌};
ghost use Rattle.state_bytes.specs.States as States;

use a64_alu::Flags;
use a64_exec::state::A64State;

// Kept: no plainer as From: to_bytes writes into lent bytes, and a hart's from_bytes takes a PC besides.
pub fn from_bytes(b: &[u8; 264]) -> A64State
    ensures { result ≡ States.a64_state b.now }
{
    let mut x = [0u64; 31];
    le::read64(b, &mut x);
    let sp = le::load::<u64>(b, 248);
    let flags = Flags::from(le::load::<u64>(b, 256));
    A64State { x, sp, flags }
}

pub fn to_bytes(s: &A64State, b: &mut [u8; 264])
    ensures { b.new ≡ States.a64_bytes s.now }
{
    le::write64(&s.x, b);
    le::store(b, 248, s.sp);
    le::store(b, 256, u64::from(s.flags));
}
