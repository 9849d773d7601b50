// The guest registers as bytes, eight each.
ghost use Rattle.std.specs.Prelude.{◌≡◌};
ghost use Rattle.le.specs.Le.{all_bytes};
ghost use Rattle.state_bytes.specs.States as States;

use rv64_run::run::Hart;

// Kept: no plainer as From: it takes a PC besides, and to_bytes writes into lent bytes.
pub fn from_bytes(b: &[u8; 256], pc: u64) -> Hart
    ensures { result ≡ States.rv64_hart b.now pc }
{
    let mut x = [0u64; 32];
    le::read64(b, &mut x);
    Hart { x, pc }
}

pub fn to_bytes(h: &Hart, b: &mut [u8; 256])
    ensures { b.new ≡ all_bytes 8 h.now.x }
{
    le::write64(&h.x, b);
}
