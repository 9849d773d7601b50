// Operation Place: a block's bytes after what a store holds.
#![tactic(auto)]

ghost use Rattle.std.specs.Prelude.{◌≡◌, ◌+◌, ◌≤◌, length};
ghost use Rattle.le.specs.Le.{splice};
ghost use Rattle.code_cache.specs.Place as P;

use rules::refusals::Refusal;

// Where the code starts, and how much of the store is then used.
#[derive(Clone, Copy, PartialEq, Eq, Debug)]
pub struct Placed {
    pub start: u64,
    pub used: u64,
}

// The bytes of `code` over those of `store` from `at` on.
// Kept: a loop, by what may not change: an archive calls memcpy and memset alone, and copy_from_slice is a memmove.
pub fn copy(store: &mut [u8], at: usize, code: &[u8])
    requires { at + length code.now ≤ length store.old }
    ensures { store.new ≡ splice store.old at code.now }
{
    for i in 0..code.len() {
        store[at + i] = code[i];
    }
}

// Kept: store and used side by side, by the C interface.
// The code goes to `used`, rounded up to a multiple of 4. Nothing overflows: what is left of the store is compared.
#[tactic(auto, using(crate::proofs::Placing::beyond, crate::proofs::Placing::no_room, crate::proofs::Placing::room))]
pub fn place(store: &mut [u8], used: u64, code: &[u8]) -> Result<Placed, Refusal>
    ensures { P.result (P.answer result) store.new ≡ P.place store.old used code.now }
{
    let size = store.len() as u64;
    let len = code.len() as u64;
    if size < used {
        return Err(Refusal::UsedExceedsStore);
    }
    let rest = size - used;
    let pad = (4 - used % 4) % 4;
    if rest < pad || rest - pad < len {
        return Err(Refusal::CodeExceedsStore);
    }
    let start = used + pad;
    copy(store, start as usize, code);
    Ok(Placed {
        start,
        used: start + len,
    })
}
