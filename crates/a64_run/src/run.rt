// The run of a block's words, and the operations A64 run and A64 run from.
ghost use Rattle.std.specs.Prelude.{◌≡◌, ◌+◌, ◌*◌, ◌^◌, ◌≤◌, length, nat_lt};
ghost use Rattle.le.specs.Le.{load};
ghost use Rattle.a64.specs.Forms.{decode};
ghost use Rattle.a64_exec.specs.Exec.{after, exec};
ghost use Rattle.a64_exec.specs.Parts.{held};
ghost use Rattle.a64_run.specs.Run as A64;

use a64_exec::exec::{Machine, Outcome};
use a64_exec::state::A64State;
use rules::refusals::{Refusal, Refused};

// How a run ended.
#[derive(Clone, Copy, PartialEq, Eq, Debug)]
pub enum End {
    OffEnd = 1,
    Spent = 2,
    Unreadable = 3,
    Fault = 4,
    Returned = 5,
    Called = 6,
}

// Document 01's number of an end.
impl From<End> for u32 {
    ghost from_gives = { λ end n. n ≡ A64.end_number end };

    fn from(end: End) -> u32 {
        end as u32
    }
}

// How a run ended, the steps done and the state after them.
#[derive(Drop)]
pub struct Ran {
    pub end: End,
    pub steps: u64,
    pub state: A64State,
}

// Word i of the block, read and executed.
// Kept: what stays lent, here and in a64_exec: no plainer in a record, which a caller's check would not look into.
#[tactic(auto, using(a64::proofs::Coding::decode_in_range))]
fn step(machine: &mut Machine, block: &[u8], i: usize) -> Outcome
    requires { 4 * i + 4 ≤ length block.now }
    ensures goes { exec (decode (load 4 block.now (4 * i))) (held machine.old) ≡ after result (held machine.new) }
    ensures x_lent { machine.new.x.ghost_name ≡ machine.old.x.ghost_name }
    ensures memory_lent { machine.new.memory.ghost_name ≡ machine.old.memory.ghost_name }
    ensures size { length machine.new.memory.now ≡ length machine.old.memory.now }
{
    machine.exec(a64::decode(le::load(block, 4 * i)))
}

// Runs the block's words from the one numbered `first` until one ends the run: how it ended, and the steps done.
fn run_words(
    machine: &mut Machine,
    block: &[u8],
    address: u64,
    first: u64,
    budget: u64,
) -> (End, u64)
    ensures ran { A64.ran result.0 result.1 (held machine.new) ≡ A64.from block.now address first budget (held machine.old) }
    ensures x_lent { machine.new.x.ghost_name ≡ machine.old.x.ghost_name }
    ensures memory_lent { machine.new.memory.ghost_name ≡ machine.old.memory.ghost_name }
    ensures size { length machine.new.memory.now ≡ length machine.old.memory.now }
{
    let left = ((block.len() / 4) as u64).saturating_sub(first);
    for k in 0..left {
        if k == budget {
            return (End::Spent, k);
        }
        let i = first + k;
        match step(machine, block, i as usize) {
            Outcome::Next => {}
            Outcome::Fault => return (End::Fault, k),
            Outcome::Unreadable => return (End::Unreadable, k),
            Outcome::Return => return (End::Returned, k + 1),
            Outcome::Call => {
                machine.link(address.wrapping_add(4 * i + 4));
                return (End::Called, k + 1);
            }
        }
    }
    (End::OffEnd, left)
}

// Whether `len` bytes from `base` on end beyond 2^64.
fn beyond(base: u64, len: u64) -> bool
    ensures { result ≡ nat_lt (2 ^ 64) (base + len) }
{
    len > 0 && base.checked_add(len - 1).is_none()
}

// A64 run from (document 02, No. 5): the words of `block` from the one numbered `first`;
// `address` is that of word 0, and `memory` begins at `base`.
// Kept: memory and base side by side, by the C interface; within the run `Machine` holds them.
pub fn a64_run_from(
    block: &[u8],
    address: u64,
    first: u64,
    mut state: A64State,
    budget: u64,
    memory: &mut [u8],
    base: u64,
) -> Result<Ran, Refused<A64State>>
    ensures { A64.result (A64.numbers result) memory.new ≡ A64.a64_run_from block.now address first state budget memory.old base }
{
    if block.len() % 4 != 0 {
        return Err(Refused {
            refusal: Refusal::BlockLength,
            given: state,
        });
    }
    if beyond(base, memory.len() as u64) {
        return Err(Refused {
            refusal: Refusal::MemoryExceedsTop,
            given: state,
        });
    }
    let mut machine = Machine {
        x: &mut state.x,
        sp: state.sp,
        flags: state.flags,
        memory,
        base,
    };
    let (end, steps) = run_words(&mut machine, block, address, first, budget);
    state.sp = machine.sp;
    state.flags = machine.flags;
    Ok(Ran { end, steps, state })
}

// A64 run (document 01): from word 0.
pub fn a64_run(
    block: &[u8],
    address: u64,
    state: A64State,
    budget: u64,
    memory: &mut [u8],
    base: u64,
) -> Result<Ran, Refused<A64State>>
    ensures { A64.result (A64.numbers result) memory.new ≡ A64.a64_run block.now address state budget memory.old base }
{
    a64_run_from(block, address, 0, state, budget, memory, base)
}
