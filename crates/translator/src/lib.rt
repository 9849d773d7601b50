// The operation Translate: `compile_native_block`, with document 01's refusals around it.
#![tactic(auto)]

ghost use Rattle.std.specs.Prelude.{◌≡◌, false, ℕ, ◌*◌, ◌≤◌, min};
ghost use Rattle.std.proofs.Math.Option.{Option};
ghost use Rattle.rules.specs.Limits.{max_instrs, max_words};
ghost use Rattle.jit_arm64.specs.Parts.{is_fenced, Partly};
ghost use Rattle.translator.specs.Parts.{answer_of, RoomOf};
ghost use Rattle.translator.specs.Numbers.{numbers};
ghost use Rattle.translator.specs.Translate as T;

use emit_native::Host;
use jit_arm64::block;
use jit_arm64::block::{Stop, Walked};
use rules::SHORT_WORDS;
use rules::refusals::Refusal;

// How a block ends (document 02, No. 3).
#[derive(Clone, Copy, PartialEq, Eq, Debug)]
pub enum EndKind {
    Plain = 1,
    // a helper ended it
    Helper = 2,
    // FENCE.I ended it
    Drop = 3,
}

impl From<EndKind> for u32 {
    ghost from_gives = { λ kind n. n ≡ T.end_number kind };

    #[tactic(auto, unfolding(crate::specs::Translate::end_number))]
    fn from(kind: EndKind) -> u32 {
        kind as u32
    }
}

// A block that was written: its length in bytes, its count of instructions, and how it ends.
#[derive(Clone, Copy)]
pub struct Translated {
    pub length: u32,
    pub count: u32,
    pub end: EndKind,
}

fn end_kind(fence: bool, stop: Stop) -> EndKind
    ensures { (f : Option ℕ) → fence ≡ is_fenced f → result ≡ T.end_kind f stop }
{
    if fence {
        return EndKind::Drop;
    }
    if let Stop::Helper = stop {
        return EndKind::Helper;
    }
    EndKind::Plain
}

fn bad_slot_offset(n: u64) -> bool
    ensures { result ≡ T.bad_slot_offset n }
{
    n % 8 != 0 || rules::MAX_SLOT_OFFSET < n
}

// The answer for a block of `length` bytes, for which there were `room` bytes of output.
fn answer_for(done: Walked, length: usize, room: usize) -> Result<Translated, Refusal>
    requires { length ≤ 4 * max_words }
    ensures { (f : Option ℕ) → done.fence ≡ is_fenced f → numbers result ≡ answer_of f done length room }
{
    if room < length {
        return Err(Refusal::OutputShort);
    }
    Ok(Translated {
        length: length as u32,
        count: done.n,
        end: end_kind(done.fence, done.stop),
    })
}

// How much of the output the short emitter's words may take: nothing where they are no block.
fn room_of(walked: Walked, room: usize) -> usize
    ensures { RoomOf walked room result }
{
    if walked.full {
        return 0;
    }
    if walked.n == 0 {
        return 0;
    }
    room
}

// A block that is longer than the short emitter.
fn go_on_long(
    before: &[u32; SHORT_WORDS],
    from: Walked,
    guest: &[u8],
    pc: u64,
    most: u32,
    host: Host,
    output: &mut [u8],
) -> Result<Translated, Refusal>
    requires { (T.bad_slot_offset host.slot_offset ≡ false) × (most ≤ max_instrs) × Partly host guest.now pc most before.now from }
    ensures { (limit : ℕ) → most ≡ min limit max_instrs → T.result (numbers result) output.new ≡ T.translate host guest.now pc limit output.old }
{
    let found = block::continue_native_block(before, from, guest, pc, most, host);
    let done = found.done;
    let em = found.em;
    let length = em.finish(output);
    answer_for(done, length, output.len())
}

// The same.
// Kept: tried, misses the bar of speed as one: `translate` calls this in two places, so that it stays a function of its
// own and the long emitter is no part of that frame. The compiler takes the one above into it, and looks for copies
// once more.
fn go_on(
    before: &[u32; SHORT_WORDS],
    from: Walked,
    guest: &[u8],
    pc: u64,
    most: u32,
    host: Host,
    output: &mut [u8],
) -> Result<Translated, Refusal>
    requires { (T.bad_slot_offset host.slot_offset ≡ false) × (most ≤ max_instrs) × Partly host guest.now pc most before.now from }
    ensures { (limit : ℕ) → most ≡ min limit max_instrs → T.result (numbers result) output.new ≡ T.translate host guest.now pc limit output.old }
{
    go_on_long(before, from, guest, pc, most, host, output)
}

// Operation Translate of document 01.
pub fn translate(
    guest: &[u8],
    pc: u64,
    limit: u32,
    host: Host,
    output: &mut [u8],
) -> Result<Translated, Refusal>
    ensures { T.result (numbers result) output.new ≡ T.translate host guest.now pc limit output.old }
{
    if bad_slot_offset(host.slot_offset) {
        return Err(Refusal::SlotOffset);
    }
    if limit == 0 {
        return Err(Refusal::LimitZero);
    }
    if pc % 2 == 1 {
        return Err(Refusal::OddPc);
    }
    let most = limit.min(rules::MAX_INSTRS);
    let found = block::compile_native_block(guest, pc, most, host);
    let done = found.done;
    let em = found.em;
    // no branch before this: it would bring a copy of the emitter
    let room = room_of(done, output.len());
    let length = em.finish(&mut output[0..room]);
    if done.full {
        // Kept: tried, misses the bar of speed: a `min` leaves one call, which is taken into this frame with the long
        // emitter.
        if limit < rules::MAX_INSTRS {
            return go_on(&em.words, done, guest, pc, limit, host, output);
        }
        return go_on(&em.words, done, guest, pc, rules::MAX_INSTRS, host, output);
    }
    if done.n == 0 {
        if let Stop::NotFetched = done.stop {
            return Err(Refusal::NotFetched);
        }
        return Err(Refusal::NotCovered);
    }
    answer_for(done, length, output.len())
}
