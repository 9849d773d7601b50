// `compile_native_block`: limit, alignment and fetch around the emitters. FENCE.I ends a block (document 02, No. 3).
ghost use Rattle.std.specs.Prelude.{◌≡◌, ◌+◌, ◌%◌, ◌<◌, ◌≤◌, true, false, ◌++◌, length, None, ◌≢◌};
ghost use Rattle.rules.specs.Limits.{inline_words, end_words, max_instrs, max_slot_offset};
ghost use Rattle.isa.specs.declared.zbb.Found.{Found};
ghost use Rattle.isa.specs.Zbb.{find};
ghost use Rattle.emit_native.specs.Calls.{product};
ghost use Rattle.emit_native.specs.Parts.{held, nothing, answer, emitted};
ghost use Rattle.zbb.specs.Emission.{emission};
ghost use Rattle.jit_arm64.specs.Block.{emit_inline, emit_term_helper};
ghost use Rattle.jit_arm64.specs.Fence.{is_fence_i};
ghost use Rattle.jit_arm64.specs.Parts.{Narrow, alone, Compiled, unfit, Walking, Onward, Partly, ShortOf, LongOf, sets_next, has_return, helped_count, helped_stop, is_full};

use crate::fetch::fetch;
use a64_emitter::{A64Emitter, BlockEmitter, ShortEmitter};
use emit_native::{EmitFlow, Emitted, Host, InstrEmitter};
use rules::{END_WORDS, INLINE_WORDS, INSTR_WORDS, MAX_WORDS, SHORT_INSTRS, SHORT_WORDS};

// Why the walk over the guest code stopped.
#[derive(Clone, Copy, PartialEq)]
pub enum Stop {
    Limit,
    Ended,
    Helper,
    Uncovered,
    NotFetched,
}

// What the walk did: how many words there are, the index after its last inline instruction, how many instructions, why
// it stopped, whether FENCE.I did that, and whether there was no room for one more.
// Kept: two flags, by a named form of document 01: `Stop` has its five cases and no other.
#[derive(Clone, Copy)]
pub struct Walked {
    pub len: usize,
    pub i: usize,
    pub n: u32,
    pub stop: Stop,
    pub fence: bool,
    pub full: bool,
}

// A block's words, and what the walk did; where a short emitter was full, the words so far are in front.
#[derive(Drop)]
pub struct NativeBlock<const N: usize> {
    pub em: BlockEmitter<N>,
    pub done: Walked,
}

// Whether the opcode is one of Zbb's: OP, OP-IMM, OP-32, OP-IMM-32.
fn may_be_zbb(instr: u32) -> bool
    ensures { result ≡ false → find instr ≡ None }
{
    let opcode = instr % 128;
    matches!(
        opcode,
        isa::OPCODE_OP | isa::OPCODE_OP_IMM | isa::OPCODE_OP_32 | isa::OPCODE_OP_IMM_32
    )
}

// Zbb's words in the place of those that the Rust's emitter left; these stay where it is no Zbb instruction.
fn emit_zbb(mut em: InstrEmitter<'_>, instr: u32) -> Emitted<'_>
    ensures other { find instr ≡ None → answer result ≡ unfit (held em.entry) }
    ensures zbb { (find instr ≢ None) → answer result ≡ emitted (nothing (held em.entry).lent (held em.entry).slot_offset) (emission (find instr) instr) }
{
    let len = em.len;
    em.len = 0;
    let found = zbb::emit_native_zbb(em, instr);
    match found.flow {
        Some(_) => found,
        None => {
            let mut em = found.em;
            em.len = len;
            em.none()
        }
    }
}

// The inline words of an instruction, by its width, in a new emitter. The Rust's emitter refuses every Zbb instruction,
// so that its answer stands where it is another, and a block without Zbb does not pay for Zbb.
// Kept: the slot offset's bound here and below is no ghost field of Host, by what may not change: Translate takes any
// offset, and refuses by 1.
fn emit_native(part: &mut [u32; INSTR_WORDS], host: Host, pc: u64, instr: u32) -> Emitted<'_>
    requires { (host.slot_offset ≤ max_slot_offset) × Narrow instr }
    ensures { Compiled part.entry.ghost_name host.slot_offset (emit_inline product host pc instr).calls (emit_inline product host pc instr).flow result }
{
    let em = InstrEmitter::new(part).with_slots(host.slot_offset);
    if instr % 4 != 3 {
        let low = (instr % 0x1_0000) as u16;
        return instr16::emit_native_instr16(em, host.ignore_ebreak, pc, low);
    }
    let d = isa::decode::decode32(instr);
    let out = instr32::emit_native_instr(em, pc, instr, d);
    if out.flow.is_none() && may_be_zbb(instr) {
        return emit_zbb(out.em, instr);
    }
    out
}

// The words of a helper's call, after those that the inline emitter left.
fn emit_term_helper(
    em: InstrEmitter<'_>,
    host: Host,
    pc: u64,
    instr: u32,
    emitted: u32,
) -> Emitted<'_>
    requires { Narrow instr × (emitted ≤ max_instrs) × (held em ≡ alone (held em).lent host.slot_offset (emit_inline product host pc instr).calls) }
    ensures { Compiled (held em.entry).lent host.slot_offset ((emit_inline product host pc instr).calls ++ (emit_term_helper host pc instr emitted).calls) (emit_term_helper host pc instr emitted).flow result }
{
    if instr % 4 != 3 {
        let low = (instr % 0x1_0000) as u16;
        return term_helper::emit_native_term_helper16(em, host, pc, low, emitted);
    }
    let d = isa::decode::decode32(instr);
    term_helper::emit_native_term_helper32(em, host, pc, instr, d, emitted)
}

// How many instructions a helper's emitter counts, and why the walk stops there, by its flow.
// Kept: two matches on one flow, no plainer as a pair: the definitions are two.
#[tactic(auto, unfolding(crate::specs::Parts::helped_count))]
fn helped(flow: Option<EmitFlow>) -> u32
    ensures { result ≡ helped_count flow }
{
    match flow {
        Some(EmitFlow::Terminate) => 1,
        Some(EmitFlow::Continue) | None => 0,
    }
}

#[tactic(auto, unfolding(crate::specs::Parts::helped_stop))]
fn helper_stop(flow: Option<EmitFlow>) -> Stop
    ensures { result ≡ helped_stop flow }
{
    match flow {
        Some(EmitFlow::Terminate) => Stop::Helper,
        Some(EmitFlow::Continue) | None => Stop::Uncovered,
    }
}

// Whether after `len` of `all` words there is no room for one more instruction and the end.
fn lacks_room(len: usize, all: usize) -> bool
    requires { inline_words + end_words ≤ all }
    ensures { (result ≡ true → all < len + (inline_words + end_words)) × (result ≡ false → len + (inline_words + end_words) ≤ all) }
{
    all - INLINE_WORDS - END_WORDS < len
}

// Whether the walk stopped for want of room: neither an instruction nor the limit stopped it.
#[tactic(auto, unfolding(crate::specs::Parts::is_full))]
fn is_full(stop: Stop, fence: bool, n: u32, most: u32) -> bool
    ensures { result ≡ is_full stop «fence» n most }
{
    stop == Stop::Limit && !fence && n != most
}

// Whether the end of a block sets the next PC, and whether there is an end.
#[tactic(auto, unfolding(crate::specs::Parts::sets_next))]
fn sets_next(stop: Stop) -> bool
    ensures { result ≡ sets_next stop }
{
    !matches!(stop, Stop::Helper | Stop::Ended)
}

#[tactic(auto, unfolding(crate::specs::Parts::has_return))]
fn has_return(stop: Stop) -> bool
    ensures { result ≡ has_return stop }
{
    stop != Stop::Helper
}

// FENCE.I: MISC-MEM with funct3 1.
fn is_fence_i(instr: u32) -> bool
    ensures { result ≡ is_fence_i instr }
{
    instr % 128 == isa::OPCODE_MISC_MEM && instr / 4096 % 8 == isa::F3_FENCE_I
}

// The instructions after those of `from`, at most `most` in all and none after FENCE.I: each by itself, its words
// appended, until there is no room for one more and the end.
fn walk(words: &mut [u32], guest: &[u8], start: u64, from: Walked, most: u32, host: Host) -> Walked
    requires { (inline_words + end_words ≤ length words.old) × (host.slot_offset ≤ max_slot_offset) × (most ≤ max_instrs) × Walking host guest.now start most words.old from.len from.i from.n }
    ensures { Onward host guest.now start most from.n words.new result }
{
    let mut len: usize = from.len;
    let mut i: usize = from.i;
    let mut n: u32 = from.n;
    let mut fence = false;
    let mut part = [0u32; INSTR_WORDS];
    // Kept: a loop, by a named form of document 01: the walk breaks with an enum.
    let stop = loop {
        if lacks_room(len, words.len()) || n == most {
            break Stop::Limit;
        }
        let pc = start.wrapping_add(i as u64);
        let Some(found) = fetch(guest, start, pc) else {
            break Stop::NotFetched;
        };
        let out = emit_native(&mut part, host, pc, found.instr);
        let Some(flow) = out.flow else {
            let helper = emit_term_helper(out.em, host, pc, found.instr, n);
            let taken = helper.flow;
            len = helper.em.append_to(words, len);
            n += helped(taken);
            break helper_stop(taken);
        };
        len = out.em.append_to(words, len);
        i += found.size;
        n += 1;
        if let EmitFlow::Terminate = flow {
            break Stop::Ended;
        }
        if is_fence_i(found.instr) {
            fence = true;
            break Stop::Limit;
        }
    };
    let full = is_full(stop, fence, n, most);
    Walked {
        len,
        i,
        n,
        stop,
        fence,
        full,
    }
}

// The same in an emitter's array.
// Kept: tried without it, misses the bar of speed: the compiler leaves a copy of the whole emitter.
fn walk_array<const N: usize>(
    words: &mut [u32; N],
    guest: &[u8],
    start: u64,
    from: Walked,
    most: u32,
    host: Host,
) -> Walked
    requires { (inline_words + end_words ≤ length words.old) × (host.slot_offset ≤ max_slot_offset) × (most ≤ max_instrs) × Walking host guest.now start most words.old from.len from.i from.n }
    ensures onward { Onward host guest.now start most from.n words.new result }
    ensures long { length words.new ≡ N }
{
    walk(words, guest, start, from, most, host)
}

// The block from `start` on, of at most `most` instructions, in a short emitter: the words of its instructions, then
// its end; or, where it is full, the words so far.
// Kept: guest, start, most and host side by side, by a rule of the project: the Rust's parameters in its order.
// Kept: an end here and below, no plainer as one: three lines, with the emitter, the walk and the PC handed over.
pub fn compile_native_block(
    guest: &[u8],
    start: u64,
    most: u32,
    host: Host,
) -> NativeBlock<SHORT_WORDS>
    requires { (host.slot_offset ≤ max_slot_offset) × (most ≤ max_instrs) }
    ensures { ShortOf host guest.now start most result }
{
    let mut em = ShortEmitter::new();
    let from = Walked {
        len: 0,
        i: 0,
        n: 0,
        stop: Stop::Limit,
        fence: false,
        full: false,
    };
    let done = walk_array(&mut em.words, guest, start, from, most, host);
    em.len = done.len;
    let stop = done.stop;
    let next = start.wrapping_add(done.i as u64);
    let em = em.mov_imm64_if(sets_next(stop), 0, next);
    let em = em.mov_imm64_if(has_return(stop), 1, done.n as u64);
    let em = em.emit_if(has_return(stop), A64Emitter::ret());
    NativeBlock { em, done }
}

// The whole of a block whose words so far, `before`, filled the short emitter.
pub fn continue_native_block(
    before: &[u32; SHORT_WORDS],
    from: Walked,
    guest: &[u8],
    start: u64,
    most: u32,
    host: Host,
) -> NativeBlock<MAX_WORDS>
    requires { (host.slot_offset ≤ max_slot_offset) × (most ≤ max_instrs) × Partly host guest.now start most before.now from }
    ensures { LongOf host guest.now start most result }
{
    let mut long = A64Emitter::new();
    // as many as there can be: a test of their number would bring a copy of the long emitter
    a64_emitter::copy_front(&mut long.words, before, SHORT_INSTRS * INLINE_WORDS);
    let done = walk_array(&mut long.words, guest, start, from, most, host);
    long.len = done.len;
    let stop = done.stop;
    let after = start.wrapping_add(done.i as u64);
    let long = long.mov_imm64_if(sets_next(stop), 0, after);
    let long = long.mov_imm64_if(has_return(stop), 1, done.n as u64);
    let em = long.emit_if(has_return(stop), A64Emitter::ret());
    NativeBlock { em, done }
}
