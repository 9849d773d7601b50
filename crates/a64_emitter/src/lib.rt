// `A64Emitter` of hart.rs: its word writers, and the emitter of a block's words.
#![tactic(auto)]

ghost use Rattle.std.specs.Prelude.{◌≡◌, ℕ, ◌+◌, ◌<◌, ◌≤◌, [], ◌∷◌, length, take};
ghost use Rattle.a64_emitter.specs.Parts.{block_words, emitted_in, emitted_if, constant_if, Added, Written};
ghost use Rattle.a64_emitter.specs.Writers as Writers;
ghost use Rattle.rules.specs.Limits.{instr_words};

mod writers;

use rules::{INSTR_WORDS, MAX_WORDS, SHORT_WORDS};

// The words of a block, with their count.
// Kept: an array with its count, by a rule of the project: fixed memory, and a named form of document 01.
#[derive(Clone, Copy)]
pub struct BlockEmitter<const N: usize> {
    pub words: [u32; N],
    pub len: usize,
}

pub type A64Emitter = BlockEmitter<MAX_WORDS>;

// With less room: a block's words go here first, and where it is full the walk goes on in an `A64Emitter`.
pub type ShortEmitter = BlockEmitter<SHORT_WORDS>;

// One word after the first `at`, or nothing where it does not fit; the new count.
// Kept: a rule of the project, fixed memory: array and place are the two fields of an emitter, lent apart.
pub fn emit_at(words: &mut [u32], at: usize, w: u32) -> usize
    ensures { Added words.old at words.new result (w ∷ []) }
{
    if at < words.len() {
        words[at] = w;
        return at + 1;
    }
    at
}

// The same where the test holds.
// Kept: a test as a parameter here and in three below, by a named form of document 01: a branch would copy the emitter.
pub fn emit_at_if(words: &mut [u32], at: usize, test: bool, w: u32) -> usize
    ensures { Added words.old at words.new result (emitted_if «test» w) }
{
    if test {
        return emit_at(words, at, w);
    }
    at
}

// MOVK of halfword hw, where it is not 0.
fn upper_at(words: &mut [u32], at: usize, rd: u8, hw: u8, p: u32) -> usize
    requires { (rd < 32) × (hw < 4) × (p < 65536) }
    ensures { Added words.old at words.new result (Writers.movk rd hw p) }
{
    if p == 0 {
        return at;
    }
    let w = 0xF280_0000 + (hw as u32) * 0x20_0000 + p * 32 + rd as u32;
    emit_at(words, at, w)
}

// 1 where p is not 0, which is how many words it takes.
fn upper_count(p: u32) -> usize
    ensures { (result ≤ 1) × ((rd hw : ℕ) → length (Writers.movk rd hw p) ≡ result) }
{
    usize::from(p != 0)
}

// A constant after the first `at`, or nothing where its words do not all fit; the new count.
pub fn mov_imm64_at(words: &mut [u32], at: usize, rd: u8, val: u64) -> usize
    requires { rd < 32 }
    ensures { Added words.old at words.new result (Writers.mov_imm64 rd val) }
{
    let lo = (val % 0x1_0000) as u32;
    let p1 = (val / 0x1_0000 % 0x1_0000) as u32;
    let p2 = (val / 0x1_0000_0000 % 0x1_0000) as u32;
    let p3 = (val / 0x1_0000_0000_0000 % 0x1_0000) as u32;
    let n = 1 + upper_count(p1) + upper_count(p2) + upper_count(p3);
    if words.len() < n || words.len() - n < at {
        return at;
    }
    let a = emit_at(words, at, A64Emitter::movz(rd, lo));
    let b = upper_at(words, a, rd, 1, p1);
    let c = upper_at(words, b, rd, 2, p2);
    upper_at(words, c, rd, 3, p3)
}

// The same where the test holds.
fn mov_imm64_at_if(words: &mut [u32], at: usize, test: bool, rd: u8, val: u64) -> usize
    requires { rd < 32 }
    ensures { Added words.old at words.new result (constant_if «test» rd val) }
{
    if test {
        return mov_imm64_at(words, at, rd, val);
    }
    at
}

// An instruction's words after the first `at` of a block, where there is room for its whole array: all of that is
// moved, and `len` of its words count. The block's array is lent: its loop calls this for each instruction.
pub fn append_at(words: &mut [u32], at: usize, part: &[u32; INSTR_WORDS], len: usize) -> usize
    requires { at + instr_words ≤ length words.old }
    ensures { Added words.old at words.new result (take len part.now) }
{
    // as of C.NOP
    if len == 0 {
        return at;
    }
    // Kept: tried, misses the bar of speed: copy_from_slice compares the addresses, and the whole emitter is copied.
    let part = *part;
    for i in 0..INSTR_WORDS {
        words[at + i] = part[i];
    }
    at + len.min(INSTR_WORDS)
}

// The first `len` words of another block's array, copied to the front of this one's.
pub fn copy_front(words: &mut [u32], from: &[u32], len: usize)
    requires { (len ≤ length words.old) × (len ≤ length from.now) }
    ensures { take len words.new ≡ take len from.now }
{
    // Kept: tried, misses the bar of speed: copy_from_slice, as in `append_at`.
    for i in 0..len {
        words[i] = from[i];
    }
}

// The words that a block's array holds, as bytes at the front of `out`, where they fit; how many bytes they are.
fn write_words(words: &[u32], len: usize, out: &mut [u8]) -> usize
    ensures { Written (take len words.now) out.old result out.new }
{
    let n = len.min(words.len());
    if out.len() < 4 * n {
        return 4 * n;
    }
    for i in 0..n {
        le::store(out, 4 * i, words[i]);
    }
    4 * n
}

impl<const N: usize> BlockEmitter<N> {
    pub fn new() -> Self
        ensures { block_words result ≡ [] }
    {
        BlockEmitter {
            words: [0; N],
            len: 0,
        }
    }

    // One word more where the test holds, or unchanged where it does not or the word does not fit.
    pub fn emit_if(mut self, test: bool, w: u32) -> Self
        ensures { block_words result ≡ emitted_in N (block_words self.entry) (emitted_if «test» w) }
    {
        self.len = emit_at_if(&mut self.words, self.len, test, w);
        self
    }

    // A constant more where the test holds, or unchanged where it does not or the constant's words do not all fit.
    pub fn mov_imm64_if(mut self, test: bool, rd: u8, val: u64) -> Self
        requires { rd < 32 }
        ensures { block_words result ≡ emitted_in N (block_words self.entry) (constant_if «test» rd val) }
    {
        self.len = mov_imm64_at_if(&mut self.words, self.len, test, rd, val);
        self
    }

    // The words as bytes at the front of `out`, where they fit; how many bytes they are.
    pub fn finish(self, out: &mut [u8]) -> usize
        ensures { Written (block_words self.entry) out.old result out.new }
    {
        write_words(&self.words, self.len, out)
    }
}
