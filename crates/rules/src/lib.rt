// The numbers of document 01 that its requests move; specs/Limits.antt and specs/Refusals.antt are their definitions.
#![tactic(auto)]

pub mod refusals;

// The most instructions of a block (rule 1).
pub const MAX_INSTRS: u32 = 64;

// The most words of an instruction inline, of one that a helper ends, and of the end of a block.
pub const INLINE_WORDS: usize = 30;

pub const HELPER_WORDS: usize = 30;

pub const END_WORDS: usize = 6;

// Of any one of them.
pub const INSTR_WORDS: usize = HELPER_WORDS;

// What document 02, No. 7, allows an instruction, and the longest block with it.
pub const MOST_WORDS: usize = 40;

pub const MAX_WORDS: usize = MAX_INSTRS as usize * MOST_WORDS + END_WORDS;

// Of a block in the short emitter: room for so many instructions and an end.
pub const SHORT_INSTRS: usize = 8;

pub const SHORT_WORDS: usize = SHORT_INSTRS * INLINE_WORDS + END_WORDS;

// The greatest slot offset (refusal 1): slot 31 is then at the greatest offset of LDR and STR.
pub const MAX_SLOT_OFFSET: u64 = 8 * (4095 - 31);

// The most bytes of a line of a listing.
pub const LONGEST_LINE: usize = 45;

// The entries of an index.
pub const INDEX_ENTRIES: u64 = 512;
