// What the emitters of jit_arm64.rs share: an instruction's emitter, their answer, and what the host gives.
#![tactic(auto)]

ghost use Rattle.std.specs.Prelude.{◌≤◌};
ghost use Rattle.rules.specs.Limits.{max_slot_offset};

use rules::INSTR_WORDS;

mod calls;

// The conditions of CSEL, by the names that hart.rs gives them.
// Kept: numbers, by a rule of the project: `csel_x` takes the Rust's `cond: u8`.
pub const C_EQ: u8 = 0x0;

pub const C_NE: u8 = 0x1;

pub const C_CS: u8 = 0x2;

pub const C_CC: u8 = 0x3;

pub const C_MI: u8 = 0x4;

pub const C_GE: u8 = 0xA;

pub const C_LT: u8 = 0xB;

// The emitter of one instruction: an array that is lent, how many words it holds of it, and the slot offset.
// Kept: an array with its count, by a rule of the project: fixed memory.
#[derive(Drop)]
pub struct InstrEmitter<'a> {
    pub words: &'a mut [u32; INSTR_WORDS],
    pub len: usize,
    pub slot_offset: u64,
    ghost in_reach: { slot_offset ≤ max_slot_offset },
}

// What an instruction does to the block: it goes on, or ends.
#[derive(Clone, Copy)]
pub enum EmitFlow {
    Continue,
    Terminate,
}

// What an emitter answers: the emitter that it was given, and the flow, or none where the instruction is not inline.
#[derive(Drop)]
pub struct Emitted<'a> {
    pub em: InstrEmitter<'a>,
    pub flow: Option<EmitFlow>,
}

// What the host gives: the slot offset, the three helpers' addresses, and whether C.EBREAK is ignored.
#[derive(Clone, Copy)]
pub struct Host {
    pub slot_offset: u64,
    pub memory_helper: u64,
    pub helper32: u64,
    pub helper16: u64,
    pub ignore_ebreak: bool,
}
