// Instruction fields, immediates and opcode classes: isa.rs and decode.rs.
#![tactic(auto)]

pub mod classes;
pub mod decode;
pub mod zbb;

// Kept: numbers, by a rule of the project: the constants of isa.rs, matched as they are there.
// Opcodes, bits 6 to 0.
pub const OPCODE_LUI: u32 = 0b0110111;

pub const OPCODE_AUIPC: u32 = 0b0010111;

pub const OPCODE_JAL: u32 = 0b1101111;

pub const OPCODE_JALR: u32 = 0b1100111;

pub const OPCODE_BRANCH: u32 = 0b1100011;

pub const OPCODE_LOAD: u32 = 0b0000011;

pub const OPCODE_LOAD_FP: u32 = 0b0000111;

pub const OPCODE_STORE: u32 = 0b0100011;

pub const OPCODE_STORE_FP: u32 = 0b0100111;

pub const OPCODE_OP_IMM: u32 = 0b0010011;

pub const OPCODE_OP: u32 = 0b0110011;

pub const OPCODE_OP_IMM_32: u32 = 0b0011011;

pub const OPCODE_OP_32: u32 = 0b0111011;

pub const OPCODE_SYSTEM: u32 = 0b1110011;

pub const OPCODE_AMO: u32 = 0b0101111;

pub const OPCODE_MISC_MEM: u32 = 0b0001111;

// funct3 of OP and OP-IMM.
pub const F3_ADD_SUB: u32 = 0b000;

pub const F3_SLL: u32 = 0b001;

pub const F3_SLT: u32 = 0b010;

pub const F3_SLTU: u32 = 0b011;

pub const F3_XOR: u32 = 0b100;

pub const F3_SRL_SRA: u32 = 0b101;

pub const F3_OR: u32 = 0b110;

pub const F3_AND: u32 = 0b111;

// funct3 of branches.
pub const F3_BEQ: u32 = 0b000;

pub const F3_BNE: u32 = 0b001;

pub const F3_BLT: u32 = 0b100;

pub const F3_BGE: u32 = 0b101;

pub const F3_BLTU: u32 = 0b110;

pub const F3_BGEU: u32 = 0b111;

// funct3 of loads.
pub const F3_LB: u32 = 0b000;

pub const F3_LH: u32 = 0b001;

pub const F3_LW: u32 = 0b010;

pub const F3_LD: u32 = 0b011;

pub const F3_LBU: u32 = 0b100;

pub const F3_LHU: u32 = 0b101;

pub const F3_LWU: u32 = 0b110;

// funct3 of stores.
pub const F3_SB: u32 = 0b000;

pub const F3_SH: u32 = 0b001;

pub const F3_SW: u32 = 0b010;

pub const F3_SD: u32 = 0b011;

// funct3 of MISC-MEM.
pub const F3_FENCE: u32 = 0b000;

pub const F3_FENCE_I: u32 = 0b001;

// funct7 of OP.
pub const F7_BASE: u32 = 0b0000000;

pub const F7_SUB_SRA: u32 = 0b0100000;

pub const F7_MULDIV: u32 = 0b0000001;
