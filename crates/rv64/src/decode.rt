// The 32-bit encodings, and what their instructions do.
ghost use Rattle.std.specs.Prelude.{◌≡◌};
ghost use Rattle.word.specs.Word as W;
ghost use Rattle.rv64.specs.Decode as D;
ghost use Rattle.rv64.specs.Execute as X;
ghost use Rattle.rv64.specs.Parts as S;

use crate::alu::{Alu, Cond, quotient, quotient_u, remainder, remainder_u, sextw};
use crate::execute::{Effect, Flow, apply, ended, put, read};
use crate::zbb::computed;
use isa::zbb::Zbb;

// An instruction: registers by number, immediates as they are added or shifted by.
#[derive(Drop)]
pub enum Instr {
    // rd, rs1, rs2
    Op(Alu, u32, u32, u32),
    // rd, rs1, the second operand
    OpImm(Alu, u32, u32, u64),
    // the same of Zbb; the second operand is 0 where there is none
    Zbb(Zbb, u32, u32, u32),
    ZbbImm(Zbb, u32, u32, u64),
    // rd, the constant
    Lui(u32, u64),
    // rd, what is added to the PC
    Auipc(u32, u64),
    Jal(u32, u64),
    // rd, rs1, what is added to it
    Jalr(u32, u32, u64),
    // rs1, rs2, what is added to the PC
    Branch(Cond, u32, u32, u64),
    // does nothing
    Nop,
    FenceI,
    // left to a helper
    Helper,
    Uncovered,
}

// funct7 and funct3, side by side.
fn funct10(w: u32) -> u32
    ensures { result ≡ D.funct10 w }
{
    w / 0x200_0000 % 128 * 8 + w / 4096 % 8
}

// OP, by funct7 and funct3.
#[tactic(auto, using(crate::proofs::Tables::missed), unfolding(crate::specs::Alu::value, crate::specs::Decode::ops))]
fn op(w: u32, x: u64, y: u64) -> Option<u64>
    ensures { result ≡ S.computed D.ops (D.funct10 w) x y None }
{
    match funct10(w) {
        0b0000000_000 => Some(x.wrapping_add(y)),
        0b0100000_000 => Some(x.wrapping_sub(y)),
        0b0000000_001 => Some(x << (y % 64)),
        0b0000000_010 => Some(u64::from(word::slt(x, y))),
        0b0000000_011 => Some(u64::from(x < y)),
        0b0000000_100 => Some(x ^ y),
        0b0000000_101 => Some(x >> (y % 64)),
        0b0100000_101 => Some(word::asr(x, (y % 64) as u32)),
        0b0000000_110 => Some(x | y),
        0b0000000_111 => Some(x & y),
        0b0000001_000 => Some(x.wrapping_mul(y)),
        0b0000001_001 => Some(word::mulh(x, y)),
        0b0000001_010 => Some(word::mulhsu(x, y)),
        0b0000001_011 => Some(word::mulhu(x, y)),
        0b0000001_100 => Some(quotient(0x8000_0000_0000_0000, x, y)),
        0b0000001_101 => Some(quotient_u(0xFFFF_FFFF_FFFF_FFFF, x, y)),
        0b0000001_110 => Some(remainder(0x8000_0000_0000_0000, x, y)),
        0b0000001_111 => Some(remainder_u(x, y)),
        _ => None,
    }
}

// OP-32, by funct7 and funct3; its divisions take these words.
#[tactic(auto, using(crate::proofs::Tables::missed), unfolding(crate::specs::Alu::value, crate::specs::Decode::ops32))]
fn op_32(w: u32, x: u64, y: u64) -> Option<u64>
    ensures { result ≡ S.computed D.ops32 (D.funct10 w) x y None }
{
    let xw = sextw(x);
    let yw = sextw(y);
    let xu = x % 0x1_0000_0000;
    let yu = y % 0x1_0000_0000;
    match funct10(w) {
        0b0000000_000 => Some(sextw(x.wrapping_add(y))),
        0b0100000_000 => Some(sextw(x.wrapping_sub(y))),
        0b0000000_001 => Some(sextw(x << (y % 32))),
        0b0000000_101 => Some(sextw(xu >> (y % 32))),
        0b0100000_101 => Some(sextw(word::asr(xw, (y % 32) as u32))),
        0b0000001_000 => Some(sextw(x.wrapping_mul(y))),
        0b0000001_100 => Some(sextw(quotient(0xFFFF_FFFF_8000_0000, xw, yw))),
        0b0000001_101 => Some(sextw(quotient_u(0xFFFF_FFFF, xu, yu))),
        0b0000001_110 => Some(sextw(remainder(0xFFFF_FFFF_8000_0000, xw, yw))),
        0b0000001_111 => Some(sextw(remainder_u(xu, yu))),
        _ => None,
    }
}

// The shifts of OP-IMM, by the low six bits of the immediate.
#[tactic(auto, using(crate::proofs::Tables::missed), unfolding(crate::specs::Alu::value, crate::specs::Decode::shifts, crate::specs::Parts::shift_imm))]
fn shift_imm(w: u32, x: u64) -> Option<u64>
    ensures { result ≡ S.shift_imm w x }
{
    let shamt = (w / 0x10_0000 % 64) as u64;
    match w / 0x400_0000 % 64 * 8 + w / 4096 % 8 {
        0b000000_001 => Some(x << (shamt % 64)),
        0b000000_101 => Some(x >> (shamt % 64)),
        0b010000_101 => Some(word::asr(x, (shamt % 64) as u32)),
        _ => None,
    }
}

#[tactic(auto, using(crate::proofs::Tables::missed), unfolding(crate::specs::Alu::value, crate::specs::Decode::imms, crate::specs::Parts::op_imm))]
fn op_imm(w: u32, x: u64) -> Option<u64>
    ensures { result ≡ S.op_imm w x }
{
    let imm = isa::decode::imm_i(w);
    match w / 4096 % 8 {
        0b000 => Some(x.wrapping_add(imm)),
        0b010 => Some(u64::from(word::slt(x, imm))),
        0b011 => Some(u64::from(x < imm)),
        0b100 => Some(x ^ imm),
        0b110 => Some(x | imm),
        0b111 => Some(x & imm),
        _ => shift_imm(w, x),
    }
}

// The shifts of OP-IMM-32, by the low five bits of the immediate.
#[tactic(auto, using(crate::proofs::Tables::missed), unfolding(crate::specs::Alu::value, crate::specs::Decode::shifts32, crate::specs::Parts::shift_imm_32))]
fn shift_imm_32(w: u32, x: u64) -> Option<u64>
    ensures { result ≡ S.shift_imm_32 w x }
{
    let shamt = (w / 0x10_0000 % 32) as u64;
    match funct10(w) {
        0b0000000_001 => Some(sextw(x << (shamt % 32))),
        0b0000000_101 => Some(sextw(x % 0x1_0000_0000 >> (shamt % 32))),
        0b0100000_101 => Some(sextw(word::asr(sextw(x), (shamt % 32) as u32))),
        _ => None,
    }
}

#[tactic(auto, using(crate::proofs::Tables::missed), unfolding(crate::specs::Alu::value, crate::specs::Decode::imms32, crate::specs::Parts::op_imm_32))]
fn op_imm_32(w: u32, x: u64) -> Option<u64>
    ensures { result ≡ S.op_imm_32 w x }
{
    match w / 4096 % 8 {
        0b000 => Some(sextw(x.wrapping_add(isa::decode::imm_i(w)))),
        _ => shift_imm_32(w, x),
    }
}

// A branch to one of two places.
#[tactic(auto, using(crate::proofs::Tables::missed), unfolding(crate::specs::Alu::taken, crate::specs::Decode::branches, crate::specs::Parts::branched))]
fn branch(n: u32, x: u64, y: u64, to: u64, next: u64) -> Effect
    ensures { result ≡ S.branched n x y to next }
{
    match n {
        0b000 => ended(x == y, to, next),
        0b001 => ended(x != y, to, next),
        0b100 => ended(word::slt(x, y), to, next),
        0b101 => ended(!word::slt(x, y), to, next),
        0b110 => ended(x < y, to, next),
        0b111 => ended(!(x < y), to, next),
        _ => Effect::Uncovered,
    }
}

// e where funct3 is below n.
#[tactic(auto, unfolding(crate::specs::Parts::below))]
fn below(w: u32, n: u32, e: Effect) -> Effect
    ensures { result ≡ S.below w n e }
{
    if w / 4096 % 8 < n {
        e
    } else {
        Effect::Uncovered
    }
}

// MISC-MEM, by funct3; next is the address after the instruction.
#[tactic(auto, using(crate::proofs::Tables::missed), unfolding(crate::specs::Parts::fences, crate::specs::Parts::fenced))]
fn fence(n: u32, next: u64) -> Effect
    ensures { result ≡ S.fenced n next }
{
    match n {
        0b000 => Effect::Next,
        0b001 => Effect::Ended(next),
        _ => Effect::Uncovered,
    }
}

// The other opcodes, which set no register.
#[tactic(auto, using(crate::proofs::Tables::missed), unfolding(crate::specs::Parts::others, crate::specs::Parts::other))]
fn other(w: u32, next: u64) -> Effect
    ensures { result ≡ S.other w next }
{
    match w % 128 {
        isa::OPCODE_LOAD => below(w, 7, Effect::Helper),
        isa::OPCODE_LOAD_FP => Effect::Helper,
        isa::OPCODE_MISC_MEM => fence(w / 4096 % 8, next),
        isa::OPCODE_STORE => below(w, 4, Effect::Helper),
        isa::OPCODE_STORE_FP => Effect::Helper,
        isa::OPCODE_AMO => Effect::Helper,
        isa::OPCODE_SYSTEM => Effect::Uncovered,
        _ => Effect::Uncovered,
    }
}

// What the base ISA's instruction of the word w at pc does; next is the address after it.
fn effect32(x: &[u64; 32], w: u32, pc: u64, next: u64) -> Effect
    requires { next ≡ W.add pc 4 }
    ensures { S.Gives result (D.base32 w) 4 pc x.now }
{
    let rd = w / 128 % 32;
    let a = read(x, w / 0x8000 % 32);
    let b = read(x, w / 0x10_0000 % 32);
    match w % 128 {
        isa::OPCODE_OP => put(rd, op(w, a, b)),
        isa::OPCODE_OP_IMM => put(rd, op_imm(w, a)),
        isa::OPCODE_OP_32 => put(rd, op_32(w, a, b)),
        isa::OPCODE_OP_IMM_32 => put(rd, op_imm_32(w, a)),
        isa::OPCODE_LUI => Effect::Set(rd, isa::decode::imm_u(w)),
        isa::OPCODE_AUIPC => Effect::Set(rd, pc.wrapping_add(isa::decode::imm_u(w))),
        isa::OPCODE_JAL => Effect::Link(rd, pc.wrapping_add(isa::decode::imm_j(w))),
        isa::OPCODE_JALR => Effect::Link(rd, a.wrapping_add(isa::decode::imm_i(w)) / 2 * 2),
        isa::OPCODE_BRANCH => {
            let to = pc.wrapping_add(isa::decode::imm_b(w));
            branch(w / 4096 % 8, a, b, to, next)
        }
        _ => other(w, next),
    }
}

// e, or Zbb's effect where the base ISA has none.
#[tactic(auto, unfolding(crate::specs::Parts::or_else, crate::specs::Parts::zbb_effect))]
fn or_zbb(x: &[u64; 32], w: u32, e: Effect) -> Effect
    ensures { result ≡ S.or_else e (S.zbb_effect w x.now) }
{
    match e {
        Effect::Uncovered => {
            let a = read(x, w / 0x8000 % 32);
            let b = read(x, w / 0x10_0000 % 32);
            put(w / 128 % 32, computed(w, a, b))
        }
        _ => e,
    }
}

// The instruction of the word w at pc.
pub fn step32(x: &mut [u64; 32], w: u32, pc: u64) -> Flow
    ensures { S.Does (X.exec (D.decode32 w) 4 pc x.old) result x.new }
{
    let next = pc.wrapping_add(4);
    let e = effect32(x, w, pc, next);
    let e = or_zbb(x, w, e);
    apply(x, e, next)
}
