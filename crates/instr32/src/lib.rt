// `emit_native_instr`.
#![tactic(auto)]

ghost use Rattle.std.specs.Prelude.{◌≡◌, ◌<◌, ◌≤◌};
ghost use Rattle.emit_native.specs.Parts.{held, after, answer, emitted, InRange};
ghost use Rattle.isa.specs.Decode.{decode32};
ghost use Rattle.instr32.specs.Instr32.{lui, auipc, jal, jalr, branch_on, branch, op_imm, op_imm_32, op_32, op, misc_mem, emit_native_instr};

use a64_emitter::A64Emitter;
use emit_native::{C_CC, C_CS, C_EQ, C_GE, C_LT, C_NE, Emitted, InstrEmitter};
use isa::classes::Class;
use isa::decode::Decoded32;

mod op;
mod op_32;
mod op_imm;

#[tactic(auto, unfolding(crate::specs::Instr32::lui))]
fn emit_lui(em: InstrEmitter<'_>, instr: u32, d: Decoded32) -> Emitted<'_>
    requires { InRange d }
    ensures { answer result ≡ emitted (held em.entry) (lui instr d) }
{
    em.mov_reg(d.rd, isa::decode::imm_u(instr)).go_on()
}

// Kept: pc, instr and d side by side, by a rule of the project: the Rust's parameters.
#[tactic(auto, unfolding(crate::specs::Instr32::auipc))]
fn emit_auipc(em: InstrEmitter<'_>, pc: u64, instr: u32, d: Decoded32) -> Emitted<'_>
    requires { InRange d }
    ensures { answer result ≡ emitted (held em.entry) (auipc pc instr d) }
{
    let val = pc.wrapping_add(isa::decode::imm_u(instr));
    em.mov_reg(d.rd, val).go_on()
}

#[tactic(auto, unfolding(crate::specs::Instr32::jal))]
fn emit_jal(em: InstrEmitter<'_>, pc: u64, instr: u32, d: Decoded32) -> Emitted<'_>
    requires { InRange d }
    ensures { answer result ≡ emitted (held em.entry) (jal pc instr d) }
{
    let em = em.mov_reg(d.rd, pc.wrapping_add(4));
    let target = pc.wrapping_add(isa::decode::imm_j(instr));
    em.mov_imm64(0, target).terminate()
}

#[tactic(auto, unfolding(crate::specs::Instr32::jalr))]
fn emit_jalr(em: InstrEmitter<'_>, pc: u64, instr: u32, d: Decoded32) -> Emitted<'_>
    requires { InRange d }
    ensures { answer result ≡ emitted (held em.entry) (jalr pc instr d) }
{
    em.load(9, d.rs1)
        .mov_reg(d.rd, pc.wrapping_add(4))
        .mov_imm64(10, isa::decode::imm_i(instr))
        .emit(A64Emitter::add_x(11, 9, 10))
        .mov_imm64(12, 0xFFFF_FFFF_FFFF_FFFE)
        .emit(A64Emitter::and_x(0, 11, 12))
        .terminate()
}

#[tactic(auto, unfolding(crate::specs::Instr32::branch_on))]
fn emit_branch_on(
    em: InstrEmitter<'_>,
    pc: u64,
    instr: u32,
    d: Decoded32,
    condition: u8,
) -> Emitted<'_>
    requires { InRange d × (condition < 16) }
    ensures { answer result ≡ emitted (held em.entry) (branch_on pc instr d condition) }
{
    let em = em.load_both(d.rs1, d.rs2).emit(A64Emitter::cmp_x(9, 10));
    let target = pc.wrapping_add(isa::decode::imm_b(instr));
    em.mov_imm64(12, target)
        .mov_imm64(13, pc.wrapping_add(4))
        .emit(A64Emitter::csel_x(0, 12, 13, condition))
        .terminate()
}

#[tactic(auto, unfolding(crate::specs::Instr32::branch))]
fn emit_branch(em: InstrEmitter<'_>, pc: u64, instr: u32, d: Decoded32, funct3: u32) -> Emitted<'_>
    requires { InRange d }
    ensures { answer result ≡ emitted (held em.entry) (branch pc instr d funct3) }
{
    match funct3 {
        isa::F3_BEQ => emit_branch_on(em, pc, instr, d, C_EQ),
        isa::F3_BNE => emit_branch_on(em, pc, instr, d, C_NE),
        isa::F3_BLT => emit_branch_on(em, pc, instr, d, C_LT),
        isa::F3_BGE => emit_branch_on(em, pc, instr, d, C_GE),
        isa::F3_BLTU => emit_branch_on(em, pc, instr, d, C_CC),
        isa::F3_BGEU => emit_branch_on(em, pc, instr, d, C_CS),
        _ => em.none(),
    }
}

#[tactic(auto, unfolding(crate::specs::Instr32::op_imm))]
fn emit_op_imm(em: InstrEmitter<'_>, instr: u32, d: Decoded32) -> Emitted<'_>
    requires { InRange d }
    ensures { answer result ≡ emitted (held em.entry) (op_imm instr d) }
{
    let em = em.load(9, d.rs1);
    let imm = isa::decode::imm_i(instr);
    crate::op_imm::emit_op_imm_arm(em, imm, d.imm12, d.funct3 as u32).store_rd(d.rd)
}

#[tactic(auto, unfolding(crate::specs::Instr32::op_imm_32))]
fn emit_op_imm_32(em: InstrEmitter<'_>, instr: u32, d: Decoded32) -> Emitted<'_>
    requires { InRange d }
    ensures { answer result ≡ emitted (held em.entry) (op_imm_32 instr d) }
{
    let em = em.load(9, d.rs1);
    let imm = isa::decode::imm_i(instr);
    crate::op_imm::emit_op_imm_32_arm(em, imm, d.imm12, d.funct7 as u32, d.funct3 as u32).store_rd(
        d.rd,
    )
}

// Kept: emit_op_32 and emit_op, by a rule of the project: the Rust's two arms, in its order.
#[tactic(auto, unfolding(crate::specs::Instr32::op_32))]
fn emit_op_32(em: InstrEmitter<'_>, d: Decoded32) -> Emitted<'_>
    requires { InRange d }
    ensures { answer result ≡ emitted (held em.entry) (op_32 d) }
{
    let em = em.load_both(d.rs1, d.rs2);
    crate::op_32::emit_op_32_arm(em, d.funct7 as u32, d.funct3 as u32).store_rd(d.rd)
}

#[tactic(auto, unfolding(crate::specs::Instr32::op))]
fn emit_op(em: InstrEmitter<'_>, d: Decoded32) -> Emitted<'_>
    requires { InRange d }
    ensures { answer result ≡ emitted (held em.entry) (op d) }
{
    let em = em.load_both(d.rs1, d.rs2);
    crate::op::emit_op_arm(em, d.funct7 as u32, d.funct3 as u32).store_rd(d.rd)
}

#[tactic(auto, unfolding(crate::specs::Instr32::misc_mem))]
fn emit_misc_mem(em: InstrEmitter<'_>, d: Decoded32) -> Emitted<'_>
    ensures { answer result ≡ emitted (held em.entry) (misc_mem d) }
{
    match d.funct3 as u32 {
        isa::F3_FENCE | isa::F3_FENCE_I => em.go_on(),
        _ => em.none(),
    }
}

#[tactic(auto, unfolding(crate::specs::Instr32::emit_native_instr))]
pub fn emit_native_instr(em: InstrEmitter<'_>, pc: u64, instr: u32, d: Decoded32) -> Emitted<'_>
    requires { d ≡ decode32 instr }
    ensures { answer result ≡ emitted (held em.entry) (emit_native_instr pc instr d) }
{
    match isa::classes::opcode_class(instr) {
        Class::Lui => emit_lui(em, instr, d),
        Class::Auipc => emit_auipc(em, pc, instr, d),
        Class::Jal => emit_jal(em, pc, instr, d),
        Class::Jalr => emit_jalr(em, pc, instr, d),
        Class::Branch => emit_branch(em, pc, instr, d, d.funct3 as u32),
        Class::OpImm => emit_op_imm(em, instr, d),
        Class::OpImm32 => emit_op_imm_32(em, instr, d),
        Class::Op32 => emit_op_32(em, d),
        Class::Op => emit_op(em, d),
        Class::MiscMem => emit_misc_mem(em, d),
        Class::Load
        | Class::LoadFp
        | Class::Store
        | Class::StoreFp
        | Class::Amo
        | Class::System
        | Class::Other => em.none(),
    }
}
