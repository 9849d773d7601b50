// `emit_native_instr16`.
#![tactic(auto)]

ghost use Rattle.std.specs.Prelude.{◌≡◌, ◌+◌, ◌/◌, ◌%◌, ◌<◌};
ghost use Rattle.emit_native.specs.Parts.{held, answer, emitted};
ghost use Rattle.instr16.specs.Instr16.{addi4spn, quadrant_0, c_addi, c_addiw, c_li, c_addi16sp, c_lui, c_alu, c_group, c_j, c_condition, c_branch, c_addi16sp_lui, quadrant_1, c_slli, c_jr, c_mv, c_jalr, c_add, c_jump_move_add, quadrant_2, emit_native_instr16};

use a64_emitter::A64Emitter;
use emit_native::{C_EQ, C_NE, Emitted, InstrEmitter};

// !1u64
const NOT_1: u64 = 0xFFFF_FFFF_FFFF_FFFE;

// Kept: a function for each field, no plainer with its place as a parameter: it is a line.
fn rd_of(instr: u16) -> u8
    ensures { (result ≡ instr / 128 % 32) × (result < 32) }
{
    (instr / 128 % 32) as u8
}

fn rs2_of(instr: u16) -> u8
    ensures { (result ≡ instr / 4 % 32) × (result < 32) }
{
    (instr / 4 % 32) as u8
}

// rd' and rs2'.
fn low_prime(instr: u16) -> u8
    ensures { (result ≡ instr / 4 % 8 + 8) × (result < 32) }
{
    (instr / 4 % 8 + 8) as u8
}

// rs1'.
fn high_prime(instr: u16) -> u8
    ensures { (result ≡ instr / 128 % 8 + 8) × (result < 32) }
{
    (instr / 128 % 8 + 8) as u8
}

#[tactic(auto, unfolding(crate::specs::Instr16::addi4spn))]
fn emit_addi4spn(em: InstrEmitter<'_>, instr: u16) -> Emitted<'_>
    ensures { answer result ≡ emitted (held em.entry) (addi4spn instr) }
{
    let imm = isa::decode::imm_ciw(instr);
    if imm == 0 {
        return em.none();
    }
    let w = A64Emitter::add_x(11, 9, 10);
    em.with_imm(2, imm, w, low_prime(instr)).go_on()
}

#[tactic(auto, unfolding(crate::specs::Instr16::quadrant_0))]
fn emit_quadrant_0(em: InstrEmitter<'_>, instr: u16) -> Emitted<'_>
    ensures { answer result ≡ emitted (held em.entry) (quadrant_0 instr) }
{
    match instr / 0x2000 % 8 {
        0b000 => emit_addi4spn(em, instr),
        _ => em.none(),
    }
}

// C.ADDI and C.NOP.
// Kept: this and `emit_c_slli`, no plainer as one: register 0 is C.NOP here, and is refused there.
#[tactic(auto, unfolding(crate::specs::Instr16::c_addi))]
fn emit_c_addi(em: InstrEmitter<'_>, instr: u16) -> Emitted<'_>
    ensures { answer result ≡ emitted (held em.entry) (c_addi instr) }
{
    let rd = rd_of(instr);
    if rd == 0 {
        return em.go_on();
    }
    let w = A64Emitter::add_x(11, 9, 10);
    em.with_imm(rd, isa::decode::imm_ci(instr), w, rd).go_on()
}

#[tactic(auto, unfolding(crate::specs::Instr16::c_addiw))]
fn emit_c_addiw(em: InstrEmitter<'_>, instr: u16) -> Emitted<'_>
    ensures { answer result ≡ emitted (held em.entry) (c_addiw instr) }
{
    let rd = rd_of(instr);
    if rd == 0 {
        return em.none();
    }
    em.load(9, rd)
        .mov_imm64(10, isa::decode::imm_ci(instr))
        .emit(A64Emitter::add_x(11, 9, 10))
        .emit(A64Emitter::sxtw_x(11, 11))
        .store(11, rd)
        .go_on()
}

#[tactic(auto, unfolding(crate::specs::Instr16::c_li))]
fn emit_c_li(em: InstrEmitter<'_>, instr: u16) -> Emitted<'_>
    ensures { answer result ≡ emitted (held em.entry) (c_li instr) }
{
    em.mov_reg(rd_of(instr), isa::decode::imm_ci(instr)).go_on()
}

#[tactic(auto, unfolding(crate::specs::Instr16::c_addi16sp))]
fn emit_c_addi16sp(em: InstrEmitter<'_>, instr: u16) -> Emitted<'_>
    ensures { answer result ≡ emitted (held em.entry) (c_addi16sp instr) }
{
    let imm = isa::decode::imm_ci16(instr);
    if imm == 0 {
        return em.none();
    }
    let w = A64Emitter::add_x(11, 9, 10);
    em.with_imm(2, imm, w, 2).go_on()
}

#[tactic(auto, unfolding(crate::specs::Instr16::c_lui))]
fn emit_c_lui(em: InstrEmitter<'_>, instr: u16) -> Emitted<'_>
    ensures { answer result ≡ emitted (held em.entry) (c_lui instr) }
{
    let rd = rd_of(instr);
    if rd == 0 {
        return em.none();
    }
    let imm = isa::decode::imm_ci(instr);
    if imm == 0 {
        return em.none();
    }
    em.mov_imm64(11, imm << 12).store(11, rd).go_on()
}

// C.SUB, C.XOR, C.OR, C.AND.
#[tactic(auto, unfolding(crate::specs::Instr16::c_alu))]
fn emit_c_alu_base(em: InstrEmitter<'_>, alu2: u16, rs1: u8) -> Emitted<'_>
    requires { rs1 < 32 }
    ensures { answer result ≡ emitted (held em.entry) (c_alu 0 alu2 rs1) }
{
    match alu2 {
        0b00 => em.emit(A64Emitter::sub_x(11, 9, 10)).store(11, rs1).go_on(),
        0b01 => em.emit(A64Emitter::eor_x(11, 9, 10)).store(11, rs1).go_on(),
        0b10 => em.emit(A64Emitter::orr_x(11, 9, 10)).store(11, rs1).go_on(),
        0b11 => em.emit(A64Emitter::and_x(11, 9, 10)).store(11, rs1).go_on(),
        _ => em.none(),
    }
}

// C.SUBW and C.ADDW.
#[tactic(auto, unfolding(crate::specs::Instr16::c_alu))]
fn emit_c_alu_word(em: InstrEmitter<'_>, alu2: u16, rs1: u8) -> Emitted<'_>
    requires { rs1 < 32 }
    ensures { answer result ≡ emitted (held em.entry) (c_alu 1 alu2 rs1) }
{
    match alu2 {
        0b00 => {
            em.emit(A64Emitter::sub_x(11, 9, 10))
                .emit(A64Emitter::sxtw_x(11, 11))
                .store(11, rs1)
                .go_on()
        }
        0b01 => {
            em.emit(A64Emitter::add_x(11, 9, 10))
                .emit(A64Emitter::sxtw_x(11, 11))
                .store(11, rs1)
                .go_on()
        }
        _ => em.none(),
    }
}

#[tactic(auto, unfolding(crate::specs::Instr16::c_alu))]
fn emit_c_alu(em: InstrEmitter<'_>, subop: u16, alu2: u16, rs1: u8) -> Emitted<'_>
    requires { rs1 < 32 }
    ensures { answer result ≡ emitted (held em.entry) (c_alu subop alu2 rs1) }
{
    match subop {
        0 => emit_c_alu_base(em, alu2, rs1),
        1 => emit_c_alu_word(em, alu2, rs1),
        _ => em.none(),
    }
}

// The arms of `match funct2`: C.SRLI, C.SRAI, C.ANDI, and those of two registers.
#[tactic(auto, unfolding(crate::specs::Instr16::c_group, crate::specs::Instr16::c_srli, crate::specs::Instr16::c_srai, crate::specs::Instr16::c_andi))]
fn emit_c_group(em: InstrEmitter<'_>, instr: u16) -> Emitted<'_>
    ensures { answer result ≡ emitted (held em.entry) (c_group instr) }
{
    let rs1 = high_prime(instr);
    match instr / 1024 % 4 {
        0b00 => {
            let w = A64Emitter::lsrv_x(11, 9, 10);
            em.with_imm(rs1, isa::decode::shamt_c(instr), w, rs1)
                .go_on()
        }
        0b01 => {
            let w = A64Emitter::asrv_x(11, 9, 10);
            em.with_imm(rs1, isa::decode::shamt_c(instr), w, rs1)
                .go_on()
        }
        0b10 => {
            let w = A64Emitter::and_x(11, 9, 10);
            em.with_imm(rs1, isa::decode::imm_ci(instr), w, rs1).go_on()
        }
        0b11 => {
            let em = em.load_both(rs1, low_prime(instr));
            emit_c_alu(em, instr / 4096 % 2, instr / 32 % 4, rs1)
        }
        _ => em.none(),
    }
}

#[tactic(auto, unfolding(crate::specs::Instr16::c_j))]
fn emit_c_j(em: InstrEmitter<'_>, pc: u64, instr: u16) -> Emitted<'_>
    ensures { answer result ≡ emitted (held em.entry) (c_j pc instr) }
{
    let target = pc.wrapping_add(isa::decode::imm_cj(instr));
    em.mov_imm64(0, target).terminate()
}

fn c_condition(funct3: u16) -> u8
    ensures { (result ≡ c_condition funct3) × (result < 16) }
{
    if funct3 == 0b110 { C_EQ } else { C_NE }
}

// C.BEQZ and C.BNEZ.
#[tactic(auto, unfolding(crate::specs::Instr16::c_branch, crate::specs::Instr16::c_branch_on))]
fn emit_c_branch(em: InstrEmitter<'_>, pc: u64, instr: u16, funct3: u16) -> Emitted<'_>
    ensures { answer result ≡ emitted (held em.entry) (c_branch pc instr funct3) }
{
    let em = em
        .load(9, high_prime(instr))
        .mov_imm64(10, 0)
        .emit(A64Emitter::cmp_x(9, 10));
    let target = pc.wrapping_add(isa::decode::imm_cb(instr));
    em.mov_imm64(12, target)
        .mov_imm64(13, pc.wrapping_add(2))
        .emit(A64Emitter::csel_x(0, 12, 13, c_condition(funct3)))
        .terminate()
}

#[tactic(auto, unfolding(crate::specs::Instr16::c_addi16sp_lui))]
fn emit_c_sp_or_lui(em: InstrEmitter<'_>, instr: u16) -> Emitted<'_>
    ensures { answer result ≡ emitted (held em.entry) (c_addi16sp_lui instr) }
{
    if rd_of(instr) == 2 {
        return emit_c_addi16sp(em, instr);
    }
    emit_c_lui(em, instr)
}

#[tactic(auto, unfolding(crate::specs::Instr16::quadrant_1))]
fn emit_quadrant_1(em: InstrEmitter<'_>, pc: u64, instr: u16) -> Emitted<'_>
    ensures { answer result ≡ emitted (held em.entry) (quadrant_1 pc instr) }
{
    let funct3 = instr / 0x2000 % 8;
    match funct3 {
        0b000 => emit_c_addi(em, instr),
        0b001 => emit_c_addiw(em, instr),
        0b010 => emit_c_li(em, instr),
        0b011 => emit_c_sp_or_lui(em, instr),
        0b100 => emit_c_group(em, instr),
        0b101 => emit_c_j(em, pc, instr),
        0b110 | 0b111 => emit_c_branch(em, pc, instr, funct3),
        _ => em.none(),
    }
}

#[tactic(auto, unfolding(crate::specs::Instr16::c_slli))]
fn emit_c_slli(em: InstrEmitter<'_>, instr: u16) -> Emitted<'_>
    ensures { answer result ≡ emitted (held em.entry) (c_slli instr) }
{
    let rd = rd_of(instr);
    if rd == 0 {
        return em.none();
    }
    let w = A64Emitter::lslv_x(11, 9, 10);
    em.with_imm(rd, isa::decode::shamt_c(instr), w, rd).go_on()
}

#[tactic(auto, unfolding(crate::specs::Instr16::c_jr))]
fn emit_c_jr(em: InstrEmitter<'_>, rd: u8) -> Emitted<'_>
    requires { rd < 32 }
    ensures { answer result ≡ emitted (held em.entry) (c_jr rd) }
{
    if rd == 0 {
        return em.none();
    }
    em.load(9, rd)
        .mov_imm64(10, NOT_1)
        .emit(A64Emitter::and_x(0, 9, 10))
        .terminate()
}

#[tactic(auto, unfolding(crate::specs::Instr16::c_mv))]
fn emit_c_mv(em: InstrEmitter<'_>, rd: u8, rs2: u8) -> Emitted<'_>
    requires { (rd < 32) × (rs2 < 32) }
    ensures { answer result ≡ emitted (held em.entry) (c_mv rd rs2) }
{
    if rd == 0 {
        return em.none();
    }
    em.load(11, rs2).store(11, rd).go_on()
}

#[tactic(auto, unfolding(crate::specs::Instr16::c_jalr))]
fn emit_c_jalr(em: InstrEmitter<'_>, pc: u64, rd: u8) -> Emitted<'_>
    requires { rd < 32 }
    ensures { answer result ≡ emitted (held em.entry) (c_jalr pc rd) }
{
    em.load(9, rd)
        .mov_imm64(10, NOT_1)
        .emit(A64Emitter::and_x(11, 9, 10))
        .mov_imm64(12, pc.wrapping_add(2))
        .store(12, 1)
        .emit(A64Emitter::orr_x(0, 11, 31))
        .terminate()
}

#[tactic(auto, unfolding(crate::specs::Instr16::c_add))]
fn emit_c_add(em: InstrEmitter<'_>, rd: u8, rs2: u8) -> Emitted<'_>
    requires { (rd < 32) × (rs2 < 32) }
    ensures { answer result ≡ emitted (held em.entry) (c_add rd rs2) }
{
    if rd == 0 {
        return em.none();
    }
    em.load_both(rd, rs2)
        .emit(A64Emitter::add_x(11, 9, 10))
        .store(11, rd)
        .go_on()
}

// C.JR, C.MV, C.EBREAK, C.JALR and C.ADD, by bit 12 and the two registers.
#[tactic(auto, unfolding(crate::specs::Instr16::c_jump_move_add, crate::specs::Instr16::c_ebreak))]
fn emit_c_jump_move_add(
    em: InstrEmitter<'_>,
    ignore_ebreak: bool,
    pc: u64,
    instr: u16,
) -> Emitted<'_>
    ensures { answer result ≡ emitted (held em.entry) (c_jump_move_add «ignore_ebreak» pc instr) }
{
    let rd = rd_of(instr);
    let rs2 = rs2_of(instr);
    let bit12 = instr / 4096 % 2;
    if bit12 == 0 {
        if rs2 == 0 {
            return emit_c_jr(em, rd);
        }
        return emit_c_mv(em, rd, rs2);
    }
    if rs2 == 0 {
        if rd == 0 {
            // C.EBREAK
            if ignore_ebreak {
                return em.go_on();
            }
            return em.none();
        }
        return emit_c_jalr(em, pc, rd);
    }
    emit_c_add(em, rd, rs2)
}

#[tactic(auto, unfolding(crate::specs::Instr16::quadrant_2))]
fn emit_quadrant_2(em: InstrEmitter<'_>, ignore_ebreak: bool, pc: u64, instr: u16) -> Emitted<'_>
    ensures { answer result ≡ emitted (held em.entry) (quadrant_2 «ignore_ebreak» pc instr) }
{
    match instr / 0x2000 % 8 {
        0b000 => emit_c_slli(em, instr),
        0b100 => emit_c_jump_move_add(em, ignore_ebreak, pc, instr),
        _ => em.none(),
    }
}

#[tactic(auto, unfolding(crate::specs::Instr16::emit_native_instr16))]
pub fn emit_native_instr16(
    em: InstrEmitter<'_>,
    ignore_ebreak: bool,
    pc: u64,
    instr: u16,
) -> Emitted<'_>
    ensures { answer result ≡ emitted (held em.entry) (emit_native_instr16 «ignore_ebreak» pc instr) }
{
    match instr % 4 {
        0b00 => emit_quadrant_0(em, instr),
        0b01 => emit_quadrant_1(em, pc, instr),
        0b10 => emit_quadrant_2(em, ignore_ebreak, pc, instr),
        _ => em.none(),
    }
}
