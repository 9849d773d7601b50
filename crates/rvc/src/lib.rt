// The 16-bit encodings, and what the instructions that they stand for do.
#![tactic(auto)]

ghost use Rattle.std.specs.Prelude.{◌≡◌, ◌+◌, ◌*◌, if◌then◌else◌, ◌==◌};
ghost use Rattle.isa.specs.Formats as F;
ghost use Rattle.word.specs.Word as W;
ghost use Rattle.rvc.specs.Compressed as C;
ghost use Rattle.rv64.specs.Execute as X;
ghost use Rattle.rv64.specs.Parts as S;

use rv64::alu::sextw;
use rv64::execute::{Effect, Flow, apply, ended, put, read};

// e, unless the encoding is reserved.
fn unless(reserved: bool, e: Effect) -> Effect
    ensures { result ≡ (if reserved then Effect.Uncovered else e) }
{
    if reserved { Effect::Uncovered } else { e }
}

// Kept: x, w, flag and pc side by side: no plainer as a struct, which `effect16` alone would make.
fn quadrant0(x: &[u64; 32], w: u16, pc: u64) -> Effect
    ensures { S.Gives result (C.quadrant0 w) 2 pc x.now }
{
    match w / 8192 % 8 {
        0b000 => {
            let imm = isa::decode::imm_ciw(w);
            let v = read(x, 2).wrapping_add(imm);
            unless(imm == 0, Effect::Set((w / 4 % 8 + 8) as u32, v))
        }
        0b010 => Effect::Helper,
        0b011 => Effect::Helper,
        0b110 => Effect::Helper,
        0b111 => Effect::Helper,
        _ => Effect::Uncovered,
    }
}

// C.SUB and the others of its group, by bits 12, 6 and 5.
#[tactic(auto, using(rv64::proofs::Tables::missed), unfolding(rv64::specs::Alu::value, crate::specs::Compressed::ariths))]
fn arith(w: u16, x: u64, y: u64) -> Option<u64>
    ensures { result ≡ S.computed C.ariths (F.inst 12 12 w * 4 + F.inst 6 5 w) x y None }
{
    match w / 4096 % 2 * 4 + w / 32 % 4 {
        0b0_00 => Some(x.wrapping_sub(y)),
        0b0_01 => Some(x ^ y),
        0b0_10 => Some(x | y),
        0b0_11 => Some(x & y),
        0b1_00 => Some(sextw(x.wrapping_sub(y))),
        0b1_01 => Some(sextw(x.wrapping_add(y))),
        _ => None,
    }
}

fn misc_alu(x: &[u64; 32], w: u16, pc: u64) -> Effect
    ensures { S.Gives result (C.misc_alu w) 2 pc x.now }
{
    let d = (w / 128 % 8 + 8) as u32;
    let a = read(x, d);
    let b = read(x, (w / 4 % 8 + 8) as u32);
    let shamt = isa::decode::shamt_c(w);
    match w / 1024 % 4 {
        0b00 => Effect::Set(d, a >> (shamt % 64)),
        0b01 => Effect::Set(d, word::asr(a, (shamt % 64) as u32)),
        0b10 => Effect::Set(d, a & isa::decode::imm_ci(w)),
        0b11 => put(d, arith(w, a, b)),
        _ => Effect::Uncovered,
    }
}

// C.ADDI16SP and C.LUI.
fn lui_addi16sp(x: &[u64; 32], w: u16, pc: u64) -> Effect
    ensures { S.Gives result (C.lui_addi16sp w) 2 pc x.now }
{
    let d = (w / 128 % 32) as u32;
    if d == 2 {
        let imm = isa::decode::imm_ci16(w);
        let v = read(x, 2).wrapping_add(imm);
        return unless(imm == 0, Effect::Set(2, v));
    }
    let imm = isa::decode::imm_ci(w);
    unless(d == 0, unless(imm == 0, Effect::Set(d, imm << 12)))
}

// Whether the register of C.BEQZ and C.BNEZ holds 0.
fn is_zero(x: &[u64; 32], w: u16) -> bool
    ensures { result ≡ (X.read x.now (F.high_reg w) == 0) }
{
    read(x, (w / 128 % 8 + 8) as u32) == 0
}

// C.BEQZ and C.BNEZ.
fn branch(taken: bool, w: u16, pc: u64) -> Effect
    ensures { result ≡ S.ended taken (W.add pc (F.cb_imm w)) (W.add pc 2) }
{
    let to = pc.wrapping_add(isa::decode::imm_cb(w));
    ended(taken, to, pc.wrapping_add(2))
}

fn quadrant1(x: &[u64; 32], w: u16, pc: u64) -> Effect
    ensures { S.Gives result (C.quadrant1 w) 2 pc x.now }
{
    let d = (w / 128 % 32) as u32;
    let a = read(x, d);
    let imm = isa::decode::imm_ci(w);
    match w / 8192 % 8 {
        0b000 => Effect::Set(d, a.wrapping_add(imm)),
        0b001 => unless(d == 0, Effect::Set(d, sextw(a.wrapping_add(imm)))),
        0b010 => Effect::Set(d, imm),
        0b011 => lui_addi16sp(x, w, pc),
        0b100 => misc_alu(x, w, pc),
        0b101 => Effect::Ended(pc.wrapping_add(isa::decode::imm_cj(w))),
        0b110 => branch(is_zero(x, w), w, pc),
        0b111 => branch(!is_zero(x, w), w, pc),
        _ => Effect::Uncovered,
    }
}

// C.JR and C.MV.
fn jr_mv(x: &[u64; 32], w: u16, pc: u64) -> Effect
    ensures { S.Gives result (C.jr_mv w) 2 pc x.now }
{
    let d = (w / 128 % 32) as u32;
    let s = (w / 4 % 32) as u32;
    if s == 0 {
        let to = read(x, d);
        return unless(d == 0, Effect::Ended(to / 2 * 2));
    }
    let v = read(x, s);
    unless(d == 0, Effect::Set(d, v))
}

// C.EBREAK, C.JALR and C.ADD.
fn ebreak_jalr_add(x: &[u64; 32], w: u16, ignore_ebreak: bool, pc: u64) -> Effect
    ensures { S.Gives result (C.ebreak_jalr_add ignore_ebreak w) 2 pc x.now }
{
    let d = (w / 128 % 32) as u32;
    let s = (w / 4 % 32) as u32;
    let a = read(x, d);
    if s != 0 {
        let v = a.wrapping_add(read(x, s));
        return unless(d == 0, Effect::Set(d, v));
    }
    if d != 0 {
        let to = a;
        return Effect::Link(1, to / 2 * 2);
    }
    if ignore_ebreak {
        Effect::Next
    } else {
        Effect::Uncovered
    }
}

fn cr(x: &[u64; 32], w: u16, ignore_ebreak: bool, pc: u64) -> Effect
    ensures { S.Gives result (C.cr ignore_ebreak w) 2 pc x.now }
{
    match w / 4096 % 2 {
        0b0 => jr_mv(x, w, pc),
        0b1 => ebreak_jalr_add(x, w, ignore_ebreak, pc),
        _ => Effect::Uncovered,
    }
}

fn quadrant2(x: &[u64; 32], w: u16, ignore_ebreak: bool, pc: u64) -> Effect
    ensures { S.Gives result (C.quadrant2 ignore_ebreak w) 2 pc x.now }
{
    match w / 8192 % 8 {
        0b000 => {
            let d = (w / 128 % 32) as u32;
            let v = read(x, d) << (isa::decode::shamt_c(w) % 64);
            unless(d == 0, Effect::Set(d, v))
        }
        0b010 => Effect::Helper,
        0b011 => Effect::Helper,
        0b100 => cr(x, w, ignore_ebreak, pc),
        0b110 => Effect::Helper,
        0b111 => Effect::Helper,
        _ => Effect::Uncovered,
    }
}

// What the instruction of the halfword w at pc does.
fn effect16(x: &[u64; 32], w: u16, ignore_ebreak: bool, pc: u64) -> Effect
    ensures { S.Gives result (C.decode16 ignore_ebreak w) 2 pc x.now }
{
    match w % 4 {
        0b00 => quadrant0(x, w, pc),
        0b01 => quadrant1(x, w, pc),
        0b10 => quadrant2(x, w, ignore_ebreak, pc),
        _ => Effect::Uncovered,
    }
}

// The instruction of the halfword w at pc.
pub fn step16(x: &mut [u64; 32], w: u16, ignore_ebreak: bool, pc: u64) -> Flow
    ensures { S.Does (X.exec (C.decode16 ignore_ebreak w) 2 pc x.old) result x.new }
{
    let e = effect16(x, w, ignore_ebreak, pc);
    apply(x, e, pc.wrapping_add(2))
}
