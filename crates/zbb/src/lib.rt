// `emit_native_zbb`: the words of Zbb instructions (document 02, No. 7). Those with rs1 and rs2 stand here.
#![tactic(auto)]

ghost use Rattle.std.specs.Prelude.{[], ◌∷◌, ◌≡◌, ◌<◌};
ghost use Rattle.isa.specs.Zbb.{find};
ghost use Rattle.emit_native.specs.Calls.{emit};
ghost use Rattle.emit_native.specs.Parts.{held, answer, emitted};
ghost use Rattle.zbb.specs.Words as W;
ghost use Rattle.zbb.specs.Emission.{emission};
ghost use Rattle.zbb.specs.Parts.{operands, around};

use crate::fields::{finish, load_two};
use crate::number::emit_roriw;
use crate::parts::emit_rotated;
use crate::unary::emit_unary;
use a64_emitter::A64Emitter;
use emit_native::{C_CC, C_CS, C_GE, C_LT, Emitted, InstrEmitter};
use isa::zbb::{FUNCT7, key};

mod fields;
mod number;
mod parts;
mod unary;

// ANDN, ORN, XNOR, ROR: a body of one word.
fn one(em: InstrEmitter<'_>, instr: u32, w: u32) -> Emitted<'_>
    ensures { answer result ≡ emitted (held em.entry) (around (operands instr) (emit w ∷ []) instr) }
{
    let em = load_two(em, instr).emit(w);
    finish(em, instr)
}

// ROL and what is compared: a body of two words.
fn two(em: InstrEmitter<'_>, instr: u32, v: u32, w: u32) -> Emitted<'_>
    ensures { answer result ≡ emitted (held em.entry) (around (operands instr) (emit v ∷ emit w ∷ []) instr) }
{
    let em = load_two(em, instr).emit(v).emit(w);
    finish(em, instr)
}

// MAX, MAXU, MIN, MINU, by the condition where X9 is picked.
fn picked(em: InstrEmitter<'_>, instr: u32, condition: u8) -> Emitted<'_>
    requires { condition < 16 }
    ensures { answer result ≡ emitted (held em.entry) (around (operands instr) (W.picked condition) instr) }
{
    let w = A64Emitter::csel_x(11, 9, 10, condition);
    two(em, instr, A64Emitter::cmp_x(9, 10), w)
}

// ROLW, RORW, by the shift of the low bits of X10 and the shift back. In its callers, as `emit_ones` is.
#[inline(always)]
fn rotated(em: InstrEmitter<'_>, instr: u32, there: u32, back: u32) -> Emitted<'_>
    ensures { answer result ≡ emitted (held em.entry) (around (operands instr) (W.rotated there back) instr) }
{
    let em = load_two(em, instr);
    let em = emit_rotated(em, there, back);
    finish(em, instr)
}

// A Zbb instruction; for any other no words, and the array as it was.
#[tactic(auto, unfolding(crate::specs::Words::zbb_body, crate::specs::Emission::emission, isa::specs::Zbb::registers, isa::specs::Zbb::word_shifts, isa::specs::Zbb::word_shift_of, isa::specs::Zbb::find, emit_native::specs::Parts::answer))]
pub fn emit_native_zbb(em: InstrEmitter<'_>, instr: u32) -> Emitted<'_>
    ensures emits { answer result ≡ emitted (held em.entry) (emission (find instr) instr) }
    ensures words_unchanged { result.flow ≡ None → result.em.words.now ≡ em.entry.words.now }
{
    match key::<FUNCT7>(instr) {
        // ANDN, ORN, XNOR
        0b0100000_111_0110011 => one(em, instr, A64Emitter::bic_x(11, 9, 10)),
        0b0100000_110_0110011 => one(em, instr, A64Emitter::orn_x(11, 9, 10)),
        0b0100000_100_0110011 => one(em, instr, A64Emitter::eon_x(11, 9, 10)),
        // MAX, MAXU, MIN, MINU
        0b0000101_110_0110011 => picked(em, instr, C_GE),
        0b0000101_111_0110011 => picked(em, instr, C_CS),
        0b0000101_100_0110011 => picked(em, instr, C_LT),
        0b0000101_101_0110011 => picked(em, instr, C_CC),
        // ROL, ROR
        0b0110000_001_0110011 => {
            let v = A64Emitter::sub_x(10, 31, 10);
            let w = A64Emitter::rorv_x(11, 9, 10);
            two(em, instr, v, w)
        }
        0b0110000_101_0110011 => one(em, instr, A64Emitter::rorv_x(11, 9, 10)),
        // ROLW, RORW, RORIW
        0b0110000_001_0111011 => {
            let there = A64Emitter::lslv_x(11, 9, 10);
            let back = A64Emitter::lsrv_x(12, 9, 12);
            rotated(em, instr, there, back)
        }
        0b0110000_101_0111011 => {
            let there = A64Emitter::lsrv_x(11, 9, 10);
            let back = A64Emitter::lslv_x(12, 9, 12);
            rotated(em, instr, there, back)
        }
        0b0110000_101_0011011 => emit_roriw(em, instr),
        _ => emit_unary(em, instr),
    }
}
