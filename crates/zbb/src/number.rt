// The instructions with rs1 and a number: RORI and RORIW.
ghost use Rattle.std.specs.Prelude.{◌≡◌};
ghost use Rattle.isa.specs.declared.zbb.Zbb.{Zbb};
ghost use Rattle.isa.specs.declared.zbb.Found.{Found};
ghost use Rattle.isa.specs.Formats.{inst};
ghost use Rattle.isa.specs.Zbb.{shift_of};
ghost use Rattle.emit_native.specs.Parts.{held, answer, emitted};
ghost use Rattle.zbb.specs.Emission.{emission};

use crate::fields::{finish, load_number};
use crate::parts::emit_rotated;
use a64_emitter::A64Emitter;
use emit_native::{Emitted, InstrEmitter};
use isa::zbb::{FUNCT6, key};

// RORIW.
#[tactic(auto, unfolding(crate::specs::Emission::emission, crate::specs::Words::zbb_body))]
pub fn emit_roriw(em: InstrEmitter<'_>, instr: u32) -> Emitted<'_>
    ensures { answer result ≡ emitted (held em.entry) (emission (Some (Found.Number Zbb.Rorw (inst 24 20 instr))) instr) }
{
    let n = (instr / 0x10_0000 % 32) as u64;
    let em = load_number(em, instr, n);
    let there = A64Emitter::lsrv_x(11, 9, 10);
    let back = A64Emitter::lslv_x(12, 9, 12);
    let em = emit_rotated(em, there, back);
    finish(em, instr)
}

// RORI, or no Zbb instruction.
#[tactic(auto, unfolding(crate::specs::Words::zbb_body, crate::specs::Emission::emission, isa::specs::Zbb::shifts, isa::specs::Zbb::shift_of, emit_native::specs::Parts::answer))]
pub fn emit_rori(em: InstrEmitter<'_>, instr: u32) -> Emitted<'_>
    ensures emits { answer result ≡ emitted (held em.entry) (emission (shift_of instr) instr) }
    ensures words_unchanged { result.flow ≡ None → result.em.words.now ≡ em.entry.words.now }
{
    if key::<FUNCT6>(instr) != 0b011000_101_0010011 {
        return em.none();
    }
    let n = (instr / 0x10_0000 % 64) as u64;
    let em = load_number(em, instr, n).emit(A64Emitter::rorv_x(11, 9, 10));
    finish(em, instr)
}
