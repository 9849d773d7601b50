// `emit_native_term_helper16` and `emit_native_term_helper32`: the call of a helper that ends the block.
#![tactic(auto)]

ghost use Rattle.std.specs.Prelude.{◌≡◌, [], ◌∷◌, ◌<◌};
ghost use Rattle.a64_emitter.specs.Writers.{add_x, mov_x};
ghost use Rattle.emit_native.specs.Calls.{Call, if_not_0, terminate};
ghost use Rattle.emit_native.specs.Parts.{held, after, answer, emitted, InRange};
ghost use Rattle.term_helper.specs.TermHelper.{call_helper, call_exec, load_calls, store_calls, load_helper, store_helper, load_op, store_op, opcode_helper, supports, emit_native_term_helper16, emit_native_term_helper32};

use a64_emitter::A64Emitter;
use emit_native::{Emitted, Host, InstrEmitter};
use isa::decode::Decoded32;

// Kept: numbers, by the C interface: the memory helper is called with them.
const MEM_OP_LB: u64 = 0;

const MEM_OP_LH: u64 = 1;

const MEM_OP_LW: u64 = 2;

const MEM_OP_LD: u64 = 3;

const MEM_OP_LBU: u64 = 4;

const MEM_OP_LHU: u64 = 5;

const MEM_OP_LWU: u64 = 6;

const MEM_OP_SB: u64 = 16;

const MEM_OP_SH: u64 = 17;

const MEM_OP_SW: u64 = 18;

const MEM_OP_SD: u64 = 19;

// X1 and X2 and X3 into X0 and X1 and X2.
fn emit_pointers(em: InstrEmitter<'_>) -> InstrEmitter<'_>
    ensures { held result ≡ after (held em.entry) (Call.emit (mov_x 0 1) ∷ Call.emit (mov_x 1 2) ∷ Call.emit (mov_x 2 3) ∷ []) }
{
    em.emit(A64Emitter::mov_x(0, 1))
        .emit(A64Emitter::mov_x(1, 2))
        .emit(A64Emitter::mov_x(2, 3))
}

// The instructions before the helper's, where there are any, on top of its own count.
fn emit_prefix(em: InstrEmitter<'_>, prefix: u32) -> InstrEmitter<'_>
    ensures { held result ≡ after (held em.entry) (if_not_0 prefix (Call.mov_imm64 12 prefix ∷ Call.emit (add_x 1 1 12) ∷ [])) }
{
    if prefix == 0 {
        return em;
    }
    em.mov_imm64(12, prefix as u64)
        .emit(A64Emitter::add_x(1, 1, 12))
}

// The call, with X30 kept on the stack, and the return.
fn emit_call(em: InstrEmitter<'_>, helper: u64, prefix: u32) -> InstrEmitter<'_>
    ensures { held result ≡ after (held em.entry) (call_helper helper prefix) }
{
    let em = em
        .mov_imm64(16, helper)
        .emit(A64Emitter::sub_sp_imm(16))
        .emit(A64Emitter::str_x(30, 31, 0))
        .emit(A64Emitter::blr(16))
        .emit(A64Emitter::ldr_x(30, 31, 0))
        .emit(A64Emitter::add_sp_imm(16));
    emit_prefix(em, prefix).emit(A64Emitter::ret())
}

// The arguments of a general helper: X1 to X5 into X0 to X4, the instruction and the PC.
fn emit_exec(em: InstrEmitter<'_>, helper: u64, pc: u64, instr: u32, prefix: u32) -> Emitted<'_>
    ensures { answer result ≡ emitted (held em.entry) (terminate (call_exec helper pc instr prefix)) }
{
    let em = emit_pointers(em)
        .emit(A64Emitter::mov_x(3, 4))
        .emit(A64Emitter::mov_x(4, 5))
        .mov_imm64(5, instr as u64)
        .mov_imm64(6, pc);
    emit_call(em, helper, prefix).terminate()
}

// The address of an access into X11.
fn emit_address(em: InstrEmitter<'_>, rs1: u8, imm: u64) -> InstrEmitter<'_>
    requires { rs1 < 32 }
    ensures { held result ≡ after (held em.entry) (Call.load 9 rs1 ∷ Call.mov_imm64 10 imm ∷ Call.emit (add_x 11 9 10) ∷ []) }
{
    em.load(9, rs1)
        .mov_imm64(10, imm)
        .emit(A64Emitter::add_x(11, 9, 10))
}

// The memory helper's call, with the address and the PC as its last arguments.
fn emit_memory_call(em: InstrEmitter<'_>, host: Host, pc: u64, prefix: u32) -> Emitted<'_>
    ensures { answer result ≡ emitted (held em.entry) (terminate (Call.emit (mov_x 6 11) ∷ Call.mov_imm64 7 pc ∷ call_helper host.memory_helper prefix)) }
{
    let em = em.emit(A64Emitter::mov_x(6, 11)).mov_imm64(7, pc);
    emit_call(em, host.memory_helper, prefix).terminate()
}

// For a load: no value.
// Kept: host, pc, instr, d and prefix side by side, by a rule of the project: the Rust's parameters in its order.
fn emit_load(
    em: InstrEmitter<'_>,
    host: Host,
    op: u64,
    pc: u64,
    instr: u32,
    d: Decoded32,
    prefix: u32,
) -> Emitted<'_>
    requires { InRange d }
    ensures { answer result ≡ emitted (held em.entry) (terminate (load_calls host.memory_helper op pc instr d prefix)) }
{
    let em = emit_address(em, d.rs1, isa::decode::imm_i(instr));
    let em = emit_pointers(em)
        .mov_imm64(3, op)
        .mov_imm64(4, d.rd as u64)
        .mov_imm64(5, 0);
    emit_memory_call(em, host, pc, prefix)
}

// For a store: the value by way of X12.
fn emit_store(
    em: InstrEmitter<'_>,
    host: Host,
    op: u64,
    pc: u64,
    instr: u32,
    d: Decoded32,
    prefix: u32,
) -> Emitted<'_>
    requires { InRange d }
    ensures { answer result ≡ emitted (held em.entry) (terminate (store_calls host.memory_helper op pc instr d prefix)) }
{
    let em = emit_address(em, d.rs1, isa::decode::imm_s(instr)).load(12, d.rs2);
    let em = emit_pointers(em)
        .mov_imm64(3, op)
        .mov_imm64(4, d.rd as u64)
        .emit(A64Emitter::mov_x(5, 12));
    emit_memory_call(em, host, pc, prefix)
}

// The memory helper's operation of a load, and of a store.
#[tactic(auto, unfolding(crate::specs::TermHelper::load_op))]
fn load_op(funct3: u32) -> Option<u64>
    ensures { result ≡ load_op funct3 }
{
    match funct3 {
        isa::F3_LB => Some(MEM_OP_LB),
        isa::F3_LH => Some(MEM_OP_LH),
        isa::F3_LW => Some(MEM_OP_LW),
        isa::F3_LD => Some(MEM_OP_LD),
        isa::F3_LBU => Some(MEM_OP_LBU),
        isa::F3_LHU => Some(MEM_OP_LHU),
        isa::F3_LWU => Some(MEM_OP_LWU),
        _ => None,
    }
}

#[tactic(auto, unfolding(crate::specs::TermHelper::store_op))]
fn store_op(funct3: u32) -> Option<u64>
    ensures { result ≡ store_op funct3 }
{
    match funct3 {
        isa::F3_SB => Some(MEM_OP_SB),
        isa::F3_SH => Some(MEM_OP_SH),
        isa::F3_SW => Some(MEM_OP_SW),
        isa::F3_SD => Some(MEM_OP_SD),
        _ => None,
    }
}

// Kept: this and `emit_store_helper`, no plainer as one: operation and emitter would be two closures.
#[tactic(auto, unfolding(crate::specs::TermHelper::load_helper))]
fn emit_load_helper(
    em: InstrEmitter<'_>,
    host: Host,
    pc: u64,
    instr: u32,
    d: Decoded32,
    prefix: u32,
) -> Emitted<'_>
    requires { InRange d }
    ensures { answer result ≡ emitted (held em.entry) (load_helper host pc instr d prefix d.funct3) }
{
    match load_op(d.funct3 as u32) {
        Some(op) => emit_load(em, host, op, pc, instr, d, prefix),
        None => em.none(),
    }
}

#[tactic(auto, unfolding(crate::specs::TermHelper::store_helper))]
fn emit_store_helper(
    em: InstrEmitter<'_>,
    host: Host,
    pc: u64,
    instr: u32,
    d: Decoded32,
    prefix: u32,
) -> Emitted<'_>
    requires { InRange d }
    ensures { answer result ≡ emitted (held em.entry) (store_helper host pc instr d prefix d.funct3) }
{
    match store_op(d.funct3 as u32) {
        Some(op) => emit_store(em, host, op, pc, instr, d, prefix),
        None => em.none(),
    }
}

// By the opcode.
#[tactic(auto, unfolding(crate::specs::TermHelper::opcode_helper))]
fn emit_opcode_helper(
    em: InstrEmitter<'_>,
    host: Host,
    pc: u64,
    instr: u32,
    d: Decoded32,
    prefix: u32,
    opcode: u32,
) -> Emitted<'_>
    requires { InRange d }
    ensures { answer result ≡ emitted (held em.entry) (opcode_helper host pc instr d prefix opcode) }
{
    match opcode {
        isa::OPCODE_SYSTEM => em.none(),
        isa::OPCODE_LOAD => emit_load_helper(em, host, pc, instr, d, prefix),
        isa::OPCODE_STORE => emit_store_helper(em, host, pc, instr, d, prefix),
        isa::OPCODE_LOAD_FP | isa::OPCODE_STORE_FP | isa::OPCODE_AMO => {
            emit_exec(em, host.helper32, pc, instr, prefix)
        }
        _ => em.none(),
    }
}

#[tactic(auto, unfolding(crate::specs::TermHelper::emit_native_term_helper32))]
pub fn emit_native_term_helper32(
    em: InstrEmitter<'_>,
    host: Host,
    pc: u64,
    instr: u32,
    d: Decoded32,
    prefix: u32,
) -> Emitted<'_>
    requires { InRange d }
    ensures { answer result ≡ emitted (held em.entry) (emit_native_term_helper32 host pc instr d prefix) }
{
    emit_opcode_helper(em, host, pc, instr, d, prefix, d.opcode as u32)
}

#[tactic(auto, unfolding(crate::specs::TermHelper::supports))]
fn supports(op: u16, funct3: u16) -> bool
    ensures { result ≡ supports op funct3 }
{
    matches!(op, 0b00 | 0b10) && matches!(funct3, 0b010 | 0b011 | 0b110 | 0b111)
}

#[tactic(auto, unfolding(crate::specs::TermHelper::emit_native_term_helper16))]
pub fn emit_native_term_helper16(
    em: InstrEmitter<'_>,
    host: Host,
    pc: u64,
    instr: u16,
    prefix: u32,
) -> Emitted<'_>
    ensures { answer result ≡ emitted (held em.entry) (emit_native_term_helper16 host pc instr prefix) }
{
    if supports(instr % 4, instr / 0x2000 % 8) {
        return emit_exec(em, host.helper16, pc, instr as u32, prefix);
    }
    em.none()
}
