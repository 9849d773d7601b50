// The class of each opcode, the low seven bits of a 32-bit instruction.
ghost use Rattle.std.specs.Prelude.{◌≡◌, ◌≤◌, ◌<◌};
ghost use Rattle.isa.specs.Formats.{opcode};
ghost use Rattle.isa.specs.Classes.{class_of};

// The opcodes of isa.rs that the translator tells apart; every other one is Other.
#[derive(Clone, Copy, PartialEq, Eq, Debug)]
pub enum Class {
    Load,
    LoadFp,
    MiscMem,
    OpImm,
    Auipc,
    OpImm32,
    Store,
    StoreFp,
    Amo,
    Op,
    Lui,
    Op32,
    Branch,
    Jalr,
    Jal,
    System,
    Other,
}

// Decisions on the number, after the rows of the ISA's opcode map, inst[6:5]. At most three opcodes to a `match`:
// of more the compiler makes a table in read-only memory, which tools/readonly refuses.

// Kept: a function for each row, no plainer as one: a row's opcodes are its own.

// Row 00.
#[tactic(auto, unfolding(crate::specs::Classes::class_of))]
fn row_00(n: u32) -> Class
    requires { n < 0b0100000 }
    ensures { result ≡ class_of n }
{
    if n < 0b0010000 {
        return match n {
            crate::OPCODE_LOAD => Class::Load,
            crate::OPCODE_LOAD_FP => Class::LoadFp,
            crate::OPCODE_MISC_MEM => Class::MiscMem,
            _ => Class::Other,
        };
    }
    match n {
        crate::OPCODE_OP_IMM => Class::OpImm,
        crate::OPCODE_AUIPC => Class::Auipc,
        crate::OPCODE_OP_IMM_32 => Class::OpImm32,
        _ => Class::Other,
    }
}

// Row 01.
#[tactic(auto, unfolding(crate::specs::Classes::class_of))]
fn row_01(n: u32) -> Class
    requires { (0b0100000 ≤ n) × (n < 0b1000000) }
    ensures { result ≡ class_of n }
{
    if n < 0b0110000 {
        return match n {
            crate::OPCODE_STORE => Class::Store,
            crate::OPCODE_STORE_FP => Class::StoreFp,
            crate::OPCODE_AMO => Class::Amo,
            _ => Class::Other,
        };
    }
    match n {
        crate::OPCODE_OP => Class::Op,
        crate::OPCODE_LUI => Class::Lui,
        crate::OPCODE_OP_32 => Class::Op32,
        _ => Class::Other,
    }
}

// Row 11, and row 10, which has none of them.
#[tactic(auto, unfolding(crate::specs::Classes::class_of))]
fn row_11(n: u32) -> Class
    requires { 0b1000000 ≤ n }
    ensures { result ≡ class_of n }
{
    if n < 0b1110000 {
        return match n {
            crate::OPCODE_BRANCH => Class::Branch,
            crate::OPCODE_JALR => Class::Jalr,
            crate::OPCODE_JAL => Class::Jal,
            _ => Class::Other,
        };
    }
    match n {
        crate::OPCODE_SYSTEM => Class::System,
        _ => Class::Other,
    }
}

pub fn opcode_class(instr: u32) -> Class
    ensures { result ≡ class_of (opcode instr) }
{
    let n = instr % 128;
    if n < 0b0100000 {
        return row_00(n);
    }
    if n < 0b1000000 {
        return row_01(n);
    }
    row_11(n)
}
