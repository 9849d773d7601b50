// The assembler form of each A64 form: the table of specs/Text.antt.
ghost use Rattle.std.specs.Prelude.{◌≡◌, ◌<◌};
ghost use Rattle.a64_text.specs.Operands.{X};
ghost use Rattle.a64_text.specs.Text.{syntax, op_syntax, op1_syntax};
ghost use Rattle.a64_text.specs.Parts.{Assembles, Readable};

use crate::operand::{Rest, SP};
use a64::{Form, Op, Op1};

// Mnemonics with a blank after them: their bytes, of which the lowest is the first.
// Kept: mnemonics as numbers, by the bar of speed: their bytes are written at once (docs/DESIGN.md, 'The listing').
const ADD: u64 = 0x2064_6461;

const SUB: u64 = 0x2062_7573;

const AND: u64 = 0x2064_6E61;

const ORR: u64 = 0x2072_726F;

const EOR: u64 = 0x2072_6F65;

const LSLV: u64 = 0x20_766C_736C;

const LSRV: u64 = 0x20_7672_736C;

const ASRV: u64 = 0x20_7672_7361;

const MADD: u64 = 0x20_6464_616D;

const SMULH: u64 = 0x2068_6C75_6D73;

const UMULH: u64 = 0x2068_6C75_6D75;

const UDIV: u64 = 0x20_7669_6475;

const SDIV: u64 = 0x20_7669_6473;

const BIC: u64 = 0x2063_6962;

const ORN: u64 = 0x206E_726F;

const EON: u64 = 0x206E_6F65;

const RORV: u64 = 0x20_7672_6F72;

const REV: u64 = 0x2076_6572;

const CLZ: u64 = 0x207A_6C63;

const LDR: u64 = 0x2072_646C;

const STR: u64 = 0x2072_7473;

const MOVZ: u64 = 0x20_7A76_6F6D;

const MOVK: u64 = 0x20_6B76_6F6D;

const SUBS: u64 = 0x20_7362_7573;

const CSEL: u64 = 0x20_6C65_7363;

const SBFM: u64 = 0x20_6D66_6273;

const BLR: u64 = 0x2072_6C62;

const RET: u64 = 0x2074_6572;

// A mnemonic, its registers by number, and the operands after them.
#[derive(Drop)]
pub struct Assembled {
    pub mnemonic: u64,
    pub first: u32,
    pub second: Option<u32>,
    pub third: Option<u32>,
    pub rest: Rest,
}

// Kept: no plainer as literals: each form is a row of five values.
fn row(mnemonic: u64, first: u32, second: Option<u32>, third: Option<u32>, rest: Rest) -> Assembled
    ensures { result ≡ record { mnemonic = mnemonic; first = first; second = second; third = third; rest = rest } }
{
    Assembled {
        mnemonic,
        first,
        second,
        third,
        rest,
    }
}

fn op_assembly(op: Op, rd: u32, rn: u32, rm: u32) -> Assembled
    requires { (rd < 32) × (rn < 32) × (rm < 32) }
    ensures { Assembles result (op_syntax op (X rd) (X rn) (X rm)) }
{
    match op {
        Op::Add => row(ADD, rd, Some(rn), Some(rm), Rest::Lsl0),
        Op::Sub => row(SUB, rd, Some(rn), Some(rm), Rest::Lsl0),
        Op::And => row(AND, rd, Some(rn), Some(rm), Rest::Lsl0),
        Op::Orr => row(ORR, rd, Some(rn), Some(rm), Rest::Lsl0),
        Op::Eor => row(EOR, rd, Some(rn), Some(rm), Rest::Lsl0),
        Op::Lslv => row(LSLV, rd, Some(rn), Some(rm), Rest::None),
        Op::Lsrv => row(LSRV, rd, Some(rn), Some(rm), Rest::None),
        Op::Asrv => row(ASRV, rd, Some(rn), Some(rm), Rest::None),
        Op::Mul => row(MADD, rd, Some(rn), Some(rm), Rest::Xzr),
        Op::Smulh => row(SMULH, rd, Some(rn), Some(rm), Rest::None),
        Op::Umulh => row(UMULH, rd, Some(rn), Some(rm), Rest::None),
        Op::Udiv => row(UDIV, rd, Some(rn), Some(rm), Rest::None),
        Op::Sdiv => row(SDIV, rd, Some(rn), Some(rm), Rest::None),
        Op::Bic => row(BIC, rd, Some(rn), Some(rm), Rest::Lsl0),
        Op::Orn => row(ORN, rd, Some(rn), Some(rm), Rest::Lsl0),
        Op::Eon => row(EON, rd, Some(rn), Some(rm), Rest::Lsl0),
        Op::Rorv => row(RORV, rd, Some(rn), Some(rm), Rest::None),
    }
}

fn op1_assembly(op: Op1, rd: u32, rn: u32) -> Assembled
    requires { (rd < 32) × (rn < 32) }
    ensures { Assembles result (op1_syntax op (X rd) (X rn)) }
{
    match op {
        Op1::Rev => row(REV, rd, Some(rn), None, Rest::None),
        Op1::Clz => row(CLZ, rd, Some(rn), None, Rest::None),
    }
}

pub fn assembly(f: Form) -> Assembled
    requires { Readable f }
    ensures { Assembles result (syntax f) }
{
    match f {
        Form::DataProcessing(op, rd, rn, rm) => op_assembly(op, rd, rn, rm),
        Form::Ldr(rt, rn, imm) => row(LDR, rt, None, None, Rest::Memory(rn, 8 * imm)),
        Form::Str(rt, rn, imm) => row(STR, rt, None, None, Rest::Memory(rn, 8 * imm)),
        Form::Movz(rd, hw, imm) => row(MOVZ, rd, None, None, Rest::Shifted(imm, 16 * hw)),
        Form::Movk(rd, hw, imm) => row(MOVK, rd, None, None, Rest::Shifted(imm, 16 * hw)),
        Form::Cmp(rn, rm) => row(SUBS, 31, Some(rn), Some(rm), Rest::Lsl0),
        Form::Csel(rd, rn, rm, c) => row(CSEL, rd, Some(rn), Some(rm), Rest::Condition(c)),
        Form::Sxtw(rd, rn) => row(SBFM, rd, Some(rn), None, Rest::Fields(0, 31)),
        Form::AddSp(imm) => row(ADD, SP, Some(SP), None, Rest::Shifted(imm, 0)),
        Form::SubSp(imm) => row(SUB, SP, Some(SP), None, Rest::Shifted(imm, 0)),
        Form::Blr(rn) => row(BLR, rn, None, None, Rest::None),
        Form::Ret => row(RET, 30, None, None, Rest::None),
        Form::Unreadable => unreachable!(),
        Form::OneSource(op, rd, rn) => op1_assembly(op, rd, rn),
    }
}
