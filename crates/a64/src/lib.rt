// The A64 forms that `A64Emitter` and the literal RET produce, and the form of a word.
#![tactic(auto)]

ghost use Rattle.std.specs.Prelude.{◌≡◌};
ghost use Rattle.a64.specs.declared.Form.TheVariants.{Unreadable};
ghost use Rattle.a64.specs.Forms.{decode, decode_op, decode_one, decode_register, form_if, ops};
ghost use Rattle.a64.specs.Parts.{form_logical, form_da, form_9a, form_9b, form_of};

// The operations of the three-register forms.
#[derive(Drop)]
pub enum Op {
    Add,
    Sub,
    And,
    Orr,
    Eor,
    Bic,
    Orn,
    Eon,
    Lslv,
    Lsrv,
    Asrv,
    Rorv,
    Mul,
    Smulh,
    Umulh,
    Udiv,
    Sdiv,
}

// The operations of the forms with one source.
#[derive(Drop)]
pub enum Op1 {
    Rev,
    Clz,
}

// The 30 forms: 17 with three registers, two with one source and 11 others, with their fields in the order of the
// assembler.
#[derive(Drop)]
pub enum Form {
    // op, rd, rn, rm
    DataProcessing(Op, u32, u32, u32),
    // op, rd, rn
    OneSource(Op1, u32, u32),
    // rt, rn, offset in units of 8
    Ldr(u32, u32, u32),
    Str(u32, u32, u32),
    // rd, halfword (0 to 3), value
    Movz(u32, u32, u32),
    Movk(u32, u32, u32),
    // rn, rm
    Cmp(u32, u32),
    // rd, rn, rm, condition
    Csel(u32, u32, u32, u32),
    // rd, rn
    Sxtw(u32, u32),
    // number
    AddSp(u32),
    SubSp(u32),
    // rn
    Blr(u32),
    Ret,
    // Kept: by what may not change: the clause `outside` of `Outside` in listing/specs/Listing.antt names it.
    // any other word
    Unreadable,
}

// The three-register form of a word.
fn decode_op(w: u32) -> Form
    ensures { result ≡ decode_op ops w }
{
    let rd = w % 32;
    let rn = w / 32 % 32;
    let rm = w / 0x1_0000 % 32;
    // Bits 31 to 21 and 15 to 10 side by side.
    let op = match w / 0x20_0000 * 64 + w / 1024 % 64 {
        0x1_1600 => Op::Add,
        0x1_9600 => Op::Sub,
        0x1_1400 => Op::And,
        0x1_5400 => Op::Orr,
        0x1_9400 => Op::Eor,
        0x1_1440 => Op::Bic,
        0x1_5440 => Op::Orn,
        0x1_9440 => Op::Eon,
        0x1_3588 => Op::Lslv,
        0x1_3589 => Op::Lsrv,
        0x1_358A => Op::Asrv,
        0x1_358B => Op::Rorv,
        0x1_361F => Op::Mul,
        0x1_369F => Op::Smulh,
        0x1_379F => Op::Umulh,
        0x1_3582 => Op::Udiv,
        0x1_3583 => Op::Sdiv,
        _ => return Form::Unreadable,
    };
    Form::DataProcessing(op, rd, rn, rm)
}

fn form_if(test: bool, f: Form) -> Form
    ensures { result ≡ form_if test f }
{
    if test { f } else { Form::Unreadable }
}

// The form with one source.
fn decode_one(w: u32) -> Form
    ensures { result ≡ decode_one w }
{
    let rd = w % 32;
    let rn = w / 32 % 32;
    match w / 1024 % 2048 {
        3 => Form::OneSource(Op1::Rev, rd, rn),
        4 => Form::OneSource(Op1::Clz, rd, rn),
        _ => Form::Unreadable,
    }
}

// The form of a word without an immediate.
fn decode_register(w: u32) -> Form
    ensures { result ≡ decode_register w }
{
    let rd = w % 32;
    let rn = w / 32 % 32;
    let rm = w / 0x1_0000 % 32;
    match w / 0x20_0000 {
        0x758 => form_if(w / 1024 % 64 == 0, form_if(rd == 31, Form::Cmp(rn, rm))),
        0x4D4 => form_if(w / 1024 % 4 == 0, Form::Csel(rd, rn, rm, w / 4096 % 16)),
        0x49A => form_if(w / 1024 % 2048 == 31, Form::Sxtw(rd, rn)),
        0x6B1 => form_if(w / 1024 % 2048 == 0x7C0, form_if(rd == 0, Form::Blr(rn))),
        0x6B2 => form_if(w % 0x20_0000 == 0x1F_03C0, Form::Ret),
        0x6D6 => decode_one(w),
        _ => decode_op(w),
    }
}

// The form of a word, by its upper eleven bits.
#[tactic(auto, using(crate::proofs::Coding::quarter, crate::proofs::Coding::half, crate::proofs::Coding::not_quarter), unfolding(crate::specs::Forms::decode))]
pub fn decode(w: u32) -> Form
    ensures { result ≡ decode w }
{
    let rd = w % 32;
    let rn = w / 32 % 32;
    let imm = w / 1024 % 4096;
    let half = w / 32 % 0x1_0000;
    match w / 0x20_0000 {
        0x694 => Form::Movz(rd, 0, half),
        0x695 => Form::Movz(rd, 1, half),
        0x696 => Form::Movz(rd, 2, half),
        0x697 => Form::Movz(rd, 3, half),
        0x794 => Form::Movk(rd, 0, half),
        0x795 => Form::Movk(rd, 1, half),
        0x796 => Form::Movk(rd, 2, half),
        0x797 => Form::Movk(rd, 3, half),
        0x7CA => Form::Ldr(rd, rn, imm),
        0x7CB => Form::Ldr(rd, rn, imm),
        0x7C8 => Form::Str(rd, rn, imm),
        0x7C9 => Form::Str(rd, rn, imm),
        0x488 => form_if(w % 1024 == 0x3FF, Form::AddSp(imm)),
        0x489 => form_if(w % 1024 == 0x3FF, Form::AddSp(imm)),
        0x688 => form_if(w % 1024 == 0x3FF, Form::SubSp(imm)),
        0x689 => form_if(w % 1024 == 0x3FF, Form::SubSp(imm)),
        _ => decode_register(w),
    }
}

// ---- the form of a word that is one of the 30, by its upper byte: where words are known to be readable, this is the
// shorter way

fn form_logical(w: u32, op: Op, inverted: Op) -> Form
    ensures { result ≡ form_logical w op inverted }
{
    let rd = w % 32;
    let rn = w / 32 % 32;
    let rm = w / 0x1_0000 % 32;
    if w / 0x20_0000 % 2 == 1 {
        return Form::DataProcessing(inverted, rd, rn, rm);
    }
    Form::DataProcessing(op, rd, rn, rm)
}

fn form_da(w: u32) -> Form
    ensures { result ≡ form_da w }
{
    let rd = w % 32;
    let rn = w / 32 % 32;
    if w / 1024 % 2 == 1 {
        return Form::OneSource(Op1::Rev, rd, rn);
    }
    Form::OneSource(Op1::Clz, rd, rn)
}

fn form_9a(w: u32) -> Form
    ensures { result ≡ form_9a w }
{
    let rd = w % 32;
    let rn = w / 32 % 32;
    let rm = w / 0x1_0000 % 32;
    if w / 0x20_0000 % 8 == 4 {
        return Form::Csel(rd, rn, rm, w / 4096 % 16);
    }
    let op = match w / 1024 % 64 {
        8 => Op::Lslv,
        9 => Op::Lsrv,
        10 => Op::Asrv,
        11 => Op::Rorv,
        2 => Op::Udiv,
        _ => Op::Sdiv,
    };
    Form::DataProcessing(op, rd, rn, rm)
}

fn form_9b(w: u32) -> Form
    ensures { result ≡ form_9b w }
{
    let rd = w % 32;
    let rn = w / 32 % 32;
    let rm = w / 0x1_0000 % 32;
    let op = match w / 0x20_0000 % 8 {
        0 => Op::Mul,
        2 => Op::Smulh,
        _ => Op::Umulh,
    };
    Form::DataProcessing(op, rd, rn, rm)
}

#[tactic(auto, unfolding(crate::specs::Parts::form_of))]
fn form_by_byte(w: u32) -> Form
    ensures { result ≡ form_of w }
{
    let rd = w % 32;
    let rn = w / 32 % 32;
    let rm = w / 0x1_0000 % 32;
    let imm = w / 1024 % 4096;
    let half = w / 32 % 0x1_0000;
    match w / 0x100_0000 {
        0x8A => form_logical(w, Op::And, Op::Bic),
        0x8B => Form::DataProcessing(Op::Add, rd, rn, rm),
        0x91 => Form::AddSp(imm),
        0x93 => Form::Sxtw(rd, rn),
        0x9A => form_9a(w),
        0x9B => form_9b(w),
        0xAA => form_logical(w, Op::Orr, Op::Orn),
        0xCA => form_logical(w, Op::Eor, Op::Eon),
        0xCB => Form::DataProcessing(Op::Sub, rd, rn, rm),
        0xD1 => Form::SubSp(imm),
        0xD2 => Form::Movz(rd, w / 0x20_0000 % 4, half),
        0xDA => form_da(w),
        0xEB => Form::Cmp(rn, rm),
        0xF2 => Form::Movk(rd, w / 0x20_0000 % 4, half),
        0xF9 => {
            if w / 0x40_0000 % 2 == 1 {
                return Form::Ldr(rd, rn, imm);
            }
            Form::Str(rd, rn, imm)
        }
        _ => {
            if w / 0x20_0000 % 2 == 1 {
                return Form::Blr(rn);
            }
            Form::Ret
        }
    }
}

pub fn decode_readable(w: u32) -> Form
    requires { decode w ≡ Unreadable → ⊥ }
    ensures { result ≡ decode w }
{
    form_by_byte(w)
}
