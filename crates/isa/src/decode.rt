// decode.rs, and the immediates of compressed instructions.
ghost use Rattle.std.specs.Prelude.{◌≡◌, ◌≤◌};
ghost use Rattle.word.specs.Word.{sext};
ghost use Rattle.isa.specs.Formats.{i_imm, s_imm, b_imm, u_imm, j_imm, ciw_imm, ci_imm, ci16_imm, cj_imm, cb_imm, shamt_c};
ghost use Rattle.isa.specs.Parts.{decoded};

// Kept: bounds in contracts and not here, by what may not change: `decode32` of specs/Decode.antt builds it.
#[derive(Clone, Copy)]
pub struct Decoded32 {
    pub opcode: u8,
    pub rd: u8,
    pub funct3: u8,
    pub rs1: u8,
    pub rs2: u8,
    pub funct7: u8,
    pub funct5: u8,
    pub imm12: u16,
}

pub fn sign_extend(val: u64, bits: u32) -> u64
    requires { (1 ≤ bits) × (bits ≤ 64) }
    ensures { result ≡ sext bits val }
{
    word::sext(val, bits)
}

pub fn imm_i(instr: u32) -> u64
    ensures { result ≡ i_imm instr }
{
    sign_extend((instr / 0x10_0000 % 4096) as u64, 12)
}

pub fn imm_s(instr: u32) -> u64
    ensures { result ≡ s_imm instr }
{
    let imm = instr / 0x200_0000 % 128 * 32 + instr / 128 % 32;
    sign_extend(imm as u64, 12)
}

// Kept: imm_b and imm_j, imm_ci16 and imm_cb: other bits in another order; no plainer as one.
pub fn imm_b(instr: u32) -> u64
    ensures { result ≡ b_imm instr }
{
    let bit12 = instr / 0x8000_0000 % 2;
    let bit11 = instr / 128 % 2;
    let bits10_5 = instr / 0x200_0000 % 64;
    let bits4_1 = instr / 256 % 16;
    let imm = bit12 * 4096 + bit11 * 2048 + bits10_5 * 32 + bits4_1 * 2;
    sign_extend(imm as u64, 13)
}

pub fn imm_u(instr: u32) -> u64
    ensures { result ≡ u_imm instr }
{
    sign_extend((instr / 4096 % 0x10_0000 * 4096) as u64, 32)
}

pub fn imm_j(instr: u32) -> u64
    ensures { result ≡ j_imm instr }
{
    let bit20 = instr / 0x8000_0000 % 2;
    let bits19_12 = instr / 4096 % 256;
    let bit11 = instr / 0x10_0000 % 2;
    let bits10_1 = instr / 0x20_0000 % 1024;
    let imm = bit20 * 0x10_0000 + bits19_12 * 4096 + bit11 * 2048 + bits10_1 * 2;
    sign_extend(imm as u64, 21)
}

pub fn decode32(instr: u32) -> Decoded32
    ensures { result ≡ decoded instr }
{
    Decoded32 {
        opcode: (instr % 128) as u8,
        rd: (instr / 128 % 32) as u8,
        funct3: (instr / 4096 % 8) as u8,
        rs1: (instr / 0x8000 % 32) as u8,
        rs2: (instr / 0x10_0000 % 32) as u8,
        funct7: (instr / 0x200_0000 % 128) as u8,
        funct5: (instr / 0x800_0000 % 32) as u8,
        imm12: (instr / 0x10_0000 % 4096) as u16,
    }
}

// Of C.ADDI4SPN.
pub fn imm_ciw(instr: u16) -> u64
    ensures { result ≡ ciw_imm instr }
{
    let w = instr as u64;
    w / 128 % 16 * 64 + w / 2048 % 4 * 16 + w / 32 % 2 * 8 + w / 64 % 2 * 4
}

// Of C.SLLI, C.SRLI and C.SRAI.
pub fn shamt_c(instr: u16) -> u64
    ensures { result ≡ shamt_c instr }
{
    let w = instr as u64;
    w / 4096 % 2 * 32 + w / 4 % 32
}

// Of C.ADDI, C.ADDIW, C.LI, C.ANDI and C.LUI.
pub fn imm_ci(instr: u16) -> u64
    ensures { result ≡ ci_imm instr }
{
    let w = instr as u64;
    sign_extend(w / 4096 % 2 * 32 + w / 4 % 32, 6)
}

// Of C.ADDI16SP.
pub fn imm_ci16(instr: u16) -> u64
    ensures { result ≡ ci16_imm instr }
{
    let w = instr as u64;
    let imm = w / 4096 % 2 * 512
        + w / 8 % 4 * 128
        + w / 32 % 2 * 64
        + w / 4 % 2 * 32
        + w / 64 % 2 * 16;
    sign_extend(imm, 10)
}

// Of C.J.
pub fn imm_cj(instr: u16) -> u64
    ensures { result ≡ cj_imm instr }
{
    let w = instr as u64;
    let high = w / 4096 % 2 * 2048 + w / 256 % 2 * 1024 + w / 512 % 4 * 256 + w / 64 % 2 * 128;
    let imm = high + w / 128 % 2 * 64 + w / 4 % 2 * 32 + w / 2048 % 2 * 16 + w / 8 % 8 * 2;
    sign_extend(imm, 12)
}

// Of C.BEQZ and C.BNEZ.
pub fn imm_cb(instr: u16) -> u64
    ensures { result ≡ cb_imm instr }
{
    let w = instr as u64;
    let imm = w / 4096 % 2 * 256
        + w / 32 % 4 * 64
        + w / 4 % 2 * 32
        + w / 1024 % 4 * 8
        + w / 8 % 4 * 2;
    sign_extend(imm, 9)
}
