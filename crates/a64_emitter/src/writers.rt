// The word writers of `A64Emitter`.
ghost use Rattle.std.specs.Prelude.{◌≡◌, ◌+◌, ◌*◌, ◌^◌, ◌<◌, ◌≤◌};
ghost use Rattle.a64_emitter.specs.Writers as Writers;
ghost use Rattle.a64_emitter.specs.Zbb as Zbb;

use crate::A64Emitter;

// The fixed bits of a form, with three registers.
fn three_registers(fixed: u32, rd: u8, rn: u8, rm: u8) -> u32
    requires { (fixed ≤ 0xFFE0_0000) × (rd < 32) × (rn < 32) × (rm < 32) }
    ensures { result ≡ fixed + rm * 2 ^ 16 + rn * 2 ^ 5 + rd }
{
    fixed + (rm as u32) * 65536 + (rn as u32) * 32 + rd as u32
}

impl A64Emitter {
    // Kept: a function for each form, and registers as u8 with their bounds here and in the emitters, by a rule of the
    // project: the Rust's names and parameters. What they share is `three_registers`.
    // LDR Xt, [Xn, #off]; off is in bytes, a multiple of 8.
    pub fn ldr_x(rt: u8, rn: u8, off: u16) -> u32
        requires { (rt < 32) × (rn < 32) × (off < 32768) }
        ensures { result ≡ Writers.ldr_x rt rn off }
    {
        0xF940_0000 + (off as u32) / 8 * 1024 + (rn as u32) * 32 + rt as u32
    }

    pub fn str_x(rt: u8, rn: u8, off: u16) -> u32
        requires { (rt < 32) × (rn < 32) × (off < 32768) }
        ensures { result ≡ Writers.str_x rt rn off }
    {
        0xF900_0000 + (off as u32) / 8 * 1024 + (rn as u32) * 32 + rt as u32
    }

    pub fn add_x(rd: u8, rn: u8, rm: u8) -> u32
        requires { (rd < 32) × (rn < 32) × (rm < 32) }
        ensures { result ≡ Writers.add_x rd rn rm }
    {
        three_registers(0x8B00_0000, rd, rn, rm)
    }

    pub fn sub_x(rd: u8, rn: u8, rm: u8) -> u32
        requires { (rd < 32) × (rn < 32) × (rm < 32) }
        ensures { result ≡ Writers.sub_x rd rn rm }
    {
        three_registers(0xCB00_0000, rd, rn, rm)
    }

    pub fn and_x(rd: u8, rn: u8, rm: u8) -> u32
        requires { (rd < 32) × (rn < 32) × (rm < 32) }
        ensures { result ≡ Writers.and_x rd rn rm }
    {
        three_registers(0x8A00_0000, rd, rn, rm)
    }

    pub fn orr_x(rd: u8, rn: u8, rm: u8) -> u32
        requires { (rd < 32) × (rn < 32) × (rm < 32) }
        ensures { result ≡ Writers.orr_x rd rn rm }
    {
        three_registers(0xAA00_0000, rd, rn, rm)
    }

    pub fn eor_x(rd: u8, rn: u8, rm: u8) -> u32
        requires { (rd < 32) × (rn < 32) × (rm < 32) }
        ensures { result ≡ Writers.eor_x rd rn rm }
    {
        three_registers(0xCA00_0000, rd, rn, rm)
    }

    pub fn lslv_x(rd: u8, rn: u8, rm: u8) -> u32
        requires { (rd < 32) × (rn < 32) × (rm < 32) }
        ensures { result ≡ Writers.lslv_x rd rn rm }
    {
        three_registers(0x9AC0_2000, rd, rn, rm)
    }

    pub fn lsrv_x(rd: u8, rn: u8, rm: u8) -> u32
        requires { (rd < 32) × (rn < 32) × (rm < 32) }
        ensures { result ≡ Writers.lsrv_x rd rn rm }
    {
        three_registers(0x9AC0_2400, rd, rn, rm)
    }

    pub fn asrv_x(rd: u8, rn: u8, rm: u8) -> u32
        requires { (rd < 32) × (rn < 32) × (rm < 32) }
        ensures { result ≡ Writers.asrv_x rd rn rm }
    {
        three_registers(0x9AC0_2800, rd, rn, rm)
    }

    pub fn mul_x(rd: u8, rn: u8, rm: u8) -> u32
        requires { (rd < 32) × (rn < 32) × (rm < 32) }
        ensures { result ≡ Writers.mul_x rd rn rm }
    {
        three_registers(0x9B00_7C00, rd, rn, rm)
    }

    pub fn smulh_x(rd: u8, rn: u8, rm: u8) -> u32
        requires { (rd < 32) × (rn < 32) × (rm < 32) }
        ensures { result ≡ Writers.smulh_x rd rn rm }
    {
        three_registers(0x9B40_7C00, rd, rn, rm)
    }

    pub fn umulh_x(rd: u8, rn: u8, rm: u8) -> u32
        requires { (rd < 32) × (rn < 32) × (rm < 32) }
        ensures { result ≡ Writers.umulh_x rd rn rm }
    {
        three_registers(0x9BC0_7C00, rd, rn, rm)
    }

    pub fn udiv_x(rd: u8, rn: u8, rm: u8) -> u32
        requires { (rd < 32) × (rn < 32) × (rm < 32) }
        ensures { result ≡ Writers.udiv_x rd rn rm }
    {
        three_registers(0x9AC0_0800, rd, rn, rm)
    }

    pub fn sdiv_x(rd: u8, rn: u8, rm: u8) -> u32
        requires { (rd < 32) × (rn < 32) × (rm < 32) }
        ensures { result ≡ Writers.sdiv_x rd rn rm }
    {
        three_registers(0x9AC0_0C00, rd, rn, rm)
    }

    // Xd is Xn OR zero.
    pub fn mov_x(rd: u8, rn: u8) -> u32
        requires { (rd < 32) × (rn < 32) }
        ensures { result ≡ Writers.mov_x rd rn }
    {
        A64Emitter::orr_x(rd, rn, 31)
    }

    pub fn sub_sp_imm(imm: u16) -> u32
        requires { imm < 4096 }
        ensures { result ≡ Writers.sub_sp_imm imm }
    {
        0xD100_03FF + (imm as u32) % 4096 * 1024
    }

    pub fn add_sp_imm(imm: u16) -> u32
        requires { imm < 4096 }
        ensures { result ≡ Writers.add_sp_imm imm }
    {
        0x9100_03FF + (imm as u32) % 4096 * 1024
    }

    pub fn blr(rn: u8) -> u32
        requires { rn < 32 }
        ensures { result ≡ Writers.blr rn }
    {
        0xD63F_0000 + (rn as u32) * 32
    }

    pub fn cmp_x(rn: u8, rm: u8) -> u32
        requires { (rn < 32) × (rm < 32) }
        ensures { result ≡ Writers.cmp_x rn rm }
    {
        0xEB00_001F + (rm as u32) * 65536 + (rn as u32) * 32
    }

    pub fn csel_x(rd: u8, rn: u8, rm: u8, cond: u8) -> u32
        requires { (rd < 32) × (rn < 32) × (rm < 32) × (cond < 16) }
        ensures { result ≡ Writers.csel_x rd rn rm cond }
    {
        0x9A80_0000 + (rm as u32) * 65536 + (cond as u32) % 16 * 4096 + (rn as u32) * 32 + rd as u32
    }

    pub fn sxtw_x(rd: u8, rn: u8) -> u32
        requires { (rd < 32) × (rn < 32) }
        ensures { result ≡ Writers.sxtw_x rd rn }
    {
        0x9340_7C00 + (rn as u32) * 32 + rd as u32
    }

    // MOVZ Xd, #part, the first word of a constant.
    pub fn movz(rd: u8, part: u32) -> u32
        requires { (rd < 32) × (part < 65536) }
        ensures { result ≡ Writers.movz rd part }
    {
        0xD280_0000 + part * 32 + rd as u32
    }

    // The literal RET of the block's end.
    pub fn ret() -> u32
        ensures { result ≡ Writers.ret }
    {
        0xD65F_03C0
    }

    // The forms that Zbb needs.
    pub fn bic_x(rd: u8, rn: u8, rm: u8) -> u32
        requires { (rd < 32) × (rn < 32) × (rm < 32) }
        ensures { result ≡ Zbb.bic_x rd rn rm }
    {
        three_registers(0x8A20_0000, rd, rn, rm)
    }

    pub fn orn_x(rd: u8, rn: u8, rm: u8) -> u32
        requires { (rd < 32) × (rn < 32) × (rm < 32) }
        ensures { result ≡ Zbb.orn_x rd rn rm }
    {
        three_registers(0xAA20_0000, rd, rn, rm)
    }

    pub fn eon_x(rd: u8, rn: u8, rm: u8) -> u32
        requires { (rd < 32) × (rn < 32) × (rm < 32) }
        ensures { result ≡ Zbb.eon_x rd rn rm }
    {
        three_registers(0xCA20_0000, rd, rn, rm)
    }

    pub fn rorv_x(rd: u8, rn: u8, rm: u8) -> u32
        requires { (rd < 32) × (rn < 32) × (rm < 32) }
        ensures { result ≡ Zbb.rorv_x rd rn rm }
    {
        three_registers(0x9AC0_2C00, rd, rn, rm)
    }

    pub fn rev_x(rd: u8, rn: u8) -> u32
        requires { (rd < 32) × (rn < 32) }
        ensures { result ≡ Zbb.rev_x rd rn }
    {
        0xDAC0_0C00 + (rn as u32) * 32 + rd as u32
    }

    pub fn clz_x(rd: u8, rn: u8) -> u32
        requires { (rd < 32) × (rn < 32) }
        ensures { result ≡ Zbb.clz_x rd rn }
    {
        0xDAC0_1000 + (rn as u32) * 32 + rd as u32
    }
}
