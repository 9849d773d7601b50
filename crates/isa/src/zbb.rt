// The encodings of Zbb.
ghost use Rattle.std.specs.Prelude.{◌≡◌, ◌+◌, ◌*◌, ◌/◌, ◌^◌, ◌≤◌};
ghost use Rattle.isa.specs.Formats as F;

// What is computed.
#[derive(Clone, Copy, PartialEq, Eq, Debug)]
pub enum Zbb {
    Andn,
    Orn,
    Xnor,
    Clz,
    Clzw,
    Ctz,
    Ctzw,
    Cpop,
    Cpopw,
    Max,
    Maxu,
    Min,
    Minu,
    SextB,
    SextH,
    ZextH,
    Rol,
    Rolw,
    Ror,
    Rorw,
    OrcB,
    Rev8,
}

// A Zbb instruction, by its second operand.
#[derive(Clone, Copy, PartialEq, Eq, Debug)]
pub enum Found {
    // register rs2
    Register(Zbb),
    // a number
    Number(Zbb, u64),
    // none
    Unary(Zbb),
}

// Where funct7, funct12 and funct6 begin.
pub const FUNCT7: u32 = 0x200_0000;

pub const FUNCT12: u32 = 0x10_0000;

pub const FUNCT6: u32 = 0x400_0000;

// The field that begins at this unit, funct3 and the opcode, side by side.
pub fn key<const UNIT: u32>(w: u32) -> u32
    requires { 2 ^ 20 ≤ UNIT }
    ensures { result ≡ w / UNIT * 2 ^ 10 + F.funct3 w * 2 ^ 7 + F.opcode w }
{
    w / UNIT * 1024 + w / 4096 % 8 * 128 + w % 128
}
