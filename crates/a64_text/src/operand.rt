// The operands of the Arm assembler.
ghost use Rattle.std.specs.Prelude.{◌≡◌, ◌++◌, ◌<◌};
ghost use Rattle.le.specs.Le.{bytes};
ghost use Rattle.ascii.specs.Ascii.{ascii, decimal};
ghost use Rattle.a64_text.specs.Operands.{register, condition, operand};
ghost use Rattle.a64_text.specs.Text.{further};
ghost use Rattle.ascii.specs.Parts.{Wrote, Room};
ghost use Rattle.a64_text.specs.Parts.{Small, Register, register_operand, further_register, rest_operands};

use ascii::Writer;

// A register's number: 31 is xzr, the one after it sp.
// Kept: tried, misses the bar of speed: with each operand as an enum a listing takes 1.4 times the time.
pub const SP: u32 = 32;

// What stands after the registers.
// Kept: its None is a row of the same match; no plainer as an Option of six rows.
#[derive(Drop)]
pub enum Rest {
    None,
    // lsl #0
    Lsl0,
    // xzr
    Xzr,
    // #<imm>, lsl #<amount>
    Shifted(u32, u32),
    // [<Xn|SP>, #<offset>]
    Memory(u32, u32),
    // <cond>
    Condition(u32),
    // #<immr>, #<imms>
    Fields(u32, u32),
}

// x0 to x30, by number.
fn put_numbered(out: &mut Writer, n: u32)
    requires { Room out.old (ascii "x" ++ decimal n) × (n < 100) }
    ensures { Wrote out.old (ascii "x" ++ decimal n) out.new }
{
    out.byte(b'x');
    out.short(n);
}

fn put_x_sp(out: &mut Writer, n: u32)
    requires { Room out.old (register "sp" n) × (n < 100) }
    ensures { Wrote out.old (register "sp" n) out.new }
{
    if n != 31 {
        put_numbered(out, n);
    } else {
        out.number(0x7073u16);
    }
}

// A register by its number.
pub fn put_register(out: &mut Writer, n: u32)
    requires { Room out.old (operand (register_operand n)) × (n < 33) }
    ensures { Wrote out.old (operand (register_operand n)) out.new }
{
    if n < 31 {
        put_numbered(out, n);
    } else if n == 31 {
        out.number(0x7A78u16);
        out.byte(b'r');
    } else {
        out.number(0x7073u16);
    }
}

// The same after a comma and a blank, where there is one.
pub fn put_further(out: &mut Writer, n: Option<u32>)
    requires { Room out.old (further (further_register n)) × Register n }
    ensures { Wrote out.old (further (further_register n)) out.new }
{
    if let Some(n) = n {
        out.number(0x202Cu16);
        put_register(out, n);
    }
}

fn put_immediate(out: &mut Writer, n: u32)
    requires { Room out.old (ascii ", #" ++ decimal n) × (n < 100000) }
    ensures { Wrote out.old (ascii ", #" ++ decimal n) out.new }
{
    out.number(0x202Cu16);
    out.byte(b'#');
    out.decimal(n);
}

fn put_shifted(out: &mut Writer, n: u32, amount: u32)
    requires { Room out.old (ascii ", #" ++ (decimal n ++ (ascii ", lsl #" ++ decimal amount))) × (n < 100000) × (amount < 100) }
    ensures { Wrote out.old (ascii ", #" ++ (decimal n ++ (ascii ", lsl #" ++ decimal amount))) out.new }
{
    put_immediate(out, n);
    out.number(0x736C_202Cu32);
    out.number(0x206Cu16);
    out.byte(b'#');
    out.short(amount);
}

fn put_memory(out: &mut Writer, n: u32, offset: u32)
    requires { Room out.old (ascii ", [" ++ (register "sp" n ++ (ascii ", #" ++ (decimal offset ++ ascii "]")))) × (n < 100) × (offset < 100000) }
    ensures { Wrote out.old (ascii ", [" ++ (register "sp" n ++ (ascii ", #" ++ (decimal offset ++ ascii "]")))) out.new }
{
    out.number(0x202Cu16);
    out.byte(b'[');
    put_x_sp(out, n);
    put_immediate(out, offset);
    out.byte(b']');
}

// The two letters of a condition, the first lowest.
// Kept: numbers here and in the mnemonics, by the bar of speed: their bytes are written at once.
fn condition(c: u32) -> u16
    ensures { bytes 2 result ≡ ascii (condition c) }
{
    match c {
        0 => 0x7165,
        1 => 0x656E,
        2 => 0x7363,
        3 => 0x6363,
        4 => 0x696D,
        5 => 0x6C70,
        6 => 0x7376,
        7 => 0x6376,
        8 => 0x6968,
        9 => 0x736C,
        10 => 0x6567,
        11 => 0x746C,
        12 => 0x7467,
        13 => 0x656C,
        14 => 0x6C61,
        _ => 0x766E,
    }
}

pub fn put_rest(out: &mut Writer, rest: Rest)
    requires { Room out.old (further (rest_operands rest)) × Small rest }
    ensures { Wrote out.old (further (rest_operands rest)) out.new }
{
    match rest {
        Rest::None => {}
        Rest::Lsl0 => out.number(0x3023_206C_736C_202Cu64),
        Rest::Xzr => {
            out.number(0x7A78_202Cu32);
            out.byte(b'r');
        }
        Rest::Shifted(n, amount) => put_shifted(out, n, amount),
        Rest::Memory(n, offset) => put_memory(out, n, offset),
        Rest::Condition(c) => {
            out.number(0x202Cu16);
            out.number(condition(c));
        }
        Rest::Fields(a, b) => {
            put_immediate(out, a);
            put_immediate(out, b);
        }
    }
}
