// The text of a form.
ghost use Rattle.std.specs.Prelude.{◌<◌, ◌^◌};
ghost use Rattle.a64_text.specs.Text.{syntax, text};
ghost use Rattle.ascii.specs.Parts.{Wrote, Room};
ghost use Rattle.a64_text.specs.Parts.{Readable, mnemonic_bytes};

use crate::{assembly, operand};
use a64::Form;
use ascii::Writer;

fn put_mnemonic(out: &mut Writer, m: u64)
    requires { Room out.old (mnemonic_bytes m) × (m < 2 ^ 48) }
    ensures { Wrote out.old (mnemonic_bytes m) out.new }
{
    out.number((m % 0x1_0000_0000) as u32);
    let rest = m / 0x1_0000_0000;
    if 0x100 <= rest {
        out.number(rest as u16);
    } else if rest != 0 {
        out.byte(rest as u8);
    }
}

pub fn put_text(out: &mut Writer, f: Form)
    requires { Room out.old (text (syntax f)) × Readable f }
    ensures { Wrote out.old (text (syntax f)) out.new }
{
    let a = assembly::assembly(f);
    let rest = a.rest;
    put_mnemonic(out, a.mnemonic);
    operand::put_register(out, a.first);
    operand::put_further(out, a.second);
    operand::put_further(out, a.third);
    operand::put_rest(out, rest);
}
