// A place in lent bytes from which on one part is written after the other.
ghost use Rattle.std.specs.Prelude.{◌≡◌, ◌∷◌, [], ◌+◌, ◌/◌, ◌%◌, ◌<◌, ◌≤◌, length};
ghost use Rattle.le.specs.Le.{bytes};
ghost use Rattle.ascii.specs.Ascii.{digit, hex, decimal};
ghost use Rattle.ascii.specs.Parts.{Wrote, Room};

use crate::digits::{digit, hex_digits};
use le::Number;

// Kept: no plainer by Display: its bytes would come by way of a formatter, into memory that is not lent.
#[derive(Drop)]
pub struct Writer<'a> {
    pub out: &'a mut [u8],
    pub at: usize,
}

impl<'a> Writer<'a> {
    pub fn new(out: &'a mut [u8]) -> Writer<'a>
        ensures same { result.out.ghost_name ≡ out.entry.ghost_name }
        ensures bytes { result.out.now ≡ out.old }
        ensures at { result.at ≡ 0 }
    {
        Writer { out, at: 0 }
    }

    pub fn byte(&mut self, b: u8)
        requires { Room self.old (b ∷ []) }
        ensures { Wrote self.old (b ∷ []) self.new }
    {
        let at = self.at;
        self.out[at] = b;
        self.at = at + 1;
    }

    // The bytes of v, the lowest first.
    pub fn number<N: Number>(&mut self, v: N)
        requires { self.old.at + N.WIDTH ≤ length self.old.out.now }
        ensures { Wrote self.old (bytes N.WIDTH (N.value v)) self.new }
    {
        let at = self.at;
        le::store(self.out, at, v);
        self.at = at + N::WIDTH;
    }

    // A word in eight hexadecimal digits.
    pub fn hex8(&mut self, v: u32)
        requires { Room self.old (hex 8 v) }
        ensures { Wrote self.old (hex 8 v) self.new }
    {
        self.number(hex_digits(v));
    }

    // Two decimal digits.
    fn pair(&mut self, n: u32)
        requires { Room self.old (digit (n / 10) ∷ digit (n % 10) ∷ []) × (n < 100) }
        ensures { Wrote self.old (digit (n / 10) ∷ digit (n % 10) ∷ []) self.new }
    {
        self.byte(digit(n / 10));
        self.byte(digit(n % 10));
    }

    // A number of one or two.
    pub fn short(&mut self, n: u32)
        requires { Room self.old (decimal n) × (n < 100) }
        ensures { Wrote self.old (decimal n) self.new }
    {
        if n < 10 {
            self.byte(digit(n));
        } else {
            self.pair(n);
        }
    }

    // A number without leading zeros.
    pub fn decimal(&mut self, n: u32)
        requires { Room self.old (decimal n) × (n < 100000) }
        ensures { Wrote self.old (decimal n) self.new }
    {
        if n < 100 {
            self.short(n);
        } else if n < 10_000 {
            self.short(n / 100);
            self.pair(n % 100);
        } else {
            self.short(n / 10_000);
            self.pair(n / 100 % 100);
            self.pair(n % 100);
        }
    }
}
