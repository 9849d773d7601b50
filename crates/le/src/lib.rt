// Little-endian numbers in byte slices.
#![tactic(auto)]

ghost use Rattle.std.specs.Prelude.{◌≡◌, ℕ, ◌+◌, ◌*◌, ◌<◌, ◌≤◌, length};
ghost use Rattle.le.specs.Le.{load, store, numbers};
ghost use Rattle.le.specs.Parts.{over};

// A number of WIDTH bytes.
pub trait Number: Copy {
    ghost WIDTH: { ℕ };

    const WIDTH: usize;

    ghost value: { Self → ℕ };

    fn load_at(s: &[u8], at: usize) -> Self
        requires { at + WIDTH ≤ length s.now }
        ensures { value result ≡ load WIDTH s.now at };

    fn store_at(self, s: &mut [u8], at: usize)
        requires { at + WIDTH ≤ length s.old }
        ensures { s.new ≡ store WIDTH s.old at (value self) };
}

impl Number for u8 {
    ghost WIDTH = { 1 };

    const WIDTH: usize = 1;

    ghost value = { λ v. v };

    fn load_at(s: &[u8], at: usize) -> u8 {
        s[at]
    }

    fn store_at(self, s: &mut [u8], at: usize) {
        s[at] = self;
    }
}

// Kept: an impl for each width, by a rule of the project: `rt ci` refuses one that a macro of its own wrote.
impl Number for u16 {
    ghost WIDTH = { 2 };

    const WIDTH: usize = 2;

    ghost value = { λ v. v };

    fn load_at(s: &[u8], at: usize) -> u16 {
        u16::from_le_bytes([s[at], s[at + 1]])
    }

    fn store_at(self, s: &mut [u8], at: usize) {
        s[at..at + 2].copy_from_slice(&self.to_le_bytes());
    }
}

impl Number for u32 {
    ghost WIDTH = { 4 };

    const WIDTH: usize = 4;

    ghost value = { λ v. v };

    fn load_at(s: &[u8], at: usize) -> u32 {
        u32::from_le_bytes([s[at], s[at + 1], s[at + 2], s[at + 3]])
    }

    fn store_at(self, s: &mut [u8], at: usize) {
        s[at..at + 4].copy_from_slice(&self.to_le_bytes());
    }
}

impl Number for u64 {
    ghost WIDTH = { 8 };

    const WIDTH: usize = 8;

    ghost value = { λ v. v };

    fn load_at(s: &[u8], at: usize) -> u64 {
        u64::from_le_bytes([
            s[at],
            s[at + 1],
            s[at + 2],
            s[at + 3],
            s[at + 4],
            s[at + 5],
            s[at + 6],
            s[at + 7],
        ])
    }

    fn store_at(self, s: &mut [u8], at: usize) {
        s[at..at + 8].copy_from_slice(&self.to_le_bytes());
    }
}

// The number in the bytes of s from `at` on.
pub fn load<N: Number>(s: &[u8], at: usize) -> N
    requires { at + N.WIDTH ≤ length s.now }
    ensures { N.value result ≡ load N.WIDTH s.now at }
{
    N::load_at(s, at)
}

// The bytes of v over those of s from `at` on.
pub fn store<N: Number>(s: &mut [u8], at: usize, v: N)
    requires { at + N.WIDTH ≤ length s.old }
    ensures { s.new ≡ store N.WIDTH s.old at (N.value v) }
{
    v.store_at(s, at);
}

// The numbers at the front of b, into x.
#[tactic(auto, using(crate::proofs::Lists::read_more), unfolding(crate::specs::Le::numbers))]
pub fn read64(b: &[u8], x: &mut [u64])
    requires { 8 * length x.old ≤ length b.now }
    ensures { x.new ≡ numbers 8 (length x.old) b.now }
{
    for (i, n) in x.iter_mut().enumerate() {
        *n = load(b, 8 * i);
    }
}

// The numbers of x over the front of b.
#[tactic(auto, using(crate::proofs::Lists::write_more), unfolding(crate::specs::Le::all_bytes))]
pub fn write64(x: &[u64], b: &mut [u8])
    requires { 8 * length x.now ≤ length b.old }
    ensures { b.new ≡ over 8 x.now b.old }
{
    for (i, n) in x.iter().enumerate() {
        store(b, 8 * i, *n);
    }
}
