// The fetch window: `read_u16` of the original's `Bus`, for instruction fetches. A halfword is none where fewer than
// two bytes are left.
#![tactic(auto)]

ghost use Rattle.std.specs.Prelude.{◌≡◌};
ghost use Rattle.fetch_window.specs.Parts.{halfword_at, read_u16};

// The lent bytes and the PC of their first.
#[derive(Clone, Copy)]
pub struct FetchWindow<'a> {
    pub bytes: &'a [u8],
    pub start: u64,
}

// The halfword at an index of the bytes.
pub fn halfword_at(bytes: &[u8], i: u64) -> Option<u16>
    ensures { result ≡ halfword_at bytes.now i }
{
    let n = bytes.len();
    let i = i as usize;
    if n < 2 {
        return None;
    }
    if n - 2 < i {
        return None;
    }
    Some(le::load::<u16>(bytes, i))
}

impl<'a> FetchWindow<'a> {
    pub fn new(bytes: &'a [u8], start: u64) -> FetchWindow<'a>
        ensures { (result.bytes ≡ bytes.entry) × (result.start ≡ start) }
    {
        FetchWindow { bytes, start }
    }

    // The halfword at a PC.
    pub fn read_u16(self, pc: u64) -> Option<u16>
        ensures { result ≡ read_u16 self.entry.bytes.now self.entry.start pc }
    {
        halfword_at(self.bytes, pc.wrapping_sub(self.start))
    }
}
