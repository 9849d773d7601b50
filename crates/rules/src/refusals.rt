// The refusals, and their numbers.
ghost use Rattle.std.specs.Prelude.{◌≡◌};
ghost use Rattle.rules.specs.Refusals.{number};

#[derive(Clone, Copy, PartialEq, Eq, Debug)]
pub enum Refusal {
    // 1 to 8
    SlotOffset,
    LimitZero,
    OddPc,
    NotFetched,
    NotCovered,
    OutputShort,
    UsedExceedsStore,
    CodeExceedsStore,
    // 10 to 16
    BlockLength,
    MemoryExceedsTop,
    ListingLength,
    OutsideForms,
    ListingShort,
    CodeLength,
    NoBlock,
}

// By its place: of a number written at each case the compiler makes a table, which tools/readonly refuses.
impl From<Refusal> for u32 {
    ghost from_gives = { λ refusal n. n ≡ number refusal };

    fn from(refusal: Refusal) -> u32 {
        let place = refusal as u32;
        if place < 8 { place + 1 } else { place + 2 }
    }
}

impl From<Refusal> for u64 {
    ghost from_gives = { λ refusal n. n ≡ number refusal };

    fn from(refusal: Refusal) -> u64 {
        u64::from(u32::from(refusal))
    }
}

// A refusal, and what was given by value, back as it came in.
#[derive(Drop)]
pub struct Refused<S> {
    pub refusal: Refusal,
    pub given: S,
}
