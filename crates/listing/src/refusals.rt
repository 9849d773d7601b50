// Why a block is not listed.
ghost use Rattle.std.specs.Prelude.{◌≡◌};
ghost use Rattle.rules.specs.Refusals.{number};
ghost use Rattle.listing.specs.Refused.{refusal, offset};

use rules::refusals::Refusal;

#[derive(Clone, Copy, PartialEq, Eq, Debug)]
pub enum ListRefusal {
    // the block's length
    Length,
    // a word outside the forms, by its byte offset
    OutsideForms(usize),
    // the output is too short
    Short,
}

impl ListRefusal {
    // The offset beside refusal 13, else 0.
    pub fn offset(self) -> usize
        ensures { result ≡ offset self }
    {
        match self {
            ListRefusal::OutsideForms(at) => at,
            ListRefusal::Length | ListRefusal::Short => 0,
        }
    }
}

impl From<ListRefusal> for Refusal {
    ghost from_gives = { λ why r. number r ≡ refusal why };

    fn from(why: ListRefusal) -> Refusal {
        match why {
            ListRefusal::Length => Refusal::ListingLength,
            ListRefusal::OutsideForms(_) => Refusal::OutsideForms,
            ListRefusal::Short => Refusal::ListingShort,
        }
    }
}
