// The refusals of document 01 by name, and what every call answers where it refuses.
#![tactic(auto)]

ghost use Rattle.std.specs.Prelude.{◌≡◌};
ghost use Rattle.refusals.specs.Numbered.{number_of};
ghost use Rattle.refusals.specs.Counted.{refused_at};

// Each is the number that document 01 gives it. (10 was that of a ledger without a default route, until item 2 of document 02.)
#[derive(Clone, Copy, Debug, PartialEq, Eq)]
pub enum Refusal {
    BadSlices = 1,
    NoLedger = 2,
    BadListLength = 3,
    BadPrefixLength = 4,
    StrayBit = 5,
    BadAction = 6,
    BadHop = 7,
    NotHeld = 8,
    NoSlots = 9,
    ShortOutput = 11,
    LongInput = 12,
}

impl Refusal {
    pub fn number(self) -> u32
        ensures { result ≡ number_of self }
    {
        // (`as`: what an enum's variant is numbered has no From.)
        self as u32
    }

    // The refusal with its count.
    pub fn at(self, count: usize) -> Refused
        ensures { result ≡ refused_at self count }
    {
        Refused {
            refusal: self,
            count,
        }
    }
}

// A call that refuses: why, and document 01's count beside the number. That is how many records were taken before the one that is
// refused, which is its place counted from 0; the entries that a table needs, of an output that is too short; and else 0.
#[derive(Clone, Copy, Debug, PartialEq, Eq)]
pub struct Refused {
    pub refusal: Refusal,
    pub count: usize,
}

// A refusal of the whole call has the count 0.
impl From<Refusal> for Refused {
    ghost use Rattle.std.specs.Prelude.{◌≡◌};
    ghost use Rattle.refusals.specs.Counted.{refused_at};

    ghost from_gives = { λ refusal refused. refused ≡ refused_at refusal 0 };

    fn from(refusal: Refusal) -> Refused {
        refusal.at(0)
    }
}
