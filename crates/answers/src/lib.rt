// Answers as a caller in C gets them: a struct by value, with document 01's number, 0 where nothing was refused, and the values
// beside it. C has no Result: these two structs are the C interface.
// (`as` narrows, or goes between u32, u64 and usize, where no From serves: it is proved that nothing is lost.)
#![tactic(auto)]

use refusals::Refused;

// A lookup: the hop, 0 for no route and beside a refusal; the place of the first bad record.
#[repr(C)]
#[derive(Clone, Copy)]
pub struct FoundAnswer {
    pub number: u32,
    pub hop: u32,
    pub place: u64,
}

// An update, or a writing: the count that document 01 gives beside the number.
#[repr(C)]
#[derive(Clone, Copy)]
pub struct CountAnswer {
    pub number: u32,
    pub count: u64,
}

impl From<Result<u32, Refused>> for FoundAnswer {
    ghost use Rattle.answers.specs.Answers.{FoundSo};

    ghost from_gives = { FoundSo };

    fn from(answer: Result<u32, Refused>) -> FoundAnswer {
        match answer {
            Ok(hop) => FoundAnswer {
                number: 0,
                hop,
                place: 0,
            },
            Err(Refused { refusal, count }) => FoundAnswer {
                number: refusal.number(),
                hop: 0,
                place: count as u64,
            },
        }
    }
}

impl From<Result<usize, Refused>> for CountAnswer {
    ghost use Rattle.answers.specs.Answers.{CountedSo};

    ghost from_gives = { CountedSo };

    fn from(answer: Result<usize, Refused>) -> CountAnswer {
        match answer {
            Ok(count) => CountAnswer {
                number: 0,
                count: count as u64,
            },
            Err(refused) => CountAnswer {
                number: refused.refusal.number(),
                count: refused.count as u64,
            },
        }
    }
}
