// A list of five records, of which one may be bad.
ghost use Rattle.std.specs.Prelude.{◌<◌};

use numbers::RECORD;
use telling::change::{RawRecord, announce};

const COUNT: usize = 5;

// Each record as it stands in the list.
pub type List = [[u8; RECORD]; COUNT];

// Where a bad record is tried: at the first, at a middle and at the last place.
pub const PLACES: [usize; 3] = [0, 2, 4];

pub fn list_of(records: [RawRecord; COUNT]) -> List {
    records.map(|record| record.to_bytes())
}

// Five routes that need ten slots. Each is the longest match of one of the five addresses that `look_around` looks up, so that the
// lookups show which of them are held.
pub fn good() -> [RawRecord; COUNT] {
    [
        announce(0, 0, 1),
        announce(0, 4, 2),
        announce(0x40000000, 2, 3),
        announce(0x80000000, 2, 4),
        announce(0xC0000000, 3, 5),
    ]
}

// The good list with another record at a place.
pub fn good_but(bad: RawRecord, place: usize) -> List
    requires { place < 5 }
{
    let mut records = good();
    records[place] = bad;
    list_of(records)
}
