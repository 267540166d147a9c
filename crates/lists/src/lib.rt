// Lookup in a record list, in one pass and constant work for each record.
#![tactic(auto)]

ghost use Rattle.lists.specs.Promise.{LooksUpList};
ghost use Rattle.lists.specs.Best.{CanCompare, Follows};

use numbers::NO_ROUTE;
use records::Record;
use refusals::{Refusal, Refused};

// A route that matches: its length and its hop.
#[derive(Clone, Copy)]
struct Match {
    size: usize,
    hop: u32,
}

// The best match once the list's next route is announced: the longer one, and of two for the same prefix the later.
fn better(best: Option<Match>, address: u32, prefix: u32, size: usize, hop: u32) -> Option<Match>
    requires { CanCompare prefix size }
    ensures { Follows address prefix size hop best result }
{
    if address & records::mask(size) != prefix {
        return best;
    }
    match best {
        Some(longest) if size < longest.size => best,
        _ => Some(Match { size, hop }),
    }
}

// A list is looked up as the ledger that its announcements would make, in order: the hop of an address, 0 for no route (no Option: the
// definition looked_up has a number there, and so has C).
pub fn lookup_list(list: &[u8], address: u32) -> Result<u32, Refused>
    ensures { LooksUpList list.now address result }
{
    let records = records::records_of(list)?;
    let mut best = None;
    for (place, record) in records.iter().enumerate() {
        match records::read_record(record, false) {
            Ok(
                Record::Announces {
                    address: prefix,
                    size,
                    hop,
                },
            ) => best = better(best, address, prefix, size, hop),
            Ok(Record::Withdraws { .. }) => return Err(Refusal::BadAction.at(place)),
            Err(refusal) => return Err(refusal.at(place)),
        }
    }
    match best {
        Some(longest) => Ok(longest.hop),
        None => Ok(NO_ROUTE),
    }
}
