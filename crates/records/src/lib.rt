// One record in: its fields as they stand in its bytes, judged by the rules 4 to 7.
#![tactic(auto)]

ghost use Rattle.std.specs.Prelude.{◌≡◌, ◌≤◌};
ghost use Rattle.rules.specs.Numbers.{ipv4, width};
ghost use Rattle.records.specs.Masks.{mask_of, mask_table};
ghost use Rattle.records.specs.Promise.{CutsList, ReadsRecord};

mod table; // table.rt: the masks

use numbers::{ANNOUNCE, HIGHEST_HOP, LENGTHS, NO_HOP, RECORD, WIDTH, WITHDRAW};
use refusals::Refusal;
use table::MASKS;

// What a good record says: a route, or the prefix of a withdrawal.
#[derive(Clone, Copy, Debug, PartialEq, Eq)]
pub enum Record {
    Announces { address: u32, size: usize, hop: u32 },
    Withdraws { address: u32, size: usize },
}

// The masks of the lengths 0 to 32.
pub fn mask_table() -> &'static [u32; LENGTHS]
    ensures { result.now ≡ mask_table }
{
    &MASKS
}

// The mask of a length has that many highest bits set.
pub fn mask(size: usize) -> u32
    requires { size ≤ width ipv4 }
    ensures { result ≡ mask_of size }
{
    mask_table()[size]
}

// A list's records, if it is a whole number of them.
pub fn records_of(list: &[u8]) -> Result<&[[u8; RECORD]], Refusal>
    ensures { CutsList list.now result }
{
    let (records, rest) = list.as_chunks::<RECORD>();
    if !rest.is_empty() {
        return Err(Refusal::BadListLength);
    }
    Ok(records)
}

// What the record says, or its first fault: the rules are tried in the order of their numbers.
pub fn read_record(fields: &[u8; RECORD], withdrawals: bool) -> Result<Record, Refusal>
    ensures { ReadsRecord fields.now withdrawals result }
{
    let [a, b, c, d, size, action, high, low] = *fields;
    let address = u32::from_be_bytes([a, b, c, d]);
    let size = usize::from(size);
    let hop = u32::from(u16::from_be_bytes([high, low]));
    if WIDTH < size {
        return Err(Refusal::BadPrefixLength);
    }
    if address & mask(size) != address {
        return Err(Refusal::StrayBit);
    }
    if action == ANNOUNCE {
        if HIGHEST_HOP < hop {
            return Err(Refusal::BadHop);
        }
        return Ok(Record::Announces { address, size, hop });
    }
    if !withdrawals || action != WITHDRAW {
        return Err(Refusal::BadAction);
    }
    if hop != NO_HOP {
        return Err(Refusal::BadHop);
    }
    Ok(Record::Withdraws { address, size })
}
