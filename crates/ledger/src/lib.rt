// The calls on a ledger in lent memory: update and lookup. Every slice and every list is taken; each call checks for itself.
#![tactic(auto)]

ghost use Rattle.rules.specs.Numbers.{ipv4};
ghost use Rattle.rules.specs.Records.{read, update};
ghost use Rattle.memory.specs.Layout.{memory_of, Whole};
ghost use Rattle.editing.specs.Held.{memory_held, SameLoans};
ghost use Rattle.ledger.specs.Promise.{Updates, LooksUp};
ghost use Rattle.ledger.specs.Steps.{IsPathOf, AppliesOne};

use editing::MemoryMut;
use memory::{MemoryView, Path, TreeView};
use numbers::{RECORD, WIDTH};
use records::Record;
use refusals::{Refusal, Refused};

// The path of an address: its bits are the first of the path. (No From: crate memory has the path, and knows no address's length.)
fn path_of(address: u32) -> Path
    ensures { IsPathOf address result }
{
    Path {
        high: u64::from(address) << 32,
        low: 0,
    }
}

// One record is read and applied.
fn apply_record(memory: &mut MemoryMut, record: &[u8; RECORD]) -> Result<(), Refusal>
    requires { Whole (memory_held memory.old) }
    ensures same_loans { SameLoans memory.old memory.new }
    ensures applied { AppliesOne (memory_held memory.old) (memory_held memory.new) (read update ipv4 «record».now) result }
{
    match records::read_record(record, true)? {
        Record::Announces { address, size, hop } => memory
            .announce(path_of(address), size, WIDTH, hop)
            .or(Err(Refusal::NoSlots)),
        Record::Withdraws { address, size } => memory
            .withdraw(path_of(address), size, WIDTH)
            .or(Err(Refusal::NotHeld)),
    }
}

// A list of records is applied in order, up to the first that is refused: how many there were.
fn apply_list(memory: &mut MemoryMut, list: &[u8]) -> Result<usize, Refused>
    ensures same_loans { SameLoans memory.old memory.new }
    ensures updated { Updates (memory_held memory.old) list.now (memory_held memory.new) result }
{
    lent::check(&memory.view())?;
    let records = records::records_of(list)?;
    for (count, record) in records.iter().enumerate() {
        // (An arm of its own and no `?`: the edits says_complete_when_refused and complete_on_the_input_count change it.)
        if let Err(refusal) = apply_record(memory, record) {
            return Err(Refused { refusal, count });
        }
    }
    Ok(records.len())
}

// The same on the four slices as C lends them.
pub fn update(
    lo: &mut [u32],
    hi: &mut [u32],
    up: &mut [u32],
    hop: &mut [u32],
    list: &[u8],
) -> Result<usize, Refused>
    ensures { Updates (memory_of lo.old hi.old up.old hop.old) list.now (memory_of lo.new hi.new up.new hop.new) result }
{
    apply_list(&mut MemoryMut { lo, hi, up, hop }, list)
}

// The hop of an address by longest match in the ledger held, or 0 for no route (no Option: the definition found_after has a number there, and
// so has C); on the four slices as C lends them.
pub fn lookup(lo: &[u32], hi: &[u32], up: &[u32], hop: &[u32], address: u32) -> Result<u32, Refused>
    ensures { LooksUp (memory_of lo.now hi.now up.now hop.now) address result }
{
    let memory = MemoryView {
        tree: TreeView { lo, hi, up },
        hop,
    };
    lent::check(&memory)?;
    let found = memory.longest_match(path_of(address), WIDTH);
    Ok(found)
}
