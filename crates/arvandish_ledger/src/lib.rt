// The ledger door: update, lookup and writing on lent slices, for our tool, tests and benchmarks. include/arvandish_ledger.h is its
// manual. Each is the call of the same name on the slices that C lends, its answer told as a struct.
#![tactic(auto)]

ghost use Rattle.memory.specs.Layout.{memory_of};
ghost use Rattle.arvandish_ledger.specs.Promise.{UpdatesToC, LooksUpToC, WritesToC};

use answers::{CountAnswer, FoundAnswer};

pub fn arvandish_ledger_update(
    lo: &mut [u32],
    hi: &mut [u32],
    up: &mut [u32],
    hop: &mut [u32],
    list: &[u8],
) -> CountAnswer
    ensures { UpdatesToC (memory_of lo.old hi.old up.old hop.old) list.now (memory_of lo.new hi.new up.new hop.new) result }
{
    CountAnswer::from(ledger::update(lo, hi, up, hop, list))
}

pub fn arvandish_ledger_lookup(
    lo: &[u32],
    hi: &[u32],
    up: &[u32],
    hop: &[u32],
    address: u32,
) -> FoundAnswer
    ensures { LooksUpToC (memory_of lo.now hi.now up.now hop.now) address result }
{
    FoundAnswer::from(ledger::lookup(lo, hi, up, hop, address))
}

pub fn arvandish_ledger_write(
    lo: &[u32],
    hi: &[u32],
    up: &[u32],
    hop: &[u32],
    scratch: &mut [u64],
    output: &mut [u8],
) -> CountAnswer
    ensures { WritesToC (memory_of lo.now hi.now up.now hop.now) scratch.old output.old scratch.new output.new result }
{
    CountAnswer::from(writing::write(lo, hi, up, hop, scratch, output))
}
