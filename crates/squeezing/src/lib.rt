// The smallest table of what lent memory holds: sets upward, entries downward. A walk down uses up one of the address's
// bits that are left, so both end. Each is two functions that call one another, for any string and for one that has a slot. Half of
// all children have none: they are answered on the spot, and for this the function for any string is put into the one that calls it.
// (As calls of their own they made the whole of writing take 1.7 times as long.)
#![tactic(auto)]

ghost use Rattle.std.specs.Prelude.{◌≡◌, ◌<◌};
ghost use Rattle.theory.specs.Hops.{only};
ghost use Rattle.theory.specs.Smallest.{split};
ghost use Rattle.rules.specs.Numbers.{hop_bound, MayAnnounce};
ghost use Rattle.memory.specs.Layout.{slots};
ghost use Rattle.memory.specs.Views.{memory_in, tree_in};
ghost use Rattle.sets.specs.Sets.{members};
ghost use Rattle.squeezing.specs.Slots.{slot_number};
ghost use Rattle.squeezing.specs.Stored.{CanForm, Forms};
ghost use Rattle.squeezing.specs.Entries.{CanEnter, Enters};
ghost use Rattle.squeezing.specs.Source.{CanWriteFrom, PutsFrom};

use memory::{MemoryView, Path};
use numbers::FIELDS;
use sets::HopSet;

// How far down a string is: the bits that it is short of an address, and the hop that is in force above it in the ledger.
#[derive(Clone, Copy)]
pub struct Level {
    pub left: usize,
    pub above: u32,
}

// The set of a string, and how many strings from it on have children whose sets are apart.
#[derive(Clone, Copy)]
pub struct Formed {
    pub set: HopSet,
    pub splits: usize,
}

// What a full string has, and what is no slot: one hop throughout.
fn throughout(hop: u32) -> Formed
    requires { MayAnnounce hop }
    ensures { (members result.set ≡ only hop) × (result.splits ≡ 0) }
{
    Formed {
        set: HopSet::only(hop),
        splits: 0,
    }
}

// 1 where two sets have no hop in common, else 0: one entry more is needed below.
fn split(a: HopSet, b: HopSet) -> usize
    ensures { result ≡ split hop_bound (members a) (members b) }
{
    usize::from(a.apart(b))
}

// The sets of the strings from a string on: each into its slot's words of the scratch.
#[cycle(form)]
#[inline(always)]
pub fn form_sets(
    memory: &MemoryView,
    scratch: &mut [u64],
    slot: Option<usize>,
    level: Level,
) -> Formed
    requires { CanForm (memory_in memory.now) scratch.old (slot_number (memory_in memory.now) slot) level.above }
    ensures { let m = memory_in memory.now in
        Forms m scratch.old (slot_number m slot) level.left level.above scratch.new result }
{
    match slot {
        Some(slot) if slot < memory.tree.slots() => form_slot(memory, scratch, slot, level),
        _ => throughout(level.above),
    }
}

// The same where the string has a slot.
#[cycle(form)]
fn form_slot(memory: &MemoryView, scratch: &mut [u64], slot: usize, level: Level) -> Formed
    requires can { CanForm (memory_in memory.now) scratch.old slot level.above }
    requires there { slot < slots (tree_in memory.now.tree) }
    ensures { Forms (memory_in memory.now) scratch.old slot level.left level.above scratch.new result }
{
    let here = memory::hop_or(memory.hop[slot], level.above);
    let own = throughout(here);
    let Some(left) = level.left.checked_sub(1) else {
        own.set.keep(scratch, slot);
        return own;
    };
    let below = Level { left, above: here };
    let low = memory.tree.child(slot, false);
    let zero = form_sets(memory, scratch, low, below);
    let high = memory.tree.child(slot, true);
    let one = form_sets(memory, scratch, high, below);
    let set = zero.set.join(one.set);
    set.keep(scratch, slot);
    Formed {
        set,
        splits: zero.splits + one.splits + split(zero.set, one.set),
    }
}

// Where writing stands: the hop in force in the table, and the place behind the last record.
#[derive(Clone, Copy)]
pub struct Standing {
    pub hop: u32,
    pub at: usize,
}

// A string gets no entry if the hop in force above is in its set; else one with the least hop of the set. (Put into its callers as
// well: it is what is done for a child that has no slot.)
#[inline(always)]
fn enter(
    output: &mut [u8],
    bytes: usize,
    path: Path,
    left: usize,
    set: HopSet,
    standing: Standing,
) -> Standing
    requires { CanEnter bytes left path set standing.hop standing.at output.old × MayAnnounce standing.hop }
    ensures { Enters bytes left path set standing.hop standing.at output.old output.new result }
{
    if set.has(standing.hop) {
        return standing;
    }
    let hop = set.least();
    printing::put_record(output, standing.at, bytes, path, 8 * bytes - left, hop);
    Standing {
        hop,
        at: standing.at + bytes + FIELDS,
    }
}

// What a table is written from: the memory, its sets in the scratch, and how many bytes an address has.
#[derive(Clone, Copy)]
pub struct Source<'a> {
    pub memory: MemoryView<'a>,
    pub scratch: &'a [u64],
    pub bytes: usize,
}

// The entries from a string on, put into the output: its own, those below its 0, those below its 1. `path` is the string; the answer
// is the place behind the last record.
#[cycle(write)]
#[inline(always)]
pub fn write_entries(
    source: &Source,
    output: &mut [u8],
    slot: Option<usize>,
    level: Level,
    path: Path,
    standing: Standing,
) -> usize
    requires { CanWriteFrom source.now (slot_number (memory_in source.now.memory) slot) level path standing output.old }
    ensures { PutsFrom source.now (slot_number (memory_in source.now.memory) slot) level path standing output.old result output.new }
{
    match slot {
        Some(slot) if slot < source.memory.tree.slots() => write_slot(
            source, output, slot, level, path, standing,
        ),
        _ => enter(
            output,
            source.bytes,
            path,
            level.left,
            HopSet::only(level.above),
            standing,
        )
        .at,
    }
}

// The same where the string has a slot.
#[cycle(write)]
fn write_slot(
    source: &Source,
    output: &mut [u8],
    slot: usize,
    level: Level,
    path: Path,
    standing: Standing,
) -> usize
    requires can { CanWriteFrom source.now slot level path standing output.old }
    requires there { slot < slots (tree_in source.now.memory.tree) }
    ensures { PutsFrom source.now slot level path standing output.old result output.new }
{
    let set = HopSet::kept(source.scratch, slot);
    let here = enter(output, source.bytes, path, level.left, set, standing);
    let Some(left) = level.left.checked_sub(1) else {
        return here.at;
    };
    let held = memory::hop_or(source.memory.hop[slot], level.above);
    let below = Level { left, above: held };
    let low = source.memory.tree.child(slot, false);
    let middle = write_entries(source, output, low, below, path, here);
    let right = printing::set_bit(path, 8 * source.bytes - level.left);
    let high = source.memory.tree.child(slot, true);
    write_entries(
        source,
        output,
        high,
        below,
        right,
        Standing { at: middle, ..here },
    )
}
