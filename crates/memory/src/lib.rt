// Reading lent memory as a ledger: a child, the slot of a string, longest match. docs/LAYOUT.md has the layout. Nothing here
// knows how long an address is: a caller says how many bits of a path it walks.
// (`as` narrows, or goes between u32, u64 and usize, where no From serves: it is proved that nothing is lost.)
#![tactic(auto)]

ghost use Rattle.std.specs.Prelude.{◌≡◌, ◌<◌, ◌≤◌, length, MatchOption};
ghost use Rattle.std.proofs.Math.Option.{none, some};
ghost use Rattle.theory.specs.Bits.{front, prefix_of};
ghost use Rattle.theory.specs.Ledger.{is_held, or_else, longest};
ghost use Rattle.rules.specs.Numbers.{no_route};
ghost use Rattle.memory.specs.Path.{path_bit, path_bits};
ghost use Rattle.memory.specs.Layout.{layout_slots, slots, Shaped, Whole, link, mark, child, find, read_hop, ledger_of};
ghost use Rattle.memory.specs.Views.{tree_in, memory_in, SlotOrNone};
ghost use Rattle.memory.specs.Reach.{Reaches};

use numbers::{HIGHEST_HOP, NO_ROUTE};

// The bits of an address, the first one highest: 64 in `high`, the next 64 in `low`. Two words and no u128: so has the definition
// Path.path_bit, on which every contract with a path stands. How many of its bits are meant stands beside a path and not in it, as a walk
// goes through all lengths of one path.
#[derive(Clone, Copy)]
pub struct Path {
    pub high: u64,
    pub low: u64,
}

impl Path {
    // The bit at a place, counted from the first.
    #[tactic(auto, unfolding(crate::specs::Path::path_bit))]
    pub fn bit(self, place: usize) -> bool
        requires { place < path_bits }
        ensures { result ≡ path_bit self place }
    {
        if place < 64 {
            (self.high >> (63 - place)) % 2 == 1
        } else {
            (self.low >> (127 - place)) % 2 == 1
        }
    }
}

// The mark that a slot's child behind a bit carries in `up`.
pub fn mark_of(slot: usize, right: bool) -> usize
    requires { slot < layout_slots }
    ensures { result ≡ mark slot right }
{
    if right { 2 * slot + 2 } else { 2 * slot + 1 }
}

// A hop is stored as hop + 1, so that 0 is none.
const HIGHEST_STORED: u32 = HIGHEST_HOP + 1;

// The hop that a slot's number stands for, if it stands for one.
#[tactic(auto, unfolding(crate::specs::Layout::read_hop))]
pub fn hop_in(stored: u32) -> Option<u32>
    ensures { MatchOption result (read_hop stored ≡ none) (λ hop. read_hop stored ≡ some hop) }
{
    match stored {
        1..=HIGHEST_STORED => Some(stored - 1),
        _ => None,
    }
}

// Does a slot's number stand for a hop?
pub fn holds(stored: u32) -> bool
    ensures { result ≡ is_held (read_hop stored) }
{
    hop_in(stored).is_some()
}

// The hop that a slot's number stands for, or else the one in force above.
pub fn hop_or(stored: u32, above: u32) -> u32
    ensures { result ≡ or_else (read_hop stored) above }
{
    hop_in(stored).unwrap_or(above)
}

// How far a path has slots: the last one, and how many of the path's bits lead to it.
#[derive(Clone, Copy)]
pub struct Met {
    pub slot: usize,
    pub depth: usize,
}

// The links and marks of lent memory, which make a tree of its slots: slices of numbers with one element a slot, as C can lend them. That
// they are of one length (Shaped) stays in the clauses: a view is made before `lent::check` asks that, and a type for checked slices would
// be a third beside this one and editing's, which changes them.
#[derive(Clone, Copy)]
pub struct TreeView<'a> {
    pub lo: &'a [u32],
    pub hi: &'a [u32],
    pub up: &'a [u32],
}

impl<'a> TreeView<'a> {
    // How many slots there are.
    pub fn slots(&self) -> usize
        ensures { result ≡ slots (tree_in self.now) }
    {
        self.up.len()
    }

    // The number that a slot's link behind a bit has, whether it counts or not.
    pub fn link(&self, slot: usize, right: bool) -> usize
        requires { (slot < length self.now.lo.now) × (slot < length self.now.hi.now) }
        ensures { result ≡ link (tree_in self.now) right slot }
    {
        if right {
            self.hi[slot] as usize
        } else {
            self.lo[slot] as usize
        }
    }

    // The child of a slot behind a bit.
    pub fn child(&self, slot: usize, right: bool) -> Option<usize>
        requires { Shaped (tree_in self.now) × (slot < slots (tree_in self.now)) }
        ensures { SlotOrNone (tree_in self.now) (child (tree_in self.now) right slot) result }
    {
        let next = self.link(slot, right);
        // Links count from slot 1 on. Counted from there 0 wraps to a number behind all slots: one test for both ends, one of three changes
        // that were measured together (docs/PERFORMANCE.md, "What was mended").
        if next.wrapping_sub(1) >= self.up.len() - 1 {
            return None;
        }
        if self.up[next] as usize != mark_of(slot, right) {
            return None;
        }
        Some(next)
    }

    // The walk down a path's first `size` bits, as far as there are slots.
    pub fn walk(&self, path: Path, size: usize) -> Met
        requires { Shaped (tree_in self.now) × (size ≤ path_bits) }
        ensures { Reaches (tree_in self.now) (path_bit path) size result.depth result.slot }
    {
        let mut slot = 0;
        for depth in 0..size {
            let Some(next) = self.child(slot, path.bit(depth)) else {
                return Met { slot, depth };
            };
            slot = next;
        }
        Met { slot, depth: size }
    }

    // The slot of a path's first bits, `size` of them.
    #[tactic(auto, using(crate::proofs::Reach::short_none))]
    pub fn seek(&self, path: Path, size: usize) -> Option<usize>
        requires { Shaped (tree_in self.now) × (size ≤ path_bits) }
        ensures { SlotOrNone (tree_in self.now) (find (tree_in self.now) (front (path_bit path) size)) result }
    {
        let met = self.walk(path, size);
        (met.depth == size).then_some(met.slot)
    }
}

// Lent memory: the tree of slots, and each slot's hop.
#[derive(Clone, Copy)]
pub struct MemoryView<'a> {
    pub tree: TreeView<'a>,
    pub hop: &'a [u32],
}

impl<'a> MemoryView<'a> {
    // Longest match for an address of `width` bits: its hop, or 0 for no route (Ledger.longest has a number there). The loop is that of `walk`
    // with a hop beside it; one function over what is done at a slot would want an invariant for each use.
    pub fn longest_match(&self, path: Path, width: usize) -> u32
        requires { Whole (memory_in self.now) × (width ≤ path_bits) }
        ensures { result ≡ longest (ledger_of width (memory_in self.now)) no_route (prefix_of (path_bit path) width) }
    {
        let mut slot = 0;
        let mut found = hop_or(self.hop[slot], NO_ROUTE);
        for depth in 0..width {
            let Some(next) = self.tree.child(slot, path.bit(depth)) else {
                return found;
            };
            slot = next;
            found = hop_or(self.hop[slot], found);
        }
        found
    }
}
