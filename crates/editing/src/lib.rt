// Changing lent memory: a route is set or removed, and what it no longer needs is freed. Any memory will do; in memory made from
// zeros by these functions each costs by the path's length alone until it is full, as the chain has every free slot.
// (`as` narrows, or goes between u32, u64 and usize, where no From serves: it is proved that nothing is lost.)
#![tactic(auto)]

ghost use Rattle.std.specs.Prelude.{◌≡◌, suc, ◌+◌, ◌-◌, ◌<◌, ◌≤◌, length, MatchOption};
ghost use Rattle.std.specs.Result.{is_ok};
ghost use Rattle.theory.specs.Bits.{prefix_of};
ghost use Rattle.memory.specs.Path.{path_bit, path_bits};
ghost use Rattle.memory.specs.Layout.{layout_slots, slots, Shaped, Whole};
ghost use Rattle.memory.specs.Tidy.{bare, first_free, next_free};
ghost use Rattle.memory.specs.Views.{tree_in, memory_in};
ghost use Rattle.editing.specs.Held.{memory_held, SameLoans};
ghost use Rattle.editing.specs.Spare.{rises, idle, SpareFor};
ghost use Rattle.editing.specs.Edits.{CanEdit, LinkSet, head_after, Hung, Dropped};
ghost use Rattle.editing.specs.Routes.{CanWithdraw, CanAnnounce, OnPath, AtEnd, Reworked, Step, Announced, Withdrawn};

use memory::{MemoryView, Path, TreeView};

// The ledger would need more slots than there are.
#[derive(Clone, Copy, Debug, PartialEq, Eq)]
pub struct NoSlot;

// The prefix is not held.
#[derive(Clone, Copy, Debug, PartialEq, Eq)]
pub struct NotHeld;

// Going up from a slot to slot 0 in at most `width` steps: the steps left, if the marks lead there.
fn steps_left(tree: &TreeView, slot: usize, width: usize) -> Option<usize>
    requires { Shaped (tree_in tree.now) × (slot < slots (tree_in tree.now)) × (width ≤ path_bits) }
    ensures { MatchOption result (rises (tree_in tree.now) width slot ≡ 0) (λ left. rises (tree_in tree.now) width slot ≡ suc left) }
{
    let mut at = slot;
    for left in (0..=width).rev() {
        if at == 0 {
            return Some(left);
        }
        let mark = tree.up[at] as usize;
        if mark == 0 {
            return None;
        }
        let parent = (mark - 1) / 2;
        if parent >= tree.slots() || tree.link(parent, mark % 2 == 0) != at {
            return None;
        }
        at = parent;
    }
    None
}

// Does a slot hold nothing and, with bits left, lead to no child?
#[tactic(auto, unfolding(memory::specs::Tidy::bare))]
fn is_bare(memory: &MemoryView, slot: usize, left: usize) -> bool
    requires { Whole (memory_in memory.now) × (slot < slots (memory_in memory.now).tree) }
    ensures { result ≡ bare (memory_in memory.now) left slot }
{
    !memory::holds(memory.hop[slot])
        && (left == 0
            || (memory.tree.child(slot, false).is_none()
                && memory.tree.child(slot, true).is_none()))
}

// May a slot be taken: does no string of at most `width` bits lie in it, or is it bare?
fn is_idle(memory: &MemoryView, slot: usize, width: usize) -> bool
    requires { Whole (memory_in memory.now) × (slot < slots (memory_in memory.now).tree) × (width ≤ path_bits) }
    ensures { result ≡ idle width (memory_in memory.now) slot }
{
    match steps_left(&memory.tree, slot, width) {
        Some(left) => is_bare(memory, slot, left),
        None => true,
    }
}

// The first free slot, as the chain has it: fresh memory is a chain from slot 1 on (Tidy.first_free; zeroed memory has to be a ledger).
fn first_free(head: u32) -> usize
    ensures { (result ≡ first_free head) × (0 < result) × (result < 4294967296) }
{
    if head == 0 { 1 } else { head as usize }
}

// The free slot behind a free slot. (0 stands for the next one, as Tidy.next_free has it.)
fn next_free(next: u32, slot: usize) -> usize
    requires { slot < layout_slots }
    ensures { result ≡ next_free next slot }
{
    if next == 0 { slot + 1 } else { next as usize }
}

// A slot that may be taken while slot `tip` is worked on. The chain's first slot is tested before it is used; only where it does
// not serve, as in full memory, every slot is tried.
fn spare(memory: &MemoryView, tip: usize, width: usize) -> Option<usize>
    requires { Whole (memory_in memory.now) × (width ≤ path_bits) }
    ensures { SpareFor width (memory_in memory.now) tip result }
{
    let free = first_free(memory.tree.up[0]);
    if free < memory.tree.slots() && free != tip && memory.tree.up[free] == 0 {
        return Some(free);
    }
    // (The library has no `find` over a range.)
    for slot in 1..memory.tree.slots() {
        if slot != tip && is_idle(memory, slot, width) {
            return Some(slot);
        }
    }
    None
}

// The chain's head once a slot is taken: if that was the first, the one behind it, or the end of the slots.
fn head_after(head: u32, slot: usize, next: u32, count: usize) -> u32
    requires { (slot < count) × (count ≤ layout_slots) }
    ensures { result ≡ head_after head slot next count }
{
    if first_free(head) != slot {
        return head;
    }
    next_free(next, slot).min(count) as u32
}

// Lent memory that may be changed: the links and marks of its slots, and their hops. That the slices are still the caller's (SameLoans)
// stands in the clause of each method: it relates the slices before and after, which no invariant of one value can say.
#[derive(Drop)]
pub struct MemoryMut<'a> {
    pub lo: &'a mut [u32],
    pub hi: &'a mut [u32],
    pub up: &'a mut [u32],
    pub hop: &'a mut [u32],
}

impl<'a> MemoryMut<'a> {
    // The memory to be read.
    pub fn view(&self) -> MemoryView<'_>
        ensures { memory_in result ≡ memory_held self.now }
    {
        MemoryView {
            tree: TreeView {
                lo: &*self.lo,
                hi: &*self.hi,
                up: &*self.up,
            },
            hop: &*self.hop,
        }
    }

    // The link of a slot behind a bit is set.
    fn set_link(&mut self, slot: usize, right: bool, value: u32)
        requires { (slot < length self.old.lo.now) × (slot < length self.old.hi.now) }
        ensures same_loans { SameLoans self.old self.new }
        ensures set { LinkSet self.old.lo.now self.old.hi.now slot right value self.new.lo.now self.new.hi.now }
        ensures others { (self.new.up.now ≡ self.old.up.now) × (self.new.hop.now ≡ self.old.hop.now) }
    {
        if right {
            self.hi[slot] = value;
        } else {
            self.lo[slot] = value;
        }
    }

    // Slot `slot` is emptied and becomes the child of slot `parent` behind a bit.
    fn hang(&mut self, parent: usize, right: bool, slot: usize)
        requires { CanEdit (memory_held self.old) parent slot }
        ensures same_loans { SameLoans self.old self.new }
        ensures hung { Hung (memory_held self.old) (memory_held self.new) parent right slot }
    {
        self.up[0] = head_after(self.up[0], slot, self.lo[slot], self.up.len());
        self.up[slot] = memory::mark_of(parent, right) as u32;
        self.lo[slot] = 0;
        self.hi[slot] = 0;
        self.hop[slot] = 0;
        self.set_link(parent, right, slot as u32);
    }

    // Slot `slot`, the child of slot `parent` behind a bit, is freed and becomes the first of the chain. (It writes where `hang` does, other
    // values in each place but two: one function for both would be lent all of them, and be no plainer.)
    fn drop_slot(&mut self, parent: usize, right: bool, slot: usize)
        requires { CanEdit (memory_held self.old) parent slot }
        ensures same_loans { SameLoans self.old self.new }
        ensures dropped { Dropped (memory_held self.old) (memory_held self.new) parent right slot }
    {
        let behind = first_free(self.up[0]) as u32;
        self.up[0] = slot as u32;
        self.up[slot] = 0;
        self.lo[slot] = behind;
        self.hi[slot] = 0;
        self.hop[slot] = 0;
        self.set_link(parent, right, 0);
    }

    // A new child of the last slot on a path, which is that of the path's first `depth` bits.
    fn extend(&mut self, path: Path, depth: usize, width: usize, slot: usize) -> Option<usize>
        requires { AtEnd width (memory_held self.old) (path_bit path) depth slot }
        ensures same_loans { SameLoans self.old self.new }
        ensures step { Step width (memory_held self.old) (memory_held self.new) (path_bit path) depth slot result }
    {
        let free = spare(&self.view(), slot, width)?;
        self.hang(slot, path.bit(depth), free);
        Some(free)
    }

    // From the slot of a path's first `size` bits upwards, bare slots are freed.
    fn prune(&mut self, path: Path, size: usize, width: usize, slot: usize)
        requires { OnPath width (memory_held self.old) (path_bit path) size slot }
        ensures same_loans { SameLoans self.old self.new }
        ensures reworked { Reworked width (memory_held self.old) (memory_held self.new) slot 0 }
    {
        let mut at = slot;
        for depth in (0..size).rev() {
            if !is_bare(&self.view(), at, width - (depth + 1)) {
                return;
            }
            let parent = (self.up[at] as usize - 1) / 2;
            self.drop_slot(parent, path.bit(depth), at);
            at = parent;
        }
    }

    // The prefix of a path's first `size` bits gets a hop, held before or not. Where it is refused, the ledger is as it was.
    pub fn announce(
        &mut self,
        path: Path,
        size: usize,
        width: usize,
        neighbour: u32,
    ) -> Result<(), NoSlot>
        requires { CanAnnounce width (memory_held self.old) size neighbour }
        ensures same_loans { SameLoans self.old self.new }
        ensures announced { Announced width (memory_held self.old) (memory_held self.new) (prefix_of (path_bit path) size) neighbour (is_ok result) }
    {
        let met = self.view().tree.walk(path, size);
        let mut slot = met.slot;
        for depth in met.depth..size {
            let Some(next) = self.extend(path, depth, width, slot) else {
                self.prune(path, depth, width, slot);
                return Err(NoSlot);
            };
            slot = next;
        }
        self.hop[slot] = neighbour + 1;
        Ok(())
    }

    // The prefix of a path's first `size` bits is held no more. Where it is refused, nothing has changed.
    pub fn withdraw(&mut self, path: Path, size: usize, width: usize) -> Result<(), NotHeld>
        requires { CanWithdraw width (memory_held self.old) size }
        ensures same_loans { SameLoans self.old self.new }
        ensures withdrawn { Withdrawn width (memory_held self.old) (memory_held self.new) (prefix_of (path_bit path) size) (is_ok result) }
    {
        let Some(slot) = self.view().tree.seek(path, size) else {
            return Err(NotHeld);
        };
        if !memory::holds(self.hop[slot]) {
            return Err(NotHeld);
        }
        self.hop[slot] = 0;
        self.prune(path, size, width, slot);
        Ok(())
    }
}
