// The rules that every call on lent slices asks first: 1, slices that make a memory; 2, a memory that holds a ledger.
// (`as` narrows, or goes between u32, u64 and usize, where no From serves: it is proved that nothing is lost.)
#![tactic(auto)]

ghost use Rattle.memory.specs.Views.{memory_in};
ghost use Rattle.lent.specs.Lent.{Checked};

use memory::{MemoryView, TreeView};
use numbers::MOST_SLOTS;
use refusals::Refusal;

// The rules 1 and 2 for the whole call, in order: the first that is broken.
pub fn check(memory: &MemoryView<'_>) -> Result<(), Refusal>
    ensures { Checked (memory_in memory.now) result }
{
    let MemoryView {
        tree: TreeView { lo, hi, up },
        hop,
    } = *memory;
    let count = up.len();
    if lo.len() != count || hi.len() != count || hop.len() != count {
        return Err(Refusal::BadSlices);
    }
    if count == 0 || count > MOST_SLOTS {
        return Err(Refusal::BadSlices);
    }
    if up[0] as usize > count {
        return Err(Refusal::NoLedger);
    }
    Ok(())
}
