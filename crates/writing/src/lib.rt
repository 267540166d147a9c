// The call that writes the smallest table of the ledger in lent memory. Every slice is taken; the call checks for itself.
#![tactic(auto)]

ghost use Rattle.std.specs.Prelude.{◌≡◌, cond};
ghost use Rattle.rules.specs.Numbers.{discard};
ghost use Rattle.memory.specs.Layout.{memory_of};
ghost use Rattle.memory.specs.Views.{memory_in};
ghost use Rattle.sets.specs.Sets.{members};
ghost use Rattle.writing.specs.Promise.{Writes};
ghost use Rattle.writing.specs.Steps.{Begun};

use memory::{MemoryView, Path, TreeView};
use numbers::{ADDRESS, DISCARD, NO_ROUTE, RECORD, SET_WORDS, WIDTH};
use refusals::{Refusal, Refused};
use sets::HopSet;
use squeezing::{Level, Source, Standing};

// How many entries the empty string gets, with this set: none if discard is in it, for that is in force above.
fn top_entries(set: HopSet) -> usize
    ensures { result ≡ cond (members set discard) 0 1 }
{
    usize::from(!set.has(DISCARD))
}

// Writing, once the checks have let it through: how many records there are. The walks begin at slot 0, the empty string's.
fn squeeze(
    memory: &MemoryView<'_>,
    scratch: &mut [u64],
    output: &mut [u8],
) -> Result<usize, Refused>
    requires { Begun (memory_in memory.now) scratch.old }
    ensures { Writes (memory_in memory.now) scratch.old output.old scratch.new output.new result }
{
    let top = Level {
        left: WIDTH,
        above: NO_ROUTE,
    };
    let formed = squeezing::form_sets(memory, scratch, Some(0), top);
    let count = top_entries(formed.set) + formed.splits;
    if output.len() / RECORD < count {
        scratch.fill(0);
        return Err(Refusal::ShortOutput.at(count));
    }
    let source = Source {
        memory: *memory,
        scratch,
        bytes: ADDRESS,
    };
    let standing = Standing {
        hop: DISCARD,
        at: 0,
    };
    let path = Path { high: 0, low: 0 };
    squeezing::write_entries(&source, output, Some(0), top, path, standing);
    scratch.fill(0);
    Ok(count)
}

// The smallest table that forwards every address as the ledger does, as records into the output; five words of scratch a slot. The slices
// are those that C lends.
pub fn write(
    lo: &[u32],
    hi: &[u32],
    up: &[u32],
    hop: &[u32],
    scratch: &mut [u64],
    output: &mut [u8],
) -> Result<usize, Refused>
    ensures { Writes (memory_of lo.now hi.now up.now hop.now) scratch.old output.old scratch.new output.new result }
{
    if scratch.len() != SET_WORDS * up.len() {
        return Err(Refusal::BadSlices.at(0));
    }
    let memory = MemoryView {
        tree: TreeView { lo, hi, up },
        hop,
    };
    lent::check(&memory)?;
    squeeze(&memory, scratch, output)
}
