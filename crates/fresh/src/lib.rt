// From an update list to the smallest table, in one call over a fresh ledger of the call's own: what the daemon is offered, and what
// the program does inside.
#![tactic(auto)]

ghost use Rattle.memory.specs.Layout.{memory_of, slots};
ghost use Rattle.fresh.specs.Promise.{TablesIn, Tables};
ghost use Rattle.fresh.specs.Steps.{Fresh};

use numbers::{OWN_SCRATCH, OWN_SLOTS};
use refusals::Refused;

// The list is applied to zeroed memory, and the table written from there. (Four slices, as the calls take what C lends.)
fn table_in(
    lo: &mut [u32],
    hi: &mut [u32],
    up: &mut [u32],
    hop: &mut [u32],
    scratch: &mut [u64],
    list: &[u8],
    output: &mut [u8],
) -> Result<usize, Refused>
    requires { Fresh (memory_of lo.old hi.old up.old hop.old) scratch.old }
    ensures { TablesIn (slots (memory_of lo.old hi.old up.old hop.old).tree) list.now output.old output.new result }
{
    // (An arm of its own and no `?`: the edit complete_though_a_record_was_refused changes it.)
    match ledger::update(lo, hi, up, hop, list) {
        Ok(_) => writing::write(lo, hi, up, hop, scratch, output),
        Err(refused) => Err(refused),
    }
}

// The smallest table of an update list into the output; a refusal leaves the output as it was. (Arrays, as there is no heap.)
pub fn table(list: &[u8], output: &mut [u8]) -> Result<usize, Refused>
    ensures { Tables list.now output.old output.new result }
{
    let mut lo = [0u32; OWN_SLOTS];
    let mut hi = [0u32; OWN_SLOTS];
    let mut up = [0u32; OWN_SLOTS];
    let mut hop = [0u32; OWN_SLOTS];
    let mut scratch = [0u64; OWN_SCRATCH];
    table_in(
        &mut lo,
        &mut hi,
        &mut up,
        &mut hop,
        &mut scratch,
        list,
        output,
    )
}
