// The C door as C links it: each export is the call of the same name in crate arvandish. include/arvandish.h is its manual.
#![tactic(auto)]

ghost use Rattle.arvandish.specs.Promise.{LooksUpForC, TablesForC};

use answers::{CountAnswer, FoundAnswer};

#[unsafe(no_mangle)]
pub extern "C" fn arvandish_lookup(list: &[u8], address: u32) -> FoundAnswer
    ensures { LooksUpForC list.now address result }
{
    arvandish::arvandish_lookup(list, address)
}

#[unsafe(no_mangle)]
pub extern "C" fn arvandish_table(list: &[u8], output: &mut [u8]) -> CountAnswer
    ensures { TablesForC list.now output.old output.new result }
{
    arvandish::arvandish_table(list, output)
}
