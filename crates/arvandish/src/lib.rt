// The C door: the two calls that are offered to the forwarding daemon. include/arvandish.h is its manual.
#![tactic(auto)]

ghost use Rattle.arvandish.specs.Promise.{LooksUpForC, TablesForC};

use answers::{CountAnswer, FoundAnswer};

pub fn arvandish_lookup(list: &[u8], address: u32) -> FoundAnswer
    ensures { LooksUpForC list.now address result }
{
    FoundAnswer::from(lists::lookup_list(list, address))
}

pub fn arvandish_table(list: &[u8], output: &mut [u8]) -> CountAnswer
    ensures { TablesForC list.now output.old output.new result }
{
    CountAnswer::from(fresh::table(list, output))
}
