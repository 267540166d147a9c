// The calls on a ledger and on record lists, tried at the edges of document 01: every refusal, full memory, memory that we did not
// make. Each call is a line of text with its real answer. The gate compares them with the file stdout, and that with what
// tests/oracle works out from document 01 without this code.
#![tactic(auto)]

mod lengths; // lengths.rt: how many elements each slice has
mod list_of_five; // list_of_five.rt: a list of five records
mod list_lookups; // list_lookups.rt: lookup in a record list
mod refused; // refused.rt: a refused record in a list of good ones
mod room; // room.rt: memory with no slot to spare
mod rubbish; // rubbish.rt: memory that our calls did not make
mod one_record; // one_record.rt: updates with one record, the first rule that it breaks

use std::io;

fn main(rt: HostRuntime) -> io::Result<()> {
    refused::refused(&rt)?;
    one_record::one_record(&rt)?;
    list_lookups::list_lookups(&rt)?;
    room::room(&rt)?;
    rubbish::rubbish(&rt)?;
    lengths::lengths(&rt)
}
