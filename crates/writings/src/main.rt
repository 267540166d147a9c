// The call that writes the smallest table, tried on the cases of document 01, on every refusal, on memory that we did not make and on
// pseudo-random ledgers. The gate compares what is printed with the file stdout, and that with what tests/oracle works out from
// document 01 without this code.
#![tactic(auto)]

mod cases; // cases.rt: the cases A to O
mod discards; // discards.rt: ledgers without a default route, and discards that are announced
mod memories; // memories.rt: memory that our calls did not make
mod runs; // runs.rt: runs of changes that are made by rule
mod slices; // slices.rt: slices that are lent in wrong or extreme lengths
mod trial; // trial.rt: a run of changes in fresh memory, with writings between them
mod written; // written.rt: a writing, told with what it left

use std::io;

fn main(rt: HostRuntime) -> io::Result<()> {
    cases::cases(&rt)?;
    discards::discards(&rt)?;
    slices::slices(&rt)?;
    memories::memories(&rt)?;
    runs::runs(&rt)
}
