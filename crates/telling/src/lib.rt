// What the programs that try the calls share: a call is made, and a line of text says what was tried and what it answered.
#![tactic(auto)]

pub mod change; // change.rt: a record, good or bad, by its fields
pub mod counts; // counts.rt: how many of a list's bytes there are to take
pub mod crossed; // crossed.rt: slots with more than one that names them
pub mod slots; // slots.rt: memory that is lent to the calls
pub mod text; // text.rt: answers written out
pub mod tried; // tried.rt: a call, told with its answer
pub mod words; // words.rt: pseudo-random words
