// A run of changes with writings between them, in fresh memory.
use crate::written::{Beside, SLOTS, scratch_for, write};
use std::io;
use telling::change::RawRecord;
use telling::slots::{Lengths, Lent, Memory};
use telling::tried::{apply, look_around};

// A scratch is full of ones before a writing, unless a trial says something else.
pub const ONES: u64 = u64::MAX;

// The steps of `telling`, and one more: the ledger is written.
#[derive(Clone, Copy)]
pub enum Step {
    Apply(RawRecord),
    Look,
    Write,
}

// Steps are taken one after the other.
pub fn run(rt: &impl Print, lent: &mut Lent<'_>, beside: Beside, steps: &[Step]) -> io::Result<()> {
    for step in steps {
        match *step {
            Step::Apply(record) => apply(rt, lent, record)?,
            Step::Look => look_around(rt, lent)?,
            Step::Write => write(rt, lent, beside)?,
        }
    }
    Ok(())
}

// The steps in zeroed memory of these lengths, so far as there is memory.
pub fn lend(rt: &impl Print, lengths: Lengths, beside: Beside, steps: &[Step]) -> io::Result<()> {
    let mut memory = Memory::<SLOTS>::zeroed();
    run(rt, &mut memory.lend_first(lengths), beside, steps)
}

// The steps in so many slots, with a scratch full of ones and an output of `room` bytes.
pub fn trial(
    rt: &impl Print,
    title: &str,
    slots: usize,
    room: usize,
    steps: &[Step],
) -> io::Result<()> {
    println!(rt; "-- {title}; slots {slots}, output {room} bytes")?;
    let beside = Beside {
        words: scratch_for(slots),
        fill: ONES,
        room,
    };
    lend(rt, Lengths::all(slots), beside, steps)
}
