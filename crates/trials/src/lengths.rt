// How many slots are lent, and slices that differ.
use std::io;
use telling::change::{announce, withdraw};
use telling::slots::{Lengths, Lent, Memory};
use telling::tried::Step::{Apply, Look};
use telling::tried::{apply_list, look_around, run};

// More than any other trial lends. The most, and one more, are lent in tests/outside: four local arrays of so many overflow a stack, and one is
// more than the prover takes.
const MANY_SLOTS: usize = 4096;

// The default route is announced, and what was lent is looked at.
fn announce_default(rt: &impl Print, lent: &mut Lent<'_>) -> io::Result<()> {
    println!(rt; "-- {} elements", lent.lengths())?;
    run(rt, lent, &[Apply(announce(0, 0, 1)), Look])
}

// One of the four is one shorter; then all are of one length again, with what the refused calls left in them.
fn one_shorter(rt: &impl Print) -> io::Result<()> {
    let mut memory = Memory::<4>::zeroed();
    let shorter = Lengths::one_shorter(4);
    for lengths in shorter {
        announce_default(rt, &mut memory.lend_first(lengths))?;
    }
    // Rule 1 comes before rule 3.
    print!(rt; "  7 bytes: ")?;
    apply_list(rt, &mut memory.lend_first(shorter[3]), &[0; 7])?;
    let lent = memory.lend();
    println!(rt; "-- {} elements", lent.lengths())?;
    look_around(rt, &lent)
}

fn many_slots(rt: &impl Print) -> io::Result<()> {
    let mut memory = Memory::<MANY_SLOTS>::zeroed();
    let lent = &mut memory.lend();
    announce_default(rt, lent)?;
    let steps = [
        Apply(announce(0xFFFFFFFF, 32, 2)),
        Apply(withdraw(0, 0)),
        Look,
    ];
    run(rt, lent, &steps)
}

pub fn lengths(rt: &impl Print) -> io::Result<()> {
    one_shorter(rt)?;
    announce_default(rt, &mut Memory::<0>::zeroed().lend())?;
    many_slots(rt)
}
