// Slices that are lent in wrong or extreme lengths, and a scratch of zeros.
use crate::trial::Step::{Apply, Write};
use crate::trial::{ONES, lend, trial};
use crate::written::{BLANK, Beside, ROOM, tell};
use numbers::SET_WORDS;
use std::io;
use telling::change::announce;
use telling::slots::{Lengths, Memory};
use telling::tried::apply;

// More than any other trial lends. The most are lent in tests/outside: the scratch of so many overflows a stack.
const MANY_SLOTS: usize = 4096;

const MANY_SCRATCH: usize = SET_WORDS * MANY_SLOTS;

// The ledger of case I, whose table has all three routes.
fn odd(rt: &impl Print, lengths: Lengths, words: usize, fill: u64) -> io::Result<()> {
    println!(rt; "-- {lengths}, scratch {words} words of {fill}")?;
    let beside = Beside {
        words,
        fill,
        room: ROOM,
    };
    let steps = [
        Apply(announce(0, 0, 1)),
        Apply(announce(0x40000000, 2, 2)),
        Apply(announce(0x80000000, 2, 3)),
        Write,
    ];
    lend(rt, lengths, beside, &steps)
}

// What the scratch holds on entry never matters; how long it is does: five words a slot, not four, two or one.
fn scratches(rt: &impl Print) -> io::Result<()> {
    let six = Lengths::all(6);
    odd(rt, six, 30, ONES)?;
    odd(rt, six, 30, 0)?;
    for words in [29, 31, 24, 12, 6, 0] {
        odd(rt, six, words, ONES)?;
    }
    odd(rt, Lengths::all(0), 0, ONES)
}

// One of the four is one shorter.
fn slots(rt: &impl Print) -> io::Result<()> {
    for lengths in Lengths::one_shorter(6) {
        odd(rt, lengths, 30, ONES)?;
    }
    Ok(())
}

// A table of no records needs no output.
fn outputs(rt: &impl Print) -> io::Result<()> {
    trial(rt, "no record", 1, 0, &[Write])?;
    for room in [0, 7, 8, 15] {
        let steps = [Apply(announce(0, 0, 1)), Write];
        trial(rt, "one record", 1, room, &steps)?;
    }
    for room in [7, 8] {
        let steps = [Apply(announce(0x80000000, 1, 1)), Write];
        trial(rt, "one record, no default route", 2, room, &steps)?;
    }
    Ok(())
}

fn many_slots(rt: &impl Print) -> io::Result<()> {
    println!(rt; "-- {MANY_SLOTS} slots")?;
    let mut memory = Memory::<MANY_SLOTS>::zeroed();
    let lent = &mut memory.lend();
    apply(rt, lent, announce(0, 0, 1))?;
    apply(rt, lent, announce(0xFFFFFFFF, 32, 2))?;
    let mut scratch = [ONES; MANY_SCRATCH];
    let mut output = [BLANK; ROOM];
    tell(rt, lent, &mut scratch, &mut output, ONES)
}

pub fn slices(rt: &impl Print) -> io::Result<()> {
    scratches(rt)?;
    slots(rt)?;
    outputs(rt)?;
    many_slots(rt)
}
