// Memory that our calls did not make: where `up[0]` is in range it is some ledger, and the table is that ledger's.
use crate::trial::Step::{Apply, Look, Write};
use crate::trial::{ONES, run};
use crate::written::{Beside, ROOM, scratch_for, write};
use std::io;
use telling::change::announce;
use telling::crossed::{CHILD_OF_TWO, OWN_CHILD, RING_BELOW_SLOT_0};
use telling::slots::Memory;
use telling::words::Words;

// A scratch of ones, and room for every table here.
fn with_scratch(words: usize) -> Beside {
    Beside {
        words,
        fill: ONES,
        room: ROOM,
    }
}

// The ledger is looked at and written; then a route is announced, where there is room, and it is written again.
fn try_memory<const N: usize>(rt: &impl Print, mut memory: Memory<N>) -> io::Result<()> {
    let steps = [Look, Write, Apply(announce(0x80000000, 1, 11)), Write];
    let beside = with_scratch(scratch_for(N));
    run(rt, &mut memory.lend(), beside, &steps)
}

// Slots with more than one that names them, under a default route with hop 5, which is stored as 6.
fn crossed(rt: &impl Print) -> io::Result<()> {
    for (title, mut memory) in [OWN_CHILD, RING_BELOW_SLOT_0, CHILD_OF_TWO] {
        memory.hop[0] = 6;
        println!(rt; "-- 4 slots: {title}")?;
        try_memory(rt, memory)?;
    }
    Ok(())
}

// Slots 1 to 3 are 0*, 1* and 00*. What is stored there stands for none (it would be hop 257), for a discard, and for none.
fn stored(rt: &impl Print, default: u32, meaning: &str) -> io::Result<()> {
    println!(rt; "-- 4 slots: the default route's hop is stored as {default}, which is {meaning}")?;
    try_memory(
        rt,
        Memory {
            lo: [1, 3, 0, 0],
            hi: [2, 0, 0, 0],
            up: [4, 1, 2, 3],
            hop: [default, 258, 1, u32::MAX],
        },
    )
}

// Ones everywhere but in `up[0]`.
fn filled(rt: &impl Print, mark: u32) -> io::Result<()> {
    println!(rt; "-- 12 slots filled with 4294967295, up[0] {mark}")?;
    let mut memory = Memory::<12>::filled(u32::MAX);
    memory.up[0] = mark;
    let lent = memory.lend();
    // Rule 1 comes before rule 2.
    for words in [61, 24, 60] {
        write(rt, &lent, with_scratch(words))?;
    }
    Ok(())
}

// Small words, likely to be links, marks and hops.
fn scattered(rt: &impl Print, seed: u32) -> io::Result<()> {
    println!(rt; "-- 8 slots of pseudo-random words, seed {seed}")?;
    let mut memory = Memory::<8>::zeroed();
    let mut words = Words(seed);
    words.scatter(&mut memory.lo, 8);
    words.scatter(&mut memory.hi, 8);
    words.scatter(&mut memory.up, 9);
    words.scatter(&mut memory.hop, 7);
    try_memory(rt, memory)
}

pub fn memories(rt: &impl Print) -> io::Result<()> {
    for mark in [u32::MAX, 13, 12] {
        filled(rt, mark)?;
    }
    crossed(rt)?;
    stored(rt, 257, "256")?;
    stored(rt, 258, "none")?;
    stored(rt, 1, "discard")?;
    // Behind the first, seeds with links that count: five routes, of which two to five are written; six with a discard that is written;
    // and four with a discard and no default route.
    for seed in [1, 265776, 235148, 215029, 176853, 265071, 1348941] {
        scattered(rt, seed)?;
    }
    Ok(())
}
