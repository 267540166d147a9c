// Updates with one record: the first rule that it breaks, the edges of each rule, and /0 and /32.
use std::io;
use telling::change::{announce, record, withdraw};
use telling::slots::{Lent, Memory};
use telling::tried::Step::{Apply, Look};
use telling::tried::{apply_list, look_around, run};

// Each record breaks one rule less than the one before.
fn first_fault(rt: &impl Print, lent: &mut Lent<'_>) -> io::Result<()> {
    println!(rt; "-- update: the first rule that is broken gives the number")?;
    let steps = [
        Apply(record(0x0A000001, 33, 3, 257)),
        Apply(record(0x0A000001, 8, 3, 257)),
        Apply(record(0x0A000000, 8, 3, 257)),
        Apply(record(0x0A000000, 8, 2, 1)),
        Apply(record(0x0A000000, 8, 2, 0)),
        Look,
    ];
    run(rt, lent, &steps)
}

fn edges_of_rules(rt: &impl Print, lent: &mut Lent<'_>) -> io::Result<()> {
    println!(rt; "-- update: edges of the rules 4 to 7")?;
    let steps = [
        Apply(announce(0, 255, 1)),
        Apply(announce(0x80000000, 0, 1)),
        Apply(announce(0xFFFFFFFF, 31, 1)),
        Apply(record(0, 0, 0, 1)),
        Apply(record(0, 0, 255, 1)),
        // Too high, though the low byte alone would be a hop.
        Apply(announce(0, 0, 257)),
        Apply(announce(0, 0, 512)),
        Apply(announce(0, 0, 256)),
        Look,
        Apply(announce(0, 0, 0)),
        Look,
    ];
    run(rt, lent, &steps)
}

fn shortest_and_longest(rt: &impl Print, lent: &mut Lent<'_>) -> io::Result<()> {
    println!(rt; "-- update: /0 and /32 announced and replaced")?;
    let steps = [
        Apply(announce(0, 0, 1)),
        Apply(announce(0, 32, 2)),
        Apply(announce(0xFFFFFFFF, 32, 3)),
        Look,
        Apply(announce(0, 0, 64)),
        Apply(announce(0, 32, 65)),
        Apply(announce(0xFFFFFFFF, 32, 256)),
        Look,
    ];
    run(rt, lent, &steps)
}

fn withdrawn(rt: &impl Print, lent: &mut Lent<'_>) -> io::Result<()> {
    println!(rt; "-- the same memory: /0 and /32 withdrawn")?;
    let steps = [
        Apply(withdraw(0, 0)),
        Look,
        Apply(withdraw(0, 32)),
        Apply(withdraw(0xFFFFFFFF, 32)),
        Look,
        Apply(withdraw(0, 0)),
        Apply(withdraw(0xFFFFFFFF, 32)),
    ];
    run(rt, lent, &steps)
}

// A refusal of the whole call leaves the routes as they are: the first 8 of the 15 bytes withdraw 0.0.0.0/0.
fn odd_lists(rt: &impl Print, lent: &mut Lent<'_>) -> io::Result<()> {
    println!(rt; "-- the same memory: 0 bytes, 7 bytes, 15 bytes")?;
    let withdrawals = [0u8, 0, 0, 0, 0, 2, 0, 0, 0, 0, 0, 0, 0, 2, 0];
    for list in [&[0u8; 0][..], &[0u8; 7][..], &withdrawals[..]] {
        print!(rt; "  {} bytes: ", list.len())?;
        apply_list(rt, lent, list)?;
    }
    look_around(rt, lent)
}

// The parts share their memory, and leave what is held to the next.
pub fn one_record(rt: &impl Print) -> io::Result<()> {
    let mut memory = Memory::<65>::zeroed();
    let lent = &mut memory.lend();
    first_fault(rt, lent)?;
    shortest_and_longest(rt, lent)?;
    odd_lists(rt, lent)?;
    withdrawn(rt, lent)?;
    edges_of_rules(rt, lent)
}
