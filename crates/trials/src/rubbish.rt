// Memory that our calls did not make: where `up[0]` is in range it is some ledger, and every call treats it as that ledger.
ghost use Rattle.std.specs.Prelude.{◌<◌};

use std::io;
use telling::change::{announce, withdraw};
use telling::crossed::{CHILD_OF_TWO, OWN_CHILD, RING_BELOW_SLOT_0, RING_OF_TWO};
use telling::slots::{Lent, Memory};
use telling::tried::Step::{Apply, Look};
use telling::tried::{apply_list, look_around, run};
use telling::words::Words;

fn no_ledger(rt: &impl Print, memory: &mut Memory<12>) -> io::Result<()> {
    println!(rt; "-- 12 slots filled with 4294967295: no ledger")?;
    let lent = &mut memory.lend();
    run(rt, lent, &[Apply(announce(0, 0, 1))])?;
    // Rule 2 comes before rule 3.
    print!(rt; "  7 bytes: ")?;
    apply_list(rt, lent, &[0; 7])?;
    look_around(rt, lent)?;
    println!(rt; "-- the same memory, up[0] set to 13")?;
    memory.up[0] = 13;
    run(rt, &mut memory.lend(), &[Apply(announce(0, 0, 1)), Look])
}

// The free chain's head may be the number of slots, "no slot is free". Then every slot is tried, and here every one serves.
fn empty_ledger(rt: &impl Print, memory: &mut Memory<12>) -> io::Result<()> {
    println!(rt; "-- the same memory, up[0] set to 12: the empty ledger")?;
    memory.up[0] = 12;
    let steps = [
        Look,
        Apply(announce(0x80000000, 11, 1)),
        Apply(announce(0, 1, 2)),
        Look,
        Apply(withdraw(0x80000000, 11)),
        Apply(announce(0, 1, 2)),
        Look,
    ];
    run(rt, &mut memory.lend(), &steps)
}

fn filled(rt: &impl Print) -> io::Result<()> {
    let mut memory = Memory::filled(u32::MAX);
    no_ledger(rt, &mut memory)?;
    empty_ledger(rt, &mut memory)
}

// Three routes, which need all six slots, are announced and withdrawn, whatever else is held.
fn come_and_go(rt: &impl Print, lent: &mut Lent<'_>) -> io::Result<()> {
    let steps = [
        Look,
        Apply(announce(0, 0, 254)),
        Apply(announce(0x40000000, 2, 255)),
        Apply(announce(0xC0000000, 3, 256)),
        Look,
        Apply(withdraw(0x40000000, 2)),
        Apply(withdraw(0xC0000000, 3)),
        Apply(withdraw(0, 0)),
        Look,
    ];
    run(rt, lent, &steps)
}

// Words below the bounds in each slice, and no free slot named.
fn scattered(rt: &impl Print, seed: u32, links: u32, marks: u32, hops: u32) -> io::Result<()>
    requires { (0 < links) × (0 < marks) × (0 < hops) }
{
    println!(rt; "-- 6 slots of pseudo-random words, seed {seed}")?;
    let mut memory = Memory::<6>::zeroed();
    let mut words = Words(seed);
    words.scatter(&mut memory.lo, links);
    words.scatter(&mut memory.hi, links);
    words.scatter(&mut memory.up, marks);
    words.scatter(&mut memory.hop, hops);
    memory.up[0] = 0;
    come_and_go(rt, &mut memory.lend())
}

// Four slots, filled to the last; one route more is refused, and taken once another has gone.
fn fill_four(rt: &impl Print, title: &str, mut memory: Memory<4>) -> io::Result<()> {
    println!(rt; "-- 4 slots: {title}")?;
    let steps = [
        Look,
        Apply(announce(0x80000000, 2, 11)),
        Apply(announce(0, 1, 12)),
        Look,
        Apply(announce(0, 2, 13)),
        Apply(withdraw(0x80000000, 2)),
        Apply(announce(0, 2, 14)),
        Look,
    ];
    run(rt, &mut memory.lend(), &steps)
}

pub fn rubbish(rt: &impl Print) -> io::Result<()> {
    filled(rt)?;
    // Words of any size: hardly a link counts.
    scattered(rt, 1, u32::MAX, u32::MAX, u32::MAX)?;
    // Small words, likely to be links, marks and hops. Seeds with links that count: 0.0.0.0/0, 0.0.0.0/1 and 64.0.0.0/2 are held; slots
    // that lead to no route, two in a row and two side by side; and a ledger that leaves room for one more slot only.
    for seed in [226, 67137, 1021628, 45680] {
        scattered(rt, seed, 6, 13, 300)?;
    }
    for (title, memory) in [OWN_CHILD, RING_OF_TWO, RING_BELOW_SLOT_0, CHILD_OF_TWO] {
        fill_four(rt, title, memory)?;
    }
    Ok(())
}
