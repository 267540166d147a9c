// Memory with no slot to spare.
use crate::list_of_five::list_of;
use std::io;
use telling::change::{announce, withdraw};
use telling::slots::{Lent, Memory};
use telling::tried::Step::{Apply, Look};
use telling::tried::{Step, apply_list, look_around, run};

fn told(rt: &impl Print, lent: &mut Lent<'_>, title: &str, steps: &[Step]) -> io::Result<()> {
    println!(rt; "-- {title}")?;
    run(rt, lent, steps)
}

// The default route and one of 32 bits need 33 slots.
fn full(rt: &impl Print, lent: &mut Lent<'_>) -> io::Result<()> {
    let steps = [
        Apply(announce(0, 0, 1)),
        Apply(announce(0xFFFFFFFF, 32, 2)),
        Look,
        Apply(announce(0, 1, 3)),
        Apply(announce(0xFFFFFFFE, 32, 3)),
        Apply(withdraw(0xFFFFFFFE, 32)),
        // A prefix of one that is held needs no slot of its own.
        Apply(announce(0xC0000000, 2, 4)),
        Apply(announce(0xFFFFFFFF, 32, 5)),
        Look,
    ];
    told(rt, lent, "33 slots: case J, then no slot is left", &steps)
}

fn freed(rt: &impl Print, lent: &mut Lent<'_>) -> io::Result<()> {
    let steps = [
        // Frees 30 slots: all but those of 0.0.0.0/0, 128.0.0.0/1 and 192.0.0.0/2.
        Apply(withdraw(0xFFFFFFFF, 32)),
        Apply(announce(0, 31, 6)),
        Apply(announce(0, 30, 6)),
        Apply(announce(0x40000000, 2, 7)),
        Look,
        // Frees two slots: its own, and the one of 128.0.0.0/1 above it.
        Apply(withdraw(0xC0000000, 2)),
        Apply(announce(0x40000000, 2, 7)),
        Apply(announce(0x80000000, 2, 8)),
        Apply(announce(0x80000000, 1, 9)),
        Look,
    ];
    told(
        rt,
        lent,
        "the same memory: room freed serves another route",
        &steps,
    )
}

fn full_and_freed(rt: &impl Print) -> io::Result<()> {
    let mut memory = Memory::<33>::zeroed();
    let lent = &mut memory.lend();
    full(rt, lent)?;
    freed(rt, lent)
}

// Room is freed and taken again within one list: only the ledger after each record decides.
fn in_turn(rt: &impl Print) -> io::Result<()> {
    println!(rt;
        "-- 33 slots: 0.0.0.0/0 1, 255.255.255.255/32 2 and its withdrawal, 0.0.0.0/32 3, withdrawal of 0.0.0.0/0, in one list"
    )?;
    let list = list_of([
        announce(0, 0, 1),
        announce(0xFFFFFFFF, 32, 2),
        withdraw(0xFFFFFFFF, 32),
        announce(0, 32, 3),
        withdraw(0, 0),
    ]);
    let mut memory = Memory::<33>::zeroed();
    let lent = &mut memory.lend();
    for which in ["the list", "the list again"] {
        print!(rt; "  {which}: ")?;
        apply_list(rt, lent, list.as_flattened())?;
        look_around(rt, lent)?;
    }
    Ok(())
}

// Case J in one slot less; the route that is refused leaves its 31 slots to others.
fn too_small(rt: &impl Print) -> io::Result<()> {
    let steps = [
        Apply(announce(0, 0, 1)),
        Apply(announce(0xFFFFFFFF, 32, 2)),
        Look,
        Apply(withdraw(0xFFFFFFFF, 32)),
        Apply(announce(0, 31, 3)),
        Look,
        Apply(announce(0x80000000, 1, 4)),
        Apply(withdraw(0, 31)),
        Apply(announce(0x80000000, 31, 4)),
        Look,
    ];
    told(
        rt,
        &mut Memory::<32>::zeroed().lend(),
        "32 slots: case J is refused, and leaves no trace",
        &steps,
    )
}

fn single(rt: &impl Print) -> io::Result<()> {
    let steps = [
        Apply(announce(0, 1, 1)),
        Apply(announce(0, 0, 2)),
        Apply(announce(0, 1, 3)),
        Look,
        Apply(announce(0, 0, 4)),
        Apply(withdraw(0, 1)),
        Look,
        Apply(withdraw(0, 0)),
        Apply(withdraw(0, 0)),
        Look,
    ];
    told(
        rt,
        &mut Memory::<1>::zeroed().lend(),
        "1 slot: only /0 fits",
        &steps,
    )
}

fn discards(rt: &impl Print) -> io::Result<()> {
    let steps = [
        Apply(announce(0, 0, 1)),
        Apply(announce(0x40000000, 2, 0)),
        Look,
        Apply(announce(0x80000000, 1, 2)),
        Apply(announce(0x40000000, 2, 3)),
        Look,
        Apply(announce(0x40000000, 2, 0)),
        Apply(withdraw(0x40000000, 2)),
        Apply(withdraw(0x40000000, 2)),
        Apply(announce(0x80000000, 1, 2)),
        Look,
    ];
    told(
        rt,
        &mut Memory::<3>::zeroed().lend(),
        "3 slots: a discard is held, needs its slots and hides the shorter route",
        &steps,
    )
}

pub fn room(rt: &impl Print) -> io::Result<()> {
    full_and_freed(rt)?;
    in_turn(rt)?;
    too_small(rt)?;
    single(rt)?;
    discards(rt)
}
