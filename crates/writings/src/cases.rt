// The cases A to O of document 01.
use crate::trial::Step::{Apply, Look, Write};
use crate::trial::trial;
use crate::written::ROOM;
use std::io;
use telling::change::{announce, withdraw};
use telling::slots::Memory;
use telling::tried::apply_list;

// C's table has just 24 bytes.
fn c_and_o(rt: &impl Print) -> io::Result<()> {
    let steps = [
        Apply(announce(0, 0, 1)),
        Apply(announce(0, 2, 2)),
        Apply(announce(0x80000000, 2, 2)),
        Apply(announce(0xC0000000, 2, 3)),
        Write,
    ];
    trial(rt, "case C", 6, ROOM, &steps)?;
    trial(rt, "case O", 6, 23, &steps)?;
    trial(rt, "case O", 6, 24, &steps)
}

fn a_to_e(rt: &impl Print) -> io::Result<()> {
    trial(rt, "case A", 1, ROOM, &[Look, Write])?;
    trial(rt, "case B", 1, ROOM, &[Apply(announce(0, 0, 1)), Write])?;
    c_and_o(rt)?;
    trial(
        rt,
        "case D",
        2,
        ROOM,
        &[
            Apply(announce(0, 0, 1)),
            Apply(announce(0x80000000, 1, 2)),
            Write,
        ],
    )?;
    trial(
        rt,
        "case E",
        2,
        ROOM,
        &[
            Apply(announce(0, 0, 2)),
            Apply(announce(0x80000000, 1, 1)),
            Write,
        ],
    )
}

fn f_to_i(rt: &impl Print) -> io::Result<()> {
    trial(
        rt,
        "cases F and G",
        3,
        ROOM,
        &[
            Apply(announce(0, 0, 1)),
            Apply(announce(0, 1, 2)),
            Apply(announce(0x80000000, 1, 2)),
            Write,
            Apply(withdraw(0, 1)),
            Write,
        ],
    )?;
    trial(
        rt,
        "case H",
        9,
        ROOM,
        &[
            Apply(announce(0, 0, 5)),
            Apply(announce(0x0A000000, 8, 5)),
            Write,
        ],
    )?;
    trial(
        rt,
        "case I",
        5,
        ROOM,
        &[
            Apply(announce(0, 0, 1)),
            Apply(announce(0x40000000, 2, 2)),
            Apply(announce(0x80000000, 2, 3)),
            Write,
        ],
    )
}

fn j_to_m(rt: &impl Print) -> io::Result<()> {
    let two = [
        Apply(announce(0, 0, 1)),
        Apply(announce(0xFFFFFFFF, 32, 2)),
        Write,
    ];
    trial(rt, "case J", 33, ROOM, &two)?;
    trial(rt, "case J", 32, ROOM, &two)?;
    trial(rt, "case K", 1, ROOM, &[Apply(withdraw(0, 0)), Look, Write])?;
    trial(
        rt,
        "case L",
        1,
        ROOM,
        &[
            Apply(announce(0, 0, 256)),
            Apply(announce(0, 0, 257)),
            Write,
            Apply(announce(0, 0, 0)),
            Write,
        ],
    )?;
    trial(
        rt,
        "case M",
        33,
        ROOM,
        &[
            Apply(announce(0, 0, 1)),
            Apply(announce(0x0A000000, 32, 2)),
            Apply(announce(0x0A000000, 33, 3)),
            Write,
        ],
    )
}

fn n(rt: &impl Print) -> io::Result<()> {
    println!(rt; "-- case N: 1 slot")?;
    let mut memory = Memory::<1>::zeroed();
    let lent = &mut memory.lend();
    for list in [&[0u8; 7][..], &[0u8; 0][..]] {
        print!(rt; "  {} bytes: ", list.len())?;
        apply_list(rt, lent, list)?;
    }
    Ok(())
}

pub fn cases(rt: &impl Print) -> io::Result<()> {
    a_to_e(rt)?;
    f_to_i(rt)?;
    j_to_m(rt)?;
    n(rt)
}
