// Ledgers without a default route, and discards that are announced.
use crate::trial::Step::{Apply, Write};
use crate::trial::trial;
use crate::written::ROOM;
use std::io;
use telling::change::{announce, withdraw};

fn without_default(rt: &impl Print) -> io::Result<()> {
    trial(
        rt,
        "all withdrawn",
        2,
        ROOM,
        &[
            Apply(announce(0x80000000, 1, 1)),
            Apply(withdraw(0x80000000, 1)),
            Write,
        ],
    )?;
    trial(rt, "one half", 2, ROOM, &[Apply(announce(0, 1, 1)), Write])?;
    trial(
        rt,
        "both halves",
        3,
        ROOM,
        &[
            Apply(announce(0, 1, 1)),
            Apply(announce(0x80000000, 1, 2)),
            Write,
        ],
    )?;
    // 011* is the one part without a route: it gets an entry with hop 0.
    trial(
        rt,
        "document 001's example",
        6,
        ROOM,
        &[
            Apply(announce(0, 2, 1)),
            Apply(announce(0x40000000, 3, 1)),
            Apply(announce(0x80000000, 1, 1)),
            Write,
        ],
    )
}

fn announced(rt: &impl Print) -> io::Result<()> {
    trial(
        rt,
        "discard below",
        2,
        ROOM,
        &[Apply(announce(0, 0, 1)), Apply(announce(0, 1, 0)), Write],
    )?;
    trial(
        rt,
        "discard above",
        2,
        ROOM,
        &[
            Apply(announce(0, 0, 0)),
            Apply(announce(0x80000000, 1, 1)),
            Write,
        ],
    )?;
    trial(
        rt,
        "discards alone",
        2,
        ROOM,
        &[
            Apply(announce(0, 0, 0)),
            Apply(announce(0x80000000, 1, 0)),
            Write,
        ],
    )
}

// It hides the shorter route and has its slots until it is withdrawn.
fn held(rt: &impl Print) -> io::Result<()> {
    trial(
        rt,
        "a discard is held",
        3,
        ROOM,
        &[
            Apply(announce(0, 0, 1)),
            Apply(announce(0, 2, 0)),
            Apply(announce(0x80000000, 1, 2)),
            Write,
            Apply(withdraw(0, 2)),
            Apply(announce(0x80000000, 1, 2)),
            Write,
            Apply(withdraw(0, 2)),
        ],
    )
}

pub fn discards(rt: &impl Print) -> io::Result<()> {
    without_default(rt)?;
    announced(rt)?;
    held(rt)
}
