// Updates with a list of five records of which one is refused: at the first, at a middle and at the last place.
ghost use Rattle.std.specs.Prelude.{◌<◌};

use crate::list_of_five::{PLACES, good_but};
use std::io;
use telling::change::{RawRecord, announce, record, withdraw};
use telling::slots::Memory;
use telling::tried::{apply_list, look_around};

// Just the slots that the good list needs.
const SLOTS: usize = 10;

// The list is applied; then, in a second call, what stands in it behind the refused record.
fn refused_at(rt: &impl Print, bad: RawRecord, place: usize) -> io::Result<()>
    requires { place < 5 }
{
    println!(rt; "five records with {bad} at {place}")?;
    let list = good_but(bad, place);
    let mut memory = Memory::<SLOTS>::zeroed();
    let lent = &mut memory.lend();
    print!(rt; "  the list: ")?;
    apply_list(rt, lent, list.as_flattened())?;
    look_around(rt, lent)?;
    print!(rt; "  the rest: ")?;
    apply_list(rt, lent, list[place + 1..].as_flattened())?;
    look_around(rt, lent)
}

pub fn refused(rt: &impl Print) -> io::Result<()> {
    println!(rt; "-- update: a refused record in a list")?;
    let bad = [
        announce(0x0A000000, 33, 1),
        announce(0x0A000001, 8, 1),
        record(0x0A000000, 8, 3, 1),
        announce(0x0A000000, 8, 257),
        // 0.0.0.0/1 is never held; once the list's second record is applied it has a slot.
        withdraw(0, 1),
        announce(0xFFFFFFFF, 32, 6),
    ];
    for record in bad {
        for place in PLACES {
            refused_at(rt, record, place)?;
        }
    }
    Ok(())
}
