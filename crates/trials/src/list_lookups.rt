// Lookup in a record list.
use crate::list_of_five::{List, PLACES, good, good_but, list_of};
use std::io;
use telling::change::{announce, record, withdraw};
use telling::tried::{look_in_first, look_in_list};

fn refused(rt: &impl Print) -> io::Result<()> {
    println!(rt; "-- list lookup: a refused record")?;
    let bad = [
        announce(0x0A000000, 33, 1),
        announce(0x0A000001, 8, 1),
        record(0x0A000000, 8, 3, 1),
        announce(0x0A000000, 8, 257),
        // A withdrawal has no place in a list that is looked up, held or not, and whatever its hop is.
        withdraw(0, 0),
        record(0, 0, 2, 1),
    ];
    for record in bad {
        for place in PLACES {
            print!(rt; "  five records with {record} at {place}")?;
            // Where a record is refused no address has a hop, so any will do.
            look_in_list(rt, good_but(record, place).as_flattened(), 0)?;
        }
    }
    Ok(())
}

// Addresses are looked up in a list, each in so many of its first bytes.
fn answered(rt: &impl Print, list: &List, lookups: &[(isize, u32)]) -> io::Result<()> {
    for (count, address) in lookups {
        look_in_first(rt, list.as_flattened(), *count, *address)?;
    }
    Ok(())
}

// The same prefix twice, with longer and shorter ones between: the later wins.
fn twice(rt: &impl Print) -> io::Result<()> {
    println!(rt;
        "-- list lookup: 255.255.255.255/32 1, 128.0.0.0/1 2, 255.255.255.255/32 3, 128.0.0.0/1 256, 0.0.0.0/32 5"
    )?;
    let list = list_of([
        announce(0xFFFFFFFF, 32, 1),
        announce(0x80000000, 1, 2),
        announce(0xFFFFFFFF, 32, 3),
        announce(0x80000000, 1, 256),
        announce(0, 32, 5),
    ]);
    let lookups = [
        (0, 0),
        // All of the list but for its last bytes, and less.
        (7, 0xFFFFFFFF),
        (8, 0xFFFFFFFF),
        (16, 0xFFFFFFFF),
        (16, 0xFFFFFFFE),
        (24, 0xFFFFFFFF),
        (39, 0xFFFFFFFF),
        (40, 0xFFFFFFFF),
        (40, 0xFFFFFFFE),
        (40, 0x80000000),
        (40, 0x7FFFFFFF),
        (40, 1),
        (40, 0),
    ];
    answered(rt, &list, &lookups)
}

// The good list: a default route, and longer ones on both sides.
fn by_default(rt: &impl Print) -> io::Result<()> {
    println!(rt;
        "-- list lookup: 0.0.0.0/0 1, 0.0.0.0/4 2, 64.0.0.0/2 3, 128.0.0.0/2 4, 192.0.0.0/3 5"
    )?;
    let lookups = [
        (8, 0xFFFFFFFF),
        (40, 0),
        (40, 0x0FFFFFFF),
        (40, 0x10000000),
        (40, 0xDFFFFFFF),
        (40, 0xFFFFFFFF),
    ];
    answered(rt, &list_of(good()), &lookups)
}

// Discards under a default route: they hide it, the later one for a prefix counts, and a longer route hides them.
fn discarded(rt: &impl Print) -> io::Result<()> {
    println!(rt;
        "-- list lookup: 0.0.0.0/0 64, 128.0.0.0/1 0, 192.0.0.0/2 2, 192.0.0.0/2 0, 255.255.255.255/32 65"
    )?;
    let list = list_of([
        announce(0, 0, 64),
        announce(0x80000000, 1, 0),
        announce(0xC0000000, 2, 2),
        announce(0xC0000000, 2, 0),
        announce(0xFFFFFFFF, 32, 65),
    ]);
    let lookups = [
        (8, 0xFFFFFFFF),
        (16, 0xFFFFFFFF),
        (24, 0xFFFFFFFF),
        (32, 0xFFFFFFFF),
        (40, 0xFFFFFFFF),
        (40, 0xFFFFFFFE),
        (40, 0x80000000),
        (40, 0x7FFFFFFF),
    ];
    answered(rt, &list, &lookups)
}

pub fn list_lookups(rt: &impl Print) -> io::Result<()> {
    refused(rt)?;
    twice(rt)?;
    by_default(rt)?;
    discarded(rt)
}
