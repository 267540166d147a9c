// Runs of changes that are made by rule: pseudo-random ones, every hop at once, and every length at once.
// (`as` narrows, or goes between u32, u64 and usize, where no From serves: it is proved that nothing is lost.)
use crate::trial::Step::{self, Apply, Write};
use crate::trial::trial;
use crate::written::MOST_ROOM;
use std::{array, io};
use telling::change::{announce, withdraw};
use telling::tried::ADDRESSES;
use telling::words::Words;

// 0 to 8, and 32.
fn size_from(word: u32) -> u8 {
    match word % 10 {
        9 => 32,
        size => size as u8,
    }
}

// 0, and the last and the first hop of each of a set's words: 64, 128, 192 and 256, and 1, 65, 129 and 193.
fn hop_from(word: u32) -> u16 {
    [0, 64, 128, 192, 256, 1, 65, 129, 193][word as usize % 9]
}

// The word's first bits; with 32 bits, one of the five addresses that are looked up after each writing.
fn address_from(word: u32, size: u8) -> u32 {
    match size {
        0 => 0,
        1..32 => {
            let rest = 32 - size;
            word >> rest << rest
        }
        _ => ADDRESSES[word as usize % 5],
    }
}

// At most places a route is announced, or at one in four withdrawn.
fn random_step(place: usize, word: u32, other: u32) -> Step {
    if place % 21 == 20 {
        return Write;
    }
    let size = size_from(word / 4);
    let address = address_from(other, size);
    if word % 4 == 0 {
        return Apply(withdraw(address, size));
    }
    Apply(announce(address, size, hop_from(word / 40)))
}

// Twice 20 changes and a writing.
fn random(rt: &impl Print, seed: u32, slots: usize) -> io::Result<()> {
    let mut words = Words(seed);
    let steps: [Step; 42] = array::from_fn(|place| {
        let word = words.draw();
        random_step(place, word, words.draw())
    });
    println!(rt; "-- seed {seed}")?;
    trial(rt, "pseudo-random changes", slots, MOST_ROOM, &steps)
}

// A default route and 256 routes of 8 bits, each with a hop of its own, and a writing; then a discard of 9 bits, so that all 257 hops are
// in one set, and a writing.
fn every_hop(rt: &impl Print) -> io::Result<()> {
    let steps: [Step; 260] = array::from_fn(|place| match place {
        0 => Apply(announce(0, 0, 256)),
        1..=256 => Apply(announce((place - 1) as u32 * 0x01000000, 8, place as u16)),
        258 => Apply(announce(0xFF000000, 9, 0)),
        _ => Write,
    });
    trial(rt, "every hop", 512, MOST_ROOM, &steps)
}

// 0.0.0.0 with every length, and three hops in turn.
fn every_length(rt: &impl Print) -> io::Result<()> {
    let steps: [Step; 34] = array::from_fn(|place| match place {
        0..=32 => Apply(announce(0, place as u8, (place % 3 + 1) as u16)),
        _ => Write,
    });
    trial(rt, "every length", 33, MOST_ROOM, &steps)
}

pub fn runs(rt: &impl Print) -> io::Result<()> {
    every_hop(rt)?;
    every_length(rt)?;
    // Seeds with much to join: of some 13 routes and then some 22, about two in three are written, hop 0 each time among them. A
    // default route is held at both writings, at the second, at neither, at the first, and at the second.
    for (seed, slots) in [(208, 200), (1950, 120), (1574, 80), (197, 50), (2433, 50)] {
        random(rt, seed, slots)?;
    }
    Ok(())
}
