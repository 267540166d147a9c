// Memories that no call makes, each with what is wrong in it: more than one slot names the same one.
use crate::slots::Memory;

pub const OWN_CHILD: (&str, Memory<4>) = (
    "slot 1 is its own child, and slot 0 names it on both sides",
    Memory {
        lo: [1, 1, 0, 0],
        hi: [1, 0, 0, 0],
        up: [0, 3, 0, 0],
        hop: [0, 21, 0, 0],
    },
);

pub const RING_OF_TWO: (&str, Memory<4>) = (
    "slots 1 and 2 are each other's child, and slot 0 names slot 1",
    Memory {
        lo: [1, 2, 1, 0],
        hi: [0; 4],
        up: [0, 5, 3, 0],
        hop: [0, 31, 32, 0],
    },
);

pub const RING_BELOW_SLOT_0: (&str, Memory<4>) = (
    "slot 1 is the child of slot 0, slot 2 of slot 1, and slot 2 names slot 1 and itself",
    Memory {
        lo: [1, 2, 1, 0],
        hi: [0, 0, 2, 0],
        up: [0, 1, 3, 0],
        hop: [0, 31, 32, 0],
    },
);

pub const CHILD_OF_TWO: (&str, Memory<4>) = (
    "slots 0 and 1 both name slot 2, which carries the mark of slot 0",
    Memory {
        lo: [1, 2, 0, 0],
        hi: [2, 0, 0, 0],
        up: [0, 1, 2, 0],
        hop: [0, 41, 42, 0],
    },
);
