// The numbers of document 01 that code uses, each in this one place (those of the refusals stand in crate refusals);
// crates/rules/specs/Numbers.antt is the same for the statements. A contract that cites one of those is proved only if the two agree.
#![tactic(auto)]

// An address has this many bytes, and so many bits; a prefix has at most as many.
pub const ADDRESS: usize = 4;

pub const WIDTH: usize = 8 * ADDRESS;

// The lengths that a prefix may have: 0 to 32.
pub const LENGTHS: usize = WIDTH + 1;

// A record is the address and so many bytes behind it: length, action and two bytes of hop.
pub const FIELDS: usize = 4;

pub const RECORD: usize = ADDRESS + FIELDS;

// The actions.
pub const ANNOUNCE: u8 = 1;

pub const WITHDRAW: u8 = 2;

// Discard is hop 0, and the hops that may be announced go from there to the highest. A withdrawal carries none. An address without a
// route is discarded.
pub const DISCARD: u32 = 0;

pub const HIGHEST_HOP: u32 = 256;

pub const NO_HOP: u32 = 0;

pub const NO_ROUTE: u32 = DISCARD;

// Slots that may be lent: at least one, and at most this many.
pub const MOST_SLOTS: usize = 1048576;

// The bits of a word, the words that have one for each hop behind discard, and those of scratch that a slot's set takes: one more, for discard.
pub const WORD_BITS: u32 = 64;

// (`as`: Rust has no From from u32 to usize, and a constant calls none.)
pub const HOP_WORDS: usize = HIGHEST_HOP as usize / WORD_BITS as usize;

pub const SET_WORDS: usize = HOP_WORDS + 1;

// The fresh ledger that the daemon's table call and the program have of their own: its slots, and the words of scratch for them.
pub const OWN_SLOTS: usize = 1024;

pub const OWN_SCRATCH: usize = SET_WORDS * OWN_SLOTS;

// The bytes that the program takes, and what stands for the action in a record that it writes for a refusal.
pub const MOST_INPUT: usize = 4096;

pub const REFUSAL: u8 = 255;
