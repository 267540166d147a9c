// Sets of hops, by value and in scratch. This crate alone knows how a set lies in words; the crates above know it by its members.
// (`as` narrows, or goes between u32, u64 and usize, where no From serves: it is proved that nothing is lost.)
#![tactic(auto)]

ghost use Rattle.std.specs.Prelude.{◌≡◌, ℕ, ◌<◌, not, slice_index};
ghost use Rattle.theory.specs.Hops.{only, some_below, least, common, union, join};
ghost use Rattle.rules.specs.Numbers.{MayAnnounce, hop_bound, hop_words};
ghost use Rattle.sets.specs.Sets.{members, set_in, HasWords, Keeps};

use numbers::{DISCARD, HOP_WORDS, SET_WORDS, WORD_BITS};
use std::array;

// The hop of the first word's lowest bit: the first behind discard.
const FIRST_HOP: u32 = DISCARD + 1;

// What `of` makes of two sets' words, word by word.
fn each_word<F: Fn(u64, u64) -> u64>(
    a: [u64; HOP_WORDS],
    b: [u64; HOP_WORDS],
    of: F,
) -> [u64; HOP_WORDS]
    requires { F.IsAlwaysCallable of }
    ensures { (k : ℕ) → k < hop_words → F.post of (slice_index a k) (slice_index b k) (slice_index result k) }
{
    array::from_fn(|k| of(a[k], b[k]))
}

// A set of hops: whether discard is in it, and words with a bit for each hop behind.
#[derive(Clone, Copy)]
pub struct HopSet {
    discards: bool,
    words: [u64; HOP_WORDS],
}

impl HopSet {
    // The set of one hop. (A hop is a u32 whose bound a clause asks, and no type of its own: records, memory and C's answers have u32s, and each
    // set would take one apart.)
    pub fn only(hop: u32) -> HopSet
        requires { MayAnnounce hop }
        ensures { members result ≡ only hop }
    {
        if hop == DISCARD {
            return HopSet {
                discards: true,
                words: [0; HOP_WORDS],
            };
        }
        let bit = hop - FIRST_HOP;
        let word = (bit / WORD_BITS) as usize;
        HopSet {
            discards: false,
            words: array::from_fn(|k| if k == word { 1 << (bit % WORD_BITS) } else { 0 }),
        }
    }

    // Is a hop in the set?
    pub fn has(self, hop: u32) -> bool
        requires { MayAnnounce hop }
        ensures { result ≡ members self hop }
    {
        if hop == DISCARD {
            return self.discards;
        }
        let bit = hop - FIRST_HOP;
        (self.words[(bit / WORD_BITS) as usize] >> (bit % WORD_BITS)) % 2 == 1
    }

    // Is no hop in the set?
    fn is_empty(self) -> bool
        ensures { result ≡ not (some_below hop_bound (members self)) }
    {
        !self.discards & self.words.iter().all(|word| *word == 0)
    }

    // The hops that two sets have in common.
    fn common(self, other: HopSet) -> HopSet
        ensures { members result ≡ common (members self) (members other) }
    {
        HopSet {
            discards: self.discards & other.discards,
            words: each_word(self.words, other.words, |a, b| a & b),
        }
    }

    // The hops of either set.
    fn union(self, other: HopSet) -> HopSet
        ensures { members result ≡ union (members self) (members other) }
    {
        HopSet {
            discards: self.discards | other.discards,
            words: each_word(self.words, other.words, |a, b| a | b),
        }
    }

    // Have two sets no hop in common?
    pub fn apart(self, other: HopSet) -> bool
        ensures { result ≡ not (some_below hop_bound (common (members self) (members other))) }
    {
        self.common(other).is_empty()
    }

    // What two halves of the addresses can share: the hops that both allow or, where there is none, those of either.
    pub fn join(self, other: HopSet) -> HopSet
        ensures { members result ≡ join hop_bound (members self) (members other) }
    {
        let shared = self.common(other);
        if shared.is_empty() {
            self.union(other)
        } else {
            shared
        }
    }

    // The least hop of a set: discard or, where that is not in it, the hop of the lowest bit in the first word that has one. In the
    // empty set no word has a bit, and the answer is the number behind the last hop.
    pub fn least(self) -> u32
        ensures { result ≡ least hop_bound (members self) }
    {
        if self.discards {
            return DISCARD;
        }
        // (A running number and no `enumerate`, whose place would have to become a u32 by `as`.)
        let mut below = FIRST_HOP;
        for word in self.words {
            if word != 0 {
                return below + word.trailing_zeros();
            }
            below += WORD_BITS;
        }
        below
    }

    // A slot's set is kept in the scratch: its words, and 1 or 0 beside them for discard. (Word by word: `copy_from_slice`
    // looks first whether the two lie over one another, and keeping and reading a set took three times as long.)
    pub fn keep(self, scratch: &mut [u64], slot: usize)
        requires { HasWords scratch.old slot }
        ensures { Keeps scratch.old slot self scratch.new }
    {
        let at = SET_WORDS * slot;
        for (k, word) in self.words.iter().enumerate() {
            scratch[at + k] = *word;
        }
        scratch[at + HOP_WORDS] = u64::from(self.discards);
    }

    // The set that the scratch keeps for a slot.
    pub fn kept(scratch: &[u64], slot: usize) -> HopSet
        requires { HasWords scratch.now slot }
        ensures { members result ≡ set_in scratch.now slot }
    {
        let at = SET_WORDS * slot;
        HopSet {
            discards: scratch[at + HOP_WORDS] == 1,
            words: array::from_fn(|k| scratch[at + k]),
        }
    }
}
