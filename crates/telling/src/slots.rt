// Memory that is lent to the calls: four slices, of which each slot has a word.
ghost use Rattle.std.specs.Prelude.{◌≡◌, length, take, replicate};
ghost use Rattle.telling.specs.Slots.{lengths_of, one_less};

use std::fmt;

// So many slots.
#[derive(Clone, Copy)]
pub struct Memory<const N: usize> {
    pub lo: [u32; N],
    pub hi: [u32; N],
    pub up: [u32; N],
    pub hop: [u32; N],
}

impl<const N: usize> Memory<N> {
    pub fn filled(word: u32) -> Memory<N>
        ensures links { (result.lo ≡ replicate N word) × (result.hi ≡ replicate N word) }
        ensures marks { result.up ≡ replicate N word }
        ensures hops { result.hop ≡ replicate N word }
    {
        Memory {
            lo: [word; N],
            hi: [word; N],
            up: [word; N],
            hop: [word; N],
        }
    }

    pub fn zeroed() -> Memory<N>
        ensures links { (result.lo ≡ replicate N 0) × (result.hi ≡ replicate N 0) }
        ensures marks { result.up ≡ replicate N 0 }
        ensures hops { result.hop ≡ replicate N 0 }
    {
        Memory::filled(0)
    }

    pub fn lend(&mut self) -> Lent<'_>
        ensures links { (result.lo.now ≡ self.old.lo) × (result.hi.now ≡ self.old.hi) }
        ensures marks { result.up.now ≡ self.old.up }
        ensures hops { result.hop.now ≡ self.old.hop }
    {
        self.lend_first(Lengths::all(N))
    }

    // The first elements of each slice, so far as there are so many.
    pub fn lend_first(&mut self, lengths: Lengths) -> Lent<'_>
        ensures links { (result.lo.now ≡ take lengths.lo self.old.lo) × (result.hi.now ≡ take lengths.hi self.old.hi) }
        ensures marks { result.up.now ≡ take lengths.up self.old.up }
        ensures hops { result.hop.now ≡ take lengths.hop self.old.hop }
    {
        Lent {
            lo: &mut self.lo[..lengths.lo.min(N)],
            hi: &mut self.hi[..lengths.hi.min(N)],
            up: &mut self.up[..lengths.up.min(N)],
            hop: &mut self.hop[..lengths.hop.min(N)],
        }
    }
}

// What a caller lends; the slices may differ in length. (Not editing's MemoryMut, which the calls make of what is lent: they take the slices.)
#[derive(Drop)]
pub struct Lent<'a> {
    pub lo: &'a mut [u32],
    pub hi: &'a mut [u32],
    pub up: &'a mut [u32],
    pub hop: &'a mut [u32],
}

impl Lent<'_> {
    pub fn lengths(&self) -> Lengths
        ensures { result ≡ lengths_of (length self.now.lo.now) (length self.now.hi.now) (length self.now.up.now) (length self.now.hop.now) }
    {
        Lengths {
            lo: self.lo.len(),
            hi: self.hi.len(),
            up: self.up.len(),
            hop: self.hop.len(),
        }
    }
}

// How many elements each slice has.
#[derive(Clone, Copy)]
pub struct Lengths {
    pub lo: usize,
    pub hi: usize,
    pub up: usize,
    pub hop: usize,
}

impl Lengths {
    pub fn all(slots: usize) -> Lengths
        ensures { result ≡ lengths_of slots slots slots slots }
    {
        Lengths {
            lo: slots,
            hi: slots,
            up: slots,
            hop: slots,
        }
    }

    // So many slots, but that one of the four is one shorter: each of them in turn.
    pub fn one_shorter(slots: usize) -> [Lengths; 4]
        ensures { result ≡ one_less slots }
    {
        let all = Lengths::all(slots);
        let shorter = slots.saturating_sub(1);
        [
            Lengths { lo: shorter, ..all },
            Lengths { hi: shorter, ..all },
            Lengths { up: shorter, ..all },
            Lengths {
                hop: shorter,
                ..all
            },
        ]
    }
}

impl fmt::Display for Lengths {
    fn fmt<W: fmt::Write>(&self, f: &mut fmt::Formatter<W>) -> fmt::Result {
        let Lengths { lo, hi, up, hop } = *self;
        write!(f, "lo {lo}, hi {hi}, up {up}, hop {hop}")
    }
}
