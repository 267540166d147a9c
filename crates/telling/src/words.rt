// Pseudo-random words, the same in every run.
ghost use Rattle.std.specs.Prelude.{◌≡◌, ◌%◌, ◌<◌, suc, length, slice_index, EachIndex};
ghost use Rattle.telling.specs.Words.{drawn, xorshift};

// The words behind this one, each made from the one before.
#[derive(Clone, Copy)]
pub struct Words(pub u32);

impl Words {
    // The next word: Marsaglia's xorshift of 32 bits, by 13, 17 and 5.
    pub fn draw(&mut self) -> u32
        ensures value { result ≡ xorshift self.old.0 }
        ensures left { self.new.0 ≡ result }
    {
        let once = self.0 ^ (self.0 << 13);
        let twice = once ^ (once >> 17);
        self.0 = twice ^ (twice << 5);
        self.0
    }

    // The next words go into the cells, each as its rest by `bound`.
    pub fn scatter(&mut self, cells: &mut [u32], bound: u32)
        requires { 0 < bound }
        ensures len { length cells.new ≡ length cells.old }
        ensures cells { EachIndex cells.new (λ k. slice_index cells.new k ≡ drawn (suc k) self.old.0 % bound) }
        ensures left { self.new.0 ≡ drawn (length cells.old) self.old.0 }
    {
        for cell in cells.iter_mut() {
            *cell = self.draw() % bound;
        }
    }
}
