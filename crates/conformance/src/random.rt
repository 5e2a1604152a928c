ghost use Rattle.std.specs.Prelude.{◌≤◌, ◌-◌};

// Numbers that look random and are the same in every run: Marsaglia's xorshift of 64 bits.
#[derive(Clone, Copy)]
pub struct Random {
    state: u64,
}

impl Random {
    // No state is 0, from which all numbers would be 0.
    pub fn new(seed: u64) -> Random {
        Random { state: seed.max(1) }
    }

    fn next(&mut self) -> u64 {
        let mut x = self.state;
        x ^= x.wrapping_shl(13);
        x ^= x.wrapping_shr(7);
        x ^= x.wrapping_shl(17);
        self.state = x;
        x
    }

    // A number less than this one; 0 where that is 0.
    pub fn below(&mut self, bound: u64) -> u64
        ensures { result ≤ bound - 1 }
    {
        self.next() % bound.max(1)
    }

    // True once in so many times.
    pub fn once_in(&mut self, times: u64) -> bool {
        self.below(times) == 0
    }

    // The same of a byte.
    pub fn byte(&mut self, bound: u8) -> u8
        ensures { result ≤ bound - 1 }
    {
        (self.below(u64::from(bound)) & 0xff) as u8
    }
}
