// A small source of numbers that a seed fixes for ever, so that a trial that fails can be run again.
ghost use Rattle.std.specs.Prelude.{◌<◌};

// Kept: a generator of the library would draw other plans than those whose outcome is stored.
#[derive(Drop)]
pub struct Random {
    state: u64,
}

impl Random {
    // The product spreads neighbouring seeds apart. A state of 0 would stay 0, so it is made odd.
    pub fn new(seed: u64) -> Random {
        Random {
            state: seed.wrapping_add(1).wrapping_mul(0x9E37_79B9_7F4A_7C15) | 1,
        }
    }

    pub fn bits(&mut self) -> u32 {
        let mut x = self.state;
        x ^= x << 13;
        x ^= x >> 7;
        x ^= x << 17;
        self.state = x;
        // The low bits of such a state repeat soonest, so the answer is taken from the high ones.
        ((x.wrapping_mul(0x2545_F491_4F6C_DD1D) >> 32) & 0xffff_ffff) as u32
    }

    // A number below n, or 0 where n is 0.
    pub fn below(&mut self, n: u32) -> u32 {
        if n == 0 { 0 } else { self.bits() % n }
    }

    // Kept: a byte is cut from the bits before it is brought below n, so one generic function would draw other numbers.
    pub fn byte_below(&mut self, n: u8) -> u8
        ensures { 0 < n → result < n }
    {
        if n == 0 {
            0
        } else {
            (self.bits() & 0xff) as u8 % n
        }
    }

    // A number from 0 to n, which is both included.
    pub fn up_to(&mut self, n: u32) -> u32 {
        self.below(n.saturating_add(1))
    }

    pub fn one_in(&mut self, n: u32) -> bool {
        self.below(n) == 0
    }

    pub fn pick(&mut self, from: &[u32; 6]) -> u32 {
        from[usize::from(self.byte_below(6))]
    }
}
