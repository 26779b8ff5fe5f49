//! Numbers that look random, from a fixed seed.

/// A sequence of numbers: a linear congruence modulo 2^64 (Knuth's multiplier), of which the high bits are taken.
#[derive(Clone, Copy)]
pub(crate) struct Random {
    state: u64,
}

impl Random {
    /// A sequence for a seed: seeds that are close to one another have sequences that are not (Steele, Lea, Flood, "Fast splittable
    /// pseudorandom number generators", OOPSLA 2014).
    pub(crate) fn new(seed: u64) -> Random {
        let far = seed.wrapping_mul(0x9e37_79b9_7f4a_7c15);
        let mixed = (far ^ (far >> 30)).wrapping_mul(0xbf58_476d_1ce4_e5b9);
        let state = (mixed ^ (mixed >> 27)).wrapping_mul(0x94d0_49bb_1331_11eb);
        Random { state }
    }

    /// The next number: any of 31 bits.
    fn next(&mut self) -> u64 {
        self.state = self
            .state
            .wrapping_mul(6_364_136_223_846_793_005)
            .wrapping_add(1_442_695_040_888_963_407);
        self.state >> 33
    }

    /// The next number below a bound, or 0 where the bound is 0.
    pub(crate) fn below(&mut self, bound: u64) -> u64 {
        let number = self.next();
        if bound == 0 { 0 } else { number % bound }
    }

    /// Whether the next number is the one of so many.
    pub(crate) fn once_in(&mut self, count: u64) -> bool {
        self.below(count) == 0
    }
}
