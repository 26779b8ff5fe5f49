//! Numbers that look random, from a fixed seed.

/// A sequence of numbers: a linear congruence modulo 2^64 (Knuth's multiplier), of which the high bits are taken.
#[derive(Clone, Copy)]
pub struct Random {
    state: u64,
}

/// The least number that is negative at 8, 16, 32 or 64 bits.
fn least_negative(choice: u64) -> u64 {
    match choice {
        0 => 1 << 7,
        1 => 1 << 15,
        2 => 1 << 31,
        _ => 1 << 63,
    }
}

impl Random {
    pub fn new(seed: u64) -> Random {
        Random { state: seed }
    }

    /// The next number: any of 32 bits.
    fn half(&mut self) -> u64 {
        self.state = self
            .state
            .wrapping_mul(6_364_136_223_846_793_005)
            .wrapping_add(1_442_695_040_888_963_407);
        self.state >> 32
    }

    /// The next number: any of 64 bits.
    fn any(&mut self) -> u64 {
        let high = self.half() << 32;
        high | self.half()
    }

    /// The next number: often a small one, one below 140, one of the greatest of a width or of the least that are negative there.
    pub fn number(&mut self) -> u64 {
        let kind = self.half() % 8;
        let low = self.half();
        if kind < 4 {
            low % 5
        } else if kind < 5 {
            low % 140
        } else if kind < 6 {
            least_negative(low % 4).wrapping_sub(low >> 31)
        } else if kind < 7 {
            u64::MAX - low % 3
        } else {
            self.any()
        }
    }
}
