//! Numbers that look random, from a fixed seed.

/// A sequence of numbers: a linear congruence modulo 2^64 (Knuth's multiplier), of which the high bits are taken.
#[derive(Clone, Copy)]
pub struct Random {
    state: u64,
}

/// The least number that is negative at 8, 16, 32 or 64 bits.
fn least_negative(choice: u64) -> u64 {
    match choice {
        0 => 1 << 7,
        1 => 1 << 15,
        2 => 1 << 31,
        _ => 1 << 63,
    }
}

impl Random {
    pub fn new(seed: u64) -> Random {
        Random { state: seed }
    }

    /// The next number: any of 32 bits.
    pub fn half(&mut self) -> u64 {
        self.state = self
            .state
            .wrapping_mul(6_364_136_223_846_793_005)
            .wrapping_add(1_442_695_040_888_963_407);
        self.state >> 32
    }

    /// The next number: any of 64 bits.
    fn any(&mut self) -> u64 {
        let high = self.half() << 32;
        high | self.half()
    }

    /// The next number below 5: 0 in half of all cases.
    pub fn tiny(&mut self) -> u64 {
        let low = self.half() % 8;
        if low < 5 { low } else { 0 }
    }

    /// The next number that small tables have: one below 5, or one near 64.
    pub fn small(&mut self) -> u64 {
        let kind = self.half() % 8;
        let low = self.half();
        if kind < 6 { low % 5 } else { 62 + low % 4 }
    }

    /// The next number that is not small: one of a byte, one of the greatest of a width or of the least that are negative there, or any.
    fn great(&mut self) -> u64 {
        let kind = self.half() % 4;
        let low = self.half();
        if kind == 0 {
            low % 256
        } else if kind == 1 {
            least_negative(low % 4).wrapping_sub(low >> 31)
        } else if kind == 2 {
            u64::MAX - low % 3
        } else {
            self.any()
        }
    }

    /// The next number: often a small one.
    pub fn number(&mut self) -> u64 {
        if self.half() % 3 == 0 {
            self.great()
        } else {
            self.small()
        }
    }

    /// The next number of a kind: tiny ones alone for kinds from 2 on, small ones alone for 1, and any for 0.
    pub fn of_kind(&mut self, kind: u64) -> u64 {
        match kind {
            0 => self.number(),
            1 => self.small(),
            _ => self.tiny(),
        }
    }
}
