//! A hasher for keys that have mixed their bits themselves.

use std::hash::{BuildHasher, Hasher};

/// Hands on the number that was written last, which is 0 where that was not eight bytes.
#[derive(Clone, Copy, Drop, Debug)]
pub struct Direct {
    number: u64,
}

impl Direct {
    /// Nothing is written yet.
    pub fn new() -> Direct {
        Direct { number: 0 }
    }
}

impl Hasher for Direct {
    ghost use Rattle.hk_cnf.specs.Spread.{direct_write};

    ghost write = { direct_write };

    ghost finish = { λ h. h.number };

    #[inline(always)]
    fn finish(&self) -> u64 {
        self.number
    }

    fn write(&mut self, bytes: &[u8]) {
        self.number = match bytes {
            [a, b, c, d, e, f, g, h] => u64::from_le_bytes([*a, *b, *c, *d, *e, *f, *g, *h]),
            _ => 0,
        };
    }

    #[inline(always)]
    fn write_u64(&mut self, i: u64) {
        self.number = i;
    }
}

impl BuildHasher for Direct {
    type Hasher = Direct;

    ghost build_hasher = { λ h. h };

    #[inline(always)]
    fn build_hasher(&self) -> Direct {
        *self
    }
}
