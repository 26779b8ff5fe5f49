//! Marks on variables, which are all cleared at once.

ghost use Rattle.std.specs.Prelude.{◌≡◌, ◌<◌, ◌≤◌, false, true, length, slice_index_or, slice_set, IfOk};
ghost use Rattle.std.specs.List.{All};

use std::alloc::{AllocError, Global};
use std::marker::Model;

/// A mark on each variable. A variable is marked where its stamp is the present one, so that a new stamp clears all marks.
#[derive(Drop)]
pub struct Seen {
    stamps: Vec<u64>,
    stamp: u64,
}

impl Model for Seen {
    ghost use Rattle.std.specs.Prelude.{List, Bool, map, ◌==◌, ◌≤◌};
    ghost use Rattle.std.specs.List.{All};

    ghost Value = { List Bool };

    ghost view = { λ s. map (λ m. m == s.stamp) s.stamps.items };

    ghost invariant = { λ s. All (λ m. m ≤ s.stamp) s.stamps.items };
}

impl Seen {
    /// Marks on so many variables.
    pub fn new(alloc: Global, vars: u64) -> Result<Seen, AllocError>
        ensures { IfOk result (λ s. length s ≡ vars) }
    {
        let stamps = vec![in alloc; 0; vars as usize]?;
        Ok(Seen { stamps, stamp: 0 })
    }

    /// Whether the variable at the place is marked.
    pub fn is_marked(&self, place: u64) -> bool
        requires { place < length self.now }
        ensures { result ≡ slice_index_or self.now place false }
    {
        self.stamps[place as usize] == self.stamp
    }

    /// Marks the variable at the place.
    pub fn mark(&mut self, place: u64)
        requires { place < length self.old }
        ensures { self.new ≡ slice_set self.old place true }
    {
        self.stamps[place as usize] = self.stamp;
    }

    /// Clears all marks. The stamps are written once in 2^64 calls.
    pub fn clear(&mut self)
        ensures len { length self.new ≡ length self.old }
        ensures cleared { All (λ b. b ≡ false) self.new }
    {
        self.stamp = next_stamp(&mut self.stamps, self.stamp);
    }
}

/// A stamp that is greater than all others.
fn next_stamp(stamps: &mut Vec<u64>, stamp: u64) -> u64
    requires { All (λ m. m ≤ stamp) stamps.old.items }
    ensures later { All (λ m. m < result) stamps.new.items }
    ensures len { length stamps.new.items ≡ length stamps.old.items }
{
    if stamp == u64::MAX {
        stamps.as_mut_slice().fill(0);
        return 1;
    }
    stamp + 1
}
