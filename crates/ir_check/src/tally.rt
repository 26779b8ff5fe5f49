//! How often places stand in a list, and where each stands first.

ghost use Rattle.std.specs.Prelude.{◌≡◌, ◌++◌, ◌∷◌, ◌&&◌, [], ℕ, length, count_by, position, nat_eq, Some, OnOk, OnErr, IfOk};
ghost use Rattle.std.specs.List.{list_all};
ghost use Rattle.std.specs.BTreeMap.{get};
ghost use Rattle.std.specs.Ordering.{nat_cmp};
ghost use Rattle.ir_check.specs.Tallies.{Puts, IsOneMore, agrees_at};

use std::alloc::{AllocError, Global};
use std::collections::BTreeMap;
use std::marker::Model;

/// Where a place stands first in a list, and how often it stands there.
#[derive(Clone, Copy)]
pub struct Seen {
    pub first: usize,
    pub count: u32,
}

/// Places in a list, each counted. A place is looked up in a time that grows as the logarithm of their number.
#[derive(Drop)]
pub struct Tally {
    places: Vec<u32>,
    seen: BTreeMap<u32, Seen>,
}

impl Model for Tally {
    ghost use Rattle.std.specs.Prelude.{List, ℕ};
    ghost use Rattle.ir_check.specs.Tallies.{IsTallied};

    ghost Value = { List ℕ };

    ghost view = { λ t. t.places.items };

    ghost invariant = { λ t. IsTallied t.seen t.places.items };
}

/// What is kept of a place.
fn seen_at(seen: &BTreeMap<u32, Seen>, place: u32) -> Option<Seen>
    ensures { result ≡ get nat_cmp seen.now place }
{
    seen.get(&place).copied()
}

/// Keeps this of a place.
fn put(seen: &mut BTreeMap<u32, Seen>, place: u32, more: Seen) -> Result<(), AllocError>
    ensures added { OnOk result (Puts place more seen.old seen.new) }
    ensures kept { OnErr result (seen.new.entries ≡ seen.old.entries) }
{
    seen.insert(place, more)?;
    Ok(())
}

/// What is kept of a place that stands once more, behind so many others. Memory is wanted where 32 bits do not hold the count.
fn once_more(found: Option<Seen>, length: usize) -> Result<Seen, AllocError>
    ensures { IfOk result (IsOneMore found length) }
{
    match found {
        Some(seen) => match seen.count.checked_add(1) {
            Some(count) => Ok(Seen {
                first: seen.first,
                count,
            }),
            None => Err(AllocError),
        },
        None => Ok(Seen {
            first: length,
            count: 1,
        }),
    }
}

/// Puts a place at the end, and keeps this of it.
fn put_place(
    places: &mut Vec<u32>,
    seen: &mut BTreeMap<u32, Seen>,
    place: u32,
    more: Seen,
) -> Result<(), AllocError>
    ensures added { OnOk result (places.new.items ≡ places.old.items ++ place ∷ []) }
    ensures puts { OnOk result (Puts place more seen.old seen.new) }
    ensures places { OnErr result (places.new.items ≡ places.old.items) }
    ensures kept { OnErr result (seen.new.entries ≡ seen.old.entries) }
{
    places.push(place)?;
    match put(seen, place, more) {
        Ok(()) => Ok(()),
        Err(fault) => {
            places.pop();
            Err(fault)
        }
    }
}

impl Tally {
    /// The tally of no places.
    pub fn new(alloc: Global) -> Tally
        ensures { result ≡ [] }
    {
        Tally {
            places: Vec::new(alloc),
            seen: BTreeMap::new(alloc),
        }
    }

    /// Adds a place behind the others. Memory is also wanted where 32 bits do not hold how often it stands there.
    pub fn add(&mut self, place: u32) -> Result<(), AllocError>
        ensures { OnOk result (self.new ≡ self.old ++ place ∷ []) }
    {
        let found = seen_at(&self.seen, place);
        let more = once_more(found, self.places.len())?;
        put_place(&mut self.places, &mut self.seen, place, more)
    }

    /// How often a place stands there.
    pub fn count(&self, place: u32) -> u32
        ensures { result ≡ count_by (nat_eq place) self.now }
    {
        match seen_at(&self.seen, place) {
            Some(seen) => seen.count,
            None => 0,
        }
    }

    /// Where a place stands first.
    pub fn first(&self, place: u32) -> Option<usize>
        ensures { result ≡ position (nat_eq place) self.now }
    {
        match seen_at(&self.seen, place) {
            Some(seen) => Some(seen.first),
            None => None,
        }
    }

    /// The places.
    pub fn as_slice(&self) -> &[u32]
        ensures { result.now ≡ self.now }
    {
        self.places.as_slice()
    }
}

/// Whether each of these places stands as often in the one as in the other.
fn agree_on(a: &Tally, b: &Tally, places: &[u32]) -> bool
    ensures { result ≡ list_all (agrees_at a.now b.now) places.now }
{
    'each: for place in places {
        if a.count(*place) != b.count(*place) {
            return false;
        }
    }
    true
}

/// Whether each place stands as often in the one as in the other. The places of the first are tried first, so it takes time in the order
/// of n log n in them, but for the look-ups in the second.
pub fn same_counts(a: &Tally, b: &Tally) -> bool
    ensures { result ≡ (list_all (agrees_at a.now b.now) a.now && list_all (agrees_at a.now b.now) b.now) }
{
    agree_on(a, b, a.as_slice()) && agree_on(a, b, b.as_slice())
}
