//! Symbol tables: entries by name, in text order.

ghost use Rattle.std.specs.Prelude.{◌≡◌, ◌+◌, ◌<◌, ◌^◌, ◌++◌, ◌∷◌, ◌↔◌, [], length, List, ℕ, Some, None, Option, option_map, is_some, slice_get, bytes_eq, IsSome, OnOk, OnErr, IsErrOf};
ghost use Rattle.std.specs.List.{IsDistinct};
ghost use Rattle.std.specs.BTreeMap.{get};
ghost use Rattle.std.specs.Cmp.Lexicographic.{slice_cmp};
ghost use Rattle.std.specs.Ordering.{nat_cmp};
ghost use Rattle.ir_ast.specs.Table.{names_of, place_of, PutsName};

use crate::name::Name;
use std::alloc::{AllocError, Global};
use std::collections::BTreeMap;
use std::marker::Model;
use thiserror::Error;

/// Entries by name, in the order in which they were added. No name stands twice. A name is looked up in a time that grows as the
/// logarithm of the number of names, whatever names they are.
pub struct Table<E> {
    alloc: Global,
    places: BTreeMap<Name, usize>,
    entries: Vec<(Name, E)>,
}

/// Why an entry is not added.
#[derive(Clone, Copy, Debug, PartialEq, Eq, Error)]
pub enum TableFault {
    /// The name has an entry.
    #[error("the name has an entry")]
    Repeated,
    /// Memory was refused.
    #[error("memory")]
    Memory,
}

impl<E> Model for Table<E> {
    ghost use Rattle.std.specs.Prelude.{List, ℕ};
    ghost use Rattle.std.specs.Coded.{coded_list, coded×, coded_ℕ};
    ghost use Rattle.ir_ast.specs.Table.{names_of, IsIndex};

    ghost Value = { List (List ℕ × E) };

    ghost coded = { coded_list (coded× (coded_list coded_ℕ) E.code) };

    ghost view = { λ t. t.entries.items };

    ghost invariant = { λ t. IsIndex t.places (names_of t.entries.items) };
}

impl<E: Drop> Drop for Table<E> {
    fn drop(self) {
        let Table {
            alloc: _,
            places,
            entries,
        } = self;
        drop(places);
        drop(entries);
    }
}

/// The place that stands with a name.
fn place_in(places: &BTreeMap<Name, usize>, name: &Name) -> Option<usize>
    ensures { result ≡ get (slice_cmp nat_cmp) places.now name.now }
{
    places.get(name).copied()
}

/// Puts a name with its place.
fn put(places: &mut BTreeMap<Name, usize>, name: Name, place: usize) -> Result<(), AllocError>
    ensures added { OnOk result (PutsName name place places.old places.new) }
    ensures kept { OnErr result (places.new.entries ≡ places.old.entries) }
{
    places.insert(name, place)?;
    Ok(())
}

/// Puts an entry at the end, and its name with its place.
fn put_entry<E: Drop>(
    places: &mut BTreeMap<Name, usize>,
    entries: &mut Vec<(Name, E)>,
    name: Name,
    entry: (Name, E),
) -> Result<(), AllocError>
    ensures placed { OnOk result (PutsName name (length entries.old.items) places.old places.new) }
    ensures added { OnOk result (entries.new.items ≡ entries.old.items ++ entry ∷ []) }
    ensures places { OnErr result (places.new.entries ≡ places.old.entries) }
    ensures entries { OnErr result (entries.new.items ≡ entries.old.items) }
{
    let place = entries.len();
    entries.push(entry)?;
    match put(places, name, place) {
        Ok(()) => Ok(()),
        Err(fault) => {
            entries.pop();
            Err(fault)
        }
    }
}

impl<E: Drop> Table<E> {
    /// A table without entries.
    pub fn new(alloc: Global) -> Table<E>
        ensures { result ≡ [] }
    {
        Table {
            alloc,
            places: BTreeMap::new(alloc),
            entries: Vec::new(alloc),
        }
    }

    /// The place of the entry of a name.
    pub fn get(&self, name: &Name) -> Option<u32>
        requires { length self.now < 2 ^ 32 }
        ensures place { result ≡ place_of name.now self.now }
        ensures distinct { IsDistinct bytes_eq (names_of self.now) }
    {
        match place_in(&self.places, name) {
            Some(place) => Some(place as u32),
            None => None,
        }
    }

    /// Whether a name has an entry.
    pub fn contains(&self, name: &Name) -> bool
        ensures { result ≡ is_some (place_of name.now self.now) }
    {
        place_in(&self.places, name).is_some()
    }

    /// The entry at a place.
    pub fn at(&self, place: u32) -> &E
        requires { place < length self.now }
        ensures { option_map (λ entry. entry.1) (slice_get self.now place) ≡ Some result.now }
    {
        &self.entries[place as usize].1
    }

    /// The name of the entry at a place.
    pub fn name_at(&self, place: u32) -> &Name
        requires { place < length self.now }
        ensures { option_map (λ entry. entry.0) (slice_get self.now place) ≡ Some result.now }
    {
        &self.entries[place as usize].0
    }

    /// How many entries there are.
    pub fn len(&self) -> u32
        requires { length self.now < 2 ^ 32 }
        ensures count { result ≡ length self.now }
        ensures distinct { IsDistinct bytes_eq (names_of self.now) }
    {
        self.entries.len() as u32
    }

    /// Adds an entry at the end. A name that has an entry is refused, and the table is then as before.
    pub fn add(&mut self, name: Name, entry: E) -> Result<(), TableFault>
        ensures added { OnOk result (self.new ≡ self.old ++ (name, entry) ∷ []) }
        ensures only_new { OnOk result (place_of name self.old ≡ None) }
        ensures repeated { IsErrOf result TableFault.Repeated ↔ IsSome (place_of name self.old) }
        ensures kept { OnErr result (self.new ≡ self.old) }
    {
        if self.contains(&name) {
            return Err(TableFault::Repeated);
        }
        let Ok(key) = name.copy(self.alloc) else {
            return Err(TableFault::Memory);
        };
        match put_entry(&mut self.places, &mut self.entries, key, (name, entry)) {
            Ok(()) => Ok(()),
            Err(_) => Err(TableFault::Memory),
        }
    }
}
