//! Abstract states: for each field its entries, in the order of the index tuples.

ghost use Rattle.std.specs.Prelude.{◌≡◌, [], slice_index, slice_index_or, slice_set};
ghost use Rattle.spec_tree.specs.Value.{entry_at};
ghost use Rattle.spec_tree.specs.Meaning.{entry_set};

use std::marker::Model;

/// The entries of a field, one for each index tuple, in the order of the tuples.
#[derive(Drop)]
pub struct EntryList {
    items: Vec<u64>,
}

impl Model for EntryList {
    ghost use Rattle.std.specs.Prelude.{List, ℕ};

    ghost Value = { List ℕ };

    ghost view = { λ l. l.items.items };
}

impl EntryList {
    /// The list of these entries. It takes no memory.
    pub fn of(items: Vec<u64>) -> EntryList
        ensures { result ≡ items.items }
    {
        EntryList { items }
    }

    /// The entries as a slice.
    pub fn as_slice(&self) -> &[u64]
        ensures { result.now ≡ self.now }
    {
        self.items.as_slice()
    }

    /// Sets an entry; a place behind the last one changes nothing.
    fn set(&mut self, place: u64, number: u64)
        ensures { self.new ≡ slice_set self.old place number }
    {
        if place < self.items.len() as u64 {
            self.items[place as usize] = number;
        }
    }
}

/// An abstract state: the entries of each field, in the order of the class.
#[derive(Drop)]
pub struct AbstractState {
    fields: Vec<EntryList>,
}

impl Model for AbstractState {
    ghost use Rattle.std.specs.Prelude.{List, ℕ};

    ghost Value = { List (List ℕ) };

    ghost view = { λ s. s.fields.items };
}

impl AbstractState {
    /// The state of these fields. It takes no memory.
    pub fn of(fields: Vec<EntryList>) -> AbstractState
        ensures { result ≡ fields.items }
    {
        AbstractState { fields }
    }

    /// The fields as a slice.
    pub fn as_slice(&self) -> &[EntryList]
        ensures { result.now ≡ self.now }
    {
        self.fields.as_slice()
    }

    // The entries of a field; none where there is no such field.
    fn entries(&self, field: u32) -> &[u64]
        ensures { result.now ≡ slice_index_or self.now field [] }
    {
        if (field as usize) < self.fields.len() {
            self.fields[field as usize].as_slice()
        } else {
            &[]
        }
    }

    /// The entry of a field at a place; 0 where there is none.
    pub fn entry(&self, field: u32, place: Option<u64>) -> u64
        ensures { result ≡ entry_at (slice_index_or self.now field []) place }
    {
        match place {
            Some(place) => number_at(self.entries(field), place),
            None => 0,
        }
    }

    /// Sets the entry of a field at a place, and changes nothing where there is none.
    pub fn set(&mut self, field: u32, place: Option<u64>, number: u64)
        ensures { self.new ≡ entry_set self.old field place number }
    {
        if let Some(place) = place {
            if (field as usize) < self.fields.len() {
                self.fields[field as usize].set(place, number);
            }
        }
    }
}

// The number at a place; 0 behind the last one.
fn number_at(entries: &[u64], place: u64) -> u64
    ensures { result ≡ slice_index entries.now place }
{
    if place < entries.len() as u64 {
        entries[place as usize]
    } else {
        0
    }
}
