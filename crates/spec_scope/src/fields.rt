//! The fields of the abstract state, found by name in constant time.

ghost use Rattle.std.specs.Prelude.{◌≡◌, ◌<◌, [], IfSome, OnOk, is_some, bytes_eq, length, slice_get, option_map};
ghost use Rattle.std.specs.Map.{lookup};
ghost use Rattle.spec_scope.specs.Fields.{view_sort};
ghost use Rattle.spec_scope.specs.Scope.{place_in, sort_at, with_field};
ghost use Rattle.spec_scope.specs.Words.{place_by};

use crate::sorts::{FieldRow, FieldSort};
use indexmap::IndexMap;
use std::alloc::{AllocError, Global};
use std::marker::Model;

/// The fields of a class, each name once, seen by contracts as the list of them.
#[derive(Drop)]
pub struct FieldTable<'t> {
    rows: IndexMap<&'t [u8], FieldRow>,
}

impl<'t> Model for FieldTable<'t> {
    ghost use Rattle.std.specs.Prelude.{List, ◌<◌, ◌^◌, length, map};
    ghost use Rattle.spec_scope.specs.Scope.{Declared};
    ghost use Rattle.spec_scope.specs.Fields.{view_row};

    ghost Value = { List Declared };

    ghost view = { λ t. map view_row t.rows.entries };

    ghost invariant = { λ t. length t.rows.entries < 2 ^ 32 };
}

/// Where a name stands.
fn place_of(rows: &IndexMap<&[u8], FieldRow>, name: &[u8]) -> Option<usize>
    ensures value { result ≡ place_by name.now rows.now.entries }
    ensures found { is_some result ≡ is_some (lookup (λ k. bytes_eq name.now k.now) rows.now.entries) }
    ensures within { IfSome result (λ place. place < length rows.now.entries) }
{
    rows.get_index_of(&name)
}

/// The row at a place.
fn row_at<'r>(rows: &'r IndexMap<&[u8], FieldRow>, place: usize) -> Option<&'r FieldRow>
    ensures { option_map (λ f. f.now) result ≡ option_map (λ e. e.1) (slice_get rows.now.entries place) }
{
    match rows.get_index(place) {
        Some((_, row)) => Some(row),
        None => None,
    }
}

impl<'t> FieldTable<'t> {
    /// No fields. It takes no memory.
    pub fn new(alloc: Global) -> FieldTable<'t>
        ensures { result ≡ [] }
    {
        FieldTable {
            rows: IndexMap::new(alloc),
        }
    }

    /// The place of a field.
    #[tactic(auto, using(crate::proofs::Tables::place_rows))]
    pub fn place(&self, name: &[u8]) -> Option<u32>
        ensures { result ≡ place_in self.now name.now }
    {
        match place_of(&self.rows, name) {
            Some(place) => Some(place as u32),
            None => None,
        }
    }

    /// The sort of the field at a place.
    pub fn sort_at(&self, place: u32) -> Option<&FieldSort>
        ensures { option_map (λ f. view_sort f.now) result ≡ sort_at self.now place }
    {
        match row_at(&self.rows, place as usize) {
            Some(row) => row.sort.as_ref(),
            None => None,
        }
    }

    /// Puts a field behind the others, unless its name is there.
    pub fn add(&mut self, name: &'t [u8], row: FieldRow) -> Result<(), AllocError>
        ensures { OnOk result (self.new ≡ with_field self.old (record { line = row.line; name = name.now; sort = option_map view_sort row.sort })) }
    {
        if place_of(&self.rows, name).is_some() {
            drop(row);
            return Ok(());
        }
        if self.rows.len() >= u32::MAX as usize {
            return Err(AllocError);
        }
        self.rows.insert(name, row)?;
        Ok(())
    }
}
