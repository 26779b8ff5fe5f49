//! One whole type, by the numbers of its parts: what a list of whole types is made of, and the key under which it finds each.

ghost use Rattle.std.specs.Prelude.{◌≡◌, Some, refl, nat_eq, IfOk};
ghost use Rattle.std.specs.Ordering.{nat_cmp};
ghost use Rattle.std.specs.Cmp.{partial_equiv_from_equiv};
ghost use Rattle.std.specs.Cmp.Lexicographic.{slice_cmp, pointwise, nat_list_eq_equiv, nat_list_cmp_total, texts_ties, texts_po};

use std::alloc::{AllocError, Global};
use std::cmp::Ordering;
use std::marker::Model;

/// The numbers of the parts of a struct, in their order. A contract sees them as a list.
#[derive(Debug, Drop)]
pub struct Row {
    items: Vec<u32>,
}

impl Model for Row {
    ghost use Rattle.std.specs.Prelude.{List, ℕ};

    ghost Value = { List ℕ };

    ghost view = { λ r. r.items.items };
}

impl Row {
    /// The row of these numbers. It takes no memory.
    pub fn new(items: Vec<u32>) -> Row
        ensures { result ≡ items.items }
    {
        Row { items }
    }

    /// The numbers, lent.
    pub fn as_slice(&self) -> &[u32]
        ensures { result.now ≡ self.now }
    {
        self.items.as_slice()
    }

    /// The same numbers in memory of their own.
    pub fn copy(&self, alloc: Global) -> Result<Row, AllocError>
        ensures { IfOk result (λ row. row ≡ self.now) }
    {
        Ok(Row::new(Vec::from_slice(alloc, self.as_slice())?))
    }
}

impl PartialEq for Row {
    ghost eq = { pointwise nat_eq };

    ghost laws = { partial_equiv_from_equiv nat_list_eq_equiv };

    fn eq(&self, other: &Row) -> bool {
        self.as_slice() == other.as_slice()
    }
}

impl Eq for Row {
    ghost laws = { nat_list_eq_equiv };
}

impl PartialOrd for Row {
    ghost partial_cmp = { λ a b. Some (slice_cmp nat_cmp a b) };

    ghost laws = { texts_po };

    fn partial_cmp(&self, other: &Row) -> Option<Ordering> {
        Some(self.cmp(other))
    }
}

impl Ord for Row {
    ghost cmp = { slice_cmp nat_cmp };

    ghost total = { nat_list_cmp_total };

    ghost matches_partial_cmp = { λ a b. refl };

    ghost matches_eq = { texts_ties };

    fn cmp(&self, other: &Row) -> Ordering {
        self.as_slice().cmp(other.as_slice())
    }
}

/// One whole type, by the numbers of its parts (LLVM Language Reference, "Type System"). Widths are in bits.
#[derive(Debug, Drop, PartialEq, Eq, PartialOrd, Ord)]
pub enum Head {
    /// The type of nothing.
    Opaque,
    /// The result of a function that gives nothing.
    Void,
    /// `iN`.
    Int(u32),
    /// `ptr`.
    Ptr,
    /// `[ n x T ]`: the length, and the number of the element.
    Array(u64, u32),
    /// `{ T , .. }`.
    Struct(Row),
    /// `<{ T , .. }>`.
    Packed(Row),
}

impl Head {
    /// The same type in memory of its own.
    pub fn copy(&self, alloc: Global) -> Result<Head, AllocError>
        ensures { IfOk result (λ head. head ≡ self.now) }
    {
        Ok(match self {
            Head::Opaque => Head::Opaque,
            Head::Void => Head::Void,
            Head::Int(width) => Head::Int(*width),
            Head::Ptr => Head::Ptr,
            Head::Array(length, element) => Head::Array(*length, *element),
            Head::Struct(row) => Head::Struct(row.copy(alloc)?),
            Head::Packed(row) => Head::Packed(row.copy(alloc)?),
        })
    }
}
