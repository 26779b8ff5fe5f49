//! Sorts and sizes: how wide a number is, and how many indices there are.

ghost use Rattle.std.specs.Prelude.{◌≡◌};

use std::marker::Model;

/// A sort: the width of its numbers in bits, and for an index sort how many indices there are, from 0 to `size` - 1.
/// A Boolean has the width 1.
#[derive(Clone, Copy, Debug, PartialEq, Eq)]
pub struct Sort {
    pub width: u32,
    pub size: Option<u32>,
}

/// The sorts of a field's keys, in their order; each has a size.
#[derive(Drop)]
pub struct SortList {
    items: Vec<Sort>,
}

impl Model for SortList {
    ghost use Rattle.std.specs.Prelude.{List};
    ghost use Rattle.spec_tree.specs.declared.sort.Sort.{Sort};

    ghost Value = { List Sort };

    ghost view = { λ l. l.items.items };
}

impl SortList {
    /// The list of these sorts.
    pub fn of(items: Vec<Sort>) -> SortList
        ensures { result ≡ items.items }
    {
        SortList { items }
    }

    /// The sorts as a slice.
    pub fn as_slice(&self) -> &[Sort]
        ensures { result.now ≡ self.now }
    {
        self.items.as_slice()
    }
}

/// Sizes of a quantifier's variables, bytes of objects, or widths of parameters in bits.
#[derive(Drop)]
pub struct SizeList {
    items: Vec<u32>,
}

impl Model for SizeList {
    ghost use Rattle.std.specs.Prelude.{List, ℕ};

    ghost Value = { List ℕ };

    ghost view = { λ l. l.items.items };
}

impl SizeList {
    /// The list of these numbers.
    pub fn of(items: Vec<u32>) -> SizeList
        ensures { result ≡ items.items }
    {
        SizeList { items }
    }

    /// The numbers as a slice.
    pub fn as_slice(&self) -> &[u32]
        ensures { result.now ≡ self.now }
    {
        self.items.as_slice()
    }
}
