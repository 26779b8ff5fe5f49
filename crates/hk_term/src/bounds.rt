//! The bound variables of a quantifier.

ghost use Rattle.std.specs.Prelude.{◌≡◌, ◌<◌, ◌++◌, [], length, slice_get, IfOk, Some};
ghost use Rattle.std.specs.Cmp.Lexicographic.{pointwise, lists_per, lists_equiv};
ghost use Rattle.std.specs.Cmp.{partial_equiv_from_equiv};
ghost use Rattle.std.specs.Hash as fed;
ghost use Rattle.std.proofs.Common.{ap};
ghost use Rattle.hk_term.specs.Same.{bound_eq, bound_eq-equiv, bounds_same};

use std::alloc::{AllocError, Global};
use std::hash::{Hash, Hasher};
use std::marker::Model;

/// A bound variable: its id, and its size. It takes the numbers below the size.
#[derive(Clone, Copy, Debug, PartialEq, Eq, Hash)]
pub struct Bound {
    pub id: u32,
    pub size: u64,
}

/// The bound variables of a quantifier, the outermost first. A contract sees them as a list.
#[derive(Debug, Drop)]
pub struct BoundList {
    items: Vec<Bound>,
}

impl Model for BoundList {
    ghost use Rattle.std.specs.Prelude.{List};
    ghost use Rattle.hk_term.specs.declared.bounds.Bound.{Bound};

    ghost Value = { List Bound };

    ghost view = { λ b. b.items.items };
}

impl PartialEq for BoundList {
    ghost eq = { pointwise bound_eq };

    ghost laws = { lists_per (partial_equiv_from_equiv bound_eq-equiv) };

    fn eq(&self, other: &BoundList) -> bool {
        self.items == other.items
    }
}

impl Eq for BoundList {
    ghost laws = { lists_equiv bound_eq-equiv };
}

impl Hash for BoundList {
    ghost hash_input = { fed.slice (λ b. fed.u32 b.id ++ fed.u64 b.size) };

    ghost respects_eq = { λ x y e. ap (fed.slice (λ b. fed.u32 b.id ++ fed.u64 b.size)) (bounds_same x y e) };

    fn hash<H: Hasher>(&self, state: &mut H) {
        self.items.hash(state);
    }
}

impl BoundList {
    /// No bound variables. It takes no memory.
    pub fn new(alloc: Global) -> BoundList
        ensures { result ≡ [] }
    {
        BoundList {
            items: Vec::new(alloc),
        }
    }

    /// The bound variables of a vector. It takes no memory.
    pub fn from_vec(items: Vec<Bound>) -> BoundList
        ensures { result ≡ items.items }
    {
        BoundList { items }
    }

    /// The vector of the bound variables. It takes no memory.
    pub fn into_vec(self) -> Vec<Bound>
        ensures { result.items ≡ self }
    {
        self.items
    }

    /// The bound variables, lent.
    pub fn as_slice(&self) -> &[Bound]
        ensures { result.now ≡ self.now }
    {
        self.items.as_slice()
    }

    /// The same bound variables in memory of their own.
    pub fn copy(&self, alloc: Global) -> Result<BoundList, AllocError>
        ensures { IfOk result (λ b. b ≡ self.now) }
    {
        let items = self.items.as_slice().to_vec(alloc)?;
        Ok(BoundList { items })
    }
}
