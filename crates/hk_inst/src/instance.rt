//! Instances: what is known of reads and quantifiers beside their bits.

ghost use Rattle.std.specs.Prelude.{◌≡◌, ◌++◌, ◌∷◌, [], take, nat_eq, IfOk, OnOk, OnErr};
ghost use Rattle.std.specs.Cmp.Lexicographic.{pointwise, lists_per, lists_equiv};
ghost use Rattle.std.specs.Cmp.{partial_equiv_from_equiv, nat_eq_equiv};
ghost use Rattle.std.specs.Hash as fed;
ghost use Rattle.std.proofs.Common.{ap};
ghost use Rattle.hk_inst.specs.Indices.{numbers_same};

use std::alloc::{AllocError, Global};
use std::hash::{Hash, Hasher};
use std::marker::Model;

/// A tuple of numbers, one for each bound variable of a quantifier, the outermost first. A contract sees a list.
#[derive(Debug, Drop)]
pub struct SizeList {
    items: Vec<u64>,
}

impl Model for SizeList {
    ghost use Rattle.std.specs.Prelude.{List, ℕ};

    ghost Value = { List ℕ };

    ghost view = { λ l. l.items.items };
}

impl PartialEq for SizeList {
    ghost eq = { pointwise nat_eq };

    ghost laws = { lists_per (partial_equiv_from_equiv nat_eq_equiv) };

    fn eq(&self, other: &SizeList) -> bool {
        self.items == other.items
    }
}

impl Eq for SizeList {
    ghost laws = { lists_equiv nat_eq_equiv };
}

impl Hash for SizeList {
    ghost hash_input = { fed.slice fed.u64 };

    ghost respects_eq = { λ x y e. ap (fed.slice fed.u64) (numbers_same x y e) };

    fn hash<H: Hasher>(&self, state: &mut H) {
        self.items.hash(state);
    }
}

impl SizeList {
    /// These numbers.
    pub fn from_vec(items: Vec<u64>) -> SizeList
        ensures { result ≡ items.items }
    {
        SizeList { items }
    }

    /// The numbers, lent.
    pub fn as_slice(&self) -> &[u64]
        ensures { result.now ≡ self.now }
    {
        self.items.as_slice()
    }

    /// The same numbers in memory of their own.
    pub fn copy(&self, alloc: Global) -> Result<SizeList, AllocError>
        ensures { IfOk result (λ l. l ≡ self.now) }
    {
        let items = self.items.as_slice().to_vec(alloc)?;
        Ok(SizeList { items })
    }
}

/// A fact that holds of each reading, over the numbers of reads and quantifiers.
#[derive(Debug, Drop, PartialEq, Eq, Hash)]
pub enum Instance {
    /// Two reads of one array: their values agree where their places are equal.
    Pair { a: u64, b: u64 },
    /// A quantifier with a tuple: it is false, or its body is true at the tuple.
    Tuple { quantifier: u64, indices: SizeList },
}

/// Instances, in the order in which they were added. A contract sees a list.
#[derive(Debug, Drop)]
pub struct InstanceList {
    items: Vec<Instance>,
}

impl Model for InstanceList {
    ghost use Rattle.std.specs.Prelude.{List};
    ghost use Rattle.hk_inst.specs.declared.instance.Instance.{Instance};

    ghost Value = { List Instance };

    ghost view = { λ l. l.items.items };
}

impl Instance {
    /// The same instance in memory of its own.
    pub fn copy(&self, alloc: Global) -> Result<Instance, AllocError>
        ensures { IfOk result (λ i. i ≡ self.now) }
    {
        match self {
            Instance::Pair { a, b } => Ok(Instance::Pair { a: *a, b: *b }),
            Instance::Tuple {
                quantifier,
                indices,
            } => {
                let indices = indices.copy(alloc)?;
                Ok(Instance::Tuple {
                    quantifier: *quantifier,
                    indices,
                })
            }
        }
    }
}

impl InstanceList {
    /// No instance. It takes no memory.
    pub fn new(alloc: Global) -> InstanceList
        ensures { result ≡ [] }
    {
        InstanceList {
            items: Vec::new(alloc),
        }
    }

    /// These instances, in their order. It takes no memory.
    pub fn from_vec(items: Vec<Instance>) -> InstanceList
        ensures { result ≡ items.items }
    {
        InstanceList { items }
    }

    // Puts an instance behind the others.
    pub(crate) fn push(&mut self, i: Instance) -> Result<(), AllocError>
        ensures ok { OnOk result (self.new ≡ self.old ++ i ∷ []) }
        ensures err { OnErr result (self.new ≡ self.old) }
    {
        self.items.push(i)?;
        Ok(())
    }

    // Keeps the first ones alone.
    pub(crate) fn truncate(&mut self, len: usize)
        ensures { self.new ≡ take len self.old }
    {
        self.items.truncate(len);
    }

    /// The instances, lent.
    pub fn as_slice(&self) -> &[Instance]
        ensures { result.now ≡ self.now }
    {
        self.items.as_slice()
    }
}
