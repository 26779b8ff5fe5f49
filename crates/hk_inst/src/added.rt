//! The instances that were added, in their order, and as a set in which they are looked up.

ghost use Rattle.std.specs.Prelude.{◌≡◌, ◌++◌, ◌∷◌, [], false, true, length, take, OnOk, OnErr};
ghost use Rattle.std.specs.List.{list_any};
ghost use Rattle.hk_inst.specs.Truths.{same_instance, is_among};

use crate::instance::{Instance, InstanceList};
use indexmap::IndexSet;
use std::alloc::{AllocError, Global};
use std::marker::Model;

// Instances, no two of them the same. A contract sees a list. To look one up takes the time of hashing it.
#[derive(Drop)]
pub(crate) struct InstanceSet {
    list: InstanceList,
    set: IndexSet<Instance>,
}

impl Model for InstanceSet {
    ghost use Rattle.std.specs.Prelude.{◌≡◌, List};
    ghost use Rattle.hk_inst.specs.declared.instance.Instance.{Instance};

    ghost Value = { List Instance };

    ghost view = { λ a. a.list };

    ghost invariant = { λ a. a.set.keys ≡ a.list };
}

// Whether an instance is in a set.
fn is_in(set: &IndexSet<Instance>, i: &Instance) -> bool
    ensures { result ≡ list_any (same_instance i.now) set.now.keys }
{
    set.contains(i)
}

// Puts an instance that is not in a set behind the others.
fn enter(set: &mut IndexSet<Instance>, i: Instance) -> Result<(), AllocError>
    requires { list_any (same_instance i) set.old.keys ≡ false }
    ensures ok { OnOk result (set.new.keys ≡ set.old.keys ++ i ∷ []) }
    ensures err { OnErr result (set.new.keys ≡ set.old.keys) }
{
    set.insert(i)?;
    Ok(())
}

impl InstanceSet {
    // No instance. It takes no memory.
    pub(crate) fn new(alloc: Global) -> InstanceSet
        ensures { result ≡ [] }
    {
        InstanceSet {
            list: InstanceList::new(alloc),
            set: IndexSet::new(alloc),
        }
    }

    // How many there are.
    pub(crate) fn len(&self) -> usize
        ensures { result ≡ length self.now }
    {
        self.list.as_slice().len()
    }

    // The instances in their order.
    pub(crate) fn list(&self) -> &InstanceList
        ensures { result.now ≡ self.now }
    {
        &self.list
    }

    // The same, with no set.
    pub(crate) fn into_list(self) -> InstanceList
        ensures { result ≡ self }
    {
        self.list
    }

    // Whether an instance is among these.
    pub(crate) fn contains(&self, i: &Instance) -> bool
        ensures { result ≡ is_among self.now i.now }
    {
        is_in(&self.set, i)
    }

    // Puts an instance behind the others.
    pub(crate) fn push(&mut self, alloc: Global, i: Instance) -> Result<(), AllocError>
        requires { is_among self.old i ≡ false }
        ensures ok { OnOk result (self.new ≡ self.old ++ i ∷ []) }
        ensures err { OnErr result (self.new ≡ self.old) }
    {
        let len = self.list.as_slice().len();
        let copy = i.copy(alloc)?;
        self.list.push(i)?;
        let entered = enter(&mut self.set, copy);
        if entered.is_err() {
            self.list.truncate(len);
        }
        entered
    }

    // Keeps the first ones alone.
    pub(crate) fn truncate(&mut self, len: usize)
        ensures { self.new ≡ take len self.old }
    {
        self.list.truncate(len);
        self.set.truncate(len);
    }
}
