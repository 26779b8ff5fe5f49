//! Watch lists as they are kept: eight bytes a watch, and a list for each literal's code.

ghost use Rattle.std.specs.Prelude.{◌≡◌, ◌+◌, ◌*◌, ◌<◌, ◌≤◌, ◌++◌, [], ◌∷◌, length, slice_set, IsTrue, IsFalse, OnOk, OnErr};
ghost use Rattle.std.specs.List.{swap_remove};
ghost use Rattle.hk_cdcl.specs.Slots.{slots_of, slot_at, IsLonger, AreEmpty};

use hk_cnf::{ClauseList, Lit};
use std::alloc::{AllocError, Global};
use std::marker::Model;

/// A watch as it is kept. A binary clause is decided by it alone; of another one it says where its record begins.
#[derive(Clone, Copy)]
pub struct Slot {
    /// The code of another literal of the clause: where it is true, the clause need not be looked at.
    pub blocker: u32,
    /// 2^31 and the place of a binary clause in its list, or the place below 2^31 at which the clause's record begins.
    pub target: u32,
}

/// The watches of one literal, and the number of clauses with it, for each of which there is room.
#[derive(Drop)]
pub struct SlotList {
    items: Vec<Slot>,
    occurrences: usize,
}

impl Model for SlotList {
    ghost use Rattle.std.specs.Prelude.{List};
    ghost use Rattle.hk_cdcl.specs.declared.lists.Slot.{Slot};

    ghost Value = { List Slot };

    ghost view = { λ l. l.items.items };
}

impl SlotList {
    /// No watch.
    fn new(alloc: Global) -> SlotList
        ensures { result ≡ [] }
    {
        SlotList {
            items: Vec::new(alloc),
            occurrences: 0,
        }
    }

    /// Counts a clause more.
    fn count(&mut self)
        ensures { self.new ≡ self.old }
    {
        self.occurrences = self.occurrences.saturating_add(1);
    }

    /// Makes room for all clauses that were counted; where it was made before, for a quarter more.
    fn reserve(&mut self) -> Result<(), AllocError>
        ensures { self.new ≡ self.old }
    {
        let capacity = self.items.capacity();
        if self.occurrences <= capacity {
            return Ok(());
        }
        let more = if capacity == 0 {
            0
        } else {
            self.occurrences / 4
        };
        let room = self.occurrences.saturating_add(more);
        self.items
            .reserve_exact(room.saturating_sub(self.items.len()))?;
        Ok(())
    }

    /// Adds a watch where there is room, and answers whether there was.
    fn push(&mut self, slot: Slot) -> bool
        ensures added { IsTrue result → self.new ≡ self.old ++ slot ∷ [] }
        ensures full { IsFalse result → self.new ≡ self.old }
    {
        if self.items.len() < self.items.capacity() {
            self.items.push_reserved(slot);
            return true;
        }
        false
    }

    /// Writes the watch at the place.
    fn set(&mut self, place: usize, slot: Slot)
        requires { place < length self.old }
        ensures { self.new ≡ slice_set self.old place slot }
    {
        self.items[place] = slot;
    }

    /// Removes the watch at the place; the last one takes its place.
    fn remove(&mut self, place: usize)
        requires { place < length self.old }
        ensures { self.new ≡ swap_remove self.old place (slot_at self.old place) }
    {
        self.items.swap_remove(place);
    }

    /// Removes all watches, and keeps the room.
    fn clear(&mut self)
        ensures { self.new ≡ [] }
    {
        self.items.clear();
    }
}

/// The watch lists of all literals.
#[derive(Drop)]
pub struct Lists {
    lists: Vec<SlotList>,
}

impl Model for Lists {
    ghost use Rattle.std.specs.Prelude.{List};
    ghost use Rattle.hk_cdcl.specs.declared.lists.Slot.{Slot};

    ghost Value = { List (List Slot) };

    ghost view = { λ w. w.lists.items };
}

impl Lists {
    /// No list.
    pub fn new(alloc: Global) -> Lists
        ensures { result ≡ [] }
    {
        Lists {
            lists: Vec::new(alloc),
        }
    }

    /// The number of lists.
    pub fn len(&self) -> usize
        ensures { result ≡ length self.now }
    {
        self.lists.len()
    }

    /// The number of watches of the literal with this code.
    pub fn count(&self, code: u32) -> usize
        requires { code < length self.now }
        ensures { result ≡ length (slots_of self.now code) }
    {
        self.lists[code as usize].items.len()
    }

    /// The watch at the place of the list of the literal with this code.
    pub fn slot(&self, code: u32, place: usize) -> Slot
        requires inside { code < length self.now }
        requires place { place < length (slots_of self.now code) }
        ensures { result ≡ slot_at (slots_of self.now code) place }
    {
        self.lists[code as usize].items[place]
    }

    /// Adds a watch where there is room, and answers whether there was.
    pub fn push(&mut self, code: u32, slot: Slot) -> bool
        requires { code < length self.old }
        ensures added { IsTrue result → self.new ≡ slice_set self.old code (slots_of self.old code ++ slot ∷ []) }
        ensures full { IsFalse result → self.new ≡ self.old }
    {
        self.lists[code as usize].push(slot)
    }

    /// Writes the watch at the place.
    pub fn set(&mut self, code: u32, place: usize, slot: Slot)
        requires inside { code < length self.old }
        requires place { place < length (slots_of self.old code) }
        ensures { self.new ≡ slice_set self.old code (slice_set (slots_of self.old code) place slot) }
    {
        self.lists[code as usize].set(place, slot);
    }

    /// Removes the watch at the place; the last one of its list takes the place.
    pub fn remove(&mut self, code: u32, place: usize)
        requires inside { code < length self.old }
        requires place { place < length (slots_of self.old code) }
        ensures { self.new ≡ slice_set self.old code (swap_remove (slots_of self.old code) place (slot_at (slots_of self.old code) place)) }
    {
        self.lists[code as usize].remove(place);
    }

    /// Adds an empty list at the end.
    fn push_list(&mut self) -> Result<(), AllocError>
        ensures ok { OnOk result (IsLonger self.old self.new × (length self.new ≡ length self.old + 1)) }
        ensures err { OnErr result (self.new ≡ self.old) }
    {
        let alloc = *self.lists.allocator();
        self.lists.push(SlotList::new(alloc))?;
        Ok(())
    }

    /// Adds empty lists at the end until there are so many.
    pub fn widen(&mut self, count: usize) -> Result<(), AllocError>
        ensures { IsLonger self.old self.new }
    {
        while self.len() < count {
            self.push_list()?;
        }
        Ok(())
    }

    /// Counts a clause more for the literal.
    fn count_one(&mut self, lit: Lit)
        ensures { self.new ≡ self.old }
    {
        let code = lit.code() as usize;
        if code < self.lists.len() {
            self.lists[code].count();
        }
    }

    /// Makes room in the literal's list for all clauses that were counted.
    fn reserve_one(&mut self, lit: Lit) -> Result<(), AllocError>
        ensures { self.new ≡ self.old }
    {
        let code = lit.code() as usize;
        if code < self.lists.len() {
            self.lists[code].reserve()?;
        }
        Ok(())
    }

    /// Counts a clause more for each of its literals. A literal alone is watched twice.
    fn count_all(&mut self, clause: &[Lit])
        ensures { self.new ≡ self.old }
    {
        if let [alone] = clause {
            self.count_one(*alone);
        }
        for lit in clause {
            self.count_one(*lit);
        }
    }

    /// Makes room in the lists of the clause's literals for all clauses that were counted.
    fn reserve_all(&mut self, clause: &[Lit]) -> Result<(), AllocError>
        ensures { self.new ≡ self.old }
    {
        for lit in clause {
            self.reserve_one(*lit)?;
        }
        Ok(())
    }

    /// Counts the clauses from a place on for their literals.
    pub fn count_from(&mut self, clauses: &ClauseList, from: usize)
        ensures { self.new ≡ self.old }
    {
        for place in from..clauses.len() {
            self.count_all(clauses.clause(place));
        }
    }

    /// Makes room in the lists of the literals of the clauses from a place on for all clauses that were counted.
    pub fn reserve_from(&mut self, clauses: &ClauseList, from: usize) -> Result<(), AllocError>
        ensures { self.new ≡ self.old }
    {
        for place in from..clauses.len() {
            self.reserve_all(clauses.clause(place))?;
        }
        Ok(())
    }

    /// Removes all watches, and keeps the room.
    pub fn clear(&mut self)
        ensures { AreEmpty self.old self.new }
    {
        for list in self.lists.iter_mut() {
            list.clear();
        }
    }
}
