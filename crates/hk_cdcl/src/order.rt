//! The order in which variables are decided: a heap by activity, and for each variable the value that it had last.
//!
//! Nothing rests on this order but speed, so the contracts say only that variables are in range.

ghost use Rattle.std.specs.Prelude.{◌≡◌, ◌+◌, ◌<◌, ◌≤◌, length, OnOk, IfSome};
ghost use Rattle.std.specs.List.{All};
ghost use Rattle.hk_cdcl.specs.Order.{AreBelow};

use std::alloc::{AllocError, Global};
use std::marker::Model;

/// What a variable's activity is raised by at first.
const FIRST_BUMP: u64 = 1 << 20;

/// Where activities get so large, all are scaled down.
const LARGE: u64 = 1 << 60;

/// The activities of all variables, a heap of those that may be unset, and the values that they had last.
#[derive(Drop)]
pub struct Order {
    heap: Vec<usize>,
    places: Vec<usize>,
    activities: Vec<u64>,
    phases: Vec<bool>,
    bump: u64,
}

impl Model for Order {
    ghost use Rattle.std.specs.Prelude.{ℕ, length};
    ghost use Rattle.hk_cdcl.specs.Order.{IsOrder};

    ghost Value = { ℕ };

    ghost view = { λ o. length o.activities.items };

    ghost invariant = { IsOrder };
}

/// Exchanges two variables of the heap.
fn exchange(heap: &mut [usize], places: &mut [usize], i: usize, j: usize)
    requires i { i < length heap.old }
    requires j { j < length heap.old }
    requires below { AreBelow (length places.old) heap.old }
    ensures { AreBelow (length places.old) heap.new }
{
    let one = heap[i];
    let two = heap[j];
    heap[i] = two;
    heap[j] = one;
    places[two] = i;
    places[one] = j;
}

/// Moves the variable at a place of the heap up to where it belongs.
fn sift_up(heap: &mut [usize], places: &mut [usize], activities: &[u64], start: usize)
    requires start { start < length heap.old }
    requires each { length activities.now ≡ length places.old }
    requires below { AreBelow (length places.old) heap.old }
    ensures { AreBelow (length places.old) heap.new }
{
    let mut place = start;
    while 0 < place {
        let parent = (place - 1) / 2;
        if activities[heap[place]] <= activities[heap[parent]] {
            return;
        }
        exchange(heap, places, place, parent);
        place = parent;
    }
}

/// The child of a place of the heap with the greater activity, or the length of the heap.
fn greater_child(heap: &[usize], activities: &[u64], place: usize) -> usize
    requires place { place < length heap.now }
    requires below { AreBelow (length activities.now) heap.now }
    ensures inside { result ≤ length heap.now }
    ensures above { place < result }
{
    let left = 2 * place + 1;
    if heap.len() <= left {
        return heap.len();
    }
    let right = left + 1;
    if right < heap.len() && activities[heap[left]] < activities[heap[right]] {
        right
    } else {
        left
    }
}

/// Moves the variable at a place of the heap down to where it belongs.
fn sift_down(heap: &mut [usize], places: &mut [usize], activities: &[u64], start: usize)
    requires start { start < length heap.old }
    requires each { length activities.now ≡ length places.old }
    requires below { AreBelow (length places.old) heap.old }
    ensures { AreBelow (length places.old) heap.new }
{
    let mut place = start;
    'down: loop {
        let child = greater_child(heap, activities, place);
        if child == heap.len() || activities[heap[child]] <= activities[heap[place]] {
            return;
        }
        exchange(heap, places, child, place);
        place = child;
    }
}

impl Order {
    /// No variable.
    pub fn new(alloc: Global) -> Order
        ensures { result ≡ 0 }
    {
        Order {
            heap: Vec::new(alloc),
            places: Vec::new(alloc),
            activities: Vec::new(alloc),
            phases: Vec::new(alloc),
            bump: FIRST_BUMP,
        }
    }

    /// The number of variables.
    pub fn vars(&self) -> usize
        ensures { result ≡ self.now }
    {
        self.activities.len()
    }

    /// Adds variables with no activity until there are so many, and makes room in the heap for all of them, those that are
    /// not in it among them. Where memory is wanting, there may be fewer.
    pub fn widen(&mut self, vars: usize) -> Result<(), AllocError> {
        let room = vars.saturating_sub(self.heap.len());
        self.heap.reserve(room)?;
        while self.vars() < vars {
            self.add_variable()?;
        }
        Ok(())
    }

    /// Adds a variable with no activity.
    fn add_variable(&mut self) -> Result<(), AllocError>
        ensures { OnOk result (self.new ≡ self.old + 1) }
    {
        let var = self.activities.len();
        self.heap.reserve(1)?;
        self.places.reserve(1)?;
        self.phases.reserve(1)?;
        self.activities.push(0)?;
        self.phases.push_reserved(false);
        self.places.push_reserved(self.heap.len());
        self.heap.push_reserved(var);
        Ok(())
    }

    /// Raises the activity of a variable.
    pub fn raise(&mut self, var: usize)
        ensures { self.new ≡ self.old }
    {
        if self.activities.len() <= var {
            return;
        }
        let activity = self.activities[var].saturating_add(self.bump);
        self.activities[var] = activity;
        let place = self.places[var];
        if place < self.heap.len() && self.heap[place] == var {
            sift_up(
                self.heap.as_mut_slice(),
                self.places.as_mut_slice(),
                self.activities.as_slice(),
                place,
            );
        }
        if LARGE < activity {
            self.scale();
        }
    }

    /// Divides all activities alike.
    fn scale(&mut self)
        ensures { self.new ≡ self.old }
    {
        for activity in self.activities.iter_mut() {
            *activity >>= 40;
        }
        self.bump = (self.bump >> 40) + 1;
    }

    /// Lets activities that are raised from now on weigh more.
    pub fn decay(&mut self)
        ensures { self.new ≡ self.old }
    {
        self.bump = self.bump.saturating_add(self.bump / 19);
        if LARGE < self.bump {
            self.scale();
        }
    }

    /// Takes a variable with the greatest activity out of the heap.
    pub fn pop(&mut self) -> Option<usize>
        ensures same { self.new ≡ self.old }
        ensures below { IfSome result (λ v. v < self.old) }
    {
        let len = self.heap.len();
        if len == 0 {
            return None;
        }
        let var = self.heap[0];
        let last = self.heap[len - 1];
        self.heap[0] = last;
        self.places[last] = 0;
        self.places[var] = usize::MAX;
        self.heap.truncate(len - 1);
        if 1 < len {
            sift_down(
                self.heap.as_mut_slice(),
                self.places.as_mut_slice(),
                self.activities.as_slice(),
                0,
            );
        }
        Some(var)
    }

    /// Puts a variable that is unset again into the heap, with the value that it had.
    pub fn insert(&mut self, var: usize, phase: bool)
        ensures { self.new ≡ self.old }
    {
        if self.activities.len() <= var {
            return;
        }
        self.phases[var] = phase;
        let place = self.places[var];
        let len = self.heap.len();
        if (place < len && self.heap[place] == var) || self.heap.capacity() <= len {
            return;
        }
        self.places[var] = len;
        self.heap.push_reserved(var);
        sift_up(
            self.heap.as_mut_slice(),
            self.places.as_mut_slice(),
            self.activities.as_slice(),
            len,
        );
    }

    /// The value that the variable had last.
    pub fn phase(&self, var: usize) -> bool {
        if var < self.phases.len() {
            self.phases[var]
        } else {
            false
        }
    }
}
