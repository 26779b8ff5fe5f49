//! A room that keeps the numbers of terms from one computation to the next.

ghost use Rattle.std.specs.Prelude.{◌≡◌, ℕ, ◌^◌, ◌<◌, ◌≤◌, List, length, IfOk, OnOk, OnErr};
ghost use Rattle.hk_term.specs.Shape.{Grows};
ghost use Rattle.hk_term.specs.Meaning.{Reading, reading_of, value};
ghost use Rattle.hk_term.specs.Walk.{scoped, Known};
ghost use Rattle.hk_term.specs.Room.{IsRoom, IsFor};
ghost use Rattle.hk_term.specs.declared.node.Node.{Node};

use crate::node::TermId;
use crate::scope::Scope;
use crate::terms::Terms;
use crate::valuation::Valuation;
use crate::walk::{Context, compute, fresh_stamp};
use std::alloc::{AllocError, Global};
use std::marker::Model;

// The last stamp of a valuation. The later ones are those of quantifiers.
const LAST_STAMP: u64 = 1 << 63;

/// Numbers of the terms of a list under one valuation, kept from one computation to the next: 16 bytes a node. A contract
/// sees for each place of the list the number of its term, where it is known.
#[derive(Drop)]
pub struct ValueRoom {
    values: Vec<u64>,
    marks: Vec<u64>,
    stamp: u64,
    clock: u64,
}

impl Model for ValueRoom {
    ghost use Rattle.std.specs.Prelude.{List, ℕ, Option};
    ghost use Rattle.hk_term.specs.Room.{IsRoom, known_numbers};

    ghost Value = { List (Option ℕ) };

    ghost view = { λ a. known_numbers a.stamp a.values.items a.marks.items };

    ghost invariant = { λ a. IsRoom a.stamp a.clock a.values.items a.marks.items };
}

impl ValueRoom {
    /// A room for a list, under any valuation: no number is known.
    pub fn new(alloc: Global, terms: &Terms) -> Result<ValueRoom, AllocError>
        ensures { IfOk result (λ room. (r : Reading) → IsFor terms.now r room) }
    {
        let len = terms.len() as usize;
        let values = vec![in alloc; 0; len]?;
        let marks = vec![in alloc; 0; len]?;
        Ok(ValueRoom {
            values,
            marks,
            stamp: 1,
            clock: 1,
        })
    }

    /// Makes room for a list that grew at its end, or that was cut. The numbers of the terms that stayed are kept. After want
    /// of memory the room is as before.
    pub fn fit(&mut self, terms: &Terms) -> Result<(), AllocError>
        ensures size { OnOk result (length self.new ≡ length terms.now) }
        ensures grown { OnOk result ((old : List Node) (r : Reading) → Grows old terms.now → IsFor old r self.old → IsFor terms.now r self.new) }
        ensures cut { OnOk result ((old : List Node) (r : Reading) → Grows terms.now old → IsFor old r self.old → IsFor terms.now r self.new) }
        ensures err { OnErr result (self.new ≡ self.old) }
    {
        let len = terms.len() as usize;
        let most = len.max(self.values.len());
        self.values.resize(most, 0)?;
        self.marks.resize(len, 0)?;
        Ok(())
    }

    /// Begins with another valuation, or with another list of the same length: no number is known. It takes no memory, and
    /// constant time but where 2^63 stamps are used up.
    pub fn begin(&mut self)
        ensures size { length self.new ≡ length self.old }
        ensures begun { (nodes : List Node) (r : Reading) → length self.old ≡ length nodes → IsFor nodes r self.new }
    {
        let stamp = fresh_stamp(&mut self.marks, &mut self.clock, 0, LAST_STAMP);
        self.stamp = stamp;
    }

    // The value of a term. What is not known yet is computed and kept.
    pub(crate) fn number(&mut self, terms: &Terms, v: &Valuation, t: TermId) -> u64
        requires term { t < length terms.now }
        requires room { IsFor terms.now (reading_of v.now) self.old }
        ensures value { result ≡ value terms.now t (reading_of v.now) }
        ensures room { IsFor terms.now (reading_of v.now) self.new }
    {
        // For the proof: the list has fewer than 2^63 nodes.
        let _len = terms.len();
        let scope = Scope::new();
        let context = Context {
            terms,
            v,
            scope: &scope,
            stamp: self.stamp,
        };
        known_or_computed(
            &context,
            t.place(),
            &mut self.values,
            &mut self.marks,
            &mut self.clock,
        )
    }
}

// The value of a term among numbers that are known where their mark is the stamp.
fn known_or_computed(
    context: &Context<'_>,
    t: u64,
    values: &mut [u64],
    marks: &mut [u64],
    clock: &mut u64,
) -> u64
    requires term { t < length context.now.terms.now }
    requires small { length context.now.terms.now < 2 ^ 63 }
    requires size { length marks.old ≡ length context.now.terms.now }
    requires room { IsRoom context.now.stamp clock.old values.old marks.old }
    requires known { Known context.now.terms.now (scoped (reading_of context.now.v.now) context.now.scope.now) context.now.stamp values.old marks.old }
    ensures value { result ≡ value context.now.terms.now t (scoped (reading_of context.now.v.now) context.now.scope.now) }
    ensures room { IsRoom context.now.stamp clock.new values.new marks.new }
    ensures known { Known context.now.terms.now (scoped (reading_of context.now.v.now) context.now.scope.now) context.now.stamp values.new marks.new }
{
    if marks[t as usize] == context.stamp {
        values[t as usize]
    } else {
        compute(context, t, values, marks, clock)
    }
}
