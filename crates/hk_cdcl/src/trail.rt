//! The trail: the literals that are true, in the order in which they became so.

ghost use Rattle.std.specs.Prelude.{◌≡◌, ◌==◌, ℕ, ◌-◌, ◌<◌, ◌≤◌, ◌^◌, [], false, length, neg_ℤ, slice_index, IfOk, IsTrue, MatchOption};
ghost use Rattle.hk_cnf.specs.Literal.{IsWithin, place_of, has};
ghost use Rattle.hk_cdcl.specs.Records.{lit_of};
ghost use Rattle.hk_cdcl.specs.Path.{IsPath, with_step, cut_at, lit_at, is_set, AreSet, IsUnset, AreTruths};

use hk_cnf::Lit;
use std::alloc::{AllocError, Global};
use std::marker::Model;

/// The literals that are true, in order, each with the id of the clause that made it so: the clause's place in its
/// list, counted from 1, or 0 for a decision. Room for all variables is there from the start.
#[derive(Drop)]
pub struct Trail {
    vars: u64,
    lits: Vec<Lit>,
    reasons: Vec<u64>,
    values: Vec<bool>,
    places: Vec<usize>,
}

impl Model for Trail {
    ghost use Rattle.hk_cdcl.specs.Path.{Path};

    ghost Value = { Path };

    ghost use Rattle.hk_cdcl.specs.Kept.{view_of, IsTrail};

    ghost view = { view_of };

    ghost invariant = { IsTrail };
}

impl Trail {
    /// The trail of so many variables on which none is set.
    pub fn new(alloc: Global, vars: u64) -> Result<Trail, AllocError>
        requires { vars < 2 ^ 63 }
        ensures { IfOk result (λ t. t ≡ record { vars = vars; lits = []; reasons = [] }) }
    {
        let mut lits = Vec::new(alloc);
        lits.reserve(vars as usize)?;
        let mut reasons = Vec::new(alloc);
        reasons.reserve(vars as usize)?;
        let values = vec![in alloc; false; 2 * vars as usize]?;
        let places = vec![in alloc; 0; vars as usize]?;
        Ok(Trail {
            vars,
            lits,
            reasons,
            values,
            places,
        })
    }

    /// The number of variables.
    pub fn vars(&self) -> u64
        ensures { result ≡ self.now.vars }
    {
        self.vars
    }

    /// The number of literals that are true.
    pub fn len(&self) -> usize
        ensures value { result ≡ length self.now.lits }
        ensures path { IsPath self.now }
    {
        self.lits.len()
    }

    /// Whether no literal is true.
    pub fn is_empty(&self) -> bool
        ensures { result ≡ (length self.now.lits == 0) }
    {
        self.lits.is_empty()
    }

    /// Whether the literal is true.
    pub fn holds(&self, lit: Lit) -> bool
        requires { IsWithin self.now.vars lit }
        ensures { result ≡ has self.now.lits lit }
    {
        self.values[lit.code() as usize]
    }

    /// Whether the literal with this code is true.
    pub fn holds_code(&self, code: u32) -> bool
        requires { IsWithin self.now.vars (lit_of code) }
        ensures { result ≡ has self.now.lits (lit_of code) }
    {
        self.values[code as usize]
    }

    /// Whether the literal with this code is false.
    pub fn is_false(&self, code: u32) -> bool
        requires { IsWithin self.now.vars (lit_of code) }
        ensures { result ≡ has self.now.lits (neg_ℤ (lit_of code)) }
    {
        self.values[code as usize + 1 - 2 * (code as usize % 2)]
    }

    /// The literal at this place.
    pub fn lit(&self, place: usize) -> Lit
        requires { place < length self.now.lits }
        ensures { result ≡ lit_at self.now.lits place }
    {
        self.lits[place]
    }

    /// The id of the clause that made the literal at this place true, or 0 for a decision.
    pub fn reason(&self, place: usize) -> u64
        requires { place < length self.now.lits }
        ensures { result ≡ slice_index self.now.reasons place }
    {
        self.reasons[place]
    }

    /// The place at which the literal's variable was set.
    pub fn place(&self, lit: Lit) -> usize
        requires { IsWithin self.now.vars lit }
        ensures { (n : ℕ) → n < length self.now.lits → place_of (lit_at self.now.lits n) ≡ place_of lit → result ≡ n }
    {
        self.places[lit.place() as usize]
    }

    /// Makes an unset literal true. Takes no memory.
    pub fn push(&mut self, lit: Lit, reason: u64)
        requires within { IsWithin self.old.vars lit }
        requires not_true { has self.old.lits lit ≡ false }
        requires not_false { has self.old.lits (neg_ℤ lit) ≡ false }
        ensures { self.new ≡ with_step self.old lit reason }
    {
        let place = self.lits.len();
        self.values[lit.code() as usize] = true;
        self.places[lit.place() as usize] = place;
        self.lits.push_reserved(lit);
        self.reasons.push_reserved(reason);
    }

    /// Unsets the last literal.
    fn pop(&mut self)
        requires { 0 < length self.old.lits }
        ensures { self.new ≡ cut_at self.old (length self.old.lits - 1) }
    {
        let last = self.lits.len() - 1;
        let lit = self.lits[last];
        self.values[lit.code() as usize] = false;
        self.lits.truncate(last);
        self.reasons.truncate(last);
    }

    /// Unsets all but the first literals. Takes no memory.
    pub fn cut(&mut self, kept: usize)
        requires { kept ≤ length self.old.lits }
        ensures { self.new ≡ cut_at self.old kept }
    {
        let mut len = self.len();
        while kept < len {
            self.pop();
            len -= 1;
        }
    }

    /// Whether the variable at this place is set.
    fn is_set(&self, place: u64) -> bool
        requires { place < self.now.vars }
        ensures { result ≡ is_set self.now.lits place }
    {
        // For the proof: the trail's invariant, by which there are fewer than 2^63 variables.
        let _few = self.vars;
        let lit = Lit::of_place(place);
        self.holds(lit) || self.holds(lit.negated())
    }

    /// Whether the variable at this place is one of the trail's and not set.
    pub fn is_unset(&self, place: u64) -> bool
        ensures { IsTrue result → IsUnset self.now.lits self.now.vars place }
    {
        place < self.vars && !self.is_set(place)
    }

    /// The place of a variable that is not set: the first one.
    pub fn first_unset(&self) -> Option<u64>
        ensures { MatchOption result (AreSet self.now.lits self.now.vars) (IsUnset self.now.lits self.now.vars) }
    {
        for place in 0..self.vars {
            if !self.is_set(place) {
                return Some(place);
            }
        }
        None
    }

    /// A truth value for each variable: true where it is true on the trail.
    pub fn values(&self, alloc: Global) -> Result<Vec<bool>, AllocError>
        ensures { IfOk result (λ values. AreTruths self.now.lits self.now.vars values.items) }
    {
        let mut values = Vec::new(alloc);
        for place in 0..self.vars {
            values.push(self.holds(Lit::of_place(place)))?;
        }
        Ok(values)
    }
}
