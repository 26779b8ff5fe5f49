//! Full scans: rounds over all clauses, until a round changes nothing.

ghost use Rattle.std.specs.Prelude.{◌≡◌, ◌+◌, ◌^◌, ◌<◌, length, IfSome, IfNone, IsTrue, IsFalse};
ghost use Rattle.std.specs.List.{All};
ghost use Rattle.hk_cnf.specs.Literal.{IsWithin, has};
ghost use Rattle.hk_cnf.specs.Hint.{with_literal, hint_of};
ghost use Rattle.hk_cdcl.specs.Fresh.{AreQuiet};
ghost use Rattle.hk_cdcl.specs.Path.{Extends};
ghost use Rattle.hk_cdcl.specs.Propagation.{IsConflict, Rested};

use crate::trail::Trail;
use hk_cnf::{ClauseList, Hint, Lit};

/// The hint with one literal more.
fn with(trail: &Trail, hint: Hint, lit: Lit) -> Hint
    requires { IsWithin trail.now.vars lit }
    ensures { result ≡ with_literal (has trail.now.lits) hint lit }
{
    if trail.holds(lit.negated()) {
        return hint;
    }
    match hint {
        Hint::False => {
            if trail.holds(lit) {
                Hint::Other
            } else {
                Hint::Unit(lit)
            }
        }
        Hint::Unit(unit) => { if unit == lit { hint } else { Hint::Other } }
        Hint::Other => Hint::Other,
    }
}

/// What the clause says under the trail.
pub fn hint_at(trail: &Trail, clause: &[Lit]) -> Hint
    requires { All (IsWithin trail.now.vars) clause.now }
    ensures { result ≡ hint_of (has trail.now.lits) clause.now }
{
    let mut hint = Hint::False;
    for lit in clause {
        hint = with(trail, hint, *lit);
    }
    hint
}

/// Looks at one clause: makes its last literal true where it is unit, and answers whether it is false.
fn visit(clauses: &ClauseList, place: usize, trail: &mut Trail) -> bool
    requires inside { place < length clauses.now.clauses }
    requires fits { place + 1 < 2 ^ 64 }
    requires vars { trail.old.vars ≡ clauses.now.vars }
    ensures extends { Extends clauses.now.clauses trail.old trail.new }
    ensures conflict { IsTrue result → IsConflict clauses.now.clauses trail.new.lits place }
    ensures quiet { IsFalse result → Rested clauses.now.clauses trail.old.lits trail.new.lits place }
{
    let clause = clauses.clause(place);
    match hint_at(trail, clause) {
        Hint::False => true,
        Hint::Unit(lit) => {
            trail.push(lit, place as u64 + 1);
            false
        }
        Hint::Other => false,
    }
}

/// Looks at each clause once, and answers the place of a false one.
fn round(clauses: &ClauseList, trail: &mut Trail) -> Option<u64>
    requires { trail.old.vars ≡ clauses.now.vars }
    ensures extends { Extends clauses.now.clauses trail.old trail.new }
    ensures conflict { IfSome result (IsConflict clauses.now.clauses trail.new.lits) }
    ensures quiet { IfNone result (length trail.new.lits ≡ length trail.old.lits → AreQuiet (has trail.new.lits) clauses.now.clauses) }
{
    for place in 0..clauses.len() {
        if visit(clauses, place, trail) {
            return Some(place as u64);
        }
    }
    None
}

/// Makes implied literals true, round by round, until a clause is false or a round changes nothing.
pub fn scan(clauses: &ClauseList, trail: &mut Trail) -> Option<u64>
    requires { trail.old.vars ≡ clauses.now.vars }
    ensures extends { Extends clauses.now.clauses trail.old trail.new }
    ensures conflict { IfSome result (IsConflict clauses.now.clauses trail.new.lits) }
    ensures quiet { IfNone result (AreQuiet (has trail.new.lits) clauses.now.clauses) }
{
    'rounds: loop {
        let before = trail.len();
        if let Some(place) = round(clauses, trail) {
            return Some(place);
        }
        if trail.len() == before {
            return None;
        }
    }
}
