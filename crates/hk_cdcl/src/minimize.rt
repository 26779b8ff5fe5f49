//! Minimisation: which literals of a learned clause its other literals imply.

ghost use Rattle.std.specs.Prelude.{◌≡◌, ◌<◌, IsPermutation, length};
ghost use Rattle.std.specs.List.Sorted.{IsNonDecreasing};
ghost use Rattle.std.specs.List.{All, list_all};
ghost use Rattle.hk_cnf.specs.Literal.{IsWithin};
ghost use Rattle.hk_cdcl.specs.Analysis.{seen_at, is_redundant, AreNamed};

use crate::analyze::reason_of;
use crate::seen::Seen;
use crate::trail::Trail;
use hk_cnf::{ClauseList, Lit};

/// Whether the variables of all literals of the clause are marked.
fn are_seen(seen: &Seen, clause: &[Lit]) -> bool
    requires { All (IsWithin (length seen.now)) clause.now }
    ensures { result ≡ list_all (seen_at seen.now) clause.now }
{
    for lit in clause {
        if !seen.is_marked(lit.place()) {
            return false;
        }
    }
    true
}

/// Whether the literal at the place has a reason whose literals are all marked.
pub fn is_redundant(clauses: &ClauseList, trail: &Trail, seen: &Seen, place: usize) -> bool
    requires vars { trail.now.vars ≡ clauses.now.vars }
    requires each { length seen.now ≡ trail.now.vars }
    requires named { AreNamed clauses.now.clauses trail.now }
    requires inside { place < length trail.now.lits }
    ensures { result ≡ is_redundant clauses.now.clauses trail.now seen.now place }
{
    if trail.reason(place) == 0 {
        return false;
    }
    are_seen(seen, reason_of(clauses, trail, place))
}

/// Puts the places in order.
pub fn sort_places(places: &mut Vec<usize>)
    ensures rising { IsNonDecreasing places.new.items }
    ensures same { IsPermutation places.old.items places.new.items }
{
    places.sort_unstable();
}
