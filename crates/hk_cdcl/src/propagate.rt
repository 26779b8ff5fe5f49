//! Unit propagation: its contract, and its first implementation, by full scans.

ghost use Rattle.std.specs.Prelude.{◌≡◌, ◌↔◌, List, take, ℤ, IfSome, IsNone, OnOk, OnErr};
ghost use Rattle.hk_cnf.specs.Literal.{has};
ghost use Rattle.hk_cdcl.specs.Fresh.{AreQuiet};
ghost use Rattle.hk_cdcl.specs.Path.{Extends};
ghost use Rattle.hk_cdcl.specs.Propagation.{HasSeen, IsConflict, Grown};

use crate::scan::scan;
use crate::trail::Trail;
use hk_cnf::ClauseList;
use std::alloc::AllocError;

/// Unit propagation over a growing clause list and a trail.
///
/// An implementation may keep state of its own over the clauses and over the part of the trail that it has seen.
pub trait Propagate {
    /// The state may serve these clauses, having seen these literals of the trail.
    ghost fits: { Self → List (List ℤ) → List ℤ → Type 0 };

    /// Makes room for the clauses that came since the last call. To be called with the first list, and after each
    /// growth of the list at its end.
    fn added(&mut self, clauses: &ClauseList) -> Result<(), AllocError>
        ensures grown { OnOk result ((old : List (List ℤ)) (seen : List ℤ) → fits self.old old seen → Grown old clauses.now.clauses → fits self.new clauses.now.clauses seen) }
        ensures kept { OnErr result ((old : List (List ℤ)) (seen : List ℤ) → fits self.old old seen → fits self.new old seen) };

    /// To be called after each shortening of the trail, with its new length. Takes no memory.
    fn cut(&mut self, length: u64)
        ensures { (clauses : List (List ℤ)) (seen : List ℤ) → fits self.old clauses seen → fits self.new clauses (take length seen) };

    /// Adds implied literals at the end of the trail until a clause is false or nothing is left to do. The list is that
    /// of the last `added`, and since the last call the trail was only shortened with `cut` or extended at its end.
    ///
    /// Answers the place of a clause all of whose literals are false, or None, exactly where afterwards every clause has
    /// a true literal or two that are not false. Takes no memory.
    fn propagate(&mut self, clauses: &ClauseList, trail: &mut Trail) -> Option<u64>
        requires vars { trail.old.vars ≡ clauses.now.vars }
        requires seen { HasSeen (fits self.old clauses.now.clauses) trail.old.lits }
        ensures extends { Extends clauses.now.clauses trail.old trail.new }
        ensures conflict { IfSome result (IsConflict clauses.now.clauses trail.new.lits) }
        ensures none { IsNone result ↔ AreQuiet (has trail.new.lits) clauses.now.clauses }
        ensures seen { fits self.new clauses.now.clauses trail.new.lits };
}

/// Unit propagation by full scans of the list, with no state.
#[derive(Drop)]
pub struct FullScan;

impl Propagate for FullScan {
    ghost fits = { λ _ _ _. Unit {0} };

    fn added(&mut self, _clauses: &ClauseList) -> Result<(), AllocError> {
        Ok(())
    }

    fn cut(&mut self, _length: u64) {}

    fn propagate(&mut self, clauses: &ClauseList, trail: &mut Trail) -> Option<u64> {
        scan(clauses, trail)
    }
}
