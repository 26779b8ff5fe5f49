//! The solver: clause lists that grow come in, answers with their evidence go out.

ghost use Rattle.std.specs.Prelude.{◌≡◌, ◌<◌, ◌≤◌, ◌^◌, ◌-◌, ◌↔◌, [], None, length, IfOk, IfSome, IsNone, OnOk, OnErr};
ghost use Rattle.hk_cnf.specs.Clauses.{IsUnsatisfiable};
ghost use Rattle.hk_cnf.specs.Literal.{has};
ghost use Rattle.hk_lrat.specs.Log.{log_fault};
ghost use Rattle.hk_lrat.specs.Raised.{raised, IsLonger};
ghost use Rattle.hk_lrat.specs.Refutes.{Refutes};
ghost use Rattle.hk_cdcl.specs.Ends.{IfSat, IfUnsat, IfSpent};
ghost use Rattle.hk_cdcl.specs.Fresh.{AreQuiet, IsSpent};
ghost use Rattle.hk_cdcl.specs.Path.{Extends};
ghost use Rattle.hk_cdcl.specs.Propagation.{HasSeen, IsConflict};
ghost use Rattle.hk_cdcl.specs.Solved.{Satisfies};

use hk_cdcl::{Propagate, SolveEnd, Solver, Trail};
use hk_cnf::{Assignment, ClauseList};
use hk_lrat::LratLog;
use std::alloc::{AllocError, Global};

/// What a list comes to, within a budget of learned clauses.
pub fn solve(alloc: Global, list: &ClauseList, budget: u64) -> Result<SolveEnd, AllocError>
    requires { 1 ≤ budget }
    ensures satisfies { IfOk result (IfSat (Satisfies list.now)) }
    ensures refutes { IfOk result (IfUnsat (Refutes list.now)) }
    ensures accepted { IfOk result (IfUnsat (λ log. log_fault list.now log ≡ None)) }
    ensures unsatisfiable { IfOk result (IfUnsat (λ _. IsUnsatisfiable list.now)) }
    ensures spent { IfOk result (IfSpent (λ log. IsSpent list.now log budget)) }
    ensures count { IfOk result (IfSpent (λ log. length log ≡ budget)) }
    ensures decided { 3 ^ list.now.vars < budget → IfOk result (IfSpent (λ _. ⊥)) }
{
    hk_cdcl::solve(alloc, list, budget)
}

/// A solver before its first call over a list.
pub fn begin(alloc: Global, list: &ClauseList) -> Result<Solver, AllocError>
    ensures { IfOk result (λ s. s ≡ record { list = list.now; log = [] }) }
{
    Solver::new(alloc, list)
}

/// A solver that goes on with a longer list, and keeps what it learned.
pub fn grow(alloc: Global, solver: &mut Solver, list: &ClauseList) -> Result<(), AllocError>
    requires { IsLonger solver.old.list list.now (length list.now.clauses - length solver.old.list.clauses) }
    ensures list { OnOk result (solver.new.list ≡ list.now) }
    ensures log { OnOk result (solver.new.log ≡ raised (length solver.old.list.clauses) (length list.now.clauses - length solver.old.list.clauses) solver.old.log) }
    ensures unchanged { OnErr result (solver.new ≡ solver.old) }
{
    let _ = alloc;
    solver.grow(list)
}

/// Unit propagation to its end, by any implementation.
pub fn propagate<P: Propagate>(
    state: &mut P,
    clauses: &ClauseList,
    trail: &mut Trail,
) -> Option<u64>
    requires vars { trail.old.vars ≡ clauses.now.vars }
    requires seen { HasSeen (P.fits state.old clauses.now.clauses) trail.old.lits }
    ensures extends { Extends clauses.now.clauses trail.old trail.new }
    ensures conflict { IfSome result (IsConflict clauses.now.clauses trail.new.lits) }
    ensures none { IsNone result ↔ AreQuiet (has trail.new.lits) clauses.now.clauses }
{
    state.propagate(clauses, trail)
}
