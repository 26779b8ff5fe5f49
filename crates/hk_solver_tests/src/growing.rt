//! A solver that lives on while its list grows.

ghost use Rattle.std.specs.Prelude.{◌≡◌, ◌≤◌, length, OnOk, All};
ghost use Rattle.hk_cnf.specs.Literal.{IsWithin};

use crate::answers::checked;
use hk_cdcl::Solver;
use hk_cnf::{ClauseList, Lit};
use std::alloc::{AllocError, Global};

/// A clause more at the end of the list, and of that of the solver.
fn grow_by(solver: &mut Solver, list: &mut ClauseList, clause: &[Lit]) -> Result<(), AllocError>
    requires held { solver.old.list ≡ list.old }
    requires within { All (IsWithin list.old.vars) clause.now }
    ensures held { OnOk result (solver.new.list ≡ list.new) }
    ensures vars { OnOk result (list.new.vars ≡ list.old.vars) }
{
    list.push(clause)?;
    solver.grow(list)
}

/// The clauses of another list up to a place at the end of both.
fn grow_to(
    solver: &mut Solver,
    list: &mut ClauseList,
    whole: &ClauseList,
    to: usize,
) -> Result<(), AllocError>
    requires held { solver.old.list ≡ list.old }
    requires vars { list.old.vars ≡ whole.now.vars }
    requires inside { to ≤ length whole.now.clauses }
    ensures held { OnOk result (solver.new.list ≡ list.new) }
    ensures vars { OnOk result (list.new.vars ≡ whole.now.vars) }
{
    for i in list.len()..to {
        grow_by(solver, list, whole.clause(i))?;
    }
    Ok(())
}

/// One round: the lists grow up to a place of another, and the answer within the budget is told.
fn go_on(
    alloc: Global,
    solver: &mut Solver,
    list: &mut ClauseList,
    whole: &ClauseList,
    to: usize,
    budget: u64,
) -> Result<String, AllocError>
    requires budget { 1 ≤ budget }
    requires held { solver.old.list ≡ list.old }
    requires vars { list.old.vars ≡ whole.now.vars }
    requires inside { to ≤ length whole.now.clauses }
    ensures held { OnOk result (solver.new.list ≡ list.new) }
    ensures vars { OnOk result (list.new.vars ≡ whole.now.vars) }
{
    grow_to(solver, list, whole, to)?;
    let end = solver.solve(alloc, budget)?;
    let told = checked(alloc, list, &end)?;
    Ok(told)
}

/// What a solver comes to over the first clauses of a list, then over some more, both with the budget, and then over all.
fn in_three(
    alloc: Global,
    solver: &mut Solver,
    list: &mut ClauseList,
    whole: &ClauseList,
    parts: (usize, usize),
    budget: u64,
) -> Result<String, AllocError>
    requires budget { 1 ≤ budget }
    requires held { solver.old.list ≡ list.old }
    requires vars { list.old.vars ≡ whole.now.vars }
    requires first { parts.0 ≤ length whole.now.clauses }
    requires second { parts.1 ≤ length whole.now.clauses }
{
    let mut told = go_on(alloc, solver, list, whole, parts.0, budget)?;
    let two = go_on(alloc, solver, list, whole, parts.1, budget)?;
    let three = go_on(alloc, solver, list, whole, whole.len(), 1_000_000)?;
    write!(told, ", {two}, {three}")?;
    Ok(told)
}

/// The same with a new solver, where the list has so many clauses.
pub(crate) fn rounds(
    alloc: Global,
    whole: &ClauseList,
    parts: (usize, usize),
    budget: u64,
) -> Result<String, AllocError>
    requires { 1 ≤ budget }
{
    if whole.len() < parts.1 || parts.1 < parts.0 {
        return String::from_str(alloc, "not so many");
    }
    let mut list = ClauseList::new(alloc, whole.vars());
    let mut solver = Solver::new(alloc, &list)?;
    let told = in_three(alloc, &mut solver, &mut list, whole, parts, budget);
    drop(solver);
    told
}
