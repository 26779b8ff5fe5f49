//! A gate at the end of a clause list: its variable, its clauses, and its entry among the gates.

ghost use Rattle.std.specs.Prelude.{◌≡◌, ◌+◌, ◌<◌, ◌≤◌, ◌^◌, ◌++◌, ◌∷◌, [], length, take, OnOk, OnErr, IfOk, All};
ghost use Rattle.std.specs.Map.{lookup};
ghost use Rattle.hk_cnf.specs.Literal.{IsWithin};
ghost use Rattle.hk_cnf.specs.Circuit.{AreOperands, operation_clauses, same_operation, variable, literal_of};

use crate::clauses::ClauseList;
use crate::direct::Direct;
use crate::literal::Lit;
use crate::operation::{Operation, Placed};
use indexmap::IndexMap;
use std::alloc::AllocError;

/// Adds the clauses that make a literal the conjunction of two.
/// Without memory some of them may stand at the end.
fn push_and(list: &mut ClauseList, output: Lit, a: Lit, b: Lit) -> Result<(), AllocError>
    requires output { IsWithin list.old.vars output }
    requires first { IsWithin list.old.vars a }
    requires second { IsWithin list.old.vars b }
    ensures vars { list.new.vars ≡ list.old.vars }
    ensures front { take (length list.old.clauses) list.new.clauses ≡ list.old.clauses }
    ensures longer { length list.old.clauses ≤ length list.new.clauses }
    ensures ok { OnOk result (list.new.clauses ≡ list.old.clauses ++ operation_clauses output (Operation.And a b)) }
{
    list.push(&[output.negated(), a])?;
    list.push(&[output.negated(), b])?;
    list.push(&[output, a.negated(), b.negated()])?;
    Ok(())
}

/// Adds the clauses that make a literal the operation's value.
/// Without memory some of them may stand at the end.
fn push_operation(list: &mut ClauseList, output: Lit, op: Operation) -> Result<(), AllocError>
    requires output { IsWithin list.old.vars output }
    requires operands { AreOperands list.old.vars op }
    ensures vars { list.new.vars ≡ list.old.vars }
    ensures front { take (length list.old.clauses) list.new.clauses ≡ list.old.clauses }
    ensures longer { length list.old.clauses ≤ length list.new.clauses }
    ensures ok { OnOk result (list.new.clauses ≡ list.old.clauses ++ operation_clauses output op) }
{
    match op {
        Operation::True => list.push(&[output]),
        Operation::And(a, b) => push_and(list, output, Lit::new(a), Lit::new(b)),
    }
}

/// The literal of the gate that computes this operation, where there is one.
pub fn find(gates: &IndexMap<Operation, Placed, Direct>, op: Operation) -> Option<Lit>
    requires { All (λ g. g.1.output + 1 < 2 ^ 63) gates.now.entries }
    ensures { result ≡ literal_of gates.now.entries op }
{
    match gates.get(&op) {
        Some(placed) => Some(Lit::of_place(placed.output)),
        None => None,
    }
}

/// Adds a variable, the clauses that make it the operation's value, and the gate. Without memory variables and
/// clauses may stand at the end.
fn try_add(
    list: &mut ClauseList,
    gates: &mut IndexMap<Operation, Placed, Direct>,
    op: Operation,
) -> Result<Lit, AllocError>
    requires few { list.old.vars + 1 < 2 ^ 63 }
    requires operands { AreOperands list.old.vars op }
    requires absent { lookup (same_operation op) gates.old.entries ≡ None }
    ensures vars { list.new.vars ≡ list.old.vars + 1 }
    ensures front { take (length list.old.clauses) list.new.clauses ≡ list.old.clauses }
    ensures longer { length list.old.clauses ≤ length list.new.clauses }
    ensures literal { IfOk result (λ l. l ≡ variable list.old.vars) }
    ensures clauses { OnOk result (list.new.clauses ≡ list.old.clauses ++ operation_clauses (variable list.old.vars) op) }
    ensures gates { OnOk result (gates.new.entries ≡ gates.old.entries ++ (op, record { output = list.old.vars; clause = length list.old.clauses }) ∷ []) }
    ensures err { OnErr result (gates.new.entries ≡ gates.old.entries) }
{
    let output = list.vars();
    let clause = list.len() as u64;
    list.widen(output + 1);
    let lit = Lit::of_place(output);
    push_operation(list, lit, op)?;
    gates.insert(op, Placed { output, clause })?;
    Ok(lit)
}

/// The number of variables that a clause list can have.
pub const MOST_VARS: u64 = (1 << 63) - 1;

/// Adds a gate for an operation that has none. Without memory, and where all variables are used up, all is as before.
pub fn add(
    list: &mut ClauseList,
    gates: &mut IndexMap<Operation, Placed, Direct>,
    op: Operation,
) -> Result<Lit, AllocError>
    requires operands { AreOperands list.old.vars op }
    requires absent { lookup (same_operation op) gates.old.entries ≡ None }
    ensures few { OnOk result (list.old.vars + 1 < 2 ^ 63) }
    ensures literal { IfOk result (λ l. l ≡ variable list.old.vars) }
    ensures vars { OnOk result (list.new.vars ≡ list.old.vars + 1) }
    ensures clauses { OnOk result (list.new.clauses ≡ list.old.clauses ++ operation_clauses (variable list.old.vars) op) }
    ensures gates { OnOk result (gates.new.entries ≡ gates.old.entries ++ (op, record { output = list.old.vars; clause = length list.old.clauses }) ∷ []) }
    ensures err_list { OnErr result (list.new ≡ list.old) }
    ensures err_gates { OnErr result (gates.new.entries ≡ gates.old.entries) }
{
    let vars = list.vars();
    let clauses = list.len();
    if vars >= MOST_VARS {
        return Err(AllocError);
    }
    match try_add(list, gates, op) {
        Ok(lit) => Ok(lit),
        Err(error) => {
            list.cut(vars, clauses);
            Err(error)
        }
    }
}
