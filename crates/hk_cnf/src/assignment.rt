//! Assignments, and whether one satisfies a clause list.

ghost use Rattle.std.specs.Prelude.{◌≡◌, ℕ, ◌<◌, length, All};
ghost use Rattle.hk_cnf.specs.Literal.{IsWithin, value_at};
ghost use Rattle.hk_cnf.specs.Clauses.{clause_value, clauses_value};

use crate::clauses::ClauseList;
use crate::literal::Lit;
use std::marker::Model;

/// A truth value for each variable, in the order of their numbers.
#[derive(Drop, Debug)]
pub struct Assignment {
    values: Vec<bool>,
}

impl Model for Assignment {
    ghost use Rattle.std.specs.Prelude.{List, Bool};

    ghost Value = { List Bool };

    ghost view = { λ a. a.values.items };
}

impl Assignment {
    /// The assignment with these values.
    pub fn new(values: Vec<bool>) -> Assignment
        ensures { result ≡ values.items }
    {
        Assignment { values }
    }

    /// The values, with no copy.
    pub fn into_values(self) -> Vec<bool>
        ensures { result.items ≡ self }
    {
        let Assignment { values } = self;
        values
    }

    /// The values.
    pub fn as_slice(&self) -> &[bool]
        ensures { result.now ≡ self.now }
    {
        self.values.as_slice()
    }
}

/// What the values make of a literal.
fn value(values: &[bool], lit: Lit) -> bool
    requires { IsWithin (length values.now) lit }
    ensures { result ≡ value_at values.now lit }
{
    values[lit.place() as usize] != lit.is_negation()
}

/// Whether the values make one of the literals true.
fn is_satisfied(values: &[bool], clause: &[Lit]) -> bool
    requires { All (IsWithin (length values.now)) clause.now }
    ensures { result ≡ clause_value values.now clause.now }
{
    for lit in clause {
        if value(values, *lit) {
            return true;
        }
    }
    false
}

/// Whether the assignment makes a literal of each clause true.
pub fn satisfies(list: &ClauseList, a: &Assignment) -> bool
    requires { length a.now ≡ list.now.vars }
    ensures { result ≡ clauses_value a.now list.now.clauses }
{
    let values = a.as_slice();
    for i in 0..list.len() {
        if !is_satisfied(values, list.clause(i)) {
            return false;
        }
    }
    true
}
