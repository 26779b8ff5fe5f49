//! Marks: which literals are true in the present row of the log.
//!
//! A literal's mark is the number of the row in which it was last true, so nothing is undone between rows.

ghost use Rattle.std.specs.Prelude.{◌≡◌, ℕ, ◌+◌, ◌*◌, ◌<◌, ◌≤◌, ◌^◌, ◌&&◌, not, length, slice_set};
ghost use Rattle.std.specs.Bool.{OnTrue};
ghost use Rattle.std.specs.List.{All, list_all};
ghost use Rattle.hk_cnf.specs.Literal.{IsWithin, code_of, denied};
ghost use Rattle.hk_cnf.specs.Hint.{with_literal, hint_of};
ghost use Rattle.hk_lrat.specs.Marks.{marked, Agree};
ghost use Rattle.hk_lrat.specs.Log.{is_within, has_both};

use hk_cnf::{Hint, Lit};

/// Whether the literal is true in this row.
fn is_marked(marks: &[u64], row: u64, lit: Lit) -> bool
    requires { code_of lit < length marks.now }
    ensures { result ≡ marked marks.now row lit }
{
    marks[lit.code() as usize] == row
}

/// Makes the literal true in this row.
pub fn mark(marks: &mut [u64], row: u64, lit: Lit)
    requires { code_of lit < length marks.old }
    ensures { marks.new ≡ slice_set marks.old (code_of lit) row }
{
    marks[lit.code() as usize] = row;
}

/// The hint with one literal more.
fn with(marks: &[u64], row: u64, hint: Hint, lit: Lit, vars: u64) -> Hint
    requires two_each { length marks.now ≡ 2 * vars }
    requires within { IsWithin vars lit }
    ensures { result ≡ with_literal (marked marks.now row) hint lit }
{
    if is_marked(marks, row, lit.negated()) {
        return hint;
    }
    match hint {
        Hint::False => {
            if is_marked(marks, row, lit) {
                Hint::Other
            } else {
                Hint::Unit(lit)
            }
        }
        Hint::Unit(unit) => { if unit == lit { hint } else { Hint::Other } }
        Hint::Other => Hint::Other,
    }
}

/// What the clause says while the marked literals are true.
pub fn hint_at(marks: &[u64], row: u64, clause: &[Lit], vars: u64) -> Hint
    requires two_each { length marks.now ≡ 2 * vars }
    requires within { All (IsWithin vars) clause.now }
    ensures { result ≡ hint_of (marked marks.now row) clause.now }
{
    let mut hint = Hint::False;
    for lit in clause {
        hint = with(marks, row, hint, *lit, vars);
    }
    hint
}

/// Begins a row in which no literal is true, and gives its number.
pub fn next_row(marks: &mut [u64], row: u64) -> u64
    requires { All (λ m. m ≤ row) marks.old }
    ensures fresh { All (λ m. m < result) marks.new }
    ensures same { length marks.new ≡ length marks.old }
{
    if row < u64::MAX {
        return row + 1;
    }
    marks.fill(0);
    1
}

/// Makes the negation of each literal of the clause true, or answers that a literal is outside the variables or
/// stands together with its negation.
pub fn deny(vars: u64, marks: &mut [u64], row: u64, clause: &[Lit]) -> bool
    requires two_each { length marks.old ≡ 2 * vars }
    requires fresh { All (λ m. m < row) marks.old }
    ensures answer { result ≡ (list_all (is_within vars) clause.now && not (has_both clause.now)) }
    ensures denied { OnTrue result (Agree vars (marked marks.new row) (denied clause.now)) }
    ensures kept { All (λ m. m ≤ row) marks.new }
{
    for lit in clause {
        if lit.place() >= vars || is_marked(marks, row, *lit) {
            return false;
        }
        mark(marks, row, lit.negated());
    }
    true
}
