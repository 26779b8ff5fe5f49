//! Whether each variable and each array is read at one width.

ghost use Rattle.std.specs.Prelude.{◌≡◌, ◌≢◌, ◌<◌, ◌↔◌, ◌+◌, ℕ, true, false, nat_eq, if◌then◌else◌, IsTrue, length, IfOk, OnErr};
ghost use Rattle.hk_term.specs.Shape.{width};
ghost use Rattle.hk_term.specs.Tables.{number_at};
ghost use Rattle.hk_inst.specs.Growing.{IsGoal};
ghost use Rattle.hk_oblig.specs.Uniform.{IsUniform, AreWidths, IsVarAt, IsReadAt, Goes};

use hk_term::{Node, NumberTable, TermId, Terms};
use std::alloc::{AllocError, Global};

// Puts the width at which a name is read into a table of widths, and tells whether it is the one that the table had, if any.
fn agrees(table: &mut NumberTable, name: u32, size: u32) -> Result<bool, AllocError>
    requires { 0 < size }
    ensures same { IfOk result (λ b. b ≡ true → (k : ℕ) → number_at table.new k ≡ (if nat_eq k name then size else number_at table.old k)) }
    ensures kept { IfOk result (λ b. b ≡ true → number_at table.old name ≢ 0 → number_at table.old name ≡ size) }
    ensures other { IfOk result (λ b. b ≡ false → number_at table.old name ≢ 0) }
    ensures apart { IfOk result (λ b. b ≡ false → number_at table.old name ≢ size) }
{
    let had = table.get(name);
    if had == 0 {
        table.set(name, u64::from(size))?;
        return Ok(true);
    }
    Ok(had == u64::from(size))
}

// Takes the node at a place into the tables.
fn takes(
    terms: &Terms,
    place: u64,
    variables: &mut NumberTable,
    arrays: &mut NumberTable,
) -> Result<bool, AllocError>
    requires there { place < length terms.now }
    requires tables { Goes terms.now place variables.old arrays.old true }
    ensures { IfOk result (λ b. Goes terms.now (place + 1) variables.new arrays.new b) }
{
    match terms.node(TermId::at(place)) {
        Node::Var { width, id } => {
            let fine = agrees(variables, *id, *width)?;
            Ok(fine)
        }
        Node::Select { array, width, .. } => {
            let fine = agrees(arrays, *array, *width)?;
            Ok(fine)
        }
        Node::Const { .. } => Ok(true),
        Node::Unary { .. } => Ok(true),
        Node::Binary { .. } => Ok(true),
        Node::Choose { .. } => Ok(true),
        Node::Resize { .. } => Ok(true),
        Node::ForAll { .. } => Ok(true),
    }
}

/// Whether all variables of one id in a list of terms have one width, and all reads of one array have one width. Where it is so, every
/// truth value of the list may be the goal of a question. Each node is looked at once.
pub fn is_uniform(alloc: Global, terms: &Terms) -> Result<bool, AllocError>
    ensures uniform { IfOk result (λ b. IsTrue b ↔ IsUniform terms.now) }
    ensures goals { IfOk result (λ b. IsTrue b → (goal : ℕ) → width terms.now goal ≡ 1 → IsGoal terms.now goal) }
{
    let mut variables = NumberTable::new(alloc);
    let mut arrays = NumberTable::new(alloc);
    'each: for place in 0..terms.len() {
        let goes = takes(terms, place, &mut variables, &mut arrays)?;
        if !goes {
            return Ok(false);
        }
    }
    Ok(true)
}
