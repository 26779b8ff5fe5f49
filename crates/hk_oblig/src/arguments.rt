//! The arguments of a handler as variables.

ghost use Rattle.std.specs.Prelude.{◌≡◌, ◌≤◌, ◌%◌, ◌^◌, ℕ, All, length, IfOk};
ghost use Rattle.hk_term.specs.Meaning.{Reading, value};
ghost use Rattle.spec_tree.specs.Sorted.{IsWidth};
ghost use Rattle.hk_symvalue.specs.Growth.{Extends};
ghost use Rattle.hk_symvalue.specs.Meaning.{IsWord};
ghost use Rattle.hk_symspec.specs.Steps.{AreArgumentTerms};
ghost use Rattle.hk_oblig.specs.Cases.{arguments_at};
ghost use Rattle.hk_oblig.specs.Under.{AreNumbersAt};

use hk_seq::Seq;
use hk_symspec::FORMULA_BASE;
use hk_term::{Node, TermId, Terms};
use std::alloc::{AllocError, Global};

// A variable.
fn variable(t: &mut Terms, id: u32, width: u32) -> Result<TermId, AllocError>
    requires { IsWidth width }
    ensures frame { Extends t.old t.new }
    ensures word { IfOk result (λ r. IsWord t.new width r) }
    ensures value { IfOk result (λ r. (v : Reading) → value t.new r v ≡ v.var id % 2 ^ width) }
{
    let made = t.intern(Node::Var { width, id })?;
    Ok(made)
}

// A variable for each width, numbered in their order.
fn variables_of(alloc: Global, t: &mut Terms, widths: &[u32]) -> Result<Seq<TermId>, AllocError>
    requires widths { All IsWidth widths.now }
    requires few { length widths.now ≤ 65536 }
    ensures frame { Extends t.old t.new }
    ensures terms { IfOk result (λ r. AreArgumentTerms t.new widths.now r) }
    ensures numbers { IfOk result (λ r. (v : Reading) → AreNumbersAt t.new r v (arguments_at widths.now v.var)) }
{
    let mut terms = Vec::new(alloc);
    let mut id: u32 = 0;
    'each: for width in widths {
        let term = variable(t, id, *width)?;
        terms.push(term)?;
        id += 1;
    }
    Ok(Seq::from_vec(terms))
}

/// The arguments: argument k is the variable k. Where there are more than there are ids below those of formulas, it is want of memory.
pub(crate) fn argument_terms(
    alloc: Global,
    t: &mut Terms,
    widths: &[u32],
) -> Result<Seq<TermId>, AllocError>
    requires widths { All IsWidth widths.now }
    ensures frame { Extends t.old t.new }
    ensures terms { IfOk result (λ r. AreArgumentTerms t.new widths.now r) }
    ensures numbers { IfOk result (λ r. (v : Reading) → AreNumbersAt t.new r v (arguments_at widths.now v.var)) }
{
    if widths.len() > FORMULA_BASE as usize {
        return Err(AllocError);
    }
    let terms = variables_of(alloc, t, widths)?;
    Ok(terms)
}
