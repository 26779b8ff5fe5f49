//! Goals that rows write: truth values in which all variables and entries have 8 bits.

ghost use Rattle.std.specs.Prelude.{◌≡◌, ◌<◌, ℕ, true, length, IfOk, IfSome, IsTrue};
ghost use Rattle.hk_term.specs.Shape.{width};
ghost use Rattle.hk_term.specs.declared.node.Node.{Node};
ghost use Rattle.hk_copy.specs.Reach.{AllPass, passes};
ghost use Rattle.hk_inst.specs.Growing.{IsGoal};
ghost use Rattle.hk_settle_tests.specs.Eights.{eights};

use hk_inst::Question;
use hk_term::{Node, TermId, Terms};
use hk_term_rows::{Making, term_of};
use std::alloc::{AllocError, Global};

/// Whether a node has 8 bits where it is a variable or an entry.
fn is_eight(node: &Node) -> bool
    ensures { result ≡ passes eights node.now }
{
    match node {
        Node::Var { width, .. } => *width == 8,
        Node::Select { width, .. } => *width == 8,
        _ => true,
    }
}

/// Whether all variables and entries of a list have 8 bits.
fn are_eight(terms: &Terms) -> bool
    ensures { IsTrue result → AllPass eights terms.now }
{
    'nodes: for place in 0..terms.len() {
        if !is_eight(terms.node(TermId::at(place))) {
            return false;
        }
    }
    true
}

/// Whether a term may be asked about.
#[tactic(auto, using(crate::proofs::TestedGoals::eights_goal))]
fn is_goal(terms: &Terms, t: TermId) -> bool
    ensures there { IsTrue result → t < length terms.now }
    ensures goal { IsTrue result → IsGoal terms.now t }
{
    t.place() < terms.len() && terms.width(t) == 1 && are_eight(terms)
}

/// The question of a goal that a text writes.
pub fn question_of(alloc: Global, text: &str) -> Result<Option<Question>, AllocError> {
    let mut terms = Terms::new(alloc);
    match term_of(alloc, &mut terms, Making::Simplified, text)? {
        Some(t) if is_goal(&terms, t) => Ok(Some(Question::new(alloc, terms, t)?)),
        _ => Ok(None),
    }
}
