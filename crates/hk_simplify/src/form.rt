//! How a term is had: it stands in the list, or its node has yet to be put there, or that of a part of it and then its own.

ghost use Rattle.std.specs.Prelude.{◌≡◌, ℕ, ◌<◌, ◌≤◌, length, IfOk};
ghost use Rattle.hk_term.specs.Shape.{width, Grows};
ghost use Rattle.hk_term.specs.Meaning.{Reading, value};
ghost use Rattle.hk_simplify.specs.Adding.{Adds};
ghost use Rattle.hk_simplify.specs.Forms.{outer_node, FormFits, form_width, form_value};

use hk_term::{Node, TermId, TermKind, TermResize, Terms};
use std::alloc::AllocError;

// A term of the list, or a node that fits behind it, or a node and an operation over it. No node is an input.
#[derive(Debug, Drop)]
pub(crate) enum Form {
    Old(TermId),
    New(Node),
    Over(Node, Outer),
}

// An operation over a part that has yet to be put there: on it and a term, on a term and it, or a change of its width.
#[derive(Clone, Copy, Debug)]
pub(crate) enum Outer {
    First(TermKind, TermId),
    Last(TermKind, TermId),
    Resized(TermResize, u32),
}

// The term of a form.
pub(crate) fn make(t: &mut Terms, form: Form) -> Result<TermId, AllocError>
    requires { FormFits t.old form }
    ensures within { IfOk result (λ r. r < length t.new) }
    ensures width { IfOk result (λ r. width t.new r ≡ form_width t.old form) }
    ensures value { IfOk result (λ r. (v : Reading) → value t.new r v ≡ form_value t.old form v) }
    ensures keeps_widths { (k : ℕ) → k < length t.old → width t.new k ≡ width t.old k }
    ensures keeps_values { (k : ℕ) → k < length t.old → (v : Reading) → value t.new k v ≡ value t.old k v }
    ensures longer { length t.old ≤ length t.new }
    ensures grows { Grows t.old t.new }
    ensures adds { Adds 2 t.old t.new }
{
    match form {
        Form::Old(a) => Ok(a),
        Form::New(node) => {
            let a = t.intern(node)?;
            Ok(a)
        }
        Form::Over(part, outer) => make_over(t, part, outer),
    }
}

// The term of an operation over a part that has yet to be put there.
fn make_over(t: &mut Terms, part: Node, outer: Outer) -> Result<TermId, AllocError>
    requires { FormFits t.old (Form.Over part outer) }
    ensures within { IfOk result (λ r. r < length t.new) }
    ensures width { IfOk result (λ r. width t.new r ≡ form_width t.old (Form.Over part outer)) }
    ensures value { IfOk result (λ r. (v : Reading) → value t.new r v ≡ form_value t.old (Form.Over part outer) v) }
    ensures keeps_widths { (k : ℕ) → k < length t.old → width t.new k ≡ width t.old k }
    ensures keeps_values { (k : ℕ) → k < length t.old → (v : Reading) → value t.new k v ≡ value t.old k v }
    ensures longer { length t.old ≤ length t.new }
    ensures grows { Grows t.old t.new }
    ensures adds { Adds 2 t.old t.new }
{
    let inner = t.intern(part)?;
    let node = outer.over(inner);
    let a = t.intern(node)?;
    Ok(a)
}

impl Outer {
    // The node of the operation over a part.
    fn over(self, part: TermId) -> Node
        ensures { result ≡ outer_node self part }
    {
        match self {
            Outer::First(kind, b) => Node::Binary { kind, a: part, b },
            Outer::Last(kind, a) => Node::Binary { kind, a, b: part },
            Outer::Resized(kind, to) => Node::Resize { kind, to, a: part },
        }
    }
}
