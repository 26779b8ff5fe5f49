//! A whole type with what is asked of it: a head and the nodes of its parts come in, its facts go out, so that no question walks a type.

ghost use Rattle.std.specs.Prelude.{◌≡◌, drop};
ghost use Rattle.ir_ast.specs.Plain.{integer};
ghost use Rattle.ir_type.specs.Whole.{is_odd};
ghost use Rattle.ir_whole.specs.Kept.{no_facts, either, fact_at, row_facts, head_facts, facts_of};

use crate::head::Head;

/// What is asked of a type and would take time to find.
#[derive(Clone, Copy, Debug, PartialEq, Eq)]
pub struct Facts {
    /// An integer of a width other than 8, 16, 32 and 64 bits stands in it.
    pub odd: bool,
    /// A pointer stands in it.
    pub pointer: bool,
}

/// A whole type with its facts.
#[derive(Debug, Drop)]
pub struct Node {
    pub head: Head,
    pub facts: Facts,
}

impl Facts {
    /// Neither.
    pub fn none() -> Facts
        ensures { result ≡ no_facts }
    {
        Facts {
            odd: false,
            pointer: false,
        }
    }

    /// What is so of one of two parts.
    fn or(self, other: Facts) -> Facts
        ensures { result ≡ either self other }
    {
        Facts {
            odd: self.odd || other.odd,
            pointer: self.pointer || other.pointer,
        }
    }
}

/// Whether memory has no integers of this width, in bits.
pub fn is_odd_width(width: u32) -> bool
    ensures { result ≡ is_odd (integer width) }
{
    !matches!(width, 8 | 16 | 32 | 64)
}

/// The facts of the type with a number.
fn fact_at(nodes: &[Node], number: u32) -> Facts
    ensures { result ≡ fact_at (facts_of nodes.now) number }
{
    match nodes.get(number as usize) {
        Some(node) => node.facts,
        None => Facts::none(),
    }
}

/// The facts of a struct with these parts.
fn row_facts(nodes: &[Node], row: &[u32]) -> Facts
    ensures { result ≡ row_facts (facts_of nodes.now) no_facts row.now }
{
    let mut all = Facts::none();
    'each: for part in row {
        all = all.or(fact_at(nodes, *part));
    }
    all
}

/// The facts of a type, by those of its parts.
pub fn head_facts(nodes: &[Node], head: &Head) -> Facts
    ensures { result ≡ head_facts (facts_of nodes.now) head.now }
{
    match head {
        Head::Opaque => Facts::none(),
        Head::Void => Facts::none(),
        Head::Int(width) => Facts {
            odd: is_odd_width(*width),
            pointer: false,
        },
        Head::Ptr => Facts {
            odd: false,
            pointer: true,
        },
        Head::Array(_, element) => fact_at(nodes, *element),
        Head::Struct(row) => row_facts(nodes, row.as_slice()),
        Head::Packed(row) => row_facts(nodes, row.as_slice()),
    }
}
