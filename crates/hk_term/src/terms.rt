//! The list of nodes.

ghost use Rattle.std.specs.Prelude.{◌≡◌, ℕ, ◌+◌, ◌*◌, ◌^◌, ◌<◌, ◌≤◌, ◌++◌, ◌∷◌, ◌⊎◌, [], false, length, reverse, take, slice_get, Some, IfOk, OnErr, Contains};
ghost use Rattle.indexmap.specs.IndexMap.{keys};
ghost use Rattle.hk_term.specs.Operations.{binary_width};
ghost use Rattle.hk_term.specs.Shape.{AllFitIn, NodeFits, IsWidth, width, IsDistinct, Grows, node_width};
ghost use Rattle.hk_term.specs.Meaning.{Reading, value, reading_of, node_value};
ghost use Rattle.hk_term.specs.Facts.{Holds};
ghost use Rattle.hk_term.specs.Inputs.{is_input, inputs_in};
ghost use Rattle.hk_term.specs.Kept.{IsPlaced};
ghost use Rattle.hk_term.specs.Room.{IsFor};

use crate::node::{Node, TermId, TermKind};
use crate::room::ValueRoom;
use crate::scope::Scope;
use crate::valuation::Valuation;
use crate::walk::{Context, compute};
use indexmap::IndexMap;
use std::alloc::{AllocError, Global};
use std::marker::Model;

/// Nodes, each once, behind the nodes of its parts. A contract sees the list of the nodes.
#[derive(Drop)]
pub struct Terms {
    nodes: IndexMap<Node, u32>,
}

impl Model for Terms {
    ghost use Rattle.std.specs.Prelude.{List};
    ghost use Rattle.hk_term.specs.declared.node.Node.{Node};
    ghost use Rattle.indexmap.specs.IndexMap.{keys};
    ghost use Rattle.hk_term.specs.Kept.{IsTermTable};

    ghost Value = { List Node };

    ghost view = { λ a. keys a.nodes };

    ghost invariant = { λ a. IsTermTable a.nodes.entries };
}

impl Terms {
    /// The empty list. It takes no memory.
    pub fn new(alloc: Global) -> Terms
        ensures { result ≡ [] }
    {
        Terms {
            nodes: IndexMap::new(alloc),
        }
    }

    /// How many nodes there are.
    pub fn len(&self) -> u64
        ensures len { result ≡ length self.now }
        ensures small { length self.now < 2 ^ 63 }
        ensures distinct { IsDistinct self.now }
        ensures fit { AllFitIn (reverse self.now) }
    {
        self.nodes.len() as u64
    }

    /// The node of a term.
    pub fn node(&self, t: TermId) -> &Node
        requires { t < length self.now }
        ensures at { slice_get self.now t ≡ Some result.now }
        ensures holds { Holds self.now t result.now }
    {
        self.nodes.get_index(t.place() as usize).unwrap().0
    }

    /// The width of a term.
    pub fn width(&self, t: TermId) -> u32
        requires { t < length self.now }
        ensures width { result ≡ width self.now t }
        ensures is_width { IsWidth result }
    {
        *self.nodes.get_index(t.place() as usize).unwrap().1
    }

    /// The term of a node, whose parts exist and whose widths go together. The list grows by the node at its end, or is as
    /// before where the node is there, and after want of memory.
    pub fn intern(&mut self, node: Node) -> Result<TermId, AllocError>
        requires { NodeFits (length self.old) (width self.old) node }
        ensures at { IfOk result (λ t. slice_get self.new t ≡ Some node) }
        ensures holds { IfOk result (λ t. Holds self.new t node) }
        ensures value { IfOk result (λ t. (v : Reading) → value self.new t v ≡ node_value node (value self.old) (width self.old) v) }
        ensures width { IfOk result (λ t. width self.new t ≡ node_width node (width self.old)) }
        ensures keeps_widths { (k : ℕ) → k < length self.old → width self.new k ≡ width self.old k }
        ensures keeps_values { (k : ℕ) → k < length self.old → (v : Reading) → value self.new k v ≡ value self.old k v }
        ensures keeps_nodes { (k : ℕ) → k < length self.old → slice_get self.new k ≡ slice_get self.old k }
        ensures longer { length self.old ≤ length self.new }
        ensures grows { Grows self.old self.new }
        ensures ok { IfOk result (λ t. ((t < length self.old) × (self.new ≡ self.old)) ⊎ ((t ≡ length self.old) × (self.new ≡ self.old ++ node ∷ []))) }
        ensures there { Contains self.old node → self.new ≡ self.old }
        ensures few { length self.new ≤ length self.old + 1 }
        ensures operation { is_input node ≡ false → inputs_in self.new ≡ inputs_in self.old }
        ensures inputs { length (inputs_in self.new) ≤ length (inputs_in self.old) + 1 }
        ensures err { OnErr result (self.new ≡ self.old) }
    {
        let width = self.width_of(&node);
        let place = place(&mut self.nodes, node, width)?;
        Ok(TermId::at(place as u64))
    }

    /// The list's first nodes: it is then its prefix of this length.
    pub fn cut(&mut self, len: u64)
        requires { len ≤ length self.old }
        ensures prefix { self.new ≡ take len self.old }
        ensures keeps_widths { (k : ℕ) → k < len → width self.new k ≡ width self.old k }
        ensures keeps_values { (k : ℕ) → k < len → (v : Reading) → value self.new k v ≡ value self.old k v }
    {
        self.nodes.truncate(len as usize);
    }

    /// The value of a term under a valuation. The room has two numbers for each node of the list: one for its value, and one
    /// for a mark, so that a quantifier computes again only what its body reaches. It takes no memory.
    pub fn value(&self, v: &Valuation, t: TermId, room: &mut [u64]) -> u64
        requires term { t < length self.now }
        requires room { 2 * length self.now ≤ length room.old }
        ensures value { result ≡ value self.now t (reading_of v.now) }
        ensures below { result < 2 ^ width self.now t }
    {
        self.values_are_below();
        let reached = t.place() as usize + 1;
        let (values, rest) = room.split_at_mut(reached);
        let marks = &mut rest[..reached];
        marks.fill(0);
        let mut clock = 1;
        let scope = Scope::new();
        let context = Context {
            terms: self,
            v,
            scope: &scope,
            stamp: 1,
        };
        compute(&context, t.place(), values, marks, &mut clock)
    }

    /// The value of a term under a valuation, by a room that is for this list and this valuation. What the room knows is not
    /// computed again, so many terms take the time of what they reach together. It takes no memory.
    pub fn value_with(&self, v: &Valuation, t: TermId, room: &mut ValueRoom) -> u64
        requires term { t < length self.now }
        requires room { IsFor self.now (reading_of v.now) room.old }
        ensures value { result ≡ value self.now t (reading_of v.now) }
        ensures below { result < 2 ^ width self.now t }
        ensures room { IsFor self.now (reading_of v.now) room.new }
    {
        self.values_are_below();
        room.number(self, v, t)
    }

    // Every value is a number of its term's width. The call does nothing: its contract is a law of the list.
    pub(crate) fn values_are_below(&self)
        ensures { (k : ℕ) → k < length self.now → (v : Reading) → value self.now k v < 2 ^ width self.now k }
    {
        let _ = &self.nodes;
    }

    // The width of a node.
    fn width_of(&self, node: &Node) -> u32
        requires { NodeFits (length self.now) (width self.now) node.now }
        ensures width { result ≡ node_width node.now (width self.now) }
    {
        match node {
            Node::Const { width, .. } => *width,
            Node::Var { width, .. } => *width,
            Node::Select { width, .. } => *width,
            Node::Unary { a, .. } => self.width(*a),
            Node::Binary { kind, a, b } => binary_width(*kind, self.width(*a), self.width(*b)),
            Node::Choose { a, .. } => self.width(*a),
            Node::Resize { to, .. } => *to,
            Node::ForAll { .. } => 1,
        }
    }
}

// The width of an operation on two terms of these widths.
fn binary_width(kind: TermKind, w: u32, u: u32) -> u32
    requires first { w ≤ 64 }
    requires second { u ≤ 64 }
    ensures { result ≡ binary_width kind w u }
{
    match kind {
        TermKind::Eq => 1,
        TermKind::Ult => 1,
        TermKind::Slt => 1,
        TermKind::Concat => w + u,
        _ => w,
    }
}

// Puts a node with its width behind the others, unless it is there, with the same width.
fn place(nodes: &mut IndexMap<Node, u32>, node: Node, width: u32) -> Result<usize, AllocError>
    requires { (i w : ℕ) → slice_get nodes.old.entries i ≡ Some (node, w) → w ≡ width }
    ensures ok { IfOk result (λ i. IsPlaced nodes.old.entries nodes.new.entries node width i) }
    ensures there { Contains (keys nodes.old) node → nodes.new.entries ≡ nodes.old.entries }
    ensures err { OnErr result (nodes.new.entries ≡ nodes.old.entries) }
{
    let (index, _) = nodes.insert_full(node, width)?;
    Ok(index)
}
