//! Whole types, each once, under numbers: a head over numbers comes in, its number goes out.
//!
//! The layer below the numbers of named types. Heads are found by an ordered index, so no choice of types makes it slow.

ghost use Rattle.std.specs.Prelude.{◌≡◌, ◌<◌, ◌≤◌, ◌++◌, ◌∷◌, ℕ, [], List, length, slice_get, Some, IfOk, OnErr, not, ◌&&◌, ◌==◌};
ghost use Rattle.std.specs.BTreeMap.{get, Updates, IsUnchanged};
ghost use Rattle.ir_type.specs.Whole.{is_same};
ghost use Rattle.ir_whole.specs.Heads.{type_at, type_of, types_by, HeadFits, IsWithin, Grows, Stands};
ghost use Rattle.ir_whole.specs.Kept.{head_cmp, type_facts};

use crate::head::Head;
use crate::node::{Facts, Node, head_facts};
use std::alloc::{AllocError, Global};
use std::collections::BTreeMap;
use std::marker::Model;

/// Whole types, each once, under numbers from 0 on; number 0 is the type of nothing. A contract sees the list of their heads.
#[derive(Drop)]
pub struct HeadList {
    nodes: Vec<Node>,
    index: BTreeMap<Head, u32>,
}

impl Model for HeadList {
    ghost use Rattle.std.specs.Prelude.{List};
    ghost use Rattle.ir_whole.specs.declared.head.Head.{Head};
    ghost use Rattle.ir_whole.specs.Kept.{heads_of, IsKept};

    ghost Value = { List Head };

    ghost view = { λ l. heads_of l.nodes.items };

    ghost invariant = { λ l. IsKept l.nodes.items l.index };
}

/// The next number, where 32 bits have one more.
fn next_number(nodes: &[Node]) -> Result<u32, AllocError>
    ensures { IfOk result (λ n. n ≡ length nodes.now) }
{
    if nodes.len() < 4_294_967_295 {
        Ok(nodes.len() as u32)
    } else {
        Err(AllocError)
    }
}

/// Puts a head with its facts behind the others, under the next number.
fn add(
    nodes: &mut Vec<Node>,
    index: &mut BTreeMap<Head, u32>,
    key: Head,
    node: Node,
) -> Result<u32, AllocError>
    ensures ok { IfOk result (λ n. (n ≡ length nodes.old.items) × (nodes.new.items ≡ nodes.old.items ++ node ∷ [])) }
    ensures index { IfOk result (λ n. Updates head_cmp index.old index.new key (Some n)) }
    ensures err { OnErr result ((nodes.new.items ≡ nodes.old.items) × IsUnchanged index.old index.new) }
{
    let number = next_number(nodes.as_slice())?;
    nodes.push(node)?;
    match index.insert(key, number) {
        Ok(_) => Ok(number),
        Err(_) => {
            nodes.pop();
            Err(AllocError)
        }
    }
}

/// The number of a head.
fn find(index: &BTreeMap<Head, u32>, head: &Head) -> Option<u32>
    ensures { result ≡ get head_cmp index.now head.now }
{
    index.get(head).copied()
}

/// The type with a number, with its facts.
fn node_at(nodes: &[Node], number: u32) -> &Node
    requires { number < length nodes.now }
    ensures { slice_get nodes.now number ≡ Some result.now }
{
    &nodes[number as usize]
}

impl HeadList {
    /// The list of the type of nothing alone.
    pub fn new(alloc: Global) -> Result<HeadList, AllocError>
        ensures { IfOk result (λ l. l ≡ Head.Opaque ∷ []) }
    {
        let mut nodes = Vec::new(alloc);
        let mut index = BTreeMap::new(alloc);
        let first = Node {
            head: Head::Opaque,
            facts: Facts::none(),
        };
        add(&mut nodes, &mut index, Head::Opaque, first)?;
        Ok(HeadList { nodes, index })
    }

    /// The number of the type with this head, whose parts stand for types of the list. The list grows by it at its end, unless it is
    /// there; after an error it is as before. Memory is also wanted where 32 bits have no further number.
    pub fn intern(&mut self, alloc: Global, head: Head) -> Result<u32, AllocError>
        requires { HeadFits (length self.old) head }
        ensures stands { IfOk result (λ n. Stands (types_by self.new) n (Some (type_of (types_by self.old) head))) }
        ensures within { IfOk result (λ n. n < length self.new) }
        ensures longer { length self.old ≤ length self.new }
        ensures grows { (first : List Head) → Grows first self.old → Grows first self.new }
        ensures err { OnErr result (self.new ≡ self.old) }
    {
        match find(&self.index, &head) {
            Some(number) => Ok(number),
            None => {
                let key = head.copy(alloc)?;
                let facts = head_facts(self.nodes.as_slice(), &head);
                let node = Node { head, facts };
                let number = add(&mut self.nodes, &mut self.index, key, node)?;
                Ok(number)
            }
        }
    }

    /// The head of a type: what it is, by the numbers of its parts, which stand before it.
    pub fn head(&self, number: u32) -> &Head
        requires { number < length self.now }
        ensures at { slice_get self.now number ≡ Some result.now }
        ensures is { type_at (types_by self.now) number ≡ type_of (types_by self.now) result.now }
        ensures fits { 0 < number → HeadFits number result.now }
        ensures within { IsWithin (length self.now) result.now }
    {
        &node_at(self.nodes.as_slice(), number).head
    }

    /// The facts of a type.
    pub fn facts(&self, number: u32) -> Facts
        requires { number < length self.now }
        ensures { result ≡ type_facts (type_at (types_by self.now) number) }
    {
        node_at(self.nodes.as_slice(), number).facts
    }

    /// Two numbers stand for one type just where they are one, and not that of nothing. The call does nothing: its contract is a law of
    /// the list.
    pub fn tells_apart(&self)
        ensures { (a b : ℕ) → a < length self.now → b < length self.now → (a == b && not (a == 0)) ≡ is_same (type_at (types_by self.now) a) (type_at (types_by self.now) b) }
    {
        let _ = &self.nodes;
    }
}
