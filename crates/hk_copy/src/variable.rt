//! The copy of a variable.

ghost use Rattle.std.specs.Prelude.{◌≡◌, ℕ, ◌-◌, ◌%◌, ◌^◌, ◌<◌, ◌≤◌, length, reverse, slice_get, true, Some, IfOk, List};
ghost use Rattle.std.specs.List.{All};
ghost use Rattle.hk_term.specs.Shape.{IsWidth, AllFitIn, NodeFits, node_width, width, Grows};
ghost use Rattle.hk_term.specs.Operations.{ResizeFits};
ghost use Rattle.hk_term.specs.declared.node.Node.{Node};
ghost use Rattle.hk_copy.specs.Stands.{Stands, HasWidth};
ghost use Rattle.hk_copy.specs.Copies.{Copies, IsCut, IsRead};
ghost use Rattle.hk_copy.specs.Reach.{Tests, passes, AllPass, StandsPass};

use crate::stand::{Stand, stand_of};
use hk_term::{Node, TermId, TermResize, Terms};
use std::alloc::AllocError;

// The copy of a variable that is read at a width: itself, or what it stands for.
pub(crate) fn variable(
    terms: &mut Terms,
    width: u32,
    id: u32,
    stands: &[(u32, Stand)],
) -> Result<TermId, AllocError>
    requires width { IsWidth width }
    requires widths { All (λ e. HasWidth e.1) stands.now }
    ensures copies { IfOk result (λ r. (t : ℕ) → slice_get terms.new t ≡ Some (Node.Var width id) → Copies terms.new stands.now t r) }
    ensures keeps_copies { (env : Stands) (k r : ℕ) → Copies terms.old env k r → Copies terms.new env k r }
    ensures keeps_nodes { (k : ℕ) → k < length terms.old → slice_get terms.new k ≡ slice_get terms.old k }
    ensures longer { length terms.old ≤ length terms.new }
    ensures grows { (first : List Node) → Grows first terms.old → Grows first terms.new }
    ensures adds { (tests : Tests) → AllPass tests terms.old → tests.variable width id ≡ true → StandsPass tests stands.now → AllPass tests terms.new }
{
    match stand_of(stands, id) {
        None => {
            let copy = put(terms, Node::Var { width, id })?;
            Ok(copy)
        }
        Some(Stand::Number(n)) => {
            let value = low(width, n);
            let copy = put(terms, Node::Const { width, value })?;
            Ok(copy)
        }
        Some(
            Stand::Other {
                width: from,
                id: other,
            },
        ) => {
            let copy = read_at(terms, width, from, other)?;
            Ok(copy)
        }
    }
}

// The variable of a width and an id, read at another width: its lowest bits, or zeros above it.
fn read_at(terms: &mut Terms, width: u32, from: u32, id: u32) -> Result<TermId, AllocError>
    requires width { IsWidth width }
    requires from { IsWidth from }
    ensures read { IfOk result (λ r. IsRead terms.new width from id r) }
    ensures keeps_copies { (env : Stands) (k r : ℕ) → Copies terms.old env k r → Copies terms.new env k r }
    ensures keeps_nodes { (k : ℕ) → k < length terms.old → slice_get terms.new k ≡ slice_get terms.old k }
    ensures longer { length terms.old ≤ length terms.new }
    ensures grows { (first : List Node) → Grows first terms.old → Grows first terms.new }
    ensures adds { (tests : Tests) → AllPass tests terms.old → tests.variable from id ≡ true → AllPass tests terms.new }
{
    if from == width {
        let read = put(terms, Node::Var { width, id })?;
        Ok(read)
    } else {
        let whole = put(terms, Node::Var { width: from, id })?;
        let kind = cut(from, width);
        let read = put(
            terms,
            Node::Resize {
                kind,
                to: width,
                a: whole,
            },
        )?;
        Ok(read)
    }
}

// The change of a number's width that keeps its lowest bits.
fn cut(from: u32, to: u32) -> TermResize
    requires from { IsWidth from }
    requires to { IsWidth to }
    ensures cut { IsCut result from to }
    ensures fits { ResizeFits result from to }
{
    if from < to {
        TermResize::Zero
    } else {
        TermResize::Extract { low: 0 }
    }
}

// The lowest bits of a number.
fn low(width: u32, n: u64) -> u64
    requires { IsWidth width }
    ensures value { result ≡ n % 2 ^ width }
    ensures below { result < 2 ^ width }
{
    n & greatest(width)
}

// The greatest number of a width.
fn greatest(width: u32) -> u64
    requires { IsWidth width }
    ensures { result ≡ 2 ^ width - 1 }
{
    u64::MAX >> (64 - width)
}

// The term of a node that fits.
pub(crate) fn put(terms: &mut Terms, node: Node) -> Result<TermId, AllocError>
    requires { NodeFits (length terms.old) (width terms.old) node }
    ensures at { IfOk result (λ r. slice_get terms.new r ≡ Some node) }
    ensures within { IfOk result (λ r. r < length terms.new) }
    ensures width { IfOk result (λ r. width terms.new r ≡ node_width node (width terms.old)) }
    ensures keeps_copies { (env : Stands) (k r : ℕ) → Copies terms.old env k r → Copies terms.new env k r }
    ensures keeps_nodes { (k : ℕ) → k < length terms.old → slice_get terms.new k ≡ slice_get terms.old k }
    ensures longer { length terms.old ≤ length terms.new }
    ensures grows { (first : List Node) → Grows first terms.old → Grows first terms.new }
    ensures adds { (tests : Tests) → AllPass tests terms.old → passes tests node ≡ true → AllPass tests terms.new }
    ensures fit { AllFitIn (reverse terms.new) }
{
    let made = terms.intern(node);
    // For the proof: each node of the list fits behind those before it.
    let _len = terms.len();
    made
}
