//! The range of a term, by the ranges of its parts.

ghost use Rattle.std.specs.Prelude.{◌≡◌, ℕ, ◌%◌, ◌^◌, ◌<◌, ◌≤◌, length};
ghost use Rattle.hk_term.specs.Operations.{unary_value, binary_value, resize_value, ResizeFits};
ghost use Rattle.hk_term.specs.Shape.{IsWidth, width};
ghost use Rattle.hk_term.specs.Meaning.{Reading, value};
ghost use Rattle.hk_range.specs.Ranges.{InRange, AreTrue, AreBelow, Knows};

use crate::known::{Fact, Known};
use crate::range::{
    Range, choice, complement, concatenation, conjunction, difference, disjunction, extracted,
    full, meet, one, product, quotient, remainder, shifted_left, shifted_right, sign_extended, sum,
};
use hk_term::{Bound, Node, TermId, TermKind, TermResize, Terms, UnaryKind};

/// The range of a term under every reading of which this is known. At most so many terms are looked at.
pub fn range_of(t: &Terms, known: &Known, a: TermId, looks: u32) -> Range
    requires { a < length t.now }
    ensures { (v : Reading) → Knows t.now known.now v → InRange result (value t.now a v) }
{
    let any = noted(t, known.facts.as_slice(), a);
    if looks == 0 {
        return any;
    }
    match t.node(a) {
        Node::Const { value, .. } => one(*value),
        Node::Var { id, .. } => variable(known.bound.as_slice(), *id, any),
        Node::Unary { kind, a: x } => {
            let p = range_of(t, known, *x, looks - 1);
            unary(*kind, sized(t, *x), p, any)
        }
        Node::Binary { kind, a: x, b: y } => {
            let p = range_of(t, known, *x, (looks - 1) / 2);
            let q = range_of(t, known, *y, (looks - 1) / 2);
            binary(*kind, sized(t, *x), sized(t, *y), p, q, any)
        }
        Node::Choose { a: x, b: y, .. } => {
            let p = range_of(t, known, *x, (looks - 1) / 2);
            let q = range_of(t, known, *y, (looks - 1) / 2);
            choice(p, q, any)
        }
        Node::Resize { kind, to, a: x } => {
            let p = range_of(t, known, *x, looks - 1);
            resized(*kind, sized(t, *x), *to, p, any)
        }
        Node::Select { .. } => any,
        Node::ForAll { .. } => any,
    }
}

/// The width of a term. Its values are below 2 to the width.
pub(crate) fn sized(t: &Terms, a: TermId) -> u32
    requires { a < length t.now }
    ensures width { result ≡ width t.now a }
    ensures is_width { IsWidth result }
    ensures below { (v : Reading) → value t.now a v < 2 ^ result }
{
    // For the proof: the term's numbers are below 2 to its width.
    let _node = t.node(a);
    t.width(a)
}

// What facts say of a term.
fn noted(t: &Terms, facts: &[Fact], a: TermId) -> Range
    requires { a < length t.now }
    ensures { (v : Reading) → AreTrue t.now facts.now v → InRange result (value t.now a v) }
{
    let mut range = full(sized(t, a));
    for fact in facts {
        range = narrowed(range, *fact, a);
    }
    range
}

// What a fact says of a term beside what is known.
fn narrowed(range: Range, fact: Fact, a: TermId) -> Range
    ensures { (f : ℕ → ℕ) → InRange range (f a) → InRange fact.range (f fact.term) → InRange result (f a) }
{
    if fact.term == a {
        meet(range, fact.range)
    } else {
        range
    }
}

// The range of a variable that may be bound.
fn variable(bound: &[Bound], id: u32, any: Range) -> Range
    ensures { (v : Reading) (w : ℕ) → AreBelow bound.now v → InRange any (v.var id % 2 ^ w) → InRange result (v.var id % 2 ^ w) }
{
    let mut range = any;
    for b in bound {
        range = limited(range, *b, id);
    }
    range
}

fn limited(range: Range, b: Bound, id: u32) -> Range
    ensures { (f : ℕ → ℕ) (w : ℕ) → f b.id < b.size → InRange range (f id % 2 ^ w) → InRange result (f id % 2 ^ w) }
{
    if b.id != id || b.size == 0 {
        return range;
    }
    Range {
        lo: range.lo,
        hi: range.hi.min(b.size - 1),
    }
}

fn unary(kind: UnaryKind, w: u32, p: Range, any: Range) -> Range
    requires { IsWidth w }
    ensures { (a : ℕ) → InRange p a → InRange any (unary_value kind w a) → InRange result (unary_value kind w a) }
{
    match kind {
        UnaryKind::Not => complement(w, p),
        UnaryKind::Neg => any,
    }
}

fn binary(kind: TermKind, w: u32, u: u32, p: Range, q: Range, any: Range) -> Range
    requires { IsWidth w }
    ensures { (a b : ℕ) → a < 2 ^ w → InRange p a → InRange q b → InRange any (binary_value kind w u a b) → InRange result (binary_value kind w u a b) }
{
    match kind {
        TermKind::Add => sum(w, p, q, any),
        TermKind::Sub => difference(w, p, q, any),
        TermKind::Mul => product(w, p, q, any),
        TermKind::Udiv => quotient(w, p, q, any),
        TermKind::Urem => remainder(w, p, q, any),
        TermKind::Shl => shifted_left(w, p, q, any),
        TermKind::Lshr => shifted_right(p, q),
        TermKind::And => conjunction(p, q),
        TermKind::Or => disjunction(p, q, any),
        TermKind::Concat => concatenation(u, p, q, any),
        TermKind::Sdiv => any,
        TermKind::Srem => any,
        TermKind::Ashr => any,
        TermKind::Xor => any,
        TermKind::Eq => any,
        TermKind::Ult => any,
        TermKind::Slt => any,
    }
}

fn resized(kind: TermResize, from: u32, to: u32, p: Range, any: Range) -> Range
    requires width { IsWidth from }
    requires fits { ResizeFits kind from to }
    ensures { (a : ℕ) → InRange p a → InRange any (resize_value kind from to a) → InRange result (resize_value kind from to a) }
{
    match kind {
        TermResize::Zero => p,
        TermResize::Sign => sign_extended(from, p, any),
        TermResize::Extract { low } => extracted(low, to, p, any),
    }
}
