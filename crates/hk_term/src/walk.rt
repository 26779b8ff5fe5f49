//! The computation of a term's value, with no memory but a room of two numbers for each node.
//!
//! A term is computed behind its parts. One that waits for a part keeps, as its number, the term that waits for it, so no
//! stack is needed. A term is done where its mark is the stamp of the reading. A quantifier takes a fresh stamp for each
//! tuple of numbers, so that its body is computed again, and only what the body reaches.

ghost use Rattle.std.specs.Prelude.{◌≡◌, ◌≢◌, ℕ, ◌+◌, ◌-◌, ◌*◌, ◌^◌, ◌<◌, ◌≤◌, length, slice_index, nat_eq, nat_le, if◌then◌else◌, IfSome, IfNone};
ghost use Rattle.hk_term.specs.Shape.{width};
ghost use Rattle.hk_term.specs.Meaning.{Reading, reading_of, node_value, value, every_tuple};
ghost use Rattle.hk_term.specs.Facts.{Holds};
ghost use Rattle.hk_term.specs.Walk.{scoped, PartsDone, PartsBefore, PartsKnown, IsGround, Known, IsTimed, IsFresh, Keeps, Standing, weight};

use crate::bounds::Bound;
use crate::node::{Node, TermId};
use crate::operations::{apply_binary, apply_resize, apply_unary, low};
use crate::scope::Scope;
use crate::terms::Terms;
use crate::valuation::Valuation;

// The first of a node's parts that is not done.
fn waiting(node: &Node, t: u64, marks: &[u64], stamp: u64) -> Option<u64>
    requires before { PartsBefore node.now t }
    requires room { t ≤ length marks.now }
    ensures done { IfNone result (PartsDone node.now marks.now stamp) }
    ensures waits { IfSome result (λ c. (c < t) × (slice_index marks.now c ≢ stamp)) }
{
    match node {
        Node::Select { index, .. } => one_waiting(index.place(), t, marks, stamp),
        Node::Unary { a, .. } => one_waiting(a.place(), t, marks, stamp),
        Node::Binary { a, b, .. } => two_waiting(a.place(), b.place(), t, marks, stamp),
        Node::Choose { condition, a, b } => match one_waiting(condition.place(), t, marks, stamp) {
            Some(part) => Some(part),
            None => two_waiting(a.place(), b.place(), t, marks, stamp),
        },
        Node::Resize { a, .. } => one_waiting(a.place(), t, marks, stamp),
        _ => None,
    }
}

// A part that is not done.
fn one_waiting(a: u64, t: u64, marks: &[u64], stamp: u64) -> Option<u64>
    requires before { a < t }
    requires room { t ≤ length marks.now }
    ensures done { IfNone result (slice_index marks.now a ≡ stamp) }
    ensures waits { IfSome result (λ c. (c < t) × (slice_index marks.now c ≢ stamp)) }
{
    if marks[a as usize] == stamp {
        None
    } else {
        Some(a)
    }
}

// The first of two parts that is not done.
fn two_waiting(a: u64, b: u64, t: u64, marks: &[u64], stamp: u64) -> Option<u64>
    requires first { a < t }
    requires second { b < t }
    requires room { t ≤ length marks.now }
    ensures done { IfNone result ((slice_index marks.now a ≡ stamp) × (slice_index marks.now b ≡ stamp)) }
    ensures waits { IfSome result (λ c. (c < t) × (slice_index marks.now c ≢ stamp)) }
{
    match one_waiting(a, t, marks, stamp) {
        Some(part) => Some(part),
        None => one_waiting(b, t, marks, stamp),
    }
}

// The value of a node that is no quantifier, from the numbers of its parts.
fn ready(
    terms: &Terms,
    v: &Valuation,
    scope: &Scope<'_>,
    t: TermId,
    node: &Node,
    values: &[u64],
) -> u64
    requires holds { Holds terms.now t node.now }
    requires room { t ≤ length values.now }
    requires parts { PartsKnown node.now terms.now (scoped (reading_of v.now) scope.now) values.now }
    ensures { IsGround node.now → result ≡ node_value node.now (value terms.now) (width terms.now) (scoped (reading_of v.now) scope.now) }
{
    match node {
        Node::Const { value, .. } => *value,
        Node::Var { width, id } => low(*width, scope.number(v, *id)),
        Node::Select {
            array,
            width,
            index,
        } => low(*width, v.arrays.get(*array, values[index.place() as usize])),
        Node::Unary { kind, a } => apply_unary(*kind, terms.width(*a), values[a.place() as usize]),
        Node::Binary { kind, a, b } => apply_binary(
            *kind,
            terms.width(*a),
            terms.width(*b),
            values[a.place() as usize],
            values[b.place() as usize],
        ),
        Node::Choose { condition, a, b } => {
            if values[condition.place() as usize] == 1 {
                values[a.place() as usize]
            } else {
                values[b.place() as usize]
            }
        }
        Node::Resize { kind, to, a } => {
            apply_resize(*kind, terms.width(*a), *to, values[a.place() as usize])
        }
        Node::ForAll { .. } => 0,
    }
}

// Takes back each mark above a base.
fn forget(marks: &mut [u64], base: u64)
    ensures { (k : ℕ) → slice_index marks.new k ≡ (if nat_le (slice_index marks.old k) base then slice_index marks.old k else 0) }
{
    for mark in marks.iter_mut() {
        if *mark > base {
            *mark = 0;
        }
    }
}

// A stamp above a base that no mark has. Where the stamps up to the last are used up, all marks above the base are taken back.
pub(crate) fn fresh_stamp(marks: &mut [u64], clock: &mut u64, base: u64, last: u64) -> u64
    requires timed { IsTimed marks.old clock.old }
    requires past { base ≤ clock.old }
    requires room { base < last }
    ensures above { base < result }
    ensures within { result ≤ last }
    ensures fresh { IsFresh marks.new result }
    ensures timed { IsTimed marks.new clock.new }
    ensures past { result ≤ clock.new }
    ensures kept { (k : ℕ) → slice_index marks.old k ≤ base → slice_index marks.new k ≡ slice_index marks.old k }
    ensures old { (k : ℕ) → 0 < slice_index marks.new k → slice_index marks.new k ≡ slice_index marks.old k }
{
    if *clock >= last {
        forget(marks, base);
        *clock = base;
    }
    *clock += 1;
    *clock
}

// What a term is computed under: the list that it stands in, the valuation with the numbers of the bound variables, and the
// stamp of what is done.
#[derive(Drop)]
pub(crate) struct Context<'a> {
    pub(crate) terms: &'a Terms,
    pub(crate) v: &'a Valuation,
    pub(crate) scope: &'a Scope<'a>,
    pub(crate) stamp: u64,
}

// The value of a term under a reading. What is done has its number; of the rest only what the term reaches is computed.
#[cycle(walk)]
pub(crate) fn compute(
    context: &Context<'_>,
    t: u64,
    values: &mut [u64],
    marks: &mut [u64],
    clock: &mut u64,
) -> u64
    requires term { t < length context.now.terms.now }
    requires values { t < length values.old }
    requires marks { t < length marks.old }
    requires some { 1 ≤ context.now.stamp }
    requires later { context.now.stamp + t < 2 ^ 64 }
    requires known { Known context.now.terms.now (scoped (reading_of context.now.v.now) context.now.scope.now) context.now.stamp values.old marks.old }
    requires timed { IsTimed marks.old clock.old }
    requires past { context.now.stamp ≤ clock.old }
    ensures value { result ≡ value context.now.terms.now t (scoped (reading_of context.now.v.now) context.now.scope.now) }
    ensures known { Known context.now.terms.now (scoped (reading_of context.now.v.now) context.now.scope.now) context.now.stamp values.new marks.new }
    ensures keeps { Keeps (t + 1) (context.now.stamp - 1) values.old marks.old values.new marks.new }
    ensures timed { IsTimed marks.new clock.new }
    ensures past { context.now.stamp ≤ clock.new }
{
    values[t as usize] = t;
    marks[t as usize] = 0;
    let mut at = t;
    'going: while marks[t as usize] != context.stamp {
        at = advance(context, t, at, values, marks, clock);
    }
    values[t as usize]
}

// One step of the computation of a term: down to a part that is not done, or up from a term whose parts are done.
#[cycle(walk)]
fn advance(
    context: &Context<'_>,
    t: u64,
    at: u64,
    values: &mut [u64],
    marks: &mut [u64],
    clock: &mut u64,
) -> u64
    requires term { t < length context.now.terms.now }
    requires values { t < length values.old }
    requires marks { t < length marks.old }
    requires some { 1 ≤ context.now.stamp }
    requires later { context.now.stamp + t < 2 ^ 64 }
    requires standing { Standing context.now.terms.now (scoped (reading_of context.now.v.now) context.now.scope.now) context.now.stamp t values.old marks.old clock.old at }
    requires going { slice_index marks.old t ≢ context.now.stamp }
    ensures standing { Standing context.now.terms.now (scoped (reading_of context.now.v.now) context.now.scope.now) context.now.stamp t values.new marks.new clock.new result }
    ensures keeps { Keeps (t + 1) (context.now.stamp - 1) values.old marks.old values.new marks.new }
    ensures smaller { weight context.now.stamp marks.new * (t + 1) + result < weight context.now.stamp marks.old * (t + 1) + at }
{
    context.terms.values_are_below();
    let node = context.terms.node(TermId::at(at));
    match waiting(node, at, marks, context.stamp) {
        Some(part) => {
            values[part as usize] = at;
            marks[part as usize] = 0;
            part
        }
        None => {
            let number = number_of(context, at, node, values, marks, clock);
            let next = values[at as usize];
            values[at as usize] = number;
            marks[at as usize] = context.stamp;
            next
        }
    }
}

// The value of a term whose parts are done.
#[cycle(walk)]
fn number_of(
    context: &Context<'_>,
    at: u64,
    node: &Node,
    values: &mut [u64],
    marks: &mut [u64],
    clock: &mut u64,
) -> u64
    requires holds { Holds context.now.terms.now at node.now }
    requires values { at < length values.old }
    requires marks { at < length marks.old }
    requires some { 1 ≤ context.now.stamp }
    requires later { context.now.stamp + at < 2 ^ 64 }
    requires parts { PartsKnown node.now context.now.terms.now (scoped (reading_of context.now.v.now) context.now.scope.now) values.old }
    requires timed { IsTimed marks.old clock.old }
    requires past { context.now.stamp ≤ clock.old }
    ensures value { result ≡ value context.now.terms.now at (scoped (reading_of context.now.v.now) context.now.scope.now) }
    ensures keeps { Keeps at context.now.stamp values.old marks.old values.new marks.new }
    ensures timed { IsTimed marks.new clock.new }
    ensures past { context.now.stamp ≤ clock.new }
{
    match node {
        Node::ForAll { bound, body } => u64::from(every(
            context,
            bound.as_slice(),
            body.place(),
            values,
            marks,
            clock,
        )),
        _ => ready(
            context.terms,
            context.v,
            context.scope,
            TermId::at(at),
            node,
            values,
        ),
    }
}

// Whether a body is true for each tuple of numbers of bound variables. The stamps above the context's are free.
#[cycle(walk)]
fn every(
    context: &Context<'_>,
    bound: &[Bound],
    body: u64,
    values: &mut [u64],
    marks: &mut [u64],
    clock: &mut u64,
) -> bool
    requires term { body < length context.now.terms.now }
    requires values { body < length values.old }
    requires marks { body < length marks.old }
    requires later { context.now.stamp + body + 1 < 2 ^ 64 }
    requires timed { IsTimed marks.old clock.old }
    requires past { context.now.stamp ≤ clock.old }
    ensures value { result ≡ every_tuple bound.now (λ u. nat_eq (value context.now.terms.now body u) 1) (scoped (reading_of context.now.v.now) context.now.scope.now) }
    ensures keeps { Keeps (body + 1) context.now.stamp values.old marks.old values.new marks.new }
    ensures timed { IsTimed marks.new clock.new }
    ensures past { context.now.stamp ≤ clock.new }
{
    match bound {
        [] => {
            let stamp = fresh_stamp(marks, clock, context.stamp, u64::MAX - body);
            let fresh = Context {
                terms: context.terms,
                v: context.v,
                scope: context.scope,
                stamp,
            };
            compute(&fresh, body, values, marks, clock) == 1
        }
        [first, rest @ ..] => {
            for k in 0..first.size {
                let inner = Scope::with(first.id, k, &*context.scope);
                let within = Context {
                    terms: context.terms,
                    v: context.v,
                    scope: &inner,
                    stamp: context.stamp,
                };
                if !every(&within, rest, body, values, marks, clock) {
                    return false;
                }
            }
            true
        }
    }
}
