//! Learning: the clause that a conflict rests on, and the hints that derive it by unit propagation.

ghost use Rattle.std.specs.Prelude.{◌≡◌, ◌+◌, ◌^◌, ◌<◌, ◌≤◌, ℕ, Bool, List, ℤ, [], length, take, neg_ℤ, IfOk, OnOk};
ghost use Rattle.std.specs.List.Sorted.{IsNonDecreasing};
ghost use Rattle.std.specs.List.{All};
ghost use Rattle.hk_cnf.specs.Literal.{has};
ghost use Rattle.hk_cdcl.specs.Fresh.{AreQuiet};
ghost use Rattle.hk_cdcl.specs.Path.{AreReasons, lit_at};
ghost use Rattle.hk_cdcl.specs.Propagation.{IsConflict};
ghost use Rattle.hk_cdcl.specs.Analysis.{seen_at, is_redundant, AreNamed, IsTracked, IsLearned, Derives};
ghost use Rattle.hk_cdcl.specs.Learning.{KeptAt, SortedAt, Collected, HintAt, HintedOnce, IsDerivable, Leads};

use crate::analyze::{analyze, analyze_zero, is_seen};
use crate::minimize::{is_redundant, sort_places};
use crate::order::Order;
use crate::seen::Seen;
use crate::trail::Trail;
use hk_cnf::{ClauseList, Lit};
use hk_lrat::IdList;
use std::alloc::{AllocError, Global};

/// A learned clause: the literal that it asserts first.
#[derive(Drop)]
pub struct Learned {
    /// The clause.
    pub clause: Vec<Lit>,
    /// The ids of the clauses that derive it, in the order in which they become unit, and last the conflict's.
    pub hints: IdList,
    /// The place behind the last literal of the trail that falsifies another literal of the clause, or 0.
    pub rest: usize,
}

/// Adds the negation of the literal at the place. Gives the place behind the last one added.
fn add_kept(
    trail: &Trail,
    place: usize,
    clause: &mut Vec<Lit>,
    rest: usize,
) -> Result<usize, AllocError>
    requires inside { place < length trail.now.lits }
    requires fits { place + 1 < 2 ^ 64 }
    ensures { IfOk result (KeptAt (neg_ℤ (lit_at trail.now.lits place)) place clause.old.items clause.new.items rest) }
{
    clause.push(trail.lit(place).negated())?;
    if rest <= place {
        Ok(place + 1)
    } else {
        Ok(rest)
    }
}

/// What was collected from the marked places before the conflict's level.
#[derive(Drop)]
struct Parts {
    clause: Vec<Lit>,
    dropped: Vec<usize>,
    rest: usize,
}

/// Drops the place where the other marked literals imply its literal, and else adds the negation.
fn add_place(
    clauses: &ClauseList,
    trail: &Trail,
    seen: &Seen,
    place: usize,
    parts: &mut Parts,
) -> Result<(), AllocError>
    requires vars { trail.now.vars ≡ clauses.now.vars }
    requires each { length seen.now ≡ trail.now.vars }
    requires named { AreNamed clauses.now.clauses trail.now }
    requires inside { place < length trail.now.lits }
    requires fits { place + 1 < 2 ^ 64 }
    ensures { OnOk result (SortedAt (is_redundant clauses.now.clauses trail.now seen.now) (neg_ℤ (lit_at trail.now.lits place)) place parts.old.clause.items parts.new.clause.items parts.old.dropped.items parts.new.dropped.items parts.old.rest parts.new.rest) }
{
    if is_redundant(clauses, trail, seen, place) {
        parts.dropped.push(place)?;
        return Ok(());
    }
    parts.rest = add_kept(trail, place, &mut parts.clause, parts.rest)?;
    Ok(())
}

/// The negations of the literal at the unique implication point and of those at the marked places before the conflict's
/// level that the others do not imply, and the place behind the last of these; and the places that are dropped.
fn collect(
    alloc: Global,
    clauses: &ClauseList,
    trail: &Trail,
    seen: &Seen,
    lower: &[usize],
    below: usize,
    uip: usize,
) -> Result<Parts, AllocError>
    requires vars { trail.now.vars ≡ clauses.now.vars }
    requires each { length seen.now ≡ trail.now.vars }
    requires named { AreNamed clauses.now.clauses trail.now }
    requires lower { IsTracked trail.now.lits below seen.now lower.now }
    requires after { below ≤ uip }
    requires inside { uip < length trail.now.lits }
    ensures { IfOk result (λ r. Collected trail.now.lits seen.now (is_redundant clauses.now.clauses trail.now seen.now) below uip r.clause.items r.dropped.items r.rest) }
{
    let mut clause = Vec::new(alloc);
    clause.push(trail.lit(uip).negated())?;
    let mut parts = Parts {
        clause,
        dropped: Vec::new(alloc),
        rest: 0,
    };
    for place in lower {
        add_place(clauses, trail, seen, *place, &mut parts)?;
    }
    Ok(parts)
}

/// Adds the id of the reason of the literal at the place, where the places before `next` are done with. Gives the next one.
fn hint_once(
    trail: &Trail,
    place: usize,
    hints: &mut IdList,
    next: usize,
) -> Result<usize, AllocError>
    requires inside { place < length trail.now.lits }
    requires fits { place + 1 < 2 ^ 64 }
    ensures { IfOk result (HintedOnce trail.now place hints.old hints.new next) }
{
    if place < next {
        return Ok(next);
    }
    hints.push(trail.reason(place))?;
    Ok(place + 1)
}

/// The ids of the reasons of the literals at these places, which are in order.
fn dropped_hints(alloc: Global, trail: &Trail, dropped: &[usize]) -> Result<IdList, AllocError>
    requires inside { All (λ n. n < length trail.now.lits) dropped.now }
    requires rising { IsNonDecreasing dropped.now }
    ensures { IfOk result (λ hints. (clauses : List (List ℤ)) (seen : List Bool) (from : ℕ) (c : List ℤ) (conflict : ℕ) → from ≤ length trail.now.lits → IsDerivable clauses trail.now seen dropped.now from c conflict → Leads clauses c seen trail.now.lits from hints) }
{
    // For the proof: there are no more literals on the trail than variables, which are fewer than 2^63.
    let _path = trail.len();
    let mut hints = IdList::new(alloc);
    let mut next = 0;
    for place in dropped {
        next = hint_once(trail, *place, &mut hints, next)?;
    }
    Ok(hints)
}

/// Adds the id of the reason of the literal at the place where it is marked.
fn add_hint(trail: &Trail, seen: &Seen, place: usize, hints: &mut IdList) -> Result<(), AllocError>
    requires inside { place < length trail.now.lits }
    requires each { length seen.now ≡ trail.now.vars }
    ensures { OnOk result (HintAt trail.now seen.now place hints.old hints.new) }
{
    if is_seen(trail, seen, place) {
        hints.push(trail.reason(place))?;
    }
    Ok(())
}

/// The ids of the reasons of the dropped literals and of all marked literals from a place on, in the order of the trail, and
/// last that of the conflict.
fn hints_of(
    alloc: Global,
    trail: &Trail,
    seen: &Seen,
    dropped: &[usize],
    from: usize,
    conflict: usize,
) -> Result<IdList, AllocError>
    requires each { length seen.now ≡ trail.now.vars }
    requires inside { from ≤ length trail.now.lits }
    requires low { All (λ n. n < length trail.now.lits) dropped.now }
    requires rising { IsNonDecreasing dropped.now }
    requires fits { conflict + 1 < 2 ^ 64 }
    ensures derives { IfOk result (λ hints. (clauses : List (List ℤ)) (c : List ℤ) → IsDerivable clauses trail.now seen.now dropped.now from c conflict → Derives clauses c hints) }
    ensures hinted { IfOk result (λ hints. (clauses : List (List ℤ)) (c : List ℤ) → IsDerivable clauses trail.now seen.now dropped.now from c conflict → All (λ h. h ≤ length clauses) hints) }
{
    let mut hints = dropped_hints(alloc, trail, dropped)?;
    for place in from..trail.len() {
        add_hint(trail, seen, place, &mut hints)?;
    }
    hints.push(conflict as u64 + 1)?;
    Ok(hints)
}

/// Raises the activity of the variables at these places, and of the marked ones from a place on.
fn raise_all(order: &mut Order, trail: &Trail, seen: &Seen, lower: &[usize], from: usize)
    requires { length seen.now ≡ trail.now.vars }
    ensures { order.new ≡ order.old }
{
    for place in lower {
        raise_at(order, trail, *place);
    }
    raise_seen(order, trail, seen, from);
}

/// Raises the activity of the variable that was set at the place.
fn raise_at(order: &mut Order, trail: &Trail, place: usize)
    ensures { order.new ≡ order.old }
{
    if place < trail.len() {
        order.raise(trail.lit(place).place() as usize);
    }
}

/// Raises the activity of the marked variables from a place of the trail on.
fn raise_seen(order: &mut Order, trail: &Trail, seen: &Seen, from: usize)
    requires { length seen.now ≡ trail.now.vars }
    ensures { order.new ≡ order.old }
{
    for place in from..trail.len() {
        if is_seen(trail, seen, place) {
            raise_at(order, trail, place);
        }
    }
}

/// The clause that a conflict rests on, where `below` is the place of the last decision.
///
/// Literals of the conflict's level are resolved up to the first unique implication point. Of the others those stay that
/// the rest does not imply: one is dropped where its reason's other literals are all among those that were marked.
pub fn learn(
    alloc: Global,
    clauses: &ClauseList,
    trail: &Trail,
    below: usize,
    seen: &mut Seen,
    order: &mut Order,
    conflict: usize,
) -> Result<Learned, AllocError>
    requires vars { trail.now.vars ≡ clauses.now.vars }
    requires each { length seen.old ≡ trail.now.vars }
    requires conflict { IsConflict clauses.now.clauses trail.now.lits conflict }
    requires quiet { AreQuiet (has (take below trail.now.lits)) clauses.now.clauses }
    requires inside { below ≤ length trail.now.lits }
    requires named { AreNamed clauses.now.clauses trail.now }
    requires level { AreReasons clauses.now.clauses trail.now (below + 1) (length trail.now.lits) }
    ensures learned { IfOk result (λ r. IsLearned clauses.now.clauses trail.now below r.clause.items r.hints r.rest) }
    ensures len { length seen.new ≡ length seen.old }
    ensures order { order.new ≡ order.old }
{
    // For the proof: the number of clauses fits 64 bits.
    let _few = clauses.len();
    // For the proof: the trail's literals are of its variables and apart.
    let _path = trail.len();
    let mut lower = Vec::new(alloc);
    let uip = analyze(clauses, trail, below, seen, conflict, &mut lower)?;
    let Parts {
        clause,
        mut dropped,
        rest,
    } = collect(alloc, clauses, trail, seen, lower.as_slice(), below, uip)?;
    sort_places(&mut dropped);
    let hints = hints_of(alloc, trail, seen, dropped.as_slice(), uip + 1, conflict)?;
    raise_all(order, trail, seen, lower.as_slice(), uip);
    Ok(Learned {
        clause,
        hints,
        rest,
    })
}

/// The hints that derive the empty clause from a conflict before the first decision.
pub fn refute(
    alloc: Global,
    clauses: &ClauseList,
    trail: &Trail,
    seen: &mut Seen,
    conflict: usize,
) -> Result<IdList, AllocError>
    requires vars { trail.now.vars ≡ clauses.now.vars }
    requires each { length seen.old ≡ trail.now.vars }
    requires conflict { IsConflict clauses.now.clauses trail.now.lits conflict }
    requires first { AreReasons clauses.now.clauses trail.now 0 (length trail.now.lits) }
    ensures derived { IfOk result (λ hints. Derives clauses.now.clauses [] hints) }
    ensures len { length seen.new ≡ length seen.old }
{
    // For the proof: the number of clauses fits 64 bits.
    let _few = clauses.len();
    // For the proof: the trail's literals are of its variables and apart.
    let _path = trail.len();
    let mut lower = Vec::new(alloc);
    analyze_zero(clauses, trail, seen, conflict, &mut lower)?;
    let hints = hints_of(alloc, trail, seen, &[], 0, conflict)?;
    Ok(hints)
}
