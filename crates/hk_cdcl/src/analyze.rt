//! Conflict analysis: which places of the trail a conflict rests on.
//!
//! Variables are marked from the conflict backwards. On the conflict's level the marked literals are resolved with their
//! reasons until one is left, the first unique implication point; the marked literals of level zero are all resolved.

ghost use Rattle.std.specs.Prelude.{◌≡◌, ◌⊎◌, ◌+◌, ◌<◌, ◌≤◌, false, length, take, slice_index, slice_set, true, OnOk, IfOk};
ghost use Rattle.std.specs.List.{All};
ghost use Rattle.hk_cnf.specs.Literal.{IsWithin, place_of, has};
ghost use Rattle.hk_cdcl.specs.Fresh.{AreQuiet};
ghost use Rattle.hk_cdcl.specs.Path.{AreApart, IsReason, AreReasons, lit_at, clause_at};
ghost use Rattle.hk_cdcl.specs.Propagation.{IsConflict};
ghost use Rattle.hk_cdcl.specs.Analysis.{seen_at, HasVariable, Marks, IsLowestOf, IsLowest, Resolved, Closed, IsTraced, IsTracked};

use crate::seen::Seen;
use crate::trail::Trail;
use hk_cnf::{ClauseList, Lit};
use std::alloc::AllocError;

/// Whether the variable of the literal at the place is marked.
pub fn is_seen(trail: &Trail, seen: &Seen, place: usize) -> bool
    requires inside { place < length trail.now.lits }
    requires each { length seen.now ≡ trail.now.vars }
    ensures { result ≡ seen_at seen.now (lit_at trail.now.lits place) }
{
    let lit = trail.lit(place);
    // For the proof: the trail's literals are of its variables.
    let _path = trail.len();
    seen.is_marked(lit.place())
}

/// Marks the variable of a literal, and keeps its place where that is new and before `below`.
fn mark_one(
    seen: &mut Seen,
    trail: &Trail,
    below: usize,
    lit: Lit,
    lower: &mut Vec<usize>,
) -> Result<(), AllocError>
    requires within { IsWithin trail.now.vars lit }
    requires each { length seen.old ≡ trail.now.vars }
    ensures len { length seen.new ≡ length seen.old }
    ensures marks { OnOk result (seen.new ≡ slice_set seen.old (place_of lit) true) }
    ensures lower { OnOk result (IsTracked trail.now.lits below seen.old lower.old.items → IsTracked trail.now.lits below seen.new lower.new.items) }
{
    if seen.is_marked(lit.place()) {
        return Ok(());
    }
    seen.mark(lit.place());
    let place = trail.place(lit);
    if place < below {
        lower.push(place)?;
    }
    Ok(())
}

/// Marks the variables of the clause, and keeps the places before `below` that are new.
fn mark_all(
    seen: &mut Seen,
    trail: &Trail,
    below: usize,
    clause: &[Lit],
    lower: &mut Vec<usize>,
) -> Result<(), AllocError>
    requires each { length seen.old ≡ trail.now.vars }
    requires within { All (IsWithin trail.now.vars) clause.now }
    ensures len { length seen.new ≡ length seen.old }
    ensures marks { OnOk result (Marks seen.old seen.new clause.now) }
    ensures lower { OnOk result (IsTracked trail.now.lits below seen.old lower.old.items → IsTracked trail.now.lits below seen.new lower.new.items) }
{
    // For the proof: the trail's literals are of its variables and apart.
    let _path = trail.len();
    for lit in clause {
        mark_one(seen, trail, below, *lit, lower)?;
    }
    Ok(())
}

/// The lower of two places, where the first is not before `below`.
fn lower_of(below: usize, place: usize, lower: usize) -> usize
    ensures less { result ≤ lower }
    ensures lesser { below ≤ place → result ≤ place }
    ensures one { (result ≡ lower) ⊎ ((result ≡ place) × (below ≤ place)) }
{
    if below <= place && place < lower {
        place
    } else {
        lower
    }
}

/// The lowest place from `below` on at which a literal of the clause was set, or `lowest` where that is lower.
fn lowest_of(trail: &Trail, below: usize, clause: &[Lit], lowest: usize) -> usize
    requires within { All (IsWithin trail.now.vars) clause.now }
    requires set { All (λ l. HasVariable trail.now.lits (place_of l)) clause.now }
    ensures { IsLowestOf trail.now.lits below clause.now lowest result }
{
    let mut lower = lowest;
    for lit in clause {
        lower = lower_of(below, trail.place(*lit), lower);
    }
    lower
}

/// The clause that made the literal at the place true.
pub fn reason_of<'a>(clauses: &'a ClauseList, trail: &Trail, place: usize) -> &'a [Lit]
    requires inside { place < length trail.now.lits }
    requires reason { IsReason clauses.now.clauses trail.now.lits place (slice_index trail.now.reasons place) }
    ensures same { result.now ≡ clause_at clauses.now.clauses (slice_index trail.now.reasons place) }
    ensures within { All (IsWithin clauses.now.vars) result.now }
{
    clauses.clause((trail.reason(place) - 1) as usize)
}

/// Resolves the literal at a place, where it is marked, with its reason.
fn resolve(
    clauses: &ClauseList,
    trail: &Trail,
    below: usize,
    seen: &mut Seen,
    place: usize,
    lower: &mut Vec<usize>,
) -> Result<(), AllocError>
    requires vars { trail.now.vars ≡ clauses.now.vars }
    requires each { length seen.old ≡ trail.now.vars }
    requires apart { AreApart trail.now.lits }
    requires reason { IsReason clauses.now.clauses trail.now.lits place (slice_index trail.now.reasons place) }
    requires inside { place < length trail.now.lits }
    ensures len { length seen.new ≡ length seen.old }
    ensures marks { seen_at seen.old (lit_at trail.now.lits place) ≡ true → OnOk result (Marks seen.old seen.new (clause_at clauses.now.clauses (slice_index trail.now.reasons place))) }
    ensures resolved { OnOk result (Resolved clauses.now.clauses trail.now seen.old seen.new place) }
    ensures lower { OnOk result (IsTracked trail.now.lits below seen.old lower.old.items → IsTracked trail.now.lits below seen.new lower.new.items) }
{
    if !is_seen(trail, seen, place) {
        return Ok(());
    }
    mark_all(seen, trail, below, reason_of(clauses, trail, place), lower)?;
    Ok(())
}

/// The conflict's level.
#[derive(Clone, Copy)]
struct Level {
    /// The places of the trail before it.
    below: usize,
    /// Its lowest marked place.
    lowest: usize,
}

/// Resolves the literal at a place of the conflict's level, where it is marked. Gives the lowest marked place of the level
/// then.
fn resolve_level(
    clauses: &ClauseList,
    trail: &Trail,
    level: Level,
    seen: &mut Seen,
    place: usize,
    lower: &mut Vec<usize>,
) -> Result<usize, AllocError>
    requires vars { trail.now.vars ≡ clauses.now.vars }
    requires each { length seen.old ≡ trail.now.vars }
    requires apart { AreApart trail.now.lits }
    requires reason { IsReason clauses.now.clauses trail.now.lits place (slice_index trail.now.reasons place) }
    requires inside { place < length trail.now.lits }
    requires lowest { IsLowest trail.now.lits level.below seen.old level.lowest }
    ensures len { length seen.new ≡ length seen.old }
    ensures lowest { IfOk result (IsLowest trail.now.lits level.below seen.new) }
    ensures less { IfOk result (λ r. r ≤ level.lowest) }
    ensures resolved { OnOk result (Resolved clauses.now.clauses trail.now seen.old seen.new place) }
    ensures lower { OnOk result (IsTracked trail.now.lits level.below seen.old lower.old.items → IsTracked trail.now.lits level.below seen.new lower.new.items) }
{
    if !is_seen(trail, seen, place) {
        return Ok(level.lowest);
    }
    resolve(clauses, trail, level.below, seen, place, lower)?;
    let reason = reason_of(clauses, trail, place);
    let least = lowest_of(trail, level.below, reason, level.lowest);
    Ok(least)
}

/// The first unique implication point: resolves the marked literals of the conflict's level, from the last on, until one
/// is left, and gives its place.
fn first_uip(
    clauses: &ClauseList,
    trail: &Trail,
    below: usize,
    seen: &mut Seen,
    mut lowest: usize,
    lower: &mut Vec<usize>,
) -> Result<usize, AllocError>
    requires vars { trail.now.vars ≡ clauses.now.vars }
    requires each { length seen.old ≡ trail.now.vars }
    requires apart { AreApart trail.now.lits }
    requires reasons { AreReasons clauses.now.clauses trail.now (below + 1) (length trail.now.lits) }
    requires lowest { IsLowest trail.now.lits below seen.old lowest }
    ensures len { length seen.new ≡ length seen.old }
    ensures lowest { IfOk result (IsLowest trail.now.lits below seen.new) }
    ensures closed { IfOk result (λ r. Closed clauses.now.clauses trail.now seen.old seen.new (r + 1) (length trail.now.lits)) }
    ensures lower { OnOk result (IsTracked trail.now.lits below seen.old lower.old.items → IsTracked trail.now.lits below seen.new lower.new.items) }
{
    let mut place = trail.len();
    while lowest + 1 < place {
        place -= 1;
        lowest = resolve_level(clauses, trail, Level { below, lowest }, seen, place, lower)?;
    }
    Ok(lowest)
}

/// Resolves the marked literals before a place, from the last on.
fn resolve_first(
    clauses: &ClauseList,
    trail: &Trail,
    seen: &mut Seen,
    zero: usize,
    lower: &mut Vec<usize>,
) -> Result<(), AllocError>
    requires vars { trail.now.vars ≡ clauses.now.vars }
    requires each { length seen.old ≡ trail.now.vars }
    requires apart { AreApart trail.now.lits }
    requires inside { zero ≤ length trail.now.lits }
    requires reasons { AreReasons clauses.now.clauses trail.now 0 zero }
    ensures len { length seen.new ≡ length seen.old }
    ensures closed { OnOk result (Closed clauses.now.clauses trail.now seen.old seen.new 0 zero) }
{
    let mut place = zero;
    while 0 < place {
        place -= 1;
        resolve(clauses, trail, 0, seen, place, lower)?;
    }
    Ok(())
}

/// Marks what a conflict rests on, and gives the place of its first unique implication point. `below` is the place of
/// the last decision, and the places before it that are marked are added to `lower`, which has none yet.
///
/// Looks at the literals of the conflict's level and at the reasons of those that are resolved, and at nothing else.
pub fn analyze(
    clauses: &ClauseList,
    trail: &Trail,
    below: usize,
    seen: &mut Seen,
    conflict: usize,
    lower: &mut Vec<usize>,
) -> Result<usize, AllocError>
    requires vars { trail.now.vars ≡ clauses.now.vars }
    requires each { length seen.old ≡ trail.now.vars }
    requires none { length lower.old.items ≡ 0 }
    requires conflict { IsConflict clauses.now.clauses trail.now.lits conflict }
    requires quiet { AreQuiet (has (take below trail.now.lits)) clauses.now.clauses }
    requires inside { below ≤ length trail.now.lits }
    requires level { AreReasons clauses.now.clauses trail.now (below + 1) (length trail.now.lits) }
    ensures len { length seen.new ≡ length seen.old }
    ensures uip { IfOk result (IsLowest trail.now.lits below seen.new) }
    ensures traced { IfOk result (λ r. IsTraced clauses.now.clauses trail.now seen.new (λ _. false) below r conflict) }
    ensures lower { OnOk result (IsTracked trail.now.lits below seen.new lower.new.items) }
{
    seen.clear();
    let clause = clauses.clause(conflict);
    let len = trail.len();
    mark_all(seen, trail, below, clause, lower)?;
    let lowest = lowest_of(trail, below, clause, len);
    let uip = first_uip(clauses, trail, below, seen, lowest, lower)?;
    Ok(uip)
}

/// Marks what a conflict at level zero rests on.
pub fn analyze_zero(
    clauses: &ClauseList,
    trail: &Trail,
    seen: &mut Seen,
    conflict: usize,
    lower: &mut Vec<usize>,
) -> Result<(), AllocError>
    requires vars { trail.now.vars ≡ clauses.now.vars }
    requires each { length seen.old ≡ trail.now.vars }
    requires conflict { IsConflict clauses.now.clauses trail.now.lits conflict }
    requires first { AreReasons clauses.now.clauses trail.now 0 (length trail.now.lits) }
    ensures len { length seen.new ≡ length seen.old }
    ensures traced { OnOk result (let n = length trail.now.lits in IsTraced clauses.now.clauses trail.now seen.new (λ _. true) n n conflict) }
{
    seen.clear();
    let len = trail.len();
    mark_all(seen, trail, 0, clauses.clause(conflict), lower)?;
    resolve_first(clauses, trail, seen, len, lower)?;
    Ok(())
}
