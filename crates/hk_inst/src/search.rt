//! Tuples at which the body of a true quantifier is false under a case.

ghost use Rattle.std.specs.Prelude.{◌≡◌, ◌≢◌, ℕ, ◌<◌, ◌≤◌, ◌++◌, ◌∷◌, [], length, reverse, All, List, IfOk, OnOk, false, true};
ghost use Rattle.hk_term.specs.Shape.{AllFitIn};
ghost use Rattle.hk_term.specs.Meaning.{Reading, reading_of, with_var, value};
ghost use Rattle.hk_cnf.specs.Literal.{IsWithin};
ghost use Rattle.hk_blast.specs.Blasted.{word_in};
ghost use Rattle.hk_inst.specs.Inputs.{number_in};
ghost use Rattle.hk_inst.specs.Truths.{IsTrue, is_among};
ghost use Rattle.hk_inst.specs.States.{asked_of};
ghost use Rattle.hk_inst.specs.Violations.{IsViolated, IsSearch, AllTried};

use crate::completion::number_of;
use crate::instance::{Instance, InstanceList, SizeList};
use crate::state::State;
use crate::subject::quantifier_at;
use hk_term::{Bound, TermId, Valuation, ValueRoom};
use std::alloc::{AllocError, Global};

// How many tuples are tried once something was found, where nothing was tried before.
const SPARE: u64 = 64;

// How many tuples of one quantifier are found at most in one search.
const MOST: usize = 8;

// How far a search goes on once something was found: so many tuples more, or up to so many instances.
#[derive(Drop)]
struct Effort {
    spare: u64,
    limit: usize,
}

// The effort of a search behind what was found.
fn effort_behind(found: &InstanceList) -> Effort {
    Effort {
        spare: SPARE,
        limit: found.as_slice().len().saturating_add(MOST),
    }
}

// Whether a search goes on behind a tuple. It does where nothing was found.
fn goes_on(effort: &mut Effort, found: &InstanceList) -> bool
    ensures { result ≡ false → found.now ≢ [] }
{
    let len = found.as_slice().len();
    if len == 0 {
        effort.spare = effort.spare.saturating_add(1);
        return true;
    }
    if effort.spare == 0 || len >= effort.limit {
        return false;
    }
    effort.spare -= 1;
    true
}

// What is looked for: tuples of the quantifier of this number, at which this term of a question, its body, is false.
#[derive(Drop)]
struct Wanted<'a> {
    s: &'a State,
    quantifier: u64,
    body: TermId,
}

// The variables that are bound from here on: the first, and the rest.
#[derive(Drop)]
struct Bounds<'a> {
    first: &'a Bound,
    rest: &'a [Bound],
}

// How far a search has come: the first numbers of a tuple, what was found, and how far it goes on.
#[derive(Drop)]
struct Progress {
    tuple: Vec<u64>,
    found: InstanceList,
    effort: Effort,
}

// One tuple is tried: where the body is false, and it was not added, it comes behind what was found.
fn try_tuple(
    alloc: Global,
    wanted: &Wanted<'_>,
    tuple: &[u64],
    case: &Valuation,
    room: &mut ValueRoom,
    found: &mut InstanceList,
) -> Result<(), AllocError>
    requires body { wanted.now.body < length wanted.now.s.now.terms }
    requires room { length room.old ≡ length wanted.now.s.now.terms }
    ensures room { length room.new ≡ length wanted.now.s.now.terms }
    ensures kept { found.new ≡ [] → found.old ≡ [] }
    ensures tried { OnOk result (found.new ≡ [] → is_among wanted.now.s.now.instances (Instance.Tuple wanted.now.quantifier tuple.now) ≡ false → value wanted.now.s.now.terms wanted.now.body (reading_of case.now) ≡ 1) }
    ensures found { OnOk result ((f : ℕ → ℕ) (r : Reading) → (is_among wanted.now.s.now.instances (Instance.Tuple wanted.now.quantifier tuple.now) ≡ false → (value wanted.now.s.now.terms wanted.now.body (reading_of case.now) ≡ 1 → ⊥) → IsViolated (asked_of wanted.now.s.now) f r (Instance.Tuple wanted.now.quantifier tuple.now)) → All (IsViolated (asked_of wanted.now.s.now) f r) found.old → All (IsViolated (asked_of wanted.now.s.now) f r) found.new) }
{
    room.begin();
    if wanted.s.terms.value_with(case, wanted.body, room) == 1 {
        return Ok(());
    }
    let indices = SizeList::from_vec(tuple.to_vec(alloc)?);
    let instance = Instance::Tuple {
        quantifier: wanted.quantifier,
        indices,
    };
    if !wanted.s.instances.contains(&instance) {
        found.push(instance)?;
    }
    Ok(())
}

// The tuples with a number for the first of what is bound are tried, behind the first numbers. It is told whether the search
// goes on.
#[cycle(searching)]
fn at_number(
    alloc: Global,
    wanted: &Wanted<'_>,
    bounds: &Bounds<'_>,
    number: u64,
    case: &mut Valuation,
    room: &mut ValueRoom,
    progress: &mut Progress,
) -> Result<bool, AllocError>
    requires body { wanted.now.body < length wanted.now.s.now.terms }
    requires number { number < bounds.now.first.now.size }
    requires room { length room.old ≡ length wanted.now.s.now.terms }
    ensures room { length room.new ≡ length wanted.now.s.now.terms }
    ensures case { OnOk result (reading_of case.new ≡ reading_of case.old) }
    ensures tuple { OnOk result (progress.new.tuple.items ≡ progress.old.tuple.items) }
    ensures kept { progress.new.found ≡ [] → progress.old.found ≡ [] }
    ensures stops { IfOk result (λ goes_on. goes_on ≡ false → progress.new.found ≢ []) }
    ensures tried { OnOk result (progress.new.found ≡ [] → AllTried wanted.now.s.now.terms wanted.now.s.now.instances wanted.now.quantifier wanted.now.body bounds.now.rest.now (progress.old.tuple.items ++ number ∷ []) (with_var (reading_of case.old) bounds.now.first.now.id number)) }
    ensures found { OnOk result ((f : ℕ → ℕ) (r : Reading) → IsSearch (asked_of wanted.now.s.now) f r wanted.now.quantifier wanted.now.body (bounds.now.first.now ∷ bounds.now.rest.now) progress.old.tuple.items (reading_of case.old) → All (IsViolated (asked_of wanted.now.s.now) f r) progress.old.found → All (IsViolated (asked_of wanted.now.s.now) f r) progress.new.found) }
{
    let id = bounds.first.id;
    let before = case.vars.get(id);
    case.vars.set(id, number)?;
    progress.tuple.push(number)?;
    let goes_on = search(alloc, wanted, bounds.rest, case, room, progress)?;
    progress.tuple.pop();
    case.vars.set(id, before)?;
    Ok(goes_on)
}

// The tuples with each number for the first of what is bound are tried, behind the first numbers. It is told whether the
// search goes on.
#[cycle(searching)]
fn each_number(
    alloc: Global,
    wanted: &Wanted<'_>,
    bounds: &Bounds<'_>,
    case: &mut Valuation,
    room: &mut ValueRoom,
    progress: &mut Progress,
) -> Result<bool, AllocError>
    requires body { wanted.now.body < length wanted.now.s.now.terms }
    requires room { length room.old ≡ length wanted.now.s.now.terms }
    ensures room { length room.new ≡ length wanted.now.s.now.terms }
    ensures case { OnOk result (reading_of case.new ≡ reading_of case.old) }
    ensures tuple { OnOk result (progress.new.tuple.items ≡ progress.old.tuple.items) }
    ensures kept { progress.new.found ≡ [] → progress.old.found ≡ [] }
    ensures stops { IfOk result (λ goes_on. goes_on ≡ false → progress.new.found ≢ []) }
    ensures tried { OnOk result (progress.new.found ≡ [] → (n : ℕ) → n < bounds.now.first.now.size → AllTried wanted.now.s.now.terms wanted.now.s.now.instances wanted.now.quantifier wanted.now.body bounds.now.rest.now (progress.old.tuple.items ++ n ∷ []) (with_var (reading_of case.old) bounds.now.first.now.id n)) }
    ensures found { OnOk result ((f : ℕ → ℕ) (r : Reading) → IsSearch (asked_of wanted.now.s.now) f r wanted.now.quantifier wanted.now.body (bounds.now.first.now ∷ bounds.now.rest.now) progress.old.tuple.items (reading_of case.old) → All (IsViolated (asked_of wanted.now.s.now) f r) progress.old.found → All (IsViolated (asked_of wanted.now.s.now) f r) progress.new.found) }
{
    for number in 0..bounds.first.size {
        let goes_on = at_number(alloc, wanted, bounds, number, case, room, progress)?;
        if !goes_on {
            return Ok(false);
        }
    }
    Ok(true)
}

// The tuples of what is bound are tried, behind the first numbers. It is told whether the search goes on.
#[cycle(searching)]
fn search(
    alloc: Global,
    wanted: &Wanted<'_>,
    bound: &[Bound],
    case: &mut Valuation,
    room: &mut ValueRoom,
    progress: &mut Progress,
) -> Result<bool, AllocError>
    requires body { wanted.now.body < length wanted.now.s.now.terms }
    requires room { length room.old ≡ length wanted.now.s.now.terms }
    ensures room { length room.new ≡ length wanted.now.s.now.terms }
    ensures case { OnOk result (reading_of case.new ≡ reading_of case.old) }
    ensures tuple { OnOk result (progress.new.tuple.items ≡ progress.old.tuple.items) }
    ensures kept { progress.new.found ≡ [] → progress.old.found ≡ [] }
    ensures stops { IfOk result (λ goes_on. goes_on ≡ false → progress.new.found ≢ []) }
    ensures tried { OnOk result (progress.new.found ≡ [] → AllTried wanted.now.s.now.terms wanted.now.s.now.instances wanted.now.quantifier wanted.now.body bound.now progress.old.tuple.items (reading_of case.old)) }
    ensures found { OnOk result ((f : ℕ → ℕ) (r : Reading) → IsSearch (asked_of wanted.now.s.now) f r wanted.now.quantifier wanted.now.body bound.now progress.old.tuple.items (reading_of case.old) → All (IsViolated (asked_of wanted.now.s.now) f r) progress.old.found → All (IsViolated (asked_of wanted.now.s.now) f r) progress.new.found) }
{
    match bound {
        [] => {
            try_tuple(
                alloc,
                wanted,
                &progress.tuple,
                case,
                room,
                &mut progress.found,
            )?;
            Ok(goes_on(&mut progress.effort, &progress.found))
        }
        [first, rest @ ..] => {
            let bounds = Bounds { first, rest };
            each_number(alloc, wanted, &bounds, case, room, progress)
        }
    }
}

// The tuples of a quantifier are tried, if it is true.
fn search_in(
    alloc: Global,
    s: &State,
    values: &[bool],
    k: u64,
    case: &mut Valuation,
    room: &mut ValueRoom,
    progress: &mut Progress,
) -> Result<(), AllocError>
    requires fit { AllFitIn (reverse s.now.terms) }
    requires there { All (λ t. t < length s.now.terms) s.now.quantifiers.items }
    requires short { (k : ℕ) → length (word_in s.now.bits k) ≤ 64 }
    requires within { (k : ℕ) → All (IsWithin (length values.now)) (word_in s.now.bits k) }
    requires room { length room.old ≡ length s.now.terms }
    ensures room { length room.new ≡ length s.now.terms }
    ensures case { OnOk result (reading_of case.new ≡ reading_of case.old) }
    ensures kept { progress.new.found ≡ [] → progress.old.found ≡ [] }
    ensures tried { OnOk result (progress.new.found ≡ [] → (ks : List ℕ) → is_among s.now.instances (Instance.Tuple k ks) ≡ false → IsTrue (asked_of s.now).nodes (asked_of s.now).table (number_in s.now.bits values.now) (reading_of case.old) (Instance.Tuple k ks)) }
    ensures found { OnOk result (All (IsViolated (asked_of s.now) (number_in s.now.bits values.now) (reading_of case.old)) progress.old.found → All (IsViolated (asked_of s.now) (number_in s.now.bits values.now) (reading_of case.old)) progress.new.found) }
{
    let Some(place) = quantifier_at(&s.terms, s.quantifiers.as_slice(), k) else {
        return Ok(());
    };
    if number_of(values, &s.bits, place.0) != 1 {
        return Ok(());
    }
    let wanted = Wanted {
        s,
        quantifier: k,
        body: place.2,
    };
    progress.tuple.clear();
    progress.effort = effort_behind(&progress.found);
    search(alloc, &wanted, place.1.as_slice(), case, room, progress)?;
    Ok(())
}

// The tuples of each true quantifier are tried. Where nothing is found, the body of each is true at every tuple that was not
// added.
pub(crate) fn search_all(
    alloc: Global,
    s: &State,
    values: &[bool],
    case: &mut Valuation,
    room: &mut ValueRoom,
) -> Result<InstanceList, AllocError>
    requires fit { AllFitIn (reverse s.now.terms) }
    requires there { All (λ t. t < length s.now.terms) s.now.quantifiers.items }
    requires short { (k : ℕ) → length (word_in s.now.bits k) ≤ 64 }
    requires within { (k : ℕ) → All (IsWithin (length values.now)) (word_in s.now.bits k) }
    requires room { length room.old ≡ length s.now.terms }
    ensures case { OnOk result (reading_of case.new ≡ reading_of case.old) }
    ensures tried { IfOk result (λ l. l ≡ [] → (k : ℕ) → k < length s.now.quantifiers.items → (ks : List ℕ) → is_among s.now.instances (Instance.Tuple k ks) ≡ false → IsTrue (asked_of s.now).nodes (asked_of s.now).table (number_in s.now.bits values.now) (reading_of case.old) (Instance.Tuple k ks)) }
    ensures found { IfOk result (λ l. All (IsViolated (asked_of s.now) (number_in s.now.bits values.now) (reading_of case.old)) l) }
{
    let found = InstanceList::new(alloc);
    let effort = effort_behind(&found);
    let mut progress = Progress {
        tuple: Vec::new(alloc),
        found,
        effort,
    };
    for k in 0..s.quantifiers.len() {
        search_in(alloc, s, values, k as u64, case, room, &mut progress)?;
    }
    Ok(progress.found)
}
