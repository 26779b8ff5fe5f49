//! Which instances an assignment violates.

ghost use Rattle.std.specs.Prelude.{◌≡◌, ℕ, [], length, map, All, IfOk, OnOk, true};
ghost use Rattle.hk_term.specs.Meaning.{reading_of, value};
ghost use Rattle.hk_cnf.specs.Clauses.{clauses_value};
ghost use Rattle.hk_inst.specs.Inputs.{number_in, completed};
ghost use Rattle.hk_inst.specs.ReadNumbers.{numbers_at};
ghost use Rattle.hk_inst.specs.States.{asked_of, IsKept};
ghost use Rattle.hk_inst.specs.Violations.{IsViolated};

use crate::clash::clashes;
use crate::completion::{ReadNumbers, completion};
use crate::instance::InstanceList;
use crate::search::search_all;
use crate::state::State;
use hk_cnf::Assignment;
use hk_term::{Valuation, ValueRoom};
use std::alloc::{AllocError, Global};

// None where the goal is true in the completed case. Else pairs of reads, or where these agree tuples of quantifiers. The case
// is lent, and its numbers are as before.
pub(crate) fn violated_in(
    alloc: Global,
    s: &State,
    a: &Assignment,
    numbers: &[ReadNumbers],
    case: &mut Valuation,
) -> Result<InstanceList, AllocError>
    requires kept { IsKept s.now }
    requires size { length a.now ≡ s.now.gates.vars }
    requires satisfied { clauses_value a.now s.now.gates.clauses ≡ true }
    requires numbers { numbers.now ≡ map (numbers_at s.now.terms (number_in s.now.bits a.now)) s.now.reads.items }
    requires case { reading_of case.old ≡ completed s.now.terms (asked_of s.now).table (number_in s.now.bits a.now) }
    ensures case { OnOk result (reading_of case.new ≡ reading_of case.old) }
    ensures empty { IfOk result (λ l. l ≡ [] → value s.now.terms s.now.goal (completed s.now.terms (asked_of s.now).table (number_in s.now.bits a.now)) ≡ 1) }
    ensures holds { IfOk result (λ l. value s.now.terms s.now.goal (completed s.now.terms (asked_of s.now).table (number_in s.now.bits a.now)) ≡ 1 → l ≡ []) }
    ensures each { IfOk result (λ l. All (IsViolated (asked_of s.now) (number_in s.now.bits a.now) (completed s.now.terms (asked_of s.now).table (number_in s.now.bits a.now))) l) }
{
    let mut room = ValueRoom::new(alloc, &s.terms)?;
    if s.terms.value_with(case, s.goal, &mut room) == 1 {
        return Ok(InstanceList::new(alloc));
    }
    let values = a.as_slice();
    let pairs = clashes(alloc, s, values, numbers, &case.arrays)?;
    if !pairs.as_slice().is_empty() {
        return Ok(pairs);
    }
    let tuples = search_all(alloc, s, values, case, &mut room)?;
    Ok(tuples)
}

// The instances that an assignment violates in the case that it gives.
pub(crate) fn violated(alloc: Global, s: &State, a: &Assignment) -> Result<InstanceList, AllocError>
    requires kept { IsKept s.now }
    requires size { length a.now ≡ s.now.gates.vars }
    requires satisfied { clauses_value a.now s.now.gates.clauses ≡ true }
    ensures empty { IfOk result (λ l. l ≡ [] → value s.now.terms s.now.goal (completed s.now.terms (asked_of s.now).table (number_in s.now.bits a.now)) ≡ 1) }
    ensures holds { IfOk result (λ l. value s.now.terms s.now.goal (completed s.now.terms (asked_of s.now).table (number_in s.now.bits a.now)) ≡ 1 → l ≡ []) }
    ensures each { IfOk result (λ l. All (IsViolated (asked_of s.now) (number_in s.now.bits a.now) (completed s.now.terms (asked_of s.now).table (number_in s.now.bits a.now))) l) }
{
    let (mut case, numbers) = completion(alloc, s, a)?;
    let found = violated_in(alloc, s, a, numbers.as_slice(), &mut case);
    found
}
