//! The terms of a quantifier's opening: variables for a tuple, its body at them, and what is required of it.

ghost use Rattle.std.specs.Prelude.{◌≡◌, ℕ, ◌+◌, ◌<◌, ◌≤◌, ◌^◌, ◌++◌, List, [], ◌∷◌, length, reverse, slice_get, Some, IfOk, OnOk};
ghost use Rattle.hk_term.specs.Shape.{AllFitIn, IsDistinct, width, Grows};
ghost use Rattle.hk_term.specs.declared.node.Node.{Node};
ghost use Rattle.hk_copy.specs.Reach.{AllPass};
ghost use Rattle.hk_copy.specs.Stands.{standing};
ghost use Rattle.hk_copy.specs.Copies.{Copies};
ghost use Rattle.hk_inst.specs.Demanded.{IsOpening};
ghost use Rattle.hk_inst.specs.Questions.{wide_from, pairs_from};
ghost use Rattle.hk_inst.specs.Growing.{ids_below};

use crate::opening::{Opening, StandList};
use crate::required::choice;
use hk_copy::{Stand, copy};
use hk_term::{Bound, TermId, Terms};
use std::alloc::{AllocError, Global};

// Variables for these, from an id on, behind others.
fn push_stands(bound: &[Bound], first: u32, stands: &mut Vec<Stand>) -> Result<(), AllocError>
    requires ids { first + length bound.now < 2 ^ 32 }
    ensures { OnOk result (stands.new.items ≡ stands.old.items ++ wide_from bound.now first) }
{
    match bound {
        [] => Ok(()),
        [_, rest @ ..] => {
            stands.push(Stand::Other {
                width: 64,
                id: first,
            })?;
            push_stands(rest, first + 1, stands)
        }
    }
}

// What each of these stands for, behind others.
fn push_pairs(bound: &[Bound], first: u32, pairs: &mut Vec<(u32, Stand)>) -> Result<(), AllocError>
    requires ids { first + length bound.now < 2 ^ 32 }
    ensures { OnOk result (pairs.new.items ≡ pairs.old.items ++ pairs_from bound.now first) }
{
    match bound {
        [] => Ok(()),
        [b, rest @ ..] => {
            pairs.push((
                b.id,
                Stand::Other {
                    width: 64,
                    id: first,
                },
            ))?;
            push_pairs(rest, first + 1, pairs)
        }
    }
}

fn stands_for(alloc: Global, bound: &[Bound], first: u32) -> Result<StandList, AllocError>
    requires ids { first + length bound.now < 2 ^ 32 }
    ensures { IfOk result (λ l. l ≡ wide_from bound.now first) }
{
    let mut stands = Vec::new(alloc);
    push_stands(bound, first, &mut stands)?;
    Ok(StandList { items: stands })
}

fn pairs_for(alloc: Global, bound: &[Bound], first: u32) -> Result<Vec<(u32, Stand)>, AllocError>
    requires ids { first + length bound.now < 2 ^ 32 }
    ensures { IfOk result (λ l. l.items ≡ standing bound.now (wide_from bound.now first)) }
{
    let mut pairs = Vec::new(alloc);
    push_pairs(bound, first, &mut pairs)?;
    pairs.reverse();
    Ok(pairs)
}

// The body of a quantifier at variables from an id on, which no list of the terms binds.
fn body_at(
    alloc: Global,
    terms: &mut Terms,
    bound: &[Bound],
    body: TermId,
    first: u32,
) -> Result<TermId, AllocError>
    requires body { body < length terms.old }
    requires truth { width terms.old body ≡ 1 }
    requires ids { first + length bound.now < 2 ^ 32 }
    requires below { AllPass (ids_below first) terms.old }
    ensures copies { IfOk result (λ r. Copies terms.new (standing bound.now (wide_from bound.now first)) body r) }
    ensures within { IfOk result (λ r. r < length terms.new) }
    ensures width { IfOk result (λ r. width terms.new r ≡ 1) }
    ensures keeps { (k : ℕ) (n : Node) → slice_get terms.old k ≡ Some n → slice_get terms.new k ≡ Some n }
    ensures keeps_widths { (k : ℕ) → k < length terms.old → width terms.new k ≡ width terms.old k }
    ensures longer { length terms.old ≤ length terms.new }
    ensures grows { Grows terms.old terms.new }
    ensures adds { OnOk result (AllPass (ids_below (first + length bound.now)) terms.new) }
{
    let pairs = pairs_for(alloc, bound, first)?;
    let made = copy(alloc, terms, body, &pairs)?;
    Ok(made)
}

// A quantifier's opening, with variables from an id on.
pub(crate) fn prepare(
    alloc: Global,
    terms: &mut Terms,
    term: TermId,
    bound: &[Bound],
    body: TermId,
    first: u32,
) -> Result<Opening, AllocError>
    requires quantifier { slice_get terms.old term ≡ Some (Node.ForAll bound.now body) }
    requires ids { first + length bound.now < 2 ^ 32 }
    requires below { AllPass (ids_below first) terms.old }
    ensures opening { IfOk result (λ o. IsOpening terms.new o) }
    ensures term { IfOk result (λ o. o.term ≡ term) }
    ensures stands { IfOk result (λ o. o.stands ≡ wide_from bound.now first) }
    ensures demand { IfOk result (λ o. o.demand < length terms.new) }
    ensures grows { Grows terms.old terms.new }
    ensures fit { AllFitIn (reverse terms.new) }
    ensures distinct { IsDistinct terms.new }
    ensures adds { OnOk result (AllPass (ids_below (first + length bound.now)) terms.new) }
{
    let made = opening_of(alloc, terms, term, bound, body, first);
    terms.len();
    made
}

fn opening_of(
    alloc: Global,
    terms: &mut Terms,
    term: TermId,
    bound: &[Bound],
    body: TermId,
    first: u32,
) -> Result<Opening, AllocError>
    requires quantifier { slice_get terms.old term ≡ Some (Node.ForAll bound.now body) }
    requires ids { first + length bound.now < 2 ^ 32 }
    requires below { AllPass (ids_below first) terms.old }
    ensures opening { IfOk result (λ o. IsOpening terms.new o) }
    ensures term { IfOk result (λ o. o.term ≡ term) }
    ensures stands { IfOk result (λ o. o.stands ≡ wide_from bound.now first) }
    ensures demand { IfOk result (λ o. o.demand < length terms.new) }
    ensures grows { Grows terms.old terms.new }
    ensures adds { OnOk result (AllPass (ids_below (first + length bound.now)) terms.new) }
{
    terms.node(term);
    let stands = stands_for(alloc, bound, first)?;
    let copy = body_at(alloc, terms, bound, body, first)?;
    let demand = choice(terms, term, bound, first, copy)?;
    Ok(Opening {
        term,
        stands,
        copy,
        demand,
    })
}
