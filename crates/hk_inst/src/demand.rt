//! The term that is required of an instance.

ghost use Rattle.std.specs.Prelude.{◌≡◌, ℕ, ◌<◌, ◌++◌, List, map, length, reverse, slice_get, Some, IfOk, OnOk};
ghost use Rattle.hk_term.specs.Shape.{AllFitIn, IsDistinct, width, Grows};
ghost use Rattle.hk_term.specs.declared.node.Node.{Node};
ghost use Rattle.hk_copy.specs.declared.stand.Stand.TheVariants.{Number as number};
ghost use Rattle.hk_copy.specs.Reach.{Tests, AllPass};
ghost use Rattle.hk_copy.specs.Stands.{standing};
ghost use Rattle.hk_copy.specs.Copies.{Copies};
ghost use Rattle.hk_inst.specs.Inputs.{Table};
ghost use Rattle.hk_inst.specs.Truths.{IsTuple};
ghost use Rattle.hk_inst.specs.Demanded.{IsDemand, IsImplication};
ghost use Rattle.hk_inst.specs.Adding.{IsSubject};

use crate::instance::{Instance, SizeList};
use crate::required::{agreement, implication};
use crate::subject::Subject;
use hk_copy::{Stand, copy};
use hk_term::{Bound, TermId, Terms};
use std::alloc::{AllocError, Global};

// What each of these variables stands for, behind others: the last first.
fn push_numbers(
    bound: &[Bound],
    indices: &[u64],
    pairs: &mut Vec<(u32, Stand)>,
) -> Result<(), AllocError>
    requires { IsTuple bound.now indices.now }
    ensures { OnOk result (pairs.new.items ≡ pairs.old.items ++ standing bound.now (map number indices.now)) }
{
    match bound {
        [] => Ok(()),
        [b, others @ ..] => match indices {
            [] => Ok(()),
            [k, rest @ ..] => {
                push_numbers(others, rest, pairs)?;
                pairs.push((b.id, Stand::Number(*k)))?;
                Ok(())
            }
        },
    }
}

// The body of a quantifier at a tuple.
fn body_at(
    alloc: Global,
    terms: &mut Terms,
    bound: &[Bound],
    body: TermId,
    indices: &[u64],
) -> Result<TermId, AllocError>
    requires tuple { IsTuple bound.now indices.now }
    requires body { body < length terms.old }
    requires truth { width terms.old body ≡ 1 }
    ensures copies { IfOk result (λ r. Copies terms.new (standing bound.now (map number indices.now)) body r) }
    ensures within { IfOk result (λ r. r < length terms.new) }
    ensures width { IfOk result (λ r. width terms.new r ≡ 1) }
    ensures keeps_widths { (k : ℕ) → k < length terms.old → width terms.new k ≡ width terms.old k }
    ensures grows { Grows terms.old terms.new }
    ensures adds { OnOk result ((tests : Tests) → AllPass tests terms.old → AllPass tests terms.new) }
{
    let mut pairs = Vec::new(alloc);
    push_numbers(bound, indices, &mut pairs)?;
    let made = copy(alloc, terms, body, &pairs)?;
    Ok(made)
}

// The term that is required of a quantifier with a tuple.
fn tuple_demand(
    alloc: Global,
    terms: &mut Terms,
    term: TermId,
    bound: &[Bound],
    body: TermId,
    indices: &[u64],
) -> Result<TermId, AllocError>
    requires quantifier { slice_get terms.old term ≡ Some (Node.ForAll bound.now body) }
    requires tuple { IsTuple bound.now indices.now }
    ensures demand { IfOk result (λ d. (b : ℕ) × (Copies terms.new (standing bound.now (map number indices.now)) body b) × (IsImplication terms.new term b d)) }
    ensures within { IfOk result (λ d. d < length terms.new) }
    ensures grows { Grows terms.old terms.new }
    ensures adds { OnOk result ((tests : Tests) → AllPass tests terms.old → AllPass tests terms.new) }
{
    terms.node(term);
    let at = body_at(alloc, terms, bound, body, indices)?;
    let made = implication(terms, term, at)?;
    Ok(made)
}

// The term that is required of an instance.
pub(crate) fn demand_of(
    alloc: Global,
    terms: &mut Terms,
    instance: &Instance,
    subject: &Subject,
) -> Result<TermId, AllocError>
    requires subject { (table : Table) × (IsSubject terms.old table instance.now subject.now) }
    requires widths { (r s i j : ℕ) → subject.now ≡ Subject.Reads r s i j → width terms.old r ≡ width terms.old s }
    ensures demand { IfOk result (λ d. (table : Table) → IsSubject terms.old table instance.now subject.now → IsDemand terms.new table instance.now d) }
    ensures within { IfOk result (λ d. d < length terms.new) }
    ensures grows { Grows terms.old terms.new }
    ensures adds { OnOk result ((tests : Tests) → AllPass tests terms.old → AllPass tests terms.new) }
{
    match instance {
        Instance::Pair { .. } => match subject {
            Subject::Reads(first, second, place, other_place) => {
                terms.node(*first);
                terms.node(*second);
                agreement(terms, *first, *second, *place, *other_place)
            }
            Subject::Quantifier(..) => unreachable!(),
        },
        Instance::Tuple { indices, .. } => match subject {
            Subject::Quantifier(term, bound, body) => {
                tuple_demand(
                    alloc,
                    terms,
                    *term,
                    bound.as_slice(),
                    *body,
                    indices.as_slice(),
                )
            }
            Subject::Reads(..) => unreachable!(),
        },
    }
}
