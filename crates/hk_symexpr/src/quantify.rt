//! Quantifiers over variables with ids from one on.

ghost use Rattle.std.specs.Prelude.{◌≡◌, ◌+◌, ◌^◌, ◌<◌, not, length, IfOk, nat_eq};
ghost use Rattle.hk_term.specs.Shape.{width};
ghost use Rattle.hk_term.specs.Meaning.{Reading, every_tuple, value};
ghost use Rattle.spec_tree.specs.Value.{bit, holds};
ghost use Rattle.hk_symexpr.specs.Sources.{Keeps};
ghost use Rattle.hk_symexpr.specs.Naming.{bounds_from};

use crate::operators::negation;
use crate::ops::{for_all, sized};
use hk_term::{Bound, BoundList, TermId, Terms};
use std::alloc::{AllocError, Global};

// The id of a variable.
fn id_at(first: u32, k: usize) -> u32
    requires { first + k < 2 ^ 32 }
    ensures { result ≡ first + k }
{
    first + k as u32
}

// The variables of these sizes.
fn variables(alloc: Global, first: u32, sizes: &[u32]) -> Result<BoundList, AllocError>
    requires { first + length sizes.now < 2 ^ 32 }
    ensures { IfOk result (λ b. b ≡ bounds_from first sizes.now) }
{
    let mut bounds = Vec::new(alloc);
    for (k, size) in sizes.iter().enumerate() {
        bounds.push(Bound {
            id: id_at(first, k),
            size: u64::from(*size),
        })?;
    }
    Ok(BoundList::from_vec(bounds))
}

/// Whether a truth holds for all numbers of variables, each below its size. The ids are those from the first on. The condition is
/// that there are such ids.
pub fn every(
    alloc: Global,
    t: &mut Terms,
    first: u32,
    sizes: &[u32],
    body: TermId,
) -> Result<TermId, AllocError>
    requires ids { first + length sizes.now < 2 ^ 32 }
    requires body { body < length t.old }
    requires truth { width t.old body ≡ 1 }
    ensures within { IfOk result (λ r. r < length t.new) }
    ensures width { IfOk result (λ r. width t.new r ≡ 1) }
    ensures value { IfOk result (λ r. (v : Reading) → value t.new r v ≡ bit (every_tuple (bounds_from first sizes.now) (λ u. nat_eq (value t.old body u) 1) v)) }
    ensures small { (v : Reading) → value t.old body v < 2 }
    ensures keeps { Keeps t.old t.new }
{
    // For the proof: the body's number is below 2 to its width.
    let _body = sized(t, body);
    let bounds = variables(alloc, first, sizes)?;
    let made = for_all(t, bounds, body)?;
    Ok(made)
}

/// Whether a truth holds for some numbers of its variables: whether it does not fail for all.
pub(crate) fn some(
    alloc: Global,
    t: &mut Terms,
    first: u32,
    sizes: &[u32],
    body: TermId,
) -> Result<TermId, AllocError>
    requires ids { first + length sizes.now < 2 ^ 32 }
    requires body { body < length t.old }
    requires truth { width t.old body ≡ 1 }
    ensures within { IfOk result (λ r. r < length t.new) }
    ensures width { IfOk result (λ r. width t.new r ≡ 1) }
    ensures value { IfOk result (λ r. (v : Reading) → value t.new r v ≡ bit (not (every_tuple (bounds_from first sizes.now) (λ u. nat_eq (bit (not (holds (value t.old body u)))) 1) v))) }
    ensures keeps { Keeps t.old t.new }
{
    let fails = negation(t, body)?;
    let never = every(alloc, t, first, sizes, fails)?;
    let made = negation(t, never)?;
    Ok(made)
}
