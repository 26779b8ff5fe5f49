//! Lists of what is known.

ghost use Rattle.std.specs.Prelude.{◌≡◌, ◌<◌, ◌++◌, All, length, IfOk};
ghost use Rattle.hk_term.specs.Shape.{width};
ghost use Rattle.hk_term.specs.Meaning.{Reading, value};
ghost use Rattle.hk_symexpr.specs.Naming.{AreLimited};

use crate::conditions::learn;
use crate::names::Limit;
use hk_term::{TermId, Terms};
use std::alloc::{AllocError, Global};

/// What is known, in memory of its own.
pub(crate) fn copied(alloc: Global, known: &[Limit]) -> Result<Vec<Limit>, AllocError>
    ensures { IfOk result (λ k. k.items ≡ known.now) }
{
    let made = known.to_vec(alloc)?;
    Ok(made)
}

/// What is known where a condition is true.
pub(crate) fn known_where(
    alloc: Global,
    t: &Terms,
    known: &[Limit],
    condition: TermId,
) -> Result<Vec<Limit>, AllocError>
    requires condition { condition < length t.now }
    requires truth { width t.now condition ≡ 1 }
    requires known { All (λ l. l.term < length t.now) known.now }
    ensures known { IfOk result (λ k. All (λ l. l.term < length t.now) k.items) }
    ensures holds { IfOk result (λ k. (v : Reading) → value t.now condition v ≡ 1 → AreLimited t.now known.now v → AreLimited t.now k.items v) }
{
    let mut made = copied(alloc, known)?;
    learn(t, condition, &mut made)?;
    Ok(made)
}

/// Sizes behind others.
pub(crate) fn joined(alloc: Global, first: &[u32], last: &[u32]) -> Result<Vec<u32>, AllocError>
    ensures { IfOk result (λ all. all.items ≡ first.now ++ last.now) }
{
    let mut all = first.to_vec(alloc)?;
    all.extend_from_slice(last)?;
    Ok(all)
}
