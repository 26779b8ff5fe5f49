//! What a variable is replaced by.

ghost use Rattle.std.specs.Prelude.{◌≡◌, IfOk, nat_eq};
ghost use Rattle.std.specs.List.{list_any};
ghost use Rattle.std.specs.Map.{lookup};
ghost use Rattle.hk_copy.specs.Stands.{is_bound, without};

use hk_term::Bound;
use std::alloc::{AllocError, Global};

/// What a variable is replaced by: a number, or the variable of a width in bits and an id. Of a number a reading takes the
/// bits of the width that is read, and so it does of the other variable's number at its own width.
#[derive(Clone, Copy, Debug, PartialEq, Eq)]
pub enum Stand {
    Number(u64),
    Other { width: u32, id: u32 },
}

// What a variable stands for.
pub(crate) fn stand_of(stands: &[(u32, Stand)], id: u32) -> Option<Stand>
    ensures { result ≡ lookup (nat_eq id) stands.now }
{
    match stands {
        [] => None,
        [(first, stand), rest @ ..] => {
            if id == *first {
                Some(*stand)
            } else {
                stand_of(rest, id)
            }
        }
    }
}

// Whether a list of variables binds an id.
pub(crate) fn is_bound(bound: &[Bound], id: u32) -> bool
    ensures { result ≡ is_bound bound.now id }
{
    match bound {
        [] => false,
        [first, rest @ ..] => id == first.id || is_bound(rest, id),
    }
}

// Whether a list of variables hides one that stands for something.
pub(crate) fn hides(bound: &[Bound], stands: &[(u32, Stand)]) -> bool
    ensures { result ≡ list_any (λ e. is_bound bound.now e.0) stands.now }
{
    match stands {
        [] => false,
        [(id, _), rest @ ..] => is_bound(bound, *id) || hides(bound, rest),
    }
}

// What stands for what inside a quantifier.
pub(crate) fn without(
    alloc: Global,
    bound: &[Bound],
    stands: &[(u32, Stand)],
) -> Result<Vec<(u32, Stand)>, AllocError>
    ensures { IfOk result (λ kept. kept.items ≡ without bound.now stands.now) }
{
    let mut kept = Vec::new(alloc);
    for entry in stands {
        if !is_bound(bound, entry.0) {
            kept.push(*entry)?;
        }
    }
    Ok(kept)
}
