//! Expressions with their kinds.

use crate::meaning::Kind;
use crate::sorts::FieldSort;
use spec_tree::{Expr, StateName, StepList};
use std::alloc::{AllocError, AllocFailed};
use thiserror::Error;

/// An expression of a kind.
#[derive(Drop)]
pub struct Typed {
    pub kind: Kind,
    pub tree: Expr,
}

/// Two operands of one kind.
#[derive(Drop)]
pub struct Pair {
    pub kind: Kind,
    pub left: Expr,
    pub right: Expr,
}

/// Where the steps of a path lead: bytes from the object's begin, what the indices add, and the bytes of the integer there.
#[derive(Drop)]
pub struct Reached {
    pub base: u64,
    pub steps: StepList,
    pub bytes: u32,
}

/// Why an expression stands for nothing.
#[derive(Clone, Copy, Debug, PartialEq, Eq, Error)]
pub enum TakeStop {
    /// It does not fit its place, or a part of it does not.
    #[error("unfit")]
    Unfit,
    /// Memory was refused. It says nothing of the expression.
    #[error("memory")]
    Memory,
}

impl From<AllocError> for TakeStop {
    ghost use Rattle.std.specs.Prelude.{◌≡◌};
    ghost use Rattle.spec_scope.specs.declared.typed.TakeStop.TheVariants.{Memory};

    ghost from_gives = { λ _ stop. stop ≡ Memory };

    fn from(_: AllocError) -> TakeStop {
        TakeStop::Memory
    }
}

impl<T: Drop> From<AllocFailed<T>> for TakeStop {
    ghost use Rattle.std.specs.Prelude.{◌≡◌};
    ghost use Rattle.spec_scope.specs.declared.typed.TakeStop.TheVariants.{Memory};

    ghost from_gives = { λ _ stop. stop ≡ Memory };

    fn from(_: AllocFailed<T>) -> TakeStop {
        TakeStop::Memory
    }
}

/// A read of a field: the state, the field's place, and its sort.
#[derive(Drop)]
pub struct ReadAt<'f> {
    pub which: StateName,
    pub place: u32,
    pub sort: &'f FieldSort,
}
