//! Why a module is not unrolled.

use std::alloc::{AllocError, AllocFailed};
use thiserror::Error;

/// Why a function with loops is not rebuilt. The code is what a report prints.
#[derive(Clone, Copy, Debug, PartialEq, Eq, Error)]
pub enum UnrollReason {
    /// An instruction names a register or a block that the function does not have, or uses a register that some path to it does not
    /// set, or is a phi whose arms are not the edges to its block.
    #[error("X1")]
    X1,
    /// An edge goes to the first block, an `alloca` stands outside the first block, or a pair is used outside its block.
    #[error("X2")]
    X2,
    /// The copies would have more instructions than the limit.
    #[error("X3")]
    X3,
}

/// A refusal: the line on which the function begins, counted from 1, and the reason.
#[derive(Clone, Copy, Debug, PartialEq, Eq, Error)]
#[error("{line}: {reason}")]
pub struct UnrollFault {
    pub line: u32,
    pub reason: UnrollReason,
}

/// Why a call that unrolls a module has no answer.
#[derive(Clone, Copy, Debug, PartialEq, Eq, Error)]
pub enum UnrollStop {
    /// A function is not rebuilt.
    #[error("{0}")]
    Refused(UnrollFault),
    /// Memory was refused. It says nothing of the module.
    #[error("memory")]
    Memory,
}

impl From<AllocError> for UnrollStop {
    ghost use Rattle.std.specs.Prelude.{◌≡◌};
    ghost use Rattle.hk_unroll.specs.declared.fault.UnrollStop.TheVariants.{Memory};

    ghost from_gives = { λ _ stop. stop ≡ Memory };

    fn from(_: AllocError) -> UnrollStop {
        UnrollStop::Memory
    }
}

impl<T: Drop> From<AllocFailed<T>> for UnrollStop {
    ghost use Rattle.std.specs.Prelude.{◌≡◌};
    ghost use Rattle.hk_unroll.specs.declared.fault.UnrollStop.TheVariants.{Memory};

    ghost from_gives = { λ _ stop. stop ≡ Memory };

    fn from(_: AllocFailed<T>) -> UnrollStop {
        UnrollStop::Memory
    }
}
