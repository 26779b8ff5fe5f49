//! Why a kernel text is refused.

use std::alloc::{AllocError, AllocFailed};
use thiserror::Error;

/// The first reason that applies to the first item that fails. The code is what a report prints.
#[derive(Clone, Copy, Debug, PartialEq, Eq, Error)]
pub enum KernelReason {
    /// A byte that belongs to no token.
    #[error("K1")]
    K1,
    /// An item of no production, one that never closes, or one out of place.
    #[error("K2")]
    K2,
    /// An item of no production that holds a token of what this project leaves out.
    #[error("K3")]
    K3,
    /// A name that is defined a second time in its scope.
    #[error("K4")]
    K4,
    /// A named type that is unknown or opaque, a type that contains itself, or a global of an integer without a size.
    #[error("K5")]
    K5,
    /// The globals so far, or a type that the item uses, take more bytes than the limit.
    #[error("K6")]
    K6,
    /// A data layout text with big endian numbers, or with another size or alignment of pointers, of an integer of 8, 16, 32 or 64 bits or
    /// of aggregates than is used.
    #[error("K7")]
    K7,
    /// A name of a register, block, function, global or range that nothing defines, or a call of a declared function
    /// that is neither void nor a listed intrinsic.
    #[error("K8")]
    K8,
    /// A type, an operand, a literal or a head of a function that does not fit where it stands.
    #[error("K9")]
    K9,
    /// The blocks have a cycle, or an edge goes to the first block.
    #[error("K10")]
    K10,
    /// The function lies on a cycle of calls.
    #[error("K11")]
    K11,
    /// Some path from the entry reaches the use without the definition.
    #[error("K12")]
    K12,
    /// A global with a pointer in its type, or a load or store of a pointer outside a slot.
    #[error("K13")]
    K13,
    /// The function, with its calls expanded, has more instructions than the limit.
    #[error("K14")]
    K14,
    /// A phi whose arms are not the edges to its block, or that gives one predecessor two operands.
    #[error("K15")]
    K15,
}

/// A refusal: the line of the text, counted from 1, and the reason.
#[derive(Clone, Copy, Debug, PartialEq, Eq, Error)]
#[error("{line}: {reason}")]
pub struct KernelFault {
    pub line: u32,
    pub reason: KernelReason,
}

/// Why a call that reads a kernel has no answer.
#[derive(Clone, Copy, Debug, PartialEq, Eq, Error)]
pub enum KernelStop {
    /// The text is refused.
    #[error("{0}")]
    Refused(KernelFault),
    /// Memory was refused. It says nothing of the text.
    #[error("memory")]
    Memory,
}

impl From<AllocError> for KernelStop {
    ghost use Rattle.std.specs.Prelude.{◌≡◌};
    ghost use Rattle.ir_ast.specs.declared.fault.KernelStop.TheVariants.{Memory};

    ghost from_gives = { λ _ stop. stop ≡ Memory };

    fn from(_: AllocError) -> KernelStop {
        KernelStop::Memory
    }
}

impl<T: Drop> From<AllocFailed<T>> for KernelStop {
    ghost use Rattle.std.specs.Prelude.{◌≡◌};
    ghost use Rattle.ir_ast.specs.declared.fault.KernelStop.TheVariants.{Memory};

    ghost from_gives = { λ _ stop. stop ≡ Memory };

    fn from(_: AllocFailed<T>) -> KernelStop {
        KernelStop::Memory
    }
}
