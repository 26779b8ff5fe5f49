//! Why an item of a body has no tree.

use std::alloc::{AllocError, AllocFailed};
use thiserror::Error;

/// Why an item of a body has no tree.
#[derive(Clone, Copy, Debug, PartialEq, Eq, Error)]
pub enum ItemFault {
    /// No production spells the item.
    #[error("not spelled")]
    NotSpelled,
    /// No production spells the item, and it holds a token that this project leaves out.
    #[error("out of profile")]
    OutOfProfile,
    /// Memory was refused. It says nothing of the item.
    #[error("memory")]
    Memory,
}

impl From<AllocError> for ItemFault {
    ghost use Rattle.std.specs.Prelude.{◌≡◌};
    ghost use Rattle.ir_body.specs.declared.fault.ItemFault.TheVariants.{Memory};

    ghost from_gives = { λ _ fault. fault ≡ Memory };

    fn from(_: AllocError) -> ItemFault {
        ItemFault::Memory
    }
}

impl<T: Drop> From<AllocFailed<T>> for ItemFault {
    ghost use Rattle.std.specs.Prelude.{◌≡◌};
    ghost use Rattle.ir_body.specs.declared.fault.ItemFault.TheVariants.{Memory};

    ghost from_gives = { λ _ fault. fault ≡ Memory };

    fn from(_: AllocFailed<T>) -> ItemFault {
        ItemFault::Memory
    }
}
