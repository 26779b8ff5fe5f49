//! Why a part is not read.

use std::alloc::{AllocError, AllocFailed};

/// Why there is no part at the front of the tokens.
#[derive(Clone, Copy, Debug, PartialEq, Eq)]
pub enum PartStop {
    /// The tokens at the front do not spell the part.
    NotSpelled,
    /// Memory was refused. It says nothing of the tokens.
    Memory,
}

impl From<AllocError> for PartStop {
    ghost use Rattle.std.specs.Prelude.{◌≡◌};
    ghost use Rattle.spec_expr.specs.declared.stop.PartStop.TheVariants.{Memory};

    ghost from_gives = { λ _ stop. stop ≡ Memory };

    fn from(_: AllocError) -> PartStop {
        PartStop::Memory
    }
}

impl<T: Drop> From<AllocFailed<T>> for PartStop {
    ghost use Rattle.std.specs.Prelude.{◌≡◌};
    ghost use Rattle.spec_expr.specs.declared.stop.PartStop.TheVariants.{Memory};

    ghost from_gives = { λ _ stop. stop ≡ Memory };

    fn from(_: AllocFailed<T>) -> PartStop {
        PartStop::Memory
    }
}
