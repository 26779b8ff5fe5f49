//! Why a load, a save or a put was refused.
ghost use Rattle.std.specs.Prelude.{◌≡◌};
ghost use Rattle.hk_io.specs.declared.fault.LoadFault.TheVariants.{Memory as LoadMemory};
ghost use Rattle.hk_io.specs.declared.fault.SaveFault.TheVariants.{Memory as SaveMemory};

use std::alloc::AllocError;
use thiserror::Error;

/// Why a file was not loaded.
#[derive(Clone, Copy, Debug, PartialEq, Eq, Error)]
pub enum LoadFault {
    /// The outside failed, and counted it.
    #[error("the file cannot be read")]
    Failed,
    /// The file has more bytes than the limit.
    #[error("the file is too long")]
    TooLong,
    /// Memory was refused.
    #[error("out of memory")]
    Memory,
}

/// Why a file was not saved.
#[derive(Clone, Copy, Debug, PartialEq, Eq, Error)]
pub enum SaveFault {
    /// The outside failed, and counted it. The file may hold anything.
    #[error("the file cannot be written")]
    Failed,
    /// Memory was refused, and nothing has changed.
    #[error("out of memory")]
    Memory,
}

/// Why a piece of output was not put whole.
#[derive(Clone, Copy, Debug, PartialEq, Eq, Error)]
pub enum SinkFault {
    /// The outside failed after it had taken the first `sent` bytes of the piece.
    #[error("the output failed after {sent} bytes of a piece")]
    Failed { sent: usize },
}

impl From<AllocError> for LoadFault {
    ghost from_gives = { λ _ fault. fault ≡ LoadMemory };

    fn from(_: AllocError) -> Self {
        LoadFault::Memory
    }
}

impl From<AllocError> for SaveFault {
    ghost from_gives = { λ _ fault. fault ≡ SaveMemory };

    fn from(_: AllocError) -> Self {
        SaveFault::Memory
    }
}
