//! Why a certificate is refused.

ghost use Rattle.std.specs.Prelude.{◌≡◌};
ghost use Rattle.hk_cert.specs.declared.fault.CertStop.TheVariants.{Memory as StopMemory};

use hk_cert_lines::CertReason;
use std::alloc::{AllocError, AllocFailed};
use thiserror::Error;

/// The first line that fails, and the least reason against it.
#[derive(Clone, Copy, Debug, PartialEq, Eq, Error)]
#[error("line {line}: {reason:?}")]
pub struct CertFault {
    /// The physical line, counted from 1; behind the last line where the text ends too early.
    pub line: u32,
    pub reason: CertReason,
}

/// Why a certificate was not read.
#[derive(Clone, Copy, Debug, PartialEq, Eq, Error)]
pub enum CertStop {
    /// The text spells none.
    #[error("{0}")]
    Refused(CertFault),
    /// Memory was refused.
    #[error("out of memory")]
    Memory,
}

impl From<AllocError> for CertStop {
    ghost from_gives = { λ _ stop. stop ≡ StopMemory };

    fn from(_error: AllocError) -> CertStop {
        CertStop::Memory
    }
}

impl<T: Drop> From<AllocFailed<T>> for CertStop {
    ghost from_gives = { λ _ stop. stop ≡ StopMemory };

    fn from(_failed: AllocFailed<T>) -> CertStop {
        CertStop::Memory
    }
}
