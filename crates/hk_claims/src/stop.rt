//! Why checking or replaying ended early.

ghost use Rattle.std.specs.Prelude.{◌≡◌};
ghost use Rattle.hk_claims.specs.declared.stop.ClaimStop.TheVariants.{Write as StopWrite, Memory as StopMemory};

use hk_io::SinkFault;
use std::alloc::AllocError;

/// Why checking or replaying the claims of a certificate ended before its last handler.
#[derive(Clone, Copy, Debug, PartialEq, Eq)]
pub enum ClaimStop {
    /// A put failed.
    Write,
    /// Memory was refused.
    Memory,
    /// The instance on this line of the certificate, counted from 1, names no reads or quantifier of its question.
    NoSuch { line: u32 },
}

impl From<AllocError> for ClaimStop {
    ghost from_gives = { λ _ stop. stop ≡ StopMemory };

    fn from(_error: AllocError) -> ClaimStop {
        ClaimStop::Memory
    }
}

impl From<SinkFault> for ClaimStop {
    ghost from_gives = { λ _ stop. stop ≡ StopWrite };

    fn from(_fault: SinkFault) -> ClaimStop {
        ClaimStop::Write
    }
}
