//! The least of faults: on the earliest line, and there of the least number.

ghost use Rattle.std.specs.Prelude.{◌≡◌};
ghost use Rattle.ir_check.specs.Least.{number, is_up_to, least_of};

use ir_ast::{KernelFault, KernelReason};

/// The number of a reason.
fn number_of(reason: KernelReason) -> u32
    ensures { result ≡ number reason }
{
    match reason {
        KernelReason::K1 => 1,
        KernelReason::K2 => 2,
        KernelReason::K3 => 3,
        KernelReason::K4 => 4,
        KernelReason::K5 => 5,
        KernelReason::K6 => 6,
        KernelReason::K7 => 7,
        KernelReason::K8 => 8,
        KernelReason::K9 => 9,
        KernelReason::K10 => 10,
        KernelReason::K11 => 11,
        KernelReason::K12 => 12,
        KernelReason::K13 => 13,
        KernelReason::K14 => 14,
        KernelReason::K15 => 15,
    }
}

/// Whether a fault is not behind another.
fn is_first(a: KernelFault, b: KernelFault) -> bool
    ensures { result ≡ is_up_to a b }
{
    a.line < b.line || (a.line == b.line && number_of(a.reason) <= number_of(b.reason))
}

/// The lesser of two faults, where there are any.
pub fn least(a: Option<KernelFault>, b: Option<KernelFault>) -> Option<KernelFault>
    ensures { result ≡ least_of a b }
{
    match (a, b) {
        (None, b) => b,
        (Some(a), None) => Some(a),
        (Some(a), Some(b)) => Some(if is_first(a, b) { a } else { b }),
    }
}
