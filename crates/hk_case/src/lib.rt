//! Obligations, cases and violation: what a handler owes, decided by running.
//!
//! Stands on kernels that run and on the meaning of specifications. `specs/Obligations.antt` has what a handler owes and of which cases,
//! `specs/Violation.antt` when a case violates an obligation, and when a handler is correct. Of the calls the list of a handler's
//! obligations stands.
#![tactic(auto)]

mod owed;

use hk_seq::Seq;
use ir_layout::KMemory;
pub use owed::obligations;
use spec_value::AbstractState;

/// What a handler owes: a part of its correctness that a case may violate.
#[derive(Clone, Copy, Debug, PartialEq, Eq)]
pub enum Obligation {
    /// The run does nothing undefined.
    Undefined,
    /// The invariant with this place holds in the machine state that the run leaves.
    Invariant(u32),
    /// The abstraction of the machine state that the run leaves agrees with the end state of the transition in the field with this place.
    State(u32),
    /// The run returns the specified result.
    ResultValue,
    /// The property with this place holds in the end state of the transition, from states in which all properties hold.
    Property(u32),
}

/// What an obligation speaks of: a state and the arguments, one number for each parameter.
#[derive(Drop)]
pub enum Case {
    /// A machine state: the case of all obligations but properties.
    Machine {
        memory: KMemory,
        args: Seq<u64>,
    },
    /// An abstract state: the case of a property.
    Abstract {
        state: AbstractState,
        args: Seq<u64>,
    },
}
