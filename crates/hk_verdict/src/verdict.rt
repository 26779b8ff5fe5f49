//! What a verification decides.

use hk_case::{Case, Obligation};
use hk_cnf::ClauseList;
use hk_inst::InstanceList;
use hk_lrat::LratLog;
use hk_proof::ProofList;

/// What was decided of a handler.
#[derive(Drop)]
pub enum Verdict {
    /// No case violates any of its obligations. The proofs are one for each obligation, in their order, or none where none were kept.
    Accepted {
        proofs: ProofList,
    },
    /// This case violates this obligation, and none violates an earlier one that is small enough for trying all its cases.
    Rejected {
        obligation: Obligation,
        case: Case,
    },
    /// No case was found that violates this obligation, and no proof that there is none, before the solver's budget was spent.
    Unknown {
        obligation: Obligation,
        /// What was added to the obligation's question, in its order.
        instances: InstanceList,
        /// The clauses of the question with these instances.
        clauses: ClauseList,
        /// What the solver derived from the clauses.
        log: LratLog,
    },
    /// Memory was refused.
    Memory,
}

/// What was decided of the initial memory.
#[derive(Clone, Copy, Debug, PartialEq, Eq)]
pub enum InitVerdict {
    /// It was not tested.
    NotRun,
    /// It satisfies every invariant, and its abstraction every property.
    Holds,
    /// The first invariant that it does not satisfy, by its place.
    FailsInvariant(u32),
    /// The first property that its abstraction does not satisfy, by its place; every invariant holds.
    FailsProperty(u32),
}
