//! The entries of a certificate.

use hk_case::{Case, Obligation};
use hk_proof::ProofList;

/// What a certificate says of a handler.
#[derive(Drop)]
pub enum Entry {
    /// No case violates any of its obligations: a proof for each, in their order.
    Accept {
        /// The physical line of its `accept`, counted from 1.
        line: u32,
        proofs: ProofList,
    },
    /// This case violates this obligation.
    Reject {
        obligation: Obligation,
        case: Case,
    },
    /// For this obligation neither a case nor a proof was found.
    Unknown(Obligation),
    /// Memory was refused.
    Memory,
}
