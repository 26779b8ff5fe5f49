//! What trying obligations came to.

use hk_case::{Case, Obligation};
use hk_cnf::ClauseList;
use hk_inst::InstanceList;
use hk_lrat::LratLog;
use hk_proof::{Proof, ProofList};

// An obligation of many cases whose budget is spent: the instances of its question, its clauses with them, and the solver's log.
#[derive(Drop)]
pub(crate) struct Spent {
    pub obligation: Obligation,
    pub instances: InstanceList,
    pub clauses: ClauseList,
    pub log: LratLog,
}

// What trying one obligation came to.
#[derive(Drop)]
pub(crate) enum Tried {
    /// No case violates it, which the proof shows.
    Never(Proof),
    /// This case violates it.
    Violated(Case),
    /// Neither is known.
    Spent(Spent),
}

// How the obligations stand that were tried, of which none was found violated.
#[derive(Drop)]
pub(crate) enum Standing {
    /// No case violates one of them. The proofs are those that are kept.
    Holds(ProofList),
    /// The first of those for which that is not known.
    Open(Spent),
}
