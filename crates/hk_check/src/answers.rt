//! What checking proofs comes to.

use hk_case::{Case, Obligation};
use hk_cnf::ClauseList;
use hk_lrat::RowReason;

/// What checking the proofs of a handler comes to.
#[derive(Drop)]
pub enum Checked {
    /// Each proof shows that no case violates its obligation.
    Holds,
    /// The first proof that does not, by its place and its obligation: over these clauses, those of the obligation's question with the
    /// proof's instances, its log fails first at this row, counted from 1, for this reason; `L7` names the number of rows.
    Refused {
        proof: usize,
        obligation: Obligation,
        clauses: ClauseList,
        row: u64,
        reason: RowReason,
    },
    /// The first proof that does not is that all cases were tried, and this case violates its obligation.
    Violated {
        obligation: Obligation,
        case: Case,
    },
    /// The first proof that does not, by its place: its instance with this place names no reads or quantifier of the question to which
    /// the instances before it were added.
    NoSuch {
        proof: usize,
        instance: usize,
    },
}

// What trying one proof comes to.
#[derive(Drop)]
pub(crate) enum Trial {
    /// It shows that no case violates its obligation.
    Shown,
    /// Over these clauses its log fails first at this row for this reason.
    Refused {
        clauses: ClauseList,
        row: u64,
        reason: RowReason,
    },
    /// All cases were tried, and this one violates the obligation.
    Violated {
        case: Case,
    },
    /// Its instance with this place names nothing.
    NoSuch {
        place: usize,
    },
}
