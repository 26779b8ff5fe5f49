//! What settling a question comes to.

use hk_cnf::ClauseList;
use hk_inst::InstanceList;
use hk_lrat::LratLog;
use hk_term::Valuation;

/// The answer to a question whether some reading makes its goal true.
#[derive(Drop)]
pub enum Settled {
    /// No reading does. The log refutes a clause list that is exact for the goal and these instances.
    Refuted {
        instances: InstanceList,
        log: LratLog,
    },
    /// The goal is true under this valuation.
    True {
        valuation: Valuation,
    },
    /// The budget is spent. The clauses are exact for the goal and these instances, and the last additions of the log, as many
    /// as the budget, are each a clause that unit propagation did not give before.
    Spent {
        instances: InstanceList,
        clauses: ClauseList,
        log: LratLog,
    },
}

/// How large a question was in the end, and how often its clauses were solved.
#[derive(Clone, Copy, PartialEq, Eq, Debug)]
pub struct Figures {
    /// Calls of the solver: one more than the times that violated instances came in.
    pub rounds: u64,
    /// Variables of the clauses.
    pub vars: u64,
    /// Clauses.
    pub clauses: u64,
    /// Instances, those that the question had at first among them.
    pub instances: u64,
}

/// An answer with its figures.
#[derive(Drop)]
pub struct Settlement {
    pub settled: Settled,
    pub figures: Figures,
}

// What the last round came to.
#[derive(Drop)]
pub(crate) enum End {
    Refuted(LratLog),
    True(Valuation),
    Spent(LratLog),
}
