//! The terms of which goals are made.

use hk_seq::Seq;
use hk_term::TermId;

/// The terms of a handler's run from the initial memory, and of the transition from its abstraction. All but the results are truth
/// values.
#[derive(Drop)]
pub struct RunParts {
    /// All invariants hold in the initial memory.
    pub invariants: TermId,
    /// The run is stuck.
    pub undefined: TermId,
    /// For each invariant, in text order: it holds in the memory behind the run.
    pub kept: Seq<TermId>,
    /// For each field, in the order of the class: all its entries in the abstraction of the memory behind the run are those of the end
    /// state of the transition.
    pub agree: Seq<TermId>,
    /// The number that the run returns; none for a void handler.
    pub result: Option<TermId>,
    /// The transition is valid.
    pub valid: TermId,
    /// The specified result of the transition, where it has one.
    pub wanted: Option<TermId>,
}

/// The terms of a transition from an abstract state: truth values.
#[derive(Drop)]
pub struct StepParts {
    /// All properties hold in the state.
    pub properties: TermId,
    /// For each property, in text order: it holds in the end state of the transition.
    pub behind: Seq<TermId>,
}

/// The parts of the goals of a handler. Those of properties stand in another list of terms than those of all other obligations, since
/// the arrays mean other things there.
#[derive(Drop)]
pub enum Parts {
    Run(RunParts),
    Step(StepParts),
}
