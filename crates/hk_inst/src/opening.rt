//! Quantifiers with the variables for a tuple that makes them false.

use hk_copy::Stand;
use hk_term::TermId;
use std::marker::Model;

// What bound variables stand for, the outermost first. A contract sees a list.
#[derive(Debug, Drop)]
pub(crate) struct StandList {
    pub(crate) items: Vec<Stand>,
}

impl Model for StandList {
    ghost use Rattle.std.specs.Prelude.{List};
    ghost use Rattle.hk_copy.specs.declared.stand.Stand.{Stand};

    ghost Value = { List Stand };

    ghost view = { λ l. l.items.items };
}

// A quantifier, the variables that stand for a tuple which makes it false, its body at these variables, and the term that is
// required of it: it is true, or the tuple is in range and makes the body false.
#[derive(Debug, Drop)]
pub(crate) struct Opening {
    pub term: TermId,
    pub stands: StandList,
    pub copy: TermId,
    pub demand: TermId,
}
