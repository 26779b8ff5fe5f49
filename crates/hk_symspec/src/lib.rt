//! Specifications as terms: invariants over a symbolic memory, properties and transitions over symbolic abstract states.
//!
//! Stands on expressions as terms, on symbolic memory and on the trees of specifications. In come a specification, a place of one of
//! its parts, and a memory or a state; out go terms that have, under every reading of variables and arrays, the numbers that the
//! specification gives there. A state is kept as guarded writes over the abstraction of a memory or over arrays, and an entry is read
//! through them: no call goes through index tuples. Whether two states agree in a field is a term as well.
#![tactic(auto)]

mod agreement;
mod bases;
mod ends;
mod entries;
mod fields;
mod formulas;
mod indices;
mod invariants;
mod kernel;
pub mod laws;
mod limits;
mod lines;
mod names;
mod overlay;
mod properties;
mod reads;
mod state;
mod transitions;
mod unread;
mod write;

pub use agreement::fields_agree;
pub use invariants::invariant_term;
pub use limits::{ENTRY_BASE, FORMULA_BASE};
pub use properties::property_term;
pub use state::SymAbstract;
pub use transitions::{SymStep, transition_terms};
pub use write::EntryWrite;
