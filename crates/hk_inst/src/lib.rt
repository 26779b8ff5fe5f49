//! Questions: whether some reading makes a goal term true, as clauses that grow by instances of reads and quantifiers.
//!
//! It stands above terms, their copies and their circuits, and below the deciding loop. What comes in are a list of terms
//! with a goal, and instances; what goes out is a clause list that is exact for both: `specs/Exactness.antt` says what that is.
#![tactic(auto)]

mod added;
mod adding;
mod clash;
mod completion;
mod demand;
mod growth;
mod instance;
pub mod laws;
mod numbering;
mod opening;
mod prepare;
mod question;
mod required;
mod search;
mod start;
mod state;
mod subject;
mod undo;
mod violation;

pub use instance::{Instance, InstanceList, SizeList};
pub use question::Question;
pub use subject::AddFault;
