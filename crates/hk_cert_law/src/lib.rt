//! What is written is read: the text of a certificate spells its entries.
//!
//! No value comes in or goes out: the calls do nothing, and their contracts are laws. Stands on the text of certificates and on the
//! definition of their reading, and for names on the lines of a specification and on the text of a module. `specs/Entries.antt` says what
//! entries must be, and on which lines their acceptances stand; `specs/Names.antt` and `Globals.antt`, what names must be.
#![tactic(auto)]

mod laws;

pub use laws::{certificates_are_read_as_written, elaborated_have_names, globals_of_texts_differ};
