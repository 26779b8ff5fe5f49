//! The kernel text cut into tokens and items.
//!
//! The second layer of the kernel reader: bytes come in, and tokens, items and the tokens that a reader looks at go out. Each is a
//! slice of the text that came in. Only the lexer refuses a text.
#![tactic(auto)]

mod brackets;
mod bytes;
pub mod cut;
pub mod drops;
pub mod laws;
mod lexer;
pub mod name;
mod piece;
mod tell;
pub mod token;
pub mod whole;

pub use cut::{Item, ItemList, begins_define, items};
pub use drops::{begins_label, is_label, remaining};
pub use lexer::tokens;
pub use name::{plain_name, sigil_name};
pub use token::{Token, TokenKind, TokenList};
pub use whole::is_dropped_item;
