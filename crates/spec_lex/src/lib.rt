//! The specification text cut into logical lines.
//!
//! The second layer of the reader of specifications: bytes come in, and logical lines go out, whose indentation and tokens are slices
//! of the text that came in. The lines that a text is printed from are defined in `specs/Lines.antt`.
#![tactic(auto)]

mod bytes;
pub mod laws;
mod lexer;
pub mod line;
mod piece;
mod reading;
mod row;
pub mod token;

pub use lexer::lines;
pub use line::{LogicalLine, LogicalLines};
pub use token::{Token, TokenKind, TokenList};
