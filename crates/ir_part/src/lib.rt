//! The parts that the items of a kernel text are made of: names, numbers, types and operands.
//!
//! A layer of the kernel reader. The tokens of an item come in, and a part goes out with the tokens behind it. Each reader reads
//! exactly what the spelling relations of `ir_lex` spell. A type has a depth of at most 100, and at most 100 constant address forms
//! stand in one another, so the recursion here is bounded.
#![tactic(auto)]

pub mod front;
pub mod laws;
pub mod many;
pub mod number;
pub mod operand;
pub mod same;
pub mod stop;
pub mod types;

pub use front::{
    after_mark, after_word, begins_mark, end, flag_at, global_at, label_at, local_at, strip_mark,
    strip_word,
};
pub use number::{
    align_at, are_digits, count_at, count_of, is_over_wide, number_at, number_of, width_at,
    width_of,
};
pub use operand::{is_bit, offset_flags, operand_at, typed_at};
pub use same::same_type;
pub use stop::PartStop;
pub use types::{result_at, type_at};
