//! What tests over texts read: texts under names, kernels with specifications that fit them, and what their handlers owe. Two texts come
//! in, and what `hkv` makes of them goes out. Only tests stand on this crate.
#![tactic(auto)]

mod named;
mod owed;
mod texts;

pub use crate::named::{Text, add_line, begin, text_named};
pub use crate::owed::owed_by;
pub use crate::texts::{Inputs, read};
