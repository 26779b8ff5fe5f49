//! Words of literals.

use hk_cnf::Lit;
use std::alloc::{AllocError, Global};

/// The number of a word of constants; none where a literal is no constant.
pub fn number(word: &[Lit], truth: Lit) -> Option<u64> {
    let mut number = 0u64;
    for lit in word.iter().rev() {
        if *lit == truth {
            number = number.wrapping_mul(2).wrapping_add(1);
        } else if *lit == truth.negated() {
            number = number.wrapping_mul(2);
        } else {
            return None;
        }
    }
    Some(number)
}

/// The same as text.
pub fn number_text(alloc: Global, number: Option<u64>) -> Result<String, AllocError> {
    match number {
        Some(number) => format!(in alloc; "{number}"),
        None => String::from_str(alloc, "open"),
    }
}
