//! Valuations that a row writes, and the values of terms under them.

use crate::row::{long, short};
use hk_term::{TermId, Terms, Valuation, ValueRoom};
use std::alloc::{AllocError, Global};

/// Gives what a word names its number: `x1=200` a variable, `7[2]=1` an entry of an array. It is told whether the word is one of these.
fn set(v: &mut Valuation, name: &str, number: u64) -> Result<bool, AllocError> {
    if let Some(id) = name.strip_prefix('x') {
        return match short(id) {
            Some(id) => {
                v.vars.set(id, number)?;
                Ok(true)
            }
            None => Ok(false),
        };
    }
    let Some((array, index)) = name.trim_end_matches(']').split_once('[') else {
        return Ok(false);
    };
    match (short(array), long(index)) {
        (Some(array), Some(index)) => {
            v.arrays.set(array, index, number)?;
            Ok(true)
        }
        _ => Ok(false),
    }
}

/// The same by a whole word.
fn set_by(v: &mut Valuation, word: &str) -> Result<bool, AllocError> {
    let Some((name, number)) = word.split_once('=') else {
        return Ok(false);
    };
    match long(number) {
        Some(number) => set(v, name, number),
        None => Ok(false),
    }
}

/// The valuation that a text writes, a later word over an earlier one; nothing where a word is none.
pub fn valuation_of(alloc: Global, text: &str) -> Result<Option<Valuation>, AllocError> {
    let mut v = Valuation::new(alloc);
    let mut all = true;
    for word in text.split_whitespace() {
        let known = set_by(&mut v, word)?;
        all = all && known;
    }
    if all { Ok(Some(v)) } else { Ok(None) }
}

/// The value of a term of the list under a valuation.
pub fn value_at(
    alloc: Global,
    terms: &Terms,
    v: &Valuation,
    t: TermId,
) -> Result<Option<u64>, AllocError> {
    if t.place() >= terms.len() {
        return Ok(None);
    }
    let mut room = ValueRoom::new(alloc, terms)?;
    Ok(Some(terms.value_with(v, t, &mut room)))
}
