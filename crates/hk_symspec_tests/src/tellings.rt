//! Terms of their own lists.

use crate::indices::At;
use hk_term::{TermId, Terms, Valuation};
use std::alloc::{AllocError, Global};

/// What a term stands over: memory by cells, memory by bytes, the entries of the first arrays, or those of later ones.
#[derive(Clone, Copy, Debug)]
pub enum Over {
    Cells,
    Bytes,
    First,
    Later,
}

/// The term of a part, in a list of its own; none where there is none.
#[derive(Drop)]
pub struct Telling {
    pub over: Over,
    pub at: At,
    pub terms: Terms,
    pub term: Option<TermId>,
}

impl Telling {
    /// The value of the term under a valuation, where there is a term.
    pub fn value(&self, alloc: Global, v: &Valuation) -> Result<Option<u64>, AllocError> {
        match self.term {
            Some(term) => Ok(value_of(alloc, &self.terms, v, term)?),
            None => Ok(None),
        }
    }
}

/// The value of a term of a list.
fn value_of(
    alloc: Global,
    terms: &Terms,
    v: &Valuation,
    t: TermId,
) -> Result<Option<u64>, AllocError> {
    if t.place() >= terms.len() {
        return Ok(None);
    }
    let len = terms.len() as usize;
    let mut room = vec![in alloc; 0; 2 * len]?;
    Ok(Some(terms.value(v, t, &mut room)))
}
