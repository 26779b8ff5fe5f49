//! Parts of goals with the list in which their terms stand.

use crate::parts::Parts;
use hk_term::Terms;

/// Parts of goals, and the list of their terms.
#[derive(Drop)]
pub struct Listed {
    pub terms: Terms,
    pub parts: Parts,
}
