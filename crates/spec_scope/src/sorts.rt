//! The fields of the abstract state.

use spec_tree::SortList;

/// The sorts of a field's keys, of which a scalar has none, and the width of an entry in bits.
#[derive(Drop)]
pub struct FieldSort {
    pub keys: SortList,
    pub width: u32,
}

/// A field: the first physical line of its declaration, and its sort, which is none where that line fails.
#[derive(Drop)]
pub struct FieldRow {
    pub line: u32,
    pub sort: Option<FieldSort>,
}
