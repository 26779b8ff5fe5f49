//! A kernel text that was read.

use crate::global::{GlobalItem, LineText, RangeEntry, TypeEntry};
use crate::instr::Function;
use crate::table::Table;

/// Named types by name.
pub type TypeTable = Table<TypeEntry>;
/// Globals by name.
pub type GlobalTable = Table<GlobalItem>;
/// Functions by name.
pub type FunctionTable = Table<Function>;
/// Ranges by number, as a name.
pub type RangeTable = Table<RangeEntry>;

/// A kernel: its layout text where it has one, and its tables in text order.
#[derive(Drop)]
pub struct Module {
    pub layout_text: Option<LineText>,
    pub types: TypeTable,
    pub globals: GlobalTable,
    pub functions: FunctionTable,
    pub ranges: RangeTable,
}
