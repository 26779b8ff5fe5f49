//! What stays the same while a function runs.

use hk_seq::Seq;
use ir_code::Program;
use ir_layout::Layout;

/// The setting in which a function runs.
#[derive(Clone, Copy)]
pub(crate) struct Setting<'a> {
    pub(crate) layout: &'a Layout,
    pub(crate) program: &'a Program,
    /// For each function, by its place, the order of its blocks.
    pub(crate) orders: &'a Seq<Seq<u32>>,
    /// The place of the function.
    pub(crate) function: u32,
    /// How deep the calls in it may go.
    pub(crate) depth: u32,
}
