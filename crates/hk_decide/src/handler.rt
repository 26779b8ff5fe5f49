//! A handler of a specification for a kernel.

use ir_kernel::Kernel;
use spec_tree::{Spec, Transition};

/// A handler: its place in the specification, counted from 0, and its transition there.
#[derive(Drop)]
pub struct Handler<'a> {
    pub kernel: &'a Kernel,
    pub spec: &'a Spec,
    pub place: u32,
    pub transition: &'a Transition,
}
