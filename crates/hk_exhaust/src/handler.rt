//! A transition of a specification.

use spec_tree::{Spec, Transition};

/// A transition with its specification.
#[derive(Clone, Copy)]
pub(crate) struct Handler<'a> {
    pub(crate) spec: &'a Spec,
    /// The place of the transition.
    pub(crate) place: u32,
    pub(crate) transition: &'a Transition,
    /// How many objects a memory has.
    pub(crate) objects: u32,
}
