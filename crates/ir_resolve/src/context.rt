//! Where an instruction stands.

use crate::local::Local;
use ir_ast::Module;
use ir_typing::Scope;

/// What stays the same along the instructions of a function: its module, its names, and what is known of its places.
#[derive(Clone, Copy)]
pub struct Context<'a> {
    pub kernel: &'a Module,
    pub scope: &'a Scope<'a>,
    pub local: &'a Local,
}
