//! Where a line stands.

ghost use Rattle.std.specs.Prelude.{◌≡◌, option_map};
ghost use Rattle.spec_lines.specs.Behind as definition;
ghost use Rattle.spec_lines.specs.View.{view_head, view_here, view_kind};
ghost use Rattle.spec_scope.specs.View.{view_scope};

use crate::function::FunctionKind;
use spec_scope::{BoundNames, Scope};
use std::alloc::Global;

/// The function that goes on.
#[derive(Clone, Copy, Debug)]
pub struct Head<'s> {
    /// The first physical line of its `def`, counted from 1.
    pub line: u32,
    pub name: &'s [u8],
    pub kind: Option<FunctionKind<'s>>,
    /// The place of the kernel's function of that name.
    pub place: Option<u32>,
}

/// Where a line stands: what may be named there, and what the lines before it leave.
#[derive(Drop)]
pub struct Here<'s> {
    pub scope: Scope<'s>,
    pub head: Option<Head<'s>>,
    /// Bits of the result of the handler that goes on; none for void.
    pub result: Option<u32>,
    /// How many local names of the function that goes on have a place.
    pub lets: u32,
    pub copied: bool,
    pub classes: u32,
    /// The fields of the class that goes on.
    pub class_names: BoundNames<'s>,
    /// The entries of all fields, to one more than the limit.
    pub entries: u64,
    pub handlers: u32,
}

/// Whether it is the equivalence function.
pub fn is_equivalence(head: &Option<Head<'_>>) -> bool
    ensures { result ≡ definition.is_equivalence (definition.kind_of (option_map view_head head.now)) }
{
    match head {
        Some(head) => match head.kind {
            Some(FunctionKind::Equivalence) => true,
            _ => false,
        },
        None => false,
    }
}

/// Whether it is a handler.
pub fn is_handler(kind: Option<FunctionKind<'_>>) -> bool
    ensures { result ≡ definition.is_handler (option_map view_kind kind.entry) }
{
    match kind {
        Some(FunctionKind::Handler) => true,
        _ => false,
    }
}

/// Before the first line.
pub fn start<'s>(alloc: Global, scope: Scope<'s>) -> Here<'s>
    ensures { view_here result ≡ definition.start (view_scope scope.entry) }
{
    Here {
        scope,
        head: None,
        result: None,
        lets: 0,
        copied: false,
        classes: 0,
        class_names: BoundNames::new(alloc),
        entries: 0,
        handlers: 0,
    }
}
