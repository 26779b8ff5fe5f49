//! What may be named at a line.

ghost use Rattle.std.specs.Prelude.{◌≡◌};
ghost use Rattle.spec_scope.specs.Scope.{meaning};
ghost use Rattle.spec_scope.specs.View.{view_scope};

use crate::fields::FieldTable;
use crate::meaning::Meaning;
use crate::table::NameTable;
use spec_kernel::KernelNames;

/// What may be named at a line of a specification.
#[derive(Drop)]
pub struct Scope<'s> {
    pub kernel: &'s KernelNames<'s>,
    /// The fields of the first class of the text.
    pub fields: FieldTable<'s>,
    /// The names of the top on earlier lines.
    pub top: NameTable<'s>,
    /// The names of the function that goes on.
    pub inner: NameTable<'s>,
}

impl<'s> Scope<'s> {
    /// What a name means: an inner name hides one of the top.
    pub fn meaning(&self, name: &[u8]) -> Option<Meaning>
        ensures { result ≡ meaning (view_scope self.now) name.now }
    {
        match self.inner.get(name) {
            Some(meaning) => Some(meaning),
            None => self.top.get(name),
        }
    }
}
