//! Entries of a module's tables by name.

ghost use Rattle.std.specs.Prelude.{◌≡◌, is_some, option_map};
ghost use Rattle.ir_ast.specs.Small.{IsSmall};
ghost use Rattle.ir_ast.specs.ProgramView.{view_module, view_function, view_range};
ghost use Rattle.ir_type.specs.Names.{entry_of};
ghost use Rattle.ir_typing.specs.Registers.{function_of};

use ir_ast::{Function, Module, Name, RangeEntry};

/// Whether a global has this name.
#[tactic(auto, using(crate::proofs::Entered::known_viewed))]
pub fn has_global(module: &Module, name: &Name) -> bool
    requires { IsSmall «module».now }
    ensures { result ≡ is_some (entry_of name.now (view_module «module».now).globals) }
{
    module.globals.get(name).is_some()
}

/// The function of a name.
#[tactic(auto, using(crate::proofs::Entered::found_viewed, crate::proofs::Entered::none_viewed))]
pub fn function_named<'m>(module: &'m Module, name: &Name) -> Option<&'m Function>
    requires { IsSmall «module».now }
    ensures { option_map (λ f. view_function f.now) result ≡ function_of (view_module «module».now) name.now }
{
    match module.functions.get(name) {
        Some(place) => Some(module.functions.at(place)),
        None => None,
    }
}

/// The range of a name.
#[tactic(auto, using(crate::proofs::Entered::found_viewed, crate::proofs::Entered::none_viewed))]
pub fn range_named<'m>(module: &'m Module, name: &Name) -> Option<&'m RangeEntry>
    requires { IsSmall «module».now }
    ensures { option_map (λ r. view_range r.now) result ≡ entry_of name.now (view_module «module».now).ranges }
{
    match module.ranges.get(name) {
        Some(place) => Some(module.ranges.at(place)),
        None => None,
    }
}
