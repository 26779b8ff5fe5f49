//! Names that are numbers.

ghost use Rattle.std.specs.Prelude.{◌≡◌, ◌<◌, ◌^◌, ◌-◌, IfOk};
ghost use Rattle.ir_lex.specs.Items.{number_after, number_behind};
ghost use Rattle.ir_top.specs.TopView.{view_parameters};
ghost use Rattle.ir_read.specs.Steps.{first_name};

use ir_ast::{IrType, Name};
use ir_top::{is_number, number_name};
use std::alloc::{AllocError, Global};

/// The number behind a name, which uses this one up where it is the name.
fn number_after(next: u64, name: &Name) -> u64
    requires { next < 2 ^ 64 - 1 }
    ensures { result ≡ number_after next name.now }
{
    if is_number(name, next) {
        next + 1
    } else {
        next
    }
}

/// The number behind all parameters.
fn number_behind(parameters: &[(IrType, Name)]) -> u64
    ensures { result ≡ number_behind 0 (view_parameters parameters.now) }
{
    let mut next = 0;
    for (at, (_, name)) in parameters.iter().enumerate() {
        next = number_after(next, name);
    }
    next
}

/// The name of a first block without a label: the number behind the parameters.
pub fn first_name(alloc: Global, parameters: &[(IrType, Name)]) -> Result<Name, AllocError>
    ensures { IfOk result (λ name. name ≡ first_name (view_parameters parameters.now)) }
{
    number_name(alloc, number_behind(parameters))
}
