//! Names that are numbers, which parameters and first blocks without a name have.

ghost use Rattle.std.specs.Prelude.{◌≡◌, IfOk, bytes_eq, decimal};

use ir_ast::Name;
use itoa::Buffer;
use std::alloc::{AllocError, Global};

/// The name that is this number in decimal digits.
pub fn number_name(alloc: Global, number: u64) -> Result<Name, AllocError>
    ensures { IfOk result (λ name. name ≡ decimal number) }
{
    let mut buffer = Buffer::new();
    Name::copy_of(alloc, buffer.format(number).as_bytes())
}

/// Whether a name is this number in decimal digits.
pub fn is_number(name: &Name, number: u64) -> bool
    ensures { result ≡ bytes_eq name.now (decimal number) }
{
    let mut buffer = Buffer::new();
    name.as_bytes() == buffer.format(number).as_bytes()
}
