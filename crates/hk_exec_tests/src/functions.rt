//! The functions of a kernel that take and give integers.

ghost use Rattle.std.specs.Prelude.{◌≡◌, IfOk, length};

use hk_seq::Seq;
use ir_ast::{Function, IrType, Name};
use ir_kernel::{Kernel, Passed, pass};
use std::alloc::{AllocError, Global};

/// A function that is executed: its name, its place, and the widths of its parameters.
#[derive(Drop)]
pub struct Subject {
    pub name: Name,
    pub place: u32,
    pub widths: Seq<u32>,
}

/// The widths of a function's parameters; 0 for what is no integer.
fn widths_of(alloc: Global, function: &Function) -> Result<Seq<u32>, AllocError> {
    let mut widths = Seq::new(alloc);
    for parameter in function.parameters.items.as_slice() {
        let width = match &parameter.0 {
            IrType::Int(width) => *width,
            _ => 0,
        };
        widths.push(width)?;
    }
    Ok(widths)
}

/// So many zeros.
pub fn zeros(alloc: Global, count: usize) -> Result<Vec<u64>, AllocError>
    ensures { IfOk result (λ zeros. length zeros.items ≡ count) }
{
    Ok(vec![in alloc; 0; count]?)
}

/// The function of a name, where it has a body and takes and gives integers.
fn subject_of(
    alloc: Global,
    kernel: &Kernel,
    name: &Name,
    function: &Function,
) -> Result<Option<Subject>, AllocError> {
    let widths = widths_of(alloc, function)?;
    let none = zeros(alloc, widths.len())?;
    match pass(alloc, kernel, name, &none)? {
        Passed::To(place) => Ok(Some(Subject {
            name: name.copy(alloc)?,
            place,
            widths,
        })),
        Passed::Not(_) => Ok(None),
    }
}

/// The functions of a kernel that have a body and take and give integers, in the order of the text.
pub fn subjects(alloc: Global, kernel: &Kernel) -> Result<Seq<Subject>, AllocError> {
    let functions = &kernel.checked().module().functions;
    let mut found = Seq::new(alloc);
    for place in 0..functions.len() {
        let name = functions.name_at(place);
        if let Some(subject) = subject_of(alloc, kernel, name, functions.at(place))? {
            found.push(subject)?;
        }
    }
    Ok(found)
}
