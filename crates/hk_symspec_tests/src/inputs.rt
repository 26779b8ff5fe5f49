//! Kernels with specifications that fit them, of files and of generated workloads.

ghost use Rattle.std.specs.Prelude.{IfOk, IfSome};
ghost use Rattle.ir_ast.specs.ProgramView.{view_module};
ghost use Rattle.spec_kernel.specs.Fit.{FitsModule};
ghost use Rattle.spec_tree.specs.Sorted.{IsWellSorted};
ghost use Rattle.spec_tree.specs.View.{view_spec};

use hk_gen::generate;
use hk_inputs::{Inputs, read};
use hk_io::{FolderShelf, LoadFault, Shelf};
use std::alloc::{AllocError, Global};

/// The most bytes of a text: 16 MiB.
const LIMIT: u32 = 16_777_216;

/// The bytes of the file of a name, where it is read.
fn file(alloc: Global, shelf: &mut FolderShelf, name: &str) -> Result<Option<Vec<u8>>, AllocError> {
    match shelf.load(alloc, name, LIMIT) {
        Ok(text) => Ok(Some(text)),
        Err(LoadFault::Memory) => Err(AllocError),
        Err(_) => Ok(None),
    }
}

/// The kernel and the specification of two files, where they are some.
pub fn load(
    alloc: Global,
    shelf: &mut FolderShelf,
    kernel: &str,
    spec: &str,
) -> Result<Option<Inputs>, AllocError>
    ensures sorted { IfOk result (λ read. IfSome read (λ inputs. IsWellSorted (view_spec inputs.spec))) }
    ensures fits { IfOk result (λ read. IfSome read (λ inputs. FitsModule (view_module inputs.kernel) (view_spec inputs.spec))) }
{
    let first = file(alloc, shelf, kernel)?;
    let second = file(alloc, shelf, spec)?;
    match (first, second) {
        (Some(kernel), Some(spec)) => Ok(read(alloc, kernel.as_slice(), spec.as_slice())),
        _ => Ok(None),
    }
}

/// The kernel and the specification of the generated workload of a size, where there is one.
pub fn generated(alloc: Global, size: u32) -> Result<Option<Inputs>, AllocError>
    ensures sorted { IfOk result (λ read. IfSome read (λ inputs. IsWellSorted (view_spec inputs.spec))) }
    ensures fits { IfOk result (λ read. IfSome read (λ inputs. FitsModule (view_module inputs.kernel) (view_spec inputs.spec))) }
{
    if size == 0 || size > 64 {
        return Ok(None);
    }
    let texts = generate(alloc, size)?;
    Ok(read(alloc, texts.0.as_slice(), texts.1.as_slice()))
}
