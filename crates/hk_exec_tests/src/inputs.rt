//! Kernels of files.

ghost use Rattle.std.specs.Prelude.{◌<◌, ◌^◌, length};

use hk_io::{FolderShelf, LoadFault, Shelf};
use ir_kernel::Kernel;
use ir_read::read_module;
use std::alloc::{AllocError, Global};

/// The most bytes of a text: 16 MiB.
const LIMIT: u32 = 16_777_216;

/// The kernel of a text, where it is one.
fn kernel_of(alloc: Global, text: &[u8]) -> Option<Kernel>
    requires { length text.now < 2 ^ 31 }
{
    match read_module(alloc, text) {
        Ok(read) => match Kernel::new(alloc, read) {
            Ok(kernel) => Some(kernel),
            Err(_) => None,
        },
        Err(_) => None,
    }
}

/// The kernel of the file of a name, where there is one.
pub fn load_kernel(
    alloc: Global,
    shelf: &mut FolderShelf,
    name: &str,
) -> Result<Option<Kernel>, AllocError> {
    match shelf.load(alloc, name, LIMIT) {
        Ok(text) => Ok(kernel_of(alloc, &text)),
        Err(LoadFault::Memory) => Err(AllocError),
        Err(_) => Ok(None),
    }
}
