//! A test as a program: each word names a file, which is read as a kernel text, and each line says what it reads as.
//!
//! Its data are what clang 16 writes for small C functions, at several levels of optimisation. A text that leaves what
//! is read is named with the line and the reason of what fails first. Of a text that reads the line says what layout and
//! checks say: that it holds, or what fails first.
#![tactic(auto)]

ghost use Rattle.std.specs.Prelude.{◌<◌, ◌^◌, length};
ghost use Rattle.ir_ast.specs.Small.{IsSmall};
ghost use Rattle.ir_ast.specs.ProgramView.{view_module};
ghost use Rattle.ir_type.specs.Shape.{IsShaped, IsLined};

use hk_io::{FolderShelf, LoadFault, Shelf};
use ir_ast::{KernelStop, Module};
use ir_check::check;
use ir_layout::Layout;
use ir_read::read_module;
use std::alloc::{AllocError, Global};
use std::{env, io};

/// The most bytes of a text: 16 MiB.
const LIMIT: u32 = 16_777_216;

/// How many items a kernel has.
fn counts(alloc: Global, kernel: &Module) -> Result<String, AllocError>
    requires { IsSmall kernel.now }
{
    format!(in alloc;
        "{} types, {} globals, {} functions, {} ranges",
        kernel.types.len(),
        kernel.globals.len(),
        kernel.functions.len(),
        kernel.ranges.len()
    )
}

/// The first fault, or want of memory.
fn told(alloc: Global, stop: KernelStop) -> Result<String, AllocError> {
    match stop {
        KernelStop::Refused(fault) => format!(in alloc; "{fault}"),
        KernelStop::Memory => String::from_str(alloc, "memory"),
    }
}

/// What checks say of a kernel.
fn checked(alloc: Global, kernel: Module) -> Result<String, AllocError>
    requires small { IsSmall kernel }
    requires shaped { IsShaped (view_module kernel) }
    requires lined { IsLined (view_module kernel) }
{
    match check(alloc, kernel) {
        Ok(_) => String::from_str(alloc, "holds"),
        Err(stop) => told(alloc, stop),
    }
}

/// What layout, and then checks, say of a kernel.
fn judged(alloc: Global, kernel: Module) -> Result<String, AllocError>
    requires small { IsSmall kernel }
    requires shaped { IsShaped (view_module kernel) }
    requires lined { IsLined (view_module kernel) }
{
    match Layout::of(alloc, &kernel) {
        Ok(_) => checked(alloc, kernel),
        Err(stop) => told(alloc, stop),
    }
}

/// What a text reads as.
fn reading(alloc: Global, text: &[u8]) -> Result<String, AllocError>
    requires { length text.now < 2 ^ 31 }
{
    match read_module(alloc, text) {
        Ok(kernel) => {
            let counts = counts(alloc, &kernel)?;
            let judged = judged(alloc, kernel)?;
            format!(in alloc; "{counts}: {judged}")
        }
        Err(stop) => told(alloc, stop),
    }
}

/// What the file of a name reads as.
fn reading_of(alloc: Global, shelf: &mut FolderShelf, name: &str) -> Result<String, AllocError> {
    match shelf.load(alloc, name, LIMIT) {
        Ok(text) => reading(alloc, &text),
        Err(LoadFault::Memory) => String::from_str(alloc, "memory"),
        Err(_) => String::from_str(alloc, "no file"),
    }
}

fn main(rt: HostRuntime) -> io::Result<()> {
    let mut words = Vec::new(rt.alloc());
    for word in env::args(&rt)? {
        words.push(word)?;
    }
    let mut shelf = FolderShelf::new(rt);
    for name in words.iter().skip(1) {
        let read = reading_of(rt.alloc(), &mut shelf, name)?;
        println!(rt; "{name}: {read}")?;
    }
    Ok(())
}
