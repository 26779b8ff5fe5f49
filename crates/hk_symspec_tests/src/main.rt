//! A test as a program: specifications as terms, beside their evaluation.
//!
//! The first word is how many valuations are drawn. Each other word names two texts: `K S` a kernel and a specification in files, `bench N`
//! the generated workload of that size. Each part of a specification that has a number, as an invariant, an entry of a field or the result
//! of a transition, is made a term over memory by cells and by bytes and over arrays of entries. A line for each part tells how many
//! values of its terms were computed, and how many of them are not the number that evaluation gives over the memory, or the abstract
//! state, of the valuation.
#![tactic(auto)]

mod compared;
mod draws;
mod fitting;
mod ground;
mod indices;
mod inputs;
mod lines;
mod looked;
mod parts;
mod plain;
mod random;
mod tellings;
mod told;
mod trials;

ghost use Rattle.std.specs.Prelude.{IfOk, IfSome};
ghost use Rattle.ir_ast.specs.ProgramView.{view_module};
ghost use Rattle.spec_kernel.specs.Fit.{FitsModule};
ghost use Rattle.spec_tree.specs.Sorted.{IsWellSorted};
ghost use Rattle.spec_tree.specs.View.{view_spec};

use crate::inputs::{generated, load};
use crate::lines::lines_of;
use hk_inputs::Inputs;
use hk_io::FolderShelf;
use std::alloc::{AllocError, Global};
use std::{env, io};

/// The words of a line, of which each two have one space between them.
fn words_of(alloc: Global, line: &str) -> Result<Vec<String>, AllocError> {
    let mut words = Vec::new(alloc);
    for word in line.split(' ') {
        words.push(String::from_str(alloc, word)?)?;
    }
    Ok(words)
}

/// The kernel and the specification that two words name.
fn inputs_of(
    alloc: Global,
    shelf: &mut FolderShelf,
    first: &str,
    second: &str,
) -> Result<Option<Inputs>, AllocError>
    ensures sorted { IfOk result (λ read. IfSome read (λ inputs. IsWellSorted (view_spec inputs.spec))) }
    ensures fits { IfOk result (λ read. IfSome read (λ inputs. FitsModule (view_module inputs.kernel) (view_spec inputs.spec))) }
{
    if first == "bench" {
        generated(alloc, second.parse::<u32>().unwrap_or(0))
    } else {
        load(alloc, shelf, first, second)
    }
}

/// What is told of the texts that a line names.
fn told_of(
    alloc: Global,
    shelf: &mut FolderShelf,
    line: &str,
    times: u64,
) -> Result<String, AllocError> {
    let words = words_of(alloc, line)?;
    match (words.get(0), words.get(1)) {
        (Some(first), Some(second)) => {
            match inputs_of(alloc, shelf, first.as_str(), second.as_str())? {
                Some(inputs) => lines_of(alloc, &inputs, times),
                None => String::from_str(alloc, "  not read\n"),
            }
        }
        _ => String::from_str(alloc, "  no two words\n"),
    }
}

fn main(rt: HostRuntime) -> io::Result<()> {
    let mut words = Vec::new(rt.alloc());
    for word in env::args(&rt)? {
        words.push(word)?;
    }
    let times = match words.get(1) {
        Some(word) => word.parse::<u64>().unwrap_or(0),
        None => 0,
    };
    let mut shelf = FolderShelf::new(rt);
    for line in words.iter().skip(2) {
        println!(rt; "{line}")?;
        let told = told_of(rt.alloc(), &mut shelf, line.as_str(), times)?;
        print!(rt; "{told}")?;
    }
    Ok(())
}
