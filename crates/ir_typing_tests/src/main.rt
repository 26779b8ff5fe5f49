//! A test as a program: rows of kernel texts and types, with what the calls on names, types and values answer of each.
//!
//! Each line of standard input that is empty or begins with `#` is printed as it is. Any other is a row of fields between bars; it is
//! printed with its answer behind, or, if it is out of form, behind a `?`. In a text a `;` ends a line, and `-` alone is no text.
//!
//! - `fits | ITEMS | PARAMETERS | INSTRUCTIONS`: whether the instructions with which a function `f` begins take their operands and types.
//! - `fits | TEXT`, `known | TEXT`, `plain | TEXT`: whether those of the function `f` do, whether each name that they use is known, and
//!   whether none of them reads or writes a pointer outside a slot.
//! - `head | TEXT`, `global | TEXT`: whether the head of the function `f`, or the global `g`, fits.
//! - `same | TEXT`: whether the two operands of the phi with which the function `f` begins are the same.
//! - `one | TYPE | TYPE`: whether two types stand for one. `parts | TYPE`, `shape | TYPE`: what its number says of a type.
//! - `part | TYPE | K`: what part K of the first part of an array's element is.
//!
//! `src/letters.rt` says how a type is spelled. The answers are those of the LLVM Language Reference's rules.
#![tactic(auto)]

ghost use Rattle.std.specs.Prelude.{◌<◌, ◌^◌, length};
ghost use Rattle.ir_ast.specs.ProgramView.{view_entries, view_type_entry};
ghost use Rattle.ir_whole.specs.Numbers.{IsFor};

mod answers;
mod letters;
mod notes;
mod row;
mod shapes;
mod walk;

use crate::answers::{text_answer, type_answer};
use crate::letters::sample;
use crate::row::fields_of;
use ir_ast::{KernelStop, TypeTable};
use ir_whole::TypeNumbers;
use std::alloc::{AllocError, Global};
use std::io;

/// What is printed of a row over texts.
fn told_of_text(alloc: Global, row: &str, fields: &[&str]) -> Result<String, AllocError> {
    match text_answer(alloc, fields) {
        Ok(Some(answer)) => format!(in alloc; "{row} | {answer}"),
        Ok(None) => format!(in alloc; "? {row}"),
        Err(KernelStop::Refused(fault)) => format!(in alloc; "{row} | {fault}"),
        Err(KernelStop::Memory) => format!(in alloc; "{row} | memory"),
    }
}

/// What is printed of a row.
fn told(
    alloc: Global,
    types: &TypeTable,
    numbers: &mut TypeNumbers,
    row: &str,
) -> Result<String, AllocError>
    requires small { length types.now < 2 ^ 32 }
    requires types { IsFor (view_entries view_type_entry types.now) numbers.old }
    ensures types { IsFor (view_entries view_type_entry types.now) numbers.new }
{
    if row.is_empty() || row.starts_with('#') {
        return String::from_str(alloc, row);
    }
    let fields = fields_of(alloc, row)?;
    match type_answer(alloc, types, numbers, &fields)? {
        Some(answer) => format!(in alloc; "{row} | {answer}"),
        None => told_of_text(alloc, row, &fields),
    }
}

/// Prints what is told of each line of standard input.
fn tell(rt: &HostRuntime, types: &TypeTable, numbers: &mut TypeNumbers) -> io::Result<()>
    requires small { length types.now < 2 ^ 32 }
    requires types { IsFor (view_entries view_type_entry types.now) numbers.old }
{
    'rows: for row in rt.lines(rt.alloc()) {
        let row = row?;
        let told = told(rt.alloc(), types, numbers, row.as_str())?;
        println!(rt; "{told}")?;
    }
    Ok(())
}

fn main(rt: HostRuntime) -> io::Result<()> {
    let types = sample(rt.alloc())?;
    let mut numbers = TypeNumbers::of(rt.alloc(), &types)?;
    tell(&rt, &types, &mut numbers)
}
