//! A test as a program: what is said of specification texts for one kernel, with the first line that fails and the least reason for it.
//!
//! Each line of standard input comes out again, with its answer behind it. Fields stand between tabs; in a field `\n` is a newline.
//!
//! - `# WORDS`: what the rows below show. It has no answer, and nothing stands before the texts below it.
//! - `frame`, TEXT: what stands before the texts of the rows below. It has no answer.
//! - `text`, TEXT: what is read and elaborated of the text behind the frame: `holds`, or the line and the reason of the refusal.
//! - `return`, EXPRESSION: the same of the frame and a last line that returns the expression.
//! - `names`, `bound`, `fields`, STEPS: what steps on a table of names, bound names or fields find (`steps.rt`).
//!
//! A line of no such form comes out behind a question mark. What `stdout` expects was written from the rules, and compared with a second
//! reading of the rules outside of this repository.
#![tactic(auto)]

mod steps;
mod texts;

ghost use Rattle.ir_ast.specs.ProgramView.{view_module};
ghost use Rattle.ir_layout.specs.Layouts.{IsLayoutOf};

use crate::steps::{bound_found, fields_found, names_found};
use crate::texts::{add_text, said};
use ir_check::{Checked, check};
use ir_layout::Layout;
use ir_read::read_module;
use std::alloc::{AllocError, Global};
use std::io;

/// Globals of 8, 32 and 64 bits, an array, an array of structs and one of arrays; two declared void functions, one that gives a number and
/// an intrinsic; functions with bodies: `f`, `g` and `v` call nothing, `p` takes and `pr` gives a pointer, `h` calls `flush`, `hh` calls
/// `h`, `hd` calls `drain` and `hh`, and `as` the intrinsic.
const KERNEL: &[u8] =
    b"%struct.proc = type { i32, [4 x i32], i16 }\n@a = global i8 0\n@b = global i8 0\n@w = global i32 0\n@q = global i64 0\n@arr = global [4 x i8] zeroinitializer\n@procs = global [4 x %struct.proc] zeroinitializer\n@grid = global [3 x [2 x i16]] zeroinitializer\ndeclare void @flush()\ndeclare void @drain(i8)\ndeclare i32 @ext()\ndeclare void @llvm.assume(i1)\ndefine i32 @f(i8 %x, i32 %y) {\n  ret i32 0\n}\ndefine void @v() {\n  ret void\n}\ndefine i8 @g(i8 %x) {\n  ret i8 %x\n}\ndefine void @p(ptr %x) {\n  ret void\n}\ndefine ptr @pr() {\n  ret ptr null\n}\ndefine void @h() {\n  call void @flush()\n  ret void\n}\ndefine void @hh() {\n  call void @h()\n  ret void\n}\ndefine void @hd(i8 %x) {\n  call void @drain(i8 %x)\n  call void @hh()\n  ret void\n}\ndefine void @as(i1 %c) {\n  call void @llvm.assume(i1 true)\n  ret void\n}\n";

/// What a row of these two fields says, and nothing where there is no such row.
fn answer(
    alloc: Global,
    checked: &Checked,
    layout: &Layout,
    frame: &[u8],
    call: &str,
    field: &str,
) -> Result<Option<String>, AllocError>
    requires { IsLayoutOf (view_module checked.now) layout.now }
{
    let found = match call {
        "text" => said(alloc, checked, layout, frame, "", field, "")?,
        "return" => said(alloc, checked, layout, frame, "    return ", field, "\n")?,
        "names" => names_found(alloc, field)?,
        "bound" => bound_found(alloc, field)?,
        "fields" => fields_found(alloc, field)?,
        _ => return Ok(None),
    };
    Ok(Some(found))
}

/// A line with its answer. A heading and a frame change what stands before the texts.
fn answered(
    alloc: Global,
    checked: &Checked,
    layout: &Layout,
    frame: &mut Vec<u8>,
    line: &str,
) -> Result<String, AllocError>
    requires { IsLayoutOf (view_module checked.now) layout.now }
{
    if line.is_empty() || line.starts_with('#') {
        frame.clear();
        return String::from_str(alloc, line);
    }
    let Some((call, field)) = line.split_once('\t') else {
        return format!(in alloc; "? {line}");
    };
    if call == "frame" {
        frame.clear();
        add_text(frame, field)?;
        return String::from_str(alloc, line);
    }
    match answer(alloc, checked, layout, frame, call, field)? {
        Some(found) => format!(in alloc; "{line}\t{found}"),
        None => format!(in alloc; "? {line}"),
    }
}

/// Answers all lines.
fn answer_all(rt: &HostRuntime, checked: &Checked, layout: &Layout) -> io::Result<()>
    requires { IsLayoutOf (view_module checked.now) layout.now }
{
    let mut frame = Vec::new(rt.alloc());
    for line in rt.lines(rt.alloc()) {
        let line = line?;
        let shown = answered(rt.alloc(), checked, layout, &mut frame, line.as_str())?;
        println!(rt; "{shown}")?;
    }
    Ok(())
}

fn main(rt: HostRuntime) -> io::Result<()> {
    let Ok(module) = read_module(rt.alloc(), KERNEL) else {
        return println!(rt; "no module");
    };
    let Ok(layout) = Layout::of(rt.alloc(), &module) else {
        return println!(rt; "no layout");
    };
    let Ok(checked) = check(rt.alloc(), module) else {
        return println!(rt; "no kernel");
    };
    answer_all(&rt, &checked, &layout)
}
