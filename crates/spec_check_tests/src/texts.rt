//! What is said of a text for the kernel of all rows.

ghost use Rattle.std.specs.Prelude.{◌<◌, ◌^◌, length};
ghost use Rattle.ir_ast.specs.ProgramView.{view_module};
ghost use Rattle.ir_layout.specs.Layouts.{IsLayoutOf};

use ir_check::Checked;
use ir_layout::Layout;
use spec_check::elaborate;
use spec_read::read_spec;
use std::alloc::{AllocError, Global};

/// Adds a field of a row, in which `\n` is a newline.
pub(crate) fn add_text(text: &mut Vec<u8>, field: &str) -> Result<(), AllocError> {
    for (place, line) in field.split("\\n").enumerate() {
        if place > 0 {
            text.push(b'\n')?;
        }
        text.extend_from_slice(line.as_bytes())?;
    }
    Ok(())
}

/// What is said of a text: that it holds, the line and the reason of its refusal, or want of memory.
fn said_of(
    alloc: Global,
    checked: &Checked,
    layout: &Layout,
    text: &[u8],
) -> Result<String, AllocError>
    requires short { length text.now < 2 ^ 31 }
    requires layout { IsLayoutOf (view_module checked.now) layout.now }
{
    match read_spec(alloc, text) {
        Ok(raw) => match elaborate(alloc, &raw, checked, layout) {
            Ok(_) => String::from_str(alloc, "holds"),
            Err(stop) => stop.to_string(alloc),
        },
        Err(stop) => stop.to_string(alloc),
    }
}

/// What is said of these bytes and, behind them, a field between two texts.
pub(crate) fn said(
    alloc: Global,
    checked: &Checked,
    layout: &Layout,
    frame: &[u8],
    front: &str,
    field: &str,
    back: &str,
) -> Result<String, AllocError>
    requires { IsLayoutOf (view_module checked.now) layout.now }
{
    let mut text = Vec::new(alloc);
    text.extend_from_slice(frame)?;
    text.extend_from_slice(front.as_bytes())?;
    add_text(&mut text, field)?;
    text.extend_from_slice(back.as_bytes())?;
    if text.len() < 10_000 {
        said_of(alloc, checked, layout, &text)
    } else {
        String::from_str(alloc, "too long")
    }
}
