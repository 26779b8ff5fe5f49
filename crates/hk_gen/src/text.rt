//! Texts of fixed words and decimal numbers.

ghost use Rattle.std.specs.Prelude.{◌≡◌, ◌++◌, OnOk};
ghost use Rattle.std.specs.List.{flat_map};
ghost use Rattle.hk_gen.specs.Texts.{part_text, line_text};

use itoa::Buffer;
use std::alloc::AllocError;

/// A part of a text.
#[derive(Clone, Copy)]
pub enum Part<'a> {
    /// Bytes as they are.
    Words(&'a [u8]),
    /// A number, in decimal.
    Number(u32),
}

/// Adds a part at the end of a text.
fn put_part(text: &mut Vec<u8>, part: &Part) -> Result<(), AllocError>
    ensures { OnOk result (text.new.items ≡ text.old.items ++ part_text part.now) }
{
    match part {
        Part::Words(words) => text.extend_from_slice(words)?,
        Part::Number(number) => text.extend_from_slice(Buffer::new().format(*number).as_bytes())?,
    }
    Ok(())
}

/// Adds parts at the end of a text, in their order.
fn put_parts(text: &mut Vec<u8>, parts: &[Part]) -> Result<(), AllocError>
    ensures { OnOk result (text.new.items ≡ text.old.items ++ flat_map part_text parts.now) }
{
    for part in parts {
        put_part(text, part)?;
    }
    Ok(())
}

/// Adds a line at the end of a text: parts and a newline.
fn put_line(text: &mut Vec<u8>, parts: &[Part]) -> Result<(), AllocError>
    ensures { OnOk result (text.new.items ≡ text.old.items ++ line_text parts.now) }
{
    put_parts(text, parts)?;
    text.push(b'\n')?;
    Ok(())
}

/// Adds lines at the end of a text, in their order.
pub fn put_lines(text: &mut Vec<u8>, lines: &[&[Part]]) -> Result<(), AllocError>
    ensures { OnOk result (text.new.items ≡ text.old.items ++ flat_map (λ line. line_text line.now) lines.now) }
{
    for line in lines {
        put_line(text, line)?;
    }
    Ok(())
}
