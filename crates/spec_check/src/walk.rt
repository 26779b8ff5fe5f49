//! The walk over the lines: each is judged where it stands, and the first that fails ends it.

ghost use Rattle.std.specs.Prelude.{◌≡◌, true, OnOk};
ghost use Rattle.spec_ast.specs.View.{view_item, view_line, view_lines};
ghost use Rattle.spec_lines.specs.Behind as definition;
ghost use Rattle.spec_lines.specs.View.{view_here, view_text, AreHeadsOf};
ghost use Rattle.spec_lines.specs.MadeView.{view_made};
ghost use Rattle.spec_sound.specs.Limits as limits;
ghost use Rattle.spec_check.specs.Walk.{Ends, end_of, Steps};

use spec_ast::{RawItem, RawLine, SpecFault, SpecStop};
use spec_lines::faults::Text;
use spec_lines::fore::FieldHead;
use spec_lines::here::{Here, is_handler};
use spec_lines::made::{Made, kind_of};
use std::alloc::{AllocError, Global};

/// Whether a line is no copy line, or stands in a handler.
fn copy_stands(here: &Here<'_>, item: &RawItem) -> bool
    ensures { result ≡ limits.copy_stands (view_here here.now) (view_item item.now) }
{
    match item {
        RawItem::Copy(..) => is_handler(kind_of(&here.head)),
        _ => true,
    }
}

/// Goes on behind a line that stands. No copy line that was read stands outside a handler; one that did would be answered as want of
/// memory.
fn go_on<'s>(alloc: Global, here: &mut Here<'s>, line: &'s RawLine) -> Result<(), AllocError>
    ensures here { OnOk result (view_here here.new ≡ definition.behind (view_here here.old) line.now.line (view_item line.now.item)) }
    ensures copies { OnOk result (limits.copy_stands (view_here here.old) (view_item line.now.item) ≡ true) }
{
    if !copy_stands(here, &line.item) {
        return Err(AllocError);
    }
    here.step(alloc, line.line, &line.item)
}

/// Judges a line, and goes on behind it where it stands.
fn judge_line<'s>(
    alloc: Global,
    text: &Text,
    here: &mut Here<'s>,
    heads: &[FieldHead<'_>],
    made: &mut Made,
    line: &'s RawLine,
) -> Result<(), SpecStop>
    requires { AreHeadsOf here.old.scope.fields heads.now }
    ensures steps { Steps result (view_text here.old.scope.kernel.now text.now) (view_here here.old) (view_made made.old) (view_here here.new) (view_made made.new) (view_line line.now) }
    ensures copies { OnOk result (limits.copy_stands (view_here here.old) (view_item line.now.item) ≡ true) }
    ensures here { OnOk result (view_here here.new ≡ definition.behind (view_here here.old) line.now.line (view_item line.now.item)) }
{
    match made.judge(alloc, text, here, heads, &line.item)? {
        Some(reason) => Err(SpecStop::Refused(SpecFault {
            line: line.line,
            reason,
        })),
        None => {
            go_on(alloc, here, line)?;
            Ok(())
        }
    }
}

/// Judges lines one by one, up to the first that fails.
pub fn judge_all<'s>(
    alloc: Global,
    text: &Text,
    here: &mut Here<'s>,
    heads: &[FieldHead<'_>],
    made: &mut Made,
    lines: &'s [RawLine],
) -> Result<(), SpecStop>
    requires { AreHeadsOf here.old.scope.fields heads.now }
    ensures ends { Ends result (view_made made.new) (end_of (view_text here.old.scope.kernel.now text.now) (view_here here.old) (view_made made.old) (view_lines lines.now)) }
    ensures copies { OnOk result (limits.copies_stand (view_here here.old) (view_lines lines.now) ≡ true) }
{
    'each: for line in lines {
        judge_line(alloc, text, here, heads, made, line)?;
    }
    Ok(())
}
