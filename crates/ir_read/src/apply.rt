//! What an item adds to what stands before it.

ghost use Rattle.std.specs.Prelude.{◌≡◌, OnOk};
ghost use Rattle.ir_lex.specs.Cut.{cuts_of};
ghost use Rattle.ir_top.specs.TopView.{view_top};
ghost use Rattle.ir_read.specs.Steps as definition;
ghost use Rattle.ir_read.specs.View.{AreCounted, view_whole, view_body, view_reading, HasLine, state_of};
ghost use Rattle.ir_read.specs.Answers.{Comes, IsNew};

use crate::body::Body;
use crate::head::with_head;
use crate::reading::Reading;
use crate::stop::Stop;
use crate::whole::Whole;
use ir_ast::{
    ByteList, Function, GlobalItem, KernelReason, LineText, ParameterList, RangeEntry, TypeEntry,
};
use ir_lex::Item;
use ir_top::TopItem;
use std::alloc::Global;

/// What an item that is read so adds, on this line and before these others.
pub fn apply(
    alloc: Global,
    whole: &mut Whole,
    body: Option<Body>,
    reading: Reading,
    line: u32,
    after: &[Item<'_>],
) -> Result<Option<Body>, Stop>
    requires counted { AreCounted whole.old }
    requires new { IsNew (state_of whole.old body) }
    requires line { HasLine reading line }
    ensures value { Comes result whole.new (λ out. out ≡ definition.after_reading (view_reading reading) line (cuts_of after.now) (state_of whole.old body)) }
    ensures counted { OnOk result (AreCounted whole.new) }
{
    match reading {
        Reading::Passed => Ok(body),
        Reading::Range(name, numbers) => {
            whole.add_range(name, RangeEntry { line, numbers })?;
            Ok(body)
        }
        Reading::Top(top) => top_at(alloc, whole, body, top, line, after),
        Reading::Label(name) => match body {
            Some(body) => Ok(Some(body.with_label(alloc, line, name)?)),
            None => Err(Stop::Refused(KernelReason::K2)),
        },
        Reading::Instr(instr) => match body {
            Some(body) => Ok(Some(body.with_instr(alloc, instr)?)),
            None => Err(Stop::Refused(KernelReason::K2)),
        },
        Reading::Close => match body {
            Some(body) => {
                whole.push_function(alloc, body.close()?)?;
                Ok(None)
            }
            None => Err(Stop::Refused(KernelReason::K2)),
        },
        Reading::Refused(reason) => Err(Stop::Refused(reason)),
    }
}

/// What an item outside of bodies adds: in a body it is out of place.
fn top_at(
    alloc: Global,
    whole: &mut Whole,
    body: Option<Body>,
    top: TopItem,
    line: u32,
    after: &[Item<'_>],
) -> Result<Option<Body>, Stop>
    requires { AreCounted whole.old }
    ensures value { Comes result whole.new (λ out. out ≡ definition.top_at (state_of whole.old body).body (view_top top) line (cuts_of after.now) (view_whole whole.old)) }
    ensures counted { OnOk result (AreCounted whole.new) }
{
    match body {
        None => after_top(alloc, whole, top, line, after),
        Some(_) => Err(Stop::Refused(KernelReason::K2)),
    }
}

/// What an item outside of bodies adds there.
fn after_top(
    alloc: Global,
    whole: &mut Whole,
    top: TopItem,
    line: u32,
    after: &[Item<'_>],
) -> Result<Option<Body>, Stop>
    requires { AreCounted whole.old }
    ensures value { Comes result whole.new (λ out. out ≡ definition.after_top (view_top top) line (cuts_of after.now) (view_whole whole.old)) }
    ensures counted { OnOk result (AreCounted whole.new) }
{
    match top {
        TopItem::Layout(bytes) => {
            whole.add_layout(LineText { line, bytes })?;
            Ok(None)
        }
        TopItem::Named(name, over) => {
            whole.add_type(name, TypeEntry { line, over })?;
            Ok(None)
        }
        TopItem::Global {
            name,
            constant,
            over,
            init,
            align,
        } => {
            let global = GlobalItem {
                line,
                name,
                constant,
                over,
                init,
                align,
            };
            whole.add_global(alloc, global)?;
            Ok(None)
        }
        TopItem::Define {
            name,
            result,
            parameters,
        } => {
            let function = Function {
                line,
                name,
                result,
                parameters,
                body: None,
            };
            Ok(Some(with_head(alloc, whole, function, after)?))
        }
        TopItem::Declare { name, result } => {
            let function = Function {
                line,
                name,
                result,
                parameters: ParameterList {
                    items: Vec::new(alloc),
                },
                body: None,
            };
            whole.add_declared(alloc, function)?;
            Ok(None)
        }
    }
}
