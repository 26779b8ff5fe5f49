//! What is known of a text before its lines are judged.

ghost use Rattle.std.specs.Prelude.{◌≡◌, [], option_map, IfOk, OnOk};
ghost use Rattle.spec_ast.specs.View.{view_expr, view_item, view_lines};
ghost use Rattle.spec_scope.specs.Words.{words};
ghost use Rattle.spec_lines.specs.Whole as definition;
ghost use Rattle.spec_lines.specs.View.{view_here};

use crate::equation::equated_by;
use crate::here::{Here, is_equivalence};
use spec_ast::{RawExpr, RawItem, RawLine};
use std::alloc::{AllocError, Global};

/// Adds the name of a hook.
fn add_hook<'s>(hooks: &mut Vec<&'s [u8]>, item: &'s RawItem) -> Result<(), AllocError>
    ensures { OnOk result (words hooks.new.items ≡ definition.with_hook (words hooks.old.items) (view_item item.now)) }
{
    match item {
        RawItem::Hook(name) => {
            hooks.push(name.as_bytes())?;
            Ok(())
        }
        _ => Ok(()),
    }
}

/// The hooks of a text.
pub fn hooks_of<'s>(alloc: Global, lines: &'s [RawLine]) -> Result<Vec<&'s [u8]>, AllocError>
    ensures { IfOk result (λ hooks. words hooks.items ≡ definition.hooks_of (view_lines lines.now)) }
{
    let mut hooks = Vec::new(alloc);
    'each: for line in lines {
        add_hook(&mut hooks, &line.item)?;
    }
    Ok(hooks)
}

/// What the equivalence function returns, on its return line.
fn returned<'i>(here: &Here<'_>, item: &'i RawItem) -> Option<&'i RawExpr>
    ensures { option_map (λ e. view_expr e.now) result ≡ definition.returned (view_here here.now) (view_item item.now) }
{
    match item {
        RawItem::Return(e) => {
            if is_equivalence(&here.head) {
                Some(e)
            } else {
                None
            }
        }
        _ => None,
    }
}

/// What the return line of the first equivalence function equates: of each conjunct the place of its field.
pub fn equated_from<'s>(
    alloc: Global,
    here: &mut Here<'s>,
    lines: &'s [RawLine],
) -> Result<Vec<Option<u32>>, AllocError>
    ensures { IfOk result (λ v. v.items ≡ definition.equated_from (view_here here.old) (view_lines lines.now)) }
{
    'each: for line in lines {
        match returned(here, &line.item) {
            Some(e) => return equated_by(alloc, &here.scope, e),
            None => here.step(alloc, line.line, &line.item)?,
        }
    }
    Ok(Vec::new(alloc))
}
