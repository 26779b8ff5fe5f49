//! Local names in order, and a truth behind them.

ghost use Rattle.std.specs.Prelude.{◌≡◌, OnOk, IfOk};
ghost use Rattle.spec_tree.specs.Sorted.{IsSorted, AreLocals, with_local, with_locals};
ghost use Rattle.spec_tree.specs.Value.{value, holds};
ghost use Rattle.spec_tree.specs.View.{view_expr, view_locals};
ghost use Rattle.spec_tree.specs.Meaning.{with_value, with_values};
ghost use Rattle.spec_number.specs.Evaluation.{Stands, context_of, env_of};

use spec_number::{Frame, Reading, number_of};
use spec_tree::laws::{values_have_their_widths, widths_are_from_1_to_64};
use spec_tree::{Body, Expr, ExprList};
use spec_value::is_true;
use std::alloc::AllocError;

/// Puts the number of an expression as the next local name.
pub(crate) fn put_name(reading: &Reading, frame: &mut Frame, e: &Expr) -> Result<(), AllocError>
    requires stands { Stands reading.now frame.old }
    requires sorted { IsSorted (context_of reading.now frame.old) (view_expr e.now) }
    ensures context { OnOk result (context_of reading.now frame.new ≡ with_local (context_of reading.now frame.old) (view_expr e.now)) }
    ensures env { OnOk result (env_of reading.now frame.new ≡ with_value (context_of reading.now frame.old) (env_of reading.now frame.old) (view_expr e.now)) }
{
    let number = number_of(reading, frame, e)?;
    frame.put_local(number)?;
    Ok(())
}

/// Puts local names in order, each over the earlier ones.
pub(crate) fn put_names(
    reading: &Reading,
    frame: &mut Frame,
    names: &ExprList,
) -> Result<(), AllocError>
    requires stands { Stands reading.now frame.old }
    requires sorted { AreLocals (context_of reading.now frame.old) (view_locals names.now) }
    ensures context { OnOk result (context_of reading.now frame.new ≡ with_locals (context_of reading.now frame.old) (view_locals names.now)) }
    ensures env { OnOk result (env_of reading.now frame.new ≡ with_values (context_of reading.now frame.old) (env_of reading.now frame.old) (view_locals names.now)) }
    ensures stands { OnOk result (Stands reading.now frame.new) }
{
    let items = names.items.as_slice();
    'each: for e in items {
        put_name(reading, frame, e)?;
    }
    Ok(())
}

/// Whether a truth holds behind its local names.
pub(crate) fn holds_in(
    reading: &Reading,
    frame: &mut Frame,
    body: &Body,
) -> Result<bool, AllocError>
    requires stands { Stands reading.now frame.old }
    requires names { AreLocals (context_of reading.now frame.old) (view_locals body.now.locals) }
    requires sorted { IsSorted (with_locals (context_of reading.now frame.old) (view_locals body.now.locals)) (view_expr body.now.value) }
    ensures { IfOk result (λ b. b ≡ holds (value (with_locals (context_of reading.now frame.old) (view_locals body.now.locals)) (with_values (context_of reading.now frame.old) (env_of reading.now frame.old) (view_locals body.now.locals)) (view_expr body.now.value))) }
{
    put_names(reading, frame, &body.locals)?;
    let number = number_of(reading, frame, &body.value)?;
    Ok(is_true(number.bits))
}
