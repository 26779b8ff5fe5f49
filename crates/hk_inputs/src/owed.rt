//! What a handler owes.

ghost use Rattle.std.specs.Prelude.{◌≡◌, ◌<◌, ◌^◌, Some, slice_get, length, IfOk, OnOk};
ghost use Rattle.spec_tree.specs.Plain as plain;
ghost use Rattle.spec_tree.specs.View.{view_spec};
ghost use Rattle.hk_case.specs.Obligations.{obligations_of};

use hk_case::{Obligation, obligations};
use hk_seq::Seq;
use spec_tree::Spec;
use std::alloc::{AllocError, Global};

/// Whether 32 bits can name the places of a list; else it is want of memory, as it is in deciding.
fn few(parts: usize) -> Result<(), AllocError>
    ensures few { OnOk result (parts < 2 ^ 32) }
{
    if parts > u32::MAX as usize {
        return Err(AllocError);
    }
    Ok(())
}

/// The obligations of the handler with this place.
pub fn owed_by(alloc: Global, spec: &Spec, h: u32) -> Result<Seq<Obligation>, AllocError>
    requires there { h < length spec.now.transitions }
    ensures { (t : plain.Transition) → slice_get (view_spec spec.now).transitions h ≡ Some t → IfOk result (λ owed. owed ≡ obligations_of (view_spec spec.now) t) }
{
    few(spec.invariants.as_slice().len())?;
    few(spec.fields.as_slice().len())?;
    few(spec.properties.as_slice().len())?;
    let transition = &spec.transitions.as_slice()[h as usize];
    Ok(obligations(alloc, spec, transition)?)
}
