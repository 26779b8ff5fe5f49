//! What a handler owes, as a list.

ghost use Rattle.std.specs.Prelude.{◌≡◌, ◌≤◌, ◌<◌, ◌^◌, ◌++◌, map, length, OnOk, IfOk, slice_get, Some};
ghost use Rattle.std.specs.List.{range_with_len};
ghost use Rattle.spec_tree.specs.View.{view_spec, view_transition};
ghost use Rattle.hk_case.specs.Obligations.{obligations_of, result_owed};
ghost use Rattle.hk_case.specs.declared.Obligation.TheVariants as owed;

use crate::Obligation;
use hk_seq::Seq;
use spec_tree::{Spec, Transition};
use std::alloc::{AllocError, Global};

/// Adds the invariants, so many.
fn add_invariants(list: &mut Vec<Obligation>, count: u32) -> Result<(), AllocError>
    ensures { OnOk result (list.new.items ≡ list.old.items ++ map owed.Invariant (range_with_len 0 count)) }
{
    for place in 0..count {
        list.push(Obligation::Invariant(place))?;
    }
    Ok(())
}

/// Adds the fields, so many.
fn add_fields(list: &mut Vec<Obligation>, count: u32) -> Result<(), AllocError>
    ensures { OnOk result (list.new.items ≡ list.old.items ++ map owed.State (range_with_len 0 count)) }
{
    for place in 0..count {
        list.push(Obligation::State(place))?;
    }
    Ok(())
}

/// Adds the result of a width, which a void handler does not owe.
fn add_result(list: &mut Vec<Obligation>, width: u32) -> Result<(), AllocError>
    ensures { OnOk result (list.new.items ≡ list.old.items ++ result_owed width) }
{
    if width != 0 {
        list.push(Obligation::ResultValue)?;
    }
    Ok(())
}

/// Adds the properties, so many.
fn add_properties(list: &mut Vec<Obligation>, count: u32) -> Result<(), AllocError>
    ensures { OnOk result (list.new.items ≡ list.old.items ++ map owed.Property (range_with_len 0 count)) }
{
    for place in 0..count {
        list.push(Obligation::Property(place))?;
    }
    Ok(())
}

/// The obligations of a handler, in the order in which they are decided and reported: `undefined`, the invariants, the fields, the
/// result where the handler has one, and the properties.
///
/// The condition is places that an obligation can name.
pub fn obligations(
    alloc: Global,
    spec: &Spec,
    transition: &Transition,
) -> Result<Seq<Obligation>, AllocError>
    requires invariants { length spec.now.invariants < 2 ^ 32 }
    requires fields { length spec.now.fields < 2 ^ 32 }
    requires properties { length spec.now.properties < 2 ^ 32 }
    ensures { IfOk result (λ list. list ≡ obligations_of (view_spec spec.now) (view_transition transition.now)) }
{
    let mut list = Vec::new(alloc);
    list.push(Obligation::Undefined)?;
    add_invariants(&mut list, spec.invariants.as_slice().len() as u32)?;
    add_fields(&mut list, spec.fields.as_slice().len() as u32)?;
    add_result(&mut list, transition.result_width)?;
    add_properties(&mut list, spec.properties.as_slice().len() as u32)?;
    Ok(Seq::from_vec(list))
}
