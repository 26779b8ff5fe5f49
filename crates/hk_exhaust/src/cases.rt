//! The case with a number.

ghost use Rattle.std.specs.Prelude.{◌≡◌, ◌<◌, map, length, slice_index_or, All, IfOk, OnOk};
ghost use Rattle.ir_layout.specs.declared.object.Object.{Object};
ghost use Rattle.spec_tree.specs.Plain as plain;
ghost use Rattle.spec_tree.specs.Sorted.{IsFieldSort, sort_of};
ghost use Rattle.spec_tree.specs.View.{view_field, view_spec, view_transition};
ghost use Rattle.hk_case.specs.declared.Case.TheVariants.{Machine, Abstract};
ghost use Rattle.hk_exhaust.specs.Enumeration as definition;
ghost use Rattle.hk_exhaust.specs.Enumeration.{object_widths, field_widths, memory_at, state_at, behind, behind_memory, behind_state, numbers_of};

use crate::counts::entries_in;
use crate::numbers::{take_bytes, take_entries, take_numbers};
use hk_case::{Case, Obligation};
use hk_seq::Seq;
use ir_layout::{KMemory, Layout, ObjectBytes};
use spec_tree::{Field, Spec, Transition};
use spec_value::{AbstractState, EntryList};
use std::alloc::{AllocError, Global};

// The bytes of an object: those of a mutable one are taken.
fn object_at(
    alloc: Global,
    layout: &Layout,
    initial: &KMemory,
    k: u32,
    rest: &mut u64,
) -> Result<ObjectBytes, AllocError>
    requires there { k < length layout.now.objects }
    requires initial { initial.now ≡ map (λ o. o.bytes) layout.now.objects }
    ensures bytes { (d : Object) → IfOk result (λ b. b ≡ definition.object_at (slice_index_or layout.now.objects k d) rest.old) }
    ensures behind { (d : Object) → OnOk result (rest.new ≡ behind (object_widths (slice_index_or layout.now.objects k d)) rest.old) }
{
    if layout.is_constant(k) {
        Ok(ObjectBytes::new(Vec::from_slice(alloc, initial.bytes(k))?))
    } else {
        Ok(ObjectBytes::new(take_bytes(alloc, layout.object_size(k), rest)?))
    }
}

// A machine state.
fn take_memory(
    alloc: Global,
    layout: &Layout,
    initial: &KMemory,
    rest: &mut u64,
) -> Result<KMemory, AllocError>
    requires { initial.now ≡ map (λ o. o.bytes) layout.now.objects }
    ensures memory { IfOk result (λ m. m ≡ memory_at layout.now.objects rest.old) }
    ensures behind { OnOk result (rest.new ≡ behind_memory layout.now.objects rest.old) }
{
    let mut objects = Vec::new(alloc);
    'each: for k in 0..layout.objects() {
        let object = object_at(alloc, layout, initial, k, rest)?;
        objects.push(object)?;
    }
    Ok(KMemory::new(objects))
}

// An abstract state.
fn take_state(alloc: Global, fields: &[Field], rest: &mut u64) -> Result<AbstractState, AllocError>
    requires { All (λ f. IsFieldSort (sort_of f)) (map view_field fields.now) }
    ensures state { IfOk result (λ s. s ≡ state_at (map view_field fields.now) rest.old) }
    ensures behind { OnOk result (rest.new ≡ behind_state (map view_field fields.now) rest.old) }
{
    let mut state = Vec::new(alloc);
    'each: for field in fields {
        let entries = take_field(alloc, field, rest)?;
        state.push(entries)?;
    }
    Ok(AbstractState::of(state))
}

// The entries of a field.
fn take_field(alloc: Global, field: &Field, rest: &mut u64) -> Result<EntryList, AllocError>
    requires { IsFieldSort (sort_of (view_field field.now)) }
    ensures entries { IfOk result (λ l. l ≡ numbers_of (field_widths (view_field field.now)) rest.old) }
    ensures behind { OnOk result (rest.new ≡ behind (field_widths (view_field field.now)) rest.old) }
{
    let count = entries_in(field.keys.as_slice());
    Ok(EntryList::of(take_entries(alloc, count, field.width, rest)?))
}

// The case of a property with a number.
fn abstract_at(
    alloc: Global,
    fields: &[Field],
    widths: &[u32],
    number: u64,
) -> Result<Case, AllocError>
    requires { All (λ f. IsFieldSort (sort_of f)) (map view_field fields.now) }
    ensures { IfOk result (λ c. c ≡ Abstract (state_at (map view_field fields.now) number) (numbers_of widths.now (behind_state (map view_field fields.now) number))) }
{
    let mut rest = number;
    let state = take_state(alloc, fields, &mut rest)?;
    let args = take_numbers(alloc, widths, &mut rest)?;
    Ok(Case::Abstract {
        state,
        args: Seq::from_vec(args),
    })
}

// The case of any other obligation with a number.
fn machine_at(
    alloc: Global,
    layout: &Layout,
    initial: &KMemory,
    widths: &[u32],
    number: u64,
) -> Result<Case, AllocError>
    requires { initial.now ≡ map (λ o. o.bytes) layout.now.objects }
    ensures { IfOk result (λ c. c ≡ Machine (memory_at layout.now.objects number) (numbers_of widths.now (behind_memory layout.now.objects number))) }
{
    let mut rest = number;
    let memory = take_memory(alloc, layout, initial, &mut rest)?;
    let args = take_numbers(alloc, widths, &mut rest)?;
    Ok(Case::Machine {
        memory,
        args: Seq::from_vec(args),
    })
}

/// The case of an obligation with a number.
pub(crate) fn case_at(
    alloc: Global,
    layout: &Layout,
    initial: &KMemory,
    spec: &Spec,
    transition: &Transition,
    o: Obligation,
    number: u64,
) -> Result<Case, AllocError>
    requires initial { initial.now ≡ map (λ o. o.bytes) layout.now.objects }
    requires fields { All (λ f. IsFieldSort (sort_of f)) (view_spec spec.now).fields }
    ensures { IfOk result (λ c. c ≡ definition.case_at layout.now.objects (view_spec spec.now) (view_transition transition.now) o number) }
{
    let widths = transition.widths.as_slice();
    match o {
        Obligation::Property(_) => {
            Ok(abstract_at(alloc, spec.fields.as_slice(), widths, number)?)
        }
        Obligation::Undefined => Ok(machine_at(alloc, layout, initial, widths, number)?),
        Obligation::Invariant(_) => Ok(machine_at(alloc, layout, initial, widths, number)?),
        Obligation::State(_) => Ok(machine_at(alloc, layout, initial, widths, number)?),
        Obligation::ResultValue => Ok(machine_at(alloc, layout, initial, widths, number)?),
    }
}
