//! The case that a valuation gives.

ghost use Rattle.std.specs.Prelude.{◌≡◌, ◌<◌, ◌+◌, ◌^◌, ℕ, map, length, List, Some, slice_get, All, IfOk};
ghost use Rattle.hk_term.specs.Meaning.{Reading, reading_of};
ghost use Rattle.hk_term.specs.Tables.{entry_at, number_at};
ghost use Rattle.ir_ast.specs.ProgramView.{view_module};
ghost use Rattle.ir_layout.specs.Layouts.{LayoutView, IsLayoutOf};
ghost use Rattle.hk_symmem.specs.Origins.{AreOriginsOf, start_memory, IsMachineState};
ghost use Rattle.spec_tree.specs.Plain as plain;
ghost use Rattle.spec_tree.specs.Sorted.{IsFieldSort, IsWellSorted, sort_of};
ghost use Rattle.spec_tree.specs.View.{view_field, view_spec, view_transition};
ghost use Rattle.hk_case.specs.declared.Case.{Case};
ghost use Rattle.hk_case.specs.declared.Case.TheVariants.{Machine, Abstract};
ghost use Rattle.hk_case.specs.Obligations.{IsCase};
ghost use Rattle.hk_symspec.specs.States.{array_entries, free_state};
ghost use Rattle.hk_oblig.specs.Cases.{case_at, HasBytes, arguments_at};

use crate::numbers::{entries, entries_in, variables};
use hk_case::{Case, Obligation};
use hk_seq::Seq;
use hk_symmem::InitialReads;
use hk_term::{ArrayTable, NumberTable, Valuation};
use ir_kernel::Kernel;
use ir_layout::{KMemory, Layout};
use spec_tree::{Field, Spec, Transition};
use spec_value::{AbstractState, EntryList};
use std::alloc::{AllocError, Global};

// Bytes are below 256.
fn are_bytes(bytes: &[u8])
    ensures { All (λ b. b < 256) bytes.now }
{}

// The bytes of objects are below 256.
fn holds_bytes(memory: &KMemory, objects: u32)
    requires { objects ≡ length memory.now }
    ensures { All (λ o. All (λ b. b < 256) o) memory.now }
{
    'each: for k in 0..objects {
        are_bytes(memory.bytes(k));
    }
}

// The arguments: want of memory where ids of 32 bits do not number them.
fn arguments(alloc: Global, widths: &[u32], vars: &NumberTable) -> Result<Seq<u64>, AllocError>
    ensures { IfOk result (λ l. l ≡ arguments_at widths.now (number_at vars.now)) }
{
    if widths.len() >= u32::MAX as usize {
        return Err(AllocError);
    }
    Ok(Seq::from_vec(variables(alloc, widths, 0, vars)?))
}

// The entries of a field from its array.
fn field_at(
    alloc: Global,
    field: &Field,
    array: u32,
    arrays: &ArrayTable,
) -> Result<EntryList, AllocError>
    requires { IsFieldSort (sort_of (view_field field.now)) }
    ensures { IfOk result (λ l. l ≡ array_entries (sort_of (view_field field.now)) (entry_at arrays.now array)) }
{
    let count = entries_in(field.keys.as_slice());
    Ok(EntryList::of(entries(alloc, array, count, field.width, arrays)?))
}

// The fields from the arrays from a number on.
fn state_from(
    alloc: Global,
    fields: &[Field],
    first: u32,
    arrays: &ArrayTable,
) -> Result<AbstractState, AllocError>
    requires sorts { All (λ f. IsFieldSort (sort_of f)) (map view_field fields.now) }
    requires few { first + length fields.now < 2 ^ 32 }
    ensures { IfOk result (λ s. s ≡ free_state first (map sort_of (map view_field fields.now)) (entry_at arrays.now)) }
{
    let mut state = Vec::new(alloc);
    let mut array = first;
    'each: for field in fields {
        let list = field_at(alloc, field, array, arrays)?;
        state.push(list)?;
        array += 1;
    }
    Ok(AbstractState::of(state))
}

// The case of a property.
fn abstract_case(
    alloc: Global,
    fields: &[Field],
    widths: &[u32],
    v: &Valuation,
) -> Result<Case, AllocError>
    requires { All (λ f. IsFieldSort (sort_of f)) (map view_field fields.now) }
    ensures case { IfOk result (λ c. c ≡ Abstract (free_state 0 (map sort_of (map view_field fields.now)) (reading_of v.now).entry) (arguments_at widths.now (reading_of v.now).var)) }
    ensures bytes { IfOk result HasBytes }
{
    if fields.len() >= u32::MAX as usize {
        return Err(AllocError);
    }
    let state = state_from(alloc, fields, 0, &v.arrays)?;
    let args = arguments(alloc, widths, &v.vars)?;
    Ok(Case::Abstract { state, args })
}

// The case of any other obligation.
fn machine_case<R: InitialReads>(
    alloc: Global,
    layout: &Layout,
    widths: &[u32],
    reads: &R,
    v: &Valuation,
) -> Result<Case, AllocError>
    requires { AreOriginsOf layout.now.objects (R.origins reads.now) }
    ensures case { IfOk result (λ c. c ≡ Machine (start_memory (R.origins reads.now) (reading_of v.now).entry) (arguments_at widths.now (reading_of v.now).var)) }
    ensures bytes { IfOk result HasBytes }
{
    let memory = reads.memory_of(alloc, layout, v)?;
    holds_bytes(&memory, layout.objects());
    let args = arguments(alloc, widths, &v.vars)?;
    Ok(Case::Machine { memory, args })
}

// The case of an obligation.
fn case_in<R: InitialReads>(
    alloc: Global,
    layout: &Layout,
    spec: &Spec,
    transition: &Transition,
    o: Obligation,
    reads: &R,
    v: &Valuation,
) -> Result<Case, AllocError>
    requires fields { All (λ f. IsFieldSort (sort_of f)) (view_spec spec.now).fields }
    requires origins { AreOriginsOf layout.now.objects (R.origins reads.now) }
    ensures case { IfOk result (λ c. c ≡ case_at (R.origins reads.now) (view_spec spec.now) (view_transition transition.now) o (reading_of v.now)) }
    ensures bytes { IfOk result HasBytes }
{
    let widths = transition.widths.as_slice();
    match o {
        Obligation::Property(_) => Ok(abstract_case(alloc, spec.fields.as_slice(), widths, v)?),
        Obligation::Undefined => Ok(machine_case(alloc, layout, widths, reads, v)?),
        Obligation::Invariant(_) => Ok(machine_case(alloc, layout, widths, reads, v)?),
        Obligation::State(_) => Ok(machine_case(alloc, layout, widths, reads, v)?),
        Obligation::ResultValue => Ok(machine_case(alloc, layout, widths, reads, v)?),
    }
}

/// The case that a valuation gives for an obligation of the transition with this place: argument k is the variable k modulo 2 to its
/// width, and the state is for a property the one whose field k has the entries of the array k in the order of the index tuples, modulo
/// 2 to the field's width, and for all other obligations the initial memory that the reads give. It has the obligation's kind and shape,
/// and every case of this kind and shape is that of some reading.
///
/// The conditions are a well-sorted specification, a transition that exists, and reads of the kernel's objects. Where there are 2^32 - 1
/// parameters or fields or more, it is want of memory.
pub fn case_of<R: InitialReads>(
    alloc: Global,
    kernel: &Kernel,
    spec: &Spec,
    h: u32,
    o: Obligation,
    reads: &R,
    v: &Valuation,
) -> Result<Case, AllocError>
    requires spec { IsWellSorted (view_spec spec.now) }
    requires there { h < length spec.now.transitions }
    requires origins { (l : LayoutView) → IsLayoutOf (view_module kernel.now) l → AreOriginsOf l.objects (R.origins reads.now) }
    ensures case { (t : plain.Transition) → slice_get (view_spec spec.now).transitions h ≡ Some t →
        IfOk result (λ c. c ≡ case_at (R.origins reads.now) (view_spec spec.now) t o (reading_of v.now)) }
    ensures shape { (l : LayoutView) (t : plain.Transition) → IsLayoutOf (view_module kernel.now) l → slice_get (view_spec spec.now).transitions h ≡ Some t →
        IfOk result (λ c. IsCase l.objects (view_spec spec.now) t o c) }
    ensures any { (l : LayoutView) (t : plain.Transition) (c : Case) → IsLayoutOf (view_module kernel.now) l → slice_get (view_spec spec.now).transitions h ≡ Some t →
        IsCase l.objects (view_spec spec.now) t o c → (u : Reading) × (case_at (R.origins reads.now) (view_spec spec.now) t o u ≡ c) }
{
    let transition = &spec.transitions.as_slice()[h as usize];
    let case = case_in(alloc, kernel.layout(), spec, transition, o, reads, v)?;
    Ok(case)
}
