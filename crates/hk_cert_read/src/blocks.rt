//! State blocks.

ghost use Rattle.std.specs.Prelude.{◌≡◌, ◌<◌, ◌^◌, [], min, map, length, All, IfOk};
ghost use Rattle.ir_ast.specs.ProgramView.{view_entries, view_global, view_module};
ghost use Rattle.spec_tree.specs.Sorted.{IsFieldSort, key_sizes, sort_of};
ghost use Rattle.spec_tree.specs.View.{size_of, view_field, view_key, view_spec, view_transition};
ghost use Rattle.hk_cert.specs.Steps.{place_of, Gives};
ghost use Rattle.hk_cert.specs.States as definition;

use hk_case::{Case, Obligation};
use hk_cert::CertStop;
use hk_cert::at::At;
use hk_cert::states::{args, entries, object};
use ir_ast::GlobalTable;
use ir_kernel::Kernel;
use ir_layout::KMemory;
use spec_tree::{Field, Sort, Spec, Transition};
use spec_value::{AbstractState, EntryList, count};
use std::alloc::{AllocError, Global};

/// How many globals have an object.
fn objects_in(globals: &GlobalTable, start: &KMemory) -> u32
    requires { length globals.now < 2 ^ 32 }
    ensures { result ≡ min (length globals.now) (length start.now) }
{
    let objects = start.objects();
    let count = globals.len();
    if objects < count as usize {
        objects as u32
    } else {
        count
    }
}

/// Reads the rows of the mutable globals in text order; `start` has the initial bytes of each object.
fn memory_at<'t>(
    alloc: Global,
    globals: &GlobalTable,
    start: &KMemory,
    at: At<'t>,
) -> Result<(KMemory, At<'t>), CertStop>
    requires { length globals.now < 2 ^ 32 }
    ensures { Gives (λ memory. memory) result (definition.memory_from [] (view_entries view_global globals.now) start.now (place_of at.entry)) }
{
    let mut memory = Vec::new(alloc);
    let mut text = at.text;
    let mut line = at.line;
    'each: for k in 0..objects_in(globals, start) {
        let (bytes, after) = object(alloc, globals.at(k), start.bytes(k), At { text, line })?;
        memory.push(bytes)?;
        text = after.text;
        line = after.line;
    }
    Ok((KMemory::new(memory), At { text, line }))
}

/// The size of a key.
fn size_in(key: &Sort) -> u32
    ensures { result ≡ size_of key.now.size }
{
    match key.size {
        Some(size) => size,
        None => 0,
    }
}

/// The sizes of keys.
fn sizes_of(alloc: Global, keys: &[Sort]) -> Result<Vec<u32>, AllocError>
    ensures { IfOk result (λ v. v.items ≡ key_sizes (map view_key keys.now)) }
{
    let mut sizes = Vec::new(alloc);
    'each: for key in keys {
        sizes.push(size_in(key))?;
    }
    Ok(sizes)
}

/// Reads the entries of a field.
fn field_at<'t>(alloc: Global, field: &Field, at: At<'t>) -> Result<(EntryList, At<'t>), CertStop>
    requires { IsFieldSort (sort_of (view_field field.now)) }
    ensures { Gives (λ entries. entries) result (definition.field_at (view_field field.now) (place_of at.entry)) }
{
    let sizes = sizes_of(alloc, field.keys.as_slice())?;
    entries(alloc, field, count(sizes.as_slice()), at)
}

/// Reads the entries of the fields in the order of the class.
fn state_at<'t>(
    alloc: Global,
    fields: &[Field],
    at: At<'t>,
) -> Result<(AbstractState, At<'t>), CertStop>
    requires { All (λ f. IsFieldSort (sort_of f)) (map view_field fields.now) }
    ensures { Gives (λ state. state) result (definition.state_from [] (map view_field fields.now) (place_of at.entry)) }
{
    let mut state = Vec::new(alloc);
    let mut text = at.text;
    let mut line = at.line;
    'each: for field in fields {
        let (entries, after) = field_at(alloc, field, At { text, line })?;
        state.push(entries)?;
        text = after.text;
        line = after.line;
    }
    Ok((AbstractState::of(state), At { text, line }))
}

/// Reads the state block of a machine state.
fn machine_at<'t>(
    alloc: Global,
    kernel: &Kernel,
    initial: &KMemory,
    widths: &[u32],
    at: At<'t>,
) -> Result<(Case, At<'t>), CertStop>
    ensures { Gives (λ case. case) result (definition.machine_at (view_module kernel.now) initial.now widths.now (place_of at.entry)) }
{
    let (numbers, behind) = args(alloc, widths, at)?;
    let globals = &kernel.checked().module().globals;
    let (memory, after) = memory_at(alloc, globals, initial, behind)?;
    Ok((
        Case::Machine {
            memory,
            args: numbers,
        },
        after,
    ))
}

/// Reads the state block of an abstract state.
fn abstract_at<'t>(
    alloc: Global,
    spec: &Spec,
    widths: &[u32],
    at: At<'t>,
) -> Result<(Case, At<'t>), CertStop>
    requires { All (λ f. IsFieldSort (sort_of f)) (view_spec spec.now).fields }
    ensures { Gives (λ case. case) result (definition.abstract_at (view_spec spec.now) widths.now (place_of at.entry)) }
{
    let (numbers, behind) = args(alloc, widths, at)?;
    let (state, after) = state_at(alloc, spec.fields.as_slice(), behind)?;
    Ok((
        Case::Abstract {
            state,
            args: numbers,
        },
        after,
    ))
}

/// Reads the state block of a case that violates an obligation: an abstract state for a property, and a machine state for all others.
pub fn case_at<'t>(
    alloc: Global,
    kernel: &Kernel,
    initial: &KMemory,
    spec: &Spec,
    transition: &Transition,
    obligation: Obligation,
    at: At<'t>,
) -> Result<(Case, At<'t>), CertStop>
    requires { All (λ f. IsFieldSort (sort_of f)) (view_spec spec.now).fields }
    ensures { Gives (λ case. case) result (definition.case_at (view_module kernel.now) initial.now (view_spec spec.now) (view_transition transition.now) obligation (place_of at.entry)) }
{
    let widths = transition.widths.as_slice();
    match obligation {
        Obligation::Property(_) => abstract_at(alloc, spec, widths, at),
        Obligation::Undefined => machine_at(alloc, kernel, initial, widths, at),
        Obligation::Invariant(_) => machine_at(alloc, kernel, initial, widths, at),
        Obligation::State(_) => machine_at(alloc, kernel, initial, widths, at),
        Obligation::ResultValue => machine_at(alloc, kernel, initial, widths, at),
    }
}
