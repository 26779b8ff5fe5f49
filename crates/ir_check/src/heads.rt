//! The faults of a global and of a function's head.

ghost use Rattle.std.specs.Prelude.{◌≡◌, ◌<◌, ◌^◌, Some, length, slice_get, not, IfOk, MatchBool};
ghost use Rattle.ir_ast.specs.Small.{IsSmall};
ghost use Rattle.ir_ast.specs.View.{view_type};
ghost use Rattle.ir_type.specs.Whole.{meant, has_pointer};
ghost use Rattle.ir_ast.specs.ProgramView.{view_entries, view_type_entry, view_function, view_global, view_module};
ghost use Rattle.hk_graph.specs.Sorted.{flag_of};
ghost use Rattle.hk_flow.specs.Sums.{told};
ghost use Rattle.ir_whole.specs.Numbers.{IsFor};
ghost use Rattle.ir_typing.specs.Fits.{global_fits};
ghost use Rattle.ir_check.specs.Paths.{FallsK10};
ghost use Rattle.ir_check.specs.Rules.{GlobalFalls, FunctionFalls};
ghost use Rattle.ir_check.specs.Least.{IsLeast};
ghost use Rattle.ir_check.specs.ItemFaults as definition;
ghost use Rattle.ir_check.specs.ItemFaults.{ItemFaults, AreCalls};

use crate::calls::{Calls, MOST};
use ir_ast::{Function, GlobalItem, IrType, KernelFault, KernelReason, Module, TypeTable};
use ir_typing::head_fits;
use ir_whole::TypeNumbers;
use std::alloc::{AllocError, Global};

/// The flag of a place.
fn flag_at(flags: &[bool], place: u32) -> bool
    ensures { result ≡ flag_of flags.now place }
{
    match flags.get(place as usize) {
        Some(flag) => *flag,
        None => false,
    }
}

/// The length of the function at a place, where it has one.
pub fn length_at(lengths: &[Option<u32>], place: u32) -> Option<u32>
    ensures { result ≡ told lengths.now place }
{
    match lengths.get(place as usize) {
        Some(length) => *length,
        None => None,
    }
}

/// Whether a length is beyond the limit.
fn is_long(length: Option<u32>) -> bool
    ensures { result ≡ definition.is_long length }
{
    match length {
        Some(length) => MOST < length,
        None => false,
    }
}

/// The first rule of a function's head.
fn head_reason(misfit: bool, looping: bool, cyclic: bool, long: bool) -> Option<KernelReason>
    ensures { result ≡ definition.head_reason misfit looping cyclic long }
{
    if misfit {
        Some(KernelReason::K9)
    } else if looping {
        Some(KernelReason::K10)
    } else if cyclic {
        Some(KernelReason::K11)
    } else if long {
        Some(KernelReason::K14)
    } else {
        None
    }
}

/// The first rule of a global.
fn global_reason(misfit: bool, pointers: bool) -> Option<KernelReason>
    ensures { result ≡ definition.global_reason misfit pointers }
{
    if misfit {
        Some(KernelReason::K9)
    } else if pointers {
        Some(KernelReason::K13)
    } else {
        None
    }
}

/// The fault on a line.
pub fn on_line(line: u32, reason: Option<KernelReason>) -> Option<KernelFault>
    ensures { result ≡ definition.on_line line reason }
{
    match reason {
        Some(reason) => Some(KernelFault { line, reason }),
        None => None,
    }
}

/// The least fault of a function's head: of its types, of cycles of its blocks, which the caller has looked for, and of its calls. The
/// function stands at this place.
pub fn head_fault(
    alloc: Global,
    numbers: &mut TypeNumbers,
    kernel: &Module,
    calls: &Calls,
    place: u32,
    function: &Function,
    looping: bool,
) -> Result<Option<KernelFault>, AllocError>
    requires small { IsSmall kernel.now }
    requires own { IsFor (view_entries view_type_entry kernel.now.types) numbers.old }
    requires calls { AreCalls (view_module kernel.now) calls.now.cyclic.items calls.now.lengths.items }
    requires stands { slice_get (view_module kernel.now).functions place ≡ Some (function.now.name, view_function function.now) }
    requires looping { MatchBool looping (FallsK10 (view_function function.now)) (FallsK10 (view_function function.now) → ⊥) }
    ensures least { IfOk result (IsLeast (ItemFaults (FunctionFalls (view_module kernel.now) (view_function function.now)) function.now.line)) }
    ensures own { IsFor (view_entries view_type_entry kernel.now.types) numbers.new }
{
    let fits = head_fits(alloc, numbers, &kernel.types, function)?;
    let cyclic = flag_at(&calls.cyclic, place);
    let long = is_long(length_at(&calls.lengths, place));
    let reason = head_reason(!fits, looping, cyclic, long);
    Ok(on_line(function.line, reason))
}

/// Whether a pointer stands in the type that a type stands for.
fn holds_pointer(
    alloc: Global,
    numbers: &mut TypeNumbers,
    types: &TypeTable,
    over: &IrType,
) -> Result<bool, AllocError>
    requires small { length types.now < 2 ^ 32 }
    requires own { IsFor (view_entries view_type_entry types.now) numbers.old }
    ensures holds { IfOk result (λ r. r ≡ has_pointer (meant (view_entries view_type_entry types.now) (view_type over.now))) }
    ensures own { IsFor (view_entries view_type_entry types.now) numbers.new }
{
    let number = numbers.number(alloc, types, over)?;
    Ok(numbers.has_pointer(number))
}

/// The least fault of a global, of which the caller knows whether its initialiser and its alignment fit.
pub fn global_fault(
    alloc: Global,
    numbers: &mut TypeNumbers,
    kernel: &Module,
    global: &GlobalItem,
    fits: bool,
) -> Result<Option<KernelFault>, AllocError>
    requires small { IsSmall kernel.now }
    requires own { IsFor (view_entries view_type_entry kernel.now.types) numbers.old }
    requires fits { fits ≡ global_fits (view_module kernel.now).types (view_global global.now) }
    ensures least { IfOk result (IsLeast (ItemFaults (GlobalFalls (view_module kernel.now) (view_global global.now)) global.now.line)) }
    ensures own { IsFor (view_entries view_type_entry kernel.now.types) numbers.new }
{
    let pointers = holds_pointer(alloc, numbers, &kernel.types, &global.over)?;
    let reason = global_reason(!fits, pointers);
    Ok(on_line(global.line, reason))
}
