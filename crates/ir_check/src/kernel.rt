//! The check of a module: its least fault, and what is kept of its functions.

ghost use Rattle.std.specs.Prelude.{◌≡◌, ◌≤◌, length, IfOk};
ghost use Rattle.ir_ast.specs.Small.{IsSmall};
ghost use Rattle.ir_ast.specs.ProgramView.{view_module};
ghost use Rattle.ir_type.specs.Shape.{IsShaped, IsLined};
ghost use Rattle.ir_whole.specs.Numbers.{IsFor};
ghost use Rattle.ir_check.specs.Rules.{FallsByCheck};
ghost use Rattle.ir_check.specs.Least.{IsLeast, AllFaults};
ghost use Rattle.ir_check.specs.ItemFaults.{AreCalls};
ghost use Rattle.ir_check.specs.Parts.{AmongAll, GlobalFaultsAt, FunctionFaultsAt};
ghost use Rattle.ir_check.specs.Checked.{OrdersFirst, IsKeptWhere};

use crate::calls::{Calls, calls_in};
use crate::faults::least;
use crate::function::function_check;
use crate::heads::global_fault;
use crate::order::PlaceList;
use ir_ast::{KernelFault, Module};
use ir_typing::global_fits;
use ir_whole::TypeNumbers;
use std::alloc::{AllocError, Global};

/// What the check of functions finds: for each the places of its blocks in order, where they have one, and the least fault of all.
#[derive(Drop)]
struct FunctionChecks {
    orders: Vec<PlaceList>,
    fault: Option<KernelFault>,
}

/// The least fault of globals.
fn globals_fault(
    alloc: Global,
    numbers: &mut TypeNumbers,
    kernel: &Module,
) -> Result<Option<KernelFault>, AllocError>
    requires small { IsSmall kernel.now }
    requires own { IsFor (view_module kernel.now).types numbers.old }
    ensures least { IfOk result (IsLeast (AmongAll (GlobalFaultsAt (view_module kernel.now)))) }
    ensures own { IsFor (view_module kernel.now).types numbers.new }
{
    let mut found = None;
    for place in 0..kernel.globals.len() {
        let global = kernel.globals.at(place);
        let fits = global_fits(alloc, numbers, &kernel.types, global)?;
        let fault = global_fault(alloc, numbers, kernel, global, fits)?;
        found = least(found, fault);
    }
    Ok(found)
}

/// The check of all functions.
fn functions_check(
    alloc: Global,
    numbers: &mut TypeNumbers,
    values: &mut TypeNumbers,
    kernel: &Module,
    calls: &Calls,
) -> Result<FunctionChecks, AllocError>
    requires small { IsSmall kernel.now }
    requires shaped { IsShaped (view_module kernel.now) }
    requires lined { IsLined (view_module kernel.now) }
    requires own { IsFor (view_module kernel.now).types numbers.old }
    requires values { IsFor (view_module kernel.now).types values.old }
    requires calls { AreCalls (view_module kernel.now) calls.now.cyclic.items calls.now.lengths.items }
    ensures least { IfOk result (λ c. IsLeast (AmongAll (FunctionFaultsAt (view_module kernel.now))) c.fault) }
    ensures orders { IfOk result (λ c. OrdersFirst (view_module kernel.now) (length c.orders.items) c.orders.items) }
    ensures count { IfOk result (λ c. length (view_module kernel.now).functions ≤ length c.orders.items) }
    ensures own { IsFor (view_module kernel.now).types numbers.new }
    ensures values { IsFor (view_module kernel.now).types values.new }
{
    let mut orders = Vec::new(alloc);
    let mut found = None;
    for place in 0..kernel.functions.len() {
        let function = kernel.functions.at(place);
        let own = function_check(alloc, numbers, values, kernel, calls, place, function)?;
        found = least(found, own.fault);
        orders.push(own.order)?;
    }
    Ok(FunctionChecks {
        orders,
        fault: found,
    })
}

/// What the check of a module finds: its least fault, and of each function, by its place, the places of its blocks in order, where they
/// have one, and its expanded length, where it has one.
#[derive(Drop)]
pub struct KernelCheck {
    pub orders: Vec<PlaceList>,
    pub lengths: Vec<Option<u32>>,
    pub fault: Option<KernelFault>,
}

/// The check of a module. It takes time n log n in it.
pub fn kernel_check(alloc: Global, kernel: &Module) -> Result<KernelCheck, AllocError>
    requires small { IsSmall kernel.now }
    requires shaped { IsShaped (view_module kernel.now) }
    requires lined { IsLined (view_module kernel.now) }
    ensures least { IfOk result (λ c. IsLeast (AllFaults (FallsByCheck (view_module kernel.now)) (view_module kernel.now)) c.fault) }
    ensures kept { IfOk result (λ c. IsKeptWhere (view_module kernel.now) c.orders.items c.lengths.items) }
{
    let calls = calls_in(alloc, kernel)?;
    let mut numbers = TypeNumbers::of(alloc, &kernel.types)?;
    let mut values = TypeNumbers::of(alloc, &kernel.types)?;
    let globals = globals_fault(alloc, &mut numbers, kernel)?;
    let functions = functions_check(alloc, &mut numbers, &mut values, kernel, &calls)?;
    Ok(KernelCheck {
        orders: functions.orders,
        lengths: calls.lengths,
        fault: least(globals, functions.fault),
    })
}
