//! A kernel that was checked.

ghost use Rattle.std.specs.Prelude.{◌≡◌, ◌<◌, ◌^◌, ℕ, List, Some, None, is_some, if◌then◌else◌, length, slice_get, IfSome, IfOk, OnOk};
ghost use Rattle.ir_ast.specs.Small.{IsSmall};
ghost use Rattle.ir_ast.specs.Program.{FunctionView};
ghost use Rattle.ir_ast.specs.ProgramView.{view_entries, view_function, view_module};
ghost use Rattle.ir_type.specs.Shape.{IsShaped, IsLined};
ghost use Rattle.ir_check.specs.Paths.{IsLength};
ghost use Rattle.ir_check.specs.Rules.{IsWellFormed};
ghost use Rattle.ir_check.specs.Checked.{IsForward, IsChecked};
ghost use Rattle.ir_check.specs.Answers.{IsRefusal, OnRefusal, find_body};
ghost use Rattle.ir_check.specs.Checked as definition;

use crate::heads::length_at;
use crate::kernel::{KernelCheck, kernel_check};
use crate::order::PlaceList;
use ir_ast::{Function, FunctionTable, KernelStop, Module, Name};
use std::alloc::Global;
use std::marker::Model;

/// A kernel of which no item falls under a check. Contracts see it as its module.
#[derive(Drop)]
pub struct Checked {
    kernel: Module,
    orders: Vec<PlaceList>,
    lengths: Vec<Option<u32>>,
}

impl Model for Checked {
    ghost use Rattle.ir_ast.specs.declared.module.Module.{Module};
    ghost use Rattle.ir_ast.specs.contracts.types.IrType as irtype;
    ghost use Rattle.ir_ast.specs.contracts.global.Init as init;
    ghost use Rattle.ir_ast.specs.contracts.operand.Operand as operand;
    ghost use Rattle.std.specs.Coded.{codes};

    ghost Value = { Module };

    ghost coded = { Prim.hlevel (codes, irtype.the_row.coded, init.the_row.coded, operand.the_row.coded) };

    ghost use Rattle.ir_ast.specs.Small.{IsSmall};
    ghost use Rattle.ir_ast.specs.ProgramView.{view_module};
    ghost use Rattle.ir_check.specs.Checked.{IsKept};

    ghost view = { λ c. c.kernel };

    ghost invariant = { λ c. IsSmall c.kernel × IsKept (view_module c.kernel) c.orders.items c.lengths.items };
}

/// Whether a function has a body.
fn has_body(function: &Function) -> bool
    ensures { result ≡ is_some (view_function function.now).body }
{
    function.body.is_some()
}

/// A place, where this is so.
fn place_where(holds: bool, place: u32) -> Option<u32>
    ensures place { result ≡ (if holds then Some place else None) }
    ensures within { (n : ℕ) → place < n → IfSome result (λ p. p < n) }
{
    if holds { Some(place) } else { None }
}

/// The place of the function of a name, where it has a body.
fn body_place(functions: &FunctionTable, name: &Name) -> Option<u32>
    requires { length functions.now < 2 ^ 32 }
    ensures found { result ≡ find_body (view_entries view_function functions.now) name.now }
    ensures within { IfSome result (λ p. p < length functions.now) }
{
    match functions.get(name) {
        Some(place) => place_where(has_body(functions.at(place)), place),
        None => None,
    }
}

/// The length that is told at a place.
fn told_length(lengths: &[Option<u32>], place: u32) -> u32
    ensures { result ≡ definition.length_at lengths.now place }
{
    match length_at(lengths, place) {
        Some(length) => length,
        None => 0,
    }
}

impl Checked {
    /// The kernel. It takes no memory.
    pub fn module(&self) -> &Module
        ensures kernel { result.now ≡ self.now }
        ensures small { IsSmall self.now }
        ensures checked { IsChecked (view_module self.now) }
    {
        &self.kernel
    }

    /// The place of the function of a name, where it has a body; none exactly where there is none. It takes no memory.
    pub fn find(&self, name: &Name) -> Option<u32>
        ensures found { result ≡ find_body (view_module self.now).functions name.now }
        ensures within { IfSome result (λ p. p < length self.now.functions) }
    {
        body_place(&self.kernel.functions, name)
    }

    /// The places of the blocks of the function at a place, each once, in an order in which each edge goes forward. It takes no memory.
    pub fn order(&self, function: u32) -> &PlaceList
        requires { function < length self.now.functions }
        ensures { (e : List ℕ × FunctionView) → slice_get (view_module self.now).functions function ≡ Some e → IsForward e.1 result.now }
    {
        &self.orders[function as usize]
    }

    /// The expanded length of the function at a place: the number of its instructions, and at each call that of the function that is
    /// called. It takes no memory.
    pub fn expanded(&self, function: u32) -> u32
        requires { function < length self.now.functions }
        ensures { (e : List ℕ × FunctionView) → slice_get (view_module self.now).functions function ≡ Some e → IsLength (view_module self.now) e.0 result }
    {
        told_length(&self.lengths, function)
    }
}

/// Checks a kernel. It takes time n log n in the kernel.
///
/// A refusal names the first item that falls under a check, and the least of the rules that it falls under: `K8` a register, block,
/// function, global or range name that is unknown, a call of a declared function whose name begins with `llvm.` and that is no listed
/// intrinsic, or of another declared function that is not void; `K9` a type or operand that the item does not take; `K10` blocks with a
/// cycle or an edge to the first; `K11` a function on a cycle of calls; `K12` a use that some path from the first block reaches without
/// the definition; `K13` a global with a pointer in its type, or a load or store of a pointer outside slots; `K14` an expanded length
/// over 100,000; `K15` a phi whose arms do not meet the edges to its block.
pub fn check(alloc: Global, kernel: Module) -> Result<Checked, KernelStop>
    requires small { IsSmall kernel }
    requires shaped { IsShaped (view_module kernel) }
    requires lined { IsLined (view_module kernel) }
    ensures checked { IfOk result (λ c. c ≡ kernel) }
    ensures well_formed { OnOk result (IsWellFormed (view_module kernel)) }
    ensures refused { OnRefusal result (IsRefusal (view_module kernel)) }
{
    let found = kernel_check(alloc, &kernel)?;
    let KernelCheck {
        orders,
        lengths,
        fault,
    } = found;
    match fault {
        Some(fault) => {
            drop(kernel);
            drop(orders);
            drop(lengths);
            Err(KernelStop::Refused(fault))
        }
        None => Ok(Checked {
            kernel,
            orders,
            lengths,
        }),
    }
}
