//! A kernel: a checked module with its layout and its code.

ghost use Rattle.std.specs.Prelude.{◌≡◌, ◌<◌, ◌^◌, bytes_eq, length, IfOk, OnOk};
ghost use Rattle.std.specs.List.{IsDistinct};
ghost use Rattle.ir_ast.specs.Small.{IsSmall};
ghost use Rattle.ir_ast.specs.ProgramView.{view_module};
ghost use Rattle.ir_ast.specs.Table.{names_of};
ghost use Rattle.ir_type.specs.Shape.{IsShaped, IsLined};
ghost use Rattle.ir_layout.specs.Rules.{IsLaidOut};
ghost use Rattle.ir_layout.specs.Layouts.{IsLayoutOf};
ghost use Rattle.ir_check.specs.Rules.{IsWellFormed};
ghost use Rattle.ir_check.specs.Checked.{IsChecked};
ghost use Rattle.ir_check.specs.Answers.{OnRefusal};
ghost use Rattle.ir_resolve.specs.Resolved.{program_of};
ghost use Rattle.ir_kernel.specs.Orders.{AreOrdered};
ghost use Rattle.ir_kernel.specs.Answers.{IsRefusal};

use ir_ast::{KernelStop, Module};
use ir_check::{Checked, check};
use ir_code::Program;
use ir_layout::Layout;
use ir_resolve::resolve;
use std::alloc::{AllocError, Global};
use std::marker::Model;

/// A kernel of which no item falls under a rule of layout or under a check, with its layout and its code. Contracts see it as its module.
#[derive(Drop)]
pub struct Kernel {
    checked: Checked,
    layout: Layout,
    program: Program,
}

impl Model for Kernel {
    ghost use Rattle.ir_ast.specs.declared.module.Module.{Module};
    ghost use Rattle.ir_ast.specs.contracts.types.IrType as irtype;
    ghost use Rattle.ir_ast.specs.contracts.global.Init as init;
    ghost use Rattle.ir_ast.specs.contracts.operand.Operand as operand;
    ghost use Rattle.std.specs.Coded.{codes};

    ghost Value = { Module };

    ghost coded = { Prim.hlevel (codes, irtype.the_row.coded, init.the_row.coded, operand.the_row.coded) };

    ghost use Rattle.ir_ast.specs.ProgramView.{view_module};
    ghost use Rattle.ir_kernel.specs.Kernels.{IsKernel};

    ghost view = { λ k. k.checked };

    ghost invariant = { λ k. IsKernel (view_module k.checked) k.layout k.program };
}

/// Looks the order of each function up, so that it is known that each has one.
fn look_orders_up(checked: &Checked)
    ensures ordered { AreOrdered (view_module checked.now) }
    ensures distinct { IsDistinct bytes_eq (names_of (view_module checked.now).functions) }
{
    for place in 0..checked.module().functions.len() {
        // For the proof: the blocks of the function at this place have an order in which edges go forward.
        let _order = checked.order(place);
    }
}

/// The kernel of a checked module of which this is the layout.
fn with_code(alloc: Global, checked: Checked, layout: Layout) -> Result<Kernel, AllocError>
    requires { IsLayoutOf (view_module checked) layout }
    ensures { IfOk result (λ k. k ≡ checked) }
{
    let program = resolve(alloc, checked.module(), &layout)?;
    look_orders_up(&checked);
    Ok(Kernel {
        checked,
        layout,
        program,
    })
}

impl Kernel {
    /// Lays a module out, checks it and makes its code. It takes time n log n in the module and its objects.
    ///
    /// Layout is tried first. A refusal is that of `Layout::of`, or where that refuses nothing that of `check`.
    pub fn new(alloc: Global, kernel: Module) -> Result<Kernel, KernelStop>
        requires small { IsSmall kernel }
        requires shaped { IsShaped (view_module kernel) }
        requires lined { IsLined (view_module kernel) }
        ensures kernel { IfOk result (λ k. k ≡ kernel) }
        ensures laid_out { OnOk result (IsLaidOut (view_module kernel)) }
        ensures well_formed { OnOk result (IsWellFormed (view_module kernel)) }
        ensures refused { OnRefusal result (IsRefusal (view_module kernel)) }
    {
        let layout = Layout::of(alloc, &kernel)?;
        let checked = check(alloc, kernel)?;
        Ok(with_code(alloc, checked, layout)?)
    }

    /// The checked module. It takes no memory.
    pub fn checked(&self) -> &Checked
        ensures checked { result.now ≡ self.now }
        ensures facts { IsChecked (view_module self.now) }
        ensures ordered { AreOrdered (view_module self.now) }
        ensures distinct { IsDistinct bytes_eq (names_of (view_module self.now).functions) }
    {
        // For the proof: the module is checked.
        let _module = self.checked.module();
        &self.checked
    }

    /// The layout. It takes no memory.
    pub fn layout(&self) -> &Layout
        ensures { IsLayoutOf (view_module self.now) result.now }
    {
        &self.layout
    }

    /// The code. It takes no memory.
    pub fn program(&self) -> &Program
        ensures { result.now ≡ program_of (view_module self.now) }
    {
        &self.program
    }
}
