//! The code of a module.

ghost use Rattle.std.specs.Prelude.{◌≡◌, ◌<◌, ◌^◌, Some, length, map, slice_get, IfOk};
ghost use Rattle.ir_ast.specs.Small.{IsSmall};
ghost use Rattle.ir_ast.specs.ProgramView.{view_entries, view_type_entry, view_module, view_instr, view_block, view_function};
ghost use Rattle.ir_layout.specs.Layouts.{IsLayoutOf};
ghost use Rattle.ir_typing.specs.Scoped.{function_in};
ghost use Rattle.ir_whole.specs.Numbers.{IsFor};
ghost use Rattle.ir_measure.specs.Shaped.{IsShaped};
ghost use Rattle.ir_resolve.specs.Resolved as definition;
ghost use Rattle.ir_resolve.specs.Locals.{IsLocalOf};

use crate::acts::step_of;
use crate::context::Context;
use crate::local::{Local, blocks_in, small_count};
use hk_seq::Seq;
use ir_ast::{Function, Instr, Module};
use ir_code::{Block, Code, Object, Program, Step};
use ir_layout::Layout;
use ir_measure::Shapes;
use ir_typing::Scope;
use ir_whole::TypeNumbers;
use std::alloc::{AllocError, Global};

/// The instructions of a block.
fn steps_of(
    alloc: Global,
    context: &Context,
    shapes: &mut Shapes,
    instrs: &[Instr],
) -> Result<Seq<Step>, AllocError>
    requires small { IsSmall context.now.kernel.now }
    requires local { IsLocalOf (function_in context.now.scope.now) context.now.local.now }
    requires shaped { IsShaped (view_module context.now.kernel.now).types shapes.old }
    ensures steps { IfOk result (λ r. r ≡ map (definition.step_of (view_module context.now.kernel.now) (function_in context.now.scope.now)) (map view_instr instrs.now)) }
    ensures shaped { IsShaped (view_module context.now.kernel.now).types shapes.new }
{
    let mut steps = Seq::new(alloc);
    'each: for instr in instrs {
        steps.push(step_of(alloc, context, shapes, instr)?)?;
    }
    Ok(steps)
}

/// The blocks of a function.
fn blocks_of(
    alloc: Global,
    context: &Context,
    shapes: &mut Shapes,
    items: &[ir_ast::Block],
) -> Result<Seq<Block>, AllocError>
    requires small { IsSmall context.now.kernel.now }
    requires local { IsLocalOf (function_in context.now.scope.now) context.now.local.now }
    requires shaped { IsShaped (view_module context.now.kernel.now).types shapes.old }
    ensures blocks { IfOk result (λ r. r ≡ map (definition.block_of (view_module context.now.kernel.now) (function_in context.now.scope.now)) (map view_block items.now)) }
    ensures shaped { IsShaped (view_module context.now.kernel.now).types shapes.new }
{
    let mut blocks = Seq::new(alloc);
    'each: for block in items {
        let instrs = block.instrs.items.as_slice();
        let steps = steps_of(alloc, context, shapes, instrs)?;
        blocks.push(Block { steps })?;
    }
    Ok(blocks)
}

/// What is known of the places of a scope's function.
#[tactic(auto, using(crate::proofs::Codes::local_moved))]
fn local_in(alloc: Global, scope: &Scope, function: &Function) -> Result<Local, AllocError>
    requires { function_in scope.now ≡ view_function function.now }
    ensures { IfOk result (λ local. IsLocalOf (function_in scope.now) local) }
{
    let local = Local::of(alloc, function)?;
    Ok(local)
}

/// The code of a function with this scope.
#[tactic(auto, using(crate::proofs::Codes::code_is))]
fn code_in(
    alloc: Global,
    kernel: &Module,
    scope: &Scope,
    shapes: &mut Shapes,
    function: &Function,
) -> Result<Code, AllocError>
    requires small { IsSmall kernel.now }
    requires function { function_in scope.now ≡ view_function function.now }
    requires shaped { IsShaped (view_module kernel.now).types shapes.old }
    ensures code { IfOk result (λ code. code ≡ definition.code_of (view_module kernel.now) (view_function function.now)) }
    ensures shaped { IsShaped (view_module kernel.now).types shapes.new }
{
    let local = local_in(alloc, scope, function)?;
    let context = Context {
        kernel,
        scope,
        local: &local,
    };
    let blocks = blocks_of(alloc, &context, shapes, blocks_in(function))?;
    let parameters = parameter_count(function)?;
    Ok(Code {
        parameters,
        registers: local.registers,
        blocks,
    })
}

/// How many parameters a function has.
#[tactic(auto, using(crate::proofs::Codes::parameters_seen))]
fn parameter_count(function: &Function) -> Result<u32, AllocError>
    ensures { IfOk result (λ n. n ≡ length (view_function function.now).parameters) }
{
    let parameters = function.parameters.items.as_slice();
    small_count(parameters.len())
}

/// The code of a function. The numbers are those of its scope.
fn code_of(
    alloc: Global,
    kernel: &Module,
    numbers: &mut TypeNumbers,
    shapes: &mut Shapes,
    function: &Function,
) -> Result<Code, AllocError>
    requires small { IsSmall kernel.now }
    requires own { IsFor (view_entries view_type_entry kernel.now.types) numbers.old }
    requires shaped { IsShaped (view_module kernel.now).types shapes.old }
    ensures code { IfOk result (λ code. code ≡ definition.code_of (view_module kernel.now) (view_function function.now)) }
    ensures own { IsFor (view_entries view_type_entry kernel.now.types) numbers.new }
    ensures shaped { IsShaped (view_module kernel.now).types shapes.new }
{
    let scope = Scope::of(alloc, numbers, &kernel.types, function)?;
    let code = code_in(alloc, kernel, &scope, shapes, function)?;
    Ok(code)
}

/// The code of the function at a place.
fn code_at(
    alloc: Global,
    kernel: &Module,
    numbers: &mut TypeNumbers,
    shapes: &mut Shapes,
    place: u32,
) -> Result<Code, AllocError>
    requires small { IsSmall kernel.now }
    requires place { place < length kernel.now.functions }
    requires own { IsFor (view_entries view_type_entry kernel.now.types) numbers.old }
    requires shaped { IsShaped (view_module kernel.now).types shapes.old }
    ensures code { IfOk result (λ code. slice_get (definition.program_of (view_module kernel.now)).functions place ≡ Some code) }
    ensures own { IsFor (view_entries view_type_entry kernel.now.types) numbers.new }
    ensures shaped { IsShaped (view_module kernel.now).types shapes.new }
{
    let code = code_of(alloc, kernel, numbers, shapes, kernel.functions.at(place))?;
    Ok(code)
}

/// The functions of a module.
#[tactic(auto, using(crate::proofs::Codes::one_more, crate::proofs::Codes::no_more))]
fn functions_of(
    alloc: Global,
    kernel: &Module,
    numbers: &mut TypeNumbers,
    shapes: &mut Shapes,
) -> Result<Seq<Code>, AllocError>
    requires small { IsSmall kernel.now }
    requires own { IsFor (view_entries view_type_entry kernel.now.types) numbers.old }
    requires shaped { IsShaped (view_module kernel.now).types shapes.old }
    ensures { IfOk result (λ r. r ≡ (definition.program_of (view_module kernel.now)).functions) }
{
    let mut codes = Seq::new(alloc);
    for place in 0..kernel.functions.len() {
        codes.push(code_at(alloc, kernel, numbers, shapes, place)?)?;
    }
    Ok(codes)
}

/// The object at a place.
fn object_at(kernel: &Module, layout: &Layout, place: u32) -> Object
    requires layout { IsLayoutOf (view_module kernel.now) layout.now }
    requires place { place < length kernel.now.globals }
    requires within { place < length layout.now.objects }
    ensures { slice_get (definition.program_of (view_module kernel.now)).objects place ≡ Some result }
{
    Object {
        constant: kernel.globals.at(place).constant,
        align: layout.object_align(place),
    }
}

/// The objects of a module.
#[tactic(auto, using(crate::proofs::Codes::one_more, crate::proofs::Codes::no_more))]
fn objects_of(alloc: Global, kernel: &Module, layout: &Layout) -> Result<Seq<Object>, AllocError>
    requires small { IsSmall kernel.now }
    requires layout { IsLayoutOf (view_module kernel.now) layout.now }
    ensures { IfOk result (λ r. r ≡ (definition.program_of (view_module kernel.now)).objects) }
{
    let mut objects = Seq::new(alloc);
    for place in 0..layout.objects() {
        objects.push(object_at(kernel, layout, place))?;
    }
    Ok(objects)
}

/// The code of a module with its layout. It takes time linear in the module, but for the look-ups of names and of whole types, which
/// ordered indices answer. Memory is also wanted where 32 bits have no number for a register, a block, a parameter or a type.
pub fn resolve(alloc: Global, kernel: &Module, layout: &Layout) -> Result<Program, AllocError>
    requires small { IsSmall kernel.now }
    requires layout { IsLayoutOf (view_module kernel.now) layout.now }
    ensures { IfOk result (λ p. p ≡ definition.program_of (view_module kernel.now)) }
{
    let mut numbers = TypeNumbers::of(alloc, &kernel.types)?;
    let mut shapes = Shapes::of(alloc, &kernel.types)?;
    let functions = functions_of(alloc, kernel, &mut numbers, &mut shapes)?;
    let objects = objects_of(alloc, kernel, layout)?;
    Ok(Program { functions, objects })
}
