//! Operands: what each begins with, and the steps that are added to it.

ghost use Rattle.std.specs.Prelude.{◌≡◌, ◌<◌, ◌≤◌, ◌++◌, ◌∷◌, [], ℕ, Option, Some, option_map, option_and_then, position, bytes_eq, OnOk, IfOk, IfSome};
ghost use Rattle.ir_ast.specs.Small.{IsSmall};
ghost use Rattle.ir_ast.specs.Table.{names_of};
ghost use Rattle.ir_ast.specs.View.{view_type, view_operand, view_gep, view_index_list, view_indices};
ghost use Rattle.ir_ast.specs.ProgramView.{view_module};
ghost use Rattle.ir_typing.specs.Scoped.{function_in};
ghost use Rattle.ir_measure.specs.Measures.{offset_at};
ghost use Rattle.ir_measure.specs.Shaped.{type_in, count_of, IsSound, IsShaped};
ghost use Rattle.ir_resolve.specs.Operands as definition;
ghost use Rattle.ir_layout.specs.Sizes.{size_of};
ghost use Rattle.ir_layout.specs.Facts.{cut};
ghost use Rattle.ir_whole.specs.Questions.{field_of};

use crate::context::Context;
use crate::literal::{index_in, number_in};
use hk_seq::Seq;
use ir_ast::{Flags, Gep, IndexList, IrType, Module, Name, Operand};
use ir_code::{Base, Input, Move};
use ir_measure::Shapes;
use ir_value::Value;
use std::alloc::{AllocError, Global};

fn register_base(place: Option<u32>) -> Base
    ensures { result ≡ definition.register_base place }
{
    match place {
        Some(place) => Base::Register(place),
        None => Base::Unknown,
    }
}

fn object_base(place: Option<u32>) -> Base
    ensures { result ≡ definition.object_base place }
{
    match place {
        Some(object) => Base::Constant(Value::Address { object, offset: 0 }),
        None => Base::Unknown,
    }
}

fn number_base(width: Option<u32>, number: i128) -> Base
    ensures { result ≡ definition.number_base width number }
{
    match width {
        Some(width) => Base::Constant(Value::Number(number_in(width, number))),
        None => Base::Unknown,
    }
}

/// The place of a global.
#[tactic(auto, using(ir_type::proofs::Views::place_viewed))]
fn global_place(kernel: &Module, name: &Name) -> Option<u32>
    requires { IsSmall kernel.now }
    ensures { result ≡ position (bytes_eq name.now) (names_of (view_module kernel.now).globals) }
{
    kernel.globals.get(name)
}

/// What an operand begins with that is no `getelementptr`: of an integer type of this width in bits, or of another type.
pub fn base_of(context: &Context, width: Option<u32>, operand: &Operand) -> Base
    requires { IsSmall context.now.kernel.now }
    ensures { result ≡ definition.base_of (view_module context.now.kernel.now) (function_in context.now.scope.now) width (view_operand operand.now) }
{
    match operand {
        Operand::Local(name) => register_base(context.scope.register(name)),
        Operand::Global(name) => object_base(global_place(context.kernel, name)),
        Operand::Number(number) => number_base(width, *number),
        Operand::Null => Base::Constant(Value::Null),
        Operand::Poison => Base::Constant(Value::Poison),
        Operand::Address(_) => Base::Unknown,
    }
}

/// An index of a `getelementptr`.
#[derive(Clone, Copy)]
struct Index<'a> {
    /// Its width in bits, where it is of an integer type.
    width: Option<u32>,
    operand: &'a Operand,
}

/// An index over values of a size in bytes.
fn index_move(context: &Context, flags: Flags, each: u64, index: &Index) -> Move
    requires { IsSmall context.now.kernel.now }
    ensures { result ≡ definition.index_move (view_module context.now.kernel.now) (function_in context.now.scope.now) flags each index.now.width (view_operand index.now.operand.now) }
{
    Move::By {
        inbounds: flags.inbounds,
        nuw: flags.nuw,
        width: index.width.unwrap_or(0),
        each,
        index: base_of(context, index.width, index.operand),
    }
}

fn lost_move(flags: Flags) -> Move
    ensures { result ≡ definition.lost_move flags }
{
    Move::By {
        inbounds: flags.inbounds,
        nuw: flags.nuw,
        width: 64,
        each: 0,
        index: Base::Unknown,
    }
}

/// One step over the bytes before a field.
fn field_move(flags: Flags, bytes: Option<u64>) -> Move
    ensures { result ≡ definition.field_move flags bytes }
{
    match bytes {
        Some(each) => Move::By {
            inbounds: flags.inbounds,
            nuw: flags.nuw,
            width: 64,
            each,
            index: Base::Constant(Value::Number(1)),
        },
        None => lost_move(flags),
    }
}

/// The field that an index chooses.
fn field_index(index: &Index) -> Option<u32>
    ensures { result ≡ definition.field_index index.now.width (view_operand index.now.operand.now) }
{
    match (index.width, index.operand) {
        (Some(width), Operand::Number(number)) => {
            if width == 32 {
                Some(index_in(*number))
            } else {
                None
            }
        }
        _ => None,
    }
}

/// The element of an array.
fn element_at(shapes: &Shapes, at: u32) -> Option<u32>
    requires within { at < count_of shapes.now }
    requires sound { IsSound shapes.now }
    ensures element { option_map (type_in shapes.now) result ≡ definition.element_of (type_in shapes.now at) }
    ensures within { IfSome result (λ n. n < at) }
{
    match shapes.element(at) {
        Some((_, element)) => Some(element),
        None => None,
    }
}

/// The bytes before the field of a type that an index chooses.
fn bytes_before(shapes: &Shapes, at: u32, field: Option<u32>) -> Option<u64>
    requires within { at < count_of shapes.now }
    requires sound { IsSound shapes.now }
    ensures { result ≡ option_and_then (offset_at (type_in shapes.now at)) field }
{
    match field {
        Some(field) => shapes.offset_at(at, u64::from(field)),
        None => None,
    }
}

/// The step from a type to a part of it, of which this is the element where it is an array.
fn part_move(
    context: &Context,
    shapes: &Shapes,
    flags: Flags,
    at: u32,
    element: Option<u32>,
    index: &Index,
) -> Move
    requires small { IsSmall context.now.kernel.now }
    requires within { at < count_of shapes.now }
    requires element { IfSome element (λ n. n < at) }
    requires sound { IsSound shapes.now }
    ensures { result ≡ definition.part_move (view_module context.now.kernel.now) (function_in context.now.scope.now) flags (type_in shapes.now at) (option_map (type_in shapes.now) element) index.now.width (view_operand index.now.operand.now) }
{
    match element {
        Some(element) => {
            let each = shapes.size_of(element);
            index_move(context, flags, each, index)
        }
        None => field_move(flags, bytes_before(shapes, at, field_index(index))),
    }
}

/// The field of a type that an index chooses.
fn chosen_field(shapes: &Shapes, at: u32, field: Option<u32>) -> Option<u32>
    requires within { at < count_of shapes.now }
    requires sound { IsSound shapes.now }
    ensures field { option_map (type_in shapes.now) result ≡ option_and_then (λ k. field_of k (type_in shapes.now at)) field }
    ensures within { IfSome result (λ n. n < count_of shapes.now) }
{
    match field {
        Some(field) => shapes.field(at, u64::from(field)),
        None => None,
    }
}

/// The part of a type that an index steps to.
fn part_of(shapes: &Shapes, at: u32, element: Option<u32>, index: &Index) -> Option<u32>
    requires within { at < count_of shapes.now }
    requires element { IfSome element (λ n. n < at) }
    requires sound { IsSound shapes.now }
    ensures part { option_map (type_in shapes.now) result ≡ definition.part_of (type_in shapes.now at) (option_map (type_in shapes.now) element) index.now.width (view_operand index.now.operand.now) }
    ensures within { IfSome result (λ n. n < count_of shapes.now) }
{
    match element {
        Some(element) => Some(element),
        None => chosen_field(shapes, at, field_index(index)),
    }
}

/// The step from a type to a part of it, where the steps before it led to one.
fn move_from(
    context: &Context,
    shapes: &Shapes,
    flags: Flags,
    at: Option<u32>,
    index: &Index,
) -> Move
    requires small { IsSmall context.now.kernel.now }
    requires within { IfSome at (λ n. n < count_of shapes.now) }
    requires sound { IsSound shapes.now }
    ensures { result ≡ definition.move_from (view_module context.now.kernel.now) (function_in context.now.scope.now) flags (option_map (type_in shapes.now) at) index.now.width (view_operand index.now.operand.now) }
{
    match at {
        Some(at) => {
            let element = element_at(shapes, at);
            part_move(context, shapes, flags, at, element, index)
        }
        None => lost_move(flags),
    }
}

/// The part that an index steps to, where the steps before it led to a type.
fn part_from(shapes: &Shapes, at: Option<u32>, index: &Index) -> Option<u32>
    requires within { IfSome at (λ n. n < count_of shapes.now) }
    requires sound { IsSound shapes.now }
    ensures part { option_map (type_in shapes.now) result ≡ definition.part_from (option_map (type_in shapes.now) at) index.now.width (view_operand index.now.operand.now) }
    ensures within { IfSome result (λ n. n < count_of shapes.now) }
{
    match at {
        Some(at) => part_of(shapes, at, element_at(shapes, at), index),
        None => None,
    }
}

/// The width in bits of an integer type, seen through names.
#[tactic(auto, using(ir_measure::proofs::Shaping::kept_part))]
pub fn width_in(
    alloc: Global,
    kernel: &Module,
    shapes: &mut Shapes,
    over: &IrType,
) -> Result<Option<u32>, AllocError>
    requires small { IsSmall kernel.now }
    requires shaped { IsShaped (view_module kernel.now).types shapes.old }
    ensures width { IfOk result (λ w. w ≡ definition.width_in (view_module kernel.now) (view_type over.now)) }
    ensures shaped { IsShaped (view_module kernel.now).types shapes.new }
    ensures longer { count_of shapes.old ≤ count_of shapes.new }
    ensures keeps { (k : ℕ) → k < count_of shapes.old → type_in shapes.new k ≡ type_in shapes.old k }
    ensures parts { (o : Option ℕ) → IfSome o (λ n. n < count_of shapes.old) → option_map (type_in shapes.new) o ≡ option_map (type_in shapes.old) o }
{
    let number = shapes.number(alloc, &kernel.types, over)?;
    Ok(shapes.width(number))
}

/// Adds the step of an index from a type on, where the steps before it led to one. The number of the part goes out.
fn add_index(
    alloc: Global,
    context: &Context,
    shapes: &mut Shapes,
    flags: Flags,
    at: Option<u32>,
    index: &(IrType, Operand),
    moves: &mut Seq<Move>,
) -> Result<Option<u32>, AllocError>
    requires small { IsSmall context.now.kernel.now }
    requires shaped { IsShaped (view_module context.now.kernel.now).types shapes.old }
    requires within { IfSome at (λ n. n < count_of shapes.old) }
    ensures moves { OnOk result (moves.new ≡ moves.old ++ definition.move_from (view_module context.now.kernel.now) (function_in context.now.scope.now) flags (option_map (type_in shapes.old) at) (definition.width_in (view_module context.now.kernel.now) (view_type index.now.0)) (view_operand index.now.1) ∷ []) }
    ensures part { IfOk result (λ r. option_map (type_in shapes.new) r ≡ definition.part_from (option_map (type_in shapes.old) at) (definition.width_in (view_module context.now.kernel.now) (view_type index.now.0)) (view_operand index.now.1)) }
    ensures within { IfOk result (λ r. IfSome r (λ n. n < count_of shapes.new)) }
    ensures shaped { IsShaped (view_module context.now.kernel.now).types shapes.new }
    ensures longer { count_of shapes.old ≤ count_of shapes.new }
    ensures keeps { (k : ℕ) → k < count_of shapes.old → type_in shapes.new k ≡ type_in shapes.old k }
{
    let width = width_in(alloc, context.kernel, shapes, &index.0)?;
    let index = Index {
        width,
        operand: &index.1,
    };
    moves.push(move_from(context, shapes, flags, at, &index))?;
    Ok(part_from(shapes, at, &index))
}

/// Adds the steps of indices from a type on.
fn add_parts(
    alloc: Global,
    context: &Context,
    shapes: &mut Shapes,
    flags: Flags,
    first: u32,
    indices: &[(IrType, Operand)],
    moves: &mut Seq<Move>,
) -> Result<(), AllocError>
    requires small { IsSmall context.now.kernel.now }
    requires shaped { IsShaped (view_module context.now.kernel.now).types shapes.old }
    requires within { first < count_of shapes.old }
    ensures moves { OnOk result (moves.new ≡ moves.old ++ definition.part_moves (view_module context.now.kernel.now) (function_in context.now.scope.now) flags (Some (type_in shapes.old first)) (view_indices indices.now)) }
    ensures shaped { IsShaped (view_module context.now.kernel.now).types shapes.new }
    ensures longer { count_of shapes.old ≤ count_of shapes.new }
    ensures keeps { (k : ℕ) → k < count_of shapes.old → type_in shapes.new k ≡ type_in shapes.old k }
{
    let mut at = Some(first);
    'each: for index in indices {
        at = add_index(alloc, context, shapes, flags, at, index, moves)?;
    }
    Ok(())
}

/// Adds the step of an index over whole values of a type.
fn add_first(
    alloc: Global,
    context: &Context,
    shapes: &mut Shapes,
    flags: Flags,
    over: u32,
    index: &(IrType, Operand),
    moves: &mut Seq<Move>,
) -> Result<(), AllocError>
    requires small { IsSmall context.now.kernel.now }
    requires shaped { IsShaped (view_module context.now.kernel.now).types shapes.old }
    requires within { over < count_of shapes.old }
    ensures moves { OnOk result (moves.new ≡ moves.old ++ definition.index_move (view_module context.now.kernel.now) (function_in context.now.scope.now) flags (cut (size_of (type_in shapes.old over))) (definition.width_in (view_module context.now.kernel.now) (view_type index.now.0)) (view_operand index.now.1) ∷ []) }
    ensures shaped { IsShaped (view_module context.now.kernel.now).types shapes.new }
    ensures longer { count_of shapes.old ≤ count_of shapes.new }
    ensures keeps { (k : ℕ) → k < count_of shapes.old → type_in shapes.new k ≡ type_in shapes.old k }
{
    let each = shapes.size_of(over);
    let width = width_in(alloc, context.kernel, shapes, &index.0)?;
    let index = Index {
        width,
        operand: &index.1,
    };
    moves.push(index_move(context, flags, each, &index))?;
    Ok(())
}

/// Adds the steps of a `getelementptr` over a type.
#[tactic(auto, using(crate::proofs::Moves::no_moves))]
fn add_moves(
    alloc: Global,
    context: &Context,
    shapes: &mut Shapes,
    flags: Flags,
    over: u32,
    indices: &IndexList,
    moves: &mut Seq<Move>,
) -> Result<(), AllocError>
    requires small { IsSmall context.now.kernel.now }
    requires shaped { IsShaped (view_module context.now.kernel.now).types shapes.old }
    requires within { over < count_of shapes.old }
    ensures moves { OnOk result (moves.new ≡ moves.old ++ definition.moves_of (view_module context.now.kernel.now) (function_in context.now.scope.now) flags (type_in shapes.old over) (view_index_list indices.now)) }
    ensures shaped { IsShaped (view_module context.now.kernel.now).types shapes.new }
    ensures longer { count_of shapes.old ≤ count_of shapes.new }
    ensures keeps { (k : ℕ) → k < count_of shapes.old → type_in shapes.new k ≡ type_in shapes.old k }
{
    moves.push(Move::Begin {
        inbounds: flags.inbounds,
    })?;
    match indices.items.as_slice() {
        [] => Ok(()),
        [index, rest @ ..] => {
            add_first(alloc, context, shapes, flags, over, index, moves)?;
            add_parts(alloc, context, shapes, flags, over, rest, moves)?;
            Ok(())
        }
    }
}

fn plain_input(alloc: Global, base: Base) -> Input
    ensures { result ≡ definition.plain_input base }
{
    Input {
        base,
        moves: Seq::new(alloc),
    }
}

/// The operand of an integer type of this width in bits, or of another type. It takes time linear in what is spelled, but for the
/// look-ups of names and of whole types.
#[cycle(inputs)]
pub fn input_of(
    alloc: Global,
    context: &Context,
    shapes: &mut Shapes,
    width: Option<u32>,
    operand: &Operand,
) -> Result<Input, AllocError>
    requires small { IsSmall context.now.kernel.now }
    requires shaped { IsShaped (view_module context.now.kernel.now).types shapes.old }
    ensures input { IfOk result (λ i. i ≡ definition.input_of (view_module context.now.kernel.now) (function_in context.now.scope.now) width (view_operand operand.now)) }
    ensures shaped { IsShaped (view_module context.now.kernel.now).types shapes.new }
    ensures longer { count_of shapes.old ≤ count_of shapes.new }
    ensures keeps { (k : ℕ) → k < count_of shapes.old → type_in shapes.new k ≡ type_in shapes.old k }
{
    match operand {
        Operand::Address(gep) => form_input(alloc, context, shapes, gep),
        _ => Ok(plain_input(alloc, base_of(context, width, operand))),
    }
}

/// The address that a `getelementptr` gives.
#[cycle(inputs)]
pub fn form_input(
    alloc: Global,
    context: &Context,
    shapes: &mut Shapes,
    gep: &Gep,
) -> Result<Input, AllocError>
    requires small { IsSmall context.now.kernel.now }
    requires shaped { IsShaped (view_module context.now.kernel.now).types shapes.old }
    ensures input { IfOk result (λ i. i ≡ definition.form_input (view_module context.now.kernel.now) (function_in context.now.scope.now) (view_gep gep.now)) }
    ensures shaped { IsShaped (view_module context.now.kernel.now).types shapes.new }
    ensures longer { count_of shapes.old ≤ count_of shapes.new }
    ensures keeps { (k : ℕ) → k < count_of shapes.old → type_in shapes.new k ≡ type_in shapes.old k }
{
    let Input { base, mut moves } = input_of(alloc, context, shapes, None, &gep.base)?;
    let over = shapes.number(alloc, &context.kernel.types, &gep.base_type)?;
    add_moves(
        alloc,
        context,
        shapes,
        gep.flags,
        over,
        &gep.indices,
        &mut moves,
    )?;
    Ok(Input { base, moves })
}
