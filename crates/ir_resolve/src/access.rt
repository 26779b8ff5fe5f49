//! Loads and stores.

ghost use Rattle.std.specs.Prelude.{◌≡◌, ◌<◌, ◌++◌, ◌∷◌, ℤ, List, None, false, option_map, map, slice_index_or, IfOk};
ghost use Rattle.ir_ast.specs.Small.{IsSmall};
ghost use Rattle.ir_ast.specs.Plain.{Ty};
ghost use Rattle.ir_ast.specs.View.{view_type, view_operand};
ghost use Rattle.ir_ast.specs.ProgramView.{view_module, view_range};
ghost use Rattle.ir_type.specs.Names.{entry_of};
ghost use Rattle.ir_type.specs.Whole.{meant};
ghost use Rattle.ir_layout.specs.Sizes as sizes;
ghost use Rattle.ir_typing.specs.Scoped.{function_in};
ghost use Rattle.ir_measure.specs.Shaped.{type_in, count_of, IsSound, IsShaped};
ghost use Rattle.ir_resolve.specs.Acts as definition;
ghost use Rattle.ir_resolve.specs.Locals.{IsLocalOf};

use crate::context::Context;
use crate::literal::number_in;
use crate::operands::input_of;
use hk_seq::Seq;
use ir_ast::{IrType, Module, Name, Operand, RangeEntry};
use ir_code::{Act, Span};
use ir_measure::Shapes;
use ir_typing::Scope;
use std::alloc::{AllocError, Global};

/// The place of the register that an operand is.
pub fn register_place(scope: &Scope, operand: &Operand) -> Option<u32>
    ensures { result ≡ definition.register_place (function_in scope.now) (view_operand operand.now) }
{
    match operand {
        Operand::Local(name) => scope.register(name),
        _ => None,
    }
}

/// The place, where its flag is true.
pub fn where_true(flags: &[bool], place: u32) -> Option<u32>
    ensures { result ≡ definition.where_true flags.now place }
{
    if flag_at(flags, place) {
        Some(place)
    } else {
        None
    }
}

fn flag_at(flags: &[bool], place: u32) -> bool
    ensures { result ≡ slice_index_or flags.now place false }
{
    match flags.get(place as usize) {
        Some(flag) => *flag,
        None => false,
    }
}

/// The slot whose address an operand is.
fn slot_place(context: &Context, operand: &Operand) -> Option<u32>
    requires { IsLocalOf (function_in context.now.scope.now) context.now.local.now }
    ensures { result ≡ definition.slot_place (function_in context.now.scope.now) (view_operand operand.now) }
{
    match register_place(context.scope, operand) {
        Some(place) => where_true(context.local.slots.as_slice(), place),
        None => None,
    }
}

/// The range of a name.
#[tactic(auto, using(ir_typing::proofs::Entered::found_viewed, ir_typing::proofs::Entered::none_viewed))]
fn range_named<'m>(kernel: &'m Module, name: &Name) -> Option<&'m RangeEntry>
    requires { IsSmall kernel.now }
    ensures { option_map (λ r. view_range r.now) result ≡ entry_of name.now (view_module kernel.now).ranges }
{
    match kernel.ranges.get(name) {
        Some(place) => Some(kernel.ranges.at(place)),
        None => None,
    }
}

/// The bounds that stand under a number.
fn bounds_of<'m>(kernel: &'m Module, name: &Name) -> &'m [(IrType, i128)]
    requires { IsSmall kernel.now }
    ensures { map (λ n. (view_type n.0, n.1)) result.now ≡ definition.bounds_of (view_module kernel.now) name.now }
{
    match range_named(kernel, name) {
        Some(range) => range.numbers.items.as_slice(),
        None => &[],
    }
}

/// Adds a bound: it is a low one, or a high one where a low one was read.
fn add_bound(
    spans: &mut Seq<Span>,
    width: u32,
    low: Option<u64>,
    bound: &(IrType, i128),
) -> Result<Option<u64>, AllocError>
    ensures { (rest : List (Ty × ℤ)) → IfOk result (λ next. spans.new ++ definition.spans_from width next rest ≡ spans.old ++ definition.spans_from width low ((view_type bound.now.0, bound.now.1) ∷ rest)) }
{
    let bound = number_in(width, bound.1);
    match low {
        Some(low) => {
            spans.push(Span { low, high: bound })?;
            Ok(None)
        }
        None => Ok(Some(bound)),
    }
}

/// The bounds of a range two by two.
fn spans_in(alloc: Global, width: u32, bounds: &[(IrType, i128)]) -> Result<Seq<Span>, AllocError>
    ensures { IfOk result (λ spans. spans ≡ definition.spans_from width None (map (λ n. (view_type n.0, n.1)) bounds.now)) }
{
    let mut spans = Seq::new(alloc);
    let mut low = None;
    'each: for bound in bounds {
        low = add_bound(&mut spans, width, low, bound)?;
    }
    Ok(spans)
}

/// The parts of a range, where a load names one.
fn spans_of(
    alloc: Global,
    kernel: &Module,
    width: u32,
    range: &Option<Name>,
) -> Result<Option<Seq<Span>>, AllocError>
    requires { IsSmall kernel.now }
    ensures { IfOk result (λ spans. spans ≡ definition.spans_of (view_module kernel.now) width range.now) }
{
    match range {
        Some(name) => {
            let spans = spans_in(alloc, width, bounds_of(kernel, name))?;
            Ok(Some(spans))
        }
        None => Ok(None),
    }
}

/// An alignment that is written, else this one of the type.
#[tactic(auto, using(crate::proofs::Written::written_zero, crate::proofs::Written::written_some))]
fn written_or(align: u64, own: u64) -> u64
    ensures { (t : Ty) → own ≡ sizes.align_of t → result ≡ sizes.written_or align t }
{
    if align == 0 { own } else { align }
}

/// The alignment in bytes of an access to a type, or of a slot of it.
pub fn align_in(shapes: &Shapes, over: u32, align: u64) -> u64
    requires within { over < count_of shapes.now }
    requires sound { IsSound shapes.now }
    ensures { result ≡ sizes.written_or align (type_in shapes.now over) }
{
    written_or(align, shapes.align_of(over))
}

/// The width of a type in bits; 0 of one that is no integer.
pub fn width_at(shapes: &Shapes, over: u32) -> u32
    requires within { over < count_of shapes.now }
    requires sound { IsSound shapes.now }
    ensures { result ≡ definition.number_width (type_in shapes.now over) }
{
    shapes.width(over).unwrap_or(0)
}

/// The bytes of an access.
#[tactic(auto, using(crate::proofs::Written::bytes_cut))]
fn bytes_of(shapes: &Shapes, over: u32) -> u32
    requires within { over < count_of shapes.now }
    requires sound { IsSound shapes.now }
    ensures { result ≡ definition.bytes_of (type_in shapes.now over) }
{
    shapes.size_of(over).min(4_294_967_295) as u32
}

/// What a load or a store accesses.
#[derive(Clone, Copy)]
struct Accessed<'a> {
    /// The number of the type.
    over: u32,
    address: &'a Operand,
    /// The alignment in bytes that is written, or 0.
    align: u64,
    /// The slot whose address it is.
    slot: Option<u32>,
}

/// A load of the type with a number.
fn load_by(
    alloc: Global,
    context: &Context,
    shapes: &mut Shapes,
    from: &Accessed,
    spans: Option<Seq<Span>>,
) -> Result<Act, AllocError>
    requires small { IsSmall context.now.kernel.now }
    requires shaped { IsShaped (view_module context.now.kernel.now).types shapes.old }
    requires within { from.now.over < count_of shapes.old }
    ensures act { IfOk result (λ act. act ≡ definition.load_by (view_module context.now.kernel.now) (function_in context.now.scope.now) (type_in shapes.old from.now.over) (view_operand from.now.address.now) from.now.align spans from.now.slot) }
    ensures shaped { IsShaped (view_module context.now.kernel.now).types shapes.new }
{
    let width = width_at(shapes, from.over);
    let align = align_in(shapes, from.over, from.align);
    match from.slot {
        Some(slot) => Ok(Act::LoadSlot {
            width,
            align,
            spans,
            slot,
        }),
        None => {
            let bytes = bytes_of(shapes, from.over);
            let address = input_of(alloc, context, shapes, None, from.address)?;
            Ok(Act::Load {
                width,
                bytes,
                align,
                spans,
                address,
            })
        }
    }
}

/// The act of a load.
pub fn load(
    alloc: Global,
    context: &Context,
    shapes: &mut Shapes,
    over: &IrType,
    address: &Operand,
    align: u64,
    range: &Option<Name>,
) -> Result<Act, AllocError>
    requires small { IsSmall context.now.kernel.now }
    requires local { IsLocalOf (function_in context.now.scope.now) context.now.local.now }
    requires shaped { IsShaped (view_module context.now.kernel.now).types shapes.old }
    ensures act { IfOk result (λ act. act ≡ definition.load_of (view_module context.now.kernel.now) (function_in context.now.scope.now) (view_type over.now) (view_operand address.now) align range.now) }
    ensures shaped { IsShaped (view_module context.now.kernel.now).types shapes.new }
{
    let over = shapes.number(alloc, &context.kernel.types, over)?;
    let spans = spans_of(alloc, context.kernel, width_at(shapes, over), range)?;
    let from = Accessed {
        over,
        address,
        align,
        slot: slot_place(context, address),
    };
    load_by(alloc, context, shapes, &from, spans)
}

/// A store of the type with a number.
fn store_by(
    alloc: Global,
    context: &Context,
    shapes: &mut Shapes,
    value: &Operand,
    to: &Accessed,
) -> Result<Act, AllocError>
    requires small { IsSmall context.now.kernel.now }
    requires shaped { IsShaped (view_module context.now.kernel.now).types shapes.old }
    requires within { to.now.over < count_of shapes.old }
    ensures act { IfOk result (λ act. act ≡ definition.store_by (view_module context.now.kernel.now) (function_in context.now.scope.now) (type_in shapes.old to.now.over) (view_operand value.now) (view_operand to.now.address.now) to.now.align to.now.slot) }
    ensures shaped { IsShaped (view_module context.now.kernel.now).types shapes.new }
{
    let align = align_in(shapes, to.over, to.align);
    let bytes = bytes_of(shapes, to.over);
    let width = shapes.width(to.over);
    let value = input_of(alloc, context, shapes, width, value)?;
    match to.slot {
        Some(slot) => Ok(Act::StoreSlot { align, value, slot }),
        None => {
            let address = input_of(alloc, context, shapes, None, to.address)?;
            Ok(Act::Store {
                bytes,
                align,
                value,
                address,
            })
        }
    }
}

/// The act of a store.
pub fn store(
    alloc: Global,
    context: &Context,
    shapes: &mut Shapes,
    over: &IrType,
    value: &Operand,
    address: &Operand,
    align: u64,
) -> Result<Act, AllocError>
    requires small { IsSmall context.now.kernel.now }
    requires local { IsLocalOf (function_in context.now.scope.now) context.now.local.now }
    requires shaped { IsShaped (view_module context.now.kernel.now).types shapes.old }
    ensures act { IfOk result (λ act. act ≡ definition.store_of (view_module context.now.kernel.now) (function_in context.now.scope.now) (view_type over.now) (view_operand value.now) (view_operand address.now) align) }
    ensures shaped { IsShaped (view_module context.now.kernel.now).types shapes.new }
{
    let over = shapes.number(alloc, &context.kernel.types, over)?;
    let to = Accessed {
        over,
        address,
        align,
        slot: slot_place(context, address),
    };
    store_by(alloc, context, shapes, value, &to)
}
