//! Globals: their initialisers against their types, and their alignments.
//!
//! Each part of an initialiser comes in with the number of the type that it has to be of, which is found from that of the whole.

ghost use Rattle.std.specs.Prelude.{◌≡◌, ◌<◌, ◌≤◌, ◌^◌, ℕ, List, true, length, IfOk, IfSome};
ghost use Rattle.ir_ast.specs.Plain.{Ty, integer, bytes_init, array_init, structure_init, packed_init};
ghost use Rattle.ir_ast.specs.View.{view_type, view_init, view_init_list};
ghost use Rattle.ir_ast.specs.ProgramView.{view_entries, view_type_entry, view_global};
ghost use Rattle.ir_type.specs.Whole.{Types, meant, is_same};
ghost use Rattle.ir_whole.specs.Heads.{type_at, type_of};
ghost use Rattle.ir_whole.specs.Numbers.{types_of, IsFor};
ghost use Rattle.ir_typing.specs.Fits as definition;
ghost use Rattle.ir_typing.specs.Initial.{is_plain_struct, is_packed_struct, fields_in};

use crate::fit::number_fits;
use crate::literal::is_align;
use crate::same::same_type;
use ir_ast::{ByteList, GlobalItem, Init, InitList, IrType, TypeTable};
use ir_whole::{Head, TypeNumbers};
use std::alloc::{AllocError, Global};

/// The number of the whole type that a type stands for.
#[tactic(auto, using(crate::proofs::Typing::number_at))]
fn number_of(
    alloc: Global,
    numbers: &mut TypeNumbers,
    types: &TypeTable,
    over: &IrType,
) -> Result<u32, AllocError>
    requires small { length types.now < 2 ^ 32 }
    requires own { IsFor (view_entries view_type_entry types.now) numbers.old }
    ensures number { IfOk result (λ n. type_at (types_of numbers.new) n ≡ meant (view_entries view_type_entry types.now) (view_type over.now)) }
    ensures within { IfOk result (λ n. n < length (types_of numbers.new)) }
    ensures own { IsFor (view_entries view_type_entry types.now) numbers.new }
    ensures longer { length (types_of numbers.old) ≤ length (types_of numbers.new) }
    ensures keeps { (k : ℕ) → k < length (types_of numbers.old) → type_at (types_of numbers.new) k ≡ type_at (types_of numbers.old) k }
{
    let number = numbers.number(alloc, types, over)?;
    Ok(number)
}

/// Whether a type stands for the one with this number.
fn is_of(
    alloc: Global,
    numbers: &mut TypeNumbers,
    types: &TypeTable,
    number: u32,
    over: &IrType,
) -> Result<bool, AllocError>
    requires small { length types.now < 2 ^ 32 }
    requires own { IsFor (view_entries view_type_entry types.now) numbers.old }
    requires number { number < length (types_of numbers.old) }
    ensures is { IfOk result (λ r. r ≡ is_same (meant (view_entries view_type_entry types.now) (view_type over.now)) (type_at (types_of numbers.old) number)) }
    ensures own { IsFor (view_entries view_type_entry types.now) numbers.new }
    ensures longer { length (types_of numbers.old) ≤ length (types_of numbers.new) }
    ensures keeps { (k : ℕ) → k < length (types_of numbers.old) → type_at (types_of numbers.new) k ≡ type_at (types_of numbers.old) k }
{
    let spelled = number_of(alloc, numbers, types, over)?;
    Ok(numbers.is_same(spelled, number))
}

/// The same, where a type that stands for it is known: one that is spelled alike is not looked up again.
fn is_of_known(
    alloc: Global,
    numbers: &mut TypeNumbers,
    types: &TypeTable,
    number: u32,
    known: Option<&IrType>,
    over: &IrType,
) -> Result<bool, AllocError>
    requires small { length types.now < 2 ^ 32 }
    requires own { IsFor (view_entries view_type_entry types.now) numbers.old }
    requires number { number < length (types_of numbers.old) }
    requires known { IfSome known (λ t. is_same (meant (view_entries view_type_entry types.now) (view_type t.now)) (type_at (types_of numbers.old) number) ≡ true) }
    ensures is { IfOk result (λ r. r ≡ is_same (meant (view_entries view_type_entry types.now) (view_type over.now)) (type_at (types_of numbers.old) number)) }
    ensures own { IsFor (view_entries view_type_entry types.now) numbers.new }
    ensures longer { length (types_of numbers.old) ≤ length (types_of numbers.new) }
    ensures keeps { (k : ℕ) → k < length (types_of numbers.old) → type_at (types_of numbers.new) k ≡ type_at (types_of numbers.old) k }
{
    if let Some(known) = known {
        if same_type(known, over) {
            return Ok(true);
        }
    }
    is_of(alloc, numbers, types, number, over)
}

/// Whether the type with this number is an integer of this width, in bits.
fn has_width(numbers: &TypeNumbers, over: u32, width: u32) -> bool
    requires { over < length (types_of numbers.now) }
    ensures { result ≡ is_same (type_at (types_of numbers.now) over) (integer width) }
{
    match numbers.width(over) {
        Some(own) => own == width,
        None => false,
    }
}

/// Whether the type with this number is an array of so many bytes.
fn bytes_fit(numbers: &TypeNumbers, over: u32, bytes: &ByteList) -> bool
    requires { over < length (types_of numbers.now) }
    ensures { (types : Types) → result ≡ definition.init_fits types (type_at (types_of numbers.now) over) (bytes_init bytes.now.items.items) }
{
    match numbers.element(over) {
        Some((count, element)) => has_width(numbers, element, 8)
            && count == bytes.items.len() as u64,
        None => false,
    }
}

fn is_plain(head: &Head) -> bool
    ensures { (types : List Ty) → result ≡ is_plain_struct (type_of types head.now) }
{
    matches!(head, Head::Struct(_))
}

fn is_packed(head: &Head) -> bool
    ensures { (types : List Ty) → result ≡ is_packed_struct (type_of types head.now) }
{
    matches!(head, Head::Packed(_))
}

/// Whether an initialiser is one of the type with this number.
#[cycle(initial)]
fn init_fits(
    alloc: Global,
    numbers: &mut TypeNumbers,
    types: &TypeTable,
    over: u32,
    init: &Init,
) -> Result<bool, AllocError>
    requires small { length types.now < 2 ^ 32 }
    requires own { IsFor (view_entries view_type_entry types.now) numbers.old }
    requires over { over < length (types_of numbers.old) }
    ensures fits { IfOk result (λ r. r ≡ definition.init_fits (view_entries view_type_entry types.now) (type_at (types_of numbers.old) over) (view_init init.now)) }
    ensures own { IsFor (view_entries view_type_entry types.now) numbers.new }
    ensures longer { length (types_of numbers.old) ≤ length (types_of numbers.new) }
    ensures keeps { (k : ℕ) → k < length (types_of numbers.old) → type_at (types_of numbers.new) k ≡ type_at (types_of numbers.old) k }
{
    match init {
        Init::Zero => Ok(true),
        Init::Number(number) => Ok(number_fits(numbers, over, *number)),
        Init::Truth(_) => Ok(has_width(numbers, over, 1)),
        Init::Bytes(bytes) => Ok(bytes_fit(numbers, over, bytes)),
        Init::Array(parts) => array_fits(alloc, numbers, types, over, parts),
        Init::Struct(parts) => struct_fits(alloc, numbers, types, over, parts),
        Init::Packed(parts) => packed_fits(alloc, numbers, types, over, parts),
        Init::Pointer => Ok(numbers.is_pointer(over)),
    }
}

/// Whether parts are the elements of an array of the type with this number.
#[cycle(initial)]
fn array_fits(
    alloc: Global,
    numbers: &mut TypeNumbers,
    types: &TypeTable,
    over: u32,
    parts: &InitList,
) -> Result<bool, AllocError>
    requires small { length types.now < 2 ^ 32 }
    requires own { IsFor (view_entries view_type_entry types.now) numbers.old }
    requires over { over < length (types_of numbers.old) }
    ensures fits { IfOk result (λ r. r ≡ definition.init_fits (view_entries view_type_entry types.now) (type_at (types_of numbers.old) over) (array_init (view_init_list parts.now))) }
    ensures own { IsFor (view_entries view_type_entry types.now) numbers.new }
    ensures longer { length (types_of numbers.old) ≤ length (types_of numbers.new) }
    ensures keeps { (k : ℕ) → k < length (types_of numbers.old) → type_at (types_of numbers.new) k ≡ type_at (types_of numbers.old) k }
{
    match numbers.element(over) {
        Some((count, element)) => elements_fit(alloc, numbers, types, count, element, parts),
        None => Ok(false),
    }
}

/// Whether so many parts are there, each of the type with this number.
#[cycle(initial)]
fn elements_fit(
    alloc: Global,
    numbers: &mut TypeNumbers,
    types: &TypeTable,
    count: u64,
    element: u32,
    parts: &InitList,
) -> Result<bool, AllocError>
    requires small { length types.now < 2 ^ 32 }
    requires own { IsFor (view_entries view_type_entry types.now) numbers.old }
    requires element { element < length (types_of numbers.old) }
    ensures fits { IfOk result (λ r. r ≡ definition.elements_fit (view_entries view_type_entry types.now) count (type_at (types_of numbers.old) element) (view_init_list parts.now)) }
    ensures own { IsFor (view_entries view_type_entry types.now) numbers.new }
    ensures longer { length (types_of numbers.old) ≤ length (types_of numbers.new) }
    ensures keeps { (k : ℕ) → k < length (types_of numbers.old) → type_at (types_of numbers.new) k ≡ type_at (types_of numbers.old) k }
{
    let items = parts.items.as_slice();
    let mut left = count;
    let mut known: Option<&IrType> = None;
    'each: for part in items {
        if left == 0 {
            return Ok(false);
        }
        if !is_of_known(alloc, numbers, types, element, known, &part.0)? {
            return Ok(false);
        }
        if !init_fits(alloc, numbers, types, element, &part.1)? {
            return Ok(false);
        }
        known = Some(&part.0);
        left -= 1;
    }
    Ok(left == 0)
}

/// Whether parts are the fields of a plain struct, which the type with this number is.
#[cycle(initial)]
fn struct_fits(
    alloc: Global,
    numbers: &mut TypeNumbers,
    types: &TypeTable,
    over: u32,
    parts: &InitList,
) -> Result<bool, AllocError>
    requires small { length types.now < 2 ^ 32 }
    requires own { IsFor (view_entries view_type_entry types.now) numbers.old }
    requires over { over < length (types_of numbers.old) }
    ensures fits { IfOk result (λ r. r ≡ definition.init_fits (view_entries view_type_entry types.now) (type_at (types_of numbers.old) over) (structure_init (view_init_list parts.now))) }
    ensures own { IsFor (view_entries view_type_entry types.now) numbers.new }
    ensures longer { length (types_of numbers.old) ≤ length (types_of numbers.new) }
    ensures keeps { (k : ℕ) → k < length (types_of numbers.old) → type_at (types_of numbers.new) k ≡ type_at (types_of numbers.old) k }
{
    if !is_plain(numbers.head(over)) {
        return Ok(false);
    }
    fields_fit(alloc, numbers, types, over, parts)
}

/// Whether parts are the fields of a packed struct, which the type with this number is.
#[cycle(initial)]
fn packed_fits(
    alloc: Global,
    numbers: &mut TypeNumbers,
    types: &TypeTable,
    over: u32,
    parts: &InitList,
) -> Result<bool, AllocError>
    requires small { length types.now < 2 ^ 32 }
    requires own { IsFor (view_entries view_type_entry types.now) numbers.old }
    requires over { over < length (types_of numbers.old) }
    ensures fits { IfOk result (λ r. r ≡ definition.init_fits (view_entries view_type_entry types.now) (type_at (types_of numbers.old) over) (packed_init (view_init_list parts.now))) }
    ensures own { IsFor (view_entries view_type_entry types.now) numbers.new }
    ensures longer { length (types_of numbers.old) ≤ length (types_of numbers.new) }
    ensures keeps { (k : ℕ) → k < length (types_of numbers.old) → type_at (types_of numbers.new) k ≡ type_at (types_of numbers.old) k }
{
    if !is_packed(numbers.head(over)) {
        return Ok(false);
    }
    fields_fit(alloc, numbers, types, over, parts)
}

/// Whether parts are the fields of the struct with this number, one by one.
#[cycle(initial)]
fn fields_fit(
    alloc: Global,
    numbers: &mut TypeNumbers,
    types: &TypeTable,
    over: u32,
    parts: &InitList,
) -> Result<bool, AllocError>
    requires small { length types.now < 2 ^ 32 }
    requires own { IsFor (view_entries view_type_entry types.now) numbers.old }
    requires over { over < length (types_of numbers.old) }
    ensures fits { IfOk result (λ r. r ≡ definition.fields_fit (view_entries view_type_entry types.now) (fields_in (type_at (types_of numbers.old) over)) (view_init_list parts.now)) }
    ensures own { IsFor (view_entries view_type_entry types.now) numbers.new }
    ensures longer { length (types_of numbers.old) ≤ length (types_of numbers.new) }
    ensures keeps { (k : ℕ) → k < length (types_of numbers.old) → type_at (types_of numbers.new) k ≡ type_at (types_of numbers.old) k }
{
    let items = parts.items.as_slice();
    let mut place = 0u64;
    'each: for part in items {
        let Some(field) = numbers.field(over, place) else {
            return Ok(false);
        };
        if !is_of(alloc, numbers, types, field, &part.0)? {
            return Ok(false);
        }
        if !init_fits(alloc, numbers, types, field, &part.1)? {
            return Ok(false);
        }
        place += 1;
    }
    Ok(numbers.field(over, place).is_none())
}

/// Whether an alignment in bytes is absent or a power of two.
fn align_fits(align: Option<u64>) -> bool
    ensures { result ≡ definition.align_fits align }
{
    match align {
        Some(align) => is_align(align),
        None => true,
    }
}

/// Whether the initialiser of a global is one of its type, and its alignment is absent or a power of two. It takes time linear in the
/// initialiser and in the types that it spells, but for the look-ups of whole types: elements of an array that spell one type look it
/// up once.
pub fn global_fits(
    alloc: Global,
    numbers: &mut TypeNumbers,
    types: &TypeTable,
    global: &GlobalItem,
) -> Result<bool, AllocError>
    requires small { length types.now < 2 ^ 32 }
    requires own { IsFor (view_entries view_type_entry types.now) numbers.old }
    ensures fits { IfOk result (λ r. r ≡ definition.global_fits (view_entries view_type_entry types.now) (view_global global.now)) }
    ensures own { IsFor (view_entries view_type_entry types.now) numbers.new }
{
    let over = number_of(alloc, numbers, types, &global.over)?;
    if !init_fits(alloc, numbers, types, over, &global.init)? {
        return Ok(false);
    }
    Ok(align_fits(global.align))
}
