//! Types that a row spells by letters, and the named types of the sample that they may use.

ghost use Rattle.std.specs.Prelude.{◌<◌, ◌≤◌, ◌+◌, ◌^◌, length, IfOk};

use ir_ast::{IrType, Name, TypeEntry, TypeTable};
use std::alloc::{AllocError, Global};

/// The type on top, `void` where there is none.
fn taken(stack: &mut Vec<IrType>) -> IrType {
    match stack.pop() {
        Some(over) => over,
        None => IrType::Void,
    }
}

/// The two types on top, as the parts of a struct.
fn two(alloc: Global, stack: &mut Vec<IrType>) -> Result<Vec<IrType>, AllocError> {
    let last = taken(stack);
    let first = taken(stack);
    let mut parts = Vec::new(alloc);
    parts.push(first)?;
    parts.push(last)?;
    Ok(parts)
}

/// An array of the type on top.
fn array(alloc: Global, length: u64, stack: &mut Vec<IrType>) -> Result<IrType, AllocError> {
    let element = taken(stack);
    Ok(IrType::array_of(length, Box::new(alloc, element)?))
}

/// What a letter spells over the types on the stack: `V` void, `P` a pointer, a digit an integer of so many bits, `[` and `]` arrays of
/// 2 and of 2^32, `(` and `<` structs of two parts, plain and packed, `{` and `_` the same of none, any other the type of this name.
fn made(alloc: Global, letter: u8, stack: &mut Vec<IrType>) -> Result<IrType, AllocError> {
    match letter {
        b'V' => Ok(IrType::Void),
        b'P' => Ok(IrType::Ptr),
        b'0'..=b'9' => Ok(IrType::Int(u32::from(letter - b'0'))),
        b'[' => array(alloc, 2, stack),
        b']' => array(alloc, 4_294_967_296, stack),
        b'(' => Ok(IrType::struct_of(two(alloc, stack)?)),
        b'<' => Ok(IrType::packed_of(two(alloc, stack)?)),
        b'{' => Ok(IrType::struct_of(Vec::new(alloc))),
        b'_' => Ok(IrType::packed_of(Vec::new(alloc))),
        _ => Ok(IrType::Named(Name::copy_of(alloc, &[letter])?)),
    }
}

/// The type that letters spell, parts first.
fn spelled(alloc: Global, letters: &[u8]) -> Result<IrType, AllocError> {
    let mut stack = Vec::new(alloc);
    for letter in letters {
        let over = made(alloc, *letter, &mut stack)?;
        stack.push(over)?;
    }
    Ok(taken(&mut stack))
}

/// The type that a field spells: letters, or `level N` for a type of the levels by its place.
pub fn type_of(alloc: Global, field: &str) -> Result<Option<IrType>, AllocError> {
    let Some(place) = field.strip_prefix("level ") else {
        return Ok(Some(spelled(alloc, field.as_bytes())?));
    };
    match place.parse::<u8>() {
        Ok(place) if place < 62 => Ok(Some(spelled(alloc, &[128 + place])?)),
        _ => Ok(None),
    }
}

/// Adds a named type.
fn add(alloc: Global, types: &mut TypeTable, name: u8, over: IrType) -> Result<(), AllocError>
    ensures { length types.new ≤ length types.old + 1 }
{
    match types.add(Name::copy_of(alloc, &[name])?, TypeEntry { line: 1, over }) {
        Ok(_) => Ok(()),
        Err(_) => Err(AllocError),
    }
}

/// `a` is i8, `b` is `a`, `c` and `d` are one struct, `r` contains itself, `o` is opaque.
fn named(alloc: Global) -> Result<TypeTable, AllocError>
    ensures { IfOk result (λ types. length types ≤ 6) }
{
    let mut types = TypeTable::new(alloc);
    let table: [(u8, &[u8]); 5] = [
        (b'a', b"8"),
        (b'b', b"a"),
        (b'c', b"bP("),
        (b'd', b"8P("),
        (b'r', b"8r("),
    ];
    for (name, letters) in table {
        add(alloc, &mut types, name, spelled(alloc, letters)?)?;
    }
    add(alloc, &mut types, b'o', IrType::Opaque)?;
    Ok(types)
}

/// Adds thirty levels of two named types each: i8, and then twice the type two places before.
fn with_levels(alloc: Global, types: TypeTable) -> Result<TypeTable, AllocError>
    requires { length types ≤ 6 }
    ensures { IfOk result (λ types. length types < 2 ^ 32) }
{
    let mut types = types;
    add(alloc, &mut types, 128, IrType::Int(8))?;
    add(alloc, &mut types, 129, IrType::Int(8))?;
    for level in 128..188 {
        let over = spelled(alloc, &[level, level, b'('])?;
        add(alloc, &mut types, level + 2, over)?;
    }
    Ok(types)
}

/// The named types that rows may use.
pub fn sample(alloc: Global) -> Result<TypeTable, AllocError>
    ensures { IfOk result (λ types. length types < 2 ^ 32) }
{
    let types = named(alloc)?;
    with_levels(alloc, types)
}
