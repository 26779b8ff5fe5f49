//! What a handler works on: the memory of its kernel, and the fields that stand for it.

use crate::random::Random;
use std::alloc::{AllocError, Global};

/// The memory of a kernel and its abstraction.
#[derive(Clone, Copy, PartialEq, Eq)]
pub enum Shape {
    /// Nothing that can be changed.
    Nothing,
    /// A byte, which is a field.
    Byte,
    /// A byte, which is a field, and another field that tells whether it is zero.
    Flagged,
    /// A byte, whose halves are two fields.
    Halves,
    /// A byte, which is a map of numbers of so many bits: 1, 2 or 4.
    Packed(u32),
    /// An array of one byte, which is a map.
    Single,
    /// An array of one structure, which is a map.
    Row,
    /// Two bytes, which are two fields.
    Two,
    /// A structure of two bytes, which are two fields.
    Pair,
    /// An array of two bytes, which is a map.
    Array,
    /// A number of sixteen bits, which is a field.
    Word,
    /// Two bytes, of which one is a field.
    Part,
}

/// A constant table of four numbers.
pub(crate) type Table = [u64; 4];

/// What a handler works on.
#[derive(Clone, Copy)]
pub(crate) struct Scene {
    pub shape: Shape,
    /// The constant table, where there is one.
    pub table: Option<Table>,
    /// What the numbers in memory are to stay below, where there is such a bound.
    pub bound: Option<u64>,
}

/// The width of the numbers that a handler computes with.
pub(crate) fn width_of(shape: Shape) -> u32 {
    match shape {
        Shape::Word => 16,
        _ => 8,
    }
}

/// The width of the numbers that memory holds.
pub(crate) fn cell_width(shape: Shape) -> u32 {
    match shape {
        Shape::Halves => 4,
        Shape::Packed(unit) => unit,
        Shape::Word => 16,
        _ => 8,
    }
}

/// How many numbers a field holds, where it is a map.
pub(crate) fn map_size(shape: Shape) -> Option<u64> {
    match shape {
        Shape::Packed(1) => Some(8),
        Shape::Packed(2) => Some(4),
        Shape::Packed(_) => Some(2),
        Shape::Single => Some(1),
        Shape::Row => Some(1),
        Shape::Array => Some(2),
        _ => None,
    }
}

/// The names of the fields that hold the numbers of memory.
pub(crate) fn fields_of(shape: Shape) -> &'static [&'static str] {
    match shape {
        Shape::Nothing => &[],
        Shape::Halves => &["lo", "hi"],
        Shape::Two => &["a", "b"],
        Shape::Pair => &["a", "b"],
        _ => &["a"],
    }
}

/// The globals of a kernel.
pub(crate) fn globals_of(shape: Shape) -> &'static str {
    match shape {
        Shape::Nothing => "",
        Shape::Single => "@a = global [1 x i8] zeroinitializer\n",
        Shape::Row => "%row = type { i8 }\n@a = global [1 x %row] zeroinitializer\n",
        Shape::Two => "@a = global i8 1\n@b = global i8 2\n",
        Shape::Pair => "%pair = type { i8, i8 }\n@a = global %pair zeroinitializer\n",
        Shape::Array => "@a = global [2 x i8] zeroinitializer\n",
        Shape::Word => "@a = global i16 0\n",
        Shape::Part => "@a = global i8 0\n@b = global i8 7\n",
        _ => "@a = global i8 0\n",
    }
}

/// What the kernel has for the number of a field, at the index `p` where it is a map.
pub(crate) fn path_of(alloc: Global, shape: Shape, field: &str) -> Result<String, AllocError> {
    match shape {
        Shape::Halves if field == "lo" => String::from_str(alloc, "Extract(3, 0, kernel.a)"),
        Shape::Halves => String::from_str(alloc, "Extract(7, 4, kernel.a)"),
        Shape::Packed(unit) => {
            let high = unit.saturating_sub(1);
            format!(in alloc; "Extract({high}, 0, LShR(kernel.a, p * {unit}))")
        }
        Shape::Pair if field == "a" => String::from_str(alloc, "kernel.a.f0"),
        Shape::Pair => String::from_str(alloc, "kernel.a.f1"),
        Shape::Single => String::from_str(alloc, "kernel.a[p]"),
        Shape::Array => String::from_str(alloc, "kernel.a[p]"),
        Shape::Row => String::from_str(alloc, "kernel.a[p].f0"),
        _ => format!(in alloc; "kernel.{field}"),
    }
}

/// How many numbers have so many bits.
pub(crate) fn numbers_of(width: u32) -> u64 {
    if width < 64 { 1 << width } else { u64::MAX }
}

/// A bound for bytes, often one that is the size of the constant table.
fn draw_byte_bound(random: &mut Random) -> u64 {
    if random.once_in(3) {
        4
    } else {
        random.below(250).saturating_add(1)
    }
}

/// A bound for the numbers in memory, or in two of five draws none.
fn draw_bound(shape: Shape, random: &mut Random) -> Option<u64> {
    if shape == Shape::Nothing || random.below(5) < 2 {
        return None;
    }
    match cell_width(shape) {
        1 => Some(1),
        2 => Some(random.below(3).saturating_add(1)),
        4 => Some(random.below(15).saturating_add(1)),
        16 => Some(random.below(3000).saturating_add(1)),
        _ => Some(draw_byte_bound(random)),
    }
}

/// A constant table.
fn draw_table(random: &mut Random) -> Table {
    let first = random.below(256);
    let second = random.below(256);
    let third = random.below(8);
    let fourth = random.below(256);
    [first, second, third, fourth]
}

/// What a handler works on, for the memory of a kernel.
pub(crate) fn draw_scene(shape: Shape, random: &mut Random) -> Scene {
    let bound = draw_bound(shape, random);
    let may_have = width_of(shape) == 8;
    let has_table = may_have && (shape == Shape::Nothing || random.once_in(4));
    let table = if has_table {
        Some(draw_table(random))
    } else {
        None
    };
    Scene {
        shape,
        table,
        bound,
    }
}
