//! Texts made by hand from the rules, with what their layouts answer.

ghost use Rattle.std.specs.Prelude.{◌<◌, ◌^◌, length};

use ir_ast::KernelStop;
use ir_layout::{KMemory, Layout};
use ir_read::*;
use std::alloc::Global;
use std::test::Fail;

/// The size and the alignment of the last global's type, and of its object.
fn sizes(alloc: Global, text: &[u8]) -> Result<(u64, u64, u64, u64), KernelStop>
    requires { length text.now < 2 ^ 31 }
{
    let kernel = read_module(alloc, text)?;
    let layout = Layout::of(alloc, &kernel)?;
    let mut found = (9, 9, 9, 9);
    for object in 0..layout.objects() {
        if object < kernel.globals.len() {
            let over = &kernel.globals.at(object).over;
            found = (
                layout.size_of(over),
                layout.align_of(over),
                layout.object_size(object),
                layout.object_align(object),
            );
        }
    }
    Ok(found)
}

#[test]
fn sizes_and_alignments_are_those_of_the_rules(rt: HostRuntime) -> Result<(), Fail> {
    let table: [(&[u8], (u64, u64, u64, u64)); 22] = [
        (b"@g = global i8 0", (1, 1, 1, 1)),
        (b"@g = global i16 0", (2, 2, 2, 2)),
        (b"@g = global i32 0", (4, 4, 4, 4)),
        (b"@g = global i64 0", (8, 8, 8, 8)),
        (b"@g = global ptr null", (8, 8, 8, 8)),
        (
            b"@g = global { i8, i64, i16 } zeroinitializer",
            (24, 8, 24, 8),
        ),
        (
            b"@g = global <{ i8, i64, i16 }> zeroinitializer",
            (11, 1, 11, 1),
        ),
        (
            b"@g = global { i32, [4 x i32] } zeroinitializer",
            (20, 4, 20, 4),
        ),
        (
            b"@g = global [4 x { i32, [4 x i32] }] zeroinitializer",
            (80, 4, 80, 4),
        ),
        (
            b"@g = global [3 x { i64, i8 }] zeroinitializer",
            (48, 8, 48, 8),
        ),
        (
            b"@g = global { i8, <{ i8, i32 }>, i16 } zeroinitializer",
            (8, 2, 8, 2),
        ),
        (b"@g = global { } zeroinitializer", (0, 1, 0, 1)),
        (b"@g = global [0 x i64] zeroinitializer", (0, 8, 0, 8)),
        (
            b"@g = global { [0 x i64], i8 } zeroinitializer",
            (8, 8, 8, 8),
        ),
        (
            b"@g = global { i8, { i8, i16 }, i8 } zeroinitializer",
            (8, 2, 8, 2),
        ),
        (b"@g = global i8 0, align 16", (1, 1, 1, 16)),
        (b"@g = global i8 0, align 0", (1, 1, 1, 1)),
        (b"@g = global i32 0, align 1", (4, 4, 4, 1)),
        (b"%t = type i32\n@g = global %t 0", (4, 4, 4, 4)),
        (
            b"%a = type %b\n%b = type %c\n%c = type { i8, i32 }\n@g = global [2 x %a] zeroinitializer",
            (16, 4, 16, 4),
        ),
        (
            b"%c = type { i8, %b }\n%b = type <{ i16, %a }>\n%a = type { i8 }\n@g = global %c zeroinitializer",
            (4, 1, 4, 1),
        ),
        (
            b"@f = global i64 0\n@g = constant { i16, [3 x i8] } zeroinitializer",
            (6, 2, 6, 2),
        ),
    ];
    for (text, expected) in &table {
        assert_eq!(rt; sizes(rt.alloc(), text)?, *expected);
    }
    Ok(())
}

/// Where a field of the last global's type stands.
fn offset(alloc: Global, text: &[u8], field: u32) -> Result<u64, KernelStop>
    requires { length text.now < 2 ^ 31 }
{
    let kernel = read_module(alloc, text)?;
    let layout = Layout::of(alloc, &kernel)?;
    let mut found = 99;
    for place in 0..kernel.globals.len() {
        found = layout.field_offset(&kernel.globals.at(place).over, field);
    }
    Ok(found)
}

#[test]
fn fields_stand_where_the_rules_say(rt: HostRuntime) -> Result<(), Fail> {
    let table: [(&[u8], u32, u64); 15] = [
        (b"@g = global { i8, i64, i16 } zeroinitializer", 0, 0),
        (b"@g = global { i8, i64, i16 } zeroinitializer", 1, 8),
        (b"@g = global { i8, i64, i16 } zeroinitializer", 2, 16),
        (b"@g = global <{ i8, i64, i16 }> zeroinitializer", 1, 1),
        (b"@g = global <{ i8, i64, i16 }> zeroinitializer", 2, 9),
        (b"@g = global { i8, i16, i8, i32 } zeroinitializer", 1, 2),
        (b"@g = global { i8, i16, i8, i32 } zeroinitializer", 2, 4),
        (b"@g = global { i8, i16, i8, i32 } zeroinitializer", 3, 8),
        (
            b"@g = global { i8, <{ i8, i32 }>, i16 } zeroinitializer",
            1,
            1,
        ),
        (
            b"@g = global { i8, <{ i8, i32 }>, i16 } zeroinitializer",
            2,
            6,
        ),
        (
            b"%t = type { i32, [4 x i32] }\n@g = global %t zeroinitializer",
            1,
            4,
        ),
        (
            b"%a = type %b\n%b = type %c\n%c = type { i8, i32 }\n@g = global %a zeroinitializer",
            1,
            4,
        ),
        (
            b"%c = type <{ i8, i32 }>\n%b = type %c\n%a = type %b\n@g = global %a zeroinitializer",
            1,
            1,
        ),
        (
            b"%a = type { i8, %b, i8 }\n%b = type { i16, i8 }\n@g = global %a zeroinitializer",
            1,
            2,
        ),
        (
            b"%a = type { i8, %b, i8 }\n%b = type { i16, i8 }\n@g = global %a zeroinitializer",
            2,
            6,
        ),
    ];
    for (text, field, expected) in &table {
        assert_eq!(rt; offset(rt.alloc(), text, *field)?, *expected);
    }
    Ok(())
}

/// Whether the first object begins with these bytes alone.
fn begins(alloc: Global, text: &[u8], expected: &[u8]) -> Result<bool, KernelStop>
    requires { length text.now < 2 ^ 31 }
{
    let kernel = read_module(alloc, text)?;
    let layout = Layout::of(alloc, &kernel)?;
    let memory = KMemory::initial(alloc, &layout)?;
    if memory.objects() == 0 {
        return Ok(false);
    }
    Ok(memory.bytes(0) == expected)
}

#[test]
fn objects_have_their_initial_bytes(rt: HostRuntime) -> Result<(), Fail> {
    let table: [(&[u8], &[u8]); 18] = [
        (b"@a = global i32 258", b"\x02\x01\x00\x00"),
        (b"@a = global i8 -1", b"\xff"),
        (b"@a = global i16 -2", b"\xfe\xff"),
        (
            b"@a = global i64 -9223372036854775808",
            b"\x00\x00\x00\x00\x00\x00\x00\x80",
        ),
        (
            b"@a = global i64 18446744073709551615",
            b"\xff\xff\xff\xff\xff\xff\xff\xff",
        ),
        (b"@a = global [3 x i8] c\"a\\00b\"", b"a\x00b"),
        (
            b"@a = global [2 x i16] [ i16 1, i16 -1 ]",
            b"\x01\x00\xff\xff",
        ),
        (
            b"@a = global { i8, i16, i8 } { i8 -1, i16 258, i8 1 }",
            b"\xff\x00\x02\x01\x01\x00",
        ),
        (
            b"@a = global <{ i8, i16 }> <{ i8 7, i16 -2 }>",
            b"\x07\xfe\xff",
        ),
        (
            b"%t = type { i8, i32 }\n@a = global [2 x %t] [ %t { i8 1, i32 2 }, %t zeroinitializer ]",
            b"\x01\x00\x00\x00\x02\x00\x00\x00\x00\x00\x00\x00\x00\x00\x00\x00",
        ),
        (
            b"@a = global { i32, { i8, i16 }, i8 } { i32 1, { i8, i16 } { i8 2, i16 3 }, i8 4 }",
            b"\x01\x00\x00\x00\x02\x00\x03\x00\x04\x00\x00\x00",
        ),
        (b"@a = global { } { }", b""),
        (b"@a = global [0 x i8] zeroinitializer", b""),
        (b"@a = global [3 x i8] zeroinitializer", b"\x00\x00\x00"),
        (b"@a = global [2 x i8] c\"abcdef\"", b"ab"),
        (b"@a = global i8 300", b"\x2c"),
        (
            b"@a = global [1 x i16] [ i16 1, i16 2, i16 3 ]",
            b"\x01\x00",
        ),
        (
            b"@a = global { i8, i32 } { i8 1 }",
            b"\x01\x00\x00\x00\x00\x00\x00\x00",
        ),
    ];
    for (text, expected) in &table {
        assert!(rt; begins(rt.alloc(), text, expected)?);
    }
    Ok(())
}

/// Whether the first object is constant.
fn is_constant(alloc: Global, text: &[u8]) -> Result<bool, KernelStop>
    requires { length text.now < 2 ^ 31 }
{
    let kernel = read_module(alloc, text)?;
    let layout = Layout::of(alloc, &kernel)?;
    Ok(0 < layout.objects() && layout.is_constant(0))
}

#[test]
fn a_constant_is_told_from_a_global(rt: HostRuntime) -> Result<(), Fail> {
    assert!(rt; is_constant(rt.alloc(), b"@a = constant i8 1")?);
    assert!(rt; !is_constant(rt.alloc(), b"@a = global i8 1")?);
    Ok(())
}
