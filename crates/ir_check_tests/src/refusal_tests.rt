//! Texts made by hand from the rules, with the line and the reason of the first item that falls.

ghost use Rattle.std.specs.Prelude.{◌<◌, ◌^◌, length};

use ir_ast::{KernelFault, KernelReason, KernelStop};
use ir_check::check;
use ir_read::read_module;
use std::alloc::{AllocError, Global};
use std::test::Fail;

/// The number of a reason that a check gives.
fn number(reason: KernelReason) -> u32 {
    match reason {
        KernelReason::K8 => 8,
        KernelReason::K9 => 9,
        KernelReason::K10 => 10,
        KernelReason::K11 => 11,
        KernelReason::K12 => 12,
        KernelReason::K13 => 13,
        KernelReason::K14 => 14,
        KernelReason::K15 => 15,
        _ => 1,
    }
}

/// The line and the number of the reason of a refusal, (0, 0) for a kernel that is checked, and (99, 99) for a text that is no module.
fn shown(alloc: Global, text: &[u8]) -> (u32, u32)
    requires { length text.now < 2 ^ 31 }
{
    let Ok(kernel) = read_module(alloc, text) else {
        return (99, 99);
    };
    match check(alloc, kernel) {
        Ok(_) => (0, 0),
        Err(KernelStop::Refused(KernelFault { line, reason })) => (line, number(reason)),
        Err(KernelStop::Memory) => (0, 99),
    }
}

#[test]
fn a_name_that_is_not_known_is_named(rt: HostRuntime) -> Result<(), AllocError> {
    let table: [(&[u8], u32, u32); 12] = [
        (b"define i8 @f() {\n%y = add i8 %x, 1\nret i8 %y\n}\n", 2, 8),
        (b"define void @f() {\nbr label %a\n}\n", 2, 8),
        (b"define void @f() {\ncall void @g()\nret void\n}\n", 2, 8),
        (
            b"declare void @g()\ndefine void @f() {\ncall void @g()\nret void\n}\n",
            0,
            0,
        ),
        (
            b"declare i8 @g()\ndefine void @f() {\n%x = call i8 @g()\nret void\n}\n",
            3,
            8,
        ),
        (
            b"define i8 @g() {\nret i8 1\n}\ndefine void @f() {\n%x = call i8 @g()\nret void\n}\n",
            0,
            0,
        ),
        (
            b"@a = global i8 0\ndeclare void @llvm.memset.p0.i64(ptr, i8, i64, i1)\ndefine void @f() {\ncall void @llvm.memset.p0.i64(ptr @a, i8 0, i64 1, i1 false)\nret void\n}\n",
            4,
            8,
        ),
        (
            b"define void @f() {\nstore i8 0, ptr @a\nret void\n}\n",
            2,
            8,
        ),
        (
            b"@a = global i8 0\ndefine void @f() {\nstore i8 0, ptr @a\nret void\n}\n",
            0,
            0,
        ),
        (
            b"@a = global i8 0\ndefine void @f() {\n%x = load i8, ptr @a, !range !0\nret void\n}\n",
            3,
            8,
        ),
        (
            b"@a = global i8 0\ndefine void @f() {\n%x = load i8, ptr @a, !range !0\nret void\n}\n!0 = !{i8 0, i8 2}\n",
            0,
            0,
        ),
        (
            b"define i8 @f() {\n%y = add i8 %x, 300\nret i8 %y\n}\n",
            2,
            8,
        ),
    ];
    for (text, line, reason) in &table {
        assert_eq!(rt; shown(rt.alloc(), text), (*line, *reason));
    }
    Ok(())
}

#[test]
fn a_misfit_is_named(rt: HostRuntime) -> Result<(), AllocError> {
    let table: [(&[u8], u32, u32); 11] = [
        (
            b"define i8 @f() {\n%y = add i8 1, 300\nret i8 %y\n}\n",
            2,
            9,
        ),
        (
            b"define i8 @f() {\n%y = add i8 255, -128\nret i8 %y\n}\n",
            0,
            0,
        ),
        (
            b"define i8 @f() {\n%y = add i8 1, -129\nret i8 %y\n}\n",
            2,
            9,
        ),
        (b"define void @f([2 x i8] %p) {\nret void\n}\n", 1, 9),
        (b"@a = global i8 300\n", 1, 9),
        (b"@a = global i8 -128\n@b = global [2 x i8] c\"ab\"\n", 0, 0),
        (b"@a = global [3 x i8] c\"ab\"\n", 1, 9),
        (
            b"define void @f(i8 %x) {\nswitch i8 %x, label %a [\ni8 1, label %a\ni8 257, label %a\n]\na:\nret void\n}\n",
            2,
            9,
        ),
        (
            b"define void @f(i8 %x) {\nswitch i8 %x, label %a [\ni8 -1, label %a\ni8 255, label %a\n]\na:\nret void\n}\n",
            2,
            9,
        ),
        (
            b"define void @f(i8 %x) {\nbr label %a\na:\n%y = add i8 %x, 1\n%p = phi i8 [ 1, %0 ]\nret void\n}\n",
            5,
            9,
        ),
        (b"define i8 @f(i16 %x) {\nret i8 %x\n}\n", 2, 9),
    ];
    for (text, line, reason) in &table {
        assert_eq!(rt; shown(rt.alloc(), text), (*line, *reason));
    }
    Ok(())
}

#[test]
fn a_function_whose_blocks_or_calls_return_is_named(rt: HostRuntime) -> Result<(), AllocError> {
    let table: [(&[u8], u32, u32); 9] = [
        (
            b"define void @f() {\nbr label %a\na:\nbr label %a\n}\n",
            1,
            10,
        ),
        (b"define void @f() {\nbr label %0\n}\n", 1, 10),
        (
            b"define void @f() {\nret void\na:\nbr label %b\nb:\nbr label %a\n}\n",
            1,
            10,
        ),
        (
            b"define void @f(i1 %c) {\nbr i1 %c, label %a, label %b\na:\nbr label %b\nb:\nret void\n}\n",
            0,
            0,
        ),
        (
            b"define void @f() {\nbr label %b\na:\nret void\nb:\nbr label %a\n}\n",
            0,
            0,
        ),
        (b"define void @f() {\ncall void @f()\nret void\n}\n", 1, 11),
        (
            b"define void @h() {\ncall void @f()\nret void\n}\ndefine void @f() {\ncall void @g()\nret void\n}\ndefine void @g() {\ncall void @f()\nret void\n}\n",
            5,
            11,
        ),
        (
            b"define void @g() {\nret void\n}\ndefine void @f() {\ncall void @g()\ncall void @g()\nret void\n}\n",
            0,
            0,
        ),
        (
            b"define void @f() {\n%x = add i8 %y, 1\nbr label %0\n}\n",
            1,
            10,
        ),
    ];
    for (text, line, reason) in &table {
        assert_eq!(rt; shown(rt.alloc(), text), (*line, *reason));
    }
    Ok(())
}

#[test]
fn a_use_that_a_path_reaches_without_the_definition_is_named(
    rt: HostRuntime,
) -> Result<(), AllocError> {
    let table: [(&[u8], u32, u32); 8] = [
        (
            b"define i8 @f(i1 %c) {\nbr i1 %c, label %a, label %b\na:\n%x = add i8 1, 1\nbr label %b\nb:\nret i8 %x\n}\n",
            7,
            12,
        ),
        (
            b"define i8 @f() {\nbr label %b\na:\nret i8 %x\nb:\n%x = add i8 1, 1\nbr label %a\n}\n",
            0,
            0,
        ),
        (
            b"define i8 @f() {\n%y = add i8 %x, 1\n%x = add i8 1, 1\nret i8 %y\n}\n",
            2,
            12,
        ),
        (
            b"define i8 @f() {\n%x = add i8 %x, 1\nret i8 %x\n}\n",
            2,
            12,
        ),
        (
            b"define i8 @f() {\nret i8 0\na:\nret i8 %x\nb:\n%x = add i8 1, 1\nret i8 %x\n}\n",
            0,
            0,
        ),
        (
            b"define i8 @f(i1 %c) {\nbr i1 %c, label %a, label %b\na:\n%x = add i8 1, 1\nbr label %j\nb:\nbr label %j\nj:\n%p = phi i8 [ %x, %a ], [ 0, %b ]\nret i8 %p\n}\n",
            0,
            0,
        ),
        (
            b"define i8 @f(i1 %c) {\nbr i1 %c, label %a, label %b\na:\n%x = add i8 1, 1\nbr label %j\nb:\nbr label %j\nj:\n%p = phi i8 [ 0, %a ], [ %x, %b ]\nret i8 %p\n}\n",
            9,
            12,
        ),
        (
            b"define i8 @f() {\nbr label %a\na:\n%p = phi i8 [ %p, %0 ]\nret i8 %p\n}\n",
            4,
            12,
        ),
    ];
    for (text, line, reason) in &table {
        assert_eq!(rt; shown(rt.alloc(), text), (*line, *reason));
    }
    Ok(())
}

#[test]
fn a_pointer_outside_slots_is_named(rt: HostRuntime) -> Result<(), AllocError> {
    let table: [(&[u8], u32, u32); 6] = [
        (b"@a = global ptr null\n", 1, 13),
        (
            b"%t = type { i8, [2 x ptr] }\n@a = global %t zeroinitializer\n",
            2,
            13,
        ),
        (
            b"define void @f(ptr %p) {\n%q = load ptr, ptr %p\nret void\n}\n",
            2,
            13,
        ),
        (
            b"define void @f(ptr %p) {\nstore ptr %p, ptr %p\nret void\n}\n",
            2,
            13,
        ),
        (
            b"define void @f(ptr %p) {\n%s = alloca ptr\nstore ptr %p, ptr %s\n%q = load ptr, ptr %s\nret void\n}\n",
            0,
            0,
        ),
        (b"@a = global { i8, i32 } zeroinitializer\n", 0, 0),
    ];
    for (text, line, reason) in &table {
        assert_eq!(rt; shown(rt.alloc(), text), (*line, *reason));
    }
    Ok(())
}

#[test]
fn arms_that_do_not_meet_the_edges_are_named(rt: HostRuntime) -> Result<(), AllocError> {
    let table: [(&[u8], u32, u32); 12] = [
        (
            b"@a = global i8 0\n@b = global i8 0\ndefine void @swap(i1 %c) {\n%x = load i8, ptr @a\n%y = load i8, ptr @b\nbr i1 %c, label %t, label %j\nt:\nbr label %j\nj:\n%p = phi i8 [ %y, %t ]\n%q = phi i8 [ %x, %t ], [ %y, %0 ]\nstore i8 %p, ptr @a\nstore i8 %q, ptr @b\nret void\n}\n",
            10,
            15,
        ),
        (
            b"define void @f(i8 %x) {\nswitch i8 %x, label %j [\ni8 0, label %j\n]\nj:\n%p = phi i8 [ 1, %0 ], [ 1, %0 ]\nret void\n}\n",
            0,
            0,
        ),
        (
            b"define void @f(i8 %x) {\nswitch i8 %x, label %j [\ni8 0, label %j\n]\nj:\n%p = phi i8 [ 1, %0 ]\nret void\n}\n",
            6,
            15,
        ),
        (
            b"define void @f(i8 %x) {\nswitch i8 %x, label %j [\ni8 0, label %j\n]\nj:\n%p = phi i8 [ 1, %0 ], [ 2, %0 ]\nret void\n}\n",
            6,
            15,
        ),
        (
            b"define void @f(i8 %x) {\nswitch i8 %x, label %j [\ni8 0, label %j\n]\nj:\n%p = phi i8 [ -1, %0 ], [ 255, %0 ]\nret void\n}\n",
            0,
            0,
        ),
        (
            b"define void @f(i8 %x) {\nbr label %j\nj:\n%p = phi i8 [ 1, %0 ], [ 1, %0 ]\nret void\n}\n",
            4,
            15,
        ),
        (
            b"define void @f(i8 %x) {\nbr label %j\nj:\n%p = phi i8 [ 1, %0 ], [ 1, %j ]\nret void\n}\n",
            4,
            15,
        ),
        (
            b"define void @f(i8 %x) {\nret void\nj:\n%p = phi i8 [ 1, %0 ]\nret void\n}\n",
            4,
            15,
        ),
        (
            b"define void @f(i1 %c) {\nbr i1 %c, label %j, label %j\nj:\n%p = phi i1 [ %c, %0 ], [ %c, %0 ]\nret void\n}\n",
            0,
            0,
        ),
        (
            b"define void @f(i8 %x) {\nswitch i8 %x, label %j [\ni8 0, label %j\ni8 1, label %a\n]\na:\nbr label %j\nj:\n%p = phi i8 [ 1, %0 ], [ 2, %a ], [ 1, %0 ]\nret void\n}\n",
            0,
            0,
        ),
        (
            b"define void @f(i8 %x) {\nswitch i8 %x, label %j [\ni8 0, label %j\ni8 1, label %a\n]\na:\nbr label %j\nj:\n%p = phi i8 [ 1, %0 ], [ 2, %a ], [ 2, %a ]\nret void\n}\n",
            9,
            15,
        ),
        (
            b"define void @f(i8 %x) {\nswitch i8 %x, label %j [\ni8 0, label %j\ni8 1, label %a\n]\na:\nbr label %j\nj:\n%p = phi i8 [ 1, %0 ], [ 2, %a ]\nret void\n}\n",
            9,
            15,
        ),
    ];
    for (text, line, reason) in &table {
        assert_eq!(rt; shown(rt.alloc(), text), (*line, *reason));
    }
    Ok(())
}

#[test]
fn the_first_item_is_named_wherever_others_fall(rt: HostRuntime) -> Result<(), AllocError> {
    let table: [(&[u8], u32, u32); 3] = [
        (
            b"define i8 @f() {\nret i8 %x\n}\n@b = global i8 300\n",
            2,
            8,
        ),
        (
            b"@b = global i8 300\ndefine i8 @f() {\nret i8 %x\n}\n",
            1,
            9,
        ),
        (
            b"define i8 @f() {\nret i8 300\n}\ndefine i8 @g() {\nbr label %0\n}\n",
            2,
            9,
        ),
    ];
    for (text, line, reason) in &table {
        assert_eq!(rt; shown(rt.alloc(), text), (*line, *reason));
    }
    Ok(())
}

/// Adds a function that calls the one before it ten times.
fn add_caller(text: &mut Vec<u8>, name: u8, callee: u8) -> Result<(), AllocError> {
    text.extend_from_slice(b"define void @f")?;
    text.push(name)?;
    text.extend_from_slice(b"() {\n")?;
    for _call in 0..10 {
        text.extend_from_slice(b"call void @f")?;
        text.push(callee)?;
        text.extend_from_slice(b"()\n")?;
    }
    text.extend_from_slice(b"ret void\n}\n")
}

/// Functions of which each calls the one before it ten times: their lengths are 1, 21, 221, 2221, 22221, 222221.
fn callers(alloc: Global, names: &[u8]) -> Result<Vec<u8>, AllocError> {
    let mut text = Vec::new(alloc);
    text.extend_from_slice(b"define void @f0() {\nret void\n}\n")?;
    let mut callee = b'0';
    for name in names {
        add_caller(&mut text, *name, callee)?;
        callee = *name;
    }
    Ok(text)
}

#[test]
fn an_expanded_length_over_the_limit_is_named(rt: HostRuntime) -> Result<(), Fail> {
    let table: [(&[u8], u32, u32); 2] = [(b"1234", 0, 0), (b"12345", 56, 14)];
    for (names, line, reason) in &table {
        let text = callers(rt.alloc(), names)?;
        assert!(rt; text.len() < 1_000_000);
        assert_eq!(rt; shown(rt.alloc(), &text), (*line, *reason));
    }
    Ok(())
}
