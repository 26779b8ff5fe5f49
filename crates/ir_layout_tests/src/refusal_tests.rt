//! Texts made by hand from the rules, with the line and the reason of what fails first.

ghost use Rattle.std.specs.Prelude.{◌<◌, ◌^◌, length};

use ir_ast::{KernelFault, KernelReason, KernelStop};
use ir_layout::Layout;
use ir_read::*;
use std::alloc::{AllocError, Global};

/// The number of a reason that a layout gives.
fn number(reason: KernelReason) -> u32 {
    match reason {
        KernelReason::K5 => 5,
        KernelReason::K6 => 6,
        KernelReason::K7 => 7,
        _ => 1,
    }
}

/// The line and the number of the reason of a refusal, (0, 0) for a layout, and (9, 9) for a text that is no module.
fn shown(alloc: Global, text: &[u8]) -> (u32, u32)
    requires { length text.now < 2 ^ 31 }
{
    let Ok(kernel) = read_module(alloc, text) else {
        return (9, 9);
    };
    match Layout::of(alloc, &kernel) {
        Ok(_) => (0, 0),
        Err(KernelStop::Refused(KernelFault { line, reason })) => (line, number(reason)),
        Err(KernelStop::Memory) => (0, 9),
    }
}

#[test]
fn a_name_that_stands_for_no_type_is_named(rt: HostRuntime) -> Result<(), AllocError> {
    let table: [(&[u8], u32, u32); 25] = [
        (b"@a = global %struct.x zeroinitializer", 1, 5),
        (b"%a = type { %b }\n%b = type opaque\n", 1, 5),
        (b"%b = type opaque\n", 0, 0),
        (b"%b = type opaque\n@a = global %b zeroinitializer\n", 2, 5),
        (b"%a = type { ptr, %a }\n", 1, 5),
        (b"%a = type %a\n", 1, 5),
        (b"%a = type [0 x %a]\n", 1, 5),
        (b"%a = type { %b }\n%b = type <{ %a }>\n", 1, 5),
        (b"%c = type { %d }\n%d = type { %d }\n", 1, 5),
        (b"@g = global i8 0\n%a = type %z\n", 2, 5),
        (b"%a = type { %b, %b }\n%b = type i16\n", 0, 0),
        (b"define %x @f() {\nunreachable\n}\n", 1, 5),
        (b"define void @f(%x %p) {\nret void\n}\n", 1, 5),
        (
            b"define void @f() {\n%p = alloca i8\n%v = load %x, ptr %p\nret void\n}\n",
            3,
            5,
        ),
        (
            b"@a = global i8 0\ndefine void @f() {\nstore i8 0, ptr getelementptr (%x, ptr @a, i64 0)\nret void\n}\n",
            3,
            5,
        ),
        (b"@a = global { i8 } { %x 0 }\n", 1, 5),
        (b"!0 = !{%x 0, %x 1}\n", 1, 5),
        (b"@a = global i7 0\n", 1, 5),
        (b"@a = global i1 true\n", 1, 5),
        (b"%t = type { i8, i24 }\n", 0, 0),
        (
            b"%t = type { i8, i24 }\n@a = global %t zeroinitializer\n",
            2,
            5,
        ),
        (b"@a = global [2 x i33] zeroinitializer\n", 1, 5),
        (b"@a = global [4194305 x i7] zeroinitializer\n", 1, 5),
        (b"@a = global { i8 } { i24 0 }\n", 0, 0),
        (b"%a = type { %b }\ntarget datalayout = \"E\"\n", 1, 5),
    ];
    for (text, line, reason) in &table {
        assert_eq!(rt; shown(rt.alloc(), text), (*line, *reason));
    }
    Ok(())
}

#[test]
fn a_size_is_over_its_limit_by_one_byte(rt: HostRuntime) -> Result<(), AllocError> {
    let table: [(&[u8], u32, u32); 15] = [
        (b"@a = global [4194304 x i8] zeroinitializer\n", 0, 0),
        (b"@a = global [4194305 x i8] zeroinitializer\n", 1, 6),
        (
            b"@a = global [4194303 x i8] zeroinitializer\n@b = constant i8 0\n",
            0,
            0,
        ),
        (
            b"@a = global [4194304 x i8] zeroinitializer\n@b = constant i8 0\n",
            2,
            6,
        ),
        (
            b"@a = global [4194305 x i8] zeroinitializer\n@b = global %x zeroinitializer\n",
            1,
            6,
        ),
        (
            b"%t = type [1048576 x i32]\n@a = global %t zeroinitializer\n@b = global [0 x i64] zeroinitializer\n",
            0,
            0,
        ),
        (
            b"%t = type [1048576 x { i32, i8 }]\n@a = global %t zeroinitializer\n",
            2,
            6,
        ),
        (b"%t = type [4294967296 x i8]\n", 0, 0),
        (b"%t = type [4294967297 x i8]\n", 1, 6),
        (b"%t = type [0 x [4294967297 x i8]]\n", 1, 6),
        (b"%t = type [4294967297 x i7]\n", 0, 0),
        (
            b"%t = type [18446744073709551615 x [18446744073709551615 x i64]]\n",
            1,
            6,
        ),
        (
            b"define void @f(ptr %p) {\n%q = getelementptr [4294967296 x i8], ptr %p, i64 0\nret void\n}\n",
            0,
            0,
        ),
        (
            b"define void @f(ptr %p) {\n%q = getelementptr [4294967297 x i8], ptr %p, i64 0\nret void\n}\n",
            2,
            6,
        ),
        (
            b"@a = global [1 x [4194304 x i8]] [ [4194304 x i8] zeroinitializer, [4194304 x i8] zeroinitializer ]\n",
            0,
            0,
        ),
    ];
    for (text, line, reason) in &table {
        assert_eq!(rt; shown(rt.alloc(), text), (*line, *reason));
    }
    Ok(())
}

#[test]
fn a_component_of_a_layout_text_is_left_out(rt: HostRuntime) -> Result<(), AllocError> {
    let table: [(&[u8], u32, u32); 9] = [
        (b"target datalayout = \"E-m:e\"", 1, 7),
        (b"target datalayout = \"E\"", 1, 7),
        (b"target datalayout = \"e-E\"", 1, 7),
        (b"target datalayout = \"-E-\"", 1, 7),
        (b"target datalayout = \"Em\"", 0, 0),
        (b"target datalayout = \"e-mE\"", 0, 0),
        (b"target datalayout = \"\"", 0, 0),
        (b"target datalayout = \"e-\"", 0, 0),
        (
            b"@a = global %x zeroinitializer\ntarget datalayout = \"E\"",
            1,
            5,
        ),
    ];
    for (text, line, reason) in &table {
        assert_eq!(rt; shown(rt.alloc(), text), (*line, *reason));
    }
    Ok(())
}

#[test]
fn a_pointer_component_that_contradicts_the_layout_is_left_out(
    rt: HostRuntime,
) -> Result<(), AllocError> {
    let table: [(&[u8], u32, u32); 24] = [
        (b"target datalayout = \"p:32:32\"", 1, 7),
        (b"target datalayout = \"e-p:32\"", 1, 7),
        (b"target datalayout = \"e-p:320\"", 1, 7),
        (b"target datalayout = \"e-p:3-2\"", 1, 7),
        (b"target datalayout = \"ap:32\"", 0, 0),
        (b"target datalayout = \"e-p:64:64\"", 0, 0),
        (b"target datalayout = \"e-p0:64:64:64\"", 0, 0),
        (b"target datalayout = \"e-p00:064:0064\"", 0, 0),
        (b"target datalayout = \"e-p:64\"", 0, 0),
        (b"target datalayout = \"e-p:64:32\"", 1, 7),
        (b"target datalayout = \"e-p:32:64\"", 1, 7),
        (b"target datalayout = \"e-p0:32:32\"", 1, 7),
        (b"target datalayout = \"e-p00:32:32\"", 1, 7),
        (b"target datalayout = \"e-p:64:64:32\"", 0, 0),
        (b"target datalayout = \"e-p:064:064\"", 0, 0),
        (b"target datalayout = \"e-p:640:64\"", 1, 7),
        (b"target datalayout = \"e-p1:32:32\"", 0, 0),
        (b"target datalayout = \"e-p10:32:32\"", 0, 0),
        (b"target datalayout = \"e-p270:32:32\"", 0, 0),
        (b"target datalayout = \"e-p\"", 0, 0),
        (b"target datalayout = \"e-p:\"", 0, 0),
        (b"target datalayout = \"e-pf:32\"", 0, 0),
        (b"target datalayout = \"e-p:16:16-i32:16-i64:16\"", 1, 7),
        (b"target datalayout = \"e-p0:32:32-i64:16\"", 1, 7),
    ];
    for (text, line, reason) in &table {
        assert_eq!(rt; shown(rt.alloc(), text), (*line, *reason));
    }
    Ok(())
}

#[test]
fn an_integer_component_that_contradicts_the_layout_is_left_out(
    rt: HostRuntime,
) -> Result<(), AllocError> {
    let table: [(&[u8], u32, u32); 23] = [
        (b"target datalayout = \"e-i64:32:64\"", 1, 7),
        (b"target datalayout = \"e-i64:64\"", 0, 0),
        (b"target datalayout = \"e-i64:3\"", 1, 7),
        (b"target datalayout = \"e-i64:16\"", 1, 7),
        (b"target datalayout = \"e-i064:64\"", 0, 0),
        (b"target datalayout = \"e-i064:16\"", 1, 7),
        (b"target datalayout = \"e-i64:064\"", 0, 0),
        (b"target datalayout = \"e-i64:64:128\"", 0, 0),
        (b"target datalayout = \"e-i32:16\"", 1, 7),
        (b"target datalayout = \"e-i32:32\"", 0, 0),
        (b"target datalayout = \"e-i32:64\"", 1, 7),
        (b"target datalayout = \"e-i16:8\"", 1, 7),
        (b"target datalayout = \"e-i16:16:32\"", 0, 0),
        (b"target datalayout = \"e-i8:16\"", 1, 7),
        (b"target datalayout = \"e-i8:8:32\"", 0, 0),
        (b"target datalayout = \"e-i08:8\"", 0, 0),
        (b"target datalayout = \"e-i08:16\"", 1, 7),
        (b"target datalayout = \"e-i1:8:16\"", 0, 0),
        (b"target datalayout = \"e-i128:64\"", 0, 0),
        (b"target datalayout = \"e-i24:8\"", 0, 0),
        (b"target datalayout = \"e-i64\"", 0, 0),
        (b"target datalayout = \"e-i64:\"", 0, 0),
        (b"target datalayout = \"e-i64:16-p:64:64\"", 1, 7),
    ];
    for (text, line, reason) in &table {
        assert_eq!(rt; shown(rt.alloc(), text), (*line, *reason));
    }
    Ok(())
}

#[test]
fn another_component_is_told_by_its_letter(rt: HostRuntime) -> Result<(), AllocError> {
    let table: [(&[u8], u32, u32); 18] = [
        (b"target datalayout = \"e-P1\"", 0, 0),
        (b"target datalayout = \"e-a:0:64\"", 0, 0),
        (b"target datalayout = \"e-a0:0:64\"", 0, 0),
        (b"target datalayout = \"e-a:8\"", 0, 0),
        (b"target datalayout = \"e-a:08\"", 0, 0),
        (b"target datalayout = \"e-a:8:16\"", 0, 0),
        (b"target datalayout = \"e-a:00\"", 0, 0),
        (b"target datalayout = \"e-a:16\"", 1, 7),
        (b"target datalayout = \"e-a:64\"", 1, 7),
        (b"target datalayout = \"e-a0:64:64\"", 1, 7),
        (b"target datalayout = \"e-a:80\"", 1, 7),
        (b"target datalayout = \"e-a:1\"", 1, 7),
        (b"target datalayout = \"e-a\"", 0, 0),
        (b"target datalayout = \"e-f64:16\"", 0, 0),
        (b"target datalayout = \"e-v64:16\"", 0, 0),
        (b"target datalayout = \"e-S16\"", 0, 0),
        (b"target datalayout = \"e-n8:16\"", 0, 0),
        (b"target datalayout = \"e-Fi8\"", 0, 0),
    ];
    for (text, line, reason) in &table {
        assert_eq!(rt; shown(rt.alloc(), text), (*line, *reason));
    }
    Ok(())
}

// The strings of clang 15, 16 and 19 for x86-64, AArch64 and RISC-V 64, and then for msp430, i386, 32-bit ARM, AVR, RISC-V 32, MIPS,
// PowerPC and z/Architecture (`clang --target=..`).
#[test]
fn layouts_of_other_machines_are_left_out(rt: HostRuntime) -> Result<(), AllocError> {
    let table: [(&[u8], u32, u32); 17] = [
        (
            b"target datalayout = \"e-m:e-p270:32:32-p271:32:32-p272:64:64-i64:64-f80:128-n8:16:32:64-S128\"",
            0,
            0,
        ),
        (
            b"target datalayout = \"e-m:e-p270:32:32-p271:32:32-p272:64:64-i64:64-i128:128-f80:128-n8:16:32:64-S128\"",
            0,
            0,
        ),
        (
            b"target datalayout = \"e-m:e-i8:8:32-i16:16:32-i64:64-i128:128-n32:64-S128\"",
            0,
            0,
        ),
        (
            b"target datalayout = \"e-m:e-i8:8:32-i16:16:32-i64:64-i128:128-n32:64-S128-Fn32\"",
            0,
            0,
        ),
        (
            b"target datalayout = \"e-m:e-p:64:64-i64:64-i128:128-n64-S128\"",
            0,
            0,
        ),
        (
            b"target datalayout = \"e-m:e-p:64:64-i64:64-i128:128-n32:64-S128\"",
            0,
            0,
        ),
        (
            b"target datalayout = \"e-m:e-p:16:16-i32:16-i64:16-f32:16-f64:16-a:8-n8:16-S16\"",
            1,
            7,
        ),
        (
            b"target datalayout = \"e-m:e-p:32:32-p270:32:32-p271:32:32-p272:64:64-f64:32:64-f80:32-n8:16:32-S128\"",
            1,
            7,
        ),
        (
            b"target datalayout = \"e-m:e-p:32:32-p270:32:32-p271:32:32-p272:64:64-i128:128-f64:32:64-f80:32-n8:16:32-S128\"",
            1,
            7,
        ),
        (
            b"target datalayout = \"e-m:e-p:32:32-Fi8-i64:64-v128:64:128-a:0:32-n32-S64\"",
            1,
            7,
        ),
        (
            b"target datalayout = \"e-P1-p:16:8-i8:8-i16:8-i32:8-i64:8-f32:8-f64:8-n8-a:8\"",
            1,
            7,
        ),
        (
            b"target datalayout = \"e-m:e-p:32:32-i64:64-n32-S128\"",
            1,
            7,
        ),
        (
            b"target datalayout = \"E-m:m-p:32:32-i8:8:32-i16:16:32-i64:64-n32-S64\"",
            1,
            7,
        ),
        (b"target datalayout = \"E-m:e-p:32:32-i64:64-n32\"", 1, 7),
        (
            b"target datalayout = \"E-m:e-p:32:32-Fn32-i64:64-n32\"",
            1,
            7,
        ),
        (
            b"target datalayout = \"E-m:e-i1:8:16-i8:8:16-i64:64-f128:64-a:8:16-n32:64\"",
            1,
            7,
        ),
        (
            b"target datalayout = \"E-m:e-i1:8:16-i8:8:16-i64:64-f128:64-v128:64-a:8:16-n32:64\"",
            1,
            7,
        ),
    ];
    for (text, line, reason) in &table {
        assert_eq!(rt; shown(rt.alloc(), text), (*line, *reason));
    }
    Ok(())
}
