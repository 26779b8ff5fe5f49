//! Texts made by hand from the rules, with what one of their instructions becomes.

ghost use Rattle.std.specs.Prelude.{◌<◌, ◌^◌, length};

use hk_seq::Seq;
use ir_ast::KernelStop;
use ir_code::{Act, Base, Input, Move, Program, Span};
use ir_layout::Layout;
use ir_read::read_module;
use ir_resolve::resolve;
use ir_value::Value;
use std::alloc::Global;
use std::test::Fail;

/// What an operand begins with: 100 and the place of a register, 200 and the place of an object, or a number.
fn begun(base: Base) -> u64 {
    match base {
        Base::Register(place) => u64::from(place).wrapping_add(100),
        Base::Constant(Value::Address { object, .. }) => u64::from(object).wrapping_add(200),
        Base::Constant(Value::Number(number)) => number,
        Base::Constant(_) => 300,
        Base::Unknown => 400,
    }
}

/// The bytes of a step, and what its index is.
fn step(by: Move) -> u64 {
    match by {
        Move::Begin { inbounds } => u64::from(inbounds),
        Move::By { each, index, .. } => each.wrapping_mul(1000).wrapping_add(begun(index)),
    }
}

/// The steps, one in each six digits.
fn steps(moves: &[Move]) -> u64 {
    let mut all = 0u64;
    for by in moves {
        all = all.wrapping_mul(1_000_000).wrapping_add(step(*by));
    }
    all
}

fn input(a: &Input) -> (u64, u64) {
    (begun(a.base), steps(a.moves.as_slice()))
}

/// The first span of a range.
fn span(spans: &Option<Seq<Span>>) -> (u64, u64) {
    match spans {
        Some(spans) => match spans.as_slice() {
            [first, ..] => (first.low, first.high),
            _ => (1, 1),
        },
        None => (0, 0),
    }
}

/// An instruction in numbers, of which the first says its kind.
fn told(act: &Act) -> (u64, u64, u64, u64) {
    match act {
        Act::Load {
            bytes,
            align,
            spans,
            ..
        } => {
            let (low, high) = span(spans);
            (u64::from(*bytes), *align, low, high)
        }
        Act::LoadSlot {
            width,
            align,
            slot,
            ..
        } => (10, u64::from(*width), *align, u64::from(*slot)),
        Act::StoreSlot { align, value, slot } => {
            (20, *align, begun(value.base), u64::from(*slot))
        }
        Act::Address { a } => {
            let (base, all) = input(a);
            (30, base, all, 0)
        }
        Act::Call {
            function,
            arguments,
        } => (40, u64::from(*function), arguments.len() as u64, 0),
        Act::Hook { arguments } => (50, arguments.len() as u64, 0, 0),
        Act::WithOverflow {
            signed,
            width,
            a,
            ..
        } => (60, u64::from(*signed), u64::from(*width), begun(a.base)),
        _ => (0, 0, 0, 0),
    }
}

/// An instruction of the first block of the first function.
fn told_at(program: &Program, place: usize) -> (u64, u64, u64, u64) {
    match program.functions.as_slice() {
        [code, ..] => match code.blocks.as_slice() {
            [block, ..] => match block.steps.as_slice().get(place) {
                Some(step) => told(&step.act),
                None => (1, 0, 0, 0),
            },
            _ => (2, 0, 0, 0),
        },
        _ => (3, 0, 0, 0),
    }
}

fn act_of(alloc: Global, text: &[u8], place: usize) -> Result<(u64, u64, u64, u64), KernelStop>
    requires { length text.now < 2 ^ 31 }
{
    let kernel = read_module(alloc, text)?;
    let layout = Layout::of(alloc, &kernel)?;
    let program = resolve(alloc, &kernel, &layout)?;
    Ok(told_at(&program, place))
}

#[test]
fn instructions_become_places_and_sizes(rt: HostRuntime) -> Result<(), Fail> {
    let table: [(&[u8], usize, (u64, u64, u64, u64)); 9] = [
        (
            b"@g = global i32 0\n!0 = !{i32 3, i32 -1}\ndefine i32 @f() {\n%v = load i32, ptr @g, !range !0\nret i32 %v\n}",
            0,
            (4, 4, 3, 4_294_967_295),
        ),
        (
            b"@g = global i64 0\ndefine i64 @f() {\n%v = load i64, ptr @g, align 2\nret i64 %v\n}",
            0,
            (8, 2, 0, 0),
        ),
        (
            b"define i7 @f(i32 %a) {\n%s = alloca i7\nstore i7 -1, ptr %s\n%v = load i7, ptr %s\nret i7 %v\n}",
            1,
            (20, 1, 127, 1),
        ),
        (
            b"define i7 @f(i32 %a) {\n%s = alloca i7\nstore i7 5, ptr %s\n%v = load i7, ptr %s, align 8\nret i7 %v\n}",
            2,
            (10, 7, 8, 1),
        ),
        (
            b"%p = type { i8, [4 x i32] }\n@g = global i8 0\n@h = global [4 x %p] zeroinitializer\ndefine void @f(i64 %i) {\n%a = getelementptr inbounds [4 x %p], ptr @h, i64 0, i64 %i\nret void\n}",
            0,
            (30, 201, 1_080_000_020_100, 0),
        ),
        (
            b"%p = type { i8, [4 x i32] }\n@h = global [4 x %p] zeroinitializer\ndefine void @f(ptr %b, i64 %i) {\n%a = getelementptr %p, ptr %b, i64 0, i32 1, i64 %i\nret void\n}",
            0,
            (30, 100, 20_000_004_001_004_101, 0),
        ),
        (
            b"define void @f() {\ncall void @g(i32 1, i32 2)\nret void\n}\ndeclare void @h()\ndefine void @g(i32 %a, i32 %b) {\nret void\n}",
            0,
            (40, 2, 2, 0),
        ),
        (
            b"define void @f() {\ncall void @h(i32 1)\nret void\n}\ndeclare void @h(i32)",
            0,
            (50, 1, 0, 0),
        ),
        (
            b"define void @f() {\n%p = call { i32, i1 } @llvm.ssub.with.overflow.i32(i32 -1, i32 2)\nret void\n}\ndeclare { i32, i1 } @llvm.ssub.with.overflow.i32(i32, i32)",
            0,
            (60, 1, 32, 4_294_967_295),
        ),
    ];
    for (text, place, expected) in table {
        assert_eq!(rt; act_of(rt.alloc(), text, place)?, expected);
    }
    Ok(())
}
