//! Names, shapes and functions of small kernels.

use ir_check::check;
use ir_layout::Layout;
use ir_read::read_module;
use spec_kernel::{KernelNames, ValueType};
use std::test::Fail;

/// The bytes of a global that is an integer.
fn bytes_of(names: &KernelNames<'_>, name: &[u8]) -> Option<u32> {
    match names.global(name) {
        Some(global) => names.bytes(names.shape(global)),
        None => None,
    }
}

/// The number of elements of a global that is an array, and their stride in bytes.
fn elements_of(names: &KernelNames<'_>, name: &[u8]) -> Option<(u64, u64)> {
    let elements = names.elements(names.shape(names.global(name)?))?;
    Some((elements.count, elements.stride))
}

/// Where a field of an element of a global stands in it, and its bytes where it is an integer.
fn field_of(names: &KernelNames<'_>, name: &[u8], field: u64) -> Option<(u64, Option<u32>)> {
    let elements = names.elements(names.shape(names.global(name)?))?;
    let part = names.part(elements.shape, field)?;
    Some((part.offset, names.bytes(part.shape)))
}

/// Whether the function of a name has a body and so many parameters.
fn has_body_with(names: &KernelNames<'_>, name: &[u8], parameters: usize) -> bool {
    match names.function(name) {
        Some(function) => names.has_body_with(function, parameters),
        None => false,
    }
}

/// Whether the function of a name takes or gives a pointer.
fn has_address(names: &KernelNames<'_>, name: &[u8]) -> bool {
    match names.function(name) {
        Some(function) => names.has_address(function),
        None => false,
    }
}

/// Whether the function of a name can be a hook.
fn is_hook(names: &KernelNames<'_>, name: &[u8]) -> bool {
    match names.function(name) {
        Some(function) => names.is_void_declared(function),
        None => false,
    }
}

/// Whether the globals of the text below are where they should be.
fn are_found(names: &KernelNames<'_>) -> bool {
    names.globals() == 3
        && names.global(b"n") == Some(0)
        && names.global(b"p") == Some(2)
        && names.global(b"s").is_none()
}

/// Whether integers and arrays of the text below are walked as they should be.
fn are_walked(names: &KernelNames<'_>) -> bool {
    bytes_of(names, b"n") == Some(4)
        && bytes_of(names, b"t").is_none()
        && elements_of(names, b"t") == Some((4, 24))
        && elements_of(names, b"n").is_none()
}

/// Whether fields of the text below stand where they should.
fn are_placed(names: &KernelNames<'_>) -> bool {
    field_of(names, b"t", 0) == Some((0, Some(1)))
        && field_of(names, b"t", 1) == Some((8, Some(8)))
        && field_of(names, b"t", 2) == Some((16, None))
        && field_of(names, b"t", 3).is_none()
        && field_of(names, b"p", 1) == Some((1, Some(4)))
}

const GLOBALS: &[u8] =
    b"%s = type { i8, i64, [3 x i16] }\n@n = global i32 0\n@t = constant [4 x %s] zeroinitializer\n@p = global [2 x <{ i8, i32 }>] zeroinitializer\n";

#[test]
fn globals_are_found_and_walked(rt: HostRuntime) -> Result<(), Fail> {
    let alloc = rt.alloc();
    let kernel = read_module(alloc, GLOBALS)?;
    let layout = Layout::of(alloc, &kernel)?;
    let checked = check(alloc, kernel)?;
    let names = KernelNames::of(alloc, &checked, &layout)?;
    assert!(rt; are_found(&names));
    assert!(rt; are_walked(&names));
    assert!(rt; are_placed(&names));
    Ok(())
}

/// Whether functions of the text below are asked for bodies as they should be.
fn have_bodies(names: &KernelNames<'_>) -> bool {
    names.function(b"f") == Some(2)
        && names.function(b"x").is_none()
        && has_body_with(names, b"f", 2)
        && !has_body_with(names, b"f", 3)
        && !has_body_with(names, b"hook", 0)
}

/// Whether functions of the text below are asked for pointers and hooks as they should be.
fn are_asked(names: &KernelNames<'_>) -> bool {
    !has_address(names, b"f")
        && has_address(names, b"g")
        && has_address(names, b"h")
        && is_hook(names, b"hook")
        && !is_hook(names, b"number")
        && !is_hook(names, b"g")
}

/// Whether the types of the function `f` of the text below are what they should be.
fn are_typed(names: &KernelNames<'_>) -> bool {
    match names.function(b"f") {
        Some(place) => {
            names.parameters(place) == [ValueType::Int(32), ValueType::Int(8)].as_slice()
                && names.result_type(place) == Some(ValueType::Int(32))
        }
        None => false,
    }
}

const FUNCTIONS: &[u8] =
    b"declare void @hook()\ndeclare i32 @number()\ndefine i32 @f(i32 %a, i8 %b) {\ncall void @hook()\nret i32 %a\n}\ndefine void @g(ptr %p) {\nret void\n}\ndefine ptr @h() {\nret ptr null\n}\n";

#[test]
fn functions_are_asked(rt: HostRuntime) -> Result<(), Fail> {
    let alloc = rt.alloc();
    let kernel = read_module(alloc, FUNCTIONS)?;
    let layout = Layout::of(alloc, &kernel)?;
    let checked = check(alloc, kernel)?;
    let names = KernelNames::of(alloc, &checked, &layout)?;
    assert!(rt; have_bodies(&names));
    assert!(rt; are_asked(&names));
    assert!(rt; are_typed(&names));
    Ok(())
}
