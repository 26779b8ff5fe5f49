//! The listed intrinsics, by their names (LLVM Language Reference, "Intrinsic Functions").

ghost use Rattle.std.specs.Prelude.{◌≡◌, option_map, flat_map};
ghost use Rattle.ir_type.specs.Names.{entry_of};
ghost use Rattle.ir_typing.specs.Intrinsics.{intrinsic_of, at_widths, overflow_rows, plain_rows};
ghost use Rattle.ir_typing.specs.Registers.{overflows};
ghost use Rattle.ir_typing.specs.Listed.{form_at, view_listed, width_of};

use ir_ast::Name;

/// What an intrinsic takes and gives.
#[derive(Clone, Copy, Debug, PartialEq, Eq)]
pub enum Form {
    /// Two integers; it gives one and whether it overflowed.
    Overflow,
    /// Two integers; it gives one.
    Pair,
    /// An integer and a flag; it gives an integer.
    Flag,
    /// A condition; it gives nothing.
    Assume,
}

/// A listed intrinsic. The width of its integers is in bits.
#[derive(Clone, Copy, Debug, PartialEq, Eq)]
pub struct Listed {
    pub form: Form,
    pub width: u32,
}

/// The width from 1 to 64 that these digits write.
fn width(digits: &[u8]) -> Option<u32>
    ensures { result ≡ width_of digits.now }
{
    match digits {
        [ones] if (b'1'..=b'9').contains(ones) => Some(u32::from(*ones - b'0')),
        [tens, ones] if (b'1'..=b'6').contains(tens) && (b'0'..=b'9').contains(ones) => {
            let width = 10 * u32::from(*tens - b'0') + u32::from(*ones - b'0');
            (width <= 64).then_some(width)
        }
        _ => None,
    }
}

/// The intrinsic of a name that is this word and a width.
fn at_word(name: &[u8], word: &[u8], form: Form) -> Option<Listed>
    ensures { option_map view_listed result ≡ entry_of name.now (at_widths (word.now, form_at form)) }
{
    match name.strip_prefix(word) {
        Some(digits) => match width(digits) {
            Some(width) => Some(Listed { form, width }),
            None => None,
        },
        None => None,
    }
}

/// The intrinsic with overflow of a name.
fn with_overflow(name: &[u8]) -> Option<Listed>
    ensures { option_map view_listed result ≡ entry_of name.now (flat_map at_widths overflow_rows) }
{
    at_word(name, b"llvm.uadd.with.overflow.i", Form::Overflow)
        .or(at_word(name, b"llvm.sadd.with.overflow.i", Form::Overflow))
        .or(at_word(name, b"llvm.usub.with.overflow.i", Form::Overflow))
        .or(at_word(name, b"llvm.ssub.with.overflow.i", Form::Overflow))
        .or(at_word(name, b"llvm.umul.with.overflow.i", Form::Overflow))
        .or(at_word(name, b"llvm.smul.with.overflow.i", Form::Overflow))
}

/// Another intrinsic of a name with a width.
fn with_one_result(name: &[u8]) -> Option<Listed>
    ensures { option_map view_listed result ≡ entry_of name.now (flat_map at_widths plain_rows) }
{
    at_word(name, b"llvm.umin.i", Form::Pair)
        .or(at_word(name, b"llvm.umax.i", Form::Pair))
        .or(at_word(name, b"llvm.smin.i", Form::Pair))
        .or(at_word(name, b"llvm.smax.i", Form::Pair))
        .or(at_word(name, b"llvm.abs.i", Form::Flag))
        .or(at_word(name, b"llvm.expect.i", Form::Pair))
}

/// The listed intrinsic of a name.
pub fn intrinsic(name: &Name) -> Option<Listed>
    ensures { option_map view_listed result ≡ intrinsic_of name.now }
{
    let bytes = name.as_bytes();
    if bytes == b"llvm.assume".as_slice() {
        return Some(Listed {
            form: Form::Assume,
            width: 1,
        });
    }
    match with_overflow(bytes) {
        Some(found) => Some(found),
        None => with_one_result(bytes),
    }
}

/// Whether a call of this name gives a number and an overflow bit.
pub fn is_overflow(name: &Name) -> bool
    ensures { result ≡ overflows (intrinsic_of name.now) }
{
    match intrinsic(name) {
        Some(found) => matches!(found.form, Form::Overflow),
        None => false,
    }
}
