//! The lines of state blocks: arguments, rows of machine states, entries of abstract states.

ghost use Rattle.std.specs.Prelude.{◌≡◌, ◌<◌, ◌+◌, ◌*◌, ◌==◌, ◌++◌, [], true, map, length, All, IfOk, OnOk};
ghost use Rattle.std.specs.List.{flat_map, list_all, prefix_len};
ghost use Rattle.std.specs.Option.{option_copied};
ghost use Rattle.std.specs.Char.{is_ascii_digit};
ghost use Rattle.std.specs.Fmt.{decimal};
ghost use Rattle.hk_rows.specs.Texts.{is_plain, needs_quotes, escaped, quoted, name_text, hex_digits};
ghost use Rattle.spec_tree.specs.Sorted.{IsSize, IsNest, key_sizes};
ghost use Rattle.spec_tree.specs.View.{view_key};
ghost use Rattle.hk_cert_lines.specs.Shown.{Says};
ghost use Rattle.hk_cert_lines.specs.Blocks as definition;
ghost use Rattle.hk_cert_lines.specs.Blocks.{Tells};

use crate::reason::CertReason;
use crate::shown::LineStop;
use crate::words::{behind, is_decimal, number_of_width};
use hk_cnf::text::natural;
use itoa::Buffer;
use spec_tree::Sort;
use spec_value::place;
use std::alloc::{AllocError, Global};

/// What follows a text at the front of what is left.
fn behind_in<'t>(front: &[u8], rest: Option<&'t [u8]>) -> Option<&'t [u8]>
    ensures { option_copied result ≡ definition.behind_in front.now (option_copied rest.entry) }
{
    match rest {
        None => None,
        Some(rest) => behind(front, rest),
    }
}

/// How many digits stand at the front.
fn digits_len(rest: &[u8]) -> usize
    ensures { result ≡ prefix_len is_ascii_digit rest.now }
{
    rest.iter().take_while(|byte| byte.is_ascii_digit()).count()
}

/// The digits at the front, and what follows them.
fn split_digits(rest: &[u8]) -> (&[u8], &[u8])
    ensures digits { result.0.now ≡ definition.digits_of rest.now }
    ensures behind { result.1.now ≡ definition.behind_digits rest.now }
{
    rest.split_at(digits_len(rest))
}

/// What follows a number in decimal at the front of what is left.
fn behind_number<'t>(number: u64, rest: Option<&'t [u8]>) -> Option<&'t [u8]>
    ensures { option_copied result ≡ definition.behind_in (decimal number) (option_copied rest.entry) }
{
    let mut buffer = Buffer::new();
    behind_in(buffer.format(number).as_bytes(), rest)
}

/// The number of a parameter, where the line is of it.
fn arg_number(width: u32, word: Option<&[u8]>) -> Result<u64, CertReason>
    ensures { result ≡ definition.arg_number width (option_copied word.entry) }
{
    match word {
        None => Err(CertReason::Q1),
        Some(word) => number_of_width(width, word),
    }
}

/// What a line says of the parameter with this place, counted from 0, which has this width in bits: `Q1` where it is not spelled or of
/// another parameter, else `Q2` where the number is too wide.
pub fn arg_at(k: u64, width: u32, line: &[u8]) -> Result<u64, CertReason>
    ensures { result ≡ definition.arg_at k width line.now }
{
    arg_number(
        width,
        behind_in(b" = ", behind_number(k, behind(b"  arg ", line))),
    )
}

/// What follows the name of a global, which is shown so, where a line is a row of it.
pub fn row_front<'t>(shown: &[u8], line: &'t [u8]) -> Option<&'t [u8]>
    ensures { option_copied result ≡ definition.row_front shown.now line.now }
{
    behind_in(b"+", behind_in(shown, behind(b"  @", line)))
}

/// Whether a byte is a hexadecimal digit in lower case.
fn is_hex_digit(byte: u8) -> bool
    ensures { result ≡ definition.is_hex_digit byte }
{
    byte.is_ascii_digit() || (b'a' <= byte && byte <= b'f')
}

/// Whether all bytes are hexadecimal digits in lower case.
fn are_hex_digits(word: &[u8]) -> bool
    ensures { result ≡ list_all definition.is_hex_digit word.now }
{
    word.iter().all(|byte| is_hex_digit(*byte))
}

/// Whether a word writes bytes in lower case hexadecimal, one at least.
fn is_hex(word: &[u8]) -> bool
    ensures { result ≡ definition.is_hex word.now }
{
    are_hex_digits(word) && !word.is_empty() && word.len() % 2 == 0
}

/// Whether all digits are 0.
fn is_zero(word: &[u8]) -> bool
    ensures { result ≡ list_all (λ b. b == 48) word.now }
{
    word.iter().all(|byte| *byte == b'0')
}

/// Whether an offset and the digits of a row are spelled, and not all zero.
fn is_row(offset: &[u8], hex: &[u8]) -> bool
    ensures { result ≡ definition.is_row offset.now hex.now }
{
    is_decimal(offset) && is_hex(hex) && !is_zero(hex)
}

/// Whether an object of this size has a row of so many digits at an offset.
fn is_placed(size: u64, offset: u64, hex: &[u8]) -> bool
    ensures { result ≡ definition.is_placed size offset hex.now }
{
    offset % 16 == 0 && offset < size && hex.len() as u64 == 2 * (size - offset).min(16)
}

/// A row at an offset that was found.
fn row_placed<'t>(
    next: u64,
    size: u64,
    hex: &'t [u8],
    offset: Option<u64>,
) -> Result<(u64, &'t [u8]), CertReason>
    ensures { Tells (λ r. (r.0, r.1.now)) result (definition.row_placed next size hex.now offset) }
{
    match offset {
        None => Err(CertReason::Q2),
        Some(offset) => {
            if offset < next {
                Err(CertReason::Q1)
            } else if is_placed(size, offset, hex) {
                Ok((offset, hex))
            } else {
                Err(CertReason::Q2)
            }
        }
    }
}

/// A row, by the word of its offset and what follows it.
fn row_with<'t>(
    next: u64,
    size: u64,
    offset: &[u8],
    hex: Option<&'t [u8]>,
) -> Result<(u64, &'t [u8]), CertReason>
    ensures { Tells (λ r. (r.0, r.1.now)) result (definition.row_with next size offset.now (option_copied hex.entry)) }
{
    match hex {
        None => Err(CertReason::Q1),
        Some(hex) => {
            if is_row(offset, hex) {
                row_placed(next, size, hex, natural(offset, u64::MAX))
            } else {
                Err(CertReason::Q1)
            }
        }
    }
}

/// The offset and the digits of a row, behind the name of its global, of an object of this size in bytes: `Q1` where it is not spelled, all
/// zero, or in front of `next`, else `Q2` where the object has no row of this length at the offset.
pub fn row_at(next: u64, size: u64, rest: &[u8]) -> Result<(u64, &[u8]), CertReason>
    ensures { Tells (λ r. (r.0, r.1.now)) result (definition.row_at next size rest.now) }
{
    let (offset, behind_offset) = split_digits(rest);
    row_with(next, size, offset, behind(b": ", behind_offset))
}

/// The value of a hexadecimal digit; 0 of another byte.
fn hex_value(byte: u8) -> u8
    ensures value { result ≡ definition.hex_value byte }
    ensures small { result < 16 }
{
    if byte.is_ascii_digit() {
        byte - b'0'
    } else if b'a' <= byte && byte <= b'f' {
        byte - 87
    } else {
        0
    }
}

/// The byte that two digits write.
fn hex_byte(high: u8, low: u8) -> u8
    ensures { result ≡ 16 * definition.hex_value high + definition.hex_value low }
{
    16 * hex_value(high) + hex_value(low)
}

/// The byte that the two digits of a place write.
fn byte_at(hex: &[u8], k: usize) -> u8
    requires { 2 * k + 1 < length hex.now }
    ensures { result ≡ definition.hex_byte_at hex.now k }
{
    hex_byte(hex[2 * k], hex[2 * k + 1])
}

/// Adds the bytes that digits write, two for each.
pub fn push_hex(bytes: &mut Vec<u8>, hex: &[u8]) -> Result<(), AllocError>
    ensures { OnOk result (bytes.new.items ≡ bytes.old.items ++ definition.hex_bytes hex.now) }
{
    for k in 0..hex.len() / 2 {
        bytes.push(byte_at(hex, k))?;
    }
    Ok(())
}

/// What follows the name of a field with these keys, where a line is an entry of it.
pub fn entry_front<'t>(name: &[u8], keys: &[Sort], line: &'t [u8]) -> Option<&'t [u8]>
    ensures { option_copied result ≡ definition.entry_front name.now (map view_key keys.now) line.now }
{
    let named = behind_in(name, behind(b"  ", line));
    if keys.is_empty() {
        behind_in(b" = ", named)
    } else {
        behind_in(b"[", named)
    }
}

/// The index that a word writes; one over 64 bits is below no size.
fn index_of(word: &[u8]) -> u64
    ensures { result ≡ definition.index_of word.now }
{
    match natural(word, u64::MAX) {
        Some(index) => index,
        None => u64::MAX,
    }
}

/// What is left in front of an index.
fn opened(first: bool, rest: &[u8]) -> Option<&[u8]>
    ensures { option_copied result ≡ definition.opened first rest.now }
{
    if first {
        Some(rest)
    } else {
        behind(b", ", rest)
    }
}

/// Reads an index for each key, with `, ` between them, and gives what follows `] = ` behind the last, where all are spelled.
fn indices_in<'t>(
    keys: &[Sort],
    line: &'t [u8],
    indices: &mut Vec<u64>,
) -> Result<Option<&'t [u8]>, AllocError>
    ensures { IfOk result (λ found. definition.indices_from indices.old.items true (map view_key keys.now) line.now ≡ definition.closed indices.new.items (option_copied found)) }
{
    let mut first = true;
    let mut rest = line;
    for _key in keys {
        let Some(front) = opened(first, rest) else {
            return Ok(None);
        };
        let (word, after) = split_digits(front);
        if !is_decimal(word) {
            return Ok(None);
        }
        indices.push(index_of(word))?;
        first = false;
        rest = after;
    }
    Ok(behind(b"] = ", rest))
}

/// The indices of an entry of a field with these keys, and what follows them.
fn entry_parts<'t>(
    keys: &[Sort],
    rest: &'t [u8],
    indices: &mut Vec<u64>,
) -> Result<Option<&'t [u8]>, AllocError>
    requires { indices.old.items ≡ [] }
    ensures { IfOk result (λ found. definition.entry_parts (map view_key keys.now) rest.now ≡ definition.closed indices.new.items (option_copied found)) }
{
    if keys.is_empty() {
        return Ok(Some(rest));
    }
    indices_in(keys, rest, indices)
}

/// Whether the number of an entry is spelled, and not 0.
fn is_entry(word: &[u8]) -> bool
    ensures { result ≡ definition.is_entry word.now }
{
    is_decimal(word) && word != b"0".as_slice()
}

/// A number with the place of its entry.
fn with_place(place: u64, number: Result<u64, CertReason>) -> Result<(u64, u64), CertReason>
    ensures { result ≡ definition.with_place place number }
{
    match number {
        Ok(number) => Ok((place, number)),
        Err(reason) => Err(reason),
    }
}

/// An entry at a place that was found.
fn entry_placed(
    next: u64,
    width: u32,
    word: &[u8],
    place: Option<u64>,
) -> Result<(u64, u64), CertReason>
    ensures { result ≡ definition.entry_placed next width word.now place }
{
    match place {
        None => Err(CertReason::Q2),
        Some(place) => {
            if place < next {
                Err(CertReason::Q1)
            } else {
                with_place(place, number_of_width(width, word))
            }
        }
    }
}

/// An entry, by its indices and the word of its number.
fn entry_with(
    next: u64,
    keys: &[Sort],
    width: u32,
    indices: &[u64],
    word: Option<&[u8]>,
) -> Result<(u64, u64), CertReason>
    requires some { All (λ k. IsSize k.size) (map view_key keys.now) }
    requires few { IsNest (key_sizes (map view_key keys.now)) }
    ensures { result ≡ definition.entry_with next (map view_key keys.now) width (definition.closed indices.now (option_copied word.entry)) }
{
    match word {
        None => Err(CertReason::Q1),
        Some(word) => {
            if is_entry(word) {
                entry_placed(next, width, word, place(keys, indices))
            } else {
                Err(CertReason::Q1)
            }
        }
    }
}

/// What is said of a line.
fn said(answer: Result<(u64, u64), CertReason>) -> Result<(u64, u64), LineStop>
    ensures { Says result answer }
{
    match answer {
        Ok(entry) => Ok(entry),
        Err(reason) => Err(LineStop::Reason(reason)),
    }
}

/// The place and the number of an entry, behind the name of its field, of a field with these keys and this width in bits: `Q1` where it is
/// not spelled, zero, or in front of `next`, else `Q2` where the field has no entry at the indices or the number is too wide.
///
/// The conditions are sizes of a field's keys.
pub fn entry_at(
    alloc: Global,
    next: u64,
    keys: &[Sort],
    width: u32,
    rest: &[u8],
) -> Result<(u64, u64), LineStop>
    requires some { All (λ k. IsSize k.size) (map view_key keys.now) }
    requires few { IsNest (key_sizes (map view_key keys.now)) }
    ensures { Says result (definition.entry_at next (map view_key keys.now) width rest.now) }
{
    let mut indices = Vec::new(alloc);
    let word = entry_parts(keys, rest, &mut indices)?;
    said(entry_with(next, keys, width, indices.as_slice(), word))
}

/// Whether a name shows this byte as it is.
fn shows_plain(byte: u8) -> bool
    ensures { result ≡ is_plain byte }
{
    byte.is_ascii_alphanumeric() || byte == b'_' || byte == b'.' || byte == b'-' || byte == b'$'
}

/// Whether a name shows all its bytes as they are.
fn shows_all_plain(name: &[u8]) -> bool
    ensures { result ≡ list_all is_plain name.now }
{
    name.iter().all(|byte| shows_plain(*byte))
}

/// Whether a name has to stand in quotes.
fn wants_quotes(name: &[u8]) -> bool
    ensures { result ≡ needs_quotes name.now }
{
    name.is_empty() || !shows_all_plain(name)
}

/// A byte as two digits of a table, the high one first.
fn digits_in(table: [u8; 16], byte: u8) -> [u8; 2]
    ensures { result ≡ hex_digits table byte }
{
    [table[(byte / 16) as usize], table[(byte % 16) as usize]]
}

/// Adds a byte of a name in quotes.
fn push_escaped(shown: &mut Vec<u8>, byte: u8) -> Result<(), AllocError>
    ensures { OnOk result (shown.new.items ≡ shown.old.items ++ escaped byte) }
{
    if shows_plain(byte) {
        shown.push(byte)?;
        return Ok(());
    }
    let [high, low] = digits_in(*b"0123456789ABCDEF", byte);
    shown.extend_from_slice(&[b'\\', high, low])?;
    Ok(())
}

/// Adds the bytes of a name in quotes.
fn push_all_escaped(shown: &mut Vec<u8>, name: &[u8]) -> Result<(), AllocError>
    ensures { OnOk result (shown.new.items ≡ shown.old.items ++ flat_map escaped name.now) }
{
    for byte in name {
        push_escaped(shown, *byte)?;
    }
    Ok(())
}

/// A name in quotes.
fn quoted_name(alloc: Global, name: &[u8]) -> Result<Vec<u8>, AllocError>
    ensures { IfOk result (λ shown. shown.items ≡ quoted name.now) }
{
    let mut shown = Vec::from_slice(alloc, b"\"")?;
    push_all_escaped(&mut shown, name)?;
    shown.push(b'"')?;
    Ok(shown)
}

/// The name of a global as rows show it.
pub fn shown_name(alloc: Global, name: &[u8]) -> Result<Vec<u8>, AllocError>
    ensures { IfOk result (λ shown. shown.items ≡ name_text name.now) }
{
    if wants_quotes(name) {
        quoted_name(alloc, name)
    } else {
        Vec::from_slice(alloc, name)
    }
}
