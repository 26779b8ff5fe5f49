//! Lines on a sink. The parts of a line go in; out goes the line in one put, or in pieces of 4,096 bytes where it is
//! longer.
ghost use Rattle.std.specs.Prelude.{◌≡◌, ◌≤◌, ◌<◌, ◌^◌, ◌++◌, ◌∷◌, [], codes, OnOk, OnErr};
ghost use Rattle.std.specs.List.{flat_map, list_all};
ghost use Rattle.std.specs.Fmt.{decimal};
ghost use Rattle.hk_io.specs.Faults.{Rose};
ghost use Rattle.hk_io.specs.Shown.{shown_with, ShowsPrefix};
ghost use Rattle.hk_rows.specs.Lines.{Adds, Fails};
ghost use Rattle.hk_rows.specs.Texts.{is_plain, needs_quotes, escaped, quoted, name_text, hex_text, numbered, indices_text, part_text, line_text, hex_digits};

use arrayvec::ArrayVec;
use hk_io::{Sink, SinkFault};
use itoa::Buffer;

/// The most bytes that one put of a line has.
const PIECE: usize = 4096;

/// A part of a line.
#[derive(Clone, Copy)]
pub enum Part<'a> {
    /// Bytes as they are.
    Text(&'a [u8]),
    /// A number, in decimal.
    Decimal(u64),
    /// A name, in quotes where it is empty or has a byte other than ASCII letters, digits, `_`, `.`, `-` and `$`; each
    /// such byte is `\HH` then, in upper case hexadecimal.
    Name(&'a [u8]),
    /// Bytes in lower case hexadecimal, without spaces.
    Hex(&'a [u8]),
    /// Indices in decimal, in brackets with `, ` between them; nothing where there is none.
    Indices(&'a [u64]),
}

/// Adds a byte to the line under way, whose bytes so far are put first where they fill a piece.
fn add_byte<O: Sink>(out: &mut O, held: &mut ArrayVec<u8, PIECE>, byte: u8) -> Result<(), SinkFault>
    ensures ok { OnOk result (
        Adds (O.shown out.old) (O.shown out.new) (O.faults out.old) (O.faults out.new)
        held.old.items held.new.items (byte ∷ [])) }
    ensures err { OnErr result (
        Fails (O.shown out.old) (O.shown out.new) (O.faults out.old) (O.faults out.new)
        (held.old.items ++ byte ∷ [])) }
{
    if held.is_full() {
        out.put(held.as_slice())?;
        held.clear();
    }
    held.push(byte);
    Ok(())
}

/// Adds bytes to the line under way.
fn add<O: Sink>(out: &mut O, held: &mut ArrayVec<u8, PIECE>, bytes: &[u8]) -> Result<(), SinkFault>
    ensures ok { OnOk result (
        Adds (O.shown out.old) (O.shown out.new) (O.faults out.old) (O.faults out.new)
        held.old.items held.new.items bytes.now) }
    ensures err { OnErr result (
        Fails (O.shown out.old) (O.shown out.new) (O.faults out.old) (O.faults out.new)
        (held.old.items ++ bytes.now)) }
{
    for byte in bytes {
        add_byte(out, held, *byte)?;
    }
    Ok(())
}

/// A byte as two digits of a table, the high one first.
fn digits_of(table: [u8; 16], byte: u8) -> [u8; 2]
    ensures { result ≡ hex_digits table byte }
{
    [table[(byte / 16) as usize], table[(byte % 16) as usize]]
}

/// Whether a name shows this byte as it is.
fn shows_plain(byte: u8) -> bool
    ensures { result ≡ is_plain byte }
{
    byte.is_ascii_alphanumeric() || byte == b'_' || byte == b'.' || byte == b'-' || byte == b'$'
}

/// Whether a name shows all its bytes as they are.
fn shows_all_plain(name: &[u8]) -> bool
    ensures { result ≡ list_all is_plain name.now }
{
    name.iter().all(|byte| shows_plain(*byte))
}

/// Whether a name has to stand in quotes.
fn wants_quotes(name: &[u8]) -> bool
    ensures { result ≡ needs_quotes name.now }
{
    name.is_empty() || !shows_all_plain(name)
}

/// Adds the digits of bytes in lower case hexadecimal.
fn add_hex<O: Sink>(
    out: &mut O,
    held: &mut ArrayVec<u8, PIECE>,
    bytes: &[u8],
) -> Result<(), SinkFault>
    ensures ok { OnOk result (
        Adds (O.shown out.old) (O.shown out.new) (O.faults out.old) (O.faults out.new)
        held.old.items held.new.items (hex_text bytes.now)) }
    ensures err { OnErr result (
        Fails (O.shown out.old) (O.shown out.new) (O.faults out.old) (O.faults out.new)
        (held.old.items ++ (hex_text bytes.now))) }
{
    for byte in bytes {
        add(out, held, &digits_of(*b"0123456789abcdef", *byte))?;
    }
    Ok(())
}

/// Adds a byte of a name in quotes.
fn add_escaped<O: Sink>(
    out: &mut O,
    held: &mut ArrayVec<u8, PIECE>,
    byte: u8,
) -> Result<(), SinkFault>
    ensures ok { OnOk result (
        Adds (O.shown out.old) (O.shown out.new) (O.faults out.old) (O.faults out.new)
        held.old.items held.new.items (escaped byte)) }
    ensures err { OnErr result (
        Fails (O.shown out.old) (O.shown out.new) (O.faults out.old) (O.faults out.new)
        (held.old.items ++ (escaped byte))) }
{
    if shows_plain(byte) {
        return add_byte(out, held, byte);
    }
    let [high, low] = digits_of(*b"0123456789ABCDEF", byte);
    add(out, held, &[b'\\', high, low])
}

/// Adds the bytes of a name in quotes.
fn add_all_escaped<O: Sink>(
    out: &mut O,
    held: &mut ArrayVec<u8, PIECE>,
    name: &[u8],
) -> Result<(), SinkFault>
    ensures ok { OnOk result (
        Adds (O.shown out.old) (O.shown out.new) (O.faults out.old) (O.faults out.new)
        held.old.items held.new.items (flat_map escaped name.now)) }
    ensures err { OnErr result (
        Fails (O.shown out.old) (O.shown out.new) (O.faults out.old) (O.faults out.new)
        (held.old.items ++ (flat_map escaped name.now))) }
{
    for byte in name {
        add_escaped(out, held, *byte)?;
    }
    Ok(())
}

/// Adds a name in quotes.
fn add_quoted<O: Sink>(
    out: &mut O,
    held: &mut ArrayVec<u8, PIECE>,
    name: &[u8],
) -> Result<(), SinkFault>
    ensures ok { OnOk result (
        Adds (O.shown out.old) (O.shown out.new) (O.faults out.old) (O.faults out.new)
        held.old.items held.new.items (quoted name.now)) }
    ensures err { OnErr result (
        Fails (O.shown out.old) (O.shown out.new) (O.faults out.old) (O.faults out.new)
        (held.old.items ++ (quoted name.now))) }
{
    add_byte(out, held, b'"')?;
    add_all_escaped(out, held, name)?;
    add_byte(out, held, b'"')
}

/// Adds a name, in quotes where it needs them.
fn add_name<O: Sink>(
    out: &mut O,
    held: &mut ArrayVec<u8, PIECE>,
    name: &[u8],
) -> Result<(), SinkFault>
    ensures ok { OnOk result (
        Adds (O.shown out.old) (O.shown out.new) (O.faults out.old) (O.faults out.new)
        held.old.items held.new.items (name_text name.now)) }
    ensures err { OnErr result (
        Fails (O.shown out.old) (O.shown out.new) (O.faults out.old) (O.faults out.new)
        (held.old.items ++ (name_text name.now))) }
{
    if wants_quotes(name) {
        add_quoted(out, held, name)
    } else {
        add(out, held, name)
    }
}

/// Adds a number.
fn add_decimal<O: Sink>(
    out: &mut O,
    held: &mut ArrayVec<u8, PIECE>,
    number: u64,
) -> Result<(), SinkFault>
    ensures ok { OnOk result (
        Adds (O.shown out.old) (O.shown out.new) (O.faults out.old) (O.faults out.new)
        held.old.items held.new.items (decimal number)) }
    ensures err { OnErr result (
        Fails (O.shown out.old) (O.shown out.new) (O.faults out.old) (O.faults out.new)
        (held.old.items ++ decimal number)) }
{
    add(out, held, Buffer::new().format(number).as_bytes())
}

/// Adds a text and a number behind it.
fn add_numbered<O: Sink>(
    out: &mut O,
    held: &mut ArrayVec<u8, PIECE>,
    before: &[u8],
    number: u64,
) -> Result<(), SinkFault>
    ensures ok { OnOk result (
        Adds (O.shown out.old) (O.shown out.new) (O.faults out.old) (O.faults out.new)
        held.old.items held.new.items (numbered before.now number)) }
    ensures err { OnErr result (
        Fails (O.shown out.old) (O.shown out.new) (O.faults out.old) (O.faults out.new)
        (held.old.items ++ (numbered before.now number))) }
{
    add(out, held, before)?;
    add_decimal(out, held, number)
}

/// Adds the indices behind the first one.
fn add_later_indices<O: Sink>(
    out: &mut O,
    held: &mut ArrayVec<u8, PIECE>,
    indices: &[u64],
) -> Result<(), SinkFault>
    ensures ok { OnOk result (
        Adds (O.shown out.old) (O.shown out.new) (O.faults out.old) (O.faults out.new)
        held.old.items held.new.items (flat_map (numbered (codes ", ")) indices.now)) }
    ensures err { OnErr result (
        Fails (O.shown out.old) (O.shown out.new) (O.faults out.old) (O.faults out.new)
        (held.old.items ++ (flat_map (numbered (codes ", ")) indices.now))) }
{
    for index in indices {
        add_numbered(out, held, b", ", *index)?;
    }
    Ok(())
}

/// Adds an index and those behind it, in brackets.
fn add_bracketed<O: Sink>(
    out: &mut O,
    held: &mut ArrayVec<u8, PIECE>,
    index: u64,
    indices: &[u64],
) -> Result<(), SinkFault>
    ensures ok { OnOk result (
        Adds (O.shown out.old) (O.shown out.new) (O.faults out.old) (O.faults out.new)
        held.old.items held.new.items (numbered (codes "[") index ++ (flat_map (numbered (codes ", ")) indices.now ++ codes "]"))) }
    ensures err { OnErr result (
        Fails (O.shown out.old) (O.shown out.new) (O.faults out.old) (O.faults out.new)
        (held.old.items ++ (numbered (codes "[") index ++ (flat_map (numbered (codes ", ")) indices.now ++ codes "]")))) }
{
    add_numbered(out, held, b"[", index)?;
    add_later_indices(out, held, indices)?;
    add_byte(out, held, b']')
}

/// Adds indices, in brackets where there is one.
fn add_indices<O: Sink>(
    out: &mut O,
    held: &mut ArrayVec<u8, PIECE>,
    indices: &[u64],
) -> Result<(), SinkFault>
    ensures ok { OnOk result (
        Adds (O.shown out.old) (O.shown out.new) (O.faults out.old) (O.faults out.new)
        held.old.items held.new.items (indices_text indices.now)) }
    ensures err { OnErr result (
        Fails (O.shown out.old) (O.shown out.new) (O.faults out.old) (O.faults out.new)
        (held.old.items ++ (indices_text indices.now))) }
{
    match indices {
        [] => Ok(()),
        [index, later @ ..] => add_bracketed(out, held, *index, later),
    }
}

/// Adds a part.
fn add_part<O: Sink>(
    out: &mut O,
    held: &mut ArrayVec<u8, PIECE>,
    part: &Part,
) -> Result<(), SinkFault>
    ensures ok { OnOk result (
        Adds (O.shown out.old) (O.shown out.new) (O.faults out.old) (O.faults out.new)
        held.old.items held.new.items (part_text part.now)) }
    ensures err { OnErr result (
        Fails (O.shown out.old) (O.shown out.new) (O.faults out.old) (O.faults out.new)
        (held.old.items ++ (part_text part.now))) }
{
    match part {
        Part::Text(text) => add(out, held, text),
        Part::Decimal(number) => add_decimal(out, held, *number),
        Part::Name(name) => add_name(out, held, name),
        Part::Hex(bytes) => add_hex(out, held, bytes),
        Part::Indices(indices) => add_indices(out, held, indices),
    }
}

/// Puts one line: the parts and a newline. It takes no memory.
///
/// A line of at most 4,096 bytes, its newline counted, is one put. A longer one is put in pieces of 4,096 bytes, of
/// which the last may be shorter. After a failed put nothing more is put.
pub fn put_line<O: Sink>(out: &mut O, parts: &[Part]) -> Result<(), SinkFault>
    ensures whole { OnOk result (O.shown out.new ≡ shown_with (O.shown out.old) (line_text parts.now)) }
    ensures cut { OnErr result (ShowsPrefix (O.shown out.old) (O.shown out.new) (line_text parts.now)) }
    ensures failed { OnErr result (Rose (O.faults out.old) (O.faults out.new)) }
    ensures still { OnOk result (O.faults out.new ≡ O.faults out.old) }
    ensures later { O.faults out.old ≤ O.faults out.new }
    ensures fits { O.faults out.new < 2 ^ 64 }
{
    let mut held = ArrayVec::<u8, PIECE>::new();
    for part in parts {
        add_part(out, &mut held, part)?;
    }
    add_byte(out, &mut held, b'\n')?;
    out.put(held.as_slice())
}
