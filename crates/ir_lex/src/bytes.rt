//! The bytes of a kernel text by what they may begin or go on with.

ghost use Rattle.std.specs.Prelude.{◌≡◌, ◌<◌, ◌≤◌, length, take_while, IsTrue};
ghost use Rattle.std.specs.Char.{is_ascii_digit};
ghost use Rattle.ir_lex.specs.Bytes as definition;

/// A space, a tab or a carriage return.
pub fn is_blank(byte: u8) -> bool
    ensures { result ≡ definition.is_blank byte }
{
    byte == b' ' || byte == b'\t' || byte == b'\r'
}

/// A letter, `_` or `$`.
pub fn is_letter(byte: u8) -> bool
    ensures { result ≡ definition.is_letter byte }
{
    byte.is_ascii_alphabetic() || byte == b'_' || byte == b'$'
}

/// A letter, `_`, `$`, a digit, `.` or `-`.
pub fn is_name_byte(byte: u8) -> bool
    ensures { result ≡ definition.is_name_byte byte }
{
    is_letter(byte) || byte.is_ascii_digit() || byte == b'.' || byte == b'-'
}

/// A byte that is a mark by itself, but for `!`.
pub fn is_mark_byte(byte: u8) -> bool
    ensures { result ≡ definition.is_mark_byte byte }
{
    byte == b'='
        || byte == b','
        || byte == b'('
        || byte == b')'
        || byte == b'['
        || byte == b']'
        || byte == b'{'
        || byte == b'}'
        || byte == b'<'
        || byte == b'>'
        || byte == b'*'
        || byte == b':'
        || byte == b'|'
}

/// Whether the bytes begin with this one.
pub fn begins_with(byte: u8, bytes: &[u8]) -> bool
    ensures value { result ≡ definition.begins_with byte bytes.now }
    ensures some { IsTrue result → 0 < length bytes.now }
{
    match bytes {
        [first, ..] => *first == byte,
        [] => false,
    }
}

/// How many name bytes stand at the front.
pub fn name_run(bytes: &[u8]) -> usize
    ensures value { result ≡ length (take_while definition.is_name_byte bytes.now) }
    ensures within { result ≤ length bytes.now }
{
    bytes.iter().take_while(|byte| is_name_byte(**byte)).count()
}

/// How many digits stand at the front.
pub fn digit_run(bytes: &[u8]) -> usize
    ensures value { result ≡ length (take_while is_ascii_digit bytes.now) }
    ensures within { result ≤ length bytes.now }
{
    bytes
        .iter()
        .take_while(|byte| byte.is_ascii_digit())
        .count()
}

/// How many bytes stand before the end of the line.
pub fn line_run(bytes: &[u8]) -> usize
    ensures value { result ≡ length (take_while definition.is_in_line bytes.now) }
    ensures within { result ≤ length bytes.now }
{
    bytes.iter().take_while(|byte| **byte != b'\n').count()
}

/// How many bytes stand before a quote or the end of the line.
pub fn string_run(bytes: &[u8]) -> usize
    ensures value { result ≡ length (take_while definition.is_in_string bytes.now) }
    ensures within { result ≤ length bytes.now }
{
    bytes
        .iter()
        .take_while(|byte| !(**byte == b'"' || **byte == b'\n'))
        .count()
}
