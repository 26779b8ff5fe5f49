//! The bytes of a specification text by what they may begin or go on with.

ghost use Rattle.std.specs.Prelude.{◌≡◌, ◌<◌, ◌≤◌, length, take_while, IsTrue};
ghost use Rattle.spec_lex.specs.Bytes as definition;

/// A space, a tab or a carriage return.
pub fn is_blank(byte: u8) -> bool
    ensures { result ≡ definition.is_blank byte }
{
    b" \t\r".contains(&byte)
}

/// A letter, a digit or `_`.
pub fn is_word_byte(byte: u8) -> bool
    ensures { result ≡ definition.is_word_byte byte }
{
    byte.is_ascii_alphabetic() || byte.is_ascii_digit() || byte == b'_'
}

/// A mark of one byte.
pub fn is_single(byte: u8) -> bool
    ensures { result ≡ definition.is_single byte }
{
    b"=<>+-*&|^~()[],.:".contains(&byte)
}

/// A mark of two bytes.
fn is_pair(first: u8, next: u8) -> bool
    ensures { result ≡ definition.is_pair first next }
{
    (next == b'=' && b"=!<>".contains(&first)) || (first == next && b"<>".contains(&first))
}

/// Whether the byte makes a mark with the first of these.
pub fn begins_pair(first: u8, rest: &[u8]) -> bool
    ensures value { result ≡ definition.begins (definition.is_pair first) rest.now }
    ensures some { IsTrue result → 0 < length rest.now }
{
    match rest {
        [next, ..] => is_pair(first, *next),
        [] => false,
    }
}

/// How many bytes of a word stand at the front.
pub fn word_run(bytes: &[u8]) -> usize
    ensures value { result ≡ length (take_while definition.is_word_byte bytes.now) }
    ensures within { result ≤ length bytes.now }
{
    bytes.iter().take_while(|byte| is_word_byte(**byte)).count()
}

/// How many blanks stand at the front.
pub fn blank_run(bytes: &[u8]) -> usize
    ensures value { result ≡ length (take_while definition.is_blank bytes.now) }
    ensures within { result ≤ length bytes.now }
{
    bytes.iter().take_while(|byte| is_blank(**byte)).count()
}

/// How many bytes stand before the end of the physical line.
pub fn row_run(bytes: &[u8]) -> usize
    ensures value { result ≡ length (take_while definition.is_in_row bytes.now) }
    ensures within { result ≤ length bytes.now }
{
    bytes.iter().take_while(|byte| **byte != b'\n').count()
}
