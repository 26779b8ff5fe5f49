//! Lines, words and decimal numbers of a text of bytes, for the readers of clause files and of logs.

ghost use Rattle.std.specs.Prelude.{◌≡◌, ◌<◌, ◌≤◌, ◌+◌, ◌*◌, ◌==◌, not, true, [], ◌∷◌, ◌^◌, length, nat_abs, IfSome, MatchOption};
ghost use Rattle.std.specs.List.{prefix_len};
ghost use Rattle.hk_cnf.specs.Text.{lines_of, words_of, is_blank, natural_of, is_minus, unsigned, number_in, Refuses};
ghost use Rattle.std.specs.Char.{is_ascii_digit, digit_value};

/// How many bytes stand before the first newline.
fn line_len(text: &[u8]) -> usize
    ensures { result ≡ prefix_len (λ b. not (b == 10)) text.now }
{
    text.iter().take_while(|byte| **byte != b'\n').count()
}

/// The first line, without its newline, and what follows it.
pub fn split_line(text: &[u8]) -> (&[u8], &[u8])
    requires { 0 < length text.now }
    ensures lines { lines_of text.now ≡ result.0.now ∷ lines_of result.1.now }
    ensures shorter { length result.1.now < length text.now }
{
    let (line, rest) = text.split_at(line_len(text));
    match rest {
        [] => (line, rest),
        [_, after @ ..] => (line, after),
    }
}

/// Whether the byte separates words: a space or a tab, and where `returns` is set a carriage return.
fn is_blank(byte: u8, returns: bool) -> bool
    ensures { result ≡ is_blank returns byte }
{
    byte == b' ' || byte == b'\t' || (returns && byte == b'\r')
}

/// How many blanks stand at the front.
fn blank_len(text: &[u8], returns: bool) -> usize
    ensures { result ≡ prefix_len (is_blank returns) text.now }
{
    text.iter()
        .take_while(|byte| is_blank(**byte, returns))
        .count()
}

/// How many bytes stand before the first blank.
fn word_len(text: &[u8], returns: bool) -> usize
    ensures { result ≡ prefix_len (λ b. not (is_blank returns b)) text.now }
{
    text.iter()
        .take_while(|byte| !is_blank(**byte, returns))
        .count()
}

/// The first word of a line and what follows it.
pub fn next_word(line: &[u8], returns: bool) -> Option<(&[u8], &[u8])>
    ensures words { MatchOption result (words_of returns line.now ≡ []) (λ split. words_of returns line.now ≡ split.0.now ∷ words_of returns split.1.now) }
    ensures shorter { MatchOption result (Unit {0}) (λ split. length split.1.now < length line.now) }
{
    let rest = line.split_at(blank_len(line, returns)).1;
    if rest.is_empty() {
        return None;
    }
    Some(rest.split_at(word_len(rest, returns)))
}

/// The number with one digit more, if it is at most this one.
fn with_digit(value: u64, byte: u8, most: u64) -> Option<u64>
    ensures { MatchOption result (Refuses value byte most) (λ n. (is_ascii_digit byte ≡ true) × (n ≡ value * 10 + digit_value byte) × (n ≤ most)) }
{
    if !byte.is_ascii_digit() {
        return None;
    }
    let digit = u64::from(byte - b'0');
    if digit > most || value > (most - digit) / 10 {
        return None;
    }
    Some(value * 10 + digit)
}

/// The number that the word writes in decimal digits, if it is at most this one.
pub fn natural(word: &[u8], most: u64) -> Option<u64>
    ensures { result ≡ natural_of most word.now }
{
    if word.is_empty() {
        return None;
    }
    let mut value = 0;
    for byte in word {
        value = with_digit(value, *byte, most)?;
    }
    Some(value)
}

/// Whether a minus stands first.
fn is_minus(word: &[u8]) -> bool
    ensures { result ≡ is_minus word.now }
{
    match word {
        [first, ..] => *first == b'-',
        [] => false,
    }
}

/// The word without a minus that stands first.
pub fn unsigned(word: &[u8]) -> &[u8]
    ensures { result.now ≡ unsigned word.now }
{
    match word {
        [first, rest @ ..] => { if *first == b'-' { rest } else { word } }
        [] => word,
    }
}

/// The number that the word writes with an optional minus, where its size is at most this one.
pub fn number(word: &[u8], most: u64) -> Option<i64>
    requires { most < 2 ^ 63 }
    ensures value { result ≡ number_in most word.now }
    ensures small { IfSome result (λ z. nat_abs z ≤ most) }
{
    let size = natural(unsigned(word), most)? as i64;
    if is_minus(word) {
        Some(-size)
    } else {
        Some(size)
    }
}
