//! Lines that are expected of a text, where the rules leave a case open.
//!
//! A line that ends with `*` stands for any line that begins so, and one that ends with `?` for at most one line that begins so. One that ends
//! with letters between braces ends with one of them, and `FRONT!BACK` stands for any line that begins so and does not go on so.

/// What stands behind the first line of a text.
fn behind_line(text: &[u8]) -> &[u8] {
    match text.iter().position(|byte| *byte == b'\n') {
        Some(end) => text.get(end + 1..).unwrap_or(&[]),
        None => &[],
    }
}

/// What stands behind a line that is this one.
fn behind_same<'x>(text: &'x [u8], line: &[u8]) -> Option<&'x [u8]> {
    match text.strip_prefix(line) {
        Some([b'\n', rest @ ..]) => Some(rest),
        _ => None,
    }
}

/// What stands behind a line that begins so.
fn behind_begun<'x>(text: &'x [u8], front: &[u8]) -> Option<&'x [u8]> {
    if text.starts_with(front) {
        Some(behind_line(text))
    } else {
        None
    }
}

/// What stands behind a line that begins so and ends with one of these letters.
fn behind_one_of<'x>(text: &'x [u8], front: &[u8], letters: &[u8]) -> Option<&'x [u8]> {
    match text.strip_prefix(front) {
        Some([letter, b'\n', rest @ ..]) if letters.contains(letter) => Some(rest),
        _ => None,
    }
}

/// What stands behind a line that begins so and does not go on so.
fn behind_other<'x>(text: &'x [u8], front: &[u8], back: &[u8]) -> Option<&'x [u8]> {
    let rest = text.strip_prefix(front)?;
    match behind_same(rest, back) {
        Some(_) => None,
        None => Some(behind_line(rest)),
    }
}

/// What of a text stands behind what a line of the expected ones stands for.
fn behind<'x>(text: &'x [u8], line: &str) -> Option<&'x [u8]> {
    if let Some(front) = line.strip_suffix('*') {
        return behind_begun(text, front.as_bytes());
    }
    if let Some(front) = line.strip_suffix('?') {
        return Some(behind_begun(text, front.as_bytes()).unwrap_or(text));
    }
    if let Some((front, back)) = line.split_once('!') {
        return behind_other(text, front.as_bytes(), back.as_bytes());
    }
    if let Some((front, letters)) = line.split_once('{') {
        return behind_one_of(text, front.as_bytes(), letters.as_bytes());
    }
    behind_same(text, line.as_bytes())
}

/// Whether a text has the lines that are expected, and no others.
pub fn has_lines(text: &[u8], lines: &str) -> bool {
    let mut rest = text;
    for line in lines.lines() {
        match behind(rest, line) {
            Some(left) => rest = left,
            None => return false,
        }
    }
    rest.is_empty()
}
