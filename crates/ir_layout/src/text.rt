//! Layout texts (LLVM Language Reference, "Data Layout"): what stands between their `-`.

ghost use Rattle.std.specs.Prelude.{◌≡◌, ◌≤◌, [], length, take_while};
ghost use Rattle.std.specs.Char.{is_ascii_digit};
ghost use Rattle.ir_layout.specs.Texts as definition;
ghost use Rattle.ir_layout.specs.Rules as rules;

/// How many bytes stand before a `-`.
fn dash_run(bytes: &[u8]) -> usize
    ensures value { result ≡ length (take_while definition.is_no_dash bytes.now) }
    ensures within { result ≤ length bytes.now }
{
    bytes.iter().take_while(|byte| !(**byte == b'-')).count()
}

/// How many bytes stand before a `:`.
fn colon_run(bytes: &[u8]) -> usize
    ensures value { result ≡ length (take_while rules.is_no_colon bytes.now) }
    ensures within { result ≤ length bytes.now }
{
    bytes.iter().take_while(|byte| !(**byte == b':')).count()
}

/// How many zeros stand at the front.
fn zero_run(bytes: &[u8]) -> usize
    ensures value { result ≡ length (take_while rules.is_zero_digit bytes.now) }
    ensures within { result ≤ length bytes.now }
{
    bytes.iter().take_while(|byte| **byte == b'0').count()
}

/// How many digits stand at the front.
fn digit_run(bytes: &[u8]) -> usize
    ensures value { result ≡ length (take_while is_ascii_digit bytes.now) }
    ensures within { result ≤ length bytes.now }
{
    bytes
        .iter()
        .take_while(|byte| byte.is_ascii_digit())
        .count()
}

/// The component at the front.
#[tactic(auto, using(crate::proofs::Components::taken))]
fn front(bytes: &[u8]) -> &[u8]
    ensures { result.now ≡ take_while definition.is_no_dash bytes.now }
{
    bytes.split_at(dash_run(bytes)).0
}

/// What stands before the first `:`.
#[tactic(auto, using(crate::proofs::Components::taken))]
fn before_colon(bytes: &[u8]) -> &[u8]
    ensures { result.now ≡ rules.before_colon bytes.now }
{
    bytes.split_at(colon_run(bytes)).0
}

/// What stands behind the first `:`, and nothing where there is none.
#[tactic(auto, using(crate::proofs::Components::past_end))]
fn behind_colon(bytes: &[u8]) -> &[u8]
    ensures { result.now ≡ rules.behind_colon bytes.now }
{
    let end = colon_run(bytes);
    if end < bytes.len() {
        bytes.split_at(end + 1).1
    } else {
        bytes.split_at(bytes.len()).1
    }
}

/// The digits at the front.
#[tactic(auto, using(crate::proofs::Components::taken))]
fn front_digits(bytes: &[u8]) -> &[u8]
    ensures { result.now ≡ rules.front_digits bytes.now }
{
    bytes.split_at(digit_run(bytes)).0
}

/// Digits without the zeros before them.
fn plain_digits(digits: &[u8]) -> &[u8]
    ensures { result.now ≡ rules.plain_digits digits.now }
{
    digits.split_at(zero_run(digits)).1
}

/// Whether the bytes are digits alone.
fn are_digits(bytes: &[u8]) -> bool
    ensures { result ≡ rules.are_digits bytes.now }
{
    digit_run(bytes) == bytes.len()
}

/// Whether digits spell a number that is written without zeros before it.
fn is_number(digits: &[u8], number: &[u8]) -> bool
    ensures { result ≡ rules.is_number digits.now number.now }
{
    plain_digits(digits) == number
}

/// Whether a number stands at the front, and is another one.
fn is_other(number: &[u8], bytes: &[u8]) -> bool
    ensures { result ≡ rules.is_other number.now bytes.now }
{
    let digits = front_digits(bytes);
    !digits.is_empty() && !is_number(digits, number)
}

/// Whether a component of pointers has another size or alignment than 64 in address space 0.
fn contradicts_pointer(space: &[u8], behind: &[u8]) -> bool
    ensures { result ≡ rules.contradicts_pointer space.now behind.now }
{
    is_number(space, b"") && (is_other(b"64", behind) || is_other(b"64", behind_colon(behind)))
}

/// Whether the width is one of 8, 16, 32 and 64.
fn is_used_width(width: &[u8]) -> bool
    ensures { result ≡ rules.is_used_width width.now }
{
    is_number(width, b"8")
        || is_number(width, b"16")
        || is_number(width, b"32")
        || is_number(width, b"64")
}

/// Whether a component of integers has another alignment than their width.
fn contradicts_integer(width: &[u8], behind: &[u8]) -> bool
    ensures { result ≡ rules.contradicts_integer width.now behind.now }
{
    is_used_width(width) && is_other(plain_digits(width), behind)
}

/// Whether a component of aggregates has another alignment than 0 and 8.
fn contradicts_aggregate(behind: &[u8]) -> bool
    ensures { result ≡ rules.contradicts_aggregate behind.now }
{
    is_other(b"", behind) && is_other(b"8", behind)
}

/// Whether a component contradicts the layout that is used: its first byte, the digits behind it, and what stands behind its first `:`.
fn contradicts_by(letter: u8, digits: &[u8], behind: &[u8]) -> bool
    ensures { result ≡ rules.contradicts_by letter digits.now behind.now }
{
    if letter == b'p' {
        contradicts_pointer(digits, behind)
    } else if letter == b'i' {
        contradicts_integer(digits, behind)
    } else {
        letter == b'a' && contradicts_aggregate(behind)
    }
}

/// Whether a component contradicts the layout that is used.
fn contradicts(component: &[u8]) -> bool
    ensures { result ≡ rules.contradicts component.now }
{
    match component {
        [letter, rest @ ..] => {
            let digits = before_colon(rest);
            are_digits(digits) && contradicts_by(*letter, digits, behind_colon(rest))
        }
        [] => false,
    }
}

/// Whether a component that is left out begins here.
fn is_bad_here(rest: &[u8]) -> bool
    ensures { result ≡ definition.is_bad_here rest.now }
{
    let component = front(rest);
    component == b"E".as_slice() || contradicts(component)
}

/// Whether one begins behind one of these bytes.
fn is_bad_behind(bytes: &[u8]) -> bool
    ensures { result ≡ definition.is_bad_behind bytes.now }
{
    for (place, byte) in bytes.iter().enumerate() {
        if *byte == b'-' && is_bad_here(&bytes[place + 1..]) {
            return true;
        }
    }
    false
}

/// Whether a layout text asks for big endian numbers, or for other sizes and alignments than those that are used: of pointers in address
/// space 0, of integers of 8, 16, 32 and 64 bits, and of aggregates.
pub fn has_bad_component(bytes: &[u8]) -> bool
    ensures { result ≡ definition.has_bad_component bytes.now }
{
    is_bad_here(bytes) || is_bad_behind(bytes)
}
