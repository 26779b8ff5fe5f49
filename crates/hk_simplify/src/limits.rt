//! Orders against numbers: a term is below a number exactly where a part of it is below another one.

ghost use Rattle.std.specs.Prelude.{◌≡◌, ℕ, ◌+◌, ◌*◌, ◌^◌, ◌<◌, ◌≤◌, not, length, nat_lt, if◌then◌else◌, IfSome};
ghost use Rattle.hk_num.specs.Numbers.{sign_extend};
ghost use Rattle.hk_term.specs.Operations.{bit, resize_value, ResizeFits};
ghost use Rattle.hk_term.specs.Shape.{IsWidth, width};
ghost use Rattle.hk_term.specs.Meaning.{Reading, value};
ghost use Rattle.hk_simplify.specs.Forms.{FormFits, form_width, form_value};

use crate::constants::{constant, greatest, number, sized};
use crate::form::Form;
use crate::plain::{binary_number, number_binary};
use crate::structure::resize_of;
use hk_term::{Node, TermId, TermKind, TermResize, Terms};

// Whether a term is less than a number of its width.
pub(crate) fn ult_number(t: &Terms, a: TermId, n: u64) -> Form
    requires term { a < length t.now }
    requires number { n < 2 ^ width t.now a }
    ensures fits { FormFits t.now result }
    ensures width { form_width t.now result ≡ 1 }
    ensures value { (v : Reading) → form_value t.now result v ≡ bit (nat_lt (value t.now a v) n) }
{
    let limit = limit_in(t, a, n);
    below(t, limit.of, limit.number)
}

// Whether a number is less than a term of its width: whether the term is not below the next number.
#[tactic(auto, using(crate::proofs::LimitLaws::next_below))]
pub(crate) fn number_ult(t: &Terms, n: u64, a: TermId) -> Form
    requires term { a < length t.now }
    requires number { n < 2 ^ width t.now a }
    ensures fits { FormFits t.now result }
    ensures width { form_width t.now result ≡ 1 }
    ensures value { (v : Reading) → form_value t.now result v ≡ bit (nat_lt n (value t.now a v)) }
{
    if n == greatest(sized(t, a)) {
        number(1, 0)
    } else {
        let limit = limit_in(t, a, n + 1);
        at_least(t, limit.of, limit.number)
    }
}

// Whether a term is below a number, which its width may not have.
fn below(t: &Terms, x: TermId, n: u64) -> Form
    requires term { x < length t.now }
    requires number { n ≤ 2 ^ width t.now x }
    ensures fits { FormFits t.now result }
    ensures width { form_width t.now result ≡ 1 }
    ensures value { (v : Reading) → form_value t.now result v ≡ bit (nat_lt (value t.now x v) n) }
{
    let most = greatest(sized(t, x));
    if n == 0 {
        number(1, 0)
    } else if n > most {
        number(1, 1)
    } else {
        binary_number(t, TermKind::Ult, x, n)
    }
}

// Whether it is not.
fn at_least(t: &Terms, x: TermId, n: u64) -> Form
    requires term { x < length t.now }
    requires number { n ≤ 2 ^ width t.now x }
    ensures fits { FormFits t.now result }
    ensures width { form_width t.now result ≡ 1 }
    ensures value { (v : Reading) → form_value t.now result v ≡ bit (not (nat_lt (value t.now x v) n)) }
{
    let most = greatest(sized(t, x));
    if n == 0 {
        number(1, 1)
    } else if n > most {
        number(1, 0)
    } else {
        number_binary(t, TermKind::Ult, n - 1, x)
    }
}

// A term, and a number that it is to be below.
#[derive(Clone, Copy, Debug)]
struct Limit {
    of: TermId,
    number: u64,
}

// The part of a term, with its number, that says whether the term is below a number.
fn limit_in(t: &Terms, a: TermId, n: u64) -> Limit
    requires term { a < length t.now }
    requires number { n < 2 ^ width t.now a }
    ensures of { result.of < length t.now }
    ensures number { result.number ≤ 2 ^ width t.now result.of }
    ensures limit { (v : Reading) → nat_lt (value t.now result.of v) result.number ≡ nat_lt (value t.now a v) n }
{
    match (resize_of(t, a), joined_of(t, a)) {
        (Some(made), _) => limit_resized(t, a, n, made.kind, made.of),
        (None, Some(joined)) => limit_joined(t, a, n, joined.upper, joined.lower),
        _ => Limit { of: a, number: n },
    }
}

// The same of a term that is itself a term `x` at another width.
fn limit_resized(t: &Terms, a: TermId, n: u64, kind: TermResize, x: TermId) -> Limit
    requires term { a < length t.now }
    requires number { n < 2 ^ width t.now a }
    requires earlier { x < a }
    requires fits { ResizeFits kind (width t.now x) (width t.now a) }
    requires known { (v : Reading) → value t.now a v ≡ resize_value kind (width t.now x) (width t.now a) (value t.now x v) }
    ensures of { result.of < length t.now }
    ensures number { result.number ≤ 2 ^ width t.now result.of }
    ensures limit { (v : Reading) → nat_lt (value t.now result.of v) result.number ≡ nat_lt (value t.now a v) n }
{
    let w = sized(t, a);
    let u = sized(t, x);
    match kind {
        TermResize::Zero if n <= greatest(u) => Limit { of: x, number: n },
        TermResize::Zero => Limit {
            of: x,
            number: greatest(u) + 1,
        },
        TermResize::Sign => Limit {
            of: x,
            number: limit_of(u, w, n),
        },
        TermResize::Extract { .. } => Limit { of: a, number: n },
    }
}

// The number below which the numbers of width u are whose extensions by copies of the sign to width w are below another.
fn limit_of(u: u32, w: u32, n: u64) -> u64
    requires width { IsWidth u }
    requires wider { u ≤ w }
    requires within { w ≤ 64 }
    requires number { n < 2 ^ w }
    ensures number { result < 2 ^ u }
    ensures limit { (x : ℕ) → x < 2 ^ u → nat_lt x result ≡ nat_lt (sign_extend u w x) n }
{
    let half = greatest(u) / 2 + 1;
    let above = greatest(w) - greatest(u);
    if n <= half {
        n
    } else if n - half <= above {
        half
    } else {
        n - above
    }
}

// The terms of a concatenation.
#[derive(Clone, Copy, Debug)]
struct Joined {
    upper: TermId,
    lower: TermId,
}

// The terms of which a term is the concatenation.
fn joined_of(t: &Terms, a: TermId) -> Option<Joined>
    requires { a < length t.now }
    ensures upper { IfSome result (λ j. j.upper < length t.now) }
    ensures lower { IfSome result (λ j. j.lower < length t.now) }
    ensures width { IfSome result (λ j. width t.now a ≡ width t.now j.upper + width t.now j.lower) }
    ensures total { IfSome result (λ j. width t.now j.upper + width t.now j.lower ≤ 64) }
    ensures value { IfSome result (λ j. (v : Reading) → value t.now a v ≡ value t.now j.upper v * 2 ^ width t.now j.lower + value t.now j.lower v) }
{
    match t.node(a) {
        Node::Binary {
            kind: TermKind::Concat,
            a: upper,
            b: lower,
        } => Some(Joined {
            upper: *upper,
            lower: *lower,
        }),
        _ => None,
    }
}

// The same of a concatenation: by its lower term where the upper one is a constant, else by its upper one where the lower one is
// always, or never, below the lower bits of the number.
fn limit_joined(t: &Terms, a: TermId, n: u64, x: TermId, y: TermId) -> Limit
    requires term { a < length t.now }
    requires number { n < 2 ^ width t.now a }
    requires upper { x < length t.now }
    requires lower { y < length t.now }
    requires width { width t.now a ≡ width t.now x + width t.now y }
    requires total { width t.now x + width t.now y ≤ 64 }
    requires known { (v : Reading) → value t.now a v ≡ value t.now x v * 2 ^ width t.now y + value t.now y v }
    ensures of { result.of < length t.now }
    ensures number { result.number ≤ 2 ^ width t.now result.of }
    ensures limit { (v : Reading) → nat_lt (value t.now result.of v) result.number ≡ nat_lt (value t.now a v) n }
{
    // For the proof: the upper term's width is from 1 to 64, and its number below 2 to it.
    let _w = sized(t, x);
    let u = sized(t, y);
    let parts = parts_of(n, u);
    match (constant(t, x), is_below(t, y, parts.low)) {
        (Some(c), _) => Limit {
            of: y,
            number: limit_behind(c, parts, u),
        },
        (None, Some(less)) => Limit {
            of: x,
            number: limit_before(parts.high, less),
        },
        (None, None) => Limit { of: a, number: n },
    }
}

// The upper and the lower bits of a number.
#[derive(Clone, Copy, Debug)]
struct Parts {
    high: u64,
    low: u64,
}

// The parts of a number, of which the lower one has `u` bits.
fn parts_of(n: u64, u: u32) -> Parts
    requires width { IsWidth u }
    requires less { u < 64 }
    ensures whole { result.high * 2 ^ u + result.low ≡ n }
    ensures low { result.low < 2 ^ u }
    ensures high { result.high < 2 ^ 63 }
{
    Parts {
        high: n >> u,
        low: n & greatest(u),
    }
}

// The limit of the upper part before a lower one that is, or is not, below the lower part of the number.
fn limit_before(high: u64, less: bool) -> u64
    requires { high < 2 ^ 63 }
    ensures { result ≡ (if less then high + 1 else high) }
{
    if less { high + 1 } else { high }
}

// The limit of the lower part behind a constant.
fn limit_behind(c: u64, parts: Parts, u: u32) -> u64
    requires width { IsWidth u }
    requires less { u < 64 }
    requires low { parts.low < 2 ^ u }
    ensures number { result ≤ 2 ^ u }
    ensures limit { (y : ℕ) → y < 2 ^ u → nat_lt y result ≡ nat_lt (c * 2 ^ u + y) (parts.high * 2 ^ u + parts.low) }
{
    if c < parts.high {
        greatest(u) + 1
    } else if c == parts.high {
        parts.low
    } else {
        0
    }
}

// Whether a term is below a number, where that is the same for all its values.
fn is_below(t: &Terms, y: TermId, n: u64) -> Option<bool>
    requires { y < length t.now }
    ensures { IfSome result (λ b. (v : Reading) → nat_lt (value t.now y v) n ≡ b) }
{
    match constant(t, y) {
        Some(d) => Some(d < n),
        None if n == 0 => Some(false),
        None => None,
    }
}
