//! Terms of other widths: extensions, extractions and concatenations.

ghost use Rattle.std.specs.Prelude.{◌≡◌, ℕ, suc, ◌+◌, ◌-◌, ◌/◌, ◌%◌, ◌^◌, ◌<◌, ◌≤◌, length, IfOk, IfSome, ◌⊎◌};
ghost use Rattle.hk_term.specs.Operations.{binary_value, resize_value, ResizeFits};
ghost use Rattle.hk_term.specs.Shape.{IsWidth, width, Grows};
ghost use Rattle.hk_term.specs.Meaning.{Reading, value};
ghost use Rattle.hk_simplify.specs.Adding.{Adds};
ghost use Rattle.hk_simplify.specs.Forms.{FormFits, form_width, form_value};

use crate::constants::{is_number, number, sized};
use crate::form::{Form, Outer, make};
use crate::plain::{binary, resized};
use hk_term::{Node, TermId, TermKind, TermResize, Terms};
use std::alloc::AllocError;

/// A term at the width `to`, with zeros above.
pub fn zero_extend(t: &mut Terms, to: u32, a: TermId) -> Result<TermId, AllocError>
    requires term { a < length t.old }
    requires wider { width t.old a ≤ to }
    requires within { to ≤ 64 }
    ensures within { IfOk result (λ r. r < length t.new) }
    ensures width { IfOk result (λ r. width t.new r ≡ to) }
    ensures value { IfOk result (λ r. (v : Reading) → value t.new r v ≡ resize_value TermResize.Zero (width t.old a) to (value t.old a v)) }
    ensures keeps_widths { (k : ℕ) → k < length t.old → width t.new k ≡ width t.old k }
    ensures keeps_values { (k : ℕ) → k < length t.old → (v : Reading) → value t.new k v ≡ value t.old k v }
    ensures longer { length t.old ≤ length t.new }
    ensures grows { Grows t.old t.new }
    ensures adds { Adds 2 t.old t.new }
{
    let form = zero_extend_form(t, to, a);
    let made = make(t, form)?;
    Ok(made)
}

fn zero_extend_form(t: &Terms, to: u32, a: TermId) -> Form
    requires term { a < length t.now }
    requires wider { width t.now a ≤ to }
    requires within { to ≤ 64 }
    ensures fits { FormFits t.now result }
    ensures width { form_width t.now result ≡ to }
    ensures value { (v : Reading) → form_value t.now result v ≡ resize_value TermResize.Zero (width t.now a) to (value t.now a v) }
{
    if to == t.width(a) {
        return Form::Old(a);
    }
    match t.node(a) {
        Node::Resize {
            kind: TermResize::Zero,
            a: x,
            ..
        } => resized(t, TermResize::Zero, to, *x),
        _ => resized(t, TermResize::Zero, to, a),
    }
}

/// A term at the width `to`, with copies of its sign above.
pub fn sign_extend(t: &mut Terms, to: u32, a: TermId) -> Result<TermId, AllocError>
    requires term { a < length t.old }
    requires wider { width t.old a ≤ to }
    requires within { to ≤ 64 }
    ensures within { IfOk result (λ r. r < length t.new) }
    ensures width { IfOk result (λ r. width t.new r ≡ to) }
    ensures value { IfOk result (λ r. (v : Reading) → value t.new r v ≡ resize_value TermResize.Sign (width t.old a) to (value t.old a v)) }
    ensures keeps_widths { (k : ℕ) → k < length t.old → width t.new k ≡ width t.old k }
    ensures keeps_values { (k : ℕ) → k < length t.old → (v : Reading) → value t.new k v ≡ value t.old k v }
    ensures longer { length t.old ≤ length t.new }
    ensures grows { Grows t.old t.new }
    ensures adds { Adds 2 t.old t.new }
{
    let form = sign_extend_form(t, to, a);
    let made = make(t, form)?;
    Ok(made)
}

fn sign_extend_form(t: &Terms, to: u32, a: TermId) -> Form
    requires term { a < length t.now }
    requires wider { width t.now a ≤ to }
    requires within { to ≤ 64 }
    ensures fits { FormFits t.now result }
    ensures width { form_width t.now result ≡ to }
    ensures value { (v : Reading) → form_value t.now result v ≡ resize_value TermResize.Sign (width t.now a) to (value t.now a v) }
{
    let w = sized(t, a);
    if to == w {
        return Form::Old(a);
    }
    match resize_of(t, a) {
        Some(made) => sign_extend_of(t, to, a, made.kind, made.of),
        None => resized(t, TermResize::Sign, to, a),
    }
}

// A term at the width `to` with copies of its sign above, where it is itself a term `x` at another width.
fn sign_extend_of(t: &Terms, to: u32, a: TermId, kind: TermResize, x: TermId) -> Form
    requires term { a < length t.now }
    requires wider { width t.now a ≤ to }
    requires within { to ≤ 64 }
    requires earlier { x < a }
    requires fits { ResizeFits kind (width t.now x) (width t.now a) }
    requires known { (v : Reading) → value t.now a v ≡ resize_value kind (width t.now x) (width t.now a) (value t.now x v) }
    ensures fits { FormFits t.now result }
    ensures width { form_width t.now result ≡ to }
    ensures value { (v : Reading) → form_value t.now result v ≡ resize_value TermResize.Sign (width t.now a) to (value t.now a v) }
{
    let u = sized(t, x);
    match kind {
        TermResize::Sign => resized(t, TermResize::Sign, to, x),
        TermResize::Zero if u < t.width(a) => resized(t, TermResize::Zero, to, x),
        _ => resized(t, TermResize::Sign, to, a),
    }
}

/// The bits of a term from `low` to `high`, both counted from 0 at the least.
pub fn extract(t: &mut Terms, high: u32, low: u32, a: TermId) -> Result<TermId, AllocError>
    requires term { a < length t.old }
    requires order { low ≤ high }
    requires within { high < width t.old a }
    ensures within { IfOk result (λ r. r < length t.new) }
    ensures width { IfOk result (λ r. width t.new r ≡ suc high - low) }
    ensures value { IfOk result (λ r. (v : Reading) → value t.new r v ≡ resize_value (TermResize.Extract low) (width t.old a) (suc high - low) (value t.old a v)) }
    ensures keeps_widths { (k : ℕ) → k < length t.old → width t.new k ≡ width t.old k }
    ensures keeps_values { (k : ℕ) → k < length t.old → (v : Reading) → value t.new k v ≡ value t.old k v }
    ensures longer { length t.old ≤ length t.new }
    ensures grows { Grows t.old t.new }
    ensures adds { Adds 2 t.old t.new }
{
    let form = extract_form(t, high, low, a);
    let made = make(t, form)?;
    Ok(made)
}

fn extract_form(t: &Terms, high: u32, low: u32, a: TermId) -> Form
    requires term { a < length t.now }
    requires order { low ≤ high }
    requires within { high < width t.now a }
    ensures fits { FormFits t.now result }
    ensures width { form_width t.now result ≡ suc high - low }
    ensures value { (v : Reading) → form_value t.now result v ≡ resize_value (TermResize.Extract low) (width t.now a) (suc high - low) (value t.now a v) }
{
    // For the proof: the term's width is from 1 to 64, and its number below 2 to it.
    let _w = sized(t, a);
    let to = high - low + 1;
    bits_form(t, to, low, a)
}

// The bits of a term from `low` on.
fn bits_form(t: &Terms, to: u32, low: u32, a: TermId) -> Form
    requires term { a < length t.now }
    requires some { 1 ≤ to }
    requires within { low + to ≤ width t.now a }
    ensures fits { FormFits t.now result }
    ensures width { form_width t.now result ≡ to }
    ensures value { (v : Reading) → form_value t.now result v ≡ resize_value (TermResize.Extract low) (width t.now a) to (value t.now a v) }
{
    let part = narrowest(t, to, low, a);
    extract_of(t, to, part.low, part.of)
}

// The bits of a term from `low` on, where its node is none of which a part holds them.
fn extract_of(t: &Terms, to: u32, low: u32, a: TermId) -> Form
    requires term { a < length t.now }
    requires some { 1 ≤ to }
    requires within { low + to ≤ width t.now a }
    ensures fits { FormFits t.now result }
    ensures width { form_width t.now result ≡ to }
    ensures value { (v : Reading) → form_value t.now result v ≡ resize_value (TermResize.Extract low) (width t.now a) to (value t.now a v) }
{
    let w = sized(t, a);
    if to == w {
        return Form::Old(a);
    }
    match resize_of(t, a) {
        Some(made) => extract_from(t, to, low, a, made.kind, made.of),
        None => resized(t, TermResize::Extract { low }, to, a),
    }
}

// The bits of a term from `low` on, where it is itself a term `x` at another width.
fn extract_from(t: &Terms, to: u32, low: u32, a: TermId, kind: TermResize, x: TermId) -> Form
    requires term { a < length t.now }
    requires some { 1 ≤ to }
    requires within { low + to ≤ width t.now a }
    requires earlier { x < a }
    requires fits { ResizeFits kind (width t.now x) (width t.now a) }
    requires known { (v : Reading) → value t.now a v ≡ resize_value kind (width t.now x) (width t.now a) (value t.now x v) }
    ensures fits { FormFits t.now result }
    ensures width { form_width t.now result ≡ to }
    ensures value { (v : Reading) → form_value t.now result v ≡ resize_value (TermResize.Extract low) (width t.now a) to (value t.now a v) }
{
    let u = sized(t, x);
    match kind {
        TermResize::Zero if u <= low => number(to, 0),
        TermResize::Zero if low == 0 && u <= to => zero_extend_form(t, to, x),
        TermResize::Sign if low == 0 && u <= to => sign_extend_form(t, to, x),
        TermResize::Zero if u < low + to => part_of_extension(TermResize::Zero, to, low, x, u),
        TermResize::Sign if u < low + to => {
            part_of_extension(TermResize::Sign, to, first_bit(to, low, u), x, u)
        }
        _ => resized(t, TermResize::Extract { low }, to, a),
    }
}

// The first bit of a number of width u that bits of its extension hold: of bits above it that is its sign.
fn first_bit(to: u32, low: u32, u: u32) -> u32
    requires some { 1 ≤ u }
    requires part { 1 ≤ to }
    requires across { u < low + to }
    ensures within { result < u }
    ensures narrower { u - result ≤ to }
    ensures first { ((result ≡ low) × (low < u)) ⊎ ((result ≡ u - 1) × (u - 1 ≤ low)) }
{
    if low < u { low } else { u - 1 }
}

// The bits of a term of width u from `low` on, extended.
fn part_of_extension(kind: TermResize, to: u32, low: u32, x: TermId, u: u32) -> Form
    requires { low < u }
    ensures { result ≡ Form.Over (Node.Resize (TermResize.Extract low) (u - low) x) (Outer.Resized kind to) }
{
    let part = Node::Resize {
        kind: TermResize::Extract { low },
        to: u - low,
        a: x,
    };
    Form::Over(part, Outer::Resized(kind, to))
}

// How a term was made of one at another width.
#[derive(Clone, Copy, Debug)]
pub(crate) struct Resize {
    pub(crate) kind: TermResize,
    pub(crate) of: TermId,
}

// How a term was made of one at another width, where it was.
pub(crate) fn resize_of(t: &Terms, a: TermId) -> Option<Resize>
    requires { a < length t.now }
    ensures earlier { IfSome result (λ r. r.of < a) }
    ensures fits { IfSome result (λ r. ResizeFits r.kind (width t.now r.of) (width t.now a)) }
    ensures value { IfSome result (λ r. (v : Reading) → value t.now a v ≡ resize_value r.kind (width t.now r.of) (width t.now a) (value t.now r.of v)) }
{
    match t.node(a) {
        Node::Resize { kind, a: x, .. } => Some(Resize {
            kind: *kind,
            of: *x,
        }),
        _ => None,
    }
}

// Bits of a term: those from `low` on.
#[derive(Clone, Copy, Debug)]
struct Part {
    low: u32,
    of: TermId,
}

// The part furthest down that holds these bits of a term: through extractions, and into what was extended or concatenated.
fn narrowest(t: &Terms, to: u32, low: u32, a: TermId) -> Part
    requires term { a < length t.now }
    requires some { 1 ≤ to }
    requires within { low + to ≤ width t.now a }
    ensures term { result.of < length t.now }
    ensures within { result.low + to ≤ width t.now result.of }
    ensures value { (v : Reading) → value t.now result.of v / 2 ^ result.low % 2 ^ to ≡ value t.now a v / 2 ^ low % 2 ^ to }
{
    let mut part = Part { low, of: a };
    'further: while let Some(within) = narrower(t, to, part.low, part.of) {
        part = within;
    }
    part
}

// A part of a term that holds these bits of it.
fn narrower(t: &Terms, to: u32, low: u32, a: TermId) -> Option<Part>
    requires term { a < length t.now }
    requires some { 1 ≤ to }
    requires within { low + to ≤ width t.now a }
    ensures earlier { IfSome result (λ p. p.of < a) }
    ensures within { IfSome result (λ p. p.low + to ≤ width t.now p.of) }
    ensures value { IfSome result (λ p. (v : Reading) → value t.now p.of v / 2 ^ p.low % 2 ^ to ≡ value t.now a v / 2 ^ low % 2 ^ to) }
{
    match resize_of(t, a) {
        Some(made) => inside(t, to, low, a, made.kind, made.of),
        None => half_of(t, to, low, a),
    }
}

// The part of a term that holds these bits of it, where it is itself a term `x` at another width.
fn inside(t: &Terms, to: u32, low: u32, a: TermId, kind: TermResize, x: TermId) -> Option<Part>
    requires term { a < length t.now }
    requires some { 1 ≤ to }
    requires within { low + to ≤ width t.now a }
    requires earlier { x < a }
    requires fits { ResizeFits kind (width t.now x) (width t.now a) }
    requires known { (v : Reading) → value t.now a v ≡ resize_value kind (width t.now x) (width t.now a) (value t.now x v) }
    ensures earlier { IfSome result (λ p. p.of < a) }
    ensures within { IfSome result (λ p. p.low + to ≤ width t.now p.of) }
    ensures value { IfSome result (λ p. (v : Reading) → value t.now p.of v / 2 ^ p.low % 2 ^ to ≡ value t.now a v / 2 ^ low % 2 ^ to) }
{
    let u = sized(t, x);
    match kind {
        TermResize::Extract { low: from } => Some(Part {
            low: from + low,
            of: x,
        }),
        TermResize::Zero if low + to <= u => Some(Part { low, of: x }),
        TermResize::Sign if low + to <= u => Some(Part { low, of: x }),
        _ => None,
    }
}

// The part of a term that holds these bits of it, where it is a concatenation.
fn half_of(t: &Terms, to: u32, low: u32, a: TermId) -> Option<Part>
    requires term { a < length t.now }
    requires some { 1 ≤ to }
    requires within { low + to ≤ width t.now a }
    ensures earlier { IfSome result (λ p. p.of < a) }
    ensures within { IfSome result (λ p. p.low + to ≤ width t.now p.of) }
    ensures value { IfSome result (λ p. (v : Reading) → value t.now p.of v / 2 ^ p.low % 2 ^ to ≡ value t.now a v / 2 ^ low % 2 ^ to) }
{
    match t.node(a) {
        Node::Binary {
            kind: TermKind::Concat,
            a: x,
            b: y,
        } => half(t, to, low, *x, *y),
        _ => None,
    }
}

// The part of a concatenation that holds these bits of it, where one does.
fn half(t: &Terms, to: u32, low: u32, x: TermId, y: TermId) -> Option<Part>
    requires first { x < length t.now }
    requires second { y < length t.now }
    requires some { 1 ≤ to }
    requires within { low + to ≤ width t.now x + width t.now y }
    requires total { width t.now x + width t.now y ≤ 64 }
    ensures of { IfSome result (λ p. (p.of ≡ x) ⊎ (p.of ≡ y)) }
    ensures within { IfSome result (λ p. p.low + to ≤ width t.now p.of) }
    ensures value { IfSome result (λ p. (v : Reading) → value t.now p.of v / 2 ^ p.low % 2 ^ to ≡ binary_value TermKind.Concat (width t.now x) (width t.now y) (value t.now x v) (value t.now y v) / 2 ^ low % 2 ^ to) }
{
    let u = sized(t, y);
    if u <= low {
        Some(Part {
            low: low - u,
            of: x,
        })
    } else if low + to <= u {
        Some(Part { low, of: y })
    } else {
        None
    }
}

/// The first of two terms above the second.
pub fn concat(t: &mut Terms, a: TermId, b: TermId) -> Result<TermId, AllocError>
    requires first { a < length t.old }
    requires second { b < length t.old }
    requires widths { width t.old a + width t.old b ≤ 64 }
    ensures within { IfOk result (λ r. r < length t.new) }
    ensures width { IfOk result (λ r. width t.new r ≡ width t.old a + width t.old b) }
    ensures value { IfOk result (λ r. (v : Reading) → value t.new r v ≡ binary_value TermKind.Concat (width t.old a) (width t.old b) (value t.old a v) (value t.old b v)) }
    ensures keeps_widths { (k : ℕ) → k < length t.old → width t.new k ≡ width t.old k }
    ensures keeps_values { (k : ℕ) → k < length t.old → (v : Reading) → value t.new k v ≡ value t.old k v }
    ensures longer { length t.old ≤ length t.new }
    ensures grows { Grows t.old t.new }
    ensures adds { Adds 2 t.old t.new }
{
    let form = concat_form(t, a, b);
    let made = make(t, form)?;
    Ok(made)
}

fn concat_form(t: &Terms, a: TermId, b: TermId) -> Form
    requires first { a < length t.now }
    requires second { b < length t.now }
    requires widths { width t.now a + width t.now b ≤ 64 }
    ensures fits { FormFits t.now result }
    ensures width { form_width t.now result ≡ width t.now a + width t.now b }
    ensures value { (v : Reading) → form_value t.now result v ≡ binary_value TermKind.Concat (width t.now a) (width t.now b) (value t.now a v) (value t.now b v) }
{
    let zero_a = is_number(t, a, 0);
    let w = sized(t, a);
    let u = sized(t, b);
    let upper = part_of(t, a);
    let lower = part_of(t, b);
    if zero_a {
        zero_extend_form(t, w + u, b)
    } else if upper.of == lower.of && upper.low == lower.low + u {
        bits_form(t, w + u, lower.low, lower.of)
    } else {
        binary(t, TermKind::Concat, a, b)
    }
}

// The bits of another term that a term is: those of which it is an extraction, or all of its own.
fn part_of(t: &Terms, a: TermId) -> Part
    requires { a < length t.now }
    ensures term { result.of < length t.now }
    ensures within { result.low + width t.now a ≤ width t.now result.of }
    ensures is_width { IsWidth (width t.now result.of) }
    ensures value { (v : Reading) → value t.now a v ≡ value t.now result.of v / 2 ^ result.low % 2 ^ width t.now a }
{
    let w = sized(t, a);
    match resize_of(t, a) {
        Some(made) => extraction(t, a, w, made.kind, made.of),
        None => Part { low: 0, of: a },
    }
}

// The same where the term is itself a term `x` at another width.
fn extraction(t: &Terms, a: TermId, w: u32, kind: TermResize, x: TermId) -> Part
    requires term { a < length t.now }
    requires width { w ≡ width t.now a }
    requires is_width { IsWidth w }
    requires below { (v : Reading) → value t.now a v < 2 ^ w }
    requires earlier { x < a }
    requires fits { ResizeFits kind (width t.now x) (width t.now a) }
    requires known { (v : Reading) → value t.now a v ≡ resize_value kind (width t.now x) (width t.now a) (value t.now x v) }
    ensures term { result.of < length t.now }
    ensures within { result.low + width t.now a ≤ width t.now result.of }
    ensures is_width { IsWidth (width t.now result.of) }
    ensures value { (v : Reading) → value t.now a v ≡ value t.now result.of v / 2 ^ result.low % 2 ^ width t.now a }
{
    // For the proof: the part's width is from 1 to 64, and its number below 2 to it.
    let _u = sized(t, x);
    match kind {
        TermResize::Extract { low } => Part { low, of: x },
        _ => Part { low: 0, of: a },
    }
}
