//! Ranges of numbers and what operations make of them: the numbers of two terms go in as ranges, the range of the operation's
//! number comes out. Where a result would pass its width, nothing more is said than was known before.

ghost use Rattle.std.specs.Prelude.{◌≡◌, ℕ, ◌+◌, ◌-◌, ◌*◌, ◌/◌, ◌%◌, ◌^◌, ◌<◌, ◌≤◌, bit_and, bit_or, Bool, if◌then◌else◌, IfSome};
ghost use Rattle.hk_num.specs.Numbers.{sign_extend};
ghost use Rattle.hk_term.specs.Operations.{unary_value, udiv_value, urem_value};
ghost use Rattle.hk_term.specs.Shape.{IsWidth};
ghost use Rattle.hk_range.specs.Ranges.{InRange};

/// The least and the greatest number that a term may have.
#[derive(Clone, Copy, Debug, PartialEq, Eq)]
pub struct Range {
    pub lo: u64,
    pub hi: u64,
}

/// The greatest number of a width.
pub(crate) fn greatest(w: u32) -> u64
    requires { IsWidth w }
    ensures { result ≡ 2 ^ w - 1 }
{
    u64::MAX >> (64 - w)
}

/// The numbers of a width.
pub(crate) fn full(w: u32) -> Range
    requires { IsWidth w }
    ensures { (n : ℕ) → n < 2 ^ w → InRange result n }
{
    Range {
        lo: 0,
        hi: greatest(w),
    }
}

/// One number.
pub(crate) fn one(n: u64) -> Range
    ensures { InRange result n }
{
    Range { lo: n, hi: n }
}

/// What both ranges say.
pub(crate) fn meet(p: Range, q: Range) -> Range
    ensures { (n : ℕ) → InRange p n → InRange q n → InRange result n }
{
    Range {
        lo: p.lo.max(q.lo),
        hi: p.hi.min(q.hi),
    }
}

/// The hull of two ranges: what both alternatives say.
pub(crate) fn hull(p: Range, q: Range) -> Range
    ensures first { (n : ℕ) → InRange p n → InRange result n }
    ensures second { (n : ℕ) → InRange q n → InRange result n }
{
    Range {
        lo: p.lo.min(q.lo),
        hi: p.hi.max(q.hi),
    }
}

/// Of one of two terms, as a condition chooses.
pub(crate) fn choice(p: Range, q: Range, any: Range) -> Range
    ensures { (b : Bool) (m n : ℕ) → InRange p m → InRange q n → InRange any (if b then m else n) → InRange result (if b then m else n) }
{
    let both = hull(p, q);
    meet(any, both)
}

/// Of a sum.
pub(crate) fn sum(w: u32, p: Range, q: Range, any: Range) -> Range
    requires { IsWidth w }
    ensures { (a b : ℕ) → InRange p a → InRange q b → InRange any ((a + b) % 2 ^ w) → InRange result ((a + b) % 2 ^ w) }
{
    let Some(hi) = p.hi.checked_add(q.hi) else {
        return any;
    };
    if hi > greatest(w) {
        return any;
    }
    Range {
        lo: p.lo.saturating_add(q.lo),
        hi,
    }
}

/// Of a difference.
pub(crate) fn difference(w: u32, p: Range, q: Range, any: Range) -> Range
    requires { IsWidth w }
    ensures { (a b : ℕ) → a < 2 ^ w → InRange p a → InRange q b → InRange any ((2 ^ w + a - b) % 2 ^ w) → InRange result ((2 ^ w + a - b) % 2 ^ w) }
{
    // For the proof: the width's greatest number.
    let _most = greatest(w);
    if q.hi > p.lo {
        return any;
    }
    Range {
        lo: p.lo.saturating_sub(q.hi),
        hi: p.hi.saturating_sub(q.lo),
    }
}

/// Of a product.
pub(crate) fn product(w: u32, p: Range, q: Range, any: Range) -> Range
    requires { IsWidth w }
    ensures { (a b : ℕ) → InRange p a → InRange q b → InRange any ((a * b) % 2 ^ w) → InRange result ((a * b) % 2 ^ w) }
{
    match product_below(w, p.hi, q.hi) {
        Some(hi) => Range {
            lo: p.lo.saturating_mul(q.lo),
            hi,
        },
        None => any,
    }
}

/// A product, where a width has it.
pub(crate) fn product_below(w: u32, m: u64, n: u64) -> Option<u64>
    requires { IsWidth w }
    ensures { IfSome result (λ k. (k ≡ m * n) × (k < 2 ^ w)) }
{
    match m.checked_mul(n) {
        Some(k) if k <= greatest(w) => Some(k),
        _ => None,
    }
}

/// Of a quotient.
pub(crate) fn quotient(w: u32, p: Range, q: Range, any: Range) -> Range
    ensures { (a b : ℕ) → InRange p a → InRange q b → InRange any (udiv_value w a b) → InRange result (udiv_value w a b) }
{
    if q.lo == 0 || q.hi == 0 {
        return any;
    }
    Range {
        lo: p.lo / q.hi,
        hi: p.hi / q.lo,
    }
}

/// Of a remainder.
pub(crate) fn remainder(w: u32, p: Range, q: Range, any: Range) -> Range
    ensures { (a b : ℕ) → InRange p a → InRange q b → InRange any (urem_value w a b) → InRange result (urem_value w a b) }
{
    if q.lo == 0 || q.hi == 0 {
        return any;
    }
    if p.hi < q.lo {
        return p;
    }
    Range {
        lo: 0,
        hi: p.hi.min(q.hi - 1),
    }
}

/// Of a shift to the right.
pub(crate) fn shifted_right(p: Range, q: Range) -> Range
    ensures { (a b : ℕ) → InRange p a → InRange q b → InRange result (a / 2 ^ b) }
{
    Range {
        lo: right(p.lo, q.hi),
        hi: right(p.hi, q.lo),
    }
}

// A number without its lowest bits.
fn right(n: u64, k: u64) -> u64
    ensures { result ≡ n / 2 ^ k }
{
    if k < 64 { n >> k } else { 0 }
}

/// Of a shift to the left.
pub(crate) fn shifted_left(w: u32, p: Range, q: Range, any: Range) -> Range
    requires { IsWidth w }
    ensures { (a b : ℕ) → InRange p a → InRange q b → InRange any ((a * 2 ^ b) % 2 ^ w) → InRange result ((a * 2 ^ b) % 2 ^ w) }
{
    if q.hi >= 64 || q.lo != q.hi {
        return any;
    }
    product(w, p, one(1 << q.lo), any)
}

/// Of the bits that are ones in both.
pub(crate) fn conjunction(p: Range, q: Range) -> Range
    ensures { (a b : ℕ) → InRange p a → InRange q b → InRange result (bit_and a b) }
{
    Range {
        lo: 0,
        hi: p.hi.min(q.hi),
    }
}

/// Of the bits that are ones in one.
pub(crate) fn disjunction(p: Range, q: Range, any: Range) -> Range
    ensures { (a b : ℕ) → InRange p a → InRange q b → InRange any (bit_or a b) → InRange result (bit_or a b) }
{
    let Some(hi) = p.hi.checked_add(q.hi) else {
        return any;
    };
    Range {
        lo: p.lo.max(q.lo),
        hi,
    }
}

/// Of a concatenation, of which the lower term has a width.
pub(crate) fn concatenation(u: u32, p: Range, q: Range, any: Range) -> Range
    ensures { (a b : ℕ) → InRange p a → InRange q b → InRange any (a * 2 ^ u + b) → InRange result (a * 2 ^ u + b) }
{
    if u >= 64 {
        return any;
    }
    let Some(high) = p.hi.checked_mul(1 << u) else {
        return any;
    };
    let Some(hi) = high.checked_add(q.hi) else {
        return any;
    };
    Range {
        lo: p.lo.saturating_mul(1 << u).saturating_add(q.lo),
        hi,
    }
}

/// Of the complement of each bit.
pub(crate) fn complement(w: u32, p: Range) -> Range
    requires { IsWidth w }
    ensures { (a : ℕ) → InRange p a → InRange result (2 ^ w - 1 - a) }
{
    let most = greatest(w);
    Range {
        lo: most.saturating_sub(p.hi),
        hi: most.saturating_sub(p.lo),
    }
}

/// Of an extension by copies of the sign.
pub(crate) fn sign_extended(from: u32, p: Range, any: Range) -> Range
    requires { IsWidth from }
    ensures { (to a : ℕ) → from ≤ to → InRange p a → InRange any (sign_extend from to a) → InRange result (sign_extend from to a) }
{
    let half = greatest(from) / 2;
    if p.hi > half {
        return any;
    }
    p
}

/// Of the bits from one on, at a width.
pub(crate) fn extracted(low: u32, to: u32, p: Range, any: Range) -> Range
    requires { IsWidth to }
    ensures { (a : ℕ) → InRange p a → InRange any (a / 2 ^ low % 2 ^ to) → InRange result (a / 2 ^ low % 2 ^ to) }
{
    let most = greatest(to);
    let hi = right(p.hi, low as u64);
    if hi > most {
        return any;
    }
    Range {
        lo: right(p.lo, low as u64),
        hi,
    }
}
