//! Division of words, with its remainder.

ghost use Rattle.std.specs.Prelude.{◌≡◌, ◌≤◌, ◌-◌, true, not, nat_eq, nat_lt, if◌then◌else◌, drop, ℕ, Bool, IfOk, length, All};
ghost use Rattle.hk_cnf.specs.Literal.{IsWithin};
ghost use Rattle.hk_cnf.specs.Circuit.{gate_value};
ghost use Rattle.hk_term.specs.Operations.{udiv_value, urem_value, sdiv_value, srem_value};
ghost use Rattle.hk_circuit.specs.Words.{gate_number, TellClear, differ, negated_by};
ghost use Rattle.hk_circuit.specs.Frame.{Frame};

use crate::adder::{Sum, add_with_carry, negate};
use crate::bit::{and, xor};
use crate::choice::choose_words;
use crate::word::{complement, with_bit_below};
use hk_cnf::{Gates, Lit};
use std::alloc::{AllocError, Global};

/// A quotient and the remainder that belongs to it, each as wide as the dividend.
#[derive(Drop)]
pub struct Divided {
    /// The quotient.
    pub quotient: Vec<Lit>,
    /// The remainder.
    pub remainder: Vec<Lit>,
}

/// A word less another where it is not below it, and whether it is not.
#[derive(Drop)]
struct Reduced {
    /// The difference, or the word itself.
    word: Vec<Lit>,
    /// Whether the other was subtracted.
    fits: Lit,
}

/// For each number of bits from 0 on, whether so many of the highest bits of a word are false: a gate a bit.
fn clear_flags(
    alloc: Global,
    gates: &mut Gates,
    b: &[Lit],
    truth: Lit,
) -> Result<Vec<Lit>, AllocError>
    requires word { All (IsWithin gates.old.vars) b.now }
    requires truth { IsWithin gates.old.vars truth }
    requires truth_is { (v : ℕ → Bool) → gate_value gates.old truth v ≡ true }
    ensures frame { Frame gates.old gates.new }
    ensures size { IfOk result (λ w. length w.items ≡ length b.now) }
    ensures within { IfOk result (λ w. All (IsWithin gates.new.vars) w.items) }
    ensures value { IfOk result (λ w. TellClear gates.new w.items b.now) }
{
    let mut flags = Vec::new(alloc);
    let mut clear = truth;
    for k in 0..b.len() {
        flags.push(clear)?;
        let top = b.len() - 1 - k;
        clear = and(gates, clear, b[top].negated())?;
    }
    Ok(flags)
}

/// The difference of a word and a word that is at least as wide, and whether there is one that is not negative: seven
/// gates a bit of the first word. `clear` says that the bits of the second above the width of the first are false.
fn difference(
    alloc: Global,
    gates: &mut Gates,
    a: &[Lit],
    b: &[Lit],
    clear: Lit,
    truth: Lit,
) -> Result<Reduced, AllocError>
    requires wider { length a.now ≤ length b.now }
    requires first { All (IsWithin gates.old.vars) a.now }
    requires second { All (IsWithin gates.old.vars) b.now }
    requires clear { IsWithin gates.old.vars clear }
    requires clear_is { (v : ℕ → Bool) → gate_value gates.old clear v ≡ nat_eq (gate_number gates.old (drop (length a.now) b.now) v) 0 }
    requires truth { IsWithin gates.old.vars truth }
    requires truth_is { (v : ℕ → Bool) → gate_value gates.old truth v ≡ true }
    ensures frame { Frame gates.old gates.new }
    ensures size { IfOk result (λ d. length d.word.items ≡ length a.now) }
    ensures within { IfOk result (λ d. All (IsWithin gates.new.vars) d.word.items) }
    ensures fits_within { IfOk result (λ d. IsWithin gates.new.vars d.fits) }
    ensures fits { IfOk result (λ d. (v : ℕ → Bool) → gate_value gates.new d.fits v ≡ not (nat_lt (gate_number gates.old a.now v) (gate_number gates.old b.now v))) }
    ensures value { IfOk result (λ d. (v : ℕ → Bool) → gate_number gates.old b.now v ≤ gate_number gates.old a.now v → gate_number gates.new d.word.items v ≡ gate_number gates.old a.now v - gate_number gates.old b.now v) }
{
    let (low, _) = b.split_at(a.len());
    let other = complement(alloc, low)?;
    let sum = add_with_carry(alloc, gates, a, other.as_slice(), truth)?;
    let Sum { word, carry } = sum;
    let fits = and(gates, carry, clear)?;
    Ok(Reduced { word, fits })
}

/// A word less another where it is not below it, and else the word itself: ten gates a bit. `clear` is as in `difference`.
fn reduce(
    alloc: Global,
    gates: &mut Gates,
    a: &[Lit],
    b: &[Lit],
    clear: Lit,
    truth: Lit,
) -> Result<Reduced, AllocError>
    requires wider { length a.now ≤ length b.now }
    requires first { All (IsWithin gates.old.vars) a.now }
    requires second { All (IsWithin gates.old.vars) b.now }
    requires clear { IsWithin gates.old.vars clear }
    requires clear_is { (v : ℕ → Bool) → gate_value gates.old clear v ≡ nat_eq (gate_number gates.old (drop (length a.now) b.now) v) 0 }
    requires truth { IsWithin gates.old.vars truth }
    requires truth_is { (v : ℕ → Bool) → gate_value gates.old truth v ≡ true }
    ensures frame { Frame gates.old gates.new }
    ensures size { IfOk result (λ d. length d.word.items ≡ length a.now) }
    ensures within { IfOk result (λ d. All (IsWithin gates.new.vars) d.word.items) }
    ensures fits_within { IfOk result (λ d. IsWithin gates.new.vars d.fits) }
    ensures fits { IfOk result (λ d. (v : ℕ → Bool) → gate_value gates.new d.fits v ≡ not (nat_lt (gate_number gates.old a.now v) (gate_number gates.old b.now v))) }
    ensures value { IfOk result (λ d. (v : ℕ → Bool) → gate_number gates.new d.word.items v ≡ (if nat_lt (gate_number gates.old a.now v) (gate_number gates.old b.now v) then gate_number gates.old a.now v else gate_number gates.old a.now v - gate_number gates.old b.now v)) }
{
    let difference = difference(alloc, gates, a, b, clear, truth)?;
    let Reduced { word: less, fits } = difference;
    let word = choose_words(alloc, gates, fits, less.as_slice(), a)?;
    Ok(Reduced { word, fits })
}

/// Long division: the remainder takes the bits of the first word from the highest on, and the second is subtracted from
/// it where it fits. After k bits the remainder has k bits, so each step is as wide as it has to be. `flags` say which of
/// the highest bits of the second are false.
fn divide_with(
    alloc: Global,
    gates: &mut Gates,
    a: &[Lit],
    b: &[Lit],
    flags: &[Lit],
    truth: Lit,
) -> Result<Divided, AllocError>
    requires same { length a.now ≡ length b.now }
    requires flags_size { length flags.now ≡ length b.now }
    requires first { All (IsWithin gates.old.vars) a.now }
    requires second { All (IsWithin gates.old.vars) b.now }
    requires flags { All (IsWithin gates.old.vars) flags.now }
    requires clear { TellClear gates.old flags.now b.now }
    requires truth { IsWithin gates.old.vars truth }
    requires truth_is { (v : ℕ → Bool) → gate_value gates.old truth v ≡ true }
    ensures frame { Frame gates.old gates.new }
    ensures quotient_size { IfOk result (λ d. length d.quotient.items ≡ length a.now) }
    ensures remainder_size { IfOk result (λ d. length d.remainder.items ≡ length a.now) }
    ensures quotient_within { IfOk result (λ d. All (IsWithin gates.new.vars) d.quotient.items) }
    ensures remainder_within { IfOk result (λ d. All (IsWithin gates.new.vars) d.remainder.items) }
    ensures quotient { IfOk result (λ d. (v : ℕ → Bool) → gate_number gates.new d.quotient.items v ≡ udiv_value (length a.now) (gate_number gates.old a.now v) (gate_number gates.old b.now v)) }
    ensures remainder { IfOk result (λ d. (v : ℕ → Bool) → gate_number gates.new d.remainder.items v ≡ urem_value (length a.now) (gate_number gates.old a.now v) (gate_number gates.old b.now v)) }
{
    let mut digits = Vec::new(alloc);
    let mut rest = Vec::new(alloc);
    for j in 0..a.len() {
        let i = a.len() - 1 - j;
        let word = with_bit_below(alloc, a[i], rest.as_slice())?;
        let step = reduce(alloc, gates, word.as_slice(), b, flags[i], truth)?;
        let Reduced { word: next, fits } = step;
        digits.push(fits)?;
        rest = next;
    }
    digits.reverse();
    Ok(Divided {
        quotient: digits,
        remainder: rest,
    })
}

/// The quotient of two words, rounded down, and its remainder: 5 n n + 4 n - 2 gates for two words of n bits, which
/// is 20,734 for 64. By 0 the quotient is all ones and the remainder the dividend, as in SMT-LIB.
pub fn divide(
    alloc: Global,
    gates: &mut Gates,
    a: &[Lit],
    b: &[Lit],
    truth: Lit,
) -> Result<Divided, AllocError>
    requires same { length a.now ≡ length b.now }
    requires first { All (IsWithin gates.old.vars) a.now }
    requires second { All (IsWithin gates.old.vars) b.now }
    requires truth { IsWithin gates.old.vars truth }
    requires truth_is { (v : ℕ → Bool) → gate_value gates.old truth v ≡ true }
    ensures frame { Frame gates.old gates.new }
    ensures quotient_size { IfOk result (λ d. length d.quotient.items ≡ length a.now) }
    ensures remainder_size { IfOk result (λ d. length d.remainder.items ≡ length a.now) }
    ensures quotient_within { IfOk result (λ d. All (IsWithin gates.new.vars) d.quotient.items) }
    ensures remainder_within { IfOk result (λ d. All (IsWithin gates.new.vars) d.remainder.items) }
    ensures quotient { IfOk result (λ d. (v : ℕ → Bool) → gate_number gates.new d.quotient.items v ≡ udiv_value (length a.now) (gate_number gates.old a.now v) (gate_number gates.old b.now v)) }
    ensures remainder { IfOk result (λ d. (v : ℕ → Bool) → gate_number gates.new d.remainder.items v ≡ urem_value (length a.now) (gate_number gates.old a.now v) (gate_number gates.old b.now v)) }
{
    let flags = clear_flags(alloc, gates, b, truth)?;
    let divided = divide_with(alloc, gates, a, b, flags.as_slice(), truth)?;
    Ok(divided)
}

/// The word's two's complement where the literal is true, and else the word: six gates a bit.
fn negate_where(
    alloc: Global,
    gates: &mut Gates,
    sign: Lit,
    a: &[Lit],
    truth: Lit,
) -> Result<Vec<Lit>, AllocError>
    requires sign { IsWithin gates.old.vars sign }
    requires word { All (IsWithin gates.old.vars) a.now }
    requires truth { IsWithin gates.old.vars truth }
    requires truth_is { (v : ℕ → Bool) → gate_value gates.old truth v ≡ true }
    ensures frame { Frame gates.old gates.new }
    ensures size { IfOk result (λ w. length w.items ≡ length a.now) }
    ensures within { IfOk result (λ w. All (IsWithin gates.new.vars) w.items) }
    ensures value { IfOk result (λ w. (v : ℕ → Bool) → gate_number gates.new w.items v ≡ negated_by (gate_value gates.old sign v) (length a.now) (gate_number gates.old a.now v)) }
{
    let negated = negate(alloc, gates, a, truth)?;
    let word = choose_words(alloc, gates, sign, negated.as_slice(), a)?;
    Ok(word)
}

/// Whether two literals differ: three gates.
fn differ(gates: &mut Gates, a: Lit, b: Lit) -> Result<Lit, AllocError>
    requires first { IsWithin gates.old.vars a }
    requires second { IsWithin gates.old.vars b }
    ensures frame { Frame gates.old gates.new }
    ensures within { IfOk result (λ l. IsWithin gates.new.vars l) }
    ensures value { IfOk result (λ l. (v : ℕ → Bool) → gate_value gates.new l v ≡ differ (gate_value gates.old a v) (gate_value gates.old b v)) }
{
    let lit = xor(gates, a, b)?;
    Ok(lit)
}

/// The magnitudes of two words divided, by their signs.
fn divide_magnitudes(
    alloc: Global,
    gates: &mut Gates,
    a: &[Lit],
    b: &[Lit],
    first: Lit,
    second: Lit,
    truth: Lit,
) -> Result<Divided, AllocError>
    requires same { length a.now ≡ length b.now }
    requires dividend { All (IsWithin gates.old.vars) a.now }
    requires divisor { All (IsWithin gates.old.vars) b.now }
    requires first { IsWithin gates.old.vars first }
    requires second { IsWithin gates.old.vars second }
    requires truth { IsWithin gates.old.vars truth }
    requires truth_is { (v : ℕ → Bool) → gate_value gates.old truth v ≡ true }
    ensures frame { Frame gates.old gates.new }
    ensures quotient_size { IfOk result (λ d. length d.quotient.items ≡ length a.now) }
    ensures remainder_size { IfOk result (λ d. length d.remainder.items ≡ length a.now) }
    ensures quotient_within { IfOk result (λ d. All (IsWithin gates.new.vars) d.quotient.items) }
    ensures remainder_within { IfOk result (λ d. All (IsWithin gates.new.vars) d.remainder.items) }
    ensures quotient { IfOk result (λ d. (v : ℕ → Bool) → gate_number gates.new d.quotient.items v ≡ udiv_value (length a.now) (negated_by (gate_value gates.old first v) (length a.now) (gate_number gates.old a.now v)) (negated_by (gate_value gates.old second v) (length a.now) (gate_number gates.old b.now v))) }
    ensures remainder { IfOk result (λ d. (v : ℕ → Bool) → gate_number gates.new d.remainder.items v ≡ urem_value (length a.now) (negated_by (gate_value gates.old first v) (length a.now) (gate_number gates.old a.now v)) (negated_by (gate_value gates.old second v) (length a.now) (gate_number gates.old b.now v))) }
{
    let dividend = negate_where(alloc, gates, first, a, truth)?;
    let divisor = negate_where(alloc, gates, second, b, truth)?;
    let divided = divide(alloc, gates, dividend.as_slice(), divisor.as_slice(), truth)?;
    Ok(divided)
}

/// The quotient of the signed readings, rounded towards zero, and its remainder, with the sign of the dividend: the
/// magnitudes divided, which takes 24 gates a bit more than `divide`, about 22,300 for 64 bits. By 0 the quotient is -1
/// for a dividend from 0 on and 1 for a negative one, and the remainder is the dividend, as in SMT-LIB. The least
/// reading by -1 gives itself and 0.
pub fn signed_divide(
    alloc: Global,
    gates: &mut Gates,
    a: &[Lit],
    b: &[Lit],
    truth: Lit,
) -> Result<Divided, AllocError>
    requires some { 1 ≤ length a.now }
    requires same { length a.now ≡ length b.now }
    requires first { All (IsWithin gates.old.vars) a.now }
    requires second { All (IsWithin gates.old.vars) b.now }
    requires truth { IsWithin gates.old.vars truth }
    requires truth_is { (v : ℕ → Bool) → gate_value gates.old truth v ≡ true }
    ensures frame { Frame gates.old gates.new }
    ensures quotient_size { IfOk result (λ d. length d.quotient.items ≡ length a.now) }
    ensures remainder_size { IfOk result (λ d. length d.remainder.items ≡ length a.now) }
    ensures quotient_within { IfOk result (λ d. All (IsWithin gates.new.vars) d.quotient.items) }
    ensures remainder_within { IfOk result (λ d. All (IsWithin gates.new.vars) d.remainder.items) }
    ensures quotient { IfOk result (λ d. (v : ℕ → Bool) → gate_number gates.new d.quotient.items v ≡ sdiv_value (length a.now) (gate_number gates.old a.now v) (gate_number gates.old b.now v)) }
    ensures remainder { IfOk result (λ d. (v : ℕ → Bool) → gate_number gates.new d.remainder.items v ≡ srem_value (length a.now) (gate_number gates.old a.now v) (gate_number gates.old b.now v)) }
{
    let top = a.len() - 1;
    let first = a[top];
    let second = b[top];
    let divided = divide_magnitudes(alloc, gates, a, b, first, second, truth)?;
    let Divided {
        quotient,
        remainder,
    } = divided;
    let signs = differ(gates, first, second)?;
    let quotient = negate_where(alloc, gates, signs, quotient.as_slice(), truth)?;
    let remainder = negate_where(alloc, gates, first, remainder.as_slice(), truth)?;
    Ok(Divided {
        quotient,
        remainder,
    })
}
