//! Words that need no gate.

ghost use Rattle.std.specs.Prelude.{◌≡◌, ◌≤◌, ◌<◌, ◌+◌, ◌-◌, ◌*◌, ◌^◌, true, nat_eq, replicate, take, drop, neg_ℤ, slice_index_or, pos, ◌++◌, ◌∷◌, [], ◌/◌, ◌%◌, false, ℕ, Bool, IfOk, length, All, if◌then◌else◌};
ghost use Rattle.hk_cnf.specs.Literal.{IsWithin, IsLiteral};
ghost use Rattle.hk_cnf.specs.Circuit.{Circuit, gate_value};
ghost use Rattle.hk_num.specs.Numbers.{sign_extend};
ghost use Rattle.hk_circuit.specs.Words.{gate_number};

use hk_cnf::Lit;
use std::alloc::{AllocError, Global};

/// The complement of each bit.
pub fn complement(alloc: Global, a: &[Lit]) -> Result<Vec<Lit>, AllocError>
    ensures size { IfOk result (λ w. length w.items ≡ length a.now) }
    ensures within { IfOk result (λ w. (n : ℕ) → All (IsWithin n) a.now → All (IsWithin n) w.items) }
    ensures value { IfOk result (λ w. (c : Circuit) → All IsLiteral a.now → (v : ℕ → Bool) → gate_number c w.items v ≡ 2 ^ length a.now - 1 - gate_number c a.now v) }
{
    let mut word = Vec::new(alloc);
    for lit in a {
        word.push(lit.negated())?;
    }
    Ok(word)
}

/// A literal so many times.
pub fn repeat(alloc: Global, lit: Lit, times: usize) -> Result<Vec<Lit>, AllocError>
    ensures { IfOk result (λ w. w.items ≡ replicate times lit) }
{
    let mut word = Vec::new(alloc);
    for i in 0..times {
        word.push(lit)?;
    }
    Ok(word)
}

/// The second word with the first above it.
pub fn concat(alloc: Global, high: &[Lit], low: &[Lit]) -> Result<Vec<Lit>, AllocError>
    ensures items { IfOk result (λ w. w.items ≡ low.now ++ high.now) }
    ensures value { IfOk result (λ w. (c : Circuit) (v : ℕ → Bool) → gate_number c w.items v ≡ gate_number c high.now v * 2 ^ length low.now + gate_number c low.now v) }
{
    let mut word = Vec::from_slice(alloc, low)?;
    word.extend_from_slice(high)?;
    Ok(word)
}

/// The bits from `low` on, so many.
pub fn extract(alloc: Global, a: &[Lit], low: usize, bits: usize) -> Result<Vec<Lit>, AllocError>
    requires { low + bits ≤ length a.now }
    ensures items { IfOk result (λ w. w.items ≡ take bits (drop low a.now)) }
    ensures value { IfOk result (λ w. (c : Circuit) (v : ℕ → Bool) → gate_number c w.items v ≡ gate_number c a.now v / 2 ^ low % 2 ^ bits) }
{
    let (_, above) = a.split_at(low);
    let (part, _) = above.split_at(bits);
    let word = Vec::from_slice(alloc, part)?;
    Ok(word)
}

/// The word with its highest bit turned: its signed reading, moved so that the least is 0.
pub fn turn_sign(alloc: Global, a: &[Lit]) -> Result<Vec<Lit>, AllocError>
    requires { 1 ≤ length a.now }
    ensures items { IfOk result (λ w. w.items ≡ take (length a.now - 1) a.now ++ neg_ℤ (slice_index_or a.now (length a.now - 1) (pos 1)) ∷ []) }
    ensures size { IfOk result (λ w. length w.items ≡ length a.now) }
{
    let top = a.len() - 1;
    let (low, _) = a.split_at(top);
    let mut word = Vec::from_slice(alloc, low)?;
    word.push(a[top].negated())?;
    Ok(word)
}

/// The word moved up by so many bits, with a literal in the low bits; the highest bits are lost.
pub fn shift_up(alloc: Global, a: &[Lit], by: usize, fill: Lit) -> Result<Vec<Lit>, AllocError>
    requires { by ≤ length a.now }
    ensures items { IfOk result (λ w. w.items ≡ replicate by fill ++ take (length a.now - by) a.now) }
    ensures size { IfOk result (λ w. length w.items ≡ length a.now) }
    ensures within { IfOk result (λ w. (n : ℕ) → All (IsWithin n) a.now → IsWithin n fill → All (IsWithin n) w.items) }
    ensures value { IfOk result (λ w. (c : Circuit) (v : ℕ → Bool) → gate_value c fill v ≡ false → gate_number c w.items v ≡ (gate_number c a.now v * 2 ^ by) % 2 ^ length a.now) }
{
    let mut word = repeat(alloc, fill, by)?;
    let (low, _) = a.split_at(a.len() - by);
    word.extend_from_slice(low)?;
    Ok(word)
}

/// The literal that has this truth value.
fn constant(truth: Lit, value: bool) -> Lit
    ensures { result ≡ (if value then truth else neg_ℤ truth) }
{
    if value { truth } else { truth.negated() }
}

/// The bit of a number at a place.
fn bit_at(number: u64, place: u32) -> bool
    requires { place < 64 }
    ensures { result ≡ nat_eq (number / 2 ^ place % 2) 1 }
{
    (number >> place) % 2 == 1
}

/// The word of a number, so many bits wide. `truth` is the literal that is true.
pub fn number_word(
    alloc: Global,
    number: u64,
    bits: u32,
    truth: Lit,
) -> Result<Vec<Lit>, AllocError>
    requires width { bits ≤ 64 }
    requires literal { IsLiteral truth }
    ensures size { IfOk result (λ w. length w.items ≡ bits) }
    ensures within { IfOk result (λ w. (n : ℕ) → IsWithin n truth → All (IsWithin n) w.items) }
    ensures value { IfOk result (λ w. (c : Circuit) (v : ℕ → Bool) → gate_value c truth v ≡ true → gate_number c w.items v ≡ number % 2 ^ bits) }
{
    let mut word = Vec::new(alloc);
    for i in 0..bits {
        let lit = constant(truth, bit_at(number, i));
        word.push(lit)?;
    }
    Ok(word)
}

/// The word moved down by so many bits, with a literal in the high bits; the lowest bits are lost.
pub fn shift_down(alloc: Global, a: &[Lit], by: usize, fill: Lit) -> Result<Vec<Lit>, AllocError>
    requires { by ≤ length a.now }
    ensures items { IfOk result (λ w. w.items ≡ drop by a.now ++ replicate by fill) }
    ensures size { IfOk result (λ w. length w.items ≡ length a.now) }
    ensures within { IfOk result (λ w. (n : ℕ) → All (IsWithin n) a.now → IsWithin n fill → All (IsWithin n) w.items) }
    ensures value { IfOk result (λ w. (c : Circuit) (v : ℕ → Bool) → gate_value c fill v ≡ false → gate_number c w.items v ≡ gate_number c a.now v / 2 ^ by) }
{
    let high = repeat(alloc, fill, by)?;
    let (_, rest) = a.split_at(by);
    let mut word = Vec::from_slice(alloc, rest)?;
    word.extend_from_slice(high.as_slice())?;
    Ok(word)
}

/// The word with a literal below it: twice the number and a bit.
pub fn with_bit_below(alloc: Global, lit: Lit, a: &[Lit]) -> Result<Vec<Lit>, AllocError>
    ensures { IfOk result (λ w. w.items ≡ lit ∷ a.now) }
{
    let mut word = Vec::new(alloc);
    word.push(lit)?;
    word.extend_from_slice(a)?;
    Ok(word)
}

/// The word made so many bits wide, with a literal in the new high bits: the same number where the literal is false.
pub fn zero_extend(alloc: Global, a: &[Lit], to: usize, bottom: Lit) -> Result<Vec<Lit>, AllocError>
    requires { length a.now ≤ to }
    ensures size { IfOk result (λ w. length w.items ≡ to) }
    ensures within { IfOk result (λ w. (n : ℕ) → All (IsWithin n) a.now → IsWithin n bottom → All (IsWithin n) w.items) }
    ensures value { IfOk result (λ w. (c : Circuit) (v : ℕ → Bool) → gate_value c bottom v ≡ false → gate_number c w.items v ≡ gate_number c a.now v) }
{
    let high = repeat(alloc, bottom, to - a.len())?;
    let word = concat(alloc, high.as_slice(), a)?;
    Ok(word)
}

/// The word made so many bits wide, with copies of its sign in the new high bits: the same signed reading.
pub fn sign_extend(alloc: Global, a: &[Lit], to: usize) -> Result<Vec<Lit>, AllocError>
    requires some { 1 ≤ length a.now }
    requires wider { length a.now ≤ to }
    ensures size { IfOk result (λ w. length w.items ≡ to) }
    ensures within { IfOk result (λ w. (n : ℕ) → All (IsWithin n) a.now → All (IsWithin n) w.items) }
    ensures value { IfOk result (λ w. (c : Circuit) (v : ℕ → Bool) → gate_number c w.items v ≡ sign_extend (length a.now) to (gate_number c a.now v)) }
{
    let top = a.len() - 1;
    let high = repeat(alloc, a[top], to - a.len())?;
    let word = concat(alloc, high.as_slice(), a)?;
    Ok(word)
}
