//! When two sums are equal: never, always, or where some equations of terms hold.

ghost use Rattle.std.specs.Prelude.{◌≡◌, ℕ, ◌+◌, ◌*◌, ◌<◌, nat_eq, List, All, length, IfSome, IfOk};
ghost use Rattle.hk_term.specs.Meaning.{Reading, value};
ghost use Rattle.hk_range.specs.Ranges.{Knows};
ghost use Rattle.hk_range.specs.Linear.{left_of, right_of, numbers, InEnds, ItemsThere};
ghost use Rattle.hk_range.specs.Answers.{equation_true, EquationThere, IsFound};
ghost use Rattle.hk_range.specs.declared.answers.Equation.{Equation};
ghost use Rattle.hk_range.specs.Splits.{IsSplit, IsNear};

use crate::answers::{Equation, Found};
use crate::ends::{Ends, ends_of};
use crate::known::Known;
use crate::near::near_halves;
use crate::only::{Pair, is_first, is_second, only, two};
use crate::split::Halves;
use crate::sums::{Item, Sums};
use hk_term::Terms;
use std::alloc::{AllocError, Global};

/// Puts equations behind others, which together hold where two sums are equal.
#[cycle(solving)]
pub(crate) fn solve(
    alloc: Global,
    t: &Terms,
    known: &Known,
    s: &Sums,
    out: &mut Vec<Equation>,
    depth: u32,
) -> Result<Found, AllocError>
    requires there { ItemsThere (length t.now) s.now.items.items }
    requires out { All (EquationThere (length t.now)) out.old.items }
    ensures out { All (EquationThere (length t.now)) out.new.items }
    ensures found { IfOk result (λ a. (v : Reading) → Knows t.now known.now v → IsFound (numbers t.now v) out.old.items out.new.items (left_of (numbers t.now v) s.now) (right_of (numbers t.now v) s.now) a) }
{
    if let Some(found) = settled(t, known, s) {
        return Ok(found);
    }
    if let Some(equation) = simple(s) {
        out.push(equation)?;
        return Ok(Found::Solved);
    }
    if depth == 0 {
        return Ok(Found::Open);
    }
    match near_halves(alloc, t, known, s)? {
        Some(halves) => solve_halves(alloc, t, known, s, &halves, out, depth - 1),
        None => Ok(Found::Open),
    }
}

// The same by the halves of the sums.
#[cycle(solving)]
fn solve_halves(
    alloc: Global,
    t: &Terms,
    known: &Known,
    s: &Sums,
    halves: &Halves,
    out: &mut Vec<Equation>,
    depth: u32,
) -> Result<Found, AllocError>
    requires split { IsSplit s.now halves.now }
    requires near { (v : Reading) → Knows t.now known.now v → IsNear (numbers t.now v) halves.now }
    requires upper { ItemsThere (length t.now) halves.now.upper.items.items }
    requires lower { ItemsThere (length t.now) halves.now.lower.items.items }
    requires out { All (EquationThere (length t.now)) out.old.items }
    ensures out { All (EquationThere (length t.now)) out.new.items }
    ensures found { IfOk result (λ a. (v : Reading) → Knows t.now known.now v → IsFound (numbers t.now v) out.old.items out.new.items (left_of (numbers t.now v) s.now) (right_of (numbers t.now v) s.now) a) }
{
    // For the proof: the clauses alone speak of the sums.
    let _sums = s;
    match solve(alloc, t, known, &halves.lower, out, depth)? {
        Found::Solved => solve(alloc, t, known, &halves.upper, out, depth),
        Found::Unequal => Ok(Found::Unequal),
        Found::Open => Ok(Found::Open),
    }
}

// What the ranges of two sums say.
fn settled(t: &Terms, known: &Known, s: &Sums) -> Option<Found>
    requires { ItemsThere (length t.now) s.now.items.items }
    ensures { IfSome result (λ a. (v : Reading) (out : List Equation) → Knows t.now known.now v → IsFound (numbers t.now v) out out (left_of (numbers t.now v) s.now) (right_of (numbers t.now v) s.now) a) }
{
    let ends = ends_of(t, known, s)?;
    told(ends)
}

fn told(e: Ends) -> Option<Found>
    ensures { IfSome result (λ a. (f : ℕ → ℕ) (out : List Equation) (l r : ℕ) → InEnds e l r → IsFound f out out l r a) }
{
    if e.left.hi < e.right.lo || e.right.hi < e.left.lo {
        return Some(Found::Unequal);
    }
    if e.left.lo == e.left.hi && e.right.lo == e.right.hi && e.left.lo == e.right.lo {
        return Some(Found::Solved);
    }
    None
}

// The equation that two sums are.
fn simple(s: &Sums) -> Option<Equation>
    ensures there { IfSome result (λ e. (size : ℕ) → ItemsThere size s.now.items.items → EquationThere size e) }
    ensures equal { IfSome result (λ e. (f : ℕ → ℕ) → equation_true f e ≡ nat_eq (left_of f s.now) (right_of f s.now)) }
{
    match (only(s.items.as_slice()), two(s.items.as_slice())) {
        (Some(x), _) => single(&x, s.left, s.right),
        (None, Some(p)) => pair(&p, s.left, s.right),
        _ => None,
    }
}

// Of one term that stands in one of the sums once.
fn single(x: &Item, l: u64, r: u64) -> Option<Equation>
    ensures there { IfSome result (λ e. (size : ℕ) → x.now.term < size → EquationThere size e) }
    ensures equal { IfSome result (λ e. (f : ℕ → ℕ) → equation_true f e ≡ nat_eq (l + x.now.left * f x.now.term) (r + x.now.right * f x.now.term)) }
{
    if l == 0 && is_first(x) {
        Some(Equation::Is(x.term, r))
    } else if r == 0 && is_second(x) {
        Some(Equation::Is(x.term, l))
    } else {
        None
    }
}

// Of two terms, of which one stands in each of the sums once.
fn pair(p: &Pair, l: u64, r: u64) -> Option<Equation>
    ensures there { IfSome result (λ e. (size : ℕ) → p.now.first.term < size → p.now.second.term < size → EquationThere size e) }
    ensures equal { IfSome result (λ e. (f : ℕ → ℕ) → equation_true f e ≡ nat_eq (l + (p.now.first.left * f p.now.first.term + p.now.second.left * f p.now.second.term)) (r + (p.now.first.right * f p.now.first.term + p.now.second.right * f p.now.second.term))) }
{
    if l != 0 || r != 0 {
        None
    } else if is_first(&p.first) && is_second(&p.second) {
        Some(Equation::Same(p.first.term, p.second.term))
    } else if is_first(&p.second) && is_second(&p.first) {
        Some(Equation::Same(p.second.term, p.first.term))
    } else {
        None
    }
}
