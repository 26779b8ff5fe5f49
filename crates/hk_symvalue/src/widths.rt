//! Changes of width, `freeze`, `select` and `llvm.assume`.

ghost use Rattle.std.specs.Prelude.{◌≡◌, ℕ, ◌+◌, ◌-◌, ◌*◌, ◌/◌, ◌%◌, ◌^◌, ◌<◌, ◌≤◌, ◌&&◌, ◌||◌, ◌==◌, not, true, false, Bool, if◌then◌else◌, nat_eq, nat_lt, nat_le, length, IfOk};
ghost use Rattle.hk_term.specs.Shape.{IsWidth, width};
ghost use Rattle.hk_term.specs.Meaning.{Reading, value};
ghost use Rattle.hk_symvalue.specs.Growth.{Extends};
ghost use Rattle.hk_symvalue.specs.Meaning.{IsTruth, IsWord, IsSym, IsMade, is_true, meaning};
ghost use Rattle.hk_symvalue.specs.Rows.{Answers, Shown, flagged, IsFlagged, shown};
ghost use Rattle.ir_value.specs.Numbers.{freeze, select};
ghost use Rattle.ir_value.specs.Intrinsics.{assumes};

use crate::numbers::is_some;
use crate::value::{SymMade, SymValue};
use crate::words::at_width;
use crate::{logic, make};
use hk_term::{TermId, Terms};
use std::alloc::AllocError;

/// The operand itself; a run is stuck at poison.
#[tactic(auto, using(crate::proofs::ValueLaws::frozen))]
pub fn freeze(t: &mut Terms, a: SymValue) -> Result<SymMade, AllocError>
    requires { IsSym t.old a }
    ensures frame { Extends t.old t.new }
    ensures made { IfOk result (λ r. IsMade t.new r) }
    ensures answers { IfOk result (λ r. (v : Reading) → Answers (is_true t.new r.stuck v) (meaning t.new r.value v) (freeze (meaning t.old a v))) }
{
    let never = logic::constant(t, false)?;
    Ok(SymMade {
        stuck: a.poison,
        value: SymValue {
            poison: never,
            base: a.base,
            bits: a.bits,
        },
    })
}

/// The operand that a condition chooses; the other one does not count. It never sticks.
pub fn select(t: &mut Terms, c: SymValue, a: SymValue, b: SymValue) -> Result<SymValue, AllocError>
    requires condition { IsSym t.old c }
    requires first { IsSym t.old a }
    requires second { IsSym t.old b }
    ensures frame { Extends t.old t.new }
    ensures within { IfOk result (λ r. IsSym t.new r) }
    ensures answers { IfOk result (λ r. (v : Reading) → Answers false (meaning t.new r v) (select (meaning t.old c v) (meaning t.old a v) (meaning t.old b v))) }
{
    let condition = at_width(t, 1, c.bits)?;
    let chosen = make::choose(t, condition, a, b)?;
    let poison = logic::or(t, c.poison, chosen.poison)?;
    Ok(SymValue {
        poison,
        base: chosen.base,
        bits: chosen.bits,
    })
}

/// Whether the condition of `llvm.assume` does not hold: it is false or poison, and the run is stuck.
#[tactic(auto, using(crate::proofs::ValueLaws::assumed))]
pub fn assume_sticks(t: &mut Terms, c: SymValue) -> Result<TermId, AllocError>
    requires { IsSym t.old c }
    ensures frame { Extends t.old t.new }
    ensures truth { IfOk result (λ r. IsTruth t.new r) }
    ensures value { IfOk result (λ r. (v : Reading) → is_true t.new r v ≡ not (assumes (meaning t.old c v))) }
{
    let other = is_some(t, c.base)?;
    let some = is_some(t, c.bits)?;
    let fails = logic::not(t, some)?;
    let either = logic::or(t, other, fails)?;
    let stuck = logic::or(t, c.poison, either)?;
    Ok(stuck)
}
