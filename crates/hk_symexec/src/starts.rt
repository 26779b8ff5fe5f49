//! What the run of a function begins with: its arguments, as terms.

ghost use Rattle.std.specs.Prelude.{◌≡◌, ◌++◌, ◌<◌, ℕ, Some, map, length, IfOk};
ghost use Rattle.std.specs.List.{All};
ghost use Rattle.hk_term.specs.Meaning.{Reading, value};
ghost use Rattle.ir_value.specs.declared.value.Value.TheVariants as machine;
ghost use Rattle.ir_machine.specs.declared.state.Held.TheVariants as held;
ghost use Rattle.ir_machine.specs.Step.{unset};
ghost use Rattle.hk_symvalue.specs.Growth.{Extends};
ghost use Rattle.hk_symstep.specs.Held.{place_meaning, IsPlace};
ghost use Rattle.hk_symstep.specs.Files.{IsFile, registers_of};
ghost use Rattle.hk_symexec.specs.Runs.{arguments_at, held_numbers};

use hk_symstep::{SymFile, SymHeld};
use hk_symvalue::of_term;
use hk_term::{TermId, Terms};
use std::alloc::{AllocError, Global};

// What the register of a parameter holds.
fn argument_place(t: &mut Terms, argument: TermId) -> Result<Option<SymHeld>, AllocError>
    requires { argument < length t.old }
    ensures frame { Extends t.old t.new }
    ensures within { IfOk result (λ p. IsPlace t.new p) }
    ensures meaning { IfOk result (λ p. (v : Reading) → place_meaning t.new v p ≡ Some (held.Value (machine.Number (value t.old argument v)))) }
{
    let value = of_term(t, argument)?;
    Ok(Some(SymHeld::Value(value)))
}

/// Registers that hold the numbers of these terms, and so many more that are not set.
pub(crate) fn argument_file(
    alloc: Global,
    t: &mut Terms,
    arguments: &[TermId],
    more: u32,
) -> Result<SymFile, AllocError>
    requires { All (λ a. a < length t.old) arguments.now }
    ensures frame { Extends t.old t.new }
    ensures within { IfOk result (λ r. IsFile t.new r) }
    ensures meaning { IfOk result (λ r. (v : Reading) → registers_of t.new v r ≡ held_numbers (arguments_at t.old v arguments.now) ++ unset more) }
{
    let mut places = Vec::new(alloc);
    for argument in arguments {
        let place = argument_place(t, *argument)?;
        places.push(place)?;
    }
    for _ in 0..more {
        places.push(None)?;
    }
    Ok(SymFile::from_vec(places))
}
