//! Arguments of calls.

ghost use Rattle.std.specs.Prelude.{◌≡◌, ℕ, true, false, ◌||◌, Bool, Some, List, length, IfOk};
ghost use Rattle.hk_term.specs.Meaning.{Reading, value};
ghost use Rattle.ir_machine.specs.Values as definition;
ghost use Rattle.ir_machine.specs.Values.{Registers};
ghost use Rattle.hk_symvalue.specs.Growth.{Extends};
ghost use Rattle.hk_symvalue.specs.Meaning.{IsTruth, IsSym, is_true, meaning};
ghost use Rattle.hk_symmem.specs.Guarded.{memory_at, IsOver, IsMemoryOf};
ghost use Rattle.hk_symaccess.specs.Accesses.{AreWhole};
ghost use Rattle.hk_symstep.specs.Held.{value_meaning};
ghost use Rattle.hk_symstep.specs.Files.{IsFile, registers_of, Covers};
ghost use Rattle.hk_symstep.specs.Steps.{AnswersPasses};

use crate::file::SymFile;
use crate::operands::operand;
use hk_symmem::{InitialReads, SymMemory};
use hk_symvalue::logic;
use hk_term::{TermId, Terms};
use ir_code::Input;
use ir_layout::Layout;
use std::alloc::AllocError;

// Whether one of the arguments is poison, up to the first that is not there.
pub(crate) fn poisoned<R: InitialReads>(
    t: &mut Terms,
    layout: &Layout,
    memory: &SymMemory<R>,
    file: &SymFile,
    arguments: &[Input],
) -> Result<TermId, AllocError>
    requires layout { IsMemoryOf layout.now.objects memory.now }
    requires whole { AreWhole layout.now.objects }
    requires over { IsOver t.old memory.now }
    requires file { IsFile t.old file.now }
    ensures frame { Extends t.old t.new }
    ensures truth { IfOk result (λ r. IsTruth t.new r) }
    ensures answers { IfOk result (λ r. (v : Reading) → AnswersPasses (is_true t.new r v) (definition.arguments_pass (memory_at t.old memory.now v) (registers_of t.old v file.now) arguments.now)) }
{
    let mut stuck = logic::constant(t, false)?;
    for argument in arguments {
        let value = operand(t, layout, memory, file, argument)?;
        match value {
            Some(value) => stuck = logic::or(t, stuck, value.poison)?,
            None => return Ok(stuck),
        }
    }
    Ok(stuck)
}

/// Whether a run is stuck at the arguments of a call: one of them is poison. Where one is not there, nothing is claimed of the rest.
pub fn passed<R: InitialReads>(
    t: &mut Terms,
    layout: &Layout,
    memory: &SymMemory<R>,
    file: &SymFile,
    arguments: &[Input],
) -> Result<TermId, AllocError>
    requires layout { IsMemoryOf layout.now.objects memory.now }
    requires whole { AreWhole layout.now.objects }
    requires over { IsOver t.old memory.now }
    requires file { IsFile t.old file.now }
    ensures frame { Extends t.old t.new }
    ensures truth { IfOk result (λ r. IsTruth t.new r) }
    ensures answers { IfOk result (λ r. (v : Reading) (rs : Registers) → Covers t.old v file.now rs → AnswersPasses (is_true t.new r v) (definition.arguments_pass (memory_at t.old memory.now v) rs arguments.now)) }
{
    let stuck = poisoned(t, layout, memory, file, arguments)?;
    Ok(stuck)
}
