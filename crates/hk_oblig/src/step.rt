//! The parts of a transition from any abstract state.

ghost use Rattle.std.specs.Prelude.{◌≡◌, ◌<◌, ℕ, Some, List, slice_get, length, IfOk};
ghost use Rattle.ir_ast.specs.Program.{ModuleView};
ghost use Rattle.hk_symmem.specs.Origins.{Origin};
ghost use Rattle.spec_tree.specs.Plain as plain;
ghost use Rattle.spec_tree.specs.Sorted.{IsWellSorted};
ghost use Rattle.spec_tree.specs.View.{view_spec};
ghost use Rattle.hk_oblig.specs.Asking.{AreListed, IsReady};
ghost use Rattle.hk_case.specs.declared.Obligation.TheVariants.{Property};

use crate::arguments::argument_terms;
use crate::listed::Listed;
use crate::parts::{Parts, StepParts};
use crate::states::step_from;
use crate::truths::{all_properties, few, property_terms};
use hk_cells::CellReads;
use hk_symspec::SymAbstract;
use hk_term::Terms;
use spec_tree::Spec;
use std::alloc::{AllocError, Global};

/// The parts of the goals of properties, for the transition with this place.
pub(crate) fn step_listed(alloc: Global, spec: &Spec, h: u32) -> Result<Listed, AllocError>
    requires spec { IsWellSorted (view_spec spec.now) }
    requires there { h < length spec.now.transitions }
    ensures listed { IfOk result AreListed }
    ensures ready { (u : plain.Transition) → slice_get (view_spec spec.now).transitions h ≡ Some u → IfOk result (λ l. (m : ModuleView) (origins : List Origin) (k : ℕ) →
        IsReady m origins (view_spec spec.now) u l (Property k)) }
{
    // For the proof: there are fewer than 2^32 - 1 fields, or it ends for want of memory.
    let _fields = few(spec.fields.as_slice().len())?;
    let transition = &spec.transitions.as_slice()[h as usize];
    let mut terms = Terms::new(alloc);
    let args = argument_terms(alloc, &mut terms, transition.widths.as_slice())?;
    let state = SymAbstract::<CellReads>::free(alloc, spec);
    let properties = all_properties(alloc, &mut terms, spec, &state)?;
    let step = step_from(alloc, &mut terms, spec, h, &state, args.as_slice())?;
    let behind = property_terms(alloc, &mut terms, spec, &step.state)?;
    Ok(Listed {
        terms,
        parts: Parts::Step(StepParts { properties, behind }),
    })
}
