//! Blocks: whether the run goes to one, and where its instructions begin.

ghost use Rattle.std.specs.Prelude.{◌≡◌, ℕ, ◌<◌, ◌≤◌, true, false, Bool, List, length, drop, IfOk};
ghost use Rattle.hk_term.specs.Meaning.{Reading};
ghost use Rattle.hk_symvalue.specs.Growth.{Extends};
ghost use Rattle.hk_symvalue.specs.Meaning.{IsTruth, is_true};
ghost use Rattle.hk_symexec.specs.Seen.{IsExec, seen, entered};
ghost use Rattle.hk_symexec.specs.Tracks.{is_phi, heads_in};

use crate::exec::Exec;
use crate::truths;
use hk_term::{Node, TermId, Terms};
use ir_code::{Act, Step};
use std::alloc::AllocError;

fn is_phi(act: &Act) -> bool
    ensures { result ≡ is_phi act.now }
{
    match act {
        Act::Phi { .. } => true,
        _ => false,
    }
}

/// How many phis stand at the beginning.
fn heads_in(steps: &[Step]) -> usize
    ensures heads { result ≡ heads_in steps.now }
    ensures within { result ≤ length steps.now }
{
    let mut index: usize = 0;
    for step in steps {
        if !is_phi(&step.act) {
            return index;
        }
        index += 1;
    }
    index
}

/// The instructions behind the phis.
pub(crate) fn behind_phis(steps: &[Step]) -> &[Step]
    ensures { result.now ≡ drop (heads_in steps.now) steps.now }
{
    steps.split_at(heads_in(steps)).1
}

/// Whether a condition is the constant false.
pub(crate) fn is_never(t: &Terms, condition: TermId) -> bool
    requires { IsTruth t.now condition }
    ensures { result ≡ true → (v : Reading) → is_true t.now condition v ≡ false }
{
    match t.node(condition) {
        Node::Const { value, .. } => *value == 0,
        _ => false,
    }
}

/// The run is here where it goes to a block.
#[tactic(auto, using(crate::proofs::Kept::exec_kept))]
pub(crate) fn enter(t: &mut Terms, x: Exec, block: u32) -> Result<Exec, AllocError>
    requires state { IsExec t.old x }
    requires inside { block < length x.entries }
    ensures frame { Extends t.old t.new }
    ensures within { IfOk result (λ y. IsExec t.new y) }
    ensures seen { IfOk result (λ y. (v : Reading) → seen t.new v y ≡ entered block (seen t.old v x)) }
{
    let Exec {
        guard: _,
        mut entries,
        file,
        back,
        valued,
        value,
        stuck,
    } = x;
    let never = truths::constant(t, false)?;
    let guard = entries.at(block);
    entries.set(block, never);
    Ok(Exec {
        guard,
        entries,
        file,
        back,
        valued,
        value,
        stuck,
    })
}
