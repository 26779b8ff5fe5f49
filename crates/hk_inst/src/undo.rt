//! Back to what stood before: where memory is refused, a question is cut to its former sizes.

ghost use Rattle.std.specs.Prelude.{◌≡◌, ℕ};
ghost use Rattle.hk_cnf.specs.CircuitParts.{IsCircuit};
ghost use Rattle.hk_inst.specs.Questions.{Asked};
ghost use Rattle.hk_inst.specs.States.{asked_of};
ghost use Rattle.hk_inst.specs.Adding.{Lengthened, AreSizes, WasSized};

use crate::state::State;
use hk_cnf::GateSizes;

// How much there is of each kind.
#[derive(Clone, Copy)]
pub(crate) struct Sizes {
    pub terms: u64,
    pub gates: GateSizes,
    pub bits: u64,
    pub reads: usize,
    pub quantifiers: usize,
    pub openings: usize,
    pub instances: usize,
    pub demands: usize,
    pub next: u32,
}

// How much there is of each kind now.
pub(crate) fn sizes_of(s: &State) -> Sizes
    ensures sizes { AreSizes (asked_of s.now) s.now.next result }
    ensures circuit { IsCircuit s.now.gates }
{
    Sizes {
        terms: s.terms.len(),
        gates: s.gates.sizes(),
        bits: s.bits.len(),
        reads: s.reads.len(),
        quantifiers: s.quantifiers.len(),
        openings: s.openings.len(),
        instances: s.instances.len(),
        demands: s.demands.len(),
        next: s.next,
    }
}

// Cuts a question back to what stood before.
pub(crate) fn undo(s: &mut State, to: Sizes)
    requires { WasSized (asked_of s.old) to }
    ensures back { (q : Asked) (next : ℕ) → Lengthened q (asked_of s.old) → AreSizes q next to → asked_of s.new ≡ q }
    ensures first { s.new.first ≡ s.old.first }
    ensures next { s.new.next ≡ to.next }
{
    s.gates.sizes();
    s.terms.cut(to.terms);
    s.gates.cut(to.gates);
    s.bits.cut(to.bits);
    s.reads.truncate(to.reads);
    s.quantifiers.truncate(to.quantifiers);
    s.openings.truncate(to.openings);
    s.instances.truncate(to.instances);
    s.demands.truncate(to.demands);
    s.next = to.next;
}
