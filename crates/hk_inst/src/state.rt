//! What a question keeps, and the calls that blast a term and require its literal.

ghost use Rattle.std.specs.Prelude.{◌<◌, List, length, OnOk};
ghost use Rattle.hk_term.specs.declared.node.Node.{Node};
ghost use Rattle.hk_cnf.specs.Front.{IsFront};
ghost use Rattle.hk_blast.specs.Blasted.{HasWord, word_in, AreBlasted, Lengthens};
ghost use Rattle.hk_inst.specs.Growing.{IsMade, IsRequiring};

use crate::added::InstanceSet;
use crate::opening::Opening;
use hk_blast::{BitTable, blast};
use hk_cnf::Gates;
use hk_term::{TermId, Terms};
use std::alloc::AllocError;

// The parts of a question. Reads and quantifiers are places in the list of terms, by their numbers. The ids from `first` on
// stand for numbers of tuples; from `next` on none is used.
#[derive(Drop)]
pub(crate) struct State {
    pub terms: Terms,
    pub goal: TermId,
    pub gates: Gates,
    pub bits: BitTable,
    pub reads: Vec<u64>,
    pub quantifiers: Vec<u64>,
    pub openings: Vec<Opening>,
    pub instances: InstanceSet,
    pub demands: Vec<TermId>,
    pub first: u32,
    pub next: u32,
}

// Makes the circuit of a term.
pub(crate) fn make(
    terms: &Terms,
    t: TermId,
    gates: &mut Gates,
    bits: &mut BitTable,
) -> Result<(), AllocError>
    requires term { t < length terms.now }
    requires table { AreBlasted terms.now gates.old bits.old }
    ensures made { OnOk result (IsMade terms.now gates.old gates.new bits.old bits.new t) }
    ensures front { IsFront gates.old gates.new }
    ensures lengthens { Lengthens terms.now gates.old.vars bits.old bits.new }
{
    let done = blast(terms, t, gates, bits);
    gates.sizes();
    done
}

// Requires that a term is true.
pub(crate) fn require(t: TermId, gates: &mut Gates, bits: &BitTable) -> Result<(), AllocError>
    requires table { (nodes : List Node) × (AreBlasted nodes gates.old bits.now) }
    requires known { HasWord bits.now t }
    ensures requiring { OnOk result (IsRequiring gates.old gates.new (word_in bits.now t)) }
    ensures front { IsFront gates.old gates.new }
{
    match bits.get(t) {
        Some(word) => {
            let done = gates.require(word);
            gates.sizes();
            done
        }
        None => Err(AllocError),
    }
}
