//! For each block of a function the condition under which the run goes to it.

ghost use Rattle.std.specs.Prelude.{◌≡◌, ℕ, ◌<◌, true, false, List, length, slice_set, slice_index_or, slice_get, replicate, Some, IfOk};
ghost use Rattle.std.specs.List.{All};
ghost use Rattle.hk_term.specs.declared.node.Node.{Node};
ghost use Rattle.hk_symvalue.specs.Meaning.{IsTruth};

use hk_term::TermId;
use std::alloc::{AllocError, Global};
use std::marker::Model;

/// For each block of a function, by its place, the condition under which the run goes to it and was not there yet.
#[derive(Drop)]
pub struct Entries {
    terms: Vec<TermId>,
}

impl Model for Entries {
    ghost use Rattle.std.specs.Prelude.{List, ℕ};

    ghost Value = { List ℕ };

    ghost view = { λ e. e.terms.items };
}

impl Entries {
    /// One term for each of so many blocks.
    #[tactic(auto, using(crate::proofs::EntryLaws::one_more))]
    pub(crate) fn new(alloc: Global, blocks: usize, term: TermId) -> Result<Entries, AllocError>
        ensures { IfOk result (λ e. e ≡ replicate blocks term) }
    {
        let mut terms = Vec::new(alloc);
        for _ in 0..blocks {
            terms.push(term)?;
        }
        Ok(Entries { terms })
    }

    pub(crate) fn len(&self) -> usize
        ensures { result ≡ length self.now }
    {
        self.terms.len()
    }

    pub(crate) fn at(&self, block: u32) -> TermId
        requires { block < length self.now }
        ensures { slice_get self.now block ≡ Some result }
    {
        self.terms[block as usize]
    }

    pub(crate) fn set(&mut self, block: u32, term: TermId)
        requires { block < length self.old }
        ensures { self.new ≡ slice_set self.old block term }
    {
        self.terms[block as usize] = term;
    }
}
