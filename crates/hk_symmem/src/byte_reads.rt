//! Initial memory by bytes: each array has one byte of its object in each entry.

ghost use Rattle.std.specs.Prelude.{◌≡◌, IfOk};
ghost use Rattle.hk_symmem.specs.Origins.{AreOriginsOf};

use crate::given::{memory_by, number_of};
use crate::reads::InitialReads;
use crate::source::{Source, copies_of, sources_of};
use hk_term::{TermId, Terms, Valuation};
use ir_layout::{KMemory, Layout};
use std::alloc::{AllocError, Global};
use std::marker::Model;

/// Reads of bytes: byte i of the mutable object o is entry i of the array with the number o. A contract sees where the bytes of
/// each object come from.
#[derive(Drop)]
pub struct ByteReads {
    sources: Vec<Source>,
}

impl Model for ByteReads {
    ghost use Rattle.std.specs.Prelude.{List, map};
    ghost use Rattle.hk_symmem.specs.Origins.{Origin};
    ghost use Rattle.hk_symmem.specs.Sources.{origin_of};

    ghost Value = { List Origin };

    ghost view = { λ r. map origin_of r.sources.items };
}

impl ByteReads {
    /// The reads of a layout's objects. The bytes of the constants are kept.
    pub fn new(alloc: Global, layout: &Layout) -> Result<ByteReads, AllocError>
        ensures { IfOk result (λ r. AreOriginsOf layout.now.objects r) }
    {
        let sources = sources_of(alloc, layout)?;
        Ok(ByteReads { sources })
    }
}

impl InitialReads for ByteReads {
    ghost origins = { λ r. r };

    fn initial(
        &self,
        _alloc: Global,
        t: &mut Terms,
        object: u32,
        offset: TermId,
        bytes: u32,
    ) -> Result<TermId, AllocError> {
        let made = number_of(t, &self.sources, object, offset, bytes)?;
        Ok(made)
    }

    fn memory_of(
        &self,
        alloc: Global,
        layout: &Layout,
        v: &Valuation,
    ) -> Result<KMemory, AllocError> {
        let memory = memory_by(alloc, &self.sources, layout.objects(), v)?;
        Ok(memory)
    }

    fn copy(&self, alloc: Global) -> Result<ByteReads, AllocError> {
        let sources = copies_of(alloc, &self.sources)?;
        Ok(ByteReads { sources })
    }
}
