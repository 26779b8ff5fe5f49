//! What expressions over the kernel read.

use crate::limits::LAST_BASE;
use crate::unread::no_entry;
use hk_symexpr::{Limit, SymReads};
use hk_symmem::{InitialReads, SymMemory};
use hk_term::{TermId, Terms};
use spec_tree::{Spec, StateName};
use std::alloc::{AllocError, Global};

// A specification's kernel: expressions read the memory and no state.
#[derive(Drop)]
pub(crate) struct KernelReads<'a, R: InitialReads> {
    pub(crate) spec: &'a Spec,
    pub(crate) memory: &'a SymMemory<R>,
}

impl<R: InitialReads> SymReads for KernelReads<'_, R> {
    ghost use Rattle.std.specs.Prelude.{[]};
    ghost use Rattle.hk_symmem.specs.Guarded.{memory_at};
    ghost use Rattle.spec_tree.specs.Sorted.{over_kernel};
    ghost use Rattle.spec_tree.specs.View.{view_spec};
    ghost use Rattle.hk_symspec.specs.Standing.{IsKernelOver, last_base};
    ghost use Rattle.hk_symspec.specs.KernelLaws.{kernel_kept, memory_kept};

    ghost named = { λ s. over_kernel (view_spec s.spec.now) };

    ghost is_over = { λ s nodes. IsKernelOver (view_spec s.spec.now) nodes s.memory.now };

    ghost source = { λ s nodes v. record { old = []; new = []; memory = memory_at nodes s.memory.now v } };

    ghost limit = { λ s. last_base };

    fn limit(&self) -> u32 {
        LAST_BASE
    }

    fn load(
        &self,
        alloc: Global,
        t: &mut Terms,
        object: u32,
        offset: TermId,
        bytes: u32,
    ) -> Result<TermId, AllocError> {
        let made = self.memory.read(alloc, t, object, offset, bytes)?;
        Ok(made)
    }

    fn entry(
        &self,
        _alloc: Global,
        t: &mut Terms,
        _name: StateName,
        field: u32,
        _index: &[Limit],
    ) -> Result<TermId, AllocError> {
        let made = no_entry(t, self.spec, field)?;
        Ok(made)
    }

    ghost over_kept = { λ s old new o k. kernel_kept (view_spec s.spec.now) s.memory.now old new o k };

    ghost source_kept = { λ s old new o k v i. record { old = []; new = []; memory = memory_kept (view_spec s.spec.now) s.memory.now old new o k v i } };
}
