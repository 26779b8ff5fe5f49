//! The inputs of a verification: two files, loaded in the order of their words and then read, the kernel's first.

ghost use Rattle.std.specs.Prelude.{◌≡◌, ◌<◌, ◌^◌, IfOk, IfErr, length};
ghost use Rattle.std.specs.Result.{result_err};
ghost use Rattle.ir_ast.specs.ProgramView.{view_module};
ghost use Rattle.spec_ast.specs.View as raws;
ghost use Rattle.spec_tree.specs.Sorted.{IsWellSorted};
ghost use Rattle.spec_tree.specs.View.{view_spec};
ghost use Rattle.spec_kernel.specs.View.{kernel_of};
ghost use Rattle.spec_kernel.specs.Fit.{FitsModule};
ghost use Rattle.spec_check.specs.Elaboration.{ElaboratesTo};
ghost use Rattle.hk_verify.specs.Specifications.{IsSpecStop, IsTheSpec};
ghost use Rattle.hk_verify.specs.Inputs.{ShelfView, AreRead, CountsLoads, HasCause, ReadsTo};

use crate::answer::TopFault;
use crate::kernel::{KERNEL_LIMIT, whole_kernel};
use crate::load::{Wanted, load_both};
use hk_io::Shelf;
use ir_ast::KernelStop;
use ir_kernel::Kernel;
use spec_ast::{RawSpec, SpecStop};
use spec_check::elaborate;
use spec_read::read_spec;
use spec_tree::Spec;
use std::alloc::Global;

/// The most bytes of a specification text: 1 MiB.
pub const SPEC_LIMIT: u32 = 1_048_576;

/// A kernel and a specification that fits it.
#[derive(Drop)]
pub struct Inputs {
    pub kernel: Kernel,
    pub spec: Spec,
}

/// The specification that raw lines stand for, for a kernel.
fn elaborated(alloc: Global, raw: &RawSpec, kernel: &Kernel) -> Result<Spec, SpecStop>
    ensures elaborated { ElaboratesTo (kernel_of (view_module kernel.now)) (raws.view_spec raw.now) result }
    ensures sorted { IfOk result (λ spec. IsWellSorted (view_spec spec)) }
    ensures fits { IfOk result (λ spec. FitsModule (view_module kernel.now) (view_spec spec)) }
{
    elaborate(alloc, raw, kernel.checked(), kernel.layout())
}

/// The specification that a text spells for a kernel.
fn spec_for(alloc: Global, text: &[u8], kernel: &Kernel) -> Result<Spec, SpecStop>
    requires { length text.now < 2 ^ 31 }
    ensures found { IfOk result (λ spec. IsTheSpec (view_module kernel.now) text.now (view_spec spec)) }
    ensures fault { IfErr result (IsSpecStop (view_module kernel.now) text.now) }
    ensures sorted { IfOk result (λ spec. IsWellSorted (view_spec spec)) }
    ensures fits { IfOk result (λ spec. FitsModule (view_module kernel.now) (view_spec spec)) }
{
    match read_spec(alloc, text) {
        Ok(raw) => match elaborated(alloc, &raw, kernel) {
            Ok(spec) => Ok(spec),
            Err(stop) => Err(stop),
        },
        Err(stop) => Err(stop),
    }
}

/// Reads both texts, the kernel's first.
pub fn read_both(alloc: Global, kernel: &[u8], spec: &[u8]) -> Result<Inputs, TopFault>
    requires kernel { length kernel.now < 2 ^ 31 }
    requires spec { length spec.now < 2 ^ 31 }
    ensures read { ReadsTo kernel.now spec.now result }
    ensures sorted { IfOk result (λ inputs. IsWellSorted (view_spec inputs.spec)) }
    ensures fits { IfOk result (λ inputs. FitsModule (view_module inputs.kernel) (view_spec inputs.spec)) }
{
    let kernel = match whole_kernel(alloc, kernel) {
        Ok(kernel) => kernel,
        Err(KernelStop::Refused(fault)) => return Err(TopFault::Kernel(fault)),
        Err(KernelStop::Memory) => return Err(TopFault::Memory),
    };
    match spec_for(alloc, spec, &kernel) {
        Ok(spec) => Ok(Inputs { kernel, spec }),
        Err(SpecStop::Refused(fault)) => Err(TopFault::Spec(fault)),
        Err(SpecStop::Memory) => Err(TopFault::Memory),
    }
}

/// Loads and reads both inputs.
pub fn read_inputs<F: Shelf>(
    alloc: Global,
    shelf: &mut F,
    kernel: &str,
    spec: &str,
) -> Result<Inputs, TopFault>
    ensures read { IfOk result (λ inputs. AreRead (F.held shelf.old) kernel.now spec.now (view_module inputs.kernel) (view_spec inputs.spec)) }
    ensures sorted { IfOk result (λ inputs. IsWellSorted (view_spec inputs.spec)) }
    ensures fits { IfOk result (λ inputs. FitsModule (view_module inputs.kernel) (view_spec inputs.spec)) }
    ensures fault { IfErr result (λ fault.
        let view : ShelfView = record { held = F.held shelf.old; before = F.faults shelf.old; after = F.faults shelf.new } in
        HasCause view kernel.now spec.now fault) }
    ensures counts { CountsLoads (result_err result) (F.faults shelf.old) (F.faults shelf.new) }
    ensures held { F.held shelf.new ≡ F.held shelf.old }
{
    let first = Wanted {
        name: kernel,
        limit: KERNEL_LIMIT,
    };
    let second = Wanted {
        name: spec,
        limit: SPEC_LIMIT,
    };
    let texts = load_both(alloc, shelf, &first, &second)?;
    read_both(alloc, &texts.first, &texts.second)
}
