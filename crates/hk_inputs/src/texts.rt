//! A kernel and a specification that fits it, of their texts.

ghost use Rattle.std.specs.Prelude.{◌<◌, ◌^◌, IfOk, IfSome, length};
ghost use Rattle.ir_ast.specs.ProgramView.{view_module};
ghost use Rattle.spec_tree.specs.Sorted.{IsWellSorted};
ghost use Rattle.spec_tree.specs.View.{view_spec};
ghost use Rattle.spec_kernel.specs.Fit.{FitsModule};

use ir_kernel::Kernel;
use ir_read::read_module;
use spec_ast::{RawSpec, SpecStop};
use spec_check::elaborate;
use spec_read::read_spec;
use spec_tree::Spec;
use std::alloc::Global;

/// The most bytes of a text: 16 MiB.
const LIMIT: usize = 16_777_216;

/// A kernel and a specification that fits it.
#[derive(Drop)]
pub struct Inputs {
    pub kernel: Kernel,
    pub spec: Spec,
}

/// The kernel of a text, where it is one.
fn kernel_of(alloc: Global, text: &[u8]) -> Option<Kernel>
    requires { length text.now < 2 ^ 31 }
{
    match read_module(alloc, text) {
        Ok(read) => match Kernel::new(alloc, read) {
            Ok(kernel) => Some(kernel),
            Err(_) => None,
        },
        Err(_) => None,
    }
}

/// The specification that raw lines stand for, for a kernel.
fn elaborated(alloc: Global, raw: &RawSpec, kernel: &Kernel) -> Result<Spec, SpecStop>
    ensures sorted { IfOk result (λ spec. IsWellSorted (view_spec spec)) }
    ensures fits { IfOk result (λ spec. FitsModule (view_module kernel.now) (view_spec spec)) }
{
    elaborate(alloc, raw, kernel.checked(), kernel.layout())
}

/// The specification of a text for a kernel, where it is one.
fn spec_for(alloc: Global, text: &[u8], kernel: &Kernel) -> Option<Spec>
    requires { length text.now < 2 ^ 31 }
    ensures sorted { IfSome result (λ spec. IsWellSorted (view_spec spec)) }
    ensures fits { IfSome result (λ spec. FitsModule (view_module kernel.now) (view_spec spec)) }
{
    match read_spec(alloc, text) {
        Ok(raw) => match elaborated(alloc, &raw, kernel) {
            Ok(spec) => Some(spec),
            Err(_) => None,
        },
        Err(_) => None,
    }
}

/// Reads both texts; nothing where one is refused.
pub fn read(alloc: Global, kernel: &[u8], spec: &[u8]) -> Option<Inputs>
    ensures sorted { IfSome result (λ inputs. IsWellSorted (view_spec inputs.spec)) }
    ensures fits { IfSome result (λ inputs. FitsModule (view_module inputs.kernel) (view_spec inputs.spec)) }
{
    if kernel.len() > LIMIT || spec.len() > LIMIT {
        return None;
    }
    match kernel_of(alloc, kernel) {
        Some(kernel) => match spec_for(alloc, spec, &kernel) {
            Some(spec) => Some(Inputs { kernel, spec }),
            None => None,
        },
        None => None,
    }
}
