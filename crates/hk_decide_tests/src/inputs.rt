//! A kernel and a specification that fits it, with a handler, of their texts.

ghost use Rattle.std.specs.Prelude.{◌<◌, IfSome, length};
ghost use Rattle.ir_ast.specs.ProgramView.{view_module};
ghost use Rattle.spec_tree.specs.Sorted.{IsWellSorted};
ghost use Rattle.spec_tree.specs.View.{view_spec};
ghost use Rattle.spec_kernel.specs.Fit.{FitsModule};

use hk_inputs::{Inputs, read};
use std::alloc::Global;

/// Reads both texts; nothing where the specification has no transition.
pub fn read_both(alloc: Global, kernel: &str, spec: &str) -> Option<Inputs>
    ensures sorted { IfSome result (λ inputs. IsWellSorted (view_spec inputs.spec)) }
    ensures fits { IfSome result (λ inputs. FitsModule (view_module inputs.kernel) (view_spec inputs.spec)) }
    ensures there { IfSome result (λ inputs. 0 < length inputs.spec.transitions) }
{
    match read(alloc, kernel.as_bytes(), spec.as_bytes()) {
        Some(inputs) => {
            if inputs.spec.transitions.as_slice().len() == 0 {
                drop(inputs);
                return None;
            }
            Some(inputs)
        }
        None => None,
    }
}
