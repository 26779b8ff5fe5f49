//! The initial memory of a kernel, as terms over arrays and for a valuation.

ghost use Rattle.std.specs.Prelude.{◌≡◌, ◌<◌, List, length, All, IfOk, OnOk};
ghost use Rattle.hk_symmem.specs.Origins.{AreOriginsOf};
ghost use Rattle.hk_symresult.specs.Results.{AreFilled};
ghost use Rattle.hk_symspec.specs.Standing.{IsKernelOver};
ghost use Rattle.hk_term.specs.declared.node.Node.{Node};
ghost use Rattle.ir_ast.specs.ProgramView.{view_module};
ghost use Rattle.ir_layout.specs.Layouts.{IsLayoutOf};
ghost use Rattle.spec_kernel.specs.Fit.{FitsModule};
ghost use Rattle.spec_tree.specs.Shapes.{IsMemory};
ghost use Rattle.spec_tree.specs.View.{view_spec};

use hk_symmem::{InitialReads, SymMemory};
use hk_term::Valuation;
use ir_kernel::Kernel;
use ir_layout::{KMemory, Layout};
use spec_tree::Spec;
use std::alloc::{AllocError, Global};

/// Bytes are below 256.
fn are_bytes(bytes: &[u8])
    ensures { All (λ b. b < 256) bytes.now }
{}

/// The bytes of objects are below 256.
fn holds_bytes(memory: &KMemory, objects: u32)
    requires { objects ≡ length memory.now }
    ensures { All (λ o. All (λ b. b < 256) o) memory.now }
{
    'each: for k in 0..objects {
        are_bytes(memory.bytes(k));
    }
}

/// The initial bytes of a kernel's objects fill them.
fn look_at_objects(alloc: Global, kernel: &Kernel, layout: &Layout) -> Result<(), AllocError>
    requires { IsLayoutOf (view_module kernel.now) layout.now }
    ensures { OnOk result (AreFilled layout.now.objects) }
{
    let initial = KMemory::initial(alloc, layout)?;
    holds_bytes(&initial, layout.objects());
    Ok(())
}

/// The initial memory that reads give, as terms.
pub fn start<R: InitialReads>(
    alloc: Global,
    kernel: &Kernel,
    spec: &Spec,
    layout: &Layout,
    reads: R,
) -> Result<SymMemory<R>, AllocError>
    requires layout { IsLayoutOf (view_module kernel.now) layout.now }
    requires fits { FitsModule (view_module kernel.now) (view_spec spec.now) }
    requires origins { AreOriginsOf layout.now.objects (R.origins reads) }
    ensures { IfOk result (λ m. (nodes : List Node) → IsKernelOver (view_spec spec.now) nodes m) }
{
    look_at_objects(alloc, kernel, layout)?;
    let memory = SymMemory::new(alloc, layout, reads)?;
    Ok(memory)
}

/// The initial memory that reads give for a valuation.
pub fn memory_at<R: InitialReads>(
    alloc: Global,
    kernel: &Kernel,
    spec: &Spec,
    layout: &Layout,
    reads: &R,
    v: &Valuation,
) -> Result<KMemory, AllocError>
    requires layout { IsLayoutOf (view_module kernel.now) layout.now }
    requires fits { FitsModule (view_module kernel.now) (view_spec spec.now) }
    requires origins { AreOriginsOf layout.now.objects (R.origins reads.now) }
    ensures { IfOk result (λ m. IsMemory spec.now.objects m) }
{
    look_at_objects(alloc, kernel, layout)?;
    let memory = reads.memory_of(alloc, layout, v)?;
    Ok(memory)
}
