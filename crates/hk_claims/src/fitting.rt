//! What a certificate that was read for a kernel is fit for.

ghost use Rattle.std.specs.Prelude.{◌≡◌, ◌<◌, ℕ, Ok, List, All, length, IfOk};
ghost use Rattle.ir_ast.specs.ProgramView.{view_module};
ghost use Rattle.ir_layout.specs.Layouts.{LayoutView, IsLayoutOf};
ghost use Rattle.spec_tree.specs.Plain.{Spec};
ghost use Rattle.hk_cert_text.specs.declared.entry.Entry.{Entry};
ghost use Rattle.hk_cert.specs.Reading.{certificate_of};
ghost use Rattle.hk_claims.specs.Fitting.{AllFit};

use crate::laws::what_is_read_fits;
use ir_kernel::{Kernel, initial_memory};
use ir_layout::KMemory;
use std::alloc::{AllocError, Global};

/// Bytes are below 256.
fn are_bytes(bytes: &[u8])
    ensures { All (λ b. b < 256) bytes.now }
{}

/// The bytes of objects are below 256.
fn hold_bytes(memory: &KMemory, objects: u32)
    requires { objects ≡ length memory.now }
    ensures { All (All (λ b. b < 256)) memory.now }
{
    'each: for k in 0..objects {
        are_bytes(memory.bytes(k));
    }
}

/// The entries of every certificate that a text spells for this kernel fit the handlers of its specification. It takes time and memory
/// linear in the bytes of the kernel's objects, for their initial bytes.
pub fn entries_fit(alloc: Global, kernel: &Kernel) -> Result<(), AllocError>
    ensures { (l : LayoutView) (s : Spec) (text : List ℕ) (entries : List Entry) → IsLayoutOf (view_module kernel.now) l
        → certificate_of (view_module kernel.now) l.objects s text ≡ Ok entries → IfOk result (λ _. AllFit l.objects s entries) }
{
    // For the proof: the kernel's module is checked, so its initialisers fit.
    let _checked = kernel.checked();
    let initial = initial_memory(alloc, kernel)?;
    let objects = kernel.layout().objects();
    hold_bytes(&initial, objects);
    what_is_read_fits();
    Ok(())
}
