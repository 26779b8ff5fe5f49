//! The whole text.

ghost use Rattle.std.specs.Prelude.{◌≡◌, List, [], map, Err, IfErr, OnOk};
ghost use Rattle.hk_cnf.specs.Text.{lines_of};
ghost use Rattle.ir_ast.specs.ProgramView.{view_module};
ghost use Rattle.ir_layout.specs.Layouts.{LayoutView, IsLayoutOf};
ghost use Rattle.spec_tree.specs.Sorted.{IsWellSorted};
ghost use Rattle.spec_tree.specs.View.{view_spec};
ghost use Rattle.hk_cert_text.specs.declared.entry.Entry.{Entry as AnyEntry};
ghost use Rattle.hk_cert.specs.Steps.{line_at, place_of, Gives};
ghost use Rattle.hk_cert.specs.Reading as definition;
ghost use Rattle.hk_cert_read.specs.Whole.{Reads};

use crate::certificate::Certificate;
use crate::handlers::entries_at;
use hk_cert::CertStop;
use hk_cert::at::{At, next_line, refused};
use hk_cert_lines::CertReason;
use hk_cert_text::Entry;
use hk_seq::Seq;
use ir_kernel::Kernel;
use ir_layout::KMemory;
use spec_tree::Spec;
use std::alloc::Global;

/// Reads a line of this text alone.
fn fixed_line<'t>(fixed: &[u8], at: At<'t>) -> Result<((), At<'t>), CertStop>
    ensures { Gives (λ u. u) result (line_at (definition.is_line fixed.now) (place_of at.entry)) }
{
    let Some((line, after)) = next_line(at)? else {
        return Err(refused(at.line, CertReason::Q1));
    };
    if line == fixed {
        Ok(((), after))
    } else {
        Err(refused(at.line, CertReason::Q1))
    }
}

/// Reads the lines from the first to the last.
fn text_at<'t>(
    alloc: Global,
    kernel: &Kernel,
    initial: &KMemory,
    spec: &Spec,
    at: At<'t>,
) -> Result<(Seq<Entry>, At<'t>), CertStop>
    requires { IsWellSorted (view_spec spec.now) }
    ensures { (l : LayoutView) → IsLayoutOf (view_module kernel.now) l → initial.now ≡ map (λ o. o.bytes) l.objects →
        Gives (λ entries. entries) result (definition.text_at (view_module kernel.now) l.objects (view_spec spec.now) (place_of at.entry)) }
{
    let (_first, begun) = fixed_line(b"hkv certificate 1", at)?;
    let (entries, behind) = entries_at(alloc, kernel, initial, spec, begun)?;
    let (_last, after) = fixed_line(b"end", behind)?;
    Ok((entries, after))
}

/// Refuses a line behind the last one.
fn no_line(at: At<'_>) -> Result<(), CertStop>
    ensures ok { OnOk result (lines_of at.entry.text.now ≡ []) }
    ensures err { IfErr result (λ stop. (entries : List AnyEntry) → Reads (Err stop) (definition.ended entries at.entry.line (lines_of at.entry.text.now))) }
{
    match next_line(at)? {
        None => Ok(()),
        Some(_) => Err(refused(at.line, CertReason::Q1)),
    }
}

/// Reads a text of which no line follows the last one.
fn all_of(
    alloc: Global,
    kernel: &Kernel,
    initial: &KMemory,
    spec: &Spec,
    text: &[u8],
) -> Result<Certificate, CertStop>
    requires { IsWellSorted (view_spec spec.now) }
    ensures { (l : LayoutView) → IsLayoutOf (view_module kernel.now) l → initial.now ≡ map (λ o. o.bytes) l.objects →
        Reads result (definition.certificate_of (view_module kernel.now) l.objects (view_spec spec.now) text.now) }
{
    let (entries, after) = text_at(alloc, kernel, initial, spec, At { text, line: 1 })?;
    no_line(after)?;
    Ok(Certificate { entries })
}

/// The certificate that a text spells for a kernel and its specification, or the first line that fails with its least reason: `Q1` where it
/// is not spelled or out of place, `Q2` where a number is out of its range, `Q3` where a name or an obligation is not the next.
///
/// It takes time linear in the text and in the states of its rejections. A text of 2^31 bytes or more may be want of memory.
pub fn read_certificate(
    alloc: Global,
    text: &[u8],
    kernel: &Kernel,
    spec: &Spec,
) -> Result<Certificate, CertStop>
    requires sorted { IsWellSorted (view_spec spec.now) }
    ensures { (l : LayoutView) → IsLayoutOf (view_module kernel.now) l →
        Reads result (definition.certificate_of (view_module kernel.now) l.objects (view_spec spec.now) text.now) }
{
    // For the proof: the kernel's module is checked, so its initialisers fit.
    let _checked = kernel.checked();
    let initial = KMemory::initial(alloc, kernel.layout())?;
    all_of(alloc, kernel, &initial, spec, text)
}
