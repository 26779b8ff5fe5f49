//! Raw specifications that are elaborated.

ghost use Rattle.std.specs.Prelude.{◌≡◌, true, None, Some, length, IfOk, IfErr};
ghost use Rattle.ir_ast.specs.ProgramView.{view_module};
ghost use Rattle.ir_layout.specs.Layouts.{IsLayoutOf};
ghost use Rattle.spec_ast.specs.View.{view_lines, view_spec as view_raw};
ghost use Rattle.spec_tree.specs.Sorted.{IsWellSorted};
ghost use Rattle.spec_tree.specs.View.{view_spec};
ghost use Rattle.spec_kernel.specs.Fit.{FitsModule};
ghost use Rattle.spec_kernel.specs.Seen.{kernel_in};
ghost use Rattle.spec_kernel.specs.View.{kernel_of};
ghost use Rattle.spec_kernel.specs.Widths.{HaveWidths};
ghost use Rattle.spec_lines.specs.Behind as behind;
ghost use Rattle.spec_lines.specs.Lines.{strays_in};
ghost use Rattle.spec_lines.specs.MadeView.{view_made};
ghost use Rattle.spec_lines.specs.View.{view_here, view_text, AreHeadsOf};
ghost use Rattle.spec_lines.specs.Whole as lines_of;
ghost use Rattle.spec_lines.specs.Whole.{AreStrays};
ghost use Rattle.spec_sound.specs.Limits.{IsWithin, copies_stand};
ghost use Rattle.spec_check.specs.Elaboration.{ElaboratesTo, IsStopped};
ghost use Rattle.spec_check.specs.Walk.{Tells, IsMade};
ghost use Rattle.spec_check.specs.Within as definition;

use crate::beginning::{Begun, begin, text_of};
use crate::limits::is_within;
use crate::spec::spec_of;
use crate::walk::judge_all;
use ir_check::Checked;
use ir_layout::Layout;
use spec_ast::{RawLine, RawSpec, SpecStop};
use spec_kernel::KernelNames;
use spec_lines::faults::Text;
use spec_lines::made::{Made, nothing_made};
use spec_sound::elaborated_are_sound;
use spec_tree::Spec;
use std::alloc::{AllocError, Global};

/// What is known before the walk: what the faults of lines depend on beside their places, and the first line's place.
#[derive(Drop)]
struct Known<'s> {
    text: Text,
    begun: Begun<'s>,
}

/// What is known before the walk.
fn known_of<'s>(
    alloc: Global,
    kernel: &'s KernelNames<'s>,
    lines: &'s [RawLine],
) -> Result<Known<'s>, AllocError>
    ensures strays { IfOk result (λ n. AreStrays (kernel_in kernel.now) (lines_of.hooks_of (view_lines lines.now)) (strays_in (kernel_in kernel.now) n.text.strays.items)) }
    ensures equated { IfOk result (λ n. n.text.equated ≡ lines_of.equated_from (behind.begin (kernel_in kernel.now) (view_lines lines.now)) (view_lines lines.now)) }
    ensures here { IfOk result (λ n. view_here n.begun.here ≡ behind.begin (kernel_in kernel.now) (view_lines lines.now)) }
    ensures heads { IfOk result (λ n. AreHeadsOf n.begun.here.scope.fields n.begun.heads.items) }
{
    let text = text_of(alloc, kernel, lines)?;
    let begun = begin(alloc, kernel, lines)?;
    Ok(Known { text, begun })
}

/// What lines that all stand made, and how many fields the text declares.
#[derive(Drop)]
struct MadeLines {
    made: Made,
    count: usize,
}

/// What lines make from the first line's place on, or the first that fails.
fn walked<'s>(
    alloc: Global,
    text: &Text,
    begun: Begun<'s>,
    lines: &'s [RawLine],
) -> Result<MadeLines, SpecStop>
    requires { AreHeadsOf begun.here.scope.fields begun.heads.items }
    ensures stands { IfOk result (λ j. lines_of.first_from (view_text begun.entry.here.scope.kernel.now text.now) (view_here begun.entry.here) (view_lines lines.now) ≡ None) }
    ensures gives { IfOk result (λ j. lines_of.made_from (view_here begun.entry.here) lines_of.nothing_made (view_lines lines.now) ≡ Some (view_made j.made)) }
    ensures copies { IfOk result (λ j. copies_stand (view_here begun.entry.here) (view_lines lines.now) ≡ true) }
    ensures counted { IfOk result (λ j. j.count ≡ length begun.entry.heads.items) }
    ensures refused { IfErr result (λ why. Tells why (lines_of.first_from (view_text begun.entry.here.scope.kernel.now text.now) (view_here begun.entry.here) (view_lines lines.now))) }
{
    let heads = begun.heads;
    let mut here = begun.here;
    let mut made = nothing_made(alloc);
    match judge_all(alloc, text, &mut here, heads.as_slice(), &mut made, lines) {
        Ok(()) => Ok(MadeLines {
            made,
            count: heads.len(),
        }),
        Err(stop) => {
            drop(made);
            Err(stop)
        }
    }
}

/// What lines make over a kernel, or the first that fails.
#[tactic(auto, using(crate::proofs::Ending::made_by, crate::proofs::Ending::stopped_by))]
fn judged<'s>(
    alloc: Global,
    kernel: &'s KernelNames<'s>,
    lines: &'s [RawLine],
) -> Result<MadeLines, SpecStop>
    ensures made { IfOk result (λ j. IsMade (kernel_in kernel.now) (view_lines lines.now) (view_made j.made) j.count) }
    ensures refused { IfErr result (IsStopped (kernel_in kernel.now) (view_lines lines.now)) }
{
    match known_of(alloc, kernel, lines) {
        Ok(known) => {
            let text = known.text;
            walked(alloc, &text, known.begun, lines)
        }
        Err(_) => Err(SpecStop::Memory),
    }
}

/// A specification of a text with so many declared fields, where it is within its limits.
fn limited(count: usize, spec: Spec) -> Result<Spec, AllocError>
    ensures same { IfOk result (λ s. view_spec s ≡ view_spec spec) }
    ensures within { IfOk result (λ s. definition.is_within count (view_spec s) ≡ true) }
{
    if !is_within(count, &spec) {
        return Err(AllocError);
    }
    Ok(spec)
}

/// The specification that was made, where it is within its limits.
fn whole(alloc: Global, kernel: &KernelNames<'_>, judged: MadeLines) -> Result<Spec, AllocError>
    ensures spec { IfOk result (λ s. lines_of.spec_with (kernel_in kernel.now) (view_made judged.made) ≡ Some (view_spec s)) }
    ensures within { IfOk result (λ s. definition.is_within judged.count (view_spec s) ≡ true) }
{
    let count = judged.count;
    let spec = spec_of(alloc, kernel, judged.made)?;
    limited(count, spec)
}

/// The specification that lines stand for, or the first that fails.
#[tactic(auto, using(crate::proofs::Ending::elaborated_by, crate::proofs::Ending::within_by))]
fn specified(alloc: Global, kernel: &KernelNames<'_>, lines: &[RawLine]) -> Result<Spec, SpecStop>
    ensures elaborated { ElaboratesTo (kernel_in kernel.now) (view_lines lines.now) result }
    ensures within { IfOk result (λ spec. IsWithin (kernel_in kernel.now) (view_lines lines.now) (view_spec spec)) }
{
    match judged(alloc, kernel, lines) {
        Ok(judged) => match whole(alloc, kernel, judged) {
            Ok(spec) => Ok(spec),
            Err(_) => Err(SpecStop::Memory),
        },
        Err(stop) => Err(stop),
    }
}

/// The same, where functions take and give integers of 1 to 64 bits.
fn specified_for(
    alloc: Global,
    kernel: &KernelNames<'_>,
    lines: &[RawLine],
) -> Result<Spec, SpecStop>
    ensures elaborated { ElaboratesTo (kernel_in kernel.now) (view_lines lines.now) result }
    ensures within { IfOk result (λ spec. IsWithin (kernel_in kernel.now) (view_lines lines.now) (view_spec spec)) }
    ensures widths { IfOk result (λ spec. HaveWidths (kernel_in kernel.now)) }
{
    if !kernel.has_widths() {
        return Err(SpecStop::Memory);
    }
    specified(alloc, kernel, lines)
}

/// The specification that the lines of a text stand for, over a checked kernel with its layout. The first line that fails is refused with
/// the least reason that applies to it. Besides memory that is refused, the answer is want of memory where a limit that reading keeps were
/// broken.
#[tactic(auto, using(crate::proofs::Ending::over, crate::proofs::Ending::sorted_over, crate::proofs::Ending::fits_over))]
pub fn elaborate(
    alloc: Global,
    raw: &RawSpec,
    checked: &Checked,
    layout: &Layout,
) -> Result<Spec, SpecStop>
    requires { IsLayoutOf (view_module checked.now) layout.now }
    ensures elaborated { ElaboratesTo (kernel_of (view_module checked.now)) (view_raw raw.now) result }
    ensures sorted { IfOk result (λ spec. IsWellSorted (view_spec spec)) }
    ensures fits { IfOk result (λ spec. FitsModule (view_module checked.now) (view_spec spec)) }
{
    elaborated_are_sound();
    match KernelNames::of(alloc, checked, layout) {
        Ok(kernel) => specified_for(alloc, &kernel, raw.lines.as_slice()),
        Err(_) => Err(SpecStop::Memory),
    }
}
