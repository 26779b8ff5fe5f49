//! The command `verify KERNEL SPEC [--conflicts N] --cert FILE`.

ghost use Rattle.std.specs.Prelude.{◌≡◌, ◌≤◌, ℕ, List, Some, None};
ghost use Rattle.std.specs.List.{All};
ghost use Rattle.ir_ast.specs.ProgramView.{view_module};
ghost use Rattle.spec_tree.specs.Sorted.{IsWellSorted};
ghost use Rattle.spec_tree.specs.View.{view_spec};
ghost use Rattle.spec_kernel.specs.Fit.{FitsModule};
ghost use Rattle.hk_verdict.specs.Report.{IsShownVerdict};
ghost use Rattle.hk_verify.specs.declared.answer.TopFault.TheVariants.{Memory as OfMemory, Write as OfWrite};
ghost use Rattle.hk_verify.specs.Answers.{SinkView};
ghost use Rattle.hk_verify.specs.Certified.{MeansCertified, ReportsAndSaves, Saves, SavingView, wanting_status};
ghost use Rattle.hk_verify.specs.Headline.{AcceptsCorrect, RejectsRefuted, UnknownsSpent};
ghost use Rattle.hk_verify.specs.Words.{IsCertifying, bytes_of};

use crate::answer::{Answer, TopFault};
use crate::inputs::{Inputs, read_inputs};
use crate::refusal::refuse;
use crate::verify::{begin, is_faulted, report};
use crate::words::Certifying;
use hk_cert_text::write_certificate;
use hk_io::{SaveFault, Shelf, Sink};
use std::alloc::Global;

/// The answer where memory was refused for the certificate of a report.
fn wanting(given: Answer) -> Answer
    ensures status { result.status ≡ wanting_status given }
    ensures init { result.init ≡ given.init }
    ensures verdicts { result.verdicts ≡ given.verdicts }
    ensures fault { result.fault ≡ Some OfMemory }
{
    let faulted = is_faulted(given.init, given.verdicts.as_slice());
    Answer {
        status: if faulted { 1 } else { 7 },
        init: given.init,
        verdicts: given.verdicts,
        fault: Some(TopFault::Memory),
    }
}

/// The answer where the certificate of a report could not be saved.
fn unsaved(given: Answer) -> Answer
    ensures status { result.status ≡ 6 }
    ensures init { result.init ≡ given.init }
    ensures verdicts { result.verdicts ≡ given.verdicts }
    ensures fault { result.fault ≡ Some OfWrite }
{
    Answer {
        status: 6,
        init: given.init,
        verdicts: given.verdicts,
        fault: Some(TopFault::Write),
    }
}

/// Writes the certificate of a report without a fault and saves it.
fn save<F: Shelf>(
    alloc: Global,
    inputs: &Inputs,
    cert: &str,
    given: Answer,
    shelf: &mut F,
) -> Answer
    requires sorted { IsWellSorted (view_spec inputs.now.spec) }
    requires shapes { All (IsShownVerdict (view_spec inputs.now.spec)) given.verdicts }
    requires whole { given.fault ≡ None }
    ensures { let view : SavingView = record { held = F.held shelf.old; held' = F.held shelf.new; before = F.faults shelf.old; after = F.faults shelf.new } in
        Saves view (view_module inputs.now.kernel) (view_spec inputs.now.spec) cert.now given result }
{
    let text = match write_certificate(
        alloc,
        &inputs.kernel,
        &inputs.spec,
        given.verdicts.as_slice(),
    ) {
        Ok(text) => text,
        Err(_) => return wanting(given),
    };
    match shelf.save(alloc, cert, &text) {
        Ok(()) => given,
        Err(SaveFault::Failed) => unsaved(given),
        Err(SaveFault::Memory) => wanting(given),
    }
}

/// Decides the handlers, reports them, and saves the certificate behind the whole report.
fn report_and_save<F: Shelf, O: Sink>(
    alloc: Global,
    words: &[String],
    inputs: &Inputs,
    budget: u64,
    cert: &str,
    shelf: &mut F,
    out: &mut O,
) -> Answer
    requires sorted { IsWellSorted (view_spec inputs.now.spec) }
    requires fits { FitsModule (view_module inputs.now.kernel) (view_spec inputs.now.spec) }
    requires budget { 1 ≤ budget }
    ensures { let view : SavingView = record { held = F.held shelf.old; held' = F.held shelf.new; before = F.faults shelf.old; after = F.faults shelf.new } in
        let sink : SinkView = record { shown = O.shown out.old; shown' = O.shown out.new; faults = O.faults out.old; faults' = O.faults out.new } in
        ReportsAndSaves view sink (bytes_of words.now) budget (view_module inputs.now.kernel) (view_spec inputs.now.spec) cert.now result }
{
    // For the proof: the kernel has a layout of its module.
    let _layout = inputs.kernel.layout();
    let begun = match begin(alloc, inputs) {
        Ok(begun) => begun,
        Err(_) => return refuse(alloc, out, words, TopFault::Memory),
    };
    let answer = report(alloc, inputs, budget, true, begun.init, begun.verdicts, out);
    match answer.fault {
        None => save(alloc, inputs, cert, answer, shelf),
        Some(_) => answer,
    }
}

/// Loads and reads both files, decides the handlers, reports them and saves the certificate.
fn load_and_certify<'x, F: Shelf, O: Sink>(
    alloc: Global,
    words: &'x [String],
    asked: &Certifying<'x>,
    shelf: &mut F,
    out: &mut O,
) -> Answer
    requires { 1 ≤ asked.now.budget }
    ensures { let view : SavingView = record { held = F.held shelf.old; held' = F.held shelf.new; before = F.faults shelf.old; after = F.faults shelf.new } in
        let sink : SinkView = record { shown = O.shown out.old; shown' = O.shown out.new; faults = O.faults out.old; faults' = O.faults out.new } in
        MeansCertified view sink (bytes_of words.now) asked.now.kernel.now asked.now.spec.now asked.now.budget asked.now.cert.now result }
{
    match read_inputs(alloc, shelf, asked.kernel, asked.spec) {
        Ok(inputs) => report_and_save(alloc, words, &inputs, asked.budget, asked.cert, shelf, out),
        Err(fault) => refuse(alloc, out, words, fault),
    }
}

/// Does `verify KERNEL SPEC [--conflicts N] --cert FILE`, the words that name these files and allow a round of the solver so many
/// conflicts: both files are loaded and read, the handlers are decided and reported, and behind the whole report the certificate is saved
/// once.
pub fn certify<'x, F: Shelf, O: Sink>(
    alloc: Global,
    words: &'x [String],
    asked: &Certifying<'x>,
    shelf: &mut F,
    out: &mut O,
) -> Answer
    requires form { IsCertifying (bytes_of words.now) asked.now.kernel.now asked.now.spec.now asked.now.budget asked.now.cert.now }
    requires budget { 1 ≤ asked.now.budget }
    ensures accepted { AcceptsCorrect (F.held shelf.old) (bytes_of words.now) result }
    ensures rejected { RejectsRefuted (F.held shelf.old) (bytes_of words.now) result }
    ensures unknown { UnknownsSpent (F.held shelf.old) (bytes_of words.now) result }
    ensures certified { (kernel_name spec_name : List ℕ) (conflicts : ℕ) (cert_name : List ℕ) → IsCertifying (bytes_of words.now) kernel_name spec_name conflicts cert_name →
        let view : SavingView = record { held = F.held shelf.old; held' = F.held shelf.new; before = F.faults shelf.old; after = F.faults shelf.new } in
        let sink : SinkView = record { shown = O.shown out.old; shown' = O.shown out.new; faults = O.faults out.old; faults' = O.faults out.new } in
        MeansCertified view sink (bytes_of words.now) kernel_name spec_name conflicts cert_name result }
{
    load_and_certify(alloc, words, asked, shelf, out)
}
