//! The command `bench N`: a generated workload is read, decided and counted.

ghost use Rattle.std.specs.Prelude.{◌≡◌, ◌≤◌, IfOk, IfErr, OnOk, OnErr};
ghost use Rattle.hk_io.specs.Faults.{Rose};
ghost use Rattle.hk_io.specs.Shown.{shown_with, ShowsPrefix};
ghost use Rattle.ir_ast.specs.ProgramView.{view_module};
ghost use Rattle.spec_tree.specs.Sorted.{IsWellSorted};
ghost use Rattle.spec_tree.specs.View.{view_spec};
ghost use Rattle.spec_kernel.specs.Fit.{FitsModule};
ghost use Rattle.hk_gen.specs.Workload.{kernel_text, spec_text};
ghost use Rattle.hk_verdict.specs.declared.verdict.InitVerdict.TheVariants.{NotRun};
ghost use Rattle.hk_verify.specs.Inputs.{ReadsTo, ShelfView};
ghost use Rattle.hk_verify.specs.Answers.{SinkView, HidesNone};
ghost use Rattle.hk_verify.specs.Words.{bytes_of};
ghost use Rattle.hk_verify.specs.Bench.{AreDecided, CountsWith, HasBenchCause, MeansBench, bench_status, count_line, counts_text};

use crate::answer::{Answer, TopFault};
use crate::inputs::{Inputs, SPEC_LIMIT, read_both};
use crate::kernel::KERNEL_LIMIT;
use crate::kinds::{Counts, count_kinds, has_memory};
use crate::refusal::refuse;
use crate::verdicts::verdicts_of;
use crate::verify::cut;
use crate::words::USUAL_CONFLICTS;
use hk_gen::generate;
use hk_io::{Sink, SinkFault};
use hk_rows::{Part, put_line};
use hk_seq::Seq;
use hk_verdict::{InitVerdict, Verdict};
use std::alloc::Global;

/// Reads generated texts as loaded ones are read. No generated text is over the limit of a loaded one; memory would be wanted there.
fn read_generated(alloc: Global, kernel: &[u8], spec: &[u8]) -> Result<Inputs, TopFault>
    ensures read { ReadsTo kernel.now spec.now result }
    ensures sorted { IfOk result (λ inputs. IsWellSorted (view_spec inputs.spec)) }
    ensures fits { IfOk result (λ inputs. FitsModule (view_module inputs.kernel) (view_spec inputs.spec)) }
{
    if kernel.len() <= KERNEL_LIMIT as usize && spec.len() <= SPEC_LIMIT as usize {
        read_both(alloc, kernel, spec)
    } else {
        Err(TopFault::Memory)
    }
}

/// The kernel and the specification of a workload of `n` handlers.
fn workload(alloc: Global, n: u64) -> Result<Inputs, TopFault>
    requires some { 1 ≤ n }
    requires few { n ≤ 64 }
    ensures read { ReadsTo (kernel_text n) (spec_text n) result }
    ensures sorted { IfOk result (λ inputs. IsWellSorted (view_spec inputs.spec)) }
    ensures fits { IfOk result (λ inputs. FitsModule (view_module inputs.kernel) (view_spec inputs.spec)) }
{
    match generate(alloc, n as u32) {
        Ok(texts) => read_generated(alloc, &texts.0, &texts.1),
        Err(_) => Err(TopFault::Memory),
    }
}

/// The verdicts of a workload of `n` handlers.
fn decided(alloc: Global, n: u64) -> Result<Vec<Verdict>, TopFault>
    requires some { 1 ≤ n }
    requires few { n ≤ 64 }
    ensures decided { IfOk result (λ verdicts. AreDecided n verdicts.items) }
    ensures fault { IfErr result (HasBenchCause n) }
{
    let inputs = workload(alloc, n)?;
    match verdicts_of(alloc, &inputs.kernel, &inputs.spec, USUAL_CONFLICTS) {
        Ok(verdicts) => Ok(verdicts),
        Err(_) => Err(TopFault::Memory),
    }
}

/// Puts the line of a count.
fn put_count<O: Sink>(out: &mut O, word: &[u8], count: usize) -> Result<(), SinkFault>
    ensures whole { OnOk result (O.shown out.new ≡ shown_with (O.shown out.old) (count_line (word.now, count))) }
    ensures cut { OnErr result (ShowsPrefix (O.shown out.old) (O.shown out.new) (count_line (word.now, count))) }
    ensures failed { OnErr result (Rose (O.faults out.old) (O.faults out.new)) }
    ensures still { OnOk result (O.faults out.new ≡ O.faults out.old) }
{
    put_line(out, &[Part::Text(word), Part::Decimal(count as u64)])
}

/// Puts the lines of counts.
fn put_counts<O: Sink>(out: &mut O, counts: &Counts) -> Result<(), SinkFault>
    ensures whole { OnOk result (O.shown out.new ≡ shown_with (O.shown out.old) (counts_text counts.now)) }
    ensures cut { OnErr result (ShowsPrefix (O.shown out.old) (O.shown out.new) (counts_text counts.now)) }
    ensures failed { OnErr result (Rose (O.faults out.old) (O.faults out.new)) }
    ensures still { OnOk result (O.faults out.new ≡ O.faults out.old) }
{
    put_count(out, b"handlers ", counts.handlers)?;
    put_count(out, b"accept ", counts.accepted)?;
    put_count(out, b"reject ", counts.rejected)?;
    put_count(out, b"unknown ", counts.unknown)?;
    put_count(out, b"memory ", counts.memory)
}

/// The status of a workload whose lines are shown: 7 where memory was refused for a handler, else 0.
fn status_of(verdicts: &[Verdict]) -> u8
    ensures { result ≡ bench_status verdicts.now }
{
    if has_memory(verdicts) { 7 } else { 0 }
}

/// Puts the counts of the verdicts and answers with them.
fn report<O: Sink>(out: &mut O, verdicts: Vec<Verdict>) -> Answer
    ensures counts { let sink : SinkView = record { shown = O.shown out.old; shown' = O.shown out.new; faults = O.faults out.old; faults' = O.faults out.new } in
        CountsWith sink result result.fault }
    ensures verdicts { result.verdicts ≡ verdicts.items }
    ensures init { result.init ≡ NotRun }
{
    let counts = count_kinds(&verdicts);
    if put_counts(out, &counts).is_err() {
        return cut(InitVerdict::NotRun, verdicts);
    }
    Answer {
        status: status_of(&verdicts),
        init: InitVerdict::NotRun,
        verdicts: Seq::from_vec(verdicts),
        fault: None,
    }
}

/// Does `bench N`, where the words are these: the texts of a workload of `n` handlers are generated and read, every handler is decided
/// with the usual budget, and then the verdicts are counted. Nothing is loaded.
pub fn bench<O: Sink>(alloc: Global, words: &[String], n: u64, out: &mut O) -> Answer
    requires some { 1 ≤ n }
    requires few { n ≤ 64 }
    ensures meaning { let sink : SinkView = record { shown = O.shown out.old; shown' = O.shown out.new; faults = O.faults out.old; faults' = O.faults out.new } in
        MeansBench sink (bytes_of words.now) n result }
    ensures unhidden { (view : ShelfView) → view.after ≡ view.before →
        let sink : SinkView = record { shown = O.shown out.old; shown' = O.shown out.new; faults = O.faults out.old; faults' = O.faults out.new } in
        HidesNone view sink result }
{
    match decided(alloc, n) {
        Ok(verdicts) => report(out, verdicts),
        Err(fault) => refuse(alloc, out, words, fault),
    }
}
