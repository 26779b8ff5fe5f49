//! The command `verify KERNEL SPEC [--conflicts N]`.

ghost use Rattle.std.specs.Prelude.{◌≡◌, ◌≤◌, ℕ, List, [], Some, None, true, length, vec_len, IfOk};
ghost use Rattle.std.specs.Vec.{vec_capacity};
ghost use Rattle.ir_ast.specs.ProgramView.{view_module};
ghost use Rattle.spec_tree.specs.Sorted.{IsWellSorted};
ghost use Rattle.spec_tree.specs.View.{view_spec};
ghost use Rattle.spec_kernel.specs.Fit.{FitsModule};
ghost use Rattle.hk_decide.specs.Opening.{IsOpening};
ghost use Rattle.hk_verify.specs.declared.answer.TopFault.TheVariants.{Write};
ghost use Rattle.hk_verify.specs.Lines.{verdict_status, is_failed as is_failed_of, is_faulted as is_faulted_of, open_status as open_status_of};
ghost use Rattle.hk_verify.specs.Inputs.{ShelfView};
ghost use Rattle.hk_verify.specs.Answers.{SinkView, HidesNone, Means, Reports};
ghost use Rattle.hk_verify.specs.Headline.{AcceptsCorrect, RejectsRefuted, UnknownsSpent};
ghost use Rattle.hk_verify.specs.Verdicts.{AreKept};
ghost use Rattle.hk_verify.specs.Words.{IsVerify, bytes_of};

use crate::answer::{Answer, TopFault};
use crate::inputs::{Inputs, read_inputs};
use crate::kinds::{has_memory, has_rejection, has_unknown};
use crate::refusal::{refuse, status};
use crate::verdicts::decide_all;
use hk_decide::open;
use hk_io::{Shelf, Sink};
use hk_seq::Seq;
use hk_verdict::{InitVerdict, Verdict, put_init};
use std::alloc::{AllocError, Global};

/// Whether an opening is one that fails.
fn is_failed(init: InitVerdict) -> bool
    ensures { result ≡ is_failed_of init }
{
    match init {
        InitVerdict::NotRun => false,
        InitVerdict::Holds => false,
        InitVerdict::FailsInvariant(_) => true,
        InitVerdict::FailsProperty(_) => true,
    }
}

/// Whether something was found wrong: the opening fails, or a handler is rejected.
pub fn is_faulted(init: InitVerdict, verdicts: &[Verdict]) -> bool
    ensures { result ≡ is_faulted_of init verdicts.now }
{
    is_failed(init) || has_rejection(verdicts)
}

/// The status of a verification in which nothing is wrong: 7 where a verdict is want of memory, else 2 where a handler was not decided,
/// else 0.
fn open_status(verdicts: &[Verdict]) -> u8
    ensures { result ≡ open_status_of verdicts.now }
{
    if has_memory(verdicts) {
        7
    } else if has_unknown(verdicts) {
        2
    } else {
        0
    }
}

/// The status of a verification without a fault: 1 where the opening fails or a verdict is a rejection.
fn status_of(init: InitVerdict, verdicts: &[Verdict]) -> u8
    ensures { result ≡ verdict_status init verdicts.now }
{
    if is_faulted(init, verdicts) {
        1
    } else {
        open_status(verdicts)
    }
}

/// The answer after a failed put, with these verdicts: in `verify` those up to the one whose line failed.
pub fn cut(init: InitVerdict, verdicts: Vec<Verdict>) -> Answer
    ensures status { result.status ≡ 6 }
    ensures init { result.init ≡ init }
    ensures verdicts { result.verdicts ≡ verdicts.items }
    ensures fault { result.fault ≡ Some Write }
{
    Answer {
        status: status(&TopFault::Write),
        init,
        verdicts: Seq::from_vec(verdicts),
        fault: Some(TopFault::Write),
    }
}

/// What is known before the first line: the opening, and a list with room for all verdicts.
#[derive(Drop)]
pub struct Begun {
    pub init: InitVerdict,
    pub verdicts: Vec<Verdict>,
}

/// Reserves the verdicts of all handlers, and tests the initial memory.
pub fn begin(alloc: Global, inputs: &Inputs) -> Result<Begun, AllocError>
    requires sorted { IsWellSorted (view_spec inputs.now.spec) }
    requires fits { FitsModule (view_module inputs.now.kernel) (view_spec inputs.now.spec) }
    ensures opening { IfOk result (λ b. IsOpening (view_module inputs.now.kernel) (view_spec inputs.now.spec) b.init) }
    ensures empty { IfOk result (λ b. b.verdicts.items ≡ []) }
    ensures unused { IfOk result (λ b. vec_len b.verdicts ≡ 0) }
    ensures room { IfOk result (λ b. length inputs.now.spec.transitions ≤ vec_capacity b.verdicts) }
{
    let verdicts = Vec::with_capacity(alloc, inputs.spec.transitions.as_slice().len())?;
    let init = open(alloc, &inputs.kernel, &inputs.spec)?;
    Ok(Begun { init, verdicts })
}

/// Puts the opening and decides every handler, and keeps the proofs of acceptances where they are asked for; the list of verdicts has room
/// for all of them.
pub fn report<O: Sink>(
    alloc: Global,
    inputs: &Inputs,
    budget: u64,
    keep: bool,
    init: InitVerdict,
    mut verdicts: Vec<Verdict>,
    out: &mut O,
) -> Answer
    requires sorted { IsWellSorted (view_spec inputs.now.spec) }
    requires fits { FitsModule (view_module inputs.now.kernel) (view_spec inputs.now.spec) }
    requires budget { 1 ≤ budget }
    requires opening { IsOpening (view_module inputs.now.kernel) (view_spec inputs.now.spec) init }
    requires empty { verdicts.items ≡ [] }
    requires unused { vec_len verdicts ≡ 0 }
    requires room { length inputs.now.spec.transitions ≤ vec_capacity verdicts }
    ensures reports { let sink : SinkView = record { shown = O.shown out.old; shown' = O.shown out.new; faults = O.faults out.old; faults' = O.faults out.new } in
        Reports sink budget (view_module inputs.now.kernel) (view_spec inputs.now.spec) result }
    ensures kept { keep ≡ true → result.fault ≡ None → AreKept (view_spec inputs.now.spec) (view_spec inputs.now.spec).transitions result.verdicts }
{
    if put_init(out, &inputs.spec, init).is_err() {
        return cut(init, verdicts);
    }
    let decided = decide_all(
        alloc,
        &inputs.kernel,
        &inputs.spec,
        budget,
        keep,
        &mut verdicts,
        out,
    );
    if decided.is_err() {
        return cut(init, verdicts);
    }
    Answer {
        status: status_of(init, &verdicts),
        init,
        verdicts: Seq::from_vec(verdicts),
        fault: None,
    }
}

/// Does `verify KERNEL SPEC [--conflicts N]`, the words that name these two files and allow a round of the solver so many conflicts: both
/// files are loaded and read, and the handlers are decided and reported.
pub fn verify<'x, F: Shelf, O: Sink>(
    alloc: Global,
    words: &'x [String],
    kernel: &'x str,
    spec: &'x str,
    budget: u64,
    shelf: &mut F,
    out: &mut O,
) -> Answer
    requires form { IsVerify (bytes_of words.now) kernel.now spec.now budget }
    requires budget { 1 ≤ budget }
    ensures accepted { AcceptsCorrect (F.held shelf.old) (bytes_of words.now) result }
    ensures rejected { RejectsRefuted (F.held shelf.old) (bytes_of words.now) result }
    ensures unknown { UnknownsSpent (F.held shelf.old) (bytes_of words.now) result }
    ensures meaning { (kernel_name spec_name : List ℕ) (conflicts : ℕ) → IsVerify (bytes_of words.now) kernel_name spec_name conflicts →
        let view : ShelfView = record { held = F.held shelf.old; before = F.faults shelf.old; after = F.faults shelf.new } in
        let sink : SinkView = record { shown = O.shown out.old; shown' = O.shown out.new; faults = O.faults out.old; faults' = O.faults out.new } in
        Means view sink (bytes_of words.now) kernel_name spec_name conflicts result }
    ensures unhidden { let view : ShelfView = record { held = F.held shelf.old; before = F.faults shelf.old; after = F.faults shelf.new } in
        let sink : SinkView = record { shown = O.shown out.old; shown' = O.shown out.new; faults = O.faults out.old; faults' = O.faults out.new } in
        HidesNone view sink result }
    ensures held { F.held shelf.new ≡ F.held shelf.old }
{
    load_and_report(alloc, words, kernel, spec, budget, shelf, out)
}

/// Loads and reads both files, decides the handlers and reports them.
fn load_and_report<'x, F: Shelf, O: Sink>(
    alloc: Global,
    words: &'x [String],
    kernel: &'x str,
    spec: &'x str,
    budget: u64,
    shelf: &mut F,
    out: &mut O,
) -> Answer
    requires { 1 ≤ budget }
    ensures meaning { let view : ShelfView = record { held = F.held shelf.old; before = F.faults shelf.old; after = F.faults shelf.new } in
        let sink : SinkView = record { shown = O.shown out.old; shown' = O.shown out.new; faults = O.faults out.old; faults' = O.faults out.new } in
        Means view sink (bytes_of words.now) kernel.now spec.now budget result }
    ensures unhidden { let view : ShelfView = record { held = F.held shelf.old; before = F.faults shelf.old; after = F.faults shelf.new } in
        let sink : SinkView = record { shown = O.shown out.old; shown' = O.shown out.new; faults = O.faults out.old; faults' = O.faults out.new } in
        HidesNone view sink result }
    ensures held { F.held shelf.new ≡ F.held shelf.old }
{
    let inputs = match read_inputs(alloc, shelf, kernel, spec) {
        Ok(inputs) => inputs,
        Err(fault) => return refuse(alloc, out, words, fault),
    };
    match begin(alloc, &inputs) {
        Ok(begun) => report(
            alloc,
            &inputs,
            budget,
            false,
            begun.init,
            begun.verdicts,
            out,
        ),
        Err(_) => refuse(alloc, out, words, TopFault::Memory),
    }
}
