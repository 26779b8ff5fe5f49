//! The command `lrat CNF PROOF`.

ghost use Rattle.std.specs.Result.{result_err};
ghost use Rattle.std.specs.Prelude.{◌≡◌, ◌≤◌, ◌<◌, ◌^◌, [], Some, None, Ok, Err, IfOk, IfErr, OnOk, OnErr, length};
ghost use Rattle.hk_io.specs.Faults.{Rose};
ghost use Rattle.hk_io.specs.Shown.{shown_with, ShowsPrefix};
ghost use Rattle.hk_cnf.specs.Clauses.{IsUnsatisfiable};
ghost use Rattle.hk_cnf.specs.Dimacs.{dimacs_of};
ghost use Rattle.hk_lrat.specs.Refutes.{Answers};
ghost use Rattle.hk_verify.specs.declared.answer.TopFault.TheVariants.{Memory as OfMemory};
ghost use Rattle.hk_verify.specs.Inputs.{ShelfView, CountsLoads};
ghost use Rattle.hk_verify.specs.Answers.{SinkView, HidesNone};
ghost use Rattle.hk_verify.specs.Words.{bytes_of};
ghost use Rattle.hk_verify.specs.Lrat.{HasLratCause, IsTried, MeansLrat, ReadsCnf, Tells, proof_fault, proof_status, proof_text};

use crate::answer::{Answer, TopFault};
use crate::load::{Wanted, load_both};
use crate::refusal::{refuse, status};
use hk_claims::row_reason;
use hk_cnf::{ClauseList, CnfStop, read_dimacs};
use hk_io::{Shelf, Sink, SinkFault};
use hk_lrat::{RefuteStop, RowReason, read_log, refutes};
use hk_rows::{Part, put_line};
use hk_seq::Seq;
use hk_verdict::InitVerdict;
use std::alloc::Global;

/// The most bytes of a clause file, and of a proof: 256 MiB.
pub const PROOF_LIMIT: u32 = 268_435_456;

/// Reads a clause file.
fn clauses(alloc: Global, text: &[u8]) -> Result<ClauseList, TopFault>
    requires { length text.now < 2 ^ 31 }
    ensures { ReadsCnf (dimacs_of text.now) result }
{
    match read_dimacs(alloc, text) {
        Ok(list) => Ok(list),
        Err(CnfStop::Refused(fault)) => Err(TopFault::Cnf(fault)),
        Err(CnfStop::Memory) => Err(TopFault::Memory),
    }
}

/// Reads the whole proof and then tries its rows over the list.
fn check(alloc: Global, list: &ClauseList, proof: &[u8]) -> Result<(), RefuteStop>
    requires { length proof.now < 2 ^ 31 }
    ensures answer { Answers result (proof_fault list.now proof.now) }
    ensures unsatisfiable { OnOk result (IsUnsatisfiable list.now) }
{
    let log = read_log(alloc, proof)?;
    refutes(alloc, list, &log)
}

/// The first row of the proof that fails, with its reason; none where the proof refutes the list.
fn outcome(
    alloc: Global,
    list: &ClauseList,
    proof: &[u8],
) -> Result<Option<(u64, RowReason)>, TopFault>
    requires { length proof.now < 2 ^ 31 }
    ensures outcome { IfOk result (λ outcome. outcome ≡ proof_fault list.now proof.now) }
    ensures sound { IfOk result (λ outcome. outcome ≡ None → IsUnsatisfiable list.now) }
    ensures memory { IfErr result (λ fault. fault ≡ OfMemory) }
{
    match check(alloc, list, proof) {
        Ok(()) => Ok(None),
        Err(RefuteStop::Row { row, reason }) => Ok(Some((row, reason))),
        Err(RefuteStop::Memory) => Err(TopFault::Memory),
    }
}

/// Loads both files, reads the clause file, and then reads and tries the proof.
fn try_proof<F: Shelf>(
    alloc: Global,
    shelf: &mut F,
    cnf: &str,
    proof: &str,
) -> Result<Option<(u64, RowReason)>, TopFault>
    ensures tried { IfOk result (λ outcome. IsTried (F.held shelf.old) cnf.now proof.now outcome) }
    ensures fault { IfErr result (λ fault.
        let view : ShelfView = record { held = F.held shelf.old; before = F.faults shelf.old; after = F.faults shelf.new } in
        HasLratCause view cnf.now proof.now fault) }
    ensures counts { CountsLoads (result_err result) (F.faults shelf.old) (F.faults shelf.new) }
    ensures held { F.held shelf.new ≡ F.held shelf.old }
{
    let first = Wanted {
        name: cnf,
        limit: PROOF_LIMIT,
    };
    let second = Wanted {
        name: proof,
        limit: PROOF_LIMIT,
    };
    let texts = load_both(alloc, shelf, &first, &second)?;
    let list = clauses(alloc, &texts.first)?;
    outcome(alloc, &list, &texts.second)
}

/// Puts the line of a row that is refused.
fn put_refused<O: Sink>(out: &mut O, row: u64, reason: RowReason) -> Result<(), SinkFault>
    ensures whole { OnOk result (O.shown out.new ≡ shown_with (O.shown out.old) (proof_text (Some (row, reason)))) }
    ensures cut { OnErr result (ShowsPrefix (O.shown out.old) (O.shown out.new) (proof_text (Some (row, reason)))) }
    ensures failed { OnErr result (Rose (O.faults out.old) (O.faults out.new)) }
    ensures still { OnOk result (O.faults out.new ≡ O.faults out.old) }
{
    put_line(
        out,
        &[
            Part::Text(b"refused "),
            Part::Decimal(row),
            Part::Text(b" "),
            Part::Text(row_reason(reason)),
        ],
    )
}

/// Puts the line of a proof.
fn put_outcome<O: Sink>(out: &mut O, outcome: Option<(u64, RowReason)>) -> Result<(), SinkFault>
    ensures whole { OnOk result (O.shown out.new ≡ shown_with (O.shown out.old) (proof_text outcome)) }
    ensures cut { OnErr result (ShowsPrefix (O.shown out.old) (O.shown out.new) (proof_text outcome)) }
    ensures failed { OnErr result (Rose (O.faults out.old) (O.faults out.new)) }
    ensures still { OnOk result (O.faults out.new ≡ O.faults out.old) }
{
    match outcome {
        None => put_line(out, &[Part::Text(b"refuted")]),
        Some((row, reason)) => put_refused(out, row, reason),
    }
}

/// The status of a proof.
fn status_of(outcome: Option<(u64, RowReason)>) -> u8
    ensures { result ≡ proof_status outcome }
{
    match outcome {
        None => 0,
        Some(_) => 1,
    }
}

/// Puts the line of a proof and answers its status.
fn report<O: Sink>(alloc: Global, out: &mut O, outcome: Option<(u64, RowReason)>) -> Answer
    ensures { let sink : SinkView = record { shown = O.shown out.old; shown' = O.shown out.new; faults = O.faults out.old; faults' = O.faults out.new } in
        Tells sink outcome result }
{
    match put_outcome(out, outcome) {
        Ok(()) => Answer {
            status: status_of(outcome),
            init: InitVerdict::NotRun,
            verdicts: Seq::new(alloc),
            fault: None,
        },
        Err(_) => Answer {
            status: status(&TopFault::Write),
            init: InitVerdict::NotRun,
            verdicts: Seq::new(alloc),
            fault: Some(TopFault::Write),
        },
    }
}

/// Does `lrat CNF PROOF`: both files are loaded, the clause file is read, then the whole proof, and its rows are tried.
pub fn lrat<'x, F: Shelf, O: Sink>(
    alloc: Global,
    words: &'x [String],
    cnf: &'x str,
    proof: &'x str,
    shelf: &mut F,
    out: &mut O,
) -> Answer
    ensures meaning { let view : ShelfView = record { held = F.held shelf.old; before = F.faults shelf.old; after = F.faults shelf.new } in
        let sink : SinkView = record { shown = O.shown out.old; shown' = O.shown out.new; faults = O.faults out.old; faults' = O.faults out.new } in
        MeansLrat view sink (bytes_of words.now) cnf.now proof.now result }
    ensures unhidden { let view : ShelfView = record { held = F.held shelf.old; before = F.faults shelf.old; after = F.faults shelf.new } in
        let sink : SinkView = record { shown = O.shown out.old; shown' = O.shown out.new; faults = O.faults out.old; faults' = O.faults out.new } in
        HidesNone view sink result }
    ensures held { F.held shelf.new ≡ F.held shelf.old }
{
    match try_proof(alloc, shelf, cnf, proof) {
        Ok(outcome) => report(alloc, out, outcome),
        Err(fault) => refuse(alloc, out, words, fault),
    }
}
