//! The one call that the program makes.

ghost use Rattle.std.specs.Prelude.{◌≡◌, ◌∷◌, [], List, ℕ, IfSome, IfNone};
ghost use Rattle.hk_verify.specs.Words.{HasNoForm, IsBench, IsCertifying, IsCheck, IsLrat, IsReplay, IsNotCertifying, IsRun, IsVerify, bytes_of};
ghost use Rattle.hk_verify.specs.Inputs.{ShelfView};
ghost use Rattle.hk_verify.specs.Answers.{SinkView, HidesNone, IsUsage, Means};
ghost use Rattle.hk_verify.specs.Headline.{AcceptsCorrect, RejectsRefuted, UnknownsSpent};
ghost use Rattle.hk_verify.specs.Certified.{MeansCertified, SavingView};
ghost use Rattle.hk_verify.specs.Claims.{MeansCheck, MeansReplay};
ghost use Rattle.hk_verify.specs.Lrat.{MeansLrat, RefutesSoundly};
ghost use Rattle.hk_verify.specs.Runs.{MeansRun};
ghost use Rattle.hk_verify.specs.Bench.{MeansBench};

use crate::answer::{Answer, TopFault};
use crate::benchmark::bench;
use crate::certify::certify;
use crate::claims::{check, replay};
use crate::lrat::lrat;
use crate::refusal::refuse;
use crate::running::run;
use crate::verify::verify;
use crate::words::{behind_bench, behind_certifying, behind_run, behind_verify, three_behind};
use hk_io::{Shelf, Sink};
use std::alloc::Global;

/// The two names behind a command, where the words are just these three.
fn names_behind<'x>(words: &'x [String], command: &'x str) -> Option<(&'x str, &'x str)>
    ensures form { IfSome result (λ names. bytes_of words.now ≡ command.now ∷ names.0.now ∷ names.1.now ∷ []) }
    ensures no_form { IfNone result ((first second : List ℕ) → bytes_of words.now ≡ command.now ∷ first ∷ second ∷ [] → ⊥) }
{
    match words {
        [word, first, second] => {
            if word.as_str() == command {
                Some((first.as_str(), second.as_str()))
            } else {
                None
            }
        }
        _ => None,
    }
}

/// Does what the words ask, reads from the shelf and reports on the sink.
///
/// The forms so far are `verify KERNEL SPEC [--conflicts N] [--cert FILE]`, `check KERNEL SPEC CERT`, `replay KERNEL SPEC CERT`, `lrat CNF PROOF`, `run KERNEL FUNCTION [ARG ..]` and `bench N`; other words
/// are a faulty command line. Want of memory alone is free.
pub fn run_words<F: Shelf, O: Sink>(
    alloc: Global,
    words: &[String],
    shelf: &mut F,
    out: &mut O,
) -> Answer
    // each handler reported accepted does nothing undefined, from any machine state, and ends in the specified state
    ensures accepted { AcceptsCorrect (F.held shelf.old) (bytes_of words.now) result }
    // each handler reported rejected is refuted by the state and arguments that are printed
    ensures rejected { RejectsRefuted (F.held shelf.old) (bytes_of words.now) result }
    // each handler reported unknown spent all conflicts that the words allow on one of its obligations
    ensures unknown { UnknownsSpent (F.held shelf.old) (bytes_of words.now) result }
    // what is answered and shown: the report of right verdicts, one for each handler, or a fault with its cause
    ensures meaning { (kernel spec : List ℕ) (budget : ℕ) → IsVerify (bytes_of words.now) kernel spec budget →
        let view : ShelfView = record { held = F.held shelf.old; before = F.faults shelf.old; after = F.faults shelf.new } in
        let sink : SinkView = record { shown = O.shown out.old; shown' = O.shown out.new; faults = O.faults out.old; faults' = O.faults out.new } in
        Means view sink (bytes_of words.now) kernel spec budget result }
    // what is answered, shown and saved where a certificate is asked for: the report of right verdicts and, behind the whole of it, its text
    ensures certified { (kernel spec : List ℕ) (budget : ℕ) (cert : List ℕ) → IsCertifying (bytes_of words.now) kernel spec budget cert →
        let view : SavingView = record { held = F.held shelf.old; held' = F.held shelf.new; before = F.faults shelf.old; after = F.faults shelf.new } in
        let sink : SinkView = record { shown = O.shown out.old; shown' = O.shown out.new; faults = O.faults out.old; faults' = O.faults out.new } in
        MeansCertified view sink (bytes_of words.now) kernel spec budget cert result }
    // what is answered and shown for a certificate's acceptances: for each handler whether its proofs hold, or a fault with its cause
    ensures rechecked { (kernel spec cert : List ℕ) → IsCheck (bytes_of words.now) kernel spec cert →
        let view : ShelfView = record { held = F.held shelf.old; before = F.faults shelf.old; after = F.faults shelf.new } in
        let sink : SinkView = record { shown = O.shown out.old; shown' = O.shown out.new; faults = O.faults out.old; faults' = O.faults out.new } in
        MeansCheck view sink (bytes_of words.now) kernel spec cert result }
    // what is answered and shown for a certificate's rejections: for each whether its case violates its obligation, or a fault with its cause
    ensures replayed { (kernel spec cert : List ℕ) → IsReplay (bytes_of words.now) kernel spec cert →
        let view : ShelfView = record { held = F.held shelf.old; before = F.faults shelf.old; after = F.faults shelf.new } in
        let sink : SinkView = record { shown = O.shown out.old; shown' = O.shown out.new; faults = O.faults out.old; faults' = O.faults out.new } in
        MeansReplay view sink (bytes_of words.now) kernel spec cert result }
    // where a refutation is reported, no assignment satisfies the clause list
    ensures refuted { RefutesSoundly (F.held shelf.old) (bytes_of words.now) result }
    // what is answered and shown for a refutation: the line of its first fault or of none, or a fault with its cause
    ensures checked { (cnf proof : List ℕ) → IsLrat (bytes_of words.now) cnf proof →
        let view : ShelfView = record { held = F.held shelf.old; before = F.faults shelf.old; after = F.faults shelf.new } in
        let sink : SinkView = record { shown = O.shown out.old; shown' = O.shown out.new; faults = O.faults out.old; faults' = O.faults out.new } in
        MeansLrat view sink (bytes_of words.now) cnf proof result }
    // what is answered and shown for a run: the end of the run of the text that was loaded, or a fault with its cause
    ensures ran { (kernel function : List ℕ) (arguments : List ℕ) → IsRun (bytes_of words.now) kernel function arguments →
        let view : ShelfView = record { held = F.held shelf.old; before = F.faults shelf.old; after = F.faults shelf.new } in
        let sink : SinkView = record { shown = O.shown out.old; shown' = O.shown out.new; faults = O.faults out.old; faults' = O.faults out.new } in
        MeansRun view sink (bytes_of words.now) kernel function arguments result }
    // what is answered and shown for a generated workload: the counts of right verdicts for its texts, or a fault with its cause
    ensures counted { (n : ℕ) → IsBench (bytes_of words.now) n →
        let sink : SinkView = record { shown = O.shown out.old; shown' = O.shown out.new; faults = O.faults out.old; faults' = O.faults out.new } in
        MeansBench sink (bytes_of words.now) n result }
    // words without a form get the line of usage
    ensures usage { HasNoForm (bytes_of words.now) →
        let sink : SinkView = record { shown = O.shown out.old; shown' = O.shown out.new; faults = O.faults out.old; faults' = O.faults out.new } in
        IsUsage sink (bytes_of words.now) result }
    // no fault of the outside is hidden: a load that failed is named, and where nothing is named no put failed
    ensures unhidden { IsNotCertifying (bytes_of words.now) → let view : ShelfView = record { held = F.held shelf.old; before = F.faults shelf.old; after = F.faults shelf.new } in
        let sink : SinkView = record { shown = O.shown out.old; shown' = O.shown out.new; faults = O.faults out.old; faults' = O.faults out.new } in
        HidesNone view sink result }
    // no file changes but the certificate
    ensures held { IsNotCertifying (bytes_of words.now) → F.held shelf.new ≡ F.held shelf.old }
{
    if let Some(asked) = behind_certifying(words) {
        return certify(alloc, words, &asked, shelf, out);
    }
    if let Some((kernel, spec, budget)) = behind_verify(words) {
        return verify(alloc, words, kernel, spec, budget, shelf, out);
    }
    if let Some((kernel, spec, cert)) = three_behind(words, "check") {
        return check(alloc, words, kernel, spec, cert, shelf, out);
    }
    if let Some((kernel, spec, cert)) = three_behind(words, "replay") {
        return replay(alloc, words, kernel, spec, cert, shelf, out);
    }
    if let Some((cnf, proof)) = names_behind(words, "lrat") {
        return lrat(alloc, words, cnf, proof, shelf, out);
    }
    if let Some(n) = behind_bench(words) {
        return bench(alloc, words, n, out);
    }
    match behind_run(words) {
        Some((kernel, function, arguments)) => {
            run(alloc, words, kernel, function, arguments, shelf, out)
        }
        None => refuse(alloc, out, words, TopFault::Usage),
    }
}
