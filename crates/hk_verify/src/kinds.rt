//! The kinds of verdicts: whether a list has one of a kind, and how many of each there are.

ghost use Rattle.std.specs.Prelude.{◌≡◌, count_by};
ghost use Rattle.std.specs.List.{list_any};
ghost use Rattle.hk_verify.specs.Lines.{is_acceptance as is_acceptance_of, is_memory as is_memory_of, is_rejection as is_rejection_of, is_unknown as is_unknown_of};
ghost use Rattle.hk_verify.specs.Bench.{counts_of};

use hk_verdict::Verdict;

/// How many verdicts there are, and how many of each kind.
#[derive(Clone, Copy)]
pub struct Counts {
    pub handlers: usize,
    pub accepted: usize,
    pub rejected: usize,
    pub unknown: usize,
    pub memory: usize,
}

/// Whether a verdict is an acceptance.
fn is_acceptance(verdict: &Verdict) -> bool
    ensures { result ≡ is_acceptance_of verdict.now }
{
    match verdict {
        Verdict::Accepted { .. } => true,
        Verdict::Rejected { .. } => false,
        Verdict::Unknown { .. } => false,
        Verdict::Memory => false,
    }
}

/// Whether a verdict is a rejection.
fn is_rejection(verdict: &Verdict) -> bool
    ensures { result ≡ is_rejection_of verdict.now }
{
    match verdict {
        Verdict::Accepted { .. } => false,
        Verdict::Rejected { .. } => true,
        Verdict::Unknown { .. } => false,
        Verdict::Memory => false,
    }
}

/// Whether a verdict is that of a handler that was not decided.
fn is_unknown(verdict: &Verdict) -> bool
    ensures { result ≡ is_unknown_of verdict.now }
{
    match verdict {
        Verdict::Accepted { .. } => false,
        Verdict::Rejected { .. } => false,
        Verdict::Unknown { .. } => true,
        Verdict::Memory => false,
    }
}

/// Whether a verdict is want of memory.
fn is_memory(verdict: &Verdict) -> bool
    ensures { result ≡ is_memory_of verdict.now }
{
    match verdict {
        Verdict::Accepted { .. } => false,
        Verdict::Rejected { .. } => false,
        Verdict::Unknown { .. } => false,
        Verdict::Memory => true,
    }
}

/// Whether there is a rejection.
pub fn has_rejection(verdicts: &[Verdict]) -> bool
    ensures { result ≡ list_any is_rejection_of verdicts.now }
{
    verdicts.iter().any(|verdict| is_rejection(verdict))
}

/// Whether a handler was not decided.
pub fn has_unknown(verdicts: &[Verdict]) -> bool
    ensures { result ≡ list_any is_unknown_of verdicts.now }
{
    verdicts.iter().any(|verdict| is_unknown(verdict))
}

/// Whether there is want of memory.
pub fn has_memory(verdicts: &[Verdict]) -> bool
    ensures { result ≡ list_any is_memory_of verdicts.now }
{
    verdicts.iter().any(|verdict| is_memory(verdict))
}

/// How many verdicts are acceptances.
fn count_acceptances(verdicts: &[Verdict]) -> usize
    ensures { result ≡ count_by is_acceptance_of verdicts.now }
{
    verdicts
        .iter()
        .filter(|verdict| is_acceptance(verdict))
        .count()
}

/// How many verdicts are rejections.
fn count_rejections(verdicts: &[Verdict]) -> usize
    ensures { result ≡ count_by is_rejection_of verdicts.now }
{
    verdicts
        .iter()
        .filter(|verdict| is_rejection(verdict))
        .count()
}

/// How many handlers were not decided.
fn count_unknowns(verdicts: &[Verdict]) -> usize
    ensures { result ≡ count_by is_unknown_of verdicts.now }
{
    verdicts
        .iter()
        .filter(|verdict| is_unknown(verdict))
        .count()
}

/// How many verdicts are want of memory.
fn count_memory(verdicts: &[Verdict]) -> usize
    ensures { result ≡ count_by is_memory_of verdicts.now }
{
    verdicts.iter().filter(|verdict| is_memory(verdict)).count()
}

/// Counts verdicts.
pub fn count_kinds(verdicts: &[Verdict]) -> Counts
    ensures { result ≡ counts_of verdicts.now }
{
    Counts {
        handlers: verdicts.len(),
        accepted: count_acceptances(verdicts),
        rejected: count_rejections(verdicts),
        unknown: count_unknowns(verdicts),
        memory: count_memory(verdicts),
    }
}
