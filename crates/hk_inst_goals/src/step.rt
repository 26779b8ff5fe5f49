//! The steps of a goal, as a line writes them: a word for each, with numbers behind dots.

use hk_term::TermKind;
use std::alloc::{AllocError, Global};

/// A step: the node that it adds to a list of terms. Terms are written by their places.
#[derive(Clone, Copy, Debug, PartialEq, Eq)]
pub(crate) enum Step {
    Variable(u64),
    Number(u64),
    Truth(u64),
    Entry(u64),
    Not(u64),
    Join(TermKind, u64, u64),
    Choose(u64, u64, u64),
    Every(u64, u64, u64),
}

/// The operation of a sign.
fn kind_of(sign: &str) -> Option<TermKind> {
    match sign {
        "add" => Some(TermKind::Add),
        "and" => Some(TermKind::And),
        "or" => Some(TermKind::Or),
        "xor" => Some(TermKind::Xor),
        "eq" => Some(TermKind::Eq),
        "ult" => Some(TermKind::Ult),
        _ => None,
    }
}

/// A step of a word and its numbers.
fn written(sign: &str, numbers: &[u64]) -> Option<Step> {
    match numbers {
        [a] => match sign {
            "var" => Some(Step::Variable(*a)),
            "num" => Some(Step::Number(*a)),
            "bit" => Some(Step::Truth(*a)),
            "entry" => Some(Step::Entry(*a)),
            "not" => Some(Step::Not(*a)),
            _ => None,
        },
        [a, b] => match kind_of(sign) {
            Some(kind) => Some(Step::Join(kind, *a, *b)),
            None => None,
        },
        [a, b, c] => match sign {
            "choose" => Some(Step::Choose(*a, *b, *c)),
            "all" => Some(Step::Every(*a, *b, *c)),
            _ => None,
        },
        _ => None,
    }
}

/// The numbers of a word, which stand between dots.
fn numbers_of(alloc: Global, word: &str) -> Result<Vec<u64>, AllocError> {
    let mut numbers = Vec::new(alloc);
    for part in word.split('.') {
        if let Ok(number) = part.parse::<u64>() {
            numbers.push(number)?;
        }
    }
    Ok(numbers)
}

/// The step that a word writes.
pub(crate) fn step_of(alloc: Global, word: &str) -> Result<Option<Step>, AllocError> {
    let numbers = numbers_of(alloc, word)?;
    let sign = word.split('.').next().unwrap_or("");
    Ok(written(sign, &numbers))
}
