//! The term that a text writes. Its words are taken from the last to the first, so that an operation finds its operands on a stack.

use crate::build::{
    Making, chosen, cut, entry, extended, joined, number, quantified, taken, turned, variable,
};
use crate::row::{long, short};
use crate::words::{kind_of, two};
use hk_term::{Bound, BoundList, TermId, TermKind, Terms, UnaryKind};
use std::alloc::{AllocError, Global};

/// The words of a text, without brackets.
fn words_of<'t>(alloc: Global, text: &'t str) -> Result<Vec<&'t str>, AllocError> {
    let mut words = Vec::new(alloc);
    for word in text.split_whitespace() {
        words.push(word.trim_start_matches('(').trim_end_matches(')'))?;
    }
    Ok(words)
}

/// The operation on the topmost term.
fn of_one(
    terms: &mut Terms,
    stack: &mut Vec<TermId>,
    making: Making,
    kind: UnaryKind,
) -> Result<Option<TermId>, AllocError> {
    let Some(a) = taken(terms, stack) else {
        return Ok(None);
    };
    let t = turned(terms, making, kind, a)?;
    Ok(Some(t))
}

/// The operation on the two topmost terms.
fn of_two(
    terms: &mut Terms,
    stack: &mut Vec<TermId>,
    making: Making,
    kind: TermKind,
) -> Result<Option<TermId>, AllocError> {
    match (taken(terms, stack), taken(terms, stack)) {
        (Some(a), Some(b)) => joined(terms, making, kind, a, b),
        _ => Ok(None),
    }
}

/// The choice between the second and the third term by the topmost.
fn of_three(
    terms: &mut Terms,
    stack: &mut Vec<TermId>,
    making: Making,
) -> Result<Option<TermId>, AllocError> {
    match (
        taken(terms, stack),
        taken(terms, stack),
        taken(terms, stack),
    ) {
        (Some(condition), Some(a), Some(b)) => chosen(terms, making, condition, a, b),
        _ => Ok(None),
    }
}

/// The term of a word without numbers.
fn plain(
    terms: &mut Terms,
    stack: &mut Vec<TermId>,
    making: Making,
    word: &str,
) -> Result<Option<TermId>, AllocError> {
    match word {
        "not" => of_one(terms, stack, making, UnaryKind::Not),
        "neg" => of_one(terms, stack, making, UnaryKind::Neg),
        "ite" => of_three(terms, stack, making),
        _ => match kind_of(word) {
            Some(kind) => of_two(terms, stack, making, kind),
            None => Ok(None),
        },
    }
}

/// A variable, or a number, at a width.
fn atom(terms: &mut Terms, head: &str, width: &str) -> Result<Option<TermId>, AllocError> {
    let Some(width) = short(width) else {
        return Ok(None);
    };
    match (head.strip_prefix('x'), long(head)) {
        (Some(id), _) => match short(id) {
            Some(id) => variable(terms, width, id),
            None => Ok(None),
        },
        (None, Some(value)) => number(terms, width, value),
        (None, None) => Ok(None),
    }
}

/// The bound variables that numbers write: each the id and how many numbers there are.
fn bounds_of(alloc: Global, numbers: &str) -> Result<Option<BoundList>, AllocError> {
    if numbers.is_empty() {
        return Ok(Some(BoundList::new(alloc)));
    }
    let mut items = Vec::new(alloc);
    let mut first = None;
    for word in numbers.split(':') {
        match (first, short(word), long(word)) {
            (None, Some(id), _) => first = Some(id),
            (Some(id), _, Some(size)) => {
                items.push(Bound { id, size })?;
                first = None;
            }
            _ => return Ok(None),
        }
    }
    if first.is_some() {
        return Ok(None);
    }
    let bound = BoundList::from_vec(items).copy(alloc)?;
    Ok(Some(bound))
}

/// The quantifier over the topmost term.
fn for_each(
    alloc: Global,
    terms: &mut Terms,
    body: TermId,
    making: Making,
    numbers: &str,
) -> Result<Option<TermId>, AllocError> {
    match bounds_of(alloc, numbers)? {
        Some(bound) if body.place() < terms.len() => quantified(terms, making, bound, body),
        _ => Ok(None),
    }
}

/// The operation with numbers on a term.
fn with_numbers(
    terms: &mut Terms,
    a: TermId,
    making: Making,
    head: &str,
    numbers: &str,
) -> Result<Option<TermId>, AllocError> {
    if a.place() >= terms.len() {
        return Ok(None);
    }
    match (head, short(numbers), two(numbers)) {
        ("zext", Some(to), _) => extended(terms, making, false, to, a),
        ("sext", Some(to), _) => extended(terms, making, true, to, a),
        ("extract", _, Some((high, low))) => cut(terms, making, high, low, a),
        ("select", _, Some((array, width))) => entry(terms, array, width, a),
        _ => Ok(None),
    }
}

/// The term of a word with numbers.
fn numbered(
    alloc: Global,
    terms: &mut Terms,
    stack: &mut Vec<TermId>,
    making: Making,
    word: (&str, &str),
) -> Result<Option<TermId>, AllocError> {
    let (head, numbers) = word;
    let is_operation = matches!(head, "zext" | "sext" | "extract" | "select" | "forall");
    if !is_operation {
        return atom(terms, head, numbers);
    }
    match taken(terms, stack) {
        Some(a) if head == "forall" => for_each(alloc, terms, a, making, numbers),
        Some(a) => with_numbers(terms, a, making, head, numbers),
        None => Ok(None),
    }
}

/// The term of a word over those on the stack, which are taken from it.
fn made(
    alloc: Global,
    terms: &mut Terms,
    stack: &mut Vec<TermId>,
    making: Making,
    word: &str,
) -> Result<Option<TermId>, AllocError> {
    match word.split_once(':') {
        Some(parts) => numbered(alloc, terms, stack, making, parts),
        None => plain(terms, stack, making, word),
    }
}

/// The term that a text writes, made in this way; nothing where it writes no term, or more than one.
pub fn term_of(
    alloc: Global,
    terms: &mut Terms,
    making: Making,
    text: &str,
) -> Result<Option<TermId>, AllocError> {
    let words = words_of(alloc, text)?;
    let mut stack = Vec::new(alloc);
    for word in words.iter().rev() {
        match made(alloc, terms, &mut stack, making, word)? {
            Some(t) => stack.push(t)?,
            None => return Ok(None),
        }
    }
    match stack.as_slice() {
        [t] => Ok(Some(*t)),
        _ => Ok(None),
    }
}
