//! Terms as texts.

ghost use Rattle.std.specs.Prelude.{◌<◌, length};

use crate::words::word_of;
use hk_term::{Bound, Node, TermId, TermResize, Terms, UnaryKind};
use std::alloc::{AllocError, Global};

/// The text of a term among those of the terms before.
fn part(texts: &[String], t: TermId) -> &str {
    match texts.get(t.place() as usize) {
        Some(text) => text.as_str(),
        None => "",
    }
}

/// The word of an operation on one term.
fn unary_word(kind: UnaryKind) -> &'static str {
    match kind {
        UnaryKind::Not => "not",
        UnaryKind::Neg => "neg",
    }
}

/// The words of bound variables.
fn bound_text(alloc: Global, bound: &[Bound]) -> Result<String, AllocError> {
    let mut text = String::new(alloc);
    for each in bound {
        let between = if text.is_empty() { "" } else { ":" };
        let word = format!(in alloc; "{between}{}:{}", each.id, each.size)?;
        text.push_str(word.as_str())?;
    }
    Ok(text)
}

/// A change of width.
fn resized(alloc: Global, kind: TermResize, to: u32, a: &str) -> Result<String, AllocError> {
    match kind {
        TermResize::Zero => format!(in alloc; "(zext:{to} {a})"),
        TermResize::Sign => format!(in alloc; "(sext:{to} {a})"),
        TermResize::Extract { low } => {
            let high = low.wrapping_add(to).wrapping_sub(1);
            format!(in alloc; "(extract:{high}:{low} {a})")
        }
    }
}

/// A node over the texts of the terms before.
fn node_text(alloc: Global, node: &Node, texts: &[String]) -> Result<String, AllocError> {
    match node {
        Node::Const { width, value } => format!(in alloc; "{value}:{width}"),
        Node::Var { width, id } => format!(in alloc; "x{id}:{width}"),
        Node::Select {
            array,
            width,
            index,
        } => format!(in alloc; "(select:{array}:{width} {})", part(texts, *index)),
        Node::Unary { kind, a } => {
            format!(in alloc; "({} {})", unary_word(*kind), part(texts, *a))
        }
        Node::Binary { kind, a, b } => {
            format!(in alloc;
                "({} {} {})",
                word_of(*kind),
                part(texts, *a),
                part(texts, *b)
            )
        }
        Node::Choose { condition, a, b } => {
            let truth = part(texts, *condition);
            format!(in alloc; "(ite {truth} {} {})", part(texts, *a), part(texts, *b))
        }
        Node::Resize { kind, to, a } => resized(alloc, *kind, *to, part(texts, *a)),
        Node::ForAll { bound, body } => {
            let bound = bound_text(alloc, bound.as_slice())?;
            format!(in alloc; "(forall:{bound} {})", part(texts, *body))
        }
    }
}

/// A term as `term_of` reads it. A part that stands in several others is written each time, so it is for small terms.
pub fn written(alloc: Global, terms: &Terms, t: TermId) -> Result<String, AllocError> {
    let end = (t.place().saturating_add(1)).min(terms.len());
    let mut texts = Vec::new(alloc);
    for place in 0..end {
        let text = node_text(alloc, terms.node(TermId::at(place)), texts.as_slice())?;
        texts.push(text)?;
    }
    Ok(texts.pop().unwrap_or(String::new(alloc)))
}
