//! Words and expressions, by the calls that read them.

ghost use Rattle.std.specs.Prelude.{◌<◌, ◌^◌, length};

use spec_ast::{BinKind, RawExpr};
use spec_expr::{Bounded, PartStop, expr_at, is_name, member_of, number_of};
use spec_lex::{Token, lines};
use std::alloc::{AllocError, Global};

/// A number, or that there is none.
fn number_told(alloc: Global, number: Option<u64>) -> Result<String, AllocError> {
    match number {
        Some(number) => number.to_string(alloc),
        None => String::from_str(alloc, "no number"),
    }
}

/// Whether a token is a name, and its number.
pub(crate) fn word_told(alloc: Global, text: &[u8]) -> Result<String, AllocError> {
    let name = if is_name(text) { "name" } else { "no name" };
    let number = number_told(alloc, number_of(text))?;
    format!(in alloc; "{name}, {number}")
}

/// K of a step `fK`.
pub(crate) fn member_told(alloc: Global, text: &[u8]) -> Result<String, AllocError> {
    number_told(alloc, member_of(text))
}

/// The mark of an operator between its operands, and `another` for other operators.
fn mark(kind: BinKind) -> &'static str {
    match kind {
        BinKind::Mul => "*",
        BinKind::Add => "+",
        BinKind::Sub => "-",
        BinKind::Shl => "<<",
        BinKind::Ashr => ">>",
        BinKind::BitAnd => "&",
        BinKind::BitXor => "^",
        BinKind::BitOr => "|",
        BinKind::Eq => "==",
        BinKind::Slt => "<",
        _ => "another",
    }
}

/// What the outermost node is.
fn root(tree: &RawExpr) -> &'static str {
    match tree {
        RawExpr::Literal(_) => "number",
        RawExpr::Truth(_) => "truth",
        RawExpr::Named(_) => "name",
        RawExpr::Read(_, _) => "read",
        RawExpr::ReadAt(_, _, _) => "read at",
        RawExpr::Path(_, _) => "path",
        RawExpr::Un(_, _) => "unary",
        RawExpr::Bin(kind, _, _) => mark(*kind),
        RawExpr::All(_) => "and",
        RawExpr::Any(_) => "or",
        RawExpr::Choose(_, _, _) => "if",
        RawExpr::Resize(_, _) => "resize",
        RawExpr::Sized(_, _) => "sized",
        RawExpr::ForAll(_, _) => "for all",
        RawExpr::Exists(_, _) => "exists",
    }
}

/// The outermost node and the depth, and nothing where it is too deep.
fn seen(tree: &Bounded<RawExpr>) -> Option<(&'static str, u32)> {
    match tree {
        Bounded::Within(tree, depth) => Some((root(tree), *depth)),
        Bounded::TooDeep => None,
    }
}

/// A node with its depth, and how many tokens stand behind it.
fn node_told(
    alloc: Global,
    node: Option<(&'static str, u32)>,
    left: usize,
) -> Result<String, AllocError> {
    match node {
        Some((node, depth)) => format!(in alloc; "{node}, depth {depth}, {left} left"),
        None => format!(in alloc; "too deep, {left} left"),
    }
}

/// What stands at the front of these tokens, and how many stand behind it.
fn front_told<'t>(alloc: Global, tokens: &'t [Token<'t>]) -> Result<String, AllocError> {
    let nest = tokens.len().saturating_add(1);
    match expr_at(alloc, nest, tokens) {
        Ok((tree, rest)) => {
            let node = seen(&tree);
            drop(tree);
            node_told(alloc, node, rest.len())
        }
        Err(PartStop::NotSpelled) => String::from_str(alloc, "not spelled"),
        Err(PartStop::Memory) => String::from_str(alloc, "memory"),
    }
}

/// What stands at the front of the first line of a text.
pub(crate) fn expression_told(alloc: Global, text: &[u8]) -> Result<String, AllocError>
    requires { length text.now < 2 ^ 31 }
{
    match lines(alloc, text) {
        Ok(lines) => match lines.as_slice() {
            [line, ..] => front_told(alloc, line.tokens.as_slice()),
            [] => String::from_str(alloc, "no line"),
        },
        Err(stop) => stop.to_string(alloc),
    }
}
