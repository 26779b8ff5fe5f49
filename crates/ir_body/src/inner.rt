//! What the tokens of an item spell that remain behind the drop.

ghost use Rattle.std.specs.Prelude.{◌≡◌, Some};
ghost use Rattle.ir_ast.specs.ProgramView.{view_op};
ghost use Rattle.ir_part.specs.Reader.{Gives, seen};
ghost use Rattle.ir_body.specs.Rows as rows;
ghost use Rattle.ir_body.specs.Items as definition;

use crate::arithmetic::{
    comparing, disjoining, exacting, freezing, selecting, sign_extending, simple, truncating,
    wrapping, zero_extending,
};
use crate::control::{
    branching, going, joining, returning, returning_nothing, switching, unreached,
};
use crate::memory::{addressing, calling, extracting, loading, reserving, storing};
use crate::operation::Operation;
use crate::words::operation_of;
use ir_ast::{Name, Op};
use ir_lex::{Token, TokenKind, begins_label, plain_name};
use ir_part::{PartStop, after_mark, local_at, strip_word};
use std::alloc::Global;

/// What an item of a body says.
#[derive(Drop)]
pub enum Tree {
    /// The name of a block.
    Label(Name),
    /// The register that is set, where one is, and the operation.
    Instr(Option<Name>, Op),
    /// The end of the body.
    Close,
}

/// What the tokens spell.
#[tactic(auto, unfolding(crate::specs::Items::inner_at))]
pub fn inner_at<'t>(alloc: Global, tokens: &'t [Token<'t>]) -> Result<Tree, PartStop>
    ensures { Gives definition.inner_of result (definition.inner_at (seen tokens.now)) }
{
    if is_close(tokens) {
        Ok(Tree::Close)
    } else if is_label(tokens) {
        label_of(alloc, tokens)
    } else {
        let (register, rest) = setting_at(alloc, tokens)?;
        instr_at(alloc, register, rest)
    }
}

/// `}`
#[tactic(auto, unfolding(ir_lex::specs::Marks::is_mark))]
fn is_close(tokens: &[Token<'_>]) -> bool
    ensures { result ≡ definition.is_close (seen tokens.now) }
{
    match tokens {
        [only] => only.is_mark(b'}'),
        _ => false,
    }
}

/// A word, digits or a string with `:`.
#[tactic(auto, unfolding(ir_lex::specs::Marks::is_mark))]
fn is_label(tokens: &[Token<'_>]) -> bool
    ensures { result ≡ definition.is_label (seen tokens.now) }
{
    match tokens {
        [_, _] => begins_label(tokens),
        _ => false,
    }
}

/// The label whose name is the first token.
fn label_of(alloc: Global, tokens: &[Token<'_>]) -> Result<Tree, PartStop>
    ensures { Gives definition.inner_of result (definition.label_of (seen tokens.now)) }
{
    match tokens {
        [first, ..] => {
            let name = plain_name(alloc, first.text)?;
            Ok(Tree::Label(name))
        }
        [] => Err(PartStop::NotSpelled),
    }
}

/// `%NAME =`: whether a register is set.
#[tactic(auto, unfolding(ir_lex::specs::Marks::is_mark))]
fn begins_setting(tokens: &[Token<'_>]) -> bool
    ensures { result ≡ definition.begins_setting (seen tokens.now) }
{
    match tokens {
        [first, second, ..] => is_local(first) && second.is_mark(b'='),
        _ => false,
    }
}

/// `%` with a name.
fn is_local(token: &Token<'_>) -> bool
    ensures { result ≡ definition.is_local_kind token.now.kind }
{
    match token.kind {
        TokenKind::Local => true,
        _ => false,
    }
}

/// The register that is set, where one is, and the tokens behind the `=`.
fn setting_at<'t>(
    alloc: Global,
    tokens: &'t [Token<'t>],
) -> Result<(Option<Name>, &'t [Token<'t>]), PartStop>
    ensures { Gives (λ x. (x.0, seen x.1.now)) result (definition.setting_at (seen tokens.now)) }
{
    if begins_setting(tokens) {
        let (name, rest) = local_at(alloc, tokens)?;
        let rest = after_mark(b'=', rest)?;
        Ok((Some(name), rest))
    } else {
        Ok((None, tokens))
    }
}

/// An instruction that sets this register, or none.
fn instr_at<'t>(
    alloc: Global,
    register: Option<Name>,
    tokens: &'t [Token<'t>],
) -> Result<Tree, PartStop>
    ensures { Gives definition.inner_of result (definition.instr_at register (seen tokens.now)) }
{
    match tokens {
        [
            Token {
                kind: TokenKind::Word,
                text,
                ..
            },
            rest @ ..,
        ] => instr_by(alloc, register, operation_of(text), rest),
        _ => Err(PartStop::NotSpelled),
    }
}

/// The instruction of this operation, where the word names one.
fn instr_by<'t>(
    alloc: Global,
    register: Option<Name>,
    operation: Option<Operation>,
    tokens: &'t [Token<'t>],
) -> Result<Tree, PartStop>
    ensures { Gives definition.inner_of result (definition.instr_by register operation (seen tokens.now)) }
{
    match operation {
        Some(operation) => {
            if allows(operation, &register) {
                let op = operation_at(alloc, operation, tokens)?;
                Ok(Tree::Instr(register, op))
            } else {
                Err(PartStop::NotSpelled)
            }
        }
        None => Err(PartStop::NotSpelled),
    }
}

/// Whether an item of this operation may set this register, or none.
fn allows(operation: Operation, register: &Option<Name>) -> bool
    ensures { result ≡ rows.allows (rows.sets_of operation) register.now }
{
    match operation {
        Operation::Call => true,
        Operation::Store
        | Operation::Br
        | Operation::Switch
        | Operation::Ret
        | Operation::Unreachable => register.is_none(),
        _ => register.is_some(),
    }
}

/// What stands behind the word of an operation, up to the end.
fn operation_at<'t>(
    alloc: Global,
    operation: Operation,
    tokens: &'t [Token<'t>],
) -> Result<Op, PartStop>
    ensures { Gives view_op result (rows.read_operation operation (seen tokens.now)) }
{
    match operation {
        Operation::Wrapping(kind) => wrapping(alloc, kind, tokens),
        Operation::Exacting(kind) => exacting(alloc, kind, tokens),
        Operation::Simple(kind) => simple(alloc, kind, tokens),
        Operation::Or => disjoining(alloc, tokens),
        Operation::Icmp => comparing(alloc, tokens),
        Operation::Select => selecting(alloc, tokens),
        Operation::Trunc => truncating(alloc, tokens),
        Operation::Zext => zero_extending(alloc, tokens),
        Operation::Sext => sign_extending(alloc, tokens),
        Operation::Freeze => freezing(alloc, tokens),
        Operation::Phi => joining(alloc, tokens),
        Operation::Alloca => reserving(alloc, tokens),
        Operation::Load => loading(alloc, tokens),
        Operation::Store => storing(alloc, tokens),
        Operation::GetElementPtr => addressing(alloc, tokens),
        Operation::Call => calling(alloc, tokens),
        Operation::ExtractValue => extracting(alloc, tokens),
        Operation::Br => branch(alloc, tokens),
        Operation::Switch => switching(alloc, tokens),
        Operation::Ret => give(alloc, tokens),
        Operation::Unreachable => unreached(tokens),
    }
}

/// A branch to one block, or to one of two.
fn branch<'t>(alloc: Global, tokens: &'t [Token<'t>]) -> Result<Op, PartStop>
    ensures { Gives view_op result (rows.read_operation Operation.Br (seen tokens.now)) }
{
    match strip_word(b"label", tokens) {
        Some(_) => going(alloc, tokens),
        None => branching(alloc, tokens),
    }
}

/// A return of nothing, or of a value.
fn give<'t>(alloc: Global, tokens: &'t [Token<'t>]) -> Result<Op, PartStop>
    ensures { Gives view_op result (rows.read_operation Operation.Ret (seen tokens.now)) }
{
    match strip_word(b"void", tokens) {
        Some(_) => returning_nothing(tokens),
        None => returning(alloc, tokens),
    }
}
