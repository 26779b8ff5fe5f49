//! Expressions at the front of a list of tokens.
//!
//! The layer above marks, names and operators: tokens come in, and a tree goes out that is built up to the greatest depth, with the
//! tokens behind it. How deep brackets may stand in one another is counted down from the whole to its parts.

ghost use Rattle.std.specs.Prelude.{◌≡◌, ◌+◌, length, option_map, Some, IfOk};
ghost use Rattle.spec_ast.specs.View.{view_expr, view_exprs, view_step, view_steps};
ghost use Rattle.spec_expr.specs.Reading as definition;
ghost use Rattle.spec_expr.specs.Reading.{expr_at, level_at};
ghost use Rattle.spec_expr.specs.Operators as operators;
ghost use Rattle.spec_expr.specs.PathSteps as path_steps;
ghost use Rattle.spec_expr.specs.Calls.{callee_of, head_kind_of};
ghost use Rattle.spec_expr.specs.Fronts.{Gives, grown, seen};

use crate::call::{Callee, HeadKind, callee_at, head_at, headed};
use crate::depth::{
    Bounded, binary, choice, conjunction, disjunction, path, read_at, unary, with_expr, with_step,
};
use crate::front::{behind_name, member_at, number_at, number_comma_at, past, strip};
use crate::operator::{begins_operator, front_operator, sign_of, signs};
use crate::stop::PartStop;
use crate::word::{is_name, number_of};
use spec_ast::{BinKind, Name, RawExpr, RawStep};
use spec_lex::Token;
use std::alloc::{AllocError, Global};

/// An expression with fewer than `nest` brackets in one another (one more than there are tokens is always enough), and the tokens
/// behind it. It is built up to a depth of 100; a deeper one is read all the same.
#[cycle(exprs)]
#[tactic(auto, using(crate::proofs::Steps::expr_steps))]
pub fn expr_at<'t>(
    alloc: Global,
    nest: usize,
    tokens: &'t [Token<'t>],
) -> Result<(Bounded<RawExpr>, &'t [Token<'t>]), PartStop>
    ensures { Gives (λ x. (grown view_expr x.0, seen x.1.now)) result (definition.expr_at 100 nest (seen tokens.now)) }
{
    if nest == 0 {
        Err(PartStop::NotSpelled)
    } else {
        whole_at(alloc, nest - 1, tokens)
    }
}

/// An expression whose brackets hold fewer than `nest` others in one another.
#[cycle(exprs)]
fn whole_at<'t>(
    alloc: Global,
    nest: usize,
    tokens: &'t [Token<'t>],
) -> Result<(Bounded<RawExpr>, &'t [Token<'t>]), PartStop>
    ensures { Gives (λ x. (grown view_expr x.0, seen x.1.now)) result (definition.whole_at 100 (expr_at 100 nest) (seen tokens.now)) }
{
    let (left, rest) = level_at(alloc, nest, 6, tokens)?;
    compared_at(alloc, nest, left, rest)
}

/// One comparison of this operand, or none.
#[cycle(exprs)]
#[tactic(auto, using(crate::proofs::Operands::operator_steps))]
fn compared_at<'t>(
    alloc: Global,
    nest: usize,
    left: Bounded<RawExpr>,
    tokens: &'t [Token<'t>],
) -> Result<(Bounded<RawExpr>, &'t [Token<'t>]), PartStop>
    ensures { Gives (λ x. (grown view_expr x.0, seen x.1.now)) result (definition.compared_at 100 (level_at 100 (expr_at 100 nest) 6) (grown view_expr left) (seen tokens.now)) }
{
    match front_operator(7, tokens) {
        Some((kind, rest)) => {
            let (right, rest) = level_at(alloc, nest, 6, rest)?;
            let tree = binary(alloc, kind, left, right)?;
            Ok((tree, rest))
        }
        None => Ok((left, tokens)),
    }
}

/// An expression that binds at most so loosely, below a comparison.
#[cycle(exprs)]
#[tactic(auto, using(crate::proofs::Steps::expr_steps))]
fn level_at<'t>(
    alloc: Global,
    nest: usize,
    loose: u8,
    tokens: &'t [Token<'t>],
) -> Result<(Bounded<RawExpr>, &'t [Token<'t>]), PartStop>
    ensures { Gives (λ x. (grown view_expr x.0, seen x.1.now)) result (level_at 100 (expr_at 100 nest) loose (seen tokens.now)) }
{
    if loose == 0 {
        unary_at(alloc, nest, tokens)
    } else {
        chain_at(alloc, nest, loose - 1, tokens)
    }
}

/// An operand, and operators that bind one step more loosely with their further operands.
#[cycle(exprs)]
fn chain_at<'t>(
    alloc: Global,
    nest: usize,
    tight: u8,
    tokens: &'t [Token<'t>],
) -> Result<(Bounded<RawExpr>, &'t [Token<'t>]), PartStop>
    ensures { Gives (λ x. (grown view_expr x.0, seen x.1.now)) result (operators.chained_at 100 (level_at 100 (expr_at 100 nest) tight) (tight + 1) (seen tokens.now)) }
{
    let loose = looser(tight);
    let (mut tree, mut rest) = level_at(alloc, nest, tight, tokens)?;
    let most = rest.len();
    'more: for _ in 0..most {
        if !begins_operator(loose, rest) {
            return Ok((tree, rest));
        }
        let ((kind, operand), after) = operand_at(alloc, nest, tight, rest)?;
        tree = binary(alloc, kind, tree, operand)?;
        rest = after;
    }
    Ok((tree, rest))
}

/// An operator that binds one step more loosely than its operand, and the operand.
#[cycle(exprs)]
fn operand_at<'t>(
    alloc: Global,
    nest: usize,
    tight: u8,
    tokens: &'t [Token<'t>],
) -> Result<((BinKind, Bounded<RawExpr>), &'t [Token<'t>]), PartStop>
    ensures { Gives (λ x. (operators.with_kind x.0.0 (grown view_expr x.0.1), seen x.1.now)) result (operators.operand_at (level_at 100 (expr_at 100 nest) tight) (tight + 1) (seen tokens.now)) }
{
    match front_operator(looser(tight), tokens) {
        Some((kind, rest)) => {
            let (operand, rest) = level_at(alloc, nest, tight, rest)?;
            Ok(((kind, operand), rest))
        }
        None => Err(PartStop::NotSpelled),
    }
}

/// One step more loosely.
fn looser(tight: u8) -> u32
    ensures { result ≡ tight + 1 }
{
    u32::from(tight) + 1
}

/// A primary behind its signs.
#[cycle(exprs)]
fn unary_at<'t>(
    alloc: Global,
    nest: usize,
    tokens: &'t [Token<'t>],
) -> Result<(Bounded<RawExpr>, &'t [Token<'t>]), PartStop>
    ensures { Gives (λ x. (grown view_expr x.0, seen x.1.now)) result (definition.unary_at 100 (expr_at 100 nest) (seen tokens.now)) }
{
    let (front, back) = signs(tokens);
    let (operand, rest) = primary_at(alloc, nest, back)?;
    let tree = signed(alloc, front, operand)?;
    Ok((tree, rest))
}

/// The operand behind these signs.
fn signed(
    alloc: Global,
    signs: &[Token<'_>],
    operand: Bounded<RawExpr>,
) -> Result<Bounded<RawExpr>, AllocError>
    ensures { IfOk result (λ g. grown view_expr g ≡ operators.signed 100 (seen signs.now) (grown view_expr operand)) }
{
    let mut tree = operand;
    let mut left = signs.len();
    while left > 0 {
        left -= 1;
        tree = unary(alloc, sign_of(signs[left].text), tree)?;
    }
    Ok(tree)
}

/// An expression in parentheses, or a word with what stands beside it.
#[cycle(exprs)]
fn primary_at<'t>(
    alloc: Global,
    nest: usize,
    tokens: &'t [Token<'t>],
) -> Result<(Bounded<RawExpr>, &'t [Token<'t>]), PartStop>
    ensures { Gives (λ x. (grown view_expr x.0, seen x.1.now)) result (definition.primary_at 100 (expr_at 100 nest) (seen tokens.now)) }
{
    match tokens {
        [first, rest @ ..] => {
            if first.text == b"(".as_slice() {
                closed_at(alloc, nest, b")", rest)
            } else {
                beside_at(alloc, nest, first.text, rest)
            }
        }
        [] => Err(PartStop::NotSpelled),
    }
}

/// An expression and this mark.
#[cycle(exprs)]
#[tactic(auto, using(crate::proofs::Steps::front_steps))]
fn closed_at<'t>(
    alloc: Global,
    nest: usize,
    close: &[u8],
    tokens: &'t [Token<'t>],
) -> Result<(Bounded<RawExpr>, &'t [Token<'t>]), PartStop>
    ensures { Gives (λ x. (grown view_expr x.0, seen x.1.now)) result (definition.closed_at (expr_at 100 nest) close.now (seen tokens.now)) }
{
    let (tree, rest) = expr_at(alloc, nest, tokens)?;
    let rest = past(close, rest)?;
    Ok((tree, rest))
}

/// What this word is with what stands beside it.
#[cycle(exprs)]
fn beside_at<'t>(
    alloc: Global,
    nest: usize,
    word: &[u8],
    tokens: &'t [Token<'t>],
) -> Result<(Bounded<RawExpr>, &'t [Token<'t>]), PartStop>
    ensures { Gives (λ x. (grown view_expr x.0, seen x.1.now)) result (definition.beside_at 100 (expr_at 100 nest) word.now (seen tokens.now)) }
{
    match tokens {
        [mark, rest @ ..] => {
            if mark.text == b"(".as_slice() {
                called_at(alloc, nest, word, rest)
            } else if mark.text == b".".as_slice() {
                dotted_at(alloc, nest, word, rest)
            } else {
                leaf_at(alloc, word, tokens)
            }
        }
        [] => leaf_at(alloc, word, tokens),
    }
}

/// A word by itself.
fn leaf_at<'t>(
    alloc: Global,
    word: &[u8],
    tokens: &'t [Token<'t>],
) -> Result<(Bounded<RawExpr>, &'t [Token<'t>]), PartStop>
    ensures { Gives (λ x. (grown view_expr x.0, seen x.1.now)) result (definition.grown_leaf 100 (definition.leaf_of word.now) (seen tokens.now)) }
{
    match leaf_of(alloc, word)? {
        Some(leaf) => Ok((Bounded::Within(leaf, 1), tokens)),
        None => Err(PartStop::NotSpelled),
    }
}

/// A number, a truth or a name.
fn leaf_of(alloc: Global, word: &[u8]) -> Result<Option<RawExpr>, AllocError>
    ensures { IfOk result (λ leaf. option_map view_expr leaf ≡ definition.leaf_of word.now) }
{
    match number_of(word) {
        Some(number) => Ok(Some(RawExpr::Literal(number))),
        None => {
            if word == b"True".as_slice() {
                Ok(Some(RawExpr::Truth(true)))
            } else if word == b"False".as_slice() {
                Ok(Some(RawExpr::Truth(false)))
            } else if is_name(word) {
                let name = Name::copy_of(alloc, word)?;
                Ok(Some(RawExpr::Named(name)))
            } else {
                Ok(None)
            }
        }
    }
}

/// The call of a word, behind its parenthesis.
#[cycle(exprs)]
fn called_at<'t>(
    alloc: Global,
    nest: usize,
    word: &[u8],
    tokens: &'t [Token<'t>],
) -> Result<(Bounded<RawExpr>, &'t [Token<'t>]), PartStop>
    ensures { Gives (λ x. (grown view_expr x.0, seen x.1.now)) result (definition.call_at 100 (expr_at 100 nest) (definition.call_of word.now) (seen tokens.now)) }
{
    match callee_at(word) {
        Some(callee) => call_at(alloc, nest, callee, tokens),
        None => Err(PartStop::NotSpelled),
    }
}

/// A call behind its parenthesis.
#[cycle(exprs)]
fn call_at<'t>(
    alloc: Global,
    nest: usize,
    callee: Callee,
    tokens: &'t [Token<'t>],
) -> Result<(Bounded<RawExpr>, &'t [Token<'t>]), PartStop>
    ensures { Gives (λ x. (grown view_expr x.0, seen x.1.now)) result (definition.call_at 100 (expr_at 100 nest) (Some (callee_of callee)) (seen tokens.now)) }
{
    match callee {
        Callee::And => {
            let (parts, rest) = arguments_at(alloc, nest, b")", tokens)?;
            Ok((conjunction(parts), rest))
        }
        Callee::Or => {
            let (parts, rest) = arguments_at(alloc, nest, b")", tokens)?;
            Ok((disjunction(parts), rest))
        }
        Callee::Pair(kind) => pair_at(alloc, nest, kind, tokens),
        Callee::If => choice_at(alloc, nest, tokens),
        Callee::BitVecVal => sized_at(tokens),
        Callee::Headed(kind) => headed_at(alloc, nest, kind, tokens),
    }
}

/// `e , e )`
#[cycle(exprs)]
fn pair_at<'t>(
    alloc: Global,
    nest: usize,
    kind: BinKind,
    tokens: &'t [Token<'t>],
) -> Result<(Bounded<RawExpr>, &'t [Token<'t>]), PartStop>
    ensures { Gives (λ x. (grown view_expr x.0, seen x.1.now)) result (definition.call_at 100 (expr_at 100 nest) (Some (definition.pair kind)) (seen tokens.now)) }
{
    let (left, rest) = closed_at(alloc, nest, b",", tokens)?;
    let (right, rest) = closed_at(alloc, nest, b")", rest)?;
    let tree = binary(alloc, kind, left, right)?;
    Ok((tree, rest))
}

/// `b , e , e )`
#[cycle(exprs)]
fn choice_at<'t>(
    alloc: Global,
    nest: usize,
    tokens: &'t [Token<'t>],
) -> Result<(Bounded<RawExpr>, &'t [Token<'t>]), PartStop>
    ensures { Gives (λ x. (grown view_expr x.0, seen x.1.now)) result (definition.call_at 100 (expr_at 100 nest) (Some definition.choice) (seen tokens.now)) }
{
    let (condition, rest) = closed_at(alloc, nest, b",", tokens)?;
    let (yes, rest) = closed_at(alloc, nest, b",", rest)?;
    let (other, rest) = closed_at(alloc, nest, b")", rest)?;
    let tree = choice(alloc, condition, yes, other)?;
    Ok((tree, rest))
}

/// `n , w )`
#[tactic(auto, using(crate::proofs::Steps::front_steps))]
fn sized_at<'t>(tokens: &'t [Token<'t>]) -> Result<(Bounded<RawExpr>, &'t [Token<'t>]), PartStop>
    ensures { Gives (λ x. (grown view_expr x.0, seen x.1.now)) result (path_steps.sized_at 100 (seen tokens.now)) }
{
    let (number, rest) = number_comma_at(tokens)?;
    let (width, rest) = number_at(rest)?;
    let rest = past(b")", rest)?;
    Ok((Bounded::Within(RawExpr::Sized(number, width), 1), rest))
}

/// What stands before the argument, the argument, and `)`.
#[cycle(exprs)]
fn headed_at<'t>(
    alloc: Global,
    nest: usize,
    kind: HeadKind,
    tokens: &'t [Token<'t>],
) -> Result<(Bounded<RawExpr>, &'t [Token<'t>]), PartStop>
    ensures { Gives (λ x. (grown view_expr x.0, seen x.1.now)) result (definition.call_at 100 (expr_at 100 nest) (Some (definition.headed (head_kind_of kind))) (seen tokens.now)) }
{
    let (head, rest) = head_at(alloc, kind, tokens)?;
    let (argument, rest) = closed_at(alloc, nest, b")", rest)?;
    let tree = headed(alloc, head, argument)?;
    Ok((tree, rest))
}

/// What stands behind a word and a dot.
#[cycle(exprs)]
fn dotted_at<'t>(
    alloc: Global,
    nest: usize,
    word: &[u8],
    tokens: &'t [Token<'t>],
) -> Result<(Bounded<RawExpr>, &'t [Token<'t>]), PartStop>
    ensures { Gives (λ x. (grown view_expr x.0, seen x.1.now)) result (definition.dotted_at 100 (expr_at 100 nest) word.now (seen tokens.now)) }
{
    match tokens {
        [first, rest @ ..] => {
            if !is_name(first.text) {
                Err(PartStop::NotSpelled)
            } else if word == b"kernel".as_slice() {
                path_at(alloc, nest, first.text, tokens)
            } else if is_name(word) {
                read_from(alloc, nest, word, first.text, rest)
            } else {
                Err(PartStop::NotSpelled)
            }
        }
        [] => Err(PartStop::NotSpelled),
    }
}

/// A path of the kernel, which begins with the name of this global.
#[cycle(exprs)]
fn path_at<'t>(
    alloc: Global,
    nest: usize,
    global: &[u8],
    tokens: &'t [Token<'t>],
) -> Result<(Bounded<RawExpr>, &'t [Token<'t>]), PartStop>
    ensures { Gives (λ x. (grown view_expr x.0, seen x.1.now)) result (path_steps.path_at 100 (expr_at 100 nest) global.now (seen tokens.now)) }
{
    let (steps, rest) = steps_at(alloc, nest, tokens)?;
    let global = Name::copy_of(alloc, global)?;
    Ok((path(global, steps), rest))
}

/// A field of the state, with arguments or without.
#[cycle(exprs)]
fn read_from<'t>(
    alloc: Global,
    nest: usize,
    state: &[u8],
    field: &[u8],
    tokens: &'t [Token<'t>],
) -> Result<(Bounded<RawExpr>, &'t [Token<'t>]), PartStop>
    ensures { Gives (λ x. (grown view_expr x.0, seen x.1.now)) result (definition.read_from 100 (expr_at 100 nest) state.now field.now (seen tokens.now)) }
{
    let state = Name::copy_of(alloc, state)?;
    let field = Name::copy_of(alloc, field)?;
    match strip(b"(", tokens) {
        Some(rest) => {
            let (arguments, rest) = arguments_at(alloc, nest, b")", rest)?;
            Ok((read_at(state, field, arguments), rest))
        }
        None => Ok((Bounded::Within(RawExpr::Read(state, field), 1), tokens)),
    }
}

/// Expressions with a comma between them and the mark that closes them, and the tokens behind it. They are built up to a depth of 100.
#[cycle(exprs)]
pub fn arguments_at<'t>(
    alloc: Global,
    nest: usize,
    close: &[u8],
    tokens: &'t [Token<'t>],
) -> Result<(Bounded<Vec<RawExpr>>, &'t [Token<'t>]), PartStop>
    ensures { Gives (λ x. (grown (λ v. view_exprs v.items) x.0, seen x.1.now)) result (definition.arguments_at 100 (expr_at 100 nest) close.now (seen tokens.now)) }
{
    let (first, mut rest) = expr_at(alloc, nest, tokens)?;
    let mut list = with_expr(Bounded::Within(Vec::new(alloc), 0), first)?;
    let most = rest.len();
    'more: for _ in 0..most {
        if let Some(after) = strip(close, rest) {
            return Ok((list, after));
        }
        let after_comma = past(b",", rest)?;
        let (tree, after) = expr_at(alloc, nest, after_comma)?;
        list = with_expr(list, tree)?;
        rest = after;
    }
    Err(PartStop::NotSpelled)
}

/// A name and the steps of a path behind it: the steps.
#[cycle(exprs)]
fn steps_at<'t>(
    alloc: Global,
    nest: usize,
    tokens: &'t [Token<'t>],
) -> Result<(Bounded<Vec<RawStep>>, &'t [Token<'t>]), PartStop>
    ensures { Gives (λ x. (grown (λ v. view_steps v.items) x.0, seen x.1.now)) result (path_steps.steps_behind 100 (expr_at 100 nest) (seen tokens.now)) }
{
    let mut rest = behind_name(tokens)?;
    let mut steps = Bounded::Within(Vec::new(alloc), 0);
    let most = rest.len();
    'more: for _ in 0..most {
        if !begins_step(rest) {
            return Ok((steps, rest));
        }
        let (step, after) = step_at(alloc, nest, rest)?;
        steps = with_step(steps, step)?;
        rest = after;
    }
    Ok((steps, rest))
}

/// Whether a step stands at the front.
fn begins_step(tokens: &[Token<'_>]) -> bool
    ensures { result ≡ path_steps.begins_step (seen tokens.now) }
{
    match tokens {
        [first, ..] => first.text == b"[".as_slice() || first.text == b".".as_slice(),
        [] => false,
    }
}

/// `[ e ]` or `. fK`
#[cycle(exprs)]
fn step_at<'t>(
    alloc: Global,
    nest: usize,
    tokens: &'t [Token<'t>],
) -> Result<(Bounded<RawStep>, &'t [Token<'t>]), PartStop>
    ensures { Gives (λ x. (grown view_step x.0, seen x.1.now)) result (path_steps.step_at (expr_at 100 nest) (seen tokens.now)) }
{
    match tokens {
        [mark, rest @ ..] => {
            if mark.text == b"[".as_slice() {
                let (tree, rest) = closed_at(alloc, nest, b"]", rest)?;
                Ok((element(tree), rest))
            } else if mark.text == b".".as_slice() {
                let (place, rest) = member_at(rest)?;
                Ok((Bounded::Within(RawStep::Member(place), 0), rest))
            } else {
                Err(PartStop::NotSpelled)
            }
        }
        [] => Err(PartStop::NotSpelled),
    }
}

/// The element at the place that the expression names.
fn element(at: Bounded<RawExpr>) -> Bounded<RawStep>
    ensures { grown view_step result ≡ path_steps.grown_element (grown view_expr at) }
{
    match at {
        Bounded::Within(at, depth) => Bounded::Within(RawStep::Element(at), depth),
        Bounded::TooDeep => Bounded::TooDeep,
    }
}
