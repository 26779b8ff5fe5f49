//! Operators by their marks.

ghost use Rattle.std.specs.Prelude.{◌≡◌, ◌≤◌, option_map, length, take, drop, take_while};
ghost use Rattle.spec_expr.specs.Spelling.{form_of, form_looseness};
ghost use Rattle.spec_expr.specs.Reading as definition;
ghost use Rattle.spec_expr.specs.Operators as definition_of;
ghost use Rattle.spec_expr.specs.Operators.{front_operator};
ghost use Rattle.spec_expr.specs.Fronts.{seen};

use spec_ast::{BinKind, UnKind};
use spec_lex::Token;

/// The operator of a mark between operands.
fn operator_of(mark: &[u8]) -> Option<BinKind>
    ensures { result ≡ definition.lookup mark.now definition.operators }
{
    if mark == b"*".as_slice() {
        Some(BinKind::Mul)
    } else if mark == b"+".as_slice() {
        Some(BinKind::Add)
    } else if mark == b"-".as_slice() {
        Some(BinKind::Sub)
    } else if mark == b"<<".as_slice() {
        Some(BinKind::Shl)
    } else if mark == b">>".as_slice() {
        Some(BinKind::Ashr)
    } else if mark == b"&".as_slice() {
        Some(BinKind::BitAnd)
    } else if mark == b"^".as_slice() {
        Some(BinKind::BitXor)
    } else if mark == b"|".as_slice() {
        Some(BinKind::BitOr)
    } else if mark == b"==".as_slice() {
        Some(BinKind::Eq)
    } else if mark == b"!=".as_slice() {
        Some(BinKind::Ne)
    } else if mark == b"<".as_slice() {
        Some(BinKind::Slt)
    } else if mark == b"<=".as_slice() {
        Some(BinKind::Sle)
    } else if mark == b">".as_slice() {
        Some(BinKind::Sgt)
    } else if mark == b">=".as_slice() {
        Some(BinKind::Sge)
    } else {
        None
    }
}

/// How loosely the operator binds, from 1 for `*` to 7 for comparisons; 0 for those that are written as calls.
fn looseness(kind: BinKind) -> u32
    ensures { result ≡ form_looseness (form_of kind) }
{
    match kind {
        BinKind::Mul => 1,
        BinKind::Add | BinKind::Sub => 2,
        BinKind::Shl | BinKind::Ashr => 3,
        BinKind::BitAnd => 4,
        BinKind::BitXor => 5,
        BinKind::BitOr => 6,
        BinKind::Eq | BinKind::Ne | BinKind::Slt | BinKind::Sle | BinKind::Sgt | BinKind::Sge => 7,
        BinKind::Lshr
        | BinKind::Udiv
        | BinKind::Urem
        | BinKind::Ult
        | BinKind::Ule
        | BinKind::Ugt
        | BinKind::Uge
        | BinKind::Implies => 0,
    }
}

/// The operator of a mark, if it binds just so loosely.
#[tactic(auto, unfolding(crate::specs::Reading::operator_at))]
fn operator_at(loose: u32, mark: &[u8]) -> Option<BinKind>
    ensures { result ≡ definition.operator_at loose mark.now }
{
    match operator_of(mark) {
        Some(kind) => {
            if looseness(kind) == loose {
                Some(kind)
            } else {
                None
            }
        }
        None => None,
    }
}

/// The operator at the front, if it binds just so loosely, and the tokens behind it.
pub fn front_operator<'t>(loose: u32, tokens: &'t [Token<'t>]) -> Option<(BinKind, &'t [Token<'t>])>
    ensures { option_map (λ x. (x.0, seen x.1.now)) result ≡ front_operator loose (seen tokens.now) }
{
    match tokens {
        [mark, rest @ ..] => match operator_at(loose, mark.text) {
            Some(kind) => Some((kind, rest)),
            None => None,
        },
        [] => None,
    }
}

/// Whether an operator that binds just so loosely stands at the front.
pub fn begins_operator(loose: u32, tokens: &[Token<'_>]) -> bool
    ensures { result ≡ definition_of.begins_operator loose (seen tokens.now) }
{
    match tokens {
        [mark, ..] => operator_at(loose, mark.text).is_some(),
        [] => false,
    }
}

/// Whether the token is `-` or `~`.
fn is_sign(token: &Token<'_>) -> bool
    ensures { result ≡ definition_of.is_sign token.now.text.now }
{
    token.text == b"-".as_slice() || token.text == b"~".as_slice()
}

/// How many signs stand at the front.
fn sign_run(tokens: &[Token<'_>]) -> usize
    ensures value { result ≡ length (take_while (λ t. definition_of.is_sign t.text.now) tokens.now) }
    ensures within { result ≤ length tokens.now }
{
    tokens.iter().take_while(|token| is_sign(*token)).count()
}

/// The signs at the front, and the tokens behind them.
pub fn signs<'t>(tokens: &'t [Token<'t>]) -> (&'t [Token<'t>], &'t [Token<'t>])
    ensures front { result.0.now ≡ take (length (take_while (λ t. definition_of.is_sign t.text.now) tokens.now)) tokens.now }
    ensures back { result.1.now ≡ drop (length (take_while (λ t. definition_of.is_sign t.text.now) tokens.now)) tokens.now }
{
    tokens.split_at(sign_run(tokens))
}

/// The operator of a sign.
pub fn sign_of(sign: &[u8]) -> UnKind
    ensures { result ≡ definition_of.sign_of sign.now }
{
    if sign == b"-".as_slice() {
        UnKind::Minus
    } else {
        UnKind::Complement
    }
}
