//! What stands at the front of a list of tokens: a mark, a number, a name.

ghost use Rattle.std.specs.Prelude.{◌≡◌, option_map};
ghost use Rattle.spec_expr.specs.Fronts.{Gives, behind, name_behind, seen};
ghost use Rattle.spec_expr.specs.Many.{listed_names};
ghost use Rattle.spec_expr.specs.Reading as definition;

use crate::stop::PartStop;
use crate::word::{is_name, member_of, number_of};
use spec_ast::{Name, NameList};
use spec_lex::Token;
use std::alloc::Global;

/// The tokens behind this word or mark, where it stands at the front.
pub fn strip<'t>(word: &[u8], tokens: &'t [Token<'t>]) -> Option<&'t [Token<'t>]>
    ensures { option_map (λ x. seen x.now) result ≡ behind word.now (seen tokens.now) }
{
    match tokens {
        [first, rest @ ..] => { if first.text == word { Some(rest) } else { None } }
        [] => None,
    }
}

/// The tokens behind this word or mark.
pub fn past<'t>(word: &[u8], tokens: &'t [Token<'t>]) -> Result<&'t [Token<'t>], PartStop>
    ensures { Gives (λ x. seen x.now) result (behind word.now (seen tokens.now)) }
{
    match strip(word, tokens) {
        Some(rest) => Ok(rest),
        None => Err(PartStop::NotSpelled),
    }
}

/// A number of 64 bits.
pub fn number_at<'t>(tokens: &'t [Token<'t>]) -> Result<(u64, &'t [Token<'t>]), PartStop>
    ensures { Gives (λ x. (x.0, seen x.1.now)) result (definition.number_at (seen tokens.now)) }
{
    match tokens {
        [first, rest @ ..] => match number_of(first.text) {
            Some(number) => Ok((number, rest)),
            None => Err(PartStop::NotSpelled),
        },
        [] => Err(PartStop::NotSpelled),
    }
}

/// `n ,`
#[tactic(auto, using(crate::proofs::Steps::front_steps))]
pub fn number_comma_at<'t>(tokens: &'t [Token<'t>]) -> Result<(u64, &'t [Token<'t>]), PartStop>
    ensures { Gives (λ x. (x.0, seen x.1.now)) result (definition.number_comma_at (seen tokens.now)) }
{
    let (number, rest) = number_at(tokens)?;
    let rest = past(b",", rest)?;
    Ok((number, rest))
}

/// K of a step `fK`.
pub fn member_at<'t>(tokens: &'t [Token<'t>]) -> Result<(u64, &'t [Token<'t>]), PartStop>
    ensures { Gives (λ x. (x.0, seen x.1.now)) result (definition.member_at (seen tokens.now)) }
{
    match tokens {
        [first, rest @ ..] => match member_of(first.text) {
            Some(place) => Ok((place, rest)),
            None => Err(PartStop::NotSpelled),
        },
        [] => Err(PartStop::NotSpelled),
    }
}

/// A name.
pub fn name_at<'t>(
    alloc: Global,
    tokens: &'t [Token<'t>],
) -> Result<(Name, &'t [Token<'t>]), PartStop>
    ensures { Gives (λ x. (x.0, seen x.1.now)) result (definition.name_at (seen tokens.now)) }
{
    match tokens {
        [first, rest @ ..] => {
            if is_name(first.text) {
                let name = Name::copy_of(alloc, first.text)?;
                Ok((name, rest))
            } else {
                Err(PartStop::NotSpelled)
            }
        }
        [] => Err(PartStop::NotSpelled),
    }
}

/// The tokens behind a name.
pub fn behind_name<'t>(tokens: &'t [Token<'t>]) -> Result<&'t [Token<'t>], PartStop>
    ensures { Gives (λ x. seen x.now) result (name_behind (seen tokens.now)) }
{
    match tokens {
        [first, rest @ ..] => {
            if is_name(first.text) {
                Ok(rest)
            } else {
                Err(PartStop::NotSpelled)
            }
        }
        [] => Err(PartStop::NotSpelled),
    }
}

/// Names with a comma between them and the mark that closes them, and the tokens behind it.
pub fn names_at<'t>(
    alloc: Global,
    close: &[u8],
    tokens: &'t [Token<'t>],
) -> Result<(NameList, &'t [Token<'t>]), PartStop>
    ensures { Gives (λ x. (x.0, seen x.1.now)) result (listed_names close.now (seen tokens.now)) }
{
    let (first, mut rest) = name_at(alloc, tokens)?;
    let mut names = NameList::new(alloc);
    names.push(first)?;
    let most = rest.len();
    'more: for _ in 0..most {
        if let Some(after) = strip(close, rest) {
            return Ok((names, after));
        }
        let after_comma = past(b",", rest)?;
        let (name, after) = name_at(alloc, after_comma)?;
        names.push(name)?;
        rest = after;
    }
    Err(PartStop::NotSpelled)
}
