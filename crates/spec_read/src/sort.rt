//! Sorts and lists of sorts at the front of a list of tokens.
//!
//! The layer between marks and lines: tokens come in, and sorts go out with the tokens behind them.

ghost use Rattle.std.specs.Prelude.{◌≡◌};
ghost use Rattle.spec_expr.specs.Fronts.{Gives, seen};
ghost use Rattle.spec_read.specs.ItemReading as definition;
ghost use Rattle.spec_read.specs.Sorts as sorts;

use spec_ast::{Name, NameList, RawSort, RawSortList};
use spec_expr::{PartStop, is_name, names_at, number_at, number_comma_at, past, strip};
use spec_lex::Token;
use std::alloc::Global;

/// How many keys a field has at most.
const MOST_KEYS: usize = 4;

/// A sort's name, `Bits(n)` or `Index(w, n)`.
pub fn sort_at<'t>(
    alloc: Global,
    tokens: &'t [Token<'t>],
) -> Result<(RawSort, &'t [Token<'t>]), PartStop>
    ensures { Gives (λ x. (x.0, seen x.1.now)) result (definition.sort_at (seen tokens.now)) }
{
    match tokens {
        [word, rest @ ..] => match rest {
            [mark, inner @ ..] => {
                if mark.text == b"(".as_slice() {
                    new_sort_at(word.text, inner)
                } else {
                    named_sort_at(alloc, word.text, rest)
                }
            }
            [] => named_sort_at(alloc, word.text, rest),
        },
        [] => Err(PartStop::NotSpelled),
    }
}

/// The sort of this name.
fn named_sort_at<'t>(
    alloc: Global,
    word: &[u8],
    tokens: &'t [Token<'t>],
) -> Result<(RawSort, &'t [Token<'t>]), PartStop>
    ensures { Gives (λ x. (x.0, seen x.1.now)) result (sorts.named_sort word.now (seen tokens.now)) }
{
    if is_name(word) {
        let name = Name::copy_of(alloc, word)?;
        Ok((RawSort::Named(name), tokens))
    } else {
        Err(PartStop::NotSpelled)
    }
}

/// `n )` behind `Bits (`, or `w , n )` behind `Index (`.
pub fn new_sort_at<'t>(
    word: &[u8],
    tokens: &'t [Token<'t>],
) -> Result<(RawSort, &'t [Token<'t>]), PartStop>
    ensures { Gives (λ x. (x.0, seen x.1.now)) result (definition.new_sort_at word.now (seen tokens.now)) }
{
    if word == b"Bits".as_slice() {
        bits_at(tokens)
    } else if word == b"Index".as_slice() {
        index_at(tokens)
    } else {
        Err(PartStop::NotSpelled)
    }
}

/// `n )`
#[tactic(auto, using(crate::proofs::SortSteps::front_steps))]
fn bits_at<'t>(tokens: &'t [Token<'t>]) -> Result<(RawSort, &'t [Token<'t>]), PartStop>
    ensures { Gives (λ x. (x.0, seen x.1.now)) result (sorts.bits_at (seen tokens.now)) }
{
    let (bits, rest) = number_at(tokens)?;
    let rest = past(b")", rest)?;
    Ok((RawSort::Bits(bits), rest))
}

/// `w , n )`
#[tactic(auto, using(crate::proofs::SortSteps::front_steps))]
fn index_at<'t>(tokens: &'t [Token<'t>]) -> Result<(RawSort, &'t [Token<'t>]), PartStop>
    ensures { Gives (λ x. (x.0, seen x.1.now)) result (sorts.index_at (seen tokens.now)) }
{
    let (width, rest) = number_comma_at(tokens)?;
    let (size, rest) = number_at(rest)?;
    let rest = past(b")", rest)?;
    Ok((RawSort::Index(width, size), rest))
}

/// Sorts with a comma between them and the parenthesis that closes them.
fn sorts_at<'t>(
    alloc: Global,
    tokens: &'t [Token<'t>],
) -> Result<(Vec<RawSort>, &'t [Token<'t>]), PartStop>
    ensures { Gives (λ x. (x.0.items, seen x.1.now)) result (sorts.listed_sorts (seen tokens.now)) }
{
    let (first, mut rest) = sort_at(alloc, tokens)?;
    let mut sorts = Vec::new(alloc);
    sorts.push(first)?;
    let most = rest.len();
    'more: for _ in 0..most {
        if let Some(after) = strip(b")", rest) {
            return Ok((sorts, after));
        }
        let after_comma = past(b",", rest)?;
        let (sort, after) = sort_at(alloc, after_comma)?;
        sorts.push(sort)?;
        rest = after;
    }
    Err(PartStop::NotSpelled)
}

/// Parameters with a comma between them and the parenthesis that closes them.
#[tactic(auto, using(crate::proofs::SortSteps::parameter_steps))]
pub fn parameters_at<'t>(
    alloc: Global,
    tokens: &'t [Token<'t>],
) -> Result<(NameList, &'t [Token<'t>]), PartStop>
    ensures { Gives (λ x. (x.0, seen x.1.now)) result (definition.parameters_at (seen tokens.now)) }
{
    names_at(alloc, b")", tokens)
}

/// The keys of a field: a sort, or one to four sorts in parentheses.
pub fn keys_at<'t>(
    alloc: Global,
    tokens: &'t [Token<'t>],
) -> Result<(RawSortList, &'t [Token<'t>]), PartStop>
    ensures { Gives (λ x. (x.0, seen x.1.now)) result (definition.keys_at (seen tokens.now)) }
{
    match tokens {
        [mark, inner @ ..] => {
            if mark.text == b"(".as_slice() {
                few_keys_at(alloc, inner)
            } else {
                one_key_at(alloc, tokens)
            }
        }
        [] => Err(PartStop::NotSpelled),
    }
}

/// One to four sorts and the parenthesis that closes them.
fn few_keys_at<'t>(
    alloc: Global,
    tokens: &'t [Token<'t>],
) -> Result<(RawSortList, &'t [Token<'t>]), PartStop>
    ensures { Gives (λ x. (x.0, seen x.1.now)) result (sorts.few_at (seen tokens.now)) }
{
    few_sorts_at(alloc, tokens)
}

/// The same, by the number of all sorts.
fn few_sorts_at<'t>(
    alloc: Global,
    tokens: &'t [Token<'t>],
) -> Result<(RawSortList, &'t [Token<'t>]), PartStop>
    ensures { Gives (λ x. (x.0, seen x.1.now)) result (sorts.few_keys_at (seen tokens.now)) }
{
    let (keys, rest) = sorts_at(alloc, tokens)?;
    if keys.len() <= MOST_KEYS {
        Ok((RawSortList::of(keys), rest))
    } else {
        drop(keys);
        Err(PartStop::NotSpelled)
    }
}

/// One sort as a list.
fn one_key_at<'t>(
    alloc: Global,
    tokens: &'t [Token<'t>],
) -> Result<(RawSortList, &'t [Token<'t>]), PartStop>
    ensures { Gives (λ x. (x.0, seen x.1.now)) result (sorts.one_key_at (seen tokens.now)) }
{
    let (sort, rest) = sort_at(alloc, tokens)?;
    let mut keys = Vec::new(alloc);
    keys.push(sort)?;
    Ok((RawSortList::of(keys), rest))
}
