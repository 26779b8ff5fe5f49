//! A room that serves several terms and valuations.

ghost use Rattle.std.specs.Prelude.{◌≡◌, ◌<◌, length};
ghost use Rattle.hk_term.specs.Meaning.{Reading, reading_of};
ghost use Rattle.hk_term.specs.Room.{IsFor};

use hk_term::{Node, TermId, Terms, UnaryKind, Valuation, ValueRoom};
use hk_term_rows::{Making, term_of, valuation_of};
use std::alloc::{AllocError, Global};

/// The values of a term and of one of its parts, by one room.
fn two_values(
    terms: &Terms,
    v: &Valuation,
    room: &mut ValueRoom,
    t: TermId,
    part: TermId,
) -> [u64; 2]
    requires first { t < length terms.now }
    requires second { part < length terms.now }
    requires room { IsFor terms.now (reading_of v.now) room.old }
    ensures room { IsFor terms.now (reading_of v.now) room.new }
{
    let whole = terms.value_with(v, t, room);
    [whole, terms.value_with(v, part, room)]
}

/// The values of a term and a part of it, then those of its part and a term that the list grows by, and at last under another valuation.
fn serves(
    terms: &mut Terms,
    room: &mut ValueRoom,
    v: &Valuation,
    other: &Valuation,
    x: TermId,
    nested: TermId,
) -> Result<[[u64; 2]; 3], AllocError>
    requires part { x < length terms.old }
    requires term { nested < length terms.old }
    requires room { (r : Reading) → IsFor terms.old r room.old }
{
    let first = two_values(terms, v, room, nested, x);
    let longer = terms.intern(Node::Unary {
        kind: UnaryKind::Neg,
        a: x,
    })?;
    room.fit(terms)?;
    let second = two_values(terms, v, room, longer, x);
    room.begin();
    Ok([
        first,
        second,
        two_values(terms, other, room, nested, longer),
    ])
}

/// The same by a room of the list.
fn served(
    alloc: Global,
    terms: &mut Terms,
    pair: (TermId, TermId),
    v: &Valuation,
    other: &Valuation,
) -> Result<Option<[[u64; 2]; 3]>, AllocError> {
    let (whole, part) = pair;
    if whole.place() >= terms.len() || part.place() >= terms.len() {
        return Ok(None);
    }
    let mut room = ValueRoom::new(alloc, terms)?;
    let numbers = serves(terms, &mut room, v, other, part, whole)?;
    Ok(Some(numbers))
}

/// Three pairs of numbers as text.
fn shown(alloc: Global, numbers: [[u64; 2]; 3]) -> Result<String, AllocError> {
    let [[a, b], [c, d], [e, f]] = numbers;
    format!(in alloc; "{a} {b}, {c} {d}, {e} {f}")
}

/// The same under a second valuation that a row writes.
fn under_both(
    alloc: Global,
    terms: &mut Terms,
    pair: (TermId, TermId),
    v: &Valuation,
    others: &str,
) -> Result<Option<String>, AllocError> {
    let Some(other) = valuation_of(alloc, others)? else {
        return Ok(None);
    };
    match served(alloc, terms, pair, v, &other)? {
        Some(numbers) => Ok(Some(shown(alloc, numbers)?)),
        None => Ok(None),
    }
}

/// The same under two valuations that a row writes.
fn under(
    alloc: Global,
    terms: &mut Terms,
    pair: (TermId, TermId),
    numbers: &str,
    others: &str,
) -> Result<Option<String>, AllocError> {
    match valuation_of(alloc, numbers)? {
        Some(v) => under_both(alloc, terms, pair, &v, others),
        None => Ok(None),
    }
}

/// Two terms that a row writes.
fn pair_of(
    alloc: Global,
    terms: &mut Terms,
    texts: (&str, &str),
) -> Result<Option<(TermId, TermId)>, AllocError> {
    let whole = term_of(alloc, terms, Making::Plain, texts.0)?;
    let part = term_of(alloc, terms, Making::Plain, texts.1)?;
    match (whole, part) {
        (Some(whole), Some(part)) => Ok(Some((whole, part))),
        _ => Ok(None),
    }
}

/// The values of a term and its part under a valuation, of the part's two's complement and the part, and of the term and the
/// complement under another valuation, by one room.
pub fn room_answer(
    alloc: Global,
    texts: (&str, &str),
    numbers: &str,
    others: &str,
) -> Result<Option<String>, AllocError> {
    let mut terms = Terms::new(alloc);
    match pair_of(alloc, &mut terms, texts)? {
        Some(pair) => under(alloc, &mut terms, pair, numbers, others),
        None => Ok(None),
    }
}
