//! Copies of small terms. Their values are compared under every reading of a few bits with those of the terms under the replaced
//! reading, which is set here variable by variable.
//!
//! A stand is `x1=3`, where the variable 1 stands for a number, or `x1=x4:2`, where it stands for the variable 4 of 2 bits.

ghost use Rattle.std.specs.Prelude.{◌≡◌, ℕ, ◌+◌, ◌<◌, ◌⊎◌, length, IsTrue, List};
ghost use Rattle.std.specs.List.{All};
ghost use Rattle.hk_term.specs.declared.bounds.Bound.{Bound};
ghost use Rattle.hk_term.specs.declared.node.Node.TheVariants.{ForAll};
ghost use Rattle.hk_term.specs.declared.node.Node.{Node};
ghost use Rattle.hk_copy.specs.Stands.{is_bound, IsApart, HasWidth};
ghost use Rattle.hk_copy.specs.Copies.{AreReady};

use hk_copy::{Stand, copy};
use hk_term::{Bound, Node, TermId, Terms, Valuation};
use hk_term_rows::{Making, long, short, term_of, value_at, written};
use std::alloc::{AllocError, Global};

/// What a word lets a variable stand for.
fn stand_of(word: &str) -> Option<(u32, Stand)> {
    let (name, stand) = word.split_once('=')?;
    let replaced = short(name.strip_prefix('x')?)?;
    match stand.strip_prefix('x') {
        Some(other) => {
            let (id, width) = other.split_once(':')?;
            let id = short(id)?;
            let width = short(width)?;
            Some((replaced, Stand::Other { width, id }))
        }
        None => Some((replaced, Stand::Number(long(stand)?))),
    }
}

/// What a field lets variables stand for.
fn stands_of(alloc: Global, field: &str) -> Result<Option<Vec<(u32, Stand)>>, AllocError> {
    let mut stands = Vec::new(alloc);
    for word in field.split_whitespace() {
        match stand_of(word) {
            Some(stand) => stands.push(stand)?,
            None => return Ok(None),
        }
    }
    Ok(Some(stands))
}

/// Whether one of these variables has the id.
fn is_bound(bound: &[Bound], id: u32) -> bool
    ensures { result ≡ is_bound bound.now id }
{
    match bound {
        [] => false,
        [first, rest @ ..] => id == first.id || is_bound(rest, id),
    }
}

/// Whether what stands for a variable is none of these.
fn is_apart(bound: &[Bound], stand: Stand) -> bool
    ensures { IsTrue result → IsApart bound.now stand }
{
    match stand {
        Stand::Number(_) => true,
        Stand::Other { id, .. } => !is_bound(bound, id),
    }
}

/// Whether a stand has a width.
fn has_width(stand: Stand) -> bool
    ensures { IsTrue result → HasWidth stand }
{
    match stand {
        Stand::Number(_) => true,
        Stand::Other { width, .. } => 1 <= width && width <= 64,
    }
}

/// Whether all stands have.
fn have_widths(stands: &[(u32, Stand)]) -> bool
    ensures { IsTrue result → All (λ e. HasWidth e.1) stands.now }
{
    for entry in stands {
        if !has_width(entry.1) {
            return false;
        }
    }
    true
}

/// Whether what stands for variables is none of these.
fn are_apart(bound: &[Bound], stands: &[(u32, Stand)]) -> bool
    ensures { IsTrue result → All (λ e. IsApart bound.now e.1) stands.now }
{
    for entry in stands {
        if !is_apart(bound, entry.1) {
            return false;
        }
    }
    true
}

/// Whether a node is a quantifier over what stands for a variable.
fn captures(node: &Node, stands: &[(u32, Stand)]) -> bool
    ensures { IsTrue result ⊎ ((bound : List Bound) (body : ℕ) → node.now ≡ ForAll bound body → All (λ e. IsApart bound e.1) stands.now) }
{
    match node {
        Node::ForAll { bound, .. } => !are_apart(bound.as_slice(), stands),
        _ => false,
    }
}

/// Whether a copy may be asked for.
fn is_ready(terms: &Terms, term: TermId, stands: &[(u32, Stand)]) -> bool
    requires { term < length terms.now }
    ensures { IsTrue result → AreReady terms.now stands.now (term + 1) }
{
    let len = terms.len();
    let end = term.place() + 1;
    if end > len || !have_widths(stands) {
        return false;
    }
    for k in 0..end {
        if captures(terms.node(TermId::at(k)), stands) {
            return false;
        }
    }
    true
}

/// What a stand is where x, y and the variable 4 have these numbers.
fn number(stand: Stand, x: u64, y: u64, z: u64) -> u64 {
    match stand {
        Stand::Number(n) => n,
        Stand::Other { width, id } => {
            let n = match id {
                1 => x,
                2 => y,
                _ => z,
            };
            match width {
                1 => n % 2,
                2 => n % 4,
                _ => n % 8,
            }
        }
    }
}

/// A reading of the variables 1, 2 and 4, of an array, and of what stands for others.
fn reading(
    alloc: Global,
    x: u64,
    y: u64,
    z: u64,
    stands: &[(u32, Stand)],
) -> Result<Valuation, AllocError> {
    let mut v = Valuation::new(alloc);
    v.vars.set(1, x)?;
    v.vars.set(2, y)?;
    v.vars.set(4, z)?;
    v.arrays.set(7, 0, 2)?;
    v.arrays.set(7, 1, 3)?;
    v.arrays.set(7, 2, 1)?;
    for entry in stands {
        v.vars.set(entry.0, number(entry.1, x, y, z))?;
    }
    Ok(v)
}

/// Whether a copy has the values of a term at these numbers of the variables 1, 2 and 4.
fn agree_at(
    alloc: Global,
    terms: &Terms,
    pair: (TermId, TermId),
    stands: &[(u32, Stand)],
    bits: u64,
) -> Result<bool, AllocError> {
    let (made, term) = pair;
    let plain = reading(alloc, bits % 4, bits / 4 % 4, bits / 16, &[])?;
    let copied = value_at(alloc, terms, &plain, made)?;
    let other = reading(alloc, bits % 4, bits / 4 % 4, bits / 16, stands)?;
    Ok(copied == value_at(alloc, terms, &other, term)?)
}

/// How a copy agrees with its term under every reading.
fn agree(
    alloc: Global,
    terms: &Terms,
    pair: (TermId, TermId),
    stands: &[(u32, Stand)],
) -> Result<&'static str, AllocError> {
    for bits in 0..128 {
        if !agree_at(alloc, terms, pair, stands, bits)? {
            return Ok("differs");
        }
    }
    Ok("agrees")
}

/// The copy of a term; nothing where a quantifier captures.
fn copy_of(
    alloc: Global,
    terms: &mut Terms,
    term: TermId,
    stands: &[(u32, Stand)],
) -> Result<Option<TermId>, AllocError> {
    if term.place() >= terms.len() || !is_ready(terms, term, stands) {
        return Ok(None);
    }
    let made = copy(alloc, terms, term, stands)?;
    Ok(Some(made))
}

/// The term of a field and its copy; nothing in place of the copy where a quantifier captures.
fn copied(
    alloc: Global,
    terms: &mut Terms,
    text: &str,
    stands: &[(u32, Stand)],
) -> Result<Option<(TermId, Option<TermId>)>, AllocError> {
    let Some(term) = term_of(alloc, terms, Making::Plain, text)? else {
        return Ok(None);
    };
    let made = copy_of(alloc, terms, term, stands)?;
    Ok(Some((term, made)))
}

/// How the copy of a term agrees with it under every reading.
pub fn copy_answer(alloc: Global, text: &str, stands: &str) -> Result<Option<String>, AllocError> {
    let Some(stands) = stands_of(alloc, stands)? else {
        return Ok(None);
    };
    let mut terms = Terms::new(alloc);
    let Some((term, made)) = copied(alloc, &mut terms, text, &stands)? else {
        return Ok(None);
    };
    let told = match made {
        Some(made) => agree(alloc, &terms, (made, term), &stands)?,
        None => "captured",
    };
    Ok(Some(String::from_str(alloc, told)?))
}

/// The copy of a term.
pub fn copied_answer(
    alloc: Global,
    text: &str,
    stands: &str,
) -> Result<Option<String>, AllocError> {
    let Some(stands) = stands_of(alloc, stands)? else {
        return Ok(None);
    };
    let mut terms = Terms::new(alloc);
    let Some((_, made)) = copied(alloc, &mut terms, text, &stands)? else {
        return Ok(None);
    };
    match made {
        Some(made) => Ok(Some(written(alloc, &terms, made)?)),
        None => Ok(Some(String::from_str(alloc, "captured")?)),
    }
}

/// A word so many times.
fn repeated(alloc: Global, word: &str, steps: u64) -> Result<String, AllocError> {
    let mut text = String::new(alloc);
    for _step in 0..steps {
        text.push_str(word)?;
    }
    Ok(text)
}

/// How many nodes a copy adds to a list.
fn added(alloc: Global, terms: &mut Terms, text: &str) -> Result<Option<u64>, AllocError> {
    let stands = [(1, Stand::Other { width: 2, id: 4 })];
    let Some(term) = term_of(alloc, terms, Making::Plain, text)? else {
        return Ok(None);
    };
    let before = terms.len();
    match copy_of(alloc, terms, term, &stands)? {
        Some(_) => Ok(terms.len().checked_sub(before)),
        None => Ok(None),
    }
}

/// How many nodes the copy of a difference adds from which a variable is taken so many times, where another stands for the first one.
pub fn deep_answer(alloc: Global, steps: &str) -> Result<Option<String>, AllocError> {
    let Some(steps) = long(steps) else {
        return Ok(None);
    };
    let front = repeated(alloc, "sub ", steps)?;
    let back = repeated(alloc, " x2:2", steps)?;
    let text = format!(in alloc; "{front}x1:2{back}")?;
    let mut terms = Terms::new(alloc);
    match added(alloc, &mut terms, text.as_str())? {
        Some(more) => Ok(Some(format!(in alloc; "{more} more")?)),
        None => Ok(None),
    }
}
