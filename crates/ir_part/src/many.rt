//! Lists of elements: one behind the other up to a stop.

ghost use Rattle.std.specs.Prelude.{◌≡◌, Bool, List, map};
ghost use Rattle.ir_lex.specs.Tok.{Tok};
ghost use Rattle.ir_part.specs.Reader.{Reader, Gives, seen};
ghost use Rattle.ir_part.specs.Many.{some};

use crate::stop::PartStop;
use ir_lex::Token;
use std::alloc::Global;

/// How the elements of a list are read, and where the list stops.
pub trait Element {
    /// An element as it is read.
    type Item: Drop;

    /// What an element means.
    ghost Seen: { Type 0 };

    /// The meaning of an element.
    ghost view: { Self.Item → Seen };

    /// Whether the list stops before these tokens.
    ghost stops: { Self → List Tok → Bool };

    /// What is read at the front of tokens as the first element.
    ghost first_reads: { Self → Reader Seen };

    /// What is read at the front of tokens as an element behind another, a comma among them where elements have one.
    ghost reads: { Self → Reader Seen };

    /// Whether the list stops here.
    fn is_end(&self, tokens: &[Token<'_>]) -> bool
        ensures { result ≡ stops self.now (seen tokens.now) };

    /// Reads the first element.
    fn first<'t>(
        &self,
        alloc: Global,
        tokens: &'t [Token<'t>],
    ) -> Result<(Self::Item, &'t [Token<'t>]), PartStop>
        ensures { Gives (λ x. (view x.0, seen x.1.now)) result (first_reads self.now (seen tokens.now)) };

    /// Reads an element behind another.
    fn further<'t>(
        &self,
        alloc: Global,
        tokens: &'t [Token<'t>],
    ) -> Result<(Self::Item, &'t [Token<'t>]), PartStop>
        ensures { Gives (λ x. (view x.0, seen x.1.now)) result (reads self.now (seen tokens.now)) };
}

/// An element behind another.
fn further<'t, E: Element>(
    alloc: Global,
    element: &E,
    tokens: &'t [Token<'t>],
) -> Result<(E::Item, &'t [Token<'t>]), PartStop>
    ensures { Gives (λ x. (E.view x.0, seen x.1.now)) result (E.reads element.now (seen tokens.now)) }
{
    element.further(alloc, tokens)
}

/// The elements of a list up to its stop, one at least.
pub fn elements_at<'t, E: Element>(
    alloc: Global,
    element: &E,
    tokens: &'t [Token<'t>],
) -> Result<(Vec<E::Item>, &'t [Token<'t>]), PartStop>
    ensures { Gives (λ x. (map E.view x.0.items, seen x.1.now)) result (some (E.stops element.now) (E.first_reads element.now) (E.reads element.now) (seen tokens.now)) }
{
    let (first, mut rest) = element.first(alloc, tokens)?;
    let mut elements = Vec::new(alloc);
    elements.push(first)?;
    let most = rest.len() + 1;
    'more: for _ in 0..most {
        if element.is_end(rest) {
            return Ok((elements, rest));
        }
        let (next, after) = further(alloc, element, rest)?;
        elements.push(next)?;
        rest = after;
    }
    Err(PartStop::NotSpelled)
}
