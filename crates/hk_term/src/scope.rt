//! Numbers for the bound variables of the quantifiers that are being computed.

ghost use Rattle.std.specs.Prelude.{◌≡◌, ◌∷◌, []};
ghost use Rattle.hk_term.specs.Meaning.{reading_of};
ghost use Rattle.hk_term.specs.Walk.{scoped};

use crate::valuation::Valuation;
use std::marker::Model;

// Bound variables with their numbers, the innermost first.
#[derive(Drop)]
#[cycle(scope)]
pub(crate) struct Scope<'a> {
    link: Link<'a>,
}

#[derive(Drop)]
#[cycle(scope)]
enum Link<'a> {
    Outermost,
    Within(u32, u64, &'a Scope<'a>),
}

impl<'a> Model for Scope<'a> {
    ghost use Rattle.std.specs.Prelude.{List, ℕ, length};

    ghost Value = { List (ℕ × ℕ) };

    ghost use Rattle.hk_term.specs.Scoped.{numbers_of};

    ghost view = { λ a. numbers_of a.link };

    ghost size = { length };

    ghost use Rattle.std.proofs.Common.{arith};

    ghost size_decreases = { λ a h. Prim.grind arith };
}

impl<'a> Scope<'a> {
    // No bound variables.
    pub(crate) fn new() -> Scope<'a>
        ensures { result ≡ [] }
    {
        Scope {
            link: Link::Outermost,
        }
    }

    // One bound variable more.
    pub(crate) fn with(id: u32, number: u64, outer: &'a Scope<'a>) -> Scope<'a>
        ensures { result ≡ (id, number) ∷ outer.now }
    {
        Scope {
            link: Link::Within(id, number, outer),
        }
    }

    // The number of a variable: that of the innermost bound variable with its id, or else the valuation's.
    pub(crate) fn number(&self, v: &Valuation, id: u32) -> u64
        ensures { result ≡ (scoped (reading_of v.now) self.now).var id }
    {
        match &self.link {
            Link::Outermost => v.vars.get(id),
            Link::Within(bound, number, outer) => {
                if id == *bound {
                    *number
                } else {
                    outer.number(v, id)
                }
            }
        }
    }
}
