//! Literals, as DIMACS CNF writes them.

ghost use Rattle.std.specs.Prelude.{◌≡◌, ℕ, ◌+◌, ◌<◌, ◌^◌, ℤ, pos, negsuc, neg_ℤ, IsTrue, SomeIff};
ghost use Rattle.hk_cnf.specs.Literal.{IsLiteral, place_of, code_of, is_negation};

use std::marker::Model;

/// A variable or its negation: a nonzero number whose size is the variable's number, counted from 1.
/// The least `i64` is no literal, so that each literal has a negation.
#[derive(Clone, Copy, PartialEq, Eq, Debug)]
pub struct Lit {
    value: i64,
}

impl Model for Lit {
    ghost use Rattle.std.specs.Prelude.{ℤ};
    ghost use Rattle.hk_cnf.specs.Literal.{IsLiteral};

    ghost Value = { ℤ };

    ghost view = { λ l. l.value };

    ghost invariant = { λ l. IsLiteral l.value };

    ghost inverse = { λ z. record { value = z } };
}

impl Lit {
    /// The literal that this number stands for. The number is not zero and not the least `i64`.
    pub fn new(value: i64) -> Lit
        requires { IsLiteral value }
        ensures { result ≡ value }
    {
        Lit { value }
    }

    /// The variable at this place, counted from 0.
    pub fn of_place(place: u64) -> Lit
        requires { place + 1 < 2 ^ 63 }
        ensures value { result ≡ pos (place + 1) }
        ensures literal { IsLiteral result }
    {
        Lit {
            value: place as i64 + 1,
        }
    }

    /// The number of DIMACS: the variable's number, counted from 1, negative for its negation.
    pub fn number(self) -> i64
        ensures value { result ≡ self }
        ensures literal { IsLiteral self }
    {
        self.value
    }

    /// The place of the variable, counted from 0.
    pub fn place(self) -> u64
        ensures value { result ≡ place_of self }
        ensures literal { IsLiteral self }
    {
        self.value.unsigned_abs() - 1
    }

    /// A place for each literal, counted from 0: a variable and its negation stand side by side.
    pub fn code(self) -> u64
        ensures value { result ≡ code_of self }
        ensures literal { IsLiteral self }
    {
        2 * self.place() + u64::from(self.is_negation())
    }

    /// Whether the literal is the negation of a variable.
    pub fn is_negation(self) -> bool
        ensures value { result ≡ is_negation self }
        ensures literal { IsLiteral self }
    {
        self.value < 0
    }

    /// The literal that is true where this one is false.
    pub fn negated(self) -> Lit
        ensures value { result ≡ neg_ℤ self }
        ensures literal { IsLiteral self }
        ensures negation { IsLiteral result }
    {
        Lit { value: -self.value }
    }
}
