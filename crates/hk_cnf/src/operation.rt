//! What a gate computes, and where it stands.

ghost use Rattle.std.specs.Prelude.{◌≡◌};
ghost use Rattle.std.proofs.Common.{rules};
ghost use Rattle.std.specs.Cmp.Rules.{hashing};
ghost use Rattle.std.specs.Hash as fed;
ghost use Rattle.hk_cnf.specs.Spread.{weighed, spread_and};

use std::hash::{Hash, Hasher};

/// What a gate computes, over literals as the numbers of DIMACS.
#[derive(Clone, Copy, PartialEq, Eq, Debug)]
pub enum Operation {
    /// The truth. It is a gate without operands, so that its literal is fixed as that of each gate is.
    True,
    /// Both literals are true.
    And(i64, i64),
}

/// Where a gate stands.
#[derive(Clone, Copy, Drop, Debug)]
pub struct Placed {
    /// The place of the variable that it fixes, counted from 0.
    pub output: u64,
    /// The place of the first of its clauses, counted from 0.
    pub clause: u64,
}

/// The sum of two numbers, each times a large odd number, modulo 2^64.
fn weighed(x: u64, y: u64) -> u64
    ensures { result ≡ weighed x y }
{
    x.wrapping_mul(0x9E37_79B9_7F4A_7C15)
        .wrapping_add(y.wrapping_mul(0xD6E8_FEB8_6659_FD93))
}

/// A number for a conjunction. Gates that are made one after another have operands close by, and are looked up close by:
/// the variables count by sixteens, so that few places of memory serve many of them, and at most 1,024 conjunctions share one.
fn spread_and(a: i64, b: i64) -> u64
    ensures { result ≡ spread_and a b }
{
    let first = a.unsigned_abs();
    let second = b.unsigned_abs();
    let home = weighed(first.max(second) / 16, first.min(second) / 16);
    let tag = weighed(a.cast_unsigned(), b.cast_unsigned());
    tag / (1 << 56) * (1 << 24) + home / (1 << 40)
}

impl Hash for Operation {
    ghost use Rattle.hk_cnf.specs.Spread.{spread as spread_of};

    ghost hash_input = { λ op. fed.u64 (spread_of op) };

    ghost respects_eq = { Prim.search (hashing, rules) };

    fn hash<H: Hasher>(&self, state: &mut H) {
        let number = match *self {
            Operation::True => 0,
            Operation::And(a, b) => spread_and(a, b),
        };
        state.write_u64(number);
    }
}
