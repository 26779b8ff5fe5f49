//! Circuits: the operations of SMT-LIB's theory of fixed-size bit-vectors as gates.
//!
//! Stands between terms and clauses: words of literals, least bit first, come in; words of literals of gates go out. It has
//! addition, subtraction, negation, multiplication, division with its remainder, equality, the two orders, choices, the
//! bitwise operations, the three shifts, complements, extracts, concatenations and extensions, each with its number under
//! every choice of values for the variables that no gate fixes. The call that makes the circuits of a term stands above.
//!
//! Each gate has three clauses. At 64 bits a sum takes 444 gates with 1,332 clauses, an order at most 256 with 768, a shift
//! about 1,150 with 3,450, a product 15,940 with 47,820, and a quotient with its remainder 20,734 with 62,202.
#![tactic(auto)]

pub mod adder;
pub mod bit;
pub mod bitwise;
pub mod choice;
pub mod compare;
pub mod divide;
pub mod multiply;
pub mod shift;
pub mod word;
