//! Arithmetic on numbers of a width: numbers go in, the number of that width comes out. It stands below all
//! other layers, and takes no memory.
#![tactic(auto)]

mod bits;
mod divide;
mod laws;
mod overflow;
mod ring;
mod shift;
mod signed;

pub use divide::{sdiv, srem, udiv, urem};
pub use laws::{
    extensions_and_truncations_compose, readings_and_numbers_agree,
    results_are_numbers_of_the_width, sums_and_products_are_those_of_a_ring,
};
pub use overflow::{add_overflows, mul_overflows, sub_overflows};
pub use ring::{add, mul, sub};
pub use shift::{ashr, lshr, shl};
pub use signed::{sext, slt, ult};

#[cfg(test)]
mod tests;
