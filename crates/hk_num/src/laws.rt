//! Laws of the operations, at every width. A function here does nothing: its contract is the law.
ghost use Rattle.std.specs.Prelude.{◌≡◌, ◌-◌, ◌%◌, ◌^◌, ◌<◌, ◌≤◌, ◌-ℤ◌, ℕ, ℤ, pos, IsTrue};
ghost use Rattle.hk_num.specs.Numbers.{signed_of, number_of, fits_signed, sign_extend, bvadd, bvsub, bvmul, bvudiv, bvurem, bvsdiv, bvsrem, bvshl, bvlshr, bvashr};

/// Each result is a number of the width.
pub fn results_are_numbers_of_the_width()
    ensures add { (w a b : ℕ) → bvadd w a b < 2 ^ w }
    ensures sub { (w a b : ℕ) → bvsub w a b < 2 ^ w }
    ensures mul { (w a b : ℕ) → bvmul w a b < 2 ^ w }
    ensures udiv { (w a b : ℕ) → a < 2 ^ w → bvudiv w a b < 2 ^ w }
    ensures urem { (w a b : ℕ) → a < 2 ^ w → bvurem w a b < 2 ^ w }
    ensures sdiv { (w a b : ℕ) → bvsdiv w a b < 2 ^ w }
    ensures srem { (w a b : ℕ) → bvsrem w a b < 2 ^ w }
    ensures shl { (w a b : ℕ) → bvshl w a b < 2 ^ w }
    ensures lshr { (w a b : ℕ) → a < 2 ^ w → bvlshr w a b < 2 ^ w }
    ensures ashr { (w a b : ℕ) → bvashr w a b < 2 ^ w }
    ensures sext { (from to a : ℕ) → sign_extend from to a < 2 ^ to }
{}

/// Sums and products modulo 2^w make a commutative ring, as far as these laws say.
pub fn sums_and_products_are_those_of_a_ring()
    ensures add_commutes { (w a b : ℕ) → bvadd w a b ≡ bvadd w b a }
    ensures add_associates { (w a b c : ℕ) → bvadd w (bvadd w a b) c ≡ bvadd w a (bvadd w b c) }
    ensures add_zero { (w a : ℕ) → a < 2 ^ w → bvadd w a 0 ≡ a }
    ensures sub_zero { (w a : ℕ) → a < 2 ^ w → bvsub w a 0 ≡ a }
    ensures sub_self { (w a : ℕ) → bvsub w a a ≡ 0 }
    ensures add_then_sub { (w a b : ℕ) → a < 2 ^ w → b < 2 ^ w → bvsub w (bvadd w a b) b ≡ a }
    ensures sub_then_add { (w a b : ℕ) → a < 2 ^ w → b < 2 ^ w → bvadd w (bvsub w a b) b ≡ a }
    ensures mul_commutes { (w a b : ℕ) → bvmul w a b ≡ bvmul w b a }
    ensures mul_associates { (w a b c : ℕ) → bvmul w (bvmul w a b) c ≡ bvmul w a (bvmul w b c) }
    ensures mul_zero { (w a : ℕ) → bvmul w a 0 ≡ 0 }
    ensures mul_one { (w a : ℕ) → a < 2 ^ w → bvmul w a 1 ≡ a }
{}

/// Numbers and their signed readings determine one another.
pub fn readings_and_numbers_agree()
    ensures low { (w a : ℕ) → a < 2 ^ (w - 1) → signed_of w a ≡ pos a }
    ensures high { (w a : ℕ) → a < 2 ^ w → 2 ^ (w - 1) ≤ a → signed_of w a ≡ pos a -ℤ pos (2 ^ w) }
    ensures fits { (w a : ℕ) → 1 ≤ w → a < 2 ^ w → IsTrue (fits_signed w (signed_of w a)) }
    ensures number_of_reading { (w a : ℕ) → a < 2 ^ w → number_of w (signed_of w a) ≡ a }
    ensures reading_of_number { (w : ℕ) (z : ℤ) → 1 ≤ w → IsTrue (fits_signed w z) → signed_of w (number_of w z) ≡ z }
{}

/// Extensions compose, and truncation takes them back.
pub fn extensions_and_truncations_compose()
    ensures sign_twice { (u v w a : ℕ) → 1 ≤ u → u ≤ v → a < 2 ^ u →
        sign_extend v w (sign_extend u v a) ≡ sign_extend u w a }
    ensures sign_taken_back { (u v a : ℕ) → u ≤ v → a < 2 ^ u → sign_extend u v a % 2 ^ u ≡ a }
    ensures zero_taken_back { (w a : ℕ) → a < 2 ^ w → a % 2 ^ w ≡ a }
    ensures cut_twice { (v w a : ℕ) → w ≤ v → a % 2 ^ v % 2 ^ w ≡ a % 2 ^ w }
{}
