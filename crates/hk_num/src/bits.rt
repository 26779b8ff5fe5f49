//! The bits of a width.
ghost use Rattle.std.specs.Prelude.{◌≡◌, ◌-◌, ◌%◌, ◌^◌, ◌≤◌};

// The greatest number of a width.
pub(crate) fn mask(w: u32) -> u64
    requires width { 1 ≤ w }
    requires within { w ≤ 64 }
    ensures { result ≡ 2 ^ w - 1 }
{
    u64::MAX >> (64 - w)
}

// The lowest bits of a number.
pub(crate) fn low(w: u32, n: u64) -> u64
    requires width { 1 ≤ w }
    requires within { w ≤ 64 }
    ensures { result ≡ n % 2 ^ w }
{
    n & mask(w)
}
