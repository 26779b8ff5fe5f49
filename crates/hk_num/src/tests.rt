//! The operations at the edges of seven widths, with answers of Python's whole numbers.
ghost use Rattle.std.specs.Prelude.{◌^◌, ◌<◌, ◌≤◌, IsTrue};

use crate::bits::mask;
use crate::{
    add, add_overflows, ashr, lshr, mul, mul_overflows, sdiv, sext, shl, slt, srem, sub,
    sub_overflows, udiv, ult, urem,
};

// A width and two numbers, and what the operations answer, in the order in which the tests call them: sums and
// shifts, quotients and remainders, and orders and overflows.
type Row = (u32, u64, u64, [u64; 6], [u64; 4], [bool; 8]);

const T: bool = true;

const F: bool = false;

const ROWS: [Row; 28] = [
    (
        1,
        0,
        1,
        [1, 1, 0, 0, 0, 0],
        [0, 0, 0, 0],
        [T, F, F, F, T, T, F, F],
    ),
    (
        1,
        1,
        1,
        [0, 0, 1, 0, 0, 1],
        [1, 0, 1, 0],
        [F, F, T, T, F, F, F, T],
    ),
    (
        7,
        64,
        127,
        [63, 65, 64, 0, 0, 127],
        [0, 64, 64, 0],
        [T, T, T, T, T, F, T, T],
    ),
    (
        7,
        63,
        1,
        [64, 62, 63, 126, 31, 31],
        [63, 0, 63, 0],
        [F, F, F, T, F, F, F, F],
    ),
    (
        7,
        127,
        6,
        [5, 121, 122, 64, 1, 127],
        [21, 1, 0, 127],
        [F, T, T, F, F, F, T, F],
    ),
    (
        7,
        65,
        3,
        [68, 62, 67, 8, 8, 120],
        [21, 2, 107, 0],
        [F, T, F, F, F, T, T, T],
    ),
    (
        8,
        128,
        255,
        [127, 129, 128, 0, 0, 255],
        [0, 128, 128, 0],
        [T, T, T, T, T, F, T, T],
    ),
    (
        8,
        127,
        1,
        [128, 126, 127, 254, 63, 63],
        [127, 0, 127, 0],
        [F, F, F, T, F, F, F, F],
    ),
    (
        8,
        255,
        7,
        [6, 248, 249, 128, 1, 255],
        [36, 3, 0, 255],
        [F, T, T, F, F, F, T, F],
    ),
    (
        8,
        129,
        3,
        [132, 126, 131, 8, 16, 240],
        [43, 0, 214, 255],
        [F, T, F, F, F, T, T, T],
    ),
    (
        8,
        1,
        2,
        [3, 255, 2, 4, 0, 0],
        [0, 1, 0, 1],
        [T, T, F, F, T, F, F, F],
    ),
    (
        31,
        0x40000000,
        0x7fffffff,
        [0x3fffffff, 0x40000001, 0x40000000, 0, 0, 0x7fffffff],
        [0, 0x40000000, 0x40000000, 0],
        [T, T, T, T, T, F, T, T],
    ),
    (
        31,
        0x3fffffff,
        1,
        [
            0x40000000, 0x3ffffffe, 0x3fffffff, 0x7ffffffe, 0x1fffffff, 0x1fffffff,
        ],
        [0x3fffffff, 0, 0x3fffffff, 0],
        [F, F, F, T, F, F, F, F],
    ),
    (
        31,
        0x7fffffff,
        30,
        [29, 0x7fffffe1, 0x7fffffe2, 0x40000000, 1, 0x7fffffff],
        [0x4444444, 7, 0, 0x7fffffff],
        [F, T, T, F, F, F, T, F],
    ),
    (
        31,
        0x40000001,
        3,
        [0x40000004, 0x3ffffffe, 0x40000003, 8, 0x8000000, 0x78000000],
        [0x15555555, 2, 0x6aaaaaab, 0],
        [F, T, F, F, F, T, T, T],
    ),
    (
        32,
        0x80000000,
        0xffffffff,
        [0x7fffffff, 0x80000001, 0x80000000, 0, 0, 0xffffffff],
        [0, 0x80000000, 0x80000000, 0],
        [T, T, T, T, T, F, T, T],
    ),
    (
        32,
        0x7fffffff,
        1,
        [
            0x80000000, 0x7ffffffe, 0x7fffffff, 0xfffffffe, 0x3fffffff, 0x3fffffff,
        ],
        [0x7fffffff, 0, 0x7fffffff, 0],
        [F, F, F, T, F, F, F, F],
    ),
    (
        32,
        0xffffffff,
        31,
        [30, 0xffffffe0, 0xffffffe1, 0x80000000, 1, 0xffffffff],
        [0x8421084, 3, 0, 0xffffffff],
        [F, T, T, F, F, F, T, F],
    ),
    (
        32,
        0x80000001,
        3,
        [
            0x80000004, 0x7ffffffe, 0x80000003, 8, 0x10000000, 0xf0000000,
        ],
        [0x2aaaaaab, 0, 0xd5555556, 0xffffffff],
        [F, T, F, F, F, T, T, T],
    ),
    (
        63,
        0x4000000000000000,
        0x7fffffffffffffff,
        [
            0x3fffffffffffffff,
            0x4000000000000001,
            0x4000000000000000,
            0,
            0,
            0x7fffffffffffffff,
        ],
        [0, 0x4000000000000000, 0x4000000000000000, 0],
        [T, T, T, T, T, F, T, T],
    ),
    (
        63,
        0x3fffffffffffffff,
        1,
        [
            0x4000000000000000,
            0x3ffffffffffffffe,
            0x3fffffffffffffff,
            0x7ffffffffffffffe,
            0x1fffffffffffffff,
            0x1fffffffffffffff,
        ],
        [0x3fffffffffffffff, 0, 0x3fffffffffffffff, 0],
        [F, F, F, T, F, F, F, F],
    ),
    (
        63,
        0x7fffffffffffffff,
        62,
        [
            61,
            0x7fffffffffffffc1,
            0x7fffffffffffffc2,
            0x4000000000000000,
            1,
            0x7fffffffffffffff,
        ],
        [0x210842108421084, 7, 0, 0x7fffffffffffffff],
        [F, T, T, F, F, F, T, F],
    ),
    (
        63,
        0x4000000000000001,
        3,
        [
            0x4000000000000004,
            0x3ffffffffffffffe,
            0x4000000000000003,
            8,
            0x800000000000000,
            0x7800000000000000,
        ],
        [0x1555555555555555, 2, 0x6aaaaaaaaaaaaaab, 0],
        [F, T, F, F, F, T, T, T],
    ),
    (
        64,
        0x8000000000000000,
        0xffffffffffffffff,
        [
            0x7fffffffffffffff,
            0x8000000000000001,
            0x8000000000000000,
            0,
            0,
            0xffffffffffffffff,
        ],
        [0, 0x8000000000000000, 0x8000000000000000, 0],
        [T, T, T, T, T, F, T, T],
    ),
    (
        64,
        0x7fffffffffffffff,
        1,
        [
            0x8000000000000000,
            0x7ffffffffffffffe,
            0x7fffffffffffffff,
            0xfffffffffffffffe,
            0x3fffffffffffffff,
            0x3fffffffffffffff,
        ],
        [0x7fffffffffffffff, 0, 0x7fffffffffffffff, 0],
        [F, F, F, T, F, F, F, F],
    ),
    (
        64,
        0xffffffffffffffff,
        63,
        [
            62,
            0xffffffffffffffc0,
            0xffffffffffffffc1,
            0x8000000000000000,
            1,
            0xffffffffffffffff,
        ],
        [0x410410410410410, 15, 0, 0xffffffffffffffff],
        [F, T, T, F, F, F, T, F],
    ),
    (
        64,
        0x8000000000000001,
        3,
        [
            0x8000000000000004,
            0x7ffffffffffffffe,
            0x8000000000000003,
            8,
            0x1000000000000000,
            0xf000000000000000,
        ],
        [
            0x2aaaaaaaaaaaaaab,
            0,
            0xd555555555555556,
            0xffffffffffffffff,
        ],
        [F, T, F, F, F, T, T, T],
    ),
    (
        64,
        1,
        2,
        [3, 0xffffffffffffffff, 2, 4, 0, 0],
        [0, 1, 0, 1],
        [T, T, F, F, T, F, F, F],
    ),
];

const EXTENDED: [(u32, u32, u64, u64); 12] = [
    (1, 1, 1, 1),
    (1, 64, 1, 0xffffffffffffffff),
    (1, 8, 0, 0),
    (7, 8, 64, 192),
    (7, 8, 63, 63),
    (8, 32, 128, 0xffffff80),
    (8, 32, 127, 127),
    (31, 32, 0x40000000, 0xc0000000),
    (32, 64, 0xffffffff, 0xffffffffffffffff),
    (32, 64, 0x7fffffff, 0x7fffffff),
    (63, 64, 0x4000000000000000, 0xc000000000000000),
    (64, 64, 0x8000000000000000, 0x8000000000000000),
];

fn sums_and_shifts(w: u32, a: u64, b: u64) -> [u64; 6]
    requires width { 1 ≤ w }
    requires within { w ≤ 64 }
    requires first { a < 2 ^ w }
    requires second { b < 2 ^ w }
{
    [
        add(w, a, b),
        sub(w, a, b),
        mul(w, a, b),
        shl(w, a, b),
        lshr(w, a, b),
        ashr(w, a, b),
    ]
}

fn quotients(w: u32, a: u64, b: u64) -> [u64; 4]
    requires width { 1 ≤ w }
    requires within { w ≤ 64 }
    requires first { a < 2 ^ w }
    requires second { b < 2 ^ w }
    requires nonzero { 0 < b }
{
    [udiv(w, a, b), urem(w, a, b), sdiv(w, a, b), srem(w, a, b)]
}

fn orders_and_overflows(w: u32, a: u64, b: u64) -> [bool; 8]
    requires width { 1 ≤ w }
    requires within { w ≤ 64 }
    requires first { a < 2 ^ w }
    requires second { b < 2 ^ w }
{
    [
        ult(w, a, b),
        slt(w, a, b),
        add_overflows(w, false, a, b),
        add_overflows(w, true, a, b),
        sub_overflows(w, false, a, b),
        sub_overflows(w, true, a, b),
        mul_overflows(w, false, a, b),
        mul_overflows(w, true, a, b),
    ]
}

fn is_number(w: u32, a: u64) -> bool
    ensures { IsTrue result → (1 ≤ w) × (w ≤ 64) × (a < 2 ^ w) }
{
    1 <= w && w <= 64 && a <= mask(w)
}

#[test]
fn operations_at_the_edges_of_the_widths(rt: HostRuntime) {
    for (w, a, b, sums, parts, facts) in ROWS {
        assert!(rt; is_number(w, a));
        assert!(rt; is_number(w, b));
        assert!(rt; 0 < b);
        assert_eq!(rt;
            sums_and_shifts(w, a, b).as_slice(),
            sums.as_slice(),
            "{w} {a} {b}"
        );
        assert_eq!(rt;
            quotients(w, a, b).as_slice(),
            parts.as_slice(),
            "{w} {a} {b}"
        );
        assert_eq!(rt;
            orders_and_overflows(w, a, b).as_slice(),
            facts.as_slice(),
            "{w} {a} {b}"
        );
    }
}

#[test]
fn shifts_by_the_width_or_more_leave_the_sign_alone(rt: HostRuntime) {
    assert_eq!(rt; shl(8, 0xff, 8), 0);
    assert_eq!(rt; lshr(8, 0xff, 8), 0);
    assert_eq!(rt; ashr(8, 0x80, 200), 0xff);
    assert_eq!(rt; ashr(8, 0x7f, 200), 0);
    assert_eq!(rt; shl(64, u64::MAX, 64), 0);
    assert_eq!(rt; lshr(64, u64::MAX, u64::MAX), 0);
    assert_eq!(rt; ashr(64, 1 << 63, u64::MAX), u64::MAX);
}

#[test]
fn extension_copies_the_sign(rt: HostRuntime) {
    for (from, to, a, extended) in EXTENDED {
        assert!(rt; is_number(from, a));
        assert!(rt; from <= to && to <= 64);
        assert_eq!(rt; sext(from, to, a), extended, "{from} {to} {a}");
    }
}
