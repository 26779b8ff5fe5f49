//! Numbers of widths from the tables of a valuation.

ghost use Rattle.std.specs.Prelude.{◌≡◌, ◌+◌, ◌*◌, ◌%◌, ◌^◌, ◌<◌, ℕ, map, length, slice_index_or, All, IfOk};
ghost use Rattle.std.specs.List.{range_with_len};
ghost use Rattle.hk_term.specs.Tables.{number_at, entry_at};
ghost use Rattle.spec_tree.specs.declared.sort.Sort.{Sort};
ghost use Rattle.spec_tree.specs.Sorted.{IsNest, IsSize, key_sizes, product};
ghost use Rattle.spec_tree.specs.View.{view_key, size_of};
ghost use Rattle.hk_oblig.specs.Cases.{arguments_from};

use hk_term::{ArrayTable, NumberTable};
use spec_tree::Sort;
use std::alloc::{AllocError, Global};

// The low bits.
fn low(number: u64, width: u32) -> u64
    ensures { result ≡ number % 2 ^ width }
{
    if width < 64 {
        number % (1 << width)
    } else {
        number
    }
}

/// The numbers of the variables from a number on, one of each width.
pub(crate) fn variables(
    alloc: Global,
    widths: &[u32],
    first: u32,
    vars: &NumberTable,
) -> Result<Vec<u64>, AllocError>
    requires { first + length widths.now < 2 ^ 32 }
    ensures { IfOk result (λ l. l.items ≡ arguments_from first widths.now (number_at vars.now)) }
{
    let mut numbers = Vec::new(alloc);
    let mut id = first;
    'each: for width in widths {
        numbers.push(low(vars.get(id), *width))?;
        id += 1;
    }
    Ok(numbers)
}

/// The first entries of an array, so many, of a width.
pub(crate) fn entries(
    alloc: Global,
    array: u32,
    count: u64,
    width: u32,
    arrays: &ArrayTable,
) -> Result<Vec<u64>, AllocError>
    ensures { IfOk result (λ l. l.items ≡ map (λ k. entry_at arrays.now array k % 2 ^ width) (range_with_len 0 count)) }
{
    let mut numbers = Vec::new(alloc);
    'each: for k in 0..count {
        numbers.push(low(arrays.get(array, k), width))?;
    }
    Ok(numbers)
}

// The size of a key.
fn size_in(key: &Sort) -> u64
    ensures { result ≡ size_of key.now.size }
{
    match key.size {
        Some(size) => u64::from(size),
        None => 0,
    }
}

// The size of the key at a place.
fn size_at(keys: &[Sort], k: usize) -> u64
    requires { k < length keys.now }
    ensures { (d : Sort) → result ≡ size_of (slice_index_or keys.now k d).size }
{
    size_in(&keys[k])
}

/// How many entries a field with these keys has.
pub(crate) fn entries_in(keys: &[Sort]) -> u64
    requires some { All IsSize (key_sizes (map view_key keys.now)) }
    requires few { IsNest (key_sizes (map view_key keys.now)) }
    ensures { result ≡ product (key_sizes (map view_key keys.now)) }
{
    let mut all: u64 = 1;
    'each: for k in 0..keys.len() {
        all *= size_at(keys, k);
    }
    all
}
