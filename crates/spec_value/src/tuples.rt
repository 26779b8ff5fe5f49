//! Index tuples: how many there are, the one at a place, and the place of one among a field's entries.

ghost use Rattle.std.specs.Prelude.{◌≡◌, ◌+◌, ◌*◌, ◌<◌, ◌≤◌, ◌^◌, ◌++◌, map, All, OnOk};
ghost use Rattle.spec_tree.specs.Sorted.{IsNest, IsSize, key_sizes, product};
ghost use Rattle.spec_tree.specs.Value.{place_behind, tuple_at};
ghost use Rattle.spec_tree.specs.View.{view_key, size_of};

use spec_tree::Sort;
use std::alloc::AllocError;

/// How many index tuples there are of these sizes. The cost is linear in the number of sizes.
pub fn count(sizes: &[u32]) -> u64
    requires some { All IsSize sizes.now }
    requires few { IsNest sizes.now }
    ensures { result ≡ product sizes.now }
{
    let mut all: u64 = 1;
    'each: for size in sizes {
        all *= u64::from(*size);
    }
    all
}

/// Puts the k-th of `all` index tuples of these sizes at the end of a list. The cost is linear in the number of sizes; no memory is
/// taken where the list has room.
pub fn push_tuple(sizes: &[u32], all: u64, k: u64, tuple: &mut Vec<u64>) -> Result<(), AllocError>
    requires all { all ≡ product sizes.now }
    requires within { k < all }
    ensures { OnOk result (tuple.new.items ≡ tuple.old.items ++ tuple_at sizes.now k) }
{
    let mut stride = all;
    let mut rest = k;
    'each: for size in sizes {
        stride /= u64::from(*size);
        tuple.push(rest / stride)?;
        rest %= stride;
    }
    Ok(())
}

// The size of a key.
fn size_at(key: &Sort) -> u64
    ensures { result ≡ size_of key.now.size }
{
    match key.size {
        Some(size) => u64::from(size),
        None => 0,
    }
}

// One index more behind the place of the earlier ones.
fn deeper(before: u64, size: u64, index: u64) -> u64
    requires { before * size + index < 2 ^ 64 }
    ensures { result ≡ before * size + index }
{
    before * size + index
}

// The place of an index tuple behind the place of the earlier indices.
fn place_from(before: u64, keys: &[Sort], indices: &[u64]) -> Option<u64>
    requires some { All (λ k. IsSize k.size) (map view_key keys.now) }
    requires few { (before + 1) * product (key_sizes (map view_key keys.now)) ≤ 2 ^ 20 }
    ensures { result ≡ place_behind before (map view_key keys.now) indices.now }
{
    match keys {
        [] => Some(before),
        [key, others @ ..] => match indices {
            [] => None,
            [index, rest @ ..] => {
                let size = size_at(key);
                if *index < size {
                    place_from(deeper(before, size, *index), others, rest)
                } else {
                    None
                }
            }
        },
    }
}

/// The place of an index tuple among a field's entries; none where an index is not below its size. The cost is linear in the number
/// of keys, of which a field has four at most.
pub fn place(keys: &[Sort], indices: &[u64]) -> Option<u64>
    requires some { All (λ k. IsSize k.size) (map view_key keys.now) }
    requires few { IsNest (key_sizes (map view_key keys.now)) }
    ensures { result ≡ place_behind 0 (map view_key keys.now) indices.now }
{
    place_from(0, keys, indices)
}
