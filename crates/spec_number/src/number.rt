//! The recursion over an expression.

ghost use Rattle.std.specs.Prelude.{◌≡◌, ◌+◌, ◌*◌, ◌<◌, ◌≤◌, ◌^◌, ◌%◌, ℕ, map, All, option_map, IfOk, OnOk};
ghost use Rattle.std.specs.List.{list_all, list_any};
ghost use Rattle.spec_tree.specs.Plain as plain;
ghost use Rattle.spec_tree.specs.Plain.{for_all, exists};
ghost use Rattle.spec_tree.specs.View.{view_expr, view_expr_list, view_step_list, view_key};
ghost use Rattle.spec_tree.specs.Sorted.{IsWidth, IsSize, IsNest, IsSorted, AreVariables, AreTruths, AreIndices, AreSteps, product, key_sizes, width_of, with_bounds};
ghost use Rattle.spec_tree.specs.Value.{value, values, holds, bit, place_behind, bytes_added, binding, tuple_at, tuples};
ghost use Rattle.spec_number.specs.Evaluation.{Stands, context_of, env_of};

use crate::combine::{binary_of, number, resized, unary_of};
use crate::frame::Frame;
use crate::leaf::{argument_at, entry, field_width, keys, size_at};
use crate::path::at_path;
use crate::reading::{Number, Reading};
use spec_tree::laws::{values_have_their_widths, widths_are_from_1_to_64};
use spec_tree::{Expr, ExprList, SizeList, Sort, StateName, StepList};
use spec_value::{count, is_true, truth};
use std::alloc::AllocError;

/// The number of an expression. It takes memory only where the frame has no room for variables. After want of memory the frame may
/// hold names that it did not hold before.
#[cycle(number)]
pub fn number_of(reading: &Reading, frame: &mut Frame, e: &Expr) -> Result<Number, AllocError>
    requires stands { Stands reading.now frame.old }
    requires sorted { IsSorted (context_of reading.now frame.old) (view_expr e.now) }
    ensures bits { IfOk result (λ n. n.bits ≡ value (context_of reading.now frame.old) (env_of reading.now frame.old) (view_expr e.now)) }
    ensures width { IfOk result (λ n. n.width ≡ width_of (context_of reading.now frame.old) (view_expr e.now)) }
    ensures wide { IfOk result (λ n. IsWidth n.width) }
    ensures fits { IfOk result (λ n. n.bits < 2 ^ n.width) }
    ensures kept { OnOk result (frame.new ≡ frame.old) }
{
    values_have_their_widths();
    widths_are_from_1_to_64();
    let number = read(reading, frame, e)?;
    Ok(number)
}

#[cycle(number)]
fn read(reading: &Reading, frame: &mut Frame, e: &Expr) -> Result<Number, AllocError>
    requires stands { Stands reading.now frame.old }
    requires sorted { IsSorted (context_of reading.now frame.old) (view_expr e.now) }
    ensures bits { IfOk result (λ n. n.bits ≡ value (context_of reading.now frame.old) (env_of reading.now frame.old) (view_expr e.now)) }
    ensures width { IfOk result (λ n. n.width ≡ width_of (context_of reading.now frame.old) (view_expr e.now)) }
    ensures kept { OnOk result (frame.new ≡ frame.old) }
{
    match e {
        Expr::Const(width, bits) => Ok(number(*width, *bits)),
        Expr::Arg(k) => Ok(argument_at(reading, *k)),
        Expr::Bound(k, width) => Ok(number(*width, frame.index(*k))),
        Expr::Local(k) => Ok(number(frame.width(*k), frame.local(*k))),
        Expr::Entry(name, field, at) => Ok(entry_of(reading, frame, *name, *field, at)?),
        Expr::Kernel(path) => {
            let added = added_by(reading, frame, &path.steps)?;
            Ok(at_path(reading, frame, path, added))
        }
        Expr::Un(kind, a) => {
            let a = number_of(reading, frame, a)?;
            Ok(unary_of(*kind, a))
        }
        Expr::Bin(kind, a, b) => {
            let a = number_of(reading, frame, a)?;
            let b = number_of(reading, frame, b)?;
            Ok(binary_of(*kind, a, b))
        }
        Expr::All(es) => Ok(number(1, truth(all_hold(reading, frame, es)?))),
        Expr::Any(es) => Ok(number(1, truth(some_hold(reading, frame, es)?))),
        Expr::Choose(test, a, b) => {
            let test = number_of(reading, frame, test)?;
            if is_true(test.bits) {
                Ok(number_of(reading, frame, a)?)
            } else {
                Ok(number_of(reading, frame, b)?)
            }
        }
        Expr::Resize(kind, a) => {
            let a = number_of(reading, frame, a)?;
            Ok(resized(*kind, a))
        }
        Expr::ForAll(sizes, a) => Ok(number(1, truth(for_all_hold(reading, frame, sizes, a)?))),
        Expr::Exists(sizes, a) => Ok(number(1, truth(for_some_hold(reading, frame, sizes, a)?))),
    }
}

// The entry of a field at an index tuple.
#[cycle(number)]
fn entry_of(
    reading: &Reading,
    frame: &mut Frame,
    name: StateName,
    field: u32,
    at: &ExprList,
) -> Result<Number, AllocError>
    requires stands { Stands reading.now frame.old }
    requires sorted { IsSorted (context_of reading.now frame.old) (plain.entry name field (view_expr_list at.now)) }
    ensures bits { IfOk result (λ n. n.bits ≡ value (context_of reading.now frame.old) (env_of reading.now frame.old) (plain.entry name field (view_expr_list at.now))) }
    ensures width { IfOk result (λ n. n.width ≡ width_of (context_of reading.now frame.old) (plain.entry name field (view_expr_list at.now))) }
    ensures kept { OnOk result (frame.new ≡ frame.old) }
{
    let sorts = keys(reading, field);
    let place = place_of(reading, frame, sorts, at)?;
    Ok(number(
        field_width(reading, field),
        entry(reading, name, field, place),
    ))
}

// One index more behind the place of the earlier ones.
fn deeper(before: u64, size: u64, index: u64) -> u64
    requires { before * size + index < 2 ^ 64 }
    ensures { result ≡ before * size + index }
{
    before * size + index
}

// What one step more adds, modulo 2 to 64.
fn further(added: u64, index: u64, stride: u64) -> u64
    ensures { result ≡ (added + index * stride) % 2 ^ 64 }
{
    added.wrapping_add(index.wrapping_mul(stride))
}

// The place of an index tuple among the entries of a field with these keys; the indices behind one that is not below its size are
// not computed.
#[tactic(auto, using(crate::proofs::Walks::stands_kept, crate::proofs::Loops::index_at))]
#[cycle(number)]
fn place_of(
    reading: &Reading,
    frame: &mut Frame,
    keys: &[Sort],
    at: &ExprList,
) -> Result<Option<u64>, AllocError>
    requires stands { Stands reading.now frame.old }
    requires some { All (λ k. IsSize k.size) (map view_key keys.now) }
    requires few { IsNest (key_sizes (map view_key keys.now)) }
    requires sorted { AreIndices (context_of reading.now frame.old) (map view_key keys.now) (view_expr_list at.now) }
    ensures place { IfOk result (λ p. p ≡ place_behind 0 (map view_key keys.now) (values (context_of reading.now frame.old) (env_of reading.now frame.old) (view_expr_list at.now))) }
    ensures kept { OnOk result (frame.new ≡ frame.old) }
{
    let mut place: u64 = 0;
    let items = at.items.as_slice();
    'each: for (k, index) in items.iter().enumerate() {
        let size = size_at(keys, k);
        let index = number_of(reading, frame, index)?;
        if index.bits >= size {
            return Ok(None);
        }
        place = deeper(place, size, index.bits);
    }
    Ok(Some(place))
}

// The bytes that the steps of a path add, modulo 2 to 64; the steps behind one whose index is not below its count are not computed.
#[tactic(auto, using(crate::proofs::Walks::stands_kept, crate::proofs::Loops::step_at))]
#[cycle(number)]
fn added_by(
    reading: &Reading,
    frame: &mut Frame,
    steps: &StepList,
) -> Result<Option<u64>, AllocError>
    requires stands { Stands reading.now frame.old }
    requires sorted { AreSteps (context_of reading.now frame.old) (view_step_list steps.now) }
    ensures added { IfOk result (λ p. p ≡ option_map (λ n. n % 2 ^ 64) (bytes_added (context_of reading.now frame.old) (env_of reading.now frame.old) (view_step_list steps.now))) }
    ensures kept { OnOk result (frame.new ≡ frame.old) }
{
    let mut added: u64 = 0;
    let items = steps.items.as_slice();
    'each: for step in items {
        let index = number_of(reading, frame, &step.index)?;
        if index.bits >= step.count {
            return Ok(None);
        }
        added = further(added, index.bits, step.stride);
    }
    Ok(Some(added))
}

// Whether all of these hold.
#[tactic(auto, using(crate::proofs::Walks::stands_kept, crate::proofs::Walks::truth_at))]
#[cycle(number)]
fn all_hold(reading: &Reading, frame: &mut Frame, es: &ExprList) -> Result<bool, AllocError>
    requires stands { Stands reading.now frame.old }
    requires sorted { AreTruths (context_of reading.now frame.old) (view_expr_list es.now) }
    ensures holds { IfOk result (λ b. b ≡ list_all holds (values (context_of reading.now frame.old) (env_of reading.now frame.old) (view_expr_list es.now))) }
    ensures kept { OnOk result (frame.new ≡ frame.old) }
{
    let items = es.items.as_slice();
    'each: for e in items {
        let number = number_of(reading, frame, e)?;
        if !is_true(number.bits) {
            return Ok(false);
        }
    }
    Ok(true)
}

// Whether one of these holds.
#[tactic(auto, using(crate::proofs::Walks::stands_kept, crate::proofs::Walks::truth_at))]
#[cycle(number)]
fn some_hold(reading: &Reading, frame: &mut Frame, es: &ExprList) -> Result<bool, AllocError>
    requires stands { Stands reading.now frame.old }
    requires sorted { AreTruths (context_of reading.now frame.old) (view_expr_list es.now) }
    ensures holds { IfOk result (λ b. b ≡ list_any holds (values (context_of reading.now frame.old) (env_of reading.now frame.old) (view_expr_list es.now))) }
    ensures kept { OnOk result (frame.new ≡ frame.old) }
{
    let items = es.items.as_slice();
    'each: for e in items {
        let number = number_of(reading, frame, e)?;
        if is_true(number.bits) {
            return Ok(true);
        }
    }
    Ok(false)
}

// Whether a truth holds at the k-th index tuple of its variables.
#[tactic(auto, using(crate::proofs::Loops::stands_entered, crate::proofs::Loops::sorted_entered))]
#[cycle(number)]
fn holds_at(
    reading: &Reading,
    frame: &mut Frame,
    sizes: &[u32],
    all: u64,
    k: u64,
    e: &Expr,
) -> Result<bool, AllocError>
    requires stands { Stands reading.now frame.old }
    requires sorted { IsSorted (with_bounds (context_of reading.now frame.old) sizes.now) (view_expr e.now) }
    requires all { all ≡ product sizes.now }
    requires within { k < all }
    ensures holds { IfOk result (λ b. b ≡ holds (value (with_bounds (context_of reading.now frame.old) sizes.now) (binding (env_of reading.now frame.old) (tuple_at sizes.now k)) (view_expr e.now))) }
    ensures kept { OnOk result (frame.new ≡ frame.old) }
{
    frame.enter(sizes, all, k)?;
    let number = number_of(reading, frame, e)?;
    frame.leave(sizes.len());
    Ok(is_true(number.bits))
}

// Whether a truth holds at each index tuple of its variables.
#[tactic(auto, using(crate::proofs::Walks::stands_kept, crate::proofs::Loops::sorted_behind))]
#[cycle(number)]
fn for_all_hold(
    reading: &Reading,
    frame: &mut Frame,
    sizes: &SizeList,
    e: &Expr,
) -> Result<bool, AllocError>
    requires stands { Stands reading.now frame.old }
    requires sorted { IsSorted (context_of reading.now frame.old) (for_all sizes.now (view_expr e.now)) }
    ensures holds { IfOk result (λ b. bit b ≡ value (context_of reading.now frame.old) (env_of reading.now frame.old) (for_all sizes.now (view_expr e.now))) }
    ensures kept { OnOk result (frame.new ≡ frame.old) }
{
    let bounds = sizes.as_slice();
    let all = count(bounds);
    'each: for k in 0..all {
        if !holds_at(reading, frame, bounds, all, k, e)? {
            return Ok(false);
        }
    }
    Ok(true)
}

// Whether a truth holds at some index tuple of its variables.
#[tactic(auto, using(crate::proofs::Walks::stands_kept, crate::proofs::Loops::sorted_behind))]
#[cycle(number)]
fn for_some_hold(
    reading: &Reading,
    frame: &mut Frame,
    sizes: &SizeList,
    e: &Expr,
) -> Result<bool, AllocError>
    requires stands { Stands reading.now frame.old }
    requires sorted { IsSorted (context_of reading.now frame.old) (exists sizes.now (view_expr e.now)) }
    ensures holds { IfOk result (λ b. bit b ≡ value (context_of reading.now frame.old) (env_of reading.now frame.old) (exists sizes.now (view_expr e.now))) }
    ensures kept { OnOk result (frame.new ≡ frame.old) }
{
    let bounds = sizes.as_slice();
    let all = count(bounds);
    'each: for k in 0..all {
        if holds_at(reading, frame, bounds, all, k, e)? {
            return Ok(true);
        }
    }
    Ok(false)
}
