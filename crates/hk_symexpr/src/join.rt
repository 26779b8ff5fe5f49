//! The term of an expression from the terms of its parts.

ghost use Rattle.std.specs.Prelude.{◌≡◌, ◌+◌, ◌<◌, ◌≤◌, ◌^◌, List, true, length, slice_index_or, IfOk, IsTrue};
ghost use Rattle.hk_term.specs.Shape.{width};
ghost use Rattle.hk_term.specs.Meaning.{Reading};
ghost use Rattle.hk_term.specs.declared.node.Node.{Node};
ghost use Rattle.spec_tree.specs.Plain as plain;
ghost use Rattle.spec_tree.specs.Plain.{Tree, Trees};
ghost use Rattle.spec_tree.specs.Sorted as sorting;
ghost use Rattle.spec_tree.specs.Sorted.{Context, IsWidth, IsSorted, FitsUn, FitsClass, FitsResize, class_of, with_bounds, no_field};
ghost use Rattle.spec_tree.specs.View.{view_steps};
ghost use Rattle.hk_symexpr.specs.Sources.{Source, Keeps};
ghost use Rattle.hk_symexpr.specs.Scope.{scope_of, entered};
ghost use Rattle.hk_symexpr.specs.Naming.{AreIndexTerms, context_of};
ghost use Rattle.hk_symexpr.specs.Made.{Ready, Lasts, IsTermOf, IsTermWhere, AreLimitsOf, step_trees};
ghost use Rattle.hk_symexpr.specs.Paths.{AreIndexed};

use crate::load::{lasting, load_at};
use crate::names::{Limit, Names};
use crate::path::lead_of;
use crate::reads::SymReads;
use crate::{operators, ops, quantify};
use hk_term::{TermId, Terms};
use spec_ast::{BinKind, UnKind};
use spec_tree::{PathStep, ResizeKind, StateName};
use std::alloc::{AllocError, Global};

/// A number.
pub(crate) fn constant(
    t: &mut Terms,
    names: &Names,
    width: u32,
    n: u64,
) -> Result<TermId, AllocError>
    requires width { IsWidth width }
    requires number { n < 2 ^ width }
    ensures term { IfOk result (λ r. (base : Reading → Source) (c : Context) (old : List Node) → IsTermOf base (context_of c (scope_of names.now)) old (scope_of names.now) t.new r (plain.constant width n)) }
    ensures keeps { Keeps t.old t.new }
{
    // For the proof: the clauses alone speak of the names.
    let _names = names;
    let made = ops::number(t, width, n)?;
    Ok(made)
}

/// An operator with one operand.
pub(crate) fn unary(
    t: &mut Terms,
    names: &Names,
    kind: UnKind,
    a: TermId,
) -> Result<TermId, AllocError>
    requires term { a < length t.old }
    requires kind { FitsUn kind (width t.old a) }
    ensures term { IfOk result (λ r. (base : Reading → Source) (c : Context) (old : List Node) (e : Tree) → IsTermOf base (context_of c (scope_of names.now)) old (scope_of names.now) t.old a e → IsTermOf base (context_of c (scope_of names.now)) old (scope_of names.now) t.new r (plain.unary kind e)) }
    ensures keeps { Keeps t.old t.new }
{
    // For the proof: the clauses alone speak of the names.
    let _names = names;
    let made = operators::unary(t, kind, a)?;
    Ok(made)
}

/// An operator with two operands.
pub(crate) fn binary(
    t: &mut Terms,
    names: &Names,
    kind: BinKind,
    a: TermId,
    b: TermId,
) -> Result<TermId, AllocError>
    requires first { a < length t.old }
    requires second { b < length t.old }
    requires widths { width t.old a ≡ width t.old b }
    requires kind { FitsClass (class_of kind) (width t.old a) }
    ensures term { IfOk result (λ r. (base : Reading → Source) (c : Context) (old : List Node) (e f : Tree) → IsTermOf base (context_of c (scope_of names.now)) old (scope_of names.now) t.old a e → IsTermOf base (context_of c (scope_of names.now)) old (scope_of names.now) t.old b f → IsTermOf base (context_of c (scope_of names.now)) old (scope_of names.now) t.new r (plain.binary kind e f)) }
    ensures keeps { Keeps t.old t.new }
{
    // For the proof: the clauses alone speak of the names.
    let _names = names;
    let made = operators::binary(t, kind, a, b)?;
    Ok(made)
}

/// A change of width.
pub(crate) fn resized(
    t: &mut Terms,
    names: &Names,
    kind: ResizeKind,
    a: TermId,
) -> Result<TermId, AllocError>
    requires term { a < length t.old }
    requires kind { FitsResize kind (width t.old a) }
    ensures term { IfOk result (λ r. (base : Reading → Source) (c : Context) (old : List Node) (e : Tree) → IsTermOf base (context_of c (scope_of names.now)) old (scope_of names.now) t.old a e → IsTermOf base (context_of c (scope_of names.now)) old (scope_of names.now) t.new r (plain.resize kind e)) }
    ensures keeps { Keeps t.old t.new }
{
    // For the proof: the clauses alone speak of the names.
    let _names = names;
    let made = operators::resize(t, kind, a)?;
    Ok(made)
}

/// The first of two terms where a test holds, where it counts alone, and else the second.
pub(crate) fn choice(
    t: &mut Terms,
    names: &Names,
    test: TermId,
    a: TermId,
    b: TermId,
) -> Result<TermId, AllocError>
    requires test { test < length t.old }
    requires first { a < length t.old }
    requires second { b < length t.old }
    requires truth { width t.old test ≡ 1 }
    requires widths { width t.old a ≡ width t.old b }
    ensures term { IfOk result (λ r. (base : Reading → Source) (c : Context) (old : List Node) (d e f : Tree) → IsTermOf base (context_of c (scope_of names.now)) old (scope_of names.now) t.old test d → IsTermWhere base (context_of c (scope_of names.now)) old (scope_of names.now) t.old test t.old a e → IsTermOf base (context_of c (scope_of names.now)) old (scope_of names.now) t.old b f → IsTermOf base (context_of c (scope_of names.now)) old (scope_of names.now) t.new r (plain.choose d e f)) }
    ensures keeps { Keeps t.old t.new }
{
    // For the proof: the clauses alone speak of the names.
    let _names = names;
    // For the proof: the test's number is below 2 to its width.
    let _test = ops::sized(t, test);
    let made = ops::choose(t, test, a, b)?;
    Ok(made)
}

/// Whether the second of two truths holds, where it counts alone, if the first does.
pub(crate) fn implied(
    t: &mut Terms,
    names: &Names,
    a: TermId,
    b: TermId,
) -> Result<TermId, AllocError>
    requires first { a < length t.old }
    requires second { b < length t.old }
    requires truth { width t.old a ≡ 1 }
    requires other { width t.old b ≡ 1 }
    ensures term { IfOk result (λ r. (base : Reading → Source) (c : Context) (old : List Node) (e f : Tree) → IsTermOf base (context_of c (scope_of names.now)) old (scope_of names.now) t.old a e → IsTermWhere base (context_of c (scope_of names.now)) old (scope_of names.now) t.old a t.old b f → IsTermOf base (context_of c (scope_of names.now)) old (scope_of names.now) t.new r (plain.binary BinKind.Implies e f)) }
    ensures keeps { Keeps t.old t.new }
{
    // For the proof: the clauses alone speak of the names.
    let _names = names;
    // For the proof: the numbers of both truths are below 2 to their widths.
    let _a = ops::sized(t, a);
    let _b = ops::sized(t, b);
    let made = operators::binary(t, BinKind::Implies, a, b)?;
    Ok(made)
}

// The id of the next variable.
fn next_id(names: &Names) -> u32
    requires { names.now.base + length names.now.sizes.now < 2 ^ 32 }
    ensures { result ≡ names.now.base + length names.now.sizes.now }
{
    names.base + names.sizes.len() as u32
}

/// Whether a truth holds for all numbers of the variables of these sizes, the next ones.
pub(crate) fn for_all(
    alloc: Global,
    t: &mut Terms,
    names: &Names,
    sizes: &[u32],
    body: TermId,
) -> Result<TermId, AllocError>
    requires ids { names.now.base + length names.now.sizes.now + length sizes.now < 2 ^ 32 }
    requires keys { length names.now.keys.now ≤ length names.now.sizes.now }
    requires body { body < length t.old }
    requires truth { width t.old body ≡ 1 }
    ensures term { IfOk result (λ r. (base : Reading → Source) (c : Context) (old : List Node) (e : Tree) → IsTermOf base (with_bounds (context_of c (scope_of names.now)) sizes.now) old (entered (scope_of names.now) sizes.now) t.old body e → IsTermOf base (context_of c (scope_of names.now)) old (scope_of names.now) t.new r (plain.for_all sizes.now e)) }
    ensures keeps { Keeps t.old t.new }
{
    let made = quantify::every(alloc, t, next_id(names), sizes, body)?;
    Ok(made)
}

/// Whether a truth holds for some numbers of the variables of these sizes, the next ones.
pub(crate) fn exists(
    alloc: Global,
    t: &mut Terms,
    names: &Names,
    sizes: &[u32],
    body: TermId,
) -> Result<TermId, AllocError>
    requires ids { names.now.base + length names.now.sizes.now + length sizes.now < 2 ^ 32 }
    requires keys { length names.now.keys.now ≤ length names.now.sizes.now }
    requires body { body < length t.old }
    requires truth { width t.old body ≡ 1 }
    ensures term { IfOk result (λ r. (base : Reading → Source) (c : Context) (old : List Node) (e : Tree) → IsTermOf base (with_bounds (context_of c (scope_of names.now)) sizes.now) old (entered (scope_of names.now) sizes.now) t.old body e → IsTermOf base (context_of c (scope_of names.now)) old (scope_of names.now) t.new r (plain.exists sizes.now e)) }
    ensures keeps { Keeps t.old t.new }
{
    let made = quantify::some(alloc, t, next_id(names), sizes, body)?;
    Ok(made)
}

/// Whether there are ids for so many variables.
pub(crate) fn is_room<R: SymReads>(reads: &R, names: &Names, count: usize) -> bool
    ensures { IsTrue result → names.now.base + count ≤ R.limit reads.now }
{
    let limit = reads.limit();
    names.base <= limit && count <= (limit - names.base) as usize
}

/// An entry of a field.
pub(crate) fn entry<R: SymReads>(
    alloc: Global,
    t: &mut Terms,
    reads: &R,
    names: &Names,
    name: StateName,
    field: u32,
    index: &[Limit],
) -> Result<TermId, AllocError>
    requires over { R.is_over reads.now t.old }
    requires ready { Ready (R.named reads.now) (R.limit reads.now) t.old (scope_of names.now) }
    requires reads { sorting.reads (R.named reads.now) name ≡ true }
    requires field { field < length (R.named reads.now).fields }
    requires index { AreIndexTerms t.old (slice_index_or (R.named reads.now).fields field no_field).keys index.now }
    ensures term { IfOk result (λ r. (base : Reading → Source) (old : List Node) (at : Trees) → Lasts base old (R.source reads.now t.old) t.old (scope_of names.now) →
        AreLimitsOf base (context_of (R.named reads.now) (scope_of names.now)) old (scope_of names.now) t.old index.now at → IsTermOf base (context_of (R.named reads.now) (scope_of names.now)) old (scope_of names.now) t.new r (plain.entry name field at)) }
    ensures keeps { Keeps t.old t.new }
{
    // For the proof: the clauses alone speak of the names.
    let _names = names;
    let made = reads.entry(alloc, t, name, field, index)?;
    Ok(made)
}

/// What a path reads: so many bytes of an object, from the bytes before its steps on.
#[derive(Drop)]
pub(crate) struct Place {
    pub(crate) object: u32,
    pub(crate) base: u64,
    pub(crate) bytes: u32,
}

/// The number at a path.
pub(crate) fn path<R: SymReads>(
    alloc: Global,
    t: &mut Terms,
    reads: &R,
    names: &Names,
    place: &Place,
    steps: &[PathStep],
    index: &[Limit],
) -> Result<TermId, AllocError>
    requires over { R.is_over reads.now t.old }
    requires ready { Ready (R.named reads.now) (R.limit reads.now) t.old (scope_of names.now) }
    requires sorted { IsSorted (context_of (R.named reads.now) (scope_of names.now)) (plain.path place.now.object place.now.base (view_steps steps.now) place.now.bytes) }
    requires index { AreIndexed t.old (view_steps steps.now) index.now }
    ensures term { IfOk result (λ r. (first : Reading → Source) (old : List Node) → Lasts first old (R.source reads.now t.old) t.old (scope_of names.now) →
        AreLimitsOf first (context_of (R.named reads.now) (scope_of names.now)) old (scope_of names.now) t.old index.now (step_trees (view_steps steps.now)) → IsTermOf first (context_of (R.named reads.now) (scope_of names.now)) old (scope_of names.now) t.new r (plain.path place.now.object place.now.base (view_steps steps.now) place.now.bytes)) }
    ensures keeps { Keeps t.old t.new }
{
    lasting(t, reads, names);
    let lead = lead_of(t, place.base, steps, index)?;
    // For the proof: the offset's number is below 2 to its width.
    let _offset = ops::sized(t, lead.offset);
    let made = load_at(alloc, t, reads, place.object, place.bytes, lead)?;
    Ok(made)
}
