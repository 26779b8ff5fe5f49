//! Reads of the kernel's memory, and what is read as the list of terms grows.

ghost use Rattle.std.specs.Prelude.{◌≡◌, ℕ, ◌+◌, ◌*◌, ◌^◌, ◌<◌, ◌≤◌, ◌++◌, All, List, [], true, if◌then◌else◌, length, slice_index_or, IfOk, IsTrue};
ghost use Rattle.hk_term.specs.Shape.{width};
ghost use Rattle.hk_term.specs.Meaning.{Reading, value};
ghost use Rattle.hk_term.specs.declared.node.Node.{Node};
ghost use Rattle.spec_tree.specs.Value.{holds, load};
ghost use Rattle.spec_tree.specs.Shapes.{IsMemory};
ghost use Rattle.hk_symexpr.specs.Sources.{Source, Keeps};
ghost use Rattle.hk_symexpr.specs.Scope.{scope_of, knowing};
ghost use Rattle.hk_symexpr.specs.Naming.{context_of};
ghost use Rattle.spec_tree.specs.Sorted.{IsSorted, with_bounds};
ghost use Rattle.spec_tree.specs.View.{view_expr, view_expr_list};
ghost use Rattle.spec_tree.specs.Plain as plain;
ghost use Rattle.hk_symexpr.specs.Made.{Ready, Lasts, AreSorted};

use crate::names::{Limit, Names};
use crate::ops::{choose, number, sized};
use crate::path::Lead;
use crate::reads::SymReads;
use hk_term::{TermId, Terms};
use spec_tree::{Expr, ExprList, StateName};
use std::alloc::{AllocError, Global};

/// What is named and read lasts as the list of terms grows. The call does nothing: its contract is the law.
pub(crate) fn lasting<R: SymReads>(t: &Terms, reads: &R, names: &Names)
    requires over { R.is_over reads.now t.now }
    requires ready { Ready (R.named reads.now) (R.limit reads.now) t.now (scope_of names.now) }
    ensures over { (new : List Node) → Keeps t.now new → R.is_over reads.now new }
    ensures ready { (new : List Node) → Keeps t.now new → Ready (R.named reads.now) (R.limit reads.now) new (scope_of names.now) }
    ensures lasts { (new : List Node) → Keeps t.now new → (base : Reading → Source) (old : List Node) →
        Lasts base old (R.source reads.now t.now) t.now (scope_of names.now) → Lasts base old (R.source reads.now new) new (scope_of names.now) }
    ensures here { Lasts (R.source reads.now t.now) t.now (R.source reads.now t.now) t.now (scope_of names.now) }
{
    // For the proof: the clauses alone speak of the list, of what is read and of the names.
    let _list = t;
    let _reads = reads;
    let _names = names;
}

/// What is named is ready where more is known. The call does nothing.
pub(crate) fn ready_where<R: SymReads>(t: &Terms, reads: &R, names: &Names, known: &[Limit])
    requires ready { Ready (R.named reads.now) (R.limit reads.now) t.now (scope_of names.now) }
    requires known { All (λ l. l.term < length t.now) known.now }
    ensures { Ready (R.named reads.now) (R.limit reads.now) t.now (knowing (scope_of names.now) known.now) }
{
    // For the proof: the clauses alone speak of the list, of what is read, of the names and of what is known.
    let _list = t;
    let _reads = reads;
    let _names = names;
    let _known = known;
}

/// What is named is ready behind variables more, and an expression is sorted there. The call does nothing.
pub(crate) fn ready_behind<R: SymReads>(
    t: &Terms,
    reads: &R,
    names: &Names,
    all: &[u32],
    sizes: &[u32],
    e: &Expr,
)
    requires ready { Ready (R.named reads.now) (R.limit reads.now) t.now (scope_of names.now) }
    requires all { all.now ≡ names.now.sizes.now ++ sizes.now }
    requires room { names.now.base + length all.now ≤ R.limit reads.now }
    requires sorted { IsSorted (with_bounds (context_of (R.named reads.now) (scope_of names.now)) sizes.now) (view_expr e.now) }
    ensures ready { Ready (R.named reads.now) (R.limit reads.now) t.now (record (scope_of names.now) { sizes = all.now }) }
    ensures sorted { IsSorted (context_of (R.named reads.now) (record (scope_of names.now) { sizes = all.now })) (view_expr e.now) }
    ensures ids { names.now.base + length names.now.sizes.now + length sizes.now < 2 ^ 32 }
{
    // For the proof: the clauses alone speak of the list, of what is read, of the names, of the sizes and of the expression.
    let _list = t;
    let _reads = reads;
    let _names = names;
    let _all = all;
    let _sizes = sizes;
    let _e = e;
}

/// The indices of an entry are sorted. The call does nothing.
pub(crate) fn sorted_indices<R: SymReads>(
    reads: &R,
    names: &Names,
    name: StateName,
    field: u32,
    at: &ExprList,
)
    requires { IsSorted (context_of (R.named reads.now) (scope_of names.now)) (plain.entry name field (view_expr_list at.now)) }
    ensures { AreSorted (context_of (R.named reads.now) (scope_of names.now)) (view_expr_list at.now) }
{
    // For the proof: the clauses alone speak of what is read, of the names, and of the entry's state, field and indices.
    let _reads = reads;
    let _names = names;
    let _name = name;
    let _field = field;
    let _at = at;
}

// The number in so many bytes of an object, with what it leaves as one clause.
fn loaded<R: SymReads>(
    alloc: Global,
    t: &mut Terms,
    reads: &R,
    object: u32,
    offset: TermId,
    bytes: u32,
) -> Result<TermId, AllocError>
    requires over { R.is_over reads.now t.old }
    requires kernel { (R.named reads.now).kernel ≡ true }
    requires object { object < length (R.named reads.now).objects }
    requires bytes { (k : ℕ) × (k < 4) × (bytes ≡ 2 ^ k) }
    requires offset { offset < length t.old }
    requires address { width t.old offset ≡ 64 }
    ensures within { IfOk result (λ r. r < length t.new) }
    ensures width { IfOk result (λ r. width t.new r ≡ 8 * bytes) }
    ensures value { IfOk result (λ r. (v : Reading) → IsMemory (R.named reads.now).objects (R.source reads.now t.old v).memory →
        value t.old offset v + bytes ≤ length (slice_index_or (R.source reads.now t.old v).memory object []) →
        value t.new r v ≡ load (slice_index_or (R.source reads.now t.old v).memory object []) (value t.old offset v) bytes) }
    ensures keeps { Keeps t.old t.new }
{
    let made = reads.load(alloc, t, object, offset, bytes)?;
    Ok(made)
}

/// The number in so many bytes of an object where a path leads to them, and else 0.
pub(crate) fn load_at<R: SymReads>(
    alloc: Global,
    t: &mut Terms,
    reads: &R,
    object: u32,
    bytes: u32,
    lead: Lead,
) -> Result<TermId, AllocError>
    requires over { R.is_over reads.now t.old }
    requires kernel { (R.named reads.now).kernel ≡ true }
    requires object { object < length (R.named reads.now).objects }
    requires bytes { (k : ℕ) × (k < 4) × (bytes ≡ 2 ^ k) }
    requires inside { lead.inside < length t.old }
    requires truth { width t.old lead.inside ≡ 1 }
    requires offset { lead.offset < length t.old }
    requires address { width t.old lead.offset ≡ 64 }
    ensures within { IfOk result (λ r. r < length t.new) }
    ensures width { IfOk result (λ r. width t.new r ≡ 8 * bytes) }
    ensures value { IfOk result (λ r. (v : Reading) → IsMemory (R.named reads.now).objects (R.source reads.now t.old v).memory →
        (holds (value t.old lead.inside v) ≡ true → value t.old lead.offset v + bytes ≤ length (slice_index_or (R.source reads.now t.old v).memory object [])) →
        value t.new r v ≡ (if holds (value t.old lead.inside v) then load (slice_index_or (R.source reads.now t.old v).memory object []) (value t.old lead.offset v) bytes else 0)) }
    ensures keeps { Keeps t.old t.new }
{
    // For the proof: the number of the truth `inside` is below 2 to its width.
    let _inside = sized(t, lead.inside);
    let there = loaded(alloc, t, reads, object, lead.offset, bytes)?;
    let width = sized(t, there);
    let zero = number(t, width, 0)?;
    let made = choose(t, lead.inside, there, zero)?;
    Ok(made)
}
