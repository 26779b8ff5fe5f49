//! The terms of names and variables, and how great the number of an index may be.

ghost use Rattle.std.specs.Prelude.{◌≡◌, ℕ, ◌+◌, ◌^◌, ◌<◌, ◌≤◌, ◌-◌, List, Some, length, slice_get, slice_index, slice_index_or, IfOk, IfSome};
ghost use Rattle.hk_term.specs.Shape.{IsWidth, width};
ghost use Rattle.hk_term.specs.Meaning.{Reading, value};
ghost use Rattle.hk_term.specs.declared.node.Node.{Node};
ghost use Rattle.spec_tree.specs.Plain as plain;
ghost use Rattle.spec_tree.specs.Sorted.{Context};
ghost use Rattle.spec_tree.specs.Value.{Env};
ghost use Rattle.spec_tree.specs.View.{view_expr};
ghost use Rattle.hk_symexpr.specs.Sources.{Source, Keeps};
ghost use Rattle.hk_symexpr.specs.Scope.{scope_of};
ghost use Rattle.hk_symexpr.specs.Naming.{AreNames, AreLimited, Suits, context_of};
ghost use Rattle.hk_symexpr.specs.Made.{IsTermOf};

use crate::names::{Limit, NamedTerm, Names};
use crate::ops::{self, sized};
use hk_term::{TermId, Terms};
use spec_tree::Expr;
use std::alloc::AllocError;

// The term of a name.
fn named_at(names: &[NamedTerm], k: u32) -> TermId
    requires { k < length names.now }
    ensures { (d : NamedTerm) → result ≡ (slice_index_or names.now k d).term }
{
    names[k as usize].term
}

/// The term of an argument.
pub(crate) fn argument(t: &Terms, names: &Names, k: u32) -> TermId
    requires names { AreNames t.now (scope_of names.now) }
    requires there { k < length names.now.args.now }
    ensures { (source : Reading → Source) (c : Context) → IsTermOf source (context_of c (scope_of names.now)) t.now (scope_of names.now) t.now result (plain.argument k) }
{
    // For the proof: the clauses alone speak of the list.
    let _list = t;
    named_at(names.args, k)
}

/// The term of a local name.
pub(crate) fn local(t: &Terms, names: &Names, k: u32) -> TermId
    requires names { AreNames t.now (scope_of names.now) }
    requires there { k < length names.now.locals.now }
    ensures { (source : Reading → Source) (c : Context) → IsTermOf source (context_of c (scope_of names.now)) t.now (scope_of names.now) t.now result (plain.local k) }
{
    // For the proof: the clauses alone speak of the list.
    let _list = t;
    named_at(names.locals, k)
}

// A term at a width, where its number is below 2 to the width.
fn at_width(t: &mut Terms, w: u32, a: TermId) -> Result<TermId, AllocError>
    requires width { IsWidth w }
    requires term { a < length t.old }
    ensures within { IfOk result (λ r. r < length t.new) }
    ensures width { IfOk result (λ r. width t.new r ≡ w) }
    ensures value { IfOk result (λ r. (v : Reading) → value t.old a v < 2 ^ w → value t.new r v ≡ value t.old a v) }
    ensures keeps { Keeps t.old t.new }
{
    if sized(t, a) <= w {
        let made = ops::zero_extend(t, w, a)?;
        Ok(made)
    } else {
        let made = ops::extract(t, w - 1, 0, a)?;
        Ok(made)
    }
}

// The term of a key.
fn key_at(keys: &[TermId], k: u32) -> TermId
    requires { k < length keys.now }
    ensures { result ≡ slice_index keys.now k }
{
    keys[k as usize]
}

/// The term of a variable of a quantifier, or of a field's key. A quantifier's variable has the width 64 wherever it stands, so
/// that each id has one width in the whole list, and is cut to the width of its sort.
pub(crate) fn variable(
    t: &mut Terms,
    names: &Names,
    k: u32,
    width: u32,
) -> Result<TermId, AllocError>
    requires names { AreNames t.old (scope_of names.now) }
    requires keys { length names.now.keys.now ≤ length names.now.sizes.now }
    requires ids { names.now.base + length names.now.sizes.now < 2 ^ 32 }
    requires sorted { IsWidth width × (size : ℕ) × (slice_get names.now.sizes.now k ≡ Some size) × (size ≤ 2 ^ width) }
    ensures term { IfOk result (λ r. (source : Reading → Source) (c : Context) → IsTermOf source (context_of c (scope_of names.now)) t.old (scope_of names.now) t.new r (plain.bound k width)) }
    ensures keeps { Keeps t.old t.new }
{
    if (k as usize) < names.keys.len() {
        let made = at_width(t, width, key_at(names.keys, k))?;
        Ok(made)
    } else {
        let wide = ops::variable(t, 64, names.base + k)?;
        let made = at_width(t, width, wide)?;
        Ok(made)
    }
}

// The greatest index of a variable.
fn variable_most(sizes: &[u32], k: u32) -> u64
    ensures { result ≡ slice_index sizes.now k - 1 }
{
    if (k as usize) < sizes.len() {
        u64::from(sizes[k as usize]).saturating_sub(1)
    } else {
        0
    }
}

// The smaller of two numbers where a term is the one that is known of.
fn smaller(known: &Limit, a: TermId, most: u64) -> u64
    ensures { (nodes : List Node) (v : Reading) → value nodes known.now.term v ≤ known.now.most → value nodes a v ≤ most → value nodes a v ≤ result }
{
    if known.term == a && known.most < most {
        known.most
    } else {
        most
    }
}

// The greatest number of a term, by what is known, where it is at most so much.
fn known_most(known: &[Limit], a: TermId, most: u64) -> u64
    ensures { (nodes : List Node) (v : Reading) → AreLimited nodes known.now v → value nodes a v ≤ most → value nodes a v ≤ result }
{
    let mut found = most;
    for limit in known {
        found = smaller(limit, a, found);
    }
    found
}

// The greatest number of a term.
fn term_most(t: &Terms, known: &[Limit], a: TermId) -> u64
    requires { a < length t.now }
    ensures { (v : Reading) → AreLimited t.now known.now v → value t.now a v ≤ result }
{
    let w = sized(t, a);
    match ops::constant(t, a) {
        Some(n) => n,
        None => known_most(known, a, ops::greatest(w)),
    }
}

// The place and the width of a variable.
fn bound_in(e: &Expr) -> Option<(u32, u32)>
    ensures { IfSome result (λ p. view_expr e.now ≡ plain.bound p.0 p.1) }
{
    match e {
        Expr::Bound(k, width) => Some((*k, *width)),
        _ => None,
    }
}

/// The greatest number that an expression's term may have.
pub(crate) fn most_of(t: &Terms, names: &Names, e: &Expr, a: TermId) -> u64
    requires { a < length t.now }
    ensures { (source : Reading → Source) (c : Context) (old : List Node) → Keeps old t.now → AreNames old (scope_of names.now) → IsTermOf source (context_of c (scope_of names.now)) old (scope_of names.now) t.now a (view_expr e.now) →
        (v : Reading) (env : Env) → Suits source (context_of c (scope_of names.now)) old (scope_of names.now) v env → value t.now a v ≤ result }
{
    match bound_in(e) {
        Some(found) => variable_most(names.sizes, found.0),
        None => term_most(t, names.known, a),
    }
}
