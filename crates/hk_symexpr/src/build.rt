//! The recursion over an expression.
#![tactic(auto, using(crate::proofs::Frames::followed))]

ghost use Rattle.std.specs.Prelude.{◌≡◌, ℕ, ◌+◌, ◌<◌, ◌≤◌, ◌^◌, List, All, length, IfOk};
ghost use Rattle.hk_term.specs.Shape.{width};
ghost use Rattle.hk_term.specs.Meaning.{Reading, value};
ghost use Rattle.hk_term.specs.declared.node.Node.{Node};
ghost use Rattle.spec_tree.specs.Plain as plain;
ghost use Rattle.spec_tree.specs.View.{view_expr, view_expr_list, view_path, view_step_list};
ghost use Rattle.spec_tree.specs.Sorted.{IsSorted, AreTruths, AreSteps, with_bounds, width_of};
ghost use Rattle.hk_symexpr.specs.Sources.{Source, Keeps};
ghost use Rattle.hk_symexpr.specs.Scope.{scope_of, knowing, entered};
ghost use Rattle.hk_symexpr.specs.Naming.{context_of};
ghost use Rattle.hk_symexpr.specs.Made.{Ready, Lasts, IsTermOf, IsTermWhere, IsLimitOf, AreLimitsOf, AreSorted, step_trees};
ghost use Rattle.hk_symexpr.specs.Paths.{path_tree};

use crate::conditions::learn;
use crate::join;
use crate::known::{copied, joined, known_where};
use crate::leaf::{argument, local, most_of, variable};
use crate::load::{lasting, ready_behind, ready_where, sorted_indices};
use crate::names::{Limit, Names};
use crate::operators::{both, either, is_implication};
use crate::ops::{number, sized};
use crate::reads::SymReads;
use hk_term::{TermId, Terms};
use spec_tree::{Expr, ExprList, Path, StateName, StepList};
use std::alloc::{AllocError, Global};

/// The term of an expression.
#[cycle(term)]
pub(crate) fn term<R: SymReads>(
    alloc: Global,
    t: &mut Terms,
    reads: &R,
    names: &Names,
    e: &Expr,
) -> Result<TermId, AllocError>
    requires over { R.is_over reads.now t.old }
    requires ready { Ready (R.named reads.now) (R.limit reads.now) t.old (scope_of names.now) }
    requires sorted { IsSorted (context_of (R.named reads.now) (scope_of names.now)) (view_expr e.now) }
    ensures within { IfOk result (λ r. r < length t.new) }
    ensures width_is { IfOk result (λ r. width t.new r ≡ width_of (context_of (R.named reads.now) (scope_of names.now)) (view_expr e.now)) }
    ensures term { IfOk result (λ r. (base : Reading → Source) (old : List Node) → Lasts base old (R.source reads.now t.old) t.old (scope_of names.now) → IsTermOf base (context_of (R.named reads.now) (scope_of names.now)) old (scope_of names.now) t.new r (view_expr e.now)) }
    ensures keeps { Keeps t.old t.new }
    ensures over { R.is_over reads.now t.new }
    ensures ready { Ready (R.named reads.now) (R.limit reads.now) t.new (scope_of names.now) }
    ensures lasts { (base : Reading → Source) (old : List Node) → Lasts base old (R.source reads.now t.old) t.old (scope_of names.now) → Lasts base old (R.source reads.now t.new) t.new (scope_of names.now) }
{
    lasting(t, reads, names);
    let made = build(alloc, t, reads, names, e)?;
    Ok(made)
}

#[cycle(term)]
fn build<R: SymReads>(
    alloc: Global,
    t: &mut Terms,
    reads: &R,
    names: &Names,
    e: &Expr,
) -> Result<TermId, AllocError>
    requires over { R.is_over reads.now t.old }
    requires ready { Ready (R.named reads.now) (R.limit reads.now) t.old (scope_of names.now) }
    requires sorted { IsSorted (context_of (R.named reads.now) (scope_of names.now)) (view_expr e.now) }
    ensures term { IfOk result (λ r. (base : Reading → Source) (old : List Node) → Lasts base old (R.source reads.now t.old) t.old (scope_of names.now) → IsTermOf base (context_of (R.named reads.now) (scope_of names.now)) old (scope_of names.now) t.new r (view_expr e.now)) }
    ensures keeps { Keeps t.old t.new }
{
    match e {
        Expr::Const(width, n) => {
            let made = join::constant(t, names, *width, *n)?;
            Ok(made)
        }
        Expr::Arg(k) => Ok(argument(t, names, *k)),
        Expr::Local(k) => Ok(local(t, names, *k)),
        Expr::Bound(k, width) => {
            let made = variable(t, names, *k, *width)?;
            Ok(made)
        }
        Expr::Entry(name, field, at) => {
            let made = entry(alloc, t, reads, names, *name, *field, at)?;
            Ok(made)
        }
        Expr::Kernel(path) => {
            let made = load(alloc, t, reads, names, path)?;
            Ok(made)
        }
        Expr::Un(kind, a) => {
            let a = term(alloc, t, reads, names, a)?;
            let made = join::unary(t, names, *kind, a)?;
            Ok(made)
        }
        Expr::Bin(kind, a, b) => {
            let a = term(alloc, t, reads, names, a)?;
            if is_implication(*kind) {
                let b = term_where(alloc, t, reads, names, a, b)?;
                let made = join::implied(t, names, a, b)?;
                Ok(made)
            } else {
                let b = term(alloc, t, reads, names, b)?;
                let made = join::binary(t, names, *kind, a, b)?;
                Ok(made)
            }
        }
        Expr::All(es) => {
            let made = all_hold(alloc, t, reads, names, es)?;
            Ok(made)
        }
        Expr::Any(es) => {
            let made = some_hold(alloc, t, reads, names, es)?;
            Ok(made)
        }
        Expr::Choose(test, a, b) => {
            let test = term(alloc, t, reads, names, test)?;
            let a = term_where(alloc, t, reads, names, test, a)?;
            let b = term(alloc, t, reads, names, b)?;
            let made = join::choice(t, names, test, a, b)?;
            Ok(made)
        }
        Expr::Resize(kind, a) => {
            let a = term(alloc, t, reads, names, a)?;
            let made = join::resized(t, names, *kind, a)?;
            Ok(made)
        }
        Expr::ForAll(sizes, a) => {
            let counts = sizes.as_slice();
            let body = body(alloc, t, reads, names, counts, a)?;
            let made = join::for_all(alloc, t, names, counts, body)?;
            Ok(made)
        }
        Expr::Exists(sizes, a) => {
            let bounds = sizes.as_slice();
            let body = body(alloc, t, reads, names, bounds, a)?;
            let made = join::exists(alloc, t, names, bounds, body)?;
            Ok(made)
        }
    }
}

// The term of an expression, where more is known.
#[cycle(term)]
fn term_knowing<R: SymReads>(
    alloc: Global,
    t: &mut Terms,
    reads: &R,
    names: &Names,
    known: &[Limit],
    e: &Expr,
) -> Result<TermId, AllocError>
    requires over { R.is_over reads.now t.old }
    requires ready { Ready (R.named reads.now) (R.limit reads.now) t.old (scope_of names.now) }
    requires known { All (λ l. l.term < length t.old) known.now }
    requires sorted { IsSorted (context_of (R.named reads.now) (scope_of names.now)) (view_expr e.now) }
    ensures within { IfOk result (λ r. r < length t.new) }
    ensures width_is { IfOk result (λ r. width t.new r ≡ width_of (context_of (R.named reads.now) (scope_of names.now)) (view_expr e.now)) }
    ensures term { IfOk result (λ r. IsTermOf (R.source reads.now t.old) (context_of (R.named reads.now) (scope_of names.now)) t.old (knowing (scope_of names.now) known.now) t.new r (view_expr e.now)) }
    ensures keeps { Keeps t.old t.new }
    ensures over { R.is_over reads.now t.new }
    ensures ready { Ready (R.named reads.now) (R.limit reads.now) t.new (scope_of names.now) }
    ensures lasts { (base : Reading → Source) (old : List Node) → Lasts base old (R.source reads.now t.old) t.old (scope_of names.now) → Lasts base old (R.source reads.now t.new) t.new (scope_of names.now) }
{
    lasting(t, reads, names);
    ready_where(t, reads, names, known);
    let inner = Names {
        args: names.args,
        locals: names.locals,
        keys: names.keys,
        sizes: names.sizes,
        known,
        base: names.base,
    };
    let made = term(alloc, t, reads, &inner, e)?;
    Ok(made)
}

// The term of an expression that counts where a condition is true.
#[cycle(term)]
fn term_where<R: SymReads>(
    alloc: Global,
    t: &mut Terms,
    reads: &R,
    names: &Names,
    condition: TermId,
    e: &Expr,
) -> Result<TermId, AllocError>
    requires over { R.is_over reads.now t.old }
    requires ready { Ready (R.named reads.now) (R.limit reads.now) t.old (scope_of names.now) }
    requires condition { condition < length t.old }
    requires truth { width t.old condition ≡ 1 }
    requires sorted { IsSorted (context_of (R.named reads.now) (scope_of names.now)) (view_expr e.now) }
    ensures within { IfOk result (λ r. r < length t.new) }
    ensures width_is { IfOk result (λ r. width t.new r ≡ width_of (context_of (R.named reads.now) (scope_of names.now)) (view_expr e.now)) }
    ensures term { IfOk result (λ r. (base : Reading → Source) (old : List Node) → Lasts base old (R.source reads.now t.old) t.old (scope_of names.now) → IsTermWhere base (context_of (R.named reads.now) (scope_of names.now)) old (scope_of names.now) t.old condition t.new r (view_expr e.now)) }
    ensures keeps { Keeps t.old t.new }
    ensures over { R.is_over reads.now t.new }
    ensures ready { Ready (R.named reads.now) (R.limit reads.now) t.new (scope_of names.now) }
    ensures lasts { (base : Reading → Source) (old : List Node) → Lasts base old (R.source reads.now t.old) t.old (scope_of names.now) → Lasts base old (R.source reads.now t.new) t.new (scope_of names.now) }
{
    let found = known_where(alloc, t, names.known, condition)?;
    let known = found.as_slice();
    let made = term_knowing(alloc, t, reads, names, known, e)?;
    Ok(made)
}

// The term of an expression, and how great it may be.
#[cycle(term)]
fn limited<R: SymReads>(
    alloc: Global,
    t: &mut Terms,
    reads: &R,
    names: &Names,
    e: &Expr,
) -> Result<Limit, AllocError>
    requires over { R.is_over reads.now t.old }
    requires ready { Ready (R.named reads.now) (R.limit reads.now) t.old (scope_of names.now) }
    requires sorted { IsSorted (context_of (R.named reads.now) (scope_of names.now)) (view_expr e.now) }
    ensures limit { IfOk result (λ r. (base : Reading → Source) (old : List Node) → Lasts base old (R.source reads.now t.old) t.old (scope_of names.now) → IsLimitOf base (context_of (R.named reads.now) (scope_of names.now)) old (scope_of names.now) t.new r (view_expr e.now)) }
    ensures keeps { Keeps t.old t.new }
    ensures over { R.is_over reads.now t.new }
    ensures ready { Ready (R.named reads.now) (R.limit reads.now) t.new (scope_of names.now) }
    ensures lasts { (base : Reading → Source) (old : List Node) → Lasts base old (R.source reads.now t.old) t.old (scope_of names.now) → Lasts base old (R.source reads.now t.new) t.new (scope_of names.now) }
{
    let term = term(alloc, t, reads, names, e)?;
    let most = most_of(t, names, e, term);
    Ok(Limit { term, most })
}

// The terms of indices.
#[tactic(auto, using(crate::proofs::Frames::followed, crate::proofs::Walks::sorted_here))]
#[cycle(term)]
fn indices<R: SymReads>(
    alloc: Global,
    t: &mut Terms,
    reads: &R,
    names: &Names,
    at: &ExprList,
) -> Result<Vec<Limit>, AllocError>
    requires over { R.is_over reads.now t.old }
    requires ready { Ready (R.named reads.now) (R.limit reads.now) t.old (scope_of names.now) }
    requires sorted { AreSorted (context_of (R.named reads.now) (scope_of names.now)) (view_expr_list at.now) }
    ensures limits { IfOk result (λ r. (base : Reading → Source) (old : List Node) → Lasts base old (R.source reads.now t.old) t.old (scope_of names.now) → AreLimitsOf base (context_of (R.named reads.now) (scope_of names.now)) old (scope_of names.now) t.new r.items (view_expr_list at.now)) }
    ensures keeps { Keeps t.old t.new }
    ensures over { R.is_over reads.now t.new }
    ensures ready { Ready (R.named reads.now) (R.limit reads.now) t.new (scope_of names.now) }
    ensures lasts { (base : Reading → Source) (old : List Node) → Lasts base old (R.source reads.now t.old) t.old (scope_of names.now) → Lasts base old (R.source reads.now t.new) t.new (scope_of names.now) }
{
    lasting(t, reads, names);
    let mut made = Vec::new(alloc);
    let items = at.items.as_slice();
    'each: for e in items {
        let limit = limited(alloc, t, reads, names, e)?;
        made.push(limit)?;
    }
    Ok(made)
}

// The terms of the indices of steps.
#[tactic(auto, using(crate::proofs::Frames::followed, crate::proofs::Walks::step_here))]
#[cycle(term)]
fn step_indices<R: SymReads>(
    alloc: Global,
    t: &mut Terms,
    reads: &R,
    names: &Names,
    steps: &StepList,
) -> Result<Vec<Limit>, AllocError>
    requires over { R.is_over reads.now t.old }
    requires ready { Ready (R.named reads.now) (R.limit reads.now) t.old (scope_of names.now) }
    requires sorted { AreSteps (context_of (R.named reads.now) (scope_of names.now)) (view_step_list steps.now) }
    ensures limits { IfOk result (λ r. (base : Reading → Source) (old : List Node) → Lasts base old (R.source reads.now t.old) t.old (scope_of names.now) → AreLimitsOf base (context_of (R.named reads.now) (scope_of names.now)) old (scope_of names.now) t.new r.items (step_trees (view_step_list steps.now))) }
    ensures keeps { Keeps t.old t.new }
    ensures over { R.is_over reads.now t.new }
    ensures ready { Ready (R.named reads.now) (R.limit reads.now) t.new (scope_of names.now) }
    ensures lasts { (base : Reading → Source) (old : List Node) → Lasts base old (R.source reads.now t.old) t.old (scope_of names.now) → Lasts base old (R.source reads.now t.new) t.new (scope_of names.now) }
{
    lasting(t, reads, names);
    let mut made = Vec::new(alloc);
    let items = steps.items.as_slice();
    'each: for step in items {
        let limit = limited(alloc, t, reads, names, &step.index)?;
        made.push(limit)?;
    }
    Ok(made)
}

// An entry of a field.
#[cycle(term)]
fn entry<R: SymReads>(
    alloc: Global,
    t: &mut Terms,
    reads: &R,
    names: &Names,
    name: StateName,
    field: u32,
    at: &ExprList,
) -> Result<TermId, AllocError>
    requires over { R.is_over reads.now t.old }
    requires ready { Ready (R.named reads.now) (R.limit reads.now) t.old (scope_of names.now) }
    requires sorted { IsSorted (context_of (R.named reads.now) (scope_of names.now)) (plain.entry name field (view_expr_list at.now)) }
    ensures term { IfOk result (λ r. (base : Reading → Source) (old : List Node) → Lasts base old (R.source reads.now t.old) t.old (scope_of names.now) → IsTermOf base (context_of (R.named reads.now) (scope_of names.now)) old (scope_of names.now) t.new r (plain.entry name field (view_expr_list at.now))) }
    ensures keeps { Keeps t.old t.new }
{
    sorted_indices(reads, names, name, field, at);
    let index = indices(alloc, t, reads, names, at)?;
    let terms = index.as_slice();
    let made = join::entry(alloc, t, reads, names, name, field, terms)?;
    Ok(made)
}

// The number at a path.
#[tactic(auto, using(crate::proofs::Frames::followed, crate::proofs::Walks::path_steps_sorted))]
#[cycle(term)]
fn load<R: SymReads>(
    alloc: Global,
    t: &mut Terms,
    reads: &R,
    names: &Names,
    path: &Path,
) -> Result<TermId, AllocError>
    requires over { R.is_over reads.now t.old }
    requires ready { Ready (R.named reads.now) (R.limit reads.now) t.old (scope_of names.now) }
    requires sorted { IsSorted (context_of (R.named reads.now) (scope_of names.now)) (path_tree (view_path path.now)) }
    ensures term { IfOk result (λ r. (base : Reading → Source) (old : List Node) → Lasts base old (R.source reads.now t.old) t.old (scope_of names.now) → IsTermOf base (context_of (R.named reads.now) (scope_of names.now)) old (scope_of names.now) t.new r (path_tree (view_path path.now))) }
    ensures keeps { Keeps t.old t.new }
{
    let index = step_indices(alloc, t, reads, names, &path.steps)?;
    let steps = path.steps.items.as_slice();
    let terms = index.as_slice();
    let place = join::Place {
        object: path.object,
        base: path.base,
        bytes: path.bytes,
    };
    let made = join::path(alloc, t, reads, names, &place, steps, terms)?;
    Ok(made)
}

// Whether all of these hold: each counts where those before it hold.
#[tactic(auto, using(crate::proofs::Frames::followed, crate::proofs::Walks::truth_here))]
#[cycle(term)]
fn all_hold<R: SymReads>(
    alloc: Global,
    t: &mut Terms,
    reads: &R,
    names: &Names,
    es: &ExprList,
) -> Result<TermId, AllocError>
    requires over { R.is_over reads.now t.old }
    requires ready { Ready (R.named reads.now) (R.limit reads.now) t.old (scope_of names.now) }
    requires sorted { AreTruths (context_of (R.named reads.now) (scope_of names.now)) (view_expr_list es.now) }
    ensures term { IfOk result (λ r. (base : Reading → Source) (old : List Node) → Lasts base old (R.source reads.now t.old) t.old (scope_of names.now) → IsTermOf base (context_of (R.named reads.now) (scope_of names.now)) old (scope_of names.now) t.new r (plain.all_of (view_expr_list es.now))) }
    ensures keeps { Keeps t.old t.new }
{
    lasting(t, reads, names);
    let mut made = number(t, 1, 1)?;
    let mut known = copied(alloc, names.known)?;
    let items = es.items.as_slice();
    'each: for e in items {
        let now = known.as_slice();
        let next = term_knowing(alloc, t, reads, names, now, e)?;
        // For the proof: the next truth's number is below 2 to its width.
        let _next = sized(t, next);
        made = both(t, made, next)?;
        learn(t, next, &mut known)?;
    }
    Ok(made)
}

// Whether one of these holds.
#[tactic(auto, using(crate::proofs::Frames::followed, crate::proofs::Walks::truth_here))]
#[cycle(term)]
fn some_hold<R: SymReads>(
    alloc: Global,
    t: &mut Terms,
    reads: &R,
    names: &Names,
    es: &ExprList,
) -> Result<TermId, AllocError>
    requires over { R.is_over reads.now t.old }
    requires ready { Ready (R.named reads.now) (R.limit reads.now) t.old (scope_of names.now) }
    requires sorted { AreTruths (context_of (R.named reads.now) (scope_of names.now)) (view_expr_list es.now) }
    ensures term { IfOk result (λ r. (base : Reading → Source) (old : List Node) → Lasts base old (R.source reads.now t.old) t.old (scope_of names.now) → IsTermOf base (context_of (R.named reads.now) (scope_of names.now)) old (scope_of names.now) t.new r (plain.any_of (view_expr_list es.now))) }
    ensures keeps { Keeps t.old t.new }
{
    lasting(t, reads, names);
    let mut made = number(t, 1, 0)?;
    let items = es.items.as_slice();
    'each: for e in items {
        let next = term(alloc, t, reads, names, e)?;
        made = either(t, made, next)?;
    }
    Ok(made)
}

// The term of an expression behind variables of these sizes.
#[cycle(term)]
fn body<R: SymReads>(
    alloc: Global,
    t: &mut Terms,
    reads: &R,
    names: &Names,
    sizes: &[u32],
    e: &Expr,
) -> Result<TermId, AllocError>
    requires over { R.is_over reads.now t.old }
    requires ready { Ready (R.named reads.now) (R.limit reads.now) t.old (scope_of names.now) }
    requires sorted { IsSorted (with_bounds (context_of (R.named reads.now) (scope_of names.now)) sizes.now) (view_expr e.now) }
    ensures ids { IfOk result (λ r. names.now.base + length names.now.sizes.now + length sizes.now < 2 ^ 32) }
    ensures within { IfOk result (λ r. r < length t.new) }
    ensures width_is { IfOk result (λ r. width t.new r ≡ width_of (with_bounds (context_of (R.named reads.now) (scope_of names.now)) sizes.now) (view_expr e.now)) }
    ensures term { IfOk result (λ r. (base : Reading → Source) (old : List Node) → Lasts base old (R.source reads.now t.old) t.old (scope_of names.now) → IsTermOf base (with_bounds (context_of (R.named reads.now) (scope_of names.now)) sizes.now) old (entered (scope_of names.now) sizes.now) t.new r (view_expr e.now)) }
    ensures keeps { Keeps t.old t.new }
{
    let all = joined(alloc, names.sizes, sizes)?;
    if !join::is_room(reads, names, all.len()) {
        return Err(AllocError);
    }
    let whole = all.as_slice();
    ready_behind(t, reads, names, whole, sizes, e);
    let inner = Names {
        args: names.args,
        locals: names.locals,
        keys: names.keys,
        sizes: whole,
        known: names.known,
        base: names.base,
    };
    let made = term(alloc, t, reads, &inner, e)?;
    Ok(made)
}
