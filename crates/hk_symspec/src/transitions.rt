//! Transitions as terms.

ghost use Rattle.std.specs.Prelude.{◌≡◌, ℕ, ◌<◌, ◌≤◌, [], All, Some, map, option_map, slice_get, length, IfOk};
ghost use Rattle.hk_term.specs.Shape.{width, Grows};
ghost use Rattle.hk_term.specs.Meaning.{Reading, value};
ghost use Rattle.spec_tree.specs.Plain as plain;
ghost use Rattle.spec_tree.specs.Sorted.{AreLines, IsResult, IsSorted, IsTransition, IsWellSorted, field_sorts, lets_of, width_of, with_locals};
ghost use Rattle.spec_tree.specs.Value as tree;
ghost use Rattle.spec_tree.specs.Value.{Env, bit, holds};
ghost use Rattle.spec_tree.specs.View.{view_expr, view_line, view_spec, view_transition};
ghost use Rattle.spec_tree.specs.Meaning as meaning;
ghost use Rattle.spec_tree.specs.Meaning.{after_lines};
ghost use Rattle.hk_symexpr.specs.Sources.{Agrees, Keeps};
ghost use Rattle.hk_symexpr.specs.Naming.{IsNamed};
ghost use Rattle.hk_symspec.specs.States.{after_writes, numbers_at, state_at};
ghost use Rattle.hk_symspec.specs.Standing.{IsStateOver, IsSteady, IsWriteOver, formula_base};
ghost use Rattle.hk_symspec.specs.Steps.{AreArgumentTerms, AreSteadyTerms, IsResultTerm, IsStepAt, IsTermFor};
ghost use Rattle.hk_symspec.specs.Lines.{IsPoint, LineReads, line_context};

use crate::ends::end_state;
use crate::lines::{Setting, go_through, line_term};
use crate::state::SymAbstract;
use crate::write::EntryWrite;
use hk_symexpr::{NamedTerm, learn};
use hk_symmem::InitialReads;
use hk_term::{TermId, Terms};
use spec_tree::{Expr, Spec, Transition};
use std::alloc::{AllocError, Global};

/// What a transition comes to.
#[derive(Drop)]
pub struct SymStep<R: InitialReads> {
    /// Whether the transition is valid, a truth.
    pub valid: TermId,
    /// The end state: the state that came in where the transition is not valid.
    pub state: SymAbstract<R>,
    /// The specified result; none where the text gives none.
    pub result: Option<TermId>,
}

// A term with its width.
fn named_term(t: &Terms, term: TermId) -> NamedTerm
    requires { term < length t.now }
    ensures term { result.term ≡ term }
    ensures width { result.width ≡ width t.now term }
{
    NamedTerm {
        term,
        width: t.width(term),
    }
}

// Terms with their widths.
fn named_terms(alloc: Global, t: &Terms, args: &[TermId]) -> Result<Vec<NamedTerm>, AllocError>
    requires { All (λ k. k < length t.now) args.now }
    ensures terms { IfOk result (λ n. map (λ a. a.term) n.items ≡ args.now) }
    ensures widths { IfOk result (λ n. map (λ a. a.width) n.items ≡ map (width t.now) args.now) }
    ensures named { IfOk result (λ n. All (IsNamed t.now) n.items) }
{
    let mut named = Vec::new(alloc);
    'each: for term in args {
        named.push(named_term(t, *term))?;
    }
    Ok(named)
}

// The local names and the writes behind the lines of a transition.
#[derive(Drop)]
struct Walked {
    locals: Vec<NamedTerm>,
    writes: Vec<EntryWrite>,
}

// Goes through the lines of a transition from its begin.
fn walk<R: InitialReads>(
    alloc: Global,
    t: &mut Terms,
    setting: &Setting<R>,
    transition: &Transition,
) -> Result<Walked, AllocError>
    requires spec { IsWellSorted (view_spec setting.now.spec.now) }
    requires point { IsPoint (view_spec setting.now.spec.now) t.old setting.now.state.now setting.now.args.now setting.now.known.now [] [] }
    requires sorted { AreLines (line_context (view_spec setting.now.spec.now) setting.now.args.now []) (map view_line transition.now.lines) }
    ensures point { IfOk result (λ w. IsPoint (view_spec setting.now.spec.now) t.new setting.now.state.now setting.now.args.now setting.now.known.now w.locals.items w.writes.items) }
    ensures context { IfOk result (λ w. line_context (view_spec setting.now.spec.now) setting.now.args.now w.locals.items ≡
        with_locals (line_context (view_spec setting.now.spec.now) setting.now.args.now []) (lets_of (map view_line transition.now.lines))) }
    ensures reads { IfOk result (λ w. (v : Reading) (env : Env) →
        LineReads (view_spec setting.now.spec.now) t.old setting.now.state.now setting.now.args.now setting.now.known.now [] [] v env →
        LineReads (view_spec setting.now.spec.now) t.new setting.now.state.now setting.now.args.now setting.now.known.now w.locals.items w.writes.items v
        (after_lines (line_context (view_spec setting.now.spec.now) setting.now.args.now []) env (map view_line transition.now.lines))) }
    ensures keeps { Keeps t.old t.new }
{
    let mut locals = Vec::new(alloc);
    let mut writes = Vec::new(alloc);
    let lines = transition.lines.as_slice();
    go_through(alloc, t, setting, &mut locals, &mut writes, lines)?;
    Ok(Walked { locals, writes })
}

// The term of a specified result.
fn result_term<R: InitialReads>(
    alloc: Global,
    t: &mut Terms,
    setting: &Setting<R>,
    locals: &[NamedTerm],
    writes: &[EntryWrite],
    e: &Option<Expr>,
    bits: u32,
) -> Result<Option<TermId>, AllocError>
    requires spec { IsWellSorted (view_spec setting.now.spec.now) }
    requires point { IsPoint (view_spec setting.now.spec.now) t.old setting.now.state.now setting.now.args.now setting.now.known.now locals.now writes.now }
    requires sorted { IsResult (line_context (view_spec setting.now.spec.now) setting.now.args.now locals.now) bits (option_map view_expr e.now) }
    ensures term { IfOk result (λ r. IsTermFor t.new bits (option_map view_expr e.now) r) }
    ensures number { IfOk result (λ r. (v : Reading) (env : Env) →
        LineReads (view_spec setting.now.spec.now) t.old setting.now.state.now setting.now.args.now setting.now.known.now locals.now writes.now v env →
        option_map (λ k. value t.new k v) r ≡ option_map (tree.value (line_context (view_spec setting.now.spec.now) setting.now.args.now locals.now) env) (option_map view_expr e.now)) }
    ensures point { IfOk result (λ r. IsPoint (view_spec setting.now.spec.now) t.new setting.now.state.now setting.now.args.now setting.now.known.now locals.now writes.now) }
    ensures keeps { Keeps t.old t.new }
{
    match e {
        Some(e) => {
            let made = line_term(alloc, t, setting, locals, writes, e)?;
            Ok(Some(made))
        }
        None => Ok(None),
    }
}

// Whether a transition is valid, and its result.
#[derive(Clone, Copy)]
struct End {
    valid: TermId,
    result: Option<TermId>,
}

// The end of a transition, behind its lines.
fn end_of<R: InitialReads>(
    alloc: Global,
    t: &mut Terms,
    setting: &Setting<R>,
    walked: &Walked,
    transition: &Transition,
) -> Result<End, AllocError>
    requires spec { IsWellSorted (view_spec setting.now.spec.now) }
    requires point { IsPoint (view_spec setting.now.spec.now) t.old setting.now.state.now setting.now.args.now setting.now.known.now walked.now.locals.items walked.now.writes.items }
    requires valid { IsSorted (line_context (view_spec setting.now.spec.now) setting.now.args.now walked.now.locals.items) (view_expr transition.now.valid) }
    requires truth { width_of (line_context (view_spec setting.now.spec.now) setting.now.args.now walked.now.locals.items) (view_expr transition.now.valid) ≡ 1 }
    requires number { IsResult (line_context (view_spec setting.now.spec.now) setting.now.args.now walked.now.locals.items) transition.now.result_width (option_map view_expr transition.now.result) }
    ensures within { IfOk result (λ e. e.valid < length t.new) }
    ensures truth { IfOk result (λ e. width t.new e.valid ≡ 1) }
    ensures valid { IfOk result (λ e. (v : Reading) (env : Env) →
        LineReads (view_spec setting.now.spec.now) t.old setting.now.state.now setting.now.args.now setting.now.known.now walked.now.locals.items walked.now.writes.items v env →
        value t.new e.valid v ≡ bit (holds (tree.value (line_context (view_spec setting.now.spec.now) setting.now.args.now walked.now.locals.items) env (view_expr transition.now.valid)))) }
    ensures term { IfOk result (λ e. IsTermFor t.new transition.now.result_width (option_map view_expr transition.now.result) e.result) }
    ensures number { IfOk result (λ e. (v : Reading) (env : Env) →
        LineReads (view_spec setting.now.spec.now) t.old setting.now.state.now setting.now.args.now setting.now.known.now walked.now.locals.items walked.now.writes.items v env →
        option_map (λ k. value t.new k v) e.result ≡ option_map (tree.value (line_context (view_spec setting.now.spec.now) setting.now.args.now walked.now.locals.items) env) (option_map view_expr transition.now.result)) }
    ensures point { IfOk result (λ e. IsPoint (view_spec setting.now.spec.now) t.new setting.now.state.now setting.now.args.now setting.now.known.now walked.now.locals.items walked.now.writes.items) }
    ensures keeps { Keeps t.old t.new }
{
    let locals = walked.locals.as_slice();
    let writes = walked.writes.as_slice();
    let valid = line_term(alloc, t, setting, locals, writes, &transition.valid)?;
    // For the proof: the number of the truth `valid` is below 2 to its width.
    let _node = t.node(valid);
    let number = result_term(
        alloc,
        t,
        setting,
        locals,
        writes,
        &transition.result,
        transition.result_width,
    )?;
    Ok(End {
        valid,
        result: number,
    })
}

// The lines once more, where a truth holds: what it tells of terms is known there, so that an index which it bounds gets no range test.
fn walk_where<R: InitialReads>(
    alloc: Global,
    t: &mut Terms,
    setting: &Setting<R>,
    transition: &Transition,
    condition: TermId,
) -> Result<Walked, AllocError>
    requires spec { IsWellSorted (view_spec setting.now.spec.now) }
    requires point { IsPoint (view_spec setting.now.spec.now) t.old setting.now.state.now setting.now.args.now setting.now.known.now [] [] }
    requires sorted { AreLines (line_context (view_spec setting.now.spec.now) setting.now.args.now []) (map view_line transition.now.lines) }
    requires condition { condition < length t.old }
    requires truth { width t.old condition ≡ 1 }
    ensures over { IfOk result (λ w. All (IsWriteOver (field_sorts (view_spec setting.now.spec.now)) t.new) w.writes.items) }
    ensures done { IfOk result (λ w. All (λ x. (v : Reading) → value t.new x.guard v ≡ 1) w.writes.items) }
    ensures copy { IfOk result (λ w. (v : Reading) (env : Env) →
        LineReads (view_spec setting.now.spec.now) t.old setting.now.state.now setting.now.args.now setting.now.known.now [] [] v env →
        ((u : Reading) → Agrees formula_base v u → value t.old condition u ≡ 1) →
        after_writes (field_sorts (view_spec setting.now.spec.now)) t.new v w.writes.items (state_at (view_spec setting.now.spec.now) t.new setting.now.state.now v) ≡
        (after_lines (line_context (view_spec setting.now.spec.now) setting.now.args.now []) env (map view_line transition.now.lines)).new) }
    ensures keeps { Keeps t.old t.new }
{
    let mut learned = Vec::new(alloc);
    learn(t, condition, &mut learned)?;
    let known = learned.as_slice();
    let inner = Setting {
        spec: setting.spec,
        state: setting.state,
        args: setting.args,
        known,
    };
    let walked = walk(alloc, t, &inner, transition)?;
    Ok(walked)
}

// What a transition comes to.
fn step_terms<R: InitialReads>(
    alloc: Global,
    t: &mut Terms,
    spec: &Spec,
    transition: &Transition,
    state: &SymAbstract<R>,
    args: &[TermId],
) -> Result<SymStep<R>, AllocError>
    requires spec { IsWellSorted (view_spec spec.now) }
    requires transition { IsTransition (view_spec spec.now) (view_transition transition.now) }
    requires over { IsStateOver (view_spec spec.now) t.old state.now }
    requires args { AreArgumentTerms t.old transition.now.widths args.now }
    ensures valid { IfOk result (λ r. r.valid < length t.new) }
    ensures truth { IfOk result (λ r. width t.new r.valid ≡ 1) }
    ensures result { IfOk result (λ r. IsResultTerm t.new (view_transition transition.now) r.result) }
    ensures over { IfOk result (λ r. IsStateOver (view_spec spec.now) t.new r.state) }
    ensures memory { IfOk result (λ r. r.state.memory ≡ state.now.memory) }
    ensures value { IfOk result (λ r. (v : Reading) →
        IsSteady formula_base (view_spec spec.now) t.old state.now v → AreSteadyTerms formula_base t.old args.now v →
        IsStepAt (view_spec spec.now) t.new r.valid r.state r.result v
        (meaning.transition (view_spec spec.now) (view_transition transition.now) (state_at (view_spec spec.now) t.old state.now v) (numbers_at t.old args.now v))) }
    ensures steady { IfOk result (λ r. (v : Reading) →
        IsSteady formula_base (view_spec spec.now) t.old state.now v → AreSteadyTerms formula_base t.old args.now v →
        IsSteady formula_base (view_spec spec.now) t.new r.state v) }
    ensures keeps { Keeps t.old t.new }
{
    let named = named_terms(alloc, t, args)?;
    let setting = Setting {
        spec,
        state,
        args: named.as_slice(),
        known: &[],
    };
    let walked = walk(alloc, t, &setting, transition)?;
    let end = end_of(alloc, t, &setting, &walked, transition)?;
    let valid = walk_where(alloc, t, &setting, transition, end.valid)?;
    let writes = valid.writes.as_slice();
    let after = end_state(alloc, state, writes, end.valid, transition.returns_new)?;
    Ok(SymStep {
        valid: end.valid,
        state: after,
        result: end.result,
    })
}

/// The terms of the transition with this place over a state and arguments: under every reading they have the truth, the end state and
/// the result that the transition has over the state and the arguments that there are then.
///
/// The conditions are a well-sorted specification, a transition that exists, a state of the specification whose terms stand in the
/// list, and one argument for each width of the transition, of that width. The clauses on the step speak of the readings under which
/// neither the state nor the arguments depend on a variable from `FORMULA_BASE` on; the end state does not either then.
pub fn transition_terms<R: InitialReads>(
    alloc: Global,
    t: &mut Terms,
    spec: &Spec,
    h: u32,
    state: &SymAbstract<R>,
    args: &[TermId],
) -> Result<SymStep<R>, AllocError>
    requires spec { IsWellSorted (view_spec spec.now) }
    requires there { h < length spec.now.transitions }
    requires over { IsStateOver (view_spec spec.now) t.old state.now }
    requires args { (u : plain.Transition) → slice_get (view_spec spec.now).transitions h ≡ Some u → AreArgumentTerms t.old u.widths args.now }
    ensures valid { IfOk result (λ r. r.valid < length t.new) }
    ensures truth { IfOk result (λ r. width t.new r.valid ≡ 1) }
    ensures result { (u : plain.Transition) → slice_get (view_spec spec.now).transitions h ≡ Some u → IfOk result (λ r. IsResultTerm t.new u r.result) }
    ensures over { IfOk result (λ r. IsStateOver (view_spec spec.now) t.new r.state) }
    ensures memory { IfOk result (λ r. r.state.memory ≡ state.now.memory) }
    ensures value { (u : plain.Transition) → slice_get (view_spec spec.now).transitions h ≡ Some u → IfOk result (λ r. (v : Reading) →
        IsSteady formula_base (view_spec spec.now) t.old state.now v → AreSteadyTerms formula_base t.old args.now v →
        IsStepAt (view_spec spec.now) t.new r.valid r.state r.result v
        (meaning.transition (view_spec spec.now) u (state_at (view_spec spec.now) t.old state.now v) (numbers_at t.old args.now v))) }
    ensures steady { IfOk result (λ r. (v : Reading) →
        IsSteady formula_base (view_spec spec.now) t.old state.now v → AreSteadyTerms formula_base t.old args.now v →
        IsSteady formula_base (view_spec spec.now) t.new r.state v) }
    ensures keeps_widths { (k : ℕ) → k < length t.old → width t.new k ≡ width t.old k }
    ensures keeps_values { (k : ℕ) → k < length t.old → (v : Reading) → value t.new k v ≡ value t.old k v }
    ensures longer { length t.old ≤ length t.new }
    ensures grows { Grows t.old t.new }
{
    let transition = &spec.transitions.as_slice()[h as usize];
    Ok(step_terms(alloc, t, spec, transition, state, args)?)
}
