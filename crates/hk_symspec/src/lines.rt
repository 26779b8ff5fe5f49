//! The lines of a transition, on a copy of the state: a let names a term, and a write is one write more.

ghost use Rattle.std.specs.Prelude.{◌≡◌, ℕ, ◌<◌, ◌∷◌, [], List, All, map, length, IfOk, OnOk};
ghost use Rattle.hk_term.specs.Shape.{width};
ghost use Rattle.hk_term.specs.Meaning.{Reading, value};
ghost use Rattle.hk_term.specs.declared.node.Node.{Node};
ghost use Rattle.spec_tree.specs.Plain.{let_line, write_line};
ghost use Rattle.spec_tree.specs.Sorted.{AreLines, IsSorted, IsWellSorted, field_sorts, lets_of, width_of, with_local, with_locals};
ghost use Rattle.spec_tree.specs.Value as tree;
ghost use Rattle.spec_tree.specs.Value.{Env, values};
ghost use Rattle.spec_tree.specs.View.{view_expr, view_expr_list, view_line, view_spec};
ghost use Rattle.spec_tree.specs.Meaning.{after_lines, with_value};
ghost use Rattle.hk_symexpr.specs.Sources.{Keeps};
ghost use Rattle.hk_symspec.specs.States.{numbers_at};
ghost use Rattle.hk_symspec.specs.Standing.{IsWriteOver};
ghost use Rattle.hk_symspec.specs.Lines.{AreSorted, IsPoint, LineReads, line_context, widths_of};

use crate::formulas::objects_are_small;
use crate::indices::constant;
use crate::limits::FORMULA_BASE;
use crate::reads::StateReads;
use crate::state::SymAbstract;
use crate::write::EntryWrite;
use hk_seq::Seq;
use hk_symexpr::{Limit, NamedTerm, Names, term_of};
use hk_symmem::InitialReads;
use hk_term::{TermId, Terms};
use spec_tree::{Expr, ExprList, Line, Spec, Write};
use std::alloc::{AllocError, Global};

// What stays the same along the lines of a transition: the state that came in, the arguments, and what is known of terms.
#[derive(Drop)]
pub(crate) struct Setting<'a, R: InitialReads> {
    pub(crate) spec: &'a Spec,
    pub(crate) state: &'a SymAbstract<R>,
    pub(crate) args: &'a [NamedTerm],
    pub(crate) known: &'a [Limit],
}

// What is named and read lasts as the list of terms grows. The call does nothing: its contract is the law.
fn lasting<R: InitialReads>(
    t: &Terms,
    setting: &Setting<R>,
    locals: &[NamedTerm],
    writes: &[EntryWrite],
)
    requires point { IsPoint (view_spec setting.now.spec.now) t.now setting.now.state.now setting.now.args.now setting.now.known.now locals.now writes.now }
    ensures point { (new : List Node) → Keeps t.now new → IsPoint (view_spec setting.now.spec.now) new setting.now.state.now setting.now.args.now setting.now.known.now locals.now writes.now }
    ensures reads { (new : List Node) → Keeps t.now new → (v : Reading) (env : Env) →
        LineReads (view_spec setting.now.spec.now) t.now setting.now.state.now setting.now.args.now setting.now.known.now locals.now writes.now v env →
        LineReads (view_spec setting.now.spec.now) new setting.now.state.now setting.now.args.now setting.now.known.now locals.now writes.now v env }
{
    // For the proof: the clauses alone speak of the list, of the setting, of the local names and of the writes.
    let _list = t;
    let _setting = setting;
    let _locals = locals;
    let _writes = writes;
}

// The term of an expression of a line.
pub(crate) fn line_term<R: InitialReads>(
    alloc: Global,
    t: &mut Terms,
    setting: &Setting<R>,
    locals: &[NamedTerm],
    writes: &[EntryWrite],
    e: &Expr,
) -> Result<TermId, AllocError>
    requires spec { IsWellSorted (view_spec setting.now.spec.now) }
    requires point { IsPoint (view_spec setting.now.spec.now) t.old setting.now.state.now setting.now.args.now setting.now.known.now locals.now writes.now }
    requires sorted { IsSorted (line_context (view_spec setting.now.spec.now) setting.now.args.now locals.now) (view_expr e.now) }
    ensures within { IfOk result (λ r. r < length t.new) }
    ensures width { IfOk result (λ r. width t.new r ≡ width_of (line_context (view_spec setting.now.spec.now) setting.now.args.now locals.now) (view_expr e.now)) }
    ensures value { IfOk result (λ r. (v : Reading) (env : Env) →
        LineReads (view_spec setting.now.spec.now) t.old setting.now.state.now setting.now.args.now setting.now.known.now locals.now writes.now v env →
        value t.new r v ≡ tree.value (line_context (view_spec setting.now.spec.now) setting.now.args.now locals.now) env (view_expr e.now)) }
    ensures keeps { Keeps t.old t.new }
    ensures point { IfOk result (λ r. IsPoint (view_spec setting.now.spec.now) t.new setting.now.state.now setting.now.args.now setting.now.known.now locals.now writes.now) }
    ensures reads { IfOk result (λ r. (v : Reading) (env : Env) →
        LineReads (view_spec setting.now.spec.now) t.old setting.now.state.now setting.now.args.now setting.now.known.now locals.now writes.now v env →
        LineReads (view_spec setting.now.spec.now) t.new setting.now.state.now setting.now.args.now setting.now.known.now locals.now writes.now v env) }
{
    // For the proof: each object has fewer than 2^64 bytes.
    let _objects = objects_are_small(setting.spec);
    lasting(t, setting, locals, writes);
    let reads = StateReads {
        spec: setting.spec,
        state: setting.state,
        writes,
        both: true,
    };
    let names = Names {
        args: setting.args,
        locals,
        keys: &[],
        sizes: &[],
        known: setting.known,
        base: FORMULA_BASE,
    };
    let made = term_of(alloc, t, &reads, &names, e)?;
    Ok(made)
}

// The terms of indices.
fn index_terms<R: InitialReads>(
    alloc: Global,
    t: &mut Terms,
    setting: &Setting<R>,
    locals: &[NamedTerm],
    writes: &[EntryWrite],
    at: &ExprList,
) -> Result<Vec<TermId>, AllocError>
    requires spec { IsWellSorted (view_spec setting.now.spec.now) }
    requires point { IsPoint (view_spec setting.now.spec.now) t.old setting.now.state.now setting.now.args.now setting.now.known.now locals.now writes.now }
    requires sorted { AreSorted (line_context (view_spec setting.now.spec.now) setting.now.args.now locals.now) (view_expr_list at.now) }
    ensures within { IfOk result (λ r. All (λ k. k < length t.new) r.items) }
    ensures widths { IfOk result (λ r. map (width t.new) r.items ≡ widths_of (line_context (view_spec setting.now.spec.now) setting.now.args.now locals.now) (view_expr_list at.now)) }
    ensures numbers { IfOk result (λ r. (v : Reading) (env : Env) →
        LineReads (view_spec setting.now.spec.now) t.old setting.now.state.now setting.now.args.now setting.now.known.now locals.now writes.now v env →
        numbers_at t.new r.items v ≡ values (line_context (view_spec setting.now.spec.now) setting.now.args.now locals.now) env (view_expr_list at.now)) }
    ensures keeps { Keeps t.old t.new }
    ensures point { IfOk result (λ r. IsPoint (view_spec setting.now.spec.now) t.new setting.now.state.now setting.now.args.now setting.now.known.now locals.now writes.now) }
    ensures reads { IfOk result (λ r. (v : Reading) (env : Env) →
        LineReads (view_spec setting.now.spec.now) t.old setting.now.state.now setting.now.args.now setting.now.known.now locals.now writes.now v env →
        LineReads (view_spec setting.now.spec.now) t.new setting.now.state.now setting.now.args.now setting.now.known.now locals.now writes.now v env) }
{
    let mut terms = Vec::new(alloc);
    let items = at.items.as_slice();
    'each: for e in items {
        let term = line_term(alloc, t, setting, locals, writes, e)?;
        terms.push(term)?;
    }
    Ok(terms)
}

// The write of a line, done under every reading.
fn write_of<R: InitialReads>(
    alloc: Global,
    t: &mut Terms,
    setting: &Setting<R>,
    locals: &[NamedTerm],
    writes: &[EntryWrite],
    write: &Write,
) -> Result<EntryWrite, AllocError>
    requires spec { IsWellSorted (view_spec setting.now.spec.now) }
    requires point { IsPoint (view_spec setting.now.spec.now) t.old setting.now.state.now setting.now.args.now setting.now.known.now locals.now writes.now }
    requires sorted { AreLines (line_context (view_spec setting.now.spec.now) setting.now.args.now locals.now) (write_line write.now.field (view_expr_list write.now.index) (view_expr write.now.value) ∷ []) }
    ensures over { IfOk result (λ w. IsWriteOver (field_sorts (view_spec setting.now.spec.now)) t.new w) }
    ensures field { IfOk result (λ w. w.field ≡ write.now.field) }
    ensures guard { IfOk result (λ w. (v : Reading) → value t.new w.guard v ≡ 1) }
    ensures index { IfOk result (λ w. (v : Reading) (env : Env) →
        LineReads (view_spec setting.now.spec.now) t.old setting.now.state.now setting.now.args.now setting.now.known.now locals.now writes.now v env →
        numbers_at t.new w.index v ≡ values (line_context (view_spec setting.now.spec.now) setting.now.args.now locals.now) env (view_expr_list write.now.index)) }
    ensures value { IfOk result (λ w. (v : Reading) (env : Env) →
        LineReads (view_spec setting.now.spec.now) t.old setting.now.state.now setting.now.args.now setting.now.known.now locals.now writes.now v env →
        value t.new w.value v ≡ tree.value (line_context (view_spec setting.now.spec.now) setting.now.args.now locals.now) env (view_expr write.now.value)) }
    ensures keeps { Keeps t.old t.new }
    ensures point { IfOk result (λ w. IsPoint (view_spec setting.now.spec.now) t.new setting.now.state.now setting.now.args.now setting.now.known.now locals.now writes.now) }
    ensures reads { IfOk result (λ w. (v : Reading) (env : Env) →
        LineReads (view_spec setting.now.spec.now) t.old setting.now.state.now setting.now.args.now setting.now.known.now locals.now writes.now v env →
        LineReads (view_spec setting.now.spec.now) t.new setting.now.state.now setting.now.args.now setting.now.known.now locals.now writes.now v env) }
{
    let index = index_terms(alloc, t, setting, locals, writes, &write.index)?;
    let value = line_term(alloc, t, setting, locals, writes, &write.value)?;
    lasting(t, setting, locals, writes);
    let guard = constant(t, 1, 1)?;
    Ok(EntryWrite {
        field: write.field,
        index: Seq::from_vec(index),
        guard,
        value,
    })
}

// Puts the term of an expression as the next local name.
fn put_let<R: InitialReads>(
    alloc: Global,
    t: &mut Terms,
    setting: &Setting<R>,
    locals: &mut Vec<NamedTerm>,
    writes: &[EntryWrite],
    e: &Expr,
) -> Result<(), AllocError>
    requires spec { IsWellSorted (view_spec setting.now.spec.now) }
    requires point { IsPoint (view_spec setting.now.spec.now) t.old setting.now.state.now setting.now.args.now setting.now.known.now locals.old.items writes.now }
    requires sorted { IsSorted (line_context (view_spec setting.now.spec.now) setting.now.args.now locals.old.items) (view_expr e.now) }
    ensures point { OnOk result (IsPoint (view_spec setting.now.spec.now) t.new setting.now.state.now setting.now.args.now setting.now.known.now locals.new.items writes.now) }
    ensures context { OnOk result (line_context (view_spec setting.now.spec.now) setting.now.args.now locals.new.items ≡ with_local (line_context (view_spec setting.now.spec.now) setting.now.args.now locals.old.items) (view_expr e.now)) }
    ensures reads { OnOk result ((v : Reading) (env : Env) →
        LineReads (view_spec setting.now.spec.now) t.old setting.now.state.now setting.now.args.now setting.now.known.now locals.old.items writes.now v env →
        LineReads (view_spec setting.now.spec.now) t.new setting.now.state.now setting.now.args.now setting.now.known.now locals.new.items writes.now v
        (with_value (line_context (view_spec setting.now.spec.now) setting.now.args.now locals.old.items) env (view_expr e.now))) }
    ensures keeps { Keeps t.old t.new }
{
    let term = line_term(alloc, t, setting, locals.as_slice(), writes, e)?;
    let width = t.width(term);
    locals.push(NamedTerm { term, width })?;
    Ok(())
}

// Puts the write of a line as the next write.
fn put_write<R: InitialReads>(
    alloc: Global,
    t: &mut Terms,
    setting: &Setting<R>,
    locals: &[NamedTerm],
    writes: &mut Vec<EntryWrite>,
    write: &Write,
) -> Result<(), AllocError>
    requires spec { IsWellSorted (view_spec setting.now.spec.now) }
    requires point { IsPoint (view_spec setting.now.spec.now) t.old setting.now.state.now setting.now.args.now setting.now.known.now locals.now writes.old.items }
    requires sorted { AreLines (line_context (view_spec setting.now.spec.now) setting.now.args.now locals.now) (write_line write.now.field (view_expr_list write.now.index) (view_expr write.now.value) ∷ []) }
    ensures point { OnOk result (IsPoint (view_spec setting.now.spec.now) t.new setting.now.state.now setting.now.args.now setting.now.known.now locals.now writes.new.items) }
    ensures reads { OnOk result ((v : Reading) (env : Env) →
        LineReads (view_spec setting.now.spec.now) t.old setting.now.state.now setting.now.args.now setting.now.known.now locals.now writes.old.items v env →
        LineReads (view_spec setting.now.spec.now) t.new setting.now.state.now setting.now.args.now setting.now.known.now locals.now writes.new.items v
        (after_lines (line_context (view_spec setting.now.spec.now) setting.now.args.now locals.now) env (write_line write.now.field (view_expr_list write.now.index) (view_expr write.now.value) ∷ []))) }
    ensures keeps { Keeps t.old t.new }
{
    let made = write_of(alloc, t, setting, locals, writes.as_slice(), write)?;
    writes.push(made)?;
    Ok(())
}

// Goes through a line.
fn go_on<R: InitialReads>(
    alloc: Global,
    t: &mut Terms,
    setting: &Setting<R>,
    locals: &mut Vec<NamedTerm>,
    writes: &mut Vec<EntryWrite>,
    line: &Line,
) -> Result<(), AllocError>
    requires spec { IsWellSorted (view_spec setting.now.spec.now) }
    requires point { IsPoint (view_spec setting.now.spec.now) t.old setting.now.state.now setting.now.args.now setting.now.known.now locals.old.items writes.old.items }
    requires sorted { AreLines (line_context (view_spec setting.now.spec.now) setting.now.args.now locals.old.items) (view_line line.now ∷ []) }
    ensures point { OnOk result (IsPoint (view_spec setting.now.spec.now) t.new setting.now.state.now setting.now.args.now setting.now.known.now locals.new.items writes.new.items) }
    ensures context { OnOk result (line_context (view_spec setting.now.spec.now) setting.now.args.now locals.new.items ≡
        with_locals (line_context (view_spec setting.now.spec.now) setting.now.args.now locals.old.items) (lets_of (view_line line.now ∷ []))) }
    ensures reads { OnOk result ((v : Reading) (env : Env) →
        LineReads (view_spec setting.now.spec.now) t.old setting.now.state.now setting.now.args.now setting.now.known.now locals.old.items writes.old.items v env →
        LineReads (view_spec setting.now.spec.now) t.new setting.now.state.now setting.now.args.now setting.now.known.now locals.new.items writes.new.items v
        (after_lines (line_context (view_spec setting.now.spec.now) setting.now.args.now locals.old.items) env (view_line line.now ∷ []))) }
    ensures keeps { Keeps t.old t.new }
{
    match line {
        Line::Let(e) => {
            put_let(alloc, t, setting, locals, writes.as_slice(), e)?;
            Ok(())
        }
        Line::Write(write) => {
            put_write(alloc, t, setting, locals.as_slice(), writes, write)?;
            Ok(())
        }
    }
}

/// Goes through lines in their order.
pub(crate) fn go_through<R: InitialReads>(
    alloc: Global,
    t: &mut Terms,
    setting: &Setting<R>,
    locals: &mut Vec<NamedTerm>,
    writes: &mut Vec<EntryWrite>,
    lines: &[Line],
) -> Result<(), AllocError>
    requires spec { IsWellSorted (view_spec setting.now.spec.now) }
    requires point { IsPoint (view_spec setting.now.spec.now) t.old setting.now.state.now setting.now.args.now setting.now.known.now locals.old.items writes.old.items }
    requires sorted { AreLines (line_context (view_spec setting.now.spec.now) setting.now.args.now locals.old.items) (map view_line lines.now) }
    ensures point { OnOk result (IsPoint (view_spec setting.now.spec.now) t.new setting.now.state.now setting.now.args.now setting.now.known.now locals.new.items writes.new.items) }
    ensures context { OnOk result (line_context (view_spec setting.now.spec.now) setting.now.args.now locals.new.items ≡
        with_locals (line_context (view_spec setting.now.spec.now) setting.now.args.now locals.old.items) (lets_of (map view_line lines.now))) }
    ensures reads { OnOk result ((v : Reading) (env : Env) →
        LineReads (view_spec setting.now.spec.now) t.old setting.now.state.now setting.now.args.now setting.now.known.now locals.old.items writes.old.items v env →
        LineReads (view_spec setting.now.spec.now) t.new setting.now.state.now setting.now.args.now setting.now.known.now locals.new.items writes.new.items v
        (after_lines (line_context (view_spec setting.now.spec.now) setting.now.args.now locals.old.items) env (map view_line lines.now))) }
    ensures keeps { Keeps t.old t.new }
{
    'each: for line in lines {
        go_on(alloc, t, setting, locals, writes, line)?;
    }
    Ok(())
}
