//! Handlers that are made ready once for all their questions.

ghost use Rattle.std.specs.Prelude.{◌≡◌, ◌<◌, [], List, Some, slice_get, nat_eq, length, IfOk};
ghost use Rattle.hk_term.specs.Meaning.{Reading, reading_of, value};
ghost use Rattle.ir_ast.specs.ProgramView.{view_module};
ghost use Rattle.ir_layout.specs.declared.object.Object.{Object};
ghost use Rattle.ir_layout.specs.Layouts.{LayoutView, IsLayoutOf};
ghost use Rattle.hk_symmem.specs.Origins.{Origin, AreOriginsOf};
ghost use Rattle.spec_tree.specs.Plain as plain;
ghost use Rattle.spec_tree.specs.Sorted.{IsWellSorted};
ghost use Rattle.spec_tree.specs.View.{view_spec};
ghost use Rattle.spec_kernel.specs.Fit.{FitsModule};
ghost use Rattle.hk_case.specs.declared.Case.{Case};
ghost use Rattle.hk_case.specs.declared.Obligation.{Obligation};
ghost use Rattle.hk_case.specs.Obligations.{IsCase, IsObligation};
ghost use Rattle.hk_oblig.specs.Cases.{case_at};
ghost use Rattle.hk_oblig.specs.Asking.{Asks, IsPrepared, is_property};

use crate::asked::ask;
use crate::cases::case_of;
use crate::listed::Listed;
use crate::run::run_listed;
use crate::step::step_listed;
use hk_case::{Case, Obligation};
use hk_cells::CellReads;
use hk_inst::Question;
use hk_symmem::InitialReads;
use hk_term::Valuation;
use ir_kernel::Kernel;
use ir_typed::is_runnable;
use spec_tree::Spec;
use std::alloc::{AllocError, Global};
use std::marker::Model;

/// A handler that was executed once, with the terms of all that its obligations speak of. Contracts see where the first bytes of the
/// kernel's objects come from, and the parts of goals in their lists.
#[derive(Drop)]
pub struct Prepared {
    reads: CellReads,
    run: Listed,
    step: Listed,
}

impl Model for Prepared {
    ghost use Rattle.hk_oblig.specs.Asking.{PreparedView};

    ghost Value = { PreparedView };

    ghost view = { λ p. record { origins = p.reads; run = p.run; step = p.step } };
}

// Whether an obligation is a property.
fn is_property(o: Obligation) -> bool
    ensures { result ≡ is_property o }
{
    match o {
        Obligation::Property(_) => true,
        _ => false,
    }
}

// The reads of the kernel's objects by cells.
fn reads_of(alloc: Global, kernel: &Kernel) -> Result<CellReads, AllocError>
    ensures { (l : LayoutView) → IsLayoutOf (view_module kernel.now) l → IfOk result (λ r. AreOriginsOf l.objects r) }
{
    let checked = kernel.checked();
    let reads = CellReads::new(alloc, checked.module(), kernel.layout())?;
    Ok(reads)
}

/// Executes the handler of the transition with this place, and makes the terms of the specification over the memory before and behind
/// the run and over any abstract state: all that its questions are made of.
///
/// The conditions are a well-sorted specification that fits the kernel, and a transition that exists. Where the transition has more than
/// 65,536 parameters, or there are 2^32 - 1 invariants, fields or properties or more, it is want of memory.
pub fn prepare(alloc: Global, kernel: &Kernel, spec: &Spec, h: u32) -> Result<Prepared, AllocError>
    requires spec { IsWellSorted (view_spec spec.now) }
    requires fits { FitsModule (view_module kernel.now) (view_spec spec.now) }
    requires there { h < length spec.now.transitions }
    ensures origins { (l : LayoutView) → IsLayoutOf (view_module kernel.now) l → IfOk result (λ p. AreOriginsOf l.objects p.origins) }
    ensures prepared { (t : plain.Transition) → slice_get (view_spec spec.now).transitions h ≡ Some t →
        IfOk result (λ p. IsPrepared (view_module kernel.now) (view_spec spec.now) t p) }
{
    if !is_runnable(kernel) {
        return Err(AllocError);
    }
    let reads = reads_of(alloc, kernel)?;
    let kept = reads.copy(alloc)?;
    let run = run_listed(alloc, kernel, spec, h, reads)?;
    let step = step_listed(alloc, spec, h)?;
    Ok(Prepared {
        reads: kept,
        run,
        step,
    })
}

impl Prepared {
    /// The question of an obligation: its goal is true under a reading exactly where the case of the reading violates the obligation. It
    /// has no instance, and a list with the terms that its goal reaches and no others.
    ///
    /// The conditions are the kernel, the specification and the transition that were prepared, and an obligation of the handler. On
    /// every answer the handler is as ready as before.
    pub fn question(
        &mut self,
        alloc: Global,
        kernel: &Kernel,
        spec: &Spec,
        h: u32,
        o: Obligation,
    ) -> Result<Question, AllocError>
        requires there { h < length spec.now.transitions }
        requires prepared { (t : plain.Transition) → slice_get (view_spec spec.now).transitions h ≡ Some t →
            IsPrepared (view_module kernel.now) (view_spec spec.now) t self.old }
        requires owed { (t : plain.Transition) → slice_get (view_spec spec.now).transitions h ≡ Some t → IsObligation (view_spec spec.now) t o }
        ensures asks { (t : plain.Transition) → slice_get (view_spec spec.now).transitions h ≡ Some t →
            IfOk result (λ q. Asks (view_module kernel.now) self.old.origins (view_spec spec.now) t o (λ v. nat_eq (value q.nodes q.goal v) 1)) }
        ensures instances { IfOk result (λ q. q.instances ≡ []) }
        ensures prepared { (t : plain.Transition) → slice_get (view_spec spec.now).transitions h ≡ Some t →
            IsPrepared (view_module kernel.now) (view_spec spec.now) t self.new }
        ensures origins { self.new.origins ≡ self.old.origins }
    {
        if is_property(o) {
            let question = ask(&mut self.step, alloc, o)?;
            Ok(question)
        } else {
            let question = ask(&mut self.run, alloc, o)?;
            Ok(question)
        }
    }

    /// The case that a valuation gives for an obligation of the transition with this place, as `case_of` gives it over the kernel's cells.
    ///
    /// The conditions are a well-sorted specification, a transition that exists, and the kernel that was prepared.
    pub fn case_of(
        &self,
        alloc: Global,
        kernel: &Kernel,
        spec: &Spec,
        h: u32,
        o: Obligation,
        v: &Valuation,
    ) -> Result<Case, AllocError>
        requires spec { IsWellSorted (view_spec spec.now) }
        requires there { h < length spec.now.transitions }
        requires origins { (l : LayoutView) → IsLayoutOf (view_module kernel.now) l → AreOriginsOf l.objects self.now.origins }
        ensures case { (t : plain.Transition) → slice_get (view_spec spec.now).transitions h ≡ Some t →
            IfOk result (λ c. c ≡ case_at self.now.origins (view_spec spec.now) t o (reading_of v.now)) }
        ensures shape { (l : LayoutView) (t : plain.Transition) → IsLayoutOf (view_module kernel.now) l → slice_get (view_spec spec.now).transitions h ≡ Some t →
            IfOk result (λ c. IsCase l.objects (view_spec spec.now) t o c) }
    {
        let case = case_of(alloc, kernel, spec, h, o, &self.reads, v)?;
        Ok(case)
    }
}

/// The question of one obligation of a handler alone: the handler is prepared for it. Some reads of the kernel's objects give its cases.
///
/// The conditions are those of `prepare`, and an obligation of the handler.
pub fn question(
    alloc: Global,
    kernel: &Kernel,
    spec: &Spec,
    h: u32,
    o: Obligation,
) -> Result<Question, AllocError>
    requires spec { IsWellSorted (view_spec spec.now) }
    requires fits { FitsModule (view_module kernel.now) (view_spec spec.now) }
    requires there { h < length spec.now.transitions }
    requires owed { (t : plain.Transition) → slice_get (view_spec spec.now).transitions h ≡ Some t → IsObligation (view_spec spec.now) t o }
    ensures asks { (l : LayoutView) (t : plain.Transition) → IsLayoutOf (view_module kernel.now) l → slice_get (view_spec spec.now).transitions h ≡ Some t →
        IfOk result (λ q. (origins : List Origin) × AreOriginsOf l.objects origins ×
        Asks (view_module kernel.now) origins (view_spec spec.now) t o (λ v. nat_eq (value q.nodes q.goal v) 1)) }
    ensures instances { IfOk result (λ q. q.instances ≡ []) }
{
    let mut prepared = prepare(alloc, kernel, spec, h)?;
    let question = prepared.question(alloc, kernel, spec, h, o)?;
    Ok(question)
}

/// Every case of an obligation's kind and shape is that of some reading. The call does nothing: its contract is the law.
pub fn cases_are_of_readings()
    ensures any { (objects : List Object) (origins : List Origin) (s : plain.Spec) (t : plain.Transition) (o : Obligation) (c : Case) →
        AreOriginsOf objects origins → IsCase objects s t o c → (v : Reading) × (case_at origins s t o v ≡ c) }
{}
