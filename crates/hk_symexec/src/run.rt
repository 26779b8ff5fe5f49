//! Calls, blocks and functions, in the order of a walk.

ghost use Rattle.std.specs.Prelude.{◌≡◌, ℕ, ◌<◌, ◌-◌, true, false, Bool, Some, None, List, [], length, drop, slice_get, slice_index_or, is_none, IfOk, IfSome};
ghost use Rattle.hk_term.specs.Meaning.{Reading};
ghost use Rattle.ir_machine.specs.Values.{Registers, arguments_pass};
ghost use Rattle.ir_machine.specs.Step as machine;
ghost use Rattle.ir_walk.specs.Walk.{Memory, Behind, Goes, on_call, on_passed, walk_act, walk_steps, visit, visit_all, walk};
ghost use Rattle.hk_symvalue.specs.Growth.{Extends};
ghost use Rattle.hk_symmem.specs.Guarded.{memory_at, IsOver};
ghost use Rattle.hk_symaccess.specs.Accesses.{FitsMemory};
ghost use Rattle.hk_symexec.specs.Seen.{IsExec, seen};
ghost use Rattle.hk_symexec.specs.Tracks.{Ending, Off, On, along, Tracks, Rests, order_in};

use crate::blocks::{behind_phis, enter, is_never};
use crate::calls::{begin, first_file, resume};
use crate::exec::Exec;
use crate::instructions::plain;
use crate::jumps::steps_of;
use crate::setting::Setting;
use crate::settle::settle_passes;
use hk_seq::Seq;
use hk_symmem::{InitialReads, SymMemory};
use hk_symstep::passed;
use hk_term::Terms;
use ir_code::{Act, Code, Input, Program, Step};
use std::alloc::{AllocError, Global};

/// An instruction that calls a function, with the function's place and what is passed to it.
#[derive(Clone, Copy)]
struct CallSite<'a> {
    step: &'a Step,
    called: u32,
    arguments: &'a [Input],
}

/// The code of a function.
fn code_of<'a>(program: &'a Program, function: u32) -> Option<&'a Code>
    ensures some { IfSome result (λ c. slice_get program.now.functions function ≡ Some c.now) }
    ensures none { is_none result ≡ true → slice_get program.now.functions function ≡ None }
{
    program.functions.as_slice().get(function as usize)
}

/// The order of the blocks of a function.
fn order_of(orders: &Seq<Seq<u32>>, function: u32) -> &[u32]
    ensures { result.now ≡ order_in orders.now function }
{
    match orders.as_slice().get(function as usize) {
        Some(order) => order.as_slice(),
        None => &[],
    }
}

/// A call of a function by its code.
#[cycle(running)]
#[tactic(auto, using(crate::proofs::Kept::over_kept, crate::proofs::Kept::exec_kept, crate::proofs::Running::fits_kept))]
fn call_code<R: InitialReads>(
    alloc: Global,
    t: &mut Terms,
    setting: &Setting,
    memory: &mut SymMemory<R>,
    x: Exec,
    site: &CallSite,
    code: &Code,
) -> Result<Exec, AllocError>
    requires there { slice_get setting.now.program.now.functions site.now.called ≡ Some code.now }
    requires fits { FitsMemory setting.now.layout.now.objects setting.now.program.now.objects memory.old }
    requires over { IsOver t.old memory.old }
    requires state { IsExec t.old x }
    ensures frame { Extends t.old t.new }
    ensures origins { memory.new.origins ≡ memory.old.origins }
    ensures within { IfOk result (λ y. IsExec t.new y) }
    ensures over { IfOk result (λ y. IsOver t.new memory.new) }
    ensures tracks { IfOk result (λ y. (v : Reading) (go : Behind) (e : Ending) →
        Tracks setting.now.program.now setting.now.function (seen t.old v x) (memory_at t.old memory.old v) (λ rs m. on_passed (walk setting.now.program.now (order_in setting.now.orders.now) setting.now.depth) site.now.step.now site.now.called rs m go (machine.first_registers code.now (machine.argument_registers m rs site.now.arguments.now)) (arguments_pass m rs site.now.arguments.now)) e →
        Tracks setting.now.program.now setting.now.function (seen t.new v y) (memory_at t.new memory.new v) go e) }
{
    let poisoned = passed(t, setting.layout, memory, &x.file, site.arguments)?;
    let known = settle_passes(t, x, poisoned)?;
    let file = first_file(
        alloc,
        t,
        setting.layout,
        memory,
        &known.file,
        site.arguments,
        code,
    )?;
    let begun = begin(alloc, t, &known, file, code.blocks.len())?;
    let inner = Setting {
        function: site.called,
        ..*setting
    };
    let after = run_function(alloc, t, &inner, memory, begun)?;
    let made = resume(t, known, after, site.step.result)?;
    Ok(made)
}

/// A call.
#[cycle(running)]
#[tactic(auto, using(crate::proofs::Kept::over_kept, crate::proofs::Kept::exec_kept, crate::proofs::Running::fits_kept))]
fn call<R: InitialReads>(
    alloc: Global,
    t: &mut Terms,
    setting: &Setting,
    memory: &mut SymMemory<R>,
    x: Exec,
    site: &CallSite,
) -> Result<Exec, AllocError>
    requires fits { FitsMemory setting.now.layout.now.objects setting.now.program.now.objects memory.old }
    requires over { IsOver t.old memory.old }
    requires state { IsExec t.old x }
    ensures frame { Extends t.old t.new }
    ensures origins { memory.new.origins ≡ memory.old.origins }
    ensures within { IfOk result (λ y. IsExec t.new y) }
    ensures over { IfOk result (λ y. IsOver t.new memory.new) }
    ensures tracks { IfOk result (λ y. (v : Reading) (go : Behind) (e : Ending) →
        Tracks setting.now.program.now setting.now.function (seen t.old v x) (memory_at t.old memory.old v) (λ rs m. on_call (walk setting.now.program.now (order_in setting.now.orders.now) setting.now.depth) site.now.step.now site.now.called site.now.arguments.now rs m go (slice_get setting.now.program.now.functions site.now.called)) e →
        Tracks setting.now.program.now setting.now.function (seen t.new v y) (memory_at t.new memory.new v) go e) }
{
    match code_of(setting.program, site.called) {
        None => Ok(x),
        Some(code) => {
            if site.arguments.len() == code.parameters as usize {
                let made = call_code(alloc, t, setting, memory, x, site, code)?;
                Ok(made)
            } else {
                Ok(x)
            }
        }
    }
}

/// An instruction.
#[cycle(running)]
#[tactic(auto, using(crate::proofs::Kept::over_kept, crate::proofs::Kept::exec_kept, crate::proofs::Running::fits_kept))]
fn act<R: InitialReads>(
    alloc: Global,
    t: &mut Terms,
    setting: &Setting,
    memory: &mut SymMemory<R>,
    x: Exec,
    block: u32,
    step: &Step,
) -> Result<Exec, AllocError>
    requires fits { FitsMemory setting.now.layout.now.objects setting.now.program.now.objects memory.old }
    requires over { IsOver t.old memory.old }
    requires state { IsExec t.old x }
    ensures frame { Extends t.old t.new }
    ensures origins { memory.new.origins ≡ memory.old.origins }
    ensures within { IfOk result (λ y. IsExec t.new y) }
    ensures over { IfOk result (λ y. IsOver t.new memory.new) }
    ensures tracks { IfOk result (λ y. (v : Reading) (go : Behind) (e : Ending) →
        Tracks setting.now.program.now setting.now.function (seen t.old v x) (memory_at t.old memory.old v) (λ rs m. walk_act (walk setting.now.program.now (order_in setting.now.orders.now) setting.now.depth) setting.now.program.now setting.now.function block step.now rs m go step.now.act) e →
        Tracks setting.now.program.now setting.now.function (seen t.new v y) (memory_at t.new memory.new v) go e) }
{
    match &step.act {
        Act::Call {
            function: called,
            arguments,
        } => {
            let site = CallSite {
                step,
                called: *called,
                arguments: arguments.as_slice(),
            };
            let made = call(alloc, t, setting, memory, x, &site)?;
            Ok(made)
        }
        _ => {
            let made = plain(alloc, t, setting, memory, x, block, step)?;
            Ok(made)
        }
    }
}

/// The instructions of a block, one after the other.
#[cycle(running)]
#[tactic(auto, using(crate::proofs::Kept::over_kept, crate::proofs::Kept::exec_kept, crate::proofs::Running::fits_kept))]
fn run_steps<R: InitialReads>(
    alloc: Global,
    t: &mut Terms,
    setting: &Setting,
    memory: &mut SymMemory<R>,
    x: Exec,
    block: u32,
    steps: &[Step],
) -> Result<Exec, AllocError>
    requires fits { FitsMemory setting.now.layout.now.objects setting.now.program.now.objects memory.old }
    requires over { IsOver t.old memory.old }
    requires state { IsExec t.old x }
    ensures frame { Extends t.old t.new }
    ensures origins { memory.new.origins ≡ memory.old.origins }
    ensures within { IfOk result (λ y. IsExec t.new y) }
    ensures over { IfOk result (λ y. IsOver t.new memory.new) }
    ensures tracks { IfOk result (λ y. (v : Reading) (e : Ending) →
        Tracks setting.now.program.now setting.now.function (seen t.old v x) (memory_at t.old memory.old v) (walk_steps (walk setting.now.program.now (order_in setting.now.orders.now) setting.now.depth) setting.now.program.now setting.now.function block steps.now) e →
        Rests setting.now.program.now setting.now.function (seen t.new v y) (memory_at t.new memory.new v) e) }
{
    let mut state = x;
    for step in steps {
        state = act(alloc, t, setting, memory, state, block, step)?;
    }
    Ok(state)
}

// A block that the run goes to on some path.
#[cycle(running)]
#[tactic(auto, using(crate::proofs::Kept::over_kept, crate::proofs::Kept::exec_kept, crate::proofs::Running::fits_kept))]
fn visit_inside<R: InitialReads>(
    alloc: Global,
    t: &mut Terms,
    setting: &Setting,
    memory: &mut SymMemory<R>,
    x: Exec,
    block: u32,
) -> Result<Exec, AllocError>
    requires inside { block < length x.entries }
    requires fits { FitsMemory setting.now.layout.now.objects setting.now.program.now.objects memory.old }
    requires over { IsOver t.old memory.old }
    requires state { IsExec t.old x }
    ensures frame { Extends t.old t.new }
    ensures origins { memory.new.origins ≡ memory.old.origins }
    ensures within { IfOk result (λ y. IsExec t.new y) }
    ensures over { IfOk result (λ y. IsOver t.new memory.new) }
    ensures rests { IfOk result (λ y. (v : Reading) (e : Ending) →
        Rests setting.now.program.now setting.now.function (seen t.old v x) (memory_at t.old memory.old v) (e) → Rests setting.now.program.now setting.now.function (seen t.new v y) (memory_at t.new memory.new v) (along (visit (walk setting.now.program.now (order_in setting.now.orders.now) setting.now.depth) setting.now.program.now setting.now.function block) e)) }
{
    let begun = enter(t, x, block)?;
    let steps = behind_phis(steps_of(setting.program, setting.function, block));
    let made = run_steps(alloc, t, setting, memory, begun, block, steps)?;
    Ok(made)
}

/// A block. Where the run goes to it on no path, it makes no terms.
#[cycle(running)]
#[tactic(auto, using(crate::proofs::Kept::over_kept, crate::proofs::Kept::exec_kept, crate::proofs::Running::fits_kept))]
fn visit<R: InitialReads>(
    alloc: Global,
    t: &mut Terms,
    setting: &Setting,
    memory: &mut SymMemory<R>,
    x: Exec,
    block: u32,
) -> Result<Exec, AllocError>
    requires fits { FitsMemory setting.now.layout.now.objects setting.now.program.now.objects memory.old }
    requires over { IsOver t.old memory.old }
    requires state { IsExec t.old x }
    ensures frame { Extends t.old t.new }
    ensures origins { memory.new.origins ≡ memory.old.origins }
    ensures within { IfOk result (λ y. IsExec t.new y) }
    ensures over { IfOk result (λ y. IsOver t.new memory.new) }
    ensures rests { IfOk result (λ y. (v : Reading) (e : Ending) →
        Rests setting.now.program.now setting.now.function (seen t.old v x) (memory_at t.old memory.old v) (e) → Rests setting.now.program.now setting.now.function (seen t.new v y) (memory_at t.new memory.new v) (along (visit (walk setting.now.program.now (order_in setting.now.orders.now) setting.now.depth) setting.now.program.now setting.now.function block) e)) }
{
    if (block as usize) < x.entries.len() {
        if is_never(t, x.entries.at(block)) {
            Ok(x)
        } else {
            let made = visit_inside(alloc, t, setting, memory, x, block)?;
            Ok(made)
        }
    } else {
        Ok(x)
    }
}

/// The blocks of a function in an order.
#[cycle(running)]
#[tactic(auto, using(crate::proofs::Kept::over_kept, crate::proofs::Kept::exec_kept, crate::proofs::Running::fits_kept))]
fn visit_all<R: InitialReads>(
    alloc: Global,
    t: &mut Terms,
    setting: &Setting,
    memory: &mut SymMemory<R>,
    x: Exec,
    order: &[u32],
) -> Result<Exec, AllocError>
    requires fits { FitsMemory setting.now.layout.now.objects setting.now.program.now.objects memory.old }
    requires over { IsOver t.old memory.old }
    requires state { IsExec t.old x }
    ensures frame { Extends t.old t.new }
    ensures origins { memory.new.origins ≡ memory.old.origins }
    ensures within { IfOk result (λ y. IsExec t.new y) }
    ensures over { IfOk result (λ y. IsOver t.new memory.new) }
    ensures rests { IfOk result (λ y. (v : Reading) (e : Ending) →
        Rests setting.now.program.now setting.now.function (seen t.old v x) (memory_at t.old memory.old v) (e) → Rests setting.now.program.now setting.now.function (seen t.new v y) (memory_at t.new memory.new v) (along (visit_all (walk setting.now.program.now (order_in setting.now.orders.now) setting.now.depth) setting.now.program.now setting.now.function order.now) e)) }
{
    let mut state = x;
    for block in order {
        state = visit(alloc, t, setting, memory, state, *block)?;
    }
    Ok(state)
}

/// A function, its blocks in its order.
#[cycle(running)]
#[tactic(auto, using(crate::proofs::Kept::over_kept, crate::proofs::Kept::exec_kept, crate::proofs::Running::fits_kept))]
fn run_blocks<R: InitialReads>(
    alloc: Global,
    t: &mut Terms,
    setting: &Setting,
    memory: &mut SymMemory<R>,
    x: Exec,
) -> Result<Exec, AllocError>
    requires fits { FitsMemory setting.now.layout.now.objects setting.now.program.now.objects memory.old }
    requires over { IsOver t.old memory.old }
    requires state { IsExec t.old x }
    ensures frame { Extends t.old t.new }
    ensures origins { memory.new.origins ≡ memory.old.origins }
    ensures within { IfOk result (λ y. IsExec t.new y) }
    ensures over { IfOk result (λ y. IsOver t.new memory.new) }
    ensures rests { IfOk result (λ y. (v : Reading) (e : Ending) →
        Rests setting.now.program.now setting.now.function (seen t.old v x) (memory_at t.old memory.old v) (e) → Rests setting.now.program.now setting.now.function (seen t.new v y) (memory_at t.new memory.new v) (along (visit_all (walk setting.now.program.now (order_in setting.now.orders.now) setting.now.depth) setting.now.program.now setting.now.function (order_in setting.now.orders.now setting.now.function)) e)) }
{
    let order = order_of(setting.orders, setting.function);
    let made = visit_all(alloc, t, setting, memory, x, order)?;
    Ok(made)
}

/// A function, with calls less deep than its setting's depth. Where calls go deeper nothing is claimed.
#[cycle(running)]
#[tactic(auto, using(crate::proofs::Kept::over_kept, crate::proofs::Kept::exec_kept, crate::proofs::Running::fits_kept))]
pub(crate) fn run_function<R: InitialReads>(
    alloc: Global,
    t: &mut Terms,
    setting: &Setting,
    memory: &mut SymMemory<R>,
    x: Exec,
) -> Result<Exec, AllocError>
    requires fits { FitsMemory setting.now.layout.now.objects setting.now.program.now.objects memory.old }
    requires over { IsOver t.old memory.old }
    requires state { IsExec t.old x }
    ensures frame { Extends t.old t.new }
    ensures origins { memory.new.origins ≡ memory.old.origins }
    ensures within { IfOk result (λ y. IsExec t.new y) }
    ensures over { IfOk result (λ y. IsOver t.new memory.new) }
    ensures off { IfOk result (λ y. (v : Reading) (k : Bool) (m : Memory) →
        Rests setting.now.program.now setting.now.function (seen t.old v x) (memory_at t.old memory.old v) (Off k m) → Rests setting.now.program.now setting.now.function (seen t.new v y) (memory_at t.new memory.new v) (Off k m)) }
    ensures on { IfOk result (λ y. (v : Reading) (rs : Registers) (m : Memory) →
        Rests setting.now.program.now setting.now.function (seen t.old v x) (memory_at t.old memory.old v) (On (Goes 0 0 rs m)) → Rests setting.now.program.now setting.now.function (seen t.new v y) (memory_at t.new memory.new v) (On (walk setting.now.program.now (order_in setting.now.orders.now) setting.now.depth setting.now.function rs m))) }
{
    if setting.depth == 0 {
        Ok(x)
    } else {
        let inside = Setting {
            depth: setting.depth - 1,
            ..*setting
        };
        let made = run_blocks(alloc, t, &inside, memory, x)?;
        Ok(made)
    }
}
