//! The command `run KERNEL FUNCTION [ARG ..]`.

ghost use Rattle.std.specs.Result.{result_err};
ghost use Rattle.std.specs.Prelude.{◌≡◌, ◌<◌, ◌∷◌, ℕ, List, IfOk, IfErr, OnOk, OnErr, codes};
ghost use Rattle.hk_io.specs.Faults.{Rose};
ghost use Rattle.hk_io.specs.Shown.{shown_with, ShowsPrefix};
ghost use Rattle.ir_ast.specs.ProgramView.{view_module};
ghost use Rattle.hk_rows.specs.Rows.{memory_text};
ghost use Rattle.ir_kernel.specs.Passing.{Passes};
ghost use Rattle.ir_typed.specs.Spelled.{AreSpelled};
ghost use Rattle.hk_verify.specs.Inputs.{ShelfView, CountsLoads};
ghost use Rattle.hk_verify.specs.Answers.{SinkView, HidesNone};
ghost use Rattle.hk_verify.specs.Whole.{IsWhole};
ghost use Rattle.hk_verify.specs.Words.{IsRun, bytes_of};
ghost use Rattle.hk_verify.specs.Runs.{Calls, FaultOf, HasRunCause, IsRan, MeansRun, TellsEnd, end_status, end_text, returned_line, returned_text, stuck_code, stuck_line};

use crate::answer::{Answer, CallFault, CallReason, TopFault};
use crate::kernel::{KERNEL_LIMIT, read_whole};
use crate::load::{Wanted, load_first};
use crate::refusal::{FUNCTION_WORD, refuse, status};
use crate::words::numbers_of;
use hk_io::{Shelf, Sink, SinkFault};
use hk_rows::{Part, put_line, put_memory};
use hk_seq::Seq;
use hk_verdict::InitVerdict;
use ir_ast::Name;
use ir_kernel::{Kernel, Misfit, Passed, pass};
use ir_layout::KMemory;
use ir_spelled::{Ending, run_from_start, texts_are_spelled};
use ir_value::StuckReason;
use std::alloc::{AllocError, Global};

/// The word of the first argument, counted from 0.
const FIRST_ARGUMENT: u64 = 3;

/// A fault of a call.
fn at_word(word: u32, reason: CallReason) -> TopFault
    ensures { result ≡ TopFault.Call (record { word = word; reason = reason }) }
{
    TopFault::Call(CallFault { word, reason })
}

/// The fault of an argument at a place, counted from 0. Memory is also wanted where 32 bits have no number for its word.
fn at_argument(place: u64) -> TopFault
    ensures { FaultOf (Misfit.Argument place) result }
{
    if place <= u32::MAX as u64 - FIRST_ARGUMENT {
        at_word((FIRST_ARGUMENT + place) as u32, CallReason::A3)
    } else {
        TopFault::Memory
    }
}

/// Why the function is not run.
fn fault_of(why: Misfit) -> TopFault
    ensures { FaultOf why result }
{
    match why {
        Misfit::Unknown => at_word(FUNCTION_WORD, CallReason::A1),
        Misfit::Count => at_word(FUNCTION_WORD, CallReason::A2),
        Misfit::Argument(place) => at_argument(place),
        Misfit::Pointer => at_word(FUNCTION_WORD, CallReason::A3),
    }
}

/// What numbers can be passed to: the place of the function of a name.
fn passed(
    alloc: Global,
    kernel: &Kernel,
    function: &str,
    arguments: &[u64],
) -> Result<Passed, AllocError>
    ensures { IfOk result (Passes (view_module kernel.now) function.now arguments.now) }
{
    let name = Name::copy_of(alloc, function.as_bytes())?;
    pass(alloc, kernel, &name, arguments)
}

/// What the text of a kernel spells is spelled as the laws of runs ask.
fn hold_spelled(text: &[u8], kernel: &Kernel)
    requires { IsWhole text.now (view_module kernel.now) }
    ensures { AreSpelled (view_module kernel.now) }
{
    texts_are_spelled();
}

/// Runs the function of a name from the initial memory.
fn call(
    alloc: Global,
    kernel: &Kernel,
    function: &str,
    arguments: &[u64],
) -> Result<Ending, TopFault>
    requires { AreSpelled (view_module kernel.now) }
    ensures { Calls (view_module kernel.now) function.now arguments.now result }
{
    match passed(alloc, kernel, function, arguments) {
        Ok(Passed::To(place)) => match run_from_start(alloc, kernel, function, place, arguments) {
            Ok(end) => Ok(end),
            Err(_) => Err(TopFault::Memory),
        },
        Ok(Passed::Not(why)) => Err(fault_of(why)),
        Err(_) => Err(TopFault::Memory),
    }
}

/// A kernel, and the end of a run in it.
#[derive(Drop)]
struct Ran {
    kernel: Kernel,
    end: Ending,
}

/// Loads and reads the kernel, and runs the function of a name.
fn try_run<F: Shelf>(
    alloc: Global,
    shelf: &mut F,
    kernel: &str,
    function: &str,
    arguments: &[u64],
) -> Result<Ran, TopFault>
    ensures ran { IfOk result (λ ran. IsRan (F.held shelf.old) kernel.now function.now arguments.now (view_module ran.kernel) ran.end) }
    ensures fault { IfErr result (λ fault.
        let view : ShelfView = record { held = F.held shelf.old; before = F.faults shelf.old; after = F.faults shelf.new } in
        HasRunCause view kernel.now function.now arguments.now fault) }
    ensures counts { CountsLoads (result_err result) (F.faults shelf.old) (F.faults shelf.new) }
    ensures held { F.held shelf.new ≡ F.held shelf.old }
{
    let wanted = Wanted {
        name: kernel,
        limit: KERNEL_LIMIT,
    };
    let text = load_first(alloc, shelf, &wanted)?;
    let kernel = read_whole(alloc, &text)?;
    hold_spelled(&text, &kernel);
    let end = call(alloc, &kernel, function, arguments)?;
    Ok(Ran { kernel, end })
}

/// A reason why a run is stuck as it is printed.
fn stuck_reason(reason: StuckReason) -> &'static [u8]
    ensures { result.now ≡ stuck_code reason }
{
    match reason {
        StuckReason::U1 => b"U1",
        StuckReason::U2 => b"U2",
        StuckReason::U3 => b"U3",
        StuckReason::U4 => b"U4",
        StuckReason::U5 => b"U5",
        StuckReason::U6 => b"U6",
        StuckReason::U7 => b"U7",
        StuckReason::U8 => b"U8",
        StuckReason::U9 => b"U9",
        StuckReason::U10 => b"U10",
        StuckReason::U11 => b"U11",
        StuckReason::U12 => b"U12",
        StuckReason::U13 => b"U13",
        StuckReason::U14 => b"U14",
        StuckReason::U15 => b"U15",
        StuckReason::U16 => b"U16",
        StuckReason::U17 => b"U17",
    }
}

/// Puts the line of a run that is stuck.
fn put_stuck<O: Sink>(out: &mut O, reason: StuckReason, line_of: u32) -> Result<(), SinkFault>
    ensures whole { OnOk result (O.shown out.new ≡ shown_with (O.shown out.old) (stuck_line reason line_of)) }
    ensures cut { OnErr result (ShowsPrefix (O.shown out.old) (O.shown out.new) (stuck_line reason line_of)) }
    ensures failed { OnErr result (Rose (O.faults out.old) (O.faults out.new)) }
    ensures still { OnOk result (O.faults out.new ≡ O.faults out.old) }
{
    put_line(
        out,
        &[
            Part::Text(b"stuck "),
            Part::Text(stuck_reason(reason)),
            Part::Text(b" "),
            Part::Decimal(line_of as u64),
        ],
    )
}

/// Puts the line of a function that returned, with its number where it has one.
fn put_value<O: Sink>(out: &mut O, value: Option<u64>) -> Result<(), SinkFault>
    ensures whole { OnOk result (O.shown out.new ≡ shown_with (O.shown out.old) (returned_line value)) }
    ensures cut { OnErr result (ShowsPrefix (O.shown out.old) (O.shown out.new) (returned_line value)) }
    ensures failed { OnErr result (Rose (O.faults out.old) (O.faults out.new)) }
    ensures still { OnOk result (O.faults out.new ≡ O.faults out.old) }
{
    match value {
        None => put_line(out, &[Part::Text(b"returns")]),
        Some(number) => put_line(out, &[Part::Text(b"returns "), Part::Decimal(number)]),
    }
}

/// Puts the lines of a function that returned: what it returns, and the rows of the memory then.
fn put_returned<O: Sink>(
    out: &mut O,
    kernel: &Kernel,
    value: Option<u64>,
    memory: &KMemory,
) -> Result<(), SinkFault>
    ensures whole { OnOk result (O.shown out.new ≡ shown_with (O.shown out.old) (returned_text (view_module kernel.now) value memory.now)) }
    ensures cut { OnErr result (ShowsPrefix (O.shown out.old) (O.shown out.new) (returned_text (view_module kernel.now) value memory.now)) }
    ensures failed { OnErr result (Rose (O.faults out.old) (O.faults out.new)) }
    ensures still { OnOk result (O.faults out.new ≡ O.faults out.old) }
{
    put_value(out, value)?;
    put_state(out, kernel, memory)
}

/// Puts the rows of a memory of the kernel.
fn put_state<O: Sink>(out: &mut O, kernel: &Kernel, memory: &KMemory) -> Result<(), SinkFault>
    ensures whole { OnOk result (O.shown out.new ≡ shown_with (O.shown out.old) (memory_text (view_module kernel.now).globals memory.now)) }
    ensures cut { OnErr result (ShowsPrefix (O.shown out.old) (O.shown out.new) (memory_text (view_module kernel.now).globals memory.now)) }
    ensures failed { OnErr result (Rose (O.faults out.old) (O.faults out.new)) }
    ensures still { OnOk result (O.faults out.new ≡ O.faults out.old) }
{
    let module = kernel.checked().module();
    put_memory(out, &module.globals, memory)
}

/// Puts the lines of a run.
fn put_end<O: Sink>(out: &mut O, kernel: &Kernel, end: &Ending) -> Result<(), SinkFault>
    ensures whole { OnOk result (O.shown out.new ≡ shown_with (O.shown out.old) (end_text (view_module kernel.now) end.now)) }
    ensures cut { OnErr result (ShowsPrefix (O.shown out.old) (O.shown out.new) (end_text (view_module kernel.now) end.now)) }
    ensures failed { OnErr result (Rose (O.faults out.old) (O.faults out.new)) }
    ensures still { OnOk result (O.faults out.new ≡ O.faults out.old) }
{
    match end {
        Ending::Returned { value, memory } => put_returned(out, kernel, *value, memory),
        Ending::Stuck { reason, line } => put_stuck(out, *reason, *line),
    }
}

/// The status of a run.
fn status_of(end: &Ending) -> u8
    ensures { result ≡ end_status end.now }
{
    match end {
        Ending::Returned { .. } => 0,
        Ending::Stuck { .. } => 1,
    }
}

/// Puts the lines of a run and answers its status.
fn report<O: Sink>(alloc: Global, out: &mut O, kernel: &Kernel, end: &Ending) -> Answer
    ensures { let sink : SinkView = record { shown = O.shown out.old; shown' = O.shown out.new; faults = O.faults out.old; faults' = O.faults out.new } in
        TellsEnd sink (view_module kernel.now) end.now result }
{
    match put_end(out, kernel, end) {
        Ok(()) => Answer {
            status: status_of(end),
            init: InitVerdict::NotRun,
            verdicts: Seq::new(alloc),
            fault: None,
        },
        Err(_) => Answer {
            status: status(&TopFault::Write),
            init: InitVerdict::NotRun,
            verdicts: Seq::new(alloc),
            fault: Some(TopFault::Write),
        },
    }
}

/// Runs the function of a name with these numbers, and puts the end of the run.
fn run_with<'x, F: Shelf, O: Sink>(
    alloc: Global,
    words: &'x [String],
    kernel: &'x str,
    function: &'x str,
    arguments: &[u64],
    shelf: &mut F,
    out: &mut O,
) -> Answer
    ensures meaning { let view : ShelfView = record { held = F.held shelf.old; before = F.faults shelf.old; after = F.faults shelf.new } in
        let sink : SinkView = record { shown = O.shown out.old; shown' = O.shown out.new; faults = O.faults out.old; faults' = O.faults out.new } in
        MeansRun view sink (bytes_of words.now) kernel.now function.now arguments.now result }
    ensures unhidden { let view : ShelfView = record { held = F.held shelf.old; before = F.faults shelf.old; after = F.faults shelf.new } in
        let sink : SinkView = record { shown = O.shown out.old; shown' = O.shown out.new; faults = O.faults out.old; faults' = O.faults out.new } in
        HidesNone view sink result }
    ensures held { F.held shelf.new ≡ F.held shelf.old }
{
    match try_run(alloc, shelf, kernel, function, arguments) {
        Ok(ran) => report(alloc, out, &ran.kernel, &ran.end),
        Err(fault) => refuse(alloc, out, words, fault),
    }
}

/// Does `run KERNEL FUNCTION [ARG ..]`: the kernel is loaded, read, laid out and checked, the arguments are tried, and the function is
/// run from the initial memory.
pub fn run<'x, F: Shelf, O: Sink>(
    alloc: Global,
    words: &'x [String],
    kernel: &'x str,
    function: &'x str,
    arguments: &'x [String],
    shelf: &mut F,
    out: &mut O,
) -> Answer
    requires { bytes_of words.now ≡ codes "run" ∷ kernel.now ∷ function.now ∷ bytes_of arguments.now }
    ensures meaning { (name called : List ℕ) (numbers : List ℕ) → IsRun (bytes_of words.now) name called numbers →
        let view : ShelfView = record { held = F.held shelf.old; before = F.faults shelf.old; after = F.faults shelf.new } in
        let sink : SinkView = record { shown = O.shown out.old; shown' = O.shown out.new; faults = O.faults out.old; faults' = O.faults out.new } in
        MeansRun view sink (bytes_of words.now) name called numbers result }
    ensures unhidden { let view : ShelfView = record { held = F.held shelf.old; before = F.faults shelf.old; after = F.faults shelf.new } in
        let sink : SinkView = record { shown = O.shown out.old; shown' = O.shown out.new; faults = O.faults out.old; faults' = O.faults out.new } in
        HidesNone view sink result }
    ensures held { F.held shelf.new ≡ F.held shelf.old }
{
    match numbers_of(alloc, arguments) {
        Ok(numbers) => run_with(alloc, words, kernel, function, &numbers, shelf, out),
        Err(_) => refuse(alloc, out, words, TopFault::Memory),
    }
}
