//! The lines of a report on a sink. They take no memory, and after a failed put nothing more is put.
ghost use Rattle.std.specs.Prelude.{◌≡◌, ◌≤◌, ◌<◌, ◌^◌, ◌++◌, [], map, length, OnOk, OnErr, codes, slice_get};
ghost use Rattle.hk_io.specs.Faults.{Rose};
ghost use Rattle.hk_io.specs.Shown.{shown_with, ShowsPrefix};
ghost use Rattle.ir_ast.specs.ProgramView.{view_module};
ghost use Rattle.spec_tree.specs.Sorted.{IsWellSorted, field_sorts};
ghost use Rattle.spec_tree.specs.Shapes.{IsState};
ghost use Rattle.spec_tree.specs.View.{view_field, view_named, view_spec, view_transition};
ghost use Rattle.hk_rows.specs.Rows.{memory_text};
ghost use Rattle.hk_verdict.specs.Entries.{entries_text};
ghost use Rattle.hk_verdict.specs.Report.{init_text, arg_text, args_text, case_text, two_texts, named_text, field_name, named_line, obligation_line, rejection_line, unknown_line, verdict_text, IsShown, IsShownVerdict};

use crate::entries::put_entries;
use crate::verdict::{InitVerdict, Verdict};
use hk_case::{Case, Obligation};
use hk_io::{Sink, SinkFault};
use hk_rows::{Part, put_line, put_memory};
use ir_kernel::Kernel;
use ir_layout::KMemory;
use spec_tree::{Named, Spec, Transition};
use spec_value::AbstractState;

/// The name of a function among these; nothing where there is none at the place.
fn name_in(named: &[Named], place: u32) -> &[u8]
    ensures { result.now ≡ named_text (slice_get (map view_named named.now) place) }
{
    match named.get(place as usize) {
        Some(named) => named.name.as_bytes(),
        None => &[],
    }
}

/// The name of a field; nothing for a field that is not there.
fn field_in(spec: &Spec, place: u32) -> &[u8]
    ensures { result.now ≡ field_name (slice_get (map view_field spec.now.fields) place) }
{
    match spec.fields.as_slice().get(place as usize) {
        Some(field) => field.name.as_bytes(),
        None => &[],
    }
}

/// Puts a line of two texts.
fn put_two<'x, O: Sink>(out: &mut O, first: &'x [u8], second: &'x [u8]) -> Result<(), SinkFault>
    ensures whole { OnOk result (O.shown out.new ≡ shown_with (O.shown out.old) (two_texts first.now second.now)) }
    ensures cut { OnErr result (ShowsPrefix (O.shown out.old) (O.shown out.new) (two_texts first.now second.now)) }
    ensures failed { OnErr result (Rose (O.faults out.old) (O.faults out.new)) }
    ensures still { OnOk result (O.faults out.new ≡ O.faults out.old) }
    ensures later { O.faults out.old ≤ O.faults out.new }
    ensures fits { O.faults out.new < 2 ^ 64 }
{
    put_line(out, &[Part::Text(first), Part::Text(second)])
}

/// Puts a line of a text and the name of a function.
fn put_fails<'x, O: Sink>(
    out: &mut O,
    text: &'x [u8],
    named: &'x [Named],
    place: u32,
) -> Result<(), SinkFault>
    ensures whole { OnOk result (O.shown out.new ≡ shown_with (O.shown out.old) (two_texts text.now (named_text (slice_get (map view_named named.now) place)))) }
    ensures cut { OnErr result (ShowsPrefix (O.shown out.old) (O.shown out.new) (two_texts text.now (named_text (slice_get (map view_named named.now) place)))) }
    ensures failed { OnErr result (Rose (O.faults out.old) (O.faults out.new)) }
    ensures still { OnOk result (O.faults out.new ≡ O.faults out.old) }
    ensures later { O.faults out.old ≤ O.faults out.new }
    ensures fits { O.faults out.new < 2 ^ 64 }
{
    let name = name_in(named, place);
    put_two(out, text, name)
}

/// Puts the line of an opening that fails by an invariant.
fn put_init_invariant<O: Sink>(out: &mut O, spec: &Spec, place: u32) -> Result<(), SinkFault>
    ensures whole { OnOk result (O.shown out.new ≡ shown_with (O.shown out.old) (two_texts (codes "init fails invariant ") (named_text (slice_get (map view_named spec.now.invariants) place)))) }
    ensures cut { OnErr result (ShowsPrefix (O.shown out.old) (O.shown out.new) (two_texts (codes "init fails invariant ") (named_text (slice_get (map view_named spec.now.invariants) place)))) }
    ensures failed { OnErr result (Rose (O.faults out.old) (O.faults out.new)) }
    ensures still { OnOk result (O.faults out.new ≡ O.faults out.old) }
    ensures later { O.faults out.old ≤ O.faults out.new }
    ensures fits { O.faults out.new < 2 ^ 64 }
{
    put_fails(
        out,
        b"init fails invariant ",
        spec.invariants.as_slice(),
        place,
    )
}

/// Puts the line of an opening that fails by a property.
fn put_init_property<O: Sink>(out: &mut O, spec: &Spec, place: u32) -> Result<(), SinkFault>
    ensures whole { OnOk result (O.shown out.new ≡ shown_with (O.shown out.old) (two_texts (codes "init fails property ") (named_text (slice_get (map view_named spec.now.properties) place)))) }
    ensures cut { OnErr result (ShowsPrefix (O.shown out.old) (O.shown out.new) (two_texts (codes "init fails property ") (named_text (slice_get (map view_named spec.now.properties) place)))) }
    ensures failed { OnErr result (Rose (O.faults out.old) (O.faults out.new)) }
    ensures still { OnOk result (O.faults out.new ≡ O.faults out.old) }
    ensures later { O.faults out.old ≤ O.faults out.new }
    ensures fits { O.faults out.new < 2 ^ 64 }
{
    put_fails(
        out,
        b"init fails property ",
        spec.properties.as_slice(),
        place,
    )
}

/// Puts the line of the opening: none where the initial memory was not tested. It takes no memory.
pub fn put_init<O: Sink>(out: &mut O, spec: &Spec, init: InitVerdict) -> Result<(), SinkFault>
    ensures whole { OnOk result (O.shown out.new ≡ shown_with (O.shown out.old) (init_text (view_spec spec.now) init)) }
    ensures cut { OnErr result (ShowsPrefix (O.shown out.old) (O.shown out.new) (init_text (view_spec spec.now) init)) }
    ensures failed { OnErr result (Rose (O.faults out.old) (O.faults out.new)) }
    ensures still { OnOk result (O.faults out.new ≡ O.faults out.old) }
    ensures later { O.faults out.old ≤ O.faults out.new }
    ensures fits { O.faults out.old < 2 ^ 64 → O.faults out.new < 2 ^ 64 }
{
    match init {
        InitVerdict::NotRun => Ok(()),
        InitVerdict::Holds => put_line(out, &[Part::Text(b"init holds")]),
        InitVerdict::FailsInvariant(place) => put_init_invariant(out, spec, place),
        InitVerdict::FailsProperty(place) => put_init_property(out, spec, place),
    }
}

/// Puts the line of one argument.
fn put_arg<O: Sink>(out: &mut O, place: usize, arg: u64) -> Result<(), SinkFault>
    ensures whole { OnOk result (O.shown out.new ≡ shown_with (O.shown out.old) (arg_text (place, arg))) }
    ensures cut { OnErr result (ShowsPrefix (O.shown out.old) (O.shown out.new) (arg_text (place, arg))) }
    ensures failed { OnErr result (Rose (O.faults out.old) (O.faults out.new)) }
    ensures still { OnOk result (O.faults out.new ≡ O.faults out.old) }
    ensures later { O.faults out.old ≤ O.faults out.new }
    ensures fits { O.faults out.new < 2 ^ 64 }
{
    let parts = [
        Part::Text(b"  arg "),
        Part::Decimal(place as u64),
        Part::Text(b" = "),
        Part::Decimal(arg),
    ];
    put_line(out, &parts)
}

/// Puts the `arg` lines of a state block: the number of each parameter, counted from 0. It takes no memory.
pub fn put_args<O: Sink>(out: &mut O, args: &[u64]) -> Result<(), SinkFault>
    ensures whole { OnOk result (O.shown out.new ≡ shown_with (O.shown out.old) (args_text args.now)) }
    ensures cut { OnErr result (ShowsPrefix (O.shown out.old) (O.shown out.new) (args_text args.now)) }
    ensures failed { OnErr result (Rose (O.faults out.old) (O.faults out.new)) }
    ensures still { OnOk result (O.faults out.new ≡ O.faults out.old) }
    ensures later { O.faults out.old ≤ O.faults out.new }
    ensures fits { O.faults out.old < 2 ^ 64 → O.faults out.new < 2 ^ 64 }
{
    for (place, arg) in args.iter().enumerate() {
        put_arg(out, place, *arg)?;
    }
    Ok(())
}

/// Puts the rows of a machine state.
fn put_rows<O: Sink>(out: &mut O, kernel: &Kernel, memory: &KMemory) -> Result<(), SinkFault>
    ensures whole { OnOk result (O.shown out.new ≡ shown_with (O.shown out.old) (memory_text (view_module kernel.now).globals memory.now)) }
    ensures cut { OnErr result (ShowsPrefix (O.shown out.old) (O.shown out.new) (memory_text (view_module kernel.now).globals memory.now)) }
    ensures failed { OnErr result (Rose (O.faults out.old) (O.faults out.new)) }
    ensures still { OnOk result (O.faults out.new ≡ O.faults out.old) }
    ensures later { O.faults out.old ≤ O.faults out.new }
    ensures fits { O.faults out.old < 2 ^ 64 → O.faults out.new < 2 ^ 64 }
{
    put_memory(out, &kernel.checked().module().globals, memory)
}

/// Puts a state block of a machine state: the arguments and the rows.
fn put_machine<O: Sink>(
    out: &mut O,
    kernel: &Kernel,
    memory: &KMemory,
    args: &[u64],
) -> Result<(), SinkFault>
    ensures whole { OnOk result (O.shown out.new ≡ shown_with (O.shown out.old) (args_text args.now ++ memory_text (view_module kernel.now).globals memory.now)) }
    ensures cut { OnErr result (ShowsPrefix (O.shown out.old) (O.shown out.new) (args_text args.now ++ memory_text (view_module kernel.now).globals memory.now)) }
    ensures failed { OnErr result (Rose (O.faults out.old) (O.faults out.new)) }
    ensures still { OnOk result (O.faults out.new ≡ O.faults out.old) }
    ensures later { O.faults out.old ≤ O.faults out.new }
    ensures fits { O.faults out.old < 2 ^ 64 → O.faults out.new < 2 ^ 64 }
{
    put_args(out, args)?;
    put_rows(out, kernel, memory)
}

/// Puts a state block of an abstract state: the arguments and the entries.
fn put_abstract<O: Sink>(
    out: &mut O,
    spec: &Spec,
    state: &AbstractState,
    args: &[u64],
) -> Result<(), SinkFault>
    requires sorted { IsWellSorted (view_spec spec.now) }
    requires state { IsState (field_sorts (view_spec spec.now)) state.now }
    ensures whole { OnOk result (O.shown out.new ≡ shown_with (O.shown out.old) (args_text args.now ++ entries_text [] (view_spec spec.now) state.now)) }
    ensures cut { OnErr result (ShowsPrefix (O.shown out.old) (O.shown out.new) (args_text args.now ++ entries_text [] (view_spec spec.now) state.now)) }
    ensures failed { OnErr result (Rose (O.faults out.old) (O.faults out.new)) }
    ensures still { OnOk result (O.faults out.new ≡ O.faults out.old) }
    ensures later { O.faults out.old ≤ O.faults out.new }
    ensures fits { O.faults out.old < 2 ^ 64 → O.faults out.new < 2 ^ 64 }
{
    put_args(out, args)?;
    put_entries(out, spec, b"", state)
}

/// Puts the state block of a case.
fn put_case<O: Sink>(
    out: &mut O,
    kernel: &Kernel,
    spec: &Spec,
    case: &Case,
) -> Result<(), SinkFault>
    requires sorted { IsWellSorted (view_spec spec.now) }
    requires shape { IsShown (view_spec spec.now) case.now }
    ensures whole { OnOk result (O.shown out.new ≡ shown_with (O.shown out.old) (case_text (view_module kernel.now) (view_spec spec.now) case.now)) }
    ensures cut { OnErr result (ShowsPrefix (O.shown out.old) (O.shown out.new) (case_text (view_module kernel.now) (view_spec spec.now) case.now)) }
    ensures failed { OnErr result (Rose (O.faults out.old) (O.faults out.new)) }
    ensures still { OnOk result (O.faults out.new ≡ O.faults out.old) }
    ensures later { O.faults out.old ≤ O.faults out.new }
    ensures fits { O.faults out.old < 2 ^ 64 → O.faults out.new < 2 ^ 64 }
{
    match case {
        Case::Machine { memory, args } => put_machine(out, kernel, memory, args.as_slice()),
        Case::Abstract { state, args } => put_abstract(out, spec, state, args.as_slice()),
    }
}

/// Puts a line of a word, a handler, and an obligation of a name.
fn put_named<'x, O: Sink>(
    out: &mut O,
    word: &'x [u8],
    handler: &'x [u8],
    kind: &'x [u8],
    name: &'x [u8],
) -> Result<(), SinkFault>
    ensures whole { OnOk result (O.shown out.new ≡ shown_with (O.shown out.old) (named_line word.now handler.now kind.now name.now)) }
    ensures cut { OnErr result (ShowsPrefix (O.shown out.old) (O.shown out.new) (named_line word.now handler.now kind.now name.now)) }
    ensures failed { OnErr result (Rose (O.faults out.old) (O.faults out.new)) }
    ensures still { OnOk result (O.faults out.new ≡ O.faults out.old) }
    ensures later { O.faults out.old ≤ O.faults out.new }
    ensures fits { O.faults out.new < 2 ^ 64 }
{
    put_line(
        out,
        &[
            Part::Text(word),
            Part::Text(handler),
            Part::Text(b" "),
            Part::Text(kind),
            Part::Text(name),
        ],
    )
}

/// Puts a line of a word, a handler, and an invariant or a property.
fn put_function<'x, O: Sink>(
    out: &mut O,
    word: &'x [u8],
    handler: &'x [u8],
    kind: &'x [u8],
    named: &'x [Named],
    place: u32,
) -> Result<(), SinkFault>
    ensures whole { OnOk result (O.shown out.new ≡ shown_with (O.shown out.old) (named_line word.now handler.now kind.now (named_text (slice_get (map view_named named.now) place)))) }
    ensures cut { OnErr result (ShowsPrefix (O.shown out.old) (O.shown out.new) (named_line word.now handler.now kind.now (named_text (slice_get (map view_named named.now) place)))) }
    ensures failed { OnErr result (Rose (O.faults out.old) (O.faults out.new)) }
    ensures still { OnOk result (O.faults out.new ≡ O.faults out.old) }
    ensures later { O.faults out.old ≤ O.faults out.new }
    ensures fits { O.faults out.new < 2 ^ 64 }
{
    let name = name_in(named, place);
    put_named(out, word, handler, kind, name)
}

/// Puts a line of a word, a handler, and an invariant.
fn put_invariant<'x, O: Sink>(
    out: &mut O,
    spec: &'x Spec,
    word: &'x [u8],
    handler: &'x [u8],
    place: u32,
) -> Result<(), SinkFault>
    ensures whole { OnOk result (O.shown out.new ≡ shown_with (O.shown out.old) (named_line word.now handler.now (codes "invariant ") (named_text (slice_get (map view_named spec.now.invariants) place)))) }
    ensures cut { OnErr result (ShowsPrefix (O.shown out.old) (O.shown out.new) (named_line word.now handler.now (codes "invariant ") (named_text (slice_get (map view_named spec.now.invariants) place)))) }
    ensures failed { OnErr result (Rose (O.faults out.old) (O.faults out.new)) }
    ensures still { OnOk result (O.faults out.new ≡ O.faults out.old) }
    ensures later { O.faults out.old ≤ O.faults out.new }
    ensures fits { O.faults out.new < 2 ^ 64 }
{
    put_function(
        out,
        word,
        handler,
        b"invariant ",
        spec.invariants.as_slice(),
        place,
    )
}

/// Puts a line of a word, a handler, and a property.
fn put_property<'x, O: Sink>(
    out: &mut O,
    spec: &'x Spec,
    word: &'x [u8],
    handler: &'x [u8],
    place: u32,
) -> Result<(), SinkFault>
    ensures whole { OnOk result (O.shown out.new ≡ shown_with (O.shown out.old) (named_line word.now handler.now (codes "property ") (named_text (slice_get (map view_named spec.now.properties) place)))) }
    ensures cut { OnErr result (ShowsPrefix (O.shown out.old) (O.shown out.new) (named_line word.now handler.now (codes "property ") (named_text (slice_get (map view_named spec.now.properties) place)))) }
    ensures failed { OnErr result (Rose (O.faults out.old) (O.faults out.new)) }
    ensures still { OnOk result (O.faults out.new ≡ O.faults out.old) }
    ensures later { O.faults out.old ≤ O.faults out.new }
    ensures fits { O.faults out.new < 2 ^ 64 }
{
    put_function(
        out,
        word,
        handler,
        b"property ",
        spec.properties.as_slice(),
        place,
    )
}

/// Puts a line of a word, the name of a handler, and an obligation.
fn put_obligation<'x, O: Sink>(
    out: &mut O,
    spec: &'x Spec,
    word: &'x [u8],
    handler: &'x [u8],
    obligation: Obligation,
) -> Result<(), SinkFault>
    ensures whole { OnOk result (O.shown out.new ≡ shown_with (O.shown out.old) (obligation_line word.now (view_spec spec.now) handler.now obligation)) }
    ensures cut { OnErr result (ShowsPrefix (O.shown out.old) (O.shown out.new) (obligation_line word.now (view_spec spec.now) handler.now obligation)) }
    ensures failed { OnErr result (Rose (O.faults out.old) (O.faults out.new)) }
    ensures still { OnOk result (O.faults out.new ≡ O.faults out.old) }
    ensures later { O.faults out.old ≤ O.faults out.new }
    ensures fits { O.faults out.new < 2 ^ 64 }
{
    match obligation {
        Obligation::Undefined => put_named(out, word, handler, b"undefined", b""),
        Obligation::Invariant(place) => put_invariant(out, spec, word, handler, place),
        Obligation::State(place) => {
            put_named(out, word, handler, b"state ", field_in(spec, place))
        }
        Obligation::ResultValue => put_named(out, word, handler, b"result", b""),
        Obligation::Property(place) => put_property(out, spec, word, handler, place),
    }
}

/// Puts the line of a rejection.
fn put_rejection<'x, O: Sink>(
    out: &mut O,
    spec: &'x Spec,
    transition: &'x Transition,
    obligation: Obligation,
) -> Result<(), SinkFault>
    ensures whole { OnOk result (O.shown out.new ≡ shown_with (O.shown out.old) (rejection_line (view_spec spec.now) (view_transition transition.now) obligation)) }
    ensures cut { OnErr result (ShowsPrefix (O.shown out.old) (O.shown out.new) (rejection_line (view_spec spec.now) (view_transition transition.now) obligation)) }
    ensures failed { OnErr result (Rose (O.faults out.old) (O.faults out.new)) }
    ensures still { OnOk result (O.faults out.new ≡ O.faults out.old) }
    ensures later { O.faults out.old ≤ O.faults out.new }
    ensures fits { O.faults out.new < 2 ^ 64 }
{
    put_obligation(
        out,
        spec,
        b"reject ",
        transition.name.as_bytes(),
        obligation,
    )
}

/// Puts the line of a handler that was not decided for this obligation.
fn put_unknown<'x, O: Sink>(
    out: &mut O,
    spec: &'x Spec,
    transition: &'x Transition,
    obligation: Obligation,
) -> Result<(), SinkFault>
    ensures whole { OnOk result (O.shown out.new ≡ shown_with (O.shown out.old) (unknown_line (view_spec spec.now) (view_transition transition.now) obligation)) }
    ensures cut { OnErr result (ShowsPrefix (O.shown out.old) (O.shown out.new) (unknown_line (view_spec spec.now) (view_transition transition.now) obligation)) }
    ensures failed { OnErr result (Rose (O.faults out.old) (O.faults out.new)) }
    ensures still { OnOk result (O.faults out.new ≡ O.faults out.old) }
    ensures later { O.faults out.old ≤ O.faults out.new }
    ensures fits { O.faults out.new < 2 ^ 64 }
{
    put_obligation(
        out,
        spec,
        b"unknown ",
        transition.name.as_bytes(),
        obligation,
    )
}

/// Puts the lines of a rejection: its line and its state block.
fn put_rejected<O: Sink>(
    out: &mut O,
    kernel: &Kernel,
    spec: &Spec,
    transition: &Transition,
    obligation: Obligation,
    case: &Case,
) -> Result<(), SinkFault>
    requires sorted { IsWellSorted (view_spec spec.now) }
    requires shape { IsShown (view_spec spec.now) case.now }
    ensures whole { OnOk result (O.shown out.new ≡ shown_with (O.shown out.old) (rejection_line (view_spec spec.now) (view_transition transition.now) obligation ++ case_text (view_module kernel.now) (view_spec spec.now) case.now)) }
    ensures cut { OnErr result (ShowsPrefix (O.shown out.old) (O.shown out.new) (rejection_line (view_spec spec.now) (view_transition transition.now) obligation ++ case_text (view_module kernel.now) (view_spec spec.now) case.now)) }
    ensures failed { OnErr result (Rose (O.faults out.old) (O.faults out.new)) }
    ensures still { OnOk result (O.faults out.new ≡ O.faults out.old) }
    ensures later { O.faults out.old ≤ O.faults out.new }
    ensures fits { O.faults out.new < 2 ^ 64 }
{
    put_rejection(out, spec, transition, obligation)?;
    put_case(out, kernel, spec, case)
}

/// Puts the lines of a handler's verdict: `accept`, `reject` with its state block, `unknown`, or `memory`. It takes no memory.
pub fn put_verdict<O: Sink>(
    out: &mut O,
    kernel: &Kernel,
    spec: &Spec,
    transition: &Transition,
    verdict: &Verdict,
) -> Result<(), SinkFault>
    requires sorted { IsWellSorted (view_spec spec.now) }
    requires shape { IsShownVerdict (view_spec spec.now) verdict.now }
    ensures whole { OnOk result (O.shown out.new ≡ shown_with (O.shown out.old) (verdict_text (view_module kernel.now) (view_spec spec.now) (view_transition transition.now) verdict.now)) }
    ensures cut { OnErr result (ShowsPrefix (O.shown out.old) (O.shown out.new) (verdict_text (view_module kernel.now) (view_spec spec.now) (view_transition transition.now) verdict.now)) }
    ensures failed { OnErr result (Rose (O.faults out.old) (O.faults out.new)) }
    ensures still { OnOk result (O.faults out.new ≡ O.faults out.old) }
    ensures later { O.faults out.old ≤ O.faults out.new }
    ensures fits { O.faults out.new < 2 ^ 64 }
{
    match verdict {
        Verdict::Accepted { .. } => put_two(out, b"accept ", transition.name.as_bytes()),
        Verdict::Rejected { obligation, case } => {
            put_rejected(out, kernel, spec, transition, *obligation, case)
        }
        Verdict::Unknown { obligation, .. } => put_unknown(out, spec, transition, *obligation),
        Verdict::Memory => put_two(out, b"memory ", transition.name.as_bytes()),
    }
}
