//! The least fault of a module's items: that of the earliest line, and on one line that of the least number.
//!
//! A module comes in, with what is kept of its named types; the first item that falls under a rule of layout goes out.

ghost use Rattle.std.specs.Prelude.{◌≡◌, ◌+◌, ◌<◌, ◌≤◌, ◌^◌, length, map, option_map, Some};
ghost use Rattle.std.specs.List.{All};
ghost use Rattle.ir_ast.specs.Small.{IsSmall};
ghost use Rattle.ir_ast.specs.ProgramView.{view_entries, view_type_entry, view_global, view_range, view_function, view_instr, view_block, view_blocks, view_line, view_module};
ghost use Rattle.ir_layout.specs.Facts.{look_in, IsKept};
ghost use Rattle.ir_layout.specs.Least as definition;

use crate::fact::Fact;
use crate::marks::{Marks, clear, note, note_init, note_numbers, note_op, note_parameters};
use crate::text::has_bad_component;
use crate::types::fact_in;
use ir_ast::{
    Block, BlockList, Function, FunctionTable, GlobalItem, GlobalTable, InstrList, KernelFault,
    KernelReason, LineText, Module, RangeEntry, RangeTable, TypeEntry, TypeTable,
};

/// The limit of all globals together, in bytes.
const TOTAL_LIMIT: u64 = 4_194_304;

/// The number of a reason.
fn number_of(reason: KernelReason) -> u32
    ensures { result ≡ definition.number_of_reason reason }
{
    match reason {
        KernelReason::K1 => 1,
        KernelReason::K2 => 2,
        KernelReason::K3 => 3,
        KernelReason::K4 => 4,
        KernelReason::K5 => 5,
        KernelReason::K6 => 6,
        KernelReason::K7 => 7,
        KernelReason::K8 => 8,
        KernelReason::K9 => 9,
        KernelReason::K10 => 10,
        KernelReason::K11 => 11,
        KernelReason::K12 => 12,
        KernelReason::K13 => 13,
        KernelReason::K14 => 14,
        KernelReason::K15 => 15,
    }
}

fn is_before(line: u32, reason: KernelReason, fault: KernelFault) -> bool
    ensures { result ≡ definition.is_before line reason fault }
{
    line < fault.line || (line == fault.line && number_of(reason) < number_of(fault.reason))
}

/// The lesser of a fault and another one.
fn offer(least: Option<KernelFault>, line: u32, reason: KernelReason) -> Option<KernelFault>
    ensures { result ≡ definition.offer least line reason }
{
    match least {
        None => Some(KernelFault { line, reason }),
        Some(fault) => {
            if is_before(line, reason, fault) {
                Some(KernelFault { line, reason })
            } else {
                Some(fault)
            }
        }
    }
}

/// The same with what is noted of an item's types.
fn offer_marks(least: Option<KernelFault>, line: u32, marks: Marks) -> Option<KernelFault>
    ensures { result ≡ definition.offer_marks least line marks }
{
    if marks.bad {
        offer(least, line, KernelReason::K5)
    } else if marks.large {
        offer(least, line, KernelReason::K6)
    } else {
        least
    }
}

fn least_type(
    types: &TypeTable,
    facts: &[Fact],
    least: Option<KernelFault>,
    entry: &TypeEntry,
) -> Option<KernelFault>
    requires small { length types.now < 2 ^ 32 }
    requires kept { All IsKept facts.now }
    ensures { result ≡ definition.least_type (look_in types.now facts.now) least (view_type_entry entry.now) }
{
    offer_marks(least, entry.line, note(types, facts, clear(), &entry.over))
}

fn least_types(types: &TypeTable, facts: &[Fact], least: Option<KernelFault>) -> Option<KernelFault>
    requires small { length types.now < 2 ^ 32 }
    requires kept { All IsKept facts.now }
    ensures { result ≡ definition.least_types (look_in types.now facts.now) least (view_entries view_type_entry types.now) }
{
    let mut found = least;
    for place in 0..types.len() {
        found = least_type(types, facts, found, types.at(place));
    }
    found
}

/// The bytes of a global that count, where this is kept of its type.
fn counted(fact: Fact) -> u64
    ensures { result ≡ definition.counted fact }
{
    if fact.known && !fact.odd {
        fact.size
    } else {
        0
    }
}

/// The bytes of the globals so far and of one more, cut at one over the limit.
fn total_with(total: u64, fact: Fact) -> u64
    requires total { total ≤ 4194305 }
    requires kept { IsKept fact }
    ensures total { result ≡ definition.cut_total (total + definition.counted fact) }
    ensures few { result ≤ 4194305 }
{
    (total + counted(fact)).min(TOTAL_LIMIT + 1)
}

/// What is noted of a global, of whose type this is kept, where the globals up to it have so many bytes.
fn marks_with(
    types: &TypeTable,
    facts: &[Fact],
    fact: Fact,
    total: u64,
    global: &GlobalItem,
) -> Marks
    requires small { length types.now < 2 ^ 32 }
    requires kept { All IsKept facts.now }
    ensures { result ≡ definition.marks_with (look_in types.now facts.now) fact total (view_global global.now) }
{
    let own = Marks {
        bad: fact.bad,
        large: fact.large,
    };
    let all = note_init(types, facts, own, &global.init);
    Marks {
        bad: all.bad || fact.odd,
        large: all.large || TOTAL_LIMIT < total,
    }
}

fn least_globals(
    types: &TypeTable,
    facts: &[Fact],
    least: Option<KernelFault>,
    globals: &GlobalTable,
) -> Option<KernelFault>
    requires small { length types.now < 2 ^ 32 }
    requires kept { All IsKept facts.now }
    requires globals { length globals.now < 2 ^ 32 }
    ensures { result ≡ definition.least_globals (look_in types.now facts.now) least 0 (view_entries view_global globals.now) }
{
    let mut found = least;
    let mut total = 0;
    for place in 0..globals.len() {
        let global = globals.at(place);
        let fact = fact_in(types, facts, &global.over);
        total = total_with(total, fact);
        let marks = marks_with(types, facts, fact, total, global);
        found = offer_marks(found, global.line, marks);
    }
    found
}

fn least_range(
    types: &TypeTable,
    facts: &[Fact],
    least: Option<KernelFault>,
    range: &RangeEntry,
) -> Option<KernelFault>
    requires small { length types.now < 2 ^ 32 }
    requires kept { All IsKept facts.now }
    ensures { result ≡ definition.least_range (look_in types.now facts.now) least (view_range range.now) }
{
    offer_marks(
        least,
        range.line,
        note_numbers(types, facts, clear(), &range.numbers),
    )
}

fn least_ranges(
    types: &TypeTable,
    facts: &[Fact],
    least: Option<KernelFault>,
    ranges: &RangeTable,
) -> Option<KernelFault>
    requires small { length types.now < 2 ^ 32 }
    requires kept { All IsKept facts.now }
    requires ranges { length ranges.now < 2 ^ 32 }
    ensures { result ≡ definition.least_ranges (look_in types.now facts.now) least (view_entries view_range ranges.now) }
{
    let mut found = least;
    for place in 0..ranges.len() {
        found = least_range(types, facts, found, ranges.at(place));
    }
    found
}

fn least_instrs(
    types: &TypeTable,
    facts: &[Fact],
    least: Option<KernelFault>,
    instrs: &InstrList,
) -> Option<KernelFault>
    requires small { length types.now < 2 ^ 32 }
    requires kept { All IsKept facts.now }
    ensures { result ≡ definition.least_instrs (look_in types.now facts.now) least (map view_instr instrs.now.items.items) }
{
    let items = instrs.items.as_slice();
    let mut found = least;
    for instr in items {
        found = offer_marks(found, instr.line, note_op(types, facts, clear(), &instr.op));
    }
    found
}

fn least_blocks(
    types: &TypeTable,
    facts: &[Fact],
    least: Option<KernelFault>,
    blocks: &BlockList,
) -> Option<KernelFault>
    requires small { length types.now < 2 ^ 32 }
    requires kept { All IsKept facts.now }
    ensures { result ≡ definition.least_blocks (look_in types.now facts.now) least (view_blocks blocks.now) }
{
    let items = blocks.items.as_slice();
    let mut found = least;
    for block in items {
        found = least_instrs(types, facts, found, &block.instrs);
    }
    found
}

fn least_body(
    types: &TypeTable,
    facts: &[Fact],
    least: Option<KernelFault>,
    body: &Option<BlockList>,
) -> Option<KernelFault>
    requires small { length types.now < 2 ^ 32 }
    requires kept { All IsKept facts.now }
    ensures { result ≡ definition.least_body (look_in types.now facts.now) least (option_map view_blocks body.now) }
{
    match body {
        Some(blocks) => least_blocks(types, facts, least, blocks),
        None => least,
    }
}

fn least_head(
    types: &TypeTable,
    facts: &[Fact],
    least: Option<KernelFault>,
    function: &Function,
) -> Option<KernelFault>
    requires small { length types.now < 2 ^ 32 }
    requires kept { All IsKept facts.now }
    ensures { result ≡ definition.least_head (look_in types.now facts.now) least (view_function function.now) }
{
    let own = note(types, facts, clear(), &function.result);
    offer_marks(
        least,
        function.line,
        note_parameters(types, facts, own, &function.parameters),
    )
}

fn least_function(
    types: &TypeTable,
    facts: &[Fact],
    least: Option<KernelFault>,
    function: &Function,
) -> Option<KernelFault>
    requires small { length types.now < 2 ^ 32 }
    requires kept { All IsKept facts.now }
    ensures { result ≡ definition.least_function (look_in types.now facts.now) least (view_function function.now) }
{
    let head = least_head(types, facts, least, function);
    least_body(types, facts, head, &function.body)
}

fn least_functions(
    types: &TypeTable,
    facts: &[Fact],
    least: Option<KernelFault>,
    functions: &FunctionTable,
) -> Option<KernelFault>
    requires small { length types.now < 2 ^ 32 }
    requires kept { All IsKept facts.now }
    requires functions { length functions.now < 2 ^ 32 }
    ensures { result ≡ definition.least_functions (look_in types.now facts.now) least (view_entries view_function functions.now) }
{
    let mut found = least;
    for place in 0..functions.len() {
        found = least_function(types, facts, found, functions.at(place));
    }
    found
}

fn least_text(text: &Option<LineText>) -> Option<KernelFault>
    ensures { result ≡ definition.least_text (option_map view_line text.now) }
{
    match text {
        Some(text) => fault_of_text(text),
        None => None,
    }
}

fn fault_of_text(text: &LineText) -> Option<KernelFault>
    ensures { result ≡ definition.least_text (Some (view_line text.now)) }
{
    if has_bad_component(text.bytes.items.as_slice()) {
        Some(KernelFault {
            line: text.line,
            reason: KernelReason::K7,
        })
    } else {
        None
    }
}

/// The first item of a module that falls under a rule of layout, where this is kept of its named types. It takes time linear in the
/// module.
pub fn least_fault(kernel: &Module, facts: &[Fact]) -> Option<KernelFault>
    requires small { IsSmall kernel.now }
    requires kept { All IsKept facts.now }
    ensures { result ≡ definition.least_fault (look_in kernel.now.types facts.now) (view_module kernel.now) }
{
    let types = &kernel.types;
    let text = least_text(&kernel.layout_text);
    let named = least_types(types, facts, text);
    let globals = least_globals(types, facts, named, &kernel.globals);
    let ranges = least_ranges(types, facts, globals, &kernel.ranges);
    least_functions(types, facts, ranges, &kernel.functions)
}
