//! Whole bodies of handlers: blocks, branches, and what is returned.

use crate::access::{Cell, When, load, store};
use crate::draft::{Draft, Operand, Term, Value};
use crate::operation::Predicate;
use crate::scene::{Scene, Shape, fields_of, map_size};
use crate::slip::Slip;
use crate::steps::{
    both, clamp, compare, draw_constant, draw_index, draw_value, step, test, widen,
};
use std::alloc::{AllocError, Global};

/// What a handler returns.
#[derive(Clone, Copy, PartialEq, Eq)]
pub(crate) enum Returns {
    /// Nothing.
    Void,
    /// Zero where it is valid, and else another number.
    Status,
    /// A number that the specification gives.
    Number,
}

/// What a handler on such a memory returns.
pub(crate) fn draw_returns(draft: &mut Draft, shape: Shape) -> Returns {
    match draft.random.below(5) {
        0 => Returns::Status,
        1 if shape != Shape::Nothing => Returns::Void,
        _ => Returns::Number,
    }
}

/// The name of the state that a transition on such a memory ends in.
pub(crate) fn end_state(shape: Shape) -> &'static str {
    match shape {
        Shape::Nothing => "state",
        _ => "new",
    }
}

/// An index below a size: one of these values, or a constant.
fn draw_place(draft: &mut Draft, values: &[Value], size: u64) -> Result<Value, AllocError> {
    if values.is_empty() || draft.random.once_in(4) {
        return Ok(Value::Constant(draft.random.below(size)));
    }
    draw_index(draft, values, size)
}

/// A number of memory, at an index that one of these values gives where it is a map.
fn draw_cell(draft: &mut Draft, shape: Shape, values: &[Value]) -> Result<Cell, AllocError> {
    let field = draft.random.below(fields_of(shape).len() as u64) as usize;
    let index = match map_size(shape) {
        Some(size) => draw_place(draft, values, size)?,
        None => Value::Constant(0),
    };
    Ok(Cell { field, index })
}

/// Raises the byte that is no field.
fn raise_hidden(draft: &mut Draft) -> Result<(), AllocError> {
    let alloc = draft.alloc;
    let old = Operand(draft.compute("load i8, ptr @b")?);
    let code = format!(in alloc; "add i8 {old}, 3")?;
    let new = Operand(draft.compute(code.as_str())?);
    let code = format!(in alloc; "store i8 {new}, ptr @b")?;
    draft.put_code(code.as_str())
}

/// The parameters, as values of the width.
fn parameters(draft: &mut Draft, widths: &[u32]) -> Result<Vec<Value>, AllocError> {
    let mut values = Vec::new(draft.alloc);
    let mut place: u32 = 0;
    for width in widths {
        let parameter = Value::Parameter(place);
        let value = if *width < draft.width {
            widen(draft, parameter, *width)?
        } else {
            parameter
        };
        values.push(value)?;
        place = place.saturating_add(1);
    }
    Ok(values)
}

/// Loads a number of memory, where there is one.
fn read(draft: &mut Draft, shape: Shape, values: &mut Vec<Value>) -> Result<(), AllocError> {
    if shape == Shape::Nothing {
        return Ok(());
    }
    let cell = draw_cell(draft, shape, values.as_slice())?;
    let value = load(draft, shape, cell)?;
    values.push(value)?;
    Ok(())
}

/// The values at the entry: the parameters, and numbers of memory.
pub(crate) fn enter(
    draft: &mut Draft,
    scene: &Scene,
    widths: &[u32],
) -> Result<Vec<Value>, AllocError> {
    draft.put_label("entry")?;
    if scene.shape == Shape::Part {
        raise_hidden(draft)?;
    }
    let mut values = parameters(draft, widths)?;
    read(draft, scene.shape, &mut values)?;
    if draft.random.once_in(2) {
        read(draft, scene.shape, &mut values)?;
    }
    Ok(values)
}

/// So many steps, each of which may take what the earlier ones came to.
fn steps(
    draft: &mut Draft,
    scene: &Scene,
    values: &mut Vec<Value>,
    count: u64,
) -> Result<(), AllocError> {
    for _ in 0..count {
        let value = step(draft, values.as_slice(), scene.table)?;
        values.push(value)?;
    }
    Ok(())
}

/// The last of these values, or in one of eight draws any.
fn draw_last(draft: &mut Draft, values: &[Value]) -> Value {
    if draft.random.once_in(8) {
        draw_value(draft, values)
    } else {
        values.last().copied().unwrap_or(Value::Constant(1))
    }
}

/// Stores the last value as a number of memory, below the bound where there is one.
fn write_at(
    draft: &mut Draft,
    scene: &Scene,
    values: &[Value],
    cell: Cell,
    when: When,
) -> Result<(), AllocError> {
    let value = draw_last(draft, values);
    let value = match scene.bound {
        Some(bound) => clamp(draft, value, bound)?,
        None => value,
    };
    store(draft, scene.shape, cell, value, when)
}

/// Stores the last value, where there is memory.
fn write(draft: &mut Draft, scene: &Scene, values: &[Value], when: When) -> Result<(), AllocError> {
    if scene.shape == Shape::Nothing {
        return Ok(());
    }
    let cell = draw_cell(draft, scene.shape, values)?;
    write_at(draft, scene, values, cell, when)
}

/// Ends the block, and gives what the specification has for the result, if it has one.
fn leave(
    draft: &mut Draft,
    returns: Returns,
    values: &[Value],
) -> Result<Option<Value>, AllocError> {
    let alloc = draft.alloc;
    let width = draft.width;
    let is_wrong = returns != Returns::Void && draft.slips(Slip::Returned);
    let value = match returns {
        Returns::Void => {
            draft.put_code("ret void")?;
            return Ok(None);
        }
        Returns::Status => Value::Constant(0),
        Returns::Number => draw_last(draft, values),
    };
    let returned = if is_wrong { Value::Constant(1) } else { value };
    let operand = Operand(returned);
    let code = format!(in alloc; "ret i{width} {operand}")?;
    draft.put_code(code.as_str())?;
    if returns == Returns::Number {
        Ok(Some(value))
    } else {
        Ok(None)
    }
}

/// The line with which a transition ends that is always valid.
fn last_line(draft: &Draft, shape: Shape, outcome: Option<Value>) -> Result<String, AllocError> {
    let alloc = draft.alloc;
    let state = end_state(shape);
    match outcome {
        Some(value) => {
            let term = Term(value, draft.width);
            format!(in alloc; "    return True, {state}, {term}\n")
        }
        None => format!(in alloc; "    return True, {state}\n"),
    }
}

/// Ends the handler with the block.
fn finish(
    draft: &mut Draft,
    shape: Shape,
    returns: Returns,
    values: &[Value],
) -> Result<String, AllocError> {
    let outcome = leave(draft, returns, values)?;
    last_line(draft, shape, outcome)
}

/// Branches by a test.
fn branch(draft: &mut Draft, test: Value, yes: &str, no: &str) -> Result<(), AllocError> {
    let alloc = draft.alloc;
    if draft.slips(Slip::Guard) {
        let code = format!(in alloc; "br i1 true, label %{yes}, label %{no}")?;
        return draft.put_code(code.as_str());
    }
    let test = Operand(test);
    let code = format!(in alloc; "br i1 {test}, label %{yes}, label %{no}")?;
    draft.put_code(code.as_str())
}

/// Goes on at a label.
fn go(draft: &mut Draft, label: &str) -> Result<(), AllocError> {
    let alloc = draft.alloc;
    let code = format!(in alloc; "br label %{label}")?;
    draft.put_code(code.as_str())
}

/// One block: steps and stores.
pub(crate) fn straight(
    draft: &mut Draft,
    scene: &Scene,
    returns: Returns,
    values: &mut Vec<Value>,
) -> Result<String, AllocError> {
    let count = draft.random.below(3).wrapping_add(2);
    steps(draft, scene, values, count)?;
    write(draft, scene, values.as_slice(), When::Always)?;
    if draft.random.once_in(3) {
        read(draft, scene.shape, values)?;
        steps(draft, scene, values, 1)?;
        write(draft, scene, values.as_slice(), When::Always)?;
    }
    finish(draft, scene.shape, returns, values.as_slice())
}

/// What a guarded handler tests, and the number of memory that it may then come to.
#[derive(Clone, Copy)]
struct Guard {
    test: Value,
    cell: Option<Cell>,
}

/// Any test.
fn any_guard(draft: &mut Draft, values: &[Value]) -> Result<Guard, AllocError> {
    let test = test(draft, values)?;
    Ok(Guard { test, cell: None })
}

/// A test that an index is below a size.
fn index_guard(draft: &mut Draft, values: &[Value], size: u64) -> Result<Guard, AllocError> {
    let index = draw_value(draft, values);
    let test = compare(draft, Predicate::Ult, index, Value::Constant(size))?;
    let cell = Some(Cell { field: 0, index });
    Ok(Guard { test, cell })
}

/// A test that an index is in range, or any test.
fn guard_of(draft: &mut Draft, shape: Shape, values: &[Value]) -> Result<Guard, AllocError> {
    match map_size(shape) {
        Some(size) => {
            if draft.random.once_in(3) {
                any_guard(draft, values)
            } else {
                index_guard(draft, values, size)
            }
        }
        None => any_guard(draft, values),
    }
}

/// The same, or in one of three draws with one more test.
fn draw_guard(draft: &mut Draft, shape: Shape, values: &[Value]) -> Result<Guard, AllocError> {
    let guard = guard_of(draft, shape, values)?;
    if !draft.random.once_in(3) {
        return Ok(guard);
    }
    let more = test(draft, values)?;
    let test = both(draft, guard.test, more)?;
    Ok(Guard {
        test,
        cell: guard.cell,
    })
}

/// Stores behind a guard.
fn write_guarded(
    draft: &mut Draft,
    scene: &Scene,
    values: &mut Vec<Value>,
    cell: Option<Cell>,
) -> Result<(), AllocError> {
    match cell {
        Some(cell) => {
            let old = load(draft, scene.shape, cell)?;
            values.push(old)?;
            steps(draft, scene, values, 1)?;
            write_at(draft, scene, values.as_slice(), cell, When::Always)
        }
        None => write(draft, scene, values.as_slice(), When::Always),
    }
}

/// Ends the block of a handler that is not valid.
fn refuse(draft: &mut Draft, returns: Returns) -> Result<u64, AllocError> {
    let alloc = draft.alloc;
    let width = draft.width;
    let meant = match returns {
        Returns::Void => {
            draft.put_code("ret void")?;
            return Ok(0);
        }
        Returns::Status => draft.random.below(250).wrapping_add(1),
        Returns::Number => draw_constant(draft),
    };
    let returned = if draft.slips(Slip::Returned) {
        0
    } else {
        meant
    };
    let code = format!(in alloc; "ret i{width} {returned}")?;
    draft.put_code(code.as_str())?;
    Ok(meant)
}

/// The line with which a guarded transition ends.
fn guarded_line(
    draft: &Draft,
    shape: Shape,
    test: Value,
    outcome: Option<Value>,
    refused: u64,
) -> Result<String, AllocError> {
    let alloc = draft.alloc;
    let width = draft.width;
    let state = end_state(shape);
    let test = Term(test, 1);
    match outcome {
        Some(value) => {
            let value = Term(value, width);
            format!(in alloc;
                "    return {test}, {state}, If({test}, {value}, BitVecVal({refused}, {width}))\n"
            )
        }
        None => format!(in alloc; "    return {test}, {state}\n"),
    }
}

/// A guard, behind which steps and stores follow; else nothing changes.
pub(crate) fn guarded(
    draft: &mut Draft,
    scene: &Scene,
    returns: Returns,
    values: &mut Vec<Value>,
) -> Result<String, AllocError> {
    let guard = draw_guard(draft, scene.shape, values.as_slice())?;
    branch(draft, guard.test, "ok", "bad")?;
    draft.put_label("ok")?;
    let count = draft.random.below(2).wrapping_add(1);
    steps(draft, scene, values, count)?;
    write_guarded(draft, scene, values, guard.cell)?;
    let outcome = leave(draft, returns, values.as_slice())?;
    draft.put_label("bad")?;
    let refused = refuse(draft, returns)?;
    guarded_line(draft, scene.shape, guard.test, outcome, refused)
}

/// A block that is come to under a condition: a step, and perhaps a store. Gives what it comes to.
fn arm(
    draft: &mut Draft,
    scene: &Scene,
    values: &[Value],
    when: When,
) -> Result<Value, AllocError> {
    let mut inner = Vec::from_slice(draft.alloc, values)?;
    steps(draft, scene, &mut inner, 1)?;
    if draft.random.once_in(2) {
        write(draft, scene, inner.as_slice(), when)?;
    }
    go(draft, "join")?;
    Ok(draw_last(draft, inner.as_slice()))
}

/// Joins two values by the block that they come from.
fn join(
    draft: &mut Draft,
    test: Value,
    a: Value,
    b: Value,
    second: &str,
) -> Result<Value, AllocError> {
    let alloc = draft.alloc;
    let width = draft.width;
    let x = Operand(a);
    let y = Operand(b);
    let code = format!(in alloc; "phi i{width} [ {x}, %yes ], [ {y}, %{second} ]")?;
    let (a, b) = if draft.slips(Slip::Arms) {
        (b, a)
    } else {
        (a, b)
    };
    let test = Term(test, 1);
    let a = Term(a, width);
    let b = Term(b, width);
    let term = format!(in alloc; "If({test}, {a}, {b})")?;
    draft.define(code.as_str(), term.as_str())
}

/// Two blocks by a test, which join again.
pub(crate) fn forked(
    draft: &mut Draft,
    scene: &Scene,
    returns: Returns,
    values: &mut Vec<Value>,
) -> Result<String, AllocError> {
    let by = test(draft, values.as_slice())?;
    branch(draft, by, "yes", "no")?;
    draft.put_label("yes")?;
    let a = arm(draft, scene, values.as_slice(), When::If(by))?;
    draft.put_label("no")?;
    let b = arm(draft, scene, values.as_slice(), When::Unless(by))?;
    draft.put_label("join")?;
    let value = join(draft, by, a, b, "no")?;
    values.push(value)?;
    write(draft, scene, values.as_slice(), When::Always)?;
    finish(draft, scene.shape, returns, values.as_slice())
}

/// A block that is passed by where a test is false.
pub(crate) fn one_sided(
    draft: &mut Draft,
    scene: &Scene,
    returns: Returns,
    values: &mut Vec<Value>,
) -> Result<String, AllocError> {
    let by = test(draft, values.as_slice())?;
    let b = draw_value(draft, values.as_slice());
    branch(draft, by, "yes", "join")?;
    draft.put_label("yes")?;
    let a = arm(draft, scene, values.as_slice(), When::If(by))?;
    draft.put_label("join")?;
    let value = join(draft, by, a, b, "entry")?;
    values.push(value)?;
    if !draft.random.once_in(3) {
        write(draft, scene, values.as_slice(), When::Always)?;
    }
    finish(draft, scene.shape, returns, values.as_slice())
}

/// What stands for a switch over the low bits of a value: 0, 1, or else.
fn join_three(draft: &mut Draft, by: Value, arms: [Value; 3]) -> Result<Value, AllocError> {
    let alloc = draft.alloc;
    let width = draft.width;
    let [a, b, other] = arms;
    let x = Operand(a);
    let y = Operand(b);
    let z = Operand(other);
    let code = format!(in alloc; "phi i{width} [ {x}, %zero ], [ {y}, %one ], [ {z}, %more ]")?;
    let by = Term(by, width);
    let x = Term(a, width);
    let y = Term(b, width);
    let z = Term(other, width);
    let term = format!(in alloc; "If({by} == 0, {x}, If({by} == 1, {y}, {z}))")?;
    draft.define(code.as_str(), term.as_str())
}

/// A block of a switch: one step.
fn case(
    draft: &mut Draft,
    scene: &Scene,
    values: &[Value],
    label: &str,
) -> Result<Value, AllocError> {
    draft.put_label(label)?;
    let value = step(draft, values, scene.table)?;
    go(draft, "join")?;
    Ok(value)
}

/// Three blocks by the low bits of a value, which join again.
pub(crate) fn switched(
    draft: &mut Draft,
    scene: &Scene,
    returns: Returns,
    values: &mut Vec<Value>,
) -> Result<String, AllocError> {
    let alloc = draft.alloc;
    let width = draft.width;
    let by = draw_index(draft, values.as_slice(), 4)?;
    let operand = Operand(by);
    let code = format!(in alloc;
        "switch i{width} {operand}, label %more [ i{width} 0, label %zero i{width} 1, label %one ]"
    )?;
    draft.put_code(code.as_str())?;
    let a = case(draft, scene, values.as_slice(), "zero")?;
    let b = case(draft, scene, values.as_slice(), "one")?;
    let other = case(draft, scene, values.as_slice(), "more")?;
    draft.put_label("join")?;
    let value = join_three(draft, by, [a, b, other])?;
    values.push(value)?;
    write(draft, scene, values.as_slice(), When::Always)?;
    finish(draft, scene.shape, returns, values.as_slice())
}

/// The body of a handler. Gives the last line of its transition.
pub(crate) fn body(
    draft: &mut Draft,
    scene: &Scene,
    returns: Returns,
    widths: &[u32],
) -> Result<String, AllocError> {
    let mut values = enter(draft, scene, widths)?;
    match draft.random.below(8) {
        0 | 1 => straight(draft, scene, returns, &mut values),
        2 => forked(draft, scene, returns, &mut values),
        3 => one_sided(draft, scene, returns, &mut values),
        4 => switched(draft, scene, returns, &mut values),
        _ => guarded(draft, scene, returns, &mut values),
    }
}

/// The type that a handler returns.
pub(crate) fn type_of(alloc: Global, returns: Returns, width: u32) -> Result<String, AllocError> {
    match returns {
        Returns::Void => String::from_str(alloc, "void"),
        _ => format!(in alloc; "i{width}"),
    }
}
