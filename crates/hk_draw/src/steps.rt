//! Single steps of a handler: what is computed, and what is tested.

use crate::draft::{Draft, Operand, Term, Value};
use crate::operation::{
    Operation, Predicate, confused, draw_operation, draw_predicate, flags_of, mistaken, name_of,
    term_of, test_of, word_of,
};
use crate::scene::{Table, numbers_of};
use crate::slip::Slip;
use std::alloc::AllocError;

/// One of these values, rather a late one; 1 where there is none.
pub(crate) fn draw_value(draft: &mut Draft, values: &[Value]) -> Value {
    let first = draft.random.below(values.len() as u64);
    let second = draft.random.below(values.len() as u64);
    let place = first.max(second) as usize;
    values.get(place).copied().unwrap_or(Value::Constant(1))
}

/// A constant of the width, mostly a small one.
pub(crate) fn draw_constant(draft: &mut Draft) -> u64 {
    match draft.random.below(5) {
        0 => draft.random.below(numbers_of(draft.width)),
        1 => draft.random.below(20),
        _ => draft.random.below(7),
    }
}

/// One of these values, or in one of three draws a constant.
fn draw_any(draft: &mut Draft, values: &[Value]) -> Value {
    if draft.random.once_in(3) {
        Value::Constant(draw_constant(draft))
    } else {
        draw_value(draft, values)
    }
}

/// A constant that is taken for this one by mistake.
fn wrong(value: Value) -> Value {
    match value {
        Value::Constant(0) => Value::Constant(1),
        Value::Constant(number) => Value::Constant(number.saturating_sub(1)),
        other => other,
    }
}

/// An operation on two values.
fn operate(
    draft: &mut Draft,
    operation: Operation,
    flags: &str,
    a: Value,
    b: Value,
) -> Result<Value, AllocError> {
    let alloc = draft.alloc;
    let width = draft.width;
    let name = name_of(operation);
    let first = Operand(a);
    let second = Operand(b);
    let code = format!(in alloc; "{name}{flags} i{width} {first}, {second}")?;
    let meant = if draft.slips(Slip::Operation) {
        mistaken(operation)
    } else {
        operation
    };
    let is_constant = matches!(b, Value::Constant(_));
    let with = if is_constant && draft.slips(Slip::Constant) {
        wrong(b)
    } else {
        b
    };
    let term = term_of(alloc, meant, Term(a, width), Term(with, width))?;
    draft.define(code.as_str(), term.as_str())
}

/// By how much is shifted: less than the width.
fn draw_amount(draft: &mut Draft, values: &[Value]) -> Result<Value, AllocError> {
    let most = u64::from(draft.width.saturating_sub(1));
    if draft.random.once_in(2) {
        return Ok(Value::Constant(draft.random.below(8)));
    }
    let value = draw_value(draft, values);
    if draft.slips(Slip::Shift) {
        return Ok(value);
    }
    operate(draft, Operation::And, "", value, Value::Constant(most))
}

/// By what is divided: not by zero.
fn draw_divisor(draft: &mut Draft, values: &[Value]) -> Result<Value, AllocError> {
    let value = draw_value(draft, values);
    if draft.slips(Slip::Divisor) {
        return Ok(value);
    }
    if draft.random.once_in(2) {
        return Ok(Value::Constant(draft.random.below(12).wrapping_add(1)));
    }
    operate(draft, Operation::Or, "", value, Value::Constant(1))
}

/// The second number of an operation.
fn draw_second(
    draft: &mut Draft,
    operation: Operation,
    values: &[Value],
) -> Result<Value, AllocError> {
    match operation {
        Operation::Shl => draw_amount(draft, values),
        Operation::Lshr => draw_amount(draft, values),
        Operation::Udiv => draw_divisor(draft, values),
        Operation::Urem => draw_divisor(draft, values),
        _ => Ok(draw_any(draft, values)),
    }
}

/// An operation on values.
fn step_operation(draft: &mut Draft, values: &[Value]) -> Result<Value, AllocError> {
    let operation = draw_operation(&mut draft.random);
    let a = draw_value(draft, values);
    let b = draw_second(draft, operation, values)?;
    let may_have = flags_of(operation);
    let flags = if !may_have.is_empty() && draft.slips(Slip::Flags) {
        may_have
    } else {
        ""
    };
    operate(draft, operation, flags, a, b)
}

/// A sum or product of small numbers, whose flags are met.
fn step_small(draft: &mut Draft, values: &[Value]) -> Result<Value, AllocError> {
    let is_sum = draft.random.once_in(2);
    let mask = Value::Constant(if is_sum { 63 } else { 7 });
    let operation = if is_sum {
        Operation::Add
    } else {
        Operation::Mul
    };
    let a = draw_value(draft, values);
    let b = draw_value(draft, values);
    let a = operate(draft, Operation::And, "", a, mask)?;
    let b = operate(draft, Operation::And, "", b, mask)?;
    operate(draft, operation, " nuw nsw", a, b)
}

/// One of two values, by a test.
fn step_select(draft: &mut Draft, values: &[Value]) -> Result<Value, AllocError> {
    let test = test(draft, values)?;
    let a = draw_any(draft, values);
    let b = draw_value(draft, values);
    choose(draft, test, a, b)
}

/// One of two values: the first where the test is true.
pub(crate) fn choose(
    draft: &mut Draft,
    test: Value,
    a: Value,
    b: Value,
) -> Result<Value, AllocError> {
    let alloc = draft.alloc;
    let width = draft.width;
    let by = Operand(test);
    let first = Operand(a);
    let second = Operand(b);
    let code = format!(in alloc; "select i1 {by}, i{width} {first}, i{width} {second}")?;
    let (a, b) = if draft.slips(Slip::Arms) {
        (b, a)
    } else {
        (a, b)
    };
    let by = Term(test, 1);
    let first = Term(a, width);
    let second = Term(b, width);
    let term = format!(in alloc; "If({by}, {first}, {second})")?;
    draft.define(code.as_str(), term.as_str())
}

/// A sum that stops at the greatest number.
fn step_saturate(draft: &mut Draft, values: &[Value]) -> Result<Value, AllocError> {
    let alloc = draft.alloc;
    let width = draft.width;
    let a = draw_value(draft, values);
    let b = draw_value(draft, values);
    let x = Operand(a);
    let y = Operand(b);
    let code = format!(in alloc;
        "call {{ i{width}, i1 }} @llvm.uadd.with.overflow.i{width}(i{width} {x}, i{width} {y})"
    )?;
    let pair = draft.compute(code.as_str())?;
    let pair = Operand(pair);
    let code = format!(in alloc; "extractvalue {{ i{width}, i1 }} {pair}, 0")?;
    let sum = term_of(alloc, Operation::Add, Term(a, width), Term(b, width))?;
    let sum = draft.define(code.as_str(), sum.as_str())?;
    let code = format!(in alloc; "extractvalue {{ i{width}, i1 }} {pair}, 1")?;
    let over = test_of(alloc, Predicate::Ult, Term(sum, width), Term(a, width))?;
    let over = draft.define(code.as_str(), over.as_str())?;
    let most = if width == 8 { 255 } else { 65_535 };
    choose(draft, over, Value::Constant(most), sum)
}

/// The low four bits, widened without or with their sign.
fn step_narrow(draft: &mut Draft, values: &[Value]) -> Result<Value, AllocError> {
    let alloc = draft.alloc;
    let width = draft.width;
    let value = draw_value(draft, values);
    let operand = Operand(value);
    let code = format!(in alloc; "trunc i{width} {operand} to i4")?;
    let term = Term(value, width);
    let term = format!(in alloc; "Extract(3, 0, {term})")?;
    let low = draft.define(code.as_str(), term.as_str())?;
    widen(draft, low, 4)
}

/// A value of a smaller width, widened without or with its sign.
pub(crate) fn widen(draft: &mut Draft, value: Value, from: u32) -> Result<Value, AllocError> {
    let alloc = draft.alloc;
    let width = draft.width;
    let more = width.saturating_sub(from);
    let (instruction, call) = if draft.random.once_in(3) {
        ("sext", "SignExt")
    } else {
        ("zext", "ZeroExt")
    };
    let operand = Operand(value);
    let code = format!(in alloc; "{instruction} i{from} {operand} to i{width}")?;
    let term = Term(value, from);
    let term = format!(in alloc; "{call}({more}, {term})")?;
    draft.define(code.as_str(), term.as_str())
}

/// A call of the kernel's helper, which is there for numbers of eight bits.
fn step_call(draft: &mut Draft, values: &[Value]) -> Result<Value, AllocError> {
    if draft.width != 8 {
        return step_small(draft, values);
    }
    let alloc = draft.alloc;
    let value = draw_value(draft, values);
    let operand = Operand(value);
    let code = format!(in alloc; "call i8 @mix(i8 {operand})")?;
    let first = Term(value, 8);
    let second = Term(value, 8);
    let term = format!(in alloc; "({first} ^ 85) + {second}")?;
    draft.define(code.as_str(), term.as_str())
}

/// The entry of a constant table at an index.
fn look_up(draft: &mut Draft, table: Table, index: Value) -> Result<Value, AllocError> {
    let alloc = draft.alloc;
    let operand = Operand(index);
    let code = format!(in alloc; "zext i8 {operand} to i64")?;
    let wide = Operand(draft.compute(code.as_str())?);
    let code = format!(in alloc; "getelementptr inbounds [4 x i8], ptr @tab, i64 0, i64 {wide}")?;
    let pointer = Operand(draft.compute(code.as_str())?);
    let code = format!(in alloc; "load i8, ptr {pointer}")?;
    let [first, second, third, fourth] = table;
    let at = Term(index, 8);
    let term = format!(in alloc;
        "If({at} == 0, BitVecVal({first}, 8), If({at} == 1, BitVecVal({second}, 8), If({at} == 2, BitVecVal({third}, 8), BitVecVal({fourth}, 8))))"
    )?;
    draft.define(code.as_str(), term.as_str())
}

/// A value below a count that is a power of two, to be an index.
pub(crate) fn draw_index(
    draft: &mut Draft,
    values: &[Value],
    count: u64,
) -> Result<Value, AllocError> {
    let value = draw_value(draft, values);
    if draft.slips(Slip::Index) {
        return Ok(value);
    }
    let mask = Value::Constant(count.saturating_sub(1));
    operate(draft, Operation::And, "", value, mask)
}

/// The entry of the constant table, where there is one, at an index.
pub(crate) fn step_table(
    draft: &mut Draft,
    values: &[Value],
    table: Option<Table>,
) -> Result<Value, AllocError> {
    match table {
        Some(table) => {
            let index = draw_index(draft, values, 4)?;
            look_up(draft, table, index)
        }
        None => step_operation(draft, values),
    }
}

/// A step on these values.
pub(crate) fn step(
    draft: &mut Draft,
    values: &[Value],
    table: Option<Table>,
) -> Result<Value, AllocError> {
    match draft.random.below(12) {
        0 => step_small(draft, values),
        1 => step_select(draft, values),
        2 => step_saturate(draft, values),
        3 => step_narrow(draft, values),
        4 => step_call(draft, values),
        5 => step_table(draft, values, table),
        _ => step_operation(draft, values),
    }
}

/// What the kernel compares with: a constant may be off by one.
fn draw_limit(draft: &mut Draft, value: Value) -> Value {
    match value {
        Value::Constant(number) => {
            if !draft.slips(Slip::Bound) {
                value
            } else if number == 255 {
                Value::Constant(254)
            } else {
                Value::Constant(number.wrapping_add(1))
            }
        }
        _ => value,
    }
}

/// A comparison of two values.
pub(crate) fn compare(
    draft: &mut Draft,
    predicate: Predicate,
    a: Value,
    b: Value,
) -> Result<Value, AllocError> {
    let alloc = draft.alloc;
    let width = draft.width;
    let word = word_of(predicate);
    let first = Operand(a);
    let with = draw_limit(draft, b);
    let second = Operand(with);
    let code = format!(in alloc; "icmp {word} i{width} {first}, {second}")?;
    let meant = if draft.slips(Slip::Predicate) {
        confused(predicate)
    } else {
        predicate
    };
    let term = test_of(alloc, meant, Term(a, width), Term(b, width))?;
    draft.define(code.as_str(), term.as_str())
}

/// A test of values.
pub(crate) fn test(draft: &mut Draft, values: &[Value]) -> Result<Value, AllocError> {
    let predicate = draw_predicate(&mut draft.random);
    let a = draw_value(draft, values);
    let other = draw_value(draft, values);
    let b = if other == a || !draft.random.once_in(3) {
        Value::Constant(draw_constant(draft))
    } else {
        other
    };
    compare(draft, predicate, a, b)
}

/// Whether two tests are both true.
pub(crate) fn both(draft: &mut Draft, a: Value, b: Value) -> Result<Value, AllocError> {
    let alloc = draft.alloc;
    let first = Operand(a);
    let second = Operand(b);
    let code = if draft.random.once_in(2) {
        format!(in alloc; "and i1 {first}, {second}")?
    } else {
        format!(in alloc; "select i1 {first}, i1 {second}, i1 false")?
    };
    let first = Term(a, 1);
    let second = Term(b, 1);
    let term = format!(in alloc; "And({first}, {second})")?;
    draft.define(code.as_str(), term.as_str())
}

/// A value that is below a bound, by what is done with this one.
pub(crate) fn clamp(draft: &mut Draft, value: Value, bound: u64) -> Result<Value, AllocError> {
    if draft.slips(Slip::Unclamped) {
        return Ok(value);
    }
    let bound = if draft.slips(Slip::Reached) {
        bound.wrapping_add(1)
    } else {
        bound
    };
    let most = Value::Constant(bound.saturating_sub(1));
    if draft.random.once_in(2) {
        return operate(draft, Operation::Urem, "", value, Value::Constant(bound));
    }
    let test = compare(draft, Predicate::Ult, value, Value::Constant(bound))?;
    choose(draft, test, value, most)
}
