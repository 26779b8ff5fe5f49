//! Rows at variables, computed under valuations that give the variables these numbers. The expected values follow the LLVM Language
//! Reference.

ghost use Rattle.std.specs.Prelude.{◌≡◌, ℕ, ◌<◌, ◌≤◌, length, IfOk};
ghost use Rattle.hk_term.specs.Shape.{IsWidth, width};
ghost use Rattle.hk_symvalue.specs.Meaning.{IsMade, IsSym, IsTruth};

use hk_symvalue::{
    Stride, SymMade, SymValue, binary, compare_pointers, is_between, of_term, of_value, pair, step,
};
use hk_term::{Node, TermId, Terms, Valuation, ValueRoom};
use ir_ast::{BinaryKind, Flags, Predicate};
use ir_value::{PairKind, Value};
use std::alloc::{AllocError, Global};

const NONE: Flags = Flags {
    nuw: false,
    nsw: false,
    exact: false,
    disjoint: false,
    nneg: false,
    inbounds: false,
};

const NUW: Flags = Flags { nuw: true, ..NONE };

const NSW: Flags = Flags { nsw: true, ..NONE };

const EXACT: Flags = Flags {
    exact: true,
    ..NONE
};

const DISJOINT: Flags = Flags {
    disjoint: true,
    ..NONE
};

// The variable of an id, as a number of a width.
fn variable(t: &mut Terms, w: u32, id: u32) -> Result<SymValue, AllocError>
    requires { IsWidth w }
    ensures within { IfOk result (λ r. IsSym t.new r) }
    ensures keeps_widths { (k : ℕ) → k < length t.old → width t.new k ≡ width t.old k }
    ensures longer { length t.old ≤ length t.new }
{
    let term = t.intern(Node::Var { width: w, id })?;
    let made = of_term(t, term)?;
    Ok(made)
}

// The numbers of the variables 1 and 2.
fn valuation(alloc: Global, x: u64, y: u64) -> Result<Valuation, AllocError> {
    let mut v = Valuation::new(alloc);
    v.vars.set(1, x)?;
    v.vars.set(2, y)?;
    Ok(v)
}

fn number(alloc: Global, t: &Terms, v: &Valuation, a: TermId) -> Result<u64, AllocError>
    requires { a < length t.now }
{
    let mut room = ValueRoom::new(alloc, t)?;
    Ok(t.value_with(v, a, &mut room))
}

// What a row gives at the numbers of the variables 1 and 2: nothing where it sticks.
fn given(
    alloc: Global,
    t: &Terms,
    x: u64,
    y: u64,
    made: SymMade,
) -> Result<Option<Value>, AllocError>
    requires { IsMade t.now made }
{
    let v = valuation(alloc, x, y)?;
    given_under(alloc, t, &v, made.stuck, made.value)
}

// The same under a valuation.
fn given_under(
    alloc: Global,
    t: &Terms,
    v: &Valuation,
    stuck: TermId,
    value: SymValue,
) -> Result<Option<Value>, AllocError>
    requires stuck { IsTruth t.now stuck }
    requires value { IsSym t.now value }
{
    let stuck = number(alloc, t, v, stuck)?;
    let value = read(alloc, t, v, value)?;
    if stuck == 1 {
        Ok(None)
    } else {
        Ok(Some(value))
    }
}

// What a value is at the numbers of the variables 1 and 2.
fn read_at(alloc: Global, t: &Terms, x: u64, y: u64, value: SymValue) -> Result<Value, AllocError>
    requires { IsSym t.now value }
{
    let v = valuation(alloc, x, y)?;
    read_any(alloc, t, &v, value)
}

fn read(alloc: Global, t: &Terms, v: &Valuation, value: SymValue) -> Result<Value, AllocError>
    requires { IsSym t.now value }
{
    let poison = number(alloc, t, v, value.poison)?;
    let bits = number(alloc, t, v, value.bits)?;
    if poison == 1 {
        Ok(Value::Poison)
    } else {
        Ok(Value::Number(bits))
    }
}

// An operation on the variables 1 and 2.
fn operation_of(t: &mut Terms, kind: BinaryKind, flags: Flags) -> Result<SymMade, AllocError>
    ensures { IfOk result (λ r. IsMade t.new r) }
{
    let a = variable(t, 8, 1)?;
    let b = variable(t, 8, 2)?;
    let made = binary(t, flags, kind, 8, a, b)?;
    Ok(made)
}

fn operation(
    alloc: Global,
    kind: BinaryKind,
    flags: Flags,
    x: u64,
    y: u64,
) -> Result<Option<Value>, AllocError> {
    let mut t = Terms::new(alloc);
    let made = operation_of(&mut t, kind, flags)?;
    given(alloc, &t, x, y, made)
}

// An operation, its flags, two numbers, and what it gives: nothing where it sticks.
const OPERATIONS: [(BinaryKind, Flags, u64, u64, Option<Value>); 20] = [
    (BinaryKind::Add, NONE, 200, 100, Some(Value::Number(44))),
    (BinaryKind::Add, NUW, 200, 100, Some(Value::Poison)),
    (BinaryKind::Add, NSW, 100, 28, Some(Value::Poison)),
    (BinaryKind::Add, NSW, 100, 27, Some(Value::Number(127))),
    (BinaryKind::Sub, NSW, 128, 1, Some(Value::Poison)),
    (BinaryKind::Sub, NUW, 1, 2, Some(Value::Poison)),
    (BinaryKind::Mul, NSW, 16, 8, Some(Value::Poison)),
    (BinaryKind::Mul, NSW, 240, 8, Some(Value::Number(128))),
    (BinaryKind::Mul, NUW, 16, 16, Some(Value::Poison)),
    (BinaryKind::Shl, NONE, 1, 8, Some(Value::Poison)),
    (BinaryKind::Shl, NSW, 64, 1, Some(Value::Poison)),
    (BinaryKind::Lshr, EXACT, 3, 1, Some(Value::Poison)),
    (BinaryKind::Ashr, NONE, 128, 7, Some(Value::Number(255))),
    (BinaryKind::Udiv, NONE, 7, 0, None),
    (BinaryKind::Udiv, EXACT, 7, 2, Some(Value::Poison)),
    (BinaryKind::Sdiv, NONE, 128, 255, None),
    (BinaryKind::Sdiv, NONE, 249, 2, Some(Value::Number(253))),
    (BinaryKind::Srem, NONE, 249, 2, Some(Value::Number(255))),
    (BinaryKind::Or, DISJOINT, 3, 1, Some(Value::Poison)),
    (BinaryKind::Xor, NONE, 3, 1, Some(Value::Number(2))),
];

#[test]
fn operations_of_8_bits(rt: HostRuntime) -> Result<(), AllocError> {
    for &(kind, flags, x, y, answer) in &OPERATIONS {
        assert!(rt; operation(rt.alloc(), kind, flags, x, y)? == answer);
    }
    Ok(())
}

// A pair of the variables 1 and 2.
fn paired(t: &mut Terms, kind: PairKind) -> Result<SymValue, AllocError>
    ensures { IfOk result (λ r. IsSym t.new r) }
{
    let a = variable(t, 8, 1)?;
    let b = variable(t, 8, 2)?;
    let made = pair(t, kind, 8, a, b)?;
    Ok(made)
}

fn pair_of(alloc: Global, kind: PairKind, x: u64, y: u64) -> Result<Value, AllocError> {
    let mut t = Terms::new(alloc);
    let made = paired(&mut t, kind)?;
    read_at(alloc, &t, x, y, made)
}

// An operation, two numbers, and what it gives.
const PAIRS: [(PairKind, u64, u64, Value); 10] = [
    (PairKind::Umin, 200, 100, Value::Number(100)),
    (PairKind::Umax, 200, 100, Value::Number(200)),
    (PairKind::Smin, 200, 100, Value::Number(200)),
    (PairKind::Smax, 200, 100, Value::Number(100)),
    (PairKind::Abs, 251, 0, Value::Number(5)),
    (PairKind::Abs, 251, 1, Value::Number(5)),
    (PairKind::Abs, 5, 1, Value::Number(5)),
    (PairKind::Abs, 128, 0, Value::Number(128)),
    (PairKind::Abs, 128, 1, Value::Poison),
    (PairKind::Expect, 7, 9, Value::Number(7)),
];

#[test]
fn pairs_of_8_bits(rt: HostRuntime) -> Result<(), AllocError> {
    for &(kind, x, y, answer) in &PAIRS {
        assert!(rt; pair_of(rt.alloc(), kind, x, y)? == answer);
    }
    Ok(())
}

// Whether the variable 1 of 16 bits lies in a range of 8 bits.
fn lies_in(t: &mut Terms, low: u64, high: u64) -> Result<TermId, AllocError>
    ensures { IfOk result (λ r. r < length t.new) }
{
    let n = variable(t, 16, 1)?;
    let between = is_between(t, 8, low, high, n.bits)?;
    Ok(between)
}

// Whether a number of 16 bits lies in a range of 8 bits.
fn lies(alloc: Global, low: u64, high: u64, x: u64) -> Result<bool, AllocError> {
    let mut t = Terms::new(alloc);
    let between = lies_in(&mut t, low, high)?;
    is_true(alloc, &t, x, between)
}

// Whether a truth value is true at a number of the variable 1.
fn is_true(alloc: Global, t: &Terms, x: u64, a: TermId) -> Result<bool, AllocError>
    requires { a < length t.now }
{
    let v = valuation(alloc, x, 0)?;
    let truth = number(alloc, t, &v, a)?;
    Ok(truth == 1)
}

// The ends of a range, a number, and whether it lies in it.
const RANGES: [(u64, u64, u64, bool); 12] = [
    (10, 20, 9, false),
    (10, 20, 10, true),
    (10, 20, 19, true),
    (10, 20, 20, false),
    (250, 5, 249, false),
    (250, 5, 255, true),
    (250, 5, 4, true),
    (250, 5, 5, false),
    (250, 5, 256, false),
    (7, 7, 7, false),
    (0, 256, 3, false),
    (256, 5, 3, false),
];

#[test]
fn ranges_of_8_bits(rt: HostRuntime) -> Result<(), AllocError> {
    for &(low, high, x, answer) in &RANGES {
        assert!(rt; lies(rt.alloc(), low, high, x)? == answer);
    }
    Ok(())
}

// A comparison of pointers to objects whose sizes are the variables 1 and 2.
fn comparison(
    t: &mut Terms,
    predicate: Predicate,
    x: Value,
    y: Value,
) -> Result<SymMade, AllocError>
    ensures { IfOk result (λ r. IsMade t.new r) }
{
    let size_a = t.intern(Node::Var { width: 64, id: 1 })?;
    let size_b = t.intern(Node::Var { width: 64, id: 2 })?;
    let a = of_value(t, x)?;
    let b = of_value(t, y)?;
    let made = compare_pointers(t, predicate, size_a, size_b, a, b)?;
    Ok(made)
}

// Objects of 16 and 8 bytes. Nothing where the comparison sticks.
fn compared(
    alloc: Global,
    predicate: Predicate,
    x: Value,
    y: Value,
) -> Result<Option<Value>, AllocError> {
    let mut t = Terms::new(alloc);
    let made = comparison(&mut t, predicate, x, y)?;
    given(alloc, &t, 16, 8, made)
}

// An address in an object.
macro_rules! at {
    ($object:expr, $offset:expr) => {
        Value::Address {
            object: $object,
            offset: $offset,
        }
    };
}

const YES: Option<Value> = Some(Value::Number(1));

const NO: Option<Value> = Some(Value::Number(0));

// A predicate, two pointers, and whether it holds of them: nothing where it sticks.
const COMPARISONS: [(Predicate, Value, Value, Option<Value>); 18] = [
    (Predicate::Eq, Value::Null, Value::Null, YES),
    (Predicate::Ne, Value::Null, Value::Null, NO),
    (Predicate::Ult, Value::Null, Value::Null, None),
    (Predicate::Eq, Value::Null, at!(1, 8), NO),
    (Predicate::Ne, Value::Null, at!(1, 8), YES),
    (Predicate::Eq, Value::Null, at!(1, 9), None),
    (Predicate::Eq, at!(0, 16), Value::Null, NO),
    (Predicate::Eq, at!(0, 17), Value::Null, None),
    (Predicate::Ule, at!(0, 0), Value::Null, None),
    (Predicate::Eq, at!(0, 4), at!(0, 4), YES),
    (Predicate::Ne, at!(0, 40), at!(0, 4), YES),
    (Predicate::Eq, at!(0, 4), at!(1, 4), None),
    (Predicate::Ult, at!(0, 4), at!(0, 16), YES),
    (Predicate::Uge, at!(0, 4), at!(0, 16), NO),
    (Predicate::Ult, at!(0, 4), at!(0, 17), None),
    (Predicate::Ult, at!(0, 4), at!(1, 8), None),
    (
        Predicate::Eq,
        Value::Poison,
        at!(1, 40),
        Some(Value::Poison),
    ),
    (
        Predicate::Slt,
        Value::Null,
        Value::Poison,
        Some(Value::Poison),
    ),
];

#[test]
fn comparisons_of_pointers(rt: HostRuntime) -> Result<(), AllocError> {
    for &(predicate, x, y, answer) in &COMPARISONS {
        assert!(rt; compared(rt.alloc(), predicate, x, y)? == answer);
    }
    Ok(())
}

// A step by the variable 1 of 8 bits, in an object whose size is the variable 2.
fn step_of(t: &mut Terms, inbounds: bool, each: u64, from: Value) -> Result<SymValue, AllocError>
    ensures { IfOk result (λ r. IsSym t.new r) }
{
    let size = t.intern(Node::Var { width: 64, id: 2 })?;
    let i = variable(t, 8, 1)?;
    let a = of_value(t, from)?;
    let stride = Stride {
        nuw: false,
        inbounds,
        width: 8,
        each,
    };
    let made = step(t, stride, size, i, a)?;
    Ok(made)
}

// The address that an index of 8 bits steps to, in an object of 16 bytes.
fn stepped(
    alloc: Global,
    inbounds: bool,
    each: u64,
    index: u64,
    from: Value,
) -> Result<Value, AllocError> {
    let mut t = Terms::new(alloc);
    let made = step_of(&mut t, inbounds, each, from)?;
    read_at(alloc, &t, index, 16, made)
}

fn read_any(alloc: Global, t: &Terms, v: &Valuation, value: SymValue) -> Result<Value, AllocError>
    requires { IsSym t.now value }
{
    let poison = number(alloc, t, v, value.poison)?;
    let base = number(alloc, t, v, value.base)?;
    let bits = number(alloc, t, v, value.bits)?;
    if poison == 1 {
        Ok(Value::Poison)
    } else if base == 0 {
        Ok(Value::Number(bits))
    } else if base == 1 {
        Ok(Value::Null)
    } else {
        Ok(at!(((base - 2) % 4_294_967_296) as u32, bits))
    }
}

// Whether a step stays in bounds, the size of an element, an index, an address, and the one that it steps to.
const STEPS: [(bool, u64, u64, Value, Value); 15] = [
    (true, 4, 3, at!(0, 4), at!(0, 16)),
    (true, 4, 4, at!(0, 4), Value::Poison),
    (true, 4, 255, at!(0, 4), at!(0, 0)),
    (true, 4, 254, at!(0, 4), Value::Poison),
    (true, 1 << 63, 2, at!(0, 4), Value::Poison),
    (false, 1 << 63, 2, at!(0, 4), at!(0, 4)),
    (false, 4, 254, at!(0, 4), at!(0, u64::MAX - 3)),
    (false, 4, 128, at!(0, 4), at!(0, u64::MAX - 507)),
    (true, 0, 128, at!(0, 4), at!(0, 4)),
    (true, 4, 0, Value::Null, Value::Null),
    (true, 4, 1, Value::Null, Value::Poison),
    (false, 1 << 63, 2, Value::Null, Value::Null),
    (true, 1 << 63, 2, Value::Null, Value::Poison),
    (false, 4, 0, Value::Number(4), Value::Poison),
    (false, 4, 0, Value::Poison, Value::Poison),
];

#[test]
fn steps_of_8_bits(rt: HostRuntime) -> Result<(), AllocError> {
    for &(inbounds, each, index, from, answer) in &STEPS {
        assert!(rt; stepped(rt.alloc(), inbounds, each, index, from)? == answer);
    }
    Ok(())
}
