//! Which rules of layout the types that an item spells make it fall under.
//!
//! Items come in, with what is kept of the named types; what is noted of the types that they spell goes out. Each type that is
//! spelled is walked once.

ghost use Rattle.std.specs.Prelude.{◌≡◌, ◌<◌, ◌^◌, length, map, option_map};
ghost use Rattle.std.specs.List.{All};
ghost use Rattle.ir_ast.specs.View.{view_type, view_operand, view_gep, view_index_list, view_init, view_init_list};
ghost use Rattle.ir_ast.specs.ProgramView.{view_op, view_arms, view_typed};
ghost use Rattle.ir_layout.specs.Facts.{look_in, IsKept};
ghost use Rattle.ir_layout.specs.Noting as definition;

use crate::fact::Fact;
use crate::types::fact_in;
use ir_ast::{
    ArmList, Gep, IndexList, Init, InitList, IrType, Op, Operand, ParameterList, TypeTable,
    TypedList, TypedNumberList,
};

/// What is noted of the types of an item.
#[derive(Clone, Copy)]
pub struct Marks {
    /// One spells a name that stands for none.
    pub bad: bool,
    /// One, or a part that it spells, is over the limit of a type.
    pub large: bool,
}

/// Nothing is noted.
pub fn clear() -> Marks
    ensures { result ≡ definition.clear }
{
    Marks {
        bad: false,
        large: false,
    }
}

/// Notes a type.
pub fn note(types: &TypeTable, facts: &[Fact], marks: Marks, over: &IrType) -> Marks
    requires small { length types.now < 2 ^ 32 }
    requires kept { All IsKept facts.now }
    ensures { result ≡ definition.note (look_in types.now facts.now) marks (view_type over.now) }
{
    let fact = fact_in(types, facts, over);
    Marks {
        bad: marks.bad || fact.bad,
        large: marks.large || fact.large,
    }
}

/// Notes the types that an operand spells.
#[cycle(values)]
pub fn note_value(types: &TypeTable, facts: &[Fact], marks: Marks, value: &Operand) -> Marks
    requires small { length types.now < 2 ^ 32 }
    requires kept { All IsKept facts.now }
    ensures { result ≡ definition.note_value (look_in types.now facts.now) marks (view_operand value.now) }
{
    match value {
        Operand::Address(gep) => note_gep(types, facts, marks, gep),
        _ => marks,
    }
}

/// Notes the types of an address.
#[cycle(values)]
fn note_gep(types: &TypeTable, facts: &[Fact], marks: Marks, gep: &Gep) -> Marks
    requires small { length types.now < 2 ^ 32 }
    requires kept { All IsKept facts.now }
    ensures { result ≡ definition.note_form (look_in types.now facts.now) marks (view_gep gep.now) }
{
    let over = note(types, facts, marks, &gep.base_type);
    let base = note_value(types, facts, over, &gep.base);
    note_indices(types, facts, base, &gep.indices)
}

/// Notes the types of indices.
#[cycle(values)]
fn note_indices(types: &TypeTable, facts: &[Fact], marks: Marks, indices: &IndexList) -> Marks
    requires small { length types.now < 2 ^ 32 }
    requires kept { All IsKept facts.now }
    ensures { result ≡ definition.note_indices (look_in types.now facts.now) marks (view_index_list indices.now) }
{
    let items = indices.items.as_slice();
    let mut noted = marks;
    'each: for index in items {
        noted = note(types, facts, noted, &index.0);
        noted = note_value(types, facts, noted, &index.1);
    }
    noted
}

/// Notes the types that an initialiser spells.
#[cycle(inits)]
pub fn note_init(types: &TypeTable, facts: &[Fact], marks: Marks, init: &Init) -> Marks
    requires small { length types.now < 2 ^ 32 }
    requires kept { All IsKept facts.now }
    ensures { result ≡ definition.note_init (look_in types.now facts.now) marks (view_init init.now) }
{
    match init {
        Init::Array(parts) => note_inits(types, facts, marks, parts),
        Init::Struct(parts) => note_inits(types, facts, marks, parts),
        Init::Packed(parts) => note_inits(types, facts, marks, parts),
        _ => marks,
    }
}

/// Notes the types of the parts of an initialiser.
#[cycle(inits)]
fn note_inits(types: &TypeTable, facts: &[Fact], marks: Marks, parts: &InitList) -> Marks
    requires small { length types.now < 2 ^ 32 }
    requires kept { All IsKept facts.now }
    ensures { result ≡ definition.note_inits (look_in types.now facts.now) marks (view_init_list parts.now) }
{
    let items = parts.items.as_slice();
    let mut noted = marks;
    'each: for part in items {
        noted = note(types, facts, noted, &part.0);
        noted = note_init(types, facts, noted, &part.1);
    }
    noted
}

/// Notes the types of the arms of a phi. Its own type counts where it has an arm.
fn note_arms(
    types: &TypeTable,
    facts: &[Fact],
    marks: Marks,
    over: &IrType,
    arms: &ArmList,
) -> Marks
    requires small { length types.now < 2 ^ 32 }
    requires kept { All IsKept facts.now }
    ensures { result ≡ definition.note_arms (look_in types.now facts.now) marks (view_type over.now) (view_arms arms.now.items.items) }
{
    let items = arms.items.as_slice();
    if items.is_empty() {
        return marks;
    }
    let mut noted = note(types, facts, marks, over);
    for arm in items {
        noted = note_value(types, facts, noted, &arm.0);
    }
    noted
}

/// Notes the types of arguments.
fn note_typed(types: &TypeTable, facts: &[Fact], marks: Marks, arguments: &TypedList) -> Marks
    requires small { length types.now < 2 ^ 32 }
    requires kept { All IsKept facts.now }
    ensures { result ≡ definition.note_typed (look_in types.now facts.now) marks (view_typed arguments.now.items.items) }
{
    let items = arguments.items.as_slice();
    let mut noted = marks;
    for argument in items {
        noted = note(types, facts, noted, &argument.0);
        noted = note_value(types, facts, noted, &argument.1);
    }
    noted
}

/// Notes the types of an operand that may be absent.
fn note_given(types: &TypeTable, facts: &[Fact], marks: Marks, value: &Option<Operand>) -> Marks
    requires small { length types.now < 2 ^ 32 }
    requires kept { All IsKept facts.now }
    ensures { result ≡ definition.note_given (look_in types.now facts.now) marks (option_map view_operand value.now) }
{
    match value {
        Some(value) => note_value(types, facts, marks, value),
        None => marks,
    }
}

/// Notes the types of two operands.
fn note_two(types: &TypeTable, facts: &[Fact], marks: Marks, a: &Operand, b: &Operand) -> Marks
    requires small { length types.now < 2 ^ 32 }
    requires kept { All IsKept facts.now }
    ensures { result ≡ definition.note_value (look_in types.now facts.now) (definition.note_value (look_in types.now facts.now) marks (view_operand a.now)) (view_operand b.now) }
{
    let first = note_value(types, facts, marks, a);
    note_value(types, facts, first, b)
}

/// Notes the types that an instruction spells, each of them once.
pub fn note_op(types: &TypeTable, facts: &[Fact], marks: Marks, op: &Op) -> Marks
    requires small { length types.now < 2 ^ 32 }
    requires kept { All IsKept facts.now }
    ensures { result ≡ definition.note_act (look_in types.now facts.now) marks (view_op op.now) }
{
    match op {
        Op::Binary { a, b, .. } => note_two(types, facts, marks, a, b),
        Op::Compare { over, a, b, .. } => {
            note_two(types, facts, note(types, facts, marks, over), a, b)
        }
        Op::Select {
            condition,
            over,
            a,
            b,
        } => {
            let noted = note_value(types, facts, marks, condition);
            note_two(types, facts, note(types, facts, noted, over), a, b)
        }
        Op::Convert { a, .. } => note_value(types, facts, marks, a),
        Op::Freeze { over, a } => { note_value(types, facts, note(types, facts, marks, over), a) }
        Op::Phi { over, arms } => note_arms(types, facts, marks, over, arms),
        Op::Slot { over, .. } => note(types, facts, marks, over),
        Op::Load { over, address, .. } => {
            note_value(types, facts, note(types, facts, marks, over), address)
        }
        Op::Store {
            over,
            value,
            address,
            ..
        } => note_two(
            types,
            facts,
            note(types, facts, marks, over),
            value,
            address,
        ),
        Op::Offset(gep) => note_gep(types, facts, marks, gep),
        Op::Call {
            result,
            arguments,
            ..
        } => note_typed(types, facts, note(types, facts, marks, result), arguments),
        Op::Extract { from, .. } => note_value(types, facts, marks, from),
        Op::Goto { .. } => marks,
        Op::Branch { condition, .. } => note_value(types, facts, marks, condition),
        Op::Switch { on, .. } => note_value(types, facts, marks, on),
        Op::Return { over, value } => {
            note_given(types, facts, note(types, facts, marks, over), value)
        }
        Op::Unreachable => marks,
    }
}

/// Notes the types of parameters.
pub fn note_parameters(
    types: &TypeTable,
    facts: &[Fact],
    marks: Marks,
    parameters: &ParameterList,
) -> Marks
    requires small { length types.now < 2 ^ 32 }
    requires kept { All IsKept facts.now }
    ensures { result ≡ definition.note_all (look_in types.now facts.now) marks (map (λ p. view_type p.0) parameters.now.items.items) }
{
    let items = parameters.items.as_slice();
    let mut noted = marks;
    for parameter in items {
        noted = note(types, facts, noted, &parameter.0);
    }
    noted
}

/// Notes the types of the numbers of a range.
pub fn note_numbers(
    types: &TypeTable,
    facts: &[Fact],
    marks: Marks,
    numbers: &TypedNumberList,
) -> Marks
    requires small { length types.now < 2 ^ 32 }
    requires kept { All IsKept facts.now }
    ensures { result ≡ definition.note_all (look_in types.now facts.now) marks (map (λ n. view_type n.0) numbers.now.items.items) }
{
    let items = numbers.items.as_slice();
    let mut noted = marks;
    for number in items {
        noted = note(types, facts, noted, &number.0);
    }
    noted
}
