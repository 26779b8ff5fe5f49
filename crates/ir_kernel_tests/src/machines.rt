//! Runs of a small program of two functions that is built by hand, so that frames may have registers that no kernel gives them.

use crate::runs::end_text;
use crate::words::{PLAIN, long, short};
use hk_seq::Seq;
use ir_ast::BinaryKind;
use ir_code::{Act, Arm, Base, Block, Code, Input, Object, Program, Step};
use ir_layout::{KMemory, ObjectBytes};
use ir_machine::{Frame, Frames, Held, Machine, run};
use ir_value::Value;
use std::alloc::{AllocError, Global};

fn register(alloc: Global, place: u32) -> Input {
    Input {
        base: Base::Register(place),
        moves: Seq::new(alloc),
    }
}

fn constant(alloc: Global, value: Value) -> Input {
    Input {
        base: Base::Constant(value),
        moves: Seq::new(alloc),
    }
}

fn number(alloc: Global, n: u64) -> Input {
    constant(alloc, Value::Number(n))
}

/// Adds a step.
fn put(steps: &mut Seq<Step>, line: u32, place: Option<u32>, act: Act) -> Result<(), AllocError> {
    steps.push(Step {
        line,
        result: place,
        act,
    })
}

/// Adds the sum of two values of 8 bits.
fn put_sum(
    steps: &mut Seq<Step>,
    line: u32,
    place: u32,
    a: Input,
    b: Input,
) -> Result<(), AllocError> {
    let act = Act::Binary {
        kind: BinaryKind::Add,
        flags: PLAIN,
        width: 8,
        a,
        b,
    };
    put(steps, line, Some(place), act)
}

/// Adds the return of a register.
fn put_return(
    alloc: Global,
    steps: &mut Seq<Step>,
    line: u32,
    place: u32,
) -> Result<(), AllocError> {
    let value = Some(register(alloc, place));
    put(steps, line, None, Act::Return { value })
}

/// The arms of a phi: a number from block 0 and a register from block 1.
fn arms(alloc: Global, n: u64, place: u32) -> Result<Seq<Arm>, AllocError> {
    let mut arms = Seq::new(alloc);
    arms.push(Arm {
        input: number(alloc, n),
        from: 0,
    })?;
    arms.push(Arm {
        input: register(alloc, place),
        from: 1,
    })?;
    Ok(arms)
}

/// Adds a phi of a number from block 0 and a register from block 1.
fn put_phi(
    alloc: Global,
    steps: &mut Seq<Step>,
    line: u32,
    place: u32,
    n: u64,
    from: u32,
) -> Result<(), AllocError> {
    let arms = arms(alloc, n, from)?;
    put(steps, line, Some(place), Act::Phi { arms })
}

/// Block 0 adds 1 and goes to block 1 where the parameter is 1, else to block 2.
fn first_block(alloc: Global) -> Result<Block, AllocError> {
    let mut steps = Seq::new(alloc);
    put_sum(&mut steps, 2, 1, register(alloc, 0), number(alloc, 1))?;
    let branch = Act::Branch {
        condition: register(alloc, 0),
        yes: 1,
        no: 2,
    };
    put(&mut steps, 3, None, branch)?;
    Ok(Block { steps })
}

/// Block 1 adds 1 again and goes to block 2.
fn second_block(alloc: Global) -> Result<Block, AllocError> {
    let mut steps = Seq::new(alloc);
    put_sum(&mut steps, 5, 2, register(alloc, 1), number(alloc, 1))?;
    put(&mut steps, 6, None, Act::Goto { block: 2 })?;
    Ok(Block { steps })
}

/// Block 2 has two phis, which take registers 2 and 1 along the edge from block 1, and returns their sum.
fn put_joined(alloc: Global, steps: &mut Seq<Step>) -> Result<(), AllocError> {
    put_phi(alloc, steps, 8, 3, 100, 2)?;
    put_phi(alloc, steps, 9, 4, 7, 1)?;
    put_sum(steps, 10, 5, register(alloc, 3), register(alloc, 4))?;
    put_return(alloc, steps, 11, 5)
}

fn last_block(alloc: Global) -> Result<Block, AllocError> {
    let mut steps = Seq::new(alloc);
    put_joined(alloc, &mut steps)?;
    Ok(Block { steps })
}

/// Adds the three blocks of a function of a parameter.
fn put_blocks(alloc: Global, blocks: &mut Seq<Block>) -> Result<(), AllocError> {
    blocks.push(first_block(alloc)?)?;
    blocks.push(second_block(alloc)?)?;
    blocks.push(last_block(alloc)?)
}

/// A function of a parameter that goes along one edge or the other.
fn chooser(alloc: Global) -> Result<Code, AllocError> {
    let mut blocks = Seq::new(alloc);
    put_blocks(alloc, &mut blocks)?;
    Ok(Code {
        parameters: 1,
        registers: 6,
        blocks,
    })
}

/// Adds a store of the parameter at a byte of object 0, and a load of it.
fn put_accesses(alloc: Global, steps: &mut Seq<Step>, at: u64) -> Result<(), AllocError> {
    let place = Value::Address {
        object: 0,
        offset: at,
    };
    let store = Act::Store {
        bytes: 1,
        align: 1,
        value: register(alloc, 0),
        address: constant(alloc, place),
    };
    put(steps, 20, None, store)?;
    let load = Act::Load {
        width: 8,
        bytes: 1,
        align: 1,
        spans: None,
        address: constant(alloc, place),
    };
    put(steps, 21, Some(1), load)
}

/// Adds a call of function 0 with register 1, and its return.
fn put_call(alloc: Global, steps: &mut Seq<Step>) -> Result<(), AllocError> {
    let mut arguments = Seq::new(alloc);
    arguments.push(register(alloc, 1))?;
    let call = Act::Call {
        function: 0,
        arguments,
    };
    put(steps, 22, Some(2), call)?;
    put_return(alloc, steps, 23, 2)
}

fn only_block(alloc: Global, at: u64) -> Result<Block, AllocError> {
    let mut steps = Seq::new(alloc);
    put_accesses(alloc, &mut steps, at)?;
    put_call(alloc, &mut steps)?;
    Ok(Block { steps })
}

/// A function that stores its parameter at byte `at` of object 0, loads it, and hands it to function 0.
fn storer(alloc: Global, at: u64) -> Result<Code, AllocError> {
    let mut blocks = Seq::new(alloc);
    blocks.push(only_block(alloc, at)?)?;
    Ok(Code {
        parameters: 1,
        registers: 3,
        blocks,
    })
}

fn functions(alloc: Global, at: u64) -> Result<Seq<Code>, AllocError> {
    let mut functions = Seq::new(alloc);
    functions.push(chooser(alloc)?)?;
    functions.push(storer(alloc, at)?)?;
    Ok(functions)
}

fn objects(alloc: Global) -> Result<Seq<Object>, AllocError> {
    let mut objects = Seq::new(alloc);
    objects.push(Object {
        constant: false,
        align: 1,
    })?;
    Ok(objects)
}

fn program(alloc: Global, at: u64) -> Result<Program, AllocError> {
    let objects = objects(alloc)?;
    Ok(Program {
        functions: functions(alloc, at)?,
        objects,
    })
}

fn memory(alloc: Global) -> Result<KMemory, AllocError> {
    let mut objects = Vec::new(alloc);
    objects.push(ObjectBytes::new(Vec::from_slice(alloc, &[5, 6, 7, 8])?))?;
    Ok(KMemory::new(objects))
}

/// A register with a number, and so many that are not set.
fn registers(alloc: Global, argument: u64, unset: u32) -> Result<Seq<Option<Held>>, AllocError> {
    let mut registers = Seq::new(alloc);
    registers.push(Some(Held::Value(Value::Number(argument))))?;
    for _ in 0..unset {
        registers.push(None)?;
    }
    Ok(registers)
}

fn started(alloc: Global, function: u32, argument: u64, unset: u32) -> Result<Machine, AllocError> {
    let memory = memory(alloc)?;
    Ok(Machine {
        top: Frame {
            function,
            from: 0,
            block: 0,
            position: 0,
            registers: registers(alloc, argument, unset)?,
        },
        below: Frames::new(alloc),
        memory,
    })
}

/// How a run of so many steps ends, of a function of the program that stores at byte `at`, from a frame with an argument and so many
/// registers that are not set.
fn run_at(
    alloc: Global,
    at: u64,
    function: u32,
    argument: u64,
    unset: u32,
    steps: u32,
) -> Result<String, AllocError> {
    let program = program(alloc, at)?;
    let machine = started(alloc, function, argument, unset)?;
    let end = run(alloc, &program, steps, machine)?;
    end_text(alloc, &end, 2)
}

/// The numbers of a row: byte, function, argument, registers and steps.
fn numbers(fields: &[&str]) -> Option<(u64, u32, u64, u32, u32)> {
    match fields {
        ["machine", at, function, argument, unset, steps] => Some((
            long(at)?,
            short(function)?,
            long(argument)?,
            short(unset)?,
            short(steps)?,
        )),
        _ => None,
    }
}

/// The answer to a row over runs of the program.
pub fn machine_answer(alloc: Global, fields: &[&str]) -> Result<Option<String>, AllocError> {
    match numbers(fields) {
        Some((at, function, argument, unset, steps)) => {
            Ok(Some(run_at(alloc, at, function, argument, unset, steps)?))
        }
        None => Ok(None),
    }
}
