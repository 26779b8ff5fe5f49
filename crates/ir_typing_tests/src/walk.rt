//! What the calls under test answer of a text: of its function `f`, of its global `g`, of the first two operands of a phi.

ghost use Rattle.std.specs.Prelude.{◌<◌, ◌^◌, length};
ghost use Rattle.ir_ast.specs.ProgramView.{view_entries, view_type_entry};
ghost use Rattle.ir_ast.specs.Small.{IsSmall};
ghost use Rattle.ir_whole.specs.Numbers.{IsFor};
ghost use Rattle.ir_typing.specs.Scoped.{IsTyped};

use crate::notes::keeps_notes;
use ir_ast::{Block, Function, Instr, KernelStop, Module, Name, Op, TypeTable};
use ir_read::*;
use ir_typing::{
    Scope, global_fits, head_fits, instr_fits, is_known, is_pointer_access, same_value,
};
use ir_whole::TypeNumbers;
use std::alloc::{AllocError, Global};

/// What was found of some instructions.
#[derive(Clone, Copy)]
pub struct Found {
    /// Each name that they use is known.
    pub known: bool,
    /// Each of them takes its operands and types.
    pub fits: bool,
    /// None of them reads or writes a pointer outside a slot.
    pub plain: bool,
}

fn look_at(
    alloc: Global,
    numbers: &mut TypeNumbers,
    kernel: &Module,
    scope: &Scope,
    phis: bool,
    instr: &Instr,
) -> Result<Found, AllocError>
    requires typed { IsTyped numbers.old scope.now }
    requires small { IsSmall kernel.now }
    ensures typed { IsTyped numbers.new scope.now }
{
    if !keeps_notes(&instr.op) {
        return Err(AllocError);
    }
    let known = is_known(kernel, scope, &instr.op);
    let fits = instr_fits(alloc, numbers, kernel, scope, phis, instr)?;
    let plain = !is_pointer_access(alloc, numbers, scope, &instr.op)?;
    Ok(Found { known, fits, plain })
}

fn look_in_block(
    alloc: Global,
    numbers: &mut TypeNumbers,
    kernel: &Module,
    scope: &Scope,
    block: &Block,
) -> Result<Found, AllocError>
    requires typed { IsTyped numbers.old scope.now }
    requires small { IsSmall kernel.now }
    ensures typed { IsTyped numbers.new scope.now }
{
    let instrs = block.instrs.items.as_slice();
    let mut known = true;
    let mut fits = true;
    let mut plain = true;
    let mut phis = true;
    'each: for instr in instrs {
        let found = look_at(alloc, numbers, kernel, scope, phis, instr)?;
        known = known && found.known;
        fits = fits && found.fits;
        plain = plain && found.plain;
        phis = phis && matches!(instr.op, Op::Phi { .. });
    }
    Ok(Found { known, fits, plain })
}

fn look_in_blocks(
    alloc: Global,
    numbers: &mut TypeNumbers,
    kernel: &Module,
    scope: &Scope,
    blocks: &[Block],
) -> Result<Found, AllocError>
    requires typed { IsTyped numbers.old scope.now }
    requires small { IsSmall kernel.now }
{
    let mut known = true;
    let mut fits = true;
    let mut plain = true;
    'each: for block in blocks {
        let found = look_in_block(alloc, numbers, kernel, scope, block)?;
        known = known && found.known;
        fits = fits && found.fits;
        plain = plain && found.plain;
    }
    Ok(Found { known, fits, plain })
}

fn look_in_function(
    alloc: Global,
    numbers: &mut TypeNumbers,
    kernel: &Module,
    function: &Function,
) -> Result<Found, AllocError>
    requires own { IsFor (view_entries view_type_entry kernel.now.types) numbers.old }
    requires small { IsSmall kernel.now }
{
    let scope = Scope::of(alloc, numbers, &kernel.types, function)?;
    match &function.body {
        Some(body) => look_in_blocks(alloc, numbers, kernel, &scope, body.items.as_slice()),
        None => Err(AllocError),
    }
}

/// What is found of the function `f` of a text.
pub fn look(alloc: Global, text: &[u8]) -> Result<Found, KernelStop>
    requires { length text.now < 2 ^ 31 }
{
    let kernel = read_module(alloc, text)?;
    let mut numbers = TypeNumbers::of(alloc, &kernel.types)?;
    let name = Name::copy_of(alloc, b"f")?;
    match kernel.functions.get(&name) {
        Some(place) => {
            let function = kernel.functions.at(place);
            Ok(look_in_function(alloc, &mut numbers, &kernel, function)?)
        }
        None => Err(KernelStop::Memory),
    }
}

/// The text of a function `f` with these parameters that begins with these instructions, behind these items.
pub fn function_text(
    alloc: Global,
    items: &[u8],
    parameters: &[u8],
    instrs: &[u8],
) -> Result<Vec<u8>, AllocError> {
    let mut text = Vec::new(alloc);
    text.extend_from_slice(items)?;
    text.extend_from_slice(b"\ndefine void @f(")?;
    text.extend_from_slice(parameters)?;
    text.extend_from_slice(b") {\n")?;
    text.extend_from_slice(instrs)?;
    text.extend_from_slice(b"\nret void\n}\n")?;
    Ok(text)
}

/// Whether the head of the function `f` of a text fits.
pub fn head(alloc: Global, text: &[u8]) -> Result<bool, KernelStop>
    requires { length text.now < 2 ^ 31 }
{
    let kernel = read_module(alloc, text)?;
    let mut numbers = TypeNumbers::of(alloc, &kernel.types)?;
    let name = Name::copy_of(alloc, b"f")?;
    match kernel.functions.get(&name) {
        Some(place) => {
            let function = kernel.functions.at(place);
            Ok(head_fits(alloc, &mut numbers, &kernel.types, function)?)
        }
        None => Err(KernelStop::Memory),
    }
}

/// Whether the global `g` of a text fits.
pub fn global(alloc: Global, text: &[u8]) -> Result<bool, KernelStop>
    requires { length text.now < 2 ^ 31 }
{
    let kernel = read_module(alloc, text)?;
    let mut numbers = TypeNumbers::of(alloc, &kernel.types)?;
    let name = Name::copy_of(alloc, b"g")?;
    match kernel.globals.get(&name) {
        Some(place) => {
            let global = kernel.globals.at(place);
            Ok(global_fits(alloc, &mut numbers, &kernel.types, global)?)
        }
        None => Err(KernelStop::Memory),
    }
}

/// Whether the operands of the two arms of a phi are the same.
fn same_arms(
    alloc: Global,
    numbers: &mut TypeNumbers,
    types: &TypeTable,
    op: &Op,
) -> Result<bool, AllocError>
    requires small { length types.now < 2 ^ 32 }
    requires own { IsFor (view_entries view_type_entry types.now) numbers.old }
{
    match op {
        Op::Phi { over, arms } => match arms.items.as_slice() {
            [first, second] => same_value(alloc, numbers, types, over, &first.0, &second.0),
            _ => Err(AllocError),
        },
        _ => Err(AllocError),
    }
}

fn same_in_function(
    alloc: Global,
    numbers: &mut TypeNumbers,
    types: &TypeTable,
    function: &Function,
) -> Result<bool, AllocError>
    requires small { length types.now < 2 ^ 32 }
    requires own { IsFor (view_entries view_type_entry types.now) numbers.old }
{
    let Some(body) = &function.body else {
        return Err(AllocError);
    };
    let [block, ..] = body.items.as_slice() else {
        return Err(AllocError);
    };
    match block.instrs.items.as_slice() {
        [instr, ..] => same_arms(alloc, numbers, types, &instr.op),
        _ => Err(AllocError),
    }
}

/// Whether the operands of the two arms of the phi that the function `f` of a text begins with are the same.
pub fn same(alloc: Global, text: &[u8]) -> Result<bool, KernelStop>
    requires { length text.now < 2 ^ 31 }
{
    let kernel = read_module(alloc, text)?;
    let mut numbers = TypeNumbers::of(alloc, &kernel.types)?;
    let name = Name::copy_of(alloc, b"f")?;
    match kernel.functions.get(&name) {
        Some(place) => {
            let function = kernel.functions.at(place);
            Ok(same_in_function(alloc, &mut numbers, &kernel.types, function)?)
        }
        None => Err(KernelStop::Memory),
    }
}
