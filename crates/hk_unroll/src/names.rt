//! The names of what is new.
//!
//! A new name begins with a colon, or, where a name of the function begins so, with the fewest slashes and a colon with which none does;
//! then come the turns of the copy and the places of its block and of its register, in decimal. So new names are short, and differ from
//! all others.

ghost use Rattle.std.specs.Prelude.{◌≡◌, ◌++◌, decimal, IfOk, OnOk};
ghost use Rattle.hk_unroll.specs.Names as definition;

use crate::copies::BlockCopy;
use ir_ast::Name;
use itoa::Buffer;
use std::alloc::{AllocError, Global};

/// Adds a number in decimal.
fn add_number(bytes: &mut Vec<u8>, number: u32) -> Result<(), AllocError>
    ensures { OnOk result (bytes.new.items ≡ bytes.old.items ++ decimal number) }
{
    let mut buffer = Buffer::new();
    bytes.extend_from_slice(buffer.format(number).as_bytes())?;
    Ok(())
}

/// So many slashes and a colon.
#[tactic(auto, using(crate::proofs::NameLaws::slashes_and_colon))]
fn prefix(alloc: Global, fresh: u32) -> Result<Vec<u8>, AllocError>
    ensures { IfOk result (λ bytes. bytes.items ≡ definition.prefix fresh) }
{
    let mut bytes = Vec::new(alloc);
    for _slash in 0..fresh {
        bytes.push(b'/')?;
    }
    bytes.push(b':')?;
    Ok(bytes)
}

/// `:K:B`, the name of a copy of a block behind one turn or more.
pub fn block_name(alloc: Global, fresh: u32, copy: BlockCopy) -> Result<Name, AllocError>
    ensures { IfOk result (λ name. name ≡ definition.block_name fresh copy) }
{
    let mut bytes = prefix(alloc, fresh)?;
    add_number(&mut bytes, copy.turns)?;
    bytes.push(b':')?;
    add_number(&mut bytes, copy.block)?;
    Ok(Name::new(bytes))
}

/// `:K:rR`, the name of a register that a copy of an instruction sets behind one turn or more.
pub fn register_name(
    alloc: Global,
    fresh: u32,
    turns: u32,
    register: u32,
) -> Result<Name, AllocError>
    ensures { IfOk result (λ name. name ≡ definition.register_name fresh turns register) }
{
    let mut bytes = prefix(alloc, fresh)?;
    add_number(&mut bytes, turns)?;
    bytes.extend_from_slice(b":r")?;
    add_number(&mut bytes, register)?;
    Ok(Name::new(bytes))
}

/// `:K:B:rR`, the name of the phi that is added to a copy for a register.
pub fn phi_name(
    alloc: Global,
    fresh: u32,
    copy: BlockCopy,
    register: u32,
) -> Result<Name, AllocError>
    ensures { IfOk result (λ name. name ≡ definition.phi_name fresh copy register) }
{
    let mut bytes = prefix(alloc, fresh)?;
    add_number(&mut bytes, copy.turns)?;
    bytes.push(b':')?;
    add_number(&mut bytes, copy.block)?;
    bytes.extend_from_slice(b":r")?;
    add_number(&mut bytes, register)?;
    Ok(Name::new(bytes))
}

/// `:e`, the name of the block to which a turn behind the last leads.
pub fn end_name(alloc: Global, fresh: u32) -> Result<Name, AllocError>
    ensures { IfOk result (λ name. name ≡ definition.end_name fresh) }
{
    let mut bytes = prefix(alloc, fresh)?;
    bytes.push(b'e')?;
    Ok(Name::new(bytes))
}
