//! Random arguments and machine states, as numbers for a run and as valuations for terms.

ghost use Rattle.std.specs.Prelude.{◌≡◌, ◌<◌, length, IfOk};

use crate::random::Random;
use hk_term::Valuation;
use ir_layout::KMemory;
use std::alloc::{AllocError, Global};

/// The greatest number of a width.
fn greatest(width: u32) -> u64 {
    if width < 64 {
        (1u64 << width) - 1
    } else {
        u64::MAX
    }
}

/// Arguments of these widths.
pub fn arguments(
    alloc: Global,
    widths: &[u32],
    random: &mut Random,
) -> Result<Vec<u64>, AllocError> {
    let mut arguments = Vec::new(alloc);
    for width in widths {
        arguments.push(random.number() & greatest(*width))?;
    }
    Ok(arguments)
}

/// The valuation with these numbers for the variables.
pub fn with_numbers(alloc: Global, numbers: &[u64]) -> Result<Valuation, AllocError> {
    let mut valuation = Valuation::new(alloc);
    let mut id: u32 = 0;
    for number in numbers {
        valuation.vars.set(id, *number)?;
        id = id.saturating_add(1);
    }
    Ok(valuation)
}

/// Gives so many entries of an array numbers.
pub fn fill(
    valuation: &mut Valuation,
    array: u32,
    count: u64,
    random: &mut Random,
) -> Result<(), AllocError> {
    for index in 0..count {
        valuation.arrays.set(array, index, random.number())?;
    }
    Ok(())
}

/// Makes the entries of an array the bytes of an object.
fn fill_with(valuation: &mut Valuation, array: u32, bytes: &[u8]) -> Result<(), AllocError> {
    let mut index: u64 = 0;
    for byte in bytes {
        valuation.arrays.set(array, index, u64::from(*byte))?;
        index = index.saturating_add(1);
    }
    Ok(())
}

/// The valuation with these numbers for the variables, and with the bytes of each object for the entries of its array.
pub fn by_bytes(alloc: Global, numbers: &[u64], memory: &KMemory) -> Result<Valuation, AllocError> {
    let mut valuation = with_numbers(alloc, numbers)?;
    let objects = memory.objects().min(u32::MAX as usize) as u32;
    for object in 0..objects {
        fill_with(&mut valuation, object, memory.bytes(object))?;
    }
    Ok(valuation)
}
