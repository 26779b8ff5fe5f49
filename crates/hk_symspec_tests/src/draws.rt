//! Valuations that are drawn.

ghost use Rattle.hk_symmem.specs.Origins.{AreOriginsOf};

use crate::indices::FIRST_INDEX;
use crate::random::Random;
use crate::told::FIRST_ARRAY;
use hk_cells::CellReads;
use hk_term::Valuation;
use ir_layout::{KMemory, Layout};
use spec_tree::Spec;
use spec_value::{AbstractState, EntryList};
use std::alloc::{AllocError, Global};

/// How many arguments, and how many indices, are drawn.
const VARIABLES: u32 = 8;

/// Numbers for arguments and indices.
#[derive(Clone, Copy)]
pub struct Words {
    arguments: Random,
    indices: Random,
}

impl Words {
    pub fn new(random: &mut Random) -> Words {
        Words {
            arguments: Random::new(random.half()),
            indices: Random::new(random.half()),
        }
    }
}

/// Gives variables from an id on numbers of one kind.
fn set_variables(valuation: &mut Valuation, first: u32, random: Random) -> Result<(), AllocError> {
    let mut random = random;
    let kind = random.half() % 4;
    for place in 0..VARIABLES {
        let number = random.of_kind(kind);
        valuation.vars.set(first.saturating_add(place), number)?;
    }
    Ok(())
}

/// A valuation with numbers for arguments and indices.
fn with_words(alloc: Global, words: Words) -> Result<Valuation, AllocError> {
    let mut valuation = Valuation::new(alloc);
    set_variables(&mut valuation, 0, words.arguments)?;
    set_variables(&mut valuation, FIRST_INDEX, words.indices)?;
    Ok(valuation)
}

/// Gives so many entries of an array numbers of one kind, but for one entry, which may be any.
fn fill(
    valuation: &mut Valuation,
    array: u32,
    count: u64,
    random: &mut Random,
) -> Result<(), AllocError> {
    let kind = random.half() % 4;
    let other = random.half() % count.saturating_mul(2).max(1);
    for index in 0..count {
        let number = random.of_kind(if index == other { 0 } else { kind });
        valuation.arrays.set(array, index, number)?;
    }
    Ok(())
}

/// A valuation for terms over cells.
#[tactic(auto, using(hk_symmem::proofs::SourceLaws::origins_count))]
pub fn by_cells(
    alloc: Global,
    words: Words,
    layout: &Layout,
    reads: &CellReads,
    random: &mut Random,
) -> Result<Valuation, AllocError>
    requires { AreOriginsOf layout.now.objects reads.now }
{
    let mut valuation = with_words(alloc, words)?;
    for object in 0..layout.objects() {
        let size = layout.object_size(object);
        let cell = u64::from(reads.cell_size(object).unwrap_or(1).max(1));
        fill(&mut valuation, object, size / cell, random)?;
    }
    Ok(valuation)
}

/// Makes the entries of an array the bytes of an object.
fn fill_with(valuation: &mut Valuation, array: u32, bytes: &[u8]) -> Result<(), AllocError> {
    let mut index: u64 = 0;
    for byte in bytes {
        valuation.arrays.set(array, index, u64::from(*byte))?;
        index = index.saturating_add(1);
    }
    Ok(())
}

/// The valuation for terms over bytes that gives a memory.
pub fn by_bytes(alloc: Global, words: Words, memory: &KMemory) -> Result<Valuation, AllocError> {
    let mut valuation = with_words(alloc, words)?;
    let objects = memory.objects().min(u32::MAX as usize) as u32;
    for object in 0..objects {
        fill_with(&mut valuation, object, memory.bytes(object))?;
    }
    Ok(valuation)
}

/// A number with any bits above those of a width.
fn above(number: u64, width: u32, random: &mut Random) -> u64 {
    if width < 64 {
        number | (random.half() << width)
    } else {
        number
    }
}

/// Makes the entries of an array those of a field, modulo 2 to its width.
fn fill_field(
    valuation: &mut Valuation,
    array: u32,
    entries: &EntryList,
    width: u32,
    random: &mut Random,
) -> Result<(), AllocError> {
    let mut index: u64 = 0;
    for entry in entries.as_slice() {
        let number = above(*entry, width, random);
        valuation.arrays.set(array, index, number)?;
        index = index.saturating_add(1);
    }
    Ok(())
}

/// The valuation for terms over arrays that gives an abstract state, by the first arrays and by the later ones.
pub fn by_entries(
    alloc: Global,
    words: Words,
    spec: &Spec,
    state: &AbstractState,
    random: &mut Random,
) -> Result<Valuation, AllocError> {
    let mut valuation = with_words(alloc, words)?;
    let mut array: u32 = 0;
    for (field, entries) in spec.fields.as_slice().iter().zip(state.as_slice()) {
        let later = FIRST_ARRAY.saturating_add(array);
        fill_field(&mut valuation, array, entries, field.width, random)?;
        fill_field(&mut valuation, later, entries, field.width, random)?;
        array = array.saturating_add(1);
    }
    Ok(valuation)
}
