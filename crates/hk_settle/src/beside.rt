//! Instances beside those that a round found: where a quantifier or a read was violated again and again, its next instances come
//! in unasked, so that rounds grow fewer. Any instance keeps the clauses exact.

ghost use Rattle.std.specs.Prelude.{◌≡◌, ◌≤◌, length};
ghost use Rattle.hk_term.specs.Meaning.{Reading, value};
ghost use Rattle.hk_inst.specs.Adding.{Lengthened};

use hk_inst::{AddFault, Instance, InstanceList, Question, SizeList};
use std::alloc::{AllocError, Global};

/// Rounds before any instance comes in unasked.
const FIRST: u64 = 16;

/// Rounds after which twice as many come in.
const DOUBLING: u64 = 4;

/// How many instances on each side of a violated one come in after so many rounds.
pub(crate) fn reach_after(rounds: u64) -> u64 {
    if rounds < FIRST {
        return 0;
    }
    let doublings = (rounds - FIRST) / DOUBLING;
    if doublings < 16 {
        1 << doublings
    } else {
        1 << 16
    }
}

// A number so far above another one, or below it.
fn moved(number: u64, by: u64, up: bool) -> Option<u64> {
    if up {
        number.checked_add(by)
    } else {
        number.checked_sub(by)
    }
}

// The tuple with its last index moved.
fn moved_tuple(
    alloc: Global,
    indices: &[u64],
    by: u64,
    up: bool,
) -> Result<Option<SizeList>, AllocError> {
    let [front @ .., last] = indices else {
        return Ok(None);
    };
    let Some(next) = moved(*last, by, up) else {
        return Ok(None);
    };
    let mut items = Vec::new(alloc);
    items.extend_from_slice(front)?;
    items.push(next)?;
    Ok(Some(SizeList::from_vec(items)))
}

// The instance so far beside another one: of the same quantifier, with the last index moved, or of the same first read.
fn instance_beside(
    alloc: Global,
    instance: &Instance,
    by: u64,
    up: bool,
) -> Result<Option<Instance>, AllocError> {
    match instance {
        Instance::Pair { a, b } => match moved(*b, by, up) {
            Some(other) => Ok(Some(Instance::Pair { a: *a, b: other })),
            None => Ok(None),
        },
        Instance::Tuple {
            quantifier,
            indices,
        } => match moved_tuple(alloc, indices.as_slice(), by, up)? {
            Some(moved) => Ok(Some(Instance::Tuple {
                quantifier: *quantifier,
                indices: moved,
            })),
            None => Ok(None),
        },
    }
}

// Adds an instance that may name nothing, and then changes nothing.
fn offer(alloc: Global, question: &mut Question, instance: Instance) -> Result<(), AllocError>
    ensures front { Lengthened question.old question.new }
    ensures goal { (v : Reading) → value question.new.nodes question.new.goal v ≡ value question.old.nodes question.old.goal v }
{
    match question.add(alloc, instance) {
        Ok(()) => Ok(()),
        Err(AddFault::Memory) => Err(AllocError),
        Err(AddFault::NoSuch) => Ok(()),
    }
}

// Adds what is so far beside an instance, on one side.
fn offer_beside(
    alloc: Global,
    question: &mut Question,
    instance: &Instance,
    by: u64,
    up: bool,
) -> Result<(), AllocError>
    ensures front { Lengthened question.old question.new }
    ensures goal { (v : Reading) → value question.new.nodes question.new.goal v ≡ value question.old.nodes question.old.goal v }
{
    match instance_beside(alloc, instance, by, up)? {
        Some(other) => offer(alloc, question, other),
        None => Ok(()),
    }
}

// Adds what is beside an instance, as far as this on both sides.
fn offer_around(
    alloc: Global,
    question: &mut Question,
    instance: &Instance,
    reach: u64,
) -> Result<(), AllocError>
    ensures front { Lengthened question.old question.new }
    ensures goal { (v : Reading) → value question.new.nodes question.new.goal v ≡ value question.old.nodes question.old.goal v }
{
    for by in 0..reach {
        offer_beside(alloc, question, instance, by + 1, true)?;
        offer_beside(alloc, question, instance, by + 1, false)?;
    }
    Ok(())
}

/// Adds what is beside each of these instances, as far as this on both sides.
pub(crate) fn offer_all(
    alloc: Global,
    question: &mut Question,
    found: &InstanceList,
    reach: u64,
) -> Result<(), AllocError>
    ensures front { Lengthened question.old question.new }
    ensures goal { (v : Reading) → value question.new.nodes question.new.goal v ≡ value question.old.nodes question.old.goal v }
{
    for instance in found.as_slice() {
        offer_around(alloc, question, instance, reach)?;
    }
    Ok(())
}
