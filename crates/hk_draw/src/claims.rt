//! The equivalence, invariants and properties of a specification.

use crate::draft::Draft;
use crate::random::Random;
use crate::scene::{Scene, Shape, cell_width, fields_of, map_size, numbers_of, path_of};
use crate::slip::Slip;
use std::alloc::{AllocError, Global};

/// The sorts, constants and fields of a specification.
pub(crate) fn put_class(text: &mut String, alloc: Global, shape: Shape) -> Result<(), AllocError> {
    let width = cell_width(shape);
    if let Some(size) = map_size(shape) {
        let sort = format!(in alloc;
            "I = Index(8, {size})\nclass S:\n    a = Map(I, Bits({width}))\n"
        )?;
        return text.push_str(sort.as_str());
    }
    text.push_str("class S:\n")?;
    for field in fields_of(shape) {
        let line = format!(in alloc; "    {field} = Bits({width})\n")?;
        text.push_str(line.as_str())?;
    }
    if shape == Shape::Flagged {
        text.push_str("    z = Bits(1)\n")?;
    }
    Ok(())
}

/// The equations of the fields, separated by commas.
fn equations(alloc: Global, shape: Shape) -> Result<String, AllocError> {
    let mut text = String::new(alloc);
    for field in fields_of(shape) {
        if !text.is_empty() {
            text.push_str(", ")?;
        }
        let path = path_of(alloc, shape, field)?;
        let line = if map_size(shape).is_some() {
            format!(in alloc; "ForAll([p], state.{field}(p) == {path})")?
        } else {
            format!(in alloc; "state.{field} == {path}")?
        };
        text.push_str(line.as_str())?;
    }
    if shape == Shape::Flagged {
        text.push_str(", state.z == If(kernel.a == 0, BitVecVal(1, 1), BitVecVal(0, 1))")?;
    }
    Ok(text)
}

/// The equivalence function.
pub(crate) fn put_equivalence(
    text: &mut String,
    alloc: Global,
    shape: Shape,
) -> Result<(), AllocError> {
    text.push_str("def equiv(kernel, state):\n")?;
    if map_size(shape).is_some() {
        text.push_str("    p = Var(I)\n")?;
    }
    let equations = equations(alloc, shape)?;
    let line = format!(in alloc; "    return And({equations})\n")?;
    text.push_str(line.as_str())
}

/// That a number is below a bound of at least 1.
fn below(alloc: Global, number: &str, bound: u64, form: u64) -> Result<String, AllocError> {
    let most = bound.saturating_sub(1);
    match form {
        0 => format!(in alloc; "ULT({number}, {bound})"),
        1 => format!(in alloc; "ULE({number}, {most})"),
        2 => format!(in alloc; "Not(UGT({number}, {most}))"),
        _ => format!(in alloc; "Or({number} == {most}, ULT({number}, {most}))"),
    }
}

/// That a claim about the number at the index `p` is true of all indices.
fn of_all(alloc: Global, claim: &str, form: u64) -> Result<String, AllocError> {
    match form {
        0 => format!(in alloc; "ForAll([p], {claim})"),
        1 => format!(in alloc; "Not(Exists([p], Not({claim})))"),
        _ => format!(in alloc; "And(ForAll([p], {claim}), Exists([p], {claim}))"),
    }
}

/// The number of a field, in the kernel or in the abstract state.
fn number_of(
    alloc: Global,
    shape: Shape,
    field: &str,
    is_kernel: bool,
) -> Result<String, AllocError> {
    if is_kernel {
        path_of(alloc, shape, field)
    } else if map_size(shape).is_some() {
        format!(in alloc; "state.{field}(p)")
    } else {
        format!(in alloc; "state.{field}")
    }
}

/// A claim about the number of a field, or where it is a map about all of them.
fn about(
    alloc: Global,
    shape: Shape,
    claim: &str,
    random: &mut Random,
) -> Result<String, AllocError> {
    if map_size(shape).is_some() {
        of_all(alloc, claim, random.below(3))
    } else {
        String::from_str(alloc, claim)
    }
}

/// That the numbers of a field are below a bound.
fn bounded(
    alloc: Global,
    shape: Shape,
    field: &str,
    is_kernel: bool,
    bound: u64,
    random: &mut Random,
) -> Result<String, AllocError> {
    let number = number_of(alloc, shape, field, is_kernel)?;
    // a bound that the width cannot spell is written as the greatest number
    let greatest = cell_width(shape) < 8 && bound >= numbers_of(cell_width(shape));
    let form = if greatest { 1 } else { random.below(4) };
    let claim = below(alloc, number.as_str(), bound, form)?;
    about(alloc, shape, claim.as_str(), random)
}

/// Claims about all fields, separated by commas.
fn all_bounded(
    alloc: Global,
    shape: Shape,
    is_kernel: bool,
    bound: u64,
    random: &mut Random,
) -> Result<String, AllocError> {
    let mut text = String::new(alloc);
    for field in fields_of(shape) {
        if !text.is_empty() {
            text.push_str(", ")?;
        }
        let claim = bounded(alloc, shape, field, is_kernel, bound, random)?;
        text.push_str(claim.as_str())?;
    }
    Ok(text)
}

/// A function that returns a claim.
fn put_function(
    text: &mut String,
    alloc: Global,
    shape: Shape,
    head: &str,
    claim: &str,
) -> Result<(), AllocError> {
    let head = format!(in alloc; "def {head}:\n")?;
    text.push_str(head.as_str())?;
    if map_size(shape).is_some() {
        text.push_str("    p = Var(I)\n")?;
    }
    let line = format!(in alloc; "    return {claim}\n")?;
    text.push_str(line.as_str())
}

/// An invariant that all numbers are below the bound.
fn put_bound(
    text: &mut String,
    draft: &mut Draft,
    shape: Shape,
    bound: u64,
) -> Result<(), AllocError> {
    let alloc = draft.alloc;
    let claims = all_bounded(alloc, shape, true, bound, &mut draft.random)?;
    let claim = format!(in alloc; "And({claims})")?;
    put_function(text, alloc, shape, "inv_bound(kernel)", claim.as_str())
}

/// A property that all numbers are below the bound, or below a smaller one.
fn put_bound_property(
    text: &mut String,
    draft: &mut Draft,
    shape: Shape,
    bound: u64,
) -> Result<(), AllocError> {
    let alloc = draft.alloc;
    let kept = if bound > 1 && draft.slips(Slip::Property) {
        bound.saturating_sub(1)
    } else {
        bound
    };
    let claims = all_bounded(alloc, shape, false, kept, &mut draft.random)?;
    let claim = format!(in alloc; "And({claims})")?;
    put_function(text, alloc, shape, "prop_bound(state)", claim.as_str())
}

/// The invariant and the property of the bound, or one of them.
fn put_bounds(
    text: &mut String,
    draft: &mut Draft,
    shape: Shape,
    bound: u64,
) -> Result<(), AllocError> {
    let choice = draft.random.below(3);
    if choice != 0 {
        put_bound(text, draft, shape, bound)?;
    }
    if choice != 1 {
        put_bound_property(text, draft, shape, bound)?;
    }
    Ok(())
}

/// That a number of a field, or each of them, is not a certain one.
fn put_other(
    text: &mut String,
    alloc: Global,
    shape: Shape,
    is_kernel: bool,
    random: &mut Random,
) -> Result<(), AllocError> {
    let field = fields_of(shape).first().copied().unwrap_or("a");
    let number = number_of(alloc, shape, field, is_kernel)?;
    let other = random.below(numbers_of(cell_width(shape)));
    let claim = format!(in alloc; "{number} != {other}")?;
    let claim = about(alloc, shape, claim.as_str(), random)?;
    let head = if is_kernel {
        "inv_other(kernel)"
    } else {
        "prop_other(state)"
    };
    put_function(text, alloc, shape, head, claim.as_str())
}

/// The invariants and properties.
pub(crate) fn put_claims(
    text: &mut String,
    draft: &mut Draft,
    scene: &Scene,
) -> Result<(), AllocError> {
    let alloc = draft.alloc;
    let shape = scene.shape;
    if let Some(bound) = scene.bound {
        put_bounds(text, draft, shape, bound)?;
    }
    if draft.random.once_in(10) {
        put_other(text, alloc, shape, true, &mut draft.random)?;
    }
    if draft.random.once_in(10) {
        put_other(text, alloc, shape, false, &mut draft.random)?;
    }
    Ok(())
}
