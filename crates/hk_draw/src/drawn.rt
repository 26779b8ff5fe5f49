//! Whole texts of a drawn handler.

use crate::claims::{put_claims, put_class, put_equivalence};
use crate::draft::Draft;
use crate::forms::{Returns, body, draw_returns, type_of};
use crate::random::Random;
use crate::scene::{Scene, Shape, Table, draw_scene, globals_of, width_of};
use crate::slip::{Slip, draw_slip};
use std::alloc::{AllocError, Global};

/// The texts of a kernel and its specification.
#[derive(Drop)]
pub struct Texts {
    pub kernel: String,
    pub spec: String,
}

/// Widths of parameters beside nothing that can be changed.
const WIDTHS_ALONE: &[&[u32]] = &[
    &[8],
    &[4, 4],
    &[5, 4],
    &[8, 1],
    &[3, 3, 3],
    &[8, 2],
    &[6, 4],
    &[8, 3],
];

/// Widths of parameters beside a byte.
const WIDTHS_BESIDE: &[&[u32]] = &[
    &[],
    &[1],
    &[2],
    &[3],
    &[4],
    &[2, 2],
    &[1, 2],
    &[1, 1, 2],
    &[3, 1],
    &[4],
];

/// The widths of the parameters of a handler.
fn draw_widths(shape: Shape, random: &mut Random) -> &'static [u32] {
    let choices: &'static [&'static [u32]] = match shape {
        Shape::Nothing => WIDTHS_ALONE,
        Shape::Two | Shape::Pair | Shape::Array | Shape::Word | Shape::Part => return &[],
        _ => WIDTHS_BESIDE,
    };
    let place = random.below(choices.len() as u64) as usize;
    choices.get(place).copied().unwrap_or(&[])
}

/// The global of a constant table.
fn put_table(text: &mut String, alloc: Global, table: Table) -> Result<(), AllocError> {
    let [first, second, third, fourth] = table;
    let line = format!(in alloc;
        "@tab = constant [4 x i8] [ i8 {first}, i8 {second}, i8 {third}, i8 {fourth} ]\n"
    )?;
    text.push_str(line.as_str())
}

/// What stands before the handler in a kernel.
fn put_kernel_head(text: &mut String, alloc: Global, scene: &Scene) -> Result<(), AllocError> {
    text.push_str(globals_of(scene.shape))?;
    if let Some(table) = scene.table {
        put_table(text, alloc, table)?;
    }
    let width = width_of(scene.shape);
    let line = format!(in alloc;
        "declare {{ i{width}, i1 }} @llvm.uadd.with.overflow.i{width}(i{width}, i{width})\n"
    )?;
    text.push_str(line.as_str())?;
    text.push_str(
        "define i8 @mix(i8 %y) {\n  %r = xor i8 %y, 85\n  %s = add i8 %r, %y\n  ret i8 %s\n}\n",
    )
}

/// The parameters of the function.
fn parameter_list(alloc: Global, widths: &[u32]) -> Result<String, AllocError> {
    let mut text = String::new(alloc);
    let mut place: u32 = 0;
    for width in widths {
        let before = if place == 0 { "" } else { ", " };
        let parameter = format!(in alloc; "{before}i{width} %x{place}")?;
        text.push_str(parameter.as_str())?;
        place = place.saturating_add(1);
    }
    Ok(text)
}

/// The text of a kernel.
fn kernel_text(
    draft: &Draft,
    scene: &Scene,
    returns: Returns,
    widths: &[u32],
) -> Result<String, AllocError> {
    let alloc = draft.alloc;
    let mut text = String::new(alloc);
    put_kernel_head(&mut text, alloc, scene)?;
    let returned = type_of(alloc, returns, draft.width)?;
    let parameters = parameter_list(alloc, widths)?;
    let head = format!(in alloc; "define {returned} @h({parameters}) {{\n")?;
    text.push_str(head.as_str())?;
    text.push_str(draft.code.as_str())?;
    text.push_str("}\n")?;
    Ok(text)
}

/// The parameters of a transition behind its state.
fn put_parameters(text: &mut String, alloc: Global, widths: &[u32]) -> Result<(), AllocError> {
    let mut place: u32 = 0;
    for _ in widths {
        let parameter = format!(in alloc; ", x{place}")?;
        text.push_str(parameter.as_str())?;
        place = place.saturating_add(1);
    }
    Ok(())
}

/// Adds the transition.
fn put_transition(
    text: &mut String,
    draft: &Draft,
    shape: Shape,
    widths: &[u32],
    last: &str,
) -> Result<(), AllocError> {
    text.push_str("def h(state")?;
    put_parameters(text, draft.alloc, widths)?;
    text.push_str("):\n")?;
    if shape != Shape::Nothing {
        text.push_str("    new = state.copy()\n")?;
    }
    text.push_str(draft.lines.as_str())?;
    text.push_str(last)
}

/// The text of a specification.
fn spec_text(
    draft: &mut Draft,
    scene: &Scene,
    widths: &[u32],
    last: &str,
) -> Result<String, AllocError> {
    let alloc = draft.alloc;
    let mut text = String::new(alloc);
    if scene.shape != Shape::Nothing {
        put_class(&mut text, alloc, scene.shape)?;
        put_equivalence(&mut text, alloc, scene.shape)?;
        put_claims(&mut text, draft, scene)?;
    }
    put_transition(&mut text, draft, scene.shape, widths, last)?;
    Ok(text)
}

/// A drawn handler, and whether the slip found its place in it.
#[derive(Drop)]
struct Drawn {
    texts: Texts,
    is_done: bool,
}

/// Draws a handler with its specification, of which this is wrong where it has a place for it.
fn draw_with(
    alloc: Global,
    shape: Shape,
    slip: Slip,
    random: &mut Random,
) -> Result<Drawn, AllocError> {
    let scene = draw_scene(shape, random);
    let widths = draw_widths(shape, random);
    let mut draft = Draft::new(alloc, *random, slip, width_of(shape));
    let returns = draw_returns(&mut draft, shape);
    let last = body(&mut draft, &scene, returns, widths)?;
    let kernel = kernel_text(&draft, &scene, returns, widths)?;
    let spec = spec_text(&mut draft, &scene, widths, last.as_str())?;
    *random = draft.random;
    let is_done = draft.is_done();
    let texts = Texts { kernel, spec };
    Ok(Drawn { texts, is_done })
}

/// The most handlers that are drawn to find one that has a place for a slip.
const ATTEMPTS: u32 = 30;

/// Draws a handler with its specification, from a seed: the first that has a place for what is to be wrong.
pub fn draw(alloc: Global, shape: Shape, seed: u64) -> Result<Texts, AllocError> {
    let mut random = Random::new(seed);
    let slip = draw_slip(&mut random);
    for _ in 0..ATTEMPTS {
        let drawn = draw_with(alloc, shape, slip, &mut random)?;
        if drawn.is_done {
            return Ok(drawn.texts);
        }
    }
    let drawn = draw_with(alloc, shape, Slip::Nothing, &mut random)?;
    Ok(drawn.texts)
}
