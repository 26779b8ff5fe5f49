//! The parts of a specification that have numbers.

use spec_tree::Spec;
use std::alloc::{AllocError, Global};

/// A part of a specification that has a number under a valuation. All are known by their places.
#[derive(Clone, Copy, Debug)]
pub enum Part {
    Invariant(u32),
    Property(u32),
    /// The entries of a field.
    Field(u32),
    /// Whether a transition is valid.
    Valid(u32),
    /// The specified result of a transition.
    ResultOf(u32),
    /// The entries of a field behind a transition: the transition, the field.
    FieldBehind(u32, u32),
    /// A property behind a transition: the transition, the property.
    PropertyBehind(u32, u32),
}

/// How many parts of one kind are looked at: all, where there are fewer than 2^16.
fn some_of(count: usize) -> u32 {
    count.min(65_535) as u32
}

/// Puts the parts of a transition behind others.
fn push_transition(
    parts: &mut Vec<Part>,
    h: u32,
    fields: u32,
    properties: u32,
) -> Result<(), AllocError> {
    parts.push(Part::Valid(h))?;
    parts.push(Part::ResultOf(h))?;
    for f in 0..fields {
        parts.push(Part::FieldBehind(h, f))?;
    }
    for p in 0..properties {
        parts.push(Part::PropertyBehind(h, p))?;
    }
    Ok(())
}

/// The parts of a specification.
pub fn parts_of(alloc: Global, spec: &Spec) -> Result<Vec<Part>, AllocError> {
    let fields = some_of(spec.fields.as_slice().len());
    let properties = some_of(spec.properties.as_slice().len());
    let mut parts = Vec::new(alloc);
    for i in 0..some_of(spec.invariants.as_slice().len()) {
        parts.push(Part::Invariant(i))?;
    }
    for p in 0..properties {
        parts.push(Part::Property(p))?;
    }
    for f in 0..fields {
        parts.push(Part::Field(f))?;
    }
    for h in 0..some_of(spec.transitions.as_slice().len()) {
        push_transition(&mut parts, h, fields, properties)?;
    }
    Ok(parts)
}
