//! What is told of a specification: a line for each of its parts.

ghost use Rattle.ir_ast.specs.ProgramView.{view_module};
ghost use Rattle.spec_kernel.specs.Fit.{FitsModule};
ghost use Rattle.spec_tree.specs.Sorted.{IsWellSorted};
ghost use Rattle.spec_tree.specs.View.{view_spec};

use crate::compared::Looked;
use crate::parts::Part;
use crate::trials::tried;
use hk_inputs::Inputs;
use spec_ast::Name;
use spec_tree::{Named, Spec};
use std::alloc::{AllocError, Global};
use std::str;

/// A name as text.
fn text_of(name: &Name) -> &str {
    str::from_utf8(name.as_bytes()).unwrap_or("?")
}

/// The name at a place.
fn name_at(named: &[Named], place: u32) -> &str {
    match named.get(place as usize) {
        Some(named) => text_of(&named.name),
        None => "?",
    }
}

/// The name of a field.
fn field_name(spec: &Spec, f: u32) -> &str {
    match spec.fields.as_slice().get(f as usize) {
        Some(field) => text_of(&field.name),
        None => "?",
    }
}

/// The name of a transition.
fn transition_name(spec: &Spec, h: u32) -> &str {
    match spec.transitions.as_slice().get(h as usize) {
        Some(transition) => text_of(&transition.name),
        None => "?",
    }
}

/// What a part is called.
fn title_of(alloc: Global, spec: &Spec, part: Part) -> Result<String, AllocError> {
    let properties = spec.properties.as_slice();
    match part {
        Part::Invariant(i) => {
            let name = name_at(spec.invariants.as_slice(), i);
            format!(in alloc; "invariant {name}")
        }
        Part::Property(p) => format!(in alloc; "property {}", name_at(properties, p)),
        Part::Field(f) => format!(in alloc; "field {}", field_name(spec, f)),
        Part::Valid(h) => format!(in alloc; "{} valid", transition_name(spec, h)),
        Part::ResultOf(h) => format!(in alloc; "{} result", transition_name(spec, h)),
        Part::FieldBehind(h, f) => {
            let field = field_name(spec, f);
            format!(in alloc; "{} field {field}", transition_name(spec, h))
        }
        Part::PropertyBehind(h, p) => {
            let property = name_at(properties, p);
            format!(in alloc; "{} property {property}", transition_name(spec, h))
        }
    }
}

/// How many terms a part has, and of how many nodes.
fn sizes_of(looked: &Looked) -> (u64, u64) {
    let mut terms: u64 = 0;
    let mut nodes: u64 = 0;
    for telling in &looked.tellings {
        if telling.term.is_some() {
            terms = terms.saturating_add(1);
            nodes = nodes.saturating_add(telling.terms.len());
        }
    }
    (terms, nodes)
}

/// The line of a part.
fn line_of(alloc: Global, spec: &Spec, looked: &Looked) -> Result<String, AllocError> {
    let title = title_of(alloc, spec, looked.part)?;
    let (terms, nodes) = sizes_of(looked);
    let counts = looked.counts;
    format!(in alloc;
        "  {title}: {terms} terms in {nodes} nodes, {} values, {} differ, {} are not 0\n",
        counts.values, counts.differ, counts.more
    )
}

/// A line for each part of a specification, compared over so many machine states, and one for all of them.
pub fn lines_of(alloc: Global, inputs: &Inputs, times: u64) -> Result<String, AllocError>
    requires sorted { IsWellSorted (view_spec inputs.now.spec) }
    requires fits { FitsModule (view_module inputs.now.kernel) (view_spec inputs.now.spec) }
{
    let looked = tried(alloc, inputs, times)?;
    let mut text = String::new(alloc);
    let mut differ: u64 = 0;
    for part in &looked {
        let line = line_of(alloc, &inputs.spec, part)?;
        text.push_str(line.as_str())?;
        differ = differ.saturating_add(part.counts.differ);
    }
    let all = format!(in alloc;
        "  {} parts at {times} valuations: {differ} differ\n",
        looked.len()
    )?;
    text.push_str(all.as_str())?;
    Ok(text)
}
