//! Instances as rows write them: `pair A B` of two reads, and `tuple Q I ..` of a quantifier.

use hk_inst::{Instance, InstanceList, Question, SizeList};
use hk_term_rows::long;
use std::alloc::{AllocError, Global};

/// Adds instances. It is told whether each was accepted.
pub fn add_all(
    alloc: Global,
    question: &mut Question,
    found: &InstanceList,
) -> Result<bool, AllocError> {
    for instance in found.as_slice() {
        let copy = instance.copy(alloc)?;
        if question.add(alloc, copy).is_err() {
            return Ok(false);
        }
    }
    Ok(true)
}

/// The tuple of a quantifier that words write.
fn tuple_of(alloc: Global, words: &[&str]) -> Result<Option<Instance>, AllocError> {
    let [first, rest @ ..] = words else {
        return Ok(None);
    };
    let Some(quantifier) = long(first) else {
        return Ok(None);
    };
    let mut indices = Vec::new(alloc);
    for word in rest {
        match long(word) {
            Some(index) => indices.push(index)?,
            None => return Ok(None),
        }
    }
    let indices = SizeList::from_vec(indices);
    Ok(Some(Instance::Tuple {
        quantifier,
        indices,
    }))
}

/// The instance that a text writes.
pub fn instance_of(alloc: Global, text: &str) -> Result<Option<Instance>, AllocError> {
    let mut words = Vec::new(alloc);
    for word in text.split_whitespace() {
        words.push(word)?;
    }
    match words.as_slice() {
        ["pair", a, b] => match (long(a), long(b)) {
            (Some(a), Some(b)) => Ok(Some(Instance::Pair { a, b })),
            _ => Ok(None),
        },
        ["tuple", rest @ ..] => tuple_of(alloc, rest),
        _ => Ok(None),
    }
}

/// The text of an instance.
fn instance_text(alloc: Global, instance: &Instance) -> Result<String, AllocError> {
    match instance {
        Instance::Pair { a, b } => format!(in alloc; "pair {a} {b}"),
        Instance::Tuple {
            quantifier,
            indices,
        } => {
            let mut text = format!(in alloc; "tuple {quantifier}")?;
            for index in indices.as_slice() {
                let word = format!(in alloc; " {index}")?;
                text.push_str(word.as_str())?;
            }
            Ok(text)
        }
    }
}

/// The texts of instances, with `; ` between.
pub fn instances_text(alloc: Global, instances: &InstanceList) -> Result<String, AllocError> {
    let mut text = String::new(alloc);
    for instance in instances.as_slice() {
        if !text.is_empty() {
            text.push_str("; ")?;
        }
        let each = instance_text(alloc, instance)?;
        text.push_str(each.as_str())?;
    }
    Ok(text)
}
