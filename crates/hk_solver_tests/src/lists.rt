//! Clause lists: how a field writes one, and what reading, writing, cutting and an assignment come to.

use crate::pigeons::pigeons_text;
use crate::row::{add_text, text_of};
use hk_cnf::{Assignment, ClauseList, CnfStop, read_dimacs, satisfies, write_dimacs};
use std::alloc::{AllocError, Global};

/// The clause file that a field writes.
pub(crate) fn file_of(alloc: Global, field: &str) -> Result<Vec<u8>, AllocError> {
    match field.strip_prefix("pigeons ") {
        Some(sizes) => pigeons_text(alloc, sizes),
        None => text_of(alloc, field),
    }
}

/// The list of a clause file, if it is no long one.
pub(crate) fn list_of(alloc: Global, file: &[u8]) -> Result<ClauseList, CnfStop> {
    if file.len() >= 1_000_000 {
        return Err(CnfStop::Memory);
    }
    read_dimacs(alloc, file)
}

/// The list as numbers: its variables, and its clauses with a 0 behind each.
pub(crate) fn numbers(alloc: Global, list: &ClauseList) -> Result<String, AllocError> {
    let vars = list.vars();
    let mut told = format!(in alloc; "{vars}")?;
    for i in 0..list.len() {
        for lit in list.clause(i) {
            let number = lit.number();
            write!(told, " {number}")?;
        }
        told.push_str(" 0")?;
    }
    Ok(told)
}

/// The list as it is written.
pub(crate) fn written(alloc: Global, list: &ClauseList) -> Result<String, AllocError> {
    let text = write_dimacs(alloc, list)?;
    let mut told = String::new(alloc);
    add_text(&mut told, &text)?;
    Ok(told)
}

/// The list's first clauses as numbers.
pub(crate) fn first_clauses(
    alloc: Global,
    mut list: ClauseList,
    count: &str,
) -> Result<String, AllocError> {
    match count.parse::<usize>() {
        Ok(count) if count <= list.len() => {
            list.cut(list.vars(), count);
            numbers(alloc, &list)
        }
        _ => String::from_str(alloc, "not so many"),
    }
}

/// Whether these truth values satisfy the list.
pub(crate) fn satisfied(
    alloc: Global,
    list: &ClauseList,
    values: &str,
) -> Result<String, AllocError> {
    let values: Vec<bool> = values.split(' ').map(|word| word == "true").collect(alloc)?;
    if values.len() as u64 != list.vars() {
        return String::from_str(alloc, "not so many");
    }
    let holds = satisfies(list, &Assignment::new(values));
    String::from_str(alloc, if holds { "yes" } else { "no" })
}
