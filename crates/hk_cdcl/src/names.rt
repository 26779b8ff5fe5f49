//! Names: which clause of a whole list each clause of a part of it is. What is learned over the part is learned over the
//! whole list, with the ids renamed.

ghost use Rattle.std.specs.Prelude.{◌≡◌, ◌+◌, ◌<◌, ◌≤◌, ◌++◌, ◌∷◌, [], length, map, take, slice_index_or, IfOk, OnOk};
ghost use Rattle.hk_cdcl.specs.Names.{named, AreNames, IsFront, IsPart, ids_of};
ghost use Rattle.hk_cdcl.specs.Forgetting.{IsDerived, Learns};
ghost use Rattle.hk_cdcl.specs.Searching.{with_clause};
ghost use Rattle.hk_cdcl.specs.States.{Closes};

use crate::active::Kept;
use crate::search::{Search, add_row, next_id};
use hk_cnf::ClauseList;
use hk_lrat::{IdList, LitList, LratRow};
use std::alloc::{AllocError, Global};

/// Some clauses of a list. The name of an id of theirs is the clause's id in the whole list; that of 0 is 0.
#[derive(Drop)]
pub struct Part {
    /// The clauses.
    pub clauses: ClauseList,
    /// The name of each id.
    pub names: Vec<u64>,
}

/// Adds the clause at a place of the whole list.
fn add_place(part: &mut Part, whole: &ClauseList, place: usize) -> Result<(), AllocError>
    requires inside { place < length whole.now.clauses }
    requires vars { part.old.clauses.vars ≡ whole.now.vars }
    ensures clauses { OnOk result (part.new.clauses ≡ with_clause part.old.clauses (slice_index_or whole.now.clauses place [])) }
    ensures names { OnOk result (part.new.names.items ≡ part.old.names.items ++ (place + 1) ∷ []) }
{
    // For the proof: the number of clauses fits 64 bits.
    let _few = whole.len();
    part.clauses.push(whole.clause(place))?;
    part.names.push(place as u64 + 1)?;
    Ok(())
}

/// The first clauses of the list.
fn front_of(alloc: Global, whole: &ClauseList, given: usize) -> Result<Part, AllocError>
    requires { given ≤ length whole.now.clauses }
    ensures { IfOk result (IsFront given whole.now) }
{
    let clauses = ClauseList::new(alloc, whole.vars());
    let mut names = Vec::new(alloc);
    names.push(0)?;
    let mut part = Part { clauses, names };
    for place in 0..given {
        add_place(&mut part, whole, place)?;
    }
    Ok(part)
}

/// Adds the clause of a row that stays, where the list has it.
fn add_kept(part: &mut Part, whole: &ClauseList, given: usize, row: usize) -> Result<(), AllocError>
    requires inside { given ≤ length whole.now.clauses }
    requires part { IsPart given whole.now part.old }
    ensures { OnOk result (IsPart given whole.now part.new) }
{
    if whole.len() - given <= row {
        return Ok(());
    }
    add_place(part, whole, given + row)?;
    Ok(())
}

/// The first clauses of the list, and those of the rows that stay.
pub fn part_of(
    alloc: Global,
    whole: &ClauseList,
    given: usize,
    kept: &[Kept],
) -> Result<Part, AllocError>
    requires { given ≤ length whole.now.clauses }
    ensures { IfOk result (IsPart given whole.now) }
{
    let mut part = front_of(alloc, whole, given)?;
    for clause in kept {
        add_kept(&mut part, whole, given, clause.row)?;
    }
    Ok(part)
}

/// The name of an id, or 0 where it has none.
fn name_of(names: &[u64], id: u64) -> u64
    ensures { result ≡ named names.now id }
{
    if id < names.len() as u64 {
        names[id as usize]
    } else {
        0
    }
}

/// The names of the ids.
fn names_of(alloc: Global, names: &[u64], ids: &[u64]) -> Result<IdList, AllocError>
    ensures { IfOk result (λ r. r ≡ map (named names.now) ids.now) }
{
    let mut named = Vec::with_capacity(alloc, ids.len())?;
    for id in ids {
        named.push(name_of(names, *id))?;
    }
    Ok(IdList::from_vec(named))
}

/// The hints of an addition, or the ids of a deletion.
fn ids_of(row: &LratRow) -> &[u64]
    ensures { result.now ≡ ids_of row.now }
{
    match row {
        LratRow::Add { hints, .. } => hints.as_slice(),
        LratRow::Delete { ids } => ids.as_slice(),
    }
}

/// Adds to the whole list the clause that the row adds at a place of the part, and names it.
pub fn learn_named(
    alloc: Global,
    whole: &mut Search,
    part: &ClauseList,
    names: &mut Vec<u64>,
    place: usize,
    row: &LratRow,
) -> Result<(), AllocError>
    requires vars { part.now.vars ≡ whole.old.clauses.vars }
    requires inside { place < length part.now.clauses }
    requires derived { IsDerived part.now.clauses place row.now }
    requires names { AreNames (take place part.now.clauses) whole.old.clauses.clauses names.old.items }
    ensures learns { Learns whole.old whole.new }
    ensures names { OnOk result (AreNames (take (place + 1) part.now.clauses) whole.new.clauses.clauses names.new.items) }
{
    let hints = names_of(alloc, names.as_slice(), ids_of(row))?;
    let clause = Vec::from_slice(alloc, part.clause(place))?;
    add_row(&mut whole.clauses, &mut whole.log, clause, hints)?;
    names.push(whole.clauses.len() as u64)?;
    Ok(())
}

/// The row that adds the empty clause to the part, for the whole list.
pub fn close_named(
    alloc: Global,
    whole: &mut Search,
    part: &Search,
    names: &[u64],
    row: &LratRow,
) -> Result<LratRow, AllocError>
    requires closes { Closes part.now row.now }
    requires names { AreNames part.now.clauses.clauses whole.old.clauses.clauses names.now }
    ensures clauses { whole.new.clauses ≡ whole.old.clauses }
    ensures log { whole.new.log ≡ whole.old.log }
    ensures closes { IfOk result (Closes whole.old) }
{
    let hints = names_of(alloc, names, ids_of(row))?;
    let id = next_id(&mut whole.clauses)?;
    Ok(LratRow::Add {
        id,
        clause: LitList::new(alloc),
        hints,
    })
}
