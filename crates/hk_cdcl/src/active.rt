//! Which learned clauses stay when a segment of the search ends: the shortest ones, and those that hints of late rows name
//! most, for their length.
//!
//! Nothing rests on this choice but speed, so no contract speaks of it.

use crate::search::Search;
use hk_lrat::LratRow;
use std::alloc::{AllocError, Global};

/// What a row's own clause and each of its hints counts.
const USE: u64 = 1 << 20;

/// The most literals of a clause that always stays.
const SHORT: usize = 2;

/// A learned clause that stays.
#[derive(Clone, Copy)]
pub struct Kept {
    /// Its row in the log, counted from 0.
    pub row: usize,
    /// How much it was used of late.
    activity: u64,
}

/// Adds to the count of a clause.
fn count(counts: &mut [u64], place: usize, by: u64) {
    if place < counts.len() {
        counts[place] = counts[place].saturating_add(by);
    }
}

/// Counts the learned clauses that the row names. Given ones, which stay in any case, have no count.
fn count_hints(counts: &mut [u64], given: usize, row: &LratRow, by: u64) {
    if let LratRow::Add { hints, .. } = row {
        for hint in hints.as_slice() {
            if let Some(place) = (*hint as usize).checked_sub(given.saturating_add(1)) {
                count(counts, place, by);
            }
        }
    }
}

/// For each learned clause of the segment's list, in order, how much it was used of late: half of what was known before it, and
/// what its rows tell. A row at the end weighs twice as much as one at the front.
fn activities(
    alloc: Global,
    active: &Search,
    given: usize,
    kept: &[Kept],
) -> Result<Vec<u64>, AllocError> {
    let mut counts = vec![in alloc; 0; active.clauses.len().saturating_sub(given)]?;
    let rows = active.log.as_slice();
    count_kept(counts.as_mut_slice(), kept);
    count_rows(counts.as_mut_slice(), given, rows);
    Ok(counts)
}

/// Counts half of what was known of the first learned clauses.
fn count_kept(counts: &mut [u64], kept: &[Kept]) {
    for i in 0..kept.len() {
        count(counts, i, kept[i].activity / 2);
    }
}

/// Counts the learned clauses that the rows name, and the rows' own clauses, which stand last.
fn count_rows(counts: &mut [u64], given: usize, rows: &[LratRow]) {
    let first = counts.len().saturating_sub(rows.len());
    let step = USE / (rows.len() as u64).saturating_add(1);
    let mut by = USE;
    for i in 0..rows.len() {
        count_hints(counts, given, &rows[i], by);
        count(counts, first.saturating_add(i), by);
        by = by.saturating_add(step);
    }
}

/// The value at a place, or 0.
fn value_at(values: &[u64], place: usize) -> u64 {
    if place < values.len() {
        values[place]
    } else {
        0
    }
}

/// How late a clause goes: the smaller, the later. Short ones stay.
fn rank(len: usize, activity: u64) -> u64 {
    if len <= SHORT {
        return 0;
    }
    u64::MAX - activity / len as u64
}

/// Which learned clauses stay, as many as there is room for, counted from the first one, in order.
fn best(
    alloc: Global,
    active: &Search,
    activities: &[u64],
    given: usize,
    room: usize,
) -> Result<Vec<usize>, AllocError> {
    let mut ranks = Vec::new(alloc);
    for place in given..active.clauses.len() {
        let row = place - given;
        let len = active.clauses.clause(place).len();
        ranks.push((rank(len, value_at(activities, row)), row))?;
    }
    ranks.sort_unstable();
    ranks.truncate(room);
    rows_of(alloc, ranks.as_slice())
}

/// The rows, in order.
fn rows_of(alloc: Global, ranks: &[(u64, usize)]) -> Result<Vec<usize>, AllocError> {
    let mut rows = Vec::new(alloc);
    for ranked in ranks {
        rows.push(ranked.1)?;
    }
    rows.sort_unstable();
    Ok(rows)
}

/// The learned clauses of a search that stay, as many as there is room for, by their rows in its log, in order, where its list has
/// these rows' clauses behind the given ones.
pub fn choose(
    alloc: Global,
    search: &Search,
    given: usize,
    kept: &[Kept],
    room: usize,
) -> Result<Vec<Kept>, AllocError> {
    let activities = activities(alloc, search, given, kept)?;
    let rows = best(alloc, search, activities.as_slice(), given, room)?;
    let mut stay = Vec::new(alloc);
    for row in rows.as_slice() {
        stay.push(Kept {
            row: *row,
            activity: value_at(activities.as_slice(), *row),
        })?;
    }
    Ok(stay)
}

/// The same clauses by their rows in the log of the whole list, where the names of a part's ids are these.
pub fn renamed(
    alloc: Global,
    kept: &[Kept],
    names: &[u64],
    given: usize,
) -> Result<Vec<Kept>, AllocError> {
    let mut renamed = Vec::new(alloc);
    for clause in kept {
        let id = clause.row.saturating_add(given).saturating_add(1);
        let name = value_at(names, id) as usize;
        renamed.push(Kept {
            row: name.saturating_sub(given).saturating_sub(1),
            activity: clause.activity,
        })?;
    }
    Ok(renamed)
}
