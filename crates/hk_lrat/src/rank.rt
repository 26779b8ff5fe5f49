//! A clause list and a log over the ranks of the variables that occur, so that what is kept of each variable costs no more than
//! the texts, however large the numbers in them are.

ghost use Rattle.std.specs.Prelude.{◌≡◌, ◌<◌, ◌+◌, ◌^◌, suc, pos, negsuc, if◌then◌else◌, length, map, IfOk, IfSome, IsTrue};
ghost use Rattle.std.specs.List.{All};
ghost use Rattle.hk_cnf.specs.Literal.{IsLiteral, IsWithin};
ghost use Rattle.hk_lrat.specs.Log.{log_fault};
ghost use Rattle.hk_lrat.specs.Ranks.{AreRising, AreSplit, literal_at, place_at, renamed_row};
ghost use Rattle.hk_lrat.specs.declared.log.LratRow.TheVariants.{Add};

use crate::log::{IdList, LitList, LratLog, LratRow};
use hk_cnf::{ClauseList, Lit};
use std::alloc::{AllocError, Global};

/// No rank is so great.
const MOST: u64 = 1 << 62;

/// How many literals a row has.
fn literals_in(row: &LratRow) -> usize {
    match row {
        LratRow::Add { clause, .. } => clause.as_slice().len(),
        LratRow::Delete { .. } => 0,
    }
}

/// How many literals a list has.
fn literals_of_list(list: &ClauseList) -> usize {
    let mut count: usize = 0;
    for i in 0..list.len() {
        count = count.saturating_add(list.clause(i).len());
    }
    count
}

/// How many literals a log has.
fn literals_of_log(log: &LratLog) -> usize {
    let mut count: usize = 0;
    for row in log.as_slice() {
        count = count.saturating_add(literals_in(row));
    }
    count
}

/// Brings the places of a clause's variables behind others.
fn push_places(places: &mut Vec<u64>, clause: &[Lit]) -> Result<(), AllocError> {
    for lit in clause {
        places.push(lit.place())?;
    }
    Ok(())
}

/// Brings the places of a row's variables behind others.
fn push_row_places(places: &mut Vec<u64>, row: &LratRow) -> Result<(), AllocError> {
    match row {
        LratRow::Add { clause, .. } => push_places(places, clause.as_slice()),
        LratRow::Delete { .. } => Ok(()),
    }
}

/// Brings the places of a list's variables behind others.
fn push_list_places(places: &mut Vec<u64>, list: &ClauseList) -> Result<(), AllocError> {
    for i in 0..list.len() {
        push_places(places, list.clause(i))?;
    }
    Ok(())
}

/// Brings the places of a log's variables behind others.
fn push_log_places(places: &mut Vec<u64>, log: &LratLog) -> Result<(), AllocError> {
    for row in log.as_slice() {
        push_row_places(places, row)?;
    }
    Ok(())
}

/// The places of the variables that a list and a log name, each once, in ascending order.
fn places_of(
    alloc: Global,
    list: &ClauseList,
    log: &LratLog,
    count: usize,
) -> Result<Vec<u64>, AllocError> {
    let mut places = Vec::with_capacity(alloc, count)?;
    push_list_places(&mut places, list)?;
    push_log_places(&mut places, log)?;
    places.sort_unstable();
    places.dedup();
    Ok(places)
}

/// The places have at most 64 bits.
fn are_words(places: &[u64])
    ensures { All (λ n. n < 2 ^ 64) places.now }
{}

/// Whether the places rise.
fn are_rising(places: &[u64]) -> bool
    ensures { IsTrue result → AreRising places.now }
{
    for k in 1..places.len() {
        if places[k - 1] >= places[k] {
            return false;
        }
    }
    true
}

/// How many of the first places are below a number: so many as are before the first that is not.
fn count_below(places: &[u64], vars: u64) -> usize {
    match places.binary_search(&vars) {
        Ok(found) => found,
        Err(before) => before,
    }
}

/// Whether the first of so many places are below a number, and no other is, by the two at the border.
fn are_split(places: &[u64], count: usize, vars: u64) -> bool
    ensures { IsTrue result → AreSplit places.now count vars }
{
    count <= places.len()
        && (count == 0 || places[count - 1] < vars)
        && (count == places.len() || vars <= places[count])
}

/// The rank of a place, if it is one of these.
fn rank_of(places: &[u64], place: u64) -> Option<u64>
    ensures { IfSome result (λ rank. (rank < length places.now) × (place_at places.now rank ≡ place)) }
{
    match places.binary_search(&place) {
        Ok(rank) => {
            if rank < places.len() && places[rank] == place {
                Some(rank as u64)
            } else {
                None
            }
        }
        Err(_) => None,
    }
}

/// The literal of the variable of this rank.
fn lit_of_rank(rank: u64, is_negation: bool) -> Lit
    requires { rank + 1 < 2 ^ 63 }
    ensures at { result ≡ (if is_negation then negsuc rank else pos (suc rank)) }
    ensures literal { IsLiteral result }
{
    let lit = Lit::of_place(rank);
    if is_negation { lit.negated() } else { lit }
}

/// The literal over ranks that stands for a literal, if its rank is below a limit.
fn ranked_lit(places: &[u64], limit: u64, lit: Lit) -> Option<Lit>
    ensures at { IfSome result (λ made. literal_at places.now made ≡ lit) }
    ensures within { IfSome result (λ made. IsWithin limit made) }
{
    let rank = rank_of(places, lit.place())?;
    if rank >= limit || rank >= MOST {
        return None;
    }
    Some(lit_of_rank(rank, lit.is_negation()))
}

/// The clause over ranks that stands for a clause, if all ranks are below a limit.
fn ranked_clause(
    alloc: Global,
    places: &[u64],
    limit: u64,
    clause: &[Lit],
) -> Result<Option<Vec<Lit>>, AllocError>
    ensures at { IfOk result (λ o. IfSome o (λ made. map (literal_at places.now) made.items ≡ clause.now)) }
    ensures within { IfOk result (λ o. IfSome o (λ made. All (IsWithin limit) made.items)) }
{
    let mut made = Vec::with_capacity(alloc, clause.len())?;
    for lit in clause {
        match ranked_lit(places, limit, *lit) {
            Some(ranked) => made.push(ranked)?,
            None => return Ok(None),
        }
    }
    Ok(Some(made))
}

/// The list over the first of so many ranks that stands for a list.
fn ranked_list(
    alloc: Global,
    places: &[u64],
    count: u64,
    list: &ClauseList,
) -> Result<Option<ClauseList>, AllocError>
    requires { count < 2 ^ 63 }
    ensures vars { IfOk result (λ o. IfSome o (λ made. made.vars ≡ count)) }
    ensures clauses { IfOk result (λ o. IfSome o (λ made. map (map (literal_at places.now)) made.clauses ≡ list.now.clauses)) }
{
    let mut made = ClauseList::new(alloc, count);
    for i in 0..list.len() {
        match ranked_clause(alloc, places, count, list.clause(i))? {
            Some(clause) => made.push(clause.as_slice())?,
            None => return Ok(None),
        }
    }
    Ok(Some(made))
}

/// The addition over ranks that stands for one.
fn ranked_addition(
    alloc: Global,
    places: &[u64],
    id: u64,
    clause: &[Lit],
    hints: &[u64],
) -> Result<Option<LratRow>, AllocError>
    ensures { IfOk result (λ o. IfSome o (λ made. renamed_row (literal_at places.now) made ≡ Add id clause.now hints.now)) }
{
    match ranked_clause(alloc, places, MOST, clause)? {
        Some(items) => Ok(Some(LratRow::Add {
            id,
            clause: LitList::from_slice(alloc, items.as_slice())?,
            hints: IdList::from_slice(alloc, hints)?,
        })),
        None => Ok(None),
    }
}

/// The row over ranks that stands for a row.
fn ranked_row(alloc: Global, places: &[u64], row: &LratRow) -> Result<Option<LratRow>, AllocError>
    ensures { IfOk result (λ o. IfSome o (λ made. renamed_row (literal_at places.now) made ≡ row.now)) }
{
    match row {
        LratRow::Add { id, clause, hints } => {
            ranked_addition(alloc, places, *id, clause.as_slice(), hints.as_slice())
        }
        LratRow::Delete { ids } => Ok(Some(LratRow::Delete {
            ids: IdList::from_slice(alloc, ids.as_slice())?,
        })),
    }
}

/// The log over ranks that stands for a log.
fn ranked_log(alloc: Global, places: &[u64], log: &LratLog) -> Result<Option<LratLog>, AllocError>
    ensures { IfOk result (λ o. IfSome o (λ made. map (renamed_row (literal_at places.now)) made ≡ log.now)) }
{
    let mut made = LratLog::new(alloc);
    for row in log.as_slice() {
        match ranked_row(alloc, places, row)? {
            Some(ranked) => made.push(ranked)?,
            None => return Ok(None),
        }
    }
    Ok(Some(made))
}

/// The list and the log over the ranks among these places.
fn over_ranks(
    alloc: Global,
    places: &[u64],
    list: &ClauseList,
    log: &LratLog,
) -> Result<Option<(ClauseList, LratLog)>, AllocError>
    ensures { IfOk result (λ o. IfSome o (λ made. log_fault made.0 made.1 ≡ log_fault list.now log.now)) }
{
    are_words(places);
    let vars = list.vars();
    let count = count_below(places, vars);
    if count as u64 >= MOST || !are_rising(places) || !are_split(places, count, vars) {
        return Ok(None);
    }
    let Some(few) = ranked_list(alloc, places, count as u64, list)? else {
        return Ok(None);
    };
    let Some(rows) = ranked_log(alloc, places, log)? else {
        return Ok(None);
    };
    Ok(Some((few, rows)))
}

/// The list and the log over the ranks of the variables that they name, where the list has more variables than literals stand in
/// both. The log over ranks is judged as the log is.
pub fn ranked(
    alloc: Global,
    list: &ClauseList,
    log: &LratLog,
) -> Result<Option<(ClauseList, LratLog)>, AllocError>
    ensures { IfOk result (λ o. IfSome o (λ made. log_fault made.0 made.1 ≡ log_fault list.now log.now)) }
{
    let count = literals_of_list(list).saturating_add(literals_of_log(log));
    if list.vars() <= count as u64 {
        return Ok(None);
    }
    let places = places_of(alloc, list, log, count)?;
    over_ranks(alloc, places.as_slice(), list, log)
}
