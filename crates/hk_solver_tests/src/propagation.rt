//! Unit propagation over a list, by full scans and by watched literals.

use hk_cdcl::{FullScan, Propagate, Trail, Watched};
use hk_cnf::ClauseList;
use std::alloc::{AllocError, Global};

/// The place of a clause that is false, and the literals of the trail with their reasons, after full scans over the list.
pub(crate) fn propagated(alloc: Global, list: &ClauseList) -> Result<String, AllocError> {
    let mut scans = FullScan;
    scans.added(list)?;
    let mut trail = Trail::new(alloc, list.vars())?;
    let conflict = scans.propagate(list, &mut trail);
    let mut told = format!(in alloc; "{conflict:?}")?;
    for place in 0..trail.len() {
        let lit = trail.lit(place).number();
        let reason = trail.reason(place);
        write!(told, " {lit}:{reason}")?;
    }
    trail.cut(0);
    scans.cut(0);
    if !trail.is_empty() {
        told.push_str(" left")?;
    }
    Ok(told)
}

/// What watched literals come to over the list, first and again after a cut to this length: the place of a clause that is false, and the
/// length of the trail.
pub(crate) fn watched(alloc: Global, list: &ClauseList, kept: usize) -> Result<String, AllocError> {
    let mut watched = Watched::new(alloc);
    watched.added(list)?;
    let mut trail = Trail::new(alloc, list.vars())?;
    let first = watched.propagate(list, &mut trail);
    let set = trail.len();
    if set < kept {
        return String::from_str(alloc, "too short");
    }
    trail.cut(kept);
    watched.cut(kept as u64);
    let second = watched.propagate(list, &mut trail);
    let left = trail.len();
    format!(in alloc; "{first:?} {set}, {second:?} {left}")
}
