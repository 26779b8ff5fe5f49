//! Proofs with one part changed.

use hk_inst::{Instance, InstanceList};
use hk_lrat::{IdList, LitList, LratLog, LratRow};
use hk_proof::{Proof, ProofList};
use std::alloc::{AllocError, Global};

/// What is changed of a refutation.
#[derive(Clone, Copy, PartialEq, Eq)]
pub enum Change {
    /// Nothing.
    Nothing,
    /// The last hint of the last row is dropped.
    HintDropped,
    /// The last hint of the last row names no clause.
    HintToNothing,
    /// The last row is dropped.
    RowDropped,
    /// A pair of reads that are not there stands behind the instances.
    InstanceOfNothing,
    /// Each instance stands there twice.
    InstancesTwice,
    /// There is no instance: the log is tried over the clauses before them.
    NoInstances,
    /// The first instance is dropped.
    InstanceDropped,
}

/// The change of a word.
pub fn change_of(word: &str) -> Option<Change> {
    match word {
        "nothing" => Some(Change::Nothing),
        "hint-dropped" => Some(Change::HintDropped),
        "hint-to-nothing" => Some(Change::HintToNothing),
        "row-dropped" => Some(Change::RowDropped),
        "instance-of-nothing" => Some(Change::InstanceOfNothing),
        "instances-twice" => Some(Change::InstancesTwice),
        "no-instances" => Some(Change::NoInstances),
        "instance-dropped" => Some(Change::InstanceDropped),
        _ => None,
    }
}

/// The hints under a change of the last one.
fn hints_of(alloc: Global, hints: &[u64], change: Change) -> Result<IdList, AllocError> {
    match (hints, change) {
        ([front @ .., _], Change::HintDropped) => IdList::from_slice(alloc, front),
        ([front @ .., _], Change::HintToNothing) => {
            let mut changed = Vec::new(alloc);
            changed.extend_from_slice(front)?;
            changed.push(u64::MAX)?;
            IdList::from_slice(alloc, changed.as_slice())
        }
        _ => IdList::from_slice(alloc, hints),
    }
}

/// A row under a change of its last hint.
fn row_of(alloc: Global, row: &LratRow, change: Change) -> Result<LratRow, AllocError> {
    match row {
        LratRow::Add { id, clause, hints } => {
            let clause = LitList::from_slice(alloc, clause.as_slice())?;
            let hints = hints_of(alloc, hints.as_slice(), change)?;
            Ok(LratRow::Add {
                id: *id,
                clause,
                hints,
            })
        }
        LratRow::Delete { ids } => {
            let ids = IdList::from_slice(alloc, ids.as_slice())?;
            Ok(LratRow::Delete { ids })
        }
    }
}

/// Adds a row to a log, unless it is the last and is to be dropped.
fn add_row(
    alloc: Global,
    log: &mut LratLog,
    row: &LratRow,
    change: Change,
) -> Result<(), AllocError> {
    if change == Change::RowDropped {
        return Ok(());
    }
    let changed = row_of(alloc, row, change)?;
    log.push(changed)
}

/// The log under a change of its last row.
fn log_of(alloc: Global, log: &LratLog, change: Change) -> Result<LratLog, AllocError> {
    let mut changed = LratLog::new(alloc);
    if let [front @ .., last] = log.as_slice() {
        for row in front {
            add_row(alloc, &mut changed, row, Change::Nothing)?;
        }
        add_row(alloc, &mut changed, last, change)?;
    }
    Ok(changed)
}

/// Adds copies of instances, as many of each.
fn add_copies(
    alloc: Global,
    changed: &mut Vec<Instance>,
    instances: &[Instance],
    is_twice: bool,
) -> Result<(), AllocError> {
    for instance in instances {
        changed.push(instance.copy(alloc)?)?;
        if is_twice {
            changed.push(instance.copy(alloc)?)?;
        }
    }
    Ok(())
}

/// The instances under a change.
fn instances_of(
    alloc: Global,
    instances: &InstanceList,
    change: Change,
) -> Result<InstanceList, AllocError> {
    let mut changed = Vec::new(alloc);
    let kept = match (change, instances.as_slice()) {
        (Change::NoInstances, _) => &[],
        (Change::InstanceDropped, [_, behind @ ..]) => behind,
        (_, all) => all,
    };
    add_copies(alloc, &mut changed, kept, change == Change::InstancesTwice)?;
    if change == Change::InstanceOfNothing {
        changed.push(Instance::Pair { a: u64::MAX, b: 0 })?;
    }
    Ok(InstanceList::from_vec(changed))
}

/// A proof under a change: one by all cases has no part.
fn proof_of(alloc: Global, proof: &Proof, change: Change) -> Result<Proof, AllocError> {
    match proof {
        Proof::Refuted { instances, log } => {
            let instances = instances_of(alloc, instances, change)?;
            let log = log_of(alloc, log, change)?;
            Ok(Proof::Refuted { instances, log })
        }
        Proof::AllCases => Ok(Proof::AllCases),
    }
}

/// The proofs, of which the one at a place is changed.
pub fn changed(
    alloc: Global,
    proofs: &[Proof],
    place: usize,
    change: Change,
) -> Result<ProofList, AllocError> {
    let mut list = ProofList::new(alloc);
    for (k, proof) in proofs.iter().enumerate() {
        let here = if k == place { change } else { Change::Nothing };
        list.push(proof_of(alloc, proof, here)?)?;
    }
    Ok(list)
}

/// As many proofs, each that all cases were tried.
pub fn all_by_cases(alloc: Global, count: usize) -> Result<ProofList, AllocError> {
    let mut list = ProofList::new(alloc);
    for _ in 0..count {
        list.push(Proof::AllCases)?;
    }
    Ok(list)
}
