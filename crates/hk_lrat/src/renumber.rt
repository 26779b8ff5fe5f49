//! Raises the ids of a log, for a list with more clauses.

ghost use Rattle.std.specs.Prelude.{◌≡◌, ◌+◌, ◌<◌, ◌^◌, true, List, map, length, None};
ghost use Rattle.std.specs.List.{All};
ghost use Rattle.hk_cnf.specs.Clauses.{Clauses};
ghost use Rattle.hk_lrat.specs.declared.log.LratRow.{LratRow};
ghost use Rattle.hk_lrat.specs.Log.{start};
ghost use Rattle.hk_lrat.specs.Refutes.{AreAccepted};
ghost use Rattle.hk_lrat.specs.Raised.{raised_id, raised_row, raised, is_addition, Fits, RowFits, IsLonger};

use crate::log::LratLog;

/// The id, raised where it is over `from`.
pub fn raised_id(id: u64, from: u64, by: u64) -> u64
    requires { Fits from by id }
    ensures { result ≡ raised_id from by id }
{
    if from < id { id + by } else { id }
}

/// Raises the ids over `from`.
pub fn raise_ids(ids: &mut Vec<u64>, from: u64, by: u64)
    requires { All (Fits from by) ids.old.items }
    ensures { ids.new.items ≡ map (raised_id from by) ids.old.items }
{
    for id in ids.iter_mut() {
        *id = raised_id(*id, from, by);
    }
}

/// Adds `by` to every id over `from`, in one pass. Takes no memory.
///
/// A log without deletions that is accepted over a list of `from` clauses is, raised, accepted over every list that
/// begins with that one, has `by` clauses more and not fewer variables.
pub fn raise(log: &mut LratLog, from: u64, by: u64)
    requires { All (RowFits from by) log.old }
    ensures ids { log.new ≡ raised from by log.old }
    ensures accepted { (list longer : Clauses) → length list.clauses ≡ from → IsLonger list longer by → All (λ row. is_addition row ≡ true) log.old → AreAccepted (start list) log.old → AreAccepted (start longer) log.new }
{
    log.raise(from, by);
}
