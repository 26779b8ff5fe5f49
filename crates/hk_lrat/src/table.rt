//! The table of clauses: which have an id, and which of them are live.

ghost use Rattle.std.specs.Prelude.{◌≡◌, ◌≢◌, ℕ, ◌-◌, ◌<◌, ◌≤◌, length, map, IsTrue, MatchOption};
ghost use Rattle.std.specs.List.{All, HoldsAt, list_all};
ghost use Rattle.std.specs.Option.{option_copied};
ghost use Rattle.hk_lrat.specs.Entries.{live_of, IsRising, IsEntry, is_live_at, dead_at, dead_in};
ghost use Rattle.hk_lrat.specs.Log.{clause_of};

use hk_cnf::Lit;

/// A clause that was given or added: its id, and the part of the row of literals that is its own.
#[derive(Clone, Copy, Debug)]
pub struct Entry {
    pub id: u64,
    pub start: usize,
    pub end: usize,
    pub live: bool,
}

/// Whether the id stands at the place that it has where no id was left out.
fn is_dense(table: &[Entry], id: u64) -> bool
    ensures { IsTrue result → (0 < id) × (id - 1 < length table.now) × HoldsAt (λ e. e.id ≡ id) table.now (id - 1) }
{
    0 < id && id - 1 < table.len() as u64 && table[(id - 1) as usize].id == id
}

/// The place of an id by halving.
fn search(table: &[Entry], id: u64) -> Option<usize>
    requires { IsRising table.now }
    ensures { MatchOption result (All (λ e. e.id ≢ id) table.now) (λ i. (i < length table.now) × HoldsAt (λ e. e.id ≡ id) table.now i) }
{
    let mut low = 0;
    let mut high = table.len();
    while low < high {
        let middle = low + (high - low) / 2;
        let found = table[middle].id;
        if found == id {
            return Some(middle);
        }
        if found < id {
            low = middle + 1;
        } else {
            high = middle;
        }
    }
    None
}

/// The place of an id.
fn place(table: &[Entry], id: u64) -> Option<usize>
    requires { IsRising table.now }
    ensures { MatchOption result (All (λ e. e.id ≢ id) table.now) (λ i. (i < length table.now) × HoldsAt (λ e. e.id ≡ id) table.now i) }
{
    if is_dense(table, id) {
        return Some((id - 1) as usize);
    }
    search(table, id)
}

/// The live clause of an id.
pub fn live_clause<'a>(table: &[Entry], lits: &'a [Lit], id: u64) -> Option<&'a [Lit]>
    requires rising { IsRising table.now }
    requires entries { All (IsEntry (length lits.now)) table.now }
    ensures { option_copied result ≡ clause_of (live_of lits.now table.now) id }
{
    let place = place(table, id)?;
    let entry = table[place];
    if entry.live {
        Some(&lits[entry.start..entry.end])
    } else {
        None
    }
}

/// Whether the id names a live clause.
pub fn is_live(table: &[Entry], id: u64) -> bool
    requires { IsRising table.now }
    ensures { result ≡ is_live_at table.now id }
{
    match place(table, id) {
        Some(place) => table[place].live,
        None => false,
    }
}

/// Deletes the clause of an id, if there is one.
pub fn kill(table: &mut [Entry], id: u64)
    requires { IsRising table.old }
    ensures { table.new ≡ map (dead_at id) table.old }
{
    if let Some(place) = place(table, id) {
        table[place].live = false;
    }
}

/// Whether each id names a live clause.
pub fn are_live(table: &[Entry], ids: &[u64]) -> bool
    requires { IsRising table.now }
    ensures { result ≡ list_all (is_live_at table.now) ids.now }
{
    for id in ids {
        if !is_live(table, *id) {
            return false;
        }
    }
    true
}

/// Deletes the clauses of these ids.
pub fn kill_all(table: &mut [Entry], ids: &[u64])
    requires { IsRising table.old }
    ensures { table.new ≡ map (dead_in ids.now) table.old }
{
    for id in ids {
        kill(table, *id);
    }
}
