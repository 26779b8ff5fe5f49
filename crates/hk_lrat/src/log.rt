//! Logs of additions and deletions, and why one is refused.

ghost use Rattle.std.specs.Prelude.{◌≡◌, ◌==◌, ◌++◌, [], ◌∷◌, length, map, IfOk, OnOk, OnErr};
ghost use Rattle.std.specs.List.{All};
ghost use Rattle.hk_lrat.specs.declared.log.RefuteStop.TheVariants.{Memory};
ghost use Rattle.hk_lrat.specs.LitLists.{literals_of};
ghost use Rattle.hk_lrat.specs.Log.{is_nil, is_empty_addition};
ghost use Rattle.hk_lrat.specs.Raised.{raised_id, raised_row, raised, Fits, RowFits};

use crate::renumber::{raise_ids, raised_id};
use hk_cnf::Lit;
use std::alloc::{AllocError, AllocFailed, Global};
use std::marker::Model;
use thiserror::Error;

/// One or two literals in place, or any number in memory of their own.
#[derive(Drop, Debug)]
enum Literals {
    One([Lit; 1]),
    Two([Lit; 2]),
    Many(Vec<Lit>),
}

impl Literals {
    /// These literals, with no room for more.
    fn from_slice(alloc: Global, lits: &[Lit]) -> Result<Literals, AllocError>
        ensures { IfOk result (λ own. literals_of own ≡ lits.now) }
    {
        match lits {
            [one] => Ok(Literals::One([*one])),
            [one, two] => Ok(Literals::Two([*one, *two])),
            _ => {
                let mut items = Vec::with_capacity(alloc, lits.len())?;
                items.extend_from_slice(lits)?;
                Ok(Literals::Many(items))
            }
        }
    }

    /// The literals.
    fn as_slice(&self) -> &[Lit]
        ensures { result.now ≡ literals_of self.now }
    {
        match self {
            Literals::One(lits) => lits.as_slice(),
            Literals::Two(lits) => lits.as_slice(),
            Literals::Many(lits) => lits.as_slice(),
        }
    }
}

/// The literals of a clause. A list that is made of one or two takes no memory.
#[derive(Drop, Debug)]
pub struct LitList {
    alloc: Global,
    literals: Literals,
}

impl Model for LitList {
    ghost use Rattle.std.specs.Prelude.{List, ℤ};
    ghost use Rattle.hk_lrat.specs.LitLists.{literals_of};

    ghost Value = { List ℤ };

    ghost view = { λ l. literals_of l.literals };
}

impl LitList {
    /// The empty clause.
    pub fn new(alloc: Global) -> LitList
        ensures { result ≡ [] }
    {
        LitList {
            alloc,
            literals: Literals::Many(Vec::new(alloc)),
        }
    }

    /// The clause of these literals.
    pub fn from_vec(items: Vec<Lit>) -> LitList
        ensures { result ≡ items.items }
    {
        LitList {
            alloc: *items.allocator(),
            literals: Literals::Many(items),
        }
    }

    /// A list of its own with these literals, and with no room for more.
    pub fn from_slice(alloc: Global, lits: &[Lit]) -> Result<LitList, AllocError>
        ensures { IfOk result (λ list. list ≡ lits.now) }
    {
        let literals = Literals::from_slice(alloc, lits)?;
        Ok(LitList { alloc, literals })
    }

    /// The literals in a list with room for one more.
    fn with_room(&self) -> Result<Vec<Lit>, AllocError>
        ensures { IfOk result (λ items. items.items ≡ self.now) }
    {
        let lits = self.as_slice();
        let mut items = Vec::new(self.alloc);
        items.extend_from_slice(lits)?;
        Ok(items)
    }

    /// A literal more. Without memory the list is as before.
    pub fn push(&mut self, lit: Lit) -> Result<(), AllocError>
        ensures ok { OnOk result (self.new ≡ self.old ++ lit ∷ []) }
        ensures err { OnErr result (self.new ≡ self.old) }
    {
        if let Literals::Many(items) = &mut self.literals {
            items.push(lit)?;
            return Ok(());
        }
        let mut items = self.with_room()?;
        items.push(lit)?;
        self.literals = Literals::Many(items);
        Ok(())
    }

    /// Whether there is no literal.
    pub fn is_empty(&self) -> bool
        ensures { result ≡ is_nil self.now }
    {
        match self.as_slice() {
            [] => true,
            _ => false,
        }
    }

    /// The literals.
    pub fn as_slice(&self) -> &[Lit]
        ensures { result.now ≡ self.now }
    {
        self.literals.as_slice()
    }
}

/// Ids of clauses.
#[derive(Drop, Debug)]
pub struct IdList {
    items: Vec<u64>,
}

impl Model for IdList {
    ghost use Rattle.std.specs.Prelude.{List, ℕ};

    ghost Value = { List ℕ };

    ghost view = { λ l. l.items.items };
}

impl IdList {
    /// No id.
    pub fn new(alloc: Global) -> IdList
        ensures { result ≡ [] }
    {
        IdList {
            items: Vec::new(alloc),
        }
    }

    /// These ids.
    pub fn from_vec(items: Vec<u64>) -> IdList
        ensures { result ≡ items.items }
    {
        IdList { items }
    }

    /// A list of its own with these ids, and with no room for more.
    pub fn from_slice(alloc: Global, ids: &[u64]) -> Result<IdList, AllocError>
        ensures { IfOk result (λ list. list ≡ ids.now) }
    {
        let mut items = Vec::with_capacity(alloc, ids.len())?;
        items.extend_from_slice(ids)?;
        Ok(IdList { items })
    }

    /// An id more. Without memory the list is as before.
    pub fn push(&mut self, id: u64) -> Result<(), AllocError>
        ensures ok { OnOk result (self.new ≡ self.old ++ id ∷ []) }
        ensures err { OnErr result (self.new ≡ self.old) }
    {
        self.items.push(id)?;
        Ok(())
    }

    /// Raises the ids over `from`.
    fn raise(&mut self, from: u64, by: u64)
        requires { All (Fits from by) self.old }
        ensures { self.new ≡ map (raised_id from by) self.old }
    {
        raise_ids(&mut self.items, from, by);
    }

    /// The ids.
    pub fn as_slice(&self) -> &[u64]
        ensures { result.now ≡ self.now }
    {
        self.items.as_slice()
    }
}

/// A row of a log.
#[derive(Drop, Debug)]
pub enum LratRow {
    /// Adds a clause under an id, with the ids of the clauses that show it in order.
    Add {
        id: u64,
        clause: LitList,
        hints: IdList,
    },
    /// Deletes the clauses of these ids.
    Delete {
        ids: IdList,
    },
}

impl LratRow {
    /// Raises the ids over `from`.
    fn raise(&mut self, from: u64, by: u64)
        requires { RowFits from by self.old }
        ensures { self.new ≡ raised_row from by self.old }
    {
        match self {
            LratRow::Add { id, hints, .. } => {
                *id = raised_id(*id, from, by);
                hints.raise(from, by);
            }
            LratRow::Delete { ids } => ids.raise(from, by),
        }
    }

    /// The same row, over memory of its own.
    fn copy(&self, alloc: Global) -> Result<LratRow, AllocError>
        ensures { IfOk result (λ row. row ≡ self.now) }
    {
        match self {
            LratRow::Add { id, clause, hints } => {
                let clause = LitList::from_slice(alloc, clause.as_slice())?;
                let hints = IdList::from_slice(alloc, hints.as_slice())?;
                Ok(LratRow::Add {
                    id: *id,
                    clause,
                    hints,
                })
            }
            LratRow::Delete { ids } => {
                let ids = IdList::from_slice(alloc, ids.as_slice())?;
                Ok(LratRow::Delete { ids })
            }
        }
    }

    /// Whether the row adds the empty clause.
    pub fn is_empty_addition(&self) -> bool
        ensures { result ≡ is_empty_addition self.now }
    {
        match self {
            LratRow::Add { clause, .. } => clause.is_empty(),
            LratRow::Delete { .. } => false,
        }
    }
}

/// A log: rows in their order.
#[derive(Drop, Debug)]
pub struct LratLog {
    rows: Vec<LratRow>,
}

impl Model for LratLog {
    ghost use Rattle.std.specs.Prelude.{List};
    ghost use Rattle.hk_lrat.specs.declared.log.LratRow.{LratRow};

    ghost Value = { List LratRow };

    ghost view = { λ l. l.rows.items };
}

impl LratLog {
    /// The log without a row.
    pub fn new(alloc: Global) -> LratLog
        ensures { result ≡ [] }
    {
        LratLog {
            rows: Vec::new(alloc),
        }
    }

    /// A row more at the end. Without memory the log is as before.
    pub fn push(&mut self, row: LratRow) -> Result<(), AllocError>
        ensures ok { OnOk result (self.new ≡ self.old ++ row ∷ []) }
        ensures err { OnErr result (self.new ≡ self.old) }
    {
        self.rows.push(row)?;
        Ok(())
    }

    /// The same log, over memory of its own.
    pub fn copy(&self, alloc: Global) -> Result<LratLog, AllocError>
        ensures { IfOk result (λ log. log ≡ self.now) }
    {
        let mut copy = LratLog::new(alloc);
        for row in self.rows.as_slice() {
            copy.push(row.copy(alloc)?)?;
        }
        Ok(copy)
    }

    /// Raises the ids over `from` of all rows.
    pub fn raise(&mut self, from: u64, by: u64)
        requires { All (RowFits from by) self.old }
        ensures { self.new ≡ raised from by self.old }
    {
        for row in self.rows.iter_mut() {
            row.raise(from, by);
        }
    }

    /// The rows.
    pub fn as_slice(&self) -> &[LratRow]
        ensures { result.now ≡ self.now }
    {
        self.rows.as_slice()
    }

    /// The number of rows.
    pub fn len(&self) -> usize
        ensures { result ≡ length self.now }
    {
        self.rows.len()
    }

    /// Whether there is no row.
    pub fn is_empty(&self) -> bool
        ensures { result ≡ (length self.now == 0) }
    {
        self.rows.is_empty()
    }
}

/// Why a row, or a whole log, is refused.
#[derive(Clone, Copy, PartialEq, Eq, Debug)]
pub enum RowReason {
    /// The row is not spelled, has a literal outside the variables, or a literal together with its negation.
    L1,
    /// The id is not greater than every id before it.
    L2,
    /// A hint or a deleted id names no live clause.
    L3,
    /// A hint clause is neither unit nor false.
    L4,
    /// The hints end without a false clause.
    L5,
    /// A hint is negative.
    L6,
    /// All rows are accepted, and none adds the empty clause.
    L7,
}

/// Why a log was refused, or that memory was wanting.
#[derive(Debug, Drop, Error)]
pub enum RefuteStop {
    /// The row, counted from 1, that fails first, with its first reason; for `L7` the number of rows.
    #[error("row {row}: {reason:?}")]
    Row { row: u64, reason: RowReason },
    /// Want of memory.
    #[error("want of memory")]
    Memory,
}

impl From<AllocError> for RefuteStop {
    ghost from_gives = { λ _ stop. stop ≡ Memory };

    fn from(_error: AllocError) -> RefuteStop {
        RefuteStop::Memory
    }
}

impl<T: Drop> From<AllocFailed<T>> for RefuteStop {
    ghost from_gives = { λ _ stop. stop ≡ Memory };

    fn from(_failed: AllocFailed<T>) -> RefuteStop {
        RefuteStop::Memory
    }
}
