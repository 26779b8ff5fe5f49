//! The search: what it keeps between two conflicts, and how it decides, learns and goes back.

ghost use Rattle.std.specs.Prelude.{◌≡◌, ◌⊎◌, ◌+◌, ◌^◌, pos, negsuc, ◌-◌, ◌<◌, ◌≤◌, [], false, length, take, slice_index, IfOk, OnOk, OnErr, IfSome, IfNone, MatchOption};
ghost use Rattle.std.specs.List.{All, AllPairs};
ghost use Rattle.hk_cnf.specs.Literal.{IsWithin, has};
ghost use Rattle.hk_cdcl.specs.Fresh.{AreQuiet};
ghost use Rattle.hk_cdcl.specs.Path.{is_set, AreSet, IsUnset, cut_at};
ghost use Rattle.hk_cdcl.specs.Propagation.{IsConflict};
ghost use Rattle.hk_cdcl.specs.Searching.{IsJump, with_clause, with_row};
ghost use Rattle.hk_cdcl.specs.States.{Leveled, Grows, Spends, IsDecided, IsBack, IsRestarted, Closes, Stepped};
ghost use Rattle.hk_cdcl.specs.Solved.{Satisfies};

use crate::learn::{Learned, learn, refute};
use crate::order::Order;
use crate::restarts::Restarts;
use crate::seen::Seen;
use crate::trail::Trail;
use hk_cnf::{Assignment, ClauseList, Lit};
use hk_lrat::{IdList, LitList, LratLog, LratRow};
use std::alloc::{AllocError, Global};

/// The same clauses, over memory of their own.
pub fn copy_of(alloc: Global, list: &ClauseList) -> Result<ClauseList, AllocError>
    ensures { IfOk result (λ copy. copy ≡ list.now) }
{
    let mut copy = ClauseList::new(alloc, list.vars());
    for i in 0..list.len() {
        copy.push(list.clause(i))?;
    }
    Ok(copy)
}

/// How many levels begin before `rest`, of those before the last.
fn levels_before(levels: &[usize], rest: usize) -> usize
    requires some { 0 < length levels.now }
    requires bound { rest ≤ slice_index levels.now (length levels.now - 1) }
    requires rising { AllPairs (λ d e. d < e) levels.now }
    ensures inside { result < length levels.now }
    ensures bound { rest ≤ slice_index levels.now result }
    ensures before { All (λ level. level < rest) (take result levels.now) }
{
    let mut count = levels.len() - 1;
    while 0 < count && rest <= levels[count - 1] {
        count -= 1;
    }
    count
}

/// Drops the levels that begin at `rest` or later, and gives the place at which the first of them began.
fn drop_levels(levels: &mut Vec<usize>, rest: usize) -> usize
    requires some { 0 < length levels.old.items }
    requires bound { rest ≤ slice_index levels.old.items (length levels.old.items - 1) }
    requires rising { AllPairs (λ d e. d < e) levels.old.items }
    ensures { IsJump levels.old.items levels.new.items rest result }
{
    let count = levels_before(levels.as_slice(), rest);
    let target = levels[count];
    levels.truncate(count);
    target
}

/// The state of the search between two steps.
#[derive(Drop)]
pub struct Search {
    /// The given clauses, and then the learned ones.
    pub clauses: ClauseList,
    /// A row for each learned clause.
    pub log: LratLog,
    /// The literals that are true.
    pub trail: Trail,
    /// For each decision that stands, its place on the trail.
    pub levels: Vec<usize>,
    /// Marks for the analysis of a conflict.
    pub seen: Seen,
    /// The order of decisions.
    pub order: Order,
    /// When to restart.
    pub restarts: Restarts,
    /// How many clauses may still be learned.
    pub left: u64,
}

/// The literal of the variable at a place that has this value.
fn literal_of(place: u64, value: bool) -> Lit
    requires { place + 1 < 2 ^ 63 }
    ensures { (result ≡ pos (place + 1)) ⊎ (result ≡ negsuc place) }
{
    let lit = Lit::of_place(place);
    if value { lit } else { lit.negated() }
}

/// A variable that is not set: of those in the heap one with the greatest activity. Takes time for all variables only where
/// none is left in the heap, which is once an answer.
fn next_unset(order: &mut Order, trail: &Trail) -> Option<u64>
    ensures { MatchOption result (AreSet trail.now.lits trail.now.vars) (IsUnset trail.now.lits trail.now.vars) }
{
    for _ in 0..order.vars() {
        let Some(var) = order.pop() else {
            return trail.first_unset();
        };
        if trail.is_unset(var as u64) {
            return Some(var as u64);
        }
    }
    trail.first_unset()
}

/// Puts the variables of the literals from a place on into the heap, with their values.
fn release(order: &mut Order, trail: &Trail, kept: usize) {
    for place in kept..trail.len() {
        let lit = trail.lit(place);
        order.insert(lit.place() as usize, !lit.is_negation());
    }
}

impl Search {
    /// Before the first call over this list.
    pub fn new(alloc: Global, list: &ClauseList) -> Result<Search, AllocError>
        ensures clauses { IfOk result (λ s. s.clauses ≡ list.now) }
        ensures log { IfOk result (λ s. s.log ≡ []) }
    {
        let trail = Trail::new(alloc, list.vars())?;
        let clauses = copy_of(alloc, list)?;
        let seen = Seen::new(alloc, list.vars())?;
        let mut order = Order::new(alloc);
        order.widen(list.vars() as usize)?;
        Ok(Search {
            clauses,
            log: LratLog::new(alloc),
            trail,
            levels: Vec::new(alloc),
            seen,
            order,
            restarts: Restarts::new(),
            left: 0,
        })
    }

    /// Begins a call with this budget: nothing is set. Activities and the values that variables had last are kept.
    pub fn begin(&mut self, alloc: Global, budget: u64) -> Result<(), AllocError>
        ensures clauses { self.new.clauses ≡ self.old.clauses }
        ensures log { self.new.log ≡ self.old.log }
        ensures leveled { OnOk result (Leveled self.new) }
        ensures trail { OnOk result (self.new.trail.lits ≡ []) }
        ensures left { OnOk result (self.new.left ≡ budget) }
    {
        release(&mut self.order, &self.trail, 0);
        let vars = self.clauses.vars();
        self.trail = Trail::new(alloc, vars)?;
        self.seen = Seen::new(alloc, vars)?;
        self.levels.truncate(0);
        self.left = budget;
        Ok(())
    }

    /// Gives the variable at a place the value that it had last as a decision, where unit propagation has nothing left to do.
    fn decide(&mut self, place: u64) -> Result<(), AllocError>
        requires leveled { Leveled self.old }
        requires quiet { AreQuiet (has self.old.trail.lits) self.old.clauses.clauses }
        requires within { place < self.old.trail.vars }
        requires unset { is_set self.old.trail.lits place ≡ false }
        ensures clauses { self.new.clauses ≡ self.old.clauses }
        ensures log { self.new.log ≡ self.old.log }
        ensures left { self.new.left ≡ self.old.left }
        ensures decided { OnOk result (IsDecided self.old self.new) }
    {
        let len = self.trail.len();
        self.levels.push(len)?;
        let lit = literal_of(place, self.order.phase(place as usize));
        self.trail.push(lit, 0);
        // For the proof: the trail has no more literals than variables, the new one among them.
        let _count = self.trail.len();
        Ok(())
    }

    /// Decides a variable that is not set, or gives the assignment where all are, where unit propagation has
    /// nothing left to do.
    fn advance(&mut self, alloc: Global) -> Result<Option<Assignment>, AllocError>
        requires leveled { Leveled self.old }
        requires quiet { AreQuiet (has self.old.trail.lits) self.old.clauses.clauses }
        ensures clauses { self.new.clauses ≡ self.old.clauses }
        ensures log { self.new.log ≡ self.old.log }
        ensures left { self.new.left ≡ self.old.left }
        ensures advanced { IfOk result (λ r. MatchOption r (IsDecided self.old self.new) (Satisfies self.old.clauses)) }
    {
        // For the proof: the clauses' literals are of the list's variables.
        let _within = self.clauses.len();
        match next_unset(&mut self.order, &self.trail) {
            Some(place) => {
                self.decide(place)?;
                Ok(None)
            }
            None => {
                let values = self.trail.values(alloc)?;
                Ok(Some(Assignment::new(values)))
            }
        }
    }
}

/// Adds a clause with its row at the ends of the list and of the log. Without memory both are as before.
pub fn add_row(
    clauses: &mut ClauseList,
    log: &mut LratLog,
    clause: Vec<Lit>,
    hints: IdList,
) -> Result<(), AllocError>
    requires { All (IsWithin clauses.old.vars) clause.items }
    ensures clauses { OnOk result (clauses.new ≡ with_clause clauses.old clause.items) }
    ensures log { OnOk result (log.new ≡ with_row clauses.old log.old clause.items hints) }
    ensures same_clauses { OnErr result (clauses.new ≡ clauses.old) }
    ensures same_log { OnErr result (log.new ≡ log.old) }
{
    let vars = clauses.vars();
    let len = clauses.len();
    clauses.push(clause.as_slice())?;
    let row = LratRow::Add {
        id: clauses.len() as u64,
        clause: LitList::from_vec(clause),
        hints,
    };
    if let Err(error) = log.push(row) {
        clauses.cut(vars, len);
        return Err(error);
    }
    Ok(())
}

/// The id of the next clause. The list has room for that clause then.
pub fn next_id(clauses: &mut ClauseList) -> Result<u64, AllocError>
    ensures same { clauses.new ≡ clauses.old }
    ensures id { IfOk result (λ id. id ≡ length clauses.old.clauses + 1) }
{
    let vars = clauses.vars();
    let len = clauses.len();
    clauses.push(&[])?;
    let id = clauses.len() as u64;
    clauses.cut(vars, len);
    Ok(id)
}

impl Search {
    /// Unsets all but the first literals.
    pub fn cut(&mut self, kept: usize)
        requires { kept ≤ length self.old.trail.lits }
        ensures trail { self.new.trail ≡ cut_at self.old.trail kept }
        ensures clauses { self.new.clauses ≡ self.old.clauses }
        ensures log { self.new.log ≡ self.old.log }
        ensures levels { self.new.levels ≡ self.old.levels }
        ensures seen { self.new.seen ≡ self.old.seen }
        ensures left { self.new.left ≡ self.old.left }
    {
        release(&mut self.order, &self.trail, kept);
        self.trail.cut(kept);
    }

    /// Learns from a conflict, and goes back to the lowest level at which the learned clause is unit.
    fn backjump(&mut self, alloc: Global, conflict: usize) -> Result<usize, AllocError>
        requires leveled { Leveled self.old }
        requires some { 0 < length self.old.levels.items }
        requires left { 0 < self.old.left }
        requires conflict { IsConflict self.old.clauses.clauses self.old.trail.lits conflict }
        ensures back { IfOk result (IsBack self.old self.new) }
        ensures grows { Grows self.old self.new }
        ensures spends { Spends self.old self.new }
    {
        // For the proof: the trail's literals are of its variables and apart.
        let _path = self.trail.len();
        let below = self.levels[self.levels.len() - 1];
        let Learned {
            clause,
            hints,
            rest,
        } = learn(
            alloc,
            &self.clauses,
            &self.trail,
            below,
            &mut self.seen,
            &mut self.order,
            conflict,
        )?;
        add_row(&mut self.clauses, &mut self.log, clause, hints)?;
        self.left -= 1;
        let target = drop_levels(&mut self.levels, rest);
        self.cut(target);
        Ok(target)
    }

    /// Goes back to level zero where a restart is due. Gives the length of the trail then.
    fn restart(&mut self) -> usize
        requires { Leveled self.old }
        ensures { IsRestarted self.old self.new result }
    {
        let len = self.trail.len();
        if self.levels.is_empty() {
            return len;
        }
        if !self.restarts.is_due() {
            return len;
        }
        let zero = self.levels[0];
        self.levels.truncate(0);
        self.cut(zero);
        zero
    }

    /// The row that adds the empty clause, from a conflict before the first decision.
    fn empty_row(&mut self, alloc: Global, conflict: usize) -> Result<LratRow, AllocError>
        requires leveled { Leveled self.old }
        requires none { length self.old.levels.items ≡ 0 }
        requires conflict { IsConflict self.old.clauses.clauses self.old.trail.lits conflict }
        ensures clauses { self.new.clauses ≡ self.old.clauses }
        ensures log { self.new.log ≡ self.old.log }
        ensures left { self.new.left ≡ self.old.left }
        ensures closes { IfOk result (Closes self.old) }
    {
        let hints = refute(alloc, &self.clauses, &self.trail, &mut self.seen, conflict)?;
        let id = next_id(&mut self.clauses)?;
        Ok(LratRow::Add {
            id,
            clause: LitList::new(alloc),
            hints,
        })
    }
}

/// What the search came to.
#[derive(Drop)]
pub enum Found {
    /// All clauses are true under this assignment.
    Sat(Assignment),
    /// With this row, which adds the empty clause, the log refutes the list.
    Unsat(LratRow),
    /// The budget was spent before the last conflict.
    Spent,
}

/// What a step of the search came to.
#[derive(Drop)]
pub enum Step {
    /// A variable was decided.
    Decided,
    /// A clause was learned, and the trail has this length now.
    Back(usize),
    /// The search is at its end.
    Ended(Found),
}

impl Search {
    /// Learns from a conflict: the empty clause before the first decision, nothing where the budget is spent, else a clause.
    fn on_conflict(&mut self, alloc: Global, conflict: usize) -> Result<Step, AllocError>
        requires leveled { Leveled self.old }
        requires conflict { IsConflict self.old.clauses.clauses self.old.trail.lits conflict }
        ensures stepped { IfOk result (Stepped self.old self.new) }
        ensures grows { Grows self.old self.new }
        ensures spends { Spends self.old self.new }
    {
        if self.levels.is_empty() {
            let row = self.empty_row(alloc, conflict)?;
            return Ok(Step::Ended(Found::Unsat(row)));
        }
        if self.left == 0 {
            return Ok(Step::Ended(Found::Spent));
        }
        self.backjump(alloc, conflict)?;
        self.order.decay();
        let length = self.restart();
        Ok(Step::Back(length))
    }

    /// Answers unit propagation: learns from a conflict, or decides where there is none.
    pub fn respond(&mut self, alloc: Global, conflict: Option<u64>) -> Result<Step, AllocError>
        requires leveled { Leveled self.old }
        requires conflict { IfSome conflict (IsConflict self.old.clauses.clauses self.old.trail.lits) }
        requires quiet { IfNone conflict (AreQuiet (has self.old.trail.lits) self.old.clauses.clauses) }
        ensures stepped { IfOk result (Stepped self.old self.new) }
        ensures grows { Grows self.old self.new }
        ensures spends { Spends self.old self.new }
    {
        match conflict {
            Some(place) => self.on_conflict(alloc, place as usize),
            None => match self.advance(alloc)? {
                Some(assignment) => Ok(Step::Ended(Found::Sat(assignment))),
                None => Ok(Step::Decided),
            },
        }
    }

    /// The log, with no copy.
    pub fn into_log(self) -> LratLog
        ensures { result ≡ self.log }
    {
        let Search {
            clauses: _,
            log,
            trail: _,
            levels: _,
            seen: _,
            order: _,
            restarts: _,
            left: _,
        } = self;
        log
    }
}
