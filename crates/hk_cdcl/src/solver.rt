//! The solver: unit propagation and steps of the search in turn, until an answer stands; and its life through rounds in
//! which the list grows.

ghost use Rattle.std.specs.Prelude.{◌≡◌, ◌<◌, ◌≤◌, ◌^◌, ◌+◌, ◌-◌, ◌++◌, ◌∷◌, [], None, drop, length, IfOk, OnOk, OnErr};
ghost use Rattle.hk_cnf.specs.Clauses.{Clauses, IsUnsatisfiable};
ghost use Rattle.hk_lrat.specs.Log.{start, log_fault};
ghost use Rattle.hk_lrat.specs.Raised.{raised, IsLonger};
ghost use Rattle.hk_lrat.specs.Refutes.{AreAccepted, Refutes};
ghost use Rattle.hk_cdcl.specs.Fresh.{IsSpent};
ghost use Rattle.hk_cdcl.specs.Held.{Follows};
ghost use Rattle.hk_cdcl.specs.Searching.{AreOrdered};
ghost use Rattle.hk_cdcl.specs.Solved.{Satisfies};
ghost use Rattle.hk_cdcl.specs.States.{Leveled, Grows, Finds, Ran};
ghost use Rattle.hk_cdcl.specs.Ends.{IfSat, IfUnsat, IfSpent, IfLogged, Came, Ends};
ghost use Rattle.hk_cdcl.specs.declared.solver.SolveEnd.TheVariants.{Unsat};

use crate::active::Kept;
use crate::call::call;
use crate::propagate::Propagate;
use crate::search::{Found, Search, Step, copy_of};
use crate::watched::Watched;
use hk_cnf::{Assignment, ClauseList};
use hk_lrat::{LratLog, LratRow};
use std::alloc::{AllocError, Global};
use std::marker::Model;

/// What a clause list came to.
#[derive(Drop, Debug)]
pub enum SolveEnd {
    /// This assignment satisfies the list.
    Sat(Assignment),
    /// This log refutes it.
    Unsat(LratLog),
    /// The last additions of this log, as many as the budget, are each a clause that unit propagation did not give before.
    Spent(LratLog),
}

/// Steps of the search until one is the last, over an implementation of unit propagation that has seen nothing yet.
fn solve_with<P: Propagate>(
    alloc: Global,
    search: &mut Search,
    propagate: &mut P,
) -> Result<Found, AllocError>
    requires fits { P.fits propagate.old [] [] }
    requires leveled { Leveled search.old }
    requires none { search.old.trail.lits ≡ [] }
    ensures grows { Grows search.old search.new }
    ensures finds { IfOk result (Finds search.new) }
    ensures spends { IfOk result (λ _. search.new.left + length search.new.log ≡ search.old.left + length search.old.log) }
{
    propagate.added(&search.clauses)?;
    'steps: loop {
        // For the proof: the trail's literals are of its variables and apart.
        let _path = search.trail.len();
        let conflict = propagate.propagate(&search.clauses, &mut search.trail);
        match search.respond(alloc, conflict)? {
            Step::Decided => {}
            Step::Back(length) => {
                propagate.cut(length as u64);
                propagate.added(&search.clauses)?;
            }
            Step::Ended(found) => return Ok(found),
        }
    }
}

/// A call with this budget, behind which variables are still set.
fn run_through(
    alloc: Global,
    search: &mut Search,
    watched: &mut Watched,
    budget: u64,
) -> Result<Found, AllocError>
    ensures grows { Grows search.old search.new }
    ensures ran { IfOk result (Ran budget search.old search.new) }
{
    search.begin(alloc, budget)?;
    watched.restart();
    solve_with(alloc, search, watched)
}

/// A call with this budget. The watches take the room that they had in earlier calls. No variable is set behind it.
pub fn run(
    alloc: Global,
    search: &mut Search,
    watched: &mut Watched,
    budget: u64,
) -> Result<Found, AllocError>
    ensures grows { Grows search.old search.new }
    ensures ran { IfOk result (Ran budget search.old search.new) }
{
    let found = run_through(alloc, search, watched, budget);
    search.cut(0);
    found
}

/// The list's clauses, and behind them those of another list from a place on.
fn joined(
    alloc: Global,
    list: &ClauseList,
    own: &ClauseList,
    from: usize,
) -> Result<ClauseList, AllocError>
    requires vars { own.now.vars ≤ list.now.vars }
    requires inside { from ≤ length own.now.clauses }
    ensures { IfOk result (λ r. r ≡ record { vars = list.now.vars; clauses = list.now.clauses ++ drop from own.now.clauses }) }
{
    let mut joined = copy_of(alloc, list)?;
    for i in from..own.len() {
        joined.push(own.clause(i))?;
    }
    Ok(joined)
}

/// Takes the list in place of the first clauses, and raises the ids of the log. Without memory clauses and log are as
/// before.
fn grow_search(search: &mut Search, list: &ClauseList, given: usize) -> Result<(), AllocError>
    requires inside { given ≤ length search.old.clauses.clauses }
    requires vars { search.old.clauses.vars ≤ list.now.vars }
    requires longer { given ≤ length list.now.clauses }
    requires ordered { AreOrdered given search.old.log }
    requires count { given + length search.old.log ≡ length search.old.clauses.clauses }
    ensures clauses { OnOk result (search.new.clauses ≡ record { vars = list.now.vars; clauses = list.now.clauses ++ drop given search.old.clauses.clauses }) }
    ensures log { OnOk result (search.new.log ≡ raised given (length list.now.clauses - given) search.old.log) }
    ensures same_clauses { OnErr result (search.new.clauses ≡ search.old.clauses) }
    ensures same_log { OnErr result (search.new.log ≡ search.old.log) }
{
    let alloc = *search.levels.allocator();
    let joined = joined(alloc, list, &search.clauses, given)?;
    search.order.widen(list.vars() as usize)?;
    // For the proof: the number of joined clauses fits 64 bits.
    let _few = joined.len();
    let by = list.len() - given;
    search.log.raise(given as u64, by as u64);
    search.clauses = joined;
    Ok(())
}

/// A solver that lives through rounds: between two calls its list may grow at the end. It keeps what was learned: the
/// learned clauses with their log and which of them stay in the search, the activities of variables, the values that they
/// had last, and room for watches.
#[derive(Drop)]
pub struct Solver {
    /// The number of given clauses.
    given: usize,
    /// The given clauses, all learned ones and their log; and the search that forgets none of them.
    search: Search,
    /// The search of the present segment, over the given clauses and the learned ones that stay.
    active: Search,
    /// The learned clauses that stay.
    kept: Vec<Kept>,
    /// Watches for the search that forgets nothing.
    watched: Watched,
}

impl Model for Solver {
    ghost use Rattle.hk_cdcl.specs.Held.{Held};

    ghost Value = { Held };

    ghost use Rattle.hk_cdcl.specs.Rounds.{held_of, IsSolver};

    ghost view = { held_of };

    ghost invariant = { IsSolver };
}

impl Solver {
    /// Before the first call over this list.
    pub fn new(alloc: Global, list: &ClauseList) -> Result<Solver, AllocError>
        ensures { IfOk result (λ s. s ≡ record { list = list.now; log = [] }) }
    {
        let search = Search::new(alloc, list)?;
        let none = ClauseList::new(alloc, 0);
        let active = Search::new(alloc, &none)?;
        Ok(Solver {
            given: list.len(),
            search,
            active,
            kept: Vec::new(alloc),
            watched: Watched::new(alloc),
        })
    }

    /// Takes a list that begins with the held one. The ids of the log are raised by the number of clauses that came, so
    /// that it is accepted over the new list.
    pub fn grow(&mut self, list: &ClauseList) -> Result<(), AllocError>
        requires { IsLonger self.old.list list.now (length list.now.clauses - length self.old.list.clauses) }
        ensures list { OnOk result (self.new.list ≡ list.now) }
        ensures log { OnOk result (self.new.log ≡ raised (length self.old.list.clauses) (length list.now.clauses - length self.old.list.clauses) self.old.log) }
        ensures unchanged { OnErr result (self.new ≡ self.old) }
    {
        self.watched.expect(list, self.given)?;
        grow_search(&mut self.search, list, self.given)?;
        self.given = list.len();
        Ok(())
    }

    /// A call, before the answer takes the log.
    fn run(&mut self, alloc: Global, budget: u64) -> Result<Found, AllocError>
        ensures list { self.new.list ≡ self.old.list }
        ensures log { Follows self.old.log self.new.log }
        ensures accepted { AreAccepted (start self.new.list) self.new.log }
        ensures came { IfOk result (Came self.old self.new budget) }
    {
        call(
            alloc,
            self.given,
            &mut self.search,
            &mut self.active,
            &mut self.kept,
            &mut self.watched,
            budget,
        )
    }
}

impl Solver {
    /// Solves the held list by clause learning, with a budget of at least 1 for the clauses that this call learns. Where
    /// learning and forgetting spends it, it is spent once more by a search that forgets nothing.
    ///
    /// Answers an assignment that satisfies the list; or a log in LRAT that refutes it; or, where the budget is spent, a log
    /// whose rows are accepted and whose last `budget` additions, those of this call, are each a clause that unit
    /// propagation did not give yet. A budget over 3^v, where v is the number of variables, is never spent. The answer's log
    /// is a copy; the solver keeps its own, which has no empty clause, and may be called again. Without memory it may have
    /// learned all the same.
    pub fn solve(&mut self, alloc: Global, budget: u64) -> Result<SolveEnd, AllocError>
        requires { 1 ≤ budget }
        ensures list { self.new.list ≡ self.old.list }
        ensures log { Follows self.old.log self.new.log }
        ensures accepted { AreAccepted (start self.new.list) self.new.log }
        ensures satisfies { IfOk result (IfSat (Satisfies self.old.list)) }
        ensures refutes { IfOk result (IfUnsat (Refutes self.old.list)) }
        ensures sound { IfOk result (IfUnsat (λ log. log_fault self.old.list log ≡ None)) }
        ensures unsatisfiable { IfOk result (IfUnsat (λ _. IsUnsatisfiable self.old.list)) }
        ensures spent { IfOk result (IfSpent (λ log. IsSpent self.old.list log budget)) }
        ensures count { IfOk result (IfSpent (λ log. length log ≡ length self.old.log + budget)) }
        ensures earlier { IfOk result (IfLogged (Follows self.old.log)) }
        ensures decided { 3 ^ self.old.list.vars < budget → IfOk result (IfSpent (λ _. ⊥)) }
    {
        self.answer(alloc, budget)
    }

    /// The same as the last call, whose answer takes the solver's own log.
    pub fn finish(self, alloc: Global, budget: u64) -> Result<SolveEnd, AllocError>
        requires { 1 ≤ budget }
        ensures satisfies { IfOk result (IfSat (Satisfies self.list)) }
        ensures refutes { IfOk result (IfUnsat (Refutes self.list)) }
        ensures sound { IfOk result (IfUnsat (λ log. log_fault self.list log ≡ None)) }
        ensures unsatisfiable { IfOk result (IfUnsat (λ _. IsUnsatisfiable self.list)) }
        ensures spent { IfOk result (IfSpent (λ log. IsSpent self.list log budget)) }
        ensures count { IfOk result (IfSpent (λ log. length log ≡ length self.log + budget)) }
        ensures earlier { IfOk result (IfLogged (Follows self.log)) }
        ensures decided { 3 ^ self.list.vars < budget → IfOk result (IfSpent (λ _. ⊥)) }
    {
        self.last_answer(alloc, budget)
    }

    /// A call, with the answer in one clause.
    fn answer(&mut self, alloc: Global, budget: u64) -> Result<SolveEnd, AllocError>
        ensures list { self.new.list ≡ self.old.list }
        ensures log { Follows self.old.log self.new.log }
        ensures accepted { AreAccepted (start self.new.list) self.new.log }
        ensures ends { IfOk result (Ends self.old budget) }
    {
        match self.run(alloc, budget)? {
            Found::Sat(assignment) => Ok(SolveEnd::Sat(assignment)),
            Found::Unsat(row) => {
                let mut log = self.search.log.copy(alloc)?;
                log.push(row)?;
                Ok(SolveEnd::Unsat(log))
            }
            Found::Spent => {
                let log = self.search.log.copy(alloc)?;
                Ok(SolveEnd::Spent(log))
            }
        }
    }

    /// The last call, with the answer in one clause.
    fn last_answer(mut self, alloc: Global, budget: u64) -> Result<SolveEnd, AllocError>
        ensures { IfOk result (Ends self budget) }
    {
        let found = self.run(alloc, budget)?;
        let log = self.into_log();
        match found {
            Found::Sat(assignment) => Ok(SolveEnd::Sat(assignment)),
            Found::Unsat(row) => close(log, row),
            Found::Spent => Ok(SolveEnd::Spent(log)),
        }
    }

    /// The log, with no copy.
    fn into_log(self) -> LratLog
        ensures { result ≡ self.log }
    {
        let Solver {
            given: _,
            search,
            active,
            kept,
            watched,
        } = self;
        drop(active);
        drop(kept);
        drop(watched);
        search.into_log()
    }
}

/// The log that ends with this row.
fn close(mut log: LratLog, row: LratRow) -> Result<SolveEnd, AllocError>
    ensures { IfOk result (λ end. end ≡ Unsat (log ++ row ∷ [])) }
{
    log.push(row)?;
    Ok(SolveEnd::Unsat(log))
}

/// Solves the list by clause learning, with a budget of at least 1 for learned clauses: the only call of a new solver.
///
/// Answers an assignment that satisfies the list; or a log in LRAT that refutes it; or, where the budget is spent, a log
/// whose rows are accepted and whose `budget` additions are each a clause that unit propagation did not give yet.
/// A budget over 3^v, where v is the number of variables, is never spent.
pub fn solve(alloc: Global, list: &ClauseList, budget: u64) -> Result<SolveEnd, AllocError>
    requires { 1 ≤ budget }
    ensures satisfies { IfOk result (IfSat (Satisfies list.now)) }
    ensures refutes { IfOk result (IfUnsat (Refutes list.now)) }
    ensures accepted { IfOk result (IfUnsat (λ log. log_fault list.now log ≡ None)) }
    ensures unsatisfiable { IfOk result (IfUnsat (λ _. IsUnsatisfiable list.now)) }
    ensures spent { IfOk result (IfSpent (λ log. IsSpent list.now log budget)) }
    ensures count { IfOk result (IfSpent (λ log. length log ≡ budget)) }
    ensures decided { 3 ^ list.now.vars < budget → IfOk result (IfSpent (λ _. ⊥)) }
{
    let solver = Solver::new(alloc, list)?;
    solver.finish(alloc, budget)
}
