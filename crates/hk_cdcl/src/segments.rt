//! A search in segments. As long as all learned clauses stay, a segment goes over the whole list. Then each is a search of its own
//! over the given clauses and the learned ones that stay; what it learns comes to the whole list, and then most of it is left
//! behind. So the clauses that are watched stay few, as in MiniSat (Eén and Sörensson 2003).

ghost use Rattle.std.specs.Prelude.{◌≡◌, ◌-◌, ◌<◌, ◌≤◌, length, take, IfOk, IfSome, OnOk};
ghost use Rattle.hk_cdcl.specs.Names.{AreNames, front_of};
ghost use Rattle.hk_cdcl.specs.Forgetting.{IsBegun, IsSearched, Learns, Says, Tells, Answers, answer_of};
ghost use Rattle.hk_cdcl.specs.Searching.{IsLogged};
ghost use Rattle.hk_cdcl.specs.States.{Grows, Ran};

use crate::active::{Kept, choose, renamed};
use crate::names::{Part, close_named, learn_named, part_of};
use crate::search::{Found, Search};
use crate::solver::run;
use crate::watched::Watched;
use hk_cnf::Assignment;
use hk_lrat::{LratLog, LratRow};
use std::alloc::{AllocError, Global};

/// What a segment came to that did not spend its budget.
#[derive(Drop)]
pub enum Answer {
    /// All clauses are true under this assignment.
    Sat(Assignment),
    /// With this row, which adds the empty clause, the log refutes the list.
    Unsat(LratRow),
}

/// What a call has for its segments.
#[derive(Clone, Copy)]
struct Plan {
    /// The clauses that the next segment may learn.
    length: u64,
    /// The learned clauses that stay behind it.
    room: usize,
}

/// The clauses that the first segment may learn, and the learned ones that stay behind it, but for a third of the given ones.
const FIRST: usize = 1_000;

/// By how much each segment is longer than the one before it.
const LONGER: u64 = 100;

/// By how much more stays behind each segment than behind the one before it.
const MORE: usize = 50;

impl Plan {
    /// For the first segment over so many given clauses.
    fn new(given: usize) -> Plan {
        let room = FIRST.saturating_add(given / 3);
        Plan {
            length: room as u64,
            room,
        }
    }

    /// For the segment behind.
    fn next(self) -> Plan {
        Plan {
            length: self.length.saturating_add(LONGER),
            room: self.room.saturating_add(MORE),
        }
    }

    /// The budget of the segment, of which so much is left.
    fn budget(self, left: u64) -> u64
        requires { 0 < left }
        ensures some { 0 < result }
        ensures most { result ≤ left }
    {
        if self.length < left && 0 < self.length {
            self.length
        } else {
            left
        }
    }
}

/// Begins a segment over the given clauses and those that stay. Gives their names.
fn begin(
    alloc: Global,
    given: usize,
    whole: &Search,
    active: &mut Search,
    kept: &[Kept],
) -> Result<Vec<u64>, AllocError>
    requires { given ≤ length whole.now.clauses.clauses }
    ensures { IfOk result (λ names. IsBegun given whole.now active.new names.items) }
{
    let Part { clauses, names } = part_of(alloc, &whole.clauses, given, kept)?;
    active.clauses = clauses;
    active.log = LratLog::new(alloc);
    Ok(names)
}

/// Adds to the whole list what the segment learned, and names it.
fn take_over(
    alloc: Global,
    whole: &mut Search,
    active: &Search,
    names: &mut Vec<u64>,
) -> Result<(), AllocError>
    requires { IsSearched whole.old active.now names.old.items }
    ensures learns { Learns whole.old whole.new }
    ensures names { OnOk result (AreNames active.now.clauses.clauses whole.new.clauses.clauses names.new.items) }
{
    let first = names.len() - 1;
    let rows = active.log.as_slice();
    for i in 0..rows.len() {
        learn_named(alloc, whole, &active.clauses, names, first + i, &rows[i])?;
    }
    Ok(())
}

/// The answer of a segment for the whole list.
fn tell(
    alloc: Global,
    whole: &mut Search,
    active: &Search,
    names: &[u64],
    found: Found,
) -> Result<Option<Answer>, AllocError>
    requires says { Says active.now found }
    requires names { AreNames active.now.clauses.clauses whole.old.clauses.clauses names.now }
    ensures clauses { whole.new.clauses ≡ whole.old.clauses }
    ensures log { whole.new.log ≡ whole.old.log }
    ensures tells { IfOk result (λ r. IfSome r (Tells active.now whole.new)) }
{
    match found {
        Found::Sat(assignment) => Ok(Some(Answer::Sat(assignment))),
        Found::Unsat(row) => {
            let row = close_named(alloc, whole, active, names, &row)?;
            Ok(Some(Answer::Unsat(row)))
        }
        Found::Spent => Ok(None),
    }
}

/// Exchanges the orders of decisions, with all activities and values that variables had last.
fn exchange_orders(one: &mut Search, other: &mut Search)
    ensures one_clauses { one.new.clauses ≡ one.old.clauses }
    ensures one_log { one.new.log ≡ one.old.log }
    ensures other_clauses { other.new.clauses ≡ other.old.clauses }
    ensures other_log { other.new.log ≡ other.old.log }
{
    std::mem::swap(&mut one.order, &mut other.order);
}

/// A call with this budget over a part of the whole list, in the order of decisions of the whole search.
fn run_part(
    alloc: Global,
    whole: &mut Search,
    active: &mut Search,
    budget: u64,
) -> Result<Found, AllocError>
    ensures clauses { whole.new.clauses ≡ whole.old.clauses }
    ensures log { whole.new.log ≡ whole.old.log }
    ensures grows { Grows active.old active.new }
    ensures ran { IfOk result (Ran budget active.old active.new) }
{
    let mut watched = Watched::new(alloc);
    exchange_orders(whole, active);
    let found = run(alloc, active, &mut watched, budget);
    exchange_orders(whole, active);
    found
}

/// A segment with this budget over the given clauses and those that stay. Behind it there is room for so many learned clauses.
fn segment_of_kept(
    alloc: Global,
    given: usize,
    whole: &mut Search,
    active: &mut Search,
    kept: &mut Vec<Kept>,
    budget: u64,
    room: usize,
) -> Result<Option<Answer>, AllocError>
    requires { given ≤ length whole.old.clauses.clauses }
    ensures learns { Learns whole.old whole.new }
    ensures answers { IfOk result (λ r. IfSome r (Answers given whole.new)) }
{
    let mut names = begin(alloc, given, whole, active, kept.as_slice())?;
    let found = run_part(alloc, whole, active, budget)?;
    take_over(alloc, whole, active, &mut names)?;
    let stay = choose(alloc, active, given, kept.as_slice(), room)?;
    *kept = renamed(alloc, stay.as_slice(), names.as_slice(), given)?;
    tell(alloc, whole, active, names.as_slice(), found)
}

/// The answer of a segment over the whole list.
fn answer_of(found: Found) -> Option<Answer>
    ensures { result ≡ answer_of found }
{
    match found {
        Found::Sat(assignment) => Some(Answer::Sat(assignment)),
        Found::Unsat(row) => Some(Answer::Unsat(row)),
        Found::Spent => None,
    }
}

/// A segment with this budget over the whole list. Behind it there is room for so many learned clauses.
fn segment_of_all(
    alloc: Global,
    given: usize,
    whole: &mut Search,
    watched: &mut Watched,
    kept: &mut Vec<Kept>,
    budget: u64,
    room: usize,
) -> Result<Option<Answer>, AllocError>
    requires inside { given ≤ length whole.old.clauses.clauses }
    requires logged { IsLogged (front_of given whole.old.clauses) whole.old.clauses whole.old.log }
    ensures learns { Learns whole.old whole.new }
    ensures answers { IfOk result (λ r. IfSome r (Answers given whole.new)) }
{
    let found = run(alloc, whole, watched, budget)?;
    *kept = choose(alloc, whole, given, kept.as_slice(), room)?;
    Ok(answer_of(found))
}

/// A segment as planned: over the whole list as long as all learned clauses stay, which takes no copy of it.
fn segment(
    alloc: Global,
    given: usize,
    whole: &mut Search,
    active: &mut Search,
    watched: &mut Watched,
    kept: &mut Vec<Kept>,
    plan: Plan,
) -> Result<Option<Answer>, AllocError>
    requires inside { given ≤ length whole.old.clauses.clauses }
    requires logged { IsLogged (front_of given whole.old.clauses) whole.old.clauses whole.old.log }
    ensures learns { Learns whole.old whole.new }
    ensures answers { IfOk result (λ r. IfSome r (Answers given whole.new)) }
{
    if whole.log.len() == kept.len() {
        return segment_of_all(alloc, given, whole, watched, kept, plan.length, plan.room);
    }
    *watched = Watched::new(alloc);
    segment_of_kept(alloc, given, whole, active, kept, plan.length, plan.room)
}

/// Segments one after another until one has an answer, or they learned as many clauses as the budget says.
pub fn segments(
    alloc: Global,
    given: usize,
    whole: &mut Search,
    active: &mut Search,
    watched: &mut Watched,
    kept: &mut Vec<Kept>,
    budget: u64,
) -> Result<Option<Answer>, AllocError>
    requires inside { given ≤ length whole.old.clauses.clauses }
    requires logged { IsLogged (front_of given whole.old.clauses) whole.old.clauses whole.old.log }
    ensures learns { Learns whole.old whole.new }
    ensures answers { IfOk result (λ r. IfSome r (Answers given whole.new)) }
{
    let mut plan = Plan::new(given);
    let mut left = budget;
    'more: while 0 < left {
        let most = plan.budget(left);
        let next = Plan {
            length: most,
            room: plan.room,
        };
        let end = segment(alloc, given, whole, active, watched, kept, next)?;
        if let Some(answer) = end {
            return Ok(Some(answer));
        }
        left -= most;
        plan = plan.next();
    }
    Ok(None)
}
