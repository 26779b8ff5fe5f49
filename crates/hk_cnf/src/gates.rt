//! Gates: clauses that fix new variables as conjunctions of earlier literals.

ghost use Rattle.std.specs.Prelude.{◌≡◌, ◌+◌, ◌<◌, ◌≤◌, ◌^◌, ◌++◌, ◌∷◌, [], ◌&&◌, true, ℕ, Bool, ℤ, List, length, take, drop, All, OnOk, OnErr, IfOk};
ghost use Rattle.hk_cnf.specs.Literal.{IsWithin, place_of, value_at};
ghost use Rattle.hk_cnf.specs.Clauses.{AreWithin, clause_value, clauses_value};
ghost use Rattle.hk_cnf.specs.Circuit.{Circuit, AreOperands, variable, made, conjoined, gate_value, clauses_end, all_gate_clauses, truth_with};
ghost use Rattle.hk_cnf.specs.CircuitParts.{IsCircuit, IsGateWithin};
ghost use Rattle.hk_cnf.specs.CircuitGrowth.{clause_holds, holds, IsGrown, inputs_of, values_of, Extends};
ghost use Rattle.hk_cnf.specs.Determined.{IsDetermined, IsMixed, Mixes};
ghost use Rattle.hk_cnf.specs.Front.{IsFront};
ghost use Rattle.hk_cnf.specs.Required.{required_of};

use crate::clauses::ClauseList;
use crate::direct::Direct;
use crate::gate_clauses::{MOST_VARS, add, find};
use crate::literal::Lit;
use crate::operation::{Operation, Placed};
use crate::simple_and::{and_operation, without_gate};
use indexmap::IndexMap;
use std::alloc::{AllocError, Global};
use std::marker::Model;

/// How much of each kind a table of gates has.
#[derive(Clone, Copy, PartialEq, Eq, Debug)]
pub struct GateSizes {
    /// The number of variables.
    pub vars: u64,
    /// The number of clauses.
    pub clauses: u64,
    /// The number of gates.
    pub gates: u64,
}

/// Clauses over variables, some of which are fixed by gates. A gate is the truth, with one clause, or the conjunction
/// of two literals, with Tseitin's three. An operation has at most one gate.
#[derive(Drop)]
pub struct Gates {
    list: ClauseList,
    gates: IndexMap<Operation, Placed, Direct>,
    truth: Option<Lit>,
}

impl Model for Gates {
    ghost use Rattle.hk_cnf.specs.Circuit.{Circuit};

    ghost Value = { Circuit };

    ghost use Rattle.hk_cnf.specs.GatesView.{circuit_of, IsKept};

    ghost view = { circuit_of };

    ghost invariant = { IsKept };
}

/// The literal that is true, once a gate is added for this operation.
fn truth_after(truth: Option<Lit>, op: Operation, lit: Lit) -> Option<Lit>
    ensures { result ≡ truth_with truth op lit }
{
    match op {
        Operation::True => Some(lit),
        Operation::And(_, _) => truth,
    }
}

impl Gates {
    /// No variable, no clause and no gate.
    pub fn new(alloc: Global) -> Gates
        ensures { result ≡ record { vars = 0; clauses = []; gates = [] } }
    {
        Gates {
            list: ClauseList::new(alloc, 0),
            gates: IndexMap::with_hasher(alloc, Direct::new()),
            truth: None,
        }
    }

    /// The literal of an operation: that of its gate, which is added where there is none.
    fn make(&mut self, op: Operation) -> Result<Lit, AllocError>
        requires { AreOperands self.old.vars op }
        ensures literal { IfOk result (λ l. l ≡ (made self.old op).literal) }
        ensures circuit { OnOk result (self.new ≡ (made self.old op).circuit) }
        ensures err { OnErr result (self.new ≡ self.old) }
        ensures before { IsCircuit self.old }
        ensures after { IsCircuit self.new }
    {
        match find(&self.gates, op) {
            Some(lit) => Ok(lit),
            None => {
                let lit = add(&mut self.list, &mut self.gates, op)?;
                self.truth = truth_after(self.truth, op, lit);
                Ok(lit)
            }
        }
    }

    /// A variable at the end.
    fn add_variable(&mut self) -> Result<Lit, AllocError>
        ensures literal { IfOk result (λ l. l ≡ variable self.old.vars) }
        ensures circuit { OnOk result (self.new ≡ record self.old { vars = self.old.vars + 1 }) }
        ensures err { OnErr result (self.new ≡ self.old) }
        ensures before { IsCircuit self.old }
        ensures after { IsCircuit self.new }
    {
        let vars = self.list.vars();
        if vars >= MOST_VARS {
            return Err(AllocError);
        }
        self.list.widen(vars + 1);
        Ok(Lit::of_place(vars))
    }

    /// A variable that no clause speaks of yet. It takes no memory; want of it is answered where all variables are used up.
    pub fn fresh(&mut self) -> Result<Lit, AllocError>
        ensures literal { IfOk result (λ l. l ≡ variable self.old.vars) }
        ensures circuit { OnOk result (self.new ≡ record self.old { vars = self.old.vars + 1 }) }
        ensures err { OnErr result (self.new ≡ self.old) }
        ensures vars { self.old.vars ≤ self.new.vars }
        ensures keeps { (l : ℤ) → place_of l < self.old.vars → (v : ℕ → Bool) → gate_value self.new l v ≡ gate_value self.old l v }
        ensures grows { (c : Circuit) → IsGrown c self.old → IsGrown c self.new }
        ensures beside { required_of self.new ≡ required_of self.old }
        ensures within { IfOk result (λ l. IsWithin self.new.vars l) }
        ensures value { IfOk result (λ l. (v : ℕ → Bool) → gate_value self.new l v ≡ v self.old.vars) }
        ensures extends { OnOk result ((u : List Bool) → length u ≡ self.old.vars → clauses_value u self.old.clauses ≡ true → (b : Bool) → Extends self.new u (b ∷ [])) }
    {
        self.add_variable()
    }

    /// The conjunction of two literals, by a gate where it needs one.
    fn conjoin(&mut self, a: Lit, b: Lit) -> Result<Lit, AllocError>
        requires first { IsWithin self.old.vars a }
        requires second { IsWithin self.old.vars b }
        ensures literal { IfOk result (λ l. l ≡ (conjoined self.old a b).literal) }
        ensures circuit { OnOk result (self.new ≡ (conjoined self.old a b).circuit) }
        ensures err { OnErr result (self.new ≡ self.old) }
        ensures before { IsCircuit self.old }
        ensures after { IsCircuit self.new }
    {
        match without_gate(self.truth, a, b) {
            Some(lit) => Ok(lit),
            None => self.make(and_operation(a, b)),
        }
    }

    /// The literal that is true: a gate without operands, made once. What is said after `and` holds here too.
    pub fn constant(&mut self) -> Result<Lit, AllocError>
        ensures literal { IfOk result (λ l. l ≡ (made self.old Operation.True).literal) }
        ensures circuit { OnOk result (self.new ≡ (made self.old Operation.True).circuit) }
        ensures err { OnErr result (self.new ≡ self.old) }
        ensures vars { self.old.vars ≤ self.new.vars }
        ensures keeps { (l : ℤ) → place_of l < self.old.vars → (v : ℕ → Bool) → gate_value self.new l v ≡ gate_value self.old l v }
        ensures grows { (c : Circuit) → IsGrown c self.old → IsGrown c self.new }
        ensures inputs { inputs_of self.new ≡ inputs_of self.old }
        ensures beside { required_of self.new ≡ required_of self.old }
        ensures within { IfOk result (λ l. IsWithin self.new.vars l) }
        ensures value { IfOk result (λ l. (v : ℕ → Bool) → gate_value self.new l v ≡ true) }
        ensures extends { (a : List Bool) → length a ≡ self.old.vars → clauses_value a self.old.clauses ≡ true → (more : List Bool) × Extends self.new a more }
    {
        self.make(Operation::True)
    }

    /// The literal that is the conjunction of two. It is one of them or a constant where that serves, else the literal
    /// of an earlier gate of the same two, else that of a new gate. Without memory all is as before.
    pub fn and(&mut self, a: Lit, b: Lit) -> Result<Lit, AllocError>
        requires first { IsWithin self.old.vars a }
        requires second { IsWithin self.old.vars b }
        ensures literal { IfOk result (λ l. l ≡ (conjoined self.old a b).literal) }
        ensures circuit { OnOk result (self.new ≡ (conjoined self.old a b).circuit) }
        ensures err { OnErr result (self.new ≡ self.old) }
        ensures vars { self.old.vars ≤ self.new.vars }
        ensures keeps { (l : ℤ) → place_of l < self.old.vars → (v : ℕ → Bool) → gate_value self.new l v ≡ gate_value self.old l v }
        ensures grows { (c : Circuit) → IsGrown c self.old → IsGrown c self.new }
        ensures inputs { inputs_of self.new ≡ inputs_of self.old }
        ensures beside { required_of self.new ≡ required_of self.old }
        ensures within { IfOk result (λ l. IsWithin self.new.vars l) }
        ensures value { IfOk result (λ l. (v : ℕ → Bool) → gate_value self.new l v ≡ (gate_value self.old a v && gate_value self.old b v)) }
        ensures conjunction { IfOk result (λ l. (u : List Bool) → clauses_value u (all_gate_clauses self.new.gates) ≡ true → value_at u l ≡ (value_at u a && value_at u b)) }
        ensures extends { (u : List Bool) → length u ≡ self.old.vars → clauses_value u self.old.clauses ≡ true → (more : List Bool) × Extends self.new u more }
    {
        self.conjoin(a, b)
    }

    /// A clause at the end.
    fn add_clause(&mut self, lits: &[Lit]) -> Result<(), AllocError>
        requires { All (IsWithin self.old.vars) lits.now }
        ensures ok { OnOk result (self.new ≡ record self.old { clauses = self.old.clauses ++ lits.now ∷ [] }) }
        ensures err { OnErr result (self.new ≡ self.old) }
        ensures before { IsCircuit self.old }
    {
        self.list.push(lits)
    }

    /// Adds a clause that is no gate's. Variables and gates are as before. Without memory all is as before.
    pub fn require(&mut self, lits: &[Lit]) -> Result<(), AllocError>
        requires { All (IsWithin self.old.vars) lits.now }
        ensures ok { OnOk result (self.new ≡ record self.old { clauses = self.old.clauses ++ lits.now ∷ [] }) }
        ensures err { OnErr result (self.new ≡ self.old) }
        ensures vars { self.new.vars ≡ self.old.vars }
        ensures gates { self.new.gates ≡ self.old.gates }
        ensures keeps { (l : ℤ) (v : ℕ → Bool) → gate_value self.new l v ≡ gate_value self.old l v }
        ensures front { (c : Circuit) → IsFront c self.old → IsFront c self.new }
        ensures inputs { OnOk result (inputs_of self.new ≡ record (inputs_of self.old) { required = (inputs_of self.old).required + 1 }) }
        ensures beside { OnOk result (required_of self.new ≡ required_of self.old ++ lits.now ∷ []) }
        ensures holds { OnOk result ((v : ℕ → Bool) → holds self.new v ≡ (holds self.old v && clause_holds self.old lits.now v)) }
        ensures satisfied { OnOk result ((u : List Bool) → clauses_value u self.new.clauses ≡ (clauses_value u self.old.clauses && clause_value u lits.now)) }
    {
        self.add_clause(lits)
    }

    /// How many variables, clauses and gates there are.
    pub fn sizes(&self) -> GateSizes
        ensures vars { result.vars ≡ self.now.vars }
        ensures clauses { result.clauses ≡ length self.now.clauses }
        ensures gates { result.gates ≡ length self.now.gates }
        ensures circuit { IsCircuit self.now }
    {
        GateSizes {
            vars: self.list.vars(),
            clauses: self.list.len() as u64,
            gates: self.gates.len() as u64,
        }
    }

    /// Keeps the first variables, clauses and gates. What is kept speaks of what is kept, and each kept variable is
    /// fixed by a kept gate or by none. So it is where these are the sizes of what stood here before more was added, and
    /// then all is as it was (`laws::a_circuit_can_be_cut_to_its_front`).
    pub fn cut(&mut self, to: GateSizes)
        requires vars { to.vars ≤ self.old.vars }
        requires clauses { to.clauses ≤ length self.old.clauses }
        requires gates { to.gates ≤ length self.old.gates }
        requires kept_clauses { AreWithin to.vars (take to.clauses self.old.clauses) }
        requires kept_gates { All (IsGateWithin to.vars) (take to.gates self.old.gates) }
        requires their_clauses { All (λ g. clauses_end g ≤ to.clauses) (take to.gates self.old.gates) }
        requires fresh_or_kept { All (λ g. to.vars ≤ g.1.output) (drop to.gates self.old.gates) }
        ensures prefixes { self.new ≡ record { vars = to.vars; clauses = take to.clauses self.old.clauses; gates = take to.gates self.old.gates } }
        ensures keeps { (l : ℤ) → place_of l < to.vars → (v : ℕ → Bool) → gate_value self.new l v ≡ gate_value self.old l v }
        ensures back { (c : Circuit) → IsFront c self.old → to.vars ≡ c.vars → to.clauses ≡ length c.clauses → to.gates ≡ length c.gates → self.new ≡ c }
    {
        self.list.cut(to.vars, to.clauses as usize);
        self.gates.truncate(to.gates as usize);
        self.truth = find(&self.gates, Operation::True);
    }

    /// The clauses, those of the gates and those that were required.
    pub fn clauses(&self) -> &ClauseList
        ensures same { result.now ≡ record { vars = self.now.vars; clauses = self.now.clauses } }
        ensures exact { (a : List Bool) → clauses_value a (all_gate_clauses self.now.gates) ≡ true → (l : ℤ) → gate_value self.now l (values_of a) ≡ value_at a l }
        ensures determined { IsDetermined self.now }
        ensures mixed { IsMixed self.now }
        ensures required { Mixes (all_gate_clauses self.now.gates) (required_of self.now) self.now.clauses }
        ensures count { length (required_of self.now) ≡ (inputs_of self.now).required }
        ensures satisfied { (a : List Bool) → clauses_value a self.now.clauses ≡ (clauses_value a (all_gate_clauses self.now.gates) && clauses_value a (required_of self.now)) }
    {
        &self.list
    }

    /// The clauses, with no copy.
    pub fn into_clauses(self) -> ClauseList
        ensures same { result ≡ record { vars = self.vars; clauses = self.clauses } }
        ensures exact { (a : List Bool) → clauses_value a (all_gate_clauses self.gates) ≡ true → (l : ℤ) → gate_value self l (values_of a) ≡ value_at a l }
        ensures determined { IsDetermined self }
        ensures mixed { IsMixed self }
        ensures required { Mixes (all_gate_clauses self.gates) (required_of self) self.clauses }
        ensures count { length (required_of self) ≡ (inputs_of self).required }
        ensures satisfied { (a : List Bool) → clauses_value a self.clauses ≡ (clauses_value a (all_gate_clauses self.gates) && clauses_value a (required_of self)) }
    {
        let Gates { list, .. } = self;
        list
    }
}
