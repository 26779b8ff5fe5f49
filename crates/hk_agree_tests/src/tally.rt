//! Counts of what handlers came to, and the line that shows them.

use crate::decided::{Bits, ByCases, ByClauses, Decided};
use hk_case::Obligation;
use std::alloc::{AllocError, Global};

/// How many handlers came to what.
#[derive(Clone, Copy)]
pub struct Tally {
    pub drawn: u64,
    /// Those of which a text was refused.
    refused: u64,
    /// Those of an obligation whose cases have fewer than 8 or more than 16 bits.
    outside: u64,
    accepted: u64,
    undefined: u64,
    invariant: u64,
    state: u64,
    returned: u64,
    property: u64,
    /// Those that both ways do not decide alike.
    differ: u64,
    bits: Bits,
}

/// One more.
fn more(count: &mut u64) {
    *count = count.saturating_add(1);
}

impl Tally {
    pub fn new() -> Tally {
        Tally {
            drawn: 0,
            refused: 0,
            outside: 0,
            accepted: 0,
            undefined: 0,
            invariant: 0,
            state: 0,
            returned: 0,
            property: 0,
            differ: 0,
            bits: Bits {
                fewest: u64::MAX,
                most: 0,
            },
        }
    }

    /// Counts a rejection by its obligation.
    fn count_rejected(&mut self, obligation: Obligation) {
        match obligation {
            Obligation::Undefined => more(&mut self.undefined),
            Obligation::Invariant(_) => more(&mut self.invariant),
            Obligation::State(_) => more(&mut self.state),
            Obligation::ResultValue => more(&mut self.returned),
            Obligation::Property(_) => more(&mut self.property),
        }
    }

    /// Counts what all cases say.
    fn count_cases(&mut self, by_cases: ByCases) {
        match by_cases {
            ByCases::Accepted => more(&mut self.accepted),
            ByCases::Rejected(obligation) => self.count_rejected(obligation),
            ByCases::Wide => {}
        }
    }

    /// Takes the bits of the cases of a handler.
    fn count_bits(&mut self, bits: Bits) {
        if bits.fewest < 8 || bits.most > 16 {
            more(&mut self.outside);
        }
        self.bits = Bits {
            fewest: self.bits.fewest.min(bits.fewest),
            most: self.bits.most.max(bits.most),
        };
    }

    /// Counts a handler; nothing was decided where a text was refused.
    pub fn count(&mut self, found: Option<Decided>) {
        more(&mut self.drawn);
        match found {
            Some(decided) => {
                self.count_bits(decided.bits);
                self.count_cases(decided.by_cases);
                if !agree(decided.by_clauses, decided.by_cases) {
                    more(&mut self.differ);
                }
            }
            None => more(&mut self.refused),
        }
    }

    /// How many were rejected.
    fn rejected(&self) -> u64 {
        self.undefined
            .saturating_add(self.invariant)
            .saturating_add(self.state)
            .saturating_add(self.returned)
            .saturating_add(self.property)
    }

    /// The line that shows the counts behind a name.
    pub fn line(&self, alloc: Global, name: &str) -> Result<String, AllocError> {
        let drawn = self.drawn;
        let accepted = self.accepted;
        let rejected = self.rejected();
        let kinds = self.kinds(alloc)?;
        let rest = self.rest(alloc)?;
        format!(in alloc;
            "{name}: {drawn} drawn, {accepted} accepted, {rejected} rejected ({kinds}), {rest}"
        )
    }

    /// The rejections by their obligations.
    fn kinds(&self, alloc: Global) -> Result<String, AllocError> {
        let undefined = self.undefined;
        let invariant = self.invariant;
        let state = self.state;
        let returned = self.returned;
        let property = self.property;
        format!(in alloc;
            "{undefined} undefined, {invariant} invariant, {state} state, {returned} result, {property} property"
        )
    }

    /// The bits, and what is to be 0.
    fn rest(&self, alloc: Global) -> Result<String, AllocError> {
        let fewest = self.bits.fewest;
        let most = self.bits.most;
        let refused = self.refused;
        let outside = self.outside;
        let differ = self.differ;
        format!(in alloc;
            "{fewest} to {most} bits, {outside} outside 8 to 16, {refused} refused, {differ} differ"
        )
    }

    /// Adds the counts of another.
    pub fn add(&mut self, other: &Tally) {
        self.drawn = self.drawn.saturating_add(other.drawn);
        self.refused = self.refused.saturating_add(other.refused);
        self.outside = self.outside.saturating_add(other.outside);
        self.accepted = self.accepted.saturating_add(other.accepted);
        self.undefined = self.undefined.saturating_add(other.undefined);
        self.invariant = self.invariant.saturating_add(other.invariant);
        self.state = self.state.saturating_add(other.state);
        self.returned = self.returned.saturating_add(other.returned);
        self.property = self.property.saturating_add(other.property);
        self.differ = self.differ.saturating_add(other.differ);
        self.bits = Bits {
            fewest: self.bits.fewest.min(other.bits.fewest),
            most: self.bits.most.max(other.bits.most),
        };
    }
}

/// Whether both ways decide alike: accepted by both, or rejected at the same obligation with a case that violates it.
fn agree(by_clauses: ByClauses, by_cases: ByCases) -> bool {
    match (by_clauses, by_cases) {
        (ByClauses::Accepted, ByCases::Accepted) => true,
        (ByClauses::Rejected(obligation, is_confirmed), ByCases::Rejected(first)) => {
            is_confirmed && obligation == first
        }
        _ => false,
    }
}
