//! Proofs of obligations: what shows that no case violates one.
//!
//! Stands on the instances of questions and on logs. In come instances with a log, or that every case was tried; out go lists of proofs,
//! one for each obligation of a handler.
#![tactic(auto)]

ghost use Rattle.std.specs.Prelude.{◌≡◌, ◌==◌, ◌++◌, ◌∷◌, [], length, OnOk, OnErr};

use hk_inst::InstanceList;
use hk_lrat::LratLog;
use std::alloc::{AllocError, Global};
use std::marker::Model;

/// What shows that no case violates an obligation.
#[derive(Debug, Drop)]
pub enum Proof {
    /// The log refutes the clauses of the obligation's question, once these instances were added to it in their order.
    Refuted {
        instances: InstanceList,
        log: LratLog,
    },
    /// Every case was tried, and none violates it.
    AllCases,
}

/// Proofs in the order of a handler's obligations. A contract sees a list.
#[derive(Debug, Drop)]
pub struct ProofList {
    items: Vec<Proof>,
}

impl Model for ProofList {
    ghost use Rattle.std.specs.Prelude.{List};
    ghost use Rattle.hk_proof.specs.declared.Proof.{Proof};

    ghost Value = { List Proof };

    ghost view = { λ l. l.items.items };
}

impl ProofList {
    /// No proof. It takes no memory.
    pub fn new(alloc: Global) -> ProofList
        ensures { result ≡ [] }
    {
        ProofList {
            items: Vec::new(alloc),
        }
    }

    /// These proofs. It takes no memory.
    pub fn from_vec(items: Vec<Proof>) -> ProofList
        ensures { result ≡ items.items }
    {
        ProofList { items }
    }

    /// A proof more, behind the others. Without memory the list is as before.
    pub fn push(&mut self, proof: Proof) -> Result<(), AllocError>
        ensures ok { OnOk result (self.new ≡ self.old ++ proof ∷ []) }
        ensures err { OnErr result (self.new ≡ self.old) }
    {
        self.items.push(proof)?;
        Ok(())
    }

    /// The proofs, lent.
    pub fn as_slice(&self) -> &[Proof]
        ensures { result.now ≡ self.now }
    {
        self.items.as_slice()
    }

    /// How many proofs there are.
    pub fn len(&self) -> usize
        ensures { result ≡ length self.now }
    {
        self.items.len()
    }

    /// Whether there is no proof.
    pub fn is_empty(&self) -> bool
        ensures { result ≡ (length self.now == 0) }
    {
        self.items.is_empty()
    }
}
