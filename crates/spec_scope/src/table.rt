//! Names with what they mean.

ghost use Rattle.std.specs.Prelude.{◌≡◌, [], OnOk, bytes_eq};
ghost use Rattle.std.specs.Map.{lookup};
ghost use Rattle.spec_scope.specs.Scope.{meaning_of, with_name};

use crate::meaning::Meaning;
use indexmap::IndexMap;
use std::alloc::{AllocError, Global};
use std::marker::Model;

/// Names with what they mean, each once, seen by contracts as the list of them. Looking a name up takes constant time.
#[derive(Drop)]
pub struct NameTable<'t> {
    rows: IndexMap<&'t [u8], Meaning>,
}

impl<'t> Model for NameTable<'t> {
    ghost use Rattle.std.specs.Prelude.{ℕ, List};
    ghost use Rattle.spec_scope.specs.Scope.{Names};
    ghost use Rattle.spec_scope.specs.Words.{pairs};

    ghost Value = { Names };

    ghost view = { λ t. pairs t.rows.entries };
}

/// What stands with a name.
fn row(rows: &IndexMap<&[u8], Meaning>, name: &[u8]) -> Option<Meaning>
    ensures { result ≡ lookup (λ k. bytes_eq name.now k.now) rows.now.entries }
{
    rows.get(&name).copied()
}

impl<'t> NameTable<'t> {
    /// No names. It takes no memory.
    pub fn new(alloc: Global) -> NameTable<'t>
        ensures { result ≡ [] }
    {
        NameTable {
            rows: IndexMap::new(alloc),
        }
    }

    /// What a name means.
    #[tactic(auto, using(crate::proofs::Tables::meaning_pairs))]
    pub fn get(&self, name: &[u8]) -> Option<Meaning>
        ensures { result ≡ meaning_of self.now name.now }
    {
        row(&self.rows, name)
    }

    /// Puts a name with its meaning, unless the name is there.
    #[tactic(auto, using(crate::proofs::Tables::meaning_pairs))]
    pub fn add(&mut self, name: &'t [u8], meaning: Meaning) -> Result<(), AllocError>
        ensures { OnOk result (self.new ≡ with_name self.old name.now meaning) }
    {
        if row(&self.rows, name).is_some() {
            return Ok(());
        }
        self.rows.insert(name, meaning)?;
        Ok(())
    }

    /// Takes all names away.
    pub fn clear(&mut self)
        ensures { self.new ≡ [] }
    {
        self.rows.clear();
    }
}
