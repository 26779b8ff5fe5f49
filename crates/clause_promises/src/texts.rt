//! Clause files in DIMACS CNF: bytes come in and a clause list goes out, and the other way round.

ghost use Rattle.std.specs.Prelude.{◌≡◌, ◌<◌, ◌^◌, length, IfOk};
ghost use Rattle.hk_cnf.specs.Dimacs.{dimacs_of, Reads};
ghost use Rattle.hk_cnf.specs.DimacsText.{list_text};

use hk_cnf::{ClauseList, CnfStop};
use std::alloc::{AllocError, Global};

/// The clause list that a text spells, or the first line that fails.
pub fn read_dimacs(alloc: Global, text: &[u8]) -> Result<ClauseList, CnfStop>
    requires { length text.now < 2 ^ 31 }
    ensures { Reads result (dimacs_of text.now) }
{
    hk_cnf::read_dimacs(alloc, text)
}

/// The list as a text.
pub fn write_dimacs(alloc: Global, list: &ClauseList) -> Result<Vec<u8>, AllocError>
    ensures text { IfOk result (λ text. text.items ≡ list_text list.now) }
{
    hk_cnf::write_dimacs(alloc, list)
}
