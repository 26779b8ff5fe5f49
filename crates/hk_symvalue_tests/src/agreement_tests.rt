//! Two sums that agree either way, from the clauses of the constructors alone.

ghost use Rattle.std.specs.Prelude.{◌≡◌, ◌+◌, ◌<◌, ◌≤◌, length, IfOk};
ghost use Rattle.hk_term.specs.Shape.{width};
ghost use Rattle.hk_term.specs.Meaning.{Reading, value};
ghost use Rattle.hk_term.specs.Inputs.{inputs_in};

use hk_simplify::{add, eq};
use hk_term::{Node, TermId, Terms};
use hk_term_rows::written;
use std::alloc::{AllocError, Global};

/// Whether the sum of two terms of one width is the sum the other way round, from the clauses of the constructors alone.
fn sums_agree(t: &mut Terms, x: TermId, y: TermId) -> Result<TermId, AllocError>
    requires first { x < length t.old }
    requires second { y < length t.old }
    requires widths { width t.old x ≡ width t.old y }
    ensures within { IfOk result (λ r. r < length t.new) }
    ensures value { IfOk result (λ r. (v : Reading) → value t.new r v ≡ 1) }
    ensures few { length t.new ≤ length t.old + 10 }
    ensures inputs { inputs_in t.new ≡ inputs_in t.old }
{
    let sum = add(t, x, y)?;
    let turned = add(t, y, x)?;
    let same = eq(t, sum, turned)?;
    Ok(same)
}

/// The equation of two sums of variables, as it is made.
fn sums(alloc: Global) -> Result<String, AllocError> {
    let mut t = Terms::new(alloc);
    let x = t.intern(Node::Var { width: 64, id: 1 })?;
    let y = t.intern(Node::Var { width: 64, id: 2 })?;
    let same = sums_agree(&mut t, x, y)?;
    written(alloc, &t, same)
}

#[test]
fn sums_agree_either_way(rt: HostRuntime) -> Result<(), AllocError> {
    assert!(rt; sums(rt.alloc())?.as_str() == "1:1");
    Ok(())
}
