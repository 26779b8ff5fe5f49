//! Symbolic values: what an instruction makes of operands that are terms.

ghost use Rattle.std.specs.Prelude.{◌≡◌, false, IfOk};
ghost use Rattle.hk_term.specs.Meaning.{Reading, value};
ghost use Rattle.ir_value.specs.Numbers as machine;
ghost use Rattle.ir_value.specs.Pointers.{reach, step_of};
ghost use Rattle.hk_symvalue.specs.Meaning.{IsSym, IsWord, is_true, meaning};
ghost use Rattle.hk_symvalue.specs.Rows.{Answers, Reaches};

use hk_symvalue::{Stride, SymMade, SymValue};
use hk_term::{TermId, Terms};
use ir_ast::{BinaryKind, Flags, Predicate};
use std::alloc::AllocError;

/// An operation on two numbers gives what the machine's gives, and is stuck where that sticks.
pub fn binary(
    t: &mut Terms,
    flags: Flags,
    kind: BinaryKind,
    w: u32,
    a: SymValue,
    b: SymValue,
) -> Result<SymMade, AllocError>
    requires first { IsSym t.old a }
    requires second { IsSym t.old b }
    ensures { IfOk result (λ r. (v : Reading) → Answers (is_true t.new r.stuck v) (meaning t.new r.value v) (machine.binary flags kind w (meaning t.old a v) (meaning t.old b v))) }
{
    let made = hk_symvalue::binary(t, flags, kind, w, a, b)?;
    Ok(made)
}

/// A comparison of two numbers gives what the machine's gives.
pub fn compare_numbers(
    t: &mut Terms,
    samesign: bool,
    predicate: Predicate,
    w: u32,
    a: SymValue,
    b: SymValue,
) -> Result<SymValue, AllocError>
    requires first { IsSym t.old a }
    requires second { IsSym t.old b }
    ensures { IfOk result (λ r. (v : Reading) → Answers false (meaning t.new r v) (machine.compare_numbers samesign predicate w (meaning t.old a v) (meaning t.old b v))) }
{
    let made = hk_symvalue::compare_numbers(t, samesign, predicate, w, a, b)?;
    Ok(made)
}

/// A choice gives the operand that its condition chooses; the other one does not count.
pub fn select(t: &mut Terms, c: SymValue, a: SymValue, b: SymValue) -> Result<SymValue, AllocError>
    requires condition { IsSym t.old c }
    requires first { IsSym t.old a }
    requires second { IsSym t.old b }
    ensures { IfOk result (λ r. (v : Reading) → Answers false (meaning t.new r v) (machine.select (meaning t.old c v) (meaning t.old a v) (meaning t.old b v))) }
{
    let made = hk_symvalue::select(t, c, a, b)?;
    Ok(made)
}

/// A step of a `getelementptr` gives the address that the machine's gives.
pub fn step(
    t: &mut Terms,
    stride: Stride,
    size: TermId,
    index: SymValue,
    from: SymValue,
) -> Result<SymValue, AllocError>
    requires size { IsWord t.old 64 size }
    requires index { IsSym t.old index }
    requires base { IsSym t.old from }
    ensures { IfOk result (λ r. (v : Reading) → meaning t.new r v ≡ step_of stride.inbounds stride.nuw (value t.old size v) stride.width stride.each (meaning t.old index v) (meaning t.old from v)) }
{
    let made = hk_symvalue::step(t, stride, size, index, from)?;
    Ok(made)
}

/// An access is stuck exactly where the machine's reaches no bytes of its object.
pub fn reach_sticks(
    t: &mut Terms,
    size: TermId,
    object_align: TermId,
    bytes: u64,
    align: u64,
    address: SymValue,
) -> Result<TermId, AllocError>
    requires size { IsWord t.old 64 size }
    requires object_align { IsWord t.old 64 object_align }
    requires address { IsSym t.old address }
    ensures { IfOk result (λ r. (v : Reading) → Reaches (is_true t.new r v) (reach (value t.old size v) (value t.old object_align v) bytes align (meaning t.old address v))) }
{
    let stuck = hk_symvalue::reach_sticks(t, size, object_align, bytes, align, address)?;
    Ok(stuck)
}
