//! An instance comes in: its required term is made, blasted and required, and the entries that come with it are gone through.

ghost use Rattle.std.specs.Prelude.{◌≡◌, ◌++◌, ◌∷◌, [], true, false, length, OnOk, OnErr, IfErr};
ghost use Rattle.hk_inst.specs.Truths.{IsInstance, is_among};
ghost use Rattle.hk_inst.specs.Questions.{Asked};
ghost use Rattle.hk_inst.specs.Growing.{IsGrowing};
ghost use Rattle.hk_inst.specs.States.{asked_of, IsKept};
ghost use Rattle.hk_inst.specs.Adding.{IsFault, IsSubject, Lengthened};

use crate::demand::demand_of;
use crate::growth::close;
use crate::instance::Instance;
use crate::numbering::numbered;
use crate::state::{State, make, require};
use crate::subject::{AddFault, Subject, subject_of};
use crate::undo::{sizes_of, undo};
use std::alloc::{AllocError, Global};

// The required term of an instance is blasted and required.
fn bring(
    alloc: Global,
    s: &mut State,
    instance: Instance,
    subject: &Subject,
) -> Result<(), AllocError>
    requires kept { IsKept s.old }
    requires subject { IsSubject (asked_of s.old).nodes (asked_of s.old).table instance subject.now }
    requires fresh { is_among s.old.instances instance ≡ false }
    ensures growing { OnOk result (IsGrowing (asked_of s.new) s.new.first s.new.next (length s.old.bits)) }
    ensures instances { OnOk result (s.new.instances ≡ s.old.instances ++ instance ∷ []) }
    ensures reads { s.new.reads.items ≡ s.old.reads.items }
    ensures quantifiers { s.new.quantifiers.items ≡ s.old.quantifiers.items }
    ensures first { s.new.first ≡ s.old.first }
    ensures front { (q : Asked) → Lengthened q (asked_of s.old) → Lengthened q (asked_of s.new) }
{
    let demand = demand_of(alloc, &mut s.terms, &instance, subject)?;
    s.terms.len();
    make(&s.terms, demand, &mut s.gates, &mut s.bits)?;
    require(demand, &mut s.gates, &s.bits)?;
    s.demands.push(demand)?;
    s.instances.push(alloc, instance)?;
    Ok(())
}

// An instance comes in, and the reads and quantifiers that come with it are numbered behind the others.
pub(crate) fn extend(
    alloc: Global,
    s: &mut State,
    instance: Instance,
    subject: &Subject,
) -> Result<(), AllocError>
    requires kept { IsKept s.old }
    requires subject { IsSubject (asked_of s.old).nodes (asked_of s.old).table instance subject.now }
    requires fresh { is_among s.old.instances instance ≡ false }
    ensures kept { OnOk result (IsKept s.new) }
    ensures instances { OnOk result (s.new.instances ≡ s.old.instances ++ instance ∷ []) }
    ensures first { s.new.first ≡ s.old.first }
    ensures front { (q : Asked) → Lengthened q (asked_of s.old) → Lengthened q (asked_of s.new) }
{
    let start = s.bits.len();
    bring(alloc, s, instance, subject)?;
    close(alloc, s, start)?;
    let reads = numbered(alloc, &s.terms, &s.bits, start, true)?;
    let quantifiers = numbered(alloc, &s.terms, &s.bits, start, false)?;
    s.reads.extend_from_slice(&reads)?;
    s.quantifiers.extend_from_slice(&quantifiers)?;
    Ok(())
}

// An instance is added, or nothing changes: where it is refused, where it is there already, and where memory is refused.
pub(crate) fn add(alloc: Global, s: &mut State, instance: Instance) -> Result<(), AddFault>
    requires kept { IsKept s.old }
    ensures kept { IsKept s.new }
    ensures names { OnOk result (IsInstance (asked_of s.old).nodes (asked_of s.old).table instance) }
    ensures err { IfErr result (λ f. IsFault (asked_of s.old).nodes (asked_of s.old).table instance f) }
    ensures same { OnErr result (asked_of s.new ≡ asked_of s.old) }
    ensures again { is_among s.old.instances instance ≡ true → asked_of s.new ≡ asked_of s.old }
    ensures added { OnOk result (is_among s.old.instances instance ≡ false → s.new.instances ≡ s.old.instances ++ instance ∷ []) }
    ensures front { Lengthened (asked_of s.old) (asked_of s.new) }
{
    let subject = subject_of(alloc, s, &instance)?;
    if s.instances.contains(&instance) {
        return Ok(());
    }
    let sizes = sizes_of(s);
    match extend(alloc, s, instance, &subject) {
        Ok(()) => Ok(()),
        Err(_) => {
            undo(s, sizes);
            Err(AddFault::Memory)
        }
    }
}
