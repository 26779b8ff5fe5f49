//! The numbers of reads and quantifiers: the order of the list of terms.

ghost use Rattle.std.specs.Prelude.{◌≡◌, ℕ, ◌<◌, ◌≤◌, drop, ◌++◌, ◌∷◌, [], if◌then◌else◌, true, length, slice_get, IfOk, OnOk, Contains};
ghost use Rattle.hk_blast.specs.Blasted.{HasWord};
ghost use Rattle.hk_inst.specs.Inputs.{AreNumbered};
ghost use Rattle.hk_inst.specs.States.{kind_of};

use hk_blast::BitTable;
use hk_term::{Node, TermId, Terms};
use std::alloc::{AllocError, Global};

// Whether a term is a read, or whether it is a quantifier.
fn is_of(terms: &Terms, t: TermId, reads: bool) -> bool
    requires { t < length terms.now }
    ensures { result ≡ kind_of reads (slice_get terms.now t) }
{
    match terms.node(t) {
        Node::Select { .. } => reads,
        Node::ForAll { .. } => !reads,
        Node::Const { .. } => false,
        Node::Var { .. } => false,
        Node::Unary { .. } => false,
        Node::Binary { .. } => false,
        Node::Choose { .. } => false,
        Node::Resize { .. } => false,
    }
}

// Puts a term behind others, or does not.
fn push_if(holds: bool, t: TermId, items: &mut Vec<u64>) -> Result<(), AllocError>
    ensures { OnOk result (items.new.items ≡ (if holds then items.old.items ++ t ∷ [] else items.old.items)) }
{
    if holds {
        items.push(t.place())?;
    }
    Ok(())
}

// The reads, or the quantifiers, that the table has from an entry on, in its order.
fn found(
    alloc: Global,
    terms: &Terms,
    bits: &BitTable,
    start: u64,
    reads: bool,
) -> Result<Vec<u64>, AllocError>
    requires start { start ≤ length bits.now }
    requires there { (k : ℕ) → HasWord bits.now k → k < length terms.now }
    ensures are { IfOk result (λ l. (t : ℕ) → Contains l.items t → (HasWord (drop start bits.now) t) × (kind_of reads (slice_get terms.now t) ≡ true)) }
    ensures all { IfOk result (λ l. (t : ℕ) → HasWord (drop start bits.now) t → kind_of reads (slice_get terms.now t) ≡ true → Contains l.items t) }
{
    let mut items = Vec::new(alloc);
    for i in 0..bits.len() - start {
        let t = bits.at(start + i);
        push_if(is_of(terms, t, reads), t, &mut items)?;
    }
    Ok(items)
}

// The same by rising place.
pub(crate) fn numbered(
    alloc: Global,
    terms: &Terms,
    bits: &BitTable,
    start: u64,
    reads: bool,
) -> Result<Vec<u64>, AllocError>
    requires start { start ≤ length bits.now }
    requires there { (k : ℕ) → HasWord bits.now k → k < length terms.now }
    ensures { IfOk result (λ l. AreNumbered terms.now (kind_of reads) (drop start bits.now) l.items) }
{
    let mut items = found(alloc, terms, bits, start, reads)?;
    items.sort_unstable();
    items.dedup();
    Ok(items)
}
