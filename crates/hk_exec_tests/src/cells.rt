//! Sizes of cells, and how many entries of arrays a read takes.

ghost use Rattle.std.specs.Prelude.{◌≡◌, ◌<◌, ◌≤◌, ℕ, length, IfOk};
ghost use Rattle.hk_term.specs.Shape.{width};

use crate::told::cell_sizes;
use hk_cells::CellReads;
use hk_simplify::{add, mul};
use hk_symmem::InitialReads;
use hk_term::{Node, TermId, Terms};
use ir_kernel::Kernel;
use std::alloc::{AllocError, Global};

/// Numbers, with spaces between.
fn words_of(alloc: Global, numbers: &[u32]) -> Result<String, AllocError> {
    let mut text = String::new(alloc);
    for number in numbers {
        if !text.is_empty() {
            text.push_str(" ")?;
        }
        let word = format!(in alloc; "{number}")?;
        text.push_str(word.as_str())?;
    }
    Ok(text)
}

/// The size of the cells of each object of a kernel.
pub fn sizes_answer(alloc: Global, kernel: &Kernel) -> Result<Option<String>, AllocError> {
    let layout = kernel.layout();
    let reads = CellReads::new(alloc, kernel.checked().module(), layout)?;
    let sizes = cell_sizes(alloc, layout, &reads)?;
    let words = words_of(alloc, sizes.as_slice())?;
    Ok(Some(words))
}

/// A multiple of a variable.
fn times(t: &mut Terms, id: u32, value: u64) -> Result<TermId, AllocError>
    ensures within { IfOk result (λ r. r < length t.new) }
    ensures width { IfOk result (λ r. width t.new r ≡ 64) }
    ensures longer { length t.old ≤ length t.new }
    ensures keeps { (k : ℕ) → k < length t.old → width t.new k ≡ width t.old k }
{
    let variable = t.intern(Node::Var { width: 64, id })?;
    let factor = t.intern(Node::Const { width: 64, value })?;
    let made = mul(t, factor, variable)?;
    Ok(made)
}

/// The offset of a descriptor of a process: 20 * p + 4 * d + 4.
fn descriptor(t: &mut Terms) -> Result<TermId, AllocError>
    ensures within { IfOk result (λ r. r < length t.new) }
    ensures width { IfOk result (λ r. width t.new r ≡ 64) }
{
    let process = times(t, 0, 20)?;
    let number = times(t, 1, 4)?;
    let both = add(t, process, number)?;
    let first = t.intern(Node::Const {
        width: 64,
        value: 4,
    })?;
    let made = add(t, both, first)?;
    Ok(made)
}

/// How many terms are entries of arrays.
fn entries(t: &Terms) -> u64 {
    let mut count: u64 = 0;
    for place in 0..t.len() {
        if let Node::Select { .. } = t.node(TermId::at(place)) {
            count = count.saturating_add(1);
        }
    }
    count
}

/// How many entries are read by a read of a descriptor, which is 4 bytes of the object 1.
#[tactic(auto, using(hk_symmem::proofs::SourceLaws::origins_count))]
fn entries_of_a_descriptor(alloc: Global, kernel: &Kernel) -> Result<Option<u64>, AllocError> {
    let layout = kernel.layout();
    if layout.objects() < 2 {
        return Ok(None);
    }
    let reads = CellReads::new(alloc, kernel.checked().module(), layout)?;
    let mut t = Terms::new(alloc);
    let offset = descriptor(&mut t)?;
    reads.initial(alloc, &mut t, 1, offset, 4)?;
    Ok(Some(entries(&t)))
}

/// The same as text.
pub fn descriptor_answer(alloc: Global, kernel: &Kernel) -> Result<Option<String>, AllocError> {
    match entries_of_a_descriptor(alloc, kernel)? {
        Some(count) => {
            let told = format!(in alloc; "{count}")?;
            Ok(Some(told))
        }
        None => Ok(None),
    }
}
