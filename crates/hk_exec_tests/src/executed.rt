//! Functions as terms: what execution gives, with each part of the memory behind a run as a term.

ghost use Rattle.std.specs.Prelude.{◌≡◌, ◌<◌, length, IfOk, IsTrue};
ghost use Rattle.std.specs.List.{All};
ghost use Rattle.ir_ast.specs.ProgramView.{view_module};
ghost use Rattle.ir_layout.specs.Bytes.{IsWidth};
ghost use Rattle.ir_layout.specs.Layouts.{IsLayoutOf};
ghost use Rattle.ir_kernel.specs.Runs.{CanCall};
ghost use Rattle.hk_symmem.specs.Origins.{AreOriginsOf};
ghost use Rattle.hk_symmem.specs.Guarded.{IsOver, IsMemoryOf};

use hk_seq::Seq;
use hk_symexec::execute;
use hk_symmem::{InitialReads, SymMemory};
use hk_symvalue::words::number;
use hk_term::{Node, TermId, Terms};
use ir_kernel::Kernel;
use ir_layout::Layout;
use std::alloc::{AllocError, Global};

/// A function of a kernel, by its place, beside the layout of the kernel's objects.
#[derive(Clone, Copy)]
pub struct Function<'a> {
    pub kernel: &'a Kernel,
    pub layout: &'a Layout,
    pub place: u32,
}

/// A part of the memory behind a run: the number in so many bytes of an object from an offset on.
#[derive(Clone, Copy)]
pub struct Part {
    pub object: u32,
    pub offset: u64,
    pub bytes: u32,
    pub term: TermId,
}

/// What the run of a function comes to, as terms of a list.
#[derive(Drop)]
pub struct Execution {
    pub terms: Terms,
    /// Whether the run is stuck.
    pub undefined: TermId,
    /// The number that it returns, if it returns one.
    pub number: Option<TermId>,
    /// The memory behind it, where that was asked for.
    pub parts: Seq<Part>,
}

/// How many bytes are read at once: 1, 2, 4 or 8.
pub fn whole_width(bytes: u32) -> u32
    ensures { IsWidth result }
{
    match bytes {
        2 => 2,
        4 => 4,
        8 => 8,
        _ => 1,
    }
}

/// A variable for each width, numbered in their order.
fn variables(alloc: Global, t: &mut Terms, widths: &[u32]) -> Result<Vec<TermId>, AllocError> {
    let mut variables = Vec::new(alloc);
    let mut id: u32 = 0;
    for width in widths {
        let width = (*width).clamp(1, 64);
        variables.push(t.intern(Node::Var { width, id })?)?;
        id = id.saturating_add(1);
    }
    Ok(variables)
}

/// Whether a term stands in the list.
fn is_there(t: &Terms, a: TermId) -> bool
    ensures { IsTrue result → a < length t.now }
{
    a.place() < t.len()
}

/// Whether all terms stand in the list.
fn are_there(t: &Terms, terms: &[TermId]) -> bool
    ensures { IsTrue result → All (λ a. a < length t.now) terms.now }
{
    for term in terms {
        if !is_there(t, *term) {
            return false;
        }
    }
    true
}

/// A part of a memory.
#[tactic(auto, using(hk_symexec::proofs::Kept::over_kept))]
fn part_at<R: InitialReads>(
    alloc: Global,
    t: &mut Terms,
    memory: &SymMemory<R>,
    object: u32,
    offset: u64,
    bytes: u32,
) -> Result<Part, AllocError>
    requires over { IsOver t.old memory.now }
    requires object { object < length memory.now.origins }
    requires bytes { IsWidth bytes }
    ensures over { IsOver t.new memory.now }
{
    let at = number(t, 64, offset)?;
    let term = memory.read(alloc, t, object, at, bytes)?;
    Ok(Part {
        object,
        offset,
        bytes,
        term,
    })
}

/// The parts of an object of so many bytes.
fn object_parts<R: InitialReads>(
    alloc: Global,
    t: &mut Terms,
    memory: &SymMemory<R>,
    object: u32,
    size: u64,
    bytes: u32,
    parts: &mut Seq<Part>,
) -> Result<(), AllocError>
    requires over { IsOver t.old memory.now }
    requires object { object < length memory.now.origins }
    requires bytes { IsWidth bytes }
    ensures over { IsOver t.new memory.now }
{
    let width = u64::from(bytes);
    for place in 0..size / width {
        let part = part_at(alloc, t, memory, object, place.wrapping_mul(width), bytes)?;
        parts.push(part)?;
    }
    Ok(())
}

/// The parts of all objects: so many bytes at once for each object, and single bytes where there is no number.
#[tactic(auto, using(hk_symmem::proofs::SourceLaws::origins_count))]
fn all_parts<R: InitialReads>(
    alloc: Global,
    t: &mut Terms,
    layout: &Layout,
    memory: &SymMemory<R>,
    sizes: &[u32],
) -> Result<Seq<Part>, AllocError>
    requires memory { IsMemoryOf layout.now.objects memory.now }
    requires over { IsOver t.old memory.now }
{
    let mut parts = Seq::new(alloc);
    for object in 0..layout.objects() {
        let bytes = whole_width(sizes.get(object as usize).copied().unwrap_or(1));
        let size = layout.object_size(object);
        object_parts(alloc, t, memory, object, size, bytes, &mut parts)?;
    }
    Ok(parts)
}

/// Executes a function on these terms, over the initial memory that the reads give.
fn executed_on<R: InitialReads>(
    alloc: Global,
    function: &Function,
    arguments: &[TermId],
    reads: R,
    sizes: Option<&[u32]>,
    terms: Terms,
) -> Result<Execution, AllocError>
    requires call { CanCall (view_module function.now.kernel.now) function.now.place arguments.now }
    requires arguments { All (λ a. a < length terms) arguments.now }
    requires layout { IsLayoutOf (view_module function.now.kernel.now) function.now.layout.now }
    requires origins { AreOriginsOf function.now.layout.now.objects (R.origins reads) }
{
    let mut terms = terms;
    let Function {
        kernel,
        layout,
        place,
    } = *function;
    let start = SymMemory::new(alloc, layout, reads)?;
    let run = execute(alloc, kernel, layout, place, arguments, &start, &mut terms)?;
    let parts = match sizes {
        Some(sizes) => all_parts(alloc, &mut terms, layout, &run.memory, sizes)?,
        None => Seq::new(alloc),
    };
    Ok(Execution {
        terms,
        undefined: run.undefined,
        number: run.value.map(|value| value.bits),
        parts,
    })
}

/// Executes a function on variables of these widths, over the initial memory that the reads give. The numbers are as many
/// as the variables, and can be passed to the function. Where sizes are given, the memory behind the run is made terms too.
#[tactic(auto, using(crate::proofs::Calls::same_call))]
pub fn executed<R: InitialReads>(
    alloc: Global,
    function: &Function,
    numbers: &[u64],
    widths: &[u32],
    reads: R,
    sizes: Option<&[u32]>,
) -> Result<Execution, AllocError>
    requires call { CanCall (view_module function.now.kernel.now) function.now.place numbers.now }
    requires layout { IsLayoutOf (view_module function.now.kernel.now) function.now.layout.now }
    requires origins { AreOriginsOf function.now.layout.now.objects (R.origins reads) }
{
    let mut terms = Terms::new(alloc);
    let arguments = variables(alloc, &mut terms, widths)?;
    if arguments.len() != numbers.len() || !are_there(&terms, &arguments) {
        return Err(AllocError);
    }
    executed_on(alloc, function, &arguments, reads, sizes, terms)
}
