//! Sizes and alignments of objects at a base, and whether they are constants.

ghost use Rattle.std.specs.Prelude.{◌≡◌, ℕ, ◌+◌, ◌<◌, ◌≤◌, ◌^◌, ◌&&◌, ◌||◌, if◌then◌else◌, nat_eq, map, length, IfOk, IfSome, IfNone, ◌-◌};
ghost use Rattle.hk_term.specs.Shape.{width};
ghost use Rattle.hk_term.specs.Meaning.{Reading, value};
ghost use Rattle.ir_machine.specs.Values as machine;
ghost use Rattle.hk_symvalue.specs.Growth.{Extends};
ghost use Rattle.hk_symvalue.specs.Meaning.{IsTruth, IsWord, is_true};
ghost use Rattle.hk_symmem.specs.Guarded.{memory_at, IsMemoryOf};
ghost use Rattle.hk_symaccess.specs.Accesses.{AreOf, AreWhole, sizes_of, aligns_of, at_base, sized, aligned, is_fixed};

use hk_seq::Seq;
use hk_symmem::{InitialReads, SymMemory};
use hk_symvalue::words::{constant, number};
use hk_symvalue::{is_word, logic, ops};
use hk_term::{TermId, Terms};
use ir_code::Object;
use ir_layout::Layout;
use std::alloc::AllocError;

/// Whether a base is that of an object.
pub(crate) fn is_base(t: &mut Terms, base: TermId, object: u32) -> Result<TermId, AllocError>
    requires { IsWord t.old 64 base }
    ensures frame { Extends t.old t.new }
    ensures truth { IfOk result (λ r. IsTruth t.new r) }
    ensures value { IfOk result (λ r. (v : Reading) → is_true t.new r v ≡ nat_eq (value t.old base v) (object + 2)) }
{
    let same = is_word(t, base, u64::from(object) + 2)?;
    Ok(same)
}

/// The object at a base that is known, one of so many.
pub(crate) fn object_of(known: u64, count: u32) -> Option<u32>
    ensures some { IfSome result (λ o. (known ≡ o + 2) × (o < count)) }
    ensures none { IfNone result (2 ≤ known → known - 2 < count → ⊥) }
{
    if known >= 2 && known - 2 < u64::from(count) {
        Some((known - 2) as u32)
    } else {
        None
    }
}

// A number where the base is that of an object, and else another one.
fn number_at(
    t: &mut Terms,
    base: TermId,
    object: u32,
    n: u64,
    rest: TermId,
) -> Result<TermId, AllocError>
    requires base { IsWord t.old 64 base }
    requires rest { IsWord t.old 64 rest }
    ensures frame { Extends t.old t.new }
    ensures word { IfOk result (λ r. IsWord t.new 64 r) }
    ensures value { IfOk result (λ r. (v : Reading) → value t.new r v ≡ (if nat_eq (value t.old base v) (object + 2) then n else value t.old rest v)) }
{
    let test = is_base(t, base, object)?;
    let number = number(t, 64, n)?;
    let made = ops::choose(t, test, number, rest)?;
    Ok(made)
}

// ---- sizes

fn any_size(t: &mut Terms, layout: &Layout, base: TermId) -> Result<TermId, AllocError>
    requires { IsWord t.old 64 base }
    ensures frame { Extends t.old t.new }
    ensures word { IfOk result (λ r. IsWord t.new 64 r) }
    ensures value { IfOk result (λ r. (v : Reading) → value t.new r v ≡ at_base (sizes_of layout.now.objects) (value t.old base v)) }
{
    let mut made = number(t, 64, 0)?;
    for object in 0..layout.objects() {
        made = number_at(t, base, object, layout.object_size(object), made)?;
    }
    Ok(made)
}

// The size of the object at a base that is known.
fn known_size(layout: &Layout, base: u64) -> u64
    ensures { result ≡ at_base (sizes_of layout.now.objects) base }
{
    if base <= 1 {
        0
    } else if base - 2 < u64::from(layout.objects()) {
        layout.object_size((base - 2) as u32)
    } else {
        0
    }
}

fn laid_size(t: &mut Terms, layout: &Layout, base: TermId) -> Result<TermId, AllocError>
    requires { IsWord t.old 64 base }
    ensures frame { Extends t.old t.new }
    ensures word { IfOk result (λ r. IsWord t.new 64 r) }
    ensures value { IfOk result (λ r. (v : Reading) → value t.new r v ≡ at_base (sizes_of layout.now.objects) (value t.old base v)) }
{
    match constant(t, base) {
        Some(base) => number(t, 64, known_size(layout, base)),
        None => any_size(t, layout, base),
    }
}

/// The size of the object at a base, as a word of 64 bits; 0 at a base of no object. A constant base gives a constant.
#[tactic(auto, using(crate::proofs::Sizes::laid_is_sized))]
pub fn size_of<R: InitialReads>(
    t: &mut Terms,
    layout: &Layout,
    memory: &SymMemory<R>,
    base: TermId,
) -> Result<TermId, AllocError>
    requires layout { IsMemoryOf layout.now.objects memory.now }
    requires whole { AreWhole layout.now.objects }
    requires base { IsWord t.old 64 base }
    ensures frame { Extends t.old t.new }
    ensures word { IfOk result (λ r. IsWord t.new 64 r) }
    ensures value { IfOk result (λ r. (v : Reading) → value t.new r v ≡ sized (memory_at t.old memory.now v) (value t.old base v)) }
{
    // For the proof: the clauses alone speak of the memory.
    let _memory = memory;
    let made = laid_size(t, layout, base)?;
    Ok(made)
}

// ---- alignments

// What is asked of an object: nothing of one that does not exist.
pub(crate) fn object_at(objects: &Seq<Object>, object: u32) -> Object
    ensures { result ≡ machine.object_at objects.now object }
{
    match objects.as_slice().get(object as usize) {
        Some(object) => *object,
        None => Object {
            constant: false,
            align: 0,
        },
    }
}

fn any_align(
    t: &mut Terms,
    layout: &Layout,
    objects: &Seq<Object>,
    base: TermId,
) -> Result<TermId, AllocError>
    requires program { AreOf layout.now.objects objects.now }
    requires base { IsWord t.old 64 base }
    ensures frame { Extends t.old t.new }
    ensures word { IfOk result (λ r. IsWord t.new 64 r) }
    ensures value { IfOk result (λ r. (v : Reading) → value t.new r v ≡ at_base (aligns_of objects.now) (value t.old base v)) }
{
    let mut made = number(t, 64, 0)?;
    for object in 0..layout.objects() {
        made = number_at(t, base, object, object_at(objects, object).align, made)?;
    }
    Ok(made)
}

// The alignment of the object at a base that is known.
fn known_align(layout: &Layout, objects: &Seq<Object>, base: u64) -> u64
    requires { AreOf layout.now.objects objects.now }
    ensures { result ≡ at_base (aligns_of objects.now) base }
{
    if base <= 1 {
        0
    } else if base - 2 < u64::from(layout.objects()) {
        object_at(objects, (base - 2) as u32).align
    } else {
        0
    }
}

/// The alignment of the object at a base, as a word of 64 bits; 0 at a base of no object. A constant base gives a constant.
#[tactic(auto, using(crate::proofs::Sizes::aligns_are))]
pub fn align_of(
    t: &mut Terms,
    layout: &Layout,
    objects: &Seq<Object>,
    base: TermId,
) -> Result<TermId, AllocError>
    requires program { AreOf layout.now.objects objects.now }
    requires base { IsWord t.old 64 base }
    ensures frame { Extends t.old t.new }
    ensures word { IfOk result (λ r. IsWord t.new 64 r) }
    ensures value { IfOk result (λ r. (v : Reading) → value t.new r v ≡ aligned objects.now (value t.old base v)) }
{
    match constant(t, base) {
        Some(base) => number(t, 64, known_align(layout, objects, base)),
        None => any_align(t, layout, objects, base),
    }
}

// ---- constants

// Whether the base is that of an object that is a constant, or a test is true.
fn fixed_at(
    t: &mut Terms,
    base: TermId,
    object: u32,
    constant: bool,
    rest: TermId,
) -> Result<TermId, AllocError>
    requires base { IsWord t.old 64 base }
    requires rest { IsTruth t.old rest }
    ensures frame { Extends t.old t.new }
    ensures truth { IfOk result (λ r. IsTruth t.new r) }
    ensures value { IfOk result (λ r. (v : Reading) → is_true t.new r v ≡ ((nat_eq (value t.old base v) (object + 2) && constant) || is_true t.old rest v)) }
{
    if constant {
        let test = is_base(t, base, object)?;
        let either = logic::or(t, test, rest)?;
        Ok(either)
    } else {
        Ok(rest)
    }
}

/// Whether the object at a base is a constant.
pub(crate) fn is_fixed(
    t: &mut Terms,
    layout: &Layout,
    objects: &Seq<Object>,
    base: TermId,
) -> Result<TermId, AllocError>
    requires program { AreOf layout.now.objects objects.now }
    requires base { IsWord t.old 64 base }
    ensures frame { Extends t.old t.new }
    ensures truth { IfOk result (λ r. IsTruth t.new r) }
    ensures value { IfOk result (λ r. (v : Reading) → is_true t.new r v ≡ is_fixed objects.now (value t.old base v)) }
{
    match constant(t, base) {
        Some(base) => logic::constant(t, known_fixed(layout, objects, base)),
        None => any_fixed(t, layout, objects, base),
    }
}

// Whether the object at a base that is known is a constant.
fn known_fixed(layout: &Layout, objects: &Seq<Object>, base: u64) -> bool
    requires { AreOf layout.now.objects objects.now }
    ensures { result ≡ is_fixed objects.now base }
{
    if base <= 1 {
        false
    } else if base - 2 < u64::from(layout.objects()) {
        object_at(objects, (base - 2) as u32).constant
    } else {
        false
    }
}

fn any_fixed(
    t: &mut Terms,
    layout: &Layout,
    objects: &Seq<Object>,
    base: TermId,
) -> Result<TermId, AllocError>
    requires program { AreOf layout.now.objects objects.now }
    requires base { IsWord t.old 64 base }
    ensures frame { Extends t.old t.new }
    ensures truth { IfOk result (λ r. IsTruth t.new r) }
    ensures value { IfOk result (λ r. (v : Reading) → is_true t.new r v ≡ is_fixed objects.now (value t.old base v)) }
{
    let mut made = logic::constant(t, false)?;
    for object in 0..layout.objects() {
        made = fixed_at(t, base, object, object_at(objects, object).constant, made)?;
    }
    Ok(made)
}
