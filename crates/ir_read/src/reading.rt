//! What an item is read as, at its place.

ghost use Rattle.std.specs.Prelude.{◌≡◌, true, false, IfOk, List};
ghost use Rattle.ir_ast.specs.declared.fault.KernelReason.TheVariants.{K2};
ghost use Rattle.ir_lex.specs.Lexeme.{lexemes};
ghost use Rattle.ir_lex.specs.Drop.{is_dropped_item, remaining};
ghost use Rattle.ir_lex.specs.Items.{holds_left_out};
ghost use Rattle.ir_read.specs.Reads.{Reads, Refuses, IsTop, IsInner};
ghost use Rattle.ir_read.specs.View.{view_reading, HasLine, IsDropped};

use ir_ast::{Instr, KernelReason, Name, TypedNumberList};
use ir_body::{BodyItem, ItemFault, read_body_item};
use ir_lex::{Item, Token, is_dropped_item, remaining};
use ir_part::PartStop;
use ir_top::{TopItem, read_range, read_top};
use std::alloc::{AllocError, Global};

/// What an item is read as.
#[derive(Drop)]
pub enum Reading {
    /// It is dropped.
    Passed,
    /// It is dropped, and kept as a range.
    Range(Name, TypedNumberList),
    Top(TopItem),
    Label(Name),
    Instr(Instr),
    /// `}`.
    Close,
    /// No production of its place spells it.
    Refused(KernelReason),
}

/// What a dropped item is read as.
fn dropped(alloc: Global, tokens: &[Token<'_>]) -> Result<Reading, AllocError>
    requires { is_dropped_item (lexemes tokens.now) ≡ true }
    ensures { IfOk result (IsDropped (lexemes tokens.now)) }
{
    match read_range(alloc, tokens)? {
        Some((name, numbers)) => Ok(Reading::Range(name, numbers)),
        None => Ok(Reading::Passed),
    }
}

/// What an item that is not dropped is read as outside of bodies.
fn top(alloc: Global, item: &Item<'_>) -> Result<Reading, AllocError>
    requires { is_dropped_item (lexemes item.now.tokens.now) ≡ false }
    ensures value { IfOk result (λ r. Reads false (view_reading r) (lexemes item.now.tokens.now)) }
    ensures line { IfOk result (λ r. HasLine r item.now.line) }
{
    let rest = remaining(alloc, item.tokens)?;
    match read_top(alloc, rest.as_slice()) {
        Ok(top) => Ok(Reading::Top(top)),
        Err(PartStop::NotSpelled) => Ok(Reading::Refused(refused_top(alloc, item)?)),
        Err(PartStop::Memory) => Err(AllocError),
    }
}

/// An item of bodies is out of place outside of them.
fn inner_out_of_place(_inner: BodyItem) -> KernelReason
    ensures { result ≡ K2 }
{
    KernelReason::K2
}

/// An item that stands outside of bodies is out of place in one.
fn top_out_of_place(_top: TopItem) -> KernelReason
    ensures { result ≡ K2 }
{
    KernelReason::K2
}

#[tactic(auto, using(crate::proofs::Readings::inner_read, crate::proofs::Readings::inner_misplaced, crate::proofs::Readings::inner_unspelled, crate::proofs::Readings::inner_left_out))]
/// Why an item that is spelled by no production outside of bodies is refused there.
fn refused_top(alloc: Global, item: &Item<'_>) -> Result<KernelReason, AllocError>
    requires kept { is_dropped_item (lexemes item.now.tokens.now) ≡ false }
    requires none { IsTop (lexemes item.now.tokens.now) → ⊥ }
    ensures { IfOk result (Refuses false (lexemes item.now.tokens.now)) }
{
    match read_body_item(alloc, item) {
        Ok(inner) => Ok(inner_out_of_place(inner)),
        Err(ItemFault::NotSpelled) => Ok(KernelReason::K2),
        Err(ItemFault::OutOfProfile) => Ok(KernelReason::K3),
        Err(ItemFault::Memory) => Err(AllocError),
    }
}

/// Why an item that is spelled by no production of bodies, and holds what is left out, is refused in a body.
fn refused_inner(alloc: Global, item: &Item<'_>) -> Result<KernelReason, AllocError>
    requires kept { is_dropped_item (lexemes item.now.tokens.now) ≡ false }
    requires none { IsInner (lexemes item.now.tokens.now) → ⊥ }
    requires left_out { holds_left_out (remaining (lexemes item.now.tokens.now)) ≡ true }
    ensures { IfOk result (Refuses true (lexemes item.now.tokens.now)) }
{
    let rest = remaining(alloc, item.tokens)?;
    match read_top(alloc, rest.as_slice()) {
        Ok(top) => Ok(top_out_of_place(top)),
        Err(PartStop::NotSpelled) => Ok(KernelReason::K3),
        Err(PartStop::Memory) => Err(AllocError),
    }
}

/// What an item is read as outside of bodies.
#[tactic(auto, using(crate::proofs::Readings::dropped_all_read, crate::proofs::Readings::dropped_all_line))]
pub fn read_outside(alloc: Global, item: &Item<'_>) -> Result<Reading, AllocError>
    ensures value { IfOk result (λ r. Reads false (view_reading r) (lexemes item.now.tokens.now)) }
    ensures line { IfOk result (λ r. HasLine r item.now.line) }
{
    if is_dropped_item(alloc, item.tokens)? {
        dropped(alloc, item.tokens)
    } else {
        top(alloc, item)
    }
}

/// What an item is read as in a body.
#[tactic(auto, using(crate::proofs::Readings::dropped_all_read, crate::proofs::Readings::dropped_all_line))]
pub fn read_inside(alloc: Global, item: &Item<'_>) -> Result<Reading, AllocError>
    ensures value { IfOk result (λ r. Reads true (view_reading r) (lexemes item.now.tokens.now)) }
    ensures line { IfOk result (λ r. HasLine r item.now.line) }
{
    match read_body_item(alloc, item) {
        Ok(BodyItem::Label(name)) => Ok(Reading::Label(name)),
        Ok(BodyItem::Instr(instr)) => Ok(Reading::Instr(instr)),
        Ok(BodyItem::Close) => Ok(Reading::Close),
        Ok(BodyItem::Ignored) => dropped(alloc, item.tokens),
        Err(ItemFault::NotSpelled) => Ok(Reading::Refused(KernelReason::K2)),
        Err(ItemFault::OutOfProfile) => Ok(Reading::Refused(refused_inner(alloc, item)?)),
        Err(ItemFault::Memory) => Err(AllocError),
    }
}
