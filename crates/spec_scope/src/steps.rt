//! One step each: what an operator makes of its operands.

ghost use Rattle.std.specs.Prelude.{◌≡◌, ℕ, List, true, false, Ok, Some, option_map, MatchOption, if◌then◌else◌};
ghost use Rattle.spec_ast.specs.Raw.{Tree, unary as unary_of, binary as binary_of, resize as resize_raw, read};
ghost use Rattle.spec_tree.specs.Sorted.{class_of as class_of_kind, arithmetic, equality, ordering, resized_width};
ghost use Rattle.spec_scope.specs.Scope as plain;
ghost use Rattle.spec_scope.specs.Scope.{resize_kind};
ghost use Rattle.spec_scope.specs.Takes.{fits_resize};
ghost use Rattle.spec_scope.specs.Taking.{read_of as read_of_name};
ghost use Rattle.spec_scope.specs.Free.{is_number_un};
ghost use Rattle.spec_scope.specs.Answers.{Infers, Pairs};
ghost use Rattle.spec_scope.specs.Steps.{view_class, pair_of as pair_of_typed, view_read};
ghost use Rattle.spec_scope.specs.View.{view_scope};
ghost use Rattle.spec_scope.specs.declared.meaning.Kind.TheVariants.{Truth};

use crate::build::{binary, resize, unary};
use crate::leaves::same_kind;
use crate::meaning::{Kind, Meaning, OpClass};
use crate::scoped::Scope;
use crate::typed::{Pair, ReadAt, TakeStop, Typed};
use spec_ast::{BinKind, RawResize, UnKind};
use spec_tree::ResizeKind;
use std::alloc::Global;

/// What a binary operator asks of its operands.
pub fn class_of(op: BinKind) -> OpClass
    ensures { view_class result ≡ class_of_kind op }
{
    match op {
        BinKind::Eq | BinKind::Ne => OpClass::Equality,
        BinKind::Slt | BinKind::Sle | BinKind::Sgt | BinKind::Sge => OpClass::Ordering,
        BinKind::Ult | BinKind::Ule | BinKind::Ugt | BinKind::Uge => OpClass::Ordering,
        BinKind::Implies => OpClass::Logic,
        _ => OpClass::Arithmetic,
    }
}

/// Two operands that have a kind each.
pub fn pair_of(left: Typed, right: Typed) -> Result<Option<Pair>, TakeStop>
    ensures { result ≡ pair_of_typed left right }
{
    let kind = left.kind;
    if same_kind(kind, right.kind) {
        Ok(Some(Pair {
            kind,
            left: left.tree,
            right: right.tree,
        }))
    } else {
        drop(left);
        drop(right);
        Err(TakeStop::Unfit)
    }
}

/// A unary operator over a number.
#[tactic(auto, using(crate::proofs::Inferring::un_truth, crate::proofs::Inferring::un_number))]
pub fn un_of(alloc: Global, op: UnKind, a: Typed) -> Result<Option<Typed>, TakeStop>
    requires { is_number_un op ≡ true }
    ensures { (s : plain.Scope) (b : List (List ℕ)) (e : Tree) → Infers s b e (Ok (Some a)) → Infers s b (unary_of op e) result }
{
    let kind = a.kind;
    match kind {
        Kind::Truth => {
            drop(a);
            Err(TakeStop::Unfit)
        }
        Kind::Number(_) => {
            let tree = unary(alloc, op, a.tree)?;
            Ok(Some(Typed { kind, tree }))
        }
    }
}

/// A binary operator over two numbers that gives a number.
#[tactic(auto, using(crate::proofs::Inferring::arithmetic_truth, crate::proofs::Inferring::arithmetic_number))]
pub fn arithmetic_of(alloc: Global, op: BinKind, p: Pair) -> Result<Option<Typed>, TakeStop>
    requires { class_of_kind op ≡ arithmetic }
    ensures { (s : plain.Scope) (b : List (List ℕ)) (a c : Tree) → Pairs s b a c (Ok (Some p)) → Infers s b (binary_of op a c) result }
{
    let kind = p.kind;
    match kind {
        Kind::Truth => {
            drop(p);
            Err(TakeStop::Unfit)
        }
        Kind::Number(_) => {
            let tree = binary(alloc, op, p.left, p.right)?;
            Ok(Some(Typed { kind, tree }))
        }
    }
}

/// An equality of two operands.
#[tactic(auto, using(crate::proofs::Inferring::equality_two))]
pub fn equality_of(alloc: Global, op: BinKind, p: Pair) -> Result<Option<Typed>, TakeStop>
    requires { class_of_kind op ≡ equality }
    ensures { (s : plain.Scope) (b : List (List ℕ)) (a c : Tree) → Pairs s b a c (Ok (Some p)) → Infers s b (binary_of op a c) result }
{
    let tree = binary(alloc, op, p.left, p.right)?;
    Ok(Some(Typed {
        kind: Kind::Truth,
        tree,
    }))
}

/// An order of two numbers.
#[tactic(auto, using(crate::proofs::Inferring::ordering_truth, crate::proofs::Inferring::ordering_number))]
pub fn ordering_of(alloc: Global, op: BinKind, p: Pair) -> Result<Option<Typed>, TakeStop>
    requires { class_of_kind op ≡ ordering }
    ensures { (s : plain.Scope) (b : List (List ℕ)) (a c : Tree) → Pairs s b a c (Ok (Some p)) → Infers s b (binary_of op a c) result }
{
    match p.kind {
        Kind::Truth => {
            drop(p);
            Err(TakeStop::Unfit)
        }
        Kind::Number(_) => {
            let tree = binary(alloc, op, p.left, p.right)?;
            Ok(Some(Typed {
                kind: Kind::Truth,
                tree,
            }))
        }
    }
}

/// A change of width as it is written, where a width fits it, with the width that comes out.
pub fn resized(op: RawResize, w: u32) -> Option<(ResizeKind, u32)>
    ensures { MatchOption result (fits_resize (resize_kind op) w ≡ false) (λ r. (fits_resize (resize_kind op) w ≡ true) × (r.0 ≡ resize_kind op) × (r.1 ≡ resized_width (resize_kind op) w)) }
{
    match op {
        RawResize::ZeroExt(n) => {
            if w <= 64 && n <= u64::from(64 - w) {
                Some((ResizeKind::ZeroExt(n as u32), w + n as u32))
            } else {
                None
            }
        }
        RawResize::SignExt(n) => {
            if w <= 64 && n <= u64::from(64 - w) {
                Some((ResizeKind::SignExt(n as u32), w + n as u32))
            } else {
                None
            }
        }
        RawResize::Extract(high, low) => {
            if low <= high && high < u64::from(w) {
                Some((
                    ResizeKind::Extract(high as u32, low as u32),
                    (high - low + 1) as u32,
                ))
            } else {
                None
            }
        }
    }
}

/// A change of width of a number.
#[tactic(auto, using(crate::proofs::Inferring::resize_truth, crate::proofs::Inferring::resize_over, crate::proofs::Inferring::resize_number))]
pub fn resize_of(alloc: Global, op: RawResize, a: Typed) -> Result<Option<Typed>, TakeStop>
    ensures { (s : plain.Scope) (b : List (List ℕ)) (e : Tree) → Infers s b e (Ok (Some a)) → Infers s b (resize_raw op e) result }
{
    let kind = a.kind;
    match kind {
        Kind::Truth => {
            drop(a);
            Err(TakeStop::Unfit)
        }
        Kind::Number(w) => match resized(op, w) {
            None => {
                drop(a);
                Err(TakeStop::Unfit)
            }
            Some(to) => {
                let tree = resize(alloc, to.0, a.tree)?;
                Ok(Some(Typed {
                    kind: Kind::Number(to.1),
                    tree,
                }))
            }
        },
    }
}

/// The state, the field and the sort that a read names.
pub fn read_of<'f>(scope: &'f Scope<'_>, o: &[u8], f: &[u8]) -> Option<ReadAt<'f>>
    ensures { option_map view_read result ≡ read_of_name (view_scope scope.now) o.now f.now }
{
    match scope.meaning(o) {
        Some(Meaning::State(which)) => {
            let place = scope.fields.place(f)?;
            let sort = scope.fields.sort_at(place)?;
            Some(ReadAt { which, place, sort })
        }
        _ => None,
    }
}
