//! The items of a text, one by one.

ghost use Rattle.std.specs.Prelude.{◌≡◌, OnOk, List, IfOk};
ghost use Rattle.ir_lex.specs.Cut.{cut_of, cuts_of};
ghost use Rattle.ir_read.specs.Ahead.{ends as is_ended};
ghost use Rattle.ir_read.specs.Spelling.{Passes};
ghost use Rattle.ir_read.specs.View.{AreCounted, state_of, view_reading, HasLine};
ghost use Rattle.ir_read.specs.State.{is_inside};
ghost use Rattle.ir_read.specs.Reads.{Reads};
ghost use Rattle.ir_lex.specs.Lexeme.{lexemes};
ghost use Rattle.ir_read.specs.Answers.{Comes, IsNew};

use crate::ahead::ends;
use crate::apply::apply;
use crate::body::Body;
use crate::reading::{Reading, read_inside, read_outside};
use crate::stop::Stop;
use crate::whole::Whole;
use ir_ast::KernelReason;
use ir_lex::Item;
use std::alloc::{AllocError, Global};

/// What an item is read as, at its place.
fn read_at(alloc: Global, inside: bool, item: &Item<'_>) -> Result<Reading, AllocError>
    ensures value { IfOk result (λ r. Reads inside (view_reading r) (lexemes item.now.tokens.now)) }
    ensures line { IfOk result (λ r. HasLine r item.now.line) }
{
    if inside {
        read_inside(alloc, item)
    } else {
        read_outside(alloc, item)
    }
}

/// What comes of an item, behind what is whole and the body that goes on, and before these others.
pub fn pass(
    alloc: Global,
    whole: &mut Whole,
    body: Option<Body>,
    item: &Item<'_>,
    after: &[Item<'_>],
) -> Result<Option<Body>, Stop>
    requires counted { AreCounted whole.old }
    requires new { IsNew (state_of whole.old body) }
    ensures value { Comes result whole.new (Passes (is_ended (cut_of item.now) (cuts_of after.now)) (state_of whole.old body) (cut_of item.now) (cuts_of after.now)) }
    ensures counted { OnOk result (AreCounted whole.new) }
{
    if !ends(alloc, item, after)? {
        return Err(Stop::Refused(KernelReason::K2));
    }
    let reading = read_at(alloc, body.is_some(), item)?;
    apply(alloc, whole, body, reading, item.line, after)
}
