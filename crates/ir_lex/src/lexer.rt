//! The lexer: a text cut into tokens.

ghost use Rattle.std.specs.Prelude.{◌≡◌, ◌<◌, ◌^◌, length, IfOk, IfErr};
ghost use Rattle.ir_lex.specs.Lex.{lex, IsOutside};

use crate::piece::{Piece, piece_of};
use crate::token::{Token, TokenList};
use ir_ast::{KernelFault, KernelReason, KernelStop};
use std::alloc::Global;

/// The tokens of a text, in its order, each a slice of it. `Refused` has the reason `K1` and the line of the first byte outside the
/// tokens, and comes exactly where there is one.
#[tactic(auto, using(crate::proofs::Lexing::lexing))]
pub fn tokens<'t>(alloc: Global, text: &'t [u8]) -> Result<TokenList<'t>, KernelStop>
    requires { length text.now < 2 ^ 31 }
    ensures lexed { IfOk result (λ tokens. lex text.now ≡ Ok tokens) }
    ensures outside { IfErr result (IsOutside text.now) }
{
    let mut found = Vec::new(alloc);
    let mut rest = text;
    let mut line: u32 = 1;
    while !rest.is_empty() {
        match piece_of(rest) {
            Piece::Blank(length) => rest = rest.split_at(length).1,
            Piece::LineEnd => {
                line += 1;
                rest = rest.split_at(1).1;
            }
            Piece::Whole(kind, length) => {
                let (text, after) = rest.split_at(length);
                found.push(Token { kind, line, text })?;
                rest = after;
            }
            Piece::Outside => {
                let reason = KernelReason::K1;
                return Err(KernelStop::Refused(KernelFault { line, reason }));
            }
        }
    }
    Ok(TokenList::new(found))
}
