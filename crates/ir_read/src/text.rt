//! Whole texts.

ghost use Rattle.std.specs.Prelude.{◌≡◌, ◌<◌, ◌^◌, length, IfOk, IfErr, ℕ};
ghost use Rattle.ir_ast.specs.Program.{ModuleView};
ghost use Rattle.ir_ast.specs.ProgramView.{view_module};
ghost use Rattle.ir_ast.specs.Small.{IsSmall};
ghost use Rattle.ir_ast.specs.declared.fault.KernelReason.{KernelReason};
ghost use Rattle.ir_lex.specs.Cut.{cuts_of};
ghost use Rattle.ir_read.specs.State.{at_start};
ghost use Rattle.ir_read.specs.Printing.{IsPrintedText};
ghost use Rattle.ir_read.specs.Spelling.{SpellsFrom, IsModuleText, IsStop, IsModule, IsFault, IsFaultyText};
ghost use Rattle.ir_read.specs.View.{view_whole, stop_at};
ghost use Rattle.ir_read.specs.Answers.{IsItemStop};
ghost use Rattle.ir_type.specs.Shape.{IsShaped, IsLined};

use crate::body::Body;
use crate::item::pass;
use crate::stop::Stop;
use crate::whole::Whole;
use ir_ast::{KernelFault, KernelStop, Module};
use ir_lex::{Item, items, tokens};
use std::alloc::Global;

/// The module that a kernel text spells (LLVM Language Reference, "High Level Structure"). `Refused` has the line and the reason of
/// what fails first: `K1` for a byte outside the tokens, anywhere in the text; then, at the first item that fails, the least of `K2`
/// for an item of no production, one that never closes and one out of place, `K3` for an item of no production that holds a token of
/// what this project leaves out, and `K4` for a name that stands in its scope already. A text spells at most one module.
pub fn read_module(alloc: Global, text: &[u8]) -> Result<Module, KernelStop>
    requires { length text.now < 2 ^ 31 }
    ensures found { IfOk result (λ m. IsModuleText text.now (view_module m)) }
    ensures small { IfOk result IsSmall }
    ensures shaped { IfOk result (λ m. IsShaped (view_module m)) }
    ensures lined { IfOk result (λ m. IsLined (view_module m)) }
    ensures printed { IfOk result (λ m. IsPrintedText text.now (view_module m)) }
    ensures fault { IfErr result (IsStop text.now) }
    ensures only { (m : ModuleView) → IsModuleText text.now m → IsModule result m }
    ensures only_printed { (m : ModuleView) → IsPrintedText text.now m → IsModule result m }
    ensures only_fault { (line : ℕ) → (reason : KernelReason) → IsFaultyText text.now line reason → IsFault result line reason }
{
    read_text(alloc, text)
}

/// The module that a text spells.
fn read_text(alloc: Global, text: &[u8]) -> Result<Module, KernelStop>
    requires { length text.now < 2 ^ 31 }
    ensures found { IfOk result (λ m. IsModuleText text.now (view_module m)) }
    ensures small { IfOk result IsSmall }
    ensures fault { IfErr result (IsStop text.now) }
{
    let list = tokens(alloc, text)?;
    let cut = items(alloc, list.as_slice())?;
    read_items(alloc, cut.as_slice())
}

/// The module that items spell.
fn read_items(alloc: Global, items: &[Item<'_>]) -> Result<Module, KernelStop>
    ensures found { IfOk result (λ m. SpellsFrom at_start (cuts_of items.now) (view_module m)) }
    ensures small { IfOk result IsSmall }
    ensures fault { IfErr result (IsItemStop (cuts_of items.now)) }
{
    let mut whole = Whole::new(alloc);
    let mut body: Option<Body> = None;
    for (at, item) in items.iter().enumerate() {
        let after = items.split_at(at + 1).1;
        match pass(alloc, &mut whole, body, item, after) {
            Ok(next) => body = next,
            Err(stop) => return Err(stop_at(stop, item.line)),
        }
    }
    Ok(whole.into_module())
}

/// The refusal of an item on this line.
fn stop_at(stop: Stop, line: u32) -> KernelStop
    ensures { result ≡ stop_at line stop }
{
    match stop {
        Stop::Refused(reason) => KernelStop::Refused(KernelFault { line, reason }),
        Stop::Memory => KernelStop::Memory,
    }
}
