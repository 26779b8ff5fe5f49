//! The head of a function.

ghost use Rattle.std.specs.Prelude.{◌≡◌, [], IfOk, map, option_map};
ghost use Rattle.ir_ast.specs.ProgramView.{view_function, view_block};
ghost use Rattle.ir_lex.specs.Cut.{cuts_of};
ghost use Rattle.ir_top.specs.TopView.{view_parameters};
ghost use Rattle.ir_read.specs.Steps as definition;
ghost use Rattle.ir_read.specs.View.{AreCounted, Gives, view_body, view_whole};

use crate::ahead::{begins_unlabelled, holds_close};
use crate::body::Body;
use crate::names::Names;
use crate::number::first_name;
use crate::stop::Stop;
use crate::whole::Whole;
use ir_ast::{Block, BlockList, Function, InstrList, IrType, KernelReason, Name};
use ir_lex::Item;
use std::alloc::{AllocError, Global};

/// The names of the parameters.
fn parameter_names(alloc: Global, parameters: &[(IrType, Name)]) -> Result<Names, Stop>
    ensures { Gives (λ x. x) result (definition.with_names [] (map (λ p. p.1) (view_parameters parameters.now))) }
{
    let mut names = Names::new(alloc);
    for (_, name) in parameters {
        names = names.with(name.copy(alloc)?)?;
    }
    Ok(names)
}

/// The names with that of a block behind them, where there is one.
fn with_block(alloc: Global, block: &Option<Block>, names: Names) -> Result<Names, Stop>
    ensures { Gives (λ x. x) result (definition.with_block (option_map view_block block.now) names) }
{
    match block {
        Some(block) => names.with(block.name.copy(alloc)?),
        None => Ok(names),
    }
}

/// The names of a scope at the start of its body.
fn scope_of(
    alloc: Global,
    parameters: &[(IrType, Name)],
    block: &Option<Block>,
) -> Result<Names, Stop>
    ensures { Gives (λ x. x) result (definition.scope_of (view_parameters parameters.now) (option_map view_block block.now)) }
{
    let names = parameter_names(alloc, parameters)?;
    with_block(alloc, block, names)
}

/// The first block of a function, where it has no label.
fn first_block(
    alloc: Global,
    unlabelled: bool,
    function: &Function,
) -> Result<Option<Block>, AllocError>
    ensures { IfOk result (λ block. option_map view_block block ≡ definition.first_block unlabelled (view_function function.now)) }
{
    if unlabelled {
        let name = first_name(alloc, &function.parameters.items)?;
        Ok(Some(Block {
            line: function.line,
            name,
            instrs: InstrList {
                items: Vec::new(alloc),
            },
        }))
    } else {
        Ok(None)
    }
}

/// The body behind the head of a function, before these items.
pub fn with_head(
    alloc: Global,
    whole: &Whole,
    function: Function,
    after: &[Item<'_>],
) -> Result<Body, Stop>
    requires { AreCounted whole.now }
    ensures { Gives view_body result (definition.with_head (view_function function) (cuts_of after.now) (view_whole whole.now)) }
{
    if !holds_close(alloc, after)? {
        return Err(Stop::Refused(KernelReason::K2));
    }
    if whole.is_symbol(&function.name) {
        return Err(Stop::Refused(KernelReason::K4));
    }
    begin(alloc, begins_unlabelled(alloc, after)?, function)
}

/// The body of a function before its first item.
fn begin(alloc: Global, unlabelled: bool, function: Function) -> Result<Body, Stop>
    ensures { Gives view_body result (definition.begun_by unlabelled (view_function function)) }
{
    let block = first_block(alloc, unlabelled, &function)?;
    begin_with(alloc, block, function)
}

/// The same, with its first block where that has no label.
fn begin_with(alloc: Global, block: Option<Block>, function: Function) -> Result<Body, Stop>
    ensures { Gives view_body result (definition.begun (definition.scope_of (view_function function).parameters (option_map view_block block)) (view_function function) (option_map view_block block)) }
{
    match scope_of(alloc, &function.parameters.items, &block) {
        Ok(names) => Ok(Body {
            head: function,
            names,
            blocks: BlockList {
                items: Vec::new(alloc),
            },
            open_block: block,
        }),
        Err(stop) => {
            drop(function);
            drop(block);
            Err(stop)
        }
    }
}
