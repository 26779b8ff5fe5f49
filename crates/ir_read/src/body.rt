//! Functions whose body goes on.

ghost use Rattle.std.specs.Prelude.{◌≡◌, [], Ok, None, IfOk, map};
ghost use Rattle.ir_ast.specs.ProgramView.{view_op, view_instr, view_block, view_function};
ghost use Rattle.ir_read.specs.Steps as definition;
ghost use Rattle.ir_read.specs.View.{Gives, view_body};

use crate::names::Names;
use crate::stop::Stop;
use ir_ast::{Block, BlockList, Function, Instr, InstrList, KernelReason, Name, Op};
use std::alloc::Global;

/// A function whose body goes on.
#[derive(Drop)]
pub struct Body {
    /// The function, without its blocks.
    pub head: Function,
    /// The names of its parameters, blocks and registers so far.
    pub names: Names,
    /// The blocks that have ended.
    pub blocks: BlockList,
    /// The block that has not.
    pub open_block: Option<Block>,
}

/// Whether an instruction ends its block.
fn is_end(op: &Op) -> bool
    ensures { result ≡ definition.is_end (view_op op.now) }
{
    match op {
        Op::Goto { .. }
        | Op::Branch { .. }
        | Op::Switch { .. }
        | Op::Return { .. }
        | Op::Unreachable => true,
        _ => false,
    }
}

/// The names with that of a register behind them, where an instruction sets one.
fn with_result(alloc: Global, result_name: &Option<Name>, names: Names) -> Result<Names, Stop>
    ensures { Gives (λ x. x) result (definition.with_result result_name.now names) }
{
    match result_name {
        Some(name) => names.with(name.copy(alloc)?),
        None => Ok(names),
    }
}

/// The body with an instruction behind the others of its last block.
#[tactic(auto, using(crate::proofs::Views::blocks_added, crate::proofs::Views::instrs_added))]
fn grown(
    instr: Instr,
    mut block: Block,
    names: Names,
    head: Function,
    mut blocks: BlockList,
) -> Result<Body, Stop>
    ensures { Gives view_body result (Ok (definition.grown_body names (view_instr instr) (view_block block) (view_function head) (map view_block blocks.items.items))) }
{
    let ends = is_end(&instr.op);
    block.instrs.items.push(instr)?;
    if ends {
        blocks.items.push(block)?;
        Ok(Body {
            head,
            names,
            blocks,
            open_block: None,
        })
    } else {
        Ok(Body {
            head,
            names,
            blocks,
            open_block: Some(block),
        })
    }
}

/// The function with these blocks, where there are some.
fn closed(mut head: Function, blocks: BlockList) -> Result<Function, Stop>
    ensures { Gives view_function result (definition.closed_at None (map view_block blocks.items.items) (view_function head)) }
{
    if blocks.items.is_empty() {
        return Err(Stop::Refused(KernelReason::K2));
    }
    head.body = Some(blocks);
    Ok(head)
}

impl Body {
    /// The body behind a label.
    pub fn with_label(self, alloc: Global, line: u32, name: Name) -> Result<Body, Stop>
        ensures { Gives view_body result (definition.label_in (view_body self).block (record { line = line; name = name; instrs = [] }) (view_body self)) }
    {
        let Body {
            head,
            names,
            blocks,
            open_block,
        } = self;
        match open_block {
            Some(_) => Err(Stop::Refused(KernelReason::K2)),
            None => {
                let names = names.with(name.copy(alloc)?)?;
                let block = Block {
                    line,
                    name,
                    instrs: InstrList {
                        items: Vec::new(alloc),
                    },
                };
                Ok(Body {
                    head,
                    names,
                    blocks,
                    open_block: Some(block),
                })
            }
        }
    }

    /// The body behind an instruction.
    pub fn with_instr(self, alloc: Global, instr: Instr) -> Result<Body, Stop>
        ensures { Gives view_body result (definition.instr_at (view_body self).block (view_instr instr) (view_body self)) }
    {
        let Body {
            head,
            names,
            blocks,
            open_block,
        } = self;
        match open_block {
            None => Err(Stop::Refused(KernelReason::K2)),
            Some(block) => {
                let names = with_result(alloc, &instr.result, names)?;
                grown(instr, block, names, head, blocks)
            }
        }
    }

    /// The function that the body closes.
    pub fn close(self) -> Result<Function, Stop>
        ensures { Gives view_function result (definition.closed_at (view_body self).block (view_body self).blocks (view_body self).head) }
    {
        let Body {
            head,
            blocks,
            open_block,
            ..
        } = self;
        match open_block {
            Some(_) => Err(Stop::Refused(KernelReason::K2)),
            None => closed(head, blocks),
        }
    }
}
