//! Where the registers of a function are set.

ghost use Rattle.std.specs.Prelude.{◌≡◌, ◌<◌, ◌^◌, ◌++◌, ◌∷◌, [], Some, None, Option, length, map, option_to_list, bytes_eq, OnOk, IfOk};
ghost use Rattle.std.specs.List.{IsDistinct};
ghost use Rattle.ir_ast.specs.Table.{names_of};
ghost use Rattle.ir_ast.specs.ProgramView.{view_instr, view_block, view_function};
ghost use Rattle.ir_check.specs.Paths.{AreFewBlocks};
ghost use Rattle.ir_check.specs.Sites.{sites_in, parameter_sites, sites_among, sites_of};

use crate::edges::blocks_of;
use crate::site_table::SiteTable;
use ir_ast::{Block, Function, Instr, IrType, Name};
use std::alloc::{AllocError, Global};

/// Where a register is set: the place of its block, and the place of the instruction in the block.
#[derive(Clone, Copy)]
pub struct Site {
    pub block: u32,
    pub place: usize,
}

/// Adds the register that an instruction sets, where it sets one.
fn add_result(
    alloc: Global,
    sites: &mut SiteTable,
    instr: &Instr,
    site: Site,
) -> Result<(), AllocError>
    ensures { OnOk result (sites.new ≡ sites.old ++ map (λ x. (x, Some site)) (option_to_list instr.now.result)) }
{
    match &instr.result {
        Some(name) => sites.add(alloc, name, Some(site)),
        None => Ok(()),
    }
}

/// Adds the registers that the instructions of a block set.
fn add_results(
    alloc: Global,
    sites: &mut SiteTable,
    block: u32,
    instrs: &[Instr],
) -> Result<(), AllocError>
    ensures { OnOk result (sites.new ≡ sites.old ++ sites_in block 0 (map view_instr instrs.now)) }
{
    for (place, instr) in instrs.iter().enumerate() {
        add_result(alloc, sites, instr, Site { block, place })?;
    }
    Ok(())
}

/// Adds the registers that blocks set.
fn add_blocks(alloc: Global, sites: &mut SiteTable, blocks: &[Block]) -> Result<(), AllocError>
    requires { length blocks.now < 2 ^ 32 }
    ensures { OnOk result (sites.new ≡ sites.old ++ sites_among 0 (map view_block blocks.now)) }
{
    for (at, block) in blocks.iter().enumerate() {
        add_results(alloc, sites, at as u32, &block.instrs.items)?;
    }
    Ok(())
}

/// Adds the parameters.
fn add_parameters(
    alloc: Global,
    sites: &mut SiteTable,
    parameters: &[(IrType, Name)],
) -> Result<(), AllocError>
    ensures { OnOk result (sites.new ≡ sites.old ++ parameter_sites parameters.now) }
{
    for parameter in parameters {
        sites.add(alloc, &parameter.1, None)?;
    }
    Ok(())
}

/// The registers of a function, each with the place where it is set. The table is made where their names differ.
pub fn register_sites(alloc: Global, function: &Function) -> Result<SiteTable, AllocError>
    requires { AreFewBlocks (view_function function.now) }
    ensures { IfOk result (λ sites. sites ≡ sites_of (view_function function.now)) }
{
    let mut sites = SiteTable::new(alloc);
    add_parameters(alloc, &mut sites, &function.parameters.items)?;
    add_blocks(alloc, &mut sites, blocks_of(function))?;
    Ok(sites)
}
