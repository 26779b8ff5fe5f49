//! The registers that operands and instructions name, by their places in the table of a function's registers.

ghost use Rattle.std.specs.Prelude.{◌≡◌, ◌<◌, ◌^◌, ◌++◌, ◌∷◌, [], length, map, option_map, flat_map, position, option_to_list, bytes_eq, OnOk};
ghost use Rattle.ir_ast.specs.Table.{names_of};
ghost use Rattle.ir_ast.specs.View.{view_operand, view_gep, view_index_list};
ghost use Rattle.ir_ast.specs.ProgramView.{view_op, view_typed};
ghost use Rattle.ir_type.specs.Names.{local_name, locals_in, form_leaves_of, index_leaves_of};
ghost use Rattle.ir_check.specs.Graphs.{places_among};
ghost use Rattle.ir_check.specs.Sites.{used_here};

use crate::site_table::SiteTable;
use ir_ast::{Gep, IndexList, IrType, Name, Op, Operand};
use std::alloc::AllocError;

/// Adds the place of a register, where it has one.
fn add_register(sites: &SiteTable, name: &Name, places: &mut Vec<u32>) -> Result<(), AllocError>
    ensures { OnOk result (places.new.items ≡ places.old.items ++ option_to_list (position (bytes_eq name.now) (names_of sites.now))) }
{
    if let Some(place) = sites.get(name) {
        places.push(place)?;
    }
    Ok(())
}

/// Adds the places of the registers that an operand names.
#[cycle(locals)]
pub fn add_operand(
    sites: &SiteTable,
    operand: &Operand,
    places: &mut Vec<u32>,
) -> Result<(), AllocError>
    ensures { OnOk result (places.new.items ≡ places.old.items ++ places_among (names_of sites.now) (locals_in (view_operand operand.now))) }
{
    match operand {
        Operand::Local(name) => add_register(sites, name, places),
        Operand::Address(gep) => add_gep(sites, gep, places),
        _ => Ok(()),
    }
}

/// The same for the base and the indices of an address.
#[cycle(locals)]
fn add_gep(sites: &SiteTable, gep: &Gep, places: &mut Vec<u32>) -> Result<(), AllocError>
    ensures { OnOk result (places.new.items ≡ places.old.items ++ places_among (names_of sites.now) (flat_map local_name (form_leaves_of (view_gep gep.now)))) }
{
    add_operand(sites, &gep.base, places)?;
    add_indices(sites, &gep.indices, places)
}

/// The same for indices.
#[cycle(locals)]
fn add_indices(
    sites: &SiteTable,
    indices: &IndexList,
    places: &mut Vec<u32>,
) -> Result<(), AllocError>
    ensures { OnOk result (places.new.items ≡ places.old.items ++ places_among (names_of sites.now) (flat_map local_name (index_leaves_of (view_index_list indices.now)))) }
{
    let items = indices.items.as_slice();
    'each: for index in items {
        add_operand(sites, &index.1, places)?;
    }
    Ok(())
}

/// Adds the places of the registers that two operands name.
fn add_two(
    sites: &SiteTable,
    a: &Operand,
    b: &Operand,
    places: &mut Vec<u32>,
) -> Result<(), AllocError>
    ensures { OnOk result (places.new.items ≡ places.old.items ++ places_among (names_of sites.now) (flat_map locals_in (view_operand a.now ∷ view_operand b.now ∷ []))) }
{
    add_operand(sites, a, places)?;
    add_operand(sites, b, places)
}

/// Adds the places of the registers that arguments name.
fn add_arguments(
    sites: &SiteTable,
    arguments: &[(IrType, Operand)],
    places: &mut Vec<u32>,
) -> Result<(), AllocError>
    ensures { OnOk result (places.new.items ≡ places.old.items ++ places_among (names_of sites.now) (flat_map locals_in (map (λ p. p.1) (view_typed arguments.now)))) }
{
    for argument in arguments {
        add_operand(sites, &argument.1, places)?;
    }
    Ok(())
}

/// Adds the places of the registers that an operand names, where there is one.
fn add_given(
    sites: &SiteTable,
    given: &Option<Operand>,
    places: &mut Vec<u32>,
) -> Result<(), AllocError>
    ensures { OnOk result (places.new.items ≡ places.old.items ++ places_among (names_of sites.now) (flat_map locals_in (option_to_list (option_map view_operand given.now)))) }
{
    match given {
        Some(operand) => add_operand(sites, operand, places),
        None => Ok(()),
    }
}

/// Adds the places of the registers that an instruction uses where it stands.
pub fn add_used(sites: &SiteTable, op: &Op, places: &mut Vec<u32>) -> Result<(), AllocError>
    ensures { OnOk result (places.new.items ≡ places.old.items ++ places_among (names_of sites.now) (used_here (view_op op.now))) }
{
    match op {
        Op::Binary { a, b, .. } => add_two(sites, a, b, places),
        Op::Compare { a, b, .. } => add_two(sites, a, b, places),
        Op::Select {
            condition,
            a,
            b,
            ..
        } => {
            add_operand(sites, condition, places)?;
            add_two(sites, a, b, places)
        }
        Op::Convert { a, .. } => add_operand(sites, a, places),
        Op::Freeze { a, .. } => add_operand(sites, a, places),
        Op::Load { address, .. } => add_operand(sites, address, places),
        Op::Store { value, address, .. } => add_two(sites, value, address, places),
        Op::Offset(gep) => add_gep(sites, gep, places),
        Op::Call { arguments, .. } => add_arguments(sites, &arguments.items, places),
        Op::Extract { from, .. } => add_operand(sites, from, places),
        Op::Branch { condition, .. } => add_operand(sites, condition, places),
        Op::Switch { on, .. } => add_operand(sites, on, places),
        Op::Return { value, .. } => add_given(sites, value, places),
        Op::Phi { .. } | Op::Slot { .. } | Op::Goto { .. } | Op::Unreachable => Ok(()),
    }
}
