//! The arms of a phi, against the edges to its block and against each other.

ghost use Rattle.std.specs.Prelude.{◌≡◌, ◌<◌, ◌^◌, ◌++◌, ℕ, List, Some, length, map, position, option_to_list, bytes_eq, MatchBool, OnOk, IfOk};
ghost use Rattle.std.specs.List.{All, Contains};
ghost use Rattle.ir_ast.specs.Table.{names_of, place_of};
ghost use Rattle.ir_ast.specs.Program.{BlockView, FunctionView};
ghost use Rattle.ir_ast.specs.View.{view_type, view_operand};
ghost use Rattle.ir_ast.specs.ProgramView.{view_entries, view_type_entry, view_arms};
ghost use Rattle.ir_whole.specs.Numbers.{IsFor};
ghost use Rattle.ir_check.specs.Arms as definition;
ghost use Rattle.ir_check.specs.Arms.{MeetsEdges, IsAsFirst};
ghost use Rattle.ir_check.specs.Graphs.{named_blocks, places_among};
ghost use Rattle.ir_check.specs.Sites.{AreSources};

use crate::index::NameIndex;
use crate::tally::{Tally, same_counts};
use ir_ast::{IrType, Name, Operand, TypeTable};
use ir_typing::same_value;
use ir_whole::TypeNumbers;
use std::alloc::{AllocError, Global};

/// Adds the place of a block, where it has one.
fn add_block(index: &NameIndex, name: &Name, places: &mut Tally) -> Result<(), AllocError>
    requires { length index.now < 2 ^ 32 }
    ensures { OnOk result (places.new ≡ places.old ++ option_to_list (position (bytes_eq name.now) index.now)) }
{
    if let Some(place) = index.place(name) {
        places.add(place)?;
    }
    Ok(())
}

/// The places of the blocks that arms name.
fn arm_places(
    alloc: Global,
    index: &NameIndex,
    arms: &[(Operand, Name)],
) -> Result<Tally, AllocError>
    requires { length index.now < 2 ^ 32 }
    ensures { IfOk result (λ places. places ≡ places_among index.now (map (λ arm. arm.1) arms.now)) }
{
    let mut places = Tally::new(alloc);
    for arm in arms {
        add_block(index, &arm.1, &mut places)?;
    }
    Ok(places)
}

/// Where the first arm from a block stands, by the places of the blocks that the arms name.
fn first_arm(index: &NameIndex, places: &Tally, name: &Name) -> Option<usize>
    requires { length index.now < 2 ^ 32 }
    ensures { result ≡ definition.first_arm index.now places.now name.now }
{
    match index.place(name) {
        Some(place) => places.first(place),
        None => None,
    }
}

/// The arms of a phi, with the places of the blocks that they name, by the names of all blocks.
#[derive(Drop)]
struct PlacedArms<'a> {
    index: &'a NameIndex,
    places: &'a Tally,
    arms: &'a [(Operand, Name)],
}

/// Whether the operand of an arm is that of the first arm from its block.
fn is_as_first(
    alloc: Global,
    numbers: &mut TypeNumbers,
    types: &TypeTable,
    over: &IrType,
    all: &PlacedArms<'_>,
    arm: &(Operand, Name),
) -> Result<bool, AllocError>
    requires few { length all.now.index.now < 2 ^ 32 }
    requires small { length types.now < 2 ^ 32 }
    requires own { IsFor (view_entries view_type_entry types.now) numbers.old }
    ensures same { IfOk result (λ same. MatchBool same (IsAsFirst (view_entries view_type_entry types.now) (view_type over.now) all.now.index.now all.now.places.now (view_arms all.now.arms.now) (view_operand arm.now.0, arm.now.1)) (IsAsFirst (view_entries view_type_entry types.now) (view_type over.now) all.now.index.now all.now.places.now (view_arms all.now.arms.now) (view_operand arm.now.0, arm.now.1) → ⊥)) }
    ensures own { IsFor (view_entries view_type_entry types.now) numbers.new }
{
    let Some(first) = first_arm(all.index, all.places, &arm.1) else {
        return Ok(true);
    };
    let arms = all.arms;
    if first >= arms.len() {
        return Ok(true);
    }
    let same = same_value(alloc, numbers, types, over, &arms[first].0, &arm.0)?;
    Ok(same)
}

/// Whether each arm has the operand of the first arm from its block.
fn are_as_first(
    alloc: Global,
    numbers: &mut TypeNumbers,
    types: &TypeTable,
    over: &IrType,
    index: &NameIndex,
    places: &Tally,
    arms: &[(Operand, Name)],
) -> Result<bool, AllocError>
    requires few { length index.now < 2 ^ 32 }
    requires small { length types.now < 2 ^ 32 }
    requires own { IsFor (view_entries view_type_entry types.now) numbers.old }
    ensures same { IfOk result (λ same. MatchBool same (All (IsAsFirst (view_entries view_type_entry types.now) (view_type over.now) index.now places.now (view_arms arms.now)) (view_arms arms.now)) (All (IsAsFirst (view_entries view_type_entry types.now) (view_type over.now) index.now places.now (view_arms arms.now)) (view_arms arms.now) → ⊥)) }
    ensures own { IsFor (view_entries view_type_entry types.now) numbers.new }
{
    let all = PlacedArms {
        index,
        places,
        arms,
    };
    for arm in arms {
        let same = is_as_first(alloc, numbers, types, over, &all, arm)?;
        if !same {
            return Ok(false);
        }
    }
    Ok(true)
}

/// Whether the arms of a phi name each block as often as it has edges to the phi's block, of which these are the sources, and with one
/// operand: the blocks that the arms name are ones of the function. It takes time n log n in the arms, but for the look-ups of whole
/// types.
pub fn arms_meet(
    alloc: Global,
    numbers: &mut TypeNumbers,
    types: &TypeTable,
    over: &IrType,
    index: &NameIndex,
    sources: &Tally,
    arms: &[(Operand, Name)],
) -> Result<bool, AllocError>
    requires few { length index.now < 2 ^ 32 }
    requires small { length types.now < 2 ^ 32 }
    requires own { IsFor (view_entries view_type_entry types.now) numbers.old }
    ensures meet { (f : FunctionView) (b : BlockView) (p : ℕ) → index.now ≡ names_of (named_blocks f) → place_of b.name (named_blocks f) ≡ Some p → AreSources f p sources.now → ((x : List ℕ) → Contains (map (λ arm. arm.1) (view_arms arms.now)) x → (q : ℕ) × (place_of x (named_blocks f) ≡ Some q)) → IfOk result (λ meet. MatchBool meet (MeetsEdges (view_entries view_type_entry types.now) f b (view_type over.now) (view_arms arms.now)) (MeetsEdges (view_entries view_type_entry types.now) f b (view_type over.now) (view_arms arms.now) → ⊥)) }
    ensures own { IsFor (view_entries view_type_entry types.now) numbers.new }
{
    index.len();
    let places = arm_places(alloc, index, arms)?;
    if !same_counts(&places, sources) {
        return Ok(false);
    }
    let same = are_as_first(alloc, numbers, types, over, index, &places, arms)?;
    Ok(same)
}
