//! The pair that an `extractvalue` takes a part from.

ghost use Rattle.std.specs.Prelude.{◌≡◌, ◌<◌, length, option_map, IfOk, IfSome};
ghost use Rattle.ir_ast.specs.View.{view_operand};
ghost use Rattle.ir_type.specs.Names.{entry_of};
ghost use Rattle.ir_whole.specs.Heads.{type_at};
ghost use Rattle.ir_whole.specs.Numbers.{types_of};
ghost use Rattle.ir_typing.specs.Fits as definition;
ghost use Rattle.ir_typing.specs.Pairs.{pair_kind};
ghost use Rattle.ir_typing.specs.Scoped.{scope_in, IsTyped};

use crate::calls::pair_type;
use crate::fit::number_of;
use crate::held::Held;
use crate::scope::Scope;
use ir_ast::{Name, Operand};
use ir_whole::TypeNumbers;
use std::alloc::{AllocError, Global};

/// The number of the type of the pair that a register holds.
fn pair_of(numbers: &TypeNumbers, scope: &Scope, name: &Name) -> Option<u32>
    requires { IsTyped numbers.now scope.now }
    ensures pair { option_map (type_at (types_of numbers.now)) result ≡ pair_kind (entry_of name.now (scope_in scope.now).registers) }
    ensures within { IfSome result (λ n. n < length (types_of numbers.now)) }
{
    match scope.held(name) {
        Some(Held::Value(_)) => None,
        Some(Held::Slot(_)) => None,
        Some(Held::Pair(number)) => Some(number),
        None => None,
    }
}

/// Whether a register holds what a call with overflow gives, at this width in bits.
#[tactic(auto, using(crate::proofs::PairKinds::by_kind, crate::proofs::Agreeing::pair_is))]
fn register_pairs(
    alloc: Global,
    numbers: &mut TypeNumbers,
    scope: &Scope,
    width: u32,
    name: &Name,
) -> Result<bool, AllocError>
    requires { IsTyped numbers.old scope.now }
    ensures pairs { IfOk result (λ r. r ≡ definition.is_pair width (entry_of name.now (scope_in scope.now).registers)) }
    ensures typed { IsTyped numbers.new scope.now }
{
    let pair = pair_type(alloc, width)?;
    let own = number_of(alloc, numbers, scope, &pair)?;
    match pair_of(numbers, scope, name) {
        Some(held) => Ok(numbers.is_same(held, own)),
        None => Ok(false),
    }
}

/// Whether an operand is what a call with overflow gives, at this width in bits.
pub fn pair_fits(
    alloc: Global,
    numbers: &mut TypeNumbers,
    scope: &Scope,
    width: u32,
    from: &Operand,
) -> Result<bool, AllocError>
    requires { IsTyped numbers.old scope.now }
    ensures pairs { IfOk result (λ r. r ≡ definition.pair_at (scope_in scope.now) width (view_operand from.now)) }
    ensures typed { IsTyped numbers.new scope.now }
{
    match from {
        Operand::Local(name) => register_pairs(alloc, numbers, scope, width, name),
        _ => Ok(false),
    }
}
