//! The registers of a function, by their places: the parameters first, and then what instructions set, in text order.

ghost use Rattle.std.specs.Prelude.{◌≡◌, ◌<◌, ◌^◌, ◌++◌, ◌∷◌, [], ℕ, List, Some, length, map, flat_map, OnOk, IfOk};
ghost use Rattle.ir_ast.specs.View.{view_type};
ghost use Rattle.ir_ast.specs.ProgramView.{view_entries, view_type_entry, view_instr, view_block, view_function};
ghost use Rattle.ir_whole.specs.Heads.{Grows};
ghost use Rattle.ir_whole.specs.Numbers.{types_of, IsFor};
ghost use Rattle.ir_typing.specs.Registers.{set_by, value_of, registers_of, blocks_of};
ghost use Rattle.ir_typing.specs.Places.{with_place};
ghost use Rattle.ir_typing.specs.Kept.{of_parameters, of_instrs, of_blocks};
ghost use Rattle.ir_typing.specs.Kinds.{AreKept};

use crate::entries::add_first;
use crate::held::Held;
use crate::kinds::kind_set;
use ir_ast::{Block, Function, Instr, IrType, Name, Table, TypeTable};
use ir_whole::TypeNumbers;
use std::alloc::{AllocError, Global};

/// Registers: the first place of each name, and what each holds by its place.
#[derive(Drop)]
pub struct Registers {
    pub places: Table<u32>,
    pub kinds: Vec<Held>,
}

impl Registers {
    ghost use Rattle.ir_typing.specs.Adding.{Adds};

    /// Adds a register behind the others. 2^32 registers or more have no room.
    fn add(&mut self, alloc: Global, name: &Name, held: Held) -> Result<(), AllocError>
        ensures places { OnOk result (self.new.places ≡ with_place self.old.places name.now (length self.old.kinds.items)) }
        ensures kinds { OnOk result (self.new.kinds.items ≡ self.old.kinds.items ++ held ∷ []) }
        ensures small { OnOk result (length self.new.kinds.items < 2 ^ 32) }
    {
        let place = self.kinds.len();
        if place >= u32::MAX as usize {
            return Err(AllocError);
        }
        add_first(alloc, &mut self.places, name, place as u32)?;
        self.kinds.push(held)?;
        Ok(())
    }

    /// Adds a parameter.
    fn add_parameter(
        &mut self,
        alloc: Global,
        numbers: &mut TypeNumbers,
        types: &TypeTable,
        parameter: &(IrType, Name),
    ) -> Result<(), AllocError>
        requires small { length types.now < 2 ^ 32 }
        requires own { IsFor (view_entries view_type_entry types.now) numbers.old }
        ensures own { IsFor (view_entries view_type_entry types.now) numbers.new }
        ensures adds { OnOk result (Adds (view_entries view_type_entry types.now) (types_of numbers.old) (types_of numbers.new) ((parameter.now.1, value_of (view_type parameter.now.0)) ∷ []) self.old self.new) }
    {
        let number = numbers.number(alloc, types, &parameter.0)?;
        self.add(alloc, &parameter.1, Held::Value(number))?;
        Ok(())
    }

    /// Adds the register that an instruction sets, where it sets one.
    fn add_instr(
        &mut self,
        alloc: Global,
        numbers: &mut TypeNumbers,
        types: &TypeTable,
        instr: &Instr,
    ) -> Result<(), AllocError>
        requires small { length types.now < 2 ^ 32 }
        requires own { IsFor (view_entries view_type_entry types.now) numbers.old }
        ensures own { IsFor (view_entries view_type_entry types.now) numbers.new }
        ensures adds { OnOk result (Adds (view_entries view_type_entry types.now) (types_of numbers.old) (types_of numbers.new) (set_by (view_instr instr.now)) self.old self.new) }
    {
        let Some(name) = &instr.result else {
            return Ok(());
        };
        if let Some(held) = kind_set(alloc, numbers, types, &instr.op)? {
            self.add(alloc, name, held)?;
            return Ok(());
        }
        Ok(())
    }

    /// Adds the parameters.
    fn add_parameters(
        &mut self,
        alloc: Global,
        numbers: &mut TypeNumbers,
        types: &TypeTable,
        parameters: &[(IrType, Name)],
    ) -> Result<(), AllocError>
        requires small { length types.now < 2 ^ 32 }
        requires own { IsFor (view_entries view_type_entry types.now) numbers.old }
        ensures own { IsFor (view_entries view_type_entry types.now) numbers.new }
        ensures adds { OnOk result (Adds (view_entries view_type_entry types.now) (types_of numbers.old) (types_of numbers.new) (of_parameters parameters.now) self.old self.new) }
    {
        'each: for parameter in parameters {
            self.add_parameter(alloc, numbers, types, parameter)?;
        }
        Ok(())
    }

    /// Adds the registers that instructions set.
    fn add_instrs(
        &mut self,
        alloc: Global,
        numbers: &mut TypeNumbers,
        types: &TypeTable,
        instrs: &[Instr],
    ) -> Result<(), AllocError>
        requires small { length types.now < 2 ^ 32 }
        requires own { IsFor (view_entries view_type_entry types.now) numbers.old }
        ensures own { IsFor (view_entries view_type_entry types.now) numbers.new }
        ensures adds { OnOk result (Adds (view_entries view_type_entry types.now) (types_of numbers.old) (types_of numbers.new) (of_instrs instrs.now) self.old self.new) }
    {
        'each: for instr in instrs {
            self.add_instr(alloc, numbers, types, instr)?;
        }
        Ok(())
    }

    /// Adds the registers that the instructions of blocks set.
    fn add_blocks(
        &mut self,
        alloc: Global,
        numbers: &mut TypeNumbers,
        types: &TypeTable,
        blocks: &[Block],
    ) -> Result<(), AllocError>
        requires small { length types.now < 2 ^ 32 }
        requires own { IsFor (view_entries view_type_entry types.now) numbers.old }
        ensures own { IsFor (view_entries view_type_entry types.now) numbers.new }
        ensures adds { OnOk result (Adds (view_entries view_type_entry types.now) (types_of numbers.old) (types_of numbers.new) (of_blocks blocks.now) self.old self.new) }
    {
        'each: for block in blocks {
            self.add_instrs(alloc, numbers, types, block.instrs.items.as_slice())?;
        }
        Ok(())
    }
}

/// The blocks of a function: none where it has no body.
pub fn blocks_in(function: &Function) -> &[Block]
    ensures { map view_block result.now ≡ blocks_of (view_function function.now) }
{
    match &function.body {
        Some(body) => body.items.as_slice(),
        None => &[],
    }
}

/// The registers of a function.
pub fn registers_in(
    alloc: Global,
    numbers: &mut TypeNumbers,
    types: &TypeTable,
    function: &Function,
) -> Result<Registers, AllocError>
    requires small { length types.now < 2 ^ 32 }
    requires own { IsFor (view_entries view_type_entry types.now) numbers.old }
    ensures own { IsFor (view_entries view_type_entry types.now) numbers.new }
    ensures kept { IfOk result (λ r. AreKept (view_entries view_type_entry types.now) (types_of numbers.new) (registers_of (view_function function.now)) r.places r.kinds.items) }
{
    let mut registers = Registers {
        places: Table::new(alloc),
        kinds: Vec::new(alloc),
    };
    registers.add_parameters(alloc, numbers, types, function.parameters.items.as_slice())?;
    registers.add_blocks(alloc, numbers, types, blocks_in(function))?;
    Ok(registers)
}
