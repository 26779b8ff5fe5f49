//! The names of one function.

ghost use Rattle.std.specs.Prelude.{◌≡◌, position, bytes_eq};
ghost use Rattle.ir_ast.specs.ProgramView.{view_function};
ghost use Rattle.ir_typing.specs.Places.{ArePlaces, register_names, block_names};

use crate::entries::{block_places, entry};
use crate::held::Held;
use crate::registers::{Registers, blocks_in, registers_in};
use ir_ast::{Function, Name, Table, TypeTable};
use ir_whole::TypeNumbers;
use std::alloc::{AllocError, Global};

/// The registers and the blocks of a function, by name.
#[derive(Drop)]
pub struct Scope<'m> {
    types: &'m TypeTable,
    function: &'m Function,
    registers: Table<u32>,
    kinds: Vec<Held>,
    blocks: Table<u32>,
    ghost places: { ArePlaces (view_function function.now) registers blocks },
}

impl<'m> Scope<'m> {
    ghost use Rattle.std.specs.Prelude.{◌<◌, ◌^◌, length, IfOk};
    ghost use Rattle.ir_ast.specs.ProgramView.{view_entries, view_type_entry};
    ghost use Rattle.ir_whole.specs.Numbers.{types_of, IsFor};
    ghost use Rattle.std.specs.Prelude.{is_some};
    ghost use Rattle.ir_type.specs.Names.{entry_of};
    ghost use Rattle.ir_typing.specs.Registers.{registers_of, block_of};
    ghost use Rattle.ir_typing.specs.Scoped.{function_in, types_in, held_in, IsTyped};

    /// The scope of a function, with the numbers of its registers' types. It takes time linear in the function.
    pub fn of(
        alloc: Global,
        numbers: &mut TypeNumbers,
        types: &'m TypeTable,
        function: &'m Function,
    ) -> Result<Scope<'m>, AllocError>
        requires small { length types.now < 2 ^ 32 }
        requires own { IsFor (view_entries view_type_entry types.now) numbers.old }
        ensures own { IsFor (view_entries view_type_entry types.now) numbers.new }
        ensures function { IfOk result (λ scope. function_in scope ≡ view_function function.now) }
        ensures types { IfOk result (λ scope. types_in scope ≡ view_entries view_type_entry types.now) }
        ensures typed { IfOk result (λ scope. IsTyped numbers.new scope) }
    {
        let Registers { places, kinds } = registers_in(alloc, numbers, types, function)?;
        let blocks = block_places(alloc, blocks_in(function))?;
        Ok(Scope {
            types,
            function,
            registers: places,
            kinds,
            blocks,
        })
    }

    /// The place of a register, with the parameters first, and then in text order.
    pub fn register(&self, name: &Name) -> Option<u32>
        ensures { result ≡ position (bytes_eq name.now) (register_names (function_in self.now)) }
    {
        entry(&self.registers, name)
    }

    /// The place of a block.
    pub fn block(&self, name: &Name) -> Option<u32>
        ensures { result ≡ position (bytes_eq name.now) (block_names (function_in self.now)) }
    {
        entry(&self.blocks, name)
    }

    /// Whether a register has this name.
    #[tactic(auto, using(crate::proofs::Entered::known_place))]
    pub fn has_register(&self, name: &Name) -> bool
        ensures { result ≡ is_some (entry_of name.now (registers_of (function_in self.now))) }
    {
        self.register(name).is_some()
    }

    /// Whether a block has this name.
    #[tactic(auto, using(crate::proofs::Entered::known_block))]
    pub fn has_block(&self, name: &Name) -> bool
        ensures { result ≡ is_some (block_of (function_in self.now) name.now) }
    {
        self.block(name).is_some()
    }

    /// What a register holds.
    pub(crate) fn held(&self, name: &Name) -> Option<Held>
        ensures { result ≡ held_in self.now name.now }
    {
        match self.register(name) {
            Some(place) => self.kinds.get(place as usize).copied(),
            None => None,
        }
    }

    /// The named types that the function's types spell.
    pub fn types(&self) -> &'m TypeTable
        ensures { result.now ≡ self.now.types.now }
    {
        self.types
    }

    /// The function.
    pub fn function(&self) -> &'m Function
        ensures { result.now ≡ self.now.function.now }
    {
        self.function
    }
}
