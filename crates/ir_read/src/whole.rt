//! The parts of a module that are whole.

ghost use Rattle.std.specs.Prelude.{◌≡◌, false, Ok, OnOk};
ghost use Rattle.ir_ast.specs.ProgramView.{view_global, view_range, view_line, view_type_entry, view_function, view_module};
ghost use Rattle.ir_read.specs.Steps as definition;
ghost use Rattle.ir_read.specs.State.{no_items};
ghost use Rattle.ir_ast.specs.Small.{IsSmall};
ghost use Rattle.ir_read.specs.View.{AreCounted, view_whole};
ghost use Rattle.ir_read.specs.Answers.{Becomes};

use crate::stop::Stop;
use ir_ast::{
    Function, FunctionTable, GlobalItem, GlobalTable, KernelReason, LineText, Module, Name,
    RangeEntry, RangeTable, Table, TableFault, TypeEntry, TypeTable,
};
use std::alloc::Global;

/// The parts of a module that are whole.
#[derive(Drop)]
pub struct Whole {
    /// How many entries were added to the tables.
    pub count: u32,
    pub layout_text: Option<LineText>,
    pub types: TypeTable,
    pub globals: GlobalTable,
    pub functions: FunctionTable,
    pub ranges: RangeTable,
}

/// Adds an entry to a table. `K4` comes exactly where its name has one.
fn add<E: Drop>(table: &mut Table<E>, name: Name, entry: E) -> Result<(), Stop>
    ensures { Becomes (λ x. x) result table.new (definition.with_entry name entry table.old) }
{
    match table.add(name, entry) {
        Ok(()) => Ok(()),
        Err(TableFault::Repeated) => Err(Stop::Refused(KernelReason::K4)),
        Err(TableFault::Memory) => Err(Stop::Memory),
    }
}

impl Whole {
    /// Nothing is read yet. It takes no memory.
    pub fn new(alloc: Global) -> Whole
        ensures value { view_whole result ≡ no_items }
        ensures counted { AreCounted result }
    {
        Whole {
            count: 0,
            layout_text: None,
            types: Table::new(alloc),
            globals: Table::new(alloc),
            functions: Table::new(alloc),
            ranges: Table::new(alloc),
        }
    }

    /// Whether a global or a function has this name.
    #[tactic(auto, using(crate::proofs::Views::symbol_viewed))]
    pub fn is_symbol(&self, name: &Name) -> bool
        requires { AreCounted self.now }
        ensures { result ≡ definition.is_symbol name.now (view_whole self.now) }
    {
        // For the proof: the count is below 2^32, and so are the numbers of globals and functions.
        let _count = self.count;
        self.globals.get(name).is_some() || self.functions.get(name).is_some()
    }

    /// Keeps the layout text. A second one is out of place.
    pub fn add_layout(&mut self, text: LineText) -> Result<(), Stop>
        requires { AreCounted self.old }
        ensures value { Becomes view_whole result self.new (definition.layout_in (view_whole self.old).layout_text (view_line text) (view_whole self.old)) }
        ensures counted { AreCounted self.new }
    {
        if self.layout_text.is_some() {
            return Err(Stop::Refused(KernelReason::K2));
        }
        self.layout_text = Some(text);
        Ok(())
    }

    /// Adds a named type.
    #[tactic(auto, using(crate::proofs::Views::types_became, crate::proofs::Views::length_added))]
    pub fn add_type(&mut self, name: Name, entry: TypeEntry) -> Result<(), Stop>
        requires { AreCounted self.old }
        ensures value { Becomes view_whole result self.new (definition.types_in (definition.with_entry name (view_type_entry entry) (view_whole self.old).types) (view_whole self.old)) }
        ensures counted { OnOk result (AreCounted self.new) }
    {
        let Some(count) = self.count.checked_add(1) else {
            return Err(Stop::Memory);
        };
        self.count = count;
        add(&mut self.types, name, entry)
    }

    /// Adds a range.
    #[tactic(auto, using(crate::proofs::Views::ranges_became, crate::proofs::Views::length_added))]
    pub fn add_range(&mut self, name: Name, entry: RangeEntry) -> Result<(), Stop>
        requires { AreCounted self.old }
        ensures value { Becomes view_whole result self.new (definition.ranges_in (definition.with_entry name (view_range entry) (view_whole self.old).ranges) (view_whole self.old)) }
        ensures counted { OnOk result (AreCounted self.new) }
    {
        let Some(count) = self.count.checked_add(1) else {
            return Err(Stop::Memory);
        };
        self.count = count;
        add(&mut self.ranges, name, entry)
    }

    /// Adds a global, whose name is that of no global and no function.
    #[tactic(auto, using(crate::proofs::Views::length_added))]
    fn push_global(&mut self, alloc: Global, global: GlobalItem) -> Result<(), Stop>
        requires counted { AreCounted self.old }
        requires new { definition.is_symbol global.name (view_whole self.old) ≡ false }
        ensures value { Becomes view_whole result self.new (Ok (definition.with_new_global (view_global global) (view_whole self.old))) }
        ensures counted { OnOk result (AreCounted self.new) }
    {
        let Some(count) = self.count.checked_add(1) else {
            return Err(Stop::Memory);
        };
        let name = global.name.copy(alloc)?;
        self.count = count;
        add(&mut self.globals, name, global)
    }

    /// Adds a global.
    pub fn add_global(&mut self, alloc: Global, global: GlobalItem) -> Result<(), Stop>
        requires { AreCounted self.old }
        ensures value { Becomes view_whole result self.new (definition.with_global (view_global global) (view_whole self.old)) }
        ensures counted { OnOk result (AreCounted self.new) }
    {
        if self.is_symbol(&global.name) {
            return Err(Stop::Refused(KernelReason::K4));
        }
        self.push_global(alloc, global)
    }

    /// Adds a function, whose name is that of no global and no function.
    pub fn push_function(&mut self, alloc: Global, function: Function) -> Result<(), Stop>
        requires counted { AreCounted self.old }
        requires new { definition.is_symbol function.name (view_whole self.old) ≡ false }
        ensures value { Becomes view_whole result self.new (Ok (definition.with_function (view_function function) (view_whole self.old))) }
        ensures counted { OnOk result (AreCounted self.new) }
    {
        let Some(count) = self.count.checked_add(1) else {
            return Err(Stop::Memory);
        };
        let name = function.name.copy(alloc)?;
        self.count = count;
        add(&mut self.functions, name, function)
    }

    /// Adds a declared function.
    pub fn add_declared(&mut self, alloc: Global, function: Function) -> Result<(), Stop>
        requires { AreCounted self.old }
        ensures value { Becomes view_whole result self.new (definition.with_declared (view_function function) (view_whole self.old)) }
        ensures counted { OnOk result (AreCounted self.new) }
    {
        if self.is_symbol(&function.name) {
            return Err(Stop::Refused(KernelReason::K4));
        }
        self.push_function(alloc, function)
    }

    /// The module of these parts. It takes no memory.
    pub fn into_module(self) -> Module
        requires { AreCounted self }
        ensures value { view_module result ≡ view_whole self }
        ensures small { IsSmall result }
    {
        let Whole {
            layout_text,
            types,
            globals,
            functions,
            ranges,
            ..
        } = self;
        Module {
            layout_text,
            types,
            globals,
            functions,
            ranges,
        }
    }
}
