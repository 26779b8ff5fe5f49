//! The names of a scope.

ghost use Rattle.std.specs.Prelude.{◌≡◌, []};
ghost use Rattle.ir_read.specs.Steps.{is_among, with_name};
ghost use Rattle.ir_read.specs.View.{Gives};

use crate::stop::Stop;
use ir_ast::{KernelReason, Name, Table, TableFault};
use std::alloc::Global;
use std::marker::Model;

/// The names of a scope, in the order in which they were defined. Looking a name up takes a time that grows as the logarithm of
/// their number, whatever names they are.
#[derive(Drop)]
pub struct Names {
    table: Table<()>,
}

impl Model for Names {
    ghost use Rattle.std.specs.Prelude.{List, ℕ};
    ghost use Rattle.ir_ast.specs.Table.{names_of};

    ghost Value = { List (List ℕ) };

    ghost view = { λ n. names_of n.table };
}

impl Names {
    /// No names. It takes no memory.
    pub fn new(alloc: Global) -> Names
        ensures { result ≡ [] }
    {
        Names {
            table: Table::new(alloc),
        }
    }

    /// Whether the name is among them.
    #[tactic(auto, using(ir_ast::proofs::Placing::place_among))]
    pub fn contains(&self, name: &Name) -> bool
        ensures { result ≡ is_among name.now self.now }
    {
        self.table.contains(name)
    }

    /// The names with a new one behind them. `K4` comes exactly where the name is among them.
    #[tactic(auto, using(ir_ast::proofs::Placing::names_push, ir_ast::proofs::Placing::place_among))]
    pub fn with(mut self, name: Name) -> Result<Names, Stop>
        ensures { Gives (λ x. x) result (with_name name self) }
    {
        match self.table.add(name, ()) {
            Ok(()) => Ok(self),
            Err(TableFault::Repeated) => Err(Stop::Refused(KernelReason::K4)),
            Err(TableFault::Memory) => Err(Stop::Memory),
        }
    }
}
