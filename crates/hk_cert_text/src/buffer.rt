//! The buffer that a certificate is written into: bytes behind bytes, and the lines of the report.

ghost use Rattle.std.specs.Prelude.{◌≡◌, ◌<◌, ◌^◌, ◌++◌, [], length, Some, OnOk, IfOk};
ghost use Rattle.std.specs.Fmt.{decimal, signed_decimal};
ghost use Rattle.ir_ast.specs.ProgramView.{view_entries, view_global};
ghost use Rattle.spec_tree.specs.Sorted.{IsWellSorted, field_sorts};
ghost use Rattle.spec_tree.specs.Shapes.{IsState};
ghost use Rattle.spec_tree.specs.View.{view_spec};
ghost use Rattle.hk_rows.specs.Texts.{line_text};
ghost use Rattle.hk_rows.specs.Rows.{memory_text};
ghost use Rattle.hk_verdict.specs.Entries as report;
ghost use Rattle.hk_verdict.specs.Report.{args_text};

use hk_io::{Sink, SinkFault};
use hk_rows::{Part, put_line, put_memory};
use hk_verdict::{put_args, put_entries};
use ir_ast::GlobalTable;
use ir_layout::KMemory;
use itoa::Buffer;
use spec_tree::Spec;
use spec_value::AbstractState;
use std::alloc::{AllocError, Global};

/// The bytes that are written so far. It is a sink for the lines of the report; a put fails where memory is wanting.
#[derive(Drop)]
pub struct Text {
    bytes: Vec<u8>,
    faults: u64,
}

impl Sink for Text {
    ghost shown = { λ t. Some t.bytes.items };

    ghost faults = { λ t. t.faults };

    fn put(&mut self, bytes: &[u8]) -> Result<(), SinkFault> {
        let faults = self.faults;
        if self.bytes.extend_from_slice(bytes).is_err() {
            self.faults = faults.saturating_add(1);
            return Err(SinkFault::Failed { sent: 0 });
        }
        Ok(())
    }
}

impl Text {
    /// No byte, with room for so many.
    pub fn with_room(alloc: Global, room: usize) -> Result<Text, AllocError>
        ensures { IfOk result (λ text. text.bytes.items ≡ []) }
    {
        Ok(Text {
            bytes: Vec::with_capacity(alloc, room)?,
            faults: 0,
        })
    }

    /// The bytes.
    pub fn into_bytes(self) -> Vec<u8>
        ensures { result.items ≡ self.bytes.items }
    {
        self.bytes
    }

    /// Adds these bytes.
    pub fn add(&mut self, bytes: &[u8]) -> Result<(), AllocError>
        ensures { OnOk result (self.new.bytes.items ≡ self.old.bytes.items ++ bytes.now) }
    {
        self.bytes.extend_from_slice(bytes)?;
        Ok(())
    }

    /// Adds a number in decimal.
    pub fn add_number(&mut self, number: u64) -> Result<(), AllocError>
        ensures { OnOk result (self.new.bytes.items ≡ self.old.bytes.items ++ decimal number) }
    {
        let mut buffer = Buffer::new();
        self.add(buffer.format(number).as_bytes())
    }

    /// Adds a number in decimal, with its sign where it is negative.
    pub fn add_signed(&mut self, number: i64) -> Result<(), AllocError>
        ensures { OnOk result (self.new.bytes.items ≡ self.old.bytes.items ++ signed_decimal number) }
    {
        let mut buffer = Buffer::new();
        self.add(buffer.format(number).as_bytes())
    }

    /// Adds a line of these parts.
    pub fn add_line(&mut self, parts: &[Part]) -> Result<(), AllocError>
        ensures { OnOk result (self.new.bytes.items ≡ self.old.bytes.items ++ line_text parts.now) }
    {
        match put_line(self, parts) {
            Ok(()) => Ok(()),
            Err(_) => Err(AllocError),
        }
    }

    /// Adds the lines of arguments.
    pub fn add_args(&mut self, args: &[u64]) -> Result<(), AllocError>
        ensures { OnOk result (self.new.bytes.items ≡ self.old.bytes.items ++ args_text args.now) }
    {
        match put_args(self, args) {
            Ok(()) => Ok(()),
            Err(_) => Err(AllocError),
        }
    }

    /// Adds the rows of a memory.
    pub fn add_memory(&mut self, globals: &GlobalTable, memory: &KMemory) -> Result<(), AllocError>
        requires { length globals.now < 2 ^ 32 }
        ensures { OnOk result (self.new.bytes.items ≡ self.old.bytes.items ++ memory_text (view_entries view_global globals.now) memory.now) }
    {
        match put_memory(self, globals, memory) {
            Ok(()) => Ok(()),
            Err(_) => Err(AllocError),
        }
    }

    /// Adds the entries of an abstract state.
    pub fn add_entries(&mut self, spec: &Spec, state: &AbstractState) -> Result<(), AllocError>
        requires sorted { IsWellSorted (view_spec spec.now) }
        requires state { IsState (field_sorts (view_spec spec.now)) state.now }
        ensures { OnOk result (self.new.bytes.items ≡ self.old.bytes.items ++ report.entries_text [] (view_spec spec.now) state.now) }
    {
        match put_entries(self, spec, b"", state) {
            Ok(()) => Ok(()),
            Err(_) => Err(AllocError),
        }
    }
}
