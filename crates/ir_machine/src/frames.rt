//! Registers of frames, and the frames below the top one.

ghost use Rattle.std.specs.Prelude.{◌≡◌, ◌∷◌, ◌+◌, ◌^◌, ◌<◌, [], length, Some, slice_set, OnOk, OnErr, IfOk};
ghost use Rattle.ir_machine.specs.Step as definition;
ghost use Rattle.ir_machine.specs.Popped.{popped};

use crate::state::{Frame, Held};
use hk_seq::Seq;
use std::alloc::{AllocError, Global};
use std::marker::Model;

/// The registers with a value at a place; without the place they are as before.
pub(crate) fn with_held(registers: Seq<Option<Held>>, place: u32, held: Held) -> Seq<Option<Held>>
    ensures { result ≡ slice_set registers place (Some held) }
{
    let mut items = registers.into_vec();
    if (place as usize) < items.len() {
        items[place as usize] = Some(held);
    }
    Seq::from_vec(items)
}

/// The frames below the top one, the latest first.
#[derive(Drop)]
pub struct Frames {
    items: Vec<Frame>,
}

impl Model for Frames {
    ghost use Rattle.std.specs.Prelude.{List, reverse};
    ghost use Rattle.ir_machine.specs.declared.state.Frame.{Frame};

    ghost Value = { List Frame };

    ghost view = { λ f. reverse f.items.items };
}

impl Frames {
    /// No frames. It takes no memory.
    pub fn new(alloc: Global) -> Frames
        ensures { result ≡ [] }
    {
        Frames {
            items: Vec::new(alloc),
        }
    }

    /// Puts a frame on top.
    pub(crate) fn push(&mut self, frame: Frame) -> Result<(), AllocError>
        ensures { OnOk result (self.new ≡ frame ∷ self.old) }
    {
        self.items.push(frame)?;
        Ok(())
    }

    /// Takes the latest frame off.
    pub(crate) fn pop(&mut self) -> Option<Frame>
        ensures { popped result self.new self.old }
    {
        self.items.pop()
    }
}

/// The frame behind its instruction.
pub(crate) fn advanced(frame: Frame) -> Frame
    requires { frame.position + 1 < 2 ^ 64 }
    ensures { result ≡ definition.behind frame frame.registers }
{
    Frame {
        position: frame.position + 1,
        ..frame
    }
}

/// The frame behind its instruction, with a value at a place.
pub(crate) fn with_slot(frame: Frame, place: u32, held: Held) -> Frame
    requires { frame.position + 1 < 2 ^ 64 }
    ensures { result ≡ definition.behind frame (slice_set frame.registers place (Some held)) }
{
    Frame {
        function: frame.function,
        from: frame.from,
        block: frame.block,
        position: frame.position + 1,
        registers: with_held(frame.registers, place, held),
    }
}

/// The frame behind its instruction, with a result.
pub(crate) fn with_register(frame: Frame, place: Option<u32>, held: Held) -> Frame
    requires { frame.position + 1 < 2 ^ 64 }
    ensures { result ≡ definition.behind frame (definition.with_result place held frame.registers) }
{
    match place {
        Some(place) => with_slot(frame, place, held),
        None => advanced(frame),
    }
}
