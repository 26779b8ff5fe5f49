//! Laws of the view of a module.

ghost use Rattle.std.specs.List.{All};
ghost use Rattle.ir_ast.specs.Program.{ModuleView};
ghost use Rattle.spec_names.specs.Room.{HasLeaves, Lies};
ghost use Rattle.spec_kernel.specs.View.{kernel_of};

/// Each integer that a path can name has 1, 2, 4 or 8 bytes, and lies in its object wherever each index is below its count. The call
/// does nothing: its contract is a law.
pub fn shapes_lie_in_their_objects()
    ensures leaves { (m : ModuleView) → All (λ g. HasLeaves g.shape) (kernel_of m).globals }
    ensures lies { (m : ModuleView) → All (λ g. Lies g.shape g.size) (kernel_of m).globals }
{}
