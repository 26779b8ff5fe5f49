//! Laws of walks and runs. A function here does nothing: its contract is the law.

ghost use Rattle.std.specs.Prelude.{◌≡◌, ◌≢◌, ◌<◌, ◌≤◌, ℕ, List, length};
ghost use Rattle.ir_code.specs.declared.program.Code.{Code};
ghost use Rattle.ir_code.specs.declared.program.Program.{Program};
ghost use Rattle.ir_machine.specs.declared.state.End.TheVariants.{Unfinished};
ghost use Rattle.ir_machine.specs.Values.{Registers};
ghost use Rattle.ir_machine.specs.Step.{run, start};
ghost use Rattle.ir_walk.specs.Walk.{Memory, walk, end_of, begins, end_of_walk};
ghost use Rattle.ir_walk.specs.LoopFree.{AreOrders, IsLoopFree, AreLengths, HasCall, body_of};

/// A run of at least the expanded length of a function comes to the end of its walk, where the walk comes to one. No edge need go
/// forward for that: the order lists no block twice, and only blocks that end in a terminator.
pub fn walk_is_run()
    ensures { (P : Program) (order : ℕ → List ℕ) (E : ℕ → ℕ) → AreOrders P order → AreLengths P E →
        (n f most : ℕ) (rs : Registers) (memory : Memory) → end_of (walk P order n f rs memory) ≢ Unfinished → E f ≤ most →
        run P most (begins f rs memory) ≡ end_of (walk P order n f rs memory) }
{}

/// Where edges go forward in the orders and calls go down in depth, the walk of a function with a body comes to an end, if it may go
/// deeper than the depth of the function.
pub fn walk_ends()
    ensures { (P : Program) (order : ℕ → List ℕ) (depth : ℕ → ℕ) → IsLoopFree P order depth →
        (n f : ℕ) (rs : Registers) (memory : Memory) → 0 < length (body_of P f) → depth f < n →
        end_of (walk P order n f rs memory) ≢ Unfinished }
{}

/// In a program without loops and recursion a run of a function with a body ends within its expanded length, as its walk does.
pub fn run_ends()
    ensures walked { (P : Program) (order : ℕ → List ℕ) (depth E : ℕ → ℕ) → IsLoopFree P order depth → AreLengths P E →
        (n f most : ℕ) (c : Code) (arguments : List ℕ) (memory : Memory) → 0 < length (body_of P f) → depth f < n → E f ≤ most →
        run P most (start c f arguments memory) ≡ end_of_walk P order n c f arguments memory }
    ensures finished { (P : Program) (order : ℕ → List ℕ) (depth E : ℕ → ℕ) → IsLoopFree P order depth → AreLengths P E →
        (f most : ℕ) (c : Code) (arguments : List ℕ) (memory : Memory) → 0 < length (body_of P f) → E f ≤ most →
        run P most (start c f arguments memory) ≢ Unfinished }
{}

/// Expanded lengths may serve as a depth of calls.
pub fn lengths_fall_along_calls()
    ensures { (P : Program) (E : ℕ → ℕ) → AreLengths P E → (f k g : ℕ) → HasCall P f k g → E g < E f }
{}
