//! Laws of runs. A function here does nothing: its contract is the law.

ghost use Rattle.std.specs.Prelude.{◌≡◌, ℕ, Option, List};
ghost use Rattle.ir_code.specs.declared.program.Program.{Program};
ghost use Rattle.ir_value.specs.declared.value.Value.{Value};
ghost use Rattle.ir_machine.specs.declared.state.Machine.{Machine};
ghost use Rattle.ir_machine.specs.declared.state.End.TheVariants.{Returned};
ghost use Rattle.ir_machine.specs.Step.{run};
ghost use Rattle.ir_sound.specs.Shapes.{sizes_of};

/// No run changes how many bytes an object has.
pub fn memory_keeps_its_shape()
    ensures { (P : Program) (n : ℕ) (m : Machine) (value : Option Value) (after : List (List ℕ)) →
        run P n m ≡ Returned value after → sizes_of after ≡ sizes_of m.memory }
{}
