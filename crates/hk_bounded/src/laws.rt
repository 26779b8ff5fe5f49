//! Bounded runs against plain runs, as contracts of empty functions.

ghost use Rattle.std.specs.Prelude.{◌≡◌, ◌≢◌, ◌+◌, ℕ, List, true};
ghost use Rattle.ir_code.specs.declared.program.Program.{Program};
ghost use Rattle.ir_machine.specs.declared.state.End.{End};
ghost use Rattle.ir_machine.specs.declared.state.End.TheVariants.{Unfinished};
ghost use Rattle.ir_machine.specs.Step.{run};
ghost use Rattle.hk_bounded.specs.Bounded.{Shape, Watched, bounded_run, stays_within};

/// Where no call follows more than n turns within so many steps, the bounded run of so many steps is the run.
pub fn bounded_runs_are_runs()
    ensures { (P : Program) (shapes : List Shape) (n steps : ℕ) (w : Watched) → stays_within P shapes n steps w ≡ true → bounded_run P shapes n steps w ≡ run P steps w.machine }
{}

/// A bounded run that has ended comes to the same end with more steps.
pub fn ended_runs_stay_so()
    ensures { (P : Program) (shapes : List Shape) (n steps more : ℕ) (w : Watched) (end : End) → end ≢ Unfinished → bounded_run P shapes n steps w ≡ end → bounded_run P shapes n (steps + more) w ≡ end }
{}
