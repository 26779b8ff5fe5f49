//! Laws of checked kernels and their runs. A function here does nothing: its contract is the law.

ghost use Rattle.std.specs.Prelude.{Bool, ◌≡◌, ◌≢◌, ◌++◌, ◌∷◌, ◌+◌, ◌<◌, ◌≤◌, ℕ, Option, List, Some, true, is_some, slice_get, bytes_eq, map, Contains, if◌then◌else◌, ◌==◌};
ghost use Rattle.std.specs.List.{IsDistinct, list_all};
ghost use Rattle.ir_ast.specs.Plain.{Ty, integer, pointer, Val};
ghost use Rattle.ir_ast.specs.Program.{load, InstrView, BlockView, FunctionView, ModuleView};
ghost use Rattle.ir_typing.specs.Intrinsics.{number_and_bit};
ghost use Rattle.ir_layout.specs.Sizes.{written_or};
ghost use Rattle.ir_machine.specs.declared.state.Held.{Held};
ghost use Rattle.ir_check.specs.Rules.{IsPointerAccess};
ghost use Rattle.ir_ast.specs.Table.{names_of};
ghost use Rattle.ir_ast.specs.declared.operand.Flags.{Flags};
ghost use Rattle.ir_ast.specs.declared.instr.BinaryKind.{BinaryKind};
ghost use Rattle.ir_ast.specs.declared.instr.ConvertKind.{ConvertKind};
ghost use Rattle.ir_ast.specs.declared.instr.Predicate.{Predicate};
ghost use Rattle.ir_check.specs.Paths.{IsLength};
ghost use Rattle.ir_check.specs.Checked as checked;
ghost use Rattle.ir_machine.specs.declared.state.End.TheVariants.{Unfinished};
ghost use Rattle.ir_typing.specs.Fits.{fits, scope_of, access_fits};
ghost use Rattle.ir_machine.specs.Values.{Registers, value_of, computed, arguments_pass, part_of};
ghost use Rattle.ir_code.specs.declared.program.Object.{Object};
ghost use Rattle.ir_typing.specs.Registers.{blocks_of, kind_of, slot_of, pair_of};
ghost use Rattle.ir_resolve.specs.Acts.{act_of, bytes_of, typed};
ghost use Rattle.ir_kernel.specs.Steps.{ComputesOf, is_computation, IsPrepared, IsFound, DoPass, AreBytes, IsWritten, HoldsSlot, GivesOf, IsFit};
ghost use Rattle.ir_resolve.specs.Operands.{input_of};
ghost use Rattle.ir_type.specs.Items.{IsFunction};
ghost use Rattle.ir_whole.specs.Questions.{width_of};
ghost use Rattle.ir_type.specs.Whole.{meant, is_scalar, is_same, is_memory_width};
ghost use Rattle.ir_code.specs.declared.act.Case.{Case};
ghost use Rattle.ir_machine.specs.Step.{run, start, branch_to, switch_to, stored, slot_stored};
ghost use Rattle.ir_walk.specs.Walk.{Memory, end_of_walk};
ghost use Rattle.ir_walk.specs.LoopFree.{IsLoopFree, AreLengths};
ghost use Rattle.ir_resolve.specs.Resolved.{code_of, program_of};
ghost use Rattle.ir_value.specs.declared.value.Value.{Value};
ghost use Rattle.ir_value.specs.declared.intrinsics.OverflowKind.{OverflowKind};
ghost use Rattle.ir_value.specs.declared.intrinsics.PairKind.{PairKind};
ghost use Rattle.ir_value.specs.Numbers as numbers;
ghost use Rattle.ir_value.specs.Numbers.{is_width};
ghost use Rattle.ir_value.specs.Pointers as pointers;
ghost use Rattle.ir_value.specs.Intrinsics as intrinsics;
ghost use Rattle.ir_kernel.specs.Typed.{is_of, MakesOf, IsValueOf, IsSetTo, IsReady};
ghost use Rattle.ir_kernel.specs.Orders.{AreOrders, AreOrdered, length_at};

/// The code of a checked kernel has no loop and no recursion: edges go forward in the orders of its functions, calls go to functions
/// that are shorter, and the expanded lengths of its functions bound those of its code.
pub fn checked_kernels_are_loop_free()
    ensures loop_free { (m : ModuleView) (order : ℕ → List ℕ) (length_of : List ℕ → ℕ) → checked.IsChecked m → IsDistinct bytes_eq (names_of m.functions) →
        AreOrders m order → checked.AreLengths m length_of → IsLoopFree (program_of m) order (length_at m length_of) }
    ensures lengths { (m : ModuleView) (length_of : List ℕ → ℕ) → IsDistinct bytes_eq (names_of m.functions) →
        checked.AreLengths m length_of → AreLengths (program_of m) (length_at m length_of) }
{}

/// A run of a function of a checked kernel ends within its expanded length, as the walk of its blocks in order does.
pub fn runs_of_kernels_end()
    ensures walked { (m : ModuleView) (order : ℕ → List ℕ) → checked.IsChecked m → IsDistinct bytes_eq (names_of m.functions) → AreOrders m order →
        (f : ℕ) (e : List ℕ × FunctionView) (n : ℕ) (arguments : List ℕ) (memory : Memory) → slice_get m.functions f ≡ Some e → is_some e.1.body ≡ true → IsLength m e.0 n →
        run (program_of m) n (start (code_of m e.1) f arguments memory) ≡ end_of_walk (program_of m) order (n + 1) (code_of m e.1) f arguments memory }
    ensures finished { (m : ModuleView) → checked.IsChecked m → IsDistinct bytes_eq (names_of m.functions) → AreOrdered m →
        (f : ℕ) (e : List ℕ × FunctionView) (n : ℕ) (arguments : List ℕ) (memory : Memory) → slice_get m.functions f ≡ Some e → is_some e.1.body ≡ true → IsLength m e.0 n →
        run (program_of m) n (start (code_of m e.1) f arguments memory) ≢ Unfinished }
{}

/// Of operands of its types an instruction makes a value of its type, or the run is stuck. Nothing is lost.
pub fn instructions_make_values_of_their_types()
    ensures binary { (f : Flags) (kind : BinaryKind) (w : ℕ) (a b : Value) → is_width w ≡ true → is_of (integer w) a ≡ true → is_of (integer w) b ≡ true → MakesOf (integer w) (numbers.binary f kind w a b) }
    ensures compare { (samesign : Bool) (p : Predicate) (w : ℕ) (a b : Value) → is_width w ≡ true → is_of (integer w) a ≡ true → is_of (integer w) b ≡ true → MakesOf (integer 1) (numbers.compare_numbers samesign p w a b) }
    ensures compare_pointers { (p : Predicate) (m n : ℕ) (a b : Value) → is_of pointer a ≡ true → is_of pointer b ≡ true → MakesOf (integer 1) (pointers.compare_pointers p m n a b) }
    ensures convert { (f : Flags) (kind : ConvertKind) (from to : ℕ) (a : Value) → is_width from ≡ true → is_width to ≡ true → numbers.is_narrower kind from to ≡ true → is_of (integer from) a ≡ true →
        MakesOf (integer to) (numbers.convert f kind from to a) }
    ensures select { (t : Ty) (c a b : Value) → is_of (integer 1) c ≡ true → is_of t a ≡ true → is_of t b ≡ true → MakesOf t (numbers.select c a b) }
    ensures freeze { (t : Ty) (a : Value) → is_of t a ≡ true → MakesOf t (numbers.freeze a) }
    ensures number { (kind : OverflowKind) (signed : Bool) (w : ℕ) (a b : Value) → is_width w ≡ true → is_of (integer w) a ≡ true → is_of (integer w) b ≡ true →
        MakesOf (integer w) (intrinsics.with_overflow kind signed w 0 a b) }
    ensures bit { (kind : OverflowKind) (signed : Bool) (w : ℕ) (a b : Value) → is_width w ≡ true → is_of (integer w) a ≡ true → is_of (integer w) b ≡ true →
        MakesOf (integer 1) (intrinsics.with_overflow kind signed w 1 a b) }
    ensures pair { (kind : PairKind) (w : ℕ) (a b : Value) → is_width w ≡ true → is_of (integer w) a ≡ true → is_of (integer (intrinsics.second_width kind w)) b ≡ true →
        MakesOf (integer w) (intrinsics.pair kind w a b) }
    ensures begin { (inbounds : Bool) (size : ℕ) (v : Value) → is_of pointer (pointers.begin_at inbounds size v) ≡ true }
    ensures steps { (inbounds nuw : Bool) (size w each : ℕ) (i v : Value) → is_of pointer (pointers.step_of inbounds nuw size w each i v) ≡ true }
{}

/// An operand that fits a whole type, whose registers hold what their kinds ask and whose globals are known, has a value of the type.
pub fn operands_have_values_of_their_types()
    ensures { (m : ModuleView) (f : FunctionView) (memory : Memory) (rs : Registers) (t : Ty) (v : Val) → IsReady m f rs v → fits (scope_of m f) t v ≡ true →
        IsValueOf t (value_of memory rs (input_of m f (width_of t) v)) }
{}

/// Where its operands are ready, a computation of a checked kernel gives its register what the register's kind asks, or the run is
/// stuck. It is not lost. Computations are the operations, comparisons, `select`, `freeze`, changes of width, slots and
/// `getelementptr`.
pub fn computations_are_never_lost()
    ensures { (m : ModuleView) (f : FunctionView) (memory : Memory) (objects : List Object) (rs : Registers) (before : List InstrView) (i : InstrView) → is_computation i.act ≡ true →
        IsPrepared m f rs before i → ComputesOf m.types (kind_of i.act) (computed memory objects rs (act_of m f i.act)) }
{}

/// Where their operands are ready, a branch and a switch find a block, and the arguments of a call pass, or the run is stuck.
pub fn jumps_and_arguments_are_never_lost()
    ensures branch { (m : ModuleView) (f : FunctionView) (memory : Memory) (objects : List Object) (rs : Registers) (c : Val) (taken other : ℕ) → IsReady m f rs c →
        fits (scope_of m f) (integer 1) c ≡ true → IsFound (branch_to (value_of memory rs (input_of m f (Some 1) c)) taken other) }
    ensures switch { (m : ModuleView) (f : FunctionView) (memory : Memory) (objects : List Object) (rs : Registers) (w : ℕ) (on : Val) (cases : List Case) (default : ℕ) → IsReady m f rs on →
        fits (scope_of m f) (integer w) on ≡ true → IsFound (switch_to (value_of memory rs (input_of m f (Some w) on)) cases default) }
    ensures arguments { (m : ModuleView) (f : FunctionView) (memory : Memory) (objects : List Object) (rs : Registers) (arguments : List (Ty × Val)) →
        list_all (λ (p : Ty × Val). fits (scope_of m f) (meant m.types p.0) p.1) arguments ≡ true → ((p : Ty × Val) → Contains arguments p → IsReady m f rs p.1) →
        DoPass (arguments_pass memory rs (map (λ (a : Ty × Val). typed m f a.0 a.1) arguments)) }
{}

/// A load whose access fits, from a slot or of an integer from memory, gives a value of its type, or the run is stuck.
pub fn loads_are_never_lost()
    ensures { (m : ModuleView) (f : FunctionView) (memory : Memory) (objects : List Object) (rs : Registers) (over : Ty) (target : Val) (align : ℕ) (range : Option (List ℕ)) → IsReady m f rs target →
        AreBytes memory → access_fits (scope_of m f) over target align ≡ true → (IsPointerAccess (scope_of m f) (load over target align range) → ⊥) →
        ComputesOf m.types (kind_of (load over target align range)) (computed memory objects rs (act_of m f (load over target align range))) }
{}

/// What a store of a value into a slot of its type makes is what the slot's register holds, and a store of an integer of a width that
/// memory has is written, or the run is stuck.
pub fn stores_are_never_lost()
    ensures slot { (t over : Ty) (align : ℕ) (v : Option Value) (h : Option Held) → IsValueOf t v → is_scalar t ≡ true → is_same t over ≡ true → IsSetTo (slot_of over) h → HoldsSlot over (slot_stored align v h) }
    ensures memory { (w align : ℕ) (memory : Memory) (objects : List Object) (v a : Option Value) → is_memory_width w ≡ true → IsValueOf (integer w) v → IsValueOf pointer a →
        IsWritten (stored memory objects (bytes_of (integer w)) (written_or align (integer w)) v a) }
{}

/// A part of a pair of a number and a bit is given.
pub fn parts_are_never_lost()
    ensures { (w part : ℕ) (t : Ty) (h : Option Held) → part ≤ 1 → is_same t (number_and_bit w) ≡ true → IsSetTo (pair_of t) h → GivesOf (if part == 0 then integer w else integer 1) (part_of part h) }
{}

/// Each instruction of a checked module keeps its notes, and falls under no rule of names, types and pointers.
pub fn checked_instructions_fit()
    ensures { (m : ModuleView) → checked.IsChecked m → (f : FunctionView) (b : BlockView) (before after : List InstrView) (i : InstrView) → IsFunction m f → Contains (blocks_of f) b →
        b.instrs ≡ before ++ i ∷ after → IsFit m f before i }
{}
