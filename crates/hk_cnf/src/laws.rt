//! Laws of circuits. A function here does nothing: its contract is the law.

ghost use Rattle.std.specs.Prelude.{◌≡◌, ◌&&◌, ◌++◌, true, ℕ, ℤ, Bool, List, length};
ghost use Rattle.hk_cnf.specs.Literal.{value_at};
ghost use Rattle.hk_cnf.specs.Clauses.{clauses_value};
ghost use Rattle.hk_cnf.specs.Circuit.{Circuit, all_gate_clauses, gate_value};
ghost use Rattle.hk_cnf.specs.CircuitParts.{IsCircuit};
ghost use Rattle.hk_cnf.specs.CircuitGrowth.{IsGrown, inputs_of, values_of};
ghost use Rattle.hk_cnf.specs.Determined.{Mixes};
ghost use Rattle.hk_cnf.specs.Front.{IsFront, CanCut};
ghost use Rattle.hk_cnf.specs.Required.{required_of};

/// What a circuit grew from stands at its front, over any number of calls, also where clauses were required between them;
/// and a circuit can be cut back to what stands at its front, since gates that are added fix new variables.
pub fn a_circuit_can_be_cut_to_its_front()
    ensures grown { (c d : Circuit) → IsGrown c d → IsFront c d }
    ensures same { (c : Circuit) → IsFront c c }
    ensures joins { (c d e : Circuit) → IsFront c d → IsFront d e → IsFront c e }
    ensures cut { (c d : Circuit) (v k n : ℕ) → IsCircuit c → IsCircuit d → IsFront c d → v ≡ c.vars → k ≡ length c.clauses → n ≡ length c.gates → CanCut v k n d }
{}

/// Which clauses stand beside those of the gates: as many as are counted; all clauses hold where both kinds do; and as many
/// as stood at the front are the very ones that stood there, in their order.
pub fn required_clauses_stand_beside_those_of_gates()
    ensures mixes { (c : Circuit) → IsCircuit c → Mixes (all_gate_clauses c.gates) (required_of c) c.clauses }
    ensures count { (c : Circuit) (required : List (List ℤ)) → Mixes (all_gate_clauses c.gates) required c.clauses → length required ≡ (inputs_of c).required }
    ensures satisfied { (c : Circuit) → IsCircuit c → (a : List Bool) → clauses_value a c.clauses ≡ (clauses_value a (all_gate_clauses c.gates) && clauses_value a (required_of c)) }
    ensures kept { (c d : Circuit) → IsCircuit c → IsCircuit d → IsFront c d → (inputs_of d).required ≡ (inputs_of c).required → required_of d ≡ required_of c }
    ensures behind { (c d : Circuit) → IsCircuit c → IsCircuit d → IsFront c d → (more : List (List ℤ)) × (required_of d ≡ required_of c ++ more) }
{}

/// The clauses of the gates alone give each literal the value that the gates give it.
pub fn clauses_of_gates_give_their_values()
    ensures { (c : Circuit) → IsCircuit c → (a : List Bool) → clauses_value a (all_gate_clauses c.gates) ≡ true → (l : ℤ) → gate_value c l (values_of a) ≡ value_at a l }
{}
