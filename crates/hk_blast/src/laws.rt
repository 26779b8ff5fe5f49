//! Laws of tables and of the numbers of words. A function here does nothing: its contract is the law.

ghost use Rattle.std.specs.Prelude.{◌≡◌, ◌<◌, ◌^◌, true, ℕ, ℤ, Bool, List, length};
ghost use Rattle.hk_cnf.specs.Clauses.{clauses_value};
ghost use Rattle.hk_cnf.specs.Circuit.{Circuit, all_gate_clauses};
ghost use Rattle.hk_cnf.specs.CircuitParts.{IsCircuit};
ghost use Rattle.hk_cnf.specs.CircuitGrowth.{values_of};
ghost use Rattle.hk_term.specs.Shape.{Grows};
ghost use Rattle.hk_term.specs.declared.node.Node.{Node};
ghost use Rattle.hk_circuit.specs.Words.{gate_number};
ghost use Rattle.hk_blast.specs.Blasted.{Words, input_places, Lengthens, Needs, AreBlasted, HaveValues, word_number};

/// A table that is blasted over a list of terms is blasted over each list that grew from it, with the same bits of inputs.
pub fn a_table_outlives_a_longer_list()
    ensures blasted { (nodes longer : List Node) (c : Circuit) (table : Words) → Grows nodes longer → AreBlasted nodes c table → AreBlasted longer c table }
    ensures places { (nodes longer : List Node) (c : Circuit) (table : Words) → Grows nodes longer → AreBlasted nodes c table → input_places longer table ≡ input_places nodes table }
    ensures lengthens { (nodes longer : List Node) (c : Circuit) (first : ℕ) (old new : Words) → Grows nodes longer → AreBlasted nodes c new → Lengthens nodes first old new → Lengthens longer first old new }
    ensures needs { (nodes longer : List Node) (t k : ℕ) → Grows nodes longer → Needs nodes t k → Needs longer t k }
{}

/// A word's number has as many bits as the word; under an assignment that satisfies the clauses of the gates it is the
/// number that the gates give it, and the words of a table have the numbers of their terms' operations.
pub fn words_have_their_numbers()
    ensures below { (a : List Bool) (word : List ℤ) → word_number a word < 2 ^ length word }
    ensures gates_below { (c : Circuit) (word : List ℤ) (v : ℕ → Bool) → gate_number c word v < 2 ^ length word }
    ensures same { (c : Circuit) → IsCircuit c → (a : List Bool) → clauses_value a (all_gate_clauses c.gates) ≡ true → (word : List ℤ) → gate_number c word (values_of a) ≡ word_number a word }
    ensures values { (nodes : List Node) (c : Circuit) (table : Words) → IsCircuit c → AreBlasted nodes c table → (a : List Bool) → clauses_value a (all_gate_clauses c.gates) ≡ true → HaveValues nodes a table }
{}
