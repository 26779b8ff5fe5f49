//! Laws of questions. A function here does nothing: its contract is the law.

ghost use Rattle.std.specs.Prelude.{◌≡◌, nat_eq};
ghost use Rattle.hk_term.specs.Meaning.{value};
ghost use Rattle.hk_inst.specs.declared.instance.Instance.{Instance};
ghost use Rattle.hk_inst.specs.declared.subject.AddFault.{AddFault};
ghost use Rattle.hk_inst.specs.Truths.{IsInstance};
ghost use Rattle.hk_inst.specs.Questions.{Asked, IsQuestion};
ghost use Rattle.hk_inst.specs.Exactness.{Exact};
ghost use Rattle.hk_inst.specs.Adding.{IsFault, Lengthened};

/// The clauses of a question are exact for its goal and its instances.
pub fn a_question_is_exact()
    ensures { (q : Asked) → IsQuestion q → Exact (λ v. nat_eq (value q.nodes q.goal v) 1) q.instances (record { vars = q.circuit.vars; clauses = q.circuit.clauses }) }
{}

/// What an instance names in a question, it names in each question that this one grows to, so that adding refuses it there
/// for want of memory alone. An instance that an assignment violates is one of these: all that one call gives can be added
/// one after the other.
pub fn a_named_instance_stays_named()
    ensures names { (q p : Asked) (i : Instance) → Lengthened q p → IsInstance q.nodes q.table i → IsInstance p.nodes p.table i }
    ensures refused { (q p : Asked) (i : Instance) (fault : AddFault) → Lengthened q p → IsInstance q.nodes q.table i → IsFault p.nodes p.table i fault → fault ≡ AddFault.Memory }
{}
