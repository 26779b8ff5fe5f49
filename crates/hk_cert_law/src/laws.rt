//! Laws of texts. A function here does nothing: its contract is the law.

ghost use Rattle.std.specs.Prelude.{◌≡◌, ℕ, Bool, List, None, Ok, Some, bytes_eq, map};
ghost use Rattle.std.specs.List.{IsDistinct};
ghost use Rattle.ir_ast.specs.Program.{ModuleView};
ghost use Rattle.ir_read.specs.Printing.{IsPrintedText};
ghost use Rattle.ir_layout.specs.Layouts.{LayoutView, IsLayoutOf};
ghost use Rattle.spec_ast.specs.Raw.{Line};
ghost use Rattle.spec_tree.specs.Plain.{Spec};
ghost use Rattle.spec_tree.specs.Sorted.{IsWellSorted};
ghost use Rattle.spec_names.specs.Kernel.{Name, Kernel};
ghost use Rattle.spec_read.specs.Laws.{IsSpecOf};
ghost use Rattle.spec_lines.specs.Whole.{first_fault, spec_of};
ghost use Rattle.hk_cert_text.specs.declared.entry.Entry.{Entry};
ghost use Rattle.hk_cert_text.specs.Certificate.{certificate_text};
ghost use Rattle.hk_cert.specs.Reading.{certificate_of};
ghost use Rattle.hk_cert_law.specs.Entries.{AreWritten, on_lines};
ghost use Rattle.hk_cert_law.specs.Globals.{HasGlobals};
ghost use Rattle.hk_cert_law.specs.Names.{HasNames};
ghost use Rattle.hk_cert_law.specs.Spelled.{AreSpelled};

use spec_lines::laws::first_faults_are_told;

/// The text of a certificate is read as its entries, each acceptance on the line where it stands; the first handler is on line 2. The
/// call does nothing: its contract is a law.
pub fn certificates_are_read_as_written()
    ensures { (m : ModuleView) (l : LayoutView) (s : Spec) (entries : List Entry) → IsLayoutOf m l → HasGlobals m → IsWellSorted s → HasNames s → AreWritten l.objects s s.transitions entries
        → certificate_of m l.objects s (certificate_text m s entries) ≡ Ok (on_lines m s 2 s.transitions entries) }
{}

/// The specification that lines without a fault stand for has such names, where the names that the lines define are spelled; and those of
/// the lines of a text are. The call does nothing: its contract is a law.
pub fn elaborated_have_names()
    ensures names { (k : Kernel) (strays : Name → Bool) (raw : List Line) (spec : Spec) → first_fault strays k raw ≡ None → spec_of k raw ≡ Some spec → AreSpelled raw → HasNames spec }
    ensures spelled { (text : List ℕ) (raw : List Line) → IsSpecOf text raw → AreSpelled raw }
{
    first_faults_are_told();
}

/// No two globals of a text have one name. The call does nothing: its contract is a law.
pub fn globals_of_texts_differ()
    ensures { (text : List ℕ) (m : ModuleView) → IsPrintedText text m → IsDistinct bytes_eq (map (λ g. g.1.name) m.globals) }
{}
