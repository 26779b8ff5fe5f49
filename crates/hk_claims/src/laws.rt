//! What a certificate that was read is fit for. A function here does nothing: its contract is the law.

ghost use Rattle.std.specs.Prelude.{◌≡◌, ◌+◌, ◌<◌, ◌≤◌, ◌^◌, ℕ, Some, Ok, List, All, map, length, slice_get};
ghost use Rattle.ir_ast.specs.Program.{ModuleView};
ghost use Rattle.ir_layout.specs.declared.object.Object.{Object};
ghost use Rattle.ir_layout.specs.Layouts.{LayoutView, IsLayoutOf};
ghost use Rattle.spec_tree.specs.Plain.{Spec};
ghost use Rattle.hk_cnf.specs.Text.{lines_of};
ghost use Rattle.hk_proof.specs.declared.Proof.{Proof};
ghost use Rattle.hk_cert_text.specs.declared.entry.Entry.{Entry};
ghost use Rattle.hk_cert_text.specs.declared.entry.Entry.TheVariants.{Accept};
ghost use Rattle.hk_cert.specs.Reading.{certificate_of};
ghost use Rattle.hk_claims.specs.Fitting.{AllFit, lines_of_proofs};

/// The entries of a certificate that a text spells fit the handlers, where initial bytes are below 256. The lines of their proofs lie within
/// the text: those of a text of fewer than 2^31 bytes have numbers of 32 bits. The call does nothing: its contract is the law.
pub fn what_is_read_fits()
    ensures fit { (m : ModuleView) (l : LayoutView) (s : Spec) (text : List ℕ) (entries : List Entry) → IsLayoutOf m l → All (All (λ b. b < 256)) (map (λ o. o.bytes) l.objects)
        → certificate_of m l.objects s text ≡ Ok entries → AllFit l.objects s entries }
    ensures within { (m : ModuleView) (objects : List Object) (s : Spec) (text : List ℕ) (entries : List Entry) → certificate_of m objects s text ≡ Ok entries
        → (k at : ℕ) (proofs : List Proof) → slice_get entries k ≡ Some (Accept at proofs) → at + lines_of_proofs proofs ≤ length (lines_of text) }
    ensures small { (m : ModuleView) (objects : List Object) (s : Spec) (text : List ℕ) (entries : List Entry) → certificate_of m objects s text ≡ Ok entries → length text < 2 ^ 31
        → (k at : ℕ) (proofs : List Proof) → slice_get entries k ≡ Some (Accept at proofs) → at + lines_of_proofs proofs + 1 < 2 ^ 32 }
{}
