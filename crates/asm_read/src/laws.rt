//! What the text of an assembly is read as.

ghost use Rattle.std.specs.Prelude.{◌≡◌, ◌⊎◌, List, ℕ, Result, Ok};
ghost use Rattle.src_ast.specs.declared.lexeme.Place.{Place};
ghost use Rattle.src_ast.specs.Once.{ExactlyOne};
ghost use Rattle.ws_isa.specs.Image.{Image};
ghost use Rattle.ws_isa.specs.Sound.{Sound};
ghost use Rattle.asm_text.specs.Reading.{read};
ghost use Rattle.annot_check.specs.declared.fault.Bad.{Bad};
ghost use Rattle.annot_check.specs.Breach.{BadBreach};
ghost use Rattle.asm_read.specs.declared.assembly.AsmRefusal.{AsmRefusal};
ghost use Rattle.asm_read.specs.Sections.{program_of, IsInputAnswer};
ghost use Rattle.asm_read.specs.Assembly.{IsAssembly, RefusesAssembly, IsAssemblyAnswer, IsUnsound};

use annot_check::breaches_break;

/// Each input section has exactly one result: its words, or its first item that is no word.
pub fn each_input_is_read_once()
    ensures { (at : Place) (text : List ℕ) → ExactlyOne (IsInputAnswer at text) }
{}

/// The text of an assembly is one sound image with its words, or it is refused, and never both. It is
/// refused for one reason, but that an image that breaks rules may be refused for any of them. That
/// each text has one of the two results rests on this: its image, if it has one, is sound or has
/// numbers that break a rule.
pub fn each_assembly_is_read_or_refused()
    ensures one { (text : List ℕ) (image again : Image) (words more : List ℕ)
        → IsAssembly text image words → IsAssembly text again more
        → (image ≡ again) × (words ≡ more) }
    ensures never_both { (text : List ℕ) (image : Image) (words : List ℕ) (r : AsmRefusal)
        → IsAssembly text image words → RefusesAssembly text r → ⊥ }
    ensures one_refusal { (text : List ℕ) (r s : AsmRefusal)
        → RefusesAssembly text r → RefusesAssembly text s
        → (r ≡ s) ⊎ (IsUnsound r × IsUnsound s) }
    ensures some { (text : List ℕ)
        → ((image : Image) → read (program_of text) ≡ Ok image
        → Sound image ⊎ ((bad : Bad) × BadBreach image bad))
        → (answer : Result (Image × List ℕ) AsmRefusal) × IsAssemblyAnswer text answer }
{
    breaches_break();
}
