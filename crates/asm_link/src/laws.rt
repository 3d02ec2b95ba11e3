//! Laws of refusals.

ghost use Rattle.ws_isa.specs.Image.{Image};
ghost use Rattle.std.specs.Prelude.{◌≡◌, ◌⊎◌, Ok};
ghost use Rattle.ws_isa.specs.Formed.{Formed};
ghost use Rattle.ws_isa.specs.Sound.{Sound};
ghost use Rattle.asm_text.specs.Printed.{printed};
ghost use Rattle.asm_text.specs.Reading.{read};
ghost use Rattle.wave_link.specs.Fit.{FitForNotes};
ghost use Rattle.wave_link.specs.Grown.{annotated};
ghost use Rattle.wave_link.specs.Plain.{noted};
ghost use Rattle.wave_link.specs.Room.{MadeWithin};
ghost use Rattle.asm_link.specs.declared.fault.LinkRefusal.{LinkRefusal};
ghost use Rattle.asm_link.specs.Bare.{bare};
ghost use Rattle.asm_link.specs.Linked.{BreaksImage, CanBeNoted, Linked};

use asm_text::printed_reads_again;

/// A law: an image that is refused can't be annotated. A formed one can be exactly if its draft is fit for
/// annotations and the result stays within the limits, or if the draft is sound with annotations and nothing
/// else.
pub fn refusals_are_right()
    ensures refused { (image : Image) (why : LinkRefusal) → BreaksImage image why → CanBeNoted image → ⊥ }
    ensures how { (image : Image) → Formed image → CanBeNoted image
        → (FitForNotes (bare image) × MadeWithin (annotated (bare image)))
        ⊎ Sound (noted (bare image)) }
    ensures fits { (image : Image) → FitForNotes (bare image) → MadeWithin (annotated (bare image))
        → CanBeNoted image }
    ensures plain { (image : Image) → Sound (noted (bare image)) → CanBeNoted image }
{}

/// A law: what is printed of an image that is made is read as that image, which is sound.
pub fn prints_are_sound()
    ensures { (image made : Image) → Linked image made → (read (printed made) ≡ Ok made) × Sound made }
{
    printed_reads_again();
}
