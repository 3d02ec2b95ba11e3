//! Laws of the rules of a sound image.

ghost use Rattle.ws_isa.specs.Image.{Image};
ghost use Rattle.ws_isa.specs.Sound.{Sound};
ghost use Rattle.annot_check.specs.declared.fault.Bad.{Bad};
ghost use Rattle.annot_check.specs.Breach.{BadBreach};

/// An image that is refused isn't sound.
pub fn breaches_break()
    ensures { (image : Image) (bad : Bad) → BadBreach image bad → Sound image → ⊥ }
{}
