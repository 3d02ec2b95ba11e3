//! Laws of drafts, of memory annotations, and of images without a no-op.

ghost use Rattle.std.specs.Prelude.{◌≡◌, None};
ghost use Rattle.ws_isa.specs.Open.{OpenToNotes};
ghost use Rattle.wave_link.specs.Fit.{FitForNotes};
ghost use Rattle.wave_link.specs.Renoted.{renoted};
ghost use Rattle.wave_link.specs.Samples.{annotated_b, draft_b};
ghost use Rattle.wave_link.specs.Vain.{without};
ghost use Rattle.ws_isa.specs.Image.{Image};

/// A law: a draft that is open to annotations can be annotated.
pub fn open_drafts_fit()
    ensures { (draft : Image) → OpenToNotes draft → FitForNotes draft }
{}

/// A law: the image of a small draft, without its no-op and its annotations, is the draft again.
pub fn samples_come_back()
    ensures { renoted (without annotated_b 7) (λ k. None) ≡ draft_b }
{}
