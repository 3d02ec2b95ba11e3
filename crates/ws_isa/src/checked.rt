//! Images that are formed and sound.

ghost use Rattle.std.specs.Prelude.{◌≡◌};
ghost use Rattle.ws_isa.specs.View as view;
ghost use Rattle.ws_isa.specs.Formed.{Formed};
ghost use Rattle.ws_isa.specs.Sound.{Sound};

use crate::Image;
use std::marker::Model;

/// An image that is formed and sound. Contracts see it as plain data.
#[derive(Drop)]
pub struct Checked {
    image: Image,
}

impl Model for Checked {
    ghost use Rattle.ws_isa.specs.Image as plain;
    ghost use Rattle.ws_isa.specs.View as seen;
    ghost use Rattle.ws_isa.specs.Checking.{Rules};

    ghost Value = { plain.Image };

    ghost view = { λ checked. seen.image checked.image };

    ghost invariant = { λ checked. Rules (seen.image checked.image) };
}

impl Checked {
    /// An image that is formed and sound.
    pub fn from_sound(image: Image) -> Checked
        requires formed { Formed (view.image image) }
        requires sound { Sound (view.image image) }
        ensures { result ≡ view.image image }
    {
        Checked { image }
    }

    /// The image.
    pub fn image(&self) -> &Image
        ensures image { view.image result.now ≡ self.now }
        ensures formed { Formed self.now }
        ensures sound { Sound self.now }
    {
        &self.image
    }
}
