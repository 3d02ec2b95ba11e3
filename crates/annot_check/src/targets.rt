//! The blocks to which a block's edges lead: later ones, first blocks, and their pads.

ghost use Rattle.std.specs.Prelude.{◌≡◌, ◌<◌, ℕ, map, true, false};
ghost use Rattle.ws_isa.specs.Image.{block_at, is_first, stops, target, IsBlock};
ghost use Rattle.ws_isa.specs.Formed.{Formed};
ghost use Rattle.ws_isa.specs.View as view;
ghost use Rattle.ws_isa.specs.Sound.{HasPad, IsLater, EdgeShape};
ghost use Rattle.annot_check.specs.Spread.{pad_in};
ghost use Rattle.annot_check.specs.Table.{choices_of};

use crate::read::{block, choices, starts_wave, stops_at, target_of};
use ws_isa::{Image, Pad};

// Whether each edge leads to a later block of the same wave, or to the first block of a wave.
fn edges_later(image: &Image, number: u32) -> bool
    requires formed { Formed (view.image image.now) }
    requires block { IsBlock (view.image image.now) number }
    requires goes_on { stops (view.image image.now) number ≡ false }
    ensures yes { result ≡ true → (r : ℕ) → r < choices_of
        (block_at (view.image image.now) number).exit → IsLater (view.image image.now) number r }
    ensures no { result ≡ false → ((r : ℕ) → IsLater (view.image image.now) number r) → ⊥ }
{
    for choice in 0..choices(image, number) {
        if !edge_later(image, number, choice) {
            return false;
        }
    }
    true
}

fn edge_later(image: &Image, number: u32, choice: u32) -> bool
    requires formed { Formed (view.image image.now) }
    requires block { IsBlock (view.image image.now) number }
    requires goes_on { stops (view.image image.now) number ≡ false }
    ensures yes { result ≡ true → IsLater (view.image image.now) number choice }
    ensures no { result ≡ false → IsLater (view.image image.now) number choice → ⊥ }
{
    let to = target_of(image, number, choice);
    starts_wave(image, to) || (number < to && block(image, to).wave == block(image, number).wave)
}

// Whether the edges are as they have to be.
pub(crate) fn edges_ok(image: &Image, number: u32) -> bool
    requires formed { Formed (view.image image.now) }
    requires block { IsBlock (view.image image.now) number }
    ensures yes { result ≡ true → EdgeShape (view.image image.now) number }
    ensures no { result ≡ false → EdgeShape (view.image image.now) number → ⊥ }
{
    if stops_at(image, number) {
        return true;
    }
    edges_later(image, number)
}

// Whether each edge leads to the first block of a wave.
pub(crate) fn edges_cross(image: &Image, number: u32) -> bool
    requires formed { Formed (view.image image.now) }
    requires block { IsBlock (view.image image.now) number }
    requires goes_on { stops (view.image image.now) number ≡ false }
    ensures yes { result ≡ true → (r : ℕ) → r < choices_of
        (block_at (view.image image.now) number).exit →
        is_first (view.image image.now) (target (view.image image.now) number r) ≡ true }
    ensures no { result ≡ false → ((r : ℕ) → is_first (view.image image.now)
        (target (view.image image.now) number r) ≡ true) → ⊥ }
{
    for choice in 0..choices(image, number) {
        if !starts_wave(image, target_of(image, number, choice)) {
            return false;
        }
    }
    true
}

// Whether there is a pad with this number.
fn has_pad(pads: &[Pad], number: u8) -> bool
    ensures { result ≡ pad_in (map view.pad pads.now) number }
{
    for pad in pads {
        if pad.number == number {
            return true;
        }
    }
    false
}

// Whether each edge leads to a block with this pad.
pub(crate) fn edges_have(image: &Image, number: u32, pad: u8) -> bool
    requires formed { Formed (view.image image.now) }
    requires block { IsBlock (view.image image.now) number }
    requires goes_on { stops (view.image image.now) number ≡ false }
    ensures yes { result ≡ true → (r : ℕ) → r < choices_of
        (block_at (view.image image.now) number).exit →
        HasPad (block_at (view.image image.now) (target (view.image image.now) number r)).pads pad }
    ensures no { result ≡ false → ((r : ℕ) → HasPad (block_at (view.image image.now)
        (target (view.image image.now) number r)).pads pad) → ⊥ }
{
    for choice in 0..choices(image, number) {
        if !lands(image, target_of(image, number, choice), pad) {
            return false;
        }
    }
    true
}

pub(crate) fn lands(image: &Image, number: u32, pad: u8) -> bool
    requires block { IsBlock (view.image image.now) number }
    ensures yes { result ≡ true → HasPad (block_at (view.image image.now) number).pads pad }
    ensures no { result ≡ false → HasPad (block_at (view.image image.now) number).pads pad → ⊥ }
{
    has_pad(&block(image, number).pads, pad)
}
