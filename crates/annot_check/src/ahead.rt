//! Destinations: lists lead ahead, pads to advances, and advances stand before all others.

ghost use Rattle.std.specs.Prelude.{◌≡◌, ◌<◌, ◌≤◌, ℕ, suc, map, true, false, []};
ghost use Rattle.ws_isa.specs.Image.{instr_at, first_number, block_at, IsBlock, IsIn, Pad as PlainPad};
ghost use Rattle.ws_isa.specs.Formed.{Formed};
ghost use Rattle.ws_isa.specs.View as view;
ghost use Rattle.ws_isa.specs.Sound.{HasDest, IsAhead, FrontShape, DestShape};
ghost use Rattle.annot_check.specs.Facts.{TableOf};
ghost use Rattle.ws_words.specs.Items.{In, flag_at};

use crate::facts::Facts;
use crate::read::{block, starts_wave};
use ws_isa::{Dest, Image, Pad};

impl Facts {
    // Whether a destination is an instruction of the wave behind this one, or an advance.
    fn is_ahead(&self, image: &Image, number: u32, op: u32, dest: Dest) -> bool
        requires facts { TableOf self.now (view.image image.now) }
        requires block { IsBlock (view.image image.now) number }
        ensures yes { result ≡ true → IsAhead (view.image image.now) number op dest.instr }
        ensures no { result ≡ false → IsAhead (view.image image.now) number op dest.instr → ⊥ }
    {
        self.is_advance(dest.instr)
            || (op < dest.instr && self.wave(dest.instr) == block(image, number).wave)
    }

    // Whether destinations of an instruction are all ahead of it.
    fn all_ahead(&self, image: &Image, number: u32, op: u32, dests: &[Dest]) -> bool
        requires facts { TableOf self.now (view.image image.now) }
        requires block { IsBlock (view.image image.now) number }
        ensures yes { result ≡ true → (j q : ℕ) → HasDest dests.now j q →
            IsAhead (view.image image.now) number op j }
        ensures no { result ≡ false → ((j q : ℕ) → HasDest dests.now j q →
            IsAhead (view.image image.now) number op j) → ⊥ }
    {
        for dest in dests {
            if !self.is_ahead(image, number, op, *dest) {
                return false;
            }
        }
        true
    }

    // Whether the lists of a block's instructions lead ahead.
    fn lists_ahead(&self, image: &Image, number: u32, first: u32) -> bool
        requires facts { TableOf self.now (view.image image.now) }
        requires formed { Formed (view.image image.now) }
        requires block { IsBlock (view.image image.now) number }
        requires first { first ≡ first_number (view.image image.now) number }
        ensures dests { result ≡ true → (k j q : ℕ) → IsIn (view.image image.now) number k →
            HasDest (instr_at (view.image image.now) k).dests j q →
            IsAhead (view.image image.now) number k j }
        ensures others { result ≡ true → (k j q : ℕ) → IsIn (view.image image.now) number k →
            HasDest (instr_at (view.image image.now) k).others j q →
            IsAhead (view.image image.now) number k j }
        ensures no { result ≡ false → DestShape (view.image image.now) number → ⊥ }
    {
        let mut op = first;
        for instr in &block(image, number).instrs {
            if !self.all_ahead(image, number, op, &instr.dests) {
                return false;
            }
            if !self.all_ahead(image, number, op, &instr.others) {
                return false;
            }
            op += 1;
        }
        true
    }

    // Whether advances stand in first blocks, before all others, and pads at first blocks.
    pub(crate) fn front_ok(&self, image: &Image, number: u32, first: u32, next: u32) -> bool
        requires facts { TableOf self.now (view.image image.now) }
        requires block { IsBlock (view.image image.now) number }
        requires first { first ≡ first_number (view.image image.now) number }
        requires next { next ≡ first_number (view.image image.now) (suc number) }
        ensures yes { result ≡ true → FrontShape (view.image image.now) number }
        ensures no { result ≡ false → FrontShape (view.image image.now) number → ⊥ }
    {
        let mut allowed = starts_wave(image, number);
        if !allowed && !no_pads(image, number) {
            return false;
        }
        for op in first..next {
            if !self.is_advance(op) {
                allowed = false;
            } else if !allowed {
                return false;
            }
        }
        true
    }

    // Whether the destinations of a block's pads are advances of the block.
    fn pads_lead(&self, pads: &[Pad], first: u32, next: u32) -> bool
        ensures yes { result ≡ true → (p : PlainPad) (j q : ℕ) → In p (map view.pad pads.now) →
            HasDest p.dests j q → (first ≤ j) × (j < next) ×
            (flag_at self.now.advances.items j ≡ true) }
        ensures no { result ≡ false → ((p : PlainPad) (j q : ℕ) → In p (map view.pad pads.now) →
            HasDest p.dests j q → (first ≤ j) × (j < next) ×
            (flag_at self.now.advances.items j ≡ true)) → ⊥ }
    {
        for pad in pads {
            if !self.pad_leads(&pad.dests, first, next) {
                return false;
            }
        }
        true
    }

    fn pad_leads(&self, dests: &[Dest], first: u32, next: u32) -> bool
        ensures yes { result ≡ true → (j q : ℕ) → HasDest dests.now j q → (first ≤ j) × (j < next) ×
            (flag_at self.now.advances.items j ≡ true) }
        ensures no { result ≡ false → ((j q : ℕ) → HasDest dests.now j q → (first ≤ j) ×
            (j < next) × (flag_at self.now.advances.items j ≡ true)) → ⊥ }
    {
        for dest in dests {
            if !self.is_advance_of(dest.instr, first, next) {
                return false;
            }
        }
        true
    }

    fn is_advance_of(&self, op: u32, first: u32, next: u32) -> bool
        ensures yes { result ≡ true → (first ≤ op) × (op < next) ×
            (flag_at self.now.advances.items op ≡ true) }
        ensures no { result ≡ false → (first ≤ op) × (op < next) ×
            (flag_at self.now.advances.items op ≡ true) → ⊥ }
    {
        first <= op && op < next && self.is_advance(op)
    }

    // Whether destinations are as they have to be.
    pub(crate) fn dests_ok(&self, image: &Image, number: u32, first: u32, next: u32) -> bool
        requires facts { TableOf self.now (view.image image.now) }
        requires formed { Formed (view.image image.now) }
        requires block { IsBlock (view.image image.now) number }
        requires first { first ≡ first_number (view.image image.now) number }
        requires next { next ≡ first_number (view.image image.now) (suc number) }
        ensures yes { result ≡ true → DestShape (view.image image.now) number }
        ensures no { result ≡ false → DestShape (view.image image.now) number → ⊥ }
    {
        if !self.pads_lead(&block(image, number).pads, first, next) {
            return false;
        }
        self.lists_ahead(image, number, first)
    }
}

// Whether a block has no pads.
fn no_pads(image: &Image, number: u32) -> bool
    requires block { IsBlock (view.image image.now) number }
    ensures yes { result ≡ true → (block_at (view.image image.now) number).pads ≡ [] }
    ensures no { result ≡ false → (block_at (view.image image.now) number).pads ≡ [] → ⊥ }
{
    block(image, number).pads.is_empty()
}
