//! Sends, and the landings that have their pads.

ghost use Rattle.std.specs.Prelude.{◌≡◌, ◌<◌, ◌≤◌, ℕ, List, suc, true, false};
ghost use Rattle.ws_isa.specs.Image.{instr_at, first_number, block_at, is_first, stops, target, IsBlock};
ghost use Rattle.ws_isa.specs.Image.{IsIn, Landings};
ghost use Rattle.ws_isa.specs.Formed.{Formed};
ghost use Rattle.ws_isa.specs.View as view;
ghost use Rattle.ws_isa.specs.Sound.{HasPad, HangShape};
ghost use Rattle.annot_check.specs.Spread.{SendAt, op_of};
ghost use Rattle.ws_isa.specs.declared.instr.Op.TheVariants.{Send};
ghost use Rattle.annot_check.specs.Facts.{TableOf};
ghost use Rattle.annot_check.specs.Table.{choices_of};

use crate::facts::Facts;
use crate::read::{block, stops_at};
use crate::targets::{edges_cross, edges_have};
use ws_isa::{Exit, Image, Op};

fn is_send(op: Op, pad: u8) -> bool
    ensures yes { result ≡ true → op ≡ Send pad }
    ensures no { result ≡ false → op ≡ Send pad → ⊥ }
{
    match op {
        Op::Send(number) => number == pad,
        _ => false,
    }
}

impl Facts {
    fn sends(&self, first: u32, next: u32, pad: u8) -> bool
        ensures yes { result ≡ true → SendAt self.now.ops.items first next pad }
        ensures no { result ≡ false → (k : ℕ) → first ≤ k → k < next →
            op_of self.now.ops.items k ≡ Send pad → ⊥ }
    {
        for at in first..next {
            if is_send(self.op(at), pad) {
                return true;
            }
        }
        false
    }

    // Whether each landing has the pads of the sends.
    fn sends_land(&self, image: &Image, number: u32, first: u32, next: u32) -> bool
        requires formed { Formed (view.image image.now) }
        requires block { IsBlock (view.image image.now) number }
        requires goes_on { stops (view.image image.now) number ≡ false }
        ensures yes { result ≡ true → (k p r : ℕ) → first ≤ k → k < next →
            op_of self.now.ops.items k ≡ Send p → p < 16 →
            r < choices_of (block_at (view.image image.now) number).exit →
            HasPad (block_at (view.image image.now)
            (target (view.image image.now) number r)).pads p }
        ensures no { result ≡ false → ((k p r : ℕ) → first ≤ k → k < next →
            op_of self.now.ops.items k ≡ Send p → HasPad (block_at (view.image image.now)
            (target (view.image image.now) number r)).pads p) → ⊥ }
    {
        for pad in 0..16u8 {
            if self.sends(first, next, pad) && !edges_have(image, number, pad) {
                return false;
            }
        }
        true
    }

    // Whether landings are first blocks, and have the pads of the sends.
    pub(crate) fn landings_ok(&self, image: &Image, number: u32, first: u32, next: u32) -> bool
        requires facts { TableOf self.now (view.image image.now) }
        requires formed { Formed (view.image image.now) }
        requires block { IsBlock (view.image image.now) number }
        requires first { first ≡ first_number (view.image image.now) number }
        requires next { next ≡ first_number (view.image image.now) (suc number) }
        ensures pads { result ≡ true → stops (view.image image.now) number ≡ false →
            (k p r : ℕ) → IsIn (view.image image.now) number k →
            (instr_at (view.image image.now) k).op ≡ Send p →
            HasPad (block_at (view.image image.now)
            (target (view.image image.now) number r)).pads p }
        ensures firsts { result ≡ true → (s r : ℕ) (ls : List ℕ) →
            (block_at (view.image image.now) number).exit ≡ Landings s ls →
            is_first (view.image image.now) (target (view.image image.now) number r) ≡ true }
        ensures no { result ≡ false → HangShape (view.image image.now) number → ⊥ }
    {
        if stops_at(image, number) {
            return true;
        }
        if !self.sends_land(image, number, first, next) {
            return false;
        }
        match &block(image, number).exit {
            Exit::Send(_, _) => edges_cross(image, number),
            Exit::Branch(_, _, _) => true,
            Exit::Goto(_) => true,
            Exit::Stop => true,
        }
    }
}
