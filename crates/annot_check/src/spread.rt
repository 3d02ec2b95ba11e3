//! Which instructions the result of a block's exit reaches.
//!
//! Steers and sends must have it at a port, directly or through merges of the block.

ghost use Rattle.std.specs.Prelude.{◌≡◌, ◌⊎◌, ◌+◌, ◌<◌, ◌≤◌, ℕ, List, suc, length, true, false};
ghost use Rattle.std.specs.Prelude.{slice_index_or};
ghost use Rattle.ws_isa.specs.Image.{instr_at, first_number, block_at, is_first, stops, target, IsBlock};
ghost use Rattle.ws_isa.specs.Image.{IsIn, Landings};
ghost use Rattle.ws_isa.specs.View as view;
ghost use Rattle.ws_isa.specs.Sound.{HasPad, BringsResult, ExitShape, HangShape, DestShape};
ghost use Rattle.annot_check.specs.Spread.{HitOrMarked, SpreadState, Hangs, op_of};
ghost use Rattle.ws_isa.specs.declared.instr.Op.TheVariants.{Send, Halt, Merge};
ghost use Rattle.annot_check.specs.Facts.{TableOf};
ghost use Rattle.ws_words.specs.Items.{flag_at};

use crate::facts::Facts;
use crate::read::block;
use crate::runs::now_dests;
use ws_isa::{Dest, Exit, Image, Instr, Op};

/// Instructions that pass on the result of a block's exit, and those that have it at a port.
#[derive(Drop)]
pub struct Spread {
    pub marks: Vec<bool>,
    pub hits: Vec<bool>,
}

fn is_merge(op: Op) -> bool
    ensures yes { result ≡ true → op ≡ Merge }
    ensures no { result ≡ false → op ≡ Merge → ⊥ }
{
    matches!(op, Op::Merge)
}

impl Spread {
    // One destination of a marked instruction.
    fn reach(&mut self, facts: &Facts, dest: Dest, port: u8, first: u32, next: u32)
        requires marks { next ≤ length self.now.marks.items }
        requires hits { next ≤ length self.now.hits.items }
        ensures size { length self.new.marks.items ≡ length self.old.marks.items }
        ensures hit_size { length self.new.hits.items ≡ length self.old.hits.items }
        ensures marks_stay { (m : ℕ) → flag_at self.old.marks.items m ≡ true →
            flag_at self.new.marks.items m ≡ true }
        ensures hits_stay { (m : ℕ) → flag_at self.old.hits.items m ≡ true →
            flag_at self.new.hits.items m ≡ true }
        ensures marks_new { (m : ℕ) → flag_at self.new.marks.items m ≡ true →
            (flag_at self.old.marks.items m ≡ true) ⊎ ((m ≡ dest.instr) × (first ≤ m) × (m < next) ×
            (dest.port ≡ 0) × (slice_index_or facts.now.ops.items m Halt ≡ Merge)) }
        ensures hits_new { (m : ℕ) → flag_at self.new.hits.items m ≡ true →
            (flag_at self.old.hits.items m ≡ true) ⊎ ((m ≡ dest.instr) × (first ≤ m) × (m < next) ×
            (dest.port ≡ port)) }
        ensures hit { first ≤ dest.instr → dest.instr < next → dest.port ≡ port →
            flag_at self.new.hits.items dest.instr ≡ true }
        ensures mark { first ≤ dest.instr → dest.instr < next → dest.port ≡ 0 →
            slice_index_or facts.now.ops.items dest.instr Halt ≡ Merge →
            flag_at self.new.marks.items dest.instr ≡ true }
    {
        if dest.instr < first || next <= dest.instr {
            return;
        }
        if dest.port == port {
            self.hits[dest.instr as usize] = true;
        }
        if dest.port == 0 && is_merge(facts.op(dest.instr)) {
            self.marks[dest.instr as usize] = true;
        }
    }

    // The destinations of a marked instruction.
    fn reach_all(&mut self, facts: &Facts, dests: &[Dest], port: u8, first: u32, next: u32)
        requires marks { next ≤ length self.now.marks.items }
        requires hits { next ≤ length self.now.hits.items }
        ensures size { length self.new.marks.items ≡ length self.old.marks.items }
        ensures hit_size { length self.new.hits.items ≡ length self.old.hits.items }
        ensures reached { HitOrMarked dests.now facts.now.ops.items port first next
            self.old.marks.items self.new.marks.items self.old.hits.items self.new.hits.items }
    {
        for dest in dests {
            self.reach(facts, *dest, port, first, next);
        }
    }
}

// The instruction with this number.
fn instr_of(image: &Image, number: u32, first: u32, at: u32) -> &Instr
    requires block { IsBlock (view.image image.now) number }
    requires first { first ≡ first_number (view.image image.now) number }
    requires inside { IsIn (view.image image.now) number at }
    ensures { view.instr result.now ≡ instr_at (view.image image.now) at }
{
    &block(image, number).instrs[(at - first) as usize]
}

impl Spread {
    // What a marked instruction sends to.
    fn step(
        &mut self,
        facts: &Facts,
        image: &Image,
        number: u32,
        first: u32,
        next: u32,
        at: u32,
        source: u32,
        port: u8,
    )
        requires facts { TableOf facts.now (view.image image.now) }
        requires block { IsBlock (view.image image.now) number }
        requires first { first ≡ first_number (view.image image.now) number }
        requires next { next ≡ first_number (view.image image.now) (suc number) }
        requires inside { IsIn (view.image image.now) number at }
        requires lists { DestShape (view.image image.now) number }
        requires state { SpreadState
            (view.image image.now) number source port at self.now.marks.items self.now.hits.items }
        ensures size { length self.new.marks.items ≡ length self.old.marks.items }
        ensures hit_size { length self.new.hits.items ≡ length self.old.hits.items }
        ensures state { SpreadState (view.image image.now) number source port
            (at + 1) self.new.marks.items self.new.hits.items }
    {
        if !self.marks[at as usize] {
            return;
        }
        self.reach_all(
            facts,
            now_dests(instr_of(image, number, first, at)),
            port,
            first,
            next,
        );
    }

    // From the exit's instruction to all that its result reaches.
    fn spread(
        &mut self,
        facts: &Facts,
        image: &Image,
        number: u32,
        first: u32,
        next: u32,
        source: u32,
        port: u8,
    )
        requires facts { TableOf facts.now (view.image image.now) }
        requires block { IsBlock (view.image image.now) number }
        requires first { first ≡ first_number (view.image image.now) number }
        requires next { next ≡ first_number (view.image image.now) (suc number) }
        requires source { IsIn (view.image image.now) number source }
        requires lists { DestShape (view.image image.now) number }
        requires marks { next ≤ length self.now.marks.items }
        requires hits { next ≤ length self.now.hits.items }
        requires no_mark { (m : ℕ) → first ≤ m → flag_at self.now.marks.items m ≡ false }
        requires no_hit { (m : ℕ) → first ≤ m → flag_at self.now.hits.items m ≡ false }
        ensures size { length self.new.marks.items ≡ length self.old.marks.items }
        ensures hit_size { length self.new.hits.items ≡ length self.old.hits.items }
        ensures no_mark { (m : ℕ) → next ≤ m → flag_at self.new.marks.items m ≡ false }
        ensures no_hit { (m : ℕ) → next ≤ m → flag_at self.new.hits.items m ≡ false }
        ensures sound { (m : ℕ) → IsIn (view.image image.now) number m →
            flag_at self.new.hits.items m ≡ true → BringsResult (view.image image.now) number source m port }
        ensures complete { (m : ℕ) → IsIn (view.image image.now) number m →
            BringsResult (view.image image.now) number source m port → flag_at self.new.hits.items m ≡ true }
    {
        self.marks[source as usize] = true;
        for at in first..next {
            self.step(facts, image, number, first, next, at, source, port);
        }
    }
}

// Whether an operation may stand where it does: a steer at a branch, a send at a landing exit, and
// hit.
fn hangs(op: Op, branch: bool, landings: bool, hit: bool) -> bool
    ensures yes { result ≡ true → Hangs op branch landings hit }
    ensures no { result ≡ false → Hangs op branch landings hit → ⊥ }
{
    match op {
        Op::Steer => branch && hit,
        Op::Send(_) => landings && hit,
        _ => true,
    }
}

impl Spread {
    fn all_hang(&self, facts: &Facts, first: u32, next: u32, branch: bool, landings: bool) -> bool
        requires hits { next ≤ length self.now.hits.items }
        ensures yes { result ≡ true → (k : ℕ) → first ≤ k → k < next →
            Hangs (op_of facts.now.ops.items k) branch landings (flag_at self.now.hits.items k) }
        ensures no { result ≡ false → ((k : ℕ) → first ≤ k → k < next →
            Hangs (op_of facts.now.ops.items k) branch landings (flag_at self.now.hits.items k)) → ⊥ }
    {
        for at in first..next {
            if !hangs(facts.op(at), branch, landings, self.hits[at as usize]) {
                return false;
            }
        }
        true
    }

    // Whether steers and sends hang on the exit's instruction.
    pub fn steers_hang(
        &mut self,
        facts: &Facts,
        image: &Image,
        number: u32,
        first: u32,
        next: u32,
    ) -> bool
        requires facts { TableOf facts.now (view.image image.now) }
        requires block { IsBlock (view.image image.now) number }
        requires first { first ≡ first_number (view.image image.now) number }
        requires next { next ≡ first_number (view.image image.now) (suc number) }
        requires order { first ≤ next }
        requires exit { ExitShape (view.image image.now) number }
        requires lists { DestShape (view.image image.now) number }
        requires pads { stops (view.image image.now) number ≡ false → (k p r : ℕ) →
            IsIn (view.image image.now) number k →
            (instr_at (view.image image.now) k).op ≡ Send p →
            HasPad (block_at (view.image image.now)
            (target (view.image image.now) number r)).pads p }
        requires firsts { (s r : ℕ) (ls : List ℕ) →
            (block_at (view.image image.now) number).exit ≡ Landings s ls →
            is_first (view.image image.now) (target (view.image image.now) number r) ≡ true }
        requires marks { next ≤ length self.now.marks.items }
        requires hits { next ≤ length self.now.hits.items }
        requires no_mark { (m : ℕ) → first ≤ m → flag_at self.now.marks.items m ≡ false }
        requires no_hit { (m : ℕ) → first ≤ m → flag_at self.now.hits.items m ≡ false }
        ensures size { length self.new.marks.items ≡ length self.old.marks.items }
        ensures hit_size { length self.new.hits.items ≡ length self.old.hits.items }
        ensures no_mark { (m : ℕ) → next ≤ m → flag_at self.new.marks.items m ≡ false }
        ensures no_hit { (m : ℕ) → next ≤ m → flag_at self.new.hits.items m ≡ false }
        ensures yes { result ≡ true → HangShape (view.image image.now) number }
        ensures no { result ≡ false → HangShape (view.image image.now) number → ⊥ }
    {
        match &block(image, number).exit {
            Exit::Branch(source, _, _) => {
                self.spread(facts, image, number, first, next, *source, 1);
                self.all_hang(facts, first, next, true, false)
            }
            Exit::Send(source, _) => {
                self.spread(facts, image, number, first, next, *source, 0);
                self.all_hang(facts, first, next, false, true)
            }
            Exit::Goto(_) => self.all_hang(facts, first, next, false, false),
            Exit::Stop => self.all_hang(facts, first, next, false, false),
        }
    }
}
