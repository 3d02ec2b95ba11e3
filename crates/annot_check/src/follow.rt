//! The paths of an image, and the slots that are open on them.
//!
//! Waves are passed one after the other, from that of block 1 on, each once, with the slots of its
//! advances open. What is kept of a wave's blocks and slots is released when the wave is passed.

ghost use Rattle.std.specs.Prelude.{◌≡◌, ◌+◌, ◌⊎◌, ℕ, [], length, IfOk, OnOk, IfErr, true, false};
ghost use Rattle.std.specs.Prelude.{Some, None};
ghost use Rattle.ws_isa.specs.Image.{is_first, IsBlock};
ghost use Rattle.ws_isa.specs.View as view;
ghost use Rattle.ws_isa.specs.Sound.{none_open, ShapeRules, SlotRules};
ghost use Rattle.ws_isa.specs.Formed.{Formed};
ghost use Rattle.annot_check.specs.declared.trace.Entry.{Entry};
ghost use Rattle.annot_check.specs.Open.{look};
ghost use Rattle.annot_check.specs.Done.{Begun, CameTo, WaveDone};
ghost use Rattle.annot_check.specs.Table.{image_of, entry_at, Ready, Grows, Shut, Between, HasNumber};
ghost use Rattle.annot_check.specs.Table.{MoreCome};
ghost use Rattle.annot_check.specs.Faults.{SlotBreach};
ghost use Rattle.ws_words.specs.Items.{flag_at};

use crate::advances::advance_set;
use crate::fault::{Bad, CheckFault};
use crate::read::{block, pad_dests};
use crate::runs::open_all;
use crate::tables::{blank_board, blank_table, first_numbers, forget_all, none_held};
use crate::trace::{Entry, Trace};
use crate::worklist::{Waves, add};
use std::alloc::Global;
use ws_isa::Image;
use ws_words::NoMemory;

impl<'a> Trace<'a> {
    // A wave is begun: its first block is to be visited, with its advances' slots.
    fn begin_wave(&mut self, first: u32) -> Result<(), NoMemory>
        requires ready { Ready self.now }
        requires shut { Shut self.now }
        requires is_new { entry_at self.now.table.items first ≡ None }
        requires came { CameTo (image_of self.now) first }
        ensures ready { OnOk result (Ready self.new) }
        ensures grows { OnOk result (Grows self.old self.new) }
        ensures shut { OnOk result (Shut self.new) }
        ensures entered { OnOk result ((e : Entry) × (entry_at self.new.table.items first ≡ Some e)) }
    {
        let instrs = block(self.image, first).instrs.as_slice();
        let starts = self.starts;
        let number = starts[first as usize];
        let set = advance_set(&mut self.held, instrs, number)?;
        self.held.set = set;
        self.put(0, first)
    }

    // All blocks of a wave. Answers the blocks to which its edges led.
    fn pass_wave(&mut self, alloc: Global, first: u32) -> Result<Vec<u32>, CheckFault>
        requires between { Between self.now }
        requires came { CameTo (image_of self.now) first }
        ensures image { OnOk result (self.new.image.now ≡ self.old.image.now) }
        ensures ready { OnOk result (Ready self.new) }
        ensures shut { OnOk result (Shut self.new) }
        ensures no_todo { OnOk result (self.new.todo.items ≡ []) }
        ensures all { IfOk result (λ passed. (b : ℕ) (e : Entry) →
            entry_at self.new.table.items b ≡ Some e → HasNumber passed.items b) }
        ensures blocks { IfOk result (λ passed. (b : ℕ) → HasNumber passed.items b →
            IsBlock (image_of self.old) b) }
        ensures came { IfOk result (λ passed. (b : ℕ) → HasNumber passed.items b →
            is_first (image_of self.old) b ≡ true → CameTo (image_of self.old) b) }
        ensures done { IfOk result (λ passed. WaveDone (image_of self.old)
            (λ b. HasNumber passed.items b) first) }
        ensures refused { IfErr result (λ fault. SlotBreach (image_of self.old) fault) }
    {
        let mut passed = Vec::new(alloc);
        self.begin_wave(first)?;
        while let Some(number) = self.todo.pop() {
            add(&mut passed, number)?;
            self.pass(alloc, first, number)?;
        }
        Ok(passed)
    }

    // Releases what was kept of these blocks.
    fn clear(&mut self, alloc: Global, passed: &[u32]) -> Result<(), NoMemory>
        requires ready { Ready self.now }
        requires shut { Shut self.now }
        requires no_todo { self.now.todo.items ≡ [] }
        requires all { (b : ℕ) (e : Entry) → entry_at self.now.table.items b ≡ Some e →
            HasNumber passed.now b }
        ensures image { OnOk result (self.new.image.now ≡ self.old.image.now) }
        ensures between { OnOk result (Between self.new) }
    {
        forget_all(&mut self.table, passed);
        self.held.clear(alloc)
    }

    // The wave of a block that was reached, and the waves to which its edges lead.
    fn next_wave(&mut self, alloc: Global, waves: &mut Waves, first: u32) -> Result<(), CheckFault>
        requires between { Between self.now }
        requires came { CameTo (image_of self.now) first }
        requires size { length waves.now.come.items ≡ length (image_of self.now).blocks + 1 }
        ensures image { OnOk result (self.new.image.now ≡ self.old.image.now) }
        ensures between { OnOk result (Between self.new) }
        ensures more { OnOk result (MoreCome waves.old waves.new) }
        ensures came { OnOk result ((b : ℕ) → flag_at waves.new.come.items b ≡ true →
            (flag_at waves.old.come.items b ≡ true) ⊎ CameTo (image_of self.old) b) }
        ensures done { OnOk result (WaveDone (image_of self.old)
            (λ b. flag_at waves.new.come.items b ≡ true) first) }
        ensures refused { IfErr result (λ fault. SlotBreach (image_of self.old) fault) }
    {
        let passed = self.pass_wave(alloc, first)?;
        waves.come_into_all(self.image, &passed)?;
        self.clear(alloc, &passed)?;
        Ok(())
    }

    // The start pulse enters block 1.
    fn begin(&mut self) -> Result<(), CheckFault>
        requires between { Between self.now }
        requires blank { look self.now.held ≡ none_open }
        ensures image { OnOk result (self.new.image.now ≡ self.old.image.now) }
        ensures between { OnOk result (Between self.new) }
        ensures begun { OnOk result (Begun (image_of self.old)) }
        ensures came { OnOk result (CameTo (image_of self.old) 1) }
        ensures refused { IfErr result (λ fault. SlotBreach (image_of self.old) fault) }
    {
        let start = pad_dests(block(self.image, 1).pads.as_slice(), 0);
        if let Some(slot) = open_all(&mut self.held, start)? {
            return Err(CheckFault::Refused(Bad::Port {
                instr: slot.instr,
                port: slot.port,
            }));
        }
        self.check_advances(0, 1)
    }

    // From block 1 on, until no wave is left to be passed.
    fn follow(&mut self, alloc: Global, waves: &mut Waves) -> Result<(), CheckFault>
        requires between { Between self.now }
        requires shape { ShapeRules (image_of self.now) }
        requires blank { look self.now.held ≡ none_open }
        requires size { length waves.now.come.items ≡ length (image_of self.now).blocks + 1 }
        requires none { (b : ℕ) → flag_at waves.now.come.items b ≡ false }
        requires no_wave { waves.now.todo.items ≡ [] }
        ensures sound { OnOk result (SlotRules (image_of self.old)) }
        ensures refused { IfErr result (λ fault. SlotBreach (image_of self.old) fault) }
    {
        self.begin()?;
        waves.come_to(1)?;
        while let Some(first) = waves.todo.pop() {
            self.next_wave(alloc, waves, first)?;
        }
        Ok(())
    }
}

/// The slot rules of a formed image whose shape is right are kept, or a breach is named.
pub fn check_slots(alloc: Global, image: &Image) -> Result<(), CheckFault>
    requires formed { Formed (view.image image.now) }
    requires shape { ShapeRules (view.image image.now) }
    ensures sound { OnOk result (SlotRules (view.image image.now)) }
    ensures refused { IfErr result (λ fault. SlotBreach (view.image image.now) fault) }
{
    let starts = first_numbers(alloc, image)?;
    let count = image.blocks.len();
    let held = none_held(alloc, 4 * (starts[count + 1] as usize) + 4)?;
    let table = blank_table(alloc, count + 1)?;
    let mut trace = Trace {
        image,
        starts: starts.as_slice(),
        held,
        table,
        todo: Vec::new(alloc),
    };
    let mut waves = Waves {
        come: blank_board(alloc, count + 1)?,
        todo: Vec::new(alloc),
    };
    trace.follow(alloc, &mut waves)
}
