//! The visit of a block: its instructions, and then its edges, with the slots that are open behind it.

ghost use Rattle.std.specs.Prelude.{◌≡◌, ◌<◌, ℕ, suc, length, map, OnOk, IfErr, false, Some, None};
ghost use Rattle.ws_isa.specs.Image.{block_at, stops, first_number, IsBlock};
ghost use Rattle.ws_isa.specs.View as view;
ghost use Rattle.ws_isa.specs.Sound.{Opens};
ghost use Rattle.annot_check.specs.declared.trace.Entry.{Entry};
ghost use Rattle.annot_check.specs.Runs.{SameEdges};
ghost use Rattle.annot_check.specs.Open.{look};
ghost use Rattle.annot_check.specs.Done.{EdgeDone, Ended, BlockDone, PassedWith};
ghost use Rattle.annot_check.specs.Table.{image_of, trace_nodes, set_slots, entry_at, known, Ready, Grows};
ghost use Rattle.annot_check.specs.Table.{Shut};
ghost use Rattle.annot_check.specs.Faults.{SlotBreach};

use crate::fault::{Bad, CheckFault};
use crate::read::{block, choices, edge_instrs, edge_opens, starts_wave, stops_at, target_of};
use crate::runs::{open_all, run_block};
use crate::trace::{Entry, Trace};
use std::alloc::Global;
use ws_isa::Instr;

impl<'a> Trace<'a> {
    // One edge of a block that is left with the slots of a set.
    fn leave_by(
        &mut self,
        alloc: Global,
        number: u32,
        choice: u32,
        base: u32,
        senders: &[Instr],
    ) -> Result<(), CheckFault>
        requires ready { Ready self.now }
        requires shut { Shut self.now }
        requires block { IsBlock (image_of self.now) number }
        requires goes_on { stops (image_of self.now) number ≡ false }
        requires base { base < length (trace_nodes self.now) }
        requires path { Opens (image_of self.now) number (first_number (image_of self.now)
            (suc number)) (set_slots self.now base) }
        requires senders { SameEdges (map view.instr senders.now)
            (block_at (image_of self.now) number).instrs }
        ensures ready { OnOk result (Ready self.new) }
        ensures grows { OnOk result (Grows self.old self.new) }
        ensures shut { OnOk result (Shut self.new) }
        ensures done { OnOk result (EdgeDone (image_of self.new) (known self.new) number choice
            (set_slots self.old base)) }
        ensures refused { IfErr result (λ fault. SlotBreach (image_of self.old) fault) }
    {
        self.held.set = base;
        let list = edge_opens(alloc, self.image, number, choice, senders)?;
        if let Some(slot) = open_all(&mut self.held, &list)? {
            return Err(CheckFault::Refused(Bad::Port {
                instr: slot.instr,
                port: slot.port,
            }));
        }
        self.deliver(number, target_of(self.image, number, choice))
    }

    // Every edge of a block that is left with the current slots.
    fn leave(&mut self, alloc: Global, number: u32) -> Result<(), CheckFault>
        requires ready { Ready self.now }
        requires shut { Shut self.now }
        requires block { IsBlock (image_of self.now) number }
        requires goes_on { stops (image_of self.now) number ≡ false }
        requires path { Opens (image_of self.now) number (first_number (image_of self.now)
            (suc number)) (look self.now.held) }
        ensures ready { OnOk result (Ready self.new) }
        ensures grows { OnOk result (Grows self.old self.new) }
        ensures shut { OnOk result (Shut self.new) }
        ensures done { OnOk result ((r : ℕ) → EdgeDone (image_of self.new) (known self.new) number r
            (look self.old.held)) }
        ensures refused { IfErr result (λ fault. SlotBreach (image_of self.old) fault) }
    {
        let base = self.held.set;
        let image = self.image;
        let senders = edge_instrs(alloc, block(image, number).instrs.as_slice())?;
        for choice in 0..choices(self.image, number) {
            self.leave_by(alloc, number, choice, base, senders.as_slice())?;
        }
        Ok(())
    }

    // At a stop no slot is open; else each edge is followed.
    fn end(&mut self, alloc: Global, number: u32) -> Result<(), CheckFault>
        requires ready { Ready self.now }
        requires shut { Shut self.now }
        requires block { IsBlock (image_of self.now) number }
        requires path { Opens (image_of self.now) number (first_number (image_of self.now)
            (suc number)) (look self.now.held) }
        ensures ready { OnOk result (Ready self.new) }
        ensures grows { OnOk result (Grows self.old self.new) }
        ensures shut { OnOk result (Shut self.new) }
        ensures ended { OnOk result (Ended (image_of self.new) (known self.new) number
            (look self.old.held)) }
        ensures refused { IfErr result (λ fault. SlotBreach (image_of self.old) fault) }
    {
        if !stops_at(self.image, number) {
            return self.leave(alloc, number);
        }
        match self.differing(0) {
            Some(slot) => Err(CheckFault::Refused(Bad::Port {
                instr: slot.instr,
                port: slot.port,
            })),
            None => Ok(()),
        }
    }

    // A block that is in the table: its instructions and its edges, from its slots on.
    fn visit(&mut self, alloc: Global, number: u32) -> Result<(), CheckFault>
        requires ready { Ready self.now }
        requires shut { Shut self.now }
        requires block { IsBlock (image_of self.now) number }
        ensures ready { OnOk result (Ready self.new) }
        ensures grows { OnOk result (Grows self.old self.new) }
        ensures shut { OnOk result (Shut self.new) }
        ensures done { OnOk result ((e : Entry) → entry_at self.old.table.items number ≡ Some e →
            BlockDone (image_of self.new) (known self.new) number (set_slots self.old e.set)) }
        ensures refused { IfErr result (λ fault. SlotBreach (image_of self.old) fault) }
    {
        let entry = match self.table[number as usize] {
            Some(entry) => entry,
            None => return Ok(()),
        };
        let starts = self.starts;
        let first = starts[number as usize];
        let instrs = block(self.image, number).instrs.as_slice();
        self.held
            .load(entry.set, first, starts[number as usize + 1]);
        if let Some(slot) = run_block(&mut self.held, instrs, first)? {
            return Err(CheckFault::Refused(Bad::Port {
                instr: slot.instr,
                port: slot.port,
            }));
        }
        self.end(alloc, number)
    }

    // A block of the wave of `first`. The wave of another first block is not passed now.
    pub(crate) fn pass(&mut self, alloc: Global, first: u32, number: u32) -> Result<(), CheckFault>
        requires ready { Ready self.now }
        requires shut { Shut self.now }
        requires block { IsBlock (image_of self.now) number }
        ensures ready { OnOk result (Ready self.new) }
        ensures grows { OnOk result (Grows self.old self.new) }
        ensures shut { OnOk result (Shut self.new) }
        ensures done { OnOk result (PassedWith (image_of self.old) first number → (e : Entry) →
            entry_at self.old.table.items number ≡ Some e →
            BlockDone (image_of self.new) (known self.new) number (set_slots self.old e.set)) }
        ensures refused { IfErr result (λ fault. SlotBreach (image_of self.old) fault) }
    {
        if number != first && starts_wave(self.image, number) {
            return Ok(());
        }
        self.visit(alloc, number)
    }
}
