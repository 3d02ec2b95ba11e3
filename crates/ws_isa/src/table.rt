//! Operands and results of instructions by number.

ghost use Rattle.std.specs.Prelude.{◌≡◌, ◌+◌, ◌*◌, ◌<◌, ◌^◌, length, map, IfOk};
ghost use Rattle.ws_words.specs.Outside.{zeros};
ghost use Rattle.ws_isa.specs.Image.{pad_of};
ghost use Rattle.ws_isa.specs.View as view;
ghost use Rattle.ws_isa.specs.Shows.{delivered, edge_list, crossed};

use crate::{Dest, Instr, Op, Pad};
use std::alloc::Global;
use ws_words::{NoMemory, Words};

/// The values that stand at ports, that of port `port` of instruction `instr` at
/// `4 * instr + port`, and the results of instructions.
#[derive(Drop)]
pub struct PortValues {
    pub operands: Words,
    pub results: Words,
}

impl PortValues {
    /// Before the first instruction, with 0 at the destinations of pad 0; `total` is the number
    /// after the last instruction.
    pub fn open(alloc: Global, total: usize, pads: &[Pad]) -> Result<PortValues, NoMemory>
        requires { 4 * total < 2 ^ 64 }
        ensures operands { IfOk result (λ table. table.operands
            ≡ delivered (pad_of (map view.pad pads.now) 0) 0 (zeros (4 * total))) }
        ensures results { IfOk result (λ table. table.results ≡ zeros total) }
    {
        let mut table = PortValues {
            operands: Words::zeros(alloc, 4 * total)?,
            results: Words::zeros(alloc, total)?,
        };
        table.deliver(dests_of(pads, 0), 0);
        Ok(table)
    }

    /// Delivers a value to destinations.
    pub fn deliver(&mut self, dests: &[Dest], word: u64)
        ensures operands { self.new.operands ≡ delivered dests.now word self.old.operands }
        ensures results { self.new.results ≡ self.old.results }
    {
        for dest in dests {
            let place = 4 * dest.instr as usize + dest.port as usize;
            self.operands.set(place, word);
        }
    }

    /// What the steers and sends among instructions, the first of which has this number, send along
    /// the edge that an exit takes by its choice, to a block with these pads.
    pub fn cross(&mut self, instrs: &[Instr], first: usize, choice: u64, pads: &[Pad])
        requires { first + length instrs.now < 2 ^ 64 }
        ensures operands { self.new.operands ≡ crossed (map view.pad pads.now) choice
            (map view.instr instrs.now) first self.old.results self.old.operands }
        ensures results { self.new.results ≡ self.old.results }
    {
        for (i, instr) in instrs.iter().enumerate() {
            let dests = dests_at(instr, choice, pads);
            if !dests.is_empty() {
                let word = self.results.word(first + i);
                self.deliver(dests, word);
            }
        }
    }
}

// The destinations that an instruction opens on the edge.
fn dests_at<'a>(instr: &'a Instr, choice: u64, pads: &'a [Pad]) -> &'a [Dest]
    ensures { result.now ≡ edge_list (map view.pad pads.now) choice (view.instr instr.now) }
{
    match instr.op {
        Op::Steer => {
            if choice == 0 {
                &instr.others
            } else {
                &instr.dests
            }
        }
        Op::Send(number) => dests_of(pads, number),
        _ => &[],
    }
}

// The destinations of a pad by its number.
fn dests_of<'a>(pads: &'a [Pad], number: u8) -> &'a [Dest]
    ensures { result.now ≡ pad_of (map view.pad pads.now) number }
{
    for pad in pads {
        if pad.number == number {
            return &pad.dests;
        }
    }
    &[]
}
