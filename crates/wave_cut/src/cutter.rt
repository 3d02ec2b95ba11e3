//! The cut of one block after another.

ghost use Rattle.std.specs.Prelude.{◌≡◌, ◌+◌, ◌++◌, ◌∷◌, [], ◌<◌, ◌^◌, IfOk, OnOk, true, length, slice_set};
ghost use Rattle.cfg_core.specs.Tables.{graph_in};
ghost use Rattle.cfg_core.specs.Graph.{spots, block_at};
ghost use Rattle.cfg_core.specs.View as view;
ghost use Rattle.wave_cut.specs.Cutting.{Cutting, number, heads_with, left_begins, left_from, entered_begins};
ghost use Rattle.wave_cut.specs.Cutting.{entered_from};

use cfg_core::{GraphTable, Leave};
use ws_words::NoMemory;

/// For each block whether a wave is known to begin there, and the wave of the edges that enter it
/// so far, or 0 for none; and the waves of the blocks so far, with their first blocks.
#[derive(Drop)]
pub(crate) struct Cutter {
    pub(crate) begins: Vec<bool>,
    pub(crate) from: Vec<u32>,
    pub(crate) waves: Vec<u32>,
    pub(crate) heads: Vec<u32>,
}

impl Cutter {
    /// The wave of one block more, and what its edges say of later ones.
    pub(crate) fn advance(&mut self, table: &GraphTable<'_>, b: u32) -> Result<(), NoMemory>
        requires there { b < length (spots (view.graph (graph_in table.now))) }
        requires few { b + 1 < 2 ^ 32 }
        requires cutting { Cutting (view.graph (graph_in table.now)) b self.old.begins.items
            self.old.from.items self.old.waves.items self.old.heads.items }
        ensures cutting { OnOk result (Cutting (view.graph (graph_in table.now))
            (b + 1) self.new.begins.items self.new.from.items self.new.waves.items
            self.new.heads.items) }
    {
        let wave = self.number(b)?;
        self.pass(table, b, wave);
        Ok(())
    }

    // The wave of a block: that of the edges that enter it, if it is one, or a new one.
    fn number(&mut self, b: u32) -> Result<u32, NoMemory>
        requires { length self.old.heads.items + 1 < 2 ^ 32 }
        ensures wave { IfOk result (λ wave. wave ≡ number self.old.begins.items self.old.from.items
            self.old.heads.items b) }
        ensures waves { IfOk result (λ wave. self.new.waves.items ≡
            self.old.waves.items ++ wave ∷ []) }
        ensures heads { OnOk result (self.new.heads.items ≡
            heads_with self.old.begins.items self.old.from.items self.old.heads.items b) }
        ensures begins { OnOk result (self.new.begins.items ≡ self.old.begins.items) }
        ensures from { OnOk result (self.new.from.items ≡ self.old.from.items) }
    {
        let from = self.from.get(b as usize).copied().unwrap_or(0);
        let begins = self.begins.get(b as usize).copied().unwrap_or(false);
        if begins || from == 0 {
            self.heads.push(b)?;
            let wave = self.heads.len() as u32;
            self.waves.push(wave)?;
            Ok(wave)
        } else {
            self.waves.push(from)?;
            Ok(from)
        }
    }

    // The edges of a block, which lies in this wave.
    fn pass(&mut self, table: &GraphTable<'_>, b: u32, wave: u32)
        ensures begins { self.new.begins.items ≡
            left_begins (block_at (view.graph (graph_in table.now)) b).exit wave
            self.old.begins.items self.old.from.items }
        ensures from { self.new.from.items ≡
            left_from (block_at (view.graph (graph_in table.now)) b).exit wave self.old.from.items }
        ensures waves { self.new.waves.items ≡ self.old.waves.items }
        ensures heads { self.new.heads.items ≡ self.old.heads.items }
    {
        match table.spot(b as usize) {
            Some(spot) => self.leave(&spot.block.exit, wave),
            None => {}
        }
    }

    // Return points begin waves anyhow.
    fn leave(&mut self, exit: &Leave, wave: u32)
        ensures begins { self.new.begins.items ≡
            left_begins (view.exit exit.now) wave self.old.begins.items self.old.from.items }
        ensures from { self.new.from.items ≡
            left_from (view.exit exit.now) wave self.old.from.items }
        ensures waves { self.new.waves.items ≡ self.old.waves.items }
        ensures heads { self.new.heads.items ≡ self.old.heads.items }
    {
        match exit {
            Leave::Goto(c) => self.enter(*c, wave),
            Leave::Branch(_, c, d) => {
                self.enter(*c, wave);
                self.enter(*d, wave);
            }
            _ => {}
        }
    }

    // An edge from this wave.
    fn enter(&mut self, c: u32, wave: u32)
        ensures begins { self.new.begins.items ≡ entered_begins c wave self.old.begins.items
            self.old.from.items }
        ensures from { self.new.from.items ≡ entered_from c wave self.old.from.items }
        ensures waves { self.new.waves.items ≡ self.old.waves.items }
        ensures heads { self.new.heads.items ≡ self.old.heads.items }
    {
        let place = c as usize;
        let from = self.from.get(place).copied().unwrap_or(0);
        if from == 0 {
            set_word(&mut self.from, place, wave);
        } else if from != wave {
            set_flag(&mut self.begins, place);
        }
    }
}

fn set_word(words: &mut Vec<u32>, place: usize, word: u32)
    ensures { words.new.items ≡ slice_set words.old.items place word }
{
    if place < words.len() {
        words[place] = word;
    }
}

/// Sets a flag; out of bounds nothing changes.
pub(crate) fn set_flag(flags: &mut Vec<bool>, place: usize)
    ensures { flags.new.items ≡ slice_set flags.old.items place true }
{
    if place < flags.len() {
        flags[place] = true;
    }
}
