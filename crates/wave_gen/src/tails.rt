//! What is sent along the edge that is taken.

ghost use Rattle.std.specs.Prelude.{ℕ, OnOk, map};
ghost use Rattle.wave_gen.specs.Wire.{Made, Wants, wire};
ghost use Rattle.wave_gen.specs.Plans.{hung, chain, selected};
ghost use Rattle.wave_gen.specs.Tables.{HasMade, bare, tail_of, hangs};

use crate::maker::Maker;
use crate::spot::Line;
use std::alloc::Global;
use ws_isa::Op;
use ws_words::NoMemory;

/// An instruction at a block's end that sends the value of a name along the edge that is taken.
#[derive(Drop)]
pub(crate) struct Tail {
    pub(crate) held: usize,
    pub(crate) line: Line,
}

/// So many tails share a name of the selector.
const SHARE: usize = 6;

impl Maker {
    /// Tails, with the names of the selector that they need.
    pub(crate) fn select(
        &mut self,
        alloc: Global,
        test: usize,
        tails: Vec<Tail>,
    ) -> Result<(), NoMemory>
        ensures { OnOk result ((b : ℕ) (w : Wants) → HasMade b self.old (bare w) →
            HasMade b self.new (selected b test (map tail_of tails.items) w)) }
    {
        let links = tails.len().saturating_sub(1) / SHARE;
        self.hang_all(alloc, tails, test)?;
        self.link(alloc, test, links)
    }

    // A name beyond what `usize` counts would need a table that fits in no memory.
    fn hang_all(&mut self, alloc: Global, mut tails: Vec<Tail>, test: usize) -> Result<(), NoMemory>
        ensures { OnOk result ((b : ℕ) (s : Made) → HasMade b self.old s →
            HasMade b self.new (hangs b test 0 (map tail_of tails.items) s)) }
    {
        while let Some(tail) = tails.pop() {
            let Some(selector) = test.checked_add(tails.len() / SHARE) else {
                return Err(NoMemory);
            };
            self.hang(alloc, tail, selector)?;
        }
        Ok(())
    }

    fn hang(&mut self, alloc: Global, tail: Tail, selector: usize) -> Result<(), NoMemory>
        ensures { OnOk result ((b : ℕ) (s : Made) → HasMade b self.old s →
            HasMade b self.new (hung b (tail_of tail) selector s)) }
    {
        let Tail { held, line } = tail;
        match line.op {
            Op::Send(_) => self.rest(alloc, line, &[selector, held]),
            _ => self.rest(alloc, line, &[held, selector]),
        }
    }

    // Further names of the selector, each a merge of the one before.
    fn link(&mut self, alloc: Global, test: usize, links: usize) -> Result<(), NoMemory>
        ensures { OnOk result ((b : ℕ) (s : Made) → HasMade b self.old s →
            HasMade b self.new (wire b (chain test links) s)) }
    {
        let mut left = links;
        while left > 0 {
            let Some(name) = test.checked_add(left) else {
                return Err(NoMemory);
            };
            self.wire_make(alloc, name, Op::Merge, &[name - 1])?;
            left -= 1;
        }
        Ok(())
    }
}
