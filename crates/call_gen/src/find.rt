//! The blocks that a walk can reach, found from main's first block on.

ghost use Rattle.std.specs.Prelude.{◌≡◌, IfOk, OnOk};
ghost use Rattle.cfg_core.specs.Tables.{graph_in};
ghost use Rattle.cfg_core.specs.Graph.{block_at};
ghost use Rattle.cfg_core.specs.Rules.{IsGraph};
ghost use Rattle.cfg_core.specs.View as view;
ghost use Rattle.call_gen.specs.Keeps.{NoSend, HasNoSend};
ghost use Rattle.call_gen.specs.Part.{AreReached, FlagsMore, LeadsOrEnters};

use cfg_core::{GraphTable, Leave};
use std::alloc::Global;
use ws_words::NoMemory;

/// Flags of the blocks that were found, and those whose exits weren't looked at yet.
#[derive(Drop)]
pub(crate) struct Finder {
    pub(crate) flags: Vec<bool>,
    pub(crate) waits: Vec<usize>,
}

impl Finder {
    // Flags a block, which waits if it is new. Past the last block nothing changes.
    fn mark(&mut self, b: usize) -> Result<(), NoMemory>
        ensures { OnOk result (FlagsMore (λ c. c ≡ b)
            self.old.flags.items self.new.flags.items
            self.old.waits.items self.new.waits.items) }
    {
        if b < self.flags.len() && !self.flags[b] {
            self.waits.push(b)?;
            self.flags[b] = true;
        }
        Ok(())
    }

    // Flags the blocks that an exit leads to.
    fn leave(&mut self, table: &GraphTable<'_>, exit: &Leave) -> Result<(), NoMemory>
        requires { NoSend (view.exit exit.now) }
        ensures { OnOk result (FlagsMore
            (LeadsOrEnters (view.graph (graph_in table.now)) (view.exit exit.now))
            self.old.flags.items self.new.flags.items
            self.old.waits.items self.new.waits.items) }
    {
        match exit {
            Leave::Goto(c) => self.mark(*c as usize),
            Leave::Branch(_, c, d) => {
                self.mark(*c as usize)?;
                self.mark(*d as usize)
            }
            Leave::Call { callee, back, .. } => {
                self.mark(table.room(*callee as usize).entry)?;
                self.mark(*back as usize)
            }
            Leave::Return(_) => Ok(()),
            Leave::Send { .. } => Ok(()),
            Leave::Stop => Ok(()),
        }
    }

    // Flags the blocks that block b leads to.
    fn look(&mut self, table: &GraphTable<'_>, b: usize) -> Result<(), NoMemory>
        requires { HasNoSend (view.graph (graph_in table.now)) }
        ensures { let g = view.graph (graph_in table.now) in
            OnOk result (FlagsMore (LeadsOrEnters g (block_at g b).exit)
            self.old.flags.items self.new.flags.items
            self.old.waits.items self.new.waits.items) }
    {
        match table.spot(b) {
            Some(spot) => self.leave(table, &spot.block.exit),
            None => Ok(()),
        }
    }
}

/// Flags of the reached blocks.
pub(crate) fn find(alloc: Global, table: &GraphTable<'_>) -> Result<Vec<bool>, NoMemory>
    requires rules { IsGraph (view.graph (graph_in table.now)) }
    requires no_send { HasNoSend (view.graph (graph_in table.now)) }
    ensures { IfOk result (λ flags. AreReached (view.graph (graph_in table.now)) flags.items) }
{
    let mut finder = Finder {
        flags: vec![in alloc; false; table.block_count()]?,
        waits: Vec::new(alloc),
    };
    finder.mark(table.room(table.proc_count().saturating_sub(1)).entry)?;
    while let Some(b) = finder.waits.pop() {
        finder.look(table, b)?;
    }
    Ok(finder.flags)
}
