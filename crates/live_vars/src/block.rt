//! What a block reads first and what it writes, of the 64 variables from `low` on.

ghost use Rattle.cfg_core.specs.Tables.{graph_in};
ghost use Rattle.cfg_core.specs.Graph.{block_at};
ghost use Rattle.cfg_core.specs.View as view;
ghost use Rattle.live_vars.specs.Live.{ReadsFirst};
ghost use Rattle.live_vars.specs.Marks.{Marks};
ghost use Rattle.live_vars.specs.Found.{Writes};

use crate::marks::{read_at, read_by, written_at, written_by};
use cfg_core::{GraphBlock, GraphTable};

/// The variables that a block reads before it writes them, and those that it or its exit writes.
#[derive(Clone, Copy)]
pub(crate) struct Uses {
    pub(crate) reads: u64,
    pub(crate) writes: u64,
}

fn uses_of(block: &GraphBlock, low: u32) -> Uses
    ensures reads { Marks low result.reads (ReadsFirst (view.block block.now).ops
        (view.block block.now).exit) }
    ensures writes { Marks low result.writes (Writes (view.block block.now).ops
        (view.block block.now).exit) }
{
    let mut reads = 0;
    let mut writes = 0;
    for op in &block.ops {
        reads |= read_by(op, low) & !writes;
        writes |= written_by(op, low);
    }
    Uses {
        reads: reads | (read_at(&block.exit, low) & !writes),
        writes: writes | written_at(&block.exit, low),
    }
}

/// The same of the block with this number.
pub(crate) fn uses_at(table: &GraphTable<'_>, b: usize, low: u32) -> Uses
    ensures reads { let block = block_at (view.graph (graph_in table.now)) b in
        Marks low result.reads (ReadsFirst block.ops block.exit) }
    ensures writes { let block = block_at (view.graph (graph_in table.now)) b in
        Marks low result.writes (Writes block.ops block.exit) }
{
    match table.spot(b) {
        Some(spot) => uses_of(spot.block, low),
        None => Uses {
            reads: 0,
            writes: 0,
        },
    }
}
