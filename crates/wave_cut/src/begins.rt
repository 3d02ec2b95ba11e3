//! Where a wave begins whatever waves there are: entries of procedures, headers of loops, and
//! return blocks.

ghost use Rattle.std.specs.Prelude.{◌≡◌, ◌≤◌, ◌<◌, ◌↔◌, ℕ, length, IfOk};
ghost use Rattle.cfg_core.specs.Tables.{graph_in};
ghost use Rattle.cfg_core.specs.Graph.{spots, block_at};
ghost use Rattle.cfg_core.specs.View as view;
ghost use Rattle.wave_cut.specs.Cut.{BeginsWave};
ghost use Rattle.wave_cut.specs.Cutting.{Set, Marked, Says};
ghost use Rattle.ws_words.specs.Items.{In};

use crate::cutter::set_flag;
use cfg_core::{GraphTable, Leave};
use std::alloc::Global;
use ws_words::NoMemory;

/// For each block whether a wave begins there whatever waves there are.
pub(crate) fn begins(alloc: Global, table: &GraphTable<'_>) -> Result<Vec<bool>, NoMemory>
    ensures count { IfOk result (λ flags. length flags.items ≡
        length (spots (view.graph (graph_in table.now)))) }
    ensures begins { IfOk result (λ flags.
        (b : ℕ) → b < length (spots (view.graph (graph_in table.now))) →
        Set flags.items b ↔ BeginsWave (view.graph (graph_in table.now)) b) }
{
    let count = table.block_count();
    let mut flags = vec![in alloc; false; count]?;
    for f in 0..table.proc_count() {
        set_flag(&mut flags, table.room(f).entry);
    }
    for b in 0..count {
        mark_at(table, &mut flags, b);
    }
    Ok(flags)
}

// The blocks of which the block with this number says that a wave begins there.
fn mark_at(table: &GraphTable<'_>, flags: &mut Vec<bool>, b: usize)
    ensures { Marked (Says (block_at (view.graph (graph_in table.now)) b).exit b) flags.old.items
        flags.new.items }
{
    match table.spot(b) {
        Some(spot) => mark_exit(flags, &spot.block.exit, b),
        None => {}
    }
}

fn mark_exit(flags: &mut Vec<bool>, exit: &Leave, b: usize)
    ensures { Marked (Says (view.exit exit.now) b) flags.old.items flags.new.items }
{
    match exit {
        Leave::Goto(c) => mark_back(flags, *c as usize, b),
        Leave::Branch(_, c, d) => {
            mark_back(flags, *c as usize, b);
            mark_back(flags, *d as usize, b);
        }
        Leave::Call { back, .. } => set_flag(flags, *back as usize),
        Leave::Send { landings, .. } => mark_all(flags, landings),
        Leave::Return(_) => {}
        Leave::Stop => {}
    }
}

// An edge from block b to block c that doesn't lead forward.
fn mark_back(flags: &mut Vec<bool>, c: usize, b: usize)
    ensures { Marked (λ d. (d ≡ c) × (d ≤ b)) flags.old.items flags.new.items }
{
    if c <= b {
        set_flag(flags, c);
    }
}

fn mark_all(flags: &mut Vec<bool>, blocks: &[u32])
    ensures { Marked (λ d. In d blocks.now) flags.old.items flags.new.items }
{
    for c in blocks {
        set_flag(flags, *c as usize);
    }
}
