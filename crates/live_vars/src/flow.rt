//! The live variables among the 64 from `low` on: what is live after a block and not written in it
//! is live at its start.

ghost use Rattle.std.specs.Prelude.{◌≡◌, ◌<◌, ℕ, IfOk, length};
ghost use Rattle.std.specs.Bool.{MatchBool};
ghost use Rattle.cfg_core.specs.Tables.{graph_in};
ghost use Rattle.cfg_core.specs.Graph.{spots, block_at};
ghost use Rattle.cfg_core.specs.View as view;
ghost use Rattle.live_vars.specs.Marks.{Marks};
ghost use Rattle.live_vars.specs.Found.{Flows, ClosedAt, ClosedFrom, IsPlane, Carried, room};

use crate::block::uses_at;
use cfg_core::{GraphTable, Leave};
use std::alloc::Global;
use ws_words::{NoMemory, Words};

/// The words of all blocks.
pub(crate) fn plane(alloc: Global, table: &GraphTable<'_>, low: u32) -> Result<Words, NoMemory>
    ensures { IfOk result (λ words. IsPlane (view.graph (graph_in table.now)) low words) }
{
    let mut live = Words::empty(alloc);
    let mut writes = Words::empty(alloc);
    for b in 0..table.block_count() {
        let uses = uses_at(table, b, low);
        live.push(uses.reads)?;
        writes.push(uses.writes)?;
    }
    settle(table, low, &writes, &mut live);
    Ok(live)
}

// Passes over all blocks until nothing changes.
fn settle(table: &GraphTable<'_>, low: u32, writes: &Words, live: &mut Words)
    requires { Flows (view.graph (graph_in table.now)) low writes.now live.old }
    ensures flows { Flows (view.graph (graph_in table.now)) low writes.now live.new }
    ensures closed { ClosedFrom (view.graph (graph_in table.now)) low live.new 0 }
{
    'settle: loop {
        if !pass(table, low, writes, live) {
            return;
        }
    }
}

// Visits each block, the last one first, and says whether a word changed.
fn pass(table: &GraphTable<'_>, low: u32, writes: &Words, live: &mut Words) -> bool
    requires { Flows (view.graph (graph_in table.now)) low writes.now live.old }
    ensures flows { Flows (view.graph (graph_in table.now)) low writes.now live.new }
    ensures progress { MatchBool result (room live.new < room live.old)
        (ClosedFrom (view.graph (graph_in table.now)) low live.new 0) }
{
    let count = live.len();
    let mut changed = false;
    for i in 0..count {
        let b = count - 1 - i;
        if visit(table, low, writes, live, b) {
            changed = true;
        }
    }
    changed
}

// What is live after a block and not written in it is live at its start. Says whether that is new.
fn visit(table: &GraphTable<'_>, low: u32, writes: &Words, live: &mut Words, b: usize) -> bool
    requires flows { Flows (view.graph (graph_in table.now)) low writes.now live.old }
    requires there { b < length (spots (view.graph (graph_in table.now))) }
    ensures flows { Flows (view.graph (graph_in table.now)) low writes.now live.new }
    ensures progress { MatchBool result (room live.new < room live.old) ((live.new ≡ live.old) ×
        ClosedAt (view.graph (graph_in table.now)) low live.new b) }
{
    let old = live.word(b);
    let new = old | (onward(table, live, b) & !writes.word(b));
    live.set(b, new);
    new != old
}

// What is live after the block with this number.
fn onward(table: &GraphTable<'_>, live: &Words, b: usize) -> u64
    ensures { (low : ℕ) →
        Marks low result (Carried (block_at (view.graph (graph_in table.now)) b).exit low live.now) }
{
    match table.spot(b) {
        Some(spot) => carried(&spot.block.exit, live),
        None => 0,
    }
}

fn carried(exit: &Leave, live: &Words) -> u64
    ensures { (low : ℕ) → Marks low result (Carried (view.exit exit.now) low live.now) }
{
    match exit {
        Leave::Goto(c) => live.word(*c as usize),
        Leave::Branch(_, a, c) => live.word(*a as usize) | live.word(*c as usize),
        Leave::Call { back, .. } => live.word(*back as usize),
        _ => 0,
    }
}
