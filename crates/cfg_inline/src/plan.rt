//! Which procedures are inlined.

ghost use Rattle.std.specs.Prelude.{◌≡◌, ◌+◌, ◌<◌, ◌≤◌, max, map, IfOk, MatchOption};
ghost use Rattle.cfg_core.specs.View as view;
ghost use Rattle.cfg_inline.specs.Chosen as choice;

use cfg_core::{Graph, GraphBlock, GraphProc, Leave};
use std::alloc::Global;
use ws_words::NoMemory;

/// A procedure of more operations is not inlined.
const MOST_OPS: usize = 64;

/// Which procedures are inlined, a flag for each by number, and how many variables a procedure gets
/// for those of a callee.
#[derive(Drop)]
pub struct InlinePlan {
    pub room: u32,
    pub chosen: Vec<bool>,
}

fn goes_straight(exit: &Leave) -> bool
    ensures { result ≡ choice.goes_straight (view.exit exit.now) }
{
    match exit {
        Leave::Goto(_) => true,
        Leave::Return(_) => true,
        _ => false,
    }
}

fn all_straight(blocks: &[GraphBlock]) -> bool
    ensures { result ≡ choice.all_straight (map view.block blocks.now) }
{
    for block in blocks {
        if !goes_straight(&block.exit) {
            return false;
        }
    }
    true
}

// What is left of so many operations after those of blocks, if these have no more.
fn after_blocks(blocks: &[GraphBlock], left: usize) -> Option<usize>
    ensures { let n = choice.ops_of (map view.block blocks.now) in
        MatchOption result (left < n) (λ rest. rest + n ≡ left) }
{
    let mut rest = left;
    for block in blocks {
        match rest.checked_sub(block.ops.len()) {
            Some(less) => rest = less,
            None => return None,
        }
    }
    Some(rest)
}

fn is_short(blocks: &[GraphBlock]) -> bool
    ensures { result ≡ choice.is_short (map view.block blocks.now) }
{
    all_straight(blocks) && after_blocks(blocks, MOST_OPS).is_some()
}

// The room that a procedure wants, if it is inlined.
fn wanted(most: u32, proc: &GraphProc) -> Option<u32>
    ensures { result ≡ choice.wanted most (view.proc proc.now) }
{
    if proc.vars < most && is_short(&proc.blocks) {
        return Some(proc.vars + 1);
    }
    None
}

fn larger(room: u32, wanted: Option<u32>) -> u32
    ensures { result ≡ choice.larger room wanted }
{
    match wanted {
        Some(n) => room.max(n),
        None => room,
    }
}

/// Chooses the procedures that are straight-line code of few operations and have fewer variables
/// than `most_room`.
pub fn choose(alloc: Global, graph: &Graph, most_room: u32) -> Result<InlinePlan, NoMemory>
    ensures chosen { let procs = (view.graph graph.now).procs in
        IfOk result (λ plan. plan.chosen.items ≡ map (choice.is_chosen most_room) procs) }
    ensures room { let procs = (view.graph graph.now).procs in
        IfOk result (λ plan. plan.room ≡ choice.room most_room 0 procs) }
    ensures few { IfOk result (λ plan. plan.room ≤ most_room) }
{
    let mut chosen = Vec::new(alloc);
    let mut room = 0;
    for proc in &graph.procs {
        let wants = wanted(most_room, proc);
        room = larger(room, wants);
        chosen.push(wants.is_some())?;
    }
    Ok(InlinePlan { room, chosen })
}
