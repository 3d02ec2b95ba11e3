//! The run of a graph.

ghost use Rattle.std.specs.Prelude.{◌≡◌, ℕ, false, ◌≤◌, [], ◌++◌, map, IfOk, OnOk, IsTrue};
ghost use Rattle.ws_words.specs.Outside.{Outside, zeros, opening_out};
ghost use Rattle.ws_words.specs.Plain.{IfEnded, IfGoing, has_ended, has_faulted, world_of};
ghost use Rattle.cfg_core.specs.Tables.{graph_in};
ghost use Rattle.cfg_core.specs.Walk as walks;
ghost use Rattle.cfg_core.specs.View as view;
ghost use Rattle.cfg_core.specs.Rules.{IsGraph};
ghost use Rattle.cfg_core.specs.Shown.{shown_cells};
ghost use Rattle.cfg_core.specs.Answer.{EndsInTurns, GoesSo};
ghost use Rattle.cfg_core.specs.Shows.{Shows, Held, Walked, shown_at};

use crate::blocks::{Graph, GraphArray};
use crate::exits::Next;
use crate::table::GraphTable;
use crate::walker::Walker;
use std::alloc::Global;
use ws_words::{Cells, Memory, NoMemory, Plain, Words, World};

/// Walks a graph with at most so many turns.
pub fn run_graph(alloc: Global, graph: &Graph, world: &World, turns: u64) -> Result<Plain, NoMemory>
    requires { IsGraph (view.graph graph.now) }
    ensures ended { let ends = EndsInTurns (view.graph graph.now) (world_of world.now) turns in
        IfOk result (λ plain. IfEnded plain ends) }
    ensures going { let goes = GoesSo (view.graph graph.now) (world_of world.now) turns in
        IfOk result (λ plain. IfGoing plain goes) }
    ensures never_faults { IfOk result (λ plain. has_faulted plain ≡ false) }
    ensures ends_in_time { IfOk result (λ plain. (n : ℕ) (o : Outside) → n ≤ turns →
        walks.Ends (view.graph graph.now) (world_of world.now) n o → IsTrue (has_ended plain)) }
{
    let table = GraphTable::of(alloc, graph)?;
    let main = table.room(graph.procs.len().saturating_sub(1));
    let mut walker = open(alloc, graph, world, main.vars, turns)?;
    if walk(alloc, &table, &mut walker, main.entry)? {
        let arrays = shown(alloc, &graph.arrays, &walker.memory.cells)?;
        let memory = walker.memory;
        Ok(Plain::Ended {
            printed: memory.printed,
            arrays,
            took: memory.took,
            turns: turns - walker.turns,
        })
    } else {
        let memory = walker.memory;
        Ok(Plain::Going {
            printed: memory.printed,
        })
    }
}

// Walks on from the start of a block, and says whether the walk ended.
fn walk(
    alloc: Global,
    table: &GraphTable<'_>,
    walker: &mut Walker<'_>,
    start: usize,
) -> Result<bool, NoMemory>
    requires rules { IsGraph (view.graph (graph_in table.now)) }
    requires held { Held walker.old }
    ensures { let g = view.graph (graph_in table.now) in
        IfOk result (λ ended. Walked g start walker.old ended walker.new) }
{
    let mut at = start;
    loop {
        match walker.pass(alloc, table, at)? {
            Next::At(b) => at = b,
            Next::Over => return Ok(true),
            Next::Going => return Ok(false),
        }
    }
}

// The state before the first turn, with so many variables.
fn open<'a>(
    alloc: Global,
    graph: &Graph,
    world: &'a World,
    vars: u32,
    turns: u64,
) -> Result<Walker<'a>, NoMemory>
    ensures { let cells = walks.cells_of (map view.array graph.now.arrays.items) in
        let out = opening_out cells (world_of world.now) in
        IfOk result (Shows (record { vars = zeros vars; out = out }) [] turns) }
{
    Ok(Walker {
        vars: Words::zeros(alloc, vars as usize)?,
        memory: Memory::open(alloc, empty_cells(alloc, &graph.arrays)?, world)?,
        frames: Vec::new(alloc),
        turns,
    })
}

fn empty_cells(alloc: Global, arrays: &[GraphArray]) -> Result<Cells, NoMemory>
    ensures { IfOk result (λ cells. cells ≡ walks.cells_of (map view.array arrays.now)) }
{
    let mut cells = Cells::empty(alloc);
    for array in arrays {
        cells.push(Words::zeros(alloc, array.length as usize)?)?;
    }
    Ok(cells)
}

// The cells of the arrays that have a name.
fn shown(alloc: Global, arrays: &[GraphArray], cells: &Cells) -> Result<Cells, NoMemory>
    ensures { IfOk result (λ rows. rows ≡ shown_cells (map view.array arrays.now) cells.now) }
{
    let mut rows = Cells::empty(alloc);
    for (i, array) in arrays.iter().enumerate() {
        add_shown(alloc, &mut rows, array, cells, i)?;
    }
    Ok(rows)
}

// The cells of the array at this place, if it has a name.
fn add_shown(
    alloc: Global,
    rows: &mut Cells,
    array: &GraphArray,
    cells: &Cells,
    place: usize,
) -> Result<(), NoMemory>
    ensures { OnOk result (rows.new ≡ rows.old ++ shown_at (view.array array.now) cells.now place) }
{
    if array.name.is_none() {
        return Ok(());
    }
    match cells.get(place) {
        Some(words) => {
            rows.push(words.copy(alloc)?)?;
            Ok(())
        }
        None => Ok(()),
    }
}
