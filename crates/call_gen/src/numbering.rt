//! The numbers of a plan: homes and new places of blocks, addresses of calls, and first hidden cells.

ghost use Rattle.std.specs.Prelude.{◌≡◌, ◌+◌, ◌<◌, ◌≤◌, ◌^◌, ℕ, map, length, slice_index, slice_index_or};
ghost use Rattle.std.specs.Prelude.{slice_set, replicate, ◌++◌, false, IfOk, OnOk};
ghost use Rattle.cfg_core.specs.Tables.{graph_in};
ghost use Rattle.cfg_core.specs.Graph.{spots};
ghost use Rattle.cfg_core.specs.View as view;
ghost use Rattle.call_gen.specs.Spelled.{is_called, moved, first_cell, own_cells, cells_in_all};
ghost use Rattle.call_gen.specs.Plans.{CallPlaced, Few, Tallied};

use crate::counts::{callee_at, calls_at, is_called, is_calling, one_if};
use cfg_core::{Graph, GraphTable};
use std::alloc::Global;
use ws_words::NoMemory;

/// The procedure of each block.
pub(crate) fn homes(alloc: Global, graph: &Graph) -> Result<Vec<u32>, NoMemory>
    requires { length graph.now.procs.items < 2 ^ 32 }
    ensures { IfOk result (λ homes. homes.items ≡ map (λ s. s.home) (spots (view.graph graph.now))) }
{
    let mut homes = Vec::new(alloc);
    for (f, proc) in graph.procs.iter().enumerate() {
        add_homes(&mut homes, f as u32, proc.blocks.len())?;
    }
    Ok(homes)
}

fn add_homes(homes: &mut Vec<u32>, f: u32, count: usize) -> Result<(), NoMemory>
    ensures { OnOk result (homes.new.items ≡ homes.old.items ++ replicate count f) }
{
    for _ in 0..count {
        homes.push(f)?;
    }
    Ok(())
}

/// The new number of each block.
pub(crate) fn places(
    alloc: Global,
    table: &GraphTable<'_>,
    homes: &[u32],
) -> Result<Vec<u32>, NoMemory>
    requires homes { homes.now ≡ map (λ s. s.home) (spots (view.graph (graph_in table.now))) }
    requires few { Few (view.graph (graph_in table.now)) }
    ensures count { IfOk result (λ places. length places.items ≡
        length (spots (view.graph (graph_in table.now)))) }
    ensures places { IfOk result (λ places.
        (b : ℕ) → b < length (spots (view.graph (graph_in table.now))) → slice_index places.items b ≡
        moved (view.graph (graph_in table.now)) b) }
{
    let mut places = Vec::new(alloc);
    let mut calls = 0;
    for (b, home) in homes.iter().enumerate() {
        places.push((b + calls) as u32 + *home + 1)?;
        calls += one_if(calls_at(table, b));
    }
    Ok(places)
}

// One call more of a procedure, if it exists: how many there were.
fn tally(counts: &mut Vec<u32>, f: u32) -> u32
    requires { slice_index counts.old.items f + 1 < 2 ^ 32 }
    ensures before { result ≡ slice_index counts.old.items f }
    ensures after { counts.new.items ≡
        slice_set counts.old.items f (slice_index counts.old.items f + 1) }
{
    let place = f as usize;
    if place < counts.len() {
        let before = counts[place];
        counts[place] = before + 1;
        before
    } else {
        0
    }
}

// The place of block b's call among those of its callee, where the counts are those of the blocks
// before it; then they are those of the blocks before the next one.
fn next_place(counts: &mut Vec<u32>, table: &GraphTable<'_>, b: usize) -> u32
    requires few { Few (view.graph (graph_in table.now)) }
    requires there { b < length (spots (view.graph (graph_in table.now))) }
    requires counts { Tallied (view.graph (graph_in table.now)) counts.old.items b }
    ensures place { CallPlaced (view.graph (graph_in table.now)) b result }
    ensures counts { Tallied (view.graph (graph_in table.now)) counts.new.items (b + 1) }
{
    match callee_at(table, b) {
        Some(f) => tally(counts, f),
        None => 0,
    }
}

/// The place of each block's call among those of its callee.
pub(crate) fn addresses(alloc: Global, table: &GraphTable<'_>) -> Result<Vec<u32>, NoMemory>
    requires { Few (view.graph (graph_in table.now)) }
    ensures { IfOk result (λ list. (b : ℕ) → b < length (spots (view.graph (graph_in table.now))) →
        CallPlaced (view.graph (graph_in table.now)) b (slice_index list.items b)) }
{
    let mut counts = vec![in alloc; 0; table.proc_count()]?;
    let mut list = Vec::new(alloc);
    for b in 0..table.block_count() {
        list.push(next_place(&mut counts, table, b))?;
    }
    Ok(list)
}

/// Whether each procedure is called.
pub(crate) fn called(alloc: Global, table: &GraphTable<'_>) -> Result<Vec<bool>, NoMemory>
    requires { Few (view.graph (graph_in table.now)) }
    ensures { IfOk result (λ flags. (f : ℕ) → f < length (view.graph (graph_in table.now)).procs →
        slice_index_or flags.items f false ≡ is_called (view.graph (graph_in table.now)) f) }
{
    let mut flags = Vec::new(alloc);
    for f in 0..table.proc_count() as u32 {
        flags.push(is_called(table, f))?;
    }
    Ok(flags)
}

/// The number of each procedure's first hidden cell, and how many there are in all.
pub(crate) fn cells(
    alloc: Global,
    table: &GraphTable<'_>,
    homes: &[u32],
) -> Result<(Vec<u64>, u64), NoMemory>
    requires homes { homes.now ≡ map (λ s. s.home) (spots (view.graph (graph_in table.now))) }
    requires few { Few (view.graph (graph_in table.now)) }
    ensures cells { IfOk result (λ made.
        (f : ℕ) → f < length (view.graph (graph_in table.now)).procs → slice_index made.0.items f ≡
        first_cell (view.graph (graph_in table.now)) f) }
    ensures total { IfOk result (λ made. made.1 ≡ cells_in_all (view.graph (graph_in table.now))) }
    ensures some { IfOk result (λ made. made.1 < 2 ^ 32) }
{
    let mut starts = Vec::new(alloc);
    let mut total: u64 = 0;
    for f in 0..table.proc_count() as u32 {
        starts.push(total)?;
        total = sum(total, own(table, homes, f))?;
    }
    Ok((starts, total))
}

fn own(table: &GraphTable<'_>, homes: &[u32], f: u32) -> u64
    requires { homes.now ≡ map (λ s. s.home) (spots (view.graph (graph_in table.now))) }
    ensures cells { result ≡ own_cells (view.graph (graph_in table.now)) f }
    ensures some { result ≤ 2 ^ 32 }
{
    if is_calling(table, homes, f) {
        u64::from(table.room(f as usize).vars) + 1
    } else {
        0
    }
}

fn sum(a: u64, b: u64) -> Result<u64, NoMemory>
    requires first { a < 2 ^ 32 }
    requires second { b ≤ 2 ^ 32 }
    ensures sum { IfOk result (λ made. made ≡ a + b) }
    ensures some { IfOk result (λ made. made < 2 ^ 32) }
{
    if a + b < 1 << 32 {
        Ok(a + b)
    } else {
        Err(NoMemory)
    }
}
