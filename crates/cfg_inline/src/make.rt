//! The graph with calls inlined.

ghost use Rattle.std.specs.Prelude.{◌≡◌, ◌+◌, ◌-◌, ◌++◌, ◌∷◌, [], Some, map, length, IfOk, OnOk};
ghost use Rattle.cfg_core.specs.Graph.{Assign};
ghost use Rattle.cfg_core.specs.Tables.{graph_in};
ghost use Rattle.cfg_core.specs.Rules.{IsGraph};
ghost use Rattle.cfg_core.specs.Shape.{ArmsAlone};
ghost use Rattle.cfg_core.specs.Passing.{PassesNoMore};
ghost use Rattle.live_vars.specs.Keeps.{NoMoreLive};
ghost use Rattle.cfg_core.specs.Shown.{SameWalks, SameArrays};
ghost use Rattle.cfg_core.specs.View as view;
ghost use Rattle.cfg_core.specs.Weights.{TwoBlocksATurn};
ghost use Rattle.cfg_inline.specs.Charged.{BlocksCharged};
ghost use Rattle.cfg_inline.specs.Straight.{Straight, straight};
ghost use Rattle.cfg_inline.specs.Inlined as inlined;
ghost use Rattle.cfg_inline.specs.Inlined.{Plan, Site};
ghost use Rattle.cfg_inline.specs.Found.{SiteIs};
ghost use Rattle.cfg_inline.specs.Keeps.{ExitsKept};

use crate::find::{CallSite, MOST_BLOCKS, site};
use crate::moved::{add_assigns, add_blanks, add_moved, after, moved};
use cfg_core::{
    Graph, GraphBlock, GraphOp, GraphOps, GraphProc, GraphProcs, GraphTable, Leave, copy_arrays,
    copy_exit, copy_numbers, copy_ops,
};
use std::alloc::Global;
use ws_words::NoMemory;

// Puts straight-line code from block b on, of at most n blocks, after operations, on the variables
// from `base` on.
fn add_code(
    alloc: Global,
    table: &GraphTable<'_>,
    ops: &mut GraphOps,
    base: u32,
    n: u32,
    b: usize,
) -> Result<(), NoMemory>
    ensures { OnOk result ((s : Straight) → straight (view.graph (graph_in table.now)) n b ≡ Some s →
        map view.op ops.new.items ≡ map view.op ops.old.items ++ map (inlined.moved_op base) s.ops) }
{
    if n == 0 {
        return Ok(());
    }
    match table.spot(b) {
        Some(spot) => {
            add_moved(alloc, ops, base, &spot.block.ops)?;
            match &spot.block.exit {
                Leave::Goto(c) => add_code(alloc, table, ops, base, n - 1, *c as usize),
                _ => Ok(()),
            }
        }
        None => Ok(()),
    }
}

// The variable that takes a result, or a spare one.
fn target(spare: u32, taker: Option<u32>) -> u32
    ensures { result ≡ inlined.target spare taker }
{
    match taker {
        Some(x) => x,
        None => spare,
    }
}

// Puts what stands for a call after operations of a procedure with so many variables.
fn add_site(
    alloc: Global,
    table: &GraphTable<'_>,
    ops: &mut GraphOps,
    vars: u32,
    call: &CallSite<'_>,
) -> Result<(), NoMemory>
    ensures { OnOk result ((s : Site) → SiteIs (view.graph (graph_in table.now)) call.now s →
        map view.op ops.new.items ≡ map view.op ops.old.items ++ inlined.site_ops vars s) }
{
    let next = add_assigns(alloc, ops, vars, call.values)?;
    add_blanks(ops, next, call.vars.saturating_sub(call.params))?;
    add_code(alloc, table, ops, vars, MOST_BLOCKS, call.entry)?;
    let spare = after(vars, call.vars)?;
    let x = target(spare, call.result);
    let returned = moved(alloc, vars, call.returned)?;
    ops.push(GraphOp::Assign(x, returned))?;
    Ok(())
}

// The block of a procedure with so many variables, with what stands for its call if that is inlined.
fn inlined_block(
    alloc: Global,
    table: &GraphTable<'_>,
    room: u32,
    chosen: &[bool],
    vars: u32,
    block: &GraphBlock,
) -> Result<GraphBlock, NoMemory>
    ensures { let plan : Plan = record { room = room; chosen = chosen.now } in
        let g = view.graph (graph_in table.now) in let block = view.block block.now in
        IfOk result (λ made. view.block made ≡ inlined.inlined_block plan g vars block) }
{
    let named = copy_numbers(alloc, &block.named)?;
    let mut ops = copy_ops(alloc, &block.ops)?;
    match site(table, room, chosen, &block.exit) {
        Some(call) => {
            add_site(alloc, table, &mut ops, vars, &call)?;
            Ok(GraphBlock {
                named,
                ops,
                exit: Leave::Goto(call.back),
            })
        }
        None => Ok(GraphBlock {
            named,
            ops,
            exit: copy_exit(alloc, &block.exit)?,
        }),
    }
}

fn inlined_proc(
    alloc: Global,
    table: &GraphTable<'_>,
    room: u32,
    chosen: &[bool],
    proc: &GraphProc,
) -> Result<GraphProc, NoMemory>
    ensures { let plan : Plan = record { room = room; chosen = chosen.now } in
        let g = view.graph (graph_in table.now) in let proc = view.proc proc.now in
        IfOk result (λ made. view.proc made ≡ inlined.inlined_proc plan g proc) }
{
    let vars = after(proc.vars, room)?;
    let mut blocks = Vec::new(alloc);
    for block in &proc.blocks {
        blocks.push(inlined_block(alloc, table, room, chosen, proc.vars, block)?)?;
    }
    Ok(GraphProc {
        params: proc.params,
        vars,
        blocks,
    })
}

fn inlined_procs(
    alloc: Global,
    table: &GraphTable<'_>,
    room: u32,
    chosen: &[bool],
) -> Result<GraphProcs, NoMemory>
    ensures { let plan : Plan = record { room = room; chosen = chosen.now } in
        let g = view.graph (graph_in table.now) in
        IfOk result (λ procs. map view.proc procs.items ≡ map (inlined.inlined_proc plan g) g.procs) }
{
    let mut procs = Vec::new(alloc);
    for proc in &table.graph().procs {
        procs.push(inlined_proc(alloc, table, room, chosen, proc)?)?;
    }
    Ok(procs)
}

fn inlined_graph(
    alloc: Global,
    table: &GraphTable<'_>,
    room: u32,
    chosen: &[bool],
) -> Result<Graph, NoMemory>
    ensures { let plan : Plan = record { room = room; chosen = chosen.now } in
        let g = view.graph (graph_in table.now) in
        IfOk result (λ made. view.graph made ≡ inlined.inlined plan g) }
{
    let arrays = copy_arrays(alloc, &table.graph().arrays)?;
    let procs = inlined_procs(alloc, table, room, chosen)?;
    Ok(Graph { arrays, procs })
}

/// The graph with the calls of straight-line procedures inlined, of those that are chosen and have
/// fewer variables than `room`. `chosen` has a flag for each procedure by number.
pub fn inline_calls(
    alloc: Global,
    graph: &Graph,
    room: u32,
    chosen: &[bool],
) -> Result<Graph, NoMemory>
    requires rules { IsGraph (view.graph graph.now) }
    ensures inlined { let plan : Plan = record { room = room; chosen = chosen.now } in
        let g = view.graph graph.now in
        IfOk result (λ made. view.graph made ≡ inlined.inlined plan g) }

    // the walk is the same, with the same acts and turns, and so are the arrays
    ensures walks { IfOk result (λ made. SameWalks (view.graph graph.now) (view.graph made)) }
    ensures arrays { IfOk result (λ made. SameArrays (view.graph graph.now) (view.graph made)) }

    // what later passes rest on
    ensures rules { IfOk result (λ made. IsGraph (view.graph made)) }
    ensures exits { IfOk result (λ made. ExitsKept (view.graph graph.now) (view.graph made)) }
    ensures blocks { IfOk result (λ made. PassesNoMore (view.graph graph.now) (view.graph made)) }
    ensures arms { IfOk result (λ made. ArmsAlone (view.graph graph.now) →
        ArmsAlone (view.graph made)) }
    ensures live { IfOk result (λ made. NoMoreLive (view.graph graph.now) (view.graph made)) }

    // what turns pay for
    ensures turns { IfOk result (λ made. TwoBlocksATurn (view.graph graph.now) →
        TwoBlocksATurn (view.graph made)) }
    ensures charged { let plan : Plan = record { room = room; chosen = chosen.now } in
        IfOk result (λ made. BlocksCharged plan (view.graph graph.now) (view.graph made)) }
{
    let table = GraphTable::of(alloc, graph)?;
    let made = inlined_graph(alloc, &table, room, chosen)?;
    Ok(made)
}
