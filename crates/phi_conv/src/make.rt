//! The graph with its short branches joined.

ghost use Rattle.std.specs.Prelude.{◌≡◌, ◌<◌, ◌^◌, ℕ, map, IfOk};
ghost use Rattle.cfg_core.specs.Tables.{graph_in};
ghost use Rattle.cfg_core.specs.Rules.{IsGraph};
ghost use Rattle.cfg_core.specs.Shape.{ArmsAlone};
ghost use Rattle.cfg_core.specs.Passing.{PassesNoMore};
ghost use Rattle.cfg_core.specs.Shown.{SameWalks, SameArrays};
ghost use Rattle.cfg_core.specs.View as view;
ghost use Rattle.cfg_core.specs.Weights.{TwoBlocksATurn, TurnsPayWork};
ghost use Rattle.live_vars.specs.Marks.{AreLive};
ghost use Rattle.phi_conv.specs.Joined as joined;
ghost use Rattle.phi_conv.specs.Keeps.{ExitsKept, NoCopyLive, ShortJoined, SizesKept};
ghost use Rattle.phi_conv.specs.Keeps.{TurnsPayMost};

use crate::find::short;
use crate::join::Join;
use cfg_core::{
    Graph, GraphBlock, GraphProc, GraphProcs, GraphTable, Leave, copy_arrays, copy_exit,
    copy_numbers, copy_ops,
};
use live_vars::LiveSets;
use std::alloc::Global;
use ws_words::NoMemory;

// The block, with what stands for its exit if that is a short branch.
fn joined_block(
    alloc: Global,
    table: &GraphTable<'_>,
    live: &LiveSets,
    vars: u32,
    block: &GraphBlock,
) -> Result<GraphBlock, NoMemory>
    requires { joined.more_vars vars < 2 ^ 32 }
    ensures { let g = view.graph (graph_in table.now) in let block = view.block block.now in
        IfOk result (λ made. view.block made ≡ joined.joined_block g live.now vars block) }
{
    let named = copy_numbers(alloc, &block.named)?;
    let mut ops = copy_ops(alloc, &block.ops)?;
    match short(table, &block.exit) {
        Some(branch) => {
            let join = Join::of(alloc, branch, vars)?;
            join.add_to(alloc, live, &mut ops)?;
            Ok(GraphBlock {
                named,
                ops,
                exit: Leave::Goto(branch.join),
            })
        }
        None => Ok(GraphBlock {
            named,
            ops,
            exit: copy_exit(alloc, &block.exit)?,
        }),
    }
}

// The variables of a procedure with their copies.
fn more_vars(vars: u32) -> Result<u32, NoMemory>
    ensures { IfOk result (λ n. n ≡ joined.more_vars vars) }
{
    if vars > (u32::MAX - 1) / 3 {
        return Err(NoMemory);
    }
    Ok(3 * vars + 1)
}

fn joined_proc(
    alloc: Global,
    table: &GraphTable<'_>,
    live: &LiveSets,
    proc: &GraphProc,
) -> Result<GraphProc, NoMemory>
    ensures { let g = view.graph (graph_in table.now) in
        IfOk result (λ made. view.proc made ≡ joined.joined_proc g live.now (view.proc proc.now)) }
{
    let vars = more_vars(proc.vars)?;
    let mut blocks = Vec::new(alloc);
    for block in &proc.blocks {
        blocks.push(joined_block(alloc, table, live, proc.vars, block)?)?;
    }
    Ok(GraphProc {
        params: proc.params,
        vars,
        blocks,
    })
}

fn joined_procs(
    alloc: Global,
    table: &GraphTable<'_>,
    live: &LiveSets,
) -> Result<GraphProcs, NoMemory>
    ensures { let g = view.graph (graph_in table.now) in let proc = joined.joined_proc g live.now in
        IfOk result (λ procs. map view.proc procs.items ≡ map proc g.procs) }
{
    let mut procs = Vec::new(alloc);
    for proc in &table.graph().procs {
        procs.push(joined_proc(alloc, table, live, proc)?)?;
    }
    Ok(procs)
}

fn joined_graph(alloc: Global, table: &GraphTable<'_>, live: &LiveSets) -> Result<Graph, NoMemory>
    ensures { let g = view.graph (graph_in table.now) in
        IfOk result (λ made. view.graph made ≡ joined.joined g live.now) }
{
    let arrays = copy_arrays(alloc, &table.graph().arrays)?;
    let procs = joined_procs(alloc, table, live)?;
    Ok(Graph { arrays, procs })
}

/// The graph with each of its short branches joined: both arms run, and choices take the branch's
/// place.
pub fn join_short(alloc: Global, graph: &Graph, live: &LiveSets) -> Result<Graph, NoMemory>
    requires rules { IsGraph (view.graph graph.now) }
    requires live { AreLive (view.graph graph.now) live.now }
    ensures joined { let g = view.graph graph.now in
        IfOk result (λ made. view.graph made ≡ joined.joined g live.now) }

    // the walk is the same, with the same acts and turns, and so are the arrays
    ensures walks { IfOk result (λ made. SameWalks (view.graph graph.now) (view.graph made)) }
    ensures arrays { IfOk result (λ made. SameArrays (view.graph graph.now) (view.graph made)) }

    // what later passes rest on
    ensures rules { IfOk result (λ made. IsGraph (view.graph made)) }
    ensures exits { IfOk result (λ made. ExitsKept (view.graph graph.now) (view.graph made)) }
    ensures short { IfOk result (λ made. ShortJoined (view.graph graph.now) (view.graph made)) }
    ensures sizes { IfOk result (λ made. SizesKept (view.graph graph.now) (view.graph made)) }
    ensures blocks { IfOk result (λ made. PassesNoMore (view.graph graph.now) (view.graph made)) }
    ensures arms { IfOk result (λ made. ArmsAlone (view.graph graph.now) →
        ArmsAlone (view.graph made)) }
    ensures copies { IfOk result (λ made. NoCopyLive (view.graph graph.now) (view.graph made)) }

    // what turns pay for
    ensures turns { IfOk result (λ made. TwoBlocksATurn (view.graph graph.now) →
        TwoBlocksATurn (view.graph made)) }
    ensures work { IfOk result (λ made. (most : ℕ) → TurnsPayWork (view.graph graph.now) most →
        TurnsPayMost (view.graph made) most) }
{
    let table = GraphTable::of(alloc, graph)?;
    let made = joined_graph(alloc, &table, live)?;
    Ok(made)
}
