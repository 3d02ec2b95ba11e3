//! The graph whose calls are spelled out.

ghost use Rattle.std.specs.Prelude.{◌≡◌, ◌+◌, ◌++◌, ◌∷◌, [], ◌<◌, ◌≤◌, ◌^◌, ℕ, suc, min, map, length, IfOk};
ghost use Rattle.std.specs.Prelude.{OnOk};
ghost use Rattle.std.specs.List.{AllByRecursion};
ghost use Rattle.cfg_core.specs.Tables.{graph_in};
ghost use Rattle.cfg_core.specs.Graph as plain;
ghost use Rattle.cfg_core.specs.Graph.{spots, spots_in, block_at};
ghost use Rattle.cfg_core.specs.Rules.{IsGraph, BlockNumbers};
ghost use Rattle.cfg_core.specs.Shape.{IsShaped, ArmsAlone};
ghost use Rattle.cfg_core.specs.Shown.{SameWalks, SameArrays};
ghost use Rattle.cfg_core.specs.View as view;
ghost use Rattle.cfg_core.specs.Weights.{first_block};
ghost use Rattle.live_vars.specs.Marks.{AreLive};
ghost use Rattle.call_gen.specs.Spelled as spelled;
ghost use Rattle.call_gen.specs.Plans.{PlanIs};
ghost use Rattle.call_gen.specs.Keeps.{HasNoSend, HasNoCall, NoneLiveAcross, ParamsAtMost, SendsAtMost};
ghost use Rattle.call_gen.specs.Sizes.{Sizes, KeepsSizes, spelled_sizes};
ghost use Rattle.call_gen.specs.Charged.{CallsCharged};

use crate::plan::{CallPlan, HIDDEN_ARRAYS};
use cfg_core::{
    Graph, GraphArray, GraphArrays, GraphBlock, GraphBlocks, GraphProc, GraphProcs, Leave,
    copy_arrays,
};
use live_vars::LiveSets;
use std::alloc::Global;
use ws_words::NoMemory;

// Puts the new form of block b after others, and after that a call's return block.
fn add_block(
    alloc: Global,
    plan: &CallPlan<'_>,
    blocks: &mut GraphBlocks,
    home: u32,
    vars: u32,
    b: u32,
    block: &GraphBlock,
) -> Result<(), NoMemory>
    requires plan { PlanIs plan.now }
    requires rules { IsGraph (view.graph (graph_in plan.now.table)) }
    requires there { home < length (view.graph (graph_in plan.now.table)).procs }
    requires few { vars + 1 < 2 ^ 32 }
    requires block { b < length (spots (view.graph (graph_in plan.now.table))) }
    requires numbers { BlockNumbers (view.graph (graph_in plan.now.table))
        (record { home = home; vars = vars; block = view.block block.now }) }
    ensures { let g = view.graph (graph_in plan.now.table) in
        OnOk result (map view.block blocks.new.items ≡
        map view.block blocks.old.items ++ (spelled.spelled_block g plan.now.live.now home vars b
        (view.block block.now) ∷ spelled.after g plan.now.live.now home vars
        (view.block block.now).exit)) }
{
    blocks.push(plan.block(alloc, home, vars, b, block)?)?;
    match &block.exit {
        Leave::Call { result, back, .. } => {
            blocks.push(plan.point(alloc, home, vars, *result, *back)?)?;
            Ok(())
        }
        _ => Ok(()),
    }
}

fn spelled_proc(
    alloc: Global,
    plan: &CallPlan<'_>,
    f: u32,
    first: u32,
    proc: &GraphProc,
) -> Result<GraphProc, NoMemory>
    requires plan { PlanIs plan.now }
    requires rules { IsGraph (view.graph (graph_in plan.now.table)) }
    requires there { f < length (view.graph (graph_in plan.now.table)).procs }
    requires blocks { first + length proc.now.blocks.items ≤ length
        (spots (view.graph (graph_in plan.now.table))) }
    requires numbers { AllByRecursion (BlockNumbers (view.graph (graph_in plan.now.table)))
        (spots_in f proc.now.vars (map view.block proc.now.blocks.items)) }
    ensures { IfOk result (λ made. view.proc made ≡
        spelled.spelled_proc (view.graph (graph_in plan.now.table)) plan.now.live.now f first
        (view.proc proc.now)) }
{
    let vars = proc.vars;
    if vars == u32::MAX {
        return Err(NoMemory);
    }
    let mut blocks = Vec::new(alloc);
    blocks.push(plan.door_block(alloc, f, proc.params, vars)?)?;
    for (i, block) in proc.blocks.iter().enumerate() {
        add_block(alloc, plan, &mut blocks, f, vars, first + i as u32, block)?;
    }
    Ok(GraphProc {
        params: proc.params,
        vars: vars + 1,
        blocks,
    })
}

fn spelled_procs(alloc: Global, plan: &CallPlan<'_>) -> Result<GraphProcs, NoMemory>
    requires plan { PlanIs plan.now }
    requires rules { IsGraph (view.graph (graph_in plan.now.table)) }
    ensures { IfOk result (λ procs. map view.proc procs.items ≡
        spelled.spelled_procs (view.graph (graph_in plan.now.table)) plan.now.live.now 0 0
        (view.graph (graph_in plan.now.table)).procs) }
{
    let mut procs = Vec::new(alloc);
    let mut first = 0;
    for (f, proc) in plan.table.graph().procs.iter().enumerate() {
        procs.push(spelled_proc(alloc, plan, f as u32, first, proc)?)?;
        first += proc.blocks.len() as u32;
    }
    Ok(procs)
}

// Puts the arrays of hidden cells after others.
fn add_hidden(plan: &CallPlan<'_>, arrays: &mut GraphArrays) -> Result<(), NoMemory>
    requires { PlanIs plan.now }
    ensures { OnOk result (map view.array arrays.new.items ≡
        map view.array arrays.old.items ++ spelled.hidden_arrays
        (view.graph (graph_in plan.now.table))) }
{
    for _ in 0..rows(plan.total) {
        arrays.push(GraphArray {
            name: None,
            length: (plan.total / HIDDEN_ARRAYS) as u32 + 1,
        })?;
    }
    Ok(())
}

fn rows(total: u64) -> u64
    ensures { result ≡ min HIDDEN_ARRAYS total }
{
    if total < HIDDEN_ARRAYS {
        total
    } else {
        HIDDEN_ARRAYS
    }
}

fn made(alloc: Global, plan: &CallPlan<'_>) -> Result<Graph, NoMemory>
    requires plan { PlanIs plan.now }
    requires rules { IsGraph (view.graph (graph_in plan.now.table)) }
    ensures { IfOk result (λ graph. view.graph graph ≡
        spelled.spelled (view.graph (graph_in plan.now.table)) plan.now.live.now) }
{
    let mut arrays = copy_arrays(alloc, &plan.table.graph().arrays)?;
    add_hidden(plan, &mut arrays)?;
    let procs = spelled_procs(alloc, plan)?;
    Ok(Graph { arrays, procs })
}

/// The graph with calls spelled out: each variable that the caller needs after a call is saved in a
/// hidden cell before it and loaded after it.
pub fn spell_calls(alloc: Global, graph: &Graph, live: &LiveSets) -> Result<Graph, NoMemory>
    requires rules { IsGraph (view.graph graph.now) }
    requires live { AreLive (view.graph graph.now) live.now }
    requires no_send { HasNoSend (view.graph graph.now) }

    // the walk shows the same after the same turns, and the arrays are the same but for hidden ones
    ensures walks { IfOk result (λ made. SameWalks (view.graph graph.now) (view.graph made)) }
    ensures arrays { IfOk result (λ made. SameArrays (view.graph graph.now) (view.graph made)) }

    // what later passes rest on
    ensures rules { IfOk result (λ made. IsGraph (view.graph made)) }
    ensures no_call { IfOk result (λ made. HasNoCall (view.graph made)) }
    ensures across { IfOk result (λ made. NoneLiveAcross (view.graph made)) }
    ensures values { IfOk result (λ made. (n : ℕ) → ParamsAtMost n (view.graph graph.now) →
        (b : ℕ) → SendsAtMost (suc n) (block_at (view.graph made) b).exit) }

    // blocks, operations, nodes, landings and hidden cells are bounded by those of the graph
    ensures sizes { IfOk result (λ made. (z : Sizes) → KeepsSizes z (view.graph graph.now) →
        KeepsSizes (spelled_sizes z) (view.graph made)) }
    ensures arms { IfOk result (λ made. ArmsAlone (view.graph graph.now) →
        ArmsAlone (view.graph made)) }

    ensures start { IfOk result (λ made.
        (block_at (view.graph made) (first_block (view.graph made))).named ≡ []) }

    // the blocks of the graph pay for what walks pass here
    ensures charged { IfOk result (λ made. CallsCharged (view.graph graph.now) live.now
        (view.graph made)) }
{
    let plan = CallPlan::of(alloc, graph, live)?;
    let graph = made(alloc, &plan)?;
    Ok(graph)
}

/// In a graph of the shape that lowering gives each branch leads forward, to blocks of its own.
#[tactic(auto, using(crate::proofs::Ruling::Arms::shaped_alone))]
pub fn shaped_branches_stand_alone()
    ensures { (graph : plain.Graph) → IsShaped graph → ArmsAlone graph }
{}
