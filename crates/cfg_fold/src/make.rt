//! The graph with its constants folded.

ghost use Rattle.std.specs.Prelude.{◌≡◌, ℕ, IfOk, map};
ghost use Rattle.cfg_core.specs.Rules.{IsGraph};
ghost use Rattle.cfg_core.specs.Shape.{IsShaped, ArmsAlone};
ghost use Rattle.cfg_core.specs.Shown.{SameWalks, SameArrays};
ghost use Rattle.cfg_core.specs.View as view;
ghost use Rattle.cfg_core.specs.Weights.{TwoBlocksATurn, TurnsPayWork};
ghost use Rattle.cfg_fold.specs.Folded as plain;
ghost use Rattle.cfg_fold.specs.Keeps.{SameSteps, SameOutline, SizesKept};
ghost use Rattle.live_vars.specs.Keeps.{NoMoreLive};

use crate::exits::folded_exit;
use crate::facts::Facts;
use crate::ops::folded_ops;
use cfg_core::{Graph, GraphBlock, GraphProc, GraphProcs, copy_arrays, copy_numbers};
use std::alloc::Global;
use ws_words::NoMemory;

fn folded_block(alloc: Global, block: &GraphBlock) -> Result<GraphBlock, NoMemory>
    ensures { IfOk result (λ made. view.block made ≡ plain.folded_block (view.block block.now)) }
{
    let named = copy_numbers(alloc, &block.named)?;
    let mut facts = Facts::none(alloc);
    let ops = folded_ops(alloc, &mut facts, &block.ops)?;
    let exit = folded_exit(alloc, &facts, &block.exit)?;
    Ok(GraphBlock { named, ops, exit })
}

fn folded_proc(alloc: Global, proc: &GraphProc) -> Result<GraphProc, NoMemory>
    ensures { IfOk result (λ made. view.proc made ≡ plain.folded_proc (view.proc proc.now)) }
{
    let mut blocks = Vec::new(alloc);
    for block in &proc.blocks {
        blocks.push(folded_block(alloc, block)?)?;
    }
    Ok(GraphProc {
        params: proc.params,
        vars: proc.vars,
        blocks,
    })
}

fn folded_procs(alloc: Global, graph: &Graph) -> Result<GraphProcs, NoMemory>
    ensures { let procs = (view.graph graph.now).procs in
        IfOk result (λ made. map view.proc made.items ≡ map plain.folded_proc procs) }
{
    let mut procs = Vec::new(alloc);
    for proc in &graph.procs {
        procs.push(folded_proc(alloc, proc)?)?;
    }
    Ok(procs)
}

fn folded_graph(alloc: Global, graph: &Graph) -> Result<Graph, NoMemory>
    ensures { IfOk result (λ made. view.graph made ≡ plain.folded_graph (view.graph graph.now)) }
{
    let arrays = copy_arrays(alloc, &graph.arrays)?;
    let procs = folded_procs(alloc, graph)?;
    Ok(Graph { arrays, procs })
}

/// The graph in which, block by block, known variables are numbers, and terms of numbers are numbers.
pub fn simplify(alloc: Global, graph: &Graph) -> Result<Graph, NoMemory>
    requires { IsGraph (view.graph graph.now) }
    ensures folded { IfOk result (λ made. view.graph made ≡
        plain.folded_graph (view.graph graph.now)) }

    // the walk is the same, block for block, and shows the same, and so are the arrays
    ensures steps { IfOk result (λ made. SameSteps (view.graph graph.now) (view.graph made)) }
    ensures walks { IfOk result (λ made. SameWalks (view.graph graph.now) (view.graph made)) }
    ensures arrays { IfOk result (λ made. SameArrays (view.graph graph.now) (view.graph made)) }

    // what later passes rest on
    ensures rules { IfOk result (λ made. IsGraph (view.graph made)) }
    ensures outline { IfOk result (λ made. SameOutline (view.graph graph.now) (view.graph made)) }
    ensures sizes { IfOk result (λ made. SizesKept (view.graph graph.now) (view.graph made)) }
    ensures shape { IfOk result (λ made. IsShaped (view.graph graph.now) →
        IsShaped (view.graph made)) }
    ensures arms { IfOk result (λ made. ArmsAlone (view.graph graph.now) →
        ArmsAlone (view.graph made)) }

    ensures live { IfOk result (λ made. NoMoreLive (view.graph graph.now) (view.graph made)) }

    // what turns pay for
    ensures turns { IfOk result (λ made. TwoBlocksATurn (view.graph graph.now) →
        TwoBlocksATurn (view.graph made)) }
    ensures work { IfOk result (λ made. (most : ℕ) → TurnsPayWork (view.graph graph.now) most →
        TurnsPayWork (view.graph made) most) }
{
    let made = folded_graph(alloc, graph)?;
    Ok(made)
}
