//! The procedures of a graph.

ghost use Rattle.std.specs.Prelude.{◌≡◌, ◌+◌, ◌<◌, ◌^◌, map, IfOk};
ghost use Rattle.std.specs.List.{AllByRecursion};
ghost use Rattle.seq_run.specs.View as source;
ghost use Rattle.cfg_core.specs.View as view;
ghost use Rattle.cfg_build.specs.Lowered as lowered;
ghost use Rattle.cfg_build.specs.Lowered.{begun};
ghost use Rattle.cfg_build.specs.Building.{ProcFits, blocks_of};

use crate::builder::Builder;
use crate::steps::lower_steps;
use cfg_core::{GraphProc, GraphProcs};
use seq_run::Proc;
use std::alloc::Global;
use ws_words::NoMemory;

/// The procedure whose first block has this number.
fn lower_proc(alloc: Global, first: u32, proc: &Proc) -> Result<GraphProc, NoMemory>
    requires room { first + begun (source.proc proc.now).body < 2 ^ 32 }
    requires fits { ProcFits (source.proc proc.now) }
    ensures { IfOk result (λ made. view.proc made ≡ lowered.proc (source.proc proc.now) first) }
{
    let mut builder = Builder::at(alloc, first);
    lower_steps(alloc, &mut builder, &proc.body)?;
    let blocks = builder.finish(alloc, &proc.result)?;
    Ok(GraphProc {
        params: proc.params,
        vars: proc.params + proc.locals,
        blocks,
    })
}

/// The procedures, whose blocks are numbered from 0.
pub(crate) fn lower_procs(alloc: Global, procs: &[Proc]) -> Result<GraphProcs, NoMemory>
    requires room { blocks_of (source.procs procs.now) < 2 ^ 32 }
    requires fit { AllByRecursion ProcFits (source.procs procs.now) }
    ensures { let made = lowered.procs (source.procs procs.now) 0 in
        IfOk result (λ list. map view.proc list.items ≡ made) }
{
    let mut list = Vec::new(alloc);
    let mut first = 0;
    for proc in procs {
        let made = lower_proc(alloc, first, proc)?;
        first += made.blocks.len() as u32;
        list.push(made)?;
    }
    Ok(list)
}
