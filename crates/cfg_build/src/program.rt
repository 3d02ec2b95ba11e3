//! The control graph of a program.

ghost use Rattle.std.specs.Prelude.{◌≡◌, IfOk};
ghost use Rattle.ws_words.specs.Outside.{World};
ghost use Rattle.src_ast.specs.Bound.{widest};
ghost use Rattle.src_ast.specs.Meaning.{procs_of};
ghost use Rattle.src_ast.specs.View as ast;
ghost use Rattle.seq_run.specs.InRange.{ProgramIn};
ghost use Rattle.seq_run.specs.View as source;
ghost use Rattle.cfg_core.specs.View as view;
ghost use Rattle.cfg_core.specs.Rules.{IsGraph};
ghost use Rattle.cfg_core.specs.Shown.{StaysInside};
ghost use Rattle.cfg_core.specs.Weights.{TwoBlocksATurn, TurnsPayWork};
ghost use Rattle.cfg_build.specs.Lowered.{lowered};
ghost use Rattle.cfg_build.specs.Keeps.{KeepsRun, ShowsRun, arrays_of, rooms_of, rooms_in, IsFirstForm};
ghost use Rattle.cfg_core.specs.Shape.{IsShaped};
ghost use Rattle.cfg_build.specs.Sizes.{IsSized, IsSmall};

use crate::arrays::arrays;
use crate::procs::lower_procs;
use cfg_core::{Graph, nothing_hidden};
use seq_run::{Resolved, names_are_places, resolve, turns_never_grow};
use src_check::Accepted;
use std::alloc::Global;
use ws_words::NoMemory;

/// The graph of a program with numbers for names.
fn graph_of(alloc: Global, resolved: &Resolved) -> Result<Graph, NoMemory>
    requires { ProgramIn (source.program resolved.now) }
    ensures { IfOk result (λ graph. view.graph graph ≡ lowered (source.program resolved.now)) }
{
    let arrays = arrays(alloc, &resolved.arrays)?;
    let procs = lower_procs(alloc, &resolved.procs)?;
    Ok(Graph { arrays, procs })
}

/// The control graph of an accepted program. Its walk does turn by turn what the unchecked run does
/// (out-of-bounds loads give 0, stores are dropped), in every world.
pub fn lower(alloc: Global, accepted: &Accepted) -> Result<Graph, NoMemory>
    // the walk is the run, and shows all of it
    ensures run { let parts = ast.parts accepted.now.program.items.items in
        IfOk result (λ graph. KeepsRun parts (view.graph graph)) }
    ensures shown { IfOk result (λ graph. ShowsRun (view.graph graph)) }

    // the arrays are the program's and none is hidden, so no access to a hidden one is out of bounds
    ensures arrays { let parts = ast.parts accepted.now.program.items.items in
        IfOk result (λ graph. (view.graph graph).arrays ≡ arrays_of parts) }
    ensures inside { IfOk result (λ graph. (world : World) → StaysInside (view.graph graph) world) }

    // what later passes rest on
    ensures procs { let parts = ast.parts accepted.now.program.items.items in
        IfOk result (λ graph. rooms_in (view.graph graph).procs ≡ rooms_of (procs_of parts)) }
    ensures rules { IfOk result (λ graph. IsGraph (view.graph graph)) }
    ensures form { IfOk result (λ graph. IsFirstForm (view.graph graph)) }
    ensures shape { IfOk result (λ graph. IsShaped (view.graph graph)) }

    // what turns pay for, and how large the graph is
    ensures turns { IfOk result (λ graph. TwoBlocksATurn (view.graph graph)) }
    ensures work { let parts = ast.parts accepted.now.program.items.items in
        IfOk result (λ graph. TurnsPayWork (view.graph graph) (widest parts)) }
    ensures size { let parts = ast.parts accepted.now.program.items.items in
        IfOk result (λ graph. IsSized (procs_of parts) (view.graph graph)) }
    ensures small { let parts = ast.parts accepted.now.program.items.items in
        IfOk result (λ graph. IsSmall parts (view.graph graph)) }
{
    // laws that the contract rests on
    names_are_places();
    turns_never_grow();
    nothing_hidden();
    let resolved = resolve(alloc, accepted)?;
    let graph = graph_of(alloc, &resolved)?;
    Ok(graph)
}
