//! The sequential run of a program.

ghost use Rattle.std.specs.Prelude.{◌≡◌, ◌<◌, ◌≤◌, ◌⊎◌, ℕ, length, IfOk};
ghost use Rattle.ws_words.specs.Outside.{Outside, opening_out};
ghost use Rattle.ws_words.specs.Plain.{world_of};
ghost use Rattle.src_ast.specs.Meaning.{empty_cells as empty_of};
ghost use Rattle.src_ast.specs.Runs.{Runs, Goes, Faults};
ghost use Rattle.src_ast.specs.View as ast;
ghost use Rattle.seq_run.specs.Answer.{SaysEnded, SaysFault, SaysGoing};
ghost use Rattle.seq_run.specs.Answer.{HasEnded, HasFaulted, IsGoing, RunSays};
ghost use Rattle.seq_run.specs.Resolved.{run as run_of};
ghost use Rattle.seq_run.specs.View as view;

use crate::flow::{Reply, Run};
use crate::programs::resolve;
use crate::runner::Runner;
use crate::tree::{ArrayShape, Resolved};
use src_check::Accepted;
use std::alloc::Global;
use ws_words::{Cells, Memory, NoMemory, Plain, Words, World};

// As many cells as each array has, all 0.
fn empty_cells(alloc: Global, arrays: &[ArrayShape]) -> Result<Cells, NoMemory>
    ensures { IfOk result (λ cells. cells ≡ empty_of (view.lengths arrays.now)) }
{
    let mut cells = Cells::empty(alloc);
    for array in arrays {
        cells.push(Words::zeros(alloc, array.length as usize)?)?;
    }
    Ok(cells)
}

/// Runs a program with numbers for names, with at most so many turns.
pub(crate) fn run_resolved(
    alloc: Global,
    resolved: &Resolved,
    world: &World,
    turns: u64,
) -> Result<Plain, NoMemory>
    requires { 0 < length resolved.now.procs.items }
    ensures { IfOk result (λ plain.
        let program = view.program resolved.now in let given = world_of world.now in
        RunSays (opening_out (empty_of program.lengths) given) (run_of program given) turns plain) }
{
    let cells = empty_cells(alloc, &resolved.arrays)?;
    let memory = Memory::open(alloc, cells, world)?;
    let mut run = Run { memory, turns };
    let procs = resolved.procs.as_slice();
    let runner = Runner { alloc, procs };
    let count = procs.len();
    let args = Words::empty(alloc);
    let reply = runner.run_call(count, count - 1, args, &mut run)?;
    let Run {
        memory,
        turns: left,
    } = run;
    match reply {
        Reply::Value(_) => Ok(Plain::Ended {
            printed: memory.printed,
            arrays: memory.cells,
            took: memory.took,
            turns: turns - left,
        }),
        Reply::Fault(array) => Ok(Plain::Fault {
            array,
            printed: memory.printed,
            arrays: memory.cells,
            took: memory.took,
            turns: turns - left,
        }),
        Reply::Out => Ok(Plain::Going {
            printed: memory.printed,
        }),
    }
}

/// Runs an accepted program with at most so many turns, as the source says: turn by turn, with
/// names looked up once before the run. It ends at the first out-of-bounds load or store.
pub fn run_plain(
    alloc: Global,
    accepted: &Accepted,
    world: &World,
    turns: u64,
) -> Result<Plain, NoMemory>
    // one of three answers, each with its cause
    ensures answer { IfOk result (λ plain.
        let parts = ast.parts accepted.now.program.items.items in
        let given = world_of world.now in
        HasEnded parts given turns plain
        ⊎ (HasFaulted parts given turns plain ⊎ IsGoing parts given turns plain)) }

    // and each cause has its answer
    ensures ended { (n : ℕ) (end : Outside) →
        Runs (ast.parts accepted.now.program.items.items) (world_of world.now) n end →
        n ≤ turns → IfOk result (SaysEnded n end) }
    ensures faulted { (n array : ℕ) (state : Outside) →
        Faults (ast.parts accepted.now.program.items.items) (world_of world.now) n array state →
        n ≤ turns → IfOk result (SaysFault n array state) }
    ensures going { (now : Outside) →
        Goes (ast.parts accepted.now.program.items.items) (world_of world.now) turns now →
        IfOk result (SaysGoing now) }
{
    let resolved = resolve(alloc, accepted)?;
    let plain = run_resolved(alloc, &resolved, world, turns)?;
    Ok(plain)
}
