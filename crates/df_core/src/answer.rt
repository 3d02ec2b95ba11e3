//! What a run answers.

ghost use Rattle.std.specs.Prelude.{◌≡◌, IfOk};
ghost use Rattle.df_core.specs.Outdoors.{rows_of};
ghost use Rattle.df_core.specs.Told.{run_of};

use crate::drive::Finish;
use crate::flow::Flow;
use std::alloc::Global;
use ws_words::{Cells, NoMemory, Words};

/// What the instances that have fired have done: the words that they printed, the cells of all
/// arrays, in order, hidden ones too, the words that each of the ports 1 to 7 took, and how many
/// they are.
#[derive(Debug, Drop)]
pub struct Done {
    pub printed: Words,
    pub arrays: Cells,
    pub took: Cells,
    pub fired: u64,
}

/// How a run ended: the walk has been run whole, or as many instances have fired as may, or the
/// first out-of-bounds load or store stopped it, with the number of its array from 1.
#[derive(Debug, Drop)]
pub enum RunAnswer {
    Rest(Done),
    Budget(Done),
    Fault(u32, Done),
}

/// The answer of a run that ended so.
pub fn run_of(alloc: Global, finish: Finish, flow: Flow<'_>) -> Result<RunAnswer, NoMemory>
    ensures { IfOk result (λ run. run ≡ run_of finish flow.entry) }
{
    let memory = flow.memory;
    let done = Done {
        printed: words_of(alloc, memory.printed),
        arrays: memory.cells,
        took: cells_of(alloc, memory.took)?,
        fired: flow.fired,
    };
    Ok(match finish {
        Finish::Rest => RunAnswer::Rest(done),
        Finish::Budget => RunAnswer::Budget(done),
        Finish::Fault { array } => RunAnswer::Fault(array, done),
    })
}

fn words_of(alloc: Global, items: Vec<u64>) -> Words
    ensures { result ≡ items.items }
{
    let mut items = items;
    let mut words = Words::empty(alloc);
    words.exchange(&mut items);
    words
}

fn cells_of(alloc: Global, rows: Vec<Vec<u64>>) -> Result<Cells, NoMemory>
    ensures { IfOk result (λ cells. cells ≡ rows_of rows.items) }
{
    let mut cells = Cells::empty(alloc);
    for row in rows {
        cells.push(words_of(alloc, row))?;
    }
    Ok(cells)
}
