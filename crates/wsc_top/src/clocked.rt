//! What comes of `grid`.

ghost use Rattle.std.specs.Prelude.{◌≡◌, ◌++◌, map, IfOk, OnOk};
ghost use Rattle.ws_isa.specs.View as view;
ghost use Rattle.asm_read.specs.Reads.{world_of};
ghost use Rattle.wsc_top.specs.Executions.{EndsRun};
ghost use Rattle.wsc_top.specs.Clocked.{InRange, IsClocked, maybe_cycles, clocked_status, clocked_text};

use crate::status::Status;
use crate::task::GridOptions;
use asm_read::world;
use df_core::Finish;
use grid_clock::{Clocked, grid_run};
use run_text::{Report, rested, spent, stopped};
use std::alloc::Global;
use ws_io::put_decimal;
use ws_isa::{ArrayDecl, Checked};
use ws_words::{Bytes, NoMemory, Words};

// The status by how a run on a grid ended.
fn status_of(finish: Finish) -> Status
    ensures { result ≡ clocked_status finish }
{
    match finish {
        Finish::Rest => Status::Done,
        Finish::Budget => Status::Budget,
        Finish::Fault { .. } => Status::Fault,
    }
}

// Puts a line for the cycles of a run after a text, where it is asked for.
fn put_cycles(text: &mut Bytes, stats: bool, cycles: u64) -> Result<(), NoMemory>
    ensures { OnOk result (text.new ≡ text.old ++ maybe_cycles stats cycles) }
{
    if stats {
        text.extend(b"cycles ")?;
        put_decimal(text, cycles)?;
        text.push(b'\n')?;
    }
    Ok(())
}

// The answer of a run on a grid of an image with these arrays.
fn told(
    alloc: Global,
    options: GridOptions,
    arrays: &[ArrayDecl],
    run: &Clocked,
) -> Result<Bytes, NoMemory>
    ensures { IfOk result (λ text. text ≡ clocked_text options (map view.array arrays.now) run.now) }
{
    let report = Report::Full {
        memory: options.memory,
        stats: options.stats,
    };
    match run.finish {
        Finish::Rest => {
            let mut text = rested(alloc, report, arrays, &run.printed, &run.cells, run.fired)?;
            put_cycles(&mut text, options.stats, run.cycles)?;
            Ok(text)
        }
        Finish::Budget => {
            let mut text = spent(alloc, report, &run.printed, options.budget)?;
            put_cycles(&mut text, options.stats, run.cycles)?;
            Ok(text)
        }
        Finish::Fault { array } => {
            stopped(alloc, report, arrays, array, &run.printed, &run.cells)
        }
    }
}

/// The status and the text of a run of an image on a grid, on these words.
pub fn clocked(
    alloc: Global,
    options: GridOptions,
    image: &Checked,
    input: Words,
) -> Result<(Status, Bytes), NoMemory>
    requires { InRange options }
    ensures told { IfOk result (λ y. IsClocked options image.now input y.0 y.1) }
    ensures ends { IfOk result (λ y. EndsRun image.now (world_of input) options.budget y.0) }
{
    let world = world(alloc, input)?;
    let run = grid_run(
        alloc,
        image,
        &world,
        options.elements,
        options.waves,
        options.budget,
    )?;
    let text = told(alloc, options, image.image().arrays.as_slice(), &run)?;
    Ok((status_of(run.finish), text))
}
