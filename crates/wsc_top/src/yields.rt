//! What comes of the commands, or what is to be run for them.

ghost use Rattle.std.specs.Prelude.{◌≡◌, ◌≤◌, ℕ, List, Option, None, Some, length, IfOk, IfErr, IfSome};
ghost use Rattle.src_ast.specs.View as view;
ghost use Rattle.src_ast.specs.Written.{IsWritten};
ghost use Rattle.port_set.specs.Ports.{Told};
ghost use Rattle.asm_read.specs.Sections.{trace_section};
ghost use Rattle.wsc_top.specs.declared.task.AssemblyTask.TheVariants.{Replay};
ghost use Rattle.asm_read.specs.Assembly.{assembly_limit};
ghost use Rattle.wsc_top.specs.Clocked.{TaskInRange};
ghost use Rattle.wsc_top.specs.Answers.{Yields, RunsClosed};
ghost use Rattle.wave_build.specs.Compiled.{IsCompiled};
ghost use Rattle.wsc_top.specs.Steps.{YieldStep, IsBegun, AssemblyYieldStep};
ghost use Rattle.wsc_top.specs.declared.task.JobTask.{JobTask};
ghost use Rattle.wsc_top.specs.declared.status.Status.{Status};

use crate::clocked::clocked;
use crate::status::Status;
use crate::step::{CallStep, StarvedCall};
use crate::task::{AssemblyTask, JobTask, PlainOptions};
use crate::text::{Phrase, Text};
use crate::texts;
use crate::traces::{replayed, traced};
use asm_read::world;
use asm_text::print_asm;
use list_out::list_image;
use seq_run::run_plain;
use src_ast::{print_program, printed_reads_the_same};
use src_check::Accepted;
use std::alloc::Global;
use wave_build::compile;
use ws_isa::Checked;
use ws_words::{NoMemory, Plain, Words};

/// The image of a program, which is formed and sound.
pub fn checked_image(alloc: Global, accepted: &Accepted) -> Result<Checked, NoMemory>
    requires { IsWritten (view.parts accepted.now.program.items.items) }
    ensures { IfOk result (IsCompiled (view.parts accepted.now.program.items.items)) }
{
    let image = compile(alloc, accepted)?;
    let _ = image.image();
    Ok(image)
}

// The image of a program and its text.
fn compiled(alloc: Global, accepted: &Accepted) -> Result<(Checked, Text), StarvedCall>
    requires { IsWritten (view.parts accepted.now.program.items.items) }
    ensures ok { IfOk result (λ x. (input : List ℕ) (handed : List (Option Told))
        → Yields JobTask.Compile (view.parts accepted.now.program.items.items) input handed
        Status.Done x.1 (Some x.0) handed) }
    ensures begun { IfErr result (λ starved. IfSome starved.image
        (IsCompiled (view.parts accepted.now.program.items.items))) }
{
    let image = checked_image(alloc, accepted)?;
    match print_asm(alloc, image.image()) {
        Ok(text) => Ok((image, Text::built(text))),
        Err(NoMemory) => Err(StarvedCall { image: Some(image) }),
    }
}

// What comes of the sequential run of this program on these words.
fn plainly(
    alloc: Global,
    options: PlainOptions,
    accepted: &Accepted,
    input: Words,
) -> Result<(Status, Text), NoMemory>
    ensures { IfOk result (λ y. (handed : List (Option Told)) → Yields (JobTask.Plain options)
        (view.parts accepted.now.program.items.items) input handed y.0 y.1 None handed) }
{
    let PlainOptions {
        turns,
        memory,
        stats,
    } = options;
    let world = world(alloc, input)?;
    match run_plain(alloc, accepted, &world, turns)? {
        Plain::Ended {
            printed,
            arrays,
            took: _,
            turns,
        } => {
            let text = texts::ended(
                alloc,
                memory,
                stats,
                &accepted.program,
                &printed,
                &arrays,
                turns,
            )?;
            Ok((Status::Done, Text::built(text)))
        }
        Plain::Fault {
            array,
            printed,
            arrays,
            took: _,
            turns: _,
        } => {
            let text = texts::faulted(alloc, memory, &accepted.program, array, &printed, &arrays)?;
            Ok((Status::Fault, Text::built(text)))
        }
        Plain::Going { printed } => {
            let text = texts::going(alloc, &printed)?;
            Ok((Status::Budget, Text::built(text)))
        }
    }
}

/// What comes of a task to a program that it takes, or what is to be run for it.
pub fn yielded(
    alloc: Global,
    task: JobTask,
    accepted: &Accepted,
    input: Words,
) -> Result<CallStep, StarvedCall>
    requires { IsWritten (view.parts accepted.now.program.items.items) }
    ensures ok { IfOk result
        (YieldStep task (view.parts accepted.now.program.items.items) input) }
    ensures begun { IfErr result (λ starved. IfSome starved.image
        (IsBegun task (view.parts accepted.now.program.items.items))) }
{
    printed_reads_the_same();
    match task {
        JobTask::Run(options) => Ok(CallStep::Run(options, checked_image(alloc, accepted)?, input)),
        JobTask::Format => {
            let text = print_program(alloc, &accepted.program)?;
            Ok(CallStep::Ready(Status::Done, Text::built(text), None))
        }
        JobTask::Compile => {
            let (image, text) = compiled(alloc, accepted)?;
            Ok(CallStep::Ready(Status::Done, text, Some(image)))
        }
        JobTask::Plain(options) => {
            let (status, text) = plainly(alloc, options, accepted, input)?;
            Ok(CallStep::Ready(status, text, None))
        }
    }
}

/// What comes of a task to the sound image of a text, which has this trace section for `replay`, or what is
/// to be run for it.
pub fn assembly_yielded(
    alloc: Global,
    task: AssemblyTask,
    text: &[u8],
    trace: &[u8],
    image: Checked,
    input: Words,
) -> Result<CallStep, StarvedCall>
    requires text { length text.now ≤ assembly_limit }
    requires within { length trace.now ≤ length text.now }
    requires trace { task ≡ Replay → trace.now ≡ trace_section text.now }
    requires task { TaskInRange task }
    ensures ok { IfOk result (AssemblyYieldStep task text.now image input) }
    ensures begun { IfErr result (λ starved. IfSome starved.image
        (λ begun. (begun ≡ image) × RunsClosed task text.now)) }
{
    match task {
        AssemblyTask::Check => {
            let sound = Text::fixed(Phrase::Sound);
            Ok(CallStep::Ready(Status::Done, sound, None))
        }
        AssemblyTask::List => {
            let listing = list_image(alloc, &image)?;
            Ok(CallStep::Ready(Status::Done, Text::built(listing), None))
        }
        AssemblyTask::Exec(options) => Ok(CallStep::Run(options, image, input)),
        AssemblyTask::Trace(budget) => match traced(alloc, budget, &image, input) {
            Ok((status, text)) => Ok(CallStep::Ready(status, Text::built(text), Some(image))),
            Err(NoMemory) => Err(StarvedCall { image: Some(image) }),
        },
        AssemblyTask::Replay => {
            let (status, text, again) = replayed(alloc, text, trace, image, input)?;
            Ok(CallStep::Ready(status, Text::built(text), again))
        }
        AssemblyTask::Grid(options) => match clocked(alloc, options, &image, input) {
            Ok((status, text)) => Ok(CallStep::Ready(status, Text::built(text), Some(image))),
            Err(NoMemory) => Err(StarvedCall { image: Some(image) }),
        },
    }
}
