//! What is to be done for a call: an answer that is ready, or images that are to be run.

ghost use Rattle.std.specs.Prelude.{◌≡◌, ◌≤◌, ◌+◌, ℕ, List, None, Ok, length, map, IfOk, IfErr, IfSome};
ghost use Rattle.std.specs.Prelude.{OnErr, string_bytes};
ghost use Rattle.ws_io.specs.Streams.{Takes};
ghost use Rattle.wsc_words.specs.Lines.{HasCommand};
ghost use Rattle.wsc_top.specs.declared.status.Status.TheVariants.{Usage};
ghost use Rattle.wsc_top.specs.declared.task.Task.{Task};
ghost use Rattle.wsc_top.specs.Tasks.{AsksFor};
ghost use Rattle.job_read.specs.Job.{job_limit};
ghost use Rattle.asm_read.specs.Sections.{input_of, trace_section};
ghost use Rattle.wsc_top.specs.declared.task.AssemblyTask.TheVariants.{Replay};
ghost use Rattle.asm_read.specs.Assembly.{assembly_limit};
ghost use Rattle.wsc_top.specs.Clocked.{TaskInRange};
ghost use Rattle.wsc_top.specs.declared.step.CallStep.TheVariants.{Ready};
ghost use Rattle.wsc_top.specs.Phrases.{phrase_text};
ghost use Rattle.wsc_top.specs.Texts.{usage_text};
ghost use Rattle.wsc_top.specs.Steps.{JobStep, JobBegun, JobsStep, AssemblyStep, AssemblyBegun, StepSo};
ghost use Rattle.wsc_top.specs.Answers.{RunsOut, assembly_text};

use crate::batch::{self, JobsFault};
use crate::bench::generated;
use crate::refusals;
use crate::status::Status;
use crate::step::{CallStep, StarvedCall};
use crate::task::{AssemblyTask, JobTask, RunOptions, Task, read_task};
use crate::text::{Phrase, Text};
use crate::yields::{assembly_yielded, yielded};
use asm_read::{AssemblyFault, asm_refused, refused, split, split_trace};
use src_ast::{TextFault, read_is_written};
use std::alloc::Global;
use work_gen::workload;
use ws_io::{ReadEnd, Source, read_all};
use ws_words::NoMemory;

/// The most bytes of a job.
const JOB_LIMIT: usize = 1_048_576;

/// The most bytes of an assembly with its sections.
const ASSEMBLY_LIMIT: usize = 134_217_728;

// An answer of this text and no image, which takes no memory.
fn plain(status: Status, phrase: Phrase) -> CallStep
    ensures { result ≡ Ready status (phrase_text phrase) None }
{
    CallStep::Ready(status, Text::fixed(phrase), None)
}

// What is to be done for a task to the text of a job.
fn to_text(alloc: Global, task: JobTask, text: &[u8]) -> Result<CallStep, StarvedCall>
    requires { length text.now ≤ job_limit }
    ensures ok { IfOk result (JobStep task text.now) }
    ensures begun { IfErr result (λ starved. IfSome starved.image (JobBegun task text.now)) }
{
    read_is_written();
    match job_read::read(alloc, text) {
        Ok((accepted, input)) => Ok(yielded(alloc, task, &accepted, input)?),
        Err(TextFault::Refused(refusal)) => {
            let text = refused(alloc, refusal)?;
            Ok(CallStep::Ready(Status::Refused, Text::built(text), None))
        }
        Err(TextFault::NoMemory) => Err(StarvedCall { image: None }),
    }
}

// What is to be done for what the source gives, of which a job is to be read.
fn of_job<S: Source>(alloc: Global, task: JobTask, source: &mut S) -> Result<CallStep, StarvedCall>
    ensures ok { IfOk result (λ step. (words : List (List ℕ)) → AsksFor words (Task.Job task)
        → StepSo words (S.left source.old) (S.left source.new)
        (S.faults source.old) (S.faults source.new) step) }
    ensures memory { IfErr result (λ starved. (words : List (List ℕ)) → AsksFor words (Task.Job task)
        → RunsOut words (S.left source.old) (S.left source.new) starved.image) }
{
    match read_all(alloc, source, JOB_LIMIT) {
        Ok(text) => Ok(to_text(alloc, task, text.as_slice())?),
        Err(ReadEnd::Failed) => Ok(plain(Status::ReadFault, Phrase::Unread)),
        Err(ReadEnd::TooLong) => Ok(plain(Status::Refused, Phrase::Long)),
        Err(ReadEnd::NoMemory) => Err(StarvedCall { image: None }),
    }
}

// The words of the input section of a text for a task, and its trace section: `replay` alone has one.
fn words_and_trace(task: AssemblyTask, input: &[u8]) -> (&[u8], &[u8])
    ensures words { (text : List ℕ) → input.now ≡ input_of text
        → result.0.now ≡ input_of (assembly_text task text) }
    ensures trace { (text : List ℕ) → input.now ≡ input_of text → task ≡ Replay
        → result.1.now ≡ trace_section text }
    ensures words_within { length result.0.now ≤ length input.now }
    ensures trace_within { length result.1.now ≤ length input.now }
{
    match task {
        AssemblyTask::Replay => split_trace(input),
        _ => (input, &[]),
    }
}

// What is to be done for a task to the text of an assembly.
fn to_assembly(alloc: Global, task: AssemblyTask, text: &[u8]) -> Result<CallStep, StarvedCall>
    requires text { length text.now ≤ assembly_limit }
    requires task { TaskInRange task }
    ensures ok { IfOk result (AssemblyStep task text.now) }
    ensures begun { IfErr result (λ starved. IfSome starved.image (AssemblyBegun task text.now)) }
{
    let (section, behind) = split(text);
    let (input, trace) = words_and_trace(task, behind);
    match asm_read::read(alloc, section, input) {
        Ok((image, input)) => Ok(assembly_yielded(alloc, task, text, trace, image, input)?),
        Err(AssemblyFault::Refused(why)) => {
            let text = asm_refused(alloc, why)?;
            Ok(CallStep::Ready(Status::Refused, Text::built(text), None))
        }
        Err(AssemblyFault::NoMemory) => Err(StarvedCall { image: None }),
    }
}

// What is to be done for what the source gives, of which an assembly is to be read.
fn of_assembly<S: Source>(
    alloc: Global,
    task: AssemblyTask,
    source: &mut S,
) -> Result<CallStep, StarvedCall>
    requires { TaskInRange task }
    ensures ok { IfOk result (λ step. (words : List (List ℕ)) → AsksFor words (Task.Assembly task)
        → StepSo words (S.left source.old) (S.left source.new)
        (S.faults source.old) (S.faults source.new) step) }
    ensures memory { IfErr result (λ starved. (words : List (List ℕ))
        → AsksFor words (Task.Assembly task)
        → RunsOut words (S.left source.old) (S.left source.new) starved.image) }
{
    match read_all(alloc, source, ASSEMBLY_LIMIT) {
        Ok(text) => Ok(to_assembly(alloc, task, text.as_slice())?),
        Err(ReadEnd::Failed) => Ok(plain(Status::ReadFault, Phrase::Unread)),
        Err(ReadEnd::TooLong) => Ok(plain(Status::Refused, Phrase::Long)),
        Err(ReadEnd::NoMemory) => Err(StarvedCall { image: None }),
    }
}

// What is to be done for the text of the jobs of several threads.
fn to_jobs(alloc: Global, options: RunOptions, text: &[u8]) -> Result<CallStep, NoMemory>
    requires { length text.now ≤ job_limit }
    ensures { IfOk result (JobsStep options text.now) }
{
    match batch::read(alloc, text) {
        Ok(read) => Ok(CallStep::Threads(options, read)),
        Err(JobsFault::Refused(refusal)) => {
            let text = refusals::jobs_refused(alloc, refusal)?;
            Ok(CallStep::Ready(Status::Refused, Text::built(text), None))
        }
        Err(JobsFault::NoMemory) => Err(NoMemory),
    }
}

// What is to be done for what the source gives, of which the jobs of several threads are to be read.
fn of_jobs<S: Source>(
    alloc: Global,
    options: RunOptions,
    source: &mut S,
) -> Result<CallStep, NoMemory>
    ensures ok { IfOk result (λ step. (words : List (List ℕ)) → AsksFor words (Task.Multi options)
        → StepSo words (S.left source.old) (S.left source.new)
        (S.faults source.old) (S.faults source.new) step) }
    ensures memory { OnErr result ((bytes : List ℕ) × (length bytes ≤ job_limit + 1)
        × Takes (S.left source.old) bytes (S.left source.new)) }
{
    match read_all(alloc, source, JOB_LIMIT) {
        Ok(text) => Ok(to_jobs(alloc, options, text.as_slice())?),
        Err(ReadEnd::Failed) => Ok(plain(Status::ReadFault, Phrase::Unread)),
        Err(ReadEnd::TooLong) => Ok(plain(Status::Refused, Phrase::Long)),
        Err(ReadEnd::NoMemory) => Err(NoMemory),
    }
}

/// What is to be done for these command-line arguments and what the source gives: an answer that is ready,
/// or images to be run. It has no ports and starts no thread. An answer that is ready needs none.
pub fn prepare<S: Source>(
    alloc: Global,
    words: &[String],
    source: &mut S,
) -> Result<CallStep, StarvedCall>
    ensures ok { IfOk result (StepSo (map string_bytes words.now) (S.left source.old)
        (S.left source.new) (S.faults source.old) (S.faults source.new)) }
    ensures memory { IfErr result (λ starved. RunsOut (map string_bytes words.now)
        (S.left source.old) (S.left source.new) starved.image) }
    // Words whose first is no command are answered without any memory.
    ensures unknown { ¬ HasCommand (map string_bytes words.now)
        → result ≡ Ok (Ready Usage usage_text None) }
{
    match read_task(alloc, words)? {
        None => Ok(plain(Status::Usage, Phrase::Usage)),
        Some(Task::Generate(number)) => {
            let text = workload(alloc, number)?;
            Ok(CallStep::Ready(Status::Done, Text::built(text), None))
        }
        Some(Task::Bench(options)) => {
            let (image, input) = generated(alloc, options.number)?;
            Ok(CallStep::Run(options.run, image, input))
        }
        Some(Task::Job(task)) => Ok(of_job(alloc, task, source)?),
        Some(Task::Assembly(task)) => Ok(of_assembly(alloc, task, source)?),
        Some(Task::Multi(options)) => Ok(of_jobs(alloc, options, source)?),
    }
}
