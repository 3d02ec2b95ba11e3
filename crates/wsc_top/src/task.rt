//! What a line of the command line asks for.

ghost use Rattle.std.specs.Prelude.{◌≡◌, None, Ok, map, string_bytes, IfOk, IfSome, IfNone};
ghost use Rattle.wsc_words.specs.Lines.{HasCommand};
ghost use Rattle.wsc_top.specs.Tasks.{AsksFor, IsNoLine, decoupled_options, grid_options, options_of};
ghost use Rattle.wsc_top.specs.Tasks.{task_of};
ghost use Rattle.run_text.specs.declared.report.Report.TheVariants.{Full};

use run_text::Report;
use std::alloc::Global;
use ws_words::NoMemory;
use wsc_words::{Command, Invocation, WordsFault, read_words, words_are_one_line};

/// How the sequential run is asked for.
#[derive(Clone, Copy, Debug, PartialEq, Eq)]
pub struct PlainOptions {
    /// The most turns that it may take.
    pub turns: u64,
    /// Whether the cells of the arrays are shown at its end.
    pub memory: bool,
    /// Whether the turns that it took are shown.
    pub stats: bool,
}

/// How the run of an image is asked for.
#[derive(Clone, Copy, Debug, PartialEq, Eq)]
pub struct RunOptions {
    /// How many workers bring tokens, from 1 to 8.
    pub workers: u32,
    /// Whether one thread brings them instead, to a buffer in which a store's address may come before its
    /// data.
    pub decoupled: bool,
    /// The most instances that may fire.
    pub budget: u64,
    /// What is reported of it.
    pub report: Report,
}

/// What is done with a job.
#[derive(Clone, Copy, Debug, PartialEq, Eq)]
pub enum JobTask {
    /// An image of it is run.
    Run(RunOptions),
    /// Its program is printed.
    Format,
    /// The image of its program is printed.
    Compile,
    /// It is run turn by turn, as the source says.
    Plain(PlainOptions),
}

/// How the run of an image on a clocked grid is asked for.
#[derive(Clone, Copy, Debug, PartialEq, Eq)]
pub struct GridOptions {
    /// How many elements its instructions lie on, from 1 to 64.
    pub elements: u32,
    /// The most waves that may be in flight, at least 1.
    pub waves: u64,
    /// The most instances that may fire.
    pub budget: u64,
    /// Whether the cells of the arrays that have names are shown at its end.
    pub memory: bool,
    /// Whether the instances that fired and the cycles are counted.
    pub stats: bool,
}

/// What is done with an assembly.
#[derive(Clone, Copy, Debug, PartialEq, Eq)]
pub enum AssemblyTask {
    /// It is said to be sound.
    Check,
    /// Its blocks and memory operations are listed.
    List,
    /// It is run.
    Exec(RunOptions),
    /// It is run until so many instances have fired, and the events are printed.
    Trace(u64),
    /// The events of its trace section are made.
    Replay,
    /// It is run on a clocked grid.
    Grid(GridOptions),
}

/// How a generated job is run.
#[derive(Clone, Copy, Debug, PartialEq, Eq)]
pub struct BenchOptions {
    /// The number of the job.
    pub number: u32,
    pub run: RunOptions,
}

/// What the program does.
#[derive(Clone, Copy, Debug, PartialEq, Eq)]
pub enum Task {
    /// It reads a job.
    Job(JobTask),
    /// It reads an assembly.
    Assembly(AssemblyTask),
    /// It writes the generated job of a number, and reads nothing.
    Generate(u32),
    /// It runs a generated job and reports it in brief, and reads nothing.
    Bench(BenchOptions),
    /// It reads up to four jobs, and runs an image of each in a thread of its own.
    Multi(RunOptions),
}

// How a line asks for a run of which this is reported.
fn options_of(line: &Invocation, report: Report) -> RunOptions
    ensures { result ≡ options_of line.now report }
{
    RunOptions {
        workers: line.workers,
        decoupled: false,
        budget: line.budget,
        report,
    }
}

// How a line asks for a run with decoupled stores.
fn decoupled_options(line: &Invocation) -> RunOptions
    ensures { result ≡ decoupled_options line.now }
{
    RunOptions {
        workers: 1,
        decoupled: true,
        budget: line.budget,
        report: full(line),
    }
}

// What is reported in full, as far as a line asks for it.
fn full(line: &Invocation) -> Report
    ensures { result ≡ Full line.now.memory line.now.stats }
{
    Report::Full {
        memory: line.memory,
        stats: line.stats,
    }
}

// How a line asks for a run on a grid.
fn grid_options(line: &Invocation) -> GridOptions
    ensures { result ≡ grid_options line.now }
{
    GridOptions {
        elements: line.elements,
        waves: line.waves,
        budget: line.budget,
        memory: line.memory,
        stats: line.stats,
    }
}

// What a line asks for.
fn task_of(line: &Invocation) -> Task
    ensures { result ≡ task_of line.now }
{
    match line.command {
        Command::Run => Task::Job(JobTask::Run(options_of(line, full(line)))),
        Command::Plain => Task::Job(JobTask::Plain(PlainOptions {
            turns: line.turns,
            memory: line.memory,
            stats: line.stats,
        })),
        Command::Format => Task::Job(JobTask::Format),
        Command::Compile => Task::Job(JobTask::Compile),
        Command::Check => Task::Assembly(AssemblyTask::Check),
        Command::List => Task::Assembly(AssemblyTask::List),
        Command::Exec => Task::Assembly(AssemblyTask::Exec(options_of(line, full(line)))),
        Command::Trace => Task::Assembly(AssemblyTask::Trace(line.budget)),
        Command::Replay => Task::Assembly(AssemblyTask::Replay),
        Command::Grid => Task::Assembly(AssemblyTask::Grid(grid_options(line))),
        Command::Gen => Task::Generate(line.number),
        Command::Bench => Task::Bench(BenchOptions {
            number: line.number,
            run: options_of(line, Report::Brief),
        }),
        Command::Multi => Task::Multi(options_of(line, full(line))),
        Command::Decouple => Task::Assembly(AssemblyTask::Exec(decoupled_options(line))),
    }
}

/// What these command-line arguments ask for, without the program's own name.
pub fn read_task(alloc: Global, words: &[String]) -> Result<Option<Task>, NoMemory>
    ensures some { IfOk result (λ found.
        IfSome found (λ task. AsksFor (map string_bytes words.now) task)) }
    ensures none { IfOk result (λ found. IfNone found (IsNoLine (map string_bytes words.now))) }
    ensures unknown { ¬ HasCommand (map string_bytes words.now) → result ≡ Ok None }
{
    words_are_one_line();
    match read_words(alloc, words) {
        Ok(line) => Ok(Some(task_of(&line))),
        Err(WordsFault::Usage) => Ok(None),
        Err(WordsFault::NoMemory) => Err(NoMemory),
    }
}
