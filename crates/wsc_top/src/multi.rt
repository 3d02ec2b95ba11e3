//! The run of several threads.

ghost use Rattle.std.specs.Prelude.{◌≡◌, ◌+◌, ◌≤◌, List, [], ◌∷◌, take, length, slice_get};
ghost use Rattle.std.specs.Prelude.{option_copied, None, IsSome, IfSome, IfOk, OnErr};
ghost use Rattle.port_set.specs.Slots.{AllOpen, contents};
ghost use Rattle.multi_wave.specs.Parts.{alone};
ghost use Rattle.wsc_top.specs.declared.status.Status.{Status};
ghost use Rattle.wsc_top.specs.Answers.{TellWords};
ghost use Rattle.wsc_top.specs.Threads.{ThreadsDo, ExecutesAlone, HaveBegun, Thread, images_of, inputs_of};
ghost use Rattle.wsc_top.specs.Threads.{no_ports, status_of};
ghost use Rattle.wsc_top.specs.Jobs.{most_jobs};
ghost use Rattle.wsc_top.specs.Running.{alone_at, ThreadTold, BeforeSo, AllTold};

use crate::run_texts::answer;
use crate::status::Status;
use crate::task::RunOptions;
use crate::text::Text;
use fire_crew::Gate;
use multi_wave::{Each, Four, Part, ThreadGate, multi_run};
use port_set::{Port, Slots};
use std::alloc::Global;
use std::sync::Wait;
use std::thread::Threads;
use store_buf::{RunEnd, RunFinish};
use ws_io::put_decimal;
use ws_isa::Checked;
use ws_words::{Bytes, NoMemory, Words};

// A line has from 1 to 8 workers.
const MOST_WORKERS: u32 = 8;

// A gate that is called for the tokens of every thread, without the thread's number.
#[derive(Drop)]
struct Unnumbered<'g, G> {
    gate: &'g G,
}

impl<'g, G: Gate> ThreadGate for Unnumbered<'g, G> {
    fn before(&self, _thread: u32, wave: u64, instr: u32, port: u8) {
        self.gate.before(wave, instr, port);
    }
}

// The part of the last of so many threads, where there are so many, with its words taken away.
fn part<'i, P: Port>(
    images: &'i [Checked],
    inputs: &mut Vec<Words>,
    place: usize,
    ports: Slots<P>,
    budget: u64,
) -> Option<Part<'i, P>>
    requires few { length inputs.old.items ≤ place + 1 }
    requires same { length inputs.old.items ≤ length images.now }
    ensures is { alone P.tells result
        ≡ alone_at budget (contents P.tells ports) images.now inputs.old.items place }
    ensures others { inputs.new.items ≡ take place inputs.old.items }
{
    if inputs.len() <= place {
        return None;
    }
    match inputs.pop() {
        Some(input) => Some(Part {
            image: &images[place],
            input,
            ports,
            budget,
        }),
        None => None,
    }
}

// The parts of threads with these images and words. The first has the ports.
fn parts<'i, P: Port>(
    images: &'i [Checked],
    inputs: Vec<Words>,
    ports: Slots<P>,
    budget: u64,
) -> Four<Option<Part<'i, P>>>
    requires few { length inputs.items ≤ most_jobs }
    requires same { length inputs.items ≤ length images.now }
    ensures first { alone P.tells result.first
        ≡ alone_at budget (contents P.tells ports) images.now inputs.items 0 }
    ensures second { alone P.tells result.second
        ≡ alone_at budget no_ports images.now inputs.items 1 }
    ensures third { alone P.tells result.third
        ≡ alone_at budget no_ports images.now inputs.items 2 }
    ensures fourth { alone P.tells result.fourth
        ≡ alone_at budget no_ports images.now inputs.items 3 }
{
    let mut inputs = inputs;
    let fourth = part(images, &mut inputs, 3, Slots::none(), budget);
    let third = part(images, &mut inputs, 2, Slots::none(), budget);
    let second = part(images, &mut inputs, 1, Slots::none(), budget);
    let first = part(images, &mut inputs, 0, ports, budget);
    Each {
        first,
        second,
        third,
        fourth,
    }
}

// The status of a thread and those behind it, which have this one.
fn first_undone(status: Status, further: Status) -> Status
    ensures { result ≡ status_of (status ∷ further ∷ []) }
{
    match status {
        Status::Done => further,
        _ => status,
    }
}

// What is reported of a thread and those behind it.
fn thread_told(
    alloc: Global,
    options: RunOptions,
    number: u32,
    image: &Checked,
    finish: &RunFinish,
    further: (Status, Text),
) -> Result<(Status, Text), NoMemory>
    ensures { IfOk result (λ y. ThreadTold options number image.now finish.now further y) }
{
    let arrays = image.image().arrays.as_slice();
    let (status, own) = answer(alloc, options.report, options.budget, arrays, finish)?;
    let mut text = Bytes::from_slice(alloc, b"thread ")?;
    put_decimal(&mut text, u64::from(number))?;
    text.push(b'\n')?;
    text.extend(own.as_slice())?;
    text.extend(further.1.as_slice())?;
    Ok((first_undone(status, further.0), Text::built(text)))
}

// What is reported of a thread, where it isn't absent, and of those behind it.
fn before<P: Port>(
    alloc: Global,
    options: RunOptions,
    number: u32,
    image: Option<&Checked>,
    end: &Option<RunEnd<P>>,
    further: (Status, Text),
) -> Result<(Status, Text), NoMemory>
    ensures { IfOk result (BeforeSo options number (option_copied image.entry) end.now further) }
{
    match (image, end) {
        (Some(image), Some(end)) => {
            thread_told(alloc, options, number, image, &end.finish, further)
        }
        _ => Ok(further),
    }
}

// The image of the thread at this place, from 0, where there is one.
fn image_at(images: &[Checked], place: usize) -> Option<&Checked>
    ensures { option_copied result ≡ slice_get images.now place }
{
    if place < images.len() {
        Some(&images[place])
    } else {
        None
    }
}

// What is reported of all threads.
fn told<P: Port>(
    alloc: Global,
    options: RunOptions,
    images: &[Checked],
    ends: &Four<Option<RunEnd<P>>>,
) -> Result<(Status, Text), NoMemory>
    ensures { IfOk result (AllTold options images.now ends.now) }
{
    let told = (Status::Done, Text::built(Bytes::empty(alloc)));
    let told = before(alloc, options, 4, image_at(images, 3), &ends.fourth, told)?;
    let told = before(alloc, options, 3, image_at(images, 2), &ends.third, told)?;
    let told = before(alloc, options, 2, image_at(images, 1), &ends.second, told)?;
    before(alloc, options, 1, image_at(images, 0), &ends.first, told)
}

// The ports of a thread that isn't absent.
fn ports_of<P: Port>(end: Option<RunEnd<P>>) -> Slots<P>
    requires { IsSome end }
    ensures { IfSome end (λ e. result ≡ e.ports) }
{
    match end {
        Some(end) => end.ports,
        None => unreachable!(),
    }
}

/// What is to be written of threads that run these images, each alone on its words, the first with the
/// ports; and the ports.
pub fn all_executed<P: Port + Send, G: Gate, R: Threads + Wait + Sync>(
    rt: &R,
    alloc: Global,
    options: RunOptions,
    images: &[Checked],
    inputs: Vec<Words>,
    ports: Slots<P>,
    gate: &G,
) -> (Result<(Status, Text), NoMemory>, Slots<P>)
    requires told { TellWords (contents P.tells ports) }
    requires open { AllOpen (contents P.tells ports) }
    requires some { 1 ≤ length inputs.items }
    requires few { length inputs.items ≤ most_jobs }
    requires same { length inputs.items ≡ length images.now }
    ensures executes { IfOk result.0 (λ y. (threads : List Thread)
        → images_of threads ≡ images.now → inputs_of threads ≡ inputs.items
        → (statuses : List Status)
        × ThreadsDo (ExecutesAlone options) 1 threads (contents P.tells ports) statuses y.1
        (contents P.tells result.1) × (y.0 ≡ status_of statuses)) }
    ensures begun { OnErr result.0 ((threads : List Thread)
        → images_of threads ≡ images.now → inputs_of threads ≡ inputs.items
        → HaveBegun threads (contents P.tells ports) (contents P.tells result.1)) }
    ensures open { AllOpen (contents P.tells result.1) }
{
    let workers = options.workers.max(1).min(MOST_WORKERS);
    let parts = parts(images, inputs, ports, options.budget);
    let ends = multi_run(rt, alloc, parts, workers, &Unnumbered { gate });
    let answer = told(alloc, options, images, &ends);
    (answer, ports_of(ends.first))
}
