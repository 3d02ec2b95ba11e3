//! The run of an image.

ghost use Rattle.std.specs.Prelude.{List, Option};
ghost use Rattle.ws_words.specs.Outside.{World};
ghost use Rattle.port_set.specs.Ports.{Told};
ghost use Rattle.port_set.specs.Slots.{AllOpen, contents};
ghost use Rattle.store_buf.specs.Outdoors.{world_with};
ghost use Rattle.store_buf.specs.Answer.{RunTells};
ghost use Rattle.wsc_top.specs.Executions.{RunAnswered};
ghost use Rattle.wsc_top.specs.Answers.{TellWords};

use crate::run_texts::answer;
use crate::status::Status;
use crate::task::RunOptions;
use crate::text::Text;
use fire_crew::{Crew, Gate};
use part_store::part_image;
use port_set::{Port, Slots};
use std::alloc::Global;
use std::sync::Wait;
use std::thread::Threads;
use store_buf::RunEnd;
use ws_isa::Checked;
use ws_words::{NoMemory, Words};

// A line has from 1 to 8 workers.
const MOST_WORKERS: u32 = 8;

/// What is to be written of the run of an image on these words with these ports, by a crew or with
/// decoupled stores, and the ports.
pub fn executed<P: Port + Send, G: Gate, R: Threads + Wait + Sync>(
    rt: &R,
    alloc: Global,
    options: RunOptions,
    image: &Checked,
    input: Words,
    ports: Slots<P>,
    gate: &G,
) -> (Result<(Status, Text), NoMemory>, Slots<P>)
    requires told { TellWords (contents P.tells ports) }
    requires open { AllOpen (contents P.tells ports) }
    ensures answered { RunAnswered options image.now (world_with input (contents P.tells ports))
        (contents P.tells ports) result.0 (contents P.tells result.1) }
    ensures open { AllOpen (contents P.tells result.1) }
{
    if options.decoupled {
        return decoupled(alloc, options, image, input, ports);
    }
    crewed(rt, alloc, options, image, input, ports, gate)
}

// The same by a crew.
fn crewed<P: Port + Send, G: Gate, R: Threads + Wait + Sync>(
    rt: &R,
    alloc: Global,
    options: RunOptions,
    image: &Checked,
    input: Words,
    ports: Slots<P>,
    gate: &G,
) -> (Result<(Status, Text), NoMemory>, Slots<P>)
    requires told { TellWords (contents P.tells ports) }
    requires open { AllOpen (contents P.tells ports) }
    ensures answered { RunAnswered options image.now (world_with input (contents P.tells ports))
        (contents P.tells ports) result.0 (contents P.tells result.1) }
    ensures open { AllOpen (contents P.tells result.1) }
{
    let workers = options.workers.max(1).min(MOST_WORKERS);
    let budget = options.budget;
    let crew = Crew {
        rt,
        alloc,
        gate,
        workers,
        budget,
    };
    let end = crew.run_image(image, input, ports);
    reply(alloc, options, image, end)
}

/// The same with decoupled stores. It starts no thread and never waits.
pub fn decoupled<P: Port>(
    alloc: Global,
    options: RunOptions,
    image: &Checked,
    input: Words,
    ports: Slots<P>,
) -> (Result<(Status, Text), NoMemory>, Slots<P>)
    requires told { TellWords (contents P.tells ports) }
    requires open { AllOpen (contents P.tells ports) }
    ensures answered { RunAnswered options image.now (world_with input (contents P.tells ports))
        (contents P.tells ports) result.0 (contents P.tells result.1) }
    ensures open { AllOpen (contents P.tells result.1) }
{
    let end = part_image(alloc, image, input, ports, options.budget);
    reply(alloc, options, image, end)
}

// What is to be written of the run of an image that has ended so, and the ports.
fn reply<P: Port>(
    alloc: Global,
    options: RunOptions,
    image: &Checked,
    end: RunEnd<P>,
) -> (Result<(Status, Text), NoMemory>, Slots<P>)
    requires open { AllOpen (contents P.tells end.ports) }
    ensures answered { (world : World) (handed : List (Option Told)) → RunTells image.now world handed
        options.budget end.finish (contents P.tells end.ports) →
        RunAnswered options image.now world handed result.0 (contents P.tells result.1) }
    ensures open { AllOpen (contents P.tells result.1) }
{
    let RunEnd { finish, ports } = end;
    let arrays = image.image().arrays.as_slice();
    let answer = answer(alloc, options.report, options.budget, arrays, &finish);
    (answer, ports)
}
