//! The call of the program.

ghost use Rattle.std.specs.Prelude.{List, Option, ℕ, map, string_bytes};
ghost use Rattle.port_set.specs.Ports.{Told};
ghost use Rattle.port_set.specs.Slots.{AllOpen, contents};
ghost use Rattle.wsc_top.specs.Answers.{TellWords};
ghost use Rattle.wsc_top.specs.Calls.{CallEnds, IsReply};
ghost use Rattle.asm_read.specs.Reads.{SourceCall, reading};
ghost use Rattle.run_text.specs.Writes.{writing};

use crate::answer::prepare;
use crate::batch::ReadJobs;
use crate::exec::executed;
use crate::laws::{each_answer_has_its_status, each_run_ends_as_its_walk, what_is_due_is_answered};
use crate::multi::all_executed;
use crate::multi_laws::{
    each_answer_of_threads_has_its_status, threads_end_as_their_walks, what_threads_do_is_answered,
};
use crate::status::{Outcome, Status};
use crate::step::{CallStep, StarvedCall};
use crate::text::Text;
use fire_crew::Gate;
use port_set::{Port, Slots};
use std::alloc::Global;
use std::sync::Wait;
use std::thread::Threads;
use ws_io::{Sink, Source, write_all};
use ws_isa::Checked;
use ws_words::NoMemory;
use wsc_words::words_are_one_line;

/// One call of the program: from the command-line arguments, without the program's own name, and
/// what the source gives, to what the sink takes. A run gives to the ports and takes from them, and its
/// workers call the gate before they bring a token.
pub fn wsc<S: Source, K: Sink, P: Port + Send, G: Gate, R: Threads + Wait + Sync>(
    rt: &R,
    alloc: Global,
    words: &[String],
    source: &mut S,
    sink: &mut K,
    ports: Slots<P>,
    gate: &G,
) -> Outcome<P>
    // Each port reports the words that it has left, and none is closed.
    requires told { TellWords (contents P.tells ports) }
    requires open { AllOpen (contents P.tells ports) }

    ensures ends { CallEnds (map string_bytes words.now) (reading S.left S.faults source.old source.new)
        (writing K.held K.flushed K.faults sink.old sink.new) (contents P.tells ports) result.status
        result.image result.threads.items (contents P.tells result.ports) }
    ensures open { AllOpen (contents P.tells result.ports) }
{
    what_is_due_is_answered();
    what_threads_do_is_answered();
    match prepare(alloc, words, source) {
        Ok(CallStep::Ready(status, text, image)) => {
            written(sink, Ok((status, text)), image, Vec::new(alloc), ports)
        }
        Ok(CallStep::Run(options, image, input)) => {
            let (answer, ports) = executed(rt, alloc, options, &image, input, ports, gate);
            written(sink, answer, Some(image), Vec::new(alloc), ports)
        }
        Ok(CallStep::Threads(options, jobs)) => {
            let ReadJobs { images, inputs } = jobs;
            let (answer, ports) = all_executed(
                rt,
                alloc,
                options,
                images.as_slice(),
                inputs,
                ports,
                gate,
            );
            written(sink, answer, None, images, ports)
        }
        Err(StarvedCall { image }) => {
            written(sink, Err(NoMemory), image, Vec::new(alloc), ports)
        }
    }
}

// How a call ends of which this is to be written, with its images and ports: writes it.
fn written<K: Sink, P: Port>(
    sink: &mut K,
    answer: Result<(Status, Text), NoMemory>,
    image: Option<Checked>,
    threads: Vec<Checked>,
    ports: Slots<P>,
) -> Outcome<P>
    requires open { AllOpen (contents P.tells ports) }
    ensures ends { (words : List (List ℕ)) (reads : SourceCall) (handed : List (Option Told))
        → TellWords handed
        → IsReply words reads handed answer image threads.items (contents P.tells ports)
        → CallEnds words reads (writing K.held K.flushed K.faults sink.old sink.new) handed result.status
        result.image result.threads.items (contents P.tells result.ports) }
    ensures open { AllOpen (contents P.tells result.ports) }
{
    words_are_one_line();
    each_answer_has_its_status();
    each_answer_of_threads_has_its_status();
    each_run_ends_as_its_walk();
    threads_end_as_their_walks();
    match answer {
        Ok((status, text)) => match write_all(sink, text.as_slice()) {
            Ok(()) => Outcome {
                status,
                image,
                threads,
                ports,
            },
            Err(_) => Outcome {
                status: Status::WriteFault,
                image,
                threads,
                ports,
            },
        },
        Err(NoMemory) => Outcome {
            status: Status::NoMemory,
            image,
            threads,
            ports,
        },
    }
}
