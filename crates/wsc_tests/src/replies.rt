//! Calls over memory, and what is compared of what they answer.

ghost use Rattle.std.specs.Prelude.{◌<◌, IfOk};
ghost use Rattle.std.specs.List.{AllByRecursion};
ghost use Rattle.ws_words.specs.Outside.{IsMachineWord};
ghost use Rattle.port_set.specs.Slots.{AllOpen, IsOpen, contents, told};
ghost use Rattle.port_set.specs.Tape.{tape_tells};
ghost use Rattle.store_buf.specs.Outdoors.{left_at};
ghost use Rattle.wsc_top.specs.Answers.{TellWords};

use fire_crew::{Free, Gate};
use port_set::{Port, Slots, TapePort};
use std::alloc::Global;
use std::sync::Wait;
use std::thread::Threads;
use ws_io::{MemSink, MemSource, Sink, Source};
use ws_isa::Checked;
use ws_words::{Bytes, NoMemory, Words};
use wsc_top::{Outcome, Status, wsc};

// The items of a slice are words.
fn are_words(words: &[u64])
    ensures { AllByRecursion IsMachineWord words.now }
{}

// What a tape in a slot has left are words.
fn slot_has_words(slot: &Option<TapePort>)
    ensures { AllByRecursion IsMachineWord (left_at (told tape_tells slot.now)) }
{
    if let Some(tape) = slot {
        are_words(tape.left());
    }
}

// What tapes report are words.
fn tell_words(ports: &Slots<TapePort>)
    ensures { TellWords (contents tape_tells ports.now) }
{
    slot_has_words(&ports.first);
    slot_has_words(&ports.second);
    slot_has_words(&ports.third);
    slot_has_words(&ports.fourth);
    slot_has_words(&ports.fifth);
    slot_has_words(&ports.sixth);
    slot_has_words(&ports.seventh);
}

// Where no tape is closed, one after the other, none is closed at any place.
fn are_open(ports: &Slots<TapePort>)
    requires { AllByRecursion IsOpen (contents tape_tells ports.now) }
    ensures { AllOpen (contents tape_tells ports.now) }
{}

// And in the other direction.
fn stay_open(ports: &Slots<TapePort>)
    requires { AllOpen (contents tape_tells ports.now) }
    ensures { AllByRecursion IsOpen (contents tape_tells ports.now) }
{}

// What is asked of the program: its words, which spaces separate, what it reads, and what is to go out.
#[derive(Clone, Copy)]
pub struct AskedCall<'a> {
    pub line: &'a str,
    pub text: &'a [u8],
    pub wanted: &'a str,
}

// How many bytes a call of the source or the sink moves, and which of their calls fail.
#[derive(Clone, Copy)]
pub struct ReplyEnds {
    pub piece: usize,
    pub read_fault: u64,
    pub write_fault: u64,
}

// Nothing fails, since calls are counted from 1.
pub const SOUND: ReplyEnds = ReplyEnds {
    piece: 100_000,
    read_fault: 0,
    write_fault: 0,
};

// What a call answers, as plain data: whether what is wanted went out, how it ended, how many bytes were
// flushed and were left to read, whether an image came back, and how many of threads.
#[derive(Clone, Copy)]
pub struct CallReply {
    pub said: bool,
    pub status: Status,
    pub flushed: usize,
    pub left: usize,
    pub image: bool,
    pub threads: usize,
}

impl CallReply {
    // Whether what is wanted went out, with this status.
    pub fn is(&self, status: Status) -> bool {
        self.said && self.status == status
    }

    // The same with this status code.
    pub fn has(&self, code: u8) -> bool {
        self.said && self.status.code() == code
    }
}

// The arguments of a command line.
fn words_of(alloc: Global, line: &str) -> Result<Vec<String>, NoMemory> {
    let mut words = Vec::new(alloc);
    for word in line.split(' ') {
        words.push(String::from_str(alloc, word)?)?;
    }
    Ok(words)
}

fn source_of(alloc: Global, text: &[u8], ends: ReplyEnds) -> Result<MemSource, NoMemory>
    requires { 0 < ends.piece }
{
    let faults = Words::from_slice(alloc, &[ends.read_fault])?;
    let bytes = Bytes::from_slice(alloc, text)?;
    Ok(MemSource::new(bytes, ends.piece, faults))
}

fn sink_of(alloc: Global, ends: ReplyEnds) -> Result<MemSink, NoMemory>
    requires { 0 < ends.piece }
{
    let faults = Words::from_slice(alloc, &[ends.write_fault])?;
    Ok(MemSink::new(alloc, ends.piece, faults)?)
}

// The words of a call, what it reads, and where it writes.
#[derive(Drop)]
struct Memory {
    words: Vec<String>,
    source: MemSource,
    sink: MemSink,
}

fn prepared(alloc: Global, asked: AskedCall<'_>, ends: ReplyEnds) -> Result<Memory, NoMemory>
    requires { 0 < ends.piece }
{
    let words = words_of(alloc, asked.line)?;
    let source = source_of(alloc, asked.text, ends)?;
    let sink = sink_of(alloc, ends)?;
    Ok(Memory {
        words,
        source,
        sink,
    })
}

// The call of the program, of which no more is said than that no port is closed.
fn brief<S: Source, K: Sink, P: Port + Send, G: Gate, R: Threads + Wait + Sync>(
    rt: &R,
    alloc: Global,
    words: &[String],
    source: &mut S,
    sink: &mut K,
    ports: Slots<P>,
    gate: &G,
) -> Outcome<P>
    requires told { TellWords (contents P.tells ports) }
    requires open { AllOpen (contents P.tells ports) }
    ensures { AllOpen (contents P.tells result.ports) }
{
    wsc(rt, alloc, words, source, sink, ports, gate)
}

// What a call gives back, and its reply.
fn heard<P: Port + Send, G: Gate, R: Threads + Wait + Sync>(
    rt: &R,
    alloc: Global,
    memory: &mut Memory,
    wanted: &str,
    ports: Slots<P>,
    gate: &G,
) -> (CallReply, Outcome<P>)
    requires told { TellWords (contents P.tells ports) }
    requires open { AllOpen (contents P.tells ports) }
    ensures { AllOpen (contents P.tells result.1.ports) }
{
    let Memory {
        words,
        source,
        sink,
    } = memory;
    let outcome = brief(rt, alloc, words, source, sink, ports, gate);
    let reply = CallReply {
        said: sink.held() == wanted.as_bytes(),
        status: outcome.status,
        flushed: sink.flushed(),
        left: source.left().len(),
        image: outcome.image.is_some(),
        threads: outcome.threads.len(),
    };
    (reply, outcome)
}

// The same for what is asked.
fn outcome_of<P: Port + Send, G: Gate, R: Threads + Wait + Sync>(
    rt: &R,
    alloc: Global,
    asked: AskedCall<'_>,
    ends: ReplyEnds,
    ports: Slots<P>,
    gate: &G,
) -> Result<(CallReply, Outcome<P>), NoMemory>
    requires piece { 0 < ends.piece }
    requires told { TellWords (contents P.tells ports) }
    requires open { AllOpen (contents P.tells ports) }
    ensures { IfOk result (λ answer. AllOpen (contents P.tells answer.1.ports)) }
{
    let mut memory = prepared(alloc, asked, ends)?;
    Ok(heard(rt, alloc, &mut memory, asked.wanted, ports, gate))
}

// The answer of a call with these ports, and the ports that it hands back.
pub fn call_with_any<P: Port + Send, G: Gate, R: Threads + Wait + Sync>(
    rt: &R,
    alloc: Global,
    asked: AskedCall<'_>,
    ends: ReplyEnds,
    ports: Slots<P>,
    gate: &G,
) -> Result<(CallReply, Slots<P>), NoMemory>
    requires piece { 0 < ends.piece }
    requires told { TellWords (contents P.tells ports) }
    requires open { AllOpen (contents P.tells ports) }
    ensures { IfOk result (λ answer. AllOpen (contents P.tells answer.1)) }
{
    let (reply, outcome) = outcome_of(rt, alloc, asked, ends, ports, gate)?;
    Ok((reply, outcome.ports))
}

// The same with tapes, whose words are known to be words, where no call of the source or the sink fails.
pub fn call_with<R: Threads + Wait + Sync>(
    rt: &R,
    alloc: Global,
    asked: AskedCall<'_>,
    ports: Slots<TapePort>,
) -> Result<(CallReply, Slots<TapePort>), NoMemory>
    requires { AllByRecursion IsOpen (contents tape_tells ports) }
    ensures { IfOk result (λ answer. AllByRecursion IsOpen (contents tape_tells answer.1)) }
{
    tell_words(&ports);
    are_open(&ports);
    let (reply, ports) = call_with_any(rt, alloc, asked, SOUND, ports, &Free)?;
    stay_open(&ports);
    Ok((reply, ports))
}

// No ports.
fn no_ports() -> Slots<TapePort>
    ensures told { TellWords (contents tape_tells result) }
    ensures open { AllOpen (contents tape_tells result) }
{
    let ports = Slots::none();
    tell_words(&ports);
    are_open(&ports);
    ports
}

// The answer of a call without ports.
pub fn call<G: Gate, R: Threads + Wait + Sync>(
    rt: &R,
    alloc: Global,
    asked: AskedCall<'_>,
    ends: ReplyEnds,
    gate: &G,
) -> Result<CallReply, NoMemory>
    requires { 0 < ends.piece }
{
    let (reply, _) = call_with_any(rt, alloc, asked, ends, no_ports(), gate)?;
    Ok(reply)
}

// The image that a call without ports hands back.
pub fn image_of<G: Gate, R: Threads + Wait + Sync>(
    rt: &R,
    alloc: Global,
    asked: AskedCall<'_>,
    gate: &G,
) -> Result<Option<Checked>, NoMemory> {
    let (_, outcome) = outcome_of(rt, alloc, asked, SOUND, no_ports(), gate)?;
    Ok(outcome.image)
}
