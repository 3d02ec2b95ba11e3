//! What comes of `trace` and `replay`.

ghost use Rattle.std.specs.Prelude.{◌≡◌, ◌+◌, ◌≤◌, length, IfOk, OnOk};
ghost use Rattle.trace_check.specs.Traces.{AllFit};
ghost use Rattle.asm_read.specs.Reads.{world_of};
ghost use Rattle.asm_read.specs.Sections as sections;
ghost use Rattle.asm_read.specs.Assembly.{assembly_limit};
ghost use Rattle.wsc_top.specs.Executions.{EndsRun};
ghost use Rattle.wsc_top.specs.Traced.{IsTraced, IsMade, IsReplayed, HasTrace, EndsReplay, trace_status};
ghost use Rattle.wsc_top.specs.Traced.{traced_text, replayed_text, illegal_text};
ghost use Rattle.std.specs.Prelude.{List, IfErr, IfSome};
ghost use Rattle.trace_check.specs.declared.events.Lined.{Lined};

use crate::status::Status;
use crate::step::StarvedCall;
use asm_read::{AsmRefusal, after_line, asm_refused, world};
use asm_text::{AsmFault, AsmKind, print_asm};
use df_core::Event;
use run_text::{put_firings, put_words};
use src_ast::Place;
use src_lex::place_after;
use std::alloc::Global;
use trace_check::{
    ReplayFault, Replayed, Trace, TraceEnd, put_events, read_trace, replay, trace,
    traces_are_replayed_once,
};
use ws_io::put_decimal;
use ws_isa::Checked;
use ws_words::{Bytes, NoMemory, Words};

/// Where a text begins.
const START: Place = Place { line: 1, column: 1 };

// The status by how events end.
fn status_of(end: TraceEnd) -> Status
    ensures { result ≡ trace_status end }
{
    match end {
        TraceEnd::Rest => Status::Done,
        TraceEnd::Budget => Status::Budget,
        TraceEnd::Fault => Status::Fault,
    }
}

// The text of an image with its input words and events.
fn text_of(
    alloc: Global,
    image: &Checked,
    input: &Words,
    events: &[Event],
) -> Result<Bytes, NoMemory>
    ensures text { IfOk result (λ text. text ≡ traced_text image.now input.now events.now) }
    ensures fit { OnOk result (AllFit events.now) }
{
    let mut text = print_asm(alloc, image.image())?;
    text.extend(b"%input\n")?;
    put_words(&mut text, input)?;
    text.extend(b"%trace\n")?;
    put_events(&mut text, events)?;
    Ok(text)
}

/// The status and the text of a trace of an image on these words.
pub fn traced(
    alloc: Global,
    budget: u64,
    image: &Checked,
    input: Words,
) -> Result<(Status, Bytes), NoMemory>
    ensures told { IfOk result (λ y. IsTraced budget image.now input y.0 y.1) }
    ensures ends { IfOk result (λ y. EndsRun image.now (world_of input) budget y.0) }
{
    let world = world(alloc, input)?;
    let traced = trace(alloc, image, &world, budget)?;
    let text = text_of(alloc, image, &world.input, traced.events.as_slice())?;
    Ok((status_of(traced.end), text))
}

// The answer where an event isn't enabled.
fn illegal(alloc: Global, line: u32) -> Result<Bytes, NoMemory>
    ensures { IfOk result (λ text. text ≡ illegal_text line) }
{
    let mut text = Bytes::from_slice(alloc, b"refused ")?;
    put_decimal(&mut text, u64::from(line))?;
    text.extend(b" illegal\n")?;
    Ok(text)
}

// The answer of a trace that was replayed.
fn told(alloc: Global, replayed: &Replayed) -> Result<Bytes, NoMemory>
    ensures { IfOk result (λ text. text ≡ replayed_text replayed.now) }
{
    let mut text = Bytes::empty(alloc);
    put_words(&mut text, &replayed.printed)?;
    if replayed.rest {
        text.extend(b"rest\n")?;
    } else {
        text.extend(b"open\n")?;
    }
    put_firings(&mut text, replayed.fired)?;
    Ok(text)
}

// What comes of making the events of a trace.
fn made(
    alloc: Global,
    image: &Checked,
    input: Words,
    trace: &Trace,
) -> Result<(Status, Bytes), NoMemory>
    ensures { IfOk result (λ y. IsMade image.now input trace.now y.0 y.1) }
{
    let world = world(alloc, input)?;
    match replay(alloc, image, &world, trace) {
        Ok(replayed) => Ok((Status::Done, told(alloc, &replayed)?)),
        Err(ReplayFault::Illegal { line }) => Ok((Status::Refused, illegal(alloc, line)?)),
        Err(ReplayFault::NoMemory) => Err(NoMemory),
    }
}

// The number of the line at a text's end.
fn last_line(text: &[u8]) -> u32
    requires { length text.now ≤ assembly_limit }
    ensures line { result ≡ sections.last_line text.now }
    ensures within { result ≤ 1 + length text.now }
{
    place_after(START, text).line
}

/// The status and the text of the replay of the trace of a text, which stands in this section, and the image
/// where the text has a trace.
pub fn replayed(
    alloc: Global,
    text: &[u8],
    section: &[u8],
    image: Checked,
    input: Words,
) -> Result<(Status, Bytes, Option<Checked>), StarvedCall>
    requires text { length text.now ≤ assembly_limit }
    requires within { length section.now ≤ length text.now }
    requires section { section.now ≡ sections.trace_section text.now }
    ensures told { IfOk result (λ y. IsReplayed text.now image input y.0 y.1 y.2) }
    ensures ends { IfOk result (λ y. EndsReplay text.now image input y.0) }
    ensures begun { IfErr result (λ starved. IfSome starved.image
        (λ begun. (begun ≡ image) × (trace : List Lined) × HasTrace text.now trace)) }
{
    traces_are_replayed_once();
    let _ = image.image();
    if section.is_empty() {
        let why = AsmRefusal::Text(AsmKind::Line, last_line(text));
        return Ok((Status::Refused, asm_refused(alloc, why)?, None));
    }
    let (front, _) = text.split_at(text.len() - section.len());
    match read_trace(alloc, after_line(section), last_line(front) + 1) {
        Ok(trace) => match made(alloc, &image, input, &trace) {
            Ok((status, text)) => Ok((status, text, Some(image))),
            Err(NoMemory) => Err(StarvedCall { image: Some(image) }),
        },
        Err(AsmFault::Refused { kind, line }) => Ok((
            Status::Refused,
            asm_refused(alloc, AsmRefusal::Text(kind, line))?,
            None,
        )),
        Err(AsmFault::NoMemory) => Err(StarvedCall { image: None }),
    }
}
