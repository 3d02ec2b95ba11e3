//! Reading a trace.

ghost use Rattle.std.specs.Prelude.{◌≡◌, ◌+◌, ◌<◌, ◌^◌, ◌==◌, ◌++◌, count_by, OnOk, IfErr};
ghost use Rattle.asm_text.specs.declared.fault.AsmFault.TheVariants.{NoMemory};
ghost use Rattle.asm_text.specs.Building.{Makes};
ghost use Rattle.asm_text.specs.Reading.{Reads, fault_of};
ghost use Rattle.trace_check.specs.Traces as spec;

use crate::events::{Lined, Trace};
use asm_text::{AsmFault, AsmKind, Lexeme, Stop, cut, in_byte, in_word, lexed};
use df_core::Event;
use std::alloc::Global;

// The event that lexemes spell.
#[tactic(auto, unfolding(crate::specs::Traces::event_of))]
fn event_of(lexemes: &[Lexeme]) -> Option<Event>
    ensures { result ≡ spec.event_of lexemes.now }
{
    match lexemes {
        [
            Lexeme::Word(word),
            Lexeme::Number(wave),
            Lexeme::Number(instr),
            Lexeme::Number(port),
        ] if word.as_slice() == b"match".as_slice() => Some(Event::Match {
            wave: *wave,
            instr: in_word(*instr),
            port: in_byte(*port),
        }),
        [
            Lexeme::Word(word),
            Lexeme::Number(wave),
            Lexeme::Number(instr),
        ] if word.as_slice() == b"issue".as_slice() => {
            Some(Event::Issue {
                wave: *wave,
                instr: in_word(*instr),
            })
        }
        _ => None,
    }
}

// What a line says: an event, nothing, or what is wrong with it.
#[tactic(auto, unfolding(crate::specs::Traces::said))]
fn said(alloc: Global, line: &[u8]) -> Result<Option<Event>, Stop>
    ensures { Makes (λ event. event) result (spec.said line.now) }
{
    let Some(lexed) = lexed(alloc, line)? else {
        return Err(Stop::Refused(AsmKind::Line));
    };
    if lexed.items.is_empty() {
        return Ok(None);
    }
    match event_of(&lexed.items) {
        None => Err(Stop::Refused(AsmKind::Line)),
        Some(_) if lexed.wide => Err(Stop::Refused(AsmKind::Number)),
        Some(event) => Ok(Some(event)),
    }
}

// Puts the event of a line at the end, where it says one.
fn add(trace: &mut Trace, event: Option<Event>, line: u32) -> Result<(), AsmFault>
    ensures added { OnOk result (trace.new ≡ trace.old ++ spec.at_line line event) }
    ensures memory { IfErr result (λ fault. fault ≡ NoMemory) }
{
    let Some(event) = event else {
        return Ok(());
    };
    match trace.push(Lined { event, line }) {
        Ok(()) => Ok(()),
        Err(_) => Err(AsmFault::NoMemory),
    }
}

fn on_line(stop: Stop, line: u32) -> AsmFault
    ensures { result ≡ fault_of stop line }
{
    match stop {
        Stop::Memory => AsmFault::NoMemory,
        Stop::Refused(kind) => AsmFault::Refused { kind, line },
    }
}

/// The events of a text whose first line has this number, each with its line; or the first line
/// that spells none, or that has a number of 2^64 or more.
pub fn read_trace(alloc: Global, text: &[u8], first_line: u32) -> Result<Trace, AsmFault>
    requires { first_line + count_by (λ b. b == 10) text.now < 2 ^ 32 }
    ensures { Reads (λ events. events) result (spec.events_in first_line text.now) }
{
    let mut trace = Trace::empty(alloc);
    let mut rest = text;
    let mut line = first_line;
    'lines: loop {
        let (front, behind) = cut(rest);
        match said(alloc, front) {
            Err(stop) => return Err(on_line(stop, line)),
            Ok(event) => {
                add(&mut trace, event, line)?;
                match behind {
                    Some(more) => {
                        rest = more;
                        line += 1;
                    }
                    None => return Ok(trace),
                }
            }
        }
    }
}
