//! Writing events.

ghost use Rattle.std.specs.Prelude.{◌≡◌, ◌∷◌, ◌++◌, decimal, OnOk};
ghost use Rattle.asm_text.specs.Printed.{line_text};
ghost use Rattle.df_core.specs.declared.engine.Event.TheVariants as of_event;
ghost use Rattle.trace_check.specs.Traces.{lexemes_of, event_line, events_text, Fits, AllFit};

use df_core::Event;
use ws_io::put_decimal;
use ws_words::{Bytes, NoMemory};

// Puts a space and a number behind a text.
fn put_number(text: &mut Bytes, number: u64) -> Result<(), NoMemory>
    ensures { OnOk result (text.new ≡ text.old ++ 32 ∷ decimal number) }
{
    text.push(b' ')?;
    put_decimal(text, number)
}

// Puts the line of a match behind a text.
#[tactic(auto, unfolding(asm_text::specs::Printed::text_of, crate::specs::Traces::lexemes_of))]
fn put_match(text: &mut Bytes, wave: u64, instr: u32, port: u8) -> Result<(), NoMemory>
    ensures text { OnOk result
        (text.new ≡ text.old ++ line_text (lexemes_of (of_event.Match wave instr port))) }
    ensures fit { Fits (of_event.Match wave instr port) }
{
    text.extend(b"match")?;
    put_number(text, wave)?;
    put_number(text, u64::from(instr))?;
    put_number(text, u64::from(port))?;
    text.push(b'\n')
}

// Puts the line of an issue behind a text.
#[tactic(auto, unfolding(asm_text::specs::Printed::text_of, crate::specs::Traces::lexemes_of))]
fn put_issue(text: &mut Bytes, wave: u64, instr: u32) -> Result<(), NoMemory>
    ensures text { OnOk result
        (text.new ≡ text.old ++ line_text (lexemes_of (of_event.Issue wave instr))) }
    ensures fit { Fits (of_event.Issue wave instr) }
{
    text.extend(b"issue")?;
    put_number(text, wave)?;
    put_number(text, u64::from(instr))?;
    text.push(b'\n')
}

// Puts the line of an event behind a text.
fn put_event(text: &mut Bytes, event: Event) -> Result<(), NoMemory>
    ensures text { OnOk result (text.new ≡ text.old ++ event_line event) }
    ensures fit { Fits event }
{
    match event {
        Event::Match { wave, instr, port } => put_match(text, wave, instr, port),
        Event::Issue { wave, instr } => put_issue(text, wave, instr),
    }
}

/// Puts a line for each event behind a text. Their numbers are within their fields.
pub fn put_events(text: &mut Bytes, events: &[Event]) -> Result<(), NoMemory>
    ensures text { OnOk result (text.new ≡ text.old ++ events_text events.now) }
    ensures fit { OnOk result (AllFit events.now) }
{
    for event in events {
        put_event(text, *event)?;
    }
    Ok(())
}
