//! Printing one line: of an array, of a pad, of an instruction, or of an exit.

ghost use Rattle.std.specs.Prelude.{◌≡◌, OnOk};
ghost use Rattle.ws_isa.specs.View as view;
ghost use Rattle.asm_text.specs.Printed as spec;
ghost use Rattle.asm_text.specs.Words.{number_in};
ghost use Rattle.asm_text.specs.Printed.{seen, put, puts, end_line};

use crate::instruction::{is_giving, is_steer};
use crate::lexeme::Mark;
use crate::words::{number_in, op_word};
use crate::writer::Writer;
use ws_isa::{ArrayDecl, Dest, Exit, Instr, Link, Note, Op, Pad};
use ws_words::NoMemory;

#[tactic(auto, using(crate::proofs::Scanning::Walks::walks))]
fn dests(out: &mut Writer, dests: &[Dest]) -> Result<(), NoMemory>
    ensures { OnOk result (seen out.new ≡ puts (seen out.old) (spec.dest_lexemes dests.now)) }
{
    for dest in dests {
        out.number(u64::from(dest.instr))?;
        out.mark(Mark::Dot)?;
        out.number(u64::from(dest.port))?;
    }
    Ok(())
}

#[tactic(auto, using(crate::proofs::Scanning::Walks::walks))]
fn numbers(out: &mut Writer, numbers: &[u32]) -> Result<(), NoMemory>
    ensures { OnOk result (seen out.new ≡ puts (seen out.old) (spec.numbers numbers.now)) }
{
    for number in numbers {
        out.number(u64::from(*number))?;
    }
    Ok(())
}

fn link(out: &mut Writer, link: Link) -> Result<(), NoMemory>
    ensures { OnOk result (seen out.new ≡ put (seen out.old) (spec.link_lexeme link)) }
{
    match link {
        Link::Unknown => out.mark(Mark::Query),
        Link::Nothing => out.mark(Mark::Dot),
        Link::Is(n) => out.number(u64::from(n)),
    }
}

#[tactic(auto, unfolding(crate::specs::Printed::note_lexemes, crate::specs::Printed::puts))]
pub(crate) fn note(out: &mut Writer, note: Option<Note>) -> Result<(), NoMemory>
    ensures { OnOk result (seen out.new ≡ puts (seen out.old) (spec.note_lexemes note)) }
{
    let Some(note) = note else {
        return Ok(());
    };
    out.mark(Mark::Less)?;
    link(out, note.pred)?;
    out.mark(Mark::Comma)?;
    out.number(u64::from(note.seq))?;
    out.mark(Mark::Comma)?;
    link(out, note.succ)?;
    out.mark(Mark::More)?;
    out.mark(Mark::Dot)?;
    out.number(u64::from(note.ripple))
}

#[tactic(auto, using(crate::proofs::Scanning::Puts::appends), unfolding(crate::specs::Printed::list_lexemes, crate::specs::Printed::puts))]
fn lists(out: &mut Writer, instr: &Instr) -> Result<(), NoMemory>
    ensures { OnOk result (seen out.new ≡
        puts (seen out.old)
        (spec.list_lexemes instr.now.op instr.now.dests.items instr.now.others.items)) }
{
    if is_steer(instr.op) {
        out.mark(Mark::Arrow)?;
        dests(out, &instr.dests)?;
        out.mark(Mark::Bar)?;
        dests(out, &instr.others)
    } else if is_giving(instr.op) {
        out.mark(Mark::Arrow)?;
        dests(out, &instr.dests)
    } else {
        Ok(())
    }
}

#[tactic(auto, unfolding(crate::specs::Printed::puts))]
pub(crate) fn op(out: &mut Writer, op: Op) -> Result<(), NoMemory>
    ensures { OnOk result (seen out.new ≡ puts (seen out.old) (spec.op_lexemes op)) }
{
    out.word(op_word(op))?;
    op_number(out, op)
}

#[tactic(auto, unfolding(crate::specs::Printed::puts))]
fn op_number(out: &mut Writer, op: Op) -> Result<(), NoMemory>
    ensures { OnOk result (seen out.new ≡
        puts (seen out.old) (spec.number_lexemes (number_in op))) }
{
    match number_in(op) {
        Some(n) => out.number(n),
        None => Ok(()),
    }
}

#[tactic(auto, using(crate::proofs::Scanning::Puts::appends), unfolding(crate::specs::Printed::instr_lexemes, crate::specs::Printed::puts))]
pub(crate) fn instr_line(out: &mut Writer, number: u64, instr: &Instr) -> Result<(), NoMemory>
    ensures { OnOk result (seen out.new ≡
        end_line (puts (seen out.old) (spec.instr_lexemes number (view.instr instr.now)))) }
{
    out.number(number)?;
    out.mark(Mark::Colon)?;
    op(out, instr.op)?;
    note(out, instr.note)?;
    lists(out, instr)?;
    out.end_line()
}

#[tactic(auto, unfolding(crate::specs::Printed::pad_lexemes, crate::specs::Printed::puts))]
pub(crate) fn pad_line(out: &mut Writer, pad: &Pad) -> Result<(), NoMemory>
    ensures { OnOk result (seen out.new ≡
        end_line (puts (seen out.old) (spec.pad_lexemes (view.pad pad.now)))) }
{
    out.word(b"pad")?;
    out.number(u64::from(pad.number))?;
    dests(out, &pad.dests)?;
    out.end_line()
}

#[tactic(auto, unfolding(crate::specs::Printed::exit_lexemes, crate::specs::Printed::puts))]
pub(crate) fn exit(out: &mut Writer, exit: &Exit) -> Result<(), NoMemory>
    ensures { OnOk result (seen out.new ≡
        puts (seen out.old) (spec.exit_lexemes (view.exit exit.now))) }
{
    match exit {
        Exit::Goto(b) => {
            out.word(b"go")?;
            out.number(u64::from(*b))
        }
        Exit::Branch(s, b, c) => {
            out.word(b"if")?;
            out.number(u64::from(*s))?;
            out.number(u64::from(*b))?;
            out.number(u64::from(*c))
        }
        Exit::Send(s, landings) => {
            out.word(b"send")?;
            out.number(u64::from(*s))?;
            numbers(out, landings)
        }
        Exit::Stop => out.word(b"stop"),
    }
}

#[tactic(auto, unfolding(crate::specs::Printed::puts))]
pub(crate) fn numbered_line(out: &mut Writer, word: &[u8], number: u64) -> Result<(), NoMemory>
    ensures { OnOk result (seen out.new ≡
        end_line (puts (seen out.old) (spec.numbered word.now number))) }
{
    out.word(word)?;
    out.number(number)?;
    out.end_line()
}

#[tactic(auto, unfolding(crate::specs::Printed::array_lexemes, crate::specs::Printed::puts))]
pub(crate) fn array_line(out: &mut Writer, array: &ArrayDecl) -> Result<(), NoMemory>
    ensures { OnOk result (seen out.new ≡
        end_line (puts (seen out.old) (spec.array_lexemes (view.array array.now)))) }
{
    match &array.name {
        None => out.word(b"hidden")?,
        Some(name) => {
            out.word(b"array")?;
            out.word(name.as_slice())?;
        }
    }
    out.number(u64::from(array.length))?;
    out.end_line()
}
