//! The line of an instruction: its operation, its memory annotation and its lists.

ghost use Rattle.std.specs.Prelude.{◌≡◌, Some};
ghost use Rattle.ws_isa.specs.Image.{is_memory_op, is_giving_op, is_steer_op};
ghost use Rattle.asm_text.specs.Gives.{Gives};
ghost use Rattle.asm_text.specs.Forms as spec;

use crate::lexeme::{Lexeme, Mark};
use crate::line::{InstrLine, Label, Line, Targets};
use crate::miss::Miss;
use crate::parts::{done, expect, note, number, targets, word};
use crate::words::{has_number, op_of, with_number};
use std::alloc::Global;
use ws_isa::{Note, Op};

#[tactic(auto, unfolding(crate::specs::Forms::op_at))]
fn op(lexemes: &[Lexeme]) -> Result<(Op, &[Lexeme]), Miss>
    ensures { Gives (λ x. (x.0, x.1.now)) result (spec.op_at lexemes.now) }
{
    let (word, rest) = word(lexemes)?;
    let Some(op) = op_of(word.as_slice()) else {
        return Err(Miss::Form);
    };
    if !has_number(op) {
        return Ok((op, rest));
    }
    let (n, rest) = number(rest)?;
    Ok((with_number(op, n), rest))
}

fn is_memory(op: Op) -> bool
    ensures { result ≡ is_memory_op op }
{
    matches!(
        op,
        Op::Load(_)
            | Op::Store(_)
            | Op::Input
            | Op::Output
            | Op::Give(_)
            | Op::Take(_)
            | Op::Nop
            | Op::Halt
    )
}

pub(crate) fn is_steer(op: Op) -> bool
    ensures { result ≡ is_steer_op op }
{
    matches!(op, Op::Steer)
}

pub(crate) fn is_giving(op: Op) -> bool
    ensures { result ≡ is_giving_op op }
{
    !matches!(
        op,
        Op::Steer | Op::Send(_) | Op::Store(_) | Op::Output | Op::Take(_) | Op::Nop | Op::Halt
    )
}

#[tactic(auto, unfolding(crate::specs::Forms::noted))]
fn noted(op: Op, lexemes: &[Lexeme]) -> Result<((Option<Note>, bool), &[Lexeme]), Miss>
    ensures { Gives (λ x. (x.0, x.1.now)) result (spec.noted op lexemes.now) }
{
    if !is_memory(op) {
        return Ok(((None, true), lexemes));
    }
    let ((note, fits), rest) = note(lexemes)?;
    Ok(((Some(note), fits), rest))
}

pub(crate) type Lists = (Targets, Targets);

#[tactic(auto, unfolding(crate::specs::Forms::lists_at))]
fn lists(alloc: Global, op: Op, lexemes: &[Lexeme]) -> Result<Lists, Miss>
    ensures { Gives (λ x. x) result (spec.lists_at op lexemes.now) }
{
    if is_steer(op) {
        let rest = expect(lexemes, Mark::Arrow)?;
        let (dests, rest) = targets(alloc, rest)?;
        let rest = expect(rest, Mark::Bar)?;
        let (others, rest) = targets(alloc, rest)?;
        done(rest)?;
        Ok((dests, others))
    } else if is_giving(op) {
        let rest = expect(lexemes, Mark::Arrow)?;
        let (dests, rest) = targets(alloc, rest)?;
        done(rest)?;
        Ok((dests, Targets::empty(alloc)))
    } else {
        done(lexemes)?;
        Ok((Targets::empty(alloc), Targets::empty(alloc)))
    }
}

#[tactic(auto, unfolding(crate::specs::Forms::instr_line))]
pub(crate) fn instr_line(alloc: Global, own: Label, lexemes: &[Lexeme]) -> Result<Line, Miss>
    ensures { Gives (λ x. x) result (spec.instr_line own lexemes.now) }
{
    let (op, rest) = op(lexemes)?;
    let ((note, fits), rest) = noted(op, rest)?;
    let (dests, others) = lists(alloc, op, rest)?;
    Ok(Line::Instr(InstrLine {
        own,
        op,
        note,
        fits,
        dests,
        others,
    }))
}
