//! The parts of a line: marks, numbers, words, references, destinations and memory annotations.

ghost use Rattle.std.specs.Prelude.{◌≡◌, Some};
ghost use Rattle.asm_text.specs.Gives.{Gives};
ghost use Rattle.asm_text.specs.Forms as spec;

use crate::instruction::Lists;
use crate::lexeme::{Lexeme, Mark};
use crate::line::{Label, Labels, Target, Targets};
use crate::miss::Miss;
use crate::words::{in_byte, in_word};
use std::alloc::Global;
use ws_isa::{Link, Note};
use ws_words::Bytes;

// What stands behind this mark.
#[tactic(auto, unfolding(crate::specs::Forms::expect))]
pub(crate) fn expect(lexemes: &[Lexeme], mark: Mark) -> Result<&[Lexeme], Miss>
    ensures { Gives (λ x. x.now) result (spec.expect mark lexemes.now) }
{
    match lexemes {
        [Lexeme::Mark(m), rest @ ..] if *m == mark => Ok(rest),
        _ => Err(Miss::Form),
    }
}

#[tactic(auto, unfolding(crate::specs::Forms::number_at))]
pub(crate) fn number(lexemes: &[Lexeme]) -> Result<(u64, &[Lexeme]), Miss>
    ensures { Gives (λ x. (x.0, x.1.now)) result (spec.number_at lexemes.now) }
{
    match lexemes {
        [Lexeme::Number(n), rest @ ..] => Ok((*n, rest)),
        _ => Err(Miss::Form),
    }
}

#[tactic(auto, unfolding(crate::specs::Forms::word_at))]
pub(crate) fn word(lexemes: &[Lexeme]) -> Result<(&Bytes, &[Lexeme]), Miss>
    ensures { Gives (λ x. (x.0.now, x.1.now)) result (spec.word_at lexemes.now) }
{
    match lexemes {
        [Lexeme::Word(w), rest @ ..] => Ok((w, rest)),
        _ => Err(Miss::Form),
    }
}

#[tactic(auto, unfolding(crate::specs::Forms::label_at))]
pub(crate) fn label(alloc: Global, lexemes: &[Lexeme]) -> Result<(Label, &[Lexeme]), Miss>
    ensures { Gives (λ x. (x.0, x.1.now)) result (spec.label_at lexemes.now) }
{
    match lexemes {
        [Lexeme::Number(n), rest @ ..] => Ok((Label::At(in_word(*n)), rest)),
        [Lexeme::Word(w), rest @ ..] => {
            let name = w.copy(alloc)?;
            Ok((Label::Named(name), rest))
        }
        _ => Err(Miss::Form),
    }
}

#[tactic(auto, unfolding(crate::specs::Forms::target_at))]
fn target(alloc: Global, lexemes: &[Lexeme]) -> Result<(Target, &[Lexeme]), Miss>
    ensures { Gives (λ x. (x.0, x.1.now)) result (spec.target_at lexemes.now) }
{
    let (instr, rest) = label(alloc, lexemes)?;
    let rest = expect(rest, Mark::Dot)?;
    let (port, rest) = number(rest)?;
    let port = in_byte(port);
    Ok((Target { instr, port }, rest))
}

// All destinations that stand first.
#[tactic(auto, using(crate::proofs::Scanning::Lists::lists))]
pub(crate) fn targets(alloc: Global, lexemes: &[Lexeme]) -> Result<(Targets, &[Lexeme]), Miss>
    ensures { Gives (λ x. (x.0, x.1.now)) result (Some (spec.targets_at lexemes.now)) }
{
    let mut all = Targets::empty(alloc);
    let mut rest = lexemes;
    loop {
        match target(alloc, rest) {
            Ok((target, behind)) => {
                all.push(target)?;
                rest = behind;
            }
            Err(Miss::Form) => return Ok((all, rest)),
            Err(Miss::Memory) => return Err(Miss::Memory),
        }
    }
}

// All references that stand first.
#[tactic(auto, using(crate::proofs::Scanning::Lists::lists))]
pub(crate) fn labels(alloc: Global, lexemes: &[Lexeme]) -> Result<(Labels, &[Lexeme]), Miss>
    ensures { Gives (λ x. (x.0, x.1.now)) result (Some (spec.labels_at lexemes.now)) }
{
    let mut all = Labels::empty(alloc);
    let mut rest = lexemes;
    loop {
        match label(alloc, rest) {
            Ok((label, behind)) => {
                all.push(label)?;
                rest = behind;
            }
            Err(Miss::Form) => return Ok((all, rest)),
            Err(Miss::Memory) => return Err(Miss::Memory),
        }
    }
}

fn is_small(n: u64) -> bool
    ensures { result ≡ spec.is_small n }
{
    n < 4_294_967_296
}

#[tactic(auto, unfolding(crate::specs::Forms::link_at))]
fn link(lexemes: &[Lexeme]) -> Result<((Link, bool), &[Lexeme]), Miss>
    ensures { Gives (λ x. (x.0, x.1.now)) result (spec.link_at lexemes.now) }
{
    match lexemes {
        [Lexeme::Mark(Mark::Query), rest @ ..] => Ok(((Link::Unknown, true), rest)),
        [Lexeme::Mark(Mark::Dot), rest @ ..] => Ok(((Link::Nothing, true), rest)),
        [Lexeme::Number(n), rest @ ..] => Ok(((Link::Is(in_word(*n)), is_small(*n)), rest)),
        _ => Err(Miss::Form),
    }
}

#[tactic(auto, unfolding(crate::specs::Forms::note_at))]
pub(crate) fn note(lexemes: &[Lexeme]) -> Result<((Note, bool), &[Lexeme]), Miss>
    ensures { Gives (λ x. (x.0, x.1.now)) result (spec.note_at lexemes.now) }
{
    let rest = expect(lexemes, Mark::Less)?;
    let ((pred, small_pred), rest) = link(rest)?;
    let rest = expect(rest, Mark::Comma)?;
    let (seq, rest) = number(rest)?;
    let rest = expect(rest, Mark::Comma)?;
    let ((succ, small_succ), rest) = link(rest)?;
    let rest = expect(rest, Mark::More)?;
    let rest = expect(rest, Mark::Dot)?;
    let (ripple, rest) = number(rest)?;
    let fits = small_pred && is_small(seq) && small_succ && is_small(ripple);
    let note = Note {
        pred,
        seq: in_word(seq),
        succ,
        ripple: in_word(ripple),
    };
    Ok(((note, fits), rest))
}

pub(crate) fn done(lexemes: &[Lexeme]) -> Result<(), Miss>
    ensures { Gives (λ x. x) result (spec.done lexemes.now tt) }
{
    if lexemes.is_empty() {
        Ok(())
    } else {
        Err(Miss::Form)
    }
}
