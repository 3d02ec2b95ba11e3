//! The memory operations of a block, each behind what is kept of the paths that lead to it.

ghost use Rattle.std.specs.Prelude.{◌≡◌, ◌<◌, ℕ, suc, cond, ◌&&◌, ltb, eqb, IfOk, OnOk, IfErr, true};
ghost use Rattle.std.specs.Prelude.{false, Some};
ghost use Rattle.ws_isa.specs.Image.{is_memory_op, is_writing_op, first_number, block_at, IsBlock};
ghost use Rattle.ws_isa.specs.Formed.{Formed};
ghost use Rattle.ws_isa.specs.View as view;
ghost use Rattle.ws_isa.specs.Sound.{ShapeRules};
ghost use Rattle.annot_check.specs.declared.lasts.Lasts.{Lasts};
ghost use Rattle.annot_check.specs.Order.{no_mark, LastsOk, PassOk};
ghost use Rattle.annot_check.specs.Seen.{op_with, mark_of, stepped, StepBad, StepSeen, CameAll, PassState};
ghost use Rattle.annot_check.specs.Seen.{OrderBreach};

use crate::fault::{Bad, CheckFault};
use crate::lasts::{Lasts, Mark, no_op, note_of, pass_fault};
use crate::read::block;
use std::collections::BTreeMap;
use ws_isa::{Image, Instr, Op};
use ws_words::NoMemory;

fn is_writing_instr(op: Op) -> bool
    ensures { result ≡ is_writing_op op }
{
    matches!(
        op,
        Op::Store(_) | Op::Input | Op::Output | Op::Give(_) | Op::Take(_) | Op::Halt
    )
}

// Gives an operation its sequence number, and answers the operation that had it.
fn take_number(seen: &mut BTreeMap<u32, u32>, seq: u32, op: u32) -> Result<Option<u32>, NoMemory>
    ensures had { IfOk result (λ earlier. earlier ≡ op_with seen.old seq) }
    ensures taken { OnOk result ((n : ℕ) → op_with seen.new n ≡ cond (eqb seq n) (Some op)
        (op_with seen.old n)) }
{
    Ok(seen.insert(seq, op)?)
}

// The writing operation with the largest number behind an operation.
fn later_writer(writer: Mark, mark: Mark, writing: bool) -> Mark
    ensures { result ≡ cond (writing && ltb writer.note.seq mark.note.seq) mark writer }
{
    if writing && writer.note.seq < mark.note.seq {
        mark
    } else {
        writer
    }
}

// What is kept behind an operation.
fn behind(lasts: &Lasts, mark: Mark, writing: bool) -> Lasts
    ensures none { result.none ≡ false }
    ensures top { result.top ≡ mark }
    ensures other { result.other ≡ no_mark }
    ensures odd { result.odd ≡ no_mark }
    ensures writer { result.writer ≡ cond
        (writing && ltb lasts.now.writer.note.seq mark.note.seq) mark lasts.now.writer }
{
    let writer = later_writer(lasts.writer, mark, writing);
    Lasts {
        none: false,
        top: mark,
        other: no_op(),
        odd: no_op(),
        writer,
    }
}

// One instruction behind what is kept.
fn pass(
    seen: &mut BTreeMap<u32, u32>,
    lasts: &Lasts,
    op: u32,
    instr: &Instr,
) -> Result<Lasts, CheckFault>
    ensures kept { IfOk result (λ more. more ≡ stepped lasts.now op (view.instr instr.now)) }
    ensures ok { OnOk result (is_memory_op instr.now.op ≡ true →
        PassOk lasts.now (mark_of op (view.instr instr.now)).note (is_writing_op instr.now.op)) }
    ensures seen { OnOk result (StepSeen (op_with seen.old) (op_with seen.new) op
        (view.instr instr.now)) }
    ensures refused { IfErr result (λ fault. StepBad (op_with seen.old) lasts.now op
        (view.instr instr.now) fault) }
{
    if !instr.op.is_memory() {
        return Ok(*lasts);
    }
    let note = note_of(instr);
    let writing = is_writing_instr(instr.op);
    if let Some(bad) = pass_fault(lasts, op, note, writing) {
        return Err(CheckFault::Refused(bad));
    }
    if let Some(earlier) = take_number(seen, note.seq, op)? {
        return Err(CheckFault::Refused(Bad::Link {
            first: earlier,
            second: op,
        }));
    }
    Ok(behind(lasts, Mark { op, note }, writing))
}

// The instructions of a block.
pub(crate) fn pass_all(
    image: &Image,
    seen: &mut BTreeMap<u32, u32>,
    number: u32,
    first: u32,
    start: Lasts,
) -> Result<Lasts, CheckFault>
    requires formed { Formed (view.image image.now) }
    requires shape { ShapeRules (view.image image.now) }
    requires block { IsBlock (view.image image.now) number }
    requires first { first ≡ first_number (view.image image.now) number }
    requires ok { LastsOk (view.image image.now) number first start }
    requires came { CameAll (view.image image.now) (block_at (view.image image.now) number).wave
        (op_with seen.now) }
    requires fewer { (s j : ℕ) → op_with seen.now s ≡ Some j → j < first }
    ensures state { IfOk result (λ more. PassState (view.image image.now) number start
        (op_with seen.old) (first_number (view.image image.now) (suc number)) more
        (op_with seen.new)) }
    ensures refused { IfErr result (λ fault. OrderBreach (view.image image.now) fault) }
{
    let mut lasts = start;
    let mut op = first;
    for instr in &block(image, number).instrs {
        match pass(seen, &lasts, op, instr) {
            Ok(more) => lasts = more,
            Err(fault) => return Err(fault),
        }
        op += 1;
    }
    Ok(lasts)
}
