//! What is missing in a draft whose shape and slots are right.

ghost use Rattle.std.specs.Prelude.{◌≡◌, map, IfOk};
ghost use Rattle.ws_isa.specs.Image.{is_giving_op};
ghost use Rattle.ws_isa.specs.View as view;
ghost use Rattle.asm_link.specs.Ways.{any_giving};
ghost use Rattle.asm_link.specs.Unfit as spec;

use crate::fault::Unfit;
use crate::room::{count_instrs, find_full};
use crate::ways::{find_hits, find_marks};
use std::alloc::Global;
use wave_link::{at, find_added, plus};
use ws_isa::{Block, Draft, Exit, Image, Instr, Op};
use ws_words::NoMemory;

fn gives(op: Op) -> bool
    ensures { result ≡ is_giving_op op }
{
    !matches!(
        op,
        Op::Steer | Op::Send(_) | Op::Store(_) | Op::Output | Op::Take(_) | Op::Nop | Op::Halt
    )
}

// Whether one of these has a result and is neither a steer nor a send.
fn any_gives(instrs: &[Instr]) -> bool
    ensures { result ≡ any_giving (map view.instr instrs.now) }
{
    for instr in instrs {
        if gives(instr.op) {
            return true;
        }
    }
    false
}

// The wave of a block, or 0 where there is none.
fn wave_at(blocks: &[Block], number: u32) -> u32
    ensures { result ≡ spec.wave_in (map view.block blocks.now) number }
{
    if number == 0 {
        return 0;
    }
    match blocks.get(number as usize - 1) {
        Some(block) => block.wave,
        None => 0,
    }
}

// Whether a block is the first of its wave.
fn starts_wave(blocks: &[Block], number: u32) -> bool
    ensures { result ≡ spec.starts_in (map view.block blocks.now) number }
{
    if number == 0 {
        return false;
    }
    if number == 1 {
        return true;
    }
    wave_at(blocks, number) != wave_at(blocks, number - 1)
}

// Whether a block is not the first of its wave, and one edge leads to it.
fn is_arm(blocks: &[Block], hits: &[u32], number: u32) -> bool
    ensures { result ≡ spec.is_arm (map view.block blocks.now) hits.now number }
{
    !starts_wave(blocks, number) && at(hits, number, 0) == 1
}

fn forks_or_ends(blocks: &[Block], hits: &[u32], exit: &Exit) -> bool
    ensures { result ≡ spec.forks_or_ends (map view.block blocks.now) hits.now (view.exit exit.now) }
{
    match exit {
        Exit::Branch(_, yes, no) => {
            (is_arm(blocks, hits, *yes) && is_arm(blocks, hits, *no))
                || (starts_wave(blocks, *yes) && starts_wave(blocks, *no))
        }
        _ => true,
    }
}

fn is_triggered(
    blocks: &[Block],
    hits: &[u32],
    marks: &[bool],
    number: u32,
    instrs: &[Instr],
) -> bool
    ensures { result ≡ spec.is_triggered (map view.block blocks.now) hits.now marks.now number
        (map view.instr instrs.now) }
{
    any_gives(instrs) || (is_arm(blocks, hits, number) && at(marks, number, false))
}

/// What is known of the blocks of a draft: how many edges lead into each, which a branch of a block with a
/// steer leads to, both by number, and which get a no-op, by place.
#[derive(Drop)]
pub struct BlockTables {
    hits: Vec<u32>,
    marks: Vec<bool>,
    added: Vec<bool>,
}

// What is missing in the block at this place.
fn of_block(
    blocks: &[Block],
    tables: &BlockTables,
    place: u32,
    block: &Block,
) -> Result<Option<Unfit>, NoMemory>
    ensures { IfOk result (λ unfit. unfit ≡ spec.of_block (map view.block blocks.now)
        tables.now.hits.items tables.now.marks.items tables.now.added.items place
        (view.block block.now)) }
{
    let number = plus(place, 1)?;
    if !forks_or_ends(blocks, &tables.hits, &block.exit) {
        return Ok(Some(Unfit::Arm(number)));
    }
    let added = at(&tables.added, place, false);
    let triggered = is_triggered(blocks, &tables.hits, &tables.marks, number, &block.instrs);
    if added && !triggered {
        return Ok(Some(Unfit::Trigger(number)));
    }
    Ok(None)
}

// What is missing in the first block in which something is.
fn of_blocks(blocks: &[Block], tables: &BlockTables) -> Result<Option<Unfit>, NoMemory>
    ensures { IfOk result (λ unfit. unfit ≡ spec.of_blocks (map view.block blocks.now)
        tables.now.hits.items tables.now.marks.items tables.now.added.items 0
        (map view.block blocks.now)) }
{
    let mut place = 0;
    for block in blocks {
        let unfit = of_block(blocks, tables, place, block)?;
        if let Some(unfit) = unfit {
            return Ok(Some(unfit));
        }
        place = plus(place, 1)?;
    }
    Ok(None)
}

/// What is missing in a draft before anything is added to it.
pub fn find_lack(alloc: Global, draft: &Draft) -> Result<Option<Unfit>, NoMemory>
    ensures { IfOk result (λ unfit. unfit ≡ spec.lack_in (view.draft draft.now).blocks) }
{
    let blocks = draft.blocks.as_slice();
    let tables = BlockTables {
        hits: find_hits(alloc, blocks)?,
        marks: find_marks(alloc, blocks)?,
        added: find_added(alloc, draft)?,
    };
    of_blocks(blocks, &tables)
}

/// Where the image of a draft passes a limit.
pub fn find_excess(draft: &Draft, made: &Image) -> Result<Option<Unfit>, NoMemory>
    ensures { IfOk result (λ unfit. unfit ≡ spec.room_in (view.draft draft.now).blocks
        (view.image made.now).blocks) }
{
    let full = find_full(&draft.blocks, &made.blocks)?;
    let count = count_instrs(&made.blocks)?;
    match full {
        Some(number) => Ok(Some(Unfit::Full(number))),
        None => {
            if count > 4_194_304 {
                Ok(Some(Unfit::Many))
            } else {
                Ok(None)
            }
        }
    }
}
