//! How many edges lead into each block, and which blocks a branch of a block with a steer leads to.

ghost use Rattle.std.specs.Prelude.{◌≡◌, ◌+◌, map, length, IfOk, OnOk};
ghost use Rattle.ws_isa.specs.Image.{edges_of, is_steer_op};
ghost use Rattle.ws_isa.specs.View as view;
ghost use Rattle.asm_link.specs.Ways as spec;

use std::alloc::Global;
use wave_link::{at, filled, plus, put};
use ws_isa::{Block, Exit, Instr, Op};
use ws_words::NoMemory;

fn is_steer(op: Op) -> bool
    ensures { result ≡ is_steer_op op }
{
    matches!(op, Op::Steer)
}

/// Whether one of these is a steer.
pub fn any_steer(instrs: &[Instr]) -> bool
    ensures { result ≡ spec.any_steer (map view.instr instrs.now) }
{
    for instr in instrs {
        if is_steer(instr.op) {
            return true;
        }
    }
    false
}

fn hit(table: &mut [u32], block: u32) -> Result<(), NoMemory>
    ensures { OnOk result (table.new ≡ spec.hit block table.old) }
{
    let more = plus(at(table, block, 0), 1)?;
    put(table, block, more);
    Ok(())
}

fn hit_all(table: &mut [u32], blocks: &[u32]) -> Result<(), NoMemory>
    ensures { OnOk result (table.new ≡ spec.hit_all blocks.now table.old) }
{
    for block in blocks {
        hit(table, *block)?;
    }
    Ok(())
}

fn hit_exit(table: &mut [u32], exit: &Exit) -> Result<(), NoMemory>
    ensures { OnOk result (table.new ≡ spec.hit_all (edges_of (view.exit exit.now)) table.old) }
{
    match exit {
        Exit::Goto(next) => hit(table, *next),
        Exit::Branch(_, yes, no) => {
            hit(table, *yes)?;
            hit(table, *no)
        }
        Exit::Send(_, landings) => hit_all(table, landings),
        Exit::Stop => Ok(()),
    }
}

fn table_size(blocks: &[Block]) -> Result<usize, NoMemory>
    ensures { IfOk result (λ size. size ≡ length blocks.now + 1) }
{
    match blocks.len().checked_add(1) {
        Some(size) => Ok(size),
        None => Err(NoMemory),
    }
}

/// How many edges lead into each block, by its number.
pub fn find_hits(alloc: Global, blocks: &[Block]) -> Result<Vec<u32>, NoMemory>
    ensures { IfOk result (λ hits. hits.items ≡ spec.hits_of (map view.block blocks.now)) }
{
    let mut hits = filled(alloc, 0, table_size(blocks)?)?;
    for block in blocks {
        hit_exit(&mut hits, &block.exit)?;
    }
    Ok(hits)
}

fn mark_arms(marks: &mut [bool], exit: &Exit)
    ensures { marks.new ≡ spec.mark_arms (view.exit exit.now) marks.old }
{
    match exit {
        Exit::Branch(_, yes, no) => {
            put(marks, *yes, true);
            put(marks, *no, true);
        }
        _ => (),
    }
}

fn mark_block(marks: &mut [bool], block: &Block)
    ensures { marks.new ≡ spec.mark_block (view.block block.now) marks.old }
{
    if any_steer(&block.instrs) {
        mark_arms(marks, &block.exit);
    }
}

/// Which blocks a branch of a block with a steer leads to, by their numbers.
pub fn find_marks(alloc: Global, blocks: &[Block]) -> Result<Vec<bool>, NoMemory>
    ensures { IfOk result (λ marks. marks.items ≡ spec.marks_of (map view.block blocks.now)) }
{
    let mut marks = filled(alloc, false, table_size(blocks)?)?;
    for block in blocks {
        mark_block(&mut marks, block);
    }
    Ok(marks)
}
