//! The walk of drafts and images.

ghost use Rattle.std.specs.Prelude.{◌≡◌, ◌≤◌, zero, IfOk};
ghost use Rattle.ws_words.specs.Outside.{World as Given};
ghost use Rattle.ws_words.specs.Plain.{world_of};
ghost use Rattle.ws_isa.specs.View as view;
ghost use Rattle.ws_isa.specs.Open.{Walkable};
ghost use Rattle.ws_isa.specs.Shows.{image_of, AtStart, Final};
ghost use Rattle.ws_isa.specs.Answer.{WalkedSo};

use crate::checked::Checked;
use crate::operations::empty_cells;
use crate::program::BlockTable;
use crate::table::PortValues;
use crate::walker::Walker;
use crate::{ArrayDecl, Block, Draft};
use std::alloc::Global;
use ws_words::{Cells, Memory, NoMemory, Words, World};

/// What the first instances of a walk do: the words that they print, the arrays that they leave, in
/// order, hidden ones too, the words that each of the ports 1 to 7 takes, how many they are,
/// whether they are the whole walk, and the array of the first out-of-bounds access among them.
#[derive(Drop)]
pub struct Walked {
    pub printed: Words,
    pub arrays: Cells,
    pub took: Cells,
    pub fired: u64,
    pub whole: bool,
    pub fault: Option<u32>,
}

/// Walks a draft for so many firings at most.
pub fn walk_draft(
    alloc: Global,
    draft: &Draft,
    world: &World,
    firings: u64,
) -> Result<Walked, NoMemory>
    requires { Walkable (view.draft draft.now) }
    ensures { IfOk result (WalkedSo (view.draft draft.now) (world_of world.now) firings) }
{
    walk_blocks(alloc, &draft.arrays, &draft.blocks, world, firings)
}

/// Walks an image for so many firings at most.
pub fn walk_image(
    alloc: Global,
    image: &Checked,
    world: &World,
    firings: u64,
) -> Result<Walked, NoMemory>
    ensures { IfOk result (WalkedSo image.now (world_of world.now) firings) }
{
    let image = image.image();
    walk_blocks(alloc, &image.arrays, &image.blocks, world, firings)
}

// Walks arrays and blocks for so many firings at most.
fn walk_blocks<'a>(
    alloc: Global,
    arrays: &'a [ArrayDecl],
    blocks: &'a [Block],
    world: &World,
    firings: u64,
) -> Result<Walked, NoMemory>
    requires { Walkable (view.parts arrays.now blocks.now) }
    ensures { IfOk result
        (WalkedSo (view.parts arrays.now blocks.now) (world_of world.now) firings) }
{
    let program = BlockTable::of(alloc, arrays, blocks)?;
    let mut walker = open(alloc, &program, world)?;
    let whole = walk(&program, &mut walker, firings)?;
    let fired = walker.fired;
    let fault = walker.fault;
    let memory = walker.memory;
    Ok(Walked {
        printed: memory.printed,
        arrays: memory.cells,
        took: memory.took,
        fired,
        whole,
        fault,
    })
}

// Walks on from the first block, and says whether this was the whole walk.
fn walk(program: &BlockTable<'_>, walker: &mut Walker<'_>, firings: u64) -> Result<bool, NoMemory>
    requires walks { Walkable (image_of program.now) }
    requires left { walker.old.fired ≤ firings }
    ensures within { IfOk result (λ whole. walker.new.fired ≤ firings) }
    ensures walk { IfOk result (λ whole. (world : Given) →
        AtStart (image_of program.now) world 0 1 walker.old →
        Final (image_of program.now) world firings whole walker.new) }
{
    let mut place = 0usize;
    if program.is_dead(0) {
        return Ok(true);
    }
    loop {
        if !walker.run_block(program, place, firings)? {
            return Ok(false);
        }
        match walker.leave(program, place) {
            Some(next) => {
                if program.is_dead(next) {
                    return Ok(true);
                }
                place = next;
            }
            None => return Ok(true),
        }
    }
}

// Before the first step, with the start pulse at its destinations.
fn open<'a>(
    alloc: Global,
    program: &BlockTable<'_>,
    world: &'a World,
) -> Result<Walker<'a>, NoMemory>
    requires { Walkable (image_of program.now) }
    ensures start { IfOk result (AtStart (image_of program.now) (world_of world.now) 0 1) }
    ensures fired { IfOk result (λ walker. walker.fired ≡ zero) }
{
    Ok(Walker {
        table: PortValues::open(alloc, program.total, &program.block(0).pads)?,
        memory: Memory::open(alloc, empty_cells(alloc, program.arrays)?, world)?,
        fired: 0,
        fault: None,
    })
}
