//! The blocks of an image by number.

ghost use Rattle.std.specs.Prelude.{◌≡◌, ◌==◌, ◌<◌, ◌≤◌, ◌+◌, ◌&&◌, suc, length, IfOk};
ghost use Rattle.ws_isa.specs.Image.{first_number, is_first, array_length};
ghost use Rattle.ws_isa.specs.View as view;
ghost use Rattle.ws_isa.specs.Listed.{ListsFirsts};

use crate::{ArrayDecl, Block, first_numbers};
use std::alloc::Global;
use ws_words::NoMemory;

/// The arrays and blocks of an image, the number of each block's first instruction, and the number
/// after the last instruction.
#[derive(Drop)]
pub struct BlockTable<'a> {
    pub arrays: &'a [ArrayDecl],
    pub blocks: &'a [Block],
    firsts: Vec<usize>,
    pub total: usize,
    ghost listed: { ListsFirsts blocks.now firsts.items total },
}

impl<'a> BlockTable<'a> {
    ghost use Rattle.ws_isa.specs.Shows.{image_of, block_in};

    /// The image with these arrays and blocks.
    pub fn of(
        alloc: Global,
        arrays: &'a [ArrayDecl],
        blocks: &'a [Block],
    ) -> Result<BlockTable<'a>, NoMemory>
        ensures arrays { IfOk result (λ program. program.arrays.now ≡ arrays.now) }
        ensures blocks { IfOk result (λ program. program.blocks.now ≡ blocks.now) }
    {
        let firsts = first_numbers(alloc, blocks)?;
        let total = firsts[blocks.len()];
        if total >= usize::MAX / 4 {
            return Err(NoMemory);
        }
        Ok(BlockTable {
            arrays,
            blocks,
            firsts,
            total,
        })
    }

    /// The block at this place.
    pub fn block(&self, place: usize) -> &'a Block
        requires { place < length self.now.blocks.now }
        ensures { view.block result.now ≡ block_in self.now place }
    {
        &self.blocks[place]
    }

    /// The number of the first instruction of the block at this place.
    pub fn first(&self, place: usize) -> usize
        requires { place < length self.now.blocks.now }
        ensures number { result ≡ first_number (image_of self.now) (suc place) }
        ensures within { result + length (block_in self.now place).instrs ≤ self.now.total }
    {
        self.firsts[place]
    }

    /// Whether the block at this place is the first of its wave.
    pub fn starts(&self, place: usize) -> bool
        requires { place < length self.now.blocks.now }
        ensures { result ≡ is_first (image_of self.now) (suc place) }
    {
        place == 0 || self.blocks[place].wave != self.blocks[place - 1].wave
    }

    /// Whether the block at this place is the first of its wave and holds no instruction: no token
    /// enters such a wave.
    pub fn is_dead(&self, place: usize) -> bool
        requires { place < length self.now.blocks.now }
        ensures { result ≡
            ((length (block_in self.now place).instrs == 0)
            && is_first (image_of self.now) (suc place)) }
    {
        self.blocks[place].instrs.is_empty() && self.starts(place)
    }

    /// The length of an array by its number from 1; 0 where there is none.
    pub fn length_of(&self, array: u32) -> u64
        ensures { result ≡ array_length (image_of self.now).arrays array }
    {
        if array == 0 {
            return 0;
        }
        match self.arrays.get((array - 1) as usize) {
            Some(array) => array.length as u64,
            None => 0,
        }
    }
}
