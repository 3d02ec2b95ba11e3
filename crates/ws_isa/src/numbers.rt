//! The numbers of instructions, block by block.

ghost use Rattle.std.specs.Prelude.{◌≡◌, ◌≤◌, ℕ, suc, length, map, slice_index, IfOk};
ghost use Rattle.ws_isa.specs.Image.{first_of};
ghost use Rattle.ws_isa.specs.View as view;

use crate::image::Block;
use std::alloc::Global;
use ws_words::NoMemory;

/// The number of each block's first instruction, in order, and at the end the number after the last
/// instruction. Instructions are numbered from 1.
pub fn first_numbers(alloc: Global, blocks: &[Block]) -> Result<Vec<usize>, NoMemory>
    ensures length { IfOk result (λ numbers. length numbers.items ≡ suc (length blocks.now)) }
    ensures numbers { IfOk result (λ numbers. (b : ℕ) → b ≤ length blocks.now →
        slice_index numbers.items b ≡ first_of (map view.block blocks.now) b) }
{
    let mut numbers = Vec::new(alloc);
    let mut next = 1usize;
    for block in blocks {
        numbers.push(next)?;
        next = match next.checked_add(block.instrs.len()) {
            Some(after) => after,
            None => return Err(NoMemory),
        };
    }
    numbers.push(next)?;
    Ok(numbers)
}
