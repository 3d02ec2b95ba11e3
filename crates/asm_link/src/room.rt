//! Whether what is added to a draft stays within the limits.

ghost use Rattle.std.specs.Prelude.{◌≡◌, map, length, IfOk};
ghost use Rattle.ws_isa.specs.View as view;
ghost use Rattle.ws_words.specs.Items.{nth};
ghost use Rattle.asm_link.specs.Room as spec;

use std::alloc::Global;
use wave_link::plus;
use ws_isa::{Block, Instr};
use ws_words::NoMemory;

fn is_short(instr: &Instr) -> bool
    ensures { result ≡ spec.is_short (view.instr instr.now) }
{
    instr.dests.len() < 9 && instr.others.len() < 9
}

fn count_of(instrs: &[Instr]) -> Result<u32, NoMemory>
    ensures { IfOk result (λ size. size ≡ length instrs.now) }
{
    match u32::try_from(instrs.len()) {
        Ok(size) => Ok(size),
        Err(_) => Err(NoMemory),
    }
}

// The first of these with a list that is too long; they are numbered from this on.
fn full_among(first: u32, instrs: &[Instr]) -> Result<Option<u32>, NoMemory>
    ensures { IfOk result (λ full. full ≡ spec.full_among first (map view.instr instrs.now)) }
{
    let mut number = first;
    for instr in instrs {
        if !is_short(instr) {
            return Ok(Some(number));
        }
        number = plus(number, 1)?;
    }
    Ok(None)
}

// How many instructions the draft's block at this place has.
fn size_at(draft: &[Block], place: u32) -> Result<u32, NoMemory>
    ensures { IfOk result (λ size. size ≡ spec.size_of (nth (map view.block draft.now) place)) }
{
    match draft.get(place as usize) {
        Some(block) => count_of(&block.instrs),
        None => Ok(0),
    }
}

/// The number in the draft of the first instruction whose list is too long in the blocks that were made.
pub fn find_full(draft: &[Block], made: &[Block]) -> Result<Option<u32>, NoMemory>
    ensures { IfOk result (λ full. full ≡ spec.full_in 1 0 (map view.block draft.now)
        (map view.block made.now)) }
{
    let mut first = 1;
    let mut place = 0;
    for block in made {
        let full = full_among(first, &block.instrs)?;
        if let Some(number) = full {
            return Ok(Some(number));
        }
        first = plus(first, size_at(draft, place)?)?;
        place = plus(place, 1)?;
    }
    Ok(None)
}

/// How many instructions there are.
pub fn count_instrs(blocks: &[Block]) -> Result<u32, NoMemory>
    ensures { IfOk result (λ count. count ≡ spec.count_in (map view.block blocks.now)) }
{
    let mut count = 0;
    for block in blocks {
        count = plus(count, count_of(&block.instrs)?)?;
    }
    Ok(count)
}
