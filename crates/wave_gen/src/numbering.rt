//! Spots and lines with the numbers of instructions.

ghost use Rattle.std.specs.Prelude.{◌≡◌, ◌-◌, suc, IfOk, map, reverse};
ghost use Rattle.ws_isa.specs.View as isa;
ghost use Rattle.wave_gen.specs.Wire.{dest_of, dests_of};
ghost use Rattle.wave_gen.specs.Plans.{instr_of};
ghost use Rattle.wave_gen.specs.Tables.{line_of};
ghost use Rattle.wave_gen.specs.Numbered.{number_at, numbers_from};

use crate::fork::byte;
use crate::kept::Kept;
use crate::spot::{Line, Target};
use std::alloc::Global;
use ws_isa::{Dest, Dests, Instr, Instrs};
use ws_words::NoMemory;

/// The number of each block's first instruction, in order, and at the end the number after the
/// last instruction.
pub(crate) fn first_numbers(alloc: Global, kept: &[Kept]) -> Result<Vec<usize>, NoMemory>
    ensures { IfOk result (λ numbers. numbers.items ≡ numbers_from 1 (reverse kept.now)) }
{
    let mut numbers = Vec::new(alloc);
    let mut next = 1usize;
    let mut left = kept.len();
    while left > 0 {
        left -= 1;
        numbers.push(next)?;
        next = match next.checked_add(kept[left].code.len()) {
            Some(after) => after,
            None => return Err(NoMemory),
        };
    }
    numbers.push(next)?;
    Ok(numbers)
}

/// Where a block begins.
pub(crate) fn number(numbers: &[usize], block: usize) -> usize
    ensures { result ≡ number_at numbers.now block }
{
    let place = block.min(numbers.len());
    if place == 0 { 1 } else { numbers[place - 1] }
}

/// The number of the instruction of a block with so many of the block behind it.
pub(crate) fn number_back(numbers: &[usize], block: usize, back: usize) -> Result<usize, NoMemory>
    ensures { IfOk result (λ n. n ≡ number_at numbers.now (suc block) - suc back) }
{
    match block.checked_add(1) {
        Some(next) => Ok(number(numbers, next).saturating_sub(back).saturating_sub(1)),
        None => Err(NoMemory),
    }
}

/// A number as 32 bits. What would have more numbers stands in no memory.
pub(crate) fn word(number: usize) -> Result<u32, NoMemory>
    ensures { IfOk result (λ word. word ≡ number) }
{
    if number <= u32::MAX as usize {
        Ok(number as u32)
    } else {
        Err(NoMemory)
    }
}

fn dest(numbers: &[usize], spot: Target) -> Result<Dest, NoMemory>
    ensures { IfOk result (λ dest. dest ≡ dest_of (number_at numbers.now) spot) }
{
    match spot {
        Target::Back(block, back, port) => {
            let instr = word(number_back(numbers, block, back)?)?;
            let port = byte(port)?;
            Ok(Dest { instr, port })
        }
        Target::Front(block, place) => {
            let Some(number) = number(numbers, block).checked_add(place) else {
                return Err(NoMemory);
            };
            let instr = word(number)?;
            Ok(Dest { instr, port: 0 })
        }
    }
}

pub(crate) fn dests(alloc: Global, numbers: &[usize], spots: &[Target]) -> Result<Dests, NoMemory>
    ensures { IfOk result (λ dests. dests.items ≡
        dests_of (number_at numbers.now) spots.now) }
{
    let mut dests = Vec::new(alloc);
    for spot in spots {
        let dest = dest(numbers, *spot)?;
        dests.push(dest)?;
    }
    Ok(dests)
}

fn instr(alloc: Global, numbers: &[usize], line: &Line) -> Result<Instr, NoMemory>
    ensures { IfOk result (λ instr. isa.instr instr ≡
        instr_of (number_at numbers.now) (line_of line.now)) }
{
    let lists = dests(alloc, numbers, &line.dests)?;
    let others = dests(alloc, numbers, &line.others)?;
    Ok(Instr {
        op: line.op,
        note: None,
        dests: lists,
        others,
    })
}

/// A block's instructions in order.
pub(crate) fn instrs(alloc: Global, numbers: &[usize], code: &[Line]) -> Result<Instrs, NoMemory>
    ensures { IfOk result (λ instrs. map isa.instr instrs.items ≡
        map (instr_of (number_at numbers.now)) (reverse (map line_of code.now))) }
{
    let mut instrs = Vec::new(alloc);
    let mut left = code.len();
    while left > 0 {
        left -= 1;
        let instr = instr(alloc, numbers, &code[left])?;
        instrs.push(instr)?;
    }
    Ok(instrs)
}
