//! From plans of blocks to a draft.

ghost use Rattle.std.specs.Prelude.{◌≡◌, ℕ, IfOk, length, map, reverse};
ghost use Rattle.ws_isa.specs.View as isa;
ghost use Rattle.wave_gen.specs.Plans.{plan_at, pads_of, exit_of, mades, blocks_of, draft_of};
ghost use Rattle.wave_gen.specs.View as view;
ghost use Rattle.wave_gen.specs.Kept.{AreKept, LeadsAhead};
ghost use Rattle.wave_gen.specs.Numbered.{number_at, numbers_from, numbered};

use crate::at_start::fronts;
use crate::block::make_blocks;
use crate::fork::byte;
use crate::kept::Kept;
use crate::numbering::{dests, first_numbers, instrs, number_back, word};
use crate::plan::{HowLeft, Plan};
use std::alloc::Global;
use ws_isa::{ArrayDecls, Block, BlockList, Blocks, Draft, Exit, Pad, Pads};
use ws_words::NoMemory;

/// The draft of plans, for so many names of variables and the pulse. More blocks, waves or
/// instructions than 32 bits count give `NoMemory`, and so do more pads of a block, values of a
/// Send, or operands than a byte counts.
pub(crate) fn make_draft(
    alloc: Global,
    arrays: ArrayDecls,
    width: usize,
    plans: &[Plan],
) -> Result<Draft, NoMemory>
    requires { (b : ℕ) → LeadsAhead (map view.plan plans.now) b
        (plan_at (map view.plan plans.now) b).exit }
    ensures { IfOk result (λ draft. isa.draft draft ≡
        draft_of (map isa.array arrays.items) width (map view.plan plans.now)) }
{
    let kept = make_blocks(alloc, width, plans)?;
    let numbers = first_numbers(alloc, &kept)?;
    let blocks = number_blocks(alloc, plans, &kept, &numbers)?;
    Ok(Draft { arrays, blocks })
}

fn number_blocks(
    alloc: Global,
    plans: &[Plan],
    kept: &[Kept],
    numbers: &[usize],
) -> Result<BlockList, NoMemory>
    requires { length kept.now ≡ length plans.now }
    ensures { IfOk result (λ blocks. (width : ℕ) →
        AreKept width (map view.plan plans.now) 1 (reverse kept.now)
        (mades width (map view.plan plans.now)) →
        numbers.now ≡ numbers_from 1 (reverse kept.now) →
        map isa.block blocks.items ≡
        blocks_of width (map view.plan plans.now) 1 (length plans.now)) }
{
    let mut blocks = Vec::new(alloc);
    for place in 0..plans.len() {
        let made = &kept[kept.len() - 1 - place];
        let block = number_block(alloc, numbers, &plans[place], made, place + 1)?;
        blocks.push(block)?;
    }
    Ok(blocks)
}

fn number_block(
    alloc: Global,
    numbers: &[usize],
    plan: &Plan,
    kept: &Kept,
    block: usize,
) -> Result<Block, NoMemory>
    ensures { IfOk result (λ made. isa.block made ≡
        numbered numbers.now plan.now kept.now block) }
{
    let wave = word(plan.wave)?;
    let pads = pads(alloc, numbers, block, &plan.entries, &plan.pads)?;
    let instrs = instrs(alloc, numbers, &kept.code)?;
    let source = number_back(numbers, block, kept.behind)?;
    let exit = exit(alloc, source, &plan.exit)?;
    Ok(Block {
        wave,
        pads,
        instrs,
        exit,
    })
}

// The pads of a block that fill these names, where it has these entries.
fn pads(
    alloc: Global,
    numbers: &[usize],
    block: usize,
    entries: &[usize],
    names: &[usize],
) -> Result<Pads, NoMemory>
    ensures { IfOk result (λ pads. map isa.pad pads.items ≡
        pads_of (number_at numbers.now) block 0 entries.now names.now) }
{
    let table = fronts(alloc, block, entries)?;
    let mut pads = Vec::new(alloc);
    for (place, name) in names.iter().enumerate() {
        let number = byte(place)?;
        let dests = dests(alloc, numbers, table.list(*name))?;
        pads.push(Pad { number, dests })?;
    }
    Ok(pads)
}

fn exit(alloc: Global, source: usize, leaves: &HowLeft) -> Result<Exit, NoMemory>
    ensures { IfOk result (λ exit. isa.exit exit ≡ exit_of source (view.leaves leaves.now)) }
{
    match leaves {
        HowLeft::Onto(c) => Ok(Exit::Goto(word(*c)?)),
        HowLeft::Either { some, none, .. } => {
            Ok(Exit::Branch(word(source)?, word(*some)?, word(*none)?))
        }
        HowLeft::Lands { landings, .. } => Ok(Exit::Send(word(source)?, words(alloc, landings)?)),
        HowLeft::Halts => Ok(Exit::Stop),
    }
}

fn words(alloc: Global, numbers: &[usize]) -> Result<Blocks, NoMemory>
    ensures { IfOk result (λ words. words.items ≡ numbers.now) }
{
    let mut words = Vec::new(alloc);
    for number in numbers {
        words.push(word(*number)?)?;
    }
    Ok(words)
}
