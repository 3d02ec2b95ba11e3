//! The draft with memory annotations and nothing else.

ghost use Rattle.std.specs.Prelude.{◌≡◌, ◌+◌, map, IfOk};
ghost use Rattle.ws_isa.specs.View as view;
ghost use Rattle.wave_link.specs.Plain.{noted_instrs, noted_block, noted_from, noted};

use crate::annotator::by_number;
use crate::grow::{find_note, next_seq, next_writer, nowhere};
use crate::links::{Passage, find_places};
use crate::outline::find_outlines;
use crate::table::{at, plus};
use std::alloc::Global;
use ws_isa::{Block, Draft, Image, Instr};
use ws_words::NoMemory;

fn note_instrs(alloc: Global, place: Passage, instrs: Vec<Instr>) -> Result<Vec<Instr>, NoMemory>
    ensures { IfOk result (λ list. map view.instr list.items ≡
        noted_instrs place (place.low + 1) place.writer (map view.instr instrs.items)) }
{
    let mut list = Vec::new(alloc);
    let mut seq = plus(place.low, 1)?;
    let mut writer = place.writer;
    for instr in instrs {
        let Instr {
            op,
            dests,
            others,
            ..
        } = instr;
        let note = find_note(place, op, seq, writer)?;
        list.push(Instr {
            op,
            note,
            dests,
            others,
        })?;
        writer = next_writer(op, seq, writer);
        seq = next_seq(op, seq)?;
    }
    Ok(list)
}

fn note_block(alloc: Global, place: Passage, block: Block) -> Result<Block, NoMemory>
    ensures { IfOk result (λ made. view.block made ≡ noted_block place (view.block block)) }
{
    let Block {
        wave,
        pads,
        instrs,
        exit,
    } = block;
    let instrs = note_instrs(alloc, place, instrs)?;
    Ok(Block {
        wave,
        pads,
        instrs,
        exit,
    })
}

fn note_blocks(
    alloc: Global,
    places: &[Passage],
    blocks: Vec<Block>,
) -> Result<Vec<Block>, NoMemory>
    ensures { IfOk result (λ list. map view.block list.items ≡
        noted_from places.now 1 (map view.block blocks.items)) }
{
    let mut list = Vec::new(alloc);
    let mut number = 1;
    for block in blocks {
        let place = at(places, number, nowhere());
        list.push(note_block(alloc, place, block)?)?;
        number = plus(number, 1)?;
    }
    Ok(list)
}

/// The image of a draft with annotations as `annotate` makes them, and with nothing added. If paths
/// have neighbours of which neither can name the other, it isn't sound.
pub fn note_draft(alloc: Global, draft: Draft) -> Result<Image, NoMemory>
    ensures { IfOk result (λ image. view.image image ≡ noted (view.draft draft)) }
{
    let Draft { arrays, blocks } = draft;
    if blocks.len() >= 2_147_483_648 {
        return Err(NoMemory);
    }
    let outlines = find_outlines(alloc, &blocks)?;
    let places = find_places(alloc, &outlines)?;
    let table = by_number(alloc, &places)?;
    let blocks = note_blocks(alloc, &table, blocks)?;
    Ok(Image { arrays, blocks })
}
