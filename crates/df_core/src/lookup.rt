//! The instructions of an image by number.

ghost use Rattle.std.specs.Prelude.{◌≡◌, ◌++◌, ◌∷◌, [], map, IfOk, OnOk, MatchOption, length};
ghost use Rattle.std.specs.Prelude.{◌<◌, ◌^◌, ◌+◌, ◌-◌};
ghost use Rattle.ws_isa.specs.Image.{instr_at, block_at, note_of, no_note, no_instr, no_block};
ghost use Rattle.ws_isa.specs.Image.{pad_of, leave_to, landing_of, target, is_past_op, array_length};
ghost use Rattle.ws_isa.specs.Image.{start_dests};
ghost use Rattle.ws_isa.specs.View as view;
ghost use Rattle.df_core.specs.Listed.{place_in_code, places};
ghost use Rattle.df_core.specs.Places.{PlaceIs, image_of, destinations};

use crate::program::{PlacedInstr, Program};
use std::alloc::Global;
use ws_isa::{Block, Dest, Exit, Image, Link, Note, Op, Pad};
use ws_words::NoMemory;

impl<'i> Program<'i> {
    /// The program of an image.
    pub fn of(alloc: Global, image: &'i Image) -> Result<Program<'i>, NoMemory>
        requires few { length image.now.blocks.items < 2 ^ 32 - 1 }
        ensures image { IfOk result (λ program. image_of program ≡ view.image image.now) }
    {
        let mut spots = Vec::new(alloc);
        let mut number = 0u32;
        for block in &image.blocks {
            number += 1;
            add_instrs(&mut spots, block, number)?;
        }
        Ok(Program {
            image,
            places: spots,
        })
    }

    /// The image itself.
    pub fn image(&self) -> &'i Image
        ensures itself { result.now ≡ self.now.image.now }
        ensures content { view.image result.now ≡ image_of self.now }
    {
        self.image
    }

    /// The instruction with this number, counted from 1.
    pub fn place(&self, number: u32) -> Option<PlacedInstr<'i>>
        ensures { MatchOption result (instr_at (image_of self.now) number ≡ no_instr)
            (λ place. PlaceIs (image_of self.now) number (view.instr place.instr.now) place.block) }
    {
        if number == 0 {
            return None;
        }
        let at = (number - 1) as usize;
        if at < self.places.len() {
            Some(self.places[at])
        } else {
            None
        }
    }

    /// Where the start pulse goes.
    pub fn start(&self) -> &'i [Dest]
        ensures { result.now ≡ start_dests (image_of self.now) }
    {
        self.pad(1, 0)
    }

    /// The operation of the instruction with this number; `Halt` where there is none.
    pub fn op(&self, number: u32) -> Op
        ensures { result ≡ (instr_at (image_of self.now) number).op }
    {
        match self.place(number) {
            Some(place) => place.instr.op,
            None => Op::Halt,
        }
    }

    /// Its memory annotation.
    pub fn note(&self, number: u32) -> Note
        ensures { result ≡ note_of (image_of self.now) number }
    {
        match self.place(number) {
            Some(place) => place.instr.note.unwrap_or(no_note()),
            None => no_note(),
        }
    }

    /// Where it sends its result, if this is the operand by which it chooses.
    #[inline(always)]
    pub fn destinations(&self, number: u32, selector: u64) -> &'i [Dest]
        ensures { result.now ≡ destinations (image_of self.now) number selector }
    {
        match self.place(number) {
            Some(place) => match place.instr.op {
                Op::Steer => {
                    if selector == 0 {
                        &place.instr.others
                    } else {
                        &place.instr.dests
                    }
                }
                Op::Send(pad) => self.landed(place.block, selector, pad),
                _ => &place.instr.dests,
            },
            None => &[],
        }
    }

    /// Whether a load or store is out of bounds at this index.
    pub fn is_past(&self, op: Op, index: u64) -> bool
        ensures { result ≡ is_past_op (image_of self.now).arrays op (index ∷ []) }
    {
        match op {
            Op::Load(array) | Op::Store(array) => index >= self.length_of(array),
            _ => false,
        }
    }

    // The length of an array by its number from 1; 0 where there is none.
    fn length_of(&self, array: u32) -> u64
        ensures { result ≡ array_length (image_of self.now).arrays array }
    {
        if array == 0 {
            return 0;
        }
        let at = (array - 1) as usize;
        if at < self.image.arrays.len() {
            self.image.arrays[at].length as u64
        } else {
            0
        }
    }

    // The destinations of a pad of the block to which the exit of another goes.
    #[inline(never)]
    fn landed(&self, number: u32, answer: u64, pad: u8) -> &'i [Dest]
        ensures { result.now
            ≡ pad_of (block_at (image_of self.now)
            (target (image_of self.now) number answer)).pads pad }
    {
        match self.block(number) {
            Some(block) => self.pad(target_of(&block.exit, answer), pad),
            None => self.pad(0, pad),
        }
    }

    // The destinations of a pad of the block with this number.
    fn pad(&self, number: u32, pad: u8) -> &'i [Dest]
        ensures { result.now ≡ pad_of (block_at (image_of self.now) number).pads pad }
    {
        match self.block(number) {
            Some(block) => dests_of(&block.pads, pad),
            None => &[],
        }
    }

    // The block with this number, counted from 1.
    fn block(&self, number: u32) -> Option<&'i Block>
        ensures { MatchOption result (block_at (image_of self.now) number ≡ no_block)
            (λ block. view.block block.now ≡ block_at (image_of self.now) number) }
    {
        if number == 0 {
            return None;
        }
        let at = (number - 1) as usize;
        if at < self.image.blocks.len() {
            Some(&self.image.blocks[at])
        } else {
            None
        }
    }
}

// The annotation of what has none.
fn no_note() -> Note
    ensures { result ≡ no_note }
{
    Note {
        pred: Link::Unknown,
        seq: 0,
        succ: Link::Unknown,
        ripple: 0,
    }
}

// The block to which an exit goes where its instruction has this result.
fn target_of(exit: &Exit, answer: u64) -> u32
    ensures { result ≡ leave_to (view.exit exit.now) answer }
{
    match exit {
        Exit::Goto(b) => *b,
        Exit::Branch(_, b, c) => { if answer == 0 { *c } else { *b } }
        Exit::Send(_, landings) => landing(landings, answer),
        Exit::Stop => 0,
    }
}

// The landing whose place is the address, and the last one if there is none.
fn landing(landings: &[u32], address: u64) -> u32
    ensures { result ≡ landing_of landings.now address }
{
    let last = landings.len().saturating_sub(1);
    let place = (address as usize).min(last);
    landings.get(place).copied().unwrap_or(0)
}

// The destinations of a pad by its number.
fn dests_of<'a>(pads: &'a [Pad], number: u8) -> &'a [Dest]
    ensures { result.now ≡ pad_of (map view.pad pads.now) number }
{
    for pad in pads {
        if pad.number == number {
            return &pad.dests;
        }
    }
    &[]
}

// The instructions of a block, behind those of the earlier ones.
fn add_instrs<'i>(
    spots: &mut Vec<PlacedInstr<'i>>,
    block: &'i Block,
    number: u32,
) -> Result<(), NoMemory>
    ensures { OnOk result (map place_in_code spots.new.items
        ≡ map place_in_code spots.old.items
        ++ map (λ i. (view.instr i, number)) block.now.instrs.items) }
{
    for instr in &block.instrs {
        spots.push(PlacedInstr {
            instr,
            block: number,
        })?;
    }
    Ok(())
}
