//! An image with its instructions by number.

ghost use Rattle.ws_isa.specs.View as view;
ghost use Rattle.df_core.specs.Listed.{PlacesAre};

use ws_isa::{Image, Instr};

/// An instruction, and the number of its block.
#[derive(Clone, Copy)]
pub struct PlacedInstr<'i> {
    pub instr: &'i Instr,
    pub block: u32,
}

/// An image, with its instructions in order.
#[derive(Drop)]
pub struct Program<'i> {
    pub(crate) image: &'i Image,
    pub(crate) places: Vec<PlacedInstr<'i>>,
    pub(crate) ghost listed: { PlacesAre (view.image image.now) places.items },
}
