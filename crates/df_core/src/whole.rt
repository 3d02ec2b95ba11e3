//! A run from the start of an image.

ghost use Rattle.std.specs.Prelude.{IfOk};
ghost use Rattle.ws_words.specs.Plain.{world_of};
ghost use Rattle.df_core.specs.Answer.{RunSo};

use crate::answer::{RunAnswer, run_of};
use crate::drive::run_on;
use crate::outset::open;
use crate::program::Program;
use std::alloc::Global;
use ws_isa::Checked;
use ws_words::{NoMemory, World};

/// Runs an image until nothing more can happen, an out-of-bounds load or store stops it, or so many
/// instances have fired.
pub fn run_checked(
    alloc: Global,
    image: &Checked,
    world: &World,
    budget: u64,
) -> Result<RunAnswer, NoMemory>
    ensures { IfOk result (RunSo image.now (world_of world.now) budget) }
{
    let program = Program::of(alloc, image.image())?;
    let mut flow = open(alloc, &program, world)?;
    let finish = run_on(&program, &mut flow, budget)?;
    run_of(alloc, finish, flow)
}
