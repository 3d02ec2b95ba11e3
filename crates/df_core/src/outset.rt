//! The state of a run before its first event.

ghost use Rattle.std.specs.Prelude.{◌≡◌, IfOk};
ghost use Rattle.ws_words.specs.Plain.{world_of};
ghost use Rattle.ws_isa.specs.Formed.{Formed};
ghost use Rattle.df_core.specs.Places.{image_of};
ghost use Rattle.df_core.specs.Flows.{StandsForOpening};

use crate::chain::Chain;
use crate::flow::Flow;
use crate::hints::Hints;
use crate::memory::Memory;
use crate::program::Program;
use crate::slots::MatchStore;
use crate::way::Way;
use std::alloc::Global;
use ws_words::{NoMemory, World};

/// The start pulse is in flight, and nothing else has happened.
pub fn open<'w>(
    alloc: Global,
    program: &Program<'_>,
    world: &'w World,
) -> Result<Flow<'w>, NoMemory>
    requires formed { Formed (image_of program.now) }
    ensures opening { IfOk result (StandsForOpening (image_of program.now) (world_of world.now)) }
    ensures gone { IfOk result (λ flow. flow.memory.gone ≡ 0) }
{
    let mut way = Way {
        front: 0,
        now: Vec::new(alloc),
        later: Vec::new(alloc),
    };
    way.now.reserve(8)?;
    way.later.reserve(8)?;
    way.send(program.start(), 0, 0);
    Ok(Flow {
        slots: MatchStore::open(alloc, program.places.len().saturating_add(1))?,
        way,
        asked: Vec::new(alloc),
        hints: Hints::empty(alloc),
        early: Vec::new(alloc),
        chain: Chain {
            wave: 1,
            last: None,
        },
        fault: None,
        memory: Memory::open(alloc, &program.image.arrays, world)?,
        fired: 0,
    })
}
