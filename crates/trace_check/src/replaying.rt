//! Making the events of a trace.

ghost use Rattle.std.specs.Prelude.{◌≡◌, IfOk, IfErr, OnOk};
ghost use Rattle.ws_words.specs.Plain.{world_of};
ghost use Rattle.df_core.specs.Cores.{Makes, IsRunning, gone};
ghost use Rattle.trace_check.specs.declared.replaying.ReplayFault.TheVariants.{NoMemory as of_memory};
ghost use Rattle.trace_check.specs.Replays.{Replays, IsReplayFault, MakesAll, IsEventFault, IsMakingFault};
ghost use Rattle.trace_check.specs.Replays.{event_in};

use crate::events::{Lined, Trace};
use df_core::{Core, StepFault, counts, every_list_of_events};
use std::alloc::Global;
use ws_isa::{Checked, effects_are_one, walks_go_on};
use ws_words::{NoMemory, Words, World};

/// What is reported of a trace that was replayed: the words that were printed, whether no event is
/// enabled after its last one, and how many instances have fired.
#[derive(Debug, Drop)]
pub struct Replayed {
    pub printed: Words,
    pub rest: bool,
    pub fired: u64,
}

/// Why a trace isn't replayed: the event of a line isn't enabled after those before it, or want of
/// memory.
#[derive(Clone, Copy, Debug, PartialEq, Eq)]
pub enum ReplayFault {
    Illegal { line: u32 },
    NoMemory,
}

impl From<NoMemory> for ReplayFault {
    ghost from_gives = { λ _ e. e ≡ of_memory };

    fn from(_e: NoMemory) -> ReplayFault {
        ReplayFault::NoMemory
    }
}

// Makes an event.
fn make(core: &mut Core<'_>, event: Lined) -> Result<(), ReplayFault>
    requires { IsRunning core.old }
    ensures core { IsRunning core.new }
    ensures gone { gone core.new ≡ gone core.old }
    ensures made { OnOk result (Makes (event_in event) core.old core.new) }
    ensures refused { IfErr result (IsEventFault event core.old) }
{
    match core.step(event.event) {
        Ok(()) => Ok(()),
        Err(StepFault::NotReady) => Err(ReplayFault::Illegal { line: event.line }),
        Err(StepFault::NoMemory) => Err(ReplayFault::NoMemory),
    }
}

// Makes events, one after the other.
fn make_all(core: &mut Core<'_>, events: &[Lined]) -> Result<(), ReplayFault>
    requires { IsRunning core.old }
    ensures core { IsRunning core.new }
    ensures gone { gone core.new ≡ gone core.old }
    ensures made { OnOk result (MakesAll events.now core.old core.new) }
    ensures refused { IfErr result (IsMakingFault events.now core.old) }
{
    for event in events {
        if let Err(fault) = make(core, *event) {
            return Err(fault);
        }
    }
    Ok(())
}

/// Makes the events of a trace on a core, from its opening state on.
pub fn replay(
    alloc: Global,
    image: &Checked,
    world: &World,
    trace: &Trace,
) -> Result<Replayed, ReplayFault>
    ensures replayed { IfOk result (Replays image.now (world_of world.now) trace.now) }
    ensures refused { IfErr result (IsReplayFault image.now (world_of world.now) trace.now) }
{
    every_list_of_events();
    counts();
    walks_go_on();
    effects_are_one();
    let mut core = Core::begin(alloc, image, world)?;
    if let Err(fault) = make_all(&mut core, trace.as_slice()) {
        return Err(fault);
    }
    Ok(Replayed {
        printed: Words::from_slice(alloc, core.printed())?,
        rest: core.pick().is_none(),
        fired: core.fired(),
    })
}
