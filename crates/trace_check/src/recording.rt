//! Making events and keeping them.

ghost use Rattle.std.specs.Prelude.{◌≤◌, length, IfOk, OnOk, MatchOption};
ghost use Rattle.ws_words.specs.Outside.{World as Given};
ghost use Rattle.ws_words.specs.Plain.{world_of};
ghost use Rattle.ws_isa.specs.Image.{Image};
ghost use Rattle.df_core.specs.Core.{State};
ghost use Rattle.df_core.specs.Cores.{IsAt, Makes, IsEnabled, event_of, IsRunning};
ghost use Rattle.trace_check.specs.Recorded.{Traces, MakesEvents, IsDone, MayComeNext, EndIs};

use crate::events::Events;
use df_core::{Core, Event, StepFault, counts, every_list_of_events};
use std::alloc::Global;
use ws_isa::Checked;
use ws_words::{NoMemory, World};

/// How a list of events ends: no event is enabled after them; as many instances have fired as may,
/// and all that could come fires one; or the chain is stopped at an out-of-bounds load or store.
#[derive(Clone, Copy, Debug, PartialEq, Eq)]
pub enum TraceEnd {
    Rest,
    Budget,
    Fault,
}

/// The events that were made, and how they end.
#[derive(Debug, Drop)]
pub struct Traced {
    pub events: Events,
    pub end: TraceEnd,
}

// The event that is to be made next: any until so many instances have fired, and then one that
// fires none.
fn next(core: &Core<'_>, budget: u64) -> Option<Event>
    requires { IsRunning core.now }
    ensures { MatchOption result (IsDone budget core.now)
        (λ event. MayComeNext budget (event_of event) core.now) }
{
    if core.fault().is_some() {
        None
    } else if core.fired() < budget {
        core.pick()
    } else {
        core.pick_quiet()
    }
}

// Makes an event that is enabled.
fn make(core: &mut Core<'_>, event: Event) -> Result<(), NoMemory>
    requires core { IsRunning core.old }
    requires enabled { IsEnabled (event_of event) core.old }
    ensures core { IsRunning core.new }
    ensures made { OnOk result (Makes (event_of event) core.old core.new) }
{
    match core.step(event) {
        Ok(()) => Ok(()),
        Err(StepFault::NotReady) => unreachable!(),
        Err(StepFault::NoMemory) => Err(NoMemory),
    }
}

// Makes events until none is to be made. No list has as many as could be counted.
fn make_events(alloc: Global, core: &mut Core<'_>, budget: u64) -> Result<Events, NoMemory>
    requires { IsRunning core.old }
    ensures core { IsRunning core.new }
    ensures leads { IfOk result (λ events. MakesEvents budget events core.old core.new) }
    ensures finished { OnOk result (IsDone budget core.new) }
{
    let mut events = Events::empty(alloc);
    for _ in 0..u64::MAX {
        let Some(event) = next(core, budget) else {
            return Ok(events);
        };
        make(core, event)?;
        events.push(event)?;
    }
    Err(NoMemory)
}

// How the events end, after which none is to be made.
fn end_of(core: &Core<'_>, budget: u64) -> TraceEnd
    requires core { IsRunning core.now }
    requires finished { IsDone budget core.now }
    ensures { (image : Image) (world : Given) (state : State) → IsAt image world core.now state →
        length state.fired ≤ budget → EndIs image budget result state }
{
    if core.fault().is_some() {
        TraceEnd::Fault
    } else if core.pick().is_some() {
        TraceEnd::Budget
    } else {
        TraceEnd::Rest
    }
}

/// Makes events on a core, from its opening state on: until none is enabled, the chain is stopped,
/// or so many instances have fired, and then those that fire none.
pub fn trace(alloc: Global, image: &Checked, world: &World, budget: u64) -> Result<Traced, NoMemory>
    ensures { IfOk result (λ traced.
        Traces image.now (world_of world.now) budget traced.events traced.end) }
{
    every_list_of_events();
    counts();
    let mut core = Core::begin(alloc, image, world)?;
    let events = make_events(alloc, &mut core, budget)?;
    let end = end_of(&core, budget);
    Ok(Traced { events, end })
}
