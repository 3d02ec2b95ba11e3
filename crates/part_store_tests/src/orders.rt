//! IsRunning in many orders, beside one to which no address comes alone, and beside the core.

ghost use Rattle.std.specs.Prelude.{◌≤◌};
ghost use Rattle.df_core.specs.Cores.{IsRunning};

use crate::images::{CELLS, MIXED, PAST, PORTS, SEVENTEEN, image_of};
use crate::runs::{BufferOrder, Past, let_go};
use crate::tapes::{LEFT, past_with};
use df_core::Core;
use port_set::TapePort;
use std::alloc::Global;
use std::test::Fail;
use store_buf::BufFault;
use ws_isa::Checked;
use ws_words::{Cells, NoMemory, Words, World};

// How many orders each image is run in.
const SEEDS: u64 = 40;

// The most events of the core.
const EVENTS: u32 = 1_000;

const TEXTS: &[&str] = &[CELLS, PAST, MIXED, PORTS, SEVENTEEN];

const INPUT: &[u64] = &[9, 2, 7, 5];

// An order by a seed. In every second one the data of stores comes late.
fn by_seed(seed: u64, apart: bool) -> BufferOrder {
    BufferOrder {
        script: &[],
        seed: Some(seed),
        late: apart && seed.is_multiple_of(2),
        apart,
        watched: 1,
    }
}

fn world(alloc: Global) -> Result<World, NoMemory> {
    let mut left = Cells::empty(alloc);
    left.push(Words::empty(alloc))?;
    left.push(Words::from_slice(alloc, LEFT)?)?;
    Ok(World {
        input: Words::from_slice(alloc, INPUT)?,
        left,
    })
}

// Makes events while there are any.
fn run_core(core: &mut Core<'_>)
    requires { IsRunning core.old }
    ensures { IsRunning core.new }
{
    for _ in 0..EVENTS {
        let Some(event) = core.pick() else {
            return;
        };
        if core.step(event).is_err() {
            return;
        }
    }
}

// Whether a port has taken what the core's has.
fn took_so(core: &Core<'_>, port: u8, slot: &Option<TapePort>) -> bool
    requires core { IsRunning core.now }
    requires port { 1 ≤ port }
{
    match slot {
        Some(tape) => core.took(port) == tape.took(),
        None => false,
    }
}

// Whether a run has left what the core has, which has completed.
fn ends_so(core: &Core<'_>, past: &Past<TapePort>) -> bool
    requires { IsRunning core.now }
{
    let stop = match core.fault() {
        Some(array) => Some(BufFault::Ended { array }),
        None => None,
    };
    let end = &past.end;
    past.stop == stop
        && core.pick().is_none()
        && past.is_whole
        && core.printed() == end.printed.as_slice()
        && *core.cells() == end.arrays
        && took_so(core, 1, &end.ports.first)
        && took_so(core, 2, &end.ports.second)
}

// Whether the core has the same result as a run.
fn core_is_so(
    alloc: Global,
    image: &Checked,
    world: &World,
    past: &Past<TapePort>,
) -> Result<bool, NoMemory> {
    let mut core = Core::begin(alloc, image, world)?;
    run_core(&mut core);
    Ok(ends_so(&core, past))
}

// Whether two ports have taken the same.
fn took_alike(one: &Option<TapePort>, other: &Option<TapePort>) -> bool {
    match (one, other) {
        (Some(one), Some(other)) => one.took() == other.took(),
        _ => false,
    }
}

// Whether all that a run was answered was answered in another one.
fn answered_alike(past: &Past<TapePort>, base: &Past<TapePort>) -> bool {
    let all = &base.answers;
    past.answers.len() == all.len() && past.answers.iter().all(|answer| all.contains(answer))
}

// Whether a run had the same result as another one. If they were stopped, loads that are later in the walk
// may have been answered in only one of them.
fn is_like(past: &Past<TapePort>, base: &Past<TapePort>) -> bool {
    let (end, other) = (&past.end, &base.end);
    past.stop == base.stop
        && past.is_whole == base.is_whole
        && end.printed.as_slice() == other.printed.as_slice()
        && end.arrays == other.arrays
        && took_alike(&end.ports.first, &other.ports.first)
        && took_alike(&end.ports.second, &other.ports.second)
        && (base.stop.is_some() || answered_alike(past, base))
}

// Whether a run in the order of a seed has the same result as another one.
fn is_alike(
    alloc: Global,
    image: &Checked,
    seed: u64,
    base: &Past<TapePort>,
) -> Result<bool, NoMemory> {
    let past = past_with(alloc, image, INPUT, 0, &by_seed(seed, true))?;
    let alike = is_like(&past, base);
    let_go(past);
    Ok(alike)
}

// Whether runs in many orders have the same result as another one.
fn are_alike(alloc: Global, image: &Checked, base: &Past<TapePort>) -> Result<bool, NoMemory> {
    for seed in 0..SEEDS {
        if !is_alike(alloc, image, seed, base)? {
            return Ok(false);
        }
    }
    Ok(true)
}

// Whether all runs of an image have the core's result.
fn is_so(alloc: Global, text: &str, world: &World) -> Result<bool, NoMemory> {
    let image = image_of(alloc, text)?;
    let base = past_with(alloc, &image, INPUT, 0, &by_seed(1, false))?;
    let alike = are_alike(alloc, &image, &base);
    let core = core_is_so(alloc, &image, world, &base);
    let_go(base);
    Ok(alike? && core?)
}

#[test]
fn a_buffer_answers_alike_in_any_order(rt: HostRuntime) -> Result<(), Fail> {
    let alloc = rt.alloc();
    let world = world(alloc)?;
    for text in TEXTS {
        let so = is_so(alloc, text, &world)?;
        assert!(rt; so, "{text}");
    }
    Ok(())
}

// Whether a port that fails at its second call stops a run in the order of a seed.
fn port_stops(alloc: Global, image: &Checked, seed: u64) -> Result<bool, NoMemory> {
    let past = past_with(alloc, image, &[], 2, &by_seed(seed, true))?;
    let stops = past.stop == Some(BufFault::Stopped { port: 2 });
    let_go(past);
    Ok(stops)
}

#[test]
fn a_port_that_fails_stops_the_buffer(rt: HostRuntime) -> Result<(), Fail> {
    let alloc = rt.alloc();
    let image = image_of(alloc, PORTS)?;
    for seed in 0..SEEDS {
        let stops = port_stops(alloc, &image, seed)?;
        assert!(rt; stops, "{seed}");
    }
    Ok(())
}
