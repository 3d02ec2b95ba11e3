//! A buffer beside the core.

ghost use Rattle.std.specs.Prelude.{◌≤◌};
ghost use Rattle.df_core.specs.Cores.{IsRunning};

use crate::compiled::compiled;
use crate::runs::{Past, let_go};
use crate::tapes::past_with;
use df_core::{Core, Event};
use port_set::TapePort;
use std::alloc::Global;
use std::test::Fail;
use store_buf::BufFault;
use ws_isa::Checked;
use ws_words::{Cells, NoMemory, Words, World};

// How often each program is run.
const SEEDS: u64 = 21;

// Programs with loads and stores in many orders, calls, ports, index faults, and no end.
const PROGRAMS: &[&str] = &[
    "proc main() { var i; while (i < 6) { print i; print i * 7; i = i + 1; } }",
    "array a[4]; proc main() { var i, s; while (i < 4) { a[i] = i * i; i = i + 1; } i = 0; \
    while (i < 4) { s = s + a[i]; i = i + 1; } print s; }",
    "array a[5]; proc main() { var i, j, t; while (i < 5) { read t; a[i] = t; i = i + 1; } \
    i = 0; while (i < 4) { j = 0; while (j < 4 - i) { if (a[j] > a[j + 1]) { t = a[j]; \
    a[j] = a[j + 1]; a[j + 1] = t; } j = j + 1; } i = i + 1; } print a[0]; print a[4]; }",
    "array a[2]; array b[2]; proc main() { var x; read x; if (x) { a[0] = 5; } else { b[0] = 6; \
    } print a[0] + b[0]; if (x > 1) { b[1] = a[0]; } print b[1]; }",
    "array a[3]; proc f(x) { a[x] = a[x] + x; return a[x]; } proc main() { var i, y; \
    while (i < 3) { y = f(i); f(i); print y; i = i + 1; } print a[2]; }",
    "proc main() { var x, y; give 2, x; take 1, x; give 3, y; give 2, y; take 2, x + y; take 1, y; \
    print x; }",
    "array a[2]; proc main() { var i; while (i < 5) { print i; a[i] = i; i = i + 1; } }",
    "array a[2]; proc main() { var x; print 1; x = a[7]; print x; while (1) { print 2; } }",
    "array a[1]; proc main() { var x; a[0] = 3; print a[0]; print a[1]; a[0] = 4; print a[0]; }",
    "proc main() { var x; while (1) { give 2, x; take 1, x; print x; } }",
];

const INPUT: &[u64] = &[9, 2, 7, 2, 5];

fn world(alloc: Global) -> Result<World, NoMemory> {
    let mut left = Cells::empty(alloc);
    left.push(Words::from_slice(alloc, &[4])?)?;
    left.push(Words::from_slice(alloc, &[6, 0, 11])?)?;
    Ok(World {
        input: Words::from_slice(alloc, INPUT)?,
        left,
    })
}

// Makes issues while the core has any, and says how many requests were issued.
fn issue_all(core: &mut Core<'_>) -> usize
    requires { IsRunning core.old }
    ensures { IsRunning core.new }
{
    let mut count = 0usize;
    for _ in 0..1_000 {
        let Some(Event::Issue { wave, instr }) = core.pick() else {
            return count;
        };
        let made = core.step(Event::Issue { wave, instr }).is_ok();
        if made && core.fault().is_none() {
            count = count.wrapping_add(1);
        }
    }
    count
}

// Whether a core can match these tokens in this order, where it issues what it can after each, and has
// issued as many requests as is said beside each.
fn can_match(core: &mut Core<'_>, tokens: &[(u64, u32, u8, usize)]) -> bool
    requires { IsRunning core.old }
    ensures { IsRunning core.new }
{
    let mut issued = 0usize;
    for (wave, instr, port, count) in tokens {
        let event = Event::Match {
            wave: *wave,
            instr: *instr,
            port: *port,
        };
        if core.step(event).is_err() {
            return false;
        }
        issued = issued.wrapping_add(issue_all(core));
        if issued != *count {
            return false;
        }
    }
    true
}

// Whether a port has taken what the core's has.
fn took_so(core: &Core<'_>, port: u8, slot: &Option<TapePort>) -> bool
    requires core { IsRunning core.now }
    requires port { 1 ≤ port }
{
    match slot {
        Some(tape) => core.took(port) == tape.took(),
        None => false,
    }
}

// Whether a run has left what the core has.
fn ends_so(core: &Core<'_>, past: &Past<TapePort>) -> bool
    requires { IsRunning core.now }
{
    let stop = match core.fault() {
        Some(array) => Some(BufFault::Ended { array }),
        None => None,
    };
    let end = &past.end;
    past.stop == stop
        && past.is_whole == core.pick().is_none()
        && core.printed() == end.printed.as_slice()
        && *core.cells() == end.arrays
        && took_so(core, 1, &end.ports.first)
        && took_so(core, 2, &end.ports.second)
}

// Whether a buffer has kept each request once, until there was a fault.
fn keeps_once(past: &Past<TapePort>) -> bool {
    let kept = past.answers.first() == Some(&(None, Some(BufFault::Old)));
    kept && (past.answers.len() == 1 || past.stop.is_some())
}

// Whether the core has the same result as a run.
fn core_is_so(
    alloc: Global,
    image: &Checked,
    world: &World,
    past: &Past<TapePort>,
) -> Result<bool, NoMemory> {
    let mut core = Core::begin(alloc, image, world)?;
    Ok(can_match(&mut core, &past.tokens) && ends_so(&core, past))
}

// Whether the buffer and the core have the same result in an order of tokens.
fn is_alike(alloc: Global, image: &Checked, world: &World, seed: u64) -> Result<bool, NoMemory> {
    let past = past_with(alloc, image, INPUT, (0, 0), seed)?;
    let keeps = keeps_once(&past);
    let answer = core_is_so(alloc, image, world, &past);
    let_go(past);
    Ok(answer? && keeps)
}

// Whether they do so in each of some orders.
fn are_alike(alloc: Global, image: &Checked, world: &World) -> Result<bool, NoMemory> {
    for seed in 0..SEEDS {
        if !is_alike(alloc, image, world, seed)? {
            return Ok(false);
        }
    }
    Ok(true)
}

#[test]
fn a_buffer_answers_as_the_core_in_any_order(rt: HostRuntime) -> Result<(), Fail> {
    let alloc = rt.alloc();
    let world = world(alloc)?;
    for text in PROGRAMS {
        let image = compiled(alloc, text)?;
        let alike = are_alike(alloc, &image, &world)?;
        assert!(rt; alike, "{text}");
    }
    Ok(())
}
