//! Cores that make their events in other orders than `run`.
ghost use Rattle.df_core.specs.Cores.{IsRunning};

use crate::graphs::{compiled, world};
use crate::images::are_first;
use df_core::{Core, Done, Event, RunAnswer, StepFault, run_checked};
use std::alloc::Global;
use std::test::Fail;
use ws_isa::{Checked, walk_image};
use ws_words::{Cells, NoMemory, Words, World};

// How often each program is run at random.
const SEEDS: u64 = 20;

// The most events of such a run, and the most firings of one by `run`.
const EVENTS: u32 = 3_000;

pub const FIRINGS: u64 = 20_000;

// So many events are tried before one is picked.
const TRIES: u32 = 100;

// Programs with loads and stores in many orders, calls, ports, index faults, and no end.
pub const PROGRAMS: &[&str] = &[
    "proc main() { var i; while (i < 6) { print i; print i * 7; i = i + 1; } }",
    "array a[4]; proc main() { var i, s; while (i < 4) { a[i] = i * i; i = i + 1; } i = 0; \
    while (i < 4) { s = s + a[i]; i = i + 1; } print s; }",
    "array a[5]; proc main() { var i, j, t; while (i < 5) { read t; a[i] = t; i = i + 1; } \
    i = 0; while (i < 4) { j = 0; while (j < 4 - i) { if (a[j] > a[j + 1]) { t = a[j]; \
    a[j] = a[j + 1]; a[j + 1] = t; } j = j + 1; } i = i + 1; } print a[0]; print a[4]; }",
    "array a[2]; array b[2]; proc main() { var x; read x; if (x) { a[0] = 5; } else { b[0] = 6; \
    } print a[0] + b[0]; if (x > 1) { b[1] = a[0]; } print b[1]; }",
    "array a[3]; proc f(x) { a[x] = a[x] + x; return a[x]; } proc main() { var i, y; \
    while (i < 3) { y = f(i); f(i); print y; i = i + 1; } print a[2]; }",
    "proc main() { var x, y; give 2, x; take 1, x; give 3, y; take 7, x + y; take 1, y; \
    print x; }",
    "array a[2]; proc main() { var i; while (i < 5) { print i; a[i] = i; i = i + 1; } }",
    "array a[2]; proc main() { var x; print 1; x = a[7]; print x; while (1) { print 2; } }",
    "array a[1]; proc main() { var x; a[0] = 3; print a[0]; print a[1]; a[0] = 4; print a[0]; }",
    "proc main() { var x; while (1) { print x; x = x + 1; } }",
];

pub const INPUT: &[u64] = &[9, 2, 7, 2, 5];

// A generator of numbers, by Knuth's multiplier.
#[derive(Drop)]
struct Numbers {
    state: u64,
}

impl Numbers {
    // The next one, below a count.
    fn below(&mut self, count: u64) -> u64 {
        self.state = self
            .state
            .wrapping_mul(6_364_136_223_846_793_005)
            .wrapping_add(1_442_695_040_888_963_407);
        (self.state >> 33) % count.max(1)
    }

    // An event of one of the last three waves, at an instruction that an image of so many has.
    fn event(&mut self, top: u64, instrs: u64) -> Event {
        let wave = top.saturating_sub(self.below(3));
        let instr = self.below(instrs).saturating_add(1);
        let instr = u32::try_from(instr).unwrap_or(0);
        match self.below(4) {
            0 => Event::Match {
                wave,
                instr,
                port: 0,
            },
            1 => Event::Match {
                wave,
                instr,
                port: 1,
            },
            2 => Event::Match {
                wave,
                instr,
                port: 2,
            },
            _ => Event::Issue { wave, instr },
        }
    }
}

fn wave_of(event: Event) -> u64 {
    match event {
        Event::Match { wave, .. } => wave,
        Event::Issue { wave, .. } => wave,
    }
}

fn count_instrs(image: &Checked) -> u64 {
    let mut count = 0u64;
    for block in &image.image().blocks {
        count = count.saturating_add(block.instrs.len() as u64);
    }
    count
}

// Makes an event that was found by trying, or where none was, one that the core picks, and says in
// which wave; or there is none.
fn make_some(
    core: &mut Core<'_>,
    numbers: &mut Numbers,
    top: u64,
    instrs: u64,
) -> Result<Option<u64>, NoMemory>
    requires { IsRunning core.old }
    ensures { IsRunning core.new }
{
    for _ in 0..TRIES {
        let event = numbers.event(top, instrs);
        match core.step(event) {
            Ok(()) => return Ok(Some(wave_of(event))),
            Err(StepFault::NotReady) => {}
            Err(StepFault::NoMemory) => return Err(NoMemory),
        }
    }
    let Some(event) = core.pick() else {
        return Ok(None);
    };
    match core.step(event) {
        Ok(()) => Ok(Some(wave_of(event))),
        Err(_) => Err(NoMemory),
    }
}

// Makes events until none is enabled, or very many are made. Says whether none is enabled.
fn comes_to_rest(core: &mut Core<'_>, seed: u64, instrs: u64) -> Result<bool, NoMemory>
    requires { IsRunning core.old }
    ensures { IsRunning core.new }
{
    let mut numbers = Numbers { state: seed };
    let mut top = 1u64;
    for _ in 0..EVENTS {
        match make_some(core, &mut numbers, top, instrs)? {
            Some(wave) => top = top.max(wave.saturating_add(1)),
            None => return Ok(true),
        }
    }
    Ok(false)
}

// Whether ports took these words.
fn took_so(core: &Core<'_>, took: &Cells) -> bool
    requires { IsRunning core.now }
{
    for port in 1..8u8 {
        let words = match took.get(usize::from(port - 1)) {
            Some(words) => words.as_slice(),
            None => &[],
        };
        if core.took(port) != words {
            return false;
        }
    }
    true
}

// Whether a core has printed, stored and given to ports what is reported.
pub fn has_done(core: &Core<'_>, done: &Done) -> bool
    requires { IsRunning core.now }
{
    core.printed() == done.printed.as_slice()
        && *core.cells() == done.arrays
        && took_so(core, &done.took)
}

// Whether a core at rest has done what this run did.
pub fn is_at_end_of(core: &Core<'_>, run: &RunAnswer) -> bool
    requires { IsRunning core.now }
{
    match run {
        RunAnswer::Rest(done) => has_done(core, done) && core.fired() == done.fired,
        RunAnswer::Fault(_, done) => has_done(core, done),
        RunAnswer::Budget(_) => false,
    }
}

// Whether a core that makes its events in some order has the result that `run` answers.
fn comes_to(
    alloc: Global,
    image: &Checked,
    world: &World,
    run: &RunAnswer,
    printed: &Words,
    seed: u64,
) -> Result<bool, NoMemory> {
    let mut core = Core::begin(alloc, image, world)?;
    if comes_to_rest(&mut core, seed, count_instrs(image))? {
        Ok(is_at_end_of(&core, run))
    } else {
        Ok(are_first(core.printed(), printed))
    }
}

// How many of the seeds have that result before one doesn't.
fn seeds(
    alloc: Global,
    image: &Checked,
    world: &World,
    run: &RunAnswer,
    printed: &Words,
) -> Result<u64, NoMemory> {
    for seed in 0..SEEDS {
        if !comes_to(alloc, image, world, run, printed, seed)? {
            return Ok(seed);
        }
    }
    Ok(SEEDS)
}

fn seeds_in(alloc: Global, image: &Checked, world: &World) -> Result<u64, NoMemory> {
    let run = run_checked(alloc, image, world, FIRINGS)?;
    let walked = walk_image(alloc, image, world, FIRINGS)?;
    seeds(alloc, image, world, &run, &walked.printed)
}

fn seeds_of(alloc: Global, text: &str) -> Result<u64, NoMemory> {
    let image = compiled(alloc, text)?;
    let world = world(alloc, INPUT)?;
    seeds_in(alloc, &image, &world)
}

#[test]
fn events_in_any_order_come_to_what_run_answers(rt: HostRuntime) -> Result<(), Fail> {
    let alloc = rt.alloc();
    for text in PROGRAMS {
        assert_eq!(rt; seeds_of(alloc, text)?, SEEDS, "{text}");
    }
    Ok(())
}
