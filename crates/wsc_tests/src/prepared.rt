//! Cores that are prepared for a run and run on.
ghost use Rattle.df_core.specs.Cores.{IsRunning};

use crate::events::checked;
use crate::graphs::{compiled, world};
use crate::schedules::{FIRINGS, INPUT, PROGRAMS, has_done, is_at_end_of};
use df_core::{Core, Done, Finish, RunAnswer, run_checked};
use std::alloc::Global;
use std::test::Fail;
use ws_isa::Checked;
use ws_words::{NoMemory, World};

// Makes room for a run until so many instances have fired in all, and runs until then.
fn run_until(core: &mut Core<'_>, budget: u64) -> Result<Option<Finish>, NoMemory>
    requires { IsRunning core.old }
    ensures { IsRunning core.new }
{
    if core.fired() > budget {
        return Ok(None);
    }
    core.prepare(budget)?;
    Ok(Some(core.run(budget)))
}

fn finish_of(run: &RunAnswer) -> Finish {
    match run {
        RunAnswer::Rest(_) => Finish::Rest,
        RunAnswer::Budget(_) => Finish::Budget,
        RunAnswer::Fault(array, _) => Finish::Fault { array: *array },
    }
}

fn done_of(run: &RunAnswer) -> &Done {
    match run {
        RunAnswer::Rest(done) => done,
        RunAnswer::Budget(done) => done,
        RunAnswer::Fault(_, done) => done,
    }
}

// Whether a core that ended so has done what this run did.
fn is_as(core: &Core<'_>, finish: Option<Finish>, run: &RunAnswer) -> bool
    requires { IsRunning core.now }
{
    let same = match run {
        RunAnswer::Budget(done) => has_done(core, done) && core.fired() == done.fired,
        _ => is_at_end_of(core, run),
    };
    same && finish == Some(finish_of(run))
}

// Whether a core that runs for all but the last of a run's firings, and then on, has the results of the
// shorter run and the whole one.
fn runs_in_two(
    alloc: Global,
    image: &Checked,
    world: &World,
    short: &RunAnswer,
    whole: &RunAnswer,
) -> Result<bool, NoMemory> {
    let mut core = Core::begin(alloc, image, world)?;
    let first = run_until(&mut core, done_of(short).fired)?;
    let is_short = is_as(&core, first, short);
    let second = run_until(&mut core, FIRINGS)?;
    Ok(is_short && is_as(&core, second, whole))
}

// Whether a core that runs for all of a run's firings at once has its result.
fn runs_at_once(
    alloc: Global,
    image: &Checked,
    world: &World,
    whole: &RunAnswer,
) -> Result<bool, NoMemory> {
    let mut core = Core::begin(alloc, image, world)?;
    let finish = run_until(&mut core, done_of(whole).fired)?;
    Ok(is_as(&core, finish, whole))
}

// Whether it is so where the shorter run is short of one firing.
fn runs_short_of_one(
    alloc: Global,
    image: &Checked,
    world: &World,
    whole: &RunAnswer,
) -> Result<bool, NoMemory> {
    let budget = done_of(whole).fired.saturating_sub(1);
    let short = run_checked(alloc, image, world, budget)?;
    Ok(done_of(&short).fired == budget && runs_in_two(alloc, image, world, &short, whole)?)
}

fn runs_alike_in(alloc: Global, image: &Checked, world: &World) -> Result<bool, NoMemory> {
    let whole = run_checked(alloc, image, world, FIRINGS)?;
    let at_once = runs_at_once(alloc, image, world, &whole)?;
    Ok(at_once && runs_short_of_one(alloc, image, world, &whole)?)
}

fn runs_alike(alloc: Global, text: &str) -> Result<bool, NoMemory> {
    let image = compiled(alloc, text)?;
    let world = world(alloc, INPUT)?;
    runs_alike_in(alloc, &image, &world)
}

// At once, and with a stop before the last firing.
#[test]
fn a_core_that_is_prepared_runs_as_run_answers(rt: HostRuntime) -> Result<(), Fail> {
    let alloc = rt.alloc();
    for text in PROGRAMS {
        assert!(rt; runs_alike(alloc, text)?, "{text}");
    }
    Ok(())
}

// Images that print 7 in a number of firings, and what is printed with one less: the newest token is taken
// first, so in the first image `out` fires last, and in the second `halt`.
const LAST: &[(&str, u64, &[u64])] = &[
    (
        "wavescalar 1\nwave 1\nblock 1\npad 0 1.0\n1: advance -> 2.0 4.0\n2: const 7 -> 3.0\n\
        3: out <., 1, 2>.1\n4: halt <1, 2, .>.2\nstop\nend\n",
        4,
        &[],
    ),
    (
        "wavescalar 1\nwave 1\nblock 1\npad 0 1.0\n1: advance -> 4.0 2.0\n2: const 7 -> 3.0\n\
        3: out <., 1, 2>.1\n4: halt <1, 2, .>.2\nstop\nend\n",
        4,
        &[7],
    ),
];

// Whether a core comes to rest with so many firings, and has printed these words before the last.
fn prints_before_last(core: &mut Core<'_>, cost: u64, printed: &[u64]) -> Result<bool, NoMemory>
    requires { IsRunning core.old }
    ensures { IsRunning core.new }
{
    let short = run_until(core, cost.saturating_sub(1))?;
    let is_short = short == Some(Finish::Budget) && core.printed() == printed;
    let whole = run_until(core, cost)?;
    Ok(is_short && whole == Some(Finish::Rest) && core.printed() == [7].as_slice())
}

fn last_comes_last(
    alloc: Global,
    text: &str,
    cost: u64,
    printed: &[u64],
) -> Result<bool, NoMemory> {
    let image = checked(alloc, text)?;
    let world = world(alloc, &[])?;
    let mut core = Core::begin(alloc, &image, &world)?;
    prints_before_last(&mut core, cost, printed)
}

#[test]
fn the_budget_cuts_what_fires_last(rt: HostRuntime) -> Result<(), Fail> {
    let alloc = rt.alloc();
    for (text, cost, printed) in LAST {
        assert!(rt; last_comes_last(alloc, text, *cost, printed)?, "{text}");
    }
    Ok(())
}
