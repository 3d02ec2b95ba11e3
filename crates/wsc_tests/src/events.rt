//! A core's events one by one.
ghost use Rattle.df_core.specs.Cores.{IsRunning};

use crate::graphs::world;
use annot_check::check_image;
use asm_text::read_asm;
use df_core::{Core, Event, StepFault};
use std::alloc::Global;
use std::test::Fail;
use ws_isa::Checked;
use ws_words::{NoMemory, World};

// Reads a word, stores 5 into cell 0 if it isn't 0, and prints both cells.
const IMAGE: &str = "wavescalar 1\narray a 2\nwave 1\nblock 1\npad 0 1.0\n\
    1: advance -> 2.0 3.0\n2: in <., 1, ?>.1 -> 3.1\n\
    3: steer -> 4.0 5.0 8.0 | 7.0 8.0\nif 2 2 3\n\
    block 2\n4: const 0 -> 6.0\n5: const 5 -> 6.1\n6: store 1 <1, 2, 4>.2\ngo 4\n\
    block 3\n7: nop <1, 3, 4>.1\ngo 4\n\
    block 4\n8: merge -> 9.0 10.0 15.0\n9: const 0 -> 11.0\n10: const 1 -> 12.0\n\
    11: load 1 <?, 4, 5>.2 -> 13.0\n12: load 1 <4, 5, 6>.2 -> 14.0\n\
    13: out <5, 6, 7>.6\n14: out <6, 7, 8>.7\n15: halt <7, 8, .>.8\nstop\nend\n";

// The wave and the instruction of an event, and the port of a match.
type Row = (u64, u32, Option<u8>);

// An event of a run of that image on the word 1, behind others that may not be made before it.
const TRACE: &[(&[Row], Row)] = &[
    (
        &[
            (1, 1, Some(0)),
            (0, 1, Some(1)),
            (1, 2, Some(0)),
            (1, 2, None),
        ],
        (0, 1, Some(0)),
    ),
    (
        &[(0, 1, Some(0)), (1, 2, None), (1, 3, Some(1))],
        (1, 2, Some(0)),
    ),
    (&[(1, 2, Some(0)), (2, 2, None)], (1, 2, None)),
    (
        &[(1, 2, None), (1, 8, Some(0)), (1, 7, Some(0))],
        (1, 3, Some(0)),
    ),
    (
        &[(1, 3, Some(0)), (1, 3, Some(2)), (1, 3, None)],
        (1, 3, Some(1)),
    ),
    (&[(1, 7, Some(0)), (1, 10, Some(0))], (1, 8, Some(0))),
    (&[(1, 8, Some(0)), (1, 12, Some(0))], (1, 10, Some(0))),
    (&[(1, 10, Some(0)), (1, 12, None)], (1, 12, Some(0))),
    (&[(1, 12, None), (1, 12, Some(0))], (1, 4, Some(0))),
    (&[(1, 12, None), (1, 6, Some(1))], (1, 5, Some(0))),
    (&[(1, 12, None), (1, 6, None)], (1, 6, Some(0))),
    (&[(1, 12, None), (1, 6, None)], (1, 6, Some(1))),
    (
        &[(1, 12, None), (1, 6, Some(0)), (1, 6, Some(1))],
        (1, 6, None),
    ),
    (&[(1, 6, None), (1, 11, None)], (1, 12, None)),
    (&[(1, 12, None), (1, 11, Some(0))], (1, 9, Some(0))),
    (&[(1, 9, Some(0)), (1, 11, None)], (1, 11, Some(0))),
    (&[(1, 11, Some(0)), (1, 13, Some(0))], (1, 11, None)),
    (&[(1, 11, None), (1, 13, None)], (1, 13, Some(0))),
    (&[(1, 13, Some(0)), (1, 14, None)], (1, 14, Some(0))),
    (&[(1, 14, None), (1, 15, None)], (1, 15, Some(0))),
    (
        &[(1, 14, None), (1, 15, None), (1, 15, Some(0))],
        (1, 13, None),
    ),
    (&[(1, 13, None), (1, 15, None)], (1, 14, None)),
    (
        &[(1, 14, None), (2, 15, None), (1, 16, None)],
        (1, 15, None),
    ),
];

fn event_of(row: Row) -> Event {
    match row {
        (wave, instr, Some(port)) => Event::Match { wave, instr, port },
        (wave, instr, None) => Event::Issue { wave, instr },
    }
}

pub fn checked(alloc: Global, text: &str) -> Result<Checked, NoMemory> {
    if text.len() > 10_000 {
        return Err(NoMemory);
    }
    let Ok(image) = read_asm(alloc, text.as_bytes()) else {
        return Err(NoMemory);
    };
    let Ok(image) = check_image(alloc, image) else {
        return Err(NoMemory);
    };
    Ok(image)
}

// Whether none of these events can be made.
fn refuses(core: &mut Core<'_>, rows: &[Row]) -> bool
    requires { IsRunning core.old }
    ensures { IsRunning core.new }
{
    for row in rows {
        if core.step(event_of(*row)) != Err(StepFault::NotReady) {
            return false;
        }
    }
    true
}

// How many events of a trace are made, each behind others that may not be made before it.
fn follows(core: &mut Core<'_>, trace: &[(&[Row], Row)]) -> usize
    requires { IsRunning core.old }
    ensures { IsRunning core.new }
{
    let mut count = 0usize;
    for (refused, row) in trace {
        if !refuses(core, refused) || core.step(event_of(*row)).is_err() {
            return count;
        }
        count = count.wrapping_add(1);
    }
    count
}

// How many events of that trace a core makes, whether it then rests, and whether that was the run.
#[derive(Clone, Copy)]
struct Made {
    count: usize,
    rests: bool,
    fired: u64,
    printed: bool,
}

fn made_by(alloc: Global, image: &Checked, world: &World) -> Result<Made, NoMemory> {
    let mut core = Core::begin(alloc, image, world)?;
    Ok(Made {
        count: follows(&mut core, TRACE),
        rests: core.pick().is_none(),
        fired: core.fired(),
        printed: core.printed() == [5, 0].as_slice(),
    })
}

fn made_of(alloc: Global, text: &str) -> Result<Made, NoMemory> {
    let image = checked(alloc, text)?;
    let world = world(alloc, &[1])?;
    made_by(alloc, &image, &world)
}

#[test]
fn events_are_made_one_by_one(rt: HostRuntime) -> Result<(), Fail> {
    let alloc = rt.alloc();
    let made = made_of(alloc, IMAGE)?;
    assert_eq!(rt; made.count, TRACE.len());
    assert!(rt; made.rests && made.fired == 14);
    assert!(rt; made.printed);
    Ok(())
}
