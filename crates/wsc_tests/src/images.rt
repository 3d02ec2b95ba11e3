//! The images of programs walk as the programs run.

use crate::graphs::{accepted, world};
use crate::programs::{INPUTS, PROGRAMS};
use seq_run::run_plain;
use src_check::Accepted;
use std::alloc::Global;
use std::test::Fail;
use wave_build::compile;
use ws_isa::{Checked, Walked, walk_image};
use ws_words::{Cells, NoMemory, Plain, Words, World};

// The most turns and firings that a test takes.
const TURNS: u64 = 150;

const FIRINGS: u64 = 20_000;

// Whether the first rows of some are those of others.
fn begin_with(rows: &Cells, first: &Cells) -> bool {
    for place in 0..first.len() {
        if rows.get(place) != first.get(place) {
            return false;
        }
    }
    true
}

// Whether words are the first of others.
pub fn are_first(words: &[u64], all: &Words) -> bool {
    for (place, word) in words.iter().enumerate() {
        if all.get(place) != Some(*word) {
            return false;
        }
    }
    true
}

// Whether a walk prints and leaves what this run of its program does, and ends where it ends.
fn is_walk_of(walked: &Walked, ran: &Plain) -> bool {
    match ran {
        Plain::Ended {
            printed,
            arrays,
            took,
            turns: _,
        } => {
            walked.whole
                && walked.fault.is_none()
                && walked.printed == *printed
                && walked.took == *took
                && begin_with(&walked.arrays, arrays)
        }
        Plain::Fault {
            array,
            printed,
            arrays: _,
            took: _,
            turns: _,
        } => walked.fault == Some(*array) && are_first(printed.as_slice(), &walked.printed),
        Plain::Going { printed } => are_first(printed.as_slice(), &walked.printed),
    }
}

// Whether an image walks as a program runs.
fn walks_on(
    alloc: Global,
    accepted: &Accepted,
    image: &Checked,
    world: &World,
) -> Result<bool, NoMemory> {
    let walked = walk_image(alloc, image, world, FIRINGS)?;
    let ran = run_plain(alloc, accepted, world, TURNS)?;
    Ok(is_walk_of(&walked, &ran))
}

// The same on each input.
fn walks_as(alloc: Global, accepted: &Accepted, image: &Checked) -> Result<bool, NoMemory> {
    for input in INPUTS {
        let world = world(alloc, input)?;
        if !walks_on(alloc, accepted, image, &world)? {
            return Ok(false);
        }
    }
    Ok(true)
}

// Whether the image of a program walks as it runs.
fn image_walks(alloc: Global, text: &str) -> Result<bool, NoMemory> {
    let accepted = accepted(alloc, text)?;
    let image = compile(alloc, &accepted)?;
    walks_as(alloc, &accepted, &image)
}

#[test]
fn images_walk_as_programs_run(rt: HostRuntime) -> Result<(), Fail> {
    let alloc = rt.alloc();
    for (text, _) in PROGRAMS {
        assert!(rt; image_walks(alloc, text)?, "{text}");
    }
    Ok(())
}
