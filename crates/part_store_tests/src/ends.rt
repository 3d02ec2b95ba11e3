//! Runs of images to each of their ends.

use crate::images::{CELLS, PAST, PORTS, image_of};
use crate::tapes::tapes;
use part_store::part_image;
use std::alloc::Global;
use std::test::Fail;
use store_buf::RunFinish;
use ws_words::{NoMemory, Words};

// How a run ended: how many words were printed, the first of them, and the firings, or the array or the port.
#[derive(Clone, Copy, Debug, PartialEq, Eq)]
enum PartEnding {
    Done(usize, u64, u64),
    Budget(u64),
    Fault(u32, u64),
    Port(u8),
    NoMemory,
}

fn end_of(finish: &RunFinish) -> PartEnding {
    match finish {
        RunFinish::Done { printed, fired, .. } => {
            PartEnding::Done(printed.len(), printed.word(0), *fired)
        }
        RunFinish::Budget { fired, .. } => PartEnding::Budget(*fired),
        RunFinish::Fault { array, arrays, .. } => PartEnding::Fault(*array, arrays.word(0, 0)),
        RunFinish::Port { port, .. } => PartEnding::Port(*port),
        RunFinish::NoMemory => PartEnding::NoMemory,
    }
}

// How an image runs with a word of input and tapes, of which this call of the second fails.
fn run(
    alloc: Global,
    text: &str,
    word: u64,
    fails: u64,
    budget: u64,
) -> Result<PartEnding, NoMemory> {
    let image = image_of(alloc, text)?;
    let input = Words::from_slice(alloc, &[word])?;
    let slots = tapes(alloc, fails)?;
    Ok(end_of(&part_image(alloc, &image, input, slots, budget).finish))
}

// Texts, words of input, calls that fail and budgets, and how runs end.
const ROWS: &[(&str, u64, u64, u64, PartEnding)] = &[
    (CELLS, 1, 0, 1_000, PartEnding::Done(2, 5, 14)),
    (CELLS, 0, 0, 1_000, PartEnding::Done(2, 0, 12)),
    (CELLS, 1, 0, 13, PartEnding::Budget(13)),
    (PAST, 1, 0, 1_000, PartEnding::Fault(1, 5)),
    (PORTS, 0, 1, 1_000, PartEnding::Port(2)),
];

#[test]
fn images_run_to_their_ends(rt: HostRuntime) -> Result<(), Fail> {
    let alloc = rt.alloc();
    for (text, word, fails, budget, wanted) in ROWS {
        let ended = run(alloc, text, *word, *fails, *budget)?;
        assert_eq!(rt; ended, *wanted, "{text}");
    }
    Ok(())
}
