//! Ports over lists.

ghost use Rattle.std.specs.Prelude.{◌≡◌, IfOk, false};
ghost use Rattle.port_set.specs.Slots.{AllOpen, contents};
ghost use Rattle.port_set.specs.Tape.{tape_tells};
ghost use Rattle.store_buf.specs.Outdoors.{AllTell};

use crate::runs::{Past, past_of};
use port_set::{Slots, TapePort};
use std::alloc::Global;
use ws_isa::Checked;
use ws_words::{NoMemory, Words};

// A tape of these words, of which this call fails; calls are counted from 1.
fn tape(alloc: Global, left: &[u64], fails: u64) -> Result<TapePort, NoMemory>
    ensures { IfOk result (λ tape. tape.closed ≡ false) }
{
    let left = Words::from_slice(alloc, left)?;
    let fails = Words::from_slice(alloc, &[fails])?;
    Ok(TapePort::new(alloc, left, fails))
}

// Tapes in slots 1 and 2.
fn slots(first: TapePort, second: TapePort) -> Slots<TapePort>
    requires first { first.closed ≡ false }
    requires second { second.closed ≡ false }
    ensures told { AllTell (contents tape_tells result) }
    ensures open { AllOpen (contents tape_tells result) }
{
    Slots {
        first: Some(first),
        second: Some(second),
        third: None,
        fourth: None,
        fifth: None,
        sixth: None,
        seventh: None,
    }
}

/// Runs an image with this input and with tapes in slots 1 and 2, of which the second has words left.
/// These calls of theirs fail, where they aren't 0.
pub fn past_with(
    alloc: Global,
    image: &Checked,
    input: &[u64],
    fails: (u64, u64),
    seed: u64,
) -> Result<Past<TapePort>, NoMemory> {
    let input = Words::from_slice(alloc, input)?;
    let first = tape(alloc, &[4], fails.0)?;
    let second = tape(alloc, &[6, 0, 11], fails.1)?;
    past_of(alloc, image, input, slots(first, second), seed)
}
