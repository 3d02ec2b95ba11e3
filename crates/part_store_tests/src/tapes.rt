//! Ports over lists.

ghost use Rattle.std.specs.Prelude.{◌≡◌, IfOk, false};
ghost use Rattle.port_set.specs.Slots.{AllOpen, contents};
ghost use Rattle.port_set.specs.Tape.{tape_tells};
ghost use Rattle.store_buf.specs.Outdoors.{AllTell};

use crate::runs::{BufferOrder, Past, past_of};
use port_set::{Slots, TapePort};
use std::alloc::Global;
use ws_isa::Checked;
use ws_words::{NoMemory, Words};

/// The words that port 2 has left.
pub const LEFT: &[u64] = &[6, 0, 11];

// A tape of these words, of which this call fails; calls are counted from 1.
fn tape(alloc: Global, left: &[u64], fails: u64) -> Result<TapePort, NoMemory>
    ensures { IfOk result (λ tape. tape.closed ≡ false) }
{
    let left = Words::from_slice(alloc, left)?;
    let fails = Words::from_slice(alloc, &[fails])?;
    Ok(TapePort::new(alloc, left, fails))
}

// Tapes in slots 1 and 2.
fn slots(first: TapePort, second: TapePort) -> Slots<TapePort>
    requires first { first.closed ≡ false }
    requires second { second.closed ≡ false }
    ensures told { AllTell (contents tape_tells result) }
    ensures open { AllOpen (contents tape_tells result) }
{
    Slots {
        first: Some(first),
        second: Some(second),
        third: None,
        fourth: None,
        fifth: None,
        sixth: None,
        seventh: None,
    }
}

/// Tapes in slots 1 and 2, of which the second has words left. This call of the second fails, where it
/// isn't 0.
pub fn tapes(alloc: Global, fails: u64) -> Result<Slots<TapePort>, NoMemory>
    ensures told { IfOk result (λ slots. AllTell (contents tape_tells slots)) }
    ensures open { IfOk result (λ slots. AllOpen (contents tape_tells slots)) }
{
    let first = tape(alloc, &[], 0)?;
    let second = tape(alloc, LEFT, fails)?;
    Ok(slots(first, second))
}

/// Brings the tokens of an image in some order, with this input and with tapes in slots 1 and 2.
pub fn past_with(
    alloc: Global,
    image: &Checked,
    input: &[u64],
    fails: u64,
    order: &BufferOrder,
) -> Result<Past<TapePort>, NoMemory> {
    let input = Words::from_slice(alloc, input)?;
    let slots = tapes(alloc, fails)?;
    past_of(alloc, image, input, slots, order)
}
