//! The new numbers of the blocks and procedures that are kept.

ghost use Rattle.std.specs.Prelude.{◌≡◌, ◌<◌, ℕ, length, slice_index, IfOk};
ghost use Rattle.cfg_core.specs.Tables.{graph_in};
ghost use Rattle.cfg_core.specs.View as view;
ghost use Rattle.call_gen.specs.Part.{before, number};
ghost use Rattle.ws_words.specs.Items.{flag_at};

use crate::counts::one_if;
use cfg_core::GraphTable;
use std::alloc::Global;
use ws_words::NoMemory;

pub(crate) fn flag(flags: &[bool], b: usize) -> bool
    ensures { result ≡ flag_at flags.now b }
{
    flags.get(b).copied().unwrap_or(false)
}

// The number at a place, or 0 out of bounds.
pub(crate) fn number_at(numbers: &[usize], place: usize) -> usize
    ensures { result ≡ slice_index numbers.now place }
{
    numbers.get(place).copied().unwrap_or(0)
}

// How many flags are set before each.
pub(crate) fn places(alloc: Global, flags: &[bool]) -> Result<Vec<usize>, NoMemory>
    ensures { IfOk result (λ places. (b : ℕ) → b < length flags.now →
        slice_index places.items b ≡ before (flag_at flags.now) b) }
{
    let mut places = Vec::new(alloc);
    let mut count = 0;
    for b in 0..flags.len() {
        places.push(count)?;
        count += one_if(flag(flags, b));
    }
    Ok(places)
}

// How many procedures are kept before each.
pub(crate) fn numbers(
    alloc: Global,
    table: &GraphTable<'_>,
    flags: &[bool],
) -> Result<Vec<usize>, NoMemory>
    ensures { IfOk result (λ numbers. (f : ℕ) →
        f < length (view.graph (graph_in table.now)).procs →
        slice_index numbers.items f ≡
        number (view.graph (graph_in table.now)) (flag_at flags.now) f) }
{
    let mut numbers = Vec::new(alloc);
    let mut count = 0;
    for f in 0..table.proc_count() {
        numbers.push(count)?;
        count += one_if(flag(flags, table.room(f).entry));
    }
    Ok(numbers)
}
