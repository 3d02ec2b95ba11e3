//! What is wanted at the starts of blocks, and what an exit sends there.

ghost use Rattle.std.specs.Prelude.{◌≡◌, ◌≤◌, ℕ, suc, IfOk, true, List, length, map, reverse};
ghost use Rattle.wave_gen.specs.Wire.{Wants, Made};
ghost use Rattle.wave_gen.specs.Plans.{plan_at, fronts, start_of};
ghost use Rattle.wave_gen.specs.View as view;
ghost use Rattle.wave_gen.specs.Tables.{listed};
ghost use Rattle.wave_gen.specs.Kept.{AreKept, EndingIs};

use crate::fork::{Ending, fork, sends};
use crate::kept::{Kept, load};
use crate::plan::{HowLeft, Plan};
use crate::spot::Target;
use crate::table::Table;
use std::alloc::Global;
use ws_words::NoMemory;

/// What an exit of this block sends along its edges, and what goes past it, where the blocks behind
/// it are made, the last one first.
pub(crate) fn ending(
    alloc: Global,
    width: usize,
    plans: &[Plan],
    kept: &[Kept],
    block: usize,
    exit: &HowLeft,
) -> Result<Ending, NoMemory>
    ensures { IfOk result (λ ending. (b : ℕ) (later : List Made) →
        AreKept width (map view.plan plans.now) b (reverse kept.now) later →
        EndingIs width (start_of (map view.plan plans.now) (suc block) later)
        (view.leaves exit.now) ending) }
{
    match exit {
        HowLeft::Onto(c) => {
            let past = start(alloc, width, plans, kept, block, *c)?;
            Ok(Ending {
                tails: Vec::new(alloc),
                past,
            })
        }
        HowLeft::Either { some, none, .. } => {
            let some = start(alloc, width, plans, kept, block, *some)?;
            let none = start(alloc, width, plans, kept, block, *none)?;
            fork(alloc, width, some, none)
        }
        HowLeft::Lands { values, .. } => Ok(Ending {
            tails: sends(alloc, values)?,
            past: Table::new(alloc),
        }),
        HowLeft::Halts => Ok(Ending {
            tails: Vec::new(alloc),
            past: Table::new(alloc),
        }),
    }
}

fn start(
    alloc: Global,
    width: usize,
    plans: &[Plan],
    kept: &[Kept],
    block: usize,
    target: usize,
) -> Result<Table, NoMemory>
    ensures { IfOk result (λ table. (b : ℕ) (later : List Made) →
        AreKept width (map view.plan plans.now) b (reverse kept.now) later →
        ◌≡◌ {A = Wants} (listed table.lists.items)
        (start_of (map view.plan plans.now) (suc block) later target)) }
{
    if is_first(plans, target) {
        return fronts(alloc, target, &plans[target - 1].entries);
    }
    let place = target.saturating_sub(block).saturating_sub(1);
    if place < kept.len() {
        load(alloc, &kept[kept.len() - 1 - place].wants)
    } else {
        Ok(Table::new(alloc))
    }
}

// Whether there is such a block, and it is the first of its wave.
fn is_first(plans: &[Plan], block: usize) -> bool
    ensures first { result ≡ (plan_at (map view.plan plans.now) block).first }
    ensures there { result ≡ true → (1 ≤ block) × (block ≤ length plans.now) }
{
    if block == 0 {
        return false;
    }
    if block > plans.len() {
        return false;
    }
    plans[block - 1].first
}

/// The entries of a wave's first block.
pub(crate) fn fronts(alloc: Global, block: usize, entries: &[usize]) -> Result<Table, NoMemory>
    ensures { IfOk result (λ table. ◌≡◌ {A = Wants} (listed table.lists.items)
        (fronts block 0 entries.now)) }
{
    let mut table = Table::new(alloc);
    let mut left = entries.len();
    while left > 0 {
        left -= 1;
        let mut list = Vec::new(alloc);
        list.push(Target::Front(block, left))?;
        table.put(alloc, entries[left], list)?;
    }
    Ok(table)
}
