//! Blocks, made from the last one to the first.

ghost use Rattle.std.specs.Prelude.{◌≡◌, ◌≤◌, ℕ, suc, IfOk, length, map, reverse, drop};
ghost use Rattle.wave_gen.specs.Plans.{plan_at, start_of, blocks_from, block_made, mades};
ghost use Rattle.wave_gen.specs.View as view;
ghost use Rattle.wave_gen.specs.Kept.{IsKept, AreKept, KeptBehind, LeadsAhead};

use crate::at_start::ending;
use crate::fork::Ending;
use crate::kept::{Kept, keep};
use crate::maker::Maker;
use crate::plan::Plan;
use std::alloc::Global;
use ws_words::NoMemory;

/// All blocks, from the last one to the first.
pub(crate) fn make_blocks(
    alloc: Global,
    width: usize,
    plans: &[Plan],
) -> Result<Vec<Kept>, NoMemory>
    requires { (b : ℕ) → LeadsAhead (map view.plan plans.now) b
        (plan_at (map view.plan plans.now) b).exit }
    ensures count { IfOk result (λ kept. length kept.items ≡ length plans.now) }
    ensures kept { IfOk result (λ kept. AreKept width (map view.plan plans.now) 1
        (reverse kept.items) (mades width (map view.plan plans.now))) }
{
    let mut kept = Vec::new(alloc);
    let mut left = plans.len();
    while left > 0 {
        let block = make_block(alloc, width, plans, &kept, left)?;
        kept.push(block)?;
        left -= 1;
    }
    Ok(kept)
}

// Where the blocks behind it are made.
fn make_block(
    alloc: Global,
    width: usize,
    plans: &[Plan],
    kept: &[Kept],
    block: usize,
) -> Result<Kept, NoMemory>
    requires some { 1 ≤ block }
    requires there { block ≤ length plans.now }
    ensures { IfOk result (λ made. KeptBehind width (map view.plan plans.now) block kept.now →
        LeadsAhead (map view.plan plans.now) block
        (plan_at (map view.plan plans.now) block).exit →
        IsKept width (map view.plan plans.now) block made
        (block_made width (start_of (map view.plan plans.now) (suc block)
        (blocks_from width (map view.plan plans.now) (suc block)
        (drop block (map view.plan plans.now)))) block
        (plan_at (map view.plan plans.now) block))) }
{
    let plan = &plans[block - 1];
    let Ending { tails, past } = ending(alloc, width, plans, kept, block, &plan.exit)?;
    let code = Vec::new(alloc);
    let mut maker = Maker {
        block,
        code,
        wants: past,
    };
    maker.select(alloc, plan.test, tails)?;
    let behind = maker.leave(alloc, plan.test, &plan.exit)?;
    maker.wire(alloc, &plan.items)?;
    maker.begin(alloc, plan)?;
    let wants = keep(alloc, &maker.wants)?;
    let Maker { code, .. } = maker;
    Ok(Kept {
        code,
        behind,
        wants,
    })
}
