//! Blocks that are an arm of a branch, or where a Send lands, and how many names there are.

ghost use Rattle.std.specs.Prelude.{◌≡◌, ◌<◌, ◌||◌, ℕ, eqb, length, IfOk};
ghost use Rattle.cfg_core.specs.Tables.{graph_in};
ghost use Rattle.cfg_core.specs.Graph.{spots, spot_at, block_at};
ghost use Rattle.cfg_core.specs.View as view;
ghost use Rattle.wave_gen.specs.Plans.{is_among};
ghost use Rattle.wave_gen.specs.Listing.{landings_of, arms_of, in_some, width_of};
ghost use Rattle.ws_words.specs.Items.{flag_at};

use cfg_core::{GraphTable, Leave};
use std::alloc::Global;
use ws_words::NoMemory;

// Past the end nothing changes.
fn mark(flags: &mut Vec<bool>, b: u32)
    ensures count { length flags.new.items ≡ length flags.old.items }
    ensures marked { (c : ℕ) → c < length flags.old.items →
        flag_at flags.new.items c ≡ (flag_at flags.old.items c || eqb c b) }
{
    let place = b as usize;
    if place < flags.len() {
        flags[place] = true;
    }
}

fn mark_all(flags: &mut Vec<bool>, blocks: &[u32])
    ensures count { length flags.new.items ≡ length flags.old.items }
    ensures marked { (c : ℕ) → c < length flags.old.items →
        flag_at flags.new.items c ≡ (flag_at flags.old.items c || is_among c blocks.now) }
{
    for b in blocks {
        mark(flags, *b);
    }
}

// Marks the blocks where an exit lands.
fn mark_landings(flags: &mut Vec<bool>, exit: &Leave)
    ensures count { length flags.new.items ≡ length flags.old.items }
    ensures marked { (c : ℕ) → c < length flags.old.items → flag_at flags.new.items c ≡
        (flag_at flags.old.items c || is_among c (landings_of (view.exit exit.now))) }
{
    match exit {
        Leave::Send { landings, .. } => mark_all(flags, landings),
        _ => {}
    }
}

// Marks the arms of an exit.
fn mark_arms(flags: &mut Vec<bool>, exit: &Leave)
    ensures count { length flags.new.items ≡ length flags.old.items }
    ensures marked { (c : ℕ) → c < length flags.old.items → flag_at flags.new.items c ≡
        (flag_at flags.old.items c || is_among c (arms_of (view.exit exit.now))) }
{
    match exit {
        Leave::Branch(_, a, b) => {
            mark(flags, *a);
            mark(flags, *b);
        }
        _ => {}
    }
}

// Marks the blocks where the exit of a block lands.
fn mark_landings_at(table: &GraphTable<'_>, flags: &mut Vec<bool>, i: usize)
    ensures count { length flags.new.items ≡ length flags.old.items }
    ensures marked { (c : ℕ) → c < length flags.old.items → flag_at flags.new.items c ≡
        (flag_at flags.old.items c ||
        is_among c (landings_of (block_at (view.graph (graph_in table.now)) i).exit)) }
{
    match table.spot(i) {
        Some(spot) => mark_landings(flags, &spot.block.exit),
        None => {}
    }
}

// Marks the arms of the exit of a block.
fn mark_arms_at(table: &GraphTable<'_>, flags: &mut Vec<bool>, i: usize)
    ensures count { length flags.new.items ≡ length flags.old.items }
    ensures marked { (c : ℕ) → c < length flags.old.items → flag_at flags.new.items c ≡
        (flag_at flags.old.items c ||
        is_among c (arms_of (block_at (view.graph (graph_in table.now)) i).exit)) }
{
    match table.spot(i) {
        Some(spot) => mark_arms(flags, &spot.block.exit),
        None => {}
    }
}

/// For each block whether a Send lands there.
pub(crate) fn landed(alloc: Global, table: &GraphTable<'_>) -> Result<Vec<bool>, NoMemory>
    ensures { let all = spots (view.graph (graph_in table.now)) in
        IfOk result (λ flags. (b : ℕ) → b < length all →
        flag_at flags.items b ≡ in_some landings_of all b) }
{
    let mut flags = vec![in alloc; false; table.block_count()]?;
    for i in (0..table.block_count()).rev() {
        mark_landings_at(table, &mut flags, i);
    }
    Ok(flags)
}

/// For each block whether it is an arm of a branch.
pub(crate) fn arms(alloc: Global, table: &GraphTable<'_>) -> Result<Vec<bool>, NoMemory>
    ensures { let all = spots (view.graph (graph_in table.now)) in
        IfOk result (λ flags. (b : ℕ) → b < length all →
        flag_at flags.items b ≡ in_some arms_of all b) }
{
    let mut flags = vec![in alloc; false; table.block_count()]?;
    for i in (0..table.block_count()).rev() {
        mark_arms_at(table, &mut flags, i);
    }
    Ok(flags)
}

fn vars_at(table: &GraphTable<'_>, i: usize) -> u32
    ensures { result ≡ (spot_at (view.graph (graph_in table.now)) i).vars }
{
    match table.spot(i) {
        Some(spot) => spot.vars,
        None => 0,
    }
}

/// How many names there are for the pulse and the variables.
pub(crate) fn width(table: &GraphTable<'_>) -> usize
    ensures { result ≡ width_of (view.graph (graph_in table.now)) }
{
    let mut most = 0;
    for i in (0..table.block_count()).rev() {
        let vars = vars_at(table, i);
        if most <= vars {
            most = vars;
        }
    }
    most as usize + 1
}
