//! How the budget is shared out to tables.

ghost use Rattle.std.specs.Prelude.{◌≡◌, ◌+◌, ◌-◌, ◌/◌, ◌<◌, ◌≤◌, ◌^◌, ℕ, IfOk, length, slice_index};
ghost use Rattle.std.specs.Prelude.{sum};
ghost use Rattle.match_table.specs.Rows.{Fits};
ghost use Rattle.match_table.specs.Together.{AllServe, part_of};
ghost use Rattle.match_table.specs.Growth.{content_at};
ghost use Rattle.match_table.specs.Rows.{contents};

use df_core::Job;
use match_table::{Tables, count_of, table_at};
use std::alloc::Global;
use ws_words::NoMemory;

/// So many firings, all of them shared out evenly: for each table the length that its list may have, which
/// is a sixteenth of them at least beyond what it lists. The table `first` gets one of them at least.
pub fn limits<J: Job>(
    alloc: Global,
    tables: &Tables<J>,
    left: u64,
    first: u64,
) -> Result<Vec<usize>, NoMemory>
    requires serve { AllServe tables.now }
    requires left { length (part_of tables.now).fired + left < 2 ^ 64 }
    ensures count { IfOk result (λ limits. length limits.items ≡ 16) }
    ensures fits { IfOk result (λ limits. Fits tables.now limits.items) }
    ensures sum { IfOk result (λ limits.
        sum limits.items ≡ length (part_of tables.now).fired + left) }
    ensures even { IfOk result (λ limits. (k : ℕ) → k < 16
        → length (content_at (contents tables.now) k).fired + left / 16 ≤ slice_index limits.items k) }
    ensures first { IfOk result (λ limits. first < 16 → 0 < left
        → length (content_at (contents tables.now) first).fired < slice_index limits.items first) }
{
    let mut limits = Vec::new(alloc);
    let _ = count_of(tables);
    let mut left = left;
    for number in 0..16 {
        let share = share_of(left, number, first);
        left -= share;
        limits.push(listed_at(tables, number) + share as usize)?;
    }
    Ok(limits)
}

/// Tables that fit limits serve apart, and list together no more than these allow together.
pub fn fitting<J: Job>(tables: &Tables<J>, limits: &[usize])
    requires count { length limits.now ≡ 16 }
    requires fits { Fits tables.now limits.now }
    ensures serve { AllServe tables.now }
    ensures within { length (part_of tables.now).fired ≤ sum limits.now }
{
    let _ = count_of(tables);
}

// How many instances the table with this number lists, where there is one.
fn listed_at<J: Job>(tables: &Tables<J>, number: u64) -> usize
    ensures { result ≡ length (content_at (contents tables.now) number).fired }
{
    if number >= count_of(tables) {
        return 0;
    }
    table_at(tables, number).fired_count()
}

// What a table gets of what is left for it and those behind it.
fn share_of(left: u64, number: u64, first: u64) -> u64
    requires { number < 16 }
    ensures within { result ≤ left }
    ensures even { left / (16 - number) ≤ result }
    ensures same { 0 < left / (16 - number) → result ≡ left / (16 - number) }
    ensures others { (number ≡ first → ⊥) → result ≡ left / (16 - number) }
    ensures first { number ≡ first → 0 < left → 0 < result }
{
    let even = left / (16 - number);
    if number == first && even == 0 {
        left.min(1)
    } else {
        even
    }
}
