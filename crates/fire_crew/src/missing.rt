//! Outstanding tokens.

ghost use Rattle.std.specs.Prelude.{◌≡◌, ◌<◌, ◌≤◌, All, IfOk, List, OnOk, length, false};
ghost use Rattle.ws_isa.specs.Image.{Token as Plain};
ghost use Rattle.match_table.specs.Rows.{contents};
ghost use Rattle.store_buf.specs.Runs.{Covers};
ghost use Rattle.fire_crew.specs.Owing.{AllKnown, AllPast, AnswersReach, IsMissing, ToldIn, ToldUpTo};
ghost use Rattle.fire_crew.specs.Solo.{Paid};
ghost use Rattle.match_table.specs.Together.{AllServe, part_of};

use crate::owed::{keep, look_up, see_at};
use df_core::{Code, Job, TokenList, start};
use match_table::{Course, Table, Tables, count_of, courses_of, facts, table_at};
use port_set::Port;
use std::alloc::Global;
use store_buf::{Buffer, MemoryOrder};
use ws_words::NoMemory;

/// The outstanding tokens of tables and a buffer, which no table has had: the start pulse's, and the
/// results of instances that have fired and of operations that are issued. Tables are looked at side by
/// side, wave by wave, and once so many are found no more are looked for. Where not all are wanted, those
/// that fired last are looked at before.
pub fn missing<J: Job, P: Port>(
    alloc: Global,
    code: &Code<'_, J>,
    tables: &Tables<J>,
    buffer: &Buffer<J, P>,
    most: usize,
) -> Result<TokenList<J>, NoMemory>
    requires serve { AllServe tables.now }
    requires known { AllKnown J.image (part_of tables.now) buffer.now.kept }
    ensures missing { IfOk result (All (IsMissing (part_of tables.now).held)) }
    ensures paid { IfOk result (λ tokens. length tokens < most
        → Paid J.image (part_of tables.now) buffer.now tokens) }
{
    facts(tables);
    buffer.facts();
    let mut found = TokenList::empty(alloc);
    let mut courses = courses_of(tables);
    keep(tables, &mut courses, start(alloc, code)?, &mut found)?;
    look_last(code, tables, &mut courses, most, &mut found)?;
    let mut places = begin(tables);
    let latest = latest(tables);
    let stretch = stretch_of(tables, latest);
    let mut left = latest;
    while left > 0 && found.len() < most {
        left = left.saturating_sub(stretch);
        let wave = latest.saturating_sub(left);
        look_across(code, tables, &mut courses, &mut places, wave, &mut found)?;
    }
    if found.len() >= most {
        return Ok(found);
    }
    look_across(code, tables, &mut courses, &mut places, ALL, &mut found)?;
    look_back(code, tables, &mut courses, buffer, &mut found)?;
    Ok(found)
}

// How many instances of each table are looked at first, of those that fired last, where not all tokens are
// wanted.
const LAST: usize = 64;

// Those among the last that tables list, where not all are wanted.
fn look_last<J: Job>(
    code: &Code<'_, J>,
    tables: &Tables<J>,
    courses: &mut [Course; 16],
    most: usize,
    found: &mut TokenList<J>,
) -> Result<(), NoMemory>
    requires { All (IsMissing (part_of tables.now).held) found.old }
    ensures missing { OnOk result (All (IsMissing (part_of tables.now).held) found.new) }
    ensures more { OnOk result (Covers found.old found.new) }
{
    if most == usize::MAX {
        return Ok(());
    }
    let mut places = last_places(tables);
    look_across(code, tables, courses, &mut places, ALL, found)?;
    Ok(())
}

// The places of the last that tables list.
fn last_places<J: Job>(tables: &Tables<J>) -> [usize; 16] {
    let mut places = [0; 16];
    for number in 0..count_of(tables) {
        let count = table_at(tables, number).fired_count();
        places[number as usize] = count.saturating_sub(LAST);
    }
    places
}

// The first place of each table.
fn begin<J: Job>(tables: &Tables<J>) -> [usize; 16]
    ensures { (way : List Plain)
        → ToldUpTo J.image (part_of tables.now).held way result (contents tables.now) }
{
    let _ = tables;
    [0; 16]
}

// About how many instances of a table are looked at before those of the next one.
const STRETCH: u64 = 8;

// Stands for the last of all waves.
const ALL: u64 = 0;

// In how many waves tables fire about so many instances each. Any number but 0 serves.
fn stretch_of<J: Job>(tables: &Tables<J>, latest: u64) -> u64
    ensures { 0 < result }
{
    let mut fired = 1;
    for number in 0..count_of(tables) {
        fired = table_at(tables, number).fired_count().max(fired);
    }
    (latest / (fired as u64 / STRETCH).max(1)).max(1)
}

// The last wave of which a table lists one last. Any number serves.
fn latest<J: Job>(tables: &Tables<J>) -> u64 {
    let mut latest = 0;
    for number in 0..count_of(tables) {
        let table = table_at(tables, number);
        if let Some(last) = table.fired_count().checked_sub(1) {
            latest = table.key_at(last).0.max(latest);
        }
    }
    latest
}

// Those of each table for the instances that it lists from its place on, up to the first that is of a
// later wave than this one.
fn look_across<J: Job>(
    code: &Code<'_, J>,
    tables: &Tables<J>,
    courses: &mut [Course; 16],
    places: &mut [usize; 16],
    wave: u64,
    found: &mut TokenList<J>,
) -> Result<(), NoMemory>
    requires { All (IsMissing (part_of tables.now).held) found.old }
    ensures missing { OnOk result (All (IsMissing (part_of tables.now).held) found.new) }
    ensures reach { OnOk result ((way : List Plain) → Covers found.new way → Covers found.old way
        × (ToldUpTo J.image (part_of tables.now).held way places.old (contents tables.now)
        → ToldUpTo J.image (part_of tables.now).held way places.new (contents tables.now))) }
    ensures all { OnOk result (wave ≡ 0 → AllPast places.new (contents tables.now)) }
{
    for number in 0..count_of(tables) {
        let from = places[number as usize];
        let table = table_at(tables, number);
        let to = look_through(code, tables, courses, table, from, wave, found)?;
        places[number as usize] = to;
    }
    Ok(())
}

// Those of one table for the instances that it lists from a place on, up to the first that is of a
// later wave than this one. Answers where that is, or would be.
fn look_through<J: Job>(
    code: &Code<'_, J>,
    tables: &Tables<J>,
    courses: &mut [Course; 16],
    table: &Table<J>,
    from: usize,
    wave: u64,
    found: &mut TokenList<J>,
) -> Result<usize, NoMemory>
    requires { All (IsMissing (part_of tables.now).held) found.old }
    ensures missing { OnOk result (All (IsMissing (part_of tables.now).held) found.new) }
    ensures reach { IfOk result (λ to. (way : List Plain) → Covers found.new way → Covers found.old way
        × ToldIn J.image (part_of tables.now).held way from to table.now) }
    ensures all { IfOk result (λ to. wave ≡ 0 → length table.now.fired ≤ to) }
{
    let end = table.fired_count();
    for place in from..end {
        if is_later(table, place, wave) {
            return Ok(place);
        }
        see_at(code, tables, courses, table, place, found)?;
    }
    Ok(from.max(end))
}

// Whether the instance that a table lists at a place is of a later wave than this one.
#[inline(always)]
fn is_later<J: Job>(table: &Table<J>, place: usize, wave: u64) -> bool
    requires { place < length table.now.fired }
    ensures { wave ≡ 0 → result ≡ false }
{
    wave != ALL && table.key_at(place).0 > wave
}

// Those of the buffer.
fn look_back<J: Job, P: Port>(
    code: &Code<'_, J>,
    tables: &Tables<J>,
    courses: &mut [Course; 16],
    buffer: &Buffer<J, P>,
    found: &mut TokenList<J>,
) -> Result<(), NoMemory>
    requires { All (IsMissing (part_of tables.now).held) found.old }
    ensures missing { OnOk result (All (IsMissing (part_of tables.now).held) found.new) }
    ensures reach { OnOk result ((way : List Plain) → Covers found.new way → Covers found.old way
        × All (AnswersReach J.image (part_of tables.now).held way) buffer.now.kept) }
{
    buffer.facts();
    code.facts();
    for kept in buffer.kept() {
        look_up(code, tables, courses, *kept, found)?;
    }
    Ok(())
}
