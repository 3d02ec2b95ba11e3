//! Whether all that an instance sent has arrived.

ghost use Rattle.std.specs.Prelude.{◌≡◌, ◌<◌, ℕ, List, length, slice_index_or, true};
ghost use Rattle.ws_isa.specs.Image.{Token as Plain, selector_of, tokens_to};
ghost use Rattle.df_core.specs.Core.{Key, operands_in};
ghost use Rattle.match_table.specs.Tables.{held};
ghost use Rattle.match_table.specs.Together.{part_of};
ghost use Rattle.store_buf.specs.Runs.{AllReach};
ghost use Rattle.fire_crew.specs.Owing.{ResultsReachAt};

use df_core::{Code, Job};
use match_table::{Course, Table, Tables, holds, number_of, selector, table_of};
use ws_isa::{Dest, Op};

// Whether all that the instance owes has come that fired at this place of a table's list. What it sends isn't
// asked for.
#[inline(always)]
pub(crate) fn has_told<J: Job>(
    code: &Code<'_, J>,
    tables: &Tables<J>,
    courses: &mut [Course; 16],
    table: &Table<J>,
    place: usize,
) -> bool
    requires { place < length table.now.fired }
    ensures { result ≡ true → (way : List Plain)
        → ResultsReachAt J.image (part_of tables.now).held way place table.now }
{
    let (wave, instr) = table.key_at(place);
    let op = code.program().op(instr);
    if op.is_memory() {
        return true;
    }
    let Some(number) = number_of(op, wave) else {
        return false;
    };
    let course = &mut courses[table_of(wave, instr) as usize];
    let choice = choice_at(code, course, table, place, op);
    let dests = code.program().destinations(instr, choice);
    have_come(tables, courses, number, dests)
}

// The operand by which it chooses where its result goes.
#[inline(always)]
fn choice_at<J: Job>(
    code: &Code<'_, J>,
    course: &mut Course,
    table: &Table<J>,
    place: usize,
    op: Op,
) -> u64
    requires { place < length table.now.fired }
    ensures { (d : Key) → result ≡ selector_of op (operands_in J.image (held table.now)
        (slice_index_or table.now.fired place d).wave (slice_index_or table.now.fired place d).instr) }
{
    match op {
        Op::Steer | Op::Send(_) => selector(op, table.fired_on(course, code, place).operands),
        _ => 0,
    }
}

// Whether the tokens of a word, whatever it is, to these destinations under a wave number have all come.
#[inline(always)]
fn have_come<J: Job>(
    tables: &Tables<J>,
    courses: &mut [Course; 16],
    wave: u64,
    dests: &[Dest],
) -> bool
    ensures { result ≡ true → (way : List Plain) → (word : ℕ)
        → AllReach (part_of tables.now).held way (tokens_to wave word dests.now) }
{
    for dest in dests {
        if !holds(tables, courses, wave, dest.instr, dest.port) {
            return false;
        }
    }
    true
}
