//! The tables between two phases, as one.

ghost use Rattle.std.specs.Prelude.{◌≡◌, ◌<◌, ◌^◌, ℕ, All, length};
ghost use Rattle.df_core.specs.Core.{Once, has, operands_in};
ghost use Rattle.df_core.specs.Shown.{TablesOk};
ghost use Rattle.match_table.specs.Tables.{held};
ghost use Rattle.match_table.specs.Together.{AllServe, part_of};
ghost use Rattle.match_table.specs.Growth.{content_at};
ghost use Rattle.match_table.specs.Rows.{contents};

use crate::Course;
use crate::row::table_of;
use crate::tables::{Tables, count_of, table_at};
use df_core::{Job, Token};

/// Whether a port of an instance has had its token. Its page is looked for first where the course of its
/// table says.
#[inline(always)]
pub fn holds<J: Job>(
    tables: &Tables<J>,
    courses: &mut [Course; 16],
    wave: u64,
    instr: u32,
    port: u8,
) -> bool
    ensures { result ≡ has ((part_of tables.now).held wave instr port) }
{
    let number = table_of(wave, instr) as usize;
    match tables.all.get(number) {
        Some(table) => table.holds_on(&mut courses[number], wave, instr, port),
        None => false,
    }
}

/// Whether a table has had a token.
pub fn is_there<J: Job>(tables: &Tables<J>, token: &Token<J>) -> bool
    ensures { result ≡ has ((part_of tables.now).held token.now.wave token.now.instr token.now.port) }
{
    let number = table_of(token.wave(), token.instr()) as usize;
    match tables.all.get(number) {
        Some(table) => table.holds(token.wave(), token.instr(), token.port()),
        None => false,
    }
}

/// The courses of these tables.
pub fn courses_of<J: Job>(tables: &Tables<J>) -> [Course; 16] {
    let mut courses = [Course::none(); 16];
    for (course, table) in courses.iter_mut().zip(&tables.all) {
        *course = table.course();
    }
    courses
}

/// How many instances have fired in all tables.
pub fn fired<J: Job>(tables: &Tables<J>) -> u64
    requires { length (part_of tables.now).fired < 2 ^ 64 }
    ensures { result ≡ length (part_of tables.now).fired }
{
    let mut count = 0;
    for number in 0..count_of(tables) {
        count += table_at(tables, number).fired_count() as u64;
    }
    count
}

/// What is true of tables that serve apart: together they are a part of the core's state of which
/// the law speaks, an instance fires once, and each table holds all operands of those that it lists.
pub fn facts<J: Job>(tables: &Tables<J>)
    requires { AllServe tables.now }
    ensures part { TablesOk J.image J.world (part_of tables.now) }
    ensures once { Once (part_of tables.now).fired }
    ensures operands { (k : ℕ) → All (λ f.
        operands_in J.image (held (content_at (contents tables.now) k)) f.wave f.instr
        ≡ operands_in J.image (part_of tables.now).held f.wave f.instr)
        (content_at (contents tables.now) k).fired }
{
    for number in 0..count_of(tables) {
        table_at(tables, number).facts();
    }
}
