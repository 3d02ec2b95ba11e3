//! The outstanding tokens of an instance or an operation.

ghost use Rattle.std.specs.Prelude.{◌≡◌, ◌<◌, ℕ, All, List, OnOk, length, true, false};
ghost use Rattle.ws_isa.specs.Image.{Token as Plain, is_memory, sends, result_of, tokens_to, ports};
ghost use Rattle.df_core.specs.Core.{IsSent};
ghost use Rattle.df_core.specs.Fit.{RightToken};
ghost use Rattle.df_core.specs.Rights.{operands_of};
ghost use Rattle.match_table.specs.Ports.{listed};
ghost use Rattle.match_table.specs.Tables.{key_of};
ghost use Rattle.match_table.specs.Together.{part_of};
ghost use Rattle.store_buf.specs.Runs.{AllReach, Covers};
ghost use Rattle.fire_crew.specs.Owing.{AnswersReach, IsMissing, ResultsReach, ResultsReachAt};

use crate::told::has_told;
use df_core::{Code, Job, Token, TokenList};
use match_table::{Course, Fired, Table, Tables, holds, number_of, result_of, selector};
use store_buf::Kept;
use ws_isa::Dest;
use ws_words::NoMemory;

// Those of the instance that fired at this place of a table's list.
#[inline(always)]
pub(crate) fn see_at<J: Job>(
    code: &Code<'_, J>,
    tables: &Tables<J>,
    courses: &mut [Course; 16],
    table: &Table<J>,
    place: usize,
    found: &mut TokenList<J>,
) -> Result<(), NoMemory>
    requires missing { All (IsMissing (part_of tables.now).held) found.old }
    requires place { place < length table.now.fired }
    ensures missing { OnOk result (All (IsMissing (part_of tables.now).held) found.new) }
    ensures reach { OnOk result ((way : List Plain) → Covers found.new way
        → Covers found.old way × ResultsReachAt J.image (part_of tables.now).held way place table.now) }
{
    if has_told(code, tables, courses, table, place) {
        return Ok(());
    }
    table.facts();
    code.facts();
    look_at(code, tables, courses, table.fired_at(code, place), found)?;
    Ok(())
}

// Those of an instance that has fired; an instance of memory has none.
#[inline(never)]
fn look_at<J: Job>(
    code: &Code<'_, J>,
    tables: &Tables<J>,
    courses: &mut [Course; 16],
    fired: Fired,
    found: &mut TokenList<J>,
) -> Result<(), NoMemory>
    requires missing { All (IsMissing (part_of tables.now).held) found.old }
    requires right { is_memory J.image fired.instr ≡ false → (w i p v : ℕ)
        → IsSent (sends J.image fired.wave fired.instr (listed fired.operands)
        (result_of J.image fired.instr (listed fired.operands))) w i p v
        → RightToken J.image J.world w i p v }
    ensures missing { OnOk result (All (IsMissing (part_of tables.now).held) found.new) }
    ensures reach { OnOk result ((way : List Plain) → Covers found.new way
        → Covers found.old way × ResultsReach J.image (part_of tables.now).held way
        (listed fired.operands) (key_of fired)) }
{
    let op = code.program().op(fired.instr);
    if op.is_memory() {
        return Ok(());
    }
    let Some(number) = number_of(op, fired.wave) else {
        return Err(NoMemory);
    };
    let choice = selector(op, fired.operands);
    let word = result_of(op, fired.operands);
    let dests = code.program().destinations(fired.instr, choice);
    keep_sent(tables, courses, number, dests, word, found)?;
    Ok(())
}

// Those of a request that the buffer keeps; it has none until it is issued.
pub(crate) fn look_up<J: Job>(
    code: &Code<'_, J>,
    tables: &Tables<J>,
    courses: &mut [Course; 16],
    kept: Kept,
    found: &mut TokenList<J>,
) -> Result<(), NoMemory>
    requires missing { All (IsMissing (part_of tables.now).held) found.old }
    requires memory { is_memory J.image kept.instr ≡ true }
    requires right { (a w i p v : ℕ) → kept.answer ≡ Some a
        → IsSent (sends J.image kept.wave kept.instr
        (operands_of (ports J.image kept.instr) kept.first kept.second) a) w i p v
        → RightToken J.image J.world w i p v }
    ensures missing { OnOk result (All (IsMissing (part_of tables.now).held) found.new) }
    ensures reach { OnOk result ((way : List Plain) → Covers found.new way
        → Covers found.old way × AnswersReach J.image (part_of tables.now).held way kept) }
{
    let Some(word) = kept.answer else {
        return Ok(());
    };
    let program = code.program();
    let Some(number) = number_of(program.op(kept.instr), kept.wave) else {
        return Err(NoMemory);
    };
    keep_sent(
        tables,
        courses,
        number,
        program.destinations(kept.instr, 0),
        word,
        found,
    )?;
    Ok(())
}

// Puts those tokens of a word to destinations that no table has had behind the ones found.
fn keep_sent<J: Job>(
    tables: &Tables<J>,
    courses: &mut [Course; 16],
    wave: u64,
    dests: &[Dest],
    word: u64,
    found: &mut TokenList<J>,
) -> Result<(), NoMemory>
    requires missing { All (IsMissing (part_of tables.now).held) found.old }
    requires right { (w i p v : ℕ) → IsSent (tokens_to wave word dests.now) w i p v
        → RightToken J.image J.world w i p v }
    ensures missing { OnOk result (All (IsMissing (part_of tables.now).held) found.new) }
    ensures reach { OnOk result ((way : List Plain) → Covers found.new way
        → Covers found.old way × AllReach (part_of tables.now).held way (tokens_to wave word dests.now)) }
{
    for dest in dests {
        if !holds(tables, courses, wave, dest.instr, dest.port) {
            found.push(Token::right(wave, dest.instr, dest.port, word))?;
        }
    }
    Ok(())
}

// Puts those of these tokens that no table has had behind the ones found.
pub(crate) fn keep<J: Job>(
    tables: &Tables<J>,
    courses: &mut [Course; 16],
    tokens: TokenList<J>,
    found: &mut TokenList<J>,
) -> Result<(), NoMemory>
    requires { All (IsMissing (part_of tables.now).held) found.old }
    ensures missing { OnOk result (All (IsMissing (part_of tables.now).held) found.new) }
    ensures reach { OnOk result ((way : List Plain) → Covers found.new way
        → Covers found.old way × AllReach (part_of tables.now).held way tokens) }
{
    let mut tokens = tokens;
    while let Some(token) = tokens.pop() {
        if !holds(tables, courses, token.wave(), token.instr(), token.port()) {
            found.push(token)?;
        }
    }
    Ok(())
}
