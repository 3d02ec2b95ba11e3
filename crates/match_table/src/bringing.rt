//! Bringing a token where no worker is at work.

ghost use Rattle.std.specs.Prelude.{◌≡◌, ◌+◌, ◌≤◌, length, true};
ghost use Rattle.df_core.specs.Core.{has};
ghost use Rattle.match_table.specs.declared.table.Took.TheVariants.{NoMemory as of_memory};
ghost use Rattle.match_table.specs.Growth.{AllGrow};
ghost use Rattle.match_table.specs.Rows.{contents};
ghost use Rattle.match_table.specs.Together.{AllServe, part_of};
ghost use Rattle.match_table.specs.Coming.{BroughtSo};

use crate::tables::Tables;
use crate::{Results, Took, table_of};
use df_core::{Code, Job, Token};

/// Brings a token to the table that serves it, which takes it as by `accept_into`. No table loses anything.
#[inline(always)]
pub fn bring<'i, J: Job>(
    code: &Code<'i, J>,
    tables: &mut Tables<J>,
    token: &Token<J>,
    results: &mut Results<'i, J>,
) -> Took
    requires { AllServe tables.old }
    ensures brought { BroughtSo J.image (contents tables.old) token.now (contents tables.new)
        results.new result }
    ensures serve { AllServe tables.new }
    ensures grow { AllGrow (contents tables.old) (contents tables.new) }
    ensures as_many { length (contents tables.new) ≡ length (contents tables.old) }
    ensures one { length (part_of tables.new).fired ≤ length (part_of tables.old).fired + 1 }
    ensures come { (result ≡ of_memory → ⊥) → has ((part_of tables.new).held
        token.now.wave token.now.instr token.now.port) ≡ true }
{
    bring_to(code, tables, token, results)
}

// Brings it to the table with its number.
#[inline(always)]
fn bring_to<'i, J: Job>(
    code: &Code<'i, J>,
    tables: &mut Tables<J>,
    token: &Token<J>,
    results: &mut Results<'i, J>,
) -> Took
    ensures { BroughtSo J.image (contents tables.old) token.now (contents tables.new)
        results.new result }
{
    let number = table_of(token.wave(), token.instr());
    match tables.all.get_mut(number as usize) {
        Some(table) => table.accept_into(code, token, results),
        None => {
            results.clear();
            Took::NoMemory
        }
    }
}
