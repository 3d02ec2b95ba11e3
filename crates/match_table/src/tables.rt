//! The tables between two phases.

ghost use Rattle.std.specs.Prelude.{◌≡◌, ◌<◌, ◌≤◌, ℕ, List, [], IfOk, None, length};
ghost use Rattle.match_table.specs.Growth.{content_at};
ghost use Rattle.match_table.specs.Rows.{Fits, contents};
ghost use Rattle.match_table.specs.Together.{part_of};

use crate::Table;
use df_core::Job;
use std::alloc::Global;
use std::marker::Model;
use ws_words::NoMemory;

/// The tables between two phases, by number. Where there are none, a token that is brought to one is answered
/// `NoMemory`.
#[derive(Drop)]
pub struct Tables<J: Job> {
    pub(crate) all: Vec<Table<J>>,
}

impl<J: Job> Model for Tables<J> {
    ghost use Rattle.std.specs.Prelude.{◌≤◌, List, length};
    ghost use Rattle.match_table.specs.Tables.{TableContent};

    ghost Value = { List TableContent };

    ghost view = { λ ts. ts.all.items };

    ghost invariant = { λ ts. length ts.all.items ≤ 16 };
}

impl<J: Job> Tables<J> {
    /// Sixteen tables that no token has arrived at.
    pub fn new(alloc: Global) -> Result<Tables<J>, NoMemory>
        ensures all { IfOk result (λ tables. length (contents tables) ≡ 16) }
        ensures fits { IfOk result (λ tables. (most : List ℕ) → Fits tables most) }
        ensures empty { IfOk result (λ tables.
            (w i p : ℕ) → (part_of tables).held w i p ≡ None) }
    {
        let mut all = Vec::with_capacity(alloc, 16)?;
        while all.len() < 16 {
            all.push_reserved(Table::new(alloc));
        }
        Ok(Tables { all })
    }

    /// No tables, for when memory has run out. Takes none.
    pub fn none(alloc: Global) -> Tables<J>
        ensures { contents result ≡ [] }
    {
        Tables {
            all: Vec::new(alloc),
        }
    }
}

/// How many there are.
pub fn count_of<J: Job>(tables: &Tables<J>) -> u64
    ensures count { result ≡ length (contents tables.now) }
    ensures most { result ≤ 16 }
{
    tables.all.len() as u64
}

/// The table with this number.
pub fn table_at<J: Job>(tables: &Tables<J>, number: u64) -> &Table<J>
    requires { number < length (contents tables.now) }
    ensures { result.now ≡ content_at (contents tables.now) number }
{
    &tables.all[number as usize]
}
