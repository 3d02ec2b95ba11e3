//! A table of one phase.

ghost use Rattle.std.specs.Prelude.{◌≡◌, ◌+◌, ◌≤◌, ◌%◌, ℕ, List, length, slice_index};
ghost use Rattle.match_table.specs.Growth.{Grows, content_at};
ghost use Rattle.match_table.specs.Limits.{Serves, Offered};
ghost use Rattle.match_table.specs.Tables.{TableContent};

use crate::{Results, Table, Took};
use df_core::{Code, Job, Token};
use std::marker::{Brand, Model, PhantomData};

/// The largest lengths of the lists of fired instances in one phase, by table, and what the tables
/// hold and list when it begins.
pub trait Quotas {
    ghost use Rattle.std.specs.Prelude.{ℕ, List};

    ghost most: { List ℕ };

    ghost began: { List TableContent };
}

impl Quotas for Brand {
    ghost use Rattle.std.specs.Prelude.{[]};

    ghost most = { [] };

    ghost began = { [] };
}

/// What a table of a phase does with a token: what a table does, or nothing, since the token would fire
/// its instance and the quota is exhausted.
#[derive(Clone, Copy, Debug, PartialEq, Eq)]
pub enum Offer {
    Took(Took),
    Spent,
}

/// A table of one phase. It serves the instances whose wave number plus instruction is `NUMBER` modulo 16,
/// and lists no more that fired than its quota allows. It has grown from what it was when the phase began.
#[derive(Drop)]
pub struct Limited<J: Job, Q: Quotas, const NUMBER: u64> {
    table: Table<J>,
    most: usize,
    of: PhantomData<Q>,
}

impl<J: Job, Q: Quotas, const NUMBER: u64> Model for Limited<J, Q, NUMBER> {
    ghost use Rattle.std.specs.Prelude.{◌≡◌, ◌≤◌, length, slice_index};
    ghost use Rattle.match_table.specs.Tables.{TableContent};
    ghost use Rattle.match_table.specs.Growth.{Grows, content_at};
    ghost use Rattle.match_table.specs.Limits.{Serves};

    ghost Value = { TableContent };

    ghost view = { λ l. l.table };

    ghost invariant = { λ l. Serves NUMBER l.table × (l.most ≡ slice_index Q.most NUMBER)
        × (length l.table.fired ≤ l.most) × Grows (content_at Q.began NUMBER) l.table };
}

impl<J: Job, Q: Quotas, const NUMBER: u64> Limited<J, Q, NUMBER> {
    /// A table for one phase.
    pub fn new(table: Table<J>, most: usize) -> Limited<J, Q, NUMBER>
        requires serves { Serves NUMBER table }
        requires most { (most ≡ slice_index Q.most NUMBER) × (length table.fired ≤ most) }
        requires grows { Grows (content_at Q.began NUMBER) table }
        ensures { result ≡ table }
    {
        Limited {
            table,
            most,
            of: PhantomData,
        }
    }

    /// Takes a token, unless it would fire its instance and the quota is exhausted. What the instance hands
    /// on stands in the place that is lent.
    #[inline(always)]
    pub fn offer<'i>(
        &mut self,
        code: &Code<'i, J>,
        token: &Token<J>,
        results: &mut Results<'i, J>,
    ) -> Offer
        requires { (token.now.wave + token.now.instr) % 16 ≡ NUMBER }
        ensures { Offered J.image (slice_index Q.most NUMBER) self.old token.now self.new results.new
            result }
    {
        if self.table.fired_count() >= self.most && self.table.would_fire(code, token) {
            results.clear();
            return Offer::Spent;
        }
        Offer::Took(self.table.accept_into(code, token, results))
    }

    /// The table, at the end of the phase.
    pub fn into_table(self) -> Table<J>
        ensures same { result ≡ self }
        ensures serves { Serves NUMBER result }
        ensures within { length result.fired ≤ slice_index Q.most NUMBER }
        ensures grows { Grows (content_at Q.began NUMBER) result }
    {
        self.table
    }
}
