//! The tables of a phase, each behind a lock of its own.

ghost use Rattle.std.specs.Prelude.{◌≡◌, ◌+◌, ◌<◌, ◌%◌, IfErr, length};
ghost use Rattle.match_table.specs.Growth.{AllGrow};
ghost use Rattle.match_table.specs.Rows.{Fits, contents};

use crate::Results;
use crate::limit::{Offer, Quotas};
use crate::quarter::Quarter;
use crate::tables::{Tables, count_of};
use df_core::{Code, Job, Token};
use std::alloc::Global;
use std::marker::Model;
use std::sync::Wait;

/// The sixteen tables of a phase, each behind a lock of its own, and the list to which they come back.
#[derive(Drop)]
pub struct Row<J: Job, Q: Quotas> {
    first: Quarter<J, Q, 0, 1, 2, 3>,
    second: Quarter<J, Q, 4, 5, 6, 7>,
    third: Quarter<J, Q, 8, 9, 10, 11>,
    fourth: Quarter<J, Q, 12, 13, 14, 15>,
    home: Tables<J>,
}

impl<J: Job, Q: Quotas> Model for Row<J, Q> {
    ghost use Rattle.std.specs.Prelude.{◌≡◌, length};
    ghost use Rattle.match_table.specs.Rows.{RestOf};

    ghost Value = { Unit {0} };

    ghost view = { λ r. tt };

    ghost invariant = { λ r. RestOf Q.began Q.most 16 r.home × (length Q.began ≡ 16) };
}

/// The number of the table that serves an instance.
#[inline(always)]
pub fn table_of(wave: u64, instr: u32) -> u64
    ensures number { result ≡ (wave + instr) % 16 }
    ensures below { result < 16 }
{
    (wave % 16 + u64::from(instr) % 16) % 16
}

impl<J: Job, Q: Quotas> Row<J, Q> {
    /// Tables with these limits. The phase names both. If there are none, because memory ran out before,
    /// they come back.
    pub fn new(alloc: Global, tables: Tables<J>, limits: &[usize]) -> Result<Row<J, Q>, Tables<J>>
        requires limits { (limits.now ≡ Q.most) × (length limits.now ≡ 16) }
        requires fits { Fits tables limits.now }
        requires began { contents tables ≡ Q.began }
        ensures { IfErr result (λ back. (back ≡ tables) × (length (contents tables) < 16)) }
    {
        if count_of(&tables) < 16 {
            return Err(tables);
        }
        let mut home = tables;
        let first = Quarter::take_out(alloc, &mut home, limits);
        let second = Quarter::take_out(alloc, &mut home, limits);
        let third = Quarter::take_out(alloc, &mut home, limits);
        let fourth = Quarter::take_out(alloc, &mut home, limits);
        Ok(Row {
            first,
            second,
            third,
            fourth,
            home,
        })
    }

    /// Takes the token at the table that serves it, under that table's lock. What its instance hands
    /// on stands in the place that is lent.
    pub fn offer<'i, R: Wait>(
        &self,
        rt: &R,
        code: &Code<'i, J>,
        token: &Token<J>,
        results: &mut Results<'i, J>,
    ) -> Offer {
        match table_of(token.wave(), token.instr()) / 4 {
            0 => self.first.offer(rt, code, token, results),
            1 => self.second.offer(rt, code, token, results),
            2 => self.third.offer(rt, code, token, results),
            _ => self.fourth.offer(rt, code, token, results),
        }
    }

    /// The tables, once no thread shares them.
    pub fn gather(self) -> Tables<J>
        ensures fits { Fits result Q.most }
        ensures grow { AllGrow Q.began (contents result) }
    {
        let Row {
            first,
            second,
            third,
            fourth,
            mut home,
        } = self;
        fourth.put_back(&mut home);
        third.put_back(&mut home);
        second.put_back(&mut home);
        first.put_back(&mut home);
        home
    }
}
