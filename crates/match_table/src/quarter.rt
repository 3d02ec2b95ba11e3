//! Four of the tables of a phase, each behind a lock of its own.

ghost use Rattle.std.specs.Prelude.{◌≡◌, ◌+◌, ◌<◌, length};
ghost use Rattle.match_table.specs.Rows.{InARow, RestOf, contents};

use crate::lent::{put_back, take_out};
use crate::limit::{Limited, Offer, Quotas};
use crate::row::table_of;
use crate::tables::Tables;
use crate::{Results, Took};
use crossbeam_utils::CachePadded;
use df_core::{Code, Job, Token};
use std::alloc::Global;
use std::sync::{Mutex, Wait};

type Locked<J, Q, const NUMBER: u64> = CachePadded<Mutex<Limited<J, Q, NUMBER>>>;

/// The tables with these four numbers, each behind a lock of its own.
#[derive(Drop)]
pub(crate) struct Quarter<
    J: Job,
    Q: Quotas,
    const FIRST: u64,
    const SECOND: u64,
    const THIRD: u64,
    const FOURTH: u64,
> {
    first: Locked<J, Q, FIRST>,
    second: Locked<J, Q, SECOND>,
    third: Locked<J, Q, THIRD>,
    fourth: Locked<J, Q, FOURTH>,
}

impl<
    J: Job,
    Q: Quotas,
    const FIRST: u64,
    const SECOND: u64,
    const THIRD: u64,
    const FOURTH: u64,
> Quarter<J, Q, FIRST, SECOND, THIRD, FOURTH> {
    /// Takes the tables with these numbers out of their list.
    pub fn take_out(alloc: Global, home: &mut Tables<J>, limits: &[usize]) -> Self
        requires row { InARow FIRST SECOND THIRD FOURTH }
        requires rest { RestOf Q.began Q.most FIRST (contents home.old) }
        requires there { FOURTH < length Q.began }
        requires limits { (limits.now ≡ Q.most) × (FOURTH < length limits.now) }
        ensures { RestOf Q.began Q.most (FOURTH + 1) (contents home.new) }
    {
        let first = take_out(alloc, home, limits[FIRST as usize]);
        let second = take_out(alloc, home, limits[SECOND as usize]);
        let third = take_out(alloc, home, limits[THIRD as usize]);
        let fourth = take_out(alloc, home, limits[FOURTH as usize]);
        Quarter {
            first: CachePadded::new(Mutex::new(first)),
            second: CachePadded::new(Mutex::new(second)),
            third: CachePadded::new(Mutex::new(third)),
            fourth: CachePadded::new(Mutex::new(fourth)),
        }
    }

    /// Puts the tables back into their list.
    pub fn put_back(self, home: &mut Tables<J>)
        requires row { InARow FIRST SECOND THIRD FOURTH }
        requires rest { RestOf Q.began Q.most (FOURTH + 1) (contents home.old) }
        requires there { FOURTH < length Q.began }
        ensures { RestOf Q.began Q.most FIRST (contents home.new) }
    {
        let Quarter {
            first,
            second,
            third,
            fourth,
        } = self;
        put_back(home, fourth.into_inner().into_inner());
        put_back(home, third.into_inner().into_inner());
        put_back(home, second.into_inner().into_inner());
        put_back(home, first.into_inner().into_inner());
    }

    /// Takes the token at the table that serves it, if that is one of the four.
    #[inline(always)]
    pub fn offer<'i, R: Wait>(
        &self,
        rt: &R,
        code: &Code<'i, J>,
        token: &Token<J>,
        results: &mut Results<'i, J>,
    ) -> Offer {
        let number = table_of(token.wave(), token.instr());
        if number == FIRST {
            return self.first.lock(rt).offer(code, token, results);
        }
        if number == SECOND {
            return self.second.lock(rt).offer(code, token, results);
        }
        if number == THIRD {
            return self.third.lock(rt).offer(code, token, results);
        }
        if number == FOURTH {
            return self.fourth.lock(rt).offer(code, token, results);
        }
        results.clear();
        Offer::Took(Took::NoMemory)
    }
}
