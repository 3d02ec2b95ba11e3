//! Threads taken apart for a phase, and put together after it.

ghost use Rattle.std.specs.Prelude.{◌≡◌, ◌+◌, ◌<◌, ◌≤◌, ℕ, List, None, length};
ghost use Rattle.match_table.specs.Rows.{Fits, RestOf};
ghost use Rattle.multi_wave.specs.Goings.{HomeOk};
ghost use Rattle.multi_wave.specs.Parts.{EndSo};
ghost use Rattle.multi_wave.specs.Stands.{IsApart, IsFit, IsJoined, end_told};

use crate::going::GoingLane;
use crate::jobs::LaneJob;
use crate::lane::Lane;
use df_core::{Code, Token, TokenList};
use fire_crew::{Wrap, deal, fitting, limits};
use match_table::{Limited, Quotas, Tables, count_of, fired, put_back, table_of, take_out};
use port_set::Port;
use ready_pool::SeatList;
use std::alloc::Global;
use std::marker::Model;
use std::sync::{Mutex, Wait};
use store_buf::{Buffer, RunEnd};

/// What a thread has that takes part in a phase, beside its tables: its code, and its buffer behind a lock.
#[derive(Drop)]
pub struct Taker<'i, J: LaneJob, P: Port> {
    code: Code<'i, J>,
    buffer: Mutex<Buffer<J, P>>,
    token: Option<Token<J>>,
    budget: u64,
}

impl<'i, J: LaneJob, P: Port> Model for Taker<'i, J, P> {
    ghost use Rattle.multi_wave.specs.Goings.{HasPart};
    ghost use Rattle.multi_wave.specs.Stands.{Taker as Plain};

    ghost Value = { Plain };

    ghost view = { λ t. record { token = t.token; budget = t.budget } };

    ghost invariant = { λ t. HasPart J.part t.budget };
}

impl<'i, J: LaneJob, P: Port> Taker<'i, J, P> {
    /// Its code.
    #[inline(always)]
    pub fn code(&self) -> &Code<'i, J> {
        &self.code
    }

    /// Its buffer, which its workers share.
    #[inline(always)]
    pub fn buffer(&self) -> &Mutex<Buffer<J, P>> {
        &self.buffer
    }
}

/// A thread in a phase: the list of its tables, how many that fired each of them may list, and what the
/// thread has if it takes part. One that takes no part has fresh tables, to which no token comes.
#[derive(Drop)]
pub struct Home<'i, J: LaneJob, P: Port> {
    tables: Tables<J>,
    limits: Vec<usize>,
    taker: Option<Taker<'i, J, P>>,
}

impl<'i, J: LaneJob, P: Port> Model for Home<'i, J, P> {
    ghost use Rattle.multi_wave.specs.Goings.{HomeOk};
    ghost use Rattle.multi_wave.specs.Stands.{Housed};

    ghost Value = { Housed };

    ghost view = { λ h. record { tables = h.tables; limits = h.limits.items; taker = h.taker } };

    ghost invariant = { λ h. HomeOk h.limits.items h.taker };
}

/// A thread taken apart for a phase. One that takes no part has ended so.
#[derive(Drop)]
pub struct Split<'i, J: LaneJob, P: Port> {
    pub home: Home<'i, J, P>,
    pub end: Option<RunEnd<P>>,
}

impl<'i, J: LaneJob, P: Port> Lane<'i, J, P> {
    /// Takes a thread apart for a phase, and puts its tokens into seats, from this one on. Where memory runs
    /// out it has ended.
    pub fn take_apart<L: Wrap<Token<J>, T>, T: Drop>(
        self,
        alloc: Global,
        seats: &mut SeatList<T>,
        at: &mut usize,
    ) -> Split<'i, J, P>
        ensures fits { IsFit result.home }
        ensures end { result.home.taker ≡ None → EndSo P.tells J.part result.end }
        ensures apart { IsApart self.entry result.home (end_told P.tells result.end) }
    {
        let going = match self.going() {
            Ok(going) => going,
            Err(end) => return Split::idle(alloc, end),
        };
        let first = first_table(&going.token);
        let left = going.budget - fired(&going.tables);
        match limits(alloc, &going.tables, left, first) {
            Ok(limits) => {
                let GoingLane {
                    code,
                    tables,
                    buffer,
                    token,
                    tokens,
                    budget,
                } = going;
                *at = deal::<L, J, T>(seats, *at, tokens);
                Split {
                    home: Home {
                        tables,
                        limits,
                        taker: Some(Taker {
                            code,
                            buffer: Mutex::new(buffer),
                            token,
                            budget,
                        }),
                    },
                    end: None,
                }
            }
            Err(_) => Split::idle(alloc, going.give_up().end()),
        }
    }

    /// A thread after a phase, in which it came to this home and these tokens were released; `starved` where
    /// memory ran out.
    pub fn join(
        alloc: Global,
        home: Home<'i, J, P>,
        end: Option<RunEnd<P>>,
        tokens: TokenList<J>,
        starved: bool,
    ) -> Lane<'i, J, P>
        requires fits { IsFit home }
        requires end { home.taker ≡ None → EndSo P.tells J.part end }
        ensures { IsJoined home.entry (end_told P.tells end) result }
    {
        let Home {
            tables,
            limits,
            taker,
        } = home;
        let Some(taker) = taker else {
            return Lane::off(end);
        };
        fitting(&tables, &limits);
        let Taker {
            code,
            buffer,
            token,
            budget,
        } = taker;
        let going = GoingLane {
            code,
            tables,
            buffer: buffer.into_inner(),
            token,
            tokens,
            budget,
        };
        if starved {
            going.give_up()
        } else {
            going.go_on(alloc)
        }
    }
}

impl<'i, J: LaneJob, P: Port> Split<'i, J, P> {
    // A thread that has ended so takes no part.
    fn idle(alloc: Global, end: Option<RunEnd<P>>) -> Split<'i, J, P>
        ensures fits { IsFit result.home }
        ensures none { result.home.taker ≡ None }
        ensures end { result.end ≡ end }
    {
        Split {
            home: Home {
                tables: untouched(alloc),
                limits: Vec::new(alloc),
                taker: None,
            },
            end,
        }
    }
}

// Tables to which no token was brought: sixteen, or none if memory ran out.
fn untouched<J: LaneJob>(alloc: Global) -> Tables<J>
    ensures { (most : List ℕ) → Fits result most }
{
    match Tables::new(alloc) {
        Ok(tables) => tables,
        Err(_) => Tables::none(alloc),
    }
}

// The number of the table of a token, where there is one.
fn first_table<J: LaneJob>(token: &Option<Token<J>>) -> u64 {
    match token {
        Some(token) => table_of(token.wave(), token.instr()),
        None => 0,
    }
}

impl<'i, J: LaneJob, P: Port> Home<'i, J, P> {
    /// What the thread has, if it takes part.
    #[inline(always)]
    pub fn taker(&self) -> Option<&Taker<'i, J, P>> {
        self.taker.as_ref()
    }

    /// How many tables are in the list.
    pub fn count(&self) -> u64
        ensures count { result ≡ length self.now.tables }
        ensures most { result ≤ 16 }
    {
        count_of(&self.tables)
    }

    /// Takes the table with this number out of the list.
    pub fn take_out<Q: Quotas, const NUMBER: u64>(&mut self, alloc: Global) -> Limited<J, Q, NUMBER>
        requires rest { RestOf Q.began Q.most NUMBER self.old.tables }
        requires there { NUMBER < length Q.began }
        requires limits { self.old.limits ≡ Q.most }
        ensures rest { RestOf Q.began Q.most (NUMBER + 1) self.new.tables }
        ensures limits { self.new.limits ≡ self.old.limits }
        ensures taker { self.new.taker ≡ self.old.taker }
    {
        let most = match self.limits.get(NUMBER as usize) {
            Some(most) => *most,
            None => 0,
        };
        take_out(alloc, &mut self.tables, most)
    }

    /// Puts the table with this number back into the list.
    pub fn put_back<Q: Quotas, const NUMBER: u64>(&mut self, table: Limited<J, Q, NUMBER>)
        requires rest { RestOf Q.began Q.most (NUMBER + 1) self.old.tables }
        requires there { NUMBER < length Q.began }
        ensures rest { RestOf Q.began Q.most NUMBER self.new.tables }
        ensures limits { self.new.limits ≡ self.old.limits }
        ensures taker { self.new.taker ≡ self.old.taker }
    {
        put_back(&mut self.tables, table);
    }
}
