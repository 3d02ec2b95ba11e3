//! A turn: the budget is shared out, tokens are dealt, and workers run.

ghost use Rattle.std.specs.Prelude.{◌≡◌, ◌<◌, ◌≤◌, IfOk, cond, length, map, min, nat_lt};
ghost use Rattle.std.specs.Prelude.{false, true};
ghost use Rattle.df_core.specs.Core.{has};
ghost use Rattle.ready_pool.specs.Dealt.{Dealt};
ghost use Rattle.match_table.specs.Together.{AllServe, part_of};
ghost use Rattle.match_table.specs.Growth.{AllGrow};
ghost use Rattle.match_table.specs.Rows.{contents};

use crate::crew::Crew;
use crate::own::see_brought;
use crate::phase::{PhaseEnd, starved_phase};
use crate::shares::{fitting, limits};
use crate::{Bare, Gate, Wrap};
use df_core::{Code, Job, Token, TokenList};
use match_table::{Tables, fired, table_of};
use port_set::Port;
use ready_pool::{SeatList, put_next, seats};
use std::alloc::Global;
use std::marker::Brand;
use std::sync::Wait;
use std::thread::Threads;
use store_buf::Buffer;
use ws_words::NoMemory;

impl<'a, G: Gate, R: Threads + Wait + Sync> Crew<'a, G, R> {
    /// A phase with these tokens. No more instances fire than the budget allows, and no table loses
    /// anything. Where more may fire then a table has had the token that is named: if no worker brought it,
    /// the caller's thread does, with no other at work.
    pub fn turn<J: Job + Send + Sync, P: Port + Send>(
        &self,
        code: &Code<'_, J>,
        tables: Tables<J>,
        buffer: Buffer<J, P>,
        token: &Token<J>,
        tokens: TokenList<J>,
    ) -> PhaseEnd<J, P>
        requires serve { AllServe tables }
        requires within { length (part_of tables).fired ≤ self.now.budget }
        ensures serve { AllServe result.tables }
        ensures within { length (part_of result.tables).fired ≤ self.now.budget }
        ensures grow { AllGrow (contents tables) (contents result.tables) }
        ensures come { result.starved ≡ false → length (part_of result.tables).fired < self.now.budget
            → has ((part_of result.tables).held token.now.wave token.now.instr token.now.port) ≡ true }
    {
        let first = table_of(token.wave(), token.instr());
        let mut after = self.run_phase(code, tables, buffer, tokens, first);
        let mut results = TokenList::empty(self.alloc);
        let brought = see_brought(
            self.alloc,
            code,
            &mut after.tables,
            &mut after.buffer,
            token,
            &mut results,
            self.budget,
        );
        after.starved = after.starved || brought.is_err();
        after
    }

    // The work of a phase, in which the table `first` may fire where any may.
    fn run_phase<J: Job + Send + Sync, P: Port + Send>(
        &self,
        code: &Code<'_, J>,
        tables: Tables<J>,
        buffer: Buffer<J, P>,
        tokens: TokenList<J>,
        first: u64,
    ) -> PhaseEnd<J, P>
        requires serve { AllServe tables }
        requires within { length (part_of tables).fired ≤ self.now.budget }
        ensures serve { AllServe result.tables }
        ensures within { length (part_of result.tables).fired ≤ self.now.budget }
        ensures grow { AllGrow (contents tables) (contents result.tables) }
    {
        let left = self.budget - fired(&tables);
        let Ok(limits) = limits(self.alloc, &tables, left, first) else {
            return starved_phase(tables, buffer);
        };
        let Ok(deal) = dealt(self.alloc, tokens, self.workers) else {
            return starved_phase(tables, buffer);
        };
        let after = self.phase::<J, Brand, P>(code, tables, buffer, &limits, deal);
        fitting(&after.tables, &limits);
        after
    }
}

// Seats with these tokens: one for each, but two at least, and no more than there are workers.
fn dealt<J: Job>(
    alloc: Global,
    tokens: TokenList<J>,
    workers: u32,
) -> Result<SeatList<Token<J>>, NoMemory>
    requires { (1 ≤ workers) × (workers ≤ 8) }
    ensures { IfOk result (λ seats. length seats.items
        ≡ min workers (cond (nat_lt (length tokens) 2) 2 (length tokens))) }
{
    let wanted = tokens.len().max(2);
    let count = if wanted < workers as usize {
        wanted as u32
    } else {
        workers
    };
    let mut seats = seats::<Token<J>>(alloc, count)?;
    deal::<Bare, J, Token<J>>(&mut seats, 0, tokens);
    Ok(seats)
}

/// Puts tokens into seats, one after another from this one on. What a seat's deque refuses is released, which
/// it does only where it is full. Answers which seat comes next.
pub fn deal<L: Wrap<Token<J>, T>, J: Job, T: Drop>(
    seats: &mut SeatList<T>,
    first: usize,
    tokens: TokenList<J>,
) -> usize
    ensures { Dealt seats.old.items (map L.wrapped tokens) seats.new.items }
{
    let mut tokens = tokens;
    let mut at = first;
    while let Some(token) = tokens.pop() {
        at = put_next(seats, at, L::wrap(token));
    }
    at
}
