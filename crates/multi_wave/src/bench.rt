//! What a worker has of a thread.

use crate::home::Home;
use crate::jobs::LaneJob;
use df_core::{Token, TokenList};
use fire_crew::{InHand, Next, Wrap, carry_on};
use match_table::{Limited, Offer, Quotas, Took, table_of};
use port_set::Port;
use ready_pool::Seat;
use std::alloc::Global;
use std::sync::Wait;

/// What a worker has of one thread: results in hand, tokens that it released, and whether the thread's
/// buffer was found to take no more requests.
#[derive(Drop)]
pub struct Bench<'i, J: LaneJob> {
    hand: InHand<'i, J>,
    let_go: TokenList<J>,
    ended: bool,
}

impl<'i, J: LaneJob> Bench<'i, J> {
    /// Nothing.
    pub fn empty(alloc: Global) -> Bench<'i, J> {
        Bench {
            hand: InHand::empty(alloc),
            let_go: TokenList::empty(alloc),
            ended: false,
        }
    }

    /// A token in hand, if there is one.
    #[inline(always)]
    pub fn next(&mut self) -> Option<Token<J>> {
        self.hand.next()
    }

    /// Brings a token to the table that serves it. Nothing is done with it where its thread takes part in the
    /// phase no more.
    #[inline(always)]
    pub fn offer<Q: Quotas, P: Port, const NUMBER: u64>(
        &mut self,
        home: &Home<'i, J, P>,
        table: &mut Limited<J, Q, NUMBER>,
        token: &Token<J>,
    ) -> Offer {
        let Some(taker) = home.taker() else {
            return Offer::Took(Took::Old);
        };
        if self.ended {
            return Offer::Took(Took::Old);
        }
        if table_of(token.wave(), token.instr()) != NUMBER {
            self.hand.results.clear();
            return Offer::Took(Took::NoMemory);
        }
        table.offer(taker.code(), token, &mut self.hand.results)
    }

    /// What follows from the answer of a token's table. Whether memory ran out.
    #[inline(always)]
    pub fn follow<L: Wrap<Token<J>, T>, T: Drop, P: Port, R: Wait>(
        &mut self,
        rt: &R,
        offer: Offer,
        token: Token<J>,
        seat: &mut Seat<T>,
        home: &Home<'i, J, P>,
    ) -> bool {
        let Some(taker) = home.taker() else {
            return false;
        };
        let next = carry_on::<L, J, T, P, R>(
            rt,
            offer,
            token,
            &mut self.hand,
            seat,
            &mut self.let_go,
            taker.buffer(),
            taker.code(),
        );
        match next {
            Next::More => false,
            Next::Ended => {
                self.ended = true;
                false
            }
            Next::Starved => true,
        }
    }

    /// The tokens of the thread that the worker released, and those that it had in hand.
    pub fn rest(self) -> TokenList<J> {
        let mut let_go = self.let_go;
        self.hand.pour(&mut let_go);
        let_go
    }
}
