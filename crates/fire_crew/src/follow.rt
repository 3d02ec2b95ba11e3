//! What a worker does once a table has had a token.

use crate::hand::{InHand, Wrap};
use df_core::{Code, Job, Token, TokenList};
use match_table::{Offer, Took};
use port_set::Port;
use ready_pool::Seat;
use std::sync::{Mutex, Wait};
use store_buf::{BufFault, Buffer, MemoryOrder};

/// Whether a worker goes on: with any token; with none of this job, whose buffer takes no more
/// requests; or not at all, since memory ran out.
#[derive(Clone, Copy, Debug, PartialEq, Eq)]
pub enum Next {
    More,
    Ended,
    Starved,
}

/// What follows from the answer of a token's table: results are put by, but for one that the worker goes on
/// with; a request goes to the buffer; and a token for which the quota is exhausted is released.
#[inline(always)]
pub fn carry_on<L: Wrap<Token<J>, T>, J: Job, T: Drop, P: Port, R: Wait>(
    rt: &R,
    offer: Offer,
    token: Token<J>,
    hand: &mut InHand<'_, J>,
    seat: &mut Seat<T>,
    let_go: &mut TokenList<J>,
    buffer: &Mutex<Buffer<J, P>>,
    code: &Code<'_, J>,
) -> Next {
    match offer {
        Offer::Took(Took::Waits) | Offer::Took(Took::Old) => Next::More,
        Offer::Took(Took::Fires) => {
            hand.hand_on::<L, T>(seat, let_go);
            Next::More
        }
        Offer::Took(Took::Asks) => submit_in_hand::<L, J, T, P, R>(
            rt, hand, seat, let_go, buffer, code,
        ),
        Offer::Took(Took::NoMemory) => Next::Starved,
        Offer::Spent => {
            let _ = let_go.push(token);
            Next::More
        }
    }
}

// Submits the request in hand, under the buffer's lock. Its answers are put by.
#[inline(always)]
fn submit_in_hand<L: Wrap<Token<J>, T>, J: Job, T: Drop, P: Port, R: Wait>(
    rt: &R,
    hand: &mut InHand<'_, J>,
    seat: &mut Seat<T>,
    let_go: &mut TokenList<J>,
    buffer: &Mutex<Buffer<J, P>>,
    code: &Code<'_, J>,
) -> Next {
    let Some(request) = hand.results.request.take() else {
        return Next::More;
    };
    let answer = buffer
        .lock(rt)
        .submit_into(code, request, &mut hand.answers);
    match answer {
        Ok(()) => {
            hand.put_answers::<L, T>(seat, let_go);
            Next::More
        }
        Err(BufFault::Old) => Next::More,
        Err(BufFault::NoMemory) => Next::Starved,
        Err(_) => Next::Ended,
    }
}
