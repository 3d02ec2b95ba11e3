//! A worker.

use crate::follow::{Next, carry_on};
use crate::gate::Gate;
use crate::hand::{Bare, InHand, STREAK, put};
use df_core::{Code, Job, Token, TokenList};
use match_table::{Quotas, Row};
use port_set::Port;
use ready_pool::Seat;
use std::sync::atomic::{AtomicU64, Ordering};
use std::sync::{Mutex, Wait};
use store_buf::Buffer;

// How often a worker takes a token from a seat in one phase, at most.
const TAKES: u32 = 256;

/// A worker of a phase: its seat, what it has in hand and what it released; and what all workers share.
#[derive(Drop)]
pub struct Worker<'a, 'i, J: Job, Q: Quotas, P: Port, G, R> {
    pub rt: &'a R,
    pub seat: Seat<Token<J>>,
    pub hand: InHand<'i, J>,
    pub let_go: TokenList<J>,
    pub row: &'a Row<J, Q>,
    pub buffer: &'a Mutex<Buffer<J, P>>,
    pub code: &'a Code<'i, J>,
    pub gate: &'a G,
}

impl<'a, 'i, J: Job, Q: Quotas, P: Port, G: Gate, R: Wait> Worker<'a, 'i, J, Q, P, G, R> {
    /// Brings tokens to their tables until none is found, it is the last at work, it has had its turn, the
    /// buffer takes no more requests, or memory runs out. A worker goes on with one result token of a firing,
    /// and the others go into its seat. All workers count together who is at work. What it releases or leaves
    /// in its seat is found among the outstanding tokens. Answers whether memory ran out.
    pub fn work(self, at_work: &AtomicU64) -> bool {
        let rt = self.rt;
        let mut worker = self;
        let mut starved = false;
        for _ in 0..TAKES {
            let Some(token) = worker.seat.find(rt) else {
                break;
            };
            match worker.run_along(token) {
                Next::More => {}
                Next::Ended => break,
                Next::Starved => {
                    starved = true;
                    break;
                }
            }
            if at_work.load(Ordering::SeqCst) == 1 {
                break;
            }
        }
        let _ = at_work.fetch_sub(1, Ordering::SeqCst);
        starved
    }

    // Brings a token to its table, then one result of its instance, and so on. After a streak the next is put
    // by, so that a worker runs along no chain of instances for ever while older tokens wait.
    #[inline(always)]
    fn run_along(&mut self, token: Token<J>) -> Next {
        let mut token = token;
        for _ in 0..STREAK {
            self.gate.before(token.wave(), token.instr(), token.port());
            let offer = self
                .row
                .offer(self.rt, self.code, &token, &mut self.hand.results);
            match self.hand.results.sent.next() {
                Some(next) => {
                    token = next;
                    self.hand
                        .put_results::<Bare, Token<J>>(&mut self.seat, &mut self.let_go);
                }
                None => {
                    return carry_on::<Bare, J, Token<J>, P, R>(
                        self.rt,
                        offer,
                        token,
                        &mut self.hand,
                        &mut self.seat,
                        &mut self.let_go,
                        self.buffer,
                        self.code,
                    );
                }
            }
        }
        put::<Bare, J, Token<J>>(&mut self.seat, &mut self.let_go, token);
        Next::More
    }
}
