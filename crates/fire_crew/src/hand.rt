//! What a worker has in hand.

ghost use Rattle.std.specs.Prelude.{◌≡◌};

use crate::pouring::pour_sent;
use df_core::{Job, Sent, Token, TokenList};
use match_table::Results;
use ready_pool::Seat;
use std::alloc::Global;
use store_buf::BufferAnswers;

/// How a token is an item of seats, which may have other items too.
pub trait Wrap<X, T> {
    ghost wrapped: { X → T };

    /// The item.
    fn wrap(token: X) -> T
        ensures { result ≡ wrapped token };

    /// The token of an item, if it is one.
    fn unwrap(item: T) -> Option<X>;
}

/// Where seats have tokens of one kind alone a token is an item itself.
pub struct Bare;

impl<X: Drop> Wrap<X, X> for Bare {
    ghost wrapped = { λ x. x };

    #[inline(always)]
    fn wrap(token: X) -> X {
        token
    }

    #[inline(always)]
    fn unwrap(item: X) -> Option<X> {
        Some(item)
    }
}

/// How many tokens in a row a worker takes of what its firings hand on. Then all that it has go behind the
/// tokens that wait, so that it runs along no chain of instances for ever while older tokens wait.
pub const STREAK: u32 = 64;

/// What a worker has in hand of a job: the results of its last firing, of which at most one token is left
/// between two turns; and the buffer's answers, while they are put by.
#[derive(Drop)]
pub struct InHand<'i, J: Job> {
    pub results: Results<'i, J>,
    pub answers: BufferAnswers<J>,
    streak: u32,
}

impl<'i, J: Job> InHand<'i, J> {
    /// Nothing, in the hand of a worker from whose seat others may take.
    pub fn empty(alloc: Global) -> InHand<'i, J> {
        InHand {
            results: Results::none(),
            answers: BufferAnswers::none(alloc),
            streak: 0,
        }
    }

    /// A token in hand, if there is one.
    #[inline(always)]
    pub fn next(&mut self) -> Option<Token<J>> {
        match self.results.sent.next() {
            Some(token) => {
                self.streak = self.streak.wrapping_add(1);
                Some(token)
            }
            None => {
                self.streak = 0;
                None
            }
        }
    }

    /// Puts all results by. Those that the seat refuses are released.
    #[inline(always)]
    pub fn put_results<L: Wrap<Token<J>, T>, T: Drop>(
        &mut self,
        seat: &mut Seat<T>,
        let_go: &mut TokenList<J>,
    ) {
        put_sent::<L, J, T>(seat, let_go, &mut self.results.sent, 0);
    }

    // How many results of a firing the worker may go on with.
    #[inline(always)]
    fn kept(&self) -> usize {
        if self.streak < STREAK { 1 } else { 0 }
    }

    /// Puts results by, but for one that the worker may go on with. Those that its seat refuses are released.
    #[inline(always)]
    pub fn hand_on<L: Wrap<Token<J>, T>, T: Drop>(
        &mut self,
        seat: &mut Seat<T>,
        let_go: &mut TokenList<J>,
    ) {
        let kept = self.kept();
        put_sent::<L, J, T>(seat, let_go, &mut self.results.sent, kept);
    }

    /// Puts the buffer's answers by. Those that its seat refuses are released.
    pub fn put_answers<L: Wrap<Token<J>, T>, T: Drop>(
        &mut self,
        seat: &mut Seat<T>,
        let_go: &mut TokenList<J>,
    ) {
        while let Some(token) = self.answers.pop() {
            put::<L, J, T>(seat, let_go, token);
        }
    }

    /// Puts all that is in hand behind other tokens, as far as there is memory.
    pub fn pour(self, to: &mut TokenList<J>) {
        pour_sent(self.results.sent, to);
    }
}

// Puts by what a firing sent, until so many tokens are left. Those that the seat refuses are released.
#[inline(always)]
fn put_sent<L: Wrap<Token<J>, T>, J: Job, T: Drop>(
    seat: &mut Seat<T>,
    let_go: &mut TokenList<J>,
    sent: &mut Sent<'_, J>,
    kept: usize,
) {
    while sent.len() > kept {
        let Some(token) = sent.next() else {
            break;
        };
        put::<L, J, T>(seat, let_go, token);
    }
}

// Puts a token into a seat. One that it refuses is released.
#[inline(always)]
pub(crate) fn put<L: Wrap<Token<J>, T>, J: Job, T: Drop>(
    seat: &mut Seat<T>,
    let_go: &mut TokenList<J>,
    token: Token<J>,
) {
    if let Err(item) = seat.put(L::wrap(token)) {
        if let Some(back) = L::unwrap(item) {
            let _ = let_go.push(back);
        }
    }
}
