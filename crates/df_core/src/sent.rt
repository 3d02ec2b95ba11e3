//! Tokens of one word.

ghost use Rattle.std.specs.Prelude.{◌≡◌, ◌≤◌, ◌∷◌, ℕ, [], length, MatchOption};
ghost use Rattle.ws_isa.specs.Image.{tokens_to};
ghost use Rattle.df_core.specs.Core.{IsSent};
ghost use Rattle.df_core.specs.Fit.{RightToken};

use crate::job::Job;
use crate::list::TokenList;
use crate::token::Token;
use std::alloc::Global;
use std::marker::{Model, PhantomData};
use ws_isa::Dest;

/// The tokens of one word to at most eight destinations under a wave number. It lends the destinations, and
/// takes no memory.
#[derive(Drop)]
pub struct Sent<'i, J: Job> {
    wave: u64,
    word: u64,
    dests: &'i [Dest],
    of: PhantomData<J>,
}

impl<'i, J: Job> Model for Sent<'i, J> {
    ghost use Rattle.std.specs.Prelude.{ℕ, List, ◌≤◌, length};
    ghost use Rattle.ws_isa.specs.Image.{Token as Plain, tokens_to};
    ghost use Rattle.df_core.specs.Core.{IsSent};
    ghost use Rattle.df_core.specs.Fit.{RightToken};

    ghost Value = { List Plain };

    ghost view = { λ s. tokens_to s.wave s.word s.dests.now };

    ghost invariant = { λ s. (length s.dests.now ≤ 8)
        × ((w i p v : ℕ) → IsSent (tokens_to s.wave s.word s.dests.now) w i p v →
        RightToken J.image J.world w i p v) };
}

impl<'i, J: Job> Sent<'i, J> {
    /// No tokens.
    #[inline(always)]
    pub fn none() -> Sent<'i, J>
        ensures { result ≡ [] }
    {
        Sent {
            wave: 0,
            word: 0,
            dests: &[],
            of: PhantomData,
        }
    }

    /// These tokens, which are right.
    #[inline(always)]
    pub fn right(wave: u64, dests: &'i [Dest], word: u64) -> Sent<'i, J>
        requires few { length dests.now ≤ 8 }
        requires right { (w i p v : ℕ) → IsSent (tokens_to wave word dests.now) w i p v →
            RightToken J.image J.world w i p v }
        ensures { result ≡ tokens_to wave word dests.now }
    {
        Sent {
            wave,
            word,
            dests,
            of: PhantomData,
        }
    }

    /// Lets all go.
    #[inline(always)]
    pub fn clear(&mut self)
        ensures { self.new ≡ [] }
    {
        self.dests = &[];
    }

    /// Takes the first token.
    #[inline(always)]
    pub fn next(&mut self) -> Option<Token<J>>
        ensures { MatchOption result ((self.new ≡ []) × (self.old ≡ []))
            (λ token. self.old ≡ token ∷ self.new) }
    {
        let (first, rest) = self.dests.split_first()?;
        self.dests = rest;
        Some(Token::right(self.wave, first.instr, first.port, self.word))
    }

    /// How many there are.
    #[inline(always)]
    pub fn len(&self) -> usize
        ensures { result ≡ length self.now }
    {
        self.dests.len()
    }

    /// The same tokens in a list, which takes no memory.
    pub fn listed(&self, alloc: Global) -> TokenList<J>
        ensures { result ≡ self.now }
    {
        let mut tokens = TokenList::empty(alloc);
        match tokens.send(self.wave, self.dests, self.word) {
            Ok(()) => tokens,
            Err(_) => unreachable!(),
        }
    }
}
