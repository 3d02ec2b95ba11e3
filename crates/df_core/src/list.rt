//! Lists of tokens.

ghost use Rattle.std.specs.Prelude.{◌≡◌, ◌+◌, ◌<◌, ◌≤◌, ◌∷◌, ◌++◌, ℕ, [], All, length, take, IsOk, OnOk};
ghost use Rattle.std.specs.Prelude.{OnErr, MatchOption};
ghost use Rattle.ws_isa.specs.Image.{tokens_to};
ghost use Rattle.df_core.specs.Core.{IsSent};
ghost use Rattle.df_core.specs.Fit.{RightToken};
ghost use Rattle.df_core.specs.Rights.{IsRight, tokens_of};

use crate::job::Job;
use crate::token::Token;
use smallvec::SmallVec;
use std::alloc::Global;
use std::marker::{Model, PhantomData};
use ws_isa::Dest;
use ws_words::NoMemory;

/// A list of tokens, the first eight of which take no memory.
#[derive(Drop)]
pub struct TokenList<J: Job> {
    raw: SmallVec<(u64, u32, u8, u64), 8>,
    of: PhantomData<J>,
}

impl<J: Job> Model for TokenList<J> {
    ghost use Rattle.std.specs.Prelude.{◌≤◌, List, All};
    ghost use Rattle.ws_isa.specs.Image.{Token as Plain};
    ghost use Rattle.df_core.specs.Rights.{IsRight, tokens_of};

    ghost Value = { List Plain };

    ghost view = { λ l. tokens_of l.raw.items };

    ghost invariant = { λ l. (8 ≤ l.raw.capacity)
        × All (IsRight J.image J.world) (tokens_of l.raw.items) };
}

impl<J: Job> TokenList<J> {
    /// No tokens.
    pub fn empty(alloc: Global) -> TokenList<J>
        ensures { result ≡ [] }
    {
        TokenList {
            raw: SmallVec::new(alloc),
            of: PhantomData,
        }
    }

    /// These tokens, by wave number, instruction, port and value, which are right. Takes no memory.
    pub fn of_right(raw: SmallVec<(u64, u32, u8, u64), 8>) -> TokenList<J>
        requires room { 8 ≤ raw.capacity }
        requires right { (w i p v : ℕ) → IsSent (tokens_of raw.items) w i p v →
            RightToken J.image J.world w i p v }
        ensures { result ≡ tokens_of raw.items }
    {
        TokenList {
            raw,
            of: PhantomData,
        }
    }

    /// Puts a token at the end. The first eight take no memory.
    pub fn push(&mut self, token: Token<J>) -> Result<(), NoMemory>
        ensures ok { OnOk result (self.new ≡ self.old ++ token ∷ []) }
        ensures err { OnErr result (self.new ≡ self.old) }
        ensures few { length self.old < 8 → IsOk result }
    {
        self.raw
            .push((token.wave(), token.instr(), token.port(), token.value()))?;
        Ok(())
    }

    /// Puts the tokens of one word to destinations under a wave number at the end. The first eight of
    /// all take no memory; where memory runs out, a prefix of them stands at the end.
    pub fn send(&mut self, wave: u64, dests: &[Dest], word: u64) -> Result<(), NoMemory>
        requires { (w i p v : ℕ) → IsSent (tokens_to wave word dests.now) w i p v →
            RightToken J.image J.world w i p v }
        ensures ok { OnOk result (self.new ≡ self.old ++ tokens_to wave word dests.now) }
        ensures err { OnErr result ((k : ℕ)
            × (self.new ≡ self.old ++ tokens_to wave word (take k dests.now))) }
        ensures few { length self.old + length dests.now ≤ 8 → IsOk result }
    {
        for dest in dests {
            self.push(Token::right(wave, dest.instr, dest.port, word))?;
        }
        Ok(())
    }

    /// Lets all tokens go, and keeps the room.
    pub fn clear(&mut self)
        ensures { self.new ≡ [] }
    {
        self.raw.clear();
    }

    /// Takes the last token.
    pub fn pop(&mut self) -> Option<Token<J>>
        ensures { MatchOption result ((self.new ≡ []) × (self.old ≡ []))
            (λ token. self.old ≡ self.new ++ token ∷ []) }
    {
        let (wave, instr, port, value) = self.raw.pop()?;
        Some(Token::right(wave, instr, port, value))
    }

    /// How many there are.
    pub fn len(&self) -> usize
        ensures { result ≡ length self.now }
    {
        self.raw.len()
    }
}
