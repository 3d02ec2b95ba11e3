//! Tokens in flight.

ghost use Rattle.std.specs.Prelude.{◌≡◌, ◌<◌, ◌≤◌, ◌+◌, ◌==◌, ℕ, false, [], ◌++◌, length, map};
ghost use Rattle.std.specs.Prelude.{vec_len, vec_capacity, MatchOption};
ghost use Rattle.ws_isa.specs.Image.{tokens_to};
ghost use Rattle.df_core.specs.Core.{IsSent};
ghost use Rattle.df_core.specs.Ways.{token_of, way_of, SentTo, TakenFrom, TakenAt, NoneAt, IsTokenAt};

use crate::plain::Token;
use std::mem::swap;
use ws_isa::Dest;

/// Tokens in flight: those under the number `front`, and others. The first are taken first, the
/// newest of them before others.
#[derive(Drop)]
pub struct Way {
    pub front: u64,
    pub now: Vec<Token>,
    pub later: Vec<Token>,
}

impl Way {
    /// A word goes to destinations under a wave number.
    pub fn send(&mut self, dests: &[Dest], wave: u64, word: u64)
        requires now { vec_len self.old.now + length dests.now ≤ vec_capacity self.old.now }
        requires later { vec_len self.old.later + length dests.now ≤ vec_capacity self.old.later }
        ensures sent { SentTo self.old self.new (tokens_to wave word dests.now) }
        ensures now { vec_len self.new.now ≤ vec_len self.old.now + length dests.now }
        ensures later { vec_len self.new.later ≤ vec_len self.old.later + length dests.now }
        ensures both { vec_len self.new.now + vec_len self.new.later
            ≡ vec_len self.old.now + vec_len self.old.later + length dests.now }
        ensures now_room { vec_capacity self.new.now ≡ vec_capacity self.old.now }
        ensures later_room { vec_capacity self.new.later ≡ vec_capacity self.old.later }
    {
        if wave == self.front {
            push_tokens(&mut self.now, dests, wave, word);
        } else {
            push_tokens(&mut self.later, dests, wave, word);
        }
    }

    /// Whether there is none.
    pub fn is_empty(&self) -> bool
        ensures { result ≡ (vec_len self.entry.now.now + vec_len self.entry.now.later == 0) }
    {
        self.now.is_empty() && self.later.is_empty()
    }

    /// Takes a token.
    pub fn take(&mut self) -> Option<Token>
        ensures taken { MatchOption result ((way_of self.old ≡ []) × (way_of self.new ≡ []))
            (TakenFrom self.old self.new) }
        ensures room { (n : ℕ) → n ≤ vec_capacity self.old.now → n ≤ vec_capacity self.old.later →
            (n ≤ vec_capacity self.new.now) × (n ≤ vec_capacity self.new.later) }
        ensures fewer { MatchOption result (vec_len self.old.now + vec_len self.old.later ≡ 0)
            (λ token. vec_len self.new.now + vec_len self.new.later + 1
            ≡ vec_len self.old.now + vec_len self.old.later) }
    {
        match self.now.pop() {
            Some(token) => Some(token),
            None => {
                swap(&mut self.now, &mut self.later);
                match self.now.pop() {
                    Some(token) => {
                        self.front = token.wave;
                        Some(token)
                    }
                    None => None,
                }
            }
        }
    }

    /// A token, if there is one.
    pub fn some(&self) -> Option<Token>
        ensures { MatchOption result (way_of self.entry.now ≡ [])
            (λ token. IsSent (way_of self.entry.now)
            token.wave token.instr token.port token.value) }
    {
        let count = self.now.len();
        if count > 0 {
            return Some(self.now[count - 1]);
        }
        let others = self.later.len();
        if others > 0 {
            return Some(self.later[others - 1]);
        }
        None
    }

    /// Where there are none of the first, the others take their place. Takes no room.
    pub fn turn(&mut self)
        ensures turned { way_of self.new ≡ way_of self.old }
        ensures both { vec_len self.new.now + vec_len self.new.later
            ≡ vec_len self.old.now + vec_len self.old.later }
        ensures room { (n : ℕ) → n ≤ vec_capacity self.old.now → n ≤ vec_capacity self.old.later →
            (n ≤ vec_capacity self.new.now) × (n ≤ vec_capacity self.new.later) }
    {
        if !self.now.is_empty() {
            return;
        }
        swap(&mut self.now, &mut self.later);
        let count = self.now.len();
        if count > 0 {
            self.front = self.now[count - 1].wave;
        }
    }

    /// Whether there is a token at a port of an instance.
    pub fn has(&self, wave: u64, instr: u32, port: u8) -> bool
        ensures { result ≡ false → NoneAt (way_of self.entry.now) wave instr port }
    {
        find_token(&self.now, wave, instr, port).is_some()
            || find_token(&self.later, wave, instr, port).is_some()
    }

    /// Takes the token at a port of an instance.
    pub fn take_at(&mut self, wave: u64, instr: u32, port: u8) -> Option<Token>
        ensures taken { MatchOption result
            ((self.new ≡ self.old) × NoneAt (way_of self.old) wave instr port)
            (TakenAt self.old self.new wave instr port) }
        ensures fewer { MatchOption result (self.new ≡ self.old)
            (λ token. vec_len self.new.now + vec_len self.new.later + 1
            ≡ vec_len self.old.now + vec_len self.old.later) }
        ensures now_room { vec_capacity self.new.now ≡ vec_capacity self.old.now }
        ensures later_room { vec_capacity self.new.later ≡ vec_capacity self.old.later }
    {
        if let Some(place) = find_token(&self.now, wave, instr, port) {
            return Some(self.now.remove(place));
        }
        match find_token(&self.later, wave, instr, port) {
            Some(place) => Some(self.later.remove(place)),
            None => None,
        }
    }
}

// The place of the token at a port of an instance.
fn find_token(tokens: &[Token], wave: u64, instr: u32, port: u8) -> Option<usize>
    ensures { MatchOption result (NoneAt (map token_of tokens.now) wave instr port)
        (λ place. (place < length tokens.now)
        × IsTokenAt tokens.now place wave instr port) }
{
    let mut place = tokens.len();
    while place > 0 {
        place -= 1;
        let token = tokens[place];
        if token.wave == wave && token.instr == instr && token.port == port {
            return Some(place);
        }
    }
    None
}

// Tokens of one word come behind others.
fn push_tokens(tokens: &mut Vec<Token>, dests: &[Dest], wave: u64, word: u64)
    requires { vec_len tokens.old + length dests.now ≤ vec_capacity tokens.old }
    ensures tokens { map token_of tokens.new.items
        ≡ map token_of tokens.old.items ++ tokens_to wave word dests.now }
    ensures len { vec_len tokens.new ≡ vec_len tokens.old + length dests.now }
    ensures room { vec_capacity tokens.new ≡ vec_capacity tokens.old }
{
    for dest in dests {
        tokens.push_reserved(Token {
            wave,
            instr: dest.instr,
            port: dest.port,
            value: word,
        });
    }
}
