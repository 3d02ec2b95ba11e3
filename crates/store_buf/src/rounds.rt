//! Tokens in flight, in rounds by wave, last in first out.

ghost use Rattle.std.specs.Prelude.{◌≡◌, ◌∷◌, ◌++◌, ◌+◌, ◌≤◌, [], IfOk, MatchOption, OnOk};
ghost use Rattle.std.specs.Prelude.{vec_capacity, vec_len};
ghost use Rattle.store_buf.specs.Contents.{with_tokens};
ghost use Rattle.store_buf.specs.Runs.{Covers, IsOffered};

use crate::answers::BufferAnswers;
use crate::fault::BufFault;
use df_core::{Job, Sent, Token, TokenList};
use std::alloc::Global;
use std::marker::Model;
use std::mem::{replace, swap};
use ws_words::NoMemory;

/// Tokens in flight: those of this round, and those that wait for the next one. What comes of a token is
/// put behind this round where it is of the same wave or an earlier one, and waits else. So a wave goes as
/// far as it can before a later one begins: few waves are at work at a time, and what belongs together in
/// a table lies near. Of each round the token that came last is taken first, since what it needs is near.
#[derive(Drop)]
pub struct Rounds<J: Job> {
    round: Vec<Token<J>>,
    next: Vec<Token<J>>,
    // The wave number of the token that was taken last.
    wave: u64,
}

impl<J: Job> Model for Rounds<J> {
    ghost use Rattle.std.specs.Prelude.{◌++◌, List, reverse};
    ghost use Rattle.ws_isa.specs.Image.{Token as Plain};

    ghost Value = { List Plain };

    ghost view = { λ w. reverse w.round.items ++ reverse w.next.items };
}

impl<J: Job> Rounds<J> {
    /// Nothing is in flight.
    pub fn none(alloc: Global) -> Rounds<J>
        ensures { result ≡ [] }
    {
        Rounds {
            round: Vec::new(alloc),
            next: Vec::new(alloc),
            wave: 0,
        }
    }

    /// Takes the next token. Where none is left of a round, the next one begins.
    #[inline(always)]
    pub fn take(&mut self) -> Option<Token<J>>
        ensures { MatchOption result (self.old ≡ []) (λ token. self.old ≡ token ∷ self.new) }
    {
        if self.round.is_empty() {
            swap(&mut self.round, &mut self.next);
        }
        let token = self.round.pop()?;
        self.wave = token.wave();
        Some(token.again())
    }

    // Puts a token in flight.
    #[inline(always)]
    fn put(&mut self, token: Token<J>) -> Result<(), NoMemory>
        ensures { OnOk result (Covers (token ∷ self.old) self.new) }
    {
        if token.wave() <= self.wave {
            push(&mut self.round, token)
        } else {
            push(&mut self.next, token)
        }
    }

    /// Puts what a buffer answered in flight. A buffer that is stopped reports so itself.
    #[inline(always)]
    pub fn offer(
        &mut self,
        answer: Result<(), BufFault>,
        answers: &mut BufferAnswers<J>,
    ) -> Result<(), NoMemory>
        ensures { OnOk result (IsOffered (with_tokens answers.old answer) self.old self.new) }
    {
        match answer {
            Ok(()) => self.take_all(answers),
            Err(BufFault::NoMemory) => Err(NoMemory),
            Err(_) => Ok(()),
        }
    }

    /// Puts what an instance sent in flight.
    #[inline(always)]
    pub fn send_all(&mut self, sent: &mut Sent<'_, J>) -> Result<(), NoMemory>
        ensures old { OnOk result (Covers self.old self.new) }
        ensures taken { OnOk result (Covers sent.old self.new) }
        ensures none { OnOk result (sent.new ≡ []) }
    {
        let Some(first) = sent.next() else {
            return Ok(());
        };
        // All that an instance sends is of one wave.
        if first.wave() > self.wave {
            push(&mut self.next, first)?;
            push_all(&mut self.next, sent)
        } else {
            push(&mut self.round, first)?;
            push_all(&mut self.round, sent)
        }
    }

    /// The token to bring next: the first of what an instance sent, if it is of this round, or else the next
    /// in flight. The others that it sent are put in flight.
    #[inline(always)]
    pub fn follow(&mut self, sent: &mut Sent<'_, J>) -> Result<Option<Token<J>>, NoMemory>
        ensures next { IfOk result (λ next. MatchOption next ((sent.old ≡ []) × (self.old ≡ []))
            (λ token. Covers (sent.old ++ self.old) (token ∷ self.new))) }
        ensures none { OnOk result (sent.new ≡ []) }
    {
        if sent.len() == 0 {
            return Ok(self.take());
        }
        let mut rest = replace(sent, Sent::none());
        let Some(first) = rest.next() else {
            return Ok(self.take());
        };
        if first.wave() > self.wave {
            push(&mut self.next, first)?;
            push_all(&mut self.next, &mut rest)?;
            return Ok(self.take());
        }
        push_all(&mut self.round, &mut rest)?;
        Ok(Some(first))
    }

    /// Puts all answers of a buffer in flight.
    #[inline(always)]
    pub fn take_all(&mut self, answers: &mut BufferAnswers<J>) -> Result<(), NoMemory>
        ensures old { OnOk result (Covers self.old self.new) }
        ensures taken { OnOk result (Covers answers.old self.new) }
    {
        while let Some(token) = answers.pop() {
            self.put(token)?;
        }
        Ok(())
    }

    /// Puts all tokens of a list in flight.
    pub fn pour(&mut self, tokens: TokenList<J>) -> Result<(), NoMemory>
        ensures old { OnOk result (Covers self.old self.new) }
        ensures taken { OnOk result (Covers tokens self.new) }
    {
        let mut rest = tokens;
        while let Some(token) = rest.pop() {
            self.put(token)?;
        }
        Ok(())
    }
}

// Puts a token behind others.
#[inline(always)]
fn push<J: Job>(tokens: &mut Vec<Token<J>>, token: Token<J>) -> Result<(), NoMemory>
    ensures { OnOk result (tokens.new.items ≡ tokens.old.items ++ token ∷ []) }
{
    if tokens.len() >= tokens.capacity() {
        make_room(tokens, 1)?;
    }
    tokens.push_reserved(token);
    Ok(())
}

// Puts all tokens that an instance sent behind others.
#[inline(always)]
fn push_all<J: Job>(tokens: &mut Vec<Token<J>>, sent: &mut Sent<'_, J>) -> Result<(), NoMemory>
    ensures items { OnOk result (tokens.new.items ≡ tokens.old.items ++ sent.old) }
    ensures none { OnOk result (sent.new ≡ []) }
{
    if tokens.capacity() - tokens.len() < sent.len() {
        make_room(tokens, sent.len())?;
    }
    while let Some(token) = sent.next() {
        tokens.push_reserved(token);
    }
    Ok(())
}

// Makes room for so many tokens more.
#[inline(never)]
fn make_room<J: Job>(tokens: &mut Vec<Token<J>>, count: usize) -> Result<(), NoMemory>
    ensures same { tokens.new.items ≡ tokens.old.items }
    ensures room { OnOk result (vec_len tokens.new + count ≤ vec_capacity tokens.new) }
{
    tokens.reserve(count)?;
    Ok(())
}
