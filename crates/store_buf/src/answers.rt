//! Tokens that a buffer answers with.

ghost use Rattle.std.specs.Prelude.{◌≡◌, ◌∷◌, ◌++◌, [], MatchOption};

use crate::told::PlainTokens;
use df_core::{Job, Token, TokenList};
use smallvec::SmallVec;
use std::alloc::Global;
use std::marker::{Model, PhantomData};

/// The result tokens of what a buffer issued in a call, the first eight of which take no memory. One
/// that is used for many calls keeps its room.
#[derive(Drop)]
pub struct BufferAnswers<J: Job> {
    pub told: PlainTokens,
    of: PhantomData<J>,
}

impl<J: Job> Model for BufferAnswers<J> {
    ghost use Rattle.std.specs.Prelude.{◌≤◌, List, All};
    ghost use Rattle.ws_isa.specs.Image.{Token as Plain};
    ghost use Rattle.df_core.specs.Rights.{IsRight, tokens_of};

    ghost Value = { List Plain };

    ghost view = { λ answers. tokens_of answers.told.items };

    ghost invariant = { λ answers. (8 ≤ answers.told.capacity)
        × All (IsRight J.image J.world) (tokens_of answers.told.items) };
}

impl<J: Job> BufferAnswers<J> {
    /// No tokens.
    pub fn none(alloc: Global) -> BufferAnswers<J>
        ensures { result ≡ [] }
    {
        BufferAnswers {
            told: SmallVec::new(alloc),
            of: PhantomData,
        }
    }

    /// Takes the last token.
    #[inline(always)]
    pub fn pop(&mut self) -> Option<Token<J>>
        ensures { MatchOption result ((self.new ≡ []) × (self.old ≡ []))
            (λ token. self.old ≡ self.new ++ token ∷ []) }
    {
        let (wave, instr, port, value) = self.told.pop()?;
        Some(Token::right(wave, instr, port, value))
    }

    /// The same tokens in a list. Takes no memory.
    pub fn listed(self) -> TokenList<J>
        ensures { result ≡ self }
    {
        TokenList::of_right(self.told)
    }
}
