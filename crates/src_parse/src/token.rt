//! Single lexemes.

ghost use Rattle.std.specs.Prelude.{◌≡◌, ◌+◌, ◌<◌, length, IfOk, IfSome, IfNone, false};
ghost use Rattle.src_parse.specs.Gives.{Gives};
ghost use Rattle.src_parse.specs.Fronts.{has_mark, has_word, IsAfterMark, IsAfterWord};
ghost use Rattle.src_parse.specs.Keywords.{spelling_of};
ghost use Rattle.src_parse.specs.Reading.{expect, is_word, name_at, count_at};

use crate::keyword::{Keyword, is_reserved_word, spelling};
use crate::stop::Stop;
use src_ast::{Lexeme, Mark, Name, Place, Shape};
use std::alloc::Global;

/// What stands after this mark.
#[tactic(auto, unfolding(crate::specs::Reading::expect))]
pub fn expect<'a>(lexemes: &'a [Lexeme], mark: Mark) -> Result<&'a [Lexeme], Stop<'a>>
    ensures read { Gives (λ x. (tt, x.now)) result (expect mark lexemes.now) }
    ensures shorter { IfOk result (λ x. length x.now + 1 ≡ length lexemes.now) }
{
    match lexemes {
        [first, rest @ ..] => match &first.shape {
            Shape::Mark(m) if *m == mark => Ok(rest),
            _ => Err(Stop::Here(lexemes)),
        },
        [] => Err(Stop::Here(lexemes)),
    }
}

/// What follows this mark, if it stands first.
pub fn after_mark<'a>(lexemes: &'a [Lexeme], mark: Mark) -> Option<&'a [Lexeme]>
    ensures some { IfSome result (λ x. IsAfterMark mark lexemes.now x.now) }
    ensures none { IfNone result (has_mark mark lexemes.now ≡ false) }
    ensures shorter { IfSome result (λ x. length x.now + 1 ≡ length lexemes.now) }
{
    match lexemes.split_first() {
        Some((first, rest)) => match &first.shape {
            Shape::Mark(m) if *m == mark => Some(rest),
            _ => None,
        },
        None => None,
    }
}

/// Whether it is this word.
pub fn is_word(lexeme: &Lexeme, word: Keyword) -> bool
    ensures { result ≡ is_word (spelling_of word) lexeme.now.shape }
{
    match &lexeme.shape {
        Shape::Word(text) => text.as_slice() == spelling(word),
        _ => false,
    }
}

/// What follows this word, if it stands first.
pub fn after_word<'a>(lexemes: &'a [Lexeme], word: Keyword) -> Option<&'a [Lexeme]>
    ensures some { IfSome result (λ x. IsAfterWord (spelling_of word) lexemes.now x.now) }
    ensures none { IfNone result (has_word (spelling_of word) lexemes.now ≡ false) }
    ensures shorter { IfSome result (λ x. length x.now + 1 ≡ length lexemes.now) }
{
    match lexemes.split_first() {
        Some((first, rest)) => {
            if is_word(first, word) {
                Some(rest)
            } else {
                None
            }
        }
        None => None,
    }
}

/// A name.
#[tactic(auto, unfolding(crate::specs::Reading::name_at))]
pub fn name<'a>(alloc: Global, lexemes: &'a [Lexeme]) -> Result<(Name, &'a [Lexeme]), Stop<'a>>
    ensures read { Gives (λ x. (x.0, x.1.now)) result (name_at lexemes.now) }
    ensures shorter { IfOk result (λ x. length x.1.now < length lexemes.now) }
{
    match lexemes.split_first() {
        Some((first, rest)) => match &first.shape {
            Shape::Word(word) if !is_reserved_word(word.as_slice()) => {
                let text = word.copy(alloc)?;
                Ok((
                    Name {
                        text,
                        place: first.place,
                    },
                    rest,
                ))
            }
            _ => Err(Stop::Here(lexemes)),
        },
        None => Err(Stop::Here(lexemes)),
    }
}

/// A number and its place.
#[tactic(auto, unfolding(crate::specs::Reading::count_at))]
pub fn count(lexemes: &[Lexeme]) -> Result<((u64, Place), &[Lexeme]), Stop<'_>>
    ensures read { Gives (λ x. (record { number = x.0.0; place = x.0.1 }, x.1.now)) result
        (count_at lexemes.now) }
    ensures shorter { IfOk result (λ x. length x.1.now < length lexemes.now) }
{
    match lexemes.split_first() {
        Some((first, rest)) => match &first.shape {
            Shape::Number(n) => Ok(((*n, first.place), rest)),
            _ => Err(Stop::Here(lexemes)),
        },
        None => Err(Stop::Here(lexemes)),
    }
}
