//! The text of an answer.

ghost use Rattle.std.specs.Prelude.{◌≡◌};
ghost use Rattle.wsc_top.specs.Phrases.{phrase_text};

use std::marker::Model;
use ws_words::Bytes;

/// An answer that is always the same.
#[derive(Clone, Copy, Debug, PartialEq, Eq)]
pub enum Phrase {
    /// The line that says which command lines there are.
    Usage,
    /// Reading failed.
    Unread,
    /// The text has too many bytes.
    Long,
    /// The assembly is sound.
    Sound,
}

impl Phrase {
    /// Its bytes.
    pub fn bytes(self) -> &'static [u8]
        ensures { result.now ≡ phrase_text self }
    {
        match self {
            Phrase::Usage => {
                b"usage: wsc run|plain|format|compile|check|exec|list|trace|replay|gen|bench|multi|decouple\
                |grid [--workers N] [--budget N] [--turns N] [--elements N] [--waves N] [--memory] [--stats] \
                [NUMBER]\n"
            }
            Phrase::Unread => b"fault read\n",
            Phrase::Long => b"refused long\n",
            Phrase::Sound => b"sound\n",
        }
    }
}

/// A text that takes no memory, or one that was made.
#[derive(Drop)]
pub enum Kind {
    Fixed(Phrase),
    Built(Bytes),
}

/// The text of an answer. Contracts see it as its bytes.
#[derive(Drop)]
pub struct Text {
    kind: Kind,
}

impl Model for Text {
    ghost use Rattle.std.specs.Prelude.{ℕ, List};
    ghost use Rattle.wsc_top.specs.Phrases.{text_of};

    ghost Value = { List ℕ };

    ghost view = { λ text. text_of text.kind };
}

impl Text {
    /// A text that takes no memory.
    pub(crate) fn fixed(phrase: Phrase) -> Text
        ensures { result ≡ phrase_text phrase }
    {
        Text {
            kind: Kind::Fixed(phrase),
        }
    }

    /// A text that was made.
    pub(crate) fn built(bytes: Bytes) -> Text
        ensures { result ≡ bytes }
    {
        Text {
            kind: Kind::Built(bytes),
        }
    }

    /// Its bytes.
    pub fn as_slice(&self) -> &[u8]
        ensures { result.now ≡ self.now }
    {
        match &self.kind {
            Kind::Fixed(phrase) => phrase.bytes(),
            Kind::Built(bytes) => bytes.as_slice(),
        }
    }
}
