//! Places, names and lexemes.

ghost use Rattle.std.specs.Prelude.{◌≡◌, nat_eq, codes};
ghost use lib.Pointwise.{pointwise};

use ws_words::Bytes;

/// A place in a text: lines and columns count from 1, columns in bytes.
#[derive(Clone, Copy, Debug, PartialEq, Eq)]
pub struct Place {
    pub line: u32,
    pub column: u32,
}

/// A name where it stands.
#[derive(Debug, PartialEq, Eq, Drop)]
pub struct Name {
    pub text: Bytes,
    pub place: Place,
}

impl Name {
    /// Whether it is the name of the procedure that a program begins with.
    pub fn is_main(&self) -> bool
        ensures { result ≡ pointwise nat_eq self.now.text (codes "main") }
    {
        self.text.as_slice() == b"main".as_slice()
    }
}

/// A mark of the language.
#[derive(Clone, Copy, Debug, PartialEq, Eq)]
pub enum Mark {
    LParen,
    RParen,
    LBrace,
    RBrace,
    LSquare,
    RSquare,
    Comma,
    Semi,
    Assign,
    Plus,
    Minus,
    Star,
    Slash,
    Percent,
    Amp,
    Bar,
    Caret,
    Tilde,
    Bang,
    Less,
    More,
    LessEq,
    MoreEq,
    Same,
    Differs,
    ShiftLeft,
    ShiftRight,
}

/// What a lexeme is. A reserved word is a word too.
#[derive(Debug, PartialEq, Eq, Drop)]
pub enum Shape {
    Word(Bytes),
    Number(u64),
    Mark(Mark),
}

/// A lexeme where it stands.
#[derive(Debug, PartialEq, Eq, Drop)]
pub struct Lexeme {
    pub shape: Shape,
    pub place: Place,
}

/// The lexemes of a text in order, and the place of the text's end.
#[derive(Debug, PartialEq, Eq, Drop)]
pub struct Lexemes {
    pub items: Vec<Lexeme>,
    pub finish: Place,
}
