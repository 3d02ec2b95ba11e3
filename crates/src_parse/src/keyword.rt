//! The words of the language.

ghost use Rattle.std.specs.Prelude.{◌≡◌};
ghost use Rattle.src_ast.specs.Grammar.{is_reserved};
ghost use Rattle.src_parse.specs.Keywords.{keyword_of, spelling_of};

/// A word of the language, which is no name.
#[derive(Clone, Copy, Debug, PartialEq, Eq)]
pub enum Keyword {
    Proc,
    Array,
    Var,
    If,
    Else,
    While,
    Print,
    Read,
    Give,
    Take,
    Return,
}

/// How it is spelled.
pub fn spelling(keyword: Keyword) -> &'static [u8]
    ensures { result.now ≡ spelling_of keyword }
{
    match keyword {
        Keyword::Proc => b"proc",
        Keyword::Array => b"array",
        Keyword::Var => b"var",
        Keyword::If => b"if",
        Keyword::Else => b"else",
        Keyword::While => b"while",
        Keyword::Print => b"print",
        Keyword::Read => b"read",
        Keyword::Give => b"give",
        Keyword::Take => b"take",
        Keyword::Return => b"return",
    }
}

/// The word of the language that is spelled so.
pub fn as_keyword(word: &[u8]) -> Option<Keyword>
    ensures { result ≡ keyword_of word.now }
{
    if word == b"proc".as_slice() {
        Some(Keyword::Proc)
    } else if word == b"array".as_slice() {
        Some(Keyword::Array)
    } else if word == b"var".as_slice() {
        Some(Keyword::Var)
    } else if word == b"if".as_slice() {
        Some(Keyword::If)
    } else if word == b"else".as_slice() {
        Some(Keyword::Else)
    } else if word == b"while".as_slice() {
        Some(Keyword::While)
    } else if word == b"print".as_slice() {
        Some(Keyword::Print)
    } else if word == b"read".as_slice() {
        Some(Keyword::Read)
    } else if word == b"give".as_slice() {
        Some(Keyword::Give)
    } else if word == b"take".as_slice() {
        Some(Keyword::Take)
    } else if word == b"return".as_slice() {
        Some(Keyword::Return)
    } else {
        None
    }
}

/// Whether the word is no name.
#[tactic(auto, using(crate::proofs::Keywords::reserved_is))]
pub fn is_reserved_word(word: &[u8]) -> bool
    ensures { result ≡ is_reserved word.now }
{
    as_keyword(word).is_some()
}
