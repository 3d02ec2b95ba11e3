//! Marks.

ghost use Rattle.std.specs.Prelude.{◌≡◌, ◌++◌, ℕ, List, IfSome, IfNone};
ghost use Rattle.src_ast.specs.Lexemes as lexemes;
ghost use Rattle.src_ast.specs.declared.lexeme.Mark.{Mark};
ghost use Rattle.src_ast.specs.declared.lexeme.Shape.{Shape};
ghost use Rattle.src_lex.specs.Marks.{mark_of_one, mark_of_two, mark_of_front};
ghost use Rattle.src_lex.specs.Reads.{Reads};

use src_ast::Mark;

/// The mark of one byte.
pub fn mark_of_one(byte: u8) -> Option<Mark>
    ensures { result ≡ mark_of_one byte }
{
    match byte {
        b'(' => Some(Mark::LParen),
        b')' => Some(Mark::RParen),
        b'{' => Some(Mark::LBrace),
        b'}' => Some(Mark::RBrace),
        b'[' => Some(Mark::LSquare),
        b']' => Some(Mark::RSquare),
        b',' => Some(Mark::Comma),
        b';' => Some(Mark::Semi),
        b'=' => Some(Mark::Assign),
        b'+' => Some(Mark::Plus),
        b'-' => Some(Mark::Minus),
        b'*' => Some(Mark::Star),
        b'/' => Some(Mark::Slash),
        b'%' => Some(Mark::Percent),
        b'&' => Some(Mark::Amp),
        b'|' => Some(Mark::Bar),
        b'^' => Some(Mark::Caret),
        b'~' => Some(Mark::Tilde),
        b'!' => Some(Mark::Bang),
        b'<' => Some(Mark::Less),
        b'>' => Some(Mark::More),
        _ => None,
    }
}

/// The mark of two bytes.
pub fn mark_of_two(first: u8, second: u8) -> Option<Mark>
    ensures { result ≡ mark_of_two first second }
{
    match (first, second) {
        (b'<', b'=') => Some(Mark::LessEq),
        (b'>', b'=') => Some(Mark::MoreEq),
        (b'=', b'=') => Some(Mark::Same),
        (b'!', b'=') => Some(Mark::Differs),
        (b'<', b'<') => Some(Mark::ShiftLeft),
        (b'>', b'>') => Some(Mark::ShiftRight),
        _ => None,
    }
}

/// The mark of the first two bytes.
fn mark_of_front(text: &[u8]) -> Option<Mark>
    ensures { result ≡ mark_of_front text.now }
{
    match text {
        [first, second, ..] => mark_of_two(*first, *second),
        _ => None,
    }
}

/// The longest mark that the text begins with, and how many bytes it takes.
#[tactic(auto, using(crate::proofs::Marks::marks))]
pub fn mark(text: &[u8]) -> Option<(Mark, usize)>
    ensures some { IfSome result (λ p. Reads (Shape.Mark p.0) p.1 text.now) }
    ensures none { IfNone result ((m : Mark) (more : List ℕ) → text.now ≡ lexemes.spelling m
        ++ more → ⊥) }
{
    if let Some(mark) = mark_of_front(text) {
        return Some((mark, 2));
    }
    let (first, _) = text.split_first()?;
    let mark = mark_of_one(*first)?;
    Some((mark, 1))
}
