//! Expressions.

ghost use Rattle.std.specs.Prelude.{◌≡◌, ◌+◌, ◌<◌, ◌≤◌, ◌↔◌, length, IfOk, IfSome, IsNone, Some};
ghost use Rattle.std.specs.Prelude.{None, ◌∷◌};
ghost use Rattle.src_ast.specs.declared.lexeme.Lexeme.{Lexeme};
ghost use Rattle.src_ast.specs.View as view;
ghost use Rattle.src_ast.specs.Syntax.{Signed};
ghost use Rattle.src_parse.specs.Gives.{Gives};
ghost use Rattle.src_parse.specs.Expressions.{operator_of, operator_at, named, operand_at};
ghost use Rattle.src_parse.specs.Expressions.{operand_shape, expression_at};
ghost use Rattle.src_parse.specs.Reading.{Done, ◌|>◌};

use crate::keyword::is_reserved_word;
use crate::stop::Stop;
use crate::token::expect;
use src_ast::{Expr, Lexeme, Mark, Name, Shape, Unary, level};
use std::alloc::Global;
use ws_words::Alu;

fn operator_of_mark(mark: Mark) -> Option<Alu>
    ensures { result ≡ operator_of mark }
{
    match mark {
        Mark::Bar => Some(Alu::Or),
        Mark::Caret => Some(Alu::Xor),
        Mark::Amp => Some(Alu::And),
        Mark::Same => Some(Alu::Eq),
        Mark::Differs => Some(Alu::Ne),
        Mark::Less => Some(Alu::Lt),
        Mark::LessEq => Some(Alu::Le),
        Mark::More => Some(Alu::Gt),
        Mark::MoreEq => Some(Alu::Ge),
        Mark::ShiftLeft => Some(Alu::Shl),
        Mark::ShiftRight => Some(Alu::Shr),
        Mark::Plus => Some(Alu::Add),
        Mark::Minus => Some(Alu::Sub),
        Mark::Star => Some(Alu::Mul),
        Mark::Slash => Some(Alu::Div),
        Mark::Percent => Some(Alu::Rem),
        _ => None,
    }
}

/// The operator that stands first, and what follows it.
fn operator(lexemes: &[Lexeme]) -> Option<(Alu, &[Lexeme])>
    ensures none { IsNone result ↔ (operator_at lexemes.now ≡ None) }
    ensures some { IfSome result (λ x. (operator_at lexemes.now ≡ Some x.0)
        × (length x.1.now + 1 ≡ length lexemes.now)
        × ((l : Lexeme) × (lexemes.now ≡ l ∷ x.1.now))) }
{
    match lexemes {
        [first, rest @ ..] => match first.shape {
            Shape::Mark(m) => Some((operator_of_mark(m)?, rest)),
            _ => None,
        },
        [] => None,
    }
}

/// An expression whose operators are of this level or tighter.
#[cycle(expressions)]
#[tactic(auto, using(crate::proofs::Steady::operators_at_is), unfolding(crate::specs::Expressions::expression_at, crate::specs::Expressions::operators, crate::specs::Expressions::further))]
pub fn expression<'a>(
    alloc: Global,
    lexemes: &'a [Lexeme],
    min: u8,
) -> Result<(Expr, &'a [Lexeme]), Stop<'a>>
    requires { min ≤ 8 }
    ensures read { Gives (λ x. (view.expression x.0, x.1.now)) result
        (expression_at min lexemes.now) }
    ensures shorter { IfOk result (λ x. length x.1.now < length lexemes.now) }
{
    let (mut left, mut rest) = operand(alloc, lexemes)?;
    while let Some((op, following)) = operator(rest) {
        let tightness = level(op);
        if tightness < min {
            break;
        }
        let (right, next) = expression(alloc, following, tightness + 1)?;
        left = Expr::Binary(op, Box::new(alloc, left)?, Box::new(alloc, right)?);
        rest = next;
    }
    Ok((left, rest))
}

/// An operand with the signs in front of it.
#[cycle(expressions)]
#[tactic(auto, using(crate::proofs::Steady::operand_after, crate::proofs::Steady::operand_at_end))]
fn operand<'a>(alloc: Global, lexemes: &'a [Lexeme]) -> Result<(Expr, &'a [Lexeme]), Stop<'a>>
    ensures read { Gives (λ x. (view.expression x.0, x.1.now)) result (operand_at lexemes.now) }
    ensures shorter { IfOk result (λ x. length x.1.now < length lexemes.now) }
{
    match lexemes.split_first() {
        Some((first, rest)) => operand_of(alloc, lexemes, first, rest),
        None => Err(Stop::Here(lexemes)),
    }
}

// An operand that begins with this lexeme.
#[cycle(expressions)]
#[tactic(auto, unfolding(crate::specs::Expressions::operand_shape, crate::specs::Expressions::operand_mark))]
fn operand_of<'a>(
    alloc: Global,
    lexemes: &'a [Lexeme],
    first: &Lexeme,
    rest: &'a [Lexeme],
) -> Result<(Expr, &'a [Lexeme]), Stop<'a>>
    requires { lexemes.now ≡ first.now ∷ rest.now }
    ensures read { Gives (λ x. (view.expression x.0, x.1.now)) result
        (operand_shape operand_at (expression_at 0) first.now.shape first.now rest.now) }
    ensures shorter { IfOk result (λ x. length x.1.now < length lexemes.now) }
{
    match &first.shape {
        Shape::Number(n) => Ok((Expr::Number(*n), rest)),
        Shape::Word(word) => {
            if is_reserved_word(word.as_slice()) {
                return Err(Stop::Here(lexemes));
            }
            let name = Name {
                text: word.copy(alloc)?,
                place: first.place,
            };
            named(alloc, name, rest)
        }
        Shape::Mark(Mark::LParen) => {
            let (whole, rest) = expression(alloc, rest, 0)?;
            let rest = expect(rest, Mark::RParen)?;
            Ok((whole, rest))
        }
        Shape::Mark(Mark::Tilde) => signed(alloc, Unary::Flip, rest),
        Shape::Mark(Mark::Bang) => signed(alloc, Unary::Not, rest),
        Shape::Mark(Mark::Minus) => signed(alloc, Unary::Neg, rest),
        Shape::Mark(_) => Err(Stop::Here(lexemes)),
    }
}

// An operand after a sign.
#[cycle(expressions)]
fn signed<'a>(
    alloc: Global,
    sign: Unary,
    lexemes: &'a [Lexeme],
) -> Result<(Expr, &'a [Lexeme]), Stop<'a>>
    ensures read { Gives (λ x. (view.expression x.0, x.1.now)) result
        (operand_at lexemes.now |> λ e rest. Done (Signed sign e) rest) }
    ensures shorter { IfOk result (λ x. length x.1.now < length lexemes.now) }
{
    let (part, rest) = operand(alloc, lexemes)?;
    Ok((Expr::Unary(sign, Box::new(alloc, part)?), rest))
}

// A cell of an array where an index stands after the name, else the variable.
#[cycle(expressions)]
#[tactic(auto, unfolding(crate::specs::Expressions::named))]
fn named<'a>(
    alloc: Global,
    name: Name,
    lexemes: &'a [Lexeme],
) -> Result<(Expr, &'a [Lexeme]), Stop<'a>>
    ensures read { Gives (λ x. (view.expression x.0, x.1.now)) result
        (named (expression_at 0) name lexemes.now) }
    ensures shorter { IfOk result (λ x. length x.1.now ≤ length lexemes.now) }
{
    match lexemes {
        [first, rest @ ..] if matches!(first.shape, Shape::Mark(Mark::LSquare)) => {
            let (index, rest) = expression(alloc, rest, 0)?;
            let rest = expect(rest, Mark::RSquare)?;
            Ok((Expr::Cell(name, Box::new(alloc, index)?), rest))
        }
        _ => Ok((Expr::Var(name), lexemes)),
    }
}
