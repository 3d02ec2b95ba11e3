//! Lists with commas.

ghost use Rattle.std.specs.Prelude.{◌<◌, length, IfOk, map};
ghost use Rattle.src_ast.specs.View as view;
ghost use Rattle.src_parse.specs.Gives.{Gives};
ghost use Rattle.src_parse.specs.Reading.{name_at, before};
ghost use Rattle.src_parse.specs.Expressions.{expression_at};
ghost use Rattle.src_parse.specs.Lists.{separated_at, enclosed_at};

use crate::expression::expression;
use crate::stop::Stop;
use crate::token::{after_mark, expect, name};
use src_ast::{Exprs, Lexeme, Mark, Names};
use std::alloc::Global;

/// Expressions with commas between them, at least one.
#[tactic(auto, using(crate::proofs::Loops::expressions_first, crate::proofs::Loops::expressions_more, crate::proofs::Loops::expressions_end, crate::proofs::Loops::expressions_stop, crate::proofs::Loops::expressions_stop_first))]
fn expressions<'a>(alloc: Global, lexemes: &'a [Lexeme]) -> Result<(Exprs, &'a [Lexeme]), Stop<'a>>
    ensures read { Gives (λ x. (map view.expression x.0.items, x.1.now)) result
        (separated_at (expression_at 0) lexemes.now) }
    ensures shorter { IfOk result (λ x. length x.1.now < length lexemes.now) }
{
    let mut all = Vec::new(alloc);
    let (first, mut rest) = expression(alloc, lexemes, 0)?;
    all.push(first)?;
    'items: while let Some(tail) = after_mark(rest, Mark::Comma) {
        let (next, after) = expression(alloc, tail, 0)?;
        all.push(next)?;
        rest = after;
    }
    Ok((all, rest))
}

/// What stands after the opening parenthesis of a call, with the closing one.
#[tactic(auto, using(crate::proofs::Loops::arguments_none, crate::proofs::Loops::arguments_some))]
pub fn arguments<'a>(
    alloc: Global,
    lexemes: &'a [Lexeme],
) -> Result<(Exprs, &'a [Lexeme]), Stop<'a>>
    ensures read { Gives (λ x. (map view.expression x.0.items, x.1.now)) result
        (enclosed_at (expression_at 0) lexemes.now) }
    ensures shorter { IfOk result (λ x. length x.1.now < length lexemes.now) }
{
    if let Some(rest) = after_mark(lexemes, Mark::RParen) {
        return Ok((Vec::new(alloc), rest));
    }
    let (all, rest) = expressions(alloc, lexemes)?;
    let rest = expect(rest, Mark::RParen)?;
    Ok((all, rest))
}

/// Names with commas between them, at least one, put after these.
#[tactic(auto, using(crate::proofs::Loops::names_first, crate::proofs::Loops::names_more, crate::proofs::Loops::names_end, crate::proofs::Loops::names_stop, crate::proofs::Loops::names_stop_first))]
pub fn names<'a>(
    alloc: Global,
    mut all: Names,
    lexemes: &'a [Lexeme],
) -> Result<(Names, &'a [Lexeme]), Stop<'a>>
    ensures read { Gives (λ x. (x.0.items, x.1.now)) result
        (before all.items (separated_at name_at lexemes.now)) }
    ensures shorter { IfOk result (λ x. length x.1.now < length lexemes.now) }
{
    let (first, mut rest) = name(alloc, lexemes)?;
    all.push(first)?;
    'items: while let Some(tail) = after_mark(rest, Mark::Comma) {
        let (next, after) = name(alloc, tail)?;
        all.push(next)?;
        rest = after;
    }
    Ok((all, rest))
}

/// What stands after the opening parenthesis of a procedure, with the closing one.
#[tactic(auto, using(crate::proofs::Loops::parameters_none, crate::proofs::Loops::parameters_some, crate::proofs::Loops::before_nothing))]
pub fn parameters<'a>(
    alloc: Global,
    lexemes: &'a [Lexeme],
) -> Result<(Names, &'a [Lexeme]), Stop<'a>>
    ensures read { Gives (λ x. (x.0.items, x.1.now)) result (enclosed_at name_at lexemes.now) }
    ensures shorter { IfOk result (λ x. length x.1.now < length lexemes.now) }
{
    if let Some(rest) = after_mark(lexemes, Mark::RParen) {
        return Ok((Vec::new(alloc), rest));
    }
    let (all, rest) = names(alloc, Vec::new(alloc), lexemes)?;
    let rest = expect(rest, Mark::RParen)?;
    Ok((all, rest))
}
