//! Statements without blocks.

ghost use Rattle.std.specs.Prelude.{◌<◌, ◌≤◌, length, IfOk, MatchOption, Some};
ghost use Rattle.src_ast.specs.View as view;
ghost use Rattle.src_ast.specs.Syntax.{Print, Assign, Call};
ghost use Rattle.src_parse.specs.Gives.{Gives};
ghost use Rattle.src_parse.specs.Fronts.{NoCall, IsCallee};
ghost use Rattle.src_parse.specs.Statements.{ended_at, value_at, call_at, assigned_at, stored_at};
ghost use Rattle.src_parse.specs.Statements.{named_statement, read_at, give_at, take_at};

use crate::expression::expression;
use crate::keyword::is_reserved_word;
use crate::list::arguments;
use crate::stop::Stop;
use crate::token::{after_mark, count, expect, name};
use src_ast::{Expr, Form, Lexeme, Mark, Name, Place, Shape, Stmt};
use std::alloc::Global;
use ws_words::NoMemory;

/// An expression and a semicolon.
#[tactic(auto, unfolding(crate::specs::Statements::ended_at))]
pub fn ended<'a>(alloc: Global, lexemes: &'a [Lexeme]) -> Result<(Expr, &'a [Lexeme]), Stop<'a>>
    ensures read { Gives (λ x. (view.expression x.0, x.1.now)) result (ended_at lexemes.now) }
    ensures shorter { IfOk result (λ x. length x.1.now < length lexemes.now) }
{
    let (value, rest) = expression(alloc, lexemes, 0)?;
    let rest = expect(rest, Mark::Semi)?;
    Ok((value, rest))
}

/// What stands after `print`.
#[tactic(auto, unfolding(crate::specs::Statements::value_at))]
pub fn print<'a>(
    alloc: Global,
    place: Place,
    lexemes: &'a [Lexeme],
) -> Result<(Stmt, &'a [Lexeme]), Stop<'a>>
    ensures read { Gives (λ x. (view.statement x.0, x.1.now)) result
        (value_at (Print place) lexemes.now) }
    ensures shorter { IfOk result (λ x. length x.1.now < length lexemes.now) }
{
    let (value, rest) = ended(alloc, lexemes)?;
    let form = Form::Print(value);
    Ok((Stmt { place, form }, rest))
}

/// What stands after `read`.
#[tactic(auto, unfolding(crate::specs::Statements::read_at))]
pub fn read<'a>(
    alloc: Global,
    place: Place,
    lexemes: &'a [Lexeme],
) -> Result<(Stmt, &'a [Lexeme]), Stop<'a>>
    ensures read { Gives (λ x. (view.statement x.0, x.1.now)) result (read_at place lexemes.now) }
    ensures shorter { IfOk result (λ x. length x.1.now < length lexemes.now) }
{
    let (name, rest) = name(alloc, lexemes)?;
    let rest = expect(rest, Mark::Semi)?;
    let form = Form::Read(name);
    Ok((Stmt { place, form }, rest))
}

/// What stands after `give`.
#[tactic(auto, unfolding(crate::specs::Statements::give_at))]
pub fn give<'a>(
    alloc: Global,
    place: Place,
    lexemes: &'a [Lexeme],
) -> Result<(Stmt, &'a [Lexeme]), Stop<'a>>
    ensures read { Gives (λ x. (view.statement x.0, x.1.now)) result (give_at place lexemes.now) }
    ensures shorter { IfOk result (λ x. length x.1.now < length lexemes.now) }
{
    let ((port, port_place), rest) = count(lexemes)?;
    let rest = expect(rest, Mark::Comma)?;
    let (name, rest) = name(alloc, rest)?;
    let rest = expect(rest, Mark::Semi)?;
    let form = Form::Give(port, port_place, name);
    Ok((Stmt { place, form }, rest))
}

/// What stands after `take`.
#[tactic(auto, unfolding(crate::specs::Statements::take_at, crate::specs::Statements::value_at))]
pub fn take<'a>(
    alloc: Global,
    place: Place,
    lexemes: &'a [Lexeme],
) -> Result<(Stmt, &'a [Lexeme]), Stop<'a>>
    ensures read { Gives (λ x. (view.statement x.0, x.1.now)) result (take_at place lexemes.now) }
    ensures shorter { IfOk result (λ x. length x.1.now < length lexemes.now) }
{
    let ((port, port_place), rest) = count(lexemes)?;
    let rest = expect(rest, Mark::Comma)?;
    let (value, rest) = ended(alloc, rest)?;
    let form = Form::Take(port, port_place, value);
    Ok((Stmt { place, form }, rest))
}

/// A statement after the name that it begins with.
#[tactic(auto, using(crate::proofs::Loops::named_assigns, crate::proofs::Loops::named_stores, crate::proofs::Loops::named_calls, crate::proofs::Loops::named_stops))]
pub fn named_after<'a>(
    alloc: Global,
    name: Name,
    lexemes: &'a [Lexeme],
) -> Result<(Stmt, &'a [Lexeme]), Stop<'a>>
    ensures read { Gives (λ x. (view.statement x.0, x.1.now)) result
        (named_statement name lexemes.now) }
    ensures shorter { IfOk result (λ x. length x.1.now ≤ length lexemes.now) }
{
    if let Some(rest) = after_mark(lexemes, Mark::Assign) {
        return assigned(alloc, name, rest);
    }
    let place = name.place;
    if let Some(rest) = after_mark(lexemes, Mark::LSquare) {
        return stored(alloc, name, rest);
    }
    if let Some(rest) = after_mark(lexemes, Mark::LParen) {
        return call(alloc, place, None, name, rest);
    }
    Err(Stop::Here(lexemes))
}

// What stands after `x[`.
#[tactic(auto, unfolding(crate::specs::Statements::stored_at, crate::specs::Statements::value_at))]
fn stored<'a>(
    alloc: Global,
    name: Name,
    lexemes: &'a [Lexeme],
) -> Result<(Stmt, &'a [Lexeme]), Stop<'a>>
    ensures read { Gives (λ x. (view.statement x.0, x.1.now)) result (stored_at name lexemes.now) }
    ensures shorter { IfOk result (λ x. length x.1.now ≤ length lexemes.now) }
{
    let place = name.place;
    let (index, rest) = expression(alloc, lexemes, 0)?;
    let rest = expect(rest, Mark::RSquare)?;
    let rest = expect(rest, Mark::Assign)?;
    let (value, rest) = ended(alloc, rest)?;
    let form = Form::Store(name, index, value);
    Ok((Stmt { place, form }, rest))
}

// What stands after `x =`.
#[tactic(auto, using(crate::proofs::Loops::assigned_calls, crate::proofs::Loops::assigned_plain), unfolding(crate::specs::Statements::value_at))]
fn assigned<'a>(
    alloc: Global,
    name: Name,
    lexemes: &'a [Lexeme],
) -> Result<(Stmt, &'a [Lexeme]), Stop<'a>>
    ensures read { Gives (λ x. (view.statement x.0, x.1.now)) result
        (assigned_at (Assign name.place name) (Call name.place (Some name)) lexemes.now) }
    ensures shorter { IfOk result (λ x. length x.1.now ≤ length lexemes.now) }
{
    let place = name.place;
    if let Some((callee, rest)) = callee(alloc, lexemes)? {
        return call(alloc, place, Some(name), callee, rest);
    }
    let (value, rest) = ended(alloc, lexemes)?;
    let form = Form::Assign(name, value);
    Ok((Stmt { place, form }, rest))
}

// The name of a call and what stands after its opening parenthesis, if a call begins here.
fn callee(alloc: Global, lexemes: &[Lexeme]) -> Result<Option<(Name, &[Lexeme])>, NoMemory>
    ensures { IfOk result
        (λ o. MatchOption o (NoCall lexemes.now) (λ x. IsCallee lexemes.now x.0 x.1.now)) }
{
    let Some((first, rest)) = lexemes.split_first() else {
        return Ok(None);
    };
    let Shape::Word(word) = &first.shape else {
        return Ok(None);
    };
    if is_reserved_word(word.as_slice()) {
        return Ok(None);
    }
    let Some(tail) = after_mark(rest, Mark::LParen) else {
        return Ok(None);
    };
    let text = word.copy(alloc)?;
    Ok(Some((
        Name {
            text,
            place: first.place,
        },
        tail,
    )))
}

// The arguments of a call and its semicolon.
#[tactic(auto, unfolding(crate::specs::Statements::call_at))]
fn call<'a>(
    alloc: Global,
    place: Place,
    target: Option<Name>,
    callee: Name,
    lexemes: &'a [Lexeme],
) -> Result<(Stmt, &'a [Lexeme]), Stop<'a>>
    ensures read { Gives (λ x. (view.statement x.0, x.1.now)) result
        (call_at (Call place target callee) lexemes.now) }
    ensures shorter { IfOk result (λ x. length x.1.now ≤ length lexemes.now) }
{
    let (all, rest) = arguments(alloc, lexemes)?;
    let rest = expect(rest, Mark::Semi)?;
    let form = Form::Call(target, callee, all);
    Ok((Stmt { place, form }, rest))
}
