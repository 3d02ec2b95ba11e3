//! Arrays and procedures.

ghost use Rattle.std.specs.Prelude.{◌<◌, ◌≤◌, length, IfOk};
ghost use Rattle.src_ast.specs.View as view;
ghost use Rattle.src_parse.specs.Gives.{Gives};
ghost use Rattle.src_parse.specs.Reading.{before};
ghost use Rattle.src_parse.specs.Programs.{array_at, line_at, vars_at, ending_at, inside_at, proc_at};

use crate::keyword::Keyword;
use crate::list::{names, parameters};
use crate::simple::ended;
use crate::statement::statements;
use crate::stop::Stop;
use crate::token::{after_word, count, expect, is_word, name};
use src_ast::{Ending, Item, Lexeme, Mark, Name, Names};
use std::alloc::Global;

/// What stands after `array`.
#[tactic(auto, unfolding(crate::specs::Programs::array_at))]
pub fn array<'a>(alloc: Global, lexemes: &'a [Lexeme]) -> Result<(Item, &'a [Lexeme]), Stop<'a>>
    ensures read { Gives (λ x. (view.part x.0, x.1.now)) result (array_at lexemes.now) }
    ensures shorter { IfOk result (λ x. length x.1.now < length lexemes.now) }
{
    let (name, rest) = name(alloc, lexemes)?;
    let rest = expect(rest, Mark::LSquare)?;
    let ((length, length_place), rest) = count(rest)?;
    let rest = expect(rest, Mark::RSquare)?;
    let rest = expect(rest, Mark::Semi)?;
    Ok((
        Item::Array {
            name,
            length,
            length_place,
        },
        rest,
    ))
}

// The names after `var`, put after these, and the semicolon.
#[tactic(auto, using(crate::proofs::Loops::line_done, crate::proofs::Loops::line_unnamed, crate::proofs::Loops::line_open))]
fn line<'a>(
    alloc: Global,
    all: Names,
    lexemes: &'a [Lexeme],
) -> Result<(Names, &'a [Lexeme]), Stop<'a>>
    ensures read { Gives (λ x. (x.0.items, x.1.now)) result
        (before all.items (line_at lexemes.now)) }
    ensures shorter { IfOk result (λ x. length x.1.now < length lexemes.now) }
{
    let (all, rest) = names(alloc, all, lexemes)?;
    let rest = expect(rest, Mark::Semi)?;
    Ok((all, rest))
}

// The lines of variables.
#[tactic(auto, using(crate::proofs::Loops::before_nothing, crate::proofs::Loops::vars_step, crate::proofs::Loops::vars_end, crate::proofs::Loops::vars_stop))]
fn variables<'a>(alloc: Global, lexemes: &'a [Lexeme]) -> Result<(Names, &'a [Lexeme]), Stop<'a>>
    ensures read { Gives (λ x. (x.0.items, x.1.now)) result (vars_at lexemes.now) }
    ensures shorter { IfOk result (λ x. length x.1.now ≤ length lexemes.now) }
{
    let mut all = Vec::new(alloc);
    let mut rest = lexemes;
    'lines: while let Some(tail) = after_word(rest, Keyword::Var) {
        let (more, after) = line(alloc, all, tail)?;
        all = more;
        rest = after;
    }
    Ok((all, rest))
}

// The `return` that ends a procedure, where there is one.
#[tactic(auto, unfolding(crate::specs::Programs::ending_at, crate::specs::Statements::value_at))]
fn ending<'a>(
    alloc: Global,
    lexemes: &'a [Lexeme],
) -> Result<(Option<Ending>, &'a [Lexeme]), Stop<'a>>
    ensures read { Gives (λ x. (view.maybe_last x.0, x.1.now)) result (ending_at lexemes.now) }
    ensures shorter { IfOk result (λ x. length x.1.now ≤ length lexemes.now) }
{
    let Some((first, rest)) = lexemes.split_first() else {
        return Ok((None, lexemes));
    };
    if !is_word(first, Keyword::Return) {
        return Ok((None, lexemes));
    }
    let place = first.place;
    let (value, rest) = ended(alloc, rest)?;
    Ok((Some(Ending { place, value }), rest))
}

/// What stands after `proc`.
#[tactic(auto, unfolding(crate::specs::Programs::proc_at))]
pub fn procedure<'a>(alloc: Global, lexemes: &'a [Lexeme]) -> Result<(Item, &'a [Lexeme]), Stop<'a>>
    ensures read { Gives (λ x. (view.part x.0, x.1.now)) result (proc_at lexemes.now) }
    ensures shorter { IfOk result (λ x. length x.1.now < length lexemes.now) }
{
    let (name, rest) = name(alloc, lexemes)?;
    let rest = expect(rest, Mark::LParen)?;
    let (params, rest) = parameters(alloc, rest)?;
    let rest = expect(rest, Mark::LBrace)?;
    inside(alloc, name, params, rest)
}

// What stands between the braces of a procedure, with the closing one.
#[tactic(auto, unfolding(crate::specs::Programs::inside_at))]
fn inside<'a>(
    alloc: Global,
    name: Name,
    params: Names,
    lexemes: &'a [Lexeme],
) -> Result<(Item, &'a [Lexeme]), Stop<'a>>
    ensures read { Gives (λ x. (view.part x.0, x.1.now)) result
        (inside_at name params.items lexemes.now) }
    ensures shorter { IfOk result (λ x. length x.1.now < length lexemes.now) }
{
    let (vars, rest) = variables(alloc, lexemes)?;
    let (body, rest) = statements(alloc, rest)?;
    let (ending, rest) = ending(alloc, rest)?;
    let rest = expect(rest, Mark::RBrace)?;
    Ok((
        Item::Proc {
            name,
            params,
            vars,
            body,
            ending,
        },
        rest,
    ))
}
