//! Statements.

ghost use Rattle.std.specs.Prelude.{◌≡◌, ◌<◌, ◌≤◌, length, IfOk, ◌∷◌};
ghost use Rattle.src_ast.specs.View as view;
ghost use Rattle.src_parse.specs.Gives.{Gives};
ghost use Rattle.src_parse.specs.Statements.{test_at, block_by, else_by, if_by, while_by, statement_by};
ghost use Rattle.src_parse.specs.Statements.{statement_shape, statements_at, starts_at};

use crate::expression::expression;
use crate::keyword::{Keyword, as_keyword};
use crate::simple::{give, named_after, print, read, take};
use crate::stop::Stop;
use crate::token::{after_word, expect};
use src_ast::{Expr, Lexeme, Mark, Name, Place, Shape, Stmt, Stmts, if_stmt, while_stmt};
use std::alloc::Global;

/// A test in parentheses.
#[tactic(auto, unfolding(crate::specs::Statements::test_at))]
fn test<'a>(alloc: Global, lexemes: &'a [Lexeme]) -> Result<(Expr, &'a [Lexeme]), Stop<'a>>
    ensures read { Gives (λ x. (view.expression x.0, x.1.now)) result (test_at lexemes.now) }
    ensures shorter { IfOk result (λ x. length x.1.now < length lexemes.now) }
{
    let rest = expect(lexemes, Mark::LParen)?;
    let (test, rest) = expression(alloc, rest, 0)?;
    let rest = expect(rest, Mark::RParen)?;
    Ok((test, rest))
}

/// Whether a statement begins here.
fn starts_statement(lexemes: &[Lexeme]) -> bool
    ensures { result ≡ starts_at lexemes.now }
{
    match lexemes.split_first() {
        Some((first, _)) => match &first.shape {
            Shape::Word(word) => match as_keyword(word.as_slice()) {
                Some(Keyword::Print | Keyword::Read | Keyword::Give | Keyword::Take) => true,
                Some(Keyword::If | Keyword::While) => true,
                Some(_) => false,
                None => true,
            },
            _ => false,
        },
        None => false,
    }
}

/// The statements up to what begins none.
#[cycle(statements)]
#[tactic(auto, using(crate::proofs::Loops::statements_step, crate::proofs::Loops::statements_end, crate::proofs::Loops::statements_stop))]
pub fn statements<'a>(
    alloc: Global,
    lexemes: &'a [Lexeme],
) -> Result<(Stmts, &'a [Lexeme]), Stop<'a>>
    ensures read { Gives (λ x. (view.statements x.0.items, x.1.now)) result
        (statements_at lexemes.now) }
    ensures shorter { IfOk result (λ x. length x.1.now ≤ length lexemes.now) }
{
    let mut all = Vec::new(alloc);
    let mut rest = lexemes;
    'items: while starts_statement(rest) {
        let (next, following) = statement(alloc, rest)?;
        all.push(next)?;
        rest = following;
    }
    Ok((all, rest))
}

/// Statements in braces.
#[cycle(statements)]
#[tactic(auto, unfolding(crate::specs::Statements::block_by))]
fn block<'a>(alloc: Global, lexemes: &'a [Lexeme]) -> Result<(Stmts, &'a [Lexeme]), Stop<'a>>
    ensures read { Gives (λ x. (view.statements x.0.items, x.1.now)) result
        (block_by statements_at lexemes.now) }
    ensures shorter { IfOk result (λ x. length x.1.now < length lexemes.now) }
{
    let rest = expect(lexemes, Mark::LBrace)?;
    let (body, rest) = statements(alloc, rest)?;
    let rest = expect(rest, Mark::RBrace)?;
    Ok((body, rest))
}

/// The second arm of an `if`: none, where no `else` stands here.
#[cycle(statements)]
#[tactic(auto, using(crate::proofs::Loops::else_goes, crate::proofs::Loops::else_stays))]
fn otherwise<'a>(alloc: Global, lexemes: &'a [Lexeme]) -> Result<(Stmts, &'a [Lexeme]), Stop<'a>>
    ensures read { Gives (λ x. (view.statements x.0.items, x.1.now)) result
        (else_by statements_at lexemes.now) }
    ensures shorter { IfOk result (λ x. length x.1.now ≤ length lexemes.now) }
{
    match after_word(lexemes, Keyword::Else) {
        Some(rest) => block(alloc, rest),
        None => Ok((Vec::new(alloc), lexemes)),
    }
}

/// A statement.
#[cycle(statements)]
#[tactic(auto, unfolding(crate::specs::Statements::statement_by))]
fn statement<'a>(alloc: Global, lexemes: &'a [Lexeme]) -> Result<(Stmt, &'a [Lexeme]), Stop<'a>>
    ensures read { Gives (λ x. (view.statement x.0, x.1.now)) result
        (statement_by statements_at lexemes.now) }
    ensures shorter { IfOk result (λ x. length x.1.now < length lexemes.now) }
{
    match lexemes.split_first() {
        Some((first, rest)) => statement_after(alloc, lexemes, first, rest),
        None => Err(Stop::Here(lexemes)),
    }
}

// A statement that begins with this lexeme.
#[cycle(statements)]
#[tactic(auto, unfolding(crate::specs::Statements::statement_shape, crate::specs::Statements::statement_word))]
fn statement_after<'a>(
    alloc: Global,
    lexemes: &'a [Lexeme],
    first: &Lexeme,
    rest: &'a [Lexeme],
) -> Result<(Stmt, &'a [Lexeme]), Stop<'a>>
    requires { lexemes.now ≡ first.now ∷ rest.now }
    ensures read { Gives (λ x. (view.statement x.0, x.1.now)) result
        (statement_shape statements_at first.now.shape first.now rest.now) }
    ensures shorter { IfOk result (λ x. length x.1.now < length lexemes.now) }
{
    let place = first.place;
    let Shape::Word(word) = &first.shape else {
        return Err(Stop::Here(lexemes));
    };
    match as_keyword(word.as_slice()) {
        Some(Keyword::Print) => print(alloc, place, rest),
        Some(Keyword::Read) => read(alloc, place, rest),
        Some(Keyword::Give) => give(alloc, place, rest),
        Some(Keyword::Take) => take(alloc, place, rest),
        Some(Keyword::If) => if_statement(alloc, place, rest),
        Some(Keyword::While) => while_statement(alloc, place, rest),
        Some(_) => Err(Stop::Here(lexemes)),
        None => {
            let text = word.copy(alloc)?;
            named_after(alloc, Name { text, place }, rest)
        }
    }
}

// What stands after `if`.
#[cycle(statements)]
#[tactic(auto, unfolding(crate::specs::Statements::if_by))]
fn if_statement<'a>(
    alloc: Global,
    place: Place,
    lexemes: &'a [Lexeme],
) -> Result<(Stmt, &'a [Lexeme]), Stop<'a>>
    ensures read { Gives (λ x. (view.statement x.0, x.1.now)) result
        (if_by statements_at place lexemes.now) }
    ensures shorter { IfOk result (λ x. length x.1.now < length lexemes.now) }
{
    let (test, rest) = test(alloc, lexemes)?;
    let (first, rest) = block(alloc, rest)?;
    let (second, rest) = otherwise(alloc, rest)?;
    Ok((if_stmt(place, test, first, second), rest))
}

// What stands after `while`.
#[cycle(statements)]
#[tactic(auto, unfolding(crate::specs::Statements::while_by))]
fn while_statement<'a>(
    alloc: Global,
    place: Place,
    lexemes: &'a [Lexeme],
) -> Result<(Stmt, &'a [Lexeme]), Stop<'a>>
    ensures read { Gives (λ x. (view.statement x.0, x.1.now)) result
        (while_by statements_at place lexemes.now) }
    ensures shorter { IfOk result (λ x. length x.1.now < length lexemes.now) }
{
    let (test, rest) = test(alloc, lexemes)?;
    let (body, rest) = block(alloc, rest)?;
    Ok((while_stmt(place, test, body), rest))
}
