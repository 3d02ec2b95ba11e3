//! Statements with blocks, made of their parts.

ghost use Rattle.std.specs.Prelude.{◌≡◌};
ghost use Rattle.src_ast.specs.Syntax.{If, While};
ghost use Rattle.src_ast.specs.View as view;

use crate::lexeme::Place;
use crate::tree::{Expr, Form, Stmt};

/// An `if` with its two arms.
#[tactic(auto, using(crate::specs::View::row_of_items))]
pub fn if_stmt(place: Place, test: Expr, first: Vec<Stmt>, second: Vec<Stmt>) -> Stmt
    ensures { view.statement result
        ≡ If place (view.expression test) (view.statements first.items)
        (view.statements second.items) }
{
    Stmt {
        place,
        form: Form::If(test, first, second),
    }
}

/// A `while` with its body.
#[tactic(auto, using(crate::specs::View::row_of_items))]
pub fn while_stmt(place: Place, test: Expr, body: Vec<Stmt>) -> Stmt
    ensures { view.statement result
        ≡ While place (view.expression test) (view.statements body.items) }
{
    Stmt {
        place,
        form: Form::While(test, body),
    }
}
