//! The rules on names in expressions.

ghost use Rattle.std.specs.Prelude.{List, map};
ghost use Rattle.src_ast.specs.View as view;
ghost use Rattle.src_ast.specs.Rules.{Declared, use_rules, expression_rules, argument_rules};
ghost use Rattle.src_check.specs.Names.{sort_of, seen, StandsFor};
ghost use Rattle.src_check.specs.Keeps.{Keeps};

use crate::names::{KnownNames, Sort};
use crate::stop::require;
use src_ast::{Expr, Name, Refusal, RefusalKind};

/// A name is used as this.
pub fn name_use(names: &KnownNames, name: &Name, wanted: Sort) -> Result<(), Refusal>
    ensures { (visible : List Declared) → StandsFor (seen names.now) visible
        → Keeps (use_rules visible name.now (sort_of wanted)) result }
{
    let place = name.place;
    let Some(sort) = names.find(name.text.as_slice()) else {
        return Err(Refusal {
            kind: RefusalKind::Unknown,
            place,
        });
    };
    require(sort.is_of_kind(wanted), RefusalKind::Kind, place)?;
    require(sort.is_same(wanted), RefusalKind::Count, place)
}

/// An expression.
pub fn expression(names: &KnownNames, expr: &Expr) -> Result<(), Refusal>
    ensures { (visible : List Declared) → StandsFor (seen names.now) visible
        → Keeps (expression_rules visible (view.expression expr.now)) result }
{
    match expr {
        Expr::Number(_) => Ok(()),
        Expr::Var(name) => name_use(names, name, Sort::Variable),
        Expr::Cell(name, index) => {
            name_use(names, name, Sort::Array)?;
            expression(names, index)
        }
        Expr::Unary(_, operand) => expression(names, operand),
        Expr::Binary(_, first, second) => {
            expression(names, first)?;
            expression(names, second)
        }
    }
}

/// The arguments of a call.
pub fn arguments(names: &KnownNames, exprs: &[Expr]) -> Result<(), Refusal>
    ensures { (visible : List Declared) → StandsFor (seen names.now) visible
        → Keeps (argument_rules visible (map view.expression exprs.now)) result }
{
    for expr in exprs {
        expression(names, expr)?;
    }
    Ok(())
}
