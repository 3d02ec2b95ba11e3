//! How many firings a turn of a program is allowed.

ghost use Rattle.std.specs.Prelude.{◌≡◌, ◌≤◌, map};
ghost use Rattle.src_ast.specs.LanguageLimits.{most_locals, most_statement_nodes};
ghost use Rattle.src_ast.specs.View as view;
ghost use Rattle.src_ast.specs.Bound as spec;

use crate::tree::{Ending, Expr, Form, Item, Program, Stmt};

/// How many firings a turn of the program is allowed.
pub fn bound_of(program: &Program) -> u64
    requires narrow { spec.widest (view.parts program.now.items.items) ≤ most_statement_nodes }
    requires few { spec.most_variables (view.parts program.now.items.items) ≤ most_locals }
    ensures { result ≡ spec.bound (view.parts program.now.items.items) }
{
    2 * widest(&program.items) + 16 * (most_variables(&program.items) + 8)
}

// The most expression nodes of a statement in these parts.
fn widest(items: &[Item]) -> u64
    requires { spec.widest (view.parts items.now) ≤ most_statement_nodes }
    ensures { result ≡ spec.widest (view.parts items.now) }
{
    let mut most = 0;
    for item in items {
        if let Item::Proc { body, ending, .. } = item {
            most = most.max(most_nodes(body).max(ending_nodes(ending)));
        }
    }
    most
}

// The most parameters and variables of a procedure.
fn most_variables(items: &[Item]) -> u64
    requires { spec.most_variables (view.parts items.now) ≤ most_locals }
    ensures { result ≡ spec.most_variables (view.parts items.now) }
{
    let mut most = 0;
    for item in items {
        if let Item::Proc { params, vars, .. } = item {
            most = most.max((params.len() + vars.len()) as u64);
        }
    }
    most
}

fn ending_nodes(ending: &Option<Ending>) -> u64
    requires { spec.ending_nodes (view.maybe_last ending.now) ≤ most_statement_nodes }
    ensures { result ≡ spec.ending_nodes (view.maybe_last ending.now) }
{
    match ending {
        None => 0,
        Some(ending) => nodes(&ending.value),
    }
}

// The most expression nodes of one of these statements.
#[cycle(most_nodes)]
fn most_nodes(stmts: &[Stmt]) -> u64
    requires { spec.most_nodes_of (view.statements stmts.now) ≤ most_statement_nodes }
    ensures { result ≡ spec.most_nodes_of (view.statements stmts.now) }
{
    let mut most = 0;
    for stmt in stmts {
        most = most.max(stmt_nodes(stmt));
    }
    most
}

// Those of an `if` or a `while` are its test's, or those of a statement in it.
#[cycle(most_nodes)]
fn stmt_nodes(stmt: &Stmt) -> u64
    requires { spec.most_nodes (view.statement stmt.now) ≤ most_statement_nodes }
    ensures { result ≡ spec.most_nodes (view.statement stmt.now) }
{
    match &stmt.form {
        Form::Read(_) | Form::Give(..) => 0,
        Form::Assign(_, value) | Form::Print(value) | Form::Take(_, _, value) => nodes(value),
        Form::Store(_, index, value) => nodes(index) + nodes(value),
        Form::Call(_, _, args) => all_nodes(args),
        Form::If(test, first, second) => nodes(test).max(most_nodes(first).max(most_nodes(second))),
        Form::While(test, body) => nodes(test).max(most_nodes(body)),
    }
}

fn all_nodes(args: &[Expr]) -> u64
    requires { spec.nodes_of (map view.expression args.now) ≤ most_statement_nodes }
    ensures { result ≡ spec.nodes_of (map view.expression args.now) }
{
    let mut sum = 0;
    for arg in args {
        sum += nodes(arg);
    }
    sum
}

// Each number, variable, array element and operator is a node.
fn nodes(e: &Expr) -> u64
    requires { spec.nodes (view.expression e.now) ≤ most_statement_nodes }
    ensures { result ≡ spec.nodes (view.expression e.now) }
{
    match e {
        Expr::Number(_) | Expr::Var(_) => 1,
        Expr::Cell(_, e) | Expr::Unary(_, e) => 1 + nodes(e),
        Expr::Binary(_, a, b) => 1 + nodes(a) + nodes(b),
    }
}
