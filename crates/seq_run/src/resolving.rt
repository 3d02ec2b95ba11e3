//! The tree with numbers for names.

ghost use Rattle.std.specs.Prelude.{◌≡◌, map, IfOk};
ghost use Rattle.src_ast.specs.declared.lexeme.Name.{Name};
ghost use Rattle.src_ast.specs.View as ast;
ghost use Rattle.src_ast.specs.Meaning.{Scope, target as target_in};
ghost use Rattle.seq_run.specs.Resolving as resolving;
ghost use Rattle.seq_run.specs.Tables.{AreNames};
ghost use Rattle.cfg_core.specs.View as graph;
ghost use Rattle.seq_run.specs.View as view;

use crate::make::{if_step, while_step};
use crate::names::NameMaps;
use crate::tree::{Action, Step};
use cfg_core::{Constant, Term};
use src_ast::{Expr, Form, Name, Stmt, Unary};
use std::alloc::Global;
use ws_words::NoMemory;

fn signed(sign: Unary, t: Box<Term>) -> Term
    ensures { graph.term result ≡ resolving.signed sign (graph.term t.value) }
{
    match sign {
        Unary::Flip => Term::Flip(t),
        Unary::Not => Term::Not(t),
        Unary::Neg => Term::Neg(t),
    }
}

pub(crate) fn term(alloc: Global, names: &NameMaps, e: &Expr) -> Result<Term, NoMemory>
    ensures { (scope : Scope) → AreNames scope names.now → IfOk result (λ t.
        graph.term t ≡ resolving.term scope (ast.expression e.now)) }
{
    match e {
        Expr::Number(n) => Ok(Term::Number(Constant { value: *n })),
        Expr::Var(x) => Ok(Term::Var(names.var(x))),
        Expr::Cell(a, index) => {
            let index = term(alloc, names, index)?;
            Ok(Term::Cell(names.array(a), Box::new(alloc, index)?))
        }
        Expr::Unary(sign, e) => {
            let t = term(alloc, names, e)?;
            Ok(signed(*sign, Box::new(alloc, t)?))
        }
        Expr::Binary(op, a, b) => {
            let a = term(alloc, names, a)?;
            let b = term(alloc, names, b)?;
            Ok(Term::Binary(*op, Box::new(alloc, a)?, Box::new(alloc, b)?))
        }
    }
}

fn terms(alloc: Global, names: &NameMaps, es: &[Expr]) -> Result<Vec<Term>, NoMemory>
    ensures { (scope : Scope) → AreNames scope names.now → IfOk result (λ ts.
        map graph.term ts.items ≡ resolving.terms scope (map ast.expression es.now)) }
{
    let mut list = Vec::new(alloc);
    for e in es {
        list.push(term(alloc, names, e)?)?;
    }
    Ok(list)
}

fn target(names: &NameMaps, x: &Option<Name>) -> Option<u32>
    ensures { (scope : Scope) → AreNames scope names.now → result ≡ target_in scope x.now }
{
    match x {
        Some(x) => Some(names.var(x)),
        None => None,
    }
}

#[cycle(resolving)]
pub(crate) fn steps(alloc: Global, names: &NameMaps, body: &[Stmt]) -> Result<Vec<Step>, NoMemory>
    ensures { (scope : Scope) → AreNames scope names.now → IfOk result (λ list.
        view.steps list.items ≡ resolving.all scope (ast.statements body.now)) }
{
    let mut list = Vec::new(alloc);
    for s in body {
        let one = step(alloc, names, s)?;
        list.push(one)?;
    }
    Ok(list)
}

#[cycle(resolving)]
fn step(alloc: Global, names: &NameMaps, s: &Stmt) -> Result<Step, NoMemory>
    ensures { (scope : Scope) → AreNames scope names.now → IfOk result (λ one.
        view.step one ≡ resolving.one scope (ast.statement s.now)) }
{
    match &s.form {
        Form::Assign(x, e) => {
            let t = term(alloc, names, e)?;
            Ok(Step::Do(Action::Assign(names.var(x), t)))
        }
        Form::Store(a, index, e) => {
            let at = term(alloc, names, index)?;
            let t = term(alloc, names, e)?;
            Ok(Step::Do(Action::Store(names.array(a), at, t)))
        }
        Form::Print(e) => Ok(Step::Do(Action::Print(term(alloc, names, e)?))),
        Form::Read(x) => Ok(Step::Do(Action::Read(names.var(x)))),
        Form::Give(port, _, x) => Ok(Step::Do(Action::Give(*port, names.var(x)))),
        Form::Take(port, _, e) => Ok(Step::Do(Action::Take(*port, term(alloc, names, e)?))),
        Form::Call(x, f, args) => {
            let args = terms(alloc, names, args)?;
            Ok(Step::Call(target(names, x), names.proc(f), args))
        }
        Form::If(test, first, second) => {
            let test = term(alloc, names, test)?;
            let first = steps(alloc, names, first)?;
            let second = steps(alloc, names, second)?;
            Ok(if_step(test, first, second))
        }
        Form::While(test, body) => {
            let test = term(alloc, names, test)?;
            let body = steps(alloc, names, body)?;
            Ok(while_step(test, body))
        }
    }
}
