//! The rules on names, ports and the number of statements in the body of a procedure.

ghost use Rattle.std.specs.Prelude.{◌≡◌, ◌+◌, List, [], ◌∷◌, map, IfOk};
ghost use Rattle.src_ast.specs.Syntax.{Assign, Store, Print, Read, Give, Take, Call};
ghost use Rattle.src_ast.specs.View as view;
ghost use Rattle.src_ast.specs.Rules.{Declared, statement_rule, port_rule, statement_rules, body_rules};
ghost use Rattle.src_ast.specs.Rules.{ending_rules, size_of, size_of_all, size_of_ending};
ghost use Rattle.src_check.specs.Names.{seen, StandsFor};
ghost use Rattle.src_check.specs.Keeps.{Keeps};

use crate::expressions::{arguments, expression, name_use};
use crate::names::{KnownNames, Sort};
use crate::stop::require;
use src_ast::{
    Ending, Expr, Form, MOST_PORT, MOST_STATEMENTS, Name, Place, Quantity, Refusal, RefusalKind,
    Stmt,
};

/// One more statement, after this many: how many there are with it.
#[tactic(auto, unfolding(crate::specs::Rule::first_broken))]
fn counted(before: u64, place: Place) -> Result<u64, Refusal>
    ensures rules { Keeps (statement_rule before place ∷ []) result }
    ensures count { IfOk result (λ after. after ≡ before + 1) }
{
    require(
        before < MOST_STATEMENTS,
        RefusalKind::Limit(Quantity::Statements),
        place,
    )?;
    Ok(before + 1)
}

/// The number of a port.
#[tactic(auto, unfolding(crate::specs::Rule::first_broken))]
fn port_number(port: u64, place: Place) -> Result<(), Refusal>
    ensures { Keeps (port_rule port place ∷ []) result }
{
    let kept = 1 <= port && port <= MOST_PORT;
    require(kept, RefusalKind::Limit(Quantity::PortNumber), place)
}

/// A statement, after this many: how many there are with those in it.
#[cycle(body)]
pub fn statement(names: &KnownNames, before: u64, stmt: &Stmt) -> Result<u64, Refusal>
    ensures rules { (visible : List Declared) → StandsFor (seen names.now) visible
        → Keeps (statement_rules visible before (view.statement stmt.now)) result }
    ensures count { IfOk result (λ after. after ≡ before + size_of (view.statement stmt.now)) }
{
    let place = stmt.place;
    match &stmt.form {
        Form::Assign(name, value) => assign(names, before, place, name, value),
        Form::Store(array, index, value) => store(names, before, place, array, index, value),
        Form::Print(value) => print(names, before, place, value),
        Form::Read(name) => read(names, before, place, name),
        Form::Give(port, port_place, name) => give(names, before, place, *port, *port_place, name),
        Form::Take(port, port_place, value) => take(
            names,
            before,
            place,
            *port,
            *port_place,
            value,
        ),
        Form::Call(target, procedure, args) => call(names, before, place, target, procedure, args),
        Form::If(test, first, second) => {
            let count = counted(before, place)?;
            expression(names, test)?;
            let count = body(names, count, first)?;
            body(names, count, second)
        }
        Form::While(test, inner) => {
            let count = counted(before, place)?;
            expression(names, test)?;
            body(names, count, inner)
        }
    }
}

/// Statements, after this many: how many there are with them.
#[cycle(body)]
pub fn body(names: &KnownNames, before: u64, stmts: &[Stmt]) -> Result<u64, Refusal>
    ensures rules { (visible : List Declared) → StandsFor (seen names.now) visible
        → Keeps (body_rules visible before (view.statements stmts.now)) result }
    ensures count { IfOk result (λ after. after ≡ before
        + size_of_all (view.statements stmts.now)) }
{
    let mut count = before;
    for stmt in stmts {
        count = statement(names, count, stmt)?;
    }
    Ok(count)
}

/// The `return` that ends a procedure, after this many statements.
pub fn ending(names: &KnownNames, before: u64, last: &Option<Ending>) -> Result<u64, Refusal>
    ensures rules { (visible : List Declared) → StandsFor (seen names.now) visible
        → Keeps (ending_rules visible before (view.maybe_last last.now)) result }
    ensures count { IfOk result (λ after. after ≡ before
        + size_of_ending (view.maybe_last last.now)) }
{
    let Some(last) = last else {
        return Ok(before);
    };
    let count = counted(before, last.place)?;
    expression(names, &last.value)?;
    Ok(count)
}

/// `x = e;`
#[tactic(auto, using(crate::proofs::Chain::chain))]
fn assign(
    names: &KnownNames,
    before: u64,
    place: Place,
    name: &Name,
    value: &Expr,
) -> Result<u64, Refusal>
    ensures rules { (visible : List Declared) → StandsFor (seen names.now) visible
        → Keeps
        (statement_rules visible before (Assign place name.now (view.expression value.now)))
        result }
    ensures count { IfOk result (λ after. after ≡ before + 1) }
{
    name_use(names, name, Sort::Variable)?;
    let count = counted(before, place)?;
    expression(names, value)?;
    Ok(count)
}

/// `a[i] = e;`
#[tactic(auto, using(crate::proofs::Chain::chain))]
fn store(
    names: &KnownNames,
    before: u64,
    place: Place,
    array: &Name,
    index: &Expr,
    value: &Expr,
) -> Result<u64, Refusal>
    ensures rules { (visible : List Declared) → StandsFor (seen names.now) visible
        → Keeps
        (statement_rules visible before
        (Store place array.now (view.expression index.now) (view.expression value.now)))
        result }
    ensures count { IfOk result (λ after. after ≡ before + 1) }
{
    name_use(names, array, Sort::Array)?;
    let count = counted(before, place)?;
    expression(names, index)?;
    expression(names, value)?;
    Ok(count)
}

/// `print e;`
#[tactic(auto, using(crate::proofs::Chain::chain))]
fn print(names: &KnownNames, before: u64, place: Place, value: &Expr) -> Result<u64, Refusal>
    ensures rules { (visible : List Declared) → StandsFor (seen names.now) visible
        → Keeps (statement_rules visible before (Print place (view.expression value.now))) result }
    ensures count { IfOk result (λ after. after ≡ before + 1) }
{
    let count = counted(before, place)?;
    expression(names, value)?;
    Ok(count)
}

/// `read x;`
#[tactic(auto, using(crate::proofs::Chain::chain))]
fn read(names: &KnownNames, before: u64, place: Place, name: &Name) -> Result<u64, Refusal>
    ensures rules { (visible : List Declared) → StandsFor (seen names.now) visible
        → Keeps (statement_rules visible before (Read place name.now)) result }
    ensures count { IfOk result (λ after. after ≡ before + 1) }
{
    let count = counted(before, place)?;
    name_use(names, name, Sort::Variable)?;
    Ok(count)
}

/// `give p, x;`
#[tactic(auto, using(crate::proofs::Chain::chain))]
fn give(
    names: &KnownNames,
    before: u64,
    place: Place,
    port: u64,
    port_place: Place,
    name: &Name,
) -> Result<u64, Refusal>
    ensures rules { (visible : List Declared) → StandsFor (seen names.now) visible
        → Keeps (statement_rules visible before (Give place port port_place name.now)) result }
    ensures count { IfOk result (λ after. after ≡ before + 1) }
{
    let count = counted(before, place)?;
    port_number(port, port_place)?;
    name_use(names, name, Sort::Variable)?;
    Ok(count)
}

/// `take p, e;`
#[tactic(auto, using(crate::proofs::Chain::chain))]
fn take(
    names: &KnownNames,
    before: u64,
    place: Place,
    port: u64,
    port_place: Place,
    value: &Expr,
) -> Result<u64, Refusal>
    ensures rules { (visible : List Declared) → StandsFor (seen names.now) visible
        → Keeps
        (statement_rules visible before
        (Take place port port_place (view.expression value.now)))
        result }
    ensures count { IfOk result (λ after. after ≡ before + 1) }
{
    let count = counted(before, place)?;
    port_number(port, port_place)?;
    expression(names, value)?;
    Ok(count)
}

/// `f(..);` or `x = f(..);`
fn call(
    names: &KnownNames,
    before: u64,
    place: Place,
    target: &Option<Name>,
    procedure: &Name,
    args: &[Expr],
) -> Result<u64, Refusal>
    ensures rules { (visible : List Declared) → StandsFor (seen names.now) visible
        → Keeps
        (statement_rules visible before
        (Call place target.now procedure.now (map view.expression args.now)))
        result }
    ensures count { IfOk result (λ after. after ≡ before + 1) }
{
    let wanted = Sort::Procedure(args.len());
    let Some(target) = target else {
        name_use(names, procedure, wanted)?;
        let count = counted(before, place)?;
        arguments(names, args)?;
        return Ok(count);
    };
    name_use(names, target, Sort::Variable)?;
    let count = counted(before, place)?;
    name_use(names, procedure, wanted)?;
    arguments(names, args)?;
    Ok(count)
}
