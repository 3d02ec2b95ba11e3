//! Programs with numbers for names.

ghost use Rattle.std.specs.Prelude.{◌≡◌, ◌+◌, ◌<◌, ◌^◌, ◌++◌, ℕ, List, length, IfOk, OnOk};
ghost use Rattle.std.specs.List.{AllByRecursion};
ghost use Rattle.src_ast.specs.declared.lexeme.Name.{Name};
ghost use Rattle.src_ast.specs.Syntax.{Procedure};
ghost use Rattle.src_ast.specs.View as ast;
ghost use Rattle.src_ast.specs.Meaning.{Scope, scope_of, arrays_of, lengths_of, procs_of, names_of};
ghost use Rattle.seq_run.specs.Resolving as resolving;
ghost use Rattle.seq_run.specs.InRange.{ProgramIn};
ghost use Rattle.seq_run.specs.Tables.{IsTable, AreNames, FewVars};
ghost use Rattle.seq_run.specs.View as view;
ghost use Rattle.src_ast.specs.Printed.{name_texts};

use crate::names::NameMaps;
use crate::resolving::{steps, term};
use crate::table::NameNumbers;
use crate::tree::{ArrayShape, Proc, Resolved};
use cfg_core::Term;
use src_ast::{Ending, Item, Name, Stmt};
use src_check::Accepted;
use std::alloc::Global;
use ws_words::NoMemory;

fn declare<'a>(table: &mut NameNumbers<'a>, list: &'a [Name]) -> Result<(), NoMemory>
    requires { table.old.next + length list.now < 2 ^ 32 }
    ensures { (first : ℕ) (names : List Name) → IsTable first names table.old →
        OnOk result (IsTable first (names ++ list.now) table.new) }
{
    for name in list {
        table.add(name)?;
    }
    Ok(())
}

// The arrays and procedures of a program; no variables.
fn declared<'a>(alloc: Global, items: &'a [Item]) -> Result<NameMaps<'a>, NoMemory>
    requires { length items.now + 1 < 2 ^ 32 }
    ensures arrays { IfOk result (λ names.
        IsTable 1 (arrays_of (ast.parts items.now)) names.arrays) }
    ensures procs { IfOk result (λ names.
        IsTable 0 (names_of (procs_of (ast.parts items.now))) names.procs) }
{
    let vars = NameNumbers::from(alloc, 0);
    let mut arrays = NameNumbers::from(alloc, 1);
    let mut procs = NameNumbers::from(alloc, 0);
    for item in items {
        match item {
            Item::Array { name, .. } => arrays.add(name)?,
            Item::Proc { name, .. } => procs.add(name)?,
        }
    }
    Ok(NameMaps {
        vars,
        arrays,
        procs,
    })
}

fn shapes(alloc: Global, items: &[Item]) -> Result<Vec<ArrayShape>, NoMemory>
    ensures names { IfOk result (λ list.
        view.names list.items ≡ name_texts (arrays_of (ast.parts items.now))) }
    ensures lengths { IfOk result (λ list.
        view.lengths list.items ≡ lengths_of (ast.parts items.now)) }
{
    let mut list = Vec::new(alloc);
    for item in items {
        match item {
            Item::Array { name, length, .. } => {
                let name = name.text.copy(alloc)?;
                list.push(ArrayShape {
                    name,
                    length: *length,
                })?;
            }
            Item::Proc { .. } => {}
        }
    }
    Ok(list)
}

fn result_of(
    alloc: Global,
    names: &NameMaps,
    ending: &Option<Ending>,
) -> Result<Option<Term>, NoMemory>
    ensures { (scope : Scope) → AreNames scope names.now → IfOk result (λ r.
        view.result r ≡ resolving.result scope (ast.maybe_last ending.now)) }
{
    match ending {
        Some(last) => Ok(Some(term(alloc, names, &last.value)?)),
        None => Ok(None),
    }
}

fn proc<'a>(
    alloc: Global,
    names: &mut NameMaps<'a>,
    params: &'a [Name],
    vars: &'a [Name],
    body: &[Stmt],
    ending: &Option<Ending>,
) -> Result<Proc, NoMemory>
    requires { length params.now + length vars.now < 2 ^ 32 }
    ensures resolves { (arrays procs : List Name) (name : Name) →
        IsTable 1 arrays names.old.arrays → IsTable 0 procs names.old.procs →
        let p : Procedure = record {
          name = name;
          params = params.now;
          vars = vars.now;
          body = ast.statements body.now;
          ending = ast.maybe_last ending.now;
        } in
        IfOk result (λ proc. view.proc proc ≡ resolving.proc (scope_of arrays procs p) p) }
    ensures arrays { names.new.arrays ≡ names.old.arrays }
    ensures procs { names.new.procs ≡ names.old.procs }
{
    let mut table = NameNumbers::from(alloc, 0);
    declare(&mut table, params)?;
    let count = table.next;
    declare(&mut table, vars)?;
    let all = table.next;
    names.vars = table;
    let body = steps(alloc, names, body)?;
    let result = result_of(alloc, names, ending)?;
    Ok(Proc {
        params: count,
        locals: all - count,
        body,
        result,
    })
}

fn procs<'a>(
    alloc: Global,
    names: &mut NameMaps<'a>,
    items: &'a [Item],
) -> Result<Vec<Proc>, NoMemory>
    requires { AllByRecursion FewVars (procs_of (ast.parts items.now)) }
    ensures { (arrays procs : List Name) →
        IsTable 1 arrays names.old.arrays → IsTable 0 procs names.old.procs → IfOk result (λ list.
        view.procs list.items ≡ resolving.procs arrays procs (procs_of (ast.parts items.now))) }
{
    let mut list = Vec::new(alloc);
    for item in items {
        match item {
            Item::Array { .. } => {}
            Item::Proc {
                params,
                vars,
                body,
                ending,
                ..
            } => list.push(proc(alloc, names, params, vars, body, ending)?)?,
        }
    }
    Ok(list)
}

pub(crate) fn numbered(alloc: Global, items: &[Item]) -> Result<Resolved, NoMemory>
    requires few { length items.now + 1 < 2 ^ 32 }
    requires vars { AllByRecursion FewVars (procs_of (ast.parts items.now)) }
    ensures { IfOk result (λ resolved.
        view.program resolved ≡ resolving.program (ast.parts items.now)) }
{
    let arrays = shapes(alloc, items)?;
    let mut names = declared(alloc, items)?;
    let procs = procs(alloc, &mut names, items)?;
    Ok(Resolved { arrays, procs })
}

/// The program with numbers for names. Each number names something, and the language's limits on
/// procedures, parameters, variables, lengths and statements are said of it too.
pub fn resolve(alloc: Global, accepted: &Accepted) -> Result<Resolved, NoMemory>
    ensures resolves { IfOk result (λ resolved.
        view.program resolved ≡ resolving.program (ast.parts accepted.now.program.items.items)) }
    ensures in_range { IfOk result (λ resolved. ProgramIn (view.program resolved)) }
{
    let resolved = numbered(alloc, &accepted.program().items)?;
    Ok(resolved)
}
