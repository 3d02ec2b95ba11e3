//! Printing a program.

ghost use Rattle.std.specs.Prelude.{◌≡◌, ◌++◌, map, codes, decimal, OnOk, IfOk};
ghost use Rattle.src_ast.specs.View as view;
ghost use Rattle.src_ast.specs.Printed as spec;
ghost use Rattle.src_ast.specs.Commas.{call_line};

use crate::lexeme::Name;
use crate::print_expr::{put_call, put_expr, put_names, put_number};
use crate::tree::{Ending, Expr, Form, Item, Program, Stmt};
use std::alloc::Global;
use ws_words::{Bytes, NoMemory};

/// The printed form of a program: its text in one layout, with parentheses only where they are
/// needed.
pub fn print_program(alloc: Global, program: &Program) -> Result<Bytes, NoMemory>
    ensures { IfOk result (λ text. text ≡ spec.printed_form (view.parts program.now.items.items)) }
{
    let mut out = Bytes::empty(alloc);
    for item in &program.items {
        put_item(&mut out, item)?;
    }
    Ok(out)
}

fn put_item(out: &mut Bytes, item: &Item) -> Result<(), NoMemory>
    ensures { OnOk result (out.new ≡ out.old ++ spec.part_lines (view.part item.now)) }
{
    match item {
        Item::Array { name, length, .. } => put_array(out, name, *length),
        Item::Proc {
            name,
            params,
            vars,
            body,
            ending,
        } => {
            put_head(out, name, params)?;
            put_vars(out, vars)?;
            put_stmts(out, 1, body)?;
            put_ending(out, ending)?;
            out.extend(b"}\n")
        }
    }
}

fn put_array(out: &mut Bytes, name: &Name, length: u64) -> Result<(), NoMemory>
    ensures { OnOk result (out.new
        ≡ out.old
        ++ spec.line 0
        (codes "array " ++ name.now.text ++ codes "[" ++ decimal length ++ codes "];")) }
{
    out.extend(b"array ")?;
    out.extend(name.text.as_slice())?;
    out.extend(b"[")?;
    put_number(out, length)?;
    out.extend(b"];\n")
}

// The first line of a procedure.
fn put_head(out: &mut Bytes, name: &Name, params: &[Name]) -> Result<(), NoMemory>
    ensures { OnOk result (out.new
        ≡ out.old
        ++ spec.line 0
        (codes "proc " ++ name.now.text
        ++ codes "(" ++ spec.separated_text (spec.name_texts params.now) ++ codes ") {")) }
{
    out.extend(b"proc ")?;
    out.extend(name.text.as_slice())?;
    out.extend(b"(")?;
    put_names(out, params)?;
    out.extend(b") {\n")
}

fn put_vars(out: &mut Bytes, vars: &[Name]) -> Result<(), NoMemory>
    ensures { OnOk result (out.new ≡ out.old ++ spec.variable_lines vars.now) }
{
    if vars.is_empty() {
        return Ok(());
    }
    out.extend(b"  var ")?;
    put_names(out, vars)?;
    out.extend(b";\n")
}

fn put_ending(out: &mut Bytes, ending: &Option<Ending>) -> Result<(), NoMemory>
    ensures { OnOk result (out.new ≡ out.old ++ spec.ending_lines (view.maybe_last ending.now)) }
{
    match ending {
        None => Ok(()),
        Some(ending) => {
            out.extend(b"  return ")?;
            put_expr(out, &ending.value)?;
            out.extend(b";\n")
        }
    }
}

// Statements, each line after this many levels.
#[cycle(put_stmts)]
fn put_stmts(out: &mut Bytes, level: u64, stmts: &[Stmt]) -> Result<(), NoMemory>
    ensures { OnOk result (out.new ≡ out.old ++ spec.body_lines level (view.statements stmts.now)) }
{
    for stmt in stmts {
        put_stmt(out, level, stmt)?;
    }
    Ok(())
}

#[cycle(put_stmts)]
fn put_stmt(out: &mut Bytes, level: u64, stmt: &Stmt) -> Result<(), NoMemory>
    ensures { OnOk result
        (out.new ≡ out.old ++ spec.statement_lines level (view.statement stmt.now)) }
{
    put_indent(out, level)?;
    match &stmt.form {
        Form::Assign(x, value) => put_assign(out, x, value),
        Form::Store(array, index, value) => put_store(out, array, index, value),
        Form::Print(value) => put_print(out, value),
        Form::Read(x) => put_read(out, x),
        Form::Give(port, _, x) => put_give(out, *port, x),
        Form::Take(port, _, value) => put_take(out, *port, value),
        Form::Call(target, callee, args) => put_call_line(out, target, callee, args),
        Form::If(test, first, second) => {
            let inner = level.checked_add(1).ok_or(NoMemory)?;
            put_test(out, b"if (", test)?;
            put_stmts(out, inner, first)?;
            put_else(out, level, inner, second)
        }
        Form::While(test, body) => {
            let inner = level.checked_add(1).ok_or(NoMemory)?;
            put_test(out, b"while (", test)?;
            put_stmts(out, inner, body)?;
            put_indent(out, level)?;
            out.extend(b"}\n")
        }
    }
}

// The second arm of an `if`, and the brace that closes the last arm.
#[cycle(put_stmts)]
#[tactic(auto, using(crate::proofs::Lines::else_empty, crate::proofs::Lines::else_full))]
fn put_else(out: &mut Bytes, level: u64, inner: u64, stmts: &[Stmt]) -> Result<(), NoMemory>
    ensures { OnOk result (out.new
        ≡ out.old
        ++ spec.else_lines level (view.statements stmts.now)
        (spec.body_lines inner (view.statements stmts.now))) }
{
    put_indent(out, level)?;
    if stmts.is_empty() {
        return out.extend(b"}\n");
    }
    out.extend(b"} else {\n")?;
    put_stmts(out, inner, stmts)?;
    put_indent(out, level)?;
    out.extend(b"}\n")
}

// So many levels, each of two spaces.
#[tactic(auto, using(crate::proofs::Lines::indent_more))]
fn put_indent(out: &mut Bytes, level: u64) -> Result<(), NoMemory>
    ensures { OnOk result (out.new ≡ out.old ++ spec.indent level) }
{
    for _ in 0..level {
        out.extend(b"  ")?;
    }
    Ok(())
}

fn put_assign(out: &mut Bytes, x: &Name, value: &Expr) -> Result<(), NoMemory>
    ensures { OnOk result (out.new
        ≡ out.old
        ++ (x.now.text ++ codes " = " ++ spec.expression_text (view.expression value.now)
        ++ codes ";") ++ codes "\n") }
{
    out.extend(x.text.as_slice())?;
    out.extend(b" = ")?;
    put_expr(out, value)?;
    out.extend(b";\n")
}

fn put_store(out: &mut Bytes, array: &Name, index: &Expr, value: &Expr) -> Result<(), NoMemory>
    ensures { OnOk result (out.new
        ≡ out.old
        ++ (array.now.text
        ++ codes "[" ++ spec.expression_text (view.expression index.now) ++ codes "] = "
        ++ spec.expression_text (view.expression value.now) ++ codes ";") ++ codes "\n") }
{
    out.extend(array.text.as_slice())?;
    out.extend(b"[")?;
    put_expr(out, index)?;
    out.extend(b"] = ")?;
    put_expr(out, value)?;
    out.extend(b";\n")
}

fn put_print(out: &mut Bytes, value: &Expr) -> Result<(), NoMemory>
    ensures { OnOk result (out.new
        ≡ out.old
        ++ (codes "print " ++ spec.expression_text (view.expression value.now) ++ codes ";")
        ++ codes "\n") }
{
    out.extend(b"print ")?;
    put_expr(out, value)?;
    out.extend(b";\n")
}

fn put_read(out: &mut Bytes, x: &Name) -> Result<(), NoMemory>
    ensures { OnOk result
        (out.new ≡ out.old ++ (codes "read " ++ x.now.text ++ codes ";") ++ codes "\n") }
{
    out.extend(b"read ")?;
    out.extend(x.text.as_slice())?;
    out.extend(b";\n")
}

fn put_give(out: &mut Bytes, port: u64, x: &Name) -> Result<(), NoMemory>
    ensures { OnOk result (out.new
        ≡ out.old ++ (codes "give " ++ decimal port ++ codes ", " ++ x.now.text ++ codes ";")
        ++ codes "\n") }
{
    out.extend(b"give ")?;
    put_number(out, port)?;
    out.extend(b", ")?;
    out.extend(x.text.as_slice())?;
    out.extend(b";\n")
}

fn put_take(out: &mut Bytes, port: u64, value: &Expr) -> Result<(), NoMemory>
    ensures { OnOk result (out.new
        ≡ out.old
        ++ (codes "take " ++ decimal port ++ codes ", "
        ++ spec.expression_text (view.expression value.now) ++ codes ";") ++ codes "\n") }
{
    out.extend(b"take ")?;
    put_number(out, port)?;
    out.extend(b", ")?;
    put_expr(out, value)?;
    out.extend(b";\n")
}

fn put_call_line(
    out: &mut Bytes,
    target: &Option<Name>,
    callee: &Name,
    args: &[Expr],
) -> Result<(), NoMemory>
    ensures { OnOk result (out.new
        ≡ out.old
        ++ call_line target.now (spec.call_text callee.now (map view.expression args.now))) }
{
    if let Some(x) = target {
        out.extend(x.text.as_slice())?;
        out.extend(b" = ")?;
    }
    put_call(out, callee, args)?;
    out.extend(b";\n")
}

// The head of an `if` or a `while`, up to its brace.
fn put_test(out: &mut Bytes, head: &[u8], test: &Expr) -> Result<(), NoMemory>
    ensures { OnOk result (out.new
        ≡ out.old ++ (head.now ++ spec.expression_text (view.expression test.now) ++ codes ") {")
        ++ codes "\n") }
{
    out.extend(head)?;
    put_expr(out, test)?;
    out.extend(b") {\n")
}
