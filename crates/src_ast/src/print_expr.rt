//! Printing expressions, and lists of them.

ghost use Rattle.std.specs.Prelude.{◌≡◌, ◌++◌, map, decimal, OnOk};
ghost use Rattle.src_ast.specs.View as view;
ghost use Rattle.src_ast.specs.Lexemes.{spelling};
ghost use Rattle.src_ast.specs.Grammar.{mark_of, sign_mark};
ghost use Rattle.src_ast.specs.Printed as spec;
ghost use Rattle.src_ast.specs.Commas.{comma_text};

use crate::lexeme::Name;
use crate::operator::level;
use crate::tree::{Expr, Unary};
use itoa::Buffer;
use ws_words::{Alu, Bytes, NoMemory};

pub(crate) fn put_number(out: &mut Bytes, n: u64) -> Result<(), NoMemory>
    ensures { OnOk result (out.new ≡ out.old ++ decimal n) }
{
    let mut buffer = Buffer::new();
    out.extend(buffer.format(n).as_bytes())
}

#[cycle(put_expr)]
pub(crate) fn put_expr(out: &mut Bytes, e: &Expr) -> Result<(), NoMemory>
    ensures { OnOk result (out.new ≡ out.old ++ spec.expression_text (view.expression e.now)) }
{
    match e {
        Expr::Number(n) => put_number(out, *n),
        Expr::Var(x) => out.extend(x.text.as_slice()),
        Expr::Cell(array, index) => {
            out.extend(array.text.as_slice())?;
            out.extend(b"[")?;
            put_expr(out, index)?;
            out.extend(b"]")
        }
        Expr::Unary(sign, operand) => {
            out.extend(sign_text(*sign))?;
            put_round(out, is_binary(operand), operand)
        }
        Expr::Binary(op, left, right) => {
            put_round(out, is_looser(left, level(*op)), left)?;
            out.extend(b" ")?;
            out.extend(op_text(*op))?;
            out.extend(b" ")?;
            put_round(out, is_no_tighter(right, level(*op)), right)
        }
    }
}

// An operand, in parentheses where they are needed.
#[cycle(put_expr)]
fn put_round(out: &mut Bytes, needed: bool, e: &Expr) -> Result<(), NoMemory>
    ensures { OnOk result
        (out.new ≡ out.old ++ spec.round needed (spec.expression_text (view.expression e.now))) }
{
    if !needed {
        return put_expr(out, e);
    }
    out.extend(b"(")?;
    put_expr(out, e)?;
    out.extend(b")")
}

fn is_binary(e: &Expr) -> bool
    ensures { result ≡ spec.is_binary (view.expression e.now) }
{
    matches!(e, Expr::Binary(..))
}

fn is_looser(e: &Expr, than: u8) -> bool
    ensures { result ≡ spec.is_looser (view.expression e.now) than }
{
    match e {
        Expr::Binary(op, ..) => level(*op) < than,
        _ => false,
    }
}

fn is_no_tighter(e: &Expr, than: u8) -> bool
    ensures { result ≡ spec.is_no_tighter (view.expression e.now) than }
{
    match e {
        Expr::Binary(op, ..) => level(*op) <= than,
        _ => false,
    }
}

fn op_text(op: Alu) -> &'static [u8]
    ensures { result.now ≡ spelling (mark_of op) }
{
    match op {
        Alu::Add => b"+",
        Alu::Sub => b"-",
        Alu::Mul => b"*",
        Alu::Div => b"/",
        Alu::Rem => b"%",
        Alu::And => b"&",
        Alu::Or => b"|",
        Alu::Xor => b"^",
        Alu::Shl => b"<<",
        Alu::Shr => b">>",
        Alu::Eq => b"==",
        Alu::Ne => b"!=",
        Alu::Lt => b"<",
        Alu::Le => b"<=",
        Alu::Gt => b">",
        Alu::Ge => b">=",
    }
}

fn sign_text(sign: Unary) -> &'static [u8]
    ensures { result.now ≡ spelling (sign_mark sign) }
{
    match sign {
        Unary::Flip => b"~",
        Unary::Not => b"!",
        Unary::Neg => b"-",
    }
}

pub(crate) fn put_call(out: &mut Bytes, callee: &Name, args: &[Expr]) -> Result<(), NoMemory>
    ensures { OnOk result
        (out.new ≡ out.old ++ spec.call_text callee.now (map view.expression args.now)) }
{
    out.extend(callee.text.as_slice())?;
    out.extend(b"(")?;
    put_args(out, args)?;
    out.extend(b")")
}

// Arguments with commas between them.
fn put_args(out: &mut Bytes, args: &[Expr]) -> Result<(), NoMemory>
    ensures { OnOk result
        (out.new ≡ out.old
        ++ spec.separated_text (spec.argument_texts (map view.expression args.now))) }
{
    match args {
        [] => Ok(()),
        [first, rest @ ..] => {
            put_expr(out, first)?;
            put_more_args(out, rest)
        }
    }
}

// Arguments with a comma before each.
fn put_more_args(out: &mut Bytes, args: &[Expr]) -> Result<(), NoMemory>
    ensures { OnOk result
        (out.new ≡ out.old ++ comma_text (spec.argument_texts (map view.expression args.now))) }
{
    for arg in args {
        out.extend(b", ")?;
        put_expr(out, arg)?;
    }
    Ok(())
}

// Names with commas between them.
pub(crate) fn put_names(out: &mut Bytes, names: &[Name]) -> Result<(), NoMemory>
    ensures { OnOk result (out.new ≡ out.old ++ spec.separated_text (spec.name_texts names.now)) }
{
    match names {
        [] => Ok(()),
        [first, rest @ ..] => {
            out.extend(first.text.as_slice())?;
            put_more_names(out, rest)
        }
    }
}

// Names with a comma before each.
fn put_more_names(out: &mut Bytes, names: &[Name]) -> Result<(), NoMemory>
    ensures { OnOk result (out.new ≡ out.old ++ comma_text (spec.name_texts names.now)) }
{
    for name in names {
        out.extend(b", ")?;
        out.extend(name.text.as_slice())?;
    }
    Ok(())
}
