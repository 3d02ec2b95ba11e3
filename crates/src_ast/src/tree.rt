//! The tree of a program.

use crate::lexeme::{Name, Place};
use ws_words::Alu;

/// An operator of one operand: `~`, `!` and `-`.
#[derive(Clone, Copy, Debug, PartialEq, Eq)]
pub enum Unary {
    Flip,
    Not,
    Neg,
}

/// An expression. Parentheses leave no trace.
#[derive(Debug, Drop)]
pub enum Expr {
    Number(u64),
    Var(Name),
    Cell(Name, Box<Expr>),
    Unary(Unary, Box<Expr>),
    Binary(Alu, Box<Expr>, Box<Expr>),
}

pub type Exprs = Vec<Expr>;

/// A statement, and the place of its first lexeme.
#[derive(Debug, Drop)]
#[cycle(statements)]
pub struct Stmt {
    pub place: Place,
    pub form: Form,
}

pub type Stmts = Vec<Stmt>;

/// What a statement does. `Give` and `Take` have the number of the port and its place.
#[derive(Debug, Drop)]
#[cycle(statements)]
pub enum Form {
    Assign(Name, Expr),
    Store(Name, Expr, Expr),
    Print(Expr),
    Read(Name),
    Give(u64, Place, Name),
    Take(u64, Place, Expr),
    Call(Option<Name>, Name, Vec<Expr>),
    If(Expr, Vec<Stmt>, Vec<Stmt>),
    While(Expr, Vec<Stmt>),
}

/// The `return` that ends a procedure.
#[derive(Debug, Drop)]
pub struct Ending {
    pub place: Place,
    pub value: Expr,
}

pub type Names = Vec<Name>;

/// An array or a procedure.
#[derive(Debug, Drop)]
pub enum Item {
    Array {
        name: Name,
        length: u64,
        length_place: Place,
    },
    Proc {
        name: Name,
        params: Names,
        vars: Names,
        body: Stmts,
        ending: Option<Ending>,
    },
}

pub type Items = Vec<Item>;

/// A program, and the place of the end of its text.
#[derive(Debug, Drop)]
pub struct Program {
    pub items: Items,
    pub finish: Place,
}
