//! The tree of a program with numbers for names. In its terms variables are numbered from 0 in
//! their procedure, parameters first, and arrays from 1, in order of declaration.

use cfg_core::Term;
use ws_words::Bytes;

/// A step without a test or a call. `Give` and `Take` have the number of the port.
#[derive(Drop)]
pub enum Action {
    Assign(u32, Term),
    Store(u32, Term, Term),
    Print(Term),
    Read(u32),
    Give(u64, u32),
    Take(u64, Term),
}

/// A step. A call has the variable that takes the result, the number of the procedure, from 0 in
/// order of declaration, and the arguments.
#[derive(Drop)]
pub enum Step {
    Do(Action),
    Call(Option<u32>, u32, Vec<Term>),
    If(Term, Vec<Step>, Vec<Step>),
    While(Term, Vec<Step>),
}

pub type Steps = Vec<Step>;

/// A procedure. `locals` counts the variables that are no parameters.
#[derive(Drop)]
pub struct Proc {
    pub params: u32,
    pub locals: u32,
    pub body: Steps,
    pub result: Option<Term>,
}

pub type Procs = Vec<Proc>;

/// An array: its name, and how many cells it has.
#[derive(Drop)]
pub struct ArrayShape {
    pub name: Bytes,
    pub length: u64,
}

pub type ArrayShapes = Vec<ArrayShape>;

/// A program: its arrays and procedures in order of declaration, `main` last.
#[derive(Drop)]
pub struct Resolved {
    pub arrays: ArrayShapes,
    pub procs: Procs,
}
