//! The control graph.

ghost use Rattle.std.specs.Prelude.{◌<◌, ◌^◌};

use ws_words::{Alu, Bytes};

/// A number of a term. Its type says that it is a word.
#[derive(Clone, Copy)]
pub struct Constant {
    pub value: u64,
    pub ghost word: { value < 2 ^ 64 },
}

/// A term over the variables of a procedure and the cells of arrays. `Cell` has the number of the
/// array and the index.
#[derive(Drop)]
pub enum Term {
    Number(Constant),
    Var(u32),
    Cell(u32, Box<Term>),
    Flip(Box<Term>),
    Not(Box<Term>),
    Neg(Box<Term>),
    Binary(Alu, Box<Term>, Box<Term>),
}

pub type Terms = Vec<Term>;

/// Numbers of variables, blocks or arrays.
pub type Numbers = Vec<u32>;

/// An operation inside a block. `Store` has an array, an index and a value, `Give` and `Take` a
/// port from 1 to 7, `Choose` a variable, a test and the two terms that it chooses between; `Tick`
/// takes turns, `TickBy` the first number of turns if its test isn't 0, else the second.
#[derive(Drop)]
pub enum GraphOp {
    Assign(u32, Term),
    Store(u32, Term, Term),
    Print(Term),
    Read(u32),
    Give(u8, u32),
    Take(u8, Term),
    Choose(u32, Term, Term, Term),
    Tick(u64),
    TickBy(Term, u64, u64),
}

pub type GraphOps = Vec<GraphOp>;

/// The exit of a block. `Branch` goes to the first block if its term isn't 0, else to the second;
/// `Call` goes on at the block `back`; `Send` enters the landing whose place in the list, counted
/// from 0, is the address, or the last one if there is none.
#[derive(Drop)]
pub enum Leave {
    Goto(u32),
    Branch(Term, u32, u32),
    Call {
        result: Option<u32>,
        callee: u32,
        values: Terms,
        back: u32,
    },
    Return(Term),
    Send {
        address: Term,
        values: Terms,
        landings: Numbers,
    },
    Stop,
}

/// A block. `named` lists the variables that a `Send` into this block fills.
#[derive(Drop)]
pub struct GraphBlock {
    pub named: Numbers,
    pub ops: GraphOps,
    pub exit: Leave,
}

pub type GraphBlocks = Vec<GraphBlock>;

/// A procedure. `vars` counts its variables, which are numbered from 0, the `params` parameters
/// first. Its first block is its entry.
#[derive(Drop)]
pub struct GraphProc {
    pub params: u32,
    pub vars: u32,
    pub blocks: GraphBlocks,
}

pub type GraphProcs = Vec<GraphProc>;

/// An array. One without a name is hidden.
#[derive(Drop)]
pub struct GraphArray {
    pub name: Option<Bytes>,
    pub length: u32,
}

pub type GraphArrays = Vec<GraphArray>;

/// A control graph. Arrays are numbered from 1, procedures from 0, the last of which is `main`,
/// and blocks from 0 through the whole graph, procedure after procedure.
#[derive(Drop)]
pub struct Graph {
    pub arrays: GraphArrays,
    pub procs: GraphProcs,
}
