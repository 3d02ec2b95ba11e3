//! Instructions.

ghost use Rattle.std.specs.Prelude.{◌≡◌, [], ◌∷◌};

use ws_words::{Alu, apply};

/// A destination: an instruction, numbered from 1, and one of its ports, numbered from 0.
#[derive(Clone, Copy, Debug, PartialEq, Eq)]
pub struct Dest {
    pub instr: u32,
    pub port: u8,
}

pub type Dests = Vec<Dest>;

/// A neighbour of a memory operation in its wave: unknown, none, or the one with this sequence
/// number.
#[derive(Clone, Copy, Debug, PartialEq, Eq)]
pub enum Link {
    Unknown,
    Nothing,
    Is(u32),
}

/// The place of a memory operation in the order of its wave.
#[derive(Clone, Copy, Debug, PartialEq, Eq)]
pub struct Note {
    pub pred: Link,
    pub seq: u32,
    pub succ: Link,
    pub ripple: u32,
}

/// An operation of the machine. `Send` has the number of a pad, `Load` and `Store` that of an array
/// from 1 on, `Give` and `Take` that of a port from 1 to 7.
#[derive(Clone, Copy, Debug, PartialEq, Eq)]
pub enum Op {
    Const(u64),
    Alu(Alu),
    Merge,
    Advance,
    Steer,
    Phi,
    Send(u8),
    Load(u32),
    Store(u32),
    Input,
    Output,
    Give(u8),
    Take(u8),
    Nop,
    Halt,
}

impl Op {
    ghost use Rattle.ws_isa.specs.Image.{ports_of, is_memory_op, is_load_op, is_advance_op, result_of_op};

    /// How many ports its instructions have.
    pub fn ports(self) -> u8
        ensures { result ≡ ports_of self }
    {
        match self {
            Op::Alu(_) | Op::Steer | Op::Send(_) | Op::Store(_) => 2,
            Op::Phi => 3,
            _ => 1,
        }
    }

    /// Whether it is one of memory.
    pub fn is_memory(self) -> bool
        ensures { result ≡ is_memory_op self }
    {
        match self {
            Op::Load(_)
            | Op::Store(_)
            | Op::Input
            | Op::Output
            | Op::Give(_)
            | Op::Take(_)
            | Op::Nop
            | Op::Halt => true,
            _ => false,
        }
    }

    /// Whether it is a load.
    pub fn is_load(self) -> bool
        ensures { result ≡ is_load_op self }
    {
        matches!(self, Op::Load(_))
    }

    /// Whether it is an advance.
    pub fn is_advance(self) -> bool
        ensures { result ≡ is_advance_op self }
    {
        matches!(self, Op::Advance)
    }

    /// The result of one that is not of memory on its operands; surplus operands are not read.
    #[inline(always)]
    pub fn result_on(self, first: u64, second: u64, third: u64) -> u64
        ensures { result ≡ result_of_op self (first ∷ second ∷ third ∷ []) }
    {
        match self {
            Op::Const(word) => word,
            Op::Alu(alu) => apply(alu, first, second),
            Op::Phi => { if third == 0 { second } else { first } }
            Op::Send(_) => second,
            _ => first,
        }
    }
}

/// An instruction. Memory instructions of an image have a memory annotation; `others` is the second
/// list of a `Steer`.
#[derive(Drop)]
pub struct Instr {
    pub op: Op,
    pub note: Option<Note>,
    pub dests: Dests,
    pub others: Dests,
}

pub type Instrs = Vec<Instr>;
