//! The state of a walk, and what operations do to it.

ghost use Rattle.std.specs.Prelude.{◌≡◌, map, IfOk, ◌==◌, if◌then◌else◌};
ghost use Rattle.cfg_core.specs.Walk as walks;
ghost use Rattle.cfg_core.specs.Walk.{run_op, run_ops};
ghost use Rattle.cfg_core.specs.View.{op as op_of};
ghost use Rattle.cfg_core.specs.Shows.{Paced, out_flag, value_on};

use crate::blocks::{GraphOp, Term};
use crate::terms::value;
use ws_words::{Memory, NoMemory, Words};

/// A call that waits: where it goes on, on which variables, and which of them takes the result.
#[derive(Drop)]
pub struct Frame {
    pub result: Option<u32>,
    pub back: u32,
    pub vars: Words,
}

/// The state of a walk. The last frame is that of the current call.
#[derive(Drop)]
pub struct Walker<'a> {
    pub vars: Words,
    pub memory: Memory<'a>,
    pub frames: Vec<Frame>,
    pub turns: u64,
}

/// Operations are done, or need more turns than are left.
#[derive(Clone, Copy, PartialEq, Eq)]
pub enum Pace {
    Done,
    Out,
}

impl<'a> Walker<'a> {
    /// Runs operations in order.
    pub fn run_ops(&mut self, ops: &[GraphOp]) -> Result<Pace, NoMemory>
        ensures { let run = run_ops (map op_of ops.now) in
            IfOk result (λ pace. Paced run self.old pace self.new) }
    {
        for op in ops {
            let pace = self.run_op(op)?;
            if pace.is_out() {
                return Ok(Pace::Out);
            }
        }
        Ok(Pace::Done)
    }

    fn run_op(&mut self, op: &GraphOp) -> Result<Pace, NoMemory>
        ensures { IfOk result (λ pace. Paced (run_op (op_of op.now)) self.old pace self.new) }
    {
        match op {
            GraphOp::Assign(x, t) => {
                let word = value(t, &self.vars, &self.memory.cells);
                self.vars.set(*x as usize, word);
                Ok(Pace::Done)
            }
            GraphOp::Store(a, t, u) => {
                let index = value(t, &self.vars, &self.memory.cells);
                let word = value(u, &self.vars, &self.memory.cells);
                self.memory.store(*a, index, word);
                Ok(Pace::Done)
            }
            GraphOp::Print(t) => {
                let word = value(t, &self.vars, &self.memory.cells);
                self.memory.print(word)?;
                Ok(Pace::Done)
            }
            GraphOp::Read(x) => {
                let word = self.memory.read();
                self.vars.set(*x as usize, word);
                Ok(Pace::Done)
            }
            GraphOp::Give(port, x) => {
                let word = self.memory.give(*port as u64);
                self.vars.set(*x as usize, word);
                Ok(Pace::Done)
            }
            GraphOp::Take(port, t) => {
                let word = value(t, &self.vars, &self.memory.cells);
                self.memory.take(*port as u64, word)?;
                Ok(Pace::Done)
            }
            GraphOp::Choose(x, test, a, b) => {
                let word = self.chosen(test, a, b);
                self.vars.set(*x as usize, word);
                Ok(Pace::Done)
            }
            GraphOp::Tick(n) => Ok(self.spend(*n)),
            GraphOp::TickBy(test, n, m) => {
                if value(test, &self.vars, &self.memory.cells) == 0 {
                    Ok(self.spend(*m))
                } else {
                    Ok(self.spend(*n))
                }
            }
        }
    }

    // The value of the first of two terms if the test isn't 0, else of the second.
    fn chosen(&self, test: &Term, a: &Term, b: &Term) -> u64
        ensures { let word = value_on self.now.vars self.now.memory.cells in
            result ≡ (if word test.now == 0 then word b.now else word a.now) }
    {
        if value(test, &self.vars, &self.memory.cells) == 0 {
            value(b, &self.vars, &self.memory.cells)
        } else {
            value(a, &self.vars, &self.memory.cells)
        }
    }

    // Takes turns, if there are enough.
    fn spend(&mut self, n: u64) -> Pace
        ensures { Paced (walks.spend n) self.old result self.new }
    {
        if n <= self.turns {
            self.turns -= n;
            Pace::Done
        } else {
            Pace::Out
        }
    }
}

impl Pace {
    fn is_out(&self) -> bool
        ensures { result ≡ out_flag self.now }
    {
        match self {
            Pace::Done => false,
            Pace::Out => true,
        }
    }
}
