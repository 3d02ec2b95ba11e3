//! The blocks of a procedure as they are made.

ghost use Rattle.std.specs.Prelude.{◌≡◌, ◌<◌, ◌^◌, [], map, IfOk, OnOk};
ghost use Rattle.seq_run.specs.View as source;
ghost use Rattle.cfg_core.specs.Graph.{Tick};
ghost use Rattle.cfg_core.specs.View as view;
ghost use Rattle.cfg_build.specs.Lowered.{last_part};
ghost use Rattle.cfg_build.specs.Building.{number, closed, with_op, ended};

use cfg_core::{Constant, GraphBlock, GraphBlocks, GraphOp, GraphOps, Leave, Term, copy_term};
use std::alloc::Global;
use std::mem;
use ws_words::NoMemory;

/// The finished blocks, the first of which has the number `first` in the graph, and the operations
/// of the current block.
#[derive(Drop)]
pub struct Builder {
    pub first: u32,
    pub done: GraphBlocks,
    pub ops: GraphOps,
}

impl Builder {
    ghost use Rattle.cfg_build.specs.Views.{builder};

    /// An empty builder, whose first block gets this number.
    pub(crate) fn at(alloc: Global, first: u32) -> Builder
        ensures { builder result ≡ record { first = first; done = []; ops = [] } }
    {
        Builder {
            first,
            done: Vec::new(alloc),
            ops: Vec::new(alloc),
        }
    }

    /// The number of the current block.
    pub(crate) fn number(&self) -> u32
        requires { number (builder self.now) < 2 ^ 32 }
        ensures { result ≡ number (builder self.now) }
    {
        self.first + self.done.len() as u32
    }

    /// Adds an operation to the current block.
    pub(crate) fn push(&mut self, op: GraphOp) -> Result<(), NoMemory>
        ensures { OnOk result (builder self.new ≡ with_op (view.op op) (builder self.old)) }
    {
        self.ops.push(op)?;
        Ok(())
    }

    /// Adds a turn.
    pub(crate) fn tick(&mut self) -> Result<(), NoMemory>
        ensures { OnOk result (builder self.new ≡ with_op (Tick 1) (builder self.old)) }
    {
        self.push(GraphOp::Tick(1))
    }

    /// Finishes the current block.
    pub(crate) fn close(&mut self, alloc: Global, exit: Leave) -> Result<(), NoMemory>
        ensures { OnOk result (builder self.new ≡ closed (view.exit exit) (builder self.old)) }
    {
        let ops = mem::replace(&mut self.ops, Vec::new(alloc));
        let block = GraphBlock {
            named: Vec::new(alloc),
            ops,
            exit,
        };
        self.done.push(block)?;
        Ok(())
    }

    /// The blocks, of which the last one returns this value after its turn, or 0 where there is
    /// none.
    pub(crate) fn finish(
        mut self,
        alloc: Global,
        value: &Option<Term>,
    ) -> Result<GraphBlocks, NoMemory>
        ensures { let made = ended (builder self) (last_part (source.result value.now)) in
            IfOk result (λ blocks. map view.block blocks.items ≡ made) }
    {
        match value {
            None => self.close(alloc, Leave::Return(Term::Number(Constant { value: 0 })))?,
            Some(t) => {
                let value = copy_term(alloc, t)?;
                self.tick()?;
                self.close(alloc, Leave::Return(value))?;
            }
        }
        Ok(self.done)
    }
}
