//! Items of operations.

ghost use Rattle.std.specs.Prelude.{◌≡◌, ◌++◌, map, OnOk};
ghost use Rattle.cfg_core.specs.View as view;
ghost use Rattle.wave_gen.specs.Gen.{gen_op, gen_ops};
ghost use Rattle.wave_gen.specs.View as plans;

use crate::body::Body;
use crate::values::{PULSE, name_of};
use cfg_core::GraphOp;
use std::alloc::Global;
use ws_isa::Op;
use ws_words::NoMemory;

impl Body {
    // Turns leave no code; a choice is one phi.
    fn op(&mut self, alloc: Global, op: &GraphOp) -> Result<(), NoMemory>
        ensures items { let done = gen_op self.old.next (view.op op.now) in
            OnOk result (map plans.item self.new.items.items ≡
            map plans.item self.old.items.items ++ done.items) }
        ensures next { OnOk result (self.new.next ≡
            (gen_op self.old.next (view.op op.now)).next) }
    {
        match op {
            GraphOp::Assign(x, t) => {
                let other = self.term(alloc, t)?;
                self.same(name_of(*x), other)
            }
            GraphOp::Store(a, t, u) => {
                let index = self.term(alloc, t)?;
                let value = self.term(alloc, u)?;
                self.act(alloc, Op::Store(*a), &[index, value])
            }
            GraphOp::Print(t) => {
                let value = self.term(alloc, t)?;
                self.act(alloc, Op::Output, &[value])
            }
            GraphOp::Read(x) => self.make(alloc, name_of(*x), Op::Input, &[PULSE]),
            GraphOp::Give(p, x) => self.make(alloc, name_of(*x), Op::Give(*p), &[PULSE]),
            GraphOp::Take(p, t) => {
                let value = self.term(alloc, t)?;
                self.act(alloc, Op::Take(*p), &[value])
            }
            GraphOp::Choose(x, t, a, b) => {
                let test = self.term(alloc, t)?;
                let some = self.term(alloc, a)?;
                let none = self.term(alloc, b)?;
                self.make(alloc, name_of(*x), Op::Phi, &[some, none, test])
            }
            GraphOp::Tick(_) => Ok(()),
            GraphOp::TickBy(_, _, _) => Ok(()),
        }
    }

    /// The items of operations, after those so far.
    pub(crate) fn ops(&mut self, alloc: Global, ops: &[GraphOp]) -> Result<(), NoMemory>
        ensures items { let done = gen_ops self.old.next (map view.op ops.now) in
            OnOk result (map plans.item self.new.items.items ≡
            map plans.item self.old.items.items ++ done.items) }
        ensures next { OnOk result (self.new.next ≡
            (gen_ops self.old.next (map view.op ops.now)).next) }
    {
        for op in ops {
            self.op(alloc, op)?;
        }
        Ok(())
    }
}
