//! The blocks of the spelled graph.

ghost use Rattle.std.specs.Prelude.{◌≡◌, ◌+◌, ◌++◌, ◌∷◌, [], ◌<◌, ◌^◌, map, length, IfOk};
ghost use Rattle.cfg_core.specs.Tables.{graph_in};
ghost use Rattle.cfg_core.specs.Graph as plain;
ghost use Rattle.cfg_core.specs.Graph.{spots};
ghost use Rattle.cfg_core.specs.Rules.{IsGraph, ExitIn};
ghost use Rattle.cfg_core.specs.View as view;
ghost use Rattle.call_gen.specs.Spelled as spelled;
ghost use Rattle.call_gen.specs.Plans.{PlanIs};

use crate::plan::CallPlan;
use cfg_core::{Constant, GraphBlock, Leave, Term, copy_ops, copy_term, copy_terms};
use std::alloc::Global;
use ws_words::NoMemory;

impl<'a> CallPlan<'a> {
    // The new exit of block b of this procedure.
    fn left(
        &self,
        alloc: Global,
        home: u32,
        vars: u32,
        b: u32,
        exit: &Leave,
    ) -> Result<Leave, NoMemory>
        requires plan { PlanIs self.now }
        requires rules { IsGraph (view.graph (graph_in self.now.table)) }
        requires there { home < length (view.graph (graph_in self.now.table)).procs }
        requires block { b < length (spots (view.graph (graph_in self.now.table))) }
        requires exit_in { ExitIn (view.graph (graph_in self.now.table)) home vars
            (view.exit exit.now) }
        ensures { IfOk result (λ made. view.exit made ≡
            spelled.left (view.graph (graph_in self.now.table)) home vars b (view.exit exit.now)) }
    {
        match exit {
            Leave::Goto(c) => Ok(Leave::Goto(self.place(*c))),
            Leave::Branch(test, c, d) => {
                let test = copy_term(alloc, test)?;
                Ok(Leave::Branch(test, self.place(*c), self.place(*d)))
            }
            Leave::Call { callee, values, .. } => self.sent(alloc, b, *callee, values),
            Leave::Return(t) => self.given_back(alloc, home, vars, t),
            Leave::Send { .. } => Ok(Leave::Stop),
            Leave::Stop => Ok(Leave::Stop),
        }
    }

    // A call: values and the return address to the callee's entry block.
    fn sent(&self, alloc: Global, b: u32, callee: u32, values: &[Term]) -> Result<Leave, NoMemory>
        requires plan { PlanIs self.now }
        requires rules { IsGraph (view.graph (graph_in self.now.table)) }
        requires there { callee < length (view.graph (graph_in self.now.table)).procs }
        requires block { b < length (spots (view.graph (graph_in self.now.table))) }
        ensures { let g = view.graph (graph_in self.now.table) in IfOk result (λ made.
            view.exit made ≡ plain.Send (plain.Number 0) (map view.term values.now ++ plain.Number
            (spelled.address g callee b) ∷ []) (spelled.door g callee ∷ [])) }
    {
        let mut sent = copy_terms(alloc, values)?;
        let address = self.address(b, callee);
        let value = address as u64;
        sent.push(Term::Number(Constant { value }))?;
        let mut landings = Vec::new(alloc);
        landings.push(self.door(callee))?;
        Ok(Leave::Send {
            address: Term::Number(Constant { value: 0 }),
            values: sent,
            landings,
        })
    }

    // A return: the result to the return block at the return address.
    fn given_back(&self, alloc: Global, home: u32, vars: u32, t: &Term) -> Result<Leave, NoMemory>
        requires plan { PlanIs self.now }
        requires there { home < length (view.graph (graph_in self.now.table)).procs }
        ensures { IfOk result (λ made. view.exit made ≡
            spelled.left (view.graph (graph_in self.now.table)) home vars 0
            (plain.Return (view.term t.now))) }
    {
        let t = copy_term(alloc, t)?;
        if self.is_called(home) {
            let landings = self.landings(alloc, home)?;
            let mut values = Vec::new(alloc);
            values.push(t)?;
            Ok(Leave::Send {
                address: Term::Var(vars),
                values,
                landings,
            })
        } else {
            Ok(Leave::Return(t))
        }
    }

    /// The new form of block b of this procedure.
    pub(crate) fn block(
        &self,
        alloc: Global,
        home: u32,
        vars: u32,
        b: u32,
        block: &GraphBlock,
    ) -> Result<GraphBlock, NoMemory>
        requires plan { PlanIs self.now }
        requires rules { IsGraph (view.graph (graph_in self.now.table)) }
        requires there { home < length (view.graph (graph_in self.now.table)).procs }
        requires few { vars + 1 < 2 ^ 32 }
        requires block { b < length (spots (view.graph (graph_in self.now.table))) }
        requires exit_in { ExitIn (view.graph (graph_in self.now.table)) home vars
            (view.block block.now).exit }
        ensures { IfOk result (λ made. view.block made ≡
            spelled.spelled_block (view.graph (graph_in self.now.table)) self.now.live.now home vars
            b (view.block block.now)) }
    {
        let mut ops = copy_ops(alloc, &block.ops)?;
        self.add_exit_saves(alloc, &mut ops, home, vars, &block.exit)?;
        let exit = self.left(alloc, home, vars, b, &block.exit)?;
        Ok(GraphBlock {
            named: Vec::new(alloc),
            ops,
            exit,
        })
    }

    /// The return block of a call with this result.
    pub(crate) fn point(
        &self,
        alloc: Global,
        home: u32,
        vars: u32,
        target: Option<u32>,
        back: u32,
    ) -> Result<GraphBlock, NoMemory>
        requires plan { PlanIs self.now }
        requires there { home < length (view.graph (graph_in self.now.table)).procs }
        requires few { vars + 1 < 2 ^ 32 }
        requires back { back < length (spots (view.graph (graph_in self.now.table))) }
        ensures { IfOk result (λ made. view.block made ≡
            spelled.return_block (view.graph (graph_in self.now.table)) self.now.live.now home vars
            target back) }
    {
        let xs = self.saved(alloc, home, vars, target, back)?;
        let ops = self.loads(alloc, home, &xs)?;
        let mut named = Vec::new(alloc);
        named.push(target.unwrap_or(vars))?;
        Ok(GraphBlock {
            named,
            ops,
            exit: Leave::Goto(self.place(back)),
        })
    }
}
