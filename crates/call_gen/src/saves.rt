//! Saves before a call, and the loads of what was saved.

ghost use Rattle.std.specs.Prelude.{◌≡◌, ◌+◌, ◌++◌, ◌<◌, ◌^◌, map, length, IfOk, OnOk};
ghost use Rattle.cfg_core.specs.Tables.{graph_in};
ghost use Rattle.cfg_core.specs.View as view;
ghost use Rattle.call_gen.specs.Spelled as spelled;
ghost use Rattle.call_gen.specs.Plans.{PlanIs};

use crate::plan::{CallPlan, push_if};
use cfg_core::{Constant, GraphOp, GraphOps, Leave, Term};
use std::alloc::Global;
use ws_words::NoMemory;

impl<'a> CallPlan<'a> {
    // Whether a call saves the variable.
    fn is_saved(&self, home: u32, vars: u32, target: Option<u32>, back: u32, x: u32) -> bool
        requires plan { PlanIs self.now }
        requires there { home < length (view.graph (graph_in self.now.table)).procs }
        ensures { result ≡ spelled.is_saved (view.graph (graph_in self.now.table)) self.now.live.now
            home vars target back x }
    {
        if x == vars {
            self.is_called(home)
        } else {
            self.live.has(back, x) && !is_target(target, x)
        }
    }

    // The variables that a call saves, the return address last.
    pub(crate) fn saved(
        &self,
        alloc: Global,
        home: u32,
        vars: u32,
        target: Option<u32>,
        back: u32,
    ) -> Result<Vec<u32>, NoMemory>
        requires plan { PlanIs self.now }
        requires there { home < length (view.graph (graph_in self.now.table)).procs }
        requires few { vars + 1 < 2 ^ 32 }
        ensures { IfOk result (λ list. list.items ≡
            spelled.saved (view.graph (graph_in self.now.table)) self.now.live.now home vars target
            back) }
    {
        let mut list = Vec::new(alloc);
        for x in 0..vars + 1 {
            let hit = self.is_saved(home, vars, target, back, x);
            push_if(&mut list, hit, x)?;
        }
        Ok(list)
    }

    fn save(&self, home: u32, x: u32) -> GraphOp
        requires plan { PlanIs self.now }
        requires there { home < length (view.graph (graph_in self.now.table)).procs }
        ensures { view.op result ≡ spelled.save (view.graph (graph_in self.now.table)) home x }
    {
        let cell = self.cell(home, x);
        let index = Term::Number(Constant { value: cell.index });
        GraphOp::Store(cell.array, index, Term::Var(x))
    }

    fn load(&self, alloc: Global, home: u32, x: u32) -> Result<GraphOp, NoMemory>
        requires plan { PlanIs self.now }
        requires there { home < length (view.graph (graph_in self.now.table)).procs }
        ensures { IfOk result (λ op. view.op op ≡ spelled.load (view.graph (graph_in self.now.table))
            home x) }
    {
        let cell = self.cell(home, x);
        let index = Term::Number(Constant { value: cell.index });
        let index = Box::new(alloc, index)?;
        Ok(GraphOp::Assign(x, Term::Cell(cell.array, index)))
    }

    // Puts saves after operations.
    fn add_saves(&self, ops: &mut GraphOps, home: u32, xs: &[u32]) -> Result<(), NoMemory>
        requires plan { PlanIs self.now }
        requires there { home < length (view.graph (graph_in self.now.table)).procs }
        ensures { OnOk result (map view.op ops.new.items ≡ map view.op ops.old.items ++ map
            (spelled.save (view.graph (graph_in self.now.table)) home) xs.now) }
    {
        for x in xs {
            ops.push(self.save(home, *x))?;
        }
        Ok(())
    }

    pub(crate) fn loads(&self, alloc: Global, home: u32, xs: &[u32]) -> Result<GraphOps, NoMemory>
        requires plan { PlanIs self.now }
        requires there { home < length (view.graph (graph_in self.now.table)).procs }
        ensures { IfOk result (λ ops. map view.op ops.items ≡
            map (spelled.load (view.graph (graph_in self.now.table)) home) xs.now) }
    {
        let mut ops = Vec::new(alloc);
        for x in xs {
            ops.push(self.load(alloc, home, *x)?)?;
        }
        Ok(ops)
    }

    pub(crate) fn add_exit_saves(
        &self,
        alloc: Global,
        ops: &mut GraphOps,
        home: u32,
        vars: u32,
        exit: &Leave,
    ) -> Result<(), NoMemory>
        requires plan { PlanIs self.now }
        requires there { home < length (view.graph (graph_in self.now.table)).procs }
        requires few { vars + 1 < 2 ^ 32 }
        ensures { OnOk result (map view.op ops.new.items ≡
            map view.op ops.old.items ++ spelled.saves (view.graph (graph_in self.now.table))
            self.now.live.now home vars (view.exit exit.now)) }
    {
        match exit {
            Leave::Call { result, back, .. } => {
                let xs = self.saved(alloc, home, vars, *result, *back)?;
                self.add_saves(ops, home, &xs)
            }
            _ => Ok(()),
        }
    }
}

fn is_target(target: Option<u32>, x: u32) -> bool
    ensures { result ≡ spelled.is_result target x }
{
    match target {
        Some(y) => x == y,
        None => false,
    }
}
