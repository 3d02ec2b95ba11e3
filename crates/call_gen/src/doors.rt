//! The entry blocks of procedures.

ghost use Rattle.std.specs.Prelude.{◌≡◌, ◌+◌, ◌++◌, ◌∷◌, [], ◌<◌, if◌then◌else◌, map, length, IfOk, OnOk};
ghost use Rattle.std.specs.List.{filter};
ghost use Rattle.cfg_core.specs.Tables.{graph_in};
ghost use Rattle.cfg_core.specs.Graph as plain;
ghost use Rattle.cfg_core.specs.Graph.{entry_of};
ghost use Rattle.cfg_core.specs.Rules.{IsGraph};
ghost use Rattle.cfg_core.specs.View as view;
ghost use Rattle.call_gen.specs.Spelled as spelled;
ghost use Rattle.call_gen.specs.Plans.{PlanIs};

use crate::plan::CallPlan;
use cfg_core::{Constant, GraphBlock, GraphOp, GraphOps, Leave, Term};
use std::alloc::Global;
use ws_words::NoMemory;

impl<'a> CallPlan<'a> {
    /// The entry block of a procedure.
    pub(crate) fn door_block(
        &self,
        alloc: Global,
        f: u32,
        params: u32,
        vars: u32,
    ) -> Result<GraphBlock, NoMemory>
        requires plan { PlanIs self.now }
        requires rules { IsGraph (view.graph (graph_in self.now.table)) }
        requires there { f < length (view.graph (graph_in self.now.table)).procs }
        ensures { let g = view.graph (graph_in self.now.table) in IfOk result (λ made.
            view.block made ≡ record {
              named = (if spelled.is_called g f then spelled.below
                  params ++ vars ∷ [] else []);
              ops = map spelled.clear
                  (filter (spelled.is_unset g self.now.live.now f params) (spelled.below vars));
              exit =
                  plain.Goto (spelled.moved g (entry_of g f));
            }) }
    {
        let entry = self.table.room(f as usize).entry as u32;
        let named = self.door_names(alloc, f, params, vars)?;
        let ops = self.clears(alloc, f, entry, params, vars)?;
        Ok(GraphBlock {
            named,
            ops,
            exit: Leave::Goto(self.place(entry)),
        })
    }

    fn door_names(
        &self,
        alloc: Global,
        f: u32,
        params: u32,
        vars: u32,
    ) -> Result<Vec<u32>, NoMemory>
        requires plan { PlanIs self.now }
        requires there { f < length (view.graph (graph_in self.now.table)).procs }
        ensures { IfOk result (λ names. names.items ≡
            (if spelled.is_called (view.graph (graph_in self.now.table)) f then spelled.below
            params ++ vars ∷ [] else [])) }
    {
        if !self.is_called(f) {
            return Ok(Vec::new(alloc));
        }
        let mut names = below(alloc, params)?;
        names.push(vars)?;
        Ok(names)
    }

    fn clears(
        &self,
        alloc: Global,
        f: u32,
        entry: u32,
        params: u32,
        vars: u32,
    ) -> Result<GraphOps, NoMemory>
        requires plan { PlanIs self.now }
        requires there { f < length (view.graph (graph_in self.now.table)).procs }
        requires entry { entry ≡ entry_of (view.graph (graph_in self.now.table)) f }
        ensures { IfOk result (λ ops. map view.op ops.items ≡
            map spelled.clear (filter (spelled.is_unset (view.graph (graph_in self.now.table))
            self.now.live.now f params) (spelled.below vars))) }
    {
        let mut ops = Vec::new(alloc);
        for x in 0..vars {
            let hit = self.is_unset(f, entry, params, x);
            clear_if(&mut ops, hit, x)?;
        }
        Ok(ops)
    }

    // Whether the variable is live at the start of a procedure and no call gives it.
    fn is_unset(&self, f: u32, entry: u32, params: u32, x: u32) -> bool
        requires plan { PlanIs self.now }
        requires there { f < length (view.graph (graph_in self.now.table)).procs }
        requires entry { entry ≡ entry_of (view.graph (graph_in self.now.table)) f }
        ensures { result ≡ spelled.is_unset (view.graph (graph_in self.now.table)) self.now.live.now
            f params x }
    {
        self.live.has(entry, x) && (!self.is_called(f) || x >= params)
    }
}

fn clear_if(ops: &mut GraphOps, hit: bool, x: u32) -> Result<(), NoMemory>
    ensures { OnOk result (map view.op ops.new.items ≡
        (if hit then map view.op ops.old.items ++ spelled.clear x ∷ [] else map view.op
        ops.old.items)) }
{
    if hit {
        ops.push(GraphOp::Assign(x, Term::Number(Constant { value: 0 })))?;
    }
    Ok(())
}

fn below(alloc: Global, n: u32) -> Result<Vec<u32>, NoMemory>
    ensures { IfOk result (λ list. list.items ≡ spelled.below n) }
{
    let mut list = Vec::new(alloc);
    for x in 0..n {
        list.push(x)?;
    }
    Ok(list)
}
