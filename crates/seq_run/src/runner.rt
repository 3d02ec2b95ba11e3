//! Running steps with a number of turns.

ghost use Rattle.std.specs.Prelude.{◌≤◌, length, map, IfOk};
ghost use Rattle.cfg_core.specs.View as graph;
ghost use Rattle.seq_run.specs.Resolved.{Do, Call, If, While, calls_below, run_one, run_all};
ghost use Rattle.seq_run.specs.Shows.{GoesAsPart, FollowsCall};
ghost use Rattle.seq_run.specs.View as view;

use crate::act::{add_zeros, finish, run_action, take_result};
use crate::flow::{Flow, Reply, Run};
use crate::tree::{Proc, Step};
use crate::value::{quick, values};
use cfg_core::Term;
use std::alloc::Global;
use ws_words::{NoMemory, Words};

/// The procedures of a program, in whose runs calls go to earlier ones.
#[derive(Clone, Copy)]
pub struct Runner<'a> {
    pub alloc: Global,
    pub procs: &'a [Proc],
}

impl<'a> Runner<'a> {
    /// Runs steps, where calls go to the first `below` procedures.
    #[cycle(run)]
    #[inline(always)]
    fn run_steps(
        &self,
        below: usize,
        steps: &[Step],
        vars: &mut Words,
        run: &mut Run<'_>,
    ) -> Result<Flow, NoMemory>
        requires { below ≤ length self.now.procs.now }
        ensures follows { IfOk result (λ flow.
            let calls = calls_below below (view.procs self.now.procs.now) in
            GoesAsPart (run_all calls (view.steps steps.now)) run.old vars.old flow run.new vars.new) }
        ensures turns { run.new.turns ≤ run.old.turns }
    {
        for step in steps {
            let flow = self.run_step(below, step, vars, run)?;
            if flow.has_stopped() {
                return Ok(flow);
            }
        }
        Ok(Flow::Ended)
    }

    // The calls stand by themselves, as the proofs have them.
    #[cycle(run)]
    #[inline(always)]
    fn run_step(
        &self,
        below: usize,
        step: &Step,
        vars: &mut Words,
        run: &mut Run<'_>,
    ) -> Result<Flow, NoMemory>
        requires { below ≤ length self.now.procs.now }
        ensures follows { IfOk result (λ flow.
            let calls = calls_below below (view.procs self.now.procs.now) in
            GoesAsPart (run_one calls (view.step step.now)) run.old vars.old flow run.new vars.new) }
        ensures turns { run.new.turns ≤ run.old.turns }
    {
        match step {
            Step::Do(action) => {
                let flow = run_action(run, action, vars)?;
                Ok(flow)
            }
            Step::Call(x, f, args) => {
                let flow = self.run_call_for(below, x, *f, args, vars, run)?;
                Ok(flow)
            }
            Step::If(test, first, second) => {
                let flow = self.run_if(below, test, first, second, vars, run)?;
                Ok(flow)
            }
            Step::While(test, body) => {
                let flow = self.run_loop(below, test, body, vars, run)?;
                Ok(flow)
            }
        }
    }

    // A call whose result a variable takes, if one is named.
    #[cycle(run)]
    #[inline(never)]
    fn run_call_for(
        &self,
        below: usize,
        x: &Option<u32>,
        f: u32,
        args: &[Term],
        vars: &mut Words,
        run: &mut Run<'_>,
    ) -> Result<Flow, NoMemory>
        requires { below ≤ length self.now.procs.now }
        ensures follows { IfOk result (λ flow.
            let calls = calls_below below (view.procs self.now.procs.now) in
            let call = Call x.now f (map graph.term args.now) in
            GoesAsPart (run_one calls call) run.old vars.old flow run.new vars.new) }
        ensures turns { run.new.turns ≤ run.old.turns }
    {
        if run.turns == 0 {
            return Ok(Flow::Out);
        }
        run.turns -= 1;
        let mut past = None;
        let words = values(self.alloc, args, vars, &run.memory, &mut past)?;
        if let Some(array) = past {
            return Ok(Flow::Fault(array));
        }
        let reply = self.run_call(below, f as usize, words, run)?;
        match reply {
            Reply::Value(v) => {
                take_result(vars, x, v);
                Ok(Flow::Ended)
            }
            Reply::Out => Ok(Flow::Out),
            Reply::Fault(array) => Ok(Flow::Fault(array)),
        }
    }

    #[cycle(run)]
    #[inline(never)]
    fn run_if(
        &self,
        below: usize,
        test: &Term,
        first: &[Step],
        second: &[Step],
        vars: &mut Words,
        run: &mut Run<'_>,
    ) -> Result<Flow, NoMemory>
        requires { below ≤ length self.now.procs.now }
        ensures follows { IfOk result (λ flow.
            let calls = calls_below below (view.procs self.now.procs.now) in
            let choice = If (graph.term test.now) (view.steps first.now) (view.steps second.now) in
            GoesAsPart (run_one calls choice) run.old vars.old flow run.new vars.new) }
        ensures turns { run.new.turns ≤ run.old.turns }
    {
        if run.turns == 0 {
            return Ok(Flow::Out);
        }
        run.turns -= 1;
        let mut past = None;
        let word = quick(test, vars, &run.memory, &mut past);
        if let Some(array) = past {
            return Ok(Flow::Fault(array));
        }
        let chosen = if word == 0 { second } else { first };
        let flow = self.run_steps(below, chosen, vars, run)?;
        Ok(flow)
    }

    // Each test takes a turn.
    #[cycle(run)]
    #[inline(never)]
    fn run_loop(
        &self,
        below: usize,
        test: &Term,
        body: &[Step],
        vars: &mut Words,
        run: &mut Run<'_>,
    ) -> Result<Flow, NoMemory>
        requires { below ≤ length self.now.procs.now }
        ensures follows { IfOk result (λ flow.
            let calls = calls_below below (view.procs self.now.procs.now) in
            let repeat = While (graph.term test.now) (view.steps body.now) in
            GoesAsPart (run_one calls repeat) run.old vars.old flow run.new vars.new) }
        ensures turns { run.new.turns ≤ run.old.turns }
    {
        while run.turns > 0 {
            run.turns -= 1;
            let mut past = None;
            let word = quick(test, vars, &run.memory, &mut past);
            if let Some(array) = past {
                return Ok(Flow::Fault(array));
            }
            if word == 0 {
                return Ok(Flow::Ended);
            }
            let flow = self.run_steps(below, body, vars, run)?;
            if flow.has_stopped() {
                return Ok(flow);
            }
        }
        Ok(Flow::Out)
    }

    /// Runs a procedure by number on its arguments, if it is among the first `below`.
    #[cycle(run)]
    pub(crate) fn run_call(
        &self,
        below: usize,
        f: usize,
        args: Words,
        run: &mut Run<'_>,
    ) -> Result<Reply, NoMemory>
        requires { below ≤ length self.now.procs.now }
        ensures follows { IfOk result (λ reply.
            let calls = calls_below below (view.procs self.now.procs.now) in
            FollowsCall (calls f args) run.old reply run.new) }
        ensures turns { run.new.turns ≤ run.old.turns }
    {
        if f >= below {
            return Ok(Reply::Out);
        }
        let callee = &self.procs[f];
        let mut vars = args;
        add_zeros(&mut vars, callee.locals)?;
        let flow = self.run_steps(f, &callee.body, &mut vars, run)?;
        match flow {
            Flow::Ended => Ok(finish(&callee.result, &vars, run)),
            Flow::Out => Ok(Reply::Out),
            Flow::Fault(array) => Ok(Reply::Fault(array)),
        }
    }
}
