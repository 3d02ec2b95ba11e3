//! What a step or a procedure's end does by itself: actions, results, and the variables that are 0 at first.

ghost use Rattle.std.specs.Prelude.{◌≡◌, ◌≤◌, ◌++◌, IfOk, OnOk};
ghost use Rattle.ws_words.specs.Outside.{Outside, ProcState, zeros};
ghost use Rattle.src_ast.specs.Turns.{with_result};
ghost use Rattle.src_ast.specs.Meaning.{Calls};
ghost use Rattle.seq_run.specs.Resolved.{Do, run_one, finish as finished};
ghost use Rattle.seq_run.specs.Shows.{GoesAsPart, Holds, IsDone, ReplyIs};
ghost use Rattle.seq_run.specs.View as view;

use crate::flow::{Flow, Reply, Run};
use crate::tree::Action;
use crate::value::{note, quick, value};
use cfg_core::Term;
use ws_words::{Memory, NoMemory, Words};

// The variable that a call names takes its result.
pub(crate) fn take_result(vars: &mut Words, target: &Option<u32>, v: u64)
    ensures { vars.new ≡ with_result target.now v vars.old }
{
    match target {
        Some(x) => vars.set(*x as usize, v),
        None => {}
    }
}

pub(crate) fn add_zeros(vars: &mut Words, count: u32) -> Result<(), NoMemory>
    ensures { OnOk result (vars.new ≡ vars.old ++ zeros count) }
{
    for _ in 0..count {
        vars.push(0)?;
    }
    Ok(())
}

// Does an action, all but its turn; where one of its acts is out of bounds, nothing, and gives the array.
#[inline(always)]
fn act(memory: &mut Memory<'_>, action: &Action, vars: &mut Words) -> Result<Option<u32>, NoMemory>
    ensures { IfOk result (λ past.
        (start : Outside) (s : ProcState) → Holds start s memory.old vars.old →
        IsDone start (view.action action.now) s past memory.new vars.new) }
{
    let mut past = None;
    match action {
        Action::Assign(x, t) => {
            let v = quick(t, vars, memory, &mut past);
            if past.is_some() {
                return Ok(past);
            }
            vars.set(*x as usize, v);
        }
        Action::Store(a, t, u) => {
            let i = value(t, vars, memory, &mut past);
            let v = value(u, vars, memory, &mut past);
            note(&mut past, memory, *a, i);
            if past.is_some() {
                return Ok(past);
            }
            memory.store(*a, i, v);
        }
        Action::Print(t) => {
            let v = value(t, vars, memory, &mut past);
            if past.is_some() {
                return Ok(past);
            }
            memory.print(v)?;
        }
        Action::Read(x) => {
            let word = memory.read();
            vars.set(*x as usize, word);
        }
        Action::Give(port, x) => {
            let word = memory.give(*port);
            vars.set(*x as usize, word);
        }
        Action::Take(port, t) => {
            let v = value(t, vars, memory, &mut past);
            if past.is_some() {
                return Ok(past);
            }
            memory.take(*port, v)?;
        }
    }
    Ok(past)
}

#[inline(always)]
pub(crate) fn run_action(
    run: &mut Run<'_>,
    action: &Action,
    vars: &mut Words,
) -> Result<Flow, NoMemory>
    ensures follows { IfOk result (λ flow. (calls : Calls) →
        let part = run_one calls (Do (view.action action.now)) in
        GoesAsPart part run.old vars.old flow run.new vars.new) }
    ensures turns { run.new.turns ≤ run.old.turns }
{
    if run.turns == 0 {
        return Ok(Flow::Out);
    }
    run.turns -= 1;
    match act(&mut run.memory, action, vars)? {
        Some(array) => Ok(Flow::Fault(array)),
        None => Ok(Flow::Ended),
    }
}

// The result of a procedure, for which `return` takes a turn.
pub(crate) fn finish(ending: &Option<Term>, vars: &Words, run: &mut Run<'_>) -> Reply
    ensures follows { (start : Outside) (s : ProcState) → Holds start s run.old.memory vars.now →
        let call = finished (view.result ending.now) s in
        ReplyIs start call run.old.turns result run.new.memory run.new.turns }
    ensures turns { run.new.turns ≤ run.old.turns }
{
    match ending {
        None => Reply::Value(0),
        Some(t) => {
            if run.turns == 0 {
                return Reply::Out;
            }
            run.turns -= 1;
            let mut past = None;
            let word = value(t, vars, &run.memory, &mut past);
            match past {
                Some(array) => Reply::Fault(array),
                None => Reply::Value(word),
            }
        }
    }
}
