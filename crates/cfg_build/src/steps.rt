//! The blocks of steps.

ghost use Rattle.std.specs.Prelude.{◌≡◌, ◌+◌, ◌<◌, ◌^◌, OnOk};
ghost use Rattle.seq_run.specs.Resolved.{If, While, Nothing, Then};
ghost use Rattle.seq_run.specs.View as source;
ghost use Rattle.cfg_core.specs.View as view;
ghost use Rattle.cfg_build.specs.Lowered.{begun as begun_in};
ghost use Rattle.cfg_build.specs.Building.{number, emit_one, emit, StepFits, StepsFit};
ghost use Rattle.cfg_build.specs.Views.{builder as builder_of};

use crate::builder::Builder;
use crate::operation::operation;
use cfg_core::{Leave, Term, copy_term, copy_terms};
use seq_run::Step;
use std::alloc::Global;
use ws_words::NoMemory;

/// How many blocks begin inside steps.
#[cycle(begun)]
pub(crate) fn begun(steps: &[Step]) -> u32
    requires { begun_in (source.steps steps.now) < 2 ^ 32 }
    ensures { result ≡ begun_in (source.steps steps.now) }
{
    let mut count = 0;
    for step in steps {
        count += begun_by(step);
    }
    count
}

#[cycle(begun)]
fn begun_by(step: &Step) -> u32
    requires { begun_in (Then (source.step step.now) Nothing) < 2 ^ 32 }
    ensures { result ≡ begun_in (Then (source.step step.now) Nothing) }
{
    match step {
        Step::Do(_) => 0,
        Step::Call(_, _, _) => 1,
        Step::If(_, first, second) => 3 + begun(first) + begun(second),
        Step::While(_, body) => 3 + begun(body),
    }
}

/// Adds steps to a builder.
#[cycle(lower)]
pub(crate) fn lower_steps(
    alloc: Global,
    builder: &mut Builder,
    steps: &[Step],
) -> Result<(), NoMemory>
    requires room { number (builder_of builder.old) + begun_in (source.steps steps.now) < 2 ^ 32 }
    requires ports { StepsFit (source.steps steps.now) }
    ensures { let made = emit (source.steps steps.now) (builder_of builder.old) in
        OnOk result (builder_of builder.new ≡ made) }
{
    for step in steps {
        lower_step(alloc, builder, step)?;
    }
    Ok(())
}

#[cycle(lower)]
fn lower_step(alloc: Global, builder: &mut Builder, step: &Step) -> Result<(), NoMemory>
    requires room { let alone = Then (source.step step.now) Nothing in
        number (builder_of builder.old) + begun_in alone < 2 ^ 32 }
    requires ports { StepFits (source.step step.now) }
    ensures { let made = emit_one (source.step step.now) (builder_of builder.old) in
        OnOk result (builder_of builder.new ≡ made) }
{
    match step {
        Step::Do(action) => {
            let op = operation(alloc, action)?;
            builder.tick()?;
            builder.push(op)
        }
        Step::Call(target, callee, args) => {
            let values = copy_terms(alloc, args)?;
            let back = builder.number() + 1;
            builder.tick()?;
            let call = Leave::Call {
                result: *target,
                callee: *callee,
                values,
                back,
            };
            builder.close(alloc, call)
        }
        Step::If(test, first, second) => lower_if(alloc, builder, test, first, second),
        Step::While(test, body) => lower_while(alloc, builder, test, body),
    }
}

// The first arm's blocks come before the second's, and both before the join.
#[cycle(lower)]
fn lower_if(
    alloc: Global,
    builder: &mut Builder,
    test: &Term,
    first: &[Step],
    second: &[Step],
) -> Result<(), NoMemory>
    requires room { let one = source.steps first.now in let other = source.steps second.now in
        let step = If (view.term test.now) one other in
        number (builder_of builder.old) + begun_in (Then step Nothing) < 2 ^ 32 }
    requires first_ports { StepsFit (source.steps first.now) }
    requires second_ports { StepsFit (source.steps second.now) }
    ensures { let one = source.steps first.now in let other = source.steps second.now in
        let step = If (view.term test.now) one other in
        OnOk result (builder_of builder.new ≡ emit_one step (builder_of builder.old)) }
{
    let test = copy_term(alloc, test)?;
    let first_arm = builder.number() + 1;
    let second_arm = first_arm + begun(first) + 1;
    let join = second_arm + begun(second) + 1;
    builder.tick()?;
    builder.close(alloc, Leave::Branch(test, first_arm, second_arm))?;
    lower_steps(alloc, builder, first)?;
    builder.close(alloc, Leave::Goto(join))?;
    lower_steps(alloc, builder, second)?;
    builder.close(alloc, Leave::Goto(join))
}

// The header is a block of its own, with the blocks of the body after it.
#[cycle(lower)]
fn lower_while(
    alloc: Global,
    builder: &mut Builder,
    test: &Term,
    body: &[Step],
) -> Result<(), NoMemory>
    requires room { let step = While (view.term test.now) (source.steps body.now) in
        number (builder_of builder.old) + begun_in (Then step Nothing) < 2 ^ 32 }
    requires ports { StepsFit (source.steps body.now) }
    ensures { let step = While (view.term test.now) (source.steps body.now) in
        OnOk result (builder_of builder.new ≡ emit_one step (builder_of builder.old)) }
{
    let test = copy_term(alloc, test)?;
    let header = builder.number() + 1;
    let inside = header + 1;
    let after = inside + begun(body) + 1;
    builder.close(alloc, Leave::Goto(header))?;
    builder.tick()?;
    builder.close(alloc, Leave::Branch(test, inside, after))?;
    lower_steps(alloc, builder, body)?;
    builder.close(alloc, Leave::Goto(header))
}
