//! The copies of arms, and the turns that they take.

ghost use Rattle.std.specs.Prelude.{◌≡◌, ◌+◌, ◌++◌, ◌∷◌, [], map, IfOk, OnOk};
ghost use Rattle.cfg_core.specs.View as view;
ghost use Rattle.phi_conv.specs.Joined as joined;

use crate::written::{add_written, is_among};
use cfg_core::{GraphOp, GraphOps, Term};
use std::alloc::Global;
use ws_words::NoMemory;

// The variable that stands for x in an arm that has written these so far.
pub(crate) fn copied(base: u32, done: &[u32], x: u32) -> Result<u32, NoMemory>
    ensures { IfOk result (λ y. y ≡ joined.copied base done.now x) }
{
    if is_among(done, x) {
        copy_of(base, x)
    } else {
        Ok(x)
    }
}

fn copy_of(base: u32, x: u32) -> Result<u32, NoMemory>
    ensures { IfOk result (λ y. y ≡ base + x) }
{
    match base.checked_add(x) {
        Some(y) => Ok(y),
        None => Err(NoMemory),
    }
}

// The term on the copies.
fn renamed(alloc: Global, base: u32, done: &[u32], t: &Term) -> Result<Term, NoMemory>
    ensures { IfOk result (λ made. view.term made ≡
        joined.renamed base done.now (view.term t.now)) }
{
    match t {
        Term::Number(n) => Ok(Term::Number(*n)),
        Term::Var(x) => Ok(Term::Var(copied(base, done, *x)?)),
        Term::Cell(a, index) => {
            let index = renamed(alloc, base, done, index)?;
            Ok(Term::Cell(*a, Box::new(alloc, index)?))
        }
        Term::Flip(t) => {
            let t = renamed(alloc, base, done, t)?;
            Ok(Term::Flip(Box::new(alloc, t)?))
        }
        Term::Not(t) => {
            let t = renamed(alloc, base, done, t)?;
            Ok(Term::Not(Box::new(alloc, t)?))
        }
        Term::Neg(t) => {
            let t = renamed(alloc, base, done, t)?;
            Ok(Term::Neg(Box::new(alloc, t)?))
        }
        Term::Binary(op, a, b) => {
            let a = renamed(alloc, base, done, a)?;
            let b = renamed(alloc, base, done, b)?;
            Ok(Term::Binary(*op, Box::new(alloc, a)?, Box::new(alloc, b)?))
        }
    }
}

// Puts the copy of an operation of an arm after others.
fn add_copy(
    alloc: Global,
    ops: &mut GraphOps,
    base: u32,
    done: &[u32],
    op: &GraphOp,
) -> Result<(), NoMemory>
    ensures { OnOk result (map view.op ops.new.items ≡
        map view.op ops.old.items ++ joined.arm base done.now (view.op op.now ∷ [])) }
{
    match op {
        GraphOp::Assign(x, t) => {
            let t = renamed(alloc, base, done, t)?;
            let x = copy_of(base, *x)?;
            ops.push(GraphOp::Assign(x, t))?;
            Ok(())
        }
        _ => Ok(()),
    }
}

// Puts the copy of an arm after operations.
pub(crate) fn add_arm(
    alloc: Global,
    ops: &mut GraphOps,
    base: u32,
    arm: &[GraphOp],
) -> Result<(), NoMemory>
    ensures { OnOk result (map view.op ops.new.items ≡
        map view.op ops.old.items ++ joined.arm base [] (map view.op arm.now)) }
{
    let mut done = Vec::new(alloc);
    for op in arm {
        add_copy(alloc, ops, base, &done, op)?;
        add_written(&mut done, op)?;
    }
    Ok(())
}

// The turns of an arm.
pub(crate) fn turns_of(arm: &[GraphOp]) -> Result<u64, NoMemory>
    ensures { IfOk result (λ n. n ≡ joined.turns_of (map view.op arm.now)) }
{
    let mut turns = 0;
    for op in arm {
        turns = more_turns(turns, op)?;
    }
    Ok(turns)
}

fn more_turns(turns: u64, op: &GraphOp) -> Result<u64, NoMemory>
    ensures { IfOk result (λ n. n ≡ turns + joined.turns_of (view.op op.now ∷ [])) }
{
    match op {
        GraphOp::Tick(n) => match turns.checked_add(*n) {
            Some(sum) => Ok(sum),
            None => Err(NoMemory),
        },
        _ => Ok(turns),
    }
}
