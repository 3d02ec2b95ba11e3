//! The variables of terms, operations and exits, as the bits of a word for the 64 variables from
//! `low` on.

ghost use Rattle.std.specs.Prelude.{◌≡◌, map};
ghost use Rattle.cfg_core.specs.View as view;
ghost use Rattle.live_vars.specs.Live.{Mentions, OneMentions, OpReads, OpWrites, ExitReads, ExitWrites};
ghost use Rattle.live_vars.specs.Marks.{Marks};

use cfg_core::{GraphOp, Leave, Term};

fn bit(x: u32, low: u32) -> u64
    ensures { Marks low result (λ y. y ≡ x) }
{
    if low <= x && x - low < 64 {
        1 << (x - low)
    } else {
        0
    }
}

fn mentioned(term: &Term, low: u32) -> u64
    ensures { Marks low result (Mentions (view.term term.now)) }
{
    match term {
        Term::Number(_) => 0,
        Term::Var(x) => bit(*x, low),
        Term::Cell(_, t) => mentioned(t, low),
        Term::Flip(t) => mentioned(t, low),
        Term::Not(t) => mentioned(t, low),
        Term::Neg(t) => mentioned(t, low),
        Term::Binary(_, a, b) => mentioned(a, low) | mentioned(b, low),
    }
}

fn all_mentioned(terms: &[Term], low: u32) -> u64
    ensures { Marks low result (OneMentions (map view.term terms.now)) }
{
    let mut found = 0;
    for term in terms {
        found |= mentioned(term, low);
    }
    found
}

/// What an operation reads.
pub(crate) fn read_by(op: &GraphOp, low: u32) -> u64
    ensures { Marks low result (OpReads (view.op op.now)) }
{
    match op {
        GraphOp::Assign(_, t) => mentioned(t, low),
        GraphOp::Store(_, t, u) => mentioned(t, low) | mentioned(u, low),
        GraphOp::Print(t) => mentioned(t, low),
        GraphOp::Read(_) => 0,
        GraphOp::Give(_, _) => 0,
        GraphOp::Take(_, t) => mentioned(t, low),
        GraphOp::Choose(_, t, a, b) => {
            mentioned(t, low) | (mentioned(a, low) | mentioned(b, low))
        }
        GraphOp::Tick(_) => 0,
        GraphOp::TickBy(t, _, _) => mentioned(t, low),
    }
}

/// What an operation writes.
pub(crate) fn written_by(op: &GraphOp, low: u32) -> u64
    ensures { Marks low result (OpWrites (view.op op.now)) }
{
    match op {
        GraphOp::Assign(x, _) => bit(*x, low),
        GraphOp::Read(x) => bit(*x, low),
        GraphOp::Give(_, x) => bit(*x, low),
        GraphOp::Choose(x, _, _, _) => bit(*x, low),
        _ => 0,
    }
}

/// What an exit reads.
pub(crate) fn read_at(exit: &Leave, low: u32) -> u64
    ensures { Marks low result (ExitReads (view.exit exit.now)) }
{
    match exit {
        Leave::Goto(_) => 0,
        Leave::Branch(t, _, _) => mentioned(t, low),
        Leave::Call { values, .. } => all_mentioned(values, low),
        Leave::Return(t) => mentioned(t, low),
        Leave::Send {
            address,
            values,
            ..
        } => mentioned(address, low) | all_mentioned(values, low),
        Leave::Stop => 0,
    }
}

/// What an exit writes.
pub(crate) fn written_at(exit: &Leave, low: u32) -> u64
    ensures { Marks low result (ExitWrites (view.exit exit.now)) }
{
    match exit {
        Leave::Call {
            result: Some(x),
            ..
        } => bit(*x, low),
        _ => 0,
    }
}
