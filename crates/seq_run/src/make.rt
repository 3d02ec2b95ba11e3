//! Steps with steps inside, made of their parts.

ghost use Rattle.std.specs.Prelude.{◌≡◌};
ghost use Rattle.seq_run.specs.Resolved.{If, While};
ghost use Rattle.cfg_core.specs.View as graph;
ghost use Rattle.seq_run.specs.View as view;

use crate::tree::Step;
use cfg_core::Term;

pub(crate) fn if_step(test: Term, first: Vec<Step>, second: Vec<Step>) -> Step
    ensures { view.step result ≡ If (graph.term test) (view.steps first.items) (view.steps second.items) }
{
    Step::If(test, first, second)
}

pub(crate) fn while_step(test: Term, body: Vec<Step>) -> Step
    ensures { view.step result ≡ While (graph.term test) (view.steps body.items) }
{
    Step::While(test, body)
}
