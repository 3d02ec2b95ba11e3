//! Operations of the graph.

ghost use Rattle.std.specs.Prelude.{◌≡◌, IfOk};
ghost use Rattle.seq_run.specs.View as source;
ghost use Rattle.cfg_core.specs.View as view;
ghost use Rattle.cfg_build.specs.Lowered as lowered;
ghost use Rattle.cfg_build.specs.Building.{ActionFits};

use cfg_core::{GraphOp, copy_term};
use seq_run::Action;
use std::alloc::Global;
use ws_words::NoMemory;

/// What an action does, all but its turn.
pub(crate) fn operation(alloc: Global, action: &Action) -> Result<GraphOp, NoMemory>
    requires { ActionFits (source.action action.now) }
    ensures { IfOk result (λ made. view.op made ≡ lowered.op (source.action action.now)) }
{
    match action {
        Action::Assign(x, t) => Ok(GraphOp::Assign(*x, copy_term(alloc, t)?)),
        Action::Store(a, index, value) => {
            let index = copy_term(alloc, index)?;
            let value = copy_term(alloc, value)?;
            Ok(GraphOp::Store(*a, index, value))
        }
        Action::Print(t) => Ok(GraphOp::Print(copy_term(alloc, t)?)),
        Action::Read(x) => Ok(GraphOp::Read(*x)),
        Action::Give(port, x) => Ok(GraphOp::Give(*port as u8, *x)),
        Action::Take(port, t) => Ok(GraphOp::Take(*port as u8, copy_term(alloc, t)?)),
    }
}
