//! The arrays of a graph.

ghost use Rattle.std.specs.Prelude.{◌≡◌, map, IfOk};
ghost use Rattle.std.specs.List.{AllByRecursion};
ghost use Rattle.seq_run.specs.View as source;
ghost use Rattle.cfg_core.specs.View as view;
ghost use Rattle.cfg_build.specs.Building.{LengthFits};
ghost use Rattle.cfg_build.specs.Lowered as lowered;

use cfg_core::{GraphArray, GraphArrays};
use seq_run::ArrayShape;
use std::alloc::Global;
use ws_words::NoMemory;

/// The arrays by their names and lengths; none is hidden.
pub(crate) fn arrays(alloc: Global, shapes: &[ArrayShape]) -> Result<GraphArrays, NoMemory>
    requires { AllByRecursion LengthFits (source.lengths shapes.now) }
    ensures { let made = lowered.arrays (source.names shapes.now) (source.lengths shapes.now) in
        IfOk result (λ list. map view.array list.items ≡ made) }
{
    let mut list = Vec::new(alloc);
    for shape in shapes {
        let name = shape.name.copy(alloc)?;
        list.push(GraphArray {
            name: Some(name),
            length: shape.length as u32,
        })?;
    }
    Ok(list)
}
