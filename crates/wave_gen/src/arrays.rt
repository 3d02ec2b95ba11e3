//! The arrays of a draft.

ghost use Rattle.std.specs.Prelude.{◌≡◌, map, IfOk};
ghost use Rattle.ws_isa.specs.View as image;
ghost use Rattle.cfg_core.specs.View as view;
ghost use Rattle.wave_gen.specs.Words.{array_of, arrays_of};

use cfg_core::{Graph, GraphArray};
use std::alloc::Global;
use ws_isa::{ArrayDecl, ArrayDecls};
use ws_words::NoMemory;

fn array(alloc: Global, a: &GraphArray) -> Result<ArrayDecl, NoMemory>
    ensures { IfOk result (λ made. image.array made ≡ array_of (view.array a.now)) }
{
    let name = match &a.name {
        Some(name) => Some(name.copy(alloc)?),
        None => None,
    };
    Ok(ArrayDecl {
        name,
        length: a.length,
    })
}

/// The arrays of a graph, as a draft has them.
pub(crate) fn arrays(alloc: Global, graph: &Graph) -> Result<ArrayDecls, NoMemory>
    ensures { IfOk result (λ made.
        map image.array made.items ≡ arrays_of (view.graph graph.now)) }
{
    let mut list = Vec::new(alloc);
    for a in &graph.arrays {
        list.push(array(alloc, a)?)?;
    }
    Ok(list)
}
