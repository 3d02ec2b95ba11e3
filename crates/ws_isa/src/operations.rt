//! What operations of memory do.

ghost use Rattle.std.specs.Prelude.{◌≡◌, ℕ, [], ◌∷◌, map, IfOk};
ghost use Rattle.ws_words.specs.Outside.{Outside};
ghost use Rattle.ws_words.specs.Memory.{OutIs};
ghost use Rattle.ws_isa.specs.Image.{cells_of};
ghost use Rattle.ws_isa.specs.View as view;
ghost use Rattle.ws_isa.specs.Shows.{Performs};

use crate::{ArrayDecl, Op};
use std::alloc::Global;
use ws_words::{Cells, Memory, NoMemory, Words};

/// Does a memory operation on its operands, and gives its answer; 0 where it has none. Others do
/// nothing.
pub fn perform(memory: &mut Memory<'_>, op: Op, first: u64, second: u64) -> Result<u64, NoMemory>
    ensures { IfOk result (λ word. (o : Outside) (third : ℕ) → OutIs o memory.old →
        Performs op (first ∷ second ∷ third ∷ []) o word memory.new) }
{
    match op {
        Op::Load(array) => Ok(memory.load(array, first)),
        Op::Store(array) => {
            memory.store(array, first, second);
            Ok(0)
        }
        Op::Input => Ok(memory.read()),
        Op::Output => {
            memory.print(first)?;
            Ok(0)
        }
        Op::Give(port) => Ok(memory.give(port as u64)),
        Op::Take(port) => {
            memory.take(port as u64, first)?;
            Ok(0)
        }
        _ => Ok(0),
    }
}

/// Zeros in all cells of these arrays.
pub fn empty_cells(alloc: Global, arrays: &[ArrayDecl]) -> Result<Cells, NoMemory>
    ensures { IfOk result (λ cells. cells ≡ cells_of (map view.array arrays.now)) }
{
    let mut cells = Cells::empty(alloc);
    for array in arrays {
        cells.push(Words::zeros(alloc, array.length as usize)?)?;
    }
    Ok(cells)
}
