//! What a run is given.

ghost use Rattle.std.specs.Prelude.{◌≡◌, IfOk};
ghost use Rattle.ws_words.specs.Plain as given;
ghost use Rattle.asm_read.specs.Reads.{world_of};

use std::alloc::Global;
use ws_words::{Cells, NoMemory, Words, World};

/// These words, and nothing left in any port.
pub fn world(alloc: Global, input: Words) -> Result<World, NoMemory>
    ensures { IfOk result (λ world. given.world_of world ≡ world_of input) }
{
    let mut left = Cells::empty(alloc);
    for _ in 0..7u8 {
        left.push(Words::empty(alloc))?;
    }
    Ok(World { input, left })
}
