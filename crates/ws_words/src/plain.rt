//! What a run is given, and what it leaves.

use crate::cells::Cells;
use crate::words::Words;

/// What a run is given: the words of the input, and for each of the ports 1 to 7, in order, the
/// words that it has left.
#[derive(Debug, Drop, PartialEq, Eq)]
pub struct World {
    pub input: Words,
    pub left: Cells,
}

/// What a run with a bounded number of turns leaves. `arrays` are the cells of the arrays in order
/// of declaration, `took` the words that each of the ports 1 to 7 took, `turns` the turns of the
/// run; of a run that an out-of-bounds access stopped, `array` is the number of that array,
/// counted from 1 in order of declaration, and the last of `turns` is the turn of that act.
#[derive(Debug, Drop, PartialEq, Eq)]
pub enum Plain {
    Ended {
        printed: Words,
        arrays: Cells,
        took: Cells,
        turns: u64,
    },
    Fault {
        array: u32,
        printed: Words,
        arrays: Cells,
        took: Cells,
        turns: u64,
    },
    Going {
        printed: Words,
    },
}
