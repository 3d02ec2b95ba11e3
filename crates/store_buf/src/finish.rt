//! How the run of an image ends.

use port_set::Slots;
use ws_words::{Cells, Words};

/// How a run ended. `Done`: the whole walk has been run. `Budget`: as many instances have fired as
/// may, and the walk has more. `Fault`: the walk's first out-of-bounds load or store has stopped it,
/// on the array with this number from 1. `Port`: this port has failed.
#[derive(Debug, Drop)]
pub enum RunFinish {
    Done {
        printed: Words,
        arrays: Cells,
        fired: u64,
    },
    Budget {
        printed: Words,
        fired: u64,
    },
    Fault {
        array: u32,
        printed: Words,
        arrays: Cells,
    },
    Port {
        port: u8,
        printed: Words,
    },
    NoMemory,
}

/// How a run ended, with its ports.
#[derive(Drop)]
pub struct RunEnd<P> {
    pub finish: RunFinish,
    pub ports: Slots<P>,
}
