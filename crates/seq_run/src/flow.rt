//! How steps and calls end, and what a run has outside its variables.

ghost use Rattle.std.specs.Prelude.{◌≡◌};
ghost use Rattle.seq_run.specs.Shows.{stop_flag};

use ws_words::Memory;

/// Steps ended, needed a turn when none was left, or stopped before an out-of-bounds access to an
/// array, numbered from 1.
#[derive(Clone, Copy)]
pub enum Flow {
    Ended,
    Out,
    Fault(u32),
}

impl Flow {
    pub(crate) fn has_stopped(&self) -> bool
        ensures { result ≡ stop_flag self.now }
    {
        match self {
            Flow::Ended => false,
            Flow::Out | Flow::Fault(_) => true,
        }
    }
}

/// A call gave a word, needed a turn where none was left, or stopped as steps do.
#[derive(Clone, Copy)]
pub enum Reply {
    Value(u64),
    Out,
    Fault(u32),
}

/// What a run has outside its variables, and the turns that it has left.
#[derive(Drop)]
pub struct Run<'a> {
    pub memory: Memory<'a>,
    pub turns: u64,
}
