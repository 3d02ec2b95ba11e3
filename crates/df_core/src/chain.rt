//! The order of memory operations: the chain.

ghost use Rattle.std.specs.Prelude.{◌≡◌, ◌+◌, ◌<◌, ◌^◌};
ghost use Rattle.df_core.specs.Core.{pass, position_after};
ghost use Rattle.df_core.specs.Chains.{chain_of, names, is_nothing, next_flag};

use ws_isa::{Link, Note};

/// The current wave, and the last operation passed in it.
#[derive(Clone, Copy)]
pub struct Chain {
    pub wave: u64,
    pub last: Option<Note>,
}

impl Chain {
    /// Whether an operation of the current wave is next.
    pub fn is_next(&self, note: Note) -> bool
        ensures { result ≡ next_flag (chain_of self.now) note }
    {
        match self.last {
            None => is_nothing(note.pred),
            Some(last) => names(last.succ, note.seq) || names(note.pred, last.seq),
        }
    }

    /// The sequence number of the last operation passed in the current wave, or 0.
    pub fn position(&self) -> u32
        ensures { result ≡ position_after self.now.last }
    {
        match self.last {
            None => 0,
            Some(last) => last.seq,
        }
    }

    /// The chain behind an operation.
    pub fn pass(self, note: Note) -> Chain
        requires { self.wave + 1 < 2 ^ 64 }
        ensures { chain_of result ≡ pass (chain_of self) note }
    {
        match note.succ {
            Link::Nothing => Chain {
                wave: self.wave + 1,
                last: None,
            },
            _ => Chain {
                wave: self.wave,
                last: Some(note),
            },
        }
    }
}

fn names(link: Link, seq: u32) -> bool
    ensures { result ≡ names link seq }
{
    match link {
        Link::Is(number) => number == seq,
        _ => false,
    }
}

/// Whether a link says that there is no neighbour.
pub fn is_nothing(link: Link) -> bool
    ensures { result ≡ is_nothing link }
{
    match link {
        Link::Nothing => true,
        _ => false,
    }
}
