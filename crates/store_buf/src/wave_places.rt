//! Where the requests of a wave wait.

ghost use Rattle.std.specs.Prelude.{ℕ, Option, OnOk};
ghost use Rattle.store_buf.specs.Ranks.{IsFiled};

use crate::places::Places;
use std::alloc::Global;
use ws_words::NoMemory;

/// The places of requests of one wave: `turns` by sequence number, and in `loads` those of the loads
/// within their arrays by ripple. A place may also stand there whose request no longer waits.
#[derive(Drop)]
pub struct WavePlaces {
    pub(crate) turns: Places,
    pub(crate) loads: Places,
}

impl WavePlaces {
    /// No places.
    pub fn new(alloc: Global) -> WavePlaces {
        WavePlaces {
            turns: Places::new(alloc),
            loads: Places::new(alloc),
        }
    }

    /// Puts the place of a request with this number, and this ripple where it is a load within its
    /// array.
    #[inline(always)]
    pub fn put(&mut self, number: u32, ripple: Option<u32>, place: usize) -> Result<(), NoMemory>
        ensures ok { OnOk result (IsFiled self.new number ripple place) }
        ensures kept { (n : ℕ) (r : Option ℕ) (p : ℕ) → IsFiled self.old n r p → IsFiled self.new n r p }
    {
        self.turns.push(number, place)?;
        if let Some(first) = ripple {
            self.loads.push(first, place)?;
        }
        Ok(())
    }

    /// Takes all away.
    pub fn clear(&mut self) {
        self.turns.clear();
        self.loads.clear();
    }
}
