//! The waves of a graph.

ghost use Rattle.std.specs.Prelude.{◌≡◌, ◌<◌, ◌^◌, length};
ghost use Rattle.wave_cut.specs.Cut.{Cut, wave, is_first};

use std::marker::Model;

/// The waves of a graph's blocks. `heads` has the first block of each wave.
#[derive(Drop)]
pub struct Waves {
    waves: Vec<u32>,
    heads: Vec<u32>,
}

impl Model for Waves {
    ghost Value = { Cut };

    ghost view = { λ cut. record { waves = cut.waves.items; heads = cut.heads.items } };

    ghost invariant = { λ cut. length cut.heads.items < 2 ^ 32 };
}

impl Waves {
    /// The waves of blocks and the first blocks of waves.
    pub(crate) fn of(waves: Vec<u32>, heads: Vec<u32>) -> Waves
        requires { length heads.items < 2 ^ 32 }
        ensures { result ≡ record { waves = waves.items; heads = heads.items } }
    {
        Waves { waves, heads }
    }

    /// How many waves there are.
    pub fn count(&self) -> u32
        ensures { result ≡ length self.now.heads }
    {
        self.heads.len() as u32
    }

    /// The wave of a block that exists, from 1.
    pub fn wave(&self, block: u32) -> u32
        ensures { result ≡ wave self.now block }
    {
        self.waves.get(block as usize).copied().unwrap_or(0)
    }

    /// Whether a block that exists is the first one of its wave.
    pub fn first(&self, block: u32) -> bool
        ensures { result ≡ is_first self.now block }
    {
        let place = (self.wave(block) as usize).saturating_sub(1);
        self.heads.get(place).copied().unwrap_or(0) == block
    }
}
