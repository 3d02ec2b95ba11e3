//! Instances of which the address alone has come.

ghost use Rattle.std.specs.Prelude.{◌≡◌, ◌≤◌, ℕ, [], true, false, cond, OnOk};
ghost use Rattle.std.specs.HashSet.{spare};
ghost use Rattle.df_core.specs.Core.{same_key};
ghost use Rattle.part_store.specs.Bares.{is_in};

use std::alloc::Global;
use std::collections::HashSet;
use ws_words::NoMemory;

/// A set of instances.
#[derive(Drop)]
pub struct Bare {
    pub set: HashSet<(u64, u32)>,
}

impl Bare {
    /// No instances.
    pub fn new(alloc: Global) -> Bare
        ensures { result.set.keys ≡ [] }
    {
        Bare {
            set: HashSet::new(alloc),
        }
    }

    /// Whether the instance is among them.
    pub fn has(&self, wave: u64, instr: u32) -> bool
        ensures { result ≡ is_in self.now wave instr }
    {
        self.set.contains(&(wave, instr))
    }

    /// Makes room for one more.
    pub fn reserve(&mut self) -> Result<(), NoMemory>
        ensures same { (w i : ℕ) → is_in self.new w i ≡ is_in self.old w i }
        ensures room { OnOk result (1 ≤ spare self.new.set) }
    {
        self.set.reserve(1)?;
        Ok(())
    }

    /// Puts an instance among them, for which there is room.
    pub fn add(&mut self, wave: u64, instr: u32)
        requires room { 1 ≤ spare self.old.set }
        ensures { (w i : ℕ) → is_in self.new w i
            ≡ cond (same_key wave instr w i) true (is_in self.old w i) }
    {
        let _ = self.set.insert((wave, instr));
    }

    /// Takes an instance out.
    pub fn forget(&mut self, wave: u64, instr: u32)
        ensures { (w i : ℕ) → is_in self.new w i
            ≡ cond (same_key wave instr w i) false (is_in self.old w i) }
    {
        let _ = self.set.remove(&(wave, instr));
    }
}
