//! A list of words.

ghost use Rattle.std.specs.Prelude.{nat_eq, ◌≡◌, ◌==◌, ℕ, List, [], ◌∷◌, ◌++◌, length, slice_get};
ghost use Rattle.std.specs.Prelude.{slice_index, slice_set, IfOk, OnOk, OnErr};
ghost use Rattle.ws_words.specs.Outside.{zeros};
ghost use Rattle.std.proofs.Common.{rules};
ghost use Rattle.std.specs.Cmp.Rules.{comparing};
ghost use Rattle.std.specs.Cmp.Lexicographic.{pointwise};

use crate::no_memory::NoMemory;
use std::alloc::Global;
use std::marker::Model;
use std::mem::swap;

/// A list of words.
#[derive(Debug, Drop)]
pub struct Words {
    items: Vec<u64>,
}

impl Model for Words {
    ghost Value = { List ℕ };

    ghost view = { λ list. list.items.items };
}

impl PartialEq for Words {
    ghost eq = { pointwise nat_eq };

    ghost laws = { Prim.search (comparing, rules) };

    fn eq(&self, other: &Words) -> bool {
        self.items == other.items
    }
}

impl Eq for Words {
    ghost laws = { Prim.search (comparing, rules) };
}

impl Words {
    /// No words.
    pub fn empty(alloc: Global) -> Words
        ensures { result ≡ [] }
    {
        Words {
            items: Vec::new(alloc),
        }
    }

    /// These words.
    pub fn from_slice(alloc: Global, words: &[u64]) -> Result<Words, NoMemory>
        ensures { IfOk result (λ list. list ≡ words.now) }
    {
        Ok(Words {
            items: Vec::from_slice(alloc, words)?,
        })
    }

    /// So many zeros.
    #[tactic(auto, using(crate::proofs::Rows::zeros_more))]
    pub fn zeros(alloc: Global, count: usize) -> Result<Words, NoMemory>
        ensures { IfOk result (λ list. list ≡ zeros count) }
    {
        let mut items = Vec::new(alloc);
        for _ in 0..count {
            items.push(0)?;
        }
        Ok(Words { items })
    }

    /// Puts a word at the end.
    pub fn push(&mut self, word: u64) -> Result<(), NoMemory>
        ensures ok { OnOk result (self.new ≡ self.old ++ word ∷ []) }
        ensures err { OnErr result (self.new ≡ self.old) }
    {
        self.items.push(word)?;
        Ok(())
    }

    /// How many there are.
    pub fn len(&self) -> usize
        ensures { result ≡ length self.now }
    {
        self.items.len()
    }

    /// Whether there are none.
    pub fn is_empty(&self) -> bool
        ensures { result ≡ (length self.now == 0) }
    {
        self.items.is_empty()
    }

    /// The word at a place, counted from 0.
    pub fn get(&self, place: usize) -> Option<u64>
        ensures { result ≡ slice_get self.now place }
    {
        self.items.get(place).copied()
    }

    /// The word at a place, counted from 0; out of bounds, 0.
    pub fn word(&self, place: usize) -> u64
        ensures { result ≡ slice_index self.now place }
    {
        self.items.get(place).copied().unwrap_or(0)
    }

    /// Writes the word at a place, counted from 0; out of bounds nothing changes.
    pub fn set(&mut self, place: usize, word: u64)
        ensures { self.new ≡ slice_set self.old place word }
    {
        if place < self.items.len() {
            self.items[place] = word;
        }
    }

    /// The words as a slice.
    pub fn as_slice(&self) -> &[u64]
        ensures { result.now ≡ self.now }
    {
        &self.items
    }

    /// Exchanges the words for those of a vector.
    pub fn exchange(&mut self, items: &mut Vec<u64>)
        ensures words { self.new ≡ items.old.items }
        ensures items { items.new.items ≡ self.old }
    {
        swap(&mut self.items, items);
    }

    /// The same words once more.
    pub fn copy(&self, alloc: Global) -> Result<Words, NoMemory>
        ensures { IfOk result (λ list. list ≡ self.now) }
    {
        Words::from_slice(alloc, &self.items)
    }
}
