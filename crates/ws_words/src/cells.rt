//! A list of lists of words.

ghost use Rattle.std.specs.Prelude.{nat_eq, ◌≡◌, ◌==◌, ℕ, List, [], ◌∷◌, ◌++◌, length, slice_get};
ghost use Rattle.std.specs.Prelude.{slice_index, slice_set, option_copied, IfOk, OnOk, OnErr};
ghost use Rattle.ws_words.specs.Outside.{row, with_row};
ghost use Rattle.std.proofs.Common.{rules};
ghost use Rattle.std.specs.Cmp.Rules.{comparing};
ghost use Rattle.std.specs.Cmp.Lexicographic.{pointwise};

use crate::no_memory::NoMemory;
use crate::words::Words;
use std::alloc::Global;
use std::marker::Model;

/// A list of lists of words, as the cells of arrays in order, or the words of ports.
#[derive(Debug, Drop)]
pub struct Cells {
    rows: Vec<Words>,
}

impl Model for Cells {
    ghost Value = { List (List ℕ) };

    ghost view = { λ list. list.rows.items };
}

impl PartialEq for Cells {
    ghost eq = { pointwise (pointwise nat_eq) };

    ghost laws = { Prim.search (comparing, rules) };

    fn eq(&self, other: &Cells) -> bool {
        self.rows == other.rows
    }
}

impl Eq for Cells {
    ghost laws = { Prim.search (comparing, rules) };
}

impl Cells {
    /// No lists.
    pub fn empty(alloc: Global) -> Cells
        ensures { result ≡ [] }
    {
        Cells {
            rows: Vec::new(alloc),
        }
    }

    /// Puts a list at the end.
    pub fn push(&mut self, words: Words) -> Result<(), NoMemory>
        ensures ok { OnOk result (self.new ≡ self.old ++ words ∷ []) }
        ensures err { OnErr result (self.new ≡ self.old) }
    {
        self.rows.push(words)?;
        Ok(())
    }

    /// How many lists there are.
    pub fn len(&self) -> usize
        ensures { result ≡ length self.now }
    {
        self.rows.len()
    }

    /// Whether there are none.
    pub fn is_empty(&self) -> bool
        ensures { result ≡ (length self.now == 0) }
    {
        self.rows.is_empty()
    }

    /// The list at a place, counted from 0.
    pub fn get(&self, place: usize) -> Option<&Words>
        ensures { option_copied result ≡ slice_get self.now place }
    {
        self.rows.get(place)
    }

    /// The word at a place in the list at a place, both counted from 0; out of bounds, 0.
    pub fn word(&self, list: usize, place: usize) -> u64
        ensures { result ≡ slice_index (row self.now list) place }
    {
        match self.rows.get(list) {
            Some(words) => words.word(place),
            None => 0,
        }
    }

    /// Writes the word at a place in the list at a place, both counted from 0; out of bounds nothing
    /// changes.
    pub fn set(&mut self, list: usize, place: usize, word: u64)
        ensures { self.new ≡ with_row self.old list (slice_set (row self.old list) place word) }
    {
        if list < self.rows.len() {
            self.rows[list].set(place, word);
        }
    }

    /// Puts a word at the end of the list at a place, counted from 0; out of bounds nothing changes.
    pub fn add(&mut self, list: usize, word: u64) -> Result<(), NoMemory>
        ensures ok { OnOk result (
            self.new ≡ with_row self.old list (row self.old list ++ word ∷ [])) }
        ensures err { OnErr result (self.new ≡ self.old) }
    {
        if list < self.rows.len() {
            self.rows[list].push(word)?;
        }
        Ok(())
    }

    /// The same lists once more.
    pub fn copy(&self, alloc: Global) -> Result<Cells, NoMemory>
        ensures { IfOk result (λ list. list ≡ self.now) }
    {
        let mut rows = Vec::new(alloc);
        for words in &self.rows {
            rows.push(words.copy(alloc)?)?;
        }
        Ok(Cells { rows })
    }
}
