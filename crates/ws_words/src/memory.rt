//! What a run has outside its variables.

ghost use Rattle.std.specs.Prelude.{◌≡◌, ◌↔◌, ◌-◌, [], slice_index, IsTrue, IfOk, OnOk};
ghost use Rattle.ws_words.specs.Memory.{Does, OutIs, lengths_of};
ghost use Rattle.ws_words.specs.Outside.{Outside, loads, stores, reads, prints, gives, takes};
ghost use Rattle.ws_words.specs.Outside.{head_or_zero, opening_out, row};
ghost use Rattle.ws_words.specs.Past.{IsWithin};
ghost use Rattle.ws_words.specs.Plain.{took_by_ports, world_of};

use crate::cells::Cells;
use crate::no_memory::NoMemory;
use crate::plain::World;
use crate::tape::{Tape, next_of, tapes};
use crate::words::Words;
use std::alloc::Global;

/// How many ports there are.
pub const PORTS: u8 = 7;

/// What a run has outside its variables: the cells of the arrays, in order, the words that the
/// input and the ports have left, and of its acts the words that were printed and that each of the
/// ports 1 to 7 took. Arrays and ports are numbered from 1.
#[derive(Debug, Drop)]
pub struct Memory<'a> {
    pub cells: Cells,
    pub input: Tape<'a>,
    pub left: Vec<Tape<'a>>,
    pub printed: Words,
    pub took: Cells,
}

impl<'a> Memory<'a> {
    /// Before the first act, with these cells.
    pub fn open(alloc: Global, cells: Cells, world: &'a World) -> Result<Memory<'a>, NoMemory>
        ensures { IfOk result (OutIs (opening_out cells (world_of world.now))) }
    {
        Ok(Memory {
            cells,
            input: Tape::new(world.input.as_slice()),
            left: tapes(alloc, &world.left)?,
            printed: Words::empty(alloc),
            took: no_words(alloc)?,
        })
    }

    /// The cell of an array at an index; out of bounds, 0.
    pub fn load(&self, array: u32, index: u64) -> u64
        ensures word { result ≡ slice_index (row self.now.cells (array - 1)) index }
        ensures acts { Does (loads array index) self.now self.now }
    {
        self.cells.word(place_of(array), index as usize)
    }

    /// Whether a load or store of this array at this index is within its cells.
    pub fn is_within(&self, array: u32, index: u64) -> bool
        ensures { IsTrue result ↔ IsWithin (lengths_of self.now.cells) (loads array index) }
    {
        match self.cells.get(place_of(array)) {
            Some(words) => index < words.len() as u64,
            None => false,
        }
    }

    /// Writes the cell of an array at an index; out of bounds no cell changes.
    pub fn store(&mut self, array: u32, index: u64, word: u64)
        ensures { Does (stores array index word) self.old self.new }
    {
        self.cells.set(place_of(array), index as usize, word);
    }

    /// The next word of the input, or 0 where none is left.
    pub fn read(&mut self) -> u64
        ensures word { (o : Outside) → OutIs o self.old → result ≡ head_or_zero o.input }
        ensures acts { Does reads self.old self.new }
    {
        self.input.next()
    }

    /// Prints a word.
    pub fn print(&mut self, word: u64) -> Result<(), NoMemory>
        ensures { OnOk result (Does (prints word) self.old self.new) }
    {
        self.printed.push(word)?;
        Ok(())
    }

    /// The next word that a port has left, or 0 where none is.
    pub fn give(&mut self, port: u64) -> u64
        ensures word { (o : Outside) → OutIs o self.old →
            result ≡ head_or_zero (row o.left (port - 1)) }
        ensures acts { Does (gives port) self.old self.new }
    {
        next_of(&mut self.left, (port as usize).saturating_sub(1))
    }

    /// A port takes a word. No port has the number 0 or one above 7: there no words are kept.
    pub fn take(&mut self, port: u64, word: u64) -> Result<(), NoMemory>
        ensures { OnOk result (Does (takes port word) self.old self.new) }
    {
        if port > 0 {
            self.took.add(port as usize - 1, word)?;
        }
        Ok(())
    }
}

/// The place of an array by its number from 1.
pub fn place_of(array: u32) -> usize
    ensures { result ≡ array - 1 }
{
    (array as usize).saturating_sub(1)
}

// No words for each of the ports.
#[tactic(auto, using(crate::proofs::Acts::took_nothing))]
fn no_words(alloc: Global) -> Result<Cells, NoMemory>
    ensures { IfOk result (λ took. took ≡ took_by_ports []) }
{
    let mut took = Cells::empty(alloc);
    for _ in 0..PORTS {
        took.push(Words::empty(alloc))?;
    }
    Ok(took)
}
