//! Words that are taken one by one.

ghost use Rattle.std.specs.Prelude.{◌≡◌, ℕ, List, IfOk};
ghost use Rattle.ws_words.specs.Outside.{head_or_zero, rest_of, row, with_row};

use crate::cells::Cells;
use crate::no_memory::NoMemory;
use std::alloc::Global;
use std::marker::Model;

/// Words that are taken from first to last.
#[derive(Debug, Drop)]
pub struct Tape<'a> {
    rest: &'a [u64],
}

impl<'a> Model for Tape<'a> {
    ghost Value = { List ℕ };

    ghost view = { λ tape. tape.rest.now };
}

impl<'a> Tape<'a> {
    /// All of these words.
    pub fn new(words: &'a [u64]) -> Tape<'a>
        ensures { result ≡ words.now }
    {
        Tape { rest: words }
    }

    /// The next word, or 0 where none is left.
    pub fn next(&mut self) -> u64
        ensures word { result ≡ head_or_zero self.old }
        ensures rest { self.new ≡ rest_of self.old }
    {
        match self.rest.split_first() {
            Some((first, rest)) => {
                self.rest = rest;
                *first
            }
            None => 0,
        }
    }
}

/// The next word of the tape at a place, or 0 where none is left.
pub fn next_of(tapes: &mut Vec<Tape<'_>>, place: usize) -> u64
    ensures word { result ≡ head_or_zero (row tapes.old.items place) }
    ensures rest { let before = tapes.old.items in
        tapes.new.items ≡ with_row before place (rest_of (row before place)) }
{
    if place < tapes.len() {
        tapes[place].next()
    } else {
        0
    }
}

/// The tapes of these lists of words, in order.
pub fn tapes<'a>(alloc: Global, left: &'a Cells) -> Result<Vec<Tape<'a>>, NoMemory>
    ensures { IfOk result (λ tapes. tapes.items ≡ left.now) }
{
    let mut tapes = Vec::new(alloc);
    for port in 0..left.len() {
        tapes.push(tape_of(left, port))?;
    }
    Ok(tapes)
}

// The words of a port that stands at this place; out of bounds, none.
fn tape_of<'a>(left: &'a Cells, place: usize) -> Tape<'a>
    ensures { result ≡ row left.now place }
{
    match left.get(place) {
        Some(words) => Tape::new(words.as_slice()),
        None => Tape::new(&[]),
    }
}
