//! Where to look for the request that is next.

use crate::chain::Chain;
use std::alloc::Global;
use std::collections::HashMap;
use ws_isa::{Link, Note};

/// Where requests stand, by their wave and the number of their operation, or that of the one before
/// it. One is missing if there was no room for it, so the caller needs another method to find it.
#[derive(Drop)]
pub struct Hints {
    own: HashMap<(u64, u32), u32>,
    before: HashMap<(u64, u32), u32>,
}

impl Hints {
    /// No hints.
    pub fn empty(alloc: Global) -> Hints {
        Hints {
            own: HashMap::new(alloc),
            before: HashMap::new(alloc),
        }
    }

    /// Makes room for those of so many more requests, where there is memory for it.
    pub fn reserve(&mut self, more: usize) {
        let _ = self.own.reserve(more);
        let _ = self.before.reserve(more);
    }

    /// The request of a wave's operation with this annotation stands at a place. Takes no memory.
    pub fn set(&mut self, wave: u64, note: Note, place: usize) {
        if let Ok(place) = u32::try_from(place) {
            put(&mut self.own, wave, note.seq, place);
            if let Some(number) = number_before(note) {
                put(&mut self.before, wave, number, place);
            }
        }
    }

    /// The request of a wave's operation with this annotation waits no more.
    pub fn forget(&mut self, wave: u64, note: Note) {
        self.own.remove(&(wave, note.seq));
        if let Some(number) = number_before(note) {
            self.before.remove(&(wave, number));
        }
    }

    /// The place of the request of the operation behind the chain, where there is a hint of it.
    pub fn next(&self, chain: &Chain) -> Option<u32> {
        match chain.last {
            None => get(&self.before, chain.wave, 0),
            Some(last) => match last.succ {
                Link::Is(number) => get(&self.own, chain.wave, number),
                _ => get(&self.before, chain.wave, last.seq),
            },
        }
    }
}

// The number of the operation before this one, if its annotation has it: 0 at the first of a wave.
fn number_before(note: Note) -> Option<u32> {
    match note.pred {
        Link::Is(number) => Some(number),
        Link::Nothing => Some(0),
        Link::Unknown => None,
    }
}

fn put(places: &mut HashMap<(u64, u32), u32>, wave: u64, number: u32, place: u32) {
    if places.len() < places.capacity() {
        let _ = places.insert((wave, number), place);
    }
}

fn get(places: &HashMap<(u64, u32), u32>, wave: u64, number: u32) -> Option<u32> {
    places.get(&(wave, number)).copied()
}
