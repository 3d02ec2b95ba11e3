//! What a buffer has outside its order: cells, input, printed words and ports.

ghost use Rattle.std.specs.Prelude.{◌≡◌, ◌≤◌, ◌<◌, ◌+◌, ℕ, List, [], ◌∷◌, Option, drop, map, IfOk};
ghost use Rattle.std.specs.Prelude.{IfErr, IsOk, true, false, OnErr, vec_len, vec_capacity};
ghost use Rattle.ws_words.specs.Outside.{Outside, head_or_zero, rest_of};
ghost use Rattle.ws_isa.specs.Image.{cells_of};
ghost use Rattle.ws_isa.specs.View as view;
ghost use Rattle.port_set.specs.Slots.{AllOpen, contents};
ghost use Rattle.df_core.specs.Began.{Began};
ghost use Rattle.store_buf.specs.Outdoors.{HoldsOut, Performed, PortIn, SilentAt, FaultsGrow, silent_of};
ghost use Rattle.store_buf.specs.Outdoors.{is_cell_op};
ghost use Rattle.store_buf.specs.Outers.{holding};

use crate::fault::Silent;
use port_set::{OpenSet, Port, PortError, Slots};
use std::alloc::Global;
use ws_isa::{ArrayDecl, Op};
use ws_words::{Cells, NoMemory, Words, place_of};

/// What a run leaves: the words printed, the cells of all arrays, hidden ones too, and the ports.
#[derive(Drop)]
pub struct BufferEnd<P: Port> {
    pub printed: Words,
    pub arrays: Cells,
    pub ports: Slots<P>,
}

/// Cells, the input and how many of its words were read, the words printed, and ports.
#[derive(Drop)]
pub struct Outer<P: Port> {
    pub cells: Cells,
    pub input: Words,
    pub read: usize,
    pub printed: Vec<u64>,
    pub ports: OpenSet<P>,
}

impl<P: Port> Outer<P> {
    /// Does a memory operation on its operands, and gives its answer; 0 where it has none. Where a
    /// port doesn't answer nothing changes but its count of faults.
    #[inline(always)]
    pub fn run(&mut self, op: Op, first: u64, second: u64) -> Result<u64, Silent>
        requires port { PortIn op }
        requires room { is_cell_op op ≡ false
            → vec_len self.old.printed < vec_capacity self.old.printed }
        ensures answer { IfOk result (λ word. (began : List (Option Began)) (o : Outside) (third : ℕ)
            → HoldsOut began o (holding self.old)
            → Performed began op (first ∷ second ∷ third ∷ []) o word (holding self.new)) }
        ensures kept { OnErr result ((began : List (Option Began)) (o : Outside)
            → HoldsOut began o (holding self.old) → HoldsOut began o (holding self.new)) }
        ensures room { vec_capacity self.new.printed ≡ vec_capacity self.old.printed }
        ensures fewer { vec_len self.new.printed ≤ vec_len self.old.printed + 1 }
        ensures unprinted { OnErr result (self.new.printed ≡ self.old.printed) }
        ensures silent { IfErr result (SilentAt op self.old.ports self.new.ports) }
        ensures counted { FaultsGrow self.old.ports self.new.ports }
        ensures cell { is_cell_op op ≡ true → IsOk result }
        ensures cells { is_cell_op op ≡ true → self.new ≡ record self.old { cells = self.new.cells } }
    {
        match op {
            Op::Load(array) => Ok(self.cells.word(place_of(array), first as usize)),
            Op::Store(array) => {
                self.cells.set(place_of(array), first as usize, second);
                Ok(0)
            }
            Op::Input => Ok(self.next_word()),
            Op::Output => {
                self.printed.push_reserved(first);
                Ok(0)
            }
            Op::Give(port) => match self.ports.give(port) {
                Ok(word) => Ok(word),
                Err(why) => Err(silent(port, why)),
            },
            Op::Take(port) => match self.ports.take(port, first) {
                Ok(()) => Ok(0),
                Err(why) => Err(silent(port, why)),
            },
            _ => Ok(0),
        }
    }

    /// What is left. Takes no memory.
    pub fn finish(self, alloc: Global) -> BufferEnd<P>
        ensures printed { result.printed ≡ self.printed.items }
        ensures arrays { result.arrays ≡ self.cells }
        ensures ports { contents P.tells result.ports ≡ self.ports }
        ensures open { AllOpen self.ports }
    {
        let mut words = self.printed;
        let mut printed = Words::empty(alloc);
        printed.exchange(&mut words);
        BufferEnd {
            printed,
            arrays: self.cells,
            ports: self.ports.into_slots(),
        }
    }

    // The next input word, or 0 where none is left.
    fn next_word(&mut self) -> u64
        ensures word { result ≡ head_or_zero (drop self.old.read self.old.input) }
        ensures rest { drop self.new.read self.new.input ≡ rest_of (drop self.old.read self.old.input) }
        ensures cells { self.new.cells ≡ self.old.cells }
        ensures printed { self.new.printed ≡ self.old.printed }
        ensures ports { self.new.ports ≡ self.old.ports }
    {
        if self.read >= self.input.len() {
            return 0;
        }
        let word = self.input.word(self.read);
        self.read += 1;
        word
    }
}

/// Zeros in all cells.
pub fn empty_cells(alloc: Global, arrays: &[ArrayDecl]) -> Result<Cells, NoMemory>
    ensures { IfOk result (λ cells. cells ≡ cells_of (map view.array arrays.now)) }
{
    let mut cells = Cells::empty(alloc);
    for array in arrays {
        cells.push(Words::zeros(alloc, array.length as usize)?)?;
    }
    Ok(cells)
}

// A port that doesn't answer.
fn silent(port: u8, why: PortError) -> Silent
    ensures { result ≡ silent_of port why }
{
    match why {
        PortError::Failed => Silent::Failed { port },
        PortError::NoMemory => Silent::NoMemory { port },
    }
}
