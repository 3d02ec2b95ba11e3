//! What a run has outside: cells, input, ports.

ghost use Rattle.std.specs.Prelude.{◌≡◌, ◌+◌, ℕ, suc, [], ◌∷◌, ◌++◌, map};
ghost use Rattle.std.specs.Prelude.{IfOk, OnOk, OnErr, IsOk};
ghost use Rattle.ws_words.specs.Outside.{Outside, opening_out, with_act, takes, row};
ghost use Rattle.ws_words.specs.Outside.{with_row};
ghost use Rattle.ws_words.specs.Plain.{took_by_ports, world_of};
ghost use Rattle.ws_isa.specs.Image.{cells_of};
ghost use Rattle.ws_isa.specs.View as view;
ghost use Rattle.df_core.specs.Outdoors.{CarriesOut, Space, HasSpace, rows_of, SameOut, MemoryIs};

use std::alloc::Global;
use std::mem::replace;
use ws_isa::{ArrayDecl, Op};
use ws_words::{Cells, NoMemory, PORTS, Tape, Words, World, next_of, place_of, tapes};

/// What a run has outside. Of its acts it keeps the words that ports took, and those that were
/// printed, but for the first `gone`, which were taken.
#[derive(Drop)]
pub struct Memory<'a> {
    pub cells: Cells,
    pub input: Tape<'a>,
    pub left: Vec<Tape<'a>>,
    pub printed: Vec<u64>,
    pub gone: usize,
    pub took: Vec<Vec<u64>>,
}

impl<'a> Memory<'a> {
    /// Before the first step: zeros in all cells, and the world's words.
    pub fn open(
        alloc: Global,
        arrays: &[ArrayDecl],
        world: &'a World,
    ) -> Result<Memory<'a>, NoMemory>
        ensures memory { IfOk result (MemoryIs
            (opening_out (cells_of (map view.array arrays.now)) (world_of world.now))) }
        ensures gone { IfOk result (λ memory. memory.gone ≡ 0) }
    {
        Ok(Memory {
            cells: empty_cells(alloc, arrays)?,
            input: Tape::new(world.input.as_slice()),
            left: tapes(alloc, &world.left)?,
            printed: Vec::new(alloc),
            gone: 0,
            took: no_words(alloc)?,
        })
    }

    /// Makes room for so many more words printed, and taken by each port.
    pub fn reserve(&mut self, more: usize) -> Result<(), NoMemory>
        ensures space { OnOk result (Space self.new more) }
        ensures same { SameOut self.old self.new }
        ensures kept { (n : ℕ) → Space self.old n → Space self.new n }
        ensures succeeds { Space self.old more → IsOk result }
    {
        self.printed.reserve(more)?;
        reserve_rows(&mut self.took, more)
    }

    /// Does a memory operation on its operands, and gives its answer; 0 where it has none. Others
    /// do nothing.
    pub fn run(&mut self, op: Op, first: u64, second: u64) -> u64
        requires { Space self.old 1 }
        ensures answer { (o : Outside) (third : ℕ) → MemoryIs o self.old →
            CarriesOut op (first ∷ second ∷ third ∷ []) o result self.new }
        ensures gone { self.new.gone ≡ self.old.gone }
        ensures space { (n : ℕ) → Space self.old (suc n) → Space self.new n }
    {
        match op {
            Op::Load(array) => self.cells.word(place_of(array), first as usize),
            Op::Store(array) => {
                self.cells.set(place_of(array), first as usize, second);
                0
            }
            Op::Input => self.input.next(),
            Op::Output => {
                self.printed.push_reserved(first);
                0
            }
            Op::Give(port) => next_of(&mut self.left, (port as usize).saturating_sub(1)),
            Op::Take(port) => {
                self.take(port, first);
                0
            }
            _ => 0,
        }
    }

    /// Takes the printed words that are kept, and counts them as gone. If they are too many to be
    /// counted, nothing changes.
    pub fn take_printed(&mut self, alloc: Global) -> Result<Vec<u64>, NoMemory>
        ensures taken { IfOk result (λ words. words.items ≡ self.old.printed.items) }
        ensures same { (o : Outside) → MemoryIs o self.old → MemoryIs o self.new }
        ensures none { OnOk result (self.new.printed.items ≡ []) }
        ensures cells { self.new.cells ≡ self.old.cells }
        ensures took { self.new.took ≡ self.old.took }
        ensures kept { OnErr result (self.new ≡ self.old) }
    {
        match self.gone.checked_add(self.printed.len()) {
            Some(gone) => {
                self.gone = gone;
                Ok(replace(&mut self.printed, Vec::new(alloc)))
            }
            None => Err(NoMemory),
        }
    }

    // A port takes a word.
    fn take(&mut self, port: u8, word: u64)
        requires { Space self.old 1 }
        ensures taken { (o : Outside) → MemoryIs o self.old →
            MemoryIs (with_act o (takes port word)) self.new }
        ensures gone { self.new.gone ≡ self.old.gone }
        ensures space { (n : ℕ) → Space self.old (suc n) → Space self.new n }
    {
        if port > 0 {
            add_word(&mut self.took, (port - 1) as usize, word);
        }
    }
}

// Puts a word behind the others of a row; out of bounds nothing changes.
fn add_word(rows: &mut Vec<Vec<u64>>, place: usize, word: u64)
    requires { HasSpace rows.old.items 1 }
    ensures rows { let before = rows_of rows.old.items in
        rows_of rows.new.items ≡ with_row before place (row before place ++ word ∷ []) }
    ensures space { (n : ℕ) → HasSpace rows.old.items (suc n) → HasSpace rows.new.items n }
{
    if place < rows.len() {
        rows[place].push_reserved(word);
    }
}

// Makes room for so many more words in each row.
fn reserve_rows(rows: &mut Vec<Vec<u64>>, more: usize) -> Result<(), NoMemory>
    ensures space { OnOk result (HasSpace rows.new.items more) }
    ensures same { rows_of rows.new.items ≡ rows_of rows.old.items }
    ensures kept { (n : ℕ) → HasSpace rows.old.items n → HasSpace rows.new.items n }
    ensures succeeds { HasSpace rows.old.items more → IsOk result }
{
    for place in 0..rows.len() {
        rows[place].reserve(more)?;
    }
    Ok(())
}

fn empty_cells(alloc: Global, arrays: &[ArrayDecl]) -> Result<Cells, NoMemory>
    ensures { IfOk result (λ cells. cells ≡ cells_of (map view.array arrays.now)) }
{
    let mut cells = Cells::empty(alloc);
    for array in arrays {
        cells.push(Words::zeros(alloc, array.length as usize)?)?;
    }
    Ok(cells)
}

// No words for each of the ports.
fn no_words(alloc: Global) -> Result<Vec<Vec<u64>>, NoMemory>
    ensures { IfOk result (λ took. rows_of took.items ≡ took_by_ports []) }
{
    let mut took = Vec::new(alloc);
    for _ in 0..PORTS {
        took.push(Vec::new(alloc))?;
    }
    Ok(took)
}
