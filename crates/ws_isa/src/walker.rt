//! The state of a walk, and what its steps do to it.

ghost use Rattle.std.specs.Prelude.{◌≡◌, ◌≤◌, ◌<◌, ◌+◌, ◌*◌, ◌-◌, ◌^◌, ℕ, suc, true, false, [], ◌∷◌};
ghost use Rattle.std.specs.Prelude.{length, slice_index, slice_set, IfOk, OnOk, IfSome, MatchOption};
ghost use Rattle.ws_words.specs.Outside.{Outside, World};
ghost use Rattle.ws_words.specs.Memory.{OutIs};
ghost use Rattle.ws_isa.specs.Image.{instr_at, first_number, is_first, now_of, is_stop, landing_of, ports_of};
ghost use Rattle.ws_isa.specs.View as view;
ghost use Rattle.ws_isa.specs.Open.{Walkable};
ghost use Rattle.ws_isa.specs.Shows.{Resulted, looked, delivered, crossed, EdgeIs, image_of, block_in, At};
ghost use Rattle.ws_isa.specs.Shows.{AtStart, AtEnd, Ran, Left};

use crate::operations::perform;
use crate::program::BlockTable;
use crate::table::PortValues;
use crate::{Dest, Exit, Instr, Op};
use ws_words::{Memory, NoMemory};

/// The state of a walk: the values at ports and results, what is outside, how many instances have
/// fired, and the array of the first out-of-bounds access.
#[derive(Drop)]
pub struct Walker<'a> {
    pub table: PortValues,
    pub memory: Memory<'a>,
    pub fired: u64,
    pub fault: Option<u32>,
}

/// The edge that an exit takes: the number by which it chooses, and the place of the next block.
#[derive(Clone, Copy)]
pub struct Edge {
    pub choice: u64,
    pub next: usize,
}

impl<'a> Walker<'a> {
    /// Fires the instructions of the block at this place, and says whether all of them have fired;
    /// else as many instances as may fire have fired.
    pub fn run_block(
        &mut self,
        program: &BlockTable<'_>,
        place: usize,
        firings: u64,
    ) -> Result<bool, NoMemory>
        requires walks { Walkable (image_of program.now) }
        requires place { place < length program.now.blocks.now }
        requires left { self.old.fired ≤ firings }
        ensures within { OnOk result (self.new.fired ≤ firings) }
        ensures count { IfOk result (λ all. all ≡ true →
            self.new.fired ≡ self.old.fired + length (block_in program.now place).instrs) }
        ensures walk { IfOk result (λ all. (world : World) (t : ℕ) →
            AtStart (image_of program.now) world t (suc place) self.old →
            Ran (image_of program.now) world (suc place) firings all self.new) }
    {
        let first = program.first(place);
        for (i, instr) in program.block(place).instrs.iter().enumerate() {
            if self.fired == firings {
                return Ok(false);
            }
            self.fire(program, instr, first + i)?;
        }
        Ok(true)
    }

    // Fires the instruction with this number.
    fn fire(&mut self, program: &BlockTable<'_>, instr: &Instr, k: usize) -> Result<(), NoMemory>
        requires walks { Walkable (image_of program.now) }
        requires number { k < program.now.total }
        requires left { self.old.fired + 1 < 2 ^ 64 }
        ensures count { OnOk result (self.new.fired ≡ self.old.fired + 1) }
        ensures walk { OnOk result ((world : World) (t b : ℕ) →
            At (image_of program.now) world t b k self.old →
            k < first_number (image_of program.now) (suc b) →
            instr_at (image_of program.now) k ≡ view.instr instr.now →
            At (image_of program.now) world (suc t) b (suc k) self.new) }
    {
        let first = self.table.operands.word(4 * k);
        let second = self.table.operands.word(4 * k + 1);
        let third = self.third(instr.op, k);
        self.look(program, instr.op, first);
        let word = self.value(instr.op, first, second, third)?;
        self.send(instr, k, word);
        self.fired += 1;
        Ok(())
    }

    // The third operand of the instruction with this number, where its operation has one.
    fn third(&self, op: Op, k: usize) -> u64
        requires number { 4 * k + 2 < 2 ^ 64 }
        ensures { 2 < ports_of op → result ≡ slice_index self.now.table.operands (4 * k + 2) }
    {
        match op {
            Op::Phi => self.table.operands.word(4 * k + 2),
            _ => 0,
        }
    }

    // Keeps the result of the instruction with this number, and delivers it to its destinations if
    // it is sent at its turn.
    fn send(&mut self, instr: &Instr, k: usize, word: u64)
        ensures operands { self.new.table.operands ≡ delivered
            (now_of instr.now.op instr.now.dests.items) word self.old.table.operands }
        ensures results { self.new.table.results ≡ slice_set self.old.table.results k word }
        ensures memory { self.new.memory ≡ self.old.memory }
        ensures fired { self.new.fired ≡ self.old.fired }
        ensures fault { self.new.fault ≡ self.old.fault }
    {
        self.table.results.set(k, word);
        self.table.deliver(now_dests(instr), word);
    }

    // The result of an operation on its operands, which memory does if it is one of its own.
    fn value(&mut self, op: Op, first: u64, second: u64, third: u64) -> Result<u64, NoMemory>
        ensures result { IfOk result (λ word. (o : Outside) → OutIs o self.old.memory →
            Resulted op (first ∷ second ∷ third ∷ []) o word self.new.memory) }
        ensures table { self.new.table ≡ self.old.table }
        ensures fired { self.new.fired ≡ self.old.fired }
        ensures fault { self.new.fault ≡ self.old.fault }
    {
        if op.is_memory() {
            let word = perform(&mut self.memory, op, first, second)?;
            Ok(word)
        } else {
            Ok(op.result_on(first, second, third))
        }
    }

    // Keeps the array of the first out-of-bounds access.
    fn look(&mut self, program: &BlockTable<'_>, op: Op, index: u64)
        ensures table { self.new.table ≡ self.old.table }
        ensures memory { self.new.memory ≡ self.old.memory }
        ensures fired { self.new.fired ≡ self.old.fired }
        ensures fault { self.new.fault ≡
            looked (image_of program.now).arrays op (index ∷ []) self.old.fault }
    {
        let array = match op {
            Op::Load(array) => array,
            Op::Store(array) => array,
            _ => return,
        };
        if self.fault.is_none() && index >= program.length_of(array) {
            self.fault = Some(array);
        }
    }

    /// Leaves the block at this place: the place of the next one, if there is one.
    pub fn leave(&mut self, program: &BlockTable<'_>, place: usize) -> Option<usize>
        requires walks { Walkable (image_of program.now) }
        requires place { place < length program.now.blocks.now }
        ensures fired { self.new.fired ≡ self.old.fired }
        ensures inside { IfSome result (λ next. next < length program.now.blocks.now) }
        ensures ahead { IfSome result (λ next. is_first (image_of program.now) (suc next) ≡ false →
            place < next) }
        ensures walk { (world : World) (t : ℕ) →
            AtEnd (image_of program.now) world t (suc place) self.old →
            Left (image_of program.now) world result self.new }
    {
        match self.edge(&program.block(place).exit) {
            Some(edge) => {
                self.cross(program, place, edge.choice, edge.next);
                Some(edge.next)
            }
            None => None,
        }
    }

    // The edge that an exit takes; none where it is a stop.
    fn edge(&self, exit: &Exit) -> Option<Edge>
        ensures { MatchOption result (is_stop (view.exit exit.now) ≡ true)
            (EdgeIs (view.exit exit.now) self.now.table.results) }
    {
        match exit {
            Exit::Goto(c) => Some(Edge {
                choice: 0,
                next: place_of(*c),
            }),
            Exit::Branch(s, b, c) => {
                let choice = self.table.results.word(*s as usize);
                let next = place_of(if choice == 0 { *c } else { *b });
                Some(Edge { choice, next })
            }
            Exit::Send(s, landings) => {
                let choice = self.table.results.word(*s as usize);
                let next = place_of(landing(landings, choice));
                Some(Edge { choice, next })
            }
            Exit::Stop => None,
        }
    }

    // Delivers what the block at this place sends along the edge to another. No steer and no send
    // stands in a block that ends by a `Goto`.
    fn cross(&mut self, program: &BlockTable<'_>, place: usize, choice: u64, next: usize)
        requires walks { Walkable (image_of program.now) }
        requires place { place < length program.now.blocks.now }
        requires next { next < length program.now.blocks.now }
        ensures operands { self.new.table.operands ≡
            crossed (block_in program.now next).pads choice (block_in program.now place).instrs
            (first_number (image_of program.now) (suc place))
            self.old.table.results self.old.table.operands }
        ensures results { self.new.table.results ≡ self.old.table.results }
        ensures memory { self.new.memory ≡ self.old.memory }
        ensures fired { self.new.fired ≡ self.old.fired }
        ensures fault { self.new.fault ≡ self.old.fault }
    {
        let block = program.block(place);
        if let Exit::Goto(_) = block.exit {
            return;
        }
        let pads = &program.block(next).pads;
        self.table
            .cross(&block.instrs, program.first(place), choice, pads);
    }
}

// The place of a block by its number from 1.
fn place_of(block: u32) -> usize
    ensures { result ≡ block - 1 }
{
    (block as usize).saturating_sub(1)
}

// The landing whose place is the address, and the last one if there is none.
fn landing(landings: &[u32], address: u64) -> u32
    ensures { result ≡ landing_of landings.now address }
{
    let last = landings.len().saturating_sub(1);
    let place = (address as usize).min(last);
    landings.get(place).copied().unwrap_or(0)
}

// The destinations to which an instruction sends at its turn.
fn now_dests(instr: &Instr) -> &[Dest]
    ensures { result.now ≡ now_of instr.now.op instr.now.dests.items }
{
    match instr.op {
        Op::Steer => &[],
        Op::Send(_) => &[],
        _ => &instr.dests,
    }
}
