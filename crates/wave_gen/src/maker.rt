//! The code of a block, made from its end.

ghost use Rattle.std.specs.Prelude.{◌≡◌, ◌+◌, ℕ, OnOk, length, ltb, ◌&&◌, not, map};
ghost use Rattle.wave_gen.specs.Tables.{HasMade, listed, line_of};
ghost use Rattle.wave_gen.specs.Wire.{Made, most, emit, rest, gather, with_room, with_rooms};
ghost use Rattle.wave_gen.specs.Wire.{make, alias, copy, is_nil, Make, Act, wire_item, wire};
ghost use Rattle.ws_isa.specs.Image.{is_memory_op};
ghost use Rattle.wave_gen.specs.View as view;

use crate::plan::Item;
use crate::spot::{Line, Target};
use crate::table::Table;
use std::alloc::Global;
use ws_isa::Op;
use ws_words::NoMemory;

/// The end of a block's code, from the last instruction to the first, and what is wanted before it.
#[derive(Drop)]
pub(crate) struct Maker {
    pub(crate) block: usize,
    pub(crate) code: Vec<Line>,
    pub(crate) wants: Table,
}

/// The longest list.
const MOST: usize = 7;

impl Maker {
    /// Puts one more instruction before the others.
    pub(crate) fn rest(&mut self, alloc: Global, line: Line, from: &[usize]) -> Result<(), NoMemory>
        ensures { OnOk result ((b : ℕ) (s : Made) → HasMade b self.old s →
            HasMade b self.new (rest b (line_of line) from.now s)) }
    {
        let back = self.code.len();
        self.code.push(line)?;
        self.wants.add_uses(alloc, self.block, back, from)
    }

    /// Puts one more before the others, which makes the value of a name.
    pub(crate) fn emit(
        &mut self,
        alloc: Global,
        name: usize,
        op: Op,
        from: &[usize],
    ) -> Result<(), NoMemory>
        ensures { OnOk result ((b : ℕ) (s : Made) → HasMade b self.old s →
            HasMade b self.new (emit b name op from.now s)) }
    {
        let dests = self.wants.take(alloc, name);
        let others = Vec::new(alloc);
        self.rest(alloc, Line { op, dests, others }, from)
    }

    /// All that is wanted of a name goes to a merge first.
    pub(crate) fn gather(&mut self, alloc: Global, name: usize) -> Result<(), NoMemory>
        ensures { OnOk result ((b : ℕ) (s : Made) → HasMade b self.old s →
            HasMade b self.new (gather b name s)) }
    {
        self.emit(alloc, name, Op::Merge, &[name])
    }

    // Whether a name's list and so many more are too long for one list.
    fn is_full(&self, more: usize, name: usize) -> bool
        ensures { result ≡ ltb most (length (listed self.now.wants.lists.items name) + more) }
    {
        more > MOST || self.wants.list(name).len() > MOST - more
    }

    // So many more may be wanted of a name.
    fn make_room(&mut self, alloc: Global, more: usize, name: usize) -> Result<(), NoMemory>
        ensures { OnOk result ((b : ℕ) (s : Made) → HasMade b self.old s →
            HasMade b self.new (with_room b more name s)) }
    {
        if self.is_full(more, name) {
            self.gather(alloc, name)
        } else {
            Ok(())
        }
    }

    /// Each of these names may be wanted as often more as there are names.
    pub(crate) fn make_rooms(&mut self, alloc: Global, from: &[usize]) -> Result<(), NoMemory>
        ensures { OnOk result ((b : ℕ) (s : Made) → HasMade b self.old s →
            HasMade b self.new (with_rooms b (length from.now) from.now s)) }
    {
        for name in from {
            self.make_room(alloc, from.len(), *name)?;
        }
        Ok(())
    }

    /// The value of a name is made.
    pub(crate) fn make(
        &mut self,
        alloc: Global,
        name: usize,
        op: Op,
        from: &[usize],
    ) -> Result<(), NoMemory>
        ensures { OnOk result ((b : ℕ) (s : Made) → HasMade b self.old s →
            HasMade b self.new (make b name op from.now s)) }
    {
        self.make_rooms(alloc, from)?;
        self.emit(alloc, name, op, from)
    }

    /// A name takes the value of another one.
    pub(crate) fn alias(&mut self, alloc: Global, name: usize, other: usize) -> Result<(), NoMemory>
        ensures { OnOk result ((b : ℕ) (s : Made) → HasMade b self.old s →
            HasMade b self.new (alias b name other s)) }
    {
        if self.is_full(self.wants.list(other).len(), name) {
            self.gather(alloc, name)?;
            self.gather(alloc, other)?;
        }
        self.copy(alloc, name, other)
    }

    fn copy(&mut self, alloc: Global, name: usize, other: usize) -> Result<(), NoMemory>
        ensures { OnOk result ((b : ℕ) (s : Made) → HasMade b self.old s →
            HasMade b self.new (copy name other s)) }
    {
        if name == other {
            Ok(())
        } else {
            self.wants.give(alloc, name, other)
        }
    }

    // Whether the making of a value can be left out.
    fn is_idle(&self, name: usize, op: Op) -> bool
        ensures { result ≡ (is_nil (listed self.now.wants.lists.items name)
            && not (is_memory_op op)) }
    {
        is_none(self.wants.list(name)) && !op.is_memory()
    }

    /// The value of a name is made, unless it is wanted nowhere and making it does nothing else.
    pub(crate) fn wire_make(
        &mut self,
        alloc: Global,
        name: usize,
        op: Op,
        from: &[usize],
    ) -> Result<(), NoMemory>
        ensures { OnOk result ((b : ℕ) (s : Made) → HasMade b self.old s →
            HasMade b self.new (wire_item b (Make name op from.now) s)) }
    {
        if self.is_idle(name, op) {
            Ok(())
        } else {
            self.make(alloc, name, op, from)
        }
    }

    fn act(&mut self, alloc: Global, op: Op, from: &[usize]) -> Result<(), NoMemory>
        ensures { OnOk result ((b : ℕ) (s : Made) → HasMade b self.old s →
            HasMade b self.new (wire_item b (Act op from.now) s)) }
    {
        self.make_rooms(alloc, from)?;
        let dests = Vec::new(alloc);
        let others = Vec::new(alloc);
        self.rest(alloc, Line { op, dests, others }, from)
    }

    fn wire_item(&mut self, alloc: Global, item: &Item) -> Result<(), NoMemory>
        ensures { OnOk result ((b : ℕ) (s : Made) → HasMade b self.old s →
            HasMade b self.new (wire_item b (view.item item.now) s)) }
    {
        match item {
            Item::Make { name, op, from } => self.wire_make(alloc, *name, *op, from),
            Item::Act { op, from } => self.act(alloc, *op, from),
            Item::Same { name, other } => self.alias(alloc, *name, *other),
        }
    }

    /// Items, from the last to the first.
    pub(crate) fn wire(&mut self, alloc: Global, items: &[Item]) -> Result<(), NoMemory>
        ensures { OnOk result ((b : ℕ) (s : Made) → HasMade b self.old s →
            HasMade b self.new (wire b (map view.item items.now) s)) }
    {
        let mut left = items.len();
        while left > 0 {
            left -= 1;
            self.wire_item(alloc, &items[left])?;
        }
        Ok(())
    }
}

fn is_none(spots: &[Target]) -> bool
    ensures { result ≡ is_nil spots.now }
{
    match spots {
        [] => true,
        _ => false,
    }
}
