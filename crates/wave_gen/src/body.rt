//! The items of a block so far.

ghost use Rattle.std.specs.Prelude.{◌≡◌, ◌++◌, ◌∷◌, [], suc, map, IfOk, OnOk};
ghost use Rattle.wave_gen.specs.Wire as wire;
ghost use Rattle.wave_gen.specs.View as plans;

use crate::plan::{Item, Items, Names};
use std::alloc::Global;
use ws_isa::Op;
use ws_words::NoMemory;

/// Items, and the next free name.
#[derive(Drop)]
pub(crate) struct Body {
    pub(crate) items: Items,
    pub(crate) next: usize,
}

/// A list of these names.
pub(crate) fn names(alloc: Global, from: &[usize]) -> Result<Names, NoMemory>
    ensures { IfOk result (λ made. made.items ≡ from.now) }
{
    let made = Vec::from_slice(alloc, from)?;
    Ok(made)
}

impl Body {
    /// Takes the next free name.
    pub(crate) fn fresh(&mut self) -> Result<usize, NoMemory>
        ensures name { IfOk result (λ name. name ≡ self.old.next) }
        ensures next { OnOk result (self.new.next ≡ suc self.old.next) }
        ensures items { self.new.items.items ≡ self.old.items.items }
    {
        let name = self.next;
        match name.checked_add(1) {
            Some(next) => {
                self.next = next;
                Ok(name)
            }
            None => Err(NoMemory),
        }
    }

    /// One more item that makes this name's value.
    pub(crate) fn make(
        &mut self,
        alloc: Global,
        name: usize,
        op: Op,
        from: &[usize],
    ) -> Result<(), NoMemory>
        ensures items { OnOk result (map plans.item self.new.items.items ≡
            map plans.item self.old.items.items ++ wire.Make name op from.now ∷ []) }
        ensures next { self.new.next ≡ self.old.next }
    {
        let from = names(alloc, from)?;
        self.items.push(Item::Make { name, op, from })?;
        Ok(())
    }

    /// One more item that makes the value of the next free name.
    pub(crate) fn value(&mut self, alloc: Global, op: Op, from: &[usize]) -> Result<usize, NoMemory>
        ensures items { OnOk result (map plans.item self.new.items.items ≡
            map plans.item self.old.items.items ++ wire.Make self.old.next op from.now ∷ []) }
        ensures name { IfOk result (λ name. name ≡ self.old.next) }
        ensures next { OnOk result (self.new.next ≡ suc self.old.next) }
    {
        let name = self.fresh()?;
        self.make(alloc, name, op, from)?;
        Ok(name)
    }

    /// One more item without a result.
    pub(crate) fn act(&mut self, alloc: Global, op: Op, from: &[usize]) -> Result<(), NoMemory>
        ensures items { OnOk result (map plans.item self.new.items.items ≡
            map plans.item self.old.items.items ++ wire.Act op from.now ∷ []) }
        ensures next { self.new.next ≡ self.old.next }
    {
        let from = names(alloc, from)?;
        self.items.push(Item::Act { op, from })?;
        Ok(())
    }

    /// One more item by which a name takes the value of another.
    pub(crate) fn same(&mut self, name: usize, other: usize) -> Result<(), NoMemory>
        ensures items { OnOk result (map plans.item self.new.items.items ≡
            map plans.item self.old.items.items ++ wire.Same name other ∷ []) }
        ensures next { self.new.next ≡ self.old.next }
    {
        self.items.push(Item::Same { name, other })?;
        Ok(())
    }
}
