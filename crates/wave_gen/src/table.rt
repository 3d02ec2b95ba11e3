//! What is wanted, by name.

ghost use Rattle.std.specs.Prelude.{◌≡◌, ◌∷◌, ◌<◌, [], OnOk, length};
ghost use Rattle.wave_gen.specs.Tables.{listed};
ghost use Rattle.wave_gen.specs.Wire.{Wants, no_wants, with_wants, with_uses, moved};

use crate::spot::{Target, Targets};
use std::alloc::Global;
use std::mem;
use ws_words::NoMemory;

/// The lists of spots by name. Names beyond the last list want nothing.
#[derive(Drop)]
pub(crate) struct Table {
    pub(crate) lists: Vec<Targets>,
}

impl Table {
    pub(crate) fn new(alloc: Global) -> Table
        ensures { ◌≡◌ {A = Wants} (listed result.lists.items) no_wants }
    {
        Table {
            lists: Vec::new(alloc),
        }
    }

    pub(crate) fn list(&self, name: usize) -> &[Target]
        ensures { result.now ≡ listed self.now.lists.items name }
    {
        if name < self.lists.len() {
            &self.lists[name]
        } else {
            &[]
        }
    }

    // Room for the names up to this one.
    fn reach(&mut self, alloc: Global, name: usize) -> Result<(), NoMemory>
        ensures room { OnOk result (name < length self.new.lists.items) }
        ensures wants { ◌≡◌ {A = Wants} (listed self.new.lists.items)
            (listed self.old.lists.items) }
    {
        while self.lists.len() <= name {
            self.lists.push(Vec::new(alloc))?;
        }
        Ok(())
    }

    /// All that a name wants; it is wanted nowhere then.
    pub(crate) fn take(&mut self, alloc: Global, name: usize) -> Targets
        ensures list { result.items ≡ listed self.old.lists.items name }
        ensures wants { ◌≡◌ {A = Wants} (listed self.new.lists.items)
            (with_wants (listed self.old.lists.items) name []) }
    {
        if name < self.lists.len() {
            mem::replace(&mut self.lists[name], Vec::new(alloc))
        } else {
            Vec::new(alloc)
        }
    }

    pub(crate) fn put(&mut self, alloc: Global, name: usize, list: Targets) -> Result<(), NoMemory>
        ensures { OnOk result (◌≡◌ {A = Wants} (listed self.new.lists.items)
            (with_wants (listed self.old.lists.items) name list.items)) }
    {
        self.reach(alloc, name)?;
        self.lists[name] = list;
        Ok(())
    }

    pub(crate) fn add(&mut self, alloc: Global, name: usize, spot: Target) -> Result<(), NoMemory>
        ensures { OnOk result (◌≡◌ {A = Wants} (listed self.new.lists.items)
            (with_wants (listed self.old.lists.items) name
            (spot ∷ listed self.old.lists.items name))) }
    {
        let mut list = self.take(alloc, name);
        list.insert(0, spot)?;
        self.put(alloc, name, list)
    }

    /// The ports of an instruction are wanted by these names.
    pub(crate) fn add_uses(
        &mut self,
        alloc: Global,
        block: usize,
        back: usize,
        from: &[usize],
    ) -> Result<(), NoMemory>
        ensures { OnOk result (◌≡◌ {A = Wants} (listed self.new.lists.items)
            (with_uses block back 0 from.now (listed self.old.lists.items))) }
    {
        for (port, name) in from.iter().enumerate() {
            self.add(alloc, *name, Target::Back(block, back, port))?;
        }
        Ok(())
    }

    /// What a name wants, another one wants now.
    pub(crate) fn give(&mut self, alloc: Global, name: usize, other: usize) -> Result<(), NoMemory>
        requires { name ≡ other → ⊥ }
        ensures { OnOk result (◌≡◌ {A = Wants} (listed self.new.lists.items)
            (moved name other (listed self.old.lists.items))) }
    {
        let mut list = self.take(alloc, name);
        list.extend_from_slice(self.list(other))?;
        self.put(alloc, other, list)
    }
}
