//! What is kept of a block that is made.

ghost use Rattle.std.specs.Prelude.{◌≡◌, ◌++◌, OnOk, IfOk};
ghost use Rattle.wave_gen.specs.Wire.{Wants};
ghost use Rattle.wave_gen.specs.Tables.{listed};
ghost use Rattle.wave_gen.specs.Kept.{wanted, wants_of};

use crate::spot::{Line, Target};
use crate::table::Table;
use std::alloc::Global;
use ws_words::NoMemory;

/// A place where a name is wanted.
#[derive(Clone, Copy)]
pub(crate) struct Want {
    pub(crate) name: usize,
    pub(crate) spot: Target,
}

pub(crate) type WantList = Vec<Want>;

/// A block that is made: its instructions from the last to the first, how many stand behind the
/// one by which its edge is chosen, and what is wanted at its start.
#[derive(Drop)]
pub(crate) struct Kept {
    pub(crate) code: Vec<Line>,
    pub(crate) behind: usize,
    pub(crate) wants: WantList,
}

/// All that a table's names want.
pub(crate) fn keep(alloc: Global, table: &Table) -> Result<WantList, NoMemory>
    ensures { IfOk result (λ wants. ◌≡◌ {A = Wants} (wanted wants.items)
        (listed table.now.lists.items)) }
{
    let mut wants = Vec::new(alloc);
    for name in 0..table.lists.len() {
        keep_list(&mut wants, name, table.list(name))?;
    }
    Ok(wants)
}

fn keep_list(wants: &mut WantList, name: usize, spots: &[Target]) -> Result<(), NoMemory>
    ensures { OnOk result (wants.new.items ≡ wants.old.items ++ wants_of name spots.now) }
{
    for spot in spots {
        wants.push(Want { name, spot: *spot })?;
    }
    Ok(())
}

/// The table of what was kept.
pub(crate) fn load(alloc: Global, wants: &[Want]) -> Result<Table, NoMemory>
    ensures { IfOk result (λ table. ◌≡◌ {A = Wants} (listed table.lists.items)
        (wanted wants.now)) }
{
    let mut table = Table::new(alloc);
    let mut left = wants.len();
    while left > 0 {
        left -= 1;
        let want = wants[left];
        table.add(alloc, want.name, want.spot)?;
    }
    Ok(table)
}
