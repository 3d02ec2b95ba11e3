//! The tables of a walk: the numbers of first instructions, and boards and tables that are blank or
//! lose what they held.

ghost use Rattle.std.specs.Prelude.{◌≡◌, ◌^◌, ◌<◌, ◌≤◌, ℕ, length, IfOk, false, Some, None};
ghost use Rattle.ws_isa.specs.View as view;
ghost use Rattle.ws_isa.specs.Formed.{Formed};
ghost use Rattle.annot_check.specs.declared.trace.Entry.{Entry};
ghost use Rattle.annot_check.specs.Open.{OpenOk};
ghost use Rattle.annot_check.specs.Table.{entry_at, HasNumber, StartsOf};
ghost use Rattle.ws_words.specs.Items.{flag_at};

use crate::open::Open;
use crate::read::block;
use crate::sets::Sets;
use crate::trace::Entry;
use std::alloc::Global;
use ws_isa::Image;
use ws_words::NoMemory;

// How many bits the keys below this size have, rounded up.
fn depth_of(size: usize) -> u32
    requires { size < 2 ^ 30 }
    ensures room { size ≤ 2 ^ result }
    ensures low { result < 32 }
{
    if size <= 1 << 10 {
        10
    } else if size <= 1 << 15 {
        15
    } else if size <= 1 << 20 {
        20
    } else if size <= 1 << 25 {
        25
    } else {
        30
    }
}

/// The numbers of the first instructions of blocks, that behind the last block too.
pub fn first_numbers(alloc: Global, image: &Image) -> Result<Vec<u32>, NoMemory>
    requires { Formed (view.image image.now) }
    ensures { IfOk result (λ starts. StartsOf (view.image image.now) starts.items) }
{
    let mut starts = Vec::new(alloc);
    starts.push(1)?;
    let mut number = 1;
    for block in &image.blocks {
        starts.push(number)?;
        number += block.instrs.len() as u32;
    }
    starts.push(number)?;
    Ok(starts)
}

pub fn blank_board(alloc: Global, size: usize) -> Result<Vec<bool>, NoMemory>
    ensures size { IfOk result (λ board. length board.items ≡ size) }
    ensures blank { IfOk result (λ board. (key : ℕ) → flag_at board.items key ≡ false) }
{
    let mut board = Vec::new(alloc);
    for _ in 0..size {
        board.push(false)?;
    }
    Ok(board)
}

pub(crate) fn blank_table(alloc: Global, size: usize) -> Result<Vec<Option<Entry>>, NoMemory>
    ensures size { IfOk result (λ table. length table.items ≡ size) }
    ensures blank { IfOk result (λ table. (b : ℕ) → entry_at table.items b ≡ None) }
{
    let mut table = Vec::new(alloc);
    for _ in 0..size {
        table.push(None)?;
    }
    Ok(table)
}

// No slot is open.
pub(crate) fn none_held(alloc: Global, size: usize) -> Result<Open, NoMemory>
    requires { size < 2 ^ 30 }
    ensures ok { IfOk result (λ held. OpenOk held) }
    ensures size { IfOk result (λ held. length held.board.items ≡ size) }
    ensures shut { IfOk result (λ held. held.low ≡ held.high) }
    ensures blank { IfOk result (λ held. held.set ≡ 0) }
{
    Ok(Open {
        sets: Sets::new(alloc)?,
        depth: depth_of(size),
        set: 0,
        board: blank_board(alloc, size)?,
        low: 0,
        high: 0,
    })
}

// A block leaves the table.
fn forget(table: &mut Vec<Option<Entry>>, number: u32)
    ensures size { length table.new.items ≡ length table.old.items }
    ensures kept { (b : ℕ) (e : Entry) → entry_at table.new.items b ≡ Some e →
        (entry_at table.old.items b ≡ Some e) × (b ≡ number → ⊥) }
{
    if let Some(entry) = table.get_mut(number as usize) {
        *entry = None;
    }
}

// These blocks leave the table.
pub(crate) fn forget_all(table: &mut Vec<Option<Entry>>, numbers: &[u32])
    ensures size { length table.new.items ≡ length table.old.items }
    ensures kept { (b : ℕ) (e : Entry) → entry_at table.new.items b ≡ Some e →
        (entry_at table.old.items b ≡ Some e) × (HasNumber numbers.now b → ⊥) }
{
    for number in numbers {
        forget(table, *number);
    }
}
