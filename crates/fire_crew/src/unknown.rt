//! Requests that a buffer doesn't know.

ghost use Rattle.std.specs.Prelude.{◌≡◌, ◌<◌, [], All, OnOk, IfOk, length, slice_index_or};
ghost use Rattle.df_core.specs.Core.{Key};
ghost use Rattle.match_table.specs.Tables.{of_memory};
ghost use Rattle.match_table.specs.Together.{part_of};
ghost use Rattle.fire_crew.specs.Owing.{AllKnown, IsKnown};

use df_core::{Code, Job, Request};
use match_table::{Table, Tables, count_of, table_at};
use port_set::Port;
use std::alloc::Global;
use store_buf::{Buffer, MemoryOrder};
use ws_words::NoMemory;

/// The requests of instances that have fired and that the buffer doesn't know.
pub fn unknown<J: Job, P: Port>(
    alloc: Global,
    code: &Code<'_, J>,
    tables: &Tables<J>,
    buffer: &Buffer<J, P>,
) -> Result<Vec<Request<J>>, NoMemory>
    ensures { IfOk result (λ requests. requests.items ≡ []
        → AllKnown J.image (part_of tables.now) buffer.now.kept) }
{
    let mut requests = Vec::new(alloc);
    for number in 0..count_of(tables) {
        note_all_unknown(code, table_at(tables, number), buffer, &mut requests)?;
    }
    Ok(requests)
}

// Those of one table.
fn note_all_unknown<J: Job, P: Port>(
    code: &Code<'_, J>,
    table: &Table<J>,
    buffer: &Buffer<J, P>,
    requests: &mut Vec<Request<J>>,
) -> Result<(), NoMemory>
    ensures { OnOk result (requests.new.items ≡ [] → (requests.old.items ≡ [])
        × All (IsKnown buffer.now.kept) (of_memory J.image table.now.fired)) }
{
    for place in 0..table.asked_count() {
        note_unknown(code, table, place, buffer, requests)?;
    }
    Ok(())
}

// That of the instance of memory that fired at this place of a table's list of those.
fn note_unknown<J: Job, P: Port>(
    code: &Code<'_, J>,
    table: &Table<J>,
    place: usize,
    buffer: &Buffer<J, P>,
    requests: &mut Vec<Request<J>>,
) -> Result<(), NoMemory>
    requires { place < length (of_memory J.image table.now.fired) }
    ensures { OnOk result (requests.new.items ≡ [] → (requests.old.items ≡ []) × ((d : Key)
        → IsKnown buffer.now.kept (slice_index_or (of_memory J.image table.now.fired) place d))) }
{
    let (wave, instr) = table.asked_key_at(place);
    if buffer.knows(wave, instr) {
        return Ok(());
    }
    table.facts();
    code.facts();
    let fired = table.asked_at(code, place);
    let first = fired.operands.first();
    let second = fired.operands.second();
    requests.push(Request::right(fired.wave, fired.instr, first, second))?;
    Ok(())
}
