//! The slots of a block's advances, opened on none.

ghost use Rattle.std.specs.Prelude.{◌≡◌, ◌+◌, ◌*◌, ◌<◌, ◌≤◌, length, map, IfOk, OnOk};
ghost use Rattle.ws_isa.specs.View as view;
ghost use Rattle.ws_isa.specs.Sound.{none_open, all_opened};
ghost use Rattle.annot_check.specs.Runs.{advance_list};
ghost use Rattle.annot_check.specs.Open.{look, slots_in, nodes_of, OpenOk, Moved};

use crate::open::Open;
use crate::read::block;
use ws_isa::{Dest, Instr};
use ws_words::NoMemory;

// The slots of the advances, opened on none.
fn open_advances(held: &mut Open, instrs: &[Instr], first: u32) -> Result<(), NoMemory>
    requires ok { OpenOk held.now }
    requires on { 4 * (first + length instrs.now) + 4 ≤ length held.now.board.items }
    requires shut { held.now.low ≡ held.now.high }
    requires blank { look held.now ≡ none_open }
    ensures ok { OnOk result (OpenOk held.new) }
    ensures moved { OnOk result (Moved held.old held.new) }
    ensures low { held.new.low ≡ held.old.low }
    ensures opened { OnOk result (look held.new ≡ all_opened (advance_list
        (map view.instr instrs.now) first) none_open) }
{
    let mut number = first;
    for instr in instrs {
        if instr.op.is_advance() {
            held.open(Dest {
                instr: number,
                port: 0,
            })?;
        }
        number += 1;
    }
    Ok(())
}

// The set of the slots of a block's advances.
pub(crate) fn advance_set(held: &mut Open, instrs: &[Instr], first: u32) -> Result<u32, NoMemory>
    requires ok { OpenOk held.now }
    requires on { 4 * (first + length instrs.now) + 4 ≤ length held.now.board.items }
    requires shut { held.now.low ≡ held.now.high }
    ensures ok { OnOk result (OpenOk held.new) }
    ensures moved { OnOk result (Moved held.old held.new) }
    ensures low { held.new.low ≡ held.old.low }
    ensures set { OnOk result (held.new.set ≡ held.old.set) }
    ensures there { IfOk result (λ set. set < length (nodes_of held.new)) }
    ensures advances { IfOk result (λ set. slots_in (nodes_of held.new) held.new.depth set ≡
        all_opened (advance_list (map view.instr instrs.now) first) none_open) }
{
    let saved = held.set;
    held.set = 0;
    open_advances(held, instrs, first)?;
    let set = held.set;
    held.set = saved;
    Ok(set)
}
