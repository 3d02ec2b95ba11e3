//! What is known where a run ends.

ghost use Rattle.std.specs.Prelude.{◌≡◌, List, [], None, Option, Some, length};
ghost use Rattle.ws_isa.specs.Image.{Token as Plain};
ghost use Rattle.df_core.specs.Rights.{IsRight};
ghost use Rattle.match_table.specs.Tables.{held, part};
ghost use Rattle.port_set.specs.Ports.{Told};
ghost use Rattle.store_buf.specs.Outdoors.{began_of};
ghost use Rattle.store_buf.specs.Ended.{PortFailed, RunWhole, Spent, Starved, Tripped};
ghost use Rattle.part_store.specs.Runs.{Paid, GoesOn};

use crate::part::PartBuffer;
use df_core::{Code, Job};
use match_table::Table;
use port_set::Port;
use store_buf::told_ports_begin;

/// If a table and a buffer have no outstanding tokens, the whole walk has been run.
pub fn whole_run<J: Job, P: Port>(code: &Code<'_, J>, table: &Table<J>, buffer: &PartBuffer<J, P>)
    requires going { GoesOn buffer.now }
    requires paid { Paid J.image (part table.now) buffer.now [] }
    ensures { (handed : List (Option Told)) → J.began ≡ began_of handed →
        RunWhole J.image J.world handed buffer.now.outside.printed buffer.now.outside.cells
        (length table.now.fired) buffer.now.outside.ports }
{
    table.facts();
    buffer.facts();
    code.facts();
}

/// Where a token hasn't come the walk has more instances than have fired.
pub fn spent_run<J: Job, P: Port>(code: &Code<'_, J>, table: &Table<J>, buffer: &PartBuffer<J, P>)
    requires missing { (x : Plain) × IsRight J.image J.world x
        × (held table.now x.wave x.instr x.port ≡ None) }
    ensures { (handed : List (Option Told)) → J.began ≡ began_of handed →
        Spent J.image J.world handed (length table.now.fired) buffer.now.outside.printed
        buffer.now.outside.ports }
{
    table.facts();
    buffer.facts();
    code.facts();
}

/// Where the chain is stopped it is so at the walk's first out-of-bounds load or store.
pub fn fault_run<J: Job, P: Port>(code: &Code<'_, J>, buffer: &PartBuffer<J, P>, array: u32)
    requires fault { buffer.now.fault ≡ Some array }
    ensures { (handed : List (Option Told)) → J.began ≡ began_of handed →
        Tripped J.image J.world handed array buffer.now.outside.printed buffer.now.outside.cells
        buffer.now.outside.ports }
{
    buffer.facts();
    code.facts();
}

/// Where a port has failed the walk's next operation is on it.
pub fn port_run<J: Job, P: Port>(code: &Code<'_, J>, buffer: &PartBuffer<J, P>, port: u8)
    requires failed { buffer.now.failed ≡ Some port }
    ensures { (handed : List (Option Told)) → J.began ≡ began_of handed →
        PortFailed J.image J.world handed port buffer.now.outside.printed
        buffer.now.outside.ports }
{
    buffer.facts();
    code.facts();
    told_ports_begin();
}

/// What is outside is at all times what the walk leaves with its first operations, none of them past
/// the end.
pub fn front_run<J: Job, P: Port>(buffer: &PartBuffer<J, P>)
    ensures { (handed : List (Option Told)) → J.began ≡ began_of handed →
        Starved J.image J.world handed buffer.now.outside.ports }
{
    buffer.facts();
}
