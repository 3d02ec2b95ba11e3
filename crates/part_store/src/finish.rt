//! What a run over a table and a buffer with queues answers.

ghost use Rattle.std.specs.Prelude.{◌≡◌, ◌≤◌, List, [], None, Option, length};
ghost use Rattle.ws_isa.specs.Image.{Token as Plain};
ghost use Rattle.df_core.specs.Rights.{IsRight};
ghost use Rattle.match_table.specs.Tables.{held, part};
ghost use Rattle.port_set.specs.Ports.{Told};
ghost use Rattle.port_set.specs.Slots.{AllOpen, contents};
ghost use Rattle.store_buf.specs.Outdoors.{began_of};
ghost use Rattle.store_buf.specs.Answer.{RunTells};
ghost use Rattle.part_store.specs.Runs.{Paid, PartEndingSo, GoesOn};

use crate::ends::{fault_run, front_run, port_run, spent_run, whole_run};
use crate::part::PartBuffer;
use df_core::{Code, Job};
use match_table::Table;
use port_set::Port;
use store_buf::{BufFault, RunEnd, RunFinish};

/// Why a run goes no further. `Whole`: nothing is in flight. `Spent`: as many instances have fired as
/// may, and a token is in flight. `Stopped`: the buffer takes no more, or memory ran out.
#[derive(Clone, Copy, Debug, PartialEq, Eq)]
pub enum Ending {
    Whole,
    Spent,
    Stopped,
}

/// What a run answers that has ended so.
pub fn finish<J: Job, P: Port>(
    code: &Code<'_, J>,
    table: Table<J>,
    buffer: PartBuffer<J, P>,
    ending: Ending,
    budget: u64,
) -> RunEnd<P>
    requires within { length table.fired ≤ budget }
    requires ended { PartEndingSo J.image J.world budget table buffer ending }
    ensures tells { (handed : List (Option Told)) → J.began ≡ began_of handed →
        RunTells J.image J.world handed budget result.finish (contents P.tells result.ports) }
    ensures open { AllOpen (contents P.tells result.ports) }
{
    match ending {
        Ending::Whole => whole(code, table, buffer, budget),
        Ending::Spent => spent(code, table, buffer, budget),
        Ending::Stopped => stopped(code, buffer, budget),
    }
}

// The whole walk has been run.
fn whole<J: Job, P: Port>(
    code: &Code<'_, J>,
    table: Table<J>,
    buffer: PartBuffer<J, P>,
    budget: u64,
) -> RunEnd<P>
    requires within { length table.fired ≤ budget }
    requires going { GoesOn buffer }
    requires paid { Paid J.image (part table) buffer [] }
    ensures tells { (handed : List (Option Told)) → J.began ≡ began_of handed →
        RunTells J.image J.world handed budget result.finish (contents P.tells result.ports) }
    ensures open { AllOpen (contents P.tells result.ports) }
{
    whole_run(code, &table, &buffer);
    let fired = table.fired_count() as u64;
    let end = buffer.finish();
    RunEnd {
        finish: RunFinish::Done {
            printed: end.printed,
            arrays: end.arrays,
            fired,
        },
        ports: end.ports,
    }
}

// As many instances have fired as may, and the walk has more.
fn spent<J: Job, P: Port>(
    code: &Code<'_, J>,
    table: Table<J>,
    buffer: PartBuffer<J, P>,
    budget: u64,
) -> RunEnd<P>
    requires fired { length table.fired ≡ budget }
    requires missing { (x : Plain) × IsRight J.image J.world x
        × (held table x.wave x.instr x.port ≡ None) }
    ensures tells { (handed : List (Option Told)) → J.began ≡ began_of handed →
        RunTells J.image J.world handed budget result.finish (contents P.tells result.ports) }
    ensures open { AllOpen (contents P.tells result.ports) }
{
    spent_run(code, &table, &buffer);
    let fired = table.fired_count() as u64;
    let end = buffer.finish();
    RunEnd {
        finish: RunFinish::Budget {
            printed: end.printed,
            fired,
        },
        ports: end.ports,
    }
}

// The run has ended before the walk and the budget did.
fn stopped<J: Job, P: Port>(code: &Code<'_, J>, buffer: PartBuffer<J, P>, budget: u64) -> RunEnd<P>
    ensures tells { (handed : List (Option Told)) → J.began ≡ began_of handed →
        RunTells J.image J.world handed budget result.finish (contents P.tells result.ports) }
    ensures open { AllOpen (contents P.tells result.ports) }
{
    front_run(&buffer);
    match buffer.stop() {
        Some(BufFault::Ended { array }) => {
            fault_run(code, &buffer, array);
            let end = buffer.finish();
            RunEnd {
                finish: RunFinish::Fault {
                    array,
                    printed: end.printed,
                    arrays: end.arrays,
                },
                ports: end.ports,
            }
        }
        Some(BufFault::Stopped { port }) => {
            port_run(code, &buffer, port);
            let end = buffer.finish();
            RunEnd {
                finish: RunFinish::Port {
                    port,
                    printed: end.printed,
                },
                ports: end.ports,
            }
        }
        _ => {
            let end = buffer.finish();
            RunEnd {
                finish: RunFinish::NoMemory,
                ports: end.ports,
            }
        }
    }
}
