//! What a run answers.

ghost use Rattle.std.specs.Prelude.{◌≤◌, ◌-◌, length};
ghost use Rattle.port_set.specs.Slots.{AllOpen, contents};
ghost use Rattle.match_table.specs.Together.{AllServe, part_of};
ghost use Rattle.fire_crew.specs.Finishes.{FinishSo};
ghost use Rattle.fire_crew.specs.Verdicts.{EndingSo};

use crate::ends::{fault_run, front_run, port_run};
use crate::judge::Ending;
use df_core::{Code, Job};
use match_table::{Tables, fired};
use port_set::{Port, Slots};
use store_buf::{BufFault, Buffer, MemoryOrder, RunEnd, RunFinish};

/// How a run ended, with its ports, and its tables as its last event left them.
#[derive(Drop)]
pub struct CrewEnd<J: Job, P: Port> {
    pub finish: RunFinish,
    pub ports: Slots<P>,
    pub tables: Tables<J>,
}

/// What a run answers that has ended so.
pub fn crew_end<J: Job, P: Port>(
    code: &Code<'_, J>,
    tables: &Tables<J>,
    buffer: Buffer<J, P>,
    ending: Ending,
    budget: u64,
) -> RunEnd<P>
    requires serve { AllServe tables.now }
    requires within { length (part_of tables.now).fired ≤ budget }
    requires ended { EndingSo J.image J.world J.began (part_of tables.now).fired
        (budget - length (part_of tables.now).fired) buffer ending }
    ensures finish { FinishSo J.image J.world J.began budget (part_of tables.now).fired
        (contents P.tells result.ports) result.finish }
    ensures open { AllOpen (contents P.tells result.ports) }
{
    match ending {
        Ending::Whole => {
            let fired = fired(tables);
            let end = buffer.finish();
            RunEnd {
                finish: RunFinish::Done {
                    printed: end.printed,
                    arrays: end.arrays,
                    fired,
                },
                ports: end.ports,
            }
        }
        Ending::Spent => {
            let fired = fired(tables);
            let end = buffer.finish();
            RunEnd {
                finish: RunFinish::Budget {
                    printed: end.printed,
                    fired,
                },
                ports: end.ports,
            }
        }
        Ending::Stopped => stopped(code, tables, buffer, budget),
        Ending::Starved => stopped(code, tables, buffer, budget),
    }
}

// What a run answers that has ended before the walk and the budget did.
fn stopped<J: Job, P: Port>(
    code: &Code<'_, J>,
    tables: &Tables<J>,
    buffer: Buffer<J, P>,
    budget: u64,
) -> RunEnd<P>
    requires { AllServe tables.now }
    ensures finish { FinishSo J.image J.world J.began budget (part_of tables.now).fired
        (contents P.tells result.ports) result.finish }
    ensures open { AllOpen (contents P.tells result.ports) }
{
    front_run(&buffer);
    match buffer.stop() {
        Some(BufFault::Ended { array }) => {
            fault_run(code, tables, &buffer, array);
            let end = buffer.finish();
            RunEnd {
                finish: RunFinish::Fault {
                    array,
                    printed: end.printed,
                    arrays: end.arrays,
                },
                ports: end.ports,
            }
        }
        Some(BufFault::Stopped { port }) => {
            port_run(code, &buffer, port);
            let end = buffer.finish();
            RunEnd {
                finish: RunFinish::Port {
                    port,
                    printed: end.printed,
                },
                ports: end.ports,
            }
        }
        _ => {
            let end = buffer.finish();
            RunEnd {
                finish: RunFinish::NoMemory,
                ports: end.ports,
            }
        }
    }
}
