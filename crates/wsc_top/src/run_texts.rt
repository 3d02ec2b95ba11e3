//! The answers of runs of images.

ghost use Rattle.std.specs.Prelude.{map, IfOk};
ghost use Rattle.ws_isa.specs.View as view;
ghost use Rattle.wsc_top.specs.Finished.{ReportsSo};

use crate::status::Status;
use crate::text::Text;
use run_text::{Report, failed, rested, spent, stopped};
use std::alloc::Global;
use store_buf::RunFinish;
use ws_isa::ArrayDecl;
use ws_words::NoMemory;

/// The status and the text of the answer of a run that ended so, with this budget.
pub fn answer(
    alloc: Global,
    report: Report,
    budget: u64,
    arrays: &[ArrayDecl],
    finish: &RunFinish,
) -> Result<(Status, Text), NoMemory>
    ensures { IfOk result (λ y. ReportsSo report budget (map view.array arrays.now) finish.now y.0 y.1) }
{
    match finish {
        RunFinish::Done {
            printed,
            arrays: rows,
            fired,
        } => Ok((
            Status::Done,
            Text::built(rested(alloc, report, arrays, printed, rows, *fired)?),
        )),
        RunFinish::Budget { printed, fired: _ } => {
            let text = spent(alloc, report, printed, budget)?;
            Ok((Status::Budget, Text::built(text)))
        }
        RunFinish::Fault {
            array,
            printed,
            arrays: rows,
        } => Ok((
            Status::Fault,
            Text::built(stopped(alloc, report, arrays, *array, printed, rows)?),
        )),
        RunFinish::Port { port, printed } => Ok((
            Status::PortFault(*port),
            Text::built(failed(alloc, report, printed, *port)?),
        )),
        RunFinish::NoMemory => Err(NoMemory),
    }
}
