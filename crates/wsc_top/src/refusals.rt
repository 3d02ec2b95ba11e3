//! The texts of refusals of several jobs.

ghost use Rattle.std.specs.Prelude.{◌≡◌, IfOk};
ghost use Rattle.asm_read.specs.declared.assembly.AsmRefusal.TheVariants as refusal;
ghost use Rattle.wsc_top.specs.declared.batch.JobsRefusal.TheVariants as jobs;
ghost use Rattle.wsc_top.specs.Jobs.{jobs_refusal_text};

use crate::batch::JobsRefusal;
use asm_read::refused_at;
use src_ast::{Place, RefusalKind};
use std::alloc::Global;
use ws_io::put_decimal;
use ws_words::{Bytes, NoMemory};

// The answer where a text has a fourth separator in this line.
fn refused_threads(alloc: Global, line: u32) -> Result<Bytes, NoMemory>
    ensures { IfOk result (λ text. text ≡ jobs_refusal_text (jobs.Threads line)) }
{
    let mut text = Bytes::from_slice(alloc, b"refused ")?;
    put_decimal(&mut text, u64::from(line))?;
    text.extend(b":1 threads\n")?;
    Ok(text)
}

/// The answer where the text of the jobs of several threads is refused. Places count in the whole text.
pub fn jobs_refused(alloc: Global, why: JobsRefusal) -> Result<Bytes, NoMemory>
    ensures { IfOk result (λ text. text ≡ jobs_refusal_text why) }
{
    match why {
        JobsRefusal::Threads(line) => refused_threads(alloc, line),
        JobsRefusal::OfJob(at, refusal) => {
            let Place { line, column } = refusal.place;
            let below = (u64::from(at.line) + u64::from(line)).saturating_sub(1);
            let beside = if line == 1 {
                (u64::from(at.column) + u64::from(column)).saturating_sub(1)
            } else {
                u64::from(column)
            };
            refused_at(alloc, below, beside, refusal.kind)
        }
    }
}
