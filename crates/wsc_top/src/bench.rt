//! Runs of generated jobs.

ghost use Rattle.std.specs.Prelude.{◌≡◌, List, IfOk};
ghost use Rattle.src_ast.specs.Syntax.{Part};
ghost use Rattle.wsc_top.specs.Generated.{IsGeneratedJob};
ghost use Rattle.wave_build.specs.Compiled.{IsCompiled};
ghost use Rattle.work_gen.specs.Job.{words_of};

use crate::laws::each_generated_job_is_a_job;
use crate::yields::checked_image;
use src_ast::{TextFault, read_is_written};
use std::alloc::Global;
use work_gen::workload;
use ws_isa::Checked;
use ws_words::{NoMemory, Words};

/// An image of the program of the generated job with this number, and the words that it reads.
pub fn generated(alloc: Global, number: u32) -> Result<(Checked, Words), NoMemory>
    ensures { IfOk result (λ x. (parts : List Part) × IsGeneratedJob number parts
        × IsCompiled parts x.0 × (x.1 ≡ words_of number)) }
{
    each_generated_job_is_a_job();
    read_is_written();
    let text = workload(alloc, number)?;
    match job_read::read(alloc, text.as_slice()) {
        Ok((accepted, input)) => Ok((checked_image(alloc, &accepted)?, input)),
        Err(TextFault::Refused(_)) => unreachable!(),
        Err(TextFault::NoMemory) => Err(NoMemory),
    }
}
