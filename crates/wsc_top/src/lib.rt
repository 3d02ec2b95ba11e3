//! The top call: from the command-line arguments and the bytes of a job to the bytes of the
//! answer.
//!
//! `wsc` ends as `CallEnds` says, whose fields are its clauses. `prepare` is the part of it before ports and
//! threads: it answers with what is to be done (`StepSo`), an answer that is ready or images that are due; it
//! is given no `Threads` and no `Wait`, so all that is answered without a run returns. So does `decoupled`,
//! which is given neither and runs the image of `decouple`. Where memory runs out in `prepare`,
//! an image that it hands back is one that the arguments and the text ask to be written, or to be run
//! without ports (`RunsOut`).
#![tactic(auto)]

mod answer;
mod batch;
mod bench;
mod call;
mod clocked;
mod exec;
mod laws;
mod multi;
mod multi_laws;
mod refusals;
mod run_texts;
mod status;
mod step;
mod task;
mod text;
mod texts;
mod traces;
mod yields;

pub use answer::prepare;
pub use batch::ReadJobs;
pub use call::wsc;
pub use exec::decoupled;
pub use laws::{
    assemblies_are_answered_alike, each_answer_has_its_status, each_generated_job_is_a_job,
    each_run_ends_as_its_walk, every_text_is_answered_once, printed_texts_are_read_again,
    runs_are_answered_alike, what_is_due_is_answered,
};
pub use multi_laws::{
    each_answer_of_threads_has_its_status, each_text_is_some_jobs_or_refused,
    threads_are_answered_alike, threads_end_as_their_walks, what_threads_do_is_answered,
};
pub use status::{Outcome, Status};
pub use step::{CallStep, StarvedCall};
pub use task::RunOptions;
pub use text::Text;
