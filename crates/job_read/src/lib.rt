//! The text of a job: its program and the words that it reads, or why it is refused.
//!
//! - `read` gives the accepted program and the input words of a text of at most a mebibyte (`IsJob`), or its
//!   first fault (`Refuses`).
//! - Each text is one of the two, in one way (`each_text_is_a_job_or_refused`).
#![tactic(auto)]

mod laws;
mod program;
mod text;

pub use laws::each_text_is_a_job_or_refused;
pub use text::read;
