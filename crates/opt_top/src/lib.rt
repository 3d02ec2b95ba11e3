//! The call of the program `wso`: it reads a job and writes its optimized assembly, with the input section.
//!
//! - `wso` writes and flushes the printed form of an image of the job's program and, after it, the input
//!   section of the text; or why the text is refused (`answered`). The image has the properties that
//!   `compile` gives its own (`IsCompiled`). That constants are folded and calls inlined is no clause.
//! - If a write failed, a prefix of an answer went out (`unwritten`); if memory ran out, nothing (`starved`).
#![tactic(auto)]

mod call;
mod status;

pub use call::wso;
pub use status::Status;
