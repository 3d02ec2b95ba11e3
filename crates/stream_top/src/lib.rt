//! The call of the program `wss`: an assembly is read, and its image run, however long the run is.
//!
//! - `wss` wrote an answer without a run, or the whole text of the run of the image that was read
//!   (`WritesWhole`); if a write failed, a prefix of these (`WritesFront`, `WritesPart`); if memory ran out,
//!   the lines of words printed so far, or nothing (`CallEnds`).
//! - Without faults and with memory, the arguments, the text and the walk of its image decide the status
//!   (`CallCaused`).
#![tactic(auto)]

mod call;
mod laws;
mod status;
mod words;

pub use call::wss;
pub use laws::{each_status_has_its_cause, words_ask_once};
pub use status::Status;
pub use words::read_options;
