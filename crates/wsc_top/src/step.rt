//! What is to be done for the words of a call, once its text has been read.

use crate::batch::ReadJobs;
use crate::status::Status;
use crate::task::RunOptions;
use crate::text::Text;
use ws_isa::Checked;
use ws_words::{NoMemory, Words};

/// An answer that is ready: its status, its text, and the image that it ran without ports or prints; or an
/// image that is to be run on these words; or those of the threads that are to be run.
#[derive(Drop)]
pub enum CallStep {
    Ready(Status, Text, Option<Checked>),
    Run(RunOptions, Checked, Words),
    Threads(RunOptions, ReadJobs),
}

/// Memory ran out, and no port has been called.
#[derive(Drop)]
pub struct StarvedCall {
    /// The image that was begun to be run or to be written, where the call had come so far.
    pub image: Option<Checked>,
}

impl From<NoMemory> for StarvedCall {
    ghost use Rattle.std.specs.Prelude.{◌≡◌, None};

    ghost from_gives = { λ _ starved. starved.image ≡ None };

    fn from(_: NoMemory) -> StarvedCall {
        StarvedCall { image: None }
    }
}
