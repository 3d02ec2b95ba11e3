//! From the text of an assembly to that of a sound image: its memory annotations are dropped and made anew.
//!
//! `link` reads a text as `read_asm` does, and drops its annotations. If the rules on shape and slots are
//! kept, it gives that draft with new annotations (`ok`, `Linked`). The result is sound and formed, with the
//! arrays, blocks and edges of the text. Each block has its operations and at most one no-op more, which is
//! needed; the walk does the same in every world.
//!
//! Else `link` names the first faulty line, numbers that break a rule on shape or slots, or what is missing
//! (`refused`): a branch that neither forks nor ends its wave, a no-op without a trigger, or room (`lacks`).
//! It names what is missing only if the draft with annotations and nothing else isn't sound either. What is
//! refused can't be annotated so (`refusals_are_right`). What is printed is read again, as a sound image
//! (`prints_are_sound`).
//!
//! `wsl` is the call of the program. What went out is the printed form of such an image, or why the text is
//! refused, and was flushed (`answered`). If a write failed, it is a prefix of an answer (`unwritten`). If
//! memory ran out, it is nothing (`starved`).
#![tactic(auto)]

mod call;
mod draft;
mod fault;
mod laws;
mod linker;
mod room;
mod status;
mod texts;
mod unfit;
mod ways;

pub use call::wsl;
pub use fault::{LinkFault, LinkRefusal, Unfit};
pub use laws::{prints_are_sound, refusals_are_right};
pub use linker::link;
pub use status::Status;
