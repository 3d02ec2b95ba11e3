//! The text of an assembly with its input section: its image and the words that it reads, or why it is
//! refused.
//!
//! `read_source` reads it from a source: it is what the source gives (`GivesAssembly`), or there is none
//! and why (`IsUnread`). No text is both, and none is two assemblies (`each_assembly_is_read_or_refused`).
//! `read` reads the two sections of a text, and `split` finds them.
#![tactic(auto)]

mod assembly;
mod input;
mod laws;
mod refusals;
mod sections;
mod source;
mod worlds;

pub use assembly::{AsmRefusal, AssemblyFault, read};
pub use input::input_words;
pub use laws::{each_assembly_is_read_or_refused, each_input_is_read_once};
pub use refusals::{asm_refused, refused, refused_at};
pub use sections::{after_line, front_length, split, split_trace};
pub use source::{Unread, read_source};
pub use worlds::world;
