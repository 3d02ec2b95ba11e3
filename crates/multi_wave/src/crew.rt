//! Who runs several threads.

ghost use Rattle.std.specs.Prelude.{◌≤◌};

use std::alloc::Global;

/// Who runs several threads: from 1 to 8 workers, and the gate that each calls before it brings a token.
#[derive(Drop)]
pub struct ThreadCrew<'a, G, R> {
    pub rt: &'a R,
    pub alloc: Global,
    pub gate: &'a G,
    pub workers: u32,
    pub ghost few: { (1 ≤ workers) × (workers ≤ 8) },
}
