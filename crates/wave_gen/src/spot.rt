//! Where values are sent, before instructions have numbers.

use ws_isa::Op;

/// Where a value is sent: to a port of the instruction of a block that has so many instructions of
/// the block behind it, or to an entry of the first block of a wave, counted from 0.
#[derive(Clone, Copy, PartialEq, Eq)]
pub(crate) enum Target {
    Back(usize, usize, usize),
    Front(usize, usize),
}

pub(crate) type Targets = Vec<Target>;

/// An instruction, with its list, or its two where it is a steer.
#[derive(Drop)]
pub(crate) struct Line {
    pub(crate) op: Op,
    pub(crate) dests: Targets,
    pub(crate) others: Targets,
}
