//! Plans of blocks: what the code of a block is made from.

use ws_isa::Op;

/// Names of values, or numbers of blocks from 1. The pulse is name 0, variable x is name x + 1.
pub(crate) type Names = Vec<usize>;

/// What a block does between its entries and its exit: a value is made, an operation has no
/// result, or `name` takes the value of `other`.
#[derive(Drop)]
pub(crate) enum Item {
    Make { name: usize, op: Op, from: Names },
    Act { op: Op, from: Names },
    Same { name: usize, other: usize },
}

pub(crate) type Items = Vec<Item>;

/// How a block is left. The value by which an edge is chosen is that of an operation on names;
/// `Either` goes to the block `some` unless it is 0, else to `none`.
#[derive(Drop)]
pub(crate) enum HowLeft {
    Onto(usize),
    Either {
        op: Op,
        from: Names,
        some: usize,
        none: usize,
    },
    Lands {
        op: Op,
        from: Names,
        values: Names,
        landings: Names,
    },
    Halts,
}

/// A block of the draft to come. The first block of a wave has an advance for each name of
/// `entries`, and pads that fill names; `joined` says that the pulse goes through a merge at the
/// start of another block. `test` names the value by which an edge is chosen.
#[derive(Drop)]
pub(crate) struct Plan {
    pub(crate) wave: usize,
    pub(crate) first: bool,
    pub(crate) joined: bool,
    pub(crate) entries: Names,
    pub(crate) pads: Names,
    pub(crate) items: Items,
    pub(crate) exit: HowLeft,
    pub(crate) test: usize,
}

pub(crate) type Plans = Vec<Plan>;
