//! Nodes of trees of requests: behind the node of a request stand those of other requests of its wave, by
//! the bits of their instruction numbers, the lowest first.

ghost use Rattle.std.specs.Prelude.{◌≡◌};
ghost use Rattle.store_buf.specs.Trees.{child_of, with_child, leaf};

/// No place of a node.
pub const NOWHERE: u32 = u32::MAX;

/// The places of the nodes behind one: of the node with an even number and of that with an odd one, once
/// the bits before are taken off.
#[derive(Clone, Copy)]
pub struct Node {
    pub(crate) even: u32,
    pub(crate) odd: u32,
}

impl Node {
    /// With none behind it.
    #[inline(always)]
    pub fn leaf() -> Node
        ensures { result ≡ leaf }
    {
        Node {
            even: NOWHERE,
            odd: NOWHERE,
        }
    }

    /// The one behind it, for what is left of a number.
    #[inline(always)]
    pub fn child(&self, key: u32) -> u32
        ensures { result ≡ child_of self.now key }
    {
        if key % 2 == 0 { self.even } else { self.odd }
    }

    /// The same, with this one behind it.
    #[inline(always)]
    pub fn with(self, key: u32, next: u32) -> Node
        ensures { result ≡ with_child self key next }
    {
        if key % 2 == 0 {
            Node { even: next, ..self }
        } else {
            Node { odd: next, ..self }
        }
    }
}
