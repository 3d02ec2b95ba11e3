//! Places by number.

ghost use Rattle.std.specs.Prelude.{◌≡◌, ◌<◌, ◌⊎◌, ℕ, MatchOption, OnOk};
ghost use Rattle.std.specs.BinaryHeap.{IsHeap, heap_items};
ghost use Rattle.std.specs.Ordering.{nat_cmp, ordering_then};
ghost use Rattle.std.proofs.Props.{props};

use std::alloc::Global;
use std::cmp::Reverse;
use std::collections::BinaryHeap;
use ws_words::NoMemory;

/// Places, each under a number. The top is one of the smallest number.
#[derive(Drop)]
pub struct Places {
    heap: BinaryHeap<Reverse<(u32, usize)>>,
    ghost ordered: { IsHeap (λ x y. ordering_then (nat_cmp y.0.0 x.0.0) (nat_cmp y.0.1 x.0.1))
        (heap_items heap) } by { Prim.hlevel props },
}

impl Places {
    ghost use Rattle.store_buf.specs.Ranks.{HasPlace, IsTop, places_len};

    /// No places.
    pub fn new(alloc: Global) -> Places {
        Places {
            heap: BinaryHeap::new(alloc),
        }
    }

    /// Puts a place under a number.
    #[inline(always)]
    pub fn push(&mut self, number: u32, place: usize) -> Result<(), NoMemory>
        ensures ok { OnOk result (HasPlace self.new number place) }
        ensures kept { (n p : ℕ) → HasPlace self.old n p → HasPlace self.new n p }
    {
        self.heap.push(Reverse((number, place)))?;
        Ok(())
    }

    /// The top: its number, which none of the others is below, and its place.
    #[inline(always)]
    pub fn top(&self) -> Option<(u32, usize)>
        ensures top { MatchOption result ((n p : ℕ) → HasPlace self.now n p → ⊥)
            (λ t. IsTop self.now t.0 t.1) }
    {
        match self.heap.peek() {
            Some(Reverse(top)) => Some(*top),
            None => None,
        }
    }

    /// Takes the top away.
    #[inline(always)]
    pub fn drop_top(&mut self)
        ensures others { (a b n p : ℕ) → IsTop self.old a b → HasPlace self.old n p
            → ((a ≡ n) × (b ≡ p)) ⊎ HasPlace self.new n p }
        ensures fewer { (a b : ℕ) → IsTop self.old a b → places_len self.new < places_len self.old }
    {
        let _ = self.heap.pop();
    }

    /// Takes all away.
    pub fn clear(&mut self) {
        self.heap.clear();
    }
}
