//! Issued loads that the chain hasn't passed.

ghost use Rattle.std.specs.Prelude.{◌≡◌, ◌<◌, ◌+◌, ◌⊎◌, ℕ, [], MatchOption, OnOk};
ghost use Rattle.std.specs.BinaryHeap.{IsHeap, heap_items};
ghost use Rattle.std.specs.Ordering.{nat_cmp, ordering_then};
ghost use Rattle.std.proofs.Props.{props};
ghost use Rattle.ws_isa.specs.Image.{Image, note_of};
ghost use Rattle.df_core.specs.Chains.{HasOneMore};

use std::alloc::Global;
use std::cmp::Reverse;
use std::collections::BinaryHeap;
use ws_words::NoMemory;

/// Instructions of issued operations of a wave, each under its sequence number. The top is one of the
/// smallest number.
#[derive(Drop)]
pub struct Early {
    heap: BinaryHeap<Reverse<(u32, u32)>>,
    ghost ordered: { IsHeap (λ x y. ordering_then (nat_cmp y.0.0 x.0.0) (nat_cmp y.0.1 x.0.1))
        (heap_items heap) } by { Prim.hlevel props },
}

impl Early {
    ghost use Rattle.std.specs.Prelude.{◌≤◌};
    ghost use Rattle.store_buf.specs.Earlies.{IsFirst, Numbered, StandsUnder, early_capacity};
    ghost use Rattle.store_buf.specs.Earlies.{early_items, early_len, early_ops};

    /// No operations.
    pub fn new(alloc: Global) -> Early
        ensures { early_ops result ≡ [] }
    {
        Early {
            heap: BinaryHeap::new(alloc),
        }
    }

    /// Makes room for so many more.
    pub fn reserve(&mut self, more: usize) -> Result<(), NoMemory>
        ensures items { early_items self.new ≡ early_items self.old }
        ensures room { OnOk result (early_len self.new + more ≤ early_capacity self.new) }
        ensures len { early_len self.new ≡ early_len self.old }
        ensures grown { early_capacity self.old ≤ early_capacity self.new }
    {
        self.heap.reserve(more)?;
        Ok(())
    }

    /// Puts an operation under its number, for which there is room.
    #[inline(always)]
    pub fn push(&mut self, number: u32, instr: u32)
        requires room { early_len self.old < early_capacity self.old }
        ensures more { HasOneMore instr (early_ops self.old) (early_ops self.new) }
        ensures numbered { (image : Image) → number ≡ (note_of image instr).seq
            → Numbered image self.old → Numbered image self.new }
        ensures len { early_len self.new ≡ early_len self.old + 1 }
        ensures grown { early_capacity self.old ≤ early_capacity self.new }
    {
        let _ = self.heap.push(Reverse((number, instr)));
    }

    /// The top: its number, which none of the others is below, and its instruction.
    #[inline(always)]
    pub fn top(&self) -> Option<(u32, u32)>
        ensures { MatchOption result (early_ops self.now ≡ []) (λ t. IsFirst self.now t.0 t.1) }
    {
        match self.heap.peek() {
            Some(Reverse(top)) => Some(*top),
            None => None,
        }
    }

    /// Takes the top away.
    #[inline(always)]
    pub fn drop_top(&mut self)
        ensures others { (a b n i : ℕ) → IsFirst self.old a b → StandsUnder self.old n i
            → ((a ≡ n) × (b ≡ i)) ⊎ StandsUnder self.new n i }
        ensures back { (n i : ℕ) → StandsUnder self.new n i → StandsUnder self.old n i }
        ensures fewer { (a b : ℕ) → IsFirst self.old a b → early_len self.new < early_len self.old }
        ensures room { early_capacity self.new ≡ early_capacity self.old }
    {
        let _ = self.heap.pop();
    }

    /// Takes all away.
    pub fn clear(&mut self)
        ensures none { early_ops self.new ≡ [] }
        ensures len { early_len self.new ≡ 0 }
        ensures room { early_capacity self.new ≡ early_capacity self.old }
    {
        self.heap.clear();
    }
}
