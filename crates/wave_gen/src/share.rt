//! Equal constants of a block are made once.

ghost use Rattle.std.specs.Prelude.{◌≡◌, ℕ, map, IfOk, OnOk};
ghost use Rattle.wave_gen.specs.Waits.{set};
ghost use Rattle.wave_gen.specs.Plans.{pulse};
ghost use Rattle.wave_gen.specs.Shared as sharing;
ghost use Rattle.wave_gen.specs.Shared.{number_of, is_pulse, const_of, name_of, share, learn, none_known};
ghost use Rattle.wave_gen.specs.View as plans;
ghost use Rattle.wave_gen.specs.Placed.{known_name};

use crate::plan::{Item, Items};
use crate::values::PULSE;
use std::alloc::Global;
use std::collections::HashMap;
use ws_isa::Op;
use ws_words::NoMemory;

/// The names of the numbers that were made.
#[derive(Drop)]
pub(crate) struct KnownNumbers {
    pub(crate) names: HashMap<u64, usize>,
}

fn is_pulse(from: &[usize]) -> bool
    ensures { result ≡ is_pulse from.now }
{
    from.len() == 1 && from[0] == PULSE
}

fn number_of(op: Op) -> Option<u64>
    ensures { result ≡ number_of op }
{
    match op {
        Op::Const(n) => Some(n),
        _ => None,
    }
}

// The number that an item makes, triggered by the pulse.
fn const_of(item: &Item) -> Option<u64>
    ensures { result ≡ const_of (plans.item item.now) }
{
    match item {
        Item::Make { op, from, .. } => match number_of(*op) {
            Some(n) => { if is_pulse(from) { Some(n) } else { None } }
            None => None,
        },
        Item::Act { .. } => None,
        Item::Same { .. } => None,
    }
}

fn name_of(item: &Item) -> usize
    ensures { result ≡ name_of (plans.item item.now) }
{
    match item {
        Item::Make { name, .. } => *name,
        Item::Act { .. } => PULSE,
        Item::Same { name, .. } => *name,
    }
}

impl KnownNumbers {
    #[tactic(auto, unfolding(crate::specs::Placed::known_name))]
    fn none(alloc: Global) -> KnownNumbers
        ensures { (n : ℕ) → known_name result n ≡ pulse }
    {
        KnownNumbers {
            names: HashMap::new(alloc),
        }
    }

    // The name of a number, or the pulse.
    #[tactic(auto, unfolding(crate::specs::Placed::known_name))]
    fn find(&self, n: u64) -> usize
        ensures { result ≡ known_name self.now n }
    {
        self.names.get(&n).copied().unwrap_or(PULSE)
    }

    #[tactic(auto, unfolding(crate::specs::Placed::known_name))]
    fn put(&mut self, n: u64, name: usize) -> Result<(), NoMemory>
        ensures { OnOk result ((m : ℕ) → known_name self.new m ≡
            set (known_name self.old) n name m) }
    {
        self.names.insert(n, name)?;
        Ok(())
    }

    // Where an item makes a number once more, it takes the value that was made first.
    fn share(&mut self, item: &mut Item) -> Result<(), NoMemory>
        ensures item { OnOk result (plans.item item.new ≡
            share (known_name self.old) (plans.item item.old)) }
        ensures known { OnOk result ((m : ℕ) → known_name self.new m ≡
            learn (known_name self.old) (plans.item item.old) m) }
    {
        match const_of(item) {
            Some(n) => {
                let name = name_of(item);
                let other = self.find(n);
                if other == PULSE {
                    self.put(n, name)
                } else {
                    *item = Item::Same { name, other };
                    Ok(())
                }
            }
            None => Ok(()),
        }
    }
}

/// The items of a block, with equal constants made once.
pub(crate) fn share_constants(alloc: Global, items: Items) -> Result<Items, NoMemory>
    ensures { IfOk result (λ made. map plans.item made.items ≡
        sharing.shared none_known (map plans.item items.items)) }
{
    let mut list = items;
    let mut known = KnownNumbers::none(alloc);
    for i in 0..list.len() {
        known.share(&mut list[i])?;
    }
    Ok(list)
}
