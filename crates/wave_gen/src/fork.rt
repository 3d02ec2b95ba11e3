//! What is sent along the edges of an exit, and what goes past it.

ghost use Rattle.std.specs.Prelude.{◌≡◌, ◌∷◌, ℕ, OnOk, IfOk, true, false, cond, List, map};
ghost use Rattle.wave_gen.specs.Wire.{Wants};
ghost use Rattle.wave_gen.specs.Plans.{same_spot, same_spots, is_among, steers, steered, past, sends};
ghost use Rattle.wave_gen.specs.Plans.{or_pulse};
ghost use Rattle.wave_gen.specs.Tables.{listed, tail_of};
ghost use Rattle.wave_gen.specs.Kept.{Forked};

use crate::frame::PULSE;
use crate::spot::{Line, Target};
use crate::table::Table;
use crate::tails::Tail;
use std::alloc::Global;
use ws_isa::Op;
use ws_words::NoMemory;

/// What is sent along the edges of an exit, and what goes past it.
#[derive(Drop)]
pub(crate) struct Ending {
    pub(crate) tails: Vec<Tail>,
    pub(crate) past: Table,
}

/// What the two arms of a branch want but for the names that are steered, from the last to the
/// first.
#[derive(Drop)]
pub(crate) struct Arms {
    pub(crate) some: Table,
    pub(crate) none: Table,
    pub(crate) tails: Vec<Tail>,
}

impl Arms {
    fn steer(&mut self, alloc: Global, name: usize) -> Result<(), NoMemory>
        ensures { OnOk result ((w v : Wants) (xs : List ℕ) → is_among name xs ≡ false →
            Forked w v xs self.old → Forked w v (name ∷ xs) self.new) }
    {
        let dests = self.some.take(alloc, name);
        let others = self.none.take(alloc, name);
        let op = Op::Steer;
        let line = Line { op, dests, others };
        self.tails.push(Tail { held: name, line })?;
        Ok(())
    }

    // The pulse is steered where no other name is.
    fn steer_some(&mut self, alloc: Global) -> Result<(), NoMemory>
        ensures { OnOk result ((w v : Wants) (xs : List ℕ) → Forked w v xs self.old →
            Forked w v (or_pulse xs) self.new) }
    {
        if self.tails.is_empty() {
            self.steer(alloc, PULSE)
        } else {
            Ok(())
        }
    }

    // A name is steered where the two arms want it in different places.
    fn compare(&mut self, alloc: Global, name: usize) -> Result<(), NoMemory>
        ensures { OnOk result ((w v : Wants) (xs : List ℕ) → is_among name xs ≡ false →
            Forked w v xs self.old →
            Forked w v (cond (same_spots (w name) (v name)) xs (name ∷ xs)) self.new) }
    {
        if same_spots(self.some.list(name), self.none.list(name)) {
            Ok(())
        } else {
            self.steer(alloc, name)
        }
    }
}

/// A branch to two blocks that want this at their starts.
pub(crate) fn fork(
    alloc: Global,
    width: usize,
    some: Table,
    none: Table,
) -> Result<Ending, NoMemory>
    ensures tails { IfOk result (λ ending. map tail_of ending.tails.items ≡
        steers (listed some.lists.items) (listed none.lists.items)
        (steered width (listed some.lists.items) (listed none.lists.items))) }
    ensures past { IfOk result (λ ending. ◌≡◌ {A = Wants} (listed ending.past.lists.items)
        (past (steered width (listed some.lists.items) (listed none.lists.items))
        (listed some.lists.items))) }
{
    let tails = Vec::new(alloc);
    let mut arms = Arms { some, none, tails };
    let mut name = width;
    while name > 0 {
        name -= 1;
        arms.compare(alloc, name)?;
    }
    arms.steer_some(alloc)?;
    let Arms {
        some,
        none: _,
        mut tails,
    } = arms;
    tails.reverse();
    Ok(Ending { tails, past: some })
}

/// The sends of a Send's values, each to a pad of its own.
pub(crate) fn sends(alloc: Global, values: &[usize]) -> Result<Vec<Tail>, NoMemory>
    ensures { IfOk result (λ tails. map tail_of tails.items ≡ sends 0 values.now) }
{
    let mut tails = Vec::new(alloc);
    for (pad, name) in values.iter().enumerate() {
        let line = Line {
            op: Op::Send(byte(pad)?),
            dests: Vec::new(alloc),
            others: Vec::new(alloc),
        };
        tails.push(Tail { held: *name, line })?;
    }
    Ok(tails)
}

/// A number as a byte.
pub(crate) fn byte(number: usize) -> Result<u8, NoMemory>
    ensures { IfOk result (λ byte. byte ≡ number) }
{
    if number < 256 {
        Ok(number as u8)
    } else {
        Err(NoMemory)
    }
}

fn same_spots(one: &[Target], other: &[Target]) -> bool
    ensures { result ≡ same_spots one.now other.now }
{
    if one.len() != other.len() {
        return false;
    }
    for i in 0..one.len() {
        if !same_spot(one[i], other[i]) {
            return false;
        }
    }
    true
}

fn same_spot(one: Target, other: Target) -> bool
    ensures { result ≡ same_spot one other }
{
    match (one, other) {
        (Target::Back(b, back, port), Target::Back(c, behind, slot)) => {
            b == c && back == behind && port == slot
        }
        (Target::Front(b, place), Target::Front(c, slot)) => b == c && place == slot,
        _ => false,
    }
}
