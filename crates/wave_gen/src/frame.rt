//! What stands around the items of a block: the choice of its edge, and its start.

ghost use Rattle.std.specs.Prelude.{◌≡◌, ◌∷◌, [], ℕ, OnOk, IfOk, length, ◌&&◌, not, map, reverse};
ghost use Rattle.wave_gen.specs.Wire.{Made, Target, make, with_rooms};
ghost use Rattle.ws_isa.specs.Image.{is_giving_op};
ghost use Rattle.wave_gen.specs.Plans.{has_front, renew, advances, gives};
ghost use Rattle.wave_gen.specs.View as view;
ghost use Rattle.wave_gen.specs.Tables.{HasMade, line_of, leaves_made, behind_of, begun};

use crate::maker::Maker;
use crate::plan::{HowLeft, Plan};
use crate::spot::{Line, Target};
use std::alloc::Global;
use ws_isa::Op;
use ws_words::NoMemory;

/// The name of the pulse.
pub(crate) const PULSE: usize = 0;

impl Maker {
    /// The instruction by which a block's edge is chosen, or a halt. The answer is how many
    /// instructions stand behind the one by which it is chosen.
    pub(crate) fn leave(
        &mut self,
        alloc: Global,
        test: usize,
        exit: &HowLeft,
    ) -> Result<usize, NoMemory>
        ensures made { OnOk result ((b : ℕ) (s : Made) → HasMade b self.old s →
            HasMade b self.new (leaves_made b test (view.leaves exit.now) s)) }
        ensures behind { IfOk result (λ n. (b : ℕ) (s : Made) → HasMade b self.old s →
            n ≡ behind_of b (view.leaves exit.now) s) }
    {
        match exit {
            HowLeft::Onto(_) => Ok(self.code.len()),
            HowLeft::Either { op, from, .. } => self.choose(alloc, test, *op, from),
            HowLeft::Lands { op, from, .. } => self.choose(alloc, test, *op, from),
            HowLeft::Halts => self.halt(alloc),
        }
    }

    fn choose(
        &mut self,
        alloc: Global,
        name: usize,
        op: Op,
        from: &[usize],
    ) -> Result<usize, NoMemory>
        ensures made { OnOk result ((b : ℕ) (s : Made) → HasMade b self.old s →
            HasMade b self.new (make b name op from.now s)) }
        ensures behind { IfOk result (λ n. (b : ℕ) (s : Made) → HasMade b self.old s →
            n ≡ length (with_rooms b (length from.now) from.now s).code) }
    {
        self.make_rooms(alloc, from)?;
        let behind = self.code.len();
        self.emit(alloc, name, op, from)?;
        Ok(behind)
    }

    fn halt(&mut self, alloc: Global) -> Result<usize, NoMemory>
        ensures made { OnOk result ((b : ℕ) (s : Made) → HasMade b self.old s →
            HasMade b self.new (leaves_made b 0 (view.leaves HowLeft.Halts) s)) }
        ensures behind { IfOk result (λ n. (b : ℕ) (s : Made) → HasMade b self.old s →
            n ≡ length s.code) }
    {
        let behind = self.code.len();
        let line = Line {
            op: Op::Halt,
            dests: Vec::new(alloc),
            others: Vec::new(alloc),
        };
        self.rest(alloc, line, &[PULSE])?;
        Ok(behind)
    }

    /// The start of a block.
    pub(crate) fn begin(&mut self, alloc: Global, plan: &Plan) -> Result<(), NoMemory>
        ensures { OnOk result ((b : ℕ) (s : Made) → HasMade b self.old s →
            HasMade b self.new (begun b (view.plan plan.now) s)) }
    {
        if plan.first {
            self.renew(alloc, &plan.entries)?;
            self.advance(alloc, &plan.entries)
        } else if self.merges(plan) {
            self.emit(alloc, PULSE, Op::Merge, &[PULSE])
        } else {
            Ok(())
        }
    }

    // Whether nothing else gives in a block where something has to.
    fn merges(&self, plan: &Plan) -> bool
        ensures { result ≡ (plan.now.joined
            && not (gives (reverse (map line_of self.now.code.items)))) }
    {
        plan.joined && !gives(&self.code)
    }

    // An advance that would send to one of its own block sends to a merge.
    fn renew(&mut self, alloc: Global, entries: &[usize]) -> Result<(), NoMemory>
        ensures { OnOk result ((b : ℕ) (s : Made) → HasMade b self.old s →
            HasMade b self.new (renew b entries.now s)) }
    {
        for name in entries {
            self.renew_one(alloc, *name)?;
        }
        Ok(())
    }

    fn renew_one(&mut self, alloc: Global, name: usize) -> Result<(), NoMemory>
        ensures { OnOk result ((b : ℕ) (s : Made) → HasMade b self.old s →
            HasMade b self.new (renew b (name ∷ []) s)) }
    {
        if has_front(self.wants.list(name), self.block) {
            self.gather(alloc, name)
        } else {
            Ok(())
        }
    }

    fn advance(&mut self, alloc: Global, entries: &[usize]) -> Result<(), NoMemory>
        ensures { OnOk result ((b : ℕ) (s : Made) → HasMade b self.old s →
            HasMade b self.new (advances b entries.now s)) }
    {
        let mut left = entries.len();
        while left > 0 {
            left -= 1;
            self.emit(alloc, entries[left], Op::Advance, &[entries[left]])?;
        }
        Ok(())
    }
}

fn has_front(spots: &[Target], block: usize) -> bool
    ensures { result ≡ has_front block spots.now }
{
    for spot in spots {
        if fronts(*spot, block) {
            return true;
        }
    }
    false
}

fn fronts(spot: Target, block: usize) -> bool
    ensures { result ≡ has_front block (spot ∷ []) }
{
    match spot {
        Target::Front(front, _) => front == block,
        Target::Back(..) => false,
    }
}

// Whether some instruction has a result, and sends it on at its turn.
fn gives(code: &[Line]) -> bool
    ensures { result ≡ gives (reverse (map line_of code.now)) }
{
    let mut left = code.len();
    while left > 0 {
        left -= 1;
        if is_giving(code[left].op) {
            return true;
        }
    }
    false
}

fn is_giving(op: Op) -> bool
    ensures { result ≡ is_giving_op op }
{
    match op {
        Op::Steer | Op::Send(_) => false,
        Op::Store(_) | Op::Output | Op::Take(_) | Op::Nop | Op::Halt => false,
        _ => true,
    }
}
