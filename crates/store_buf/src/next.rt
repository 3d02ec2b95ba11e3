//! What a buffer may issue next.

ghost use Rattle.std.specs.Prelude.{◌≡◌, ◌<◌, ℕ, Some, true, false, length, MatchOption, IfSome};
ghost use Rattle.ws_isa.specs.Image.{is_load_op};
ghost use Rattle.df_core.specs.Places.{image_of};
ghost use Rattle.df_core.specs.Chains.{chain_of, may_flag};
ghost use Rattle.store_buf.specs.Ordering.{AllFiled, MayAt, NoneFound, NoneEarly, IsForemost, GoesEarly};
ghost use Rattle.store_buf.specs.Ordering.{SameButNear, WaitsHere, chain_in, kept_at, ready_flag, number_of};
ghost use Rattle.store_buf.specs.Ordering.{requests_of, ripple_of};

use crate::kept::Kept;
use crate::order::Order;
use df_core::Program;
use ws_isa::Op;

impl Order {
    /// The place of a request that may be issued: of the one that waits in the current wave with the
    /// smallest sequence number, or of a load before its turn. In a buffer of a run it is None only
    /// where none may.
    pub fn issuable(&mut self, program: &Program<'_>) -> Option<usize>
        requires filed { AllFiled (image_of program.now) self.old }
        ensures filed { AllFiled (image_of program.now) self.new }
        ensures same { SameButNear self.old self.new }
        ensures may { MatchOption result (NoneFound (image_of program.now) self.new)
            (MayAt (image_of program.now) self.new) }
    {
        let Some(place) = self.first(program) else {
            return None;
        };
        if self.may_issue(program, place) {
            Some(place)
        } else {
            self.early(program)
        }
    }

    /// The place of a request that may be issued: this one, or else one that is looked for.
    #[inline(always)]
    pub fn this_or_issuable(&mut self, program: &Program<'_>, this: Option<usize>) -> Option<usize>
        requires filed { AllFiled (image_of program.now) self.old }
        requires this { IfSome this (MayAt (image_of program.now) self.old) }
        ensures filed { AllFiled (image_of program.now) self.new }
        ensures same { SameButNear self.old self.new }
        ensures may { MatchOption result (NoneFound (image_of program.now) self.new)
            (MayAt (image_of program.now) self.new) }
    {
        match this {
            Some(place) => Some(place),
            None => self.issuable(program),
        }
    }

    /// The place of the request with the smallest sequence number of those that wait in the current
    /// wave.
    pub fn first(&mut self, program: &Program<'_>) -> Option<usize>
        requires filed { AllFiled (image_of program.now) self.old }
        ensures filed { AllFiled (image_of program.now) self.new }
        ensures same { SameButNear self.old self.new }
        ensures first { MatchOption result ((p : ℕ) → WaitsHere self.new p → ⊥)
            (IsForemost (image_of program.now) self.new) }
    {
        while let Some((number, place)) = self.near.turns.top() {
            if self.has_number(program, place, number) {
                return Some(place);
            }
            self.near.turns.drop_top();
        }
        self.near.loads.clear();
        None
    }

    /// The place of a load of the current wave that may be issued before its turn.
    pub fn early(&mut self, program: &Program<'_>) -> Option<usize>
        requires filed { AllFiled (image_of program.now) self.old }
        ensures filed { AllFiled (image_of program.now) self.new }
        ensures same { SameButNear self.old self.new }
        ensures early { MatchOption result (NoneEarly (image_of program.now) self.new)
            (GoesEarly (image_of program.now) self.new) }
        ensures may { IfSome result (MayAt (image_of program.now) self.new) }
    {
        while let Some((ripple, place)) = self.near.loads.top() {
            if ripple > self.chain.position() {
                return None;
            }
            if self.has_ripple(program, place, ripple) {
                return Some(place);
            }
            self.near.loads.drop_top();
        }
        None
    }

    // Whether the request at a place waits in the current wave, and has this sequence number.
    fn has_number(&self, program: &Program<'_>, place: usize, number: u32) -> bool
        ensures yes { result ≡ true → WaitsHere self.now place
            × (number_of (image_of program.now) (kept_at self.now place) ≡ number) }
        ensures no { result ≡ false → WaitsHere self.now place
            → number_of (image_of program.now) (kept_at self.now place) ≡ number → ⊥ }
    {
        match self.kept.get(place) {
            Some(kept) => {
                kept.answer.is_none()
                    && kept.wave == self.chain.wave
                    && program.note(kept.instr).seq == number
            }
            None => false,
        }
    }

    // Whether the request at a place waits in the current wave, and is a load within its array with
    // this ripple.
    fn has_ripple(&self, program: &Program<'_>, place: usize, ripple: u32) -> bool
        ensures yes { result ≡ true → WaitsHere self.now place
            × (ripple_of (image_of program.now) (kept_at self.now place) ≡ Some ripple) }
        ensures no { result ≡ false → WaitsHere self.now place
            → ripple_of (image_of program.now) (kept_at self.now place) ≡ Some ripple → ⊥ }
    {
        match self.kept.get(place) {
            Some(kept) => {
                kept.answer.is_none()
                    && kept.wave == self.chain.wave
                    && ripple_of(program, *kept) == Some(ripple)
            }
            None => false,
        }
    }

    /// Whether the request at a place has no answer and the chain lets it issue.
    pub fn may_issue(&self, program: &Program<'_>, place: usize) -> bool
        ensures yes { result ≡ true → place < length (requests_of self.now) }
        ensures ready { place < length (requests_of self.now)
            → result ≡ ready_flag (image_of program.now) self.now (kept_at self.now place) }
    {
        match self.kept.get(place) {
            Some(kept) => kept.answer.is_none() && self.lets(program, *kept),
            None => false,
        }
    }

    /// Whether the chain lets a request issue: it is next, or a load before its turn.
    #[inline(always)]
    pub fn lets(&self, program: &Program<'_>, kept: Kept) -> bool
        ensures { result ≡ may_flag (image_of program.now) (chain_of (chain_in self.now))
            kept.wave kept.instr kept.first }
    {
        let note = program.note(kept.instr);
        let op = program.op(kept.instr);
        kept.wave == self.chain.wave
            && (self.chain.is_next(note)
                || (is_load(op)
                    && !program.is_past(op, kept.first)
                    && note.ripple <= self.chain.position()))
    }
}

/// The ripple of a load within its array.
pub fn ripple_of(program: &Program<'_>, kept: Kept) -> Option<u32>
    ensures { result ≡ ripple_of (image_of program.now) kept }
{
    let op = program.op(kept.instr);
    if is_load(op) && !program.is_past(op, kept.first) {
        Some(program.note(kept.instr).ripple)
    } else {
        None
    }
}

fn is_load(op: Op) -> bool
    ensures { result ≡ is_load_op op }
{
    match op {
        Op::Load(_) => true,
        _ => false,
    }
}
