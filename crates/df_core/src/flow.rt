//! The state of a run, and its two kinds of event: a match and an issue.

ghost use Rattle.std.specs.Prelude.{◌≡◌, ◌<◌, ◌≤◌, ◌+◌, ◌*◌, ◌^◌, ℕ, suc, [], ◌∷◌, ◌++◌, length, vec_len};
ghost use Rattle.std.specs.Prelude.{vec_capacity, true, false, is_some, cond, ◌⊎◌, MatchOption, OnOk, IfSome};
ghost use Rattle.std.specs.Prelude.{IsOk, IfNone};
ghost use Rattle.ws_isa.specs.Image.{is_memory_op, result_of_op, selector_of, tokens_to, is_advance_op};
ghost use Rattle.ws_isa.specs.Formed.{Formed};
ghost use Rattle.df_core.specs.Core.{Match, Issue};
ghost use Rattle.df_core.specs.Chains.{chain_of, may_flag};
ghost use Rattle.df_core.specs.Places.{image_of, destinations};
ghost use Rattle.df_core.specs.Ways.{token_of, SentTo};
ghost use Rattle.df_core.specs.Flows.{GoingBeside, EventLeads, flight, AskedMore, all_of, asked_at, NotReady};
ghost use Rattle.df_core.specs.Flows.{SameParts, weight, FlowRoom, NoneAskedMay, AskedMay};

use crate::chain::Chain;
use crate::choices::{array_of, selector};
use crate::hints::Hints;
use crate::memory::Memory;
use crate::order::pass_on;
use crate::plain::{Asked, Operands, Token};
use crate::program::Program;
use crate::slots::MatchStore;
use crate::way::Way;
use ws_isa::Op;
use ws_words::NoMemory;

// So many firings that there is room for are counted without overflow.
const MOST: u64 = 1 << 56;

/// The state of a run: tokens that have arrived at unfired instances, tokens in flight, requests
/// that wait, issued loads that the chain hasn't passed, the chain, the array of the index fault at
/// which it is stopped, if it is, memory, and how many instances have fired.
#[derive(Drop)]
pub struct Flow<'w> {
    pub slots: MatchStore,
    pub way: Way,
    pub asked: Vec<Asked>,
    pub hints: Hints,
    pub early: Vec<u32>,
    pub chain: Chain,
    pub fault: Option<u32>,
    pub memory: Memory<'w>,
    pub fired: u64,
}

impl<'w> Flow<'w> {
    /// A token that was in flight arrives at its port. If it is the last one of its
    /// instance, that fires.
    pub fn arrive(&mut self, program: &Program<'_>, token: Token)
        requires going { GoingBeside (image_of program.now) (token_of token ∷ []) self.old }
        requires room { FlowRoom self.old 1 1 }
        requires fired { self.old.fired + 1 < 2 ^ 64 }
        ensures leads { EventLeads (image_of program.now) (Match token.wave token.instr token.port)
            (token_of token ∷ []) self.old self.new }
        ensures room { (n m : ℕ) → m + self.new.fired ≡ n + self.old.fired → FlowRoom self.old 1 n →
            FlowRoom self.new 0 m }
        ensures asked { AskedMore self.old self.new }
        ensures chain { self.new.chain ≡ self.old.chain }
        ensures fault { self.new.fault ≡ self.old.fault }
        ensures memory { self.new.memory ≡ self.old.memory }
        ensures count { (self.old.fired ≤ self.new.fired) × (self.new.fired ≤ self.old.fired + 1) }
        ensures weight { weight self.new + 9 * self.old.fired
            ≤ weight self.old + 9 * self.new.fired }
    {
        let op = program.op(token.instr);
        let ports = op.ports();
        if ports == 1 {
            let operands = Operands {
                first: token.value,
                second: 0,
                third: 0,
            };
            self.fire(program, op, token.wave, token.instr, operands);
            return;
        }
        if let Some(operands) = self.slots.match_token(token, ports) {
            self.fire(program, op, token.wave, token.instr, operands);
        }
    }

    /// Makes room for so many more firings and all events around them. What room there is stays.
    pub fn prepare(&mut self, more: u64) -> Result<(), NoMemory>
        ensures room { OnOk result (FlowRoom self.new 0 more) }
        ensures same { SameParts self.old self.new }
        ensures kept { (n : ℕ) → FlowRoom self.old 0 n → FlowRoom self.new 0 n }
        ensures succeeds { more < 2 ^ 56 → FlowRoom self.old 0 more → IsOk result }
    {
        if more > MOST {
            return Err(NoMemory);
        }
        let more = more as usize;
        let asked = self.asked.len() + more;
        match self.flight(more) {
            Some(flight) => {
                self.way.now.reserve(flight - self.way.now.len())?;
                self.way.later.reserve(flight - self.way.later.len())?;
                self.slots.reserve(flight)?;
                self.early.reserve(asked)?;
                self.memory.reserve(asked)?;
                self.asked.reserve(more)?;
                self.hints.reserve(asked);
                Ok(())
            }
            None => Err(NoMemory),
        }
    }

    // How many tokens there may be in flight, with so many more firings.
    fn flight(&self, more: usize) -> Option<usize>
        ensures count { IfSome result (λ count. count ≡ flight self.now 0 more) }
        ensures none { IfNone result (2 ^ 64 ≤ flight self.now 0 more) }
    {
        let sent = self.asked.len().checked_add(more)?.checked_mul(8)?;
        let way = self.way.now.len().checked_add(self.way.later.len())?;
        way.checked_add(sent)
    }

    /// The place of a request that may be issued, if there is one.
    pub fn issuable(&self, program: &Program<'_>) -> Option<usize>
        ensures { MatchOption result ((is_some self.now.fault ≡ true)
            ⊎ NoneAskedMay (image_of program.now) self.now)
            (λ place. (place < length self.now.asked.items) × (is_some self.now.fault ≡ false)
            × AskedMay (image_of program.now) self.now place) }
    {
        if self.fault.is_some() {
            return None;
        }
        let mut place = self.asked.len();
        while place > 0 {
            place -= 1;
            if self.may_issue(program, self.asked[place]) {
                return Some(place);
            }
        }
        None
    }

    /// The place of the request that is next, where there is a hint of it.
    pub fn next_up(&self, program: &Program<'_>) -> Option<usize>
        ensures { IfSome result (λ place. (place < length self.now.asked.items)
            × (is_some self.now.fault ≡ false)
            × AskedMay (image_of program.now) self.now place) }
    {
        let place = self.hints.next(&self.chain)? as usize;
        if self.fault.is_none()
            && place < self.asked.len()
            && self.may_issue(program, self.asked[place])
        {
            return Some(place);
        }
        None
    }

    /// Whether a request may be issued, where the chain isn't stopped.
    pub fn may_issue(&self, program: &Program<'_>, asked: Asked) -> bool
        ensures { result ≡ may_flag (image_of program.now)
            (chain_of self.now.chain) asked.wave asked.instr asked.operands.first }
    {
        let note = program.note(asked.instr);
        let op = program.op(asked.instr);
        asked.wave == self.chain.wave
            && (self.chain.is_next(note)
                || (op.is_load()
                    && !program.is_past(op, asked.operands.first)
                    && note.ripple <= self.chain.position()))
    }

    /// The place of the request of an instance, if it may be issued.
    pub fn ready(&self, program: &Program<'_>, wave: u64, instr: u32) -> Option<usize>
        ensures { MatchOption result (NotReady (image_of program.now) self.now wave instr)
            (λ place. (place < length self.now.asked.items) × (is_some self.now.fault ≡ false)
            × AskedMay (image_of program.now) self.now place
            × (asked_at self.now place).wave ≡ wave × (asked_at self.now place).instr ≡ instr) }
    {
        if self.fault.is_some() {
            return None;
        }
        let mut place = self.asked.len();
        while place > 0 {
            place -= 1;
            let asked = self.asked[place];
            if asked.wave == wave && asked.instr == instr && self.may_issue(program, asked) {
                return Some(place);
            }
        }
        None
    }

    /// Issues a request that may be issued; one out of bounds stops the chain.
    pub fn issue(&mut self, program: &Program<'_>, place: usize)
        requires going { GoingBeside (image_of program.now) [] self.old }
        requires place { place < length self.old.asked.items }
        requires running { is_some self.old.fault ≡ false }
        requires may { AskedMay (image_of program.now) self.old place }
        requires room { FlowRoom self.old 0 0 }
        requires fired { self.old.fired < 2 ^ 64 }
        ensures leads { EventLeads (image_of program.now)
            (Issue (asked_at self.old place).wave (asked_at self.old place).instr)
            [] self.old self.new }
        ensures room { (n : ℕ) → FlowRoom self.old 0 n → FlowRoom self.new 0 n }
        ensures count { self.new.fired ≡ self.old.fired }
        ensures gone { self.new.memory.gone ≡ self.old.memory.gone }
        ensures weight { weight self.new < weight self.old }
    {
        let asked = self.asked[place];
        let op = program.op(asked.instr);
        if program.is_past(op, asked.operands.first) {
            self.fault = Some(array_of(op));
            return;
        }
        let word = self
            .memory
            .run(op, asked.operands.first, asked.operands.second);
        self.asked.swap_remove(place);
        self.hints.forget(asked.wave, program.note(asked.instr));
        look_again(program, &self.asked, &mut self.hints, place);
        self.chain = pass_on(program, self.chain, &mut self.early, asked.instr);
        let dests = program.destinations(asked.instr, selector(op, asked.operands));
        self.way.send(dests, asked.wave, word);
    }

    // An instance fires: its request waits, or its result is in flight.
    fn fire(&mut self, program: &Program<'_>, op: Op, wave: u64, instr: u32, operands: Operands)
        requires formed { Formed (image_of program.now) }
        requires asked { vec_len self.old.asked < vec_capacity self.old.asked }
        requires now { vec_len self.old.way.now + 8 ≤ vec_capacity self.old.way.now }
        requires later { vec_len self.old.way.later + 8 ≤ vec_capacity self.old.way.later }
        requires wave { wave + 1 < 2 ^ 64 }
        requires fired { self.old.fired + 1 < 2 ^ 64 }
        ensures fired { self.new.fired ≡ self.old.fired + 1 }
        ensures slots { self.new.slots ≡ self.old.slots }
        ensures early { self.new.early ≡ self.old.early }
        ensures chain { self.new.chain ≡ self.old.chain }
        ensures fault { self.new.fault ≡ self.old.fault }
        ensures memory { self.new.memory ≡ self.old.memory }
        ensures room { (n : ℕ) → FlowRoom self.old 0 (suc n) → FlowRoom self.new 0 n }
        ensures weight { weight self.new ≤ weight self.old + 9 }
        ensures asked { is_memory_op op ≡ true →
            self.new.asked.items
            ≡ self.old.asked.items ++ record { wave = wave; instr = instr; operands = operands }
            ∷ [] }
        ensures not_sent { is_memory_op op ≡ true → self.new.way ≡ self.old.way }
        ensures not_asked { is_memory_op op ≡ false → self.new.asked ≡ self.old.asked }
        ensures sent { is_memory_op op ≡ false →
            SentTo self.old.way self.new.way (tokens_to (cond (is_advance_op op) (suc wave) wave)
            (result_of_op op (all_of operands))
            (destinations (image_of program.now) instr (selector_of op (all_of operands)))) }
    {
        self.fired += 1;
        if op.is_memory() {
            self.hints.set(wave, program.note(instr), self.asked.len());
            self.asked.push_reserved(Asked {
                wave,
                instr,
                operands,
            });
        } else {
            let word = op.result_on(operands.first, operands.second, operands.third);
            let dests = program.destinations(instr, selector(op, operands));
            let number = if op.is_advance() { wave + 1 } else { wave };
            self.way.send(dests, number, word);
        }
    }
}

// A request may have arrived at this place.
fn look_again(program: &Program<'_>, asked: &[Asked], hints: &mut Hints, place: usize) {
    if place < asked.len() {
        hints.set(asked[place].wave, program.note(asked[place].instr), place);
    }
}
