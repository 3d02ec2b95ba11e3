//! Where tokens wait for their partners.

ghost use Rattle.std.specs.Prelude.{◌≡◌, ◌<◌, ◌≤◌, ℕ, ◌+◌, Option, Some, None, length, is_some};
ghost use Rattle.std.specs.Prelude.{replicate, IfOk, IsOk, OnOk, MatchOption, ◌||◌, ◌⊎◌, eqb, cond, false};
ghost use Rattle.std.specs.HashMap.{IsEmpty, spare};
ghost use Rattle.ws_isa.specs.Walk.{gather};
ghost use Rattle.df_core.specs.Core.{is_full, with_at};
ghost use Rattle.df_core.specs.Stands.{cleared};
ghost use Rattle.df_core.specs.Partial.{empty_slot, is_empty_slot, port_of, with_port, slotted, spilled};
ghost use Rattle.df_core.specs.Partial.{spilled_at, partial_of, listed};
ghost use Rattle.df_core.specs.Matches.{AwaitsOthers, Completes};

use crate::plain::{Operands, Token};
use std::alloc::Global;
use std::collections::HashMap;
use ws_words::NoMemory;

/// The tokens of one instance of an instruction.
#[derive(Clone, Copy)]
pub struct Slot {
    pub wave: u64,
    pub first: Option<u64>,
    pub second: Option<u64>,
    pub third: Option<u64>,
}

/// The tokens that have arrived at instances that aren't full. Each instruction has a slot for one
/// instance; tokens of other instances of it are spilled, and found by wave number and instruction.
#[derive(Drop)]
pub struct MatchStore {
    pub slots: Vec<Slot>,
    pub spill: HashMap<(u64, u32), Slot>,
}

impl Slot {
    /// No token.
    pub fn empty() -> Slot
        ensures { result ≡ empty_slot }
    {
        Slot {
            wave: 0,
            first: None,
            second: None,
            third: None,
        }
    }

    fn is_empty(&self) -> bool
        ensures { result ≡ is_empty_slot self.now }
    {
        self.first.is_none() && self.second.is_none() && self.third.is_none()
    }

    fn get(&self, port: u8) -> Option<u64>
        ensures { result ≡ port_of self.now port }
    {
        match port {
            0 => self.first,
            1 => self.second,
            2 => self.third,
            _ => None,
        }
    }

    // Whether the tokens of an instance under this wave number may be put here.
    #[inline(always)]
    fn has_room(&self, wave: u64) -> bool
        ensures { result ≡ eqb self.now.wave wave || is_empty_slot self.now }
    {
        self.wave == wave || self.is_empty()
    }

    // A token arrives at an instance with two ports: its operands, if the other one is here.
    #[inline(always)]
    fn pair(&mut self, token: Token) -> Option<Operands>
        requires { token.port < 2 }
        ensures { let full = with_port self.old token.wave token.port token.value in
            MatchOption result
            ((self.new ≡ full) × ((is_some full.first ≡ false) ⊎ (is_some full.second ≡ false)))
            (λ o. (self.new ≡ empty_slot) × (full.first ≡ Some o.first) × (full.second ≡ Some o.second)) }
    {
        let other = if token.port == 0 {
            self.second
        } else {
            self.first
        };
        match other {
            Some(other) => {
                *self = Slot::empty();
                Some(operands_of(token, other))
            }
            None => {
                self.put(token);
                None
            }
        }
    }

    // Puts a token at one of the first two ports.
    #[inline(always)]
    fn put(&mut self, token: Token)
        requires { token.port < 2 }
        ensures { self.new ≡ with_port self.old token.wave token.port token.value }
    {
        self.wave = token.wave;
        if token.port == 0 {
            self.first = Some(token.value);
        } else {
            self.second = Some(token.value);
        }
    }

    // With a token at one of its three ports.
    fn with(self, wave: u64, port: u8, value: u64) -> Slot
        ensures { result ≡ with_port self wave port value }
    {
        match port {
            0 => Slot {
                wave,
                first: Some(value),
                second: self.second,
                third: self.third,
            },
            1 => Slot {
                wave,
                first: self.first,
                second: Some(value),
                third: self.third,
            },
            _ => Slot {
                wave,
                first: self.first,
                second: self.second,
                third: Some(value),
            },
        }
    }
}

impl MatchStore {
    /// No tokens, for so many instructions.
    pub fn open(alloc: Global, count: usize) -> Result<MatchStore, NoMemory>
        ensures slots { IfOk result (λ slots. slots.slots.items ≡ replicate count empty_slot) }
        ensures spill { IfOk result (λ slots. IsEmpty slots.spill) }
    {
        Ok(MatchStore {
            slots: vec![in alloc; Slot::empty(); count]?,
            spill: HashMap::new(alloc),
        })
    }

    /// Makes room for so many tokens that are spilled.
    pub fn reserve(&mut self, tokens: usize) -> Result<(), NoMemory>
        ensures slots { self.new.slots ≡ self.old.slots }
        ensures spilled { (w i p : ℕ) → spilled self.new.spill w i p
            ≡ spilled self.old.spill w i p }
        ensures room { OnOk result (tokens ≤ spare self.new.spill) }
        ensures kept { spare self.old.spill ≤ spare self.new.spill }
        ensures succeeds { tokens ≤ spare self.old.spill → IsOk result }
    {
        self.spill.reserve(tokens)?;
        Ok(())
    }

    /// The token at a port of an instance.
    #[inline(always)]
    pub fn at(&self, wave: u64, instr: u32, port: u8) -> Option<u64>
        ensures { result ≡ partial_of self.now.slots.items self.now.spill wave instr port }
    {
        let held = self.slotted(wave, instr, port);
        if held.is_some() || self.spill.is_empty() {
            return held;
        }
        self.spilled(wave, instr).get(port)
    }

    /// A token arrives at a free port of an instance with so many ports. If it is the last one, these are
    /// the operands, and the instance's slot is free again.
    #[inline(always)]
    pub fn match_token(&mut self, token: Token, ports: u8) -> Option<Operands>
        requires port { token.port < ports }
        requires ports { ports < 4 }
        requires free { partial_of self.old.slots.items self.old.spill token.wave token.instr token.port
            ≡ None }
        requires room { 0 < spare self.old.spill }
        ensures matched { MatchOption result
            (AwaitsOthers token ports (partial_of self.old.slots.items self.old.spill)
            (partial_of self.new.slots.items self.new.spill))
            (Completes token ports (partial_of self.old.slots.items self.old.spill)
            (partial_of self.new.slots.items self.new.spill)) }
        ensures slots { length self.new.slots.items ≡ length self.old.slots.items }
        ensures room { spare self.old.spill ≤ spare self.new.spill + 1 }
    {
        let place = token.instr as usize;
        if ports == 2
            && self.spill.is_empty()
            && place < self.slots.len()
            && self.slots[place].has_room(token.wave)
        {
            self.slots[place].pair(token)
        } else {
            self.match_anywhere(token, ports)
        }
    }

    // The same, wherever the tokens of its instance are.
    #[inline(never)]
    fn match_anywhere(&mut self, token: Token, ports: u8) -> Option<Operands>
        requires port { token.port < 3 }
        requires ports { ports < 4 }
        requires free { partial_of self.old.slots.items self.old.spill token.wave token.instr token.port
            ≡ None }
        requires room { 0 < spare self.old.spill }
        ensures matched { MatchOption result
            (AwaitsOthers token ports (partial_of self.old.slots.items self.old.spill)
            (partial_of self.new.slots.items self.new.spill))
            (Completes token ports (partial_of self.old.slots.items self.old.spill)
            (partial_of self.new.slots.items self.new.spill)) }
        ensures slots { length self.new.slots.items ≡ length self.old.slots.items }
        ensures room { spare self.old.spill ≤ spare self.new.spill + 1 }
    {
        self.put(token);
        if !self.is_full(token.wave, token.instr, ports) {
            return None;
        }
        let operands = self.operands(token.wave, token.instr, ports);
        self.clear(token.wave, token.instr);
        Some(operands)
    }

    /// Puts a token at a port that has none.
    pub fn put(&mut self, token: Token)
        requires port { token.port < 3 }
        requires free { partial_of self.old.slots.items self.old.spill token.wave token.instr token.port
            ≡ None }
        requires room { 0 < spare self.old.spill }
        ensures partial { (w i p : ℕ) →
            partial_of self.new.slots.items self.new.spill w i p
            ≡ with_at token.wave token.instr token.port (Some token.value)
            (partial_of self.old.slots.items self.old.spill) w i p }
        ensures slots { length self.new.slots.items ≡ length self.old.slots.items }
        ensures room { spare self.old.spill ≤ spare self.new.spill + 1 }
    {
        let place = token.instr as usize;
        if place < self.slots.len() {
            let slot = self.slots[place];
            if slot.wave == token.wave || slot.is_empty() {
                self.slots[place] = slot.with(token.wave, token.port, token.value);
                return;
            }
        }
        self.put_spilled(token);
    }

    /// Takes all tokens of an instance away.
    pub fn clear(&mut self, wave: u64, instr: u32)
        ensures partial { (w i p : ℕ) →
            partial_of self.new.slots.items self.new.spill w i p
            ≡ cleared wave instr (partial_of self.old.slots.items self.old.spill) w i p }
        ensures slots { length self.new.slots.items ≡ length self.old.slots.items }
        ensures room { spare self.old.spill ≤ spare self.new.spill }
    {
        empty_slot_of(&mut self.slots, wave, instr);
        self.drop_spilled(wave, instr);
    }

    /// Whether an instance has all of its tokens.
    pub fn is_full(&self, wave: u64, instr: u32, ports: u8) -> bool
        requires { ports < 4 }
        ensures { result
            ≡ is_full (partial_of self.now.slots.items self.now.spill) wave instr ports }
    {
        if ports > 2 && self.at(wave, instr, 2).is_none() {
            return false;
        }
        if ports > 1 && self.at(wave, instr, 1).is_none() {
            return false;
        }
        ports < 1 || self.at(wave, instr, 0).is_some()
    }

    /// The operands of an instance.
    pub fn operands(&self, wave: u64, instr: u32, ports: u8) -> Operands
        requires { ports < 4 }
        ensures { listed ports result
            ≡ gather (partial_of self.now.slots.items self.now.spill) wave instr 0 ports }
    {
        Operands {
            first: self.at(wave, instr, 0).unwrap_or(0),
            second: self.at(wave, instr, 1).unwrap_or(0),
            third: self.at(wave, instr, 2).unwrap_or(0),
        }
    }

    // Puts a token with those of its instance that are spilled.
    #[inline(never)]
    fn put_spilled(&mut self, token: Token)
        requires port { token.port < 3 }
        requires room { 0 < spare self.old.spill }
        ensures spilled { (w i p : ℕ) → spilled self.new.spill w i p
            ≡ with_at token.wave token.instr token.port (Some token.value)
            (spilled self.old.spill) w i p }
        ensures slots { self.new.slots ≡ self.old.slots }
        ensures room { spare self.old.spill ≤ spare self.new.spill + 1 }
    {
        let slot = self
            .spilled(token.wave, token.instr)
            .with(token.wave, token.port, token.value);
        match self.spill.insert((token.wave, token.instr), slot) {
            Ok(_) => {}
            Err(_) => unreachable!(),
        }
    }

    // Takes those of an instance away.
    fn drop_spilled(&mut self, wave: u64, instr: u32)
        ensures spilled { (w i p : ℕ) → spilled self.new.spill w i p
            ≡ cleared wave instr (spilled self.old.spill) w i p }
        ensures slots { self.new.slots ≡ self.old.slots }
        ensures room { spare self.old.spill ≤ spare self.new.spill }
    {
        if !self.spill.is_empty() {
            self.remove_spilled(wave, instr);
        }
    }

    // The same, where some are spilled.
    #[inline(never)]
    fn remove_spilled(&mut self, wave: u64, instr: u32)
        ensures spilled { (w i p : ℕ) → spilled self.new.spill w i p
            ≡ cleared wave instr (spilled self.old.spill) w i p }
        ensures slots { self.new.slots ≡ self.old.slots }
        ensures room { spare self.old.spill ≤ spare self.new.spill }
    {
        self.spill.remove(&(wave, instr));
    }

    // The tokens of an instance that are spilled.
    #[inline(never)]
    fn spilled(&self, wave: u64, instr: u32) -> Slot
        ensures { result ≡ spilled_at self.now.spill wave instr }
    {
        match self.spill.get(&(wave, instr)) {
            Some(slot) => *slot,
            None => Slot::empty(),
        }
    }

    // The token at a port of an instance that its instruction's slot has. The slot isn't copied, since
    // most often one of its ports was written just before.
    #[inline(always)]
    fn slotted(&self, wave: u64, instr: u32, port: u8) -> Option<u64>
        ensures { result ≡ slotted self.now.slots.items wave instr port }
    {
        match self.slots.get(instr as usize) {
            Some(slot) if slot.wave == wave => slot.get(port),
            _ => None,
        }
    }
}

// A token's value and that of the other of two ports, by port.
#[inline(always)]
fn operands_of(token: Token, other: u64) -> Operands
    ensures first { result.first ≡ cond (eqb token.port 0) token.value other }
    ensures second { result.second ≡ cond (eqb token.port 0) other token.value }
{
    if token.port == 0 {
        Operands {
            first: token.value,
            second: other,
            third: 0,
        }
    } else {
        Operands {
            first: other,
            second: token.value,
            third: 0,
        }
    }
}

// Empties the slot of an instruction where it has an instance's tokens.
fn empty_slot_of(slots: &mut Vec<Slot>, wave: u64, instr: u32)
    ensures slotted { (w i p : ℕ) → slotted slots.new.items w i p
        ≡ cleared wave instr (slotted slots.old.items) w i p }
    ensures count { length slots.new.items ≡ length slots.old.items }
{
    let place = instr as usize;
    if place < slots.len() && slots[place].wave == wave {
        slots[place] = Slot::empty();
    }
}
