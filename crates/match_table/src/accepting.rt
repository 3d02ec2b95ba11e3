//! How a table takes a token.

ghost use Rattle.std.specs.Prelude.{◌<◌, ◌≡◌, ◌≤◌, ◌+◌, ◌^◌, IfErr, IsOk, None, true, false, IfOk};
ghost use Rattle.std.specs.Prelude.{MatchResult};
ghost use Rattle.ws_isa.specs.Formed.{Formed};
ghost use Rattle.ws_isa.specs.Image.{instr_at, is_memory, no_instr, ports};
ghost use Rattle.ws_isa.specs.Sound.{Sound};
ghost use Rattle.ws_isa.specs.Walk.{gather};
ghost use Rattle.df_core.specs.Core.{is_full};
ghost use Rattle.df_core.specs.Places.{image_of};
ghost use Rattle.match_table.specs.declared.meeting.Seen.TheVariants.{Waits, Fills};
ghost use Rattle.match_table.specs.declared.table.Took.TheVariants as took;
ghost use Rattle.match_table.specs.Matching.{Accepted, TookAs, Arrives, FiresSo, Full, HandedOn};
ghost use Rattle.match_table.specs.Matching.{IfNoMemory, Refused, has_fired, will_fire};
ghost use Rattle.match_table.specs.Pages.{KeyIs, arrived_in};
ghost use Rattle.match_table.specs.Ports.{listed, is_taken, with_port, alone, SeenSo};
ghost use Rattle.match_table.specs.Tables.{IsPlacedAt, held};

use crate::entry::{Arrived, Instance};
use crate::meeting::{Operands, Seen, is_taken, meet};
use crate::ops::{dests_of, number_of, op_of, result_of, selector};
use crate::table::{Accept, AcceptFault, Results, Table, Took};
use df_core::{Code, Job, PlacedInstr, Program, Request, Sent, Token};
use std::alloc::Global;
use ws_words::NoMemory;

impl<J: Job> Table<J> {
    // The token waits at its port.
    #[inline(always)]
    pub(crate) fn keep(&mut self, token: &Token<J>, key: Option<usize>, count: u8)
        requires formed { Formed J.image }
        requires sound { Sound J.image }
        requires ports { (count ≡ ports J.image token.now.instr) × (count ≤ 3) }
        requires key { KeyIs self.old.entries key token.now.wave token.now.instr }
        requires seen { SeenSo (arrived_in self.old.entries token.now.wave token.now.instr)
            token.now.port token.now.value count Waits }
        requires room { 0 < self.old.spare }
        ensures arrives { Arrives self.old token.now self.new }
        ensures waits { is_full (held self.new) token.now.wave token.now.instr
            (ports J.image token.now.instr) ≡ false }
        ensures fired { self.new.fired ≡ self.old.fired }
        ensures spare { self.old.spare ≤ self.new.spare + 1 }
    {
        let wave = token.wave();
        let instr = token.instr();
        let port = token.port();
        let value = token.value();
        self.room -= 1;
        let _ = self.pages.put(key, wave, instr, port, value);
    }

    // The token's instance is full, and fires. `asks` says whether it is one of memory.
    #[inline(always)]
    pub(crate) fn fire(&mut self, token: &Token<J>, key: Option<usize>, asks: bool)
        requires formed { Formed J.image }
        requires sound { Sound J.image }
        requires asks { is_memory J.image token.now.instr ≡ asks }
        requires key { KeyIs self.old.entries key token.now.wave token.now.instr }
        requires taken { is_taken (arrived_in self.old.entries token.now.wave token.now.instr)
            token.now.port ≡ false }
        requires full { is_full (alone (with_port
            (arrived_in self.old.entries token.now.wave token.now.instr) token.now.port token.now.value))
            0 0 (ports J.image token.now.instr) ≡ true }
        requires room { 0 < self.old.spare }
        ensures arrives { Arrives self.old token.now self.new }
        ensures full { Full J.image self.old token.now self.new (gather (alone (with_port
            (arrived_in self.old.entries token.now.wave token.now.instr) token.now.port token.now.value))
            0 0 0 (ports J.image token.now.instr)) }
        ensures spare { self.old.spare ≤ self.new.spare + 1 }
    {
        let wave = token.wave();
        let instr = token.instr();
        let port = token.port();
        let value = token.value();
        let instance = Instance { wave, instr };
        self.room -= 1;
        let key = self.pages.put(key, wave, instr, port, value);
        self.fired.push(key, instance);
        if asks {
            self.asked.push(key, instance);
        }
    }

    /// Takes a token: the core's match of it. Where its instance is full it fires. `Old` comes exactly
    /// where the port had its token before.
    pub fn accept(
        &mut self,
        alloc: Global,
        code: &Code<'_, J>,
        token: Token<J>,
    ) -> Result<Accept<J>, AcceptFault<J>>
        ensures answer { MatchResult result (Accepted J.image self.old token self.new)
            (Refused self.old token self.new) }
        ensures fires { IfOk result (λ answer. has_fired answer ≡ will_fire J.image self.old token) }

        // If there is room it isn't out of memory, and a token takes room for one.
        ensures memory { IfErr result (λ fault.
            IfNoMemory fault (0 < self.old.spare → token.wave + 1 < 2 ^ 64 → ⊥)) }
        ensures spare { self.old.spare ≤ self.new.spare + 1 }
    {
        let mut results = Results::none();
        let took = self.accept_into(code, &token, &mut results);
        let Results { sent, request } = results;
        match took {
            Took::Waits => Ok(Accept::Waits),
            Took::Fires => Ok(Accept::Fires(sent.listed(alloc))),
            Took::Asks => match request {
                Some(request) => Ok(Accept::Asks(request)),
                None => unreachable!(),
            },
            Took::Old => Err(AcceptFault::Old(token)),
            Took::NoMemory => Err(AcceptFault::NoMemory(token)),
        }
    }

    /// Does what `accept` does. The caller lends a place for what the instance hands on when it fires;
    /// nothing else stands there then.
    #[inline(always)]
    pub fn accept_into<'i>(
        &mut self,
        code: &Code<'i, J>,
        token: &Token<J>,
        results: &mut Results<'i, J>,
    ) -> Took
        ensures answer { TookAs J.image self.old token.now self.new results.new result }
        ensures fires { FiresSo result (will_fire J.image self.old token.now) }
        ensures memory { result ≡ took.NoMemory → 0 < self.old.spare → token.now.wave + 1 < 2 ^ 64 → ⊥ }
        ensures spare { self.old.spare ≤ self.new.spare + 1 }
    {
        let program = code.program();
        let instr = token.instr();
        let Some(placed) = program.place(instr) else {
            return self.accept_unplaced(code, token, results);
        };
        let placed = Some(placed);
        let (key, arrived) = self.pages.find(token.wave(), instr);
        self.take(program, placed, token, key, arrived, results)
    }

    // The same for a token whose instruction the code does not have.
    #[inline(never)]
    pub(crate) fn accept_unplaced<'i>(
        &mut self,
        code: &Code<'i, J>,
        token: &Token<J>,
        results: &mut Results<'i, J>,
    ) -> Took
        requires { instr_at J.image token.now.instr ≡ no_instr }
        ensures answer { TookAs J.image self.old token.now self.new results.new result }
        ensures fires { FiresSo result (will_fire J.image self.old token.now) }
        ensures memory { result ≡ took.NoMemory → 0 < self.old.spare → token.now.wave + 1 < 2 ^ 64 → ⊥ }
        ensures spare { self.old.spare ≤ self.new.spare + 1 }
    {
        let program = code.program();
        let (key, arrived) = self.pages.find(token.wave(), token.instr());
        self.take(program, None, token, key, arrived, results)
    }

    // Takes a token, whose instance has this entry.
    #[inline(always)]
    pub(crate) fn take<'i>(
        &mut self,
        program: &Program<'i>,
        placed: Option<PlacedInstr<'i>>,
        token: &Token<J>,
        key: Option<usize>,
        arrived: Option<Arrived>,
        results: &mut Results<'i, J>,
    ) -> Took
        requires image { image_of program.now ≡ J.image }
        requires placed { IsPlacedAt (image_of program.now) token.now.instr placed }
        requires formed { Formed J.image }
        requires sound { Sound J.image }
        requires key { KeyIs self.old.entries key token.now.wave token.now.instr }
        requires arrived { arrived ≡ arrived_in self.old.entries token.now.wave token.now.instr }
        ensures answer { TookAs J.image self.old token.now self.new results.new result }
        ensures fires { FiresSo result (will_fire J.image self.old token.now) }
        ensures memory { result ≡ took.NoMemory → 0 < self.old.spare → token.now.wave + 1 < 2 ^ 64 → ⊥ }
        ensures spare { self.old.spare ≤ self.new.spare + 1 }
    {
        let op = op_of(placed);
        let count = op.ports();
        let seen = self.meet(token, count, arrived);
        match seen {
            Seen::Old => {
                results.clear();
                Took::Old
            }
            Seen::Waits => {
                results.clear();
                if self.make_room().is_err() {
                    return Took::NoMemory;
                }
                self.keep(token, key, count);
                Took::Waits
            }
            Seen::Fills(operands) => {
                let Ok(took) = self.hand_on(program, placed, token, operands, results) else {
                    results.clear();
                    return Took::NoMemory;
                };
                if self.make_room().is_err() {
                    results.clear();
                    return Took::NoMemory;
                }
                self.fire(token, key, op.is_memory());
                took
            }
        }
    }

    // Hands on what the token's instance does once it is full with these operands.
    #[inline(always)]
    pub(crate) fn hand_on<'i>(
        &self,
        program: &Program<'i>,
        placed: Option<PlacedInstr<'i>>,
        token: &Token<J>,
        operands: Operands,
        results: &mut Results<'i, J>,
    ) -> Result<Took, NoMemory>
        requires image { image_of program.now ≡ J.image }
        requires placed { IsPlacedAt (image_of program.now) token.now.instr placed }
        requires formed { Formed J.image }
        requires sound { Sound J.image }
        requires seen { SeenSo (arrived_in self.now.entries token.now.wave token.now.instr)
            token.now.port token.now.value (ports J.image token.now.instr) (Fills operands) }
        ensures outcome { IfOk result (HandedOn J.image token.now (listed operands) results.new) }
        ensures few { token.now.wave + 1 < 2 ^ 64 → IsOk result }
    {
        let _ = &self.fired;
        let wave = token.wave();
        let instr = token.instr();
        let op = op_of(placed);
        if op.is_memory() {
            let request = Request::right(wave, instr, operands.first(), operands.second());
            results.ask(request);
            return Ok(Took::Asks);
        }
        let Some(number) = number_of(op, wave) else {
            return Err(NoMemory);
        };
        let dests = dests_of(program, placed, instr, selector(op, operands));
        let word = result_of(op, operands);
        results.send(Sent::right(number, dests, word));
        Ok(Took::Fires)
    }
}
