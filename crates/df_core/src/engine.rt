//! The core, event by event.

ghost use Rattle.std.specs.Prelude.{◌≡◌, true, ◌≤◌, ◌-◌, ◌+◌, ℕ, suc, [], drop, length, ◌⊎◌, is_some};
ghost use Rattle.std.specs.Prelude.{IfOk, OnOk, OnErr, IfErr, MatchOption};
ghost use Rattle.ws_words.specs.Outside.{World as Given, printed_words, row};
ghost use Rattle.ws_words.specs.Plain.{took_by_ports, world_of};
ghost use Rattle.ws_isa.specs.Image.{Image};
ghost use Rattle.df_core.specs.Core.{State, Match, Issue, core_opening};
ghost use Rattle.df_core.specs.Finishes.{is_fault};
ghost use Rattle.df_core.specs.Places.{image_of};
ghost use Rattle.df_core.specs.Flows.{NoneAskedMay, FlowFaultIs};
ghost use Rattle.df_core.specs.Quiet.{IsQuietly, OnlyFires};
ghost use Rattle.df_core.specs.Cores.{IsAt, Prepared, Makes, NotEnabled, IsEnabled, IsAtRest, SpendsAll};
ghost use Rattle.df_core.specs.Cores.{HasRoom, done, event_of, is_not_ready, EventsLead, IsRunning};
ghost use Rattle.df_core.specs.Cores.{SameStates, RoomFor, KeepsRoom, AnswersSo, gone, with_words};

use crate::drive::{Finish, run};
use crate::flow::Flow;
use crate::outset::open;
use crate::plain::Token;
use crate::program::Program;
use crate::quiet::quiet_token;
use std::alloc::Global;
use ws_isa::Checked;
use ws_words::{Cells, NoMemory, World};

/// A match of the token in flight to a port, or an issue of the request that waits.
#[derive(Clone, Copy, Debug, PartialEq, Eq)]
pub enum Event {
    Match { wave: u64, instr: u32, port: u8 },
    Issue { wave: u64, instr: u32 },
}

/// Why an event was not made.
#[derive(Clone, Copy, Debug, PartialEq, Eq)]
pub enum StepFault {
    NotReady,
    NoMemory,
}

/// A core in the middle of a run.
#[derive(Drop)]
pub struct Core<'i> {
    program: Program<'i>,
    flow: Flow<'i>,
}

impl<'i> Core<'i> {
    /// The opening state: the start pulse is in flight.
    pub fn begin(alloc: Global, image: &'i Checked, world: &'i World) -> Result<Core<'i>, NoMemory>
        ensures core { IfOk result IsRunning }
        ensures opening { IfOk result (λ core. IsAt image.now (world_of world.now) core
            (core_opening image.now (world_of world.now))) }
        ensures gone { IfOk result (λ core. gone core ≡ 0) }
    {
        let program = Program::of(alloc, image.image())?;
        let flow = open(alloc, &program, world)?;
        Ok(Core { program, flow })
    }

    /// Makes an event. After an error the state is as before. A step takes the room of one firing
    /// at most, so that what was prepared until a budget stays prepared.
    pub fn step(&mut self, event: Event) -> Result<(), StepFault>
        requires { IsRunning self.old }
        ensures core { IsRunning self.new }
        ensures made { OnOk result (Makes (event_of event) self.old self.new) }
        ensures refused { IfErr result (λ fault. is_not_ready fault ≡ true →
            NotEnabled (event_of event) self.old) }
        ensures kept { OnErr result (SameStates self.old self.new) }
        ensures gone { gone self.new ≡ gone self.old }
        ensures memory { HasRoom self.old → IfErr result (λ fault. is_not_ready fault ≡ true) }
        ensures room { (n : ℕ) → RoomFor self.old (suc n) → RoomFor self.new n }
        ensures prepared { (budget : ℕ) → Prepared self.old budget → (done self.new).fired ≤ budget →
            Prepared self.new budget }
    {
        match event {
            Event::Match { wave, instr, port } => self.make_match(wave, instr, port),
            Event::Issue { wave, instr } => self.make_issue(wave, instr),
        }
    }

    /// An event that is enabled, if there is one.
    pub fn pick(&self) -> Option<Event>
        requires { IsRunning self.now }
        ensures { MatchOption result (IsAtRest self.now)
            (λ event. IsEnabled (event_of event) self.now) }
    {
        if let Some(event) = self.issue() {
            return Some(event);
        }
        match self.flow.way.some() {
            Some(token) => Some(match_of(token)),
            None => None,
        }
    }

    /// An event that is enabled and fires no instance, if there is one.
    pub fn pick_quiet(&self) -> Option<Event>
        requires { IsRunning self.now }
        ensures { MatchOption result (OnlyFires self.now)
            (λ event. IsQuietly (event_of event) self.now) }
    {
        if let Some(event) = self.issue() {
            return Some(event);
        }
        match quiet_token(&self.program, &self.flow) {
            Some(token) => Some(match_of(token)),
            None => None,
        }
    }

    /// Makes room for a run until so many instances have fired in all.
    pub fn prepare(&mut self, budget: u64) -> Result<(), NoMemory>
        requires fired { (done self.old).fired ≤ budget }
        ensures core { IsRunning self.old → IsRunning self.new }
        ensures prepared { OnOk result (Prepared self.new budget) }
        ensures room { (n : ℕ) → RoomFor self.old n → RoomFor self.new n }
        ensures kept { SameStates self.old self.new }
        ensures gone { gone self.new ≡ gone self.old }
    {
        let fired = self.flow.fired;
        self.flow.prepare(budget - fired)
    }

    /// Makes events until none is enabled or so many instances have fired in all, and then issues
    /// what may be issued. Takes no memory.
    pub fn run(&mut self, budget: u64) -> Finish
        requires core { IsRunning self.old }
        requires prepared { Prepared self.old budget }
        ensures core { IsRunning self.new }
        ensures leads { EventsLead self.old self.new }
        ensures answer { (image : Image) (world : Given) (state : State) →
            IsAt image world self.old state →
            AnswersSo image world budget result self.new state }
        ensures gone { gone self.new ≡ gone self.old }
        ensures stopped { (image : Image) (world : Given) (state : State) →
            IsAt image world self.new state → state.stopped ≡ is_fault result }
        ensures spent { SpendsAll result self.old self.new }
        ensures room { KeepsRoom self.old self.new }
    {
        run(&self.program, &mut self.flow, budget)
    }

    /// The words printed so far, but for those that were taken.
    pub fn printed(&self) -> &[u64]
        ensures words { result.now ≡ (done self.now).printed }
        ensures state { (image : Image) (world : Given) (state : State) →
            IsAt image world self.now state →
            result.now ≡ drop (gone self.now) (printed_words state.memory.acts) }
    {
        &self.flow.memory.printed
    }

    /// Takes the printed words that are kept. If they are too many to be counted, nothing changes.
    /// What was prepared must be prepared again.
    pub fn take_printed(&mut self, alloc: Global) -> Result<Vec<u64>, NoMemory>
        ensures words { IfOk result (λ words. words.items ≡ (done self.old).printed) }
        ensures left { OnOk result (done self.new ≡ with_words [] (done self.old)) }
        ensures kept { OnErr result (self.new ≡ self.old) }
        ensures same { SameStates self.old self.new }
    {
        self.flow.memory.take_printed(alloc)
    }

    /// The cells of all arrays, in order, hidden ones too.
    pub fn cells(&self) -> &Cells
        ensures cells { result.now ≡ (done self.now).arrays }
        ensures state { (image : Image) (world : Given) (state : State) →
            IsAt image world self.now state → state.memory.cells ≡ result.now }
    {
        &self.flow.memory.cells
    }

    /// The words that a port has taken so far.
    pub fn took(&self, port: u8) -> &[u64]
        requires { 1 ≤ port }
        ensures words { result.now ≡ row (done self.now).took (port - 1) }
        ensures state { (image : Image) (world : Given) (state : State) →
            IsAt image world self.now state →
            row (took_by_ports state.memory.acts) (port - 1) ≡ result.now }
    {
        let place = (port - 1) as usize;
        if place < self.flow.memory.took.len() {
            &self.flow.memory.took[place]
        } else {
            &[]
        }
    }

    /// How many instances have fired.
    pub fn fired(&self) -> u64
        ensures fired { result ≡ (done self.now).fired }
        ensures state { (image : Image) (world : Given) (state : State) →
            IsAt image world self.now state → length state.fired ≡ result }
    {
        self.flow.fired
    }

    /// The array of the out-of-bounds load or store at which the chain is stopped, by its number from
    /// 1, if it is.
    pub fn fault(&self) -> Option<u32>
        ensures { (image : Image) (world : Given) (state : State) →
            IsAt image world self.now state → (state.stopped ≡ is_some result)
            × FlowFaultIs image world result }
    {
        self.flow.fault
    }

    // The issue of a request that may be issued, if there is one.
    fn issue(&self) -> Option<Event>
        requires { IsRunning self.now }
        ensures { MatchOption result ((is_some self.now.flow.fault ≡ true)
            ⊎ NoneAskedMay (image_of self.now.program) self.now.flow)
            (λ event. IsQuietly (event_of event) self.now) }
    {
        match self.flow.issuable(&self.program) {
            Some(place) => {
                let asked = self.flow.asked[place];
                Some(Event::Issue {
                    wave: asked.wave,
                    instr: asked.instr,
                })
            }
            None => None,
        }
    }

    fn make_match(&mut self, wave: u64, instr: u32, port: u8) -> Result<(), StepFault>
        requires { IsRunning self.old }
        ensures made { OnOk result (Makes (Match wave instr port) self.old self.new) }
        ensures refused { IfErr result (λ fault. is_not_ready fault ≡ true →
            NotEnabled (Match wave instr port) self.old) }
        ensures kept { OnErr result (SameStates self.old self.new) }
        ensures gone { gone self.new ≡ gone self.old }
        ensures memory { HasRoom self.old → IfErr result (λ fault. is_not_ready fault ≡ true) }
        ensures room { KeepsRoom self.old self.new }
        ensures count { (done self.new).fired ≤ (done self.old).fired + 1 }
    {
        if !self.flow.way.has(wave, instr, port) {
            return Err(StepFault::NotReady);
        }
        if self.flow.fired >= u64::MAX - 1 || self.flow.prepare(1).is_err() {
            return Err(StepFault::NoMemory);
        }
        match self.flow.way.take_at(wave, instr, port) {
            Some(token) => {
                self.flow.arrive(&self.program, token);
                self.flow.way.turn();
                Ok(())
            }
            None => Err(StepFault::NotReady),
        }
    }

    fn make_issue(&mut self, wave: u64, instr: u32) -> Result<(), StepFault>
        requires { IsRunning self.old }
        ensures made { OnOk result (Makes (Issue wave instr) self.old self.new) }
        ensures refused { IfErr result (λ fault. is_not_ready fault ≡ true →
            NotEnabled (Issue wave instr) self.old) }
        ensures kept { OnErr result (SameStates self.old self.new) }
        ensures gone { gone self.new ≡ gone self.old }
        ensures memory { HasRoom self.old → IfErr result (λ fault. is_not_ready fault ≡ true) }
        ensures room { KeepsRoom self.old self.new }
        ensures count { (done self.new).fired ≤ (done self.old).fired + 1 }
    {
        match self.flow.ready(&self.program, wave, instr) {
            Some(place) => {
                if self.flow.fired == u64::MAX {
                    return Err(StepFault::NoMemory);
                }
                if self.flow.prepare(0).is_err() {
                    return Err(StepFault::NoMemory);
                }
                self.flow.issue(&self.program, place);
                Ok(())
            }
            None => Err(StepFault::NotReady),
        }
    }
}

fn match_of(token: Token) -> Event
    ensures { event_of result ≡ Match token.wave token.instr token.port }
{
    Event::Match {
        wave: token.wave,
        instr: token.instr,
        port: token.port,
    }
}
