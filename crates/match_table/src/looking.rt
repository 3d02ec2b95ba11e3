//! Reading a table.

ghost use Rattle.std.specs.Prelude.{◌<◌, ◌≡◌, ◌≤◌, None, true, false, length, slice_index_or};
ghost use Rattle.ws_isa.specs.Formed.{Formed};
ghost use Rattle.ws_isa.specs.Image.{ports};
ghost use Rattle.ws_isa.specs.Sound.{Sound};
ghost use Rattle.df_core.specs.Core.{Key, HasFired, has, operands_in};
ghost use Rattle.match_table.specs.declared.meeting.Seen.TheVariants.{Waits, Fills};
ghost use Rattle.match_table.specs.Matching.{IsOldSo, will_fire};
ghost use Rattle.match_table.specs.Pages.{arrived_in};
ghost use Rattle.match_table.specs.Ports.{listed, is_taken, SeenSo};
ghost use Rattle.match_table.specs.Spots.{instance_key, key_in, PlacedSo};
ghost use Rattle.match_table.specs.Tables.{held, key_of, of_memory};

use crate::course::Course;
use crate::entry::{Arrived, Instance};
use crate::instances::Listed;
use crate::meeting::{Seen, is_taken, meet, operands_of};
use crate::table::{Fired, Table};
use df_core::{Code, Job, Token};

impl<J: Job> Table<J> {
    /// Whether a port of an instance has had its token.
    pub fn holds(&self, wave: u64, instr: u32, port: u8) -> bool
        ensures { result ≡ has (held self.now wave instr port) }
    {
        is_taken(self.pages.look(wave, instr), port)
    }

    /// The same. Its page is looked for first where the course says, which then knows where it stands.
    #[inline(always)]
    pub fn holds_on(&self, course: &mut Course, wave: u64, instr: u32, port: u8) -> bool
        ensures { result ≡ has (held self.now wave instr port) }
    {
        is_taken(self.pages.look_on(course, wave, instr), port)
    }

    /// Where its pages were found last.
    pub fn course(&self) -> Course {
        self.pages.course()
    }

    /// How many instances have fired here.
    #[inline(always)]
    pub fn fired_count(&self) -> usize
        ensures { result ≡ length self.now.fired }
    {
        self.fired.len()
    }

    /// How many of them are of memory.
    #[inline(always)]
    pub fn asked_count(&self) -> usize
        ensures { result ≡ length (of_memory J.image self.now.fired) }
    {
        self.asked.len()
    }

    /// The wave number and the instruction of the instance that fired here at this place, from 0, in the
    /// order of firing.
    #[inline(always)]
    pub fn key_at(&self, place: usize) -> (u64, u32)
        requires { place < length self.now.fired }
        ensures { (d : Key) → slice_index_or self.now.fired place d
            ≡ record { wave = result.0; instr = result.1 } }
    {
        let instance = self.listed(self.fired.at(place));
        (instance.wave, instance.instr)
    }

    /// The wave number and the instruction of the instance of memory that fired here at this place, from 0,
    /// in the order of those.
    #[inline(always)]
    pub fn asked_key_at(&self, place: usize) -> (u64, u32)
        requires { place < length (of_memory J.image self.now.fired) }
        ensures { (d : Key) → slice_index_or (of_memory J.image self.now.fired) place d
            ≡ record { wave = result.0; instr = result.1 } }
    {
        let instance = self.listed(self.asked.at(place));
        (instance.wave, instance.instr)
    }

    /// The instance that fired here at this place, from 0, in the order of firing.
    #[inline(always)]
    pub fn fired_at(&self, code: &Code<'_, J>, place: usize) -> Fired
        requires { place < length self.now.fired }
        ensures at { (d : Key) → slice_index_or self.now.fired place d ≡ key_of result }
        ensures operands { listed result.operands
            ≡ operands_in J.image (held self.now) result.wave result.instr }
    {
        let mut course = self.course();
        self.fired_on(&mut course, code, place)
    }

    /// The same. Its page is looked for first where the course says, which then knows where it stands.
    #[inline(always)]
    pub fn fired_on(&self, course: &mut Course, code: &Code<'_, J>, place: usize) -> Fired
        requires { place < length self.now.fired }
        ensures at { (d : Key) → slice_index_or self.now.fired place d ≡ key_of result }
        ensures operands { listed result.operands
            ≡ operands_in J.image (held self.now) result.wave result.instr }
    {
        let instance = self.listed(self.fired.at(place));
        self.fired_with(course, code, instance)
    }

    /// The instance of memory that fired here at this place, from 0, in the order of those.
    #[inline(always)]
    pub fn asked_at(&self, code: &Code<'_, J>, place: usize) -> Fired
        requires { place < length (of_memory J.image self.now.fired) }
        ensures at { (d : Key) → slice_index_or (of_memory J.image self.now.fired) place d
            ≡ key_of result }
        ensures operands { listed result.operands
            ≡ operands_in J.image (held self.now) result.wave result.instr }
    {
        let mut course = self.course();
        let instance = self.listed(self.asked.at(place));
        self.fired_with(&mut course, code, instance)
    }

    // An instance that is listed so.
    #[inline(always)]
    fn listed(&self, listed: Listed) -> Instance
        requires { PlacedSo self.now.entries.slots listed }
        ensures { instance_key result ≡ key_in self.now.entries.slots listed }
    {
        match listed {
            Listed::Spot(spot) => self.pages.instance(spot),
            Listed::Other(instance) => instance,
        }
    }

    // An instance that has fired, with its operands.
    #[inline(always)]
    pub(crate) fn fired_with(
        &self,
        course: &mut Course,
        code: &Code<'_, J>,
        instance: Instance,
    ) -> Fired
        requires { HasFired self.now.fired instance.wave instance.instr }
        ensures key { key_of result ≡ record { wave = instance.wave; instr = instance.instr } }
        ensures operands { listed result.operands
            ≡ operands_in J.image (held self.now) result.wave result.instr }
    {
        let _ = &self.fired;
        let ports = code.program().op(instance.instr).ports();
        let Some(arrived) = self.pages.look_on(course, instance.wave, instance.instr) else {
            unreachable!();
        };
        match operands_of(arrived, ports) {
            Some(operands) => Fired {
                wave: instance.wave,
                instr: instance.instr,
                operands,
            },
            None => unreachable!(),
        }
    }

    // What a token finds here, where this has arrived at its instance.
    #[inline(always)]
    pub(crate) fn meet(&self, token: &Token<J>, count: u8, arrived: Option<Arrived>) -> Seen
        requires formed { Formed J.image }
        requires sound { Sound J.image }
        requires ports { (count ≡ ports J.image token.now.instr) × (count ≤ 3) }
        requires arrived { arrived ≡ arrived_in self.now.entries token.now.wave token.now.instr }
        ensures seen { SeenSo (arrived_in self.now.entries token.now.wave token.now.instr)
            token.now.port token.now.value count result }
        ensures old { IsOldSo self.now token.now result }
    {
        let _ = &self.fired;
        token.facts();
        meet(arrived, token.port(), token.value(), count)
    }

    /// Whether the token would fire its instance.
    pub fn would_fire(&self, code: &Code<'_, J>, token: &Token<J>) -> bool
        ensures { result ≡ will_fire J.image self.now token.now }
    {
        let wave = token.wave();
        let instr = token.instr();
        let program = code.program();
        let count = program.op(instr).ports();
        let arrived = self.pages.look(wave, instr);
        let seen = self.meet(token, count, arrived);
        match seen {
            Seen::Fills(_) => true,
            Seen::Waits => false,
            Seen::Old => false,
        }
    }
}
