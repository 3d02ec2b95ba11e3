//! The run of a crew.

ghost use Rattle.std.specs.Prelude.{◌≡◌, ◌+◌, ◌*◌, ◌<◌, ◌≤◌, ◌-◌, ◌^◌, ℕ, [], IfOk, cond, length};
ghost use Rattle.ws_isa.specs.Walk.{CostAtMost};
ghost use Rattle.port_set.specs.Slots.{AllOpen, contents};
ghost use Rattle.store_buf.specs.Outdoors.{AllBegan};
ghost use Rattle.match_table.specs.Growth.{AllGrow};
ghost use Rattle.match_table.specs.Rows.{contents as all_contents};
ghost use Rattle.match_table.specs.Together.{AllServe, part_of};
ghost use Rattle.store_buf.specs.declared.finish.RunFinish.TheVariants as finish;
ghost use Rattle.fire_crew.specs.Ends.{IsGoing};
ghost use Rattle.fire_crew.specs.Finishes.{EndsSo, LeavesAll};
ghost use Rattle.fire_crew.specs.Verdicts.{EndingSo, MovedOn};

use crate::Gate;
use crate::ends::few_tokens;
use crate::finish::{CrewEnd, crew_end};
use crate::judge::{Ending, find_owed};
use crate::share::Shared;
use crate::shares::fitting;
use df_core::{Code, Job, TokenList};
use match_table::{Tables, fired};
use port_set::{Port, Slots};
use std::alloc::Global;
use std::sync::Wait;
use std::thread::Threads;
use store_buf::{Buffer, RunFinish};
use ws_words::{NoMemory, Words};

// How many tokens one worker brings alone behind the first phase.
const STRETCH: u64 = 4096;

// How many times as many behind each that follows, so that what is looked at after phases stays little.
const LONGER: u64 = 64;

/// Who runs an image: from 1 to 8 workers, and the gate that each asks before it brings a token. They go on
/// until so many instances have fired.
#[derive(Drop)]
pub struct Crew<'a, G, R> {
    pub rt: &'a R,
    pub alloc: Global,
    pub gate: &'a G,
    pub workers: u32,
    pub budget: u64,
    pub ghost few: { (1 ≤ workers) × (workers ≤ 8) },
}

/// Where a run has ended, and after how many phases.
#[derive(Drop)]
pub struct CrewLeft<J: Job, P: Port> {
    pub tables: Tables<J>,
    pub buffer: Buffer<J, P>,
    pub ending: Ending,
    pub phases: u64,
}

impl<'a, G: Gate, R: Threads + Wait + Sync> Crew<'a, G, R> {
    /// Runs phase after phase until the run has ended. Each phase but the last has brought a token that no
    /// table had, so that there are no more phases than one and the tokens that the tables hold: no more
    /// than one and three for each instance of the walk.
    pub fn run_on<J: Job + Send + Sync, P: Port + Send>(
        &self,
        code: &Code<'_, J>,
        tables: Tables<J>,
        buffer: Buffer<J, P>,
    ) -> CrewLeft<J, P>
        requires serve { AllServe tables }
        requires within { length (part_of tables).fired ≤ self.now.budget }
        ensures serve { AllServe result.tables }
        ensures within { length (part_of result.tables).fired ≤ self.now.budget }
        ensures ended { EndingSo J.image J.world J.began (part_of result.tables).fired
            (self.now.budget - length (part_of result.tables).fired) result.buffer result.ending }
        ensures grow { AllGrow (all_contents tables) (all_contents result.tables) }
        ensures moved { MovedOn (part_of tables).held (part_of result.tables).held result.phases }
        ensures few { (cost : ℕ) → CostAtMost J.image J.world cost → result.phases ≤ 3 * cost + 1 }
    {
        let ended = self.run_phases(code, tables, buffer);
        few_tokens(code, &ended.tables);
        ended
    }

    // Runs phase after phase, and a stretch of one worker behind each.
    fn run_phases<J: Job + Send + Sync, P: Port + Send>(
        &self,
        code: &Code<'_, J>,
        tables: Tables<J>,
        buffer: Buffer<J, P>,
    ) -> CrewLeft<J, P>
        requires serve { AllServe tables }
        requires within { length (part_of tables).fired ≤ self.now.budget }
        ensures serve { AllServe result.tables }
        ensures within { length (part_of result.tables).fired ≤ self.now.budget }
        ensures ended { EndingSo J.image J.world J.began (part_of result.tables).fired
            (self.now.budget - length (part_of result.tables).fired) result.buffer result.ending }
        ensures grow { AllGrow (all_contents tables) (all_contents result.tables) }
        ensures moved { MovedOn (part_of tables).held (part_of result.tables).held result.phases }
    {
        let mut buffer = buffer;
        let mut phases = 0;
        let mut most = STRETCH;
        let tokens = match find_owed(self.alloc, code, &tables, &mut buffer) {
            Ok(owed) => owed,
            Err(ending) => {
                return CrewLeft {
                    tables,
                    buffer,
                    ending,
                    phases,
                };
            }
        };
        let mut tables = tables;
        let mut tokens = tokens;
        for round in 0..u64::MAX {
            let Shared { left, is_phase } = self.share(code, tables, buffer, tokens, phases == 0);
            phases = counted(phases, is_phase);
            if let Some(ending) = left.ending {
                return CrewLeft {
                    tables: left.tables,
                    buffer: left.buffer,
                    ending,
                    phases,
                };
            }
            let left = self.go_alone(code, left.tables, left.buffer, left.tokens, most);
            if let Some(ending) = left.ending {
                return CrewLeft {
                    tables: left.tables,
                    buffer: left.buffer,
                    ending,
                    phases,
                };
            }
            tables = left.tables;
            buffer = left.buffer;
            tokens = left.tokens;
            most = most.saturating_mul(LONGER);
        }

        // So many tokens take more memory than there is.
        CrewLeft {
            tables,
            buffer,
            ending: Ending::Starved,
            phases,
        }
    }

    /// Runs the image of a job with so many workers, until the whole walk has been run, so many instances
    /// have fired, or a port fails. The job names this image, this input, and the ports as they are handed
    /// in, with the words that they have left.
    pub fn run_over<J: Job + Send + Sync, P: Port + Send>(
        &self,
        code: &Code<'_, J>,
        input: Words,
        ports: Slots<P>,
    ) -> CrewEnd<J, P>
        requires input { input ≡ J.world.input }
        requires ports { AllBegan J.began J.world.left (contents P.tells ports) }
        requires open { AllOpen (contents P.tells ports) }
        ensures serve { AllServe result.tables }
        ensures within { length (part_of result.tables).fired ≤ self.now.budget }
        ensures finish { EndsSo J.image J.world J.began self.now.budget (part_of result.tables).fired
            (contents P.tells ports) (contents P.tells result.ports) result.finish }
        ensures all { LeavesAll result.finish (all_contents result.tables) }
        ensures open { AllOpen (contents P.tells result.ports) }
    {
        let Ok(tables) = fresh_tables(self.alloc) else {
            return starved_crew(self.alloc, ports);
        };
        match Buffer::begin(self.alloc, code, input, ports) {
            Ok(buffer) => {
                let CrewLeft {
                    tables,
                    buffer,
                    ending,
                    phases: _,
                } = self.run_from(code, tables, buffer);
                let end = crew_end(code, &tables, buffer, ending, self.budget);
                CrewEnd {
                    finish: end.finish,
                    ports: end.ports,
                    tables,
                }
            }
            Err(ports) => starved_crew(self.alloc, ports),
        }
    }

    // Runs the code from its start with its opening buffer. One worker runs it alone, in no phase.
    fn run_from<J: Job + Send + Sync, P: Port + Send>(
        &self,
        code: &Code<'_, J>,
        tables: Tables<J>,
        buffer: Buffer<J, P>,
    ) -> CrewLeft<J, P>
        requires serve { AllServe tables }
        requires fresh { length (part_of tables).fired ≡ 0 }
        requires going { IsGoing buffer }
        requires none { buffer.kept ≡ [] }
        ensures serve { AllServe result.tables }
        ensures as_many { length (all_contents result.tables) ≡ length (all_contents tables) }
        ensures within { length (part_of result.tables).fired ≤ self.now.budget }
        ensures ended { EndingSo J.image J.world J.began (part_of result.tables).fired
            (self.now.budget - length (part_of result.tables).fired) result.buffer result.ending }
    {
        if self.workers == 1 {
            return self.run_solo(code, tables, buffer);
        }
        self.run_on(code, tables, buffer)
    }
}

// How many phases there have been, with one more or none.
fn counted(phases: u64, is_phase: bool) -> u64
    requires { phases + 1 < 2 ^ 64 }
    ensures { result ≡ cond is_phase (phases + 1) phases }
{
    if is_phase { phases + 1 } else { phases }
}

/// Memory ran out, and nothing was run.
pub fn starved_crew<J: Job, P: Port>(alloc: Global, ports: Slots<P>) -> CrewEnd<J, P>
    ensures serve { AllServe result.tables }
    ensures none { length (part_of result.tables).fired ≡ 0 }
    ensures finish { result.finish ≡ finish.NoMemory }
    ensures ports { result.ports ≡ ports }
{
    CrewEnd {
        finish: RunFinish::NoMemory,
        ports,
        tables: Tables::none(alloc),
    }
}

// Sixteen tables that have had no token.
fn fresh_tables<J: Job>(alloc: Global) -> Result<Tables<J>, NoMemory>
    ensures all { IfOk result (λ tables. length (all_contents tables) ≡ 16) }
    ensures serve { IfOk result (λ tables. AllServe tables) }
    ensures none { IfOk result (λ tables. length (part_of tables).fired ≡ 0) }
{
    let tables = Tables::new(alloc)?;
    fitting(&tables, &[0; 16]);
    Ok(tables)
}

/// Tables that have had no token: sixteen, or none if memory ran out.
pub fn no_tables<J: Job>(alloc: Global) -> Tables<J>
    ensures serve { AllServe result }
    ensures none { length (part_of result).fired ≡ 0 }
{
    match fresh_tables(alloc) {
        Ok(tables) => tables,
        Err(_) => Tables::none(alloc),
    }
}
