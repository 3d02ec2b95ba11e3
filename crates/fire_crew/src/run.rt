//! The run of an image by a crew.

ghost use Rattle.std.specs.Prelude.{◌≡◌, ◌≤◌, length};
ghost use Rattle.port_set.specs.Slots.{AllOpen, contents};
ghost use Rattle.store_buf.specs.Outdoors.{AllTell, began_of, world_with};
ghost use Rattle.match_table.specs.Together.{AllServe, part_of};
ghost use Rattle.store_buf.specs.Answer.{RunTells};
ghost use Rattle.match_table.specs.Rows.{contents as all_contents};
ghost use Rattle.fire_crew.specs.Finishes.{EndsSo, LeavesAll};

use crate::Gate;
use crate::crew::{Crew, starved_crew};
use crate::finish::CrewEnd;
use crate::laws::ends_are_told;
use df_core::{Code, Job};
use port_set::{Port, Slots};
use std::alloc::Global;
use std::marker::Brand;
use std::sync::Wait;
use std::thread::Threads;
use store_buf::{RunEnd, told_ports_begin};
use ws_isa::Checked;
use ws_words::Words;

/// Runs the image of a job with so many workers, as `Crew::run_job` does.
pub fn crew_run<J: Job + Send + Sync, P: Port + Send, G: Gate, R: Threads + Wait + Sync>(
    rt: &R,
    alloc: Global,
    image: &Checked,
    input: Words,
    ports: Slots<P>,
    workers: u32,
    budget: u64,
    gate: &G,
) -> CrewEnd<J, P>
    requires image { image.now ≡ J.image }
    requires world { J.world ≡ world_with input (contents P.tells ports) }
    requires began { J.began ≡ began_of (contents P.tells ports) }
    requires told { AllTell (contents P.tells ports) }
    requires open { AllOpen (contents P.tells ports) }
    requires workers { (1 ≤ workers) × (workers ≤ 8) }
    ensures serve { AllServe result.tables }
    ensures within { length (part_of result.tables).fired ≤ budget }
    ensures finish { EndsSo J.image J.world J.began budget (part_of result.tables).fired
        (contents P.tells ports) (contents P.tells result.ports) result.finish }
    ensures all { LeavesAll result.finish (all_contents result.tables) }
    ensures open { AllOpen (contents P.tells result.ports) }
{
    let crew = Crew {
        rt,
        alloc,
        gate,
        workers,
        budget,
    };
    crew.run_job(image, input, ports)
}

impl<'a, G: Gate, R: Threads + Wait + Sync> Crew<'a, G, R> {
    /// Runs an image, until the whole walk has been run, so many instances have fired, the walk's first
    /// out-of-bounds load or store is next, a port fails, or memory runs out. Each port reports the words
    /// that it has left, and none is closed.
    pub fn run_image<P: Port + Send>(
        &self,
        image: &Checked,
        input: Words,
        ports: Slots<P>,
    ) -> RunEnd<P>
        requires told { AllTell (contents P.tells ports) }
        requires open { AllOpen (contents P.tells ports) }
        ensures tells { RunTells image.now (world_with input (contents P.tells ports))
            (contents P.tells ports) self.now.budget result.finish (contents P.tells result.ports) }
        ensures open { AllOpen (contents P.tells result.ports) }
    {
        self.run_as::<Brand, P>(image, input, ports)
    }

    // The same, as a job.
    fn run_as<J: Job + Send + Sync, P: Port + Send>(
        &self,
        image: &Checked,
        input: Words,
        ports: Slots<P>,
    ) -> RunEnd<P>
        requires image { image.now ≡ J.image }
        requires world { J.world ≡ world_with input (contents P.tells ports) }
        requires began { J.began ≡ began_of (contents P.tells ports) }
        requires told { AllTell (contents P.tells ports) }
        requires open { AllOpen (contents P.tells ports) }
        ensures tells { RunTells J.image J.world (contents P.tells ports) self.now.budget result.finish
            (contents P.tells result.ports) }
        ensures open { AllOpen (contents P.tells result.ports) }
    {
        ends_are_told();
        let end: CrewEnd<J, P> = self.run_job(image, input, ports);
        RunEnd {
            finish: end.finish,
            ports: end.ports,
        }
    }

    /// Runs the image of a job, as `run_image` does, and leaves the tables too.
    pub fn run_job<J: Job + Send + Sync, P: Port + Send>(
        &self,
        image: &Checked,
        input: Words,
        ports: Slots<P>,
    ) -> CrewEnd<J, P>
        requires image { image.now ≡ J.image }
        requires world { J.world ≡ world_with input (contents P.tells ports) }
        requires began { J.began ≡ began_of (contents P.tells ports) }
        requires told { AllTell (contents P.tells ports) }
        requires open { AllOpen (contents P.tells ports) }
        ensures serve { AllServe result.tables }
        ensures within { length (part_of result.tables).fired ≤ self.now.budget }
        ensures finish { EndsSo J.image J.world J.began self.now.budget (part_of result.tables).fired
            (contents P.tells ports) (contents P.tells result.ports) result.finish }
        ensures all { LeavesAll result.finish (all_contents result.tables) }
        ensures open { AllOpen (contents P.tells result.ports) }
    {
        told_ports_begin();
        match Code::of(self.alloc, image) {
            Ok(code) => self.run_over(&code, input, ports),
            Err(_) => starved_crew(self.alloc, ports),
        }
    }
}
